//! Runs of a table, whichever allocation is refused: the command that needed it says so, and leaves its entry as it
//! was, or empty if it freezes it; what needs no memory is never refused for it, and neither is what overflows.
//!
//! Replies are written as words: `ok`, `-` if a condition does not hold, `refused` and `overflow`, numbers, and
//! `[=1 _]` for slots.
use crate::overflows::{FORTY_ONE, SIXTY};
use crate::refusal::{check_text, end};
use arrow_table::{Command, Item, Kind, Reply, Table, run};
use arrow_types::error::Error;
use arrow_types::offset::Offset;
use std::process::Abort;
use std::test::Fail;
use tests_support::{Text, Tiny, assert_text};

/// Writes a slot.
fn slot_text(slot: &Option<Item<i64>>) -> Text {
    match slot {
        Some(Item::Value(value)) => Text::of(format_args!("={value}")),
        Some(Item::Bit(bit)) => Text::of(format_args!("={bit}")),
        Some(Item::Bytes(bytes)) => {
            let item = str::from_utf8(bytes.as_slice()).unwrap_or("not text");
            Text::of(format_args!("={item}"))
        }
        Some(Item::Text(text)) => Text::of(format_args!("={}", text.as_str())),
        None => Text::of("_"),
    }
}

/// Writes a reply.
fn reply_text(reply: &Reply<i64>) -> Text {
    match reply {
        Reply::Done => Text::of("ok"),
        Reply::NotMet => Text::of("-"),
        Reply::Number(number) => Text::of(format_args!("{number}")),
        Reply::Slot(slot) => slot_text(slot),
        Reply::Slots(slots) => {
            let mut written = Text::of("[");
            for (index, slot) in slots.iter().enumerate() {
                let gap = if index == 0 { "" } else { " " };
                written = written.and(gap, 1).and(slot_text(slot).as_str(), 100);
            }
            written.and("]", 1)
        }
        Reply::Refused(Error::OutOfMemory) => Text::of("refused"),
        Reply::Refused(Error::Overflow) => Text::of("overflow"),
        _ => Text::of("another reply"),
    }
}

/// Compares the replies to commands on a table of two entries with a line, or, if a command was refused memory, with
/// others. If the list of replies was refused memory, a second run does the rest. Returns whether any was refused.
fn check_replies<O: Offset>(
    rt: &(impl Abort + AllocGlobal),
    case: &str,
    commands: &[Command<i64, O>],
    expected: &str,
    refused: &[&str],
) -> bool {
    let mut table = Table::<i64, O>::new(rt.alloc(), 2).expect(rt, "refused");
    let mut replies = Vec::new(rt.alloc());
    let done = run(&mut table, commands, &mut replies);
    let rest = run(&mut table, &commands[done..], &mut replies);
    table.discard();
    let mut written = Text::new();
    for (index, reply) in replies.iter().enumerate() {
        let gap = if index == 0 { "" } else { " " };
        written = written.and(gap, 1).and(reply_text(reply).as_str(), 100);
    }
    drop(replies);
    if rest == 0 {
        return check_text(rt, case, written, expected, refused);
    }
    assert_text::text(written, expected).expect(rt, case);
    true
}

/// All slots but the one that was refused are there; a builder that could not be frozen is lost.
#[test]
fn a_refused_push_or_freeze_says_so(rt: HostRuntime) -> Result<(), Fail> {
    let commands: [Command<i64, i32>; 8] = [
        Command::New(0, Kind::MutablePrimitive),
        Command::Push(0, Some(Item::Value(1))),
        Command::Push(0, None),
        Command::Len(0),
        Command::Push(0, Some(Item::Value(-3))),
        Command::Freeze(0),
        Command::Len(0),
        Command::Slots(0),
    ];
    let refused: &[&str] = &[
        "refused - - - - - - -",
        "ok refused ok 1 ok ok 2 [_ =-3]",
        "ok ok refused 1 ok ok 2 [=1 =-3]",
        "ok ok ok 2 refused ok 2 [=1 _]",
        "ok ok ok 2 ok refused - -",
        "ok ok ok 2 ok ok 3 refused",
    ];
    let expected = "ok ok ok 2 ok ok 3 [=1 _ =-3]";
    let is_refused = check_replies(&rt, "numbers", &commands, expected, refused);
    drop(commands);
    end(is_refused)
}

/// Creates the item of a kind of bytes or of text that a text writes.
fn item(rt: &(impl Abort + AllocGlobal), kind: Kind, text: &str) -> Option<Item<i64>> {
    let text = String::from_str(rt.alloc(), text).expect(rt, "refused");
    match kind {
        Kind::MutableUtf8 | Kind::Utf8Values => Some(Item::Text(text)),
        _ => Some(Item::Bytes(text.into_bytes())),
    }
}

/// The kinds of builders whose items end at offsets.
const KINDS: [(&str, Kind); 4] = [
    ("bytes", Kind::MutableBinary),
    ("text", Kind::MutableUtf8),
    ("bytes without nulls", Kind::BinaryValues),
    ("text without nulls", Kind::Utf8Values),
];

/// The replies with ample memory, and those if a command is refused memory.
type Replies = (&'static str, &'static [&'static str]);

/// Compares the replies to commands for each kind: for builders of slots, and for those without nulls.
macro_rules! check_kinds {
    ($rt:expr, $offset:ident, $slots:expr, $items:expr; $kind:ident => $commands:expr) => {{
        let mut is_any_refused = false;
        for (case, $kind) in KINDS {
            let (expected, refused) = match $kind {
                Kind::MutableBinary | Kind::MutableUtf8 => $slots,
                _ => $items,
            };
            let commands = $commands;
            let is_refused = check_replies::<$offset>($rt, case, &commands, expected, refused);
            drop(commands);
            is_any_refused = is_any_refused || is_refused;
        }
        end(is_any_refused)
    }};
}

/// Forty-one bytes behind sixty would end past the greatest offset, and one byte does not.
#[rattlefmt::skip]
const PUSHED: Replies = ("ok ok overflow 1 ok 2",
    &["refused - - - - -", "ok refused ok 1 ok 2", "ok ok overflow 1 refused 1"]);

#[test]
fn pushes_past_the_greatest_offset_overflow(rt: HostRuntime) -> Result<(), Fail> {
    check_kinds!(&rt, Tiny, PUSHED, PUSHED; kind => [
        Command::New(0, kind),
        Command::Push(0, item(&rt, kind, SIXTY)),
        Command::Push(0, item(&rt, kind, FORTY_ONE)),
        Command::Len(0),
        Command::Push(0, item(&rt, kind, "a")),
        Command::Len(0),
    ])
}

#[rattlefmt::skip]
const JOINED: Replies = ("ok ok ok ok overflow 1",
    &["refused - ok ok - -", "ok refused ok ok ok 1", "ok ok refused - - 1", "ok ok ok refused ok 1"]);

/// Appends a builder of forty-one bytes to one of sixty.
#[test]
fn joins_past_the_greatest_offset_overflow(rt: HostRuntime) -> Result<(), Fail> {
    check_kinds!(&rt, Tiny, JOINED, JOINED; kind => [
        Command::New(0, kind),
        Command::Push(0, item(&rt, kind, SIXTY)),
        Command::New(1, kind),
        Command::Push(1, item(&rt, kind, FORTY_ONE)),
        Command::ExtendFromSelf(0, 1),
        Command::Len(0),
    ])
}

/// A refused pop leaves its item; that of a null, and of no slot, takes no memory.
#[rattlefmt::skip]
const POPPED: Replies = ("ok ok ok _ =ab _ 0",
    &["refused - - - - - -", "ok refused ok _ _ _ 0", "ok ok refused =ab _ _ 0", "ok ok ok _ refused =ab 0"]);

/// A builder without nulls has an empty item in the place of a null.
#[rattlefmt::skip]
const POPPED_ITEMS: Replies = ("ok ok ok = =ab _ 0",
    &["refused - - - - - -", "ok refused ok = _ _ 0", "ok ok refused =ab _ _ 0", "ok ok ok = refused =ab 0"]);

/// Pops three slots of a builder of an item and a null.
#[test]
fn a_refused_pop_leaves_its_item(rt: HostRuntime) -> Result<(), Fail> {
    check_kinds!(&rt, i32, POPPED, POPPED_ITEMS; kind => [
        Command::New(0, kind),
        Command::Push(0, item(&rt, kind, "ab")),
        Command::PushNull(0),
        Command::Pop(0),
        Command::Pop(0),
        Command::Pop(0),
        Command::Len(0),
    ])
}
