//! Tables of both widths.
use super::parts::Stored::Values;
use super::parts::{Type, parts};
use super::{list, reply_text, run_text};
use arrow_table::{BothCommand, Command, Item, Kind, Reply, Tables, Width, run_both};
use std::process::Abort;
use tests_support::{Text, assert_text};

/// Compares a reply, which is that of the row after those before, with a text.
fn check_reply(rt: &impl Abort, row: &mut usize, case: &str, reply: Reply<i64>, expected: &str) {
    let came = reply_text(&reply);
    drop(reply);
    let case = Text::of(format_args!("{case}, row {}", *row));
    assert_text::text(came, expected).expect(rt, case.as_str());
    *row = row.wrapping_add(1);
}

/// Compares the replies of calls, in order. A failure names the call and its number in the list.
macro_rules! replies {
    ($rt:expr; $($reply:expr => $expected:expr;)*) => {
        let mut row = 0;
        $(check_reply($rt, &mut row, stringify!($reply), $reply, $expected);)*
    };
}

#[test]
fn texts_go_from_one_width_to_the_other(rt: HostRuntime) {
    let mut tables = Tables::new(rt.alloc(), 4).expect(&rt, "memory");
    let slots = list!(&rt;
        Some(Item::<i64>::Text(String::from_str(rt.alloc(), "hi").expect(&rt, "memory"))), None,
        Some(Item::<i64>::Text(String::from_str(rt.alloc(), "there").expect(&rt, "memory")))
    );
    let commands = list!(&rt;
        BothCommand::Narrow(Command::FromSlots(0, Kind::Utf8, slots)), BothCommand::Widen(0, 0),
        BothCommand::Wide(Command::TypeOf(0)), BothCommand::Wide(Command::Offsets(0)),
        BothCommand::NarrowTo(0, 1), BothCommand::Narrow(Command::Drop(0)),
        BothCommand::Narrow(Command::TypeOf(1)), BothCommand::Wide(Command::Len(0)),
        BothCommand::Widen(1, 0), BothCommand::Widen(0, 1), BothCommand::NarrowTo(5, 2)
    );
    let mut replies = Vec::new(rt.alloc());
    let done = run_both(&mut tables, &commands, &mut replies);
    drop(commands);
    let came = run_text(done, &replies);
    drop(replies);
    let expected =
        "11: ok, ok, LargeUtf8, [0, 2, 2, 7], ok, ok, Utf8, 3, not met, not met, not met";
    assert_text::text(came, expected).expect(&rt, "run_both");
    let (narrow, wide) = (tables.narrow(), tables.wide());
    let (first, second) = (narrow.text_cost(), wide.text_cost());
    let tests = (first.whole_tests(), second.whole_tests());
    assert_text::value(tests, (0, 0)).expect(&rt, "tests of text");
    let is_text = narrow.kind(1) == Some(Kind::Utf8) && wide.kind(0) == Some(Kind::Utf8);
    let left = (is_text, narrow.kind(0).is_none(), narrow.len());
    assert_text::value(left, (true, true, 4)).expect(&rt, "kinds, the empty entry, len");
    tables.discard();
}

#[test]
fn commands_are_run_one_by_one_on_either_side(rt: HostRuntime) {
    let mut tables = Tables::new(rt.alloc(), 2).expect(&rt, "memory");
    replies!(&rt;
        tables.on_narrow(rt.alloc(), &Command::New(0, Kind::MutableBinary)) => "ok";
        tables.on_wide(rt.alloc(), &Command::New(1, Kind::MutableBinary)) => "ok";
        tables.widen(0, 0) => "not met";
        tables.on_narrow(rt.alloc(), &Command::Freeze(0)) => "ok";
        tables.on_wide(rt.alloc(), &Command::Freeze(1)) => "ok";
        tables.widen(0, 0) => "ok";
        tables.narrow_to(1, 1) => "ok";
        tables.on_wide(rt.alloc(), &Command::Len(0)) => "0";
        tables.on_narrow(rt.alloc(), &Command::TypeOf(1)) => "Binary";
    );
    tables.discard();
}

#[test]
fn slots_go_in_with_no_command(rt: HostRuntime) {
    let mut tables = Tables::new(rt.alloc(), 1).expect(&rt, "memory");
    let value = Some(Item::Value(7));
    replies!(&rt;
        i32::push(&mut tables, 0, &None) => "not met";
        i64::push(&mut tables, 0, &None) => "not met";
        tables.on_wide(rt.alloc(), &Command::New(0, Kind::MutablePrimitive)) => "ok";
        i32::push(&mut tables, 0, &value) => "not met";
        i64::push(&mut tables, 0, &value) => "ok";
        i32::push(&mut tables, 0, &None) => "not met";
        i64::push(&mut tables, 0, &None) => "ok";
        tables.on_wide(rt.alloc(), &Command::Slots(0)) => "[7 _]";
    );
    drop(value);
    tables.discard();
}

#[test]
fn parts_go_in_with_no_command(rt: HostRuntime) {
    let mut tables = Tables::new(rt.alloc(), 1).expect(&rt, "memory");
    replies!(&rt;
        i32::parts(&mut tables, 0, parts(&rt, Kind::Primitive, Type::Native, None, &Values(2), &[3, 4])) => "ok";
        i64::parts(&mut tables, 0, parts(&rt, Kind::Primitive, Type::Native, None, &Values(2), &[3, 4])) => "ok";
        i32::parts(&mut tables, 0, parts(&rt, Kind::Primitive, Type::Native, None, &Values(2), &[3, 4])) => "not met";
        i64::parts(&mut tables, 0, parts(&rt, Kind::Primitive, Type::Native, None, &Values(2), &[3, 4])) => "not met";
        tables.on_narrow(rt.alloc(), &Command::Len(0)) => "2";
        tables.on_wide(rt.alloc(), &Command::Len(0)) => "2";
    );
    tables.discard();
}
