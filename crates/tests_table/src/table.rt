//! What a table does beyond the lines of the program, whose replies are files in `examples/`: raw parts that no line
//! writes, offsets that end early, another native type, runs, entries that are borrowed, counts of text tests, reserved
//! room, and two tables at once. Commands are run one by one, and their replies compared as text.
mod natives;
mod parts;
mod room;
mod runs;
mod texts;
mod tiny;
mod widths;

use arrow_table::{Command, Item, Reply, Table, run};
use arrow_types::native_type::NativeType;
use arrow_types::offset::Offset;
use std::fmt::Debug;
use std::process::Abort;
use tests_support::{Text, assert_text};

/// Runs each command on a table, or on a new one of some entries, and compares its reply with a text. A failure names
/// the command, its number in the list, and the types of the table.
macro_rules! steps {
    ($rt:expr, Table<$native:ty, $offset:ty>, $entries:expr; $($steps:tt)*) => {
        let made = arrow_table::Table::<$native, $offset>::new($rt.alloc(), $entries);
        let mut table = made.expect($rt, "memory");
        steps!($rt, &mut table; $($steps)*);
        table.discard();
    };
    ($rt:expr, $table:expr; $($command:ident($($argument:expr),*) => $reply:expr;)*) => {
        let mut row = 0;
        $($crate::table::check_step(
            $rt,
            $table,
            &mut row,
            stringify!($command($($argument),*)),
            arrow_table::Command::$command($($argument),*),
            $reply,
        );)*
    };
}

/// Creates a list of these.
macro_rules! list {
    ($rt:expr; $($element:expr),*) => {
        vec![in $rt.alloc(); $($element),*].expect($rt, "memory")
    };
}

pub(crate) use list;
pub(crate) use steps;

/// Writes a slot behind a text.
fn with_slot<T: Debug>(written: Text, slot: &Option<Item<T>>) -> Text {
    match slot {
        Some(Item::Value(value)) => written.and(format_args!("{value:?}"), 100),
        Some(Item::Bit(bit)) => written.and(format_args!("{bit}"), 100),
        Some(Item::Bytes(bytes)) => written.and(format_args!("{bytes:?}"), 400),
        Some(Item::Text(text)) => written.and(format_args!("'{}'", text.as_str()), 400),
        None => written.and("_", 1),
    }
}

/// Returns the text of a reply, as `[1 _]` for slots and `[1, 2]` for numbers.
pub(crate) fn reply_text<T: Debug>(reply: &Reply<T>) -> Text {
    match reply {
        Reply::Done => Text::of("ok"),
        Reply::NotMet => Text::of("not met"),
        Reply::NotGiven => Text::of("not given"),
        Reply::Number(number) => Text::of(format_args!("{number}")),
        Reply::Flag(flag) => Text::of(format_args!("{flag}")),
        Reply::Slot(slot) => with_slot(Text::new(), slot),
        Reply::Slots(slots) => {
            let mut written = Text::of("[");
            for (place, slot) in slots.iter().enumerate() {
                written = with_slot(written.and(if place == 0 { "" } else { " " }, 1), slot);
            }
            written.and("]", 1)
        }
        Reply::Numbers(numbers) => Text::of(format_args!("{numbers:?}")),
        Reply::Typed(data_type) => Text::of(format_args!("{data_type}")),
        Reply::Left => Text::of("left"),
        Reply::Right => Text::of("right"),
        Reply::Refused(error) => Text::of(format_args!("refused: {error}")),
    }
}

/// Returns the text of a case of a row, and of the types of its table's values and offsets.
pub(crate) fn case_text<T: NativeType, O: Offset>(case: &str, row: usize) -> Text {
    let offsets = if O::IS_LARGE { "large" } else { "small" };
    Text::of(format_args!(
        "{case}, row {row}, {:?} and {offsets} offsets",
        T::PRIMITIVE
    ))
}

/// Returns the texts of the replies of a run, behind the number of commands that it did.
pub(crate) fn run_text<T: Debug>(done: usize, replies: &[Reply<T>]) -> Text {
    let mut written = Text::of(format_args!("{done}:"));
    for (place, reply) in replies.iter().enumerate() {
        let gap = if place == 0 { " " } else { ", " };
        written = written.and(gap, 2).and(reply_text(reply).as_str(), 400);
    }
    written
}

/// Compares the reply to a command, which is the row after those before, with a text.
pub(crate) fn check_step<T: NativeType + Debug, O: Offset>(
    rt: &(impl Abort + AllocGlobal),
    table: &mut Table<T, O>,
    row: &mut usize,
    case: &str,
    command: Command<T, O>,
    expected: &str,
) {
    let mut commands = Vec::new(rt.alloc());
    commands.push(command).expect(rt, "memory");
    let mut replies = Vec::new(rt.alloc());
    let done = run(table, commands.as_slice(), &mut replies);
    drop(commands);
    let came = match (done, replies.as_slice()) {
        (1, [reply]) => reply_text(reply),
        _ => run_text(done, &replies),
    };
    drop(replies);
    assert_text::text(came, expected).expect(rt, case_text::<T, O>(case, *row).as_str());
    *row = row.wrapping_add(1);
}
