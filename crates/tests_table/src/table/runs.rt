//! Runs of several commands, what a table lends of its entries, and commands that the program runs another way: it
//! appends slots with no command made for them, and prints all slots from where they lie.
use super::{list, run_text, steps};
use arrow_table::{Command, Item, Kind, Table, run};
use arrow_types::data_type::DataType;
use std::process::Abort;
use tests_support::assert_text;

/// Compares the kind of an entry, and of what a table lends of it.
fn check_kind(rt: &impl Abort, case: &str, table: &Table<i64, i32>, e: usize, kind: Option<Kind>) {
    let lent = match table.get(e) {
        Some(entry) => Some(entry.kind()),
        None => None,
    };
    let are_right = (table.kind(e) == kind, lent == kind);
    assert_text::value(are_right, (true, true)).expect(rt, case);
}

#[test]
fn entries_have_kinds(rt: HostRuntime) {
    let mut table = Table::<i64, i32>::new(rt.alloc(), 11).expect(&rt, "memory");
    assert_text::value(table.len(), 11).expect(&rt, "len");
    let kinds = list!(&rt;
        ("prim", Kind::Primitive), ("bool", Kind::Boolean), ("bin", Kind::Binary), ("utf8", Kind::Utf8),
        ("mprim", Kind::MutablePrimitive), ("mbool", Kind::MutableBoolean), ("mbin", Kind::MutableBinary),
        ("mutf8", Kind::MutableUtf8), ("vbin", Kind::BinaryValues), ("vutf8", Kind::Utf8Values)
    );
    for (e, (name, kind)) in kinds.iter().enumerate() {
        check_kind(&rt, "an empty entry", &table, e, None);
        steps!(&rt, &mut table; New(e, *kind) => "ok";);
        check_kind(&rt, *name, &table, e, Some(*kind));
    }
    drop(kinds);
    for e in [10, 11, usize::MAX] {
        check_kind(&rt, "an empty entry, or none", &table, e, None);
    }
    table.discard();
}

#[test]
fn a_table_without_entries_only_checks_indexes(rt: HostRuntime) {
    let mut table = Table::<i64, i32>::new(rt.alloc(), 0).expect(&rt, "memory");
    steps!(&rt, &mut table;
        New(0, Kind::Primitive) => "not met"; Len(0) => "not met"; Clone(0, 0) => "not met";
        ExtendFromSelf(0, 0) => "not met"; Equal(0, 0) => "not met"; CheckIndexes(list!(&rt; 0), 1) => "ok";
    );
    assert_text::value(table.len(), 0).expect(&rt, "len");
    table.discard();
}

#[test]
fn a_run_appends_a_reply_for_each_command(rt: HostRuntime) {
    let mut table = Table::<i64, i32>::new(rt.alloc(), 1).expect(&rt, "memory");
    let mut replies = Vec::new(rt.alloc());
    let commands = list!(&rt;
        Command::New(0, Kind::MutablePrimitive), Command::Push(0, Some(Item::Value(7))), Command::Push(0, None),
        Command::Slots(0)
    );
    let done = run(&mut table, &commands, &mut replies);
    let came = run_text(done, &replies);
    assert_text::text(came, "4: ok, ok, ok, [7 _]").expect(&rt, "four commands");
    let done = run(&mut table, &[], &mut replies);
    let came = run_text(done, &replies);
    assert_text::text(came, "0: ok, ok, ok, [7 _]").expect(&rt, "no command");
    let rest = commands.get(2..).expect(&rt, "two commands");
    let done = run(&mut table, rest, &mut replies);
    drop(commands);
    table.discard();
    let came = run_text(done, &replies);
    drop(replies);
    assert_text::text(came, "2: ok, ok, ok, [7 _], ok, [7 _ _]").expect(&rt, "two more");
}

#[test]
fn slots_are_pushed_by_commands(rt: HostRuntime) {
    steps!(&rt, Table<i64, i32>, 2;
        New(0, Kind::MutableBoolean) => "ok"; Push(0, Some(Item::Bit(true))) => "ok"; Push(0, None) => "ok";
        Push(0, Some(Item::Value(1))) => "not met"; Slots(0) => "[true _]";
        New(1, Kind::BinaryValues) => "ok"; Push(1, Some(Item::Bytes(list!(&rt; 3)))) => "ok";
        Push(1, None) => "not met"; PushNull(1) => "ok"; Slots(1) => "[[3] []]";
        Freeze(0) => "ok"; Push(0, None) => "not met"; Push(2, None) => "not met"; Slots(2) => "not met";
    );
}

#[test]
fn nulls_have_a_type_of_the_kind(rt: HostRuntime) {
    steps!(&rt, Table<i64, i32>, 1;
        NewNull(0, Kind::Primitive, DataType::Boolean, 1) => "not met";
        NewNull(0, Kind::Boolean, DataType::Int64, 1) => "not met";
        NewNull(0, Kind::Binary, DataType::Utf8, 1) => "not met";
        NewNull(0, Kind::Utf8, DataType::Binary, 1) => "not met";
        NewNull(0, Kind::Primitive, DataType::Date64, 1) => "ok"; TypeOf(0) => "Date64"; Slots(0) => "[_]";
    );
}
