//! Tables over offsets whose greatest number is 100: what would pass it is refused, and what is before it stays.
use super::{list, steps};
use arrow_table::{Item, Kind, Parts, Raw, Table};
use arrow_types::data_type::DataType;
use std::process::Abort;
use tests_support::Tiny;

/// Creates an item of bytes.
fn bytes(rt: &(impl Abort + AllocGlobal), count: usize) -> Item<i64> {
    Item::Bytes(vec![in rt.alloc(); 7; count].expect(rt, "memory"))
}

/// Creates a text of a letter that is repeated.
fn text(rt: &(impl Abort + AllocGlobal), letter: &str, count: usize) -> Item<i64> {
    let mut text = String::new(rt.alloc());
    for _ in 0..count {
        text.push_str(letter).expect(rt, "memory");
    }
    Item::Text(text)
}

/// Creates the parts of a builder of bytes that has these offsets.
fn window(rt: &(impl Abort + AllocGlobal), numbers: &[i8], end: usize) -> Parts<i64, Tiny> {
    let mut offsets = Vec::new(rt.alloc());
    for number in numbers {
        let offset = Tiny::new(*number).expect(rt, "an offset");
        offsets.push(offset).expect(rt, "memory");
    }
    Parts {
        kind: Kind::MutableBinary,
        data_type: DataType::Binary,
        raw: Raw::Pieces(offsets, vec![in rt.alloc(); 7; end].expect(rt, "memory")),
        mask: None,
    }
}

#[test]
fn pushes_past_the_maximal_offset_are_refused(rt: HostRuntime) {
    let mut table = Table::<i64, Tiny>::new(rt.alloc(), 3).expect(&rt, "memory");
    steps!(&rt, &mut table;
        New(0, Kind::MutableBinary) => "ok"; Push(0, Some(bytes(&rt, 60))) => "ok";
        Push(0, Some(bytes(&rt, 41))) => "refused: overflow";
        Len(0) => "1"; Held(0) => "false"; Offsets(0) => "[0, 60]";
        Push(0, Some(bytes(&rt, 40))) => "ok"; Push(0, Some(bytes(&rt, 0))) => "ok";
        Push(0, Some(bytes(&rt, 1))) => "refused: overflow";
        PushNull(0) => "ok"; Offsets(0) => "[0, 60, 100, 100, 100]"; Pop(0) => "_";
    );
    for (e, kind) in [(1, Kind::Utf8Values), (2, Kind::MutableUtf8)] {
        steps!(&rt, &mut table;
            New(e, kind) => "ok"; Push(e, Some(text(&rt, "a", 99))) => "ok"; Offsets(e) => "[0, 99]";
            Push(e, Some(text(&rt, "é", 1))) => "refused: overflow";
            Push(e, Some(text(&rt, "a", 1))) => "ok"; Offsets(e) => "[0, 99, 100]"; PushNull(e) => "ok";
            Push(e, Some(text(&rt, "a", 1))) => "refused: overflow"; Len(e) => "3";
        );
    }
    table.discard();
}

#[test]
fn extensions_keep_what_is_before_the_maximal_offset(rt: HostRuntime) {
    steps!(&rt, Table<i64, Tiny>, 2;
        New(0, Kind::BinaryValues) => "ok";
        ExtendValues(0, list!(&rt; bytes(&rt, 50), bytes(&rt, 50), bytes(&rt, 1))) => "refused: overflow";
        Len(0) => "2"; Offsets(0) => "[0, 50, 100]";
        ExtendValues(0, list!(&rt; bytes(&rt, 0), bytes(&rt, 0), bytes(&rt, 1), bytes(&rt, 0))) => "refused: overflow";
        Len(0) => "4"; New(1, Kind::MutableUtf8) => "ok"; Push(1, Some(text(&rt, "a", 99))) => "ok";
        Extend(1, list!(&rt; None, Some(text(&rt, "a", 1)), Some(text(&rt, "a", 1)), None)) => "refused: overflow";
        Offsets(1) => "[0, 99, 99, 100]"; Held(1) => "true"; Pop(1) => "'a'"; Pop(1) => "_";
        Extend(1, list!(&rt; Some(text(&rt, "a", 1)), None, Some(text(&rt, "a", 1)))) => "refused: overflow";
        Offsets(1) => "[0, 99, 100, 100]"; Pop(1) => "_"; Pop(1) => "'a'";
        Extend(1, list!(&rt; Some(text(&rt, "é", 1)))) => "refused: overflow"; Len(1) => "1";
        ExtendValues(1, list!(&rt; text(&rt, "é", 1), text(&rt, "a", 1))) => "refused: overflow";
        Len(1) => "1"; Held(1) => "true";
    );
}

#[test]
fn only_the_slots_of_another_builder_count(rt: HostRuntime) {
    steps!(&rt, Table<i64, Tiny>, 4;
        New(0, Kind::MutableBinary) => "ok"; Push(0, Some(bytes(&rt, 60))) => "ok";
        New(1, Kind::MutableBinary) => "ok"; Push(1, Some(bytes(&rt, 41))) => "ok"; Push(1, None) => "ok";
        ExtendFromSelf(0, 1) => "refused: overflow"; Len(0) => "1"; Held(0) => "false";
        Parts(2, window(&rt, &[30, 70], 70)) => "ok"; ExtendFromSelf(0, 2) => "ok"; Offsets(0) => "[0, 60, 100]";
        Parts(3, window(&rt, &[40], 40)) => "ok"; Push(3, Some(bytes(&rt, 61))) => "refused: overflow";
        Push(3, Some(bytes(&rt, 60))) => "ok"; Offsets(3) => "[40, 100]"; Freeze(3) => "ok"; Thaw(3) => "right";
        Push(3, Some(bytes(&rt, 1))) => "refused: overflow"; Len(3) => "1";
    );
}

#[test]
fn constructors_past_the_maximal_offset_leave_the_entry_empty(rt: HostRuntime) {
    let slots = list!(&rt; Some(bytes(&rt, 50)), Some(bytes(&rt, 50)), None, Some(bytes(&rt, 1)));
    steps!(&rt, Table<i64, Tiny>, 1;
        FromSlots(0, Kind::Binary, slots) => "refused: overflow"; Len(0) => "not met";
        FromItems(0, Kind::BinaryValues, list!(&rt; bytes(&rt, 50), bytes(&rt, 50), bytes(&rt, 1)))
            => "refused: overflow"; Len(0) => "not met";
        FromSlots(0, Kind::MutableUtf8, list!(&rt; None, Some(text(&rt, "a", 99)), Some(text(&rt, "é", 1))))
            => "refused: overflow"; Len(0) => "not met";
        FromSlots(0, Kind::MutableUtf8, list!(&rt; None, Some(text(&rt, "a", 99)), Some(text(&rt, "a", 1)))) => "ok";
        Offsets(0) => "[0, 0, 99, 100]";
    );
}

/// A key out of bounds is reported before an end past the maximal offset, which filtered rows never pass.
#[test]
fn rows_at_keys_past_the_maximal_offset_leave_the_entry_empty(rt: HostRuntime) {
    let past = "refused: a dictionary key must be below the length of the dictionary values";
    let filter = list!(&rt; Item::Bit(true), Item::Bit(true), Item::Bit(false), Item::Bit(true));
    steps!(&rt, Table<i64, Tiny>, 7;
        FromSlots(0, Kind::Binary, list!(&rt; Some(bytes(&rt, 40)))) => "ok";
        Take(0, list!(&rt; 0, 0, 0), 1) => "refused: overflow"; Len(1) => "not met";
        Take(0, list!(&rt; 0, 0, 0, 1), 1) => past;
        Take(0, list!(&rt; 0, 0), 1) => "ok"; Offsets(1) => "[0, 40, 80]";
        FromSlots(2, Kind::Utf8, list!(&rt; Some(text(&rt, "a", 50)), None)) => "ok";
        Take(2, list!(&rt; 0, 1, 0, 1), 3) => "ok"; Offsets(3) => "[0, 50, 50, 100, 100]";
        Take(2, list!(&rt; 0, 0, 1, 0), 4) => "refused: overflow"; Len(4) => "not met";
        FromItems(4, Kind::Boolean, filter) => "ok"; Filter(3, 4, 5) => "ok"; Offsets(5) => "[0, 50, 50, 50]";
        Take(4, vec![in rt.alloc(); 0; 101].expect(&rt, "memory"), 6) => "ok"; Len(6) => "101";
    );
}
