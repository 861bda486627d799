//! What tests of text cost: how many tests whether bytes are ASCII, how many whether they are UTF-8, and at how many
//! bytes it is looked whether a character begins there.
use super::parts::Stored::Pieces;
use super::parts::{NOT_UTF8, Stored, Type, parts};
use super::{case_text, check_step, steps};
use arrow_table::{Command, Item, Kind, Raw, Table};
use arrow_types::offset::Offset;
use std::process::Abort;
use tests_support::assert_text;

/// A name, parts of text, the reply, and what tests cost up to here.
type Case = (&'static str, Stored, &'static str, [u64; 3]);

/// ASCII is not looked at further, and of other bytes the offsets between two slots are, but for those at their end.
/// What is refused before the test costs nothing.
#[rattlefmt::skip]
const COSTS: &[Case] = &[
    ("ASCII", Pieces(&[0, 1, 2, 3], b"abc"), "ok", [1, 0, 0]),
    ("four bytes, and none", Pieces(&[0, 4, 4], b"\xF0\x9F\x98\x80"), "ok", [2, 1, 0]),
    ("half a character", Pieces(&[1, 2], b"\xC3\xA9"), NOT_UTF8, [3, 2, 0]),
    ("nothing within a character", Pieces(&[1, 1], b"\xC3\xA9"), "ok", [4, 2, 0]),
    ("past the bytes", Pieces(&[5], b""), "refused: offsets must not exceed the values length", [4, 2, 0]),
    ("an offset within a character", Pieces(&[0, 1, 4], b"\xC3\xA9\xC3\xA8"), NOT_UTF8, [5, 3, 1]),
];

/// Returns what tests of text have cost.
fn cost<O: Offset>(table: &Table<i64, O>) -> [u64; 3] {
    let cost = table.text_cost();
    [cost.ascii_tests(), cost.whole_tests(), cost.bytes_looked()]
}

/// Compares the costs of few texts.
fn check_few<O: Offset + From<i32>>(rt: &(impl Abort + AllocGlobal)) {
    let mut table = Table::<i64, O>::new(rt.alloc(), COSTS.len()).expect(rt, "memory");
    assert_text::value(cost(&table), [0, 0, 0]).expect(rt, "a new table");
    let mut row = 0;
    for (entry, (case, stored, expected, wanted)) in COSTS.iter().enumerate() {
        let parts = parts(rt, Kind::Utf8, Type::Text, None, stored, &[]);
        let command = Command::Parts(entry, parts);
        check_step(rt, &mut table, &mut row, *case, command, *expected);
        let case = case_text::<i64, O>(*case, entry);
        assert_text::value(cost(&table), *wanted).expect(rt, case.as_str());
    }
    table.discard();
}

/// Compares the costs of a hundred texts of two bytes, which are tested together, each time that they are given, and of
/// bytes and of parts that are refused before, which are never tested.
fn check_hundred<O: Offset + From<i32>>(rt: &(impl Abort + AllocGlobal)) {
    let mut table = Table::<i64, O>::new(rt.alloc(), 4).expect(rt, "memory");
    for (e, wanted) in [(0, [1, 1, 99]), (1, [2, 2, 198])] {
        let (mut offsets, mut bytes) = (Vec::new(rt.alloc()), Vec::new(rt.alloc()));
        for number in 0..101_i32 {
            offsets
                .push(O::from(number.wrapping_mul(2)))
                .expect(rt, "memory");
            let letter = if number == 0 { "" } else { "é" };
            bytes
                .extend_from_slice(letter.as_bytes())
                .expect(rt, "memory");
        }
        let mut hundred = parts(rt, Kind::Utf8, Type::Text, None, &Pieces(&[0], b""), &[]);
        hundred.raw = Raw::Pieces(offsets, bytes);
        steps!(rt, &mut table; Parts(e, hundred) => "ok";);
        let case = case_text::<i64, O>("a hundred texts", e);
        assert_text::value(cost(&table), wanted).expect(rt, case.as_str());
    }
    let letter = Item::Text(String::from_str(rt.alloc(), "é").expect(rt, "memory"));
    let (text, cut) = (
        Pieces(&[0, 1], b"a"),
        Pieces(&[0, 1, 4], b"\xC3\xA9\xC3\xA8"),
    );
    steps!(rt, &mut table;
        Parts(2, parts(rt, Kind::Binary, Type::Bytes, None, &cut, &[])) => "ok";
        Parts(3, parts(rt, Kind::Utf8, Type::Text, None, &Pieces(&[1, 0], b"a"), &[]))
            => "refused: offsets must never fall";
        Parts(3, parts(rt, Kind::Utf8, Type::Text, Some((&[1], 9)), &text, &[]))
            => "refused: the bits must fit in the bytes";
        Parts(0, parts(rt, Kind::Utf8, Type::Text, None, &text, &[])) => "not met";
        Parts(3, parts(rt, Kind::Utf8Values, Type::Text, Some((&[1], 1)), &text, &[])) => "not met";
        Clone(1, 3) => "ok"; Drop(0) => "ok"; Thaw(3) => "left"; Drop(1) => "ok"; Thaw(3) => "right";
        Push(3, Some(letter)) => "ok"; Freeze(3) => "ok";
    );
    let case = case_text::<i64, O>("no new text", 2);
    assert_text::value(cost(&table), [2, 2, 198]).expect(rt, case.as_str());
    table.discard();
}

#[test]
fn texts_are_tested_once(rt: HostRuntime) {
    check_few::<i32>(&rt);
    check_few::<i64>(&rt);
    check_hundred::<i32>(&rt);
    check_hundred::<i64>(&rt);
}
