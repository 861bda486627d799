//! Builders that take the slots of another: numbers, bytes and text, and items that would end past the greatest offset.
use super::*;

/// A name, slots, the slots behind them, and the values and the mask of both.
const NUMBERS: &[(&str, &[Option<i32>], &[Option<i32>], &[i32], &str)] = &[
    ("a value behind a null", &[None], &[Some(1)], &[0, 1], "01"),
    ("a null behind a value", &[Some(1)], &[None], &[1, 0], "10"),
    ("values", &[Some(1)], &[Some(2)], &[1, 2], "none"),
    ("nothing behind a null", &[None], &[], &[0], "0"),
    ("behind nothing", &[], &[None, Some(7)], &[0, 7], "01"),
    ("nothing", &[], &[], &[], "none"),
];

#[test]
fn slots_behind_others_keep_their_marks(rt: HostRuntime) {
    for (index, (case, first, second, values, mask)) in NUMBERS.iter().enumerate() {
        let mut builder = MutablePrimitiveArray::<i32>::new(rt.alloc());
        for slot in *first {
            builder.push(*slot).expect(&rt, "memory");
        }
        let mut other = MutablePrimitiveArray::<i32>::new(rt.alloc());
        for slot in *second {
            other.push(*slot).expect(&rt, "memory");
        }
        builder.try_extend_from_self(&other).expect(&rt, "memory");
        drop(other);
        check_growing(&rt, row(*case, index).as_str(), Ok(builder), *values, *mask);
    }
    let mut builder = MutablePrimitiveArray::<i32>::new(rt.alloc());
    builder.push(None).expect(&rt, "memory");
    let other = MutablePrimitiveArray::from_vec([1].to_vec(rt.alloc()).expect(&rt, "memory"));
    builder.try_extend_from_self(&other).expect(&rt, "memory");
    drop(other);
    assert_text::slots(builder.iter(), "[_ 1]").expect(
        &rt,
        "values of a vector are valid behind a null",
    );
    check_growing(&rt, "values and marks", Ok(builder), &[0, 1], "01");
}

/// A name, the parts of a builder and of another, and those of the first then, or the error.
type Join = (&'static str, Parts, Parts, Result<Parts, Error>);

/// Compares the answer to the slots of another builder, and the builder then, which an error leaves unchanged.
fn check_join<K: ByteKind, O: Offset>(rt: &(impl Abort + AllocGlobal), index: usize, join: &Join) {
    let (case, first, second, expected) = *join;
    let name = row(case, index);
    let (error, all) = match expected {
        Ok(all) => (None, all),
        Err(error) => (Some(error), first),
    };
    let mut builder = own_builder::<K, O>(rt, first);
    let other = own_builder::<K, O>(rt, second);
    let came = builder.try_extend_from_self(&other).err();
    drop(other);
    assert_text::value(came, error).expect(rt, case_of::<K, O>(name.as_str()).as_str());
    check_builder(rt, name.as_str(), Ok(builder), all);
}

const NOTHING: Parts = (&[0], b"", "none");

const X: Parts = (&[0, 1], b"x", "none");

const NULL_X: Parts = (&[0, 1], b"x", "0");

/// Only the bytes of the other's slots come, and all slots have marks if either builder holds a mask.
#[rattlefmt::skip]
const JOINS: &[Join] = &[
    ("behind nothing", NOTHING, (&[1, 2], b"\x09\x05", "none"), Ok((&[0, 1], b"\x05", "none"))),
    ("a mask behind nothing", NOTHING, (&[1, 3, 3], b"\xFF\xC3\xA9", "10"), Ok((&[0, 2, 2], b"\xC3\xA9", "10"))),
    ("other bytes", (&[1, 2], b"\xFFx", "none"), (&[2, 3], b"\xFF\xFFz", "none"), Ok((&[1, 2, 3], b"\xFFxz", "none"))),
    ("a mask in the first", NULL_X, (&[1, 2, 2], b"\xFFz", "none"), Ok((&[0, 1, 2, 2], b"xz", "011"))),
    ("a mask in the second", X, (&[1, 2, 2], b"\xFFz", "01"), Ok((&[0, 1, 2, 2], b"xz", "101"))),
    ("masks in both", NULL_X, (&[1, 2, 2], b"\xFFz", "10"), Ok((&[0, 1, 2, 2], b"xz", "010"))),
    ("an empty mask", X, (&[3], b"\xFF\xFF\xFF", ""), Ok((&[0, 1], b"x", "1"))),
    ("nothing", X, NOTHING, Ok(X)),
];

const SIXTY: Parts = (&[0, 60], &[7; 60], "none");

/// No slot, behind a hundred bytes.
const BEHIND_100: Parts = (&[100], &[7; 100], "none");

const OVERFLOW: Result<Parts, Error> = Err(Error::Overflow);

/// Over offsets of at most 100.
#[rattlefmt::skip]
const NARROW: &[Join] = &[
    ("one past 100", SIXTY, (&[0, 41, 41], &[7; 41], "10"), OVERFLOW),
    ("up to 100", SIXTY, (&[0, 40, 40], &[7; 40], "10"), Ok((&[0, 60, 100, 100], &[7; 100], "110"))),
    ("up to 100, from behind 30 bytes", SIXTY, (&[30, 70], &[7; 70], "none"), Ok((&[0, 60, 100], &[7; 100], "none"))),
    ("one past 100, from behind 30 bytes", SIXTY, (&[30, 71], &[7; 71], "none"), OVERFLOW),
    ("no byte at 100", BEHIND_100, (&[100, 100], &[7; 100], "0"), Ok((&[100, 100], &[7; 100], "0"))),
    ("a byte at 100", BEHIND_100, (&[99, 100], &[7; 100], "none"), OVERFLOW),
];

#[test]
fn only_the_slots_of_another_builder_come_and_end_at_the_greatest_offset(rt: HostRuntime) {
    for (index, join) in JOINS.iter().enumerate() {
        for_each_kind!(check_join, &rt, index, join);
    }
    for (index, join) in NARROW.iter().enumerate() {
        check_join::<Binary, Tiny>(&rt, index, join);
    }
}
