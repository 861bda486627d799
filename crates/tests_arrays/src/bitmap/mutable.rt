//! Growing bitmaps. Bytes were packed by hand: mark i is bit i mod 8, the least significant first, of byte i / 8.
use crate::bitmap::{check, pushed};
use arrow_bitmap::{Bitmap, MutableBitmap};
use std::process::Abort;
use tests_support::{assert_text, row};

/// Compares the length and the bytes of marks, and drops them.
fn check_bytes(rt: &impl Abort, case: &str, marks: MutableBitmap, length: usize, bytes: &[u8]) {
    assert_text::value(marks.len(), length).expect(rt, case);
    let packed = marks.into_vec();
    assert_text::value(packed.as_slice(), bytes).expect(rt, case);
    drop(packed);
}

/// Marks, and their bytes.
const PACKED: &[(&str, &[u8])] = &[
    ("", &[]),
    ("101", &[0x05]),
    ("00000001", &[0x80]),
    ("1010000101", &[0x85, 0x02]),
    ("0110000101", &[0x86, 0x02]),
];

#[test]
fn the_first_mark_is_packed_lowest(rt: HostRuntime) {
    for (index, (text, bytes)) in PACKED.iter().enumerate() {
        let name = row(*text, index);
        let case = name.as_str();
        check_bytes(&rt, case, pushed(&rt, *text), text.len(), *bytes);
        let mut values = Vec::new(rt.alloc());
        for mark in text.as_bytes() {
            values.push(*mark == b'1').expect(&rt, "memory");
        }
        let growing = MutableBitmap::from_slice(rt.alloc(), values.as_slice());
        let frozen = Bitmap::from_slice(rt.alloc(), values.as_slice());
        drop(values);
        let frozen = frozen.expect(&rt, "memory");
        check(&rt, case, frozen.iter(), *text);
        drop(frozen);
        let growing = growing.expect(&rt, "memory");
        check_bytes(&rt, case, growing, text.len(), *bytes);
    }
}

/// A name, runs of equal marks, how many marks they are, and their bytes.
#[rattlefmt::skip]
const RUNS: &[(&str, &[(usize, bool)], usize, &[u8])] = &[
    ("marks 3 to 12 and 18 to 31", &[(3, false), (10, true), (5, false), (14, true)], 32, &[0xf8, 0x1f, 0xfc, 0xff]),
    ("marks 0, 8 to 15 and 32 to 39", &[(1, true), (7, false), (8, true), (0, true), (16, false), (8, true)], 40,
        &[0x01, 0xff, 0x00, 0x00, 0xff]),
];

#[test]
fn runs_are_packed_over_the_borders_of_bytes(rt: HostRuntime) {
    for (index, (case, runs, length, bytes)) in RUNS.iter().enumerate() {
        let mut marks = MutableBitmap::new(rt.alloc());
        for (count, value) in *runs {
            marks.extend_constant(*count, *value).expect(&rt, "memory");
        }
        check_bytes(&rt, row(*case, index).as_str(), marks, *length, *bytes);
    }
}

/// Returns the bytes that marks have room for, and drops them.
fn room(marks: MutableBitmap) -> usize {
    let bytes = marks.into_vec();
    let room = bytes.capacity();
    drop(bytes);
    room
}

#[test]
fn room_is_reserved_and_given_back(rt: HostRuntime) {
    let first = MutableBitmap::with_capacity(rt.alloc(), 1000).expect(&rt, "memory");
    assert_text::value(room(first).min(125), 125).expect(
        &rt,
        "at least 125 bytes by with_capacity",
    );
    let mut more = MutableBitmap::with_capacity(rt.alloc(), 1000).expect(&rt, "memory");
    more.reserve(8000).expect(&rt, "memory");
    assert_text::value(room(more).min(1000), 1000).expect(&rt, "at least 1000 bytes by reserve");
    let mut less = MutableBitmap::with_capacity(rt.alloc(), 1000).expect(&rt, "memory");
    less.shrink_to_fit().expect(&rt, "memory");
    assert_text::value(room(less).max(124), 124).expect(&rt, "at most 124 bytes by shrink_to_fit");
}

#[test]
fn a_clone_and_another_builder_of_the_allocator_grow_alone(rt: HostRuntime) {
    let first = pushed(&rt, "101");
    let mut second = first.clone().expect(&rt, "memory");
    second.push(false).expect(&rt, "memory");
    check(&rt, "the clone", second.iter(), "1010");
    drop(second);
    check(&rt, "the first", first.iter(), "101");
    let mut other = MutableBitmap::new(first.allocator());
    drop(first);
    other.push(true).expect(&rt, "memory");
    check(&rt, "another builder", other.iter(), "1");
    drop(other);
}

#[test]
fn marks_that_were_truncated_do_not_come_back(rt: HostRuntime) {
    let bytes = [0xff, 0x01].to_vec(rt.alloc()).expect(&rt, "memory");
    let mut marks = MutableBitmap::from_bytes(bytes, 9);
    assert!(rt; 8 <= marks.len());
    marks.truncate(8);
    marks.push(false).expect(&rt, "memory");
    check(&rt, "a mark after eight", marks.iter(), "111111110");
    marks.truncate(0);
    assert_text::value(marks.is_empty(), true).expect(&rt, "no mark");
    drop(marks);
}

/// Two lists of marks, a mask, and whether they are equal, and agree where the mask is set.
const COMPARED: &[(&str, &str, &str, bool, bool)] = &[
    ("", "", "", true, true),
    ("101", "101", "111", true, true),
    ("101", "111", "101", false, true),
    ("101", "111", "010", false, false),
    ("000000001", "000000000", "000000001", false, false),
    ("000000001", "000000000", "111111110", false, true),
];

#[test]
fn marks_are_compared_where_a_mask_is_set(rt: HostRuntime) {
    for (index, (first, second, mask, equal, agree)) in COMPARED.iter().enumerate() {
        let (left, right) = (pushed(&rt, *first), pushed(&rt, *second));
        let marks = pushed(&rt, *mask);
        assert!(rt; left.len() == right.len() && marks.len() == left.len());
        let marks = Some(marks);
        let masked = left.agrees_where(&right, &marks);
        drop(marks);
        let came = [
            left.has_marks_of(&right),
            left.agrees_where(&right, &None),
            masked,
        ];
        drop(right);
        drop(left);
        let expected = (*first, *second, [*equal, *equal, *agree]);
        assert_text::value((*first, *second, came), expected).expect(
            &rt,
            row(*mask, index).as_str(),
        );
    }
}

#[test]
fn marks_of_other_lengths_differ(rt: HostRuntime) {
    let mut none = MutableBitmap::default(rt.alloc());
    let one = pushed(&rt, "0");
    let (is_empty, is_equal) = (none.is_empty(), none.has_marks_of(&one));
    none.push(false).expect(&rt, "memory");
    let came = [is_equal, none.has_marks_of(&one), is_empty, none.is_empty()];
    drop(one);
    drop(none);
    assert_text::value(came, [false, true, true, false]).expect(&rt, "none and one, one and one");
}
