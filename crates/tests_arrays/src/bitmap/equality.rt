//! Equality and text of bitmaps, also of slices that begin within a byte.
use crate::bitmap::{cut, frozen, pushed};
use arrow_bitmap::Bitmap;
use std::process::Abort;
use tests_support::{assert_text, row, row_of};

/// Appends a text 24 times.
fn repeated(rt: &(impl Abort + AllocGlobal), text: &str) -> String {
    let mut longer = String::new(rt.alloc());
    for _ in 0..24 {
        longer.push_str(text).expect(rt, "memory");
    }
    longer
}

/// A name, two lists of marks, and whether they are equal.
const PAIRS: &[(&str, &str, &str, bool)] = &[
    ("none", "", "", true),
    ("few", "10110", "10110", true),
    ("the last", "10110", "10111", false),
    ("one more", "10110", "101100", false),
];

/// Compares a bitmap with a slice of another, from its fourth mark on.
fn check(rt: &(impl Abort + AllocGlobal), case: &str, first: &str, second: &str, expected: bool) {
    let first = pushed(rt, first);
    let mut longer = pushed(rt, "011");
    let other = pushed(rt, second);
    let count = other.len();
    longer.extend_from_bitmap(&other).expect(rt, "memory");
    assert_text::value(first == other, expected).expect(rt, case);
    let mut second = longer.freeze().expect(rt, "memory");
    cut(rt, &mut second, 3, count);
    let first = first.freeze().expect(rt, "memory");
    assert_text::value(first == second, expected).expect(rt, case);
    drop(first);
    drop(second);
    drop(other);
}

#[test]
fn bitmaps_are_equal_if_they_have_the_same_marks(rt: HostRuntime) {
    for (index, (case, first, second, expected)) in PAIRS.iter().enumerate() {
        check(&rt, row(*case, index).as_str(), *first, *second, *expected);
        // The pair behind 72 marks: whole words are compared.
        let mut long = repeated(&rt, "011");
        long.push_str(*first).expect(&rt, "memory");
        let mut other = repeated(&rt, "011");
        other.push_str(*second).expect(&rt, "memory");
        let name = row_of(*case, "behind 72 marks", index);
        check(&rt, name.as_str(), long.as_str(), other.as_str(), *expected);
        drop(long);
        drop(other);
    }
}

/// Creates the bitmap of a text that is written 24 times.
fn frozen_repeated(rt: &(impl Abort + AllocGlobal), text: &str) -> Bitmap {
    let marks = repeated(rt, text);
    let bitmap = frozen(rt, marks.as_str());
    drop(marks);
    bitmap
}

/// A name, marks, masks, and whether the marks agree with `110..` where the mask is set.
const MASKED: &[(&str, &str, &str, bool)] = &[
    ("differs where it is clear", "010", "011", true),
    ("differs where it is set", "010", "101", false),
];

#[test]
fn marks_agree_wherever_the_mask_is_set(rt: HostRuntime) {
    for (index, (case, marks, mask, expected)) in MASKED.iter().enumerate() {
        let first = frozen_repeated(&rt, *marks);
        let second = frozen_repeated(&rt, "110");
        let mask = frozen_repeated(&rt, *mask);
        assert!(rt; first.len() == second.len() && first.len() == mask.len());
        let mask = Some(mask);
        let came = first.agrees_where(&second, &mask);
        drop((first, second, mask));
        assert_text::value(came, *expected).expect(&rt, row(*case, index).as_str());
    }
}

/// A name, the first mark and the number of marks of a slice of `0110110011`, and its text.
const TEXTS: &[(&str, usize, usize, &str)] = &[
    ("all", 0, 10, "[0b00110110, 0b______11]"),
    ("from the third on", 2, 8, "[0b11001101]"),
    ("three", 1, 3, "[0b_____011]"),
    ("none", 0, 0, "[]"),
];

#[test]
fn text_begins_with_the_first_mark(rt: HostRuntime) {
    for (index, (case, offset, len, expected)) in TEXTS.iter().enumerate() {
        let mut bitmap = frozen(&rt, "0110110011");
        cut(&rt, &mut bitmap, *offset, *len);
        let debug = assert_text::debug(&bitmap, *expected);
        let display = assert_text::display(&bitmap, *expected);
        drop(bitmap);
        debug.expect(&rt, row(*case, index).as_str());
        display.expect(&rt, row(*case, index).as_str());
    }
    let marks = pushed(&rt, "10000000011");
    let expected = "[0b00000001, 0b_____110]";
    assert_text::debug(&marks, expected).expect(&rt, "of a growing bitmap");
    assert_text::display(&marks, expected).expect(&rt, "of a growing bitmap");
    drop(marks);
}
