//! Bitmaps made of what an iterator gives.
use crate::bitmap::{check, pushed};
use arrow_bitmap::{Bitmap, MutableBitmap};
use tests_support::{assert_text, row};

/// Marks that end before a byte does, with it and behind it.
const MARKS: &[&str] = &[
    "",
    "1",
    "0110101",
    "01101011",
    "011010111",
    "00000000000000001",
];

#[test]
fn marks_come_in_the_order_of_the_iterator(rt: HostRuntime) {
    for (index, text) in MARKS.iter().enumerate() {
        let name = row(*text, index);
        let case = name.as_str();
        let bytes = text.as_bytes();
        let marks = bytes.iter().map(|byte| *byte == b'1');
        let growing = MutableBitmap::from_iter(rt.alloc(), marks).expect(&rt, "memory");
        check(&rt, case, growing.iter(), *text);
        drop(growing);
        let marks = bytes.iter().map(|byte| *byte == b'1');
        let frozen = Bitmap::from_iter(rt.alloc(), marks).expect(&rt, "memory");
        check(&rt, case, frozen.iter(), *text);
        let clear = bytes.iter().filter(|byte| **byte != b'1').count();
        assert_text::value(frozen.unset_bits(), clear).expect(&rt, case);
        drop(frozen);
    }
}

/// An iterator that does not know how many marks are left gives as many.
#[test]
fn marks_of_an_unknown_number_are_appended(rt: HostRuntime) {
    let mut marks = pushed(&rt, "101");
    let few = [4, 7, 8, 9, 12];
    let added = few
        .iter()
        .filter(|number| **number > 4)
        .map(|number| *number % 2 == 0);
    marks.extend(added).expect(&rt, "memory");
    check(&rt, "behind three", marks.iter(), "1010101");
    drop(marks);
}
