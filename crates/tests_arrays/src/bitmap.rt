//! Bitmaps. Marks are written as texts, in which `1` is a set mark.
mod equality;
mod iterators;
mod mutable;
mod ops;
mod places;
mod ranges;
mod shared;
mod words;

use arrow_bitmap::{Bitmap, BitmapIter, MutableBitmap};
use std::process::Abort;
use tests_support::{assert_text, row};

/// Pushes the marks of a text one by one.
fn pushed(rt: &(impl Abort + AllocGlobal), text: &str) -> MutableBitmap {
    let mut marks = MutableBitmap::new(rt.alloc());
    for mark in text.as_bytes() {
        marks.push(*mark == b'1').expect(rt, "memory");
    }
    marks
}

/// Creates the bitmap of a text.
fn frozen(rt: &(impl Abort + AllocGlobal), text: &str) -> Bitmap {
    pushed(rt, text).freeze().expect(rt, "memory")
}

/// Slices a bitmap, in which the slice has to lie.
fn cut(rt: &impl Abort, bitmap: &mut Bitmap, offset: usize, len: usize) {
    assert!(rt; offset <= bitmap.len() && len <= bitmap.len() - offset);
    bitmap.slice(offset, len);
}

/// Compares the marks that are left, and their number, with a text.
fn check(rt: &impl Abort, case: &str, marks: BitmapIter<'_>, expected: &str) {
    let len = expected.len();
    assert_text::value(marks.size_hint(), (len, Some(len))).expect(rt, case);
    assert_text::marks(marks, expected).expect(rt, case);
}

const MARKS: &str = "00011111111110000011111111111111";

/// A name, the slice of what the row before left, its marks, the third of them, and how many are clear.
type Cut = (
    &'static str,
    usize,
    usize,
    &'static str,
    Option<bool>,
    usize,
);

const CUTS: &[Cut] = &[
    ("whole", 0, 32, MARKS, Some(false), 8),
    ("in a byte", 2, 20, "01111111111000001111", Some(true), 6),
    ("of a slice", 5, 10, "1111110000", Some(true), 4),
    ("three marks", 5, 3, "100", Some(false), 2),
    ("none", 3, 0, "", None, 0),
];

#[test]
fn slices_of_slices_add_their_offsets_and_size_hints_count_down(rt: HostRuntime) {
    let mut bitmap = frozen(&rt, MARKS);
    for (index, (case, offset, len, expected, third, clear)) in CUTS.iter().enumerate() {
        let name = row(*case, index);
        let case = name.as_str();
        cut(&rt, &mut bitmap, *offset, *len);
        check(&rt, case, bitmap.iter(), *expected);
        for (i, mark) in expected.as_bytes().iter().enumerate() {
            assert!(rt; i < bitmap.len());
            assert_text::value((i, bitmap.get_bit(i)), (i, *mark == b'1')).expect(&rt, case);
        }
        let (mut near, mut far) = (bitmap.iter(), bitmap.iter());
        let skipped = (near.nth(2), far.nth(usize::MAX));
        let left = [near.len(), far.len(), bitmap.unset_bits()];
        let expected = ((*third, None), [len.saturating_sub(3), 0, *clear]);
        assert_text::value((skipped, left), expected).expect(&rt, case);
    }
    drop(bitmap);
    let bitmap = frozen(&rt, "101");
    let mut marks = bitmap.iter();
    for left in [3, 2, 1, 0] {
        let came = (marks.size_hint(), marks.next().is_some());
        assert_text::value(came, ((left, Some(left)), left > 0)).expect(
            &rt,
            "size hints count down",
        );
    }
    drop(bitmap);
}

#[test]
fn laws_are_callable() {
    arrow_bitmap::laws::packed_marks();
}
