//! Marks of raw bytes. Mark i is bit i mod 8, the least significant first, of byte i / 8; other bits do not count.
use super::*;

const PAST: &str = "the bits must fit in the bytes";

/// A name, bytes, a number of marks, and the expected answer.
const LENGTHS: &[(&str, &[u8], usize, &str)] = &[
    ("all of a byte", &[0x05], 8, "made"),
    ("one more", &[0x05], 9, PAST),
    ("the greatest number", &[0x05], usize::MAX, PAST),
    ("none of no byte", &[], 0, "made"),
    ("one of no byte", &[], 1, PAST),
    ("none of two bytes", &[0xFF, 0x01], 0, "made"),
    ("all of two bytes", &[0xFF, 0x01], 16, "made"),
    ("one more than in two bytes", &[0xFF, 0x01], 17, PAST),
];

#[test]
fn marks_have_to_fit_in_their_bytes(rt: HostRuntime) {
    for (index, (case, bytes, length, expected)) in LENGTHS.iter().enumerate() {
        let values = bytes.to_vec(rt.alloc()).expect(&rt, "memory");
        let frozen = tells(Bitmap::try_new(values, *length));
        let values = bytes.to_vec(rt.alloc()).expect(&rt, "memory");
        let growing = tells(MutableBitmap::try_new(values, *length));
        let name = row(*case, index);
        assert_text::value((frozen, growing), (*expected, *expected)).expect(&rt, name.as_str());
    }
}

/// A name, bytes, the number of their marks, a mark that is pushed, all marks then, and the number of clear ones.
const PUSHED: &[(&str, &[u8], usize, bool, &str, usize)] = &[
    ("clear, on set bits", &[0xFF], 3, false, "1110", 1),
    ("set, on clear bits", &[0x00], 3, true, "0001", 3),
    ("set", &[0xFF, 0x00], 8, true, "111111111", 0),
    ("clear", &[0xFF, 0xFF], 8, false, "111111110", 1),
    ("the first", &[], 0, true, "1", 0),
];

#[test]
fn bits_after_the_marks_do_not_count(rt: HostRuntime) {
    for (index, (case, bytes, length, mark, expected, clear)) in PUSHED.iter().enumerate() {
        let bytes = bytes.to_vec(rt.alloc()).expect(&rt, "memory");
        let mut marks = MutableBitmap::try_new(bytes, *length).expect(&rt, "marks that fit");
        marks.push(*mark).expect(&rt, "memory");
        let name = row(*case, index);
        assert_text::marks(marks.iter(), *expected).expect(&rt, name.as_str());
        assert_text::value(marks.unset_bits(), *clear).expect(&rt, name.as_str());
        drop(marks);
    }
}
