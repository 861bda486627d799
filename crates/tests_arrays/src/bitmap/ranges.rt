//! Ranges of marks that are read and appended.
use crate::bitmap::{MARKS, check, cut, frozen, pushed};
use tests_support::row;

/// A name, the slice of the marks, where a range of it begins, and the marks of the range.
const RANGES: &[(&str, usize, usize, usize, &str)] = &[
    ("whole", 0, 32, 0, MARKS),
    ("inside a byte", 0, 32, 2, "01111111111000001111"),
    ("at a byte", 0, 32, 8, "111110000011"),
    ("in the second byte", 0, 32, 11, "1100000111"),
    ("the last mark", 0, 32, 31, "1"),
    ("no mark at the end", 0, 32, 32, ""),
    ("whole slice", 5, 13, 0, "1111111100000"),
    ("in a slice", 5, 13, 3, "1111100000"),
    ("no mark at the end of a slice", 5, 13, 13, ""),
];

#[test]
fn ranges_are_read_from_any_mark(rt: HostRuntime) {
    for (index, (case, start, len, offset, expected)) in RANGES.iter().enumerate() {
        let mut bitmap = frozen(&rt, MARKS);
        cut(&rt, &mut bitmap, *start, *len);
        let len = expected.len();
        assert!(rt; *offset <= bitmap.len() && len <= bitmap.len() - *offset);
        let range = bitmap.iter_range(*offset, len);
        check(&rt, row(*case, index).as_str(), range, *expected);
        drop(bitmap);
    }
}

/// An offset and a length.
type Range = (usize, usize);

const ALL: Range = (0, 32);

/// A name, marks, a slice, the range of it that is appended to them, and the expected marks.
const APPENDED: &[(&str, &str, Range, Range, &str)] = &[
    ("none to none", "", ALL, (0, 0), ""),
    ("to none", "", ALL, (2, 12), "011111111110"),
    ("in a byte", "101", ALL, (11, 10), "1011100000111"),
    ("past it", "10110100", ALL, (8, 12), "10110100111110000011"),
    ("none", "1011010", ALL, (32, 0), "1011010"),
    ("all", "1", ALL, ALL, "100011111111110000011111111111111"),
    ("of a slice", "01", (5, 20), (6, 9), "01110000011"),
];

#[test]
fn ranges_are_appended_after_any_mark(rt: HostRuntime) {
    for (index, (case, first, slice, range, expected)) in APPENDED.iter().enumerate() {
        let (mut other, mut marks) = (frozen(&rt, MARKS), pushed(&rt, *first));
        cut(&rt, &mut other, slice.0, slice.1);
        assert!(rt; range.0 <= other.len() && range.1 <= other.len() - range.0);
        let answer = marks.extend_from_range(&other, range.0, range.1);
        drop(other);
        answer.expect(&rt, "memory");
        check(&rt, row(*case, index).as_str(), marks.iter(), *expected);
        drop(marks);
    }
}
