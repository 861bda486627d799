//! Ranges of arrays that builders take: stored values, those of null slots included, and marks.
use super::*;

/// A name, a builder, an array, the slice of the array, the range of that slice, and the expected builder.
type Case = (&'static str, Stored, Stored, [usize; 2], [usize; 2], Stored);

const BARE: Stored = ("01100111010", "none");

/// Each null stores true.
const MASKED: Stored = ("01100111010", "10111011101");

/// Two slots, without a mask and with one.
const TWO: Stored = ("10", "none");

const ONE: Stored = ("10", "01");

const ALL: [usize; 2] = [0, 11];

#[rattlefmt::skip]
const CASES: &[Case] = &[
    ("no mask", TWO, BARE, ALL, [3, 4], ("100011", "none")),
    ("the first's", ONE, BARE, ALL, [3, 4], ("100011", "011111")),
    ("the second's", TWO, MASKED, ALL, [3, 5], ("1000111", "1111011")),
    ("both", ONE, MASKED, [1, 9], [4, 5], ("1011101", "0101110")),
    ("both, past a byte", ("101010101", "111011110"), MASKED, ALL, [2, 9],
        ("101010101100111010", "111011110111011101")),
    ("no null", ("1", "none"), MASKED, [1, 10], [1, 3], ("1100", "1111")),
    ("nothing, masked", TWO, MASKED, ALL, [11, 0], ("10", "11")),
    ("nothing, bare", TWO, BARE, [4, 0], [0, 0], ("10", "none")),
    ("after nothing", ("", "none"), MASKED, [2, 3], [1, 0], ("", "")),
];

#[test]
fn a_mask_is_held_if_either_side_holds_one(rt: HostRuntime) {
    for (index, (case, first, second, slice, range, joined)) in CASES.iter().enumerate() {
        let mut array = array_of(&rt, *second);
        let ([start, count], [offset, len]) = (*slice, *range);
        assert!(rt; start <= array.len() && count <= array.len() - start);
        array.slice(start, count);
        let builder = array_of(&rt, *first).into_mut().right();
        let mut builder = builder.expect(&rt, "an array alone thaws");
        assert!(rt; offset <= array.len() && len <= array.len() - offset);
        let answer = builder.extend_from_array(&array, offset, len);
        drop(array);
        answer.expect(&rt, "memory");
        let name = row(*case, index);
        assert_text::marks(builder.values_iter(), joined.0).expect(&rt, name.as_str());
        assert_text::growing_mask(builder.validity(), joined.1).expect(&rt, name.as_str());
        drop(builder);
    }
}
