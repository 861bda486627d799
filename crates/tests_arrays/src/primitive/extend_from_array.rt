//! Ranges of arrays that builders take: stored values, those of null slots included, and marks.
use super::*;
use crate::primitive::equality::array_of;

/// A name, a builder, an array, the slice of the array, the range of that slice, and the expected builder.
type Case = (&'static str, Stored, Stored, [usize; 2], [usize; 2], Stored);

const BARE: Stored = (&[10, 11, 12, 13, 14, 15, 16, 17, 18, 19, 20], "none");

/// The nulls store 11, 15 and 19.
const MASKED: Stored = (&[10, 11, 12, 13, 14, 15, 16, 17, 18, 19, 20], "10111011101");

#[rattlefmt::skip]
const CASES: &[Case] = &[
    ("no mask on either side", (&[1, 2], "none"), BARE, [0, 11], [3, 4], (&[1, 2, 13, 14, 15, 16], "none")),
    ("a mask in the builder", (&[1, 2], "01"), BARE, [0, 11], [3, 4], (&[1, 2, 13, 14, 15, 16], "011111")),
    ("a mask in the array", (&[1, 2], "none"), MASKED, [0, 11], [3, 5], (&[1, 2, 13, 14, 15, 16, 17], "1111011")),
    ("both, of a slice", (&[1, 2], "01"), MASKED, [1, 9], [4, 5], (&[1, 2, 15, 16, 17, 18, 19], "0101110")),
    ("both, past a byte", (&[1, 2, 3, 4, 5, 6, 7, 8, 9], "111011110"), MASKED, [0, 11], [2, 9], (&[1, 2, 3, 4, 5, 6, 7,
        8, 9, 12, 13, 14, 15, 16, 17, 18, 19, 20], "111011110111011101")),
    ("no null in the range", (&[1], "none"), MASKED, [1, 10], [1, 3], (&[1, 12, 13, 14], "1111")),
    ("nothing of a masked array", (&[1, 2], "none"), MASKED, [0, 11], [11, 0], (&[1, 2], "11")),
    ("nothing of a bare array", (&[1, 2], "none"), BARE, [4, 0], [0, 0], (&[1, 2], "none")),
    ("nothing after nothing", (&[], "none"), MASKED, [2, 3], [1, 0], (&[], "")),
];

#[test]
fn a_mask_is_held_if_either_side_holds_one(rt: HostRuntime) {
    for (index, (case, first, second, slice, range, expected)) in CASES.iter().enumerate() {
        let name = row(*case, index);
        let case = name.as_str();
        let [start, count] = *slice;
        let [offset, len] = *range;
        let mut array = array_of(&rt, *second);
        assert!(rt; start <= array.len() && count <= array.len() - start);
        array.slice(start, count);
        let builder = array_of(&rt, *first)
            .to(DataType::Date64)
            .into_mut()
            .right();
        let mut builder = builder.expect(&rt, "an array alone thaws");
        assert!(rt; offset <= array.len() && len <= array.len() - offset);
        let answer = builder.extend_from_array(&array, offset, len);
        drop(array);
        answer.expect(&rt, "memory");
        let came = (builder.data_type(), builder.values().as_slice());
        assert_text::value(came, (&DataType::Date64, expected.0)).expect(&rt, case);
        assert_text::growing_mask(builder.validity(), expected.1).expect(&rt, case);
        drop(builder);
    }
}
