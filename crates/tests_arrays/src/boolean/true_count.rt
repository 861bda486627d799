//! How many slots are valid and true.
use super::*;

/// True at 0, 1, 63, 64 and 129 of 130 slots.
const TRUE_AT_FIVE: &str =
    "1100000000000000000000000000000000000000000000000000000000000001100000000000000000000000000000000000000000000000000000000000000001";

/// A null at 1 of as many.
const NULL_AT_1: &str =
    "1011111111111111111111111111111111111111111111111111111111111111111111111111111111111111111111111111111111111111111111111111111111";

/// A name, the stored values, the mask, the offset and length of a slice, and how many of its slots are true.
const COUNTS: &[(&str, &str, &str, usize, usize, usize)] = &[
    ("a null that stores true", "1101", "1011", 0, 4, 2),
    ("no mask", "110", "none", 0, 3, 2),
    ("a needless mask", "110", "111", 0, 3, 2),
    ("nulls alone", "111", "000", 0, 3, 0),
    ("no slot", "", "", 0, 0, 0),
    ("three words", TRUE_AT_FIVE, NULL_AT_1, 0, 130, 4),
    ("from the second slot", TRUE_AT_FIVE, NULL_AT_1, 1, 129, 3),
    ("no true slot", TRUE_AT_FIVE, NULL_AT_1, 1, 62, 0),
    ("one word", TRUE_AT_FIVE, NULL_AT_1, 0, 64, 2),
    ("the border of two words", TRUE_AT_FIVE, NULL_AT_1, 63, 2, 2),
    ("three words, no mask", TRUE_AT_FIVE, "none", 0, 130, 5),
];

#[test]
fn true_slots_are_counted(rt: HostRuntime) {
    for (index, (case, values, mask, offset, len, expected)) in COUNTS.iter().enumerate() {
        let array: BooleanArray = array_of(&rt, (*values, *mask));
        assert!(rt; *offset <= array.len() && *len <= array.len() - *offset);
        let array = array.sliced(*offset, *len);
        let count = array.true_count();
        drop(array);
        assert_text::value(count, *expected).expect(&rt, row(*case, index).as_str());
    }
}
