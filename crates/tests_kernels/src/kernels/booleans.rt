//! Kernels of booleans.
use crate::arrays::{Booleans, TOO_GREAT, check_mask, check_value, row, stored_booleans};
use arrow_boolean::BooleanArray;
use arrow_kernels::{concat_boolean, filter_boolean, take_boolean, true_count};
use arrow_types::error::Error;
use std::process::Abort;
use tests_support::assert_text;

/// Compares an answer with an error, or with the parts of an array.
fn check_stored(
    rt: &impl Abort,
    row: &str,
    answer: Result<BooleanArray, Error>,
    expected: Result<Booleans, Error>,
) {
    let (values, mask) = match expected {
        Ok(parts) => parts,
        Err(error) => return check_value(rt, row, answer.err(), Some(error)),
    };
    let array = answer.expect(rt, row);
    assert_text::marks(array.values().iter(), values).expect(rt, row);
    check_mask(rt, row, array.validity(), mask);
    drop(array);
}

/// True, a null that stores true, false, and a null that stores false.
const FOUR: Booleans = ("1100", "1010");

/// True at 0, 1, 63, 64 and 129 of 130 slots.
const TRUE_AT_FIVE: &str =
    "1100000000000000000000000000000000000000000000000000000000000001100000000000000000000000000000000000000000000000000000000000000001";

/// True at 0, 63, 64 and 129 of 130 slots, and a null that stores true at 1.
const LONG: Booleans = (
    TRUE_AT_FIVE,
    "1011111111111111111111111111111111111111111111111111111111111111111111111111111111111111111111111111111111111111111111111111111111",
);

/// A name, an array, a filter, and the slots that it keeps.
#[rattlefmt::skip]
const FILTERS: &[(&str, Booleans, Booleans, Booleans)] = &[
    ("a null", FOUR, ("1111", "1011"), ("100", "110")),
    ("no mask", FOUR, ("1010", "none"), ("10", "none")),
    ("no slot", FOUR, ("0000", "none"), ("", "none")),
    ("every slot", FOUR, ("1111", "none"), FOUR),
    (
        "three words, of an array that is null at 5 and 63",
        (
            "1100000000000000000000000000000000000000000000000000000000000000100000000000000000000000000000000000000000000000000000000000000001",
            "1111101111111111111111111111111111111111111111111111111111111110111111111111111111111111111111111111111111111111111111111111111111",
        ),
        LONG,
        ("1011", "1011"),
    ),
    (
        "a word of 64 slots",
        (
            "01100110011001100110011001100110011001100110011001100110011001101",
            "11111111111111111111111111111111111111111111111111111111111111101",
        ),
        ("11111111111111111111111111111111111111111111111111111111111111110", "none"),
        (
            "0110011001100110011001100110011001100110011001100110011001100110",
            "1111111111111111111111111111111111111111111111111111111111111110",
        ),
    ),
];

/// A name, an array, keys, and the slots at them.
const TAKES: &[(&str, Booleans, &[u8], Result<Booleans, Error>)] = &[
    ("a null", FOUR, &[3, 0, 1, 0], Ok(("0111", "0101"))),
    ("no null", FOUR, &[0, 2], Ok(("10", "none"))),
    ("no key", FOUR, &[], Ok(("", "none"))),
    ("the length", ("10", "none"), &[1, 2], Err(TOO_GREAT)),
];

/// Creates a slice, which has to lie within the array.
fn sliced(
    rt: &(impl Abort + AllocGlobal),
    array: Booleans,
    offset: usize,
    len: usize,
) -> BooleanArray {
    let array = stored_booleans(rt, array);
    assert!(rt; offset <= array.len() && len <= array.len() - offset);
    array.sliced(offset, len)
}

/// Twelve booleans, the second and the ninth of which are null.
const TWELVE: Booleans = ("110010101011", "101111110111");

/// An array, and the offset and length of a slice of it.
type Slice = (Booleans, usize, usize);

/// A name, slices, and their concatenation.
#[rattlefmt::skip]
const CONCATENATIONS: &[(&str, &[Slice], Booleans)] = &[
    ("one array", &[(FOUR, 0, 4)], FOUR),
    ("two slices", &[(FOUR, 1, 3), (FOUR, 0, 4)], ("1001100", "0101010")),
    ("no null", &[(FOUR, 2, 1), (("01", "11"), 0, 2)], ("001", "none")),
    ("no slot", &[(FOUR, 4, 0), (FOUR, 0, 0)], ("", "none")),
    (
        "marks that begin within a byte",
        &[(("01", "none"), 1, 1), (TWELVE, 3, 9), (TWELVE, 0, 11)],
        ("101010101111001010101", "111111011110111111011"),
    ),
];

/// A name, an array, the offset and length of a slice, and how many of its slots are valid and true.
const COUNTS: &[(&str, Booleans, usize, usize, usize)] = &[
    ("a null", ("1101", "1011"), 0, 4, 2),
    ("no mask", ("110", "none"), 0, 3, 2),
    ("a needless mask", ("110", "111"), 0, 3, 2),
    ("no slot", ("", ""), 0, 0, 0),
    ("three words", LONG, 0, 130, 4),
    ("three words from the second slot", LONG, 1, 129, 3),
    ("no true slot", LONG, 1, 62, 0),
    ("one word", LONG, 0, 64, 2),
    ("the border of two words", LONG, 63, 2, 2),
    ("three words, no mask", (TRUE_AT_FIVE, "none"), 0, 130, 5),
    ("two words, no mask", (TRUE_AT_FIVE, "none"), 1, 64, 3),
];

#[test]
fn booleans_are_filtered_taken_concatenated_and_counted(rt: HostRuntime) {
    let alloc = rt.alloc();
    for (index, (case, array, filter, expected)) in FILTERS.iter().enumerate() {
        let row = row("filters keep slots at true", "Boolean", index, *case);
        let (array, filter) = (stored_booleans(&rt, *array), stored_booleans(&rt, *filter));
        assert!(rt; filter.len() == array.len());
        check_stored(
            &rt,
            row.as_str(),
            filter_boolean(alloc, &array, &filter),
            Ok(*expected),
        );
        drop((filter, array));
    }
    for (index, (case, array, keys, expected)) in TAKES.iter().enumerate() {
        let row = row("takes keep slots at keys", "Boolean", index, *case);
        let array = stored_booleans(&rt, *array);
        check_stored(
            &rt,
            row.as_str(),
            take_boolean(alloc, &array, *keys),
            *expected,
        );
        drop(array);
    }
    for (index, (case, slices, expected)) in CONCATENATIONS.iter().enumerate() {
        let row = row(
            "concatenations have all slots in order",
            "Boolean",
            index,
            *case,
        );
        let mut arrays = Vec::new(alloc);
        for (array, offset, len) in *slices {
            let slice = sliced(&rt, *array, *offset, *len);
            arrays.push(slice).expect(&rt, "memory");
        }
        assert!(rt; !arrays.is_empty());
        check_stored(
            &rt,
            row.as_str(),
            concat_boolean(alloc, &arrays),
            Ok(*expected),
        );
        drop(arrays);
    }
    for (index, (case, array, offset, len, expected)) in COUNTS.iter().enumerate() {
        let row = row("true slots are counted", "Boolean", index, *case);
        let array = sliced(&rt, *array, *offset, *len);
        check_value(&rt, row.as_str(), true_count(&array), *expected);
        drop(array);
    }
}
