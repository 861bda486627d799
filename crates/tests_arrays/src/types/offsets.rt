//! Offsets of both widths, and of a narrow type of the tests.
ghost use Rattle.std.specs.Prelude.{◌≤◌};

use arrow_types::offset::Offset;
use std::process::Abort;
use tests_support::{Tiny, assert_text, row_of};

/// Returns the number of the offset that is made of a number, by the bound.
fn through<O: Offset>(value: usize) -> Option<usize> {
    let offset = O::from_usize(value)?;
    Some(offset.to_usize())
}

/// A number, and those of the offsets that are made of it: `Tiny`, of 32 bits, and of 64.
const NUMBERS: &[(usize, Option<usize>, Option<usize>, Option<usize>)] = &[
    (0, Some(0), Some(0), Some(0)),
    (100, Some(100), Some(100), Some(100)),
    (101, None, Some(101), Some(101)),
    (2147483647, None, Some(2147483647), Some(2147483647)),
    (2147483648, None, None, Some(2147483648)),
    (9223372036854775807, None, None, Some(9223372036854775807)),
    (9223372036854775808, None, None, None),
];

#[test]
fn offsets_hold_numbers_up_to_their_greatest(rt: HostRuntime) {
    for (index, (value, tiny, narrow, wide)) in NUMBERS.iter().enumerate() {
        let came = (
            through::<Tiny>(*value),
            through::<i32>(*value),
            through::<i64>(*value),
        );
        let name = row_of("a number", "Tiny, i32, i64", index);
        assert_text::value(came, (*tiny, *narrow, *wide)).expect(&rt, name.as_str());
    }
}

/// Compares the greatest number of an offset type, made without a test too, and whether the type is large, with these.
fn check_greatest<O: Offset>(rt: &impl Abort, case: &str, greatest: usize, is_large: bool)
    requires { greatest ≤ O.most }
{
    let untested = O::from_as_usize(greatest).to_usize();
    let came = (O::max().try_to_usize(), untested, O::IS_LARGE);
    assert_text::value(came, (Some(greatest), greatest, is_large)).expect(rt, case);
}

#[test]
fn offsets_know_their_greatest_and_whether_they_are_large(rt: HostRuntime) {
    check_greatest::<Tiny>(&rt, "Tiny", 100, false);
    check_greatest::<i32>(&rt, "i32", 2147483647, false);
    check_greatest::<i64>(&rt, "i64", 9223372036854775807, true);
    let signed = (
        i32::MIN.try_to_usize(),
        (-1_i64).try_to_usize(),
        7_i32.try_to_usize(),
    );
    let case = "negative offsets have no number: the least i32, -1, 7, 7 of 64 bits";
    assert_text::value((signed, 7_i64.to_usize()), ((None, None, Some(7)), 7)).expect(&rt, case);
}

/// Returns the distance from the first number to the second, by the bound; `None` if it is below, or one does not fit.
fn between<O: Offset>(start: usize, end: usize) -> Option<usize> {
    let start = O::from_usize(start)?;
    let end = O::from_usize(end)?;
    if start.to_usize() <= end.to_usize() {
        Some(start.distance_to(&end))
    } else {
        None
    }
}

/// Two numbers, and the distance from the first to the second.
const DISTANCES: &[(usize, usize, usize)] = &[
    (0, 0, 0),
    (3, 100, 97),
    (0, 2147483647, 2147483647),
    (2147483646, 2147483647, 1),
];

#[test]
fn distances_are_differences(rt: HostRuntime) {
    for (index, (start, end, distance)) in DISTANCES.iter().enumerate() {
        let came = [between::<i32>(*start, *end), between::<i64>(*start, *end)];
        let name = row_of("a distance", "i32, i64", index);
        assert_text::value(came, [Some(*distance); 2]).expect(&rt, name.as_str());
    }
    assert_text::value(between::<Tiny>(3, 100), Some(97)).expect(&rt, "Tiny");
}
