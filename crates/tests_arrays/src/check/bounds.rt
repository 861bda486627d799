//! Offsets over values of some length.
use arrow_check::bounds::{check_bounds, check_last};
use arrow_types::offset::Offset;
use std::process::Abort;
use tests_support::{assert_text, offset_name, offsets_of, row_of, tells};

const PAST: &str = "offsets must not exceed the values length";

const ELSEWHERE: &str = "the last offset must equal the values length";

/// A name, offsets, the number of values, and the expected answers of `check_bounds` and of `check_last`.
type Case = (&'static str, &'static [usize], usize, [&'static str; 2]);

/// Compares the answers for offsets of a width.
fn check<O: Offset>(rt: &(impl Abort + AllocGlobal), cases: &[Case]) {
    for (index, (case, numbers, values_len, expected)) in cases.iter().enumerate() {
        let offsets = offsets_of::<O>(rt.alloc(), *numbers).expect(rt, "offsets");
        let came = [
            tells(check_bounds(offsets.as_slice(), *values_len)),
            tells(check_last(offsets.as_slice(), *values_len)),
        ];
        drop(offsets);
        let name = row_of(*case, offset_name::<O>(), index);
        assert_text::value(came, *expected).expect(rt, name.as_str());
    }
}

#[rattlefmt::skip]
const NARROW: &[Case] = &[
    ("up to the values' end", &[0, 4], 4, ["made", "made"]),
    ("one past the values", &[0, 4], 3, [PAST, ELSEWHERE]),
    ("before the values' end", &[0, 4], 5, ["made", ELSEWHERE]),
    ("past no value", &[5], 0, [PAST, ELSEWHERE]),
    ("no slot, no value", &[0], 0, ["made", "made"]),
    ("not from zero", &[1, 4], 4, ["made", "made"]),
    ("the greatest offset", &[1, 1, 2147483647], 2147483646, [PAST, ELSEWHERE]),
];

#[rattlefmt::skip]
const WIDE: &[Case] = &[
    ("the greatest offset", &[0, 9223372036854775807], usize::MAX, ["made", ELSEWHERE]),
    ("past 32 bits", &[0, 9223372036854775807], 4294967295, [PAST, ELSEWHERE]),
];

#[test]
fn the_last_offset_lies_within_the_values_or_at_their_end(rt: HostRuntime) {
    check::<i32>(&rt, NARROW);
    check::<i64>(&rt, NARROW);
    check::<i64>(&rt, WIDE);
}
