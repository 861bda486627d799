//! Sums, least and greatest values of numbers.
use crate::arrays::{check_value, row, stored_numbers};
use arrow_integers::NativeArithmetics;
use arrow_memory::bitmap::MutableBitmap;
use arrow_memory::buffer::Buffer;
use arrow_primitive::PrimitiveArray;
use arrow_types::data_type::DataType;
use arrow_types::error::Error;
use compute_aggregate::aggregate::{
    count_valid, max_primitive, min_primitive, sum_primitive, sum_wide,
};
use std::fmt::Debug;
use std::process::Abort;
use tests_support::Text;

/// A name, values, marks, whether the sum fits and the sum, the least and the greatest value, and how many slots are
/// valid.
type Row<T> = (
    &'static str,
    &'static [T],
    &'static str,
    (bool, Option<T>),
    Option<T>,
    Option<T>,
    usize,
);

const MIN: i64 = i64::MIN;

const MAX: i64 = i64::MAX;

#[rattlefmt::skip]
const LONG: &[Row<i64>] = &[
    ("no slot", &[], "none", (true, None), None, None, 0),
    ("null slots only", &[1, 2], "00", (true, None), None, None, 0),
    ("no null", &[3, -1, 2], "none", (true, Some(4)), Some(-1), Some(3), 3),
    ("a needless mask", &[3, -1, 2], "111", (true, Some(4)), Some(-1), Some(3), 3),
    ("extremes under nulls", &[-9, 3, 9, 5], "0101", (true, Some(8)), Some(3), Some(5), 2),
    ("zero is above the values", &[-3, 0, -5], "101", (true, Some(-8)), Some(-5), Some(-3), 2),
    ("only the whole has to fit", &[MAX, 1, -1], "none", (true, Some(MAX)), Some(-1), Some(MAX), 3),
    ("one too great", &[MAX, 1], "none", (false, None), Some(1), Some(MAX), 2),
    ("one too small", &[MIN, -1], "none", (false, None), Some(MIN), Some(-1), 2),
    ("least and greatest", &[MIN, MAX], "none", (true, Some(-1)), Some(MIN), Some(MAX), 2),
    ("above 32 bits", &[4294967296, -1, -4294967297, 5], "1101", (true, Some(4294967300)), Some(-1), Some(4294967296), 3),
    ("below 32 bits", &[-4294967297, -4294967295, 1], "none", (true, Some(-8589934591)), Some(-4294967297), Some(1), 3),
];

const HUGE: i128 = i128::MAX;

#[rattlefmt::skip]
const WIDE: &[Row<i128>] = &[
    ("a sum on the way is too great", &[HUGE, HUGE, -HUGE], "none", (true, Some(HUGE)), Some(-HUGE), Some(HUGE), 3),
    ("a sum on the way is too small", &[-HUGE, -HUGE, 0, HUGE], "1101", (true, Some(-HUGE)), Some(-HUGE), Some(HUGE), 3),
    ("the greatest number", &[HUGE - 1, 1], "none", (true, Some(HUGE)), Some(1), Some(HUGE - 1), 2),
    ("one more", &[HUGE, 1], "none", (false, None), Some(1), Some(HUGE), 2),
    ("the least number", &[-HUGE, -1], "none", (true, Some(i128::MIN)), Some(-HUGE), Some(-1), 2),
    ("one less", &[-HUGE, -2], "none", (false, None), Some(-HUGE), Some(-2), 2),
    ("far too great", &[HUGE, HUGE, HUGE, HUGE], "none", (false, None), Some(HUGE), Some(HUGE), 4),
];

#[rattlefmt::skip]
const BYTES: &[Row<u8>] = &[
    ("the greatest number", &[200, 55], "none", (true, Some(255)), Some(55), Some(200), 2),
    ("one more", &[200, 56], "none", (false, None), Some(56), Some(200), 2),
    ("a null", &[200, 56, 1], "101", (true, Some(201)), Some(1), Some(200), 2),
];

#[rattlefmt::skip]
const NATURALS: &[Row<u64>] = &[
    ("the greatest number", &[u64::MAX, 0], "none", (true, Some(u64::MAX)), Some(0), Some(u64::MAX), 2),
    ("one more", &[u64::MAX, 1], "none", (false, None), Some(1), Some(u64::MAX), 2),
];

/// Compares the aggregates of the numbers of each row.
fn check_rows<T: NativeArithmetics + Debug>(
    rt: &(impl Abort + AllocGlobal),
    test: &str,
    rows: &[Row<T>],
) {
    for (index, (case, values, mask, (fits, sum), least, greatest, valid)) in rows
        .iter()
        .enumerate()
    {
        let kind = Text::of(format_args!("{:?}", T::PRIMITIVE));
        let row = row(test, kind.as_str(), index, *case);
        let row = row.as_str();
        let numbers = stored_numbers(rt, T::PRIMITIVE.default_data_type(), *values, *mask);
        let sum = if *fits {
            Ok(*sum)
        } else {
            Err(Error::Overflow)
        };
        check_value(rt, row, sum_primitive(&numbers), sum);
        check_value(rt, row, min_primitive(&numbers), *least);
        check_value(rt, row, max_primitive(&numbers), *greatest);
        check_value(rt, row, count_valid(&numbers), *valid);
        drop(numbers);
    }
}

/// A name; which of 300 slots are valid, at multiples of the first number that are not below the second;
/// and the sum, the least and the greatest value. Each slot stores its index, null or not.
#[rattlefmt::skip]
const PERIODS: &[(&str, usize, usize, i32, i32, i32)] = &[
    ("every slot", 1, 0, 44850, 0, 299),
    ("every third", 3, 0, 14850, 0, 297),
    ("the first is in the second word", 1, 64, 42834, 64, 299),
    ("the first is in the rest", 1, 260, 11180, 260, 299),
    ("only the last", 299, 1, 299, 299, 299),
    ("one in the fourth word", 250, 1, 250, 250, 250),
];

/// A name, values, marks and the sum as an `i128`.
type WideSum<T> = (
    &'static str,
    &'static [T],
    &'static str,
    Result<Option<i128>, Error>,
);

#[rattlefmt::skip]
const WIDE_OF_BYTES: &[WideSum<i8>] = &[
    ("no slot", &[], "none", Ok(None)),
    ("null slots only", &[1, 2], "00", Ok(None)),
    ("past the type", &[127, 127, 1], "none", Ok(Some(255))),
    ("below the type", &[-128, -1, 5], "110", Ok(Some(-129))),
    ("a sum of zero", &[-128, 127, 1], "111", Ok(Some(0))),
];

#[rattlefmt::skip]
const WIDE_OF_LONG: &[WideSum<i64>] = &[
    ("past the type", &[MAX, MAX, 1], "none", Ok(Some(18446744073709551615))),
    ("below the type", &[MIN, MIN, -1, 7], "1110", Ok(Some(-18446744073709551617))),
];

#[rattlefmt::skip]
const WIDE_OF_NATURALS: &[WideSum<u64>] = &[
    ("past the type", &[u64::MAX, u64::MAX, 3], "none", Ok(Some(36893488147419103233))),
];

#[rattlefmt::skip]
const WIDE_OF_WIDE: &[WideSum<i128>] = &[
    ("only the whole has to fit", &[HUGE, 1, -1], "none", Ok(Some(HUGE))),
    ("past 128 bits", &[HUGE, 1], "none", Err(Error::Overflow)),
    ("below 128 bits", &[-HUGE, -2, 5], "110", Err(Error::Overflow)),
];

/// Compares the sums of the numbers of each row.
fn check_wide_sums<T: NativeArithmetics + Debug>(
    rt: &(impl Abort + AllocGlobal),
    rows: &[WideSum<T>],
) {
    for (index, (case, values, mask, sum)) in rows.iter().enumerate() {
        let kind = Text::of(format_args!("{:?}", T::PRIMITIVE));
        let row = row("sum_wide", kind.as_str(), index, *case);
        let numbers = stored_numbers(rt, T::PRIMITIVE.default_data_type(), *values, *mask);
        check_value(rt, row.as_str(), sum_wide(&numbers), *sum);
        drop(numbers);
    }
}

#[test]
fn numbers_are_summed_in_128_bits(rt: HostRuntime) {
    check_wide_sums(&rt, WIDE_OF_BYTES);
    check_wide_sums(&rt, WIDE_OF_LONG);
    check_wide_sums(&rt, WIDE_OF_NATURALS);
    check_wide_sums(&rt, WIDE_OF_WIDE);
}

#[test]
fn numbers_are_summed_and_compared(rt: HostRuntime) {
    let alloc = rt.alloc();
    check_rows(&rt, "aggregates of numbers", LONG);
    check_rows(&rt, "sums of 128 bits", WIDE);
    check_rows(&rt, "sums of unsigned numbers", BYTES);
    check_rows(&rt, "sums of unsigned numbers", NATURALS);
    for (index, (case, period, from, sum, least, greatest)) in PERIODS.iter().enumerate() {
        let row = row("aggregates of long arrays", "Int32", index, *case);
        let row = row.as_str();
        assert!(rt; *period != 0, "a period above zero");
        let mut values = Vec::new(alloc);
        let mut marks = MutableBitmap::new(alloc);
        for i in 0..300usize {
            values.push(i as i32).expect(&rt, "memory");
            marks
                .push(i % *period == 0 && i >= *from)
                .expect(&rt, "memory");
        }
        let values = Buffer::from_vec(values).expect(&rt, "memory");
        let mask = Some(marks.freeze().expect(&rt, "memory"));
        let numbers = PrimitiveArray::try_new(DataType::Int32, values, mask).expect(&rt, "parts");
        check_value(&rt, row, sum_primitive(&numbers), Ok(Some(*sum)));
        check_value(&rt, row, min_primitive(&numbers), Some(*least));
        check_value(&rt, row, max_primitive(&numbers), Some(*greatest));
        drop(numbers);
    }
}
