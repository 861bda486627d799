//! Aggregates of groups of numbers.
use crate::arrays::{
    Slots, check_mask, check_numbers, check_slots, check_value, numbers, row, stored_numbers,
};
use arrow_integers::NativeArithmetics;
use arrow_primitive::PrimitiveArray;
use arrow_types::data_type::DataType;
use arrow_types::error::Error;
use compute_aggregate::aggregate::{
    group_count, group_max_primitive, group_min_primitive, group_rows, group_sum_primitive,
    group_sum_wide,
};
use compute_group::{Groups, group_primitive};
use std::fmt::Debug;
use std::process::Abort;

/// A name, values, marks, the key by which each slot is grouped, and the slots of the numbers of slots, of
/// the counts, of the least and of the greatest values.
#[rattlefmt::skip]
const CASES: &[(&str, &[i64], &str, &[u32], &str, &str, Slots, Slots)] = &[
    ("two groups", &[1, 2, 3, 4], "none", &[0, 1, 0, 1], "[2 2]", "[2 2]", ("[1 2]", "none"), ("[3 4]", "none")),
    ("a null", &[5, -9, 3, 9], "1010", &[0, 0, 0, 1], "[3 1]", "[2 0]", ("[3 _]", "10"), ("[5 _]", "10")),
    ("in the order of appearance", &[7, 8, 6], "none", &[2, 0, 2], "[2 1]", "[2 1]", ("[6 8]", "none"), ("[7 8]", "none")),
    ("no group", &[], "none", &[], "[]", "[]", ("[]", "none"), ("[]", "none")),
    ("one group", &[-1, -3, 0, -2], "1101", &[9, 9, 9, 9], "[4]", "[3]", ("[-3]", "none"), ("[-1]", "none")),
];

/// Returns the groups of equal keys.
pub(crate) fn groups_of_keys(rt: &(impl Abort + AllocGlobal), keys: &[u32]) -> Groups {
    let alloc = rt.alloc();
    let array = PrimitiveArray::from_slice(alloc, keys).expect(rt, "memory");
    let groups = group_primitive(alloc, &array).expect(rt, "memory");
    drop(array);
    groups
}

/// A name, values, the key by which each slot is grouped, and the sums.
type Sum<T> = (
    &'static str,
    &'static [Option<T>],
    &'static [u32],
    Result<Slots, Error>,
);

#[rattlefmt::skip]
const SUMS: &[Sum<i64>] = &[
    ("two groups", &[Some(1), Some(2), Some(3), Some(4)], &[0, 1, 0, 1], Ok(("[4 6]", "none"))),
    ("a null", &[Some(5), None, Some(-3), None], &[0, 0, 0, 1], Ok(("[2 _]", "10"))),
    ("one slot", &[Some(7)], &[1], Ok(("[7]", "none"))),
    ("only the whole has to fit", &[Some(i64::MAX), Some(1), Some(-1)], &[0, 0, 0], Ok(("[9223372036854775807]", "none"))),
    ("one group overflows", &[Some(1), Some(i64::MIN), Some(-1)], &[0, 1, 1], Err(Error::Overflow)),
    ("no group", &[], &[], Ok(("[]", "none"))),
];

/// Values of more than 64 bits.
#[rattlefmt::skip]
const WIDE_SUMS: &[Sum<i128>] = &[
    ("2 ^ 64", &[Some(1 << 64), Some(2), Some(-1)], &[0, 1, 0], Ok(("[18446744073709551615 2]", "none"))),
    ("more than 2 ^ 64", &[Some(3), Some((1 << 64) + 1), None], &[1, 1, 0], Ok(("[18446744073709551620 _]", "10"))),
    ("only the whole has to fit", &[Some(i128::MAX), Some(1), Some(-1)], &[0, 0, 0],
        Ok(("[170141183460469231731687303715884105727]", "none"))),
    ("one group overflows", &[Some(1), Some(i128::MIN), Some(-1)], &[0, 1, 1], Err(Error::Overflow)),
];

/// Compares the sums of the groups of each row.
fn check_sums<T: NativeArithmetics + Debug>(
    rt: &(impl Abort + AllocGlobal),
    test: &str,
    rows: &[Sum<T>],
) {
    for (index, (case, slots, keys, expected)) in rows.iter().enumerate() {
        let data_type = T::PRIMITIVE.default_data_type();
        let row = row(test, "numbers", index, *case);
        let array = numbers(rt, *slots);
        let groups = groups_of_keys(rt, *keys);
        assert!(rt;
            groups.indices().len() == array.len(),
            "a key for each slot"
        );
        check_numbers(
            rt,
            row.as_str(),
            group_sum_primitive(rt.alloc(), &array, &groups),
            *expected,
            &data_type,
        );
        drop((groups, array));
        drop(data_type);
    }
}

/// Sums past 64 bits of values of 64 bits.
#[rattlefmt::skip]
const WIDE_OF_LONG: &[Sum<i64>] = &[
    ("past the type", &[Some(i64::MAX), Some(2), Some(i64::MAX)], &[0, 1, 0], Ok(("[18446744073709551614 2]", "none"))),
    ("below the type, and a null", &[Some(i64::MIN), None, Some(-1)], &[0, 1, 0],
        Ok(("[-9223372036854775809 _]", "10"))),
    ("no group", &[], &[], Ok(("[]", "none"))),
];

/// Sums past 8 bits of values of 8 bits.
#[rattlefmt::skip]
const WIDE_OF_BYTES: &[Sum<u8>] = &[
    ("past the type", &[Some(255), Some(1), None], &[0, 0, 0], Ok(("[256]", "none"))),
];

/// Sums of values of 128 bits.
#[rattlefmt::skip]
const WIDE_OF_WIDE: &[Sum<i128>] = &[
    ("only the whole has to fit", &[Some(i128::MAX), Some(1), Some(-1)], &[0, 0, 0],
        Ok(("[170141183460469231731687303715884105727]", "none"))),
    ("one group overflows", &[Some(1), Some(i128::MIN), Some(-1)], &[0, 1, 1], Err(Error::Overflow)),
];

/// Compares the sums of the groups of each row as numbers of 128 bits.
fn check_wide_sums<T: NativeArithmetics>(rt: &(impl Abort + AllocGlobal), rows: &[Sum<T>]) {
    for (index, (case, slots, keys, expected)) in rows.iter().enumerate() {
        let row = row("group_sum_wide", "numbers", index, *case);
        let array = numbers(rt, *slots);
        let groups = groups_of_keys(rt, *keys);
        assert!(rt;
            groups.indices().len() == array.len(),
            "a key for each slot"
        );
        let made = group_sum_wide(rt.alloc(), &array, &groups, DataType::Decimal(38, 0));
        check_numbers(rt, row.as_str(), made, *expected, &DataType::Decimal(38, 0));
        drop((groups, array));
    }
}

#[test]
fn sums_of_groups_in_128_bits(rt: HostRuntime) {
    check_wide_sums(&rt, WIDE_OF_LONG);
    check_wide_sums(&rt, WIDE_OF_BYTES);
    check_wide_sums(&rt, WIDE_OF_WIDE);
}

/// Compares the numbers of the slots of each group.
fn check_counts(rt: &impl Abort, row: &str, made: PrimitiveArray<u64>, expected: &str) {
    check_slots(rt, row, made.iter(), expected);
    drop(made);
}

#[test]
fn groups_of_numbers(rt: HostRuntime) {
    let alloc = rt.alloc();
    let rows = CASES.iter().enumerate();
    for (index, (case, values, mask, keys, sizes, counts, least, greatest)) in rows {
        let array = stored_numbers(&rt, DataType::Date64, *values, *mask);
        let groups = groups_of_keys(&rt, *keys);
        assert!(rt;
            groups.indices().len() == array.len(),
            "a key for each slot"
        );
        let size = row("sizes of groups", "UInt32", index, *case);
        let made = group_rows(alloc, &groups).expect(&rt, "memory");
        check_counts(&rt, size.as_str(), made, *sizes);
        let count = row("counts of groups", "Date64", index, *case);
        let made = group_count(alloc, &array, &groups).expect(&rt, "memory");
        check_counts(&rt, count.as_str(), made, *counts);
        let row = row("extremes of groups", "Date64", index, *case);
        let row = row.as_str();
        check_numbers(
            &rt,
            row,
            group_min_primitive(alloc, &array, &groups),
            Ok(*least),
            &DataType::Date64,
        );
        check_numbers(
            &rt,
            row,
            group_max_primitive(alloc, &array, &groups),
            Ok(*greatest),
            &DataType::Date64,
        );
        drop((groups, array));
    }
}

/// The last two sums are of the slots of a group among which every third is null: a mask is read by words of 64 marks.
#[test]
fn sums_of_groups(rt: HostRuntime) {
    let alloc = rt.alloc();
    check_sums(&rt, "sums of groups", SUMS);
    check_sums(&rt, "sums of groups of wide numbers", WIDE_SUMS);
    let mut slots = Vec::new(alloc);
    let mut keys = Vec::new(alloc);
    let mut sums = [0i64, 0];
    for i in 0..150usize {
        let is_valid = i % 3 != 0;
        slots
            .push(if is_valid { Some(i as i64) } else { None })
            .expect(&rt, "memory");
        keys.push((i % 2) as u32).expect(&rt, "memory");
        if is_valid {
            sums[i % 2] = sums[i % 2].wrapping_add(i as i64);
        }
    }
    let array = numbers(&rt, slots.as_slice());
    drop(slots);
    let groups = groups_of_keys(&rt, keys.as_slice());
    drop(keys);
    assert!(rt;
        groups.indices().len() == array.len(),
        "a key for each slot"
    );
    let made = group_sum_primitive(alloc, &array, &groups).expect(&rt, "memory");
    drop((groups, array));
    let row = "sum of more than a word of marks: the even slots, the odd slots";
    check_value(&rt, row, made.values().as_slice(), sums.as_slice());
    check_mask(&rt, row, made.validity(), "none");
    drop(made);
}
