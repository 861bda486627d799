//! Arithmetic of two arrays.
use crate::arrays::{check_numbers, check_value, row, stored_numbers};
use arrow_primitive::PrimitiveArray;
use arrow_types::data_type::DataType;
use compute_arithmetics::basic::{
    add, checked_add, checked_div, checked_mul, checked_rem, checked_sub, div, has_zero,
    has_zero_divisor, mul, rem, saturating_add, saturating_mul, saturating_sub, sub, wrapping_add,
    wrapping_mul, wrapping_sub,
};
use std::process::Abort;

/// Creates an array of small integers.
fn bytes(rt: &(impl Abort + AllocGlobal), values: &[i8], mask: &str) -> PrimitiveArray<i8> {
    stored_numbers(rt, DataType::Int8, values, mask)
}

#[test]
fn slots_of_two_arrays_are_combined(rt: HostRuntime) {
    let alloc = rt.alloc();
    // The last slot of the second is null, and stores zero.
    let lhs = bytes(&rt, &[100, -100, 7, -7, -128, 5], "none");
    let rhs = bytes(&rt, &[100, 100, 2, 2, -1, 0], "111110");
    macro_rules! compare_answer {
        ($kernel:ident, $slots:expr, $mask:expr) => {
            check_numbers(
                &rt,
                concat!("slots of two arrays are combined: ", stringify!($kernel)),
                $kernel(alloc, &lhs, &rhs),
                Ok(($slots, $mask)),
                &DataType::Int8,
            );
        };
    }
    assert!(rt; lhs.len() == rhs.len(), "operands of one length");
    compare_answer!(add, "[-56 0 9 -5 127 _]", "111110");
    compare_answer!(sub, "[0 56 5 -9 -127 _]", "111110");
    compare_answer!(mul, "[16 -16 14 -14 -128 _]", "111110");
    compare_answer!(wrapping_add, "[-56 0 9 -5 127 _]", "111110");
    compare_answer!(wrapping_sub, "[0 56 5 -9 -127 _]", "111110");
    compare_answer!(wrapping_mul, "[16 -16 14 -14 -128 _]", "111110");
    compare_answer!(checked_add, "[_ 0 9 -5 _ _]", "011100");
    compare_answer!(checked_sub, "[0 _ 5 -9 -127 _]", "101110");
    compare_answer!(checked_mul, "[_ _ 14 -14 _ _]", "001100");
    compare_answer!(checked_div, "[1 -1 3 -3 _ _]", "111100");
    compare_answer!(checked_rem, "[0 0 1 -1 _ _]", "111100");
    compare_answer!(saturating_add, "[127 0 9 -5 -128 _]", "111110");
    compare_answer!(saturating_sub, "[0 -128 5 -9 -127 _]", "111110");
    compare_answer!(saturating_mul, "[127 -128 14 -14 127 _]", "111110");
    check_value(&rt, "a zero under a null", has_zero(&rhs), false);
    assert!(rt; !has_zero_divisor(&lhs, &rhs), "a zero under a null");
    check_numbers(
        &rt,
        "slots of two arrays saturate and divide: div",
        div(alloc, &lhs, &rhs),
        Ok(("[1 -1 3 -3 -128 _]", "111110")),
        &DataType::Int8,
    );
    compare_answer!(rem, "[0 0 1 -1 0 _]", "111110");
    drop(lhs);
    drop(rhs);
}

#[test]
fn quotients_by_zero_beside_a_null_are_null(rt: HostRuntime) {
    let alloc = rt.alloc();
    // The zeros of the second stand beside a null, under a null, and under a null beside a null.
    let lhs = bytes(&rt, &[9, 9, 9, 9], "0101");
    let rhs = bytes(&rt, &[0, 0, 0, -4], "1001");
    assert!(rt; lhs.len() == rhs.len(), "operands of one length");
    check_value(&rt, "a valid zero", has_zero(&rhs), true);
    assert!(rt;
        !has_zero_divisor(&lhs, &rhs),
        "no zero divides a valid slot"
    );
    check_numbers(
        &rt,
        "a zero beside a null: div",
        div(alloc, &lhs, &rhs),
        Ok(("[_ _ _ -2]", "0001")),
        &DataType::Int8,
    );
    check_numbers(
        &rt,
        "a zero beside a null: rem",
        rem(alloc, &lhs, &rhs),
        Ok(("[_ _ _ 1]", "0001")),
        &DataType::Int8,
    );
    drop(rhs);
    drop(lhs);
}

#[test]
fn only_a_zero_that_divides_a_valid_slot_is_a_zero_divisor(rt: HostRuntime) {
    let lhs = bytes(&rt, &[9, 9, 9, 9], "0101");
    for (index, (case, values, mask, expected)) in [
        ("a zero in a valid slot", &[1, 0, 1, 1], "none", true),
        ("the last divides by zero", &[0, 1, 0, 0], "1111", true),
        ("zeros beside nulls", &[0, 1, 0, 1], "none", false),
        ("a zero under a null", &[1, 0, 1, 1], "1011", false),
    ]
    .iter()
    .enumerate()
    {
        let row = row("has_zero_divisor", "Int8", index, *case);
        let divisors = bytes(&rt, *values, *mask);
        assert!(rt; lhs.len() == divisors.len(), "operands of one length");
        check_value(
            &rt,
            row.as_str(),
            has_zero_divisor(&lhs, &divisors),
            *expected,
        );
        drop(divisors);
    }
    drop(lhs);
}

#[test]
fn a_zero_that_is_valid_divides_nothing(rt: HostRuntime) {
    let alloc = rt.alloc();
    let (lhs, rhs) = (bytes(&rt, &[6, 6, 6], "101"), bytes(&rt, &[0, 0, 4], "110"));
    assert!(rt; lhs.len() == rhs.len(), "operands of one length");
    check_value(&rt, "a valid zero", has_zero(&rhs), true);
    check_numbers(
        &rt,
        "zero, with nulls",
        checked_div(alloc, &lhs, &rhs),
        Ok(("[_ _ _]", "000")),
        &DataType::Int8,
    );
    check_numbers(
        &rt,
        "by the left",
        checked_div(alloc, &rhs, &lhs),
        Ok(("[0 _ _]", "100")),
        &DataType::Int8,
    );
    check_numbers(
        &rt,
        "sums of slots with nulls",
        add(alloc, &lhs, &rhs),
        Ok(("[6 _ _]", "100")),
        &DataType::Int8,
    );
    drop(lhs);
    drop(rhs);
    let (lhs, rhs) = (bytes(&rt, &[1, 2], "none"), bytes(&rt, &[3, 4], "none"));
    assert!(rt; lhs.len() == rhs.len(), "operands of one length");
    check_numbers(
        &rt,
        "without a mask",
        add(alloc, &lhs, &rhs),
        Ok(("[4 6]", "none")),
        &DataType::Int8,
    );
    check_numbers(
        &rt,
        "a checked sum without nulls",
        checked_add(alloc, &lhs, &rhs),
        Ok(("[4 6]", "11")),
        &DataType::Int8,
    );
    drop(lhs);
    drop(rhs);
}
