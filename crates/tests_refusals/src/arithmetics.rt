//! Arithmetic of three slots.
use crate::primitive::array_text as number_text;
use crate::refusal::{end, results};
use arrow_primitive::PrimitiveArray;
use compute_arithmetics::basic::{
    add_scalar, checked_add, checked_add_scalar, checked_div, checked_div_scalar, checked_mul,
    checked_negate, checked_rem, checked_rem_scalar, checked_sub, checked_sub_scalar, div,
    div_scalar, has_zero_divisor, mul, mul_scalar, rem, rem_scalar, saturating_add,
    saturating_add_scalar, saturating_mul, saturating_mul_scalar, saturating_sub_scalar, sub,
    sub_scalar, wrapping_add, wrapping_add_scalar, wrapping_mul, wrapping_mul_scalar,
    wrapping_negate, wrapping_sub, wrapping_sub_scalar,
};
use std::test::Fail;

/// The slots of the first array, and of the second.
const FIRST: &[i64] = &[7, 8, 9];

const SECOND: &[i64] = &[8, 8, 8];

#[test]
fn arithmetic_of_two_arrays_answers_again(rt: HostRuntime) -> Result<(), Fail> {
    let alloc = rt.alloc();
    let lhs = PrimitiveArray::from_slice(alloc, FIRST).expect(&rt, "refused");
    let rhs = PrimitiveArray::from_slice(alloc, SECOND).expect(&rt, "refused");
    assert!(&rt; lhs.len() == rhs.len(), "operands of one length");
    let is_refused = results! { &rt;
        number_text: sub(alloc, &lhs, &rhs) => "-1 0 1";
        number_text: mul(alloc, &lhs, &rhs) => "56 64 72";
        number_text: wrapping_add(alloc, &lhs, &rhs) => "15 16 17";
        number_text: wrapping_sub(alloc, &lhs, &rhs) => "-1 0 1";
        number_text: wrapping_mul(alloc, &lhs, &rhs) => "56 64 72";
        number_text: checked_add(alloc, &lhs, &rhs) => "15 16 17 under 111";
        number_text: checked_sub(alloc, &lhs, &rhs) => "-1 0 1 under 111";
        number_text: checked_mul(alloc, &lhs, &rhs) => "56 64 72 under 111";
        number_text: checked_div(alloc, &lhs, &rhs) => "0 1 1 under 111";
        number_text: checked_rem(alloc, &lhs, &rhs) => "7 0 1 under 111";
        number_text: saturating_add(alloc, &lhs, &rhs) => "15 16 17";
        number_text: saturating_mul(alloc, &lhs, &rhs) => "56 64 72";
    };
    drop(rhs);
    drop(lhs);
    end(is_refused)
}

#[test]
fn quotients_of_two_arrays_answer_again(rt: HostRuntime) -> Result<(), Fail> {
    let alloc = rt.alloc();
    let lhs = PrimitiveArray::from_slice(alloc, FIRST).expect(&rt, "refused");
    let rhs = PrimitiveArray::from_slice(alloc, SECOND).expect(&rt, "refused");
    assert!(&rt; lhs.len() == rhs.len(), "operands of one length");
    assert!(&rt;
        !has_zero_divisor(&lhs, &rhs),
        "no zero divides a valid slot"
    );
    let is_refused = results! { &rt;
        number_text: div(alloc, &lhs, &rhs) => "0 1 1";
        number_text: rem(alloc, &lhs, &rhs) => "7 0 1";
    };
    drop(rhs);
    drop(lhs);
    end(is_refused)
}

#[test]
fn arithmetic_of_an_array_and_a_value_answers_again(rt: HostRuntime) -> Result<(), Fail> {
    let alloc = rt.alloc();
    let array = PrimitiveArray::from_slice(alloc, FIRST).expect(&rt, "refused");
    let is_refused = results! { &rt;
        number_text: add_scalar(alloc, &array, 2) => "9 10 11";
        number_text: sub_scalar(alloc, &array, 2) => "5 6 7";
        number_text: mul_scalar(alloc, &array, 2) => "14 16 18";
        number_text: wrapping_add_scalar(alloc, &array, 2) => "9 10 11";
        number_text: wrapping_sub_scalar(alloc, &array, 2) => "5 6 7";
        number_text: wrapping_mul_scalar(alloc, &array, 2) => "14 16 18";
        number_text: div_scalar(alloc, &array, 2) => "3 4 4";
        number_text: rem_scalar(alloc, &array, 2) => "1 0 1";
        number_text: checked_add_scalar(alloc, &array, 2) => "9 10 11 under 111";
        number_text: checked_sub_scalar(alloc, &array, 2) => "5 6 7 under 111";
        number_text: checked_div_scalar(alloc, &array, 2) => "3 4 4 under 111";
        number_text: checked_rem_scalar(alloc, &array, 2) => "1 0 1 under 111";
        number_text: saturating_add_scalar(alloc, &array, 2) => "9 10 11";
        number_text: saturating_sub_scalar(alloc, &array, 2) => "5 6 7";
        number_text: saturating_mul_scalar(alloc, &array, 2) => "14 16 18";
        number_text: checked_negate(alloc, &array) => "-7 -8 -9 under 111";
        number_text: wrapping_negate(alloc, &array) => "-7 -8 -9";
    };
    drop(array);
    end(is_refused)
}
