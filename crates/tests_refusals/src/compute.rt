//! Kernels that compute: comparisons, logic, arithmetic and sorts of three slots.
use crate::boolean::array_text as boolean_text;
use crate::primitive::array_text as number_text;
use crate::refusal::{end, results};
use crate::sort::index_text;
use arrow_boolean::BooleanArray;
use arrow_primitive::PrimitiveArray;
use arrow_utf8::Utf8Array;
use compute_arithmetics::basic::{add, checked_mul_scalar, negate, saturating_sub};
use compute_comparison::boolean::{self, is_not_null, is_null};
use compute_comparison::boolean_kleene;
use compute_comparison::comparison::{
    eq, eq_and_validity, eq_scalar, eq_scalar_and_validity, gt, gt_eq, gt_eq_scalar, gt_scalar, lt,
    lt_eq, lt_eq_scalar, lt_scalar, neq, neq_and_validity, neq_scalar, neq_scalar_and_validity,
};
use compute_sort::SortOptions;
use compute_sort::sort::{sort, sort_to_indices};
use std::test::Fail;

/// The greatest first.
const DESCENDING: SortOptions = SortOptions {
    descending: true,
    nulls_first: true,
};

#[test]
fn kernels_that_compute_with_numbers_answer_again(rt: HostRuntime) -> Result<(), Fail> {
    let alloc = rt.alloc();
    let lhs = PrimitiveArray::<i64>::from_slice(alloc, &[7, 8, 9]).expect(&rt, "refused");
    let rhs = PrimitiveArray::<i64>::from_slice(alloc, &[8, 8, 8]).expect(&rt, "refused");
    assert!(&rt; lhs.len() == rhs.len(), "operands of one length");
    let is_refused = results! { &rt;
        boolean_text: lt(alloc, &lhs, &rhs) => "true false false";
        boolean_text: eq_scalar(alloc, &lhs, 8i64) => "false true false";
        number_text: add(alloc, &lhs, &rhs) => "15 16 17";
        number_text: saturating_sub(alloc, &lhs, &rhs) => "-1 0 1";
        number_text: checked_mul_scalar(alloc, &lhs, 2) => "14 16 18 under 111";
        number_text: negate(alloc, &lhs) => "-7 -8 -9";
        index_text: sort_to_indices(alloc, &lhs, DESCENDING, None) => "[2, 1, 0]";
        number_text: sort(alloc, &lhs, DESCENDING, Some(2)) => "9 8";
    };
    drop(rhs);
    drop(lhs);
    end(is_refused)
}

#[test]
fn kernels_that_compute_with_booleans_answer_again(rt: HostRuntime) -> Result<(), Fail> {
    let alloc = rt.alloc();
    let lhs = BooleanArray::from_slice(alloc, &[true, true, false]).expect(&rt, "refused");
    let rhs = BooleanArray::from_slice(alloc, &[true, false, false]).expect(&rt, "refused");
    assert!(&rt; lhs.len() == rhs.len(), "operands of one length");
    let is_refused = results! { &rt;
        boolean_text: boolean::and(alloc, &lhs, &rhs) => "true false false";
        boolean_text: boolean::or(alloc, &lhs, &rhs) => "true true false";
        boolean_text: boolean::not(alloc, &lhs) => "false false true";
        boolean_text: is_null(alloc, &lhs) => "false false false";
        boolean_text: is_not_null(alloc, &lhs) => "true true true";
        boolean_text: boolean_kleene::and(alloc, &lhs, &rhs) => "true false false";
        boolean_text: boolean_kleene::or(alloc, &lhs, &rhs) => "true true false";
        boolean_text: boolean::and_scalar(alloc, &lhs, Some(false)) => "false false false";
        boolean_text: boolean::or_scalar(alloc, &lhs, None) => "(false) (false) (false)";
        boolean_text: boolean_kleene::and_scalar(alloc, &lhs, None) => "(true) (true) false";
        boolean_text: boolean_kleene::or_scalar(alloc, &lhs, Some(true)) => "true true true";
    };
    drop(rhs);
    drop(lhs);
    end(is_refused)
}

#[test]
fn comparisons_of_numbers_answer_again(rt: HostRuntime) -> Result<(), Fail> {
    let alloc = rt.alloc();
    let lhs = PrimitiveArray::<i64>::from_slice(alloc, &[7, 8, 9]).expect(&rt, "refused");
    let rhs = PrimitiveArray::<i64>::from_slice(alloc, &[8, 8, 8]).expect(&rt, "refused");
    assert!(&rt; lhs.len() == rhs.len(), "operands of one length");
    let is_refused = results! { &rt;
        boolean_text: eq(alloc, &lhs, &rhs) => "false true false";
        boolean_text: neq(alloc, &lhs, &rhs) => "true false true";
        boolean_text: lt_eq(alloc, &lhs, &rhs) => "true true false";
        boolean_text: gt(alloc, &lhs, &rhs) => "false false true";
        boolean_text: gt_eq(alloc, &lhs, &rhs) => "false true true";
        boolean_text: eq_and_validity(alloc, &lhs, &rhs) => "false true false";
        boolean_text: neq_and_validity(alloc, &lhs, &rhs) => "true false true";
        boolean_text: eq_scalar_and_validity(alloc, &lhs, 8i64) => "false true false";
        boolean_text: neq_scalar_and_validity(alloc, &lhs, 8i64) => "true false true";
        boolean_text: neq_scalar(alloc, &lhs, 8i64) => "true false true";
        boolean_text: lt_scalar(alloc, &lhs, 8i64) => "true false false";
        boolean_text: lt_eq_scalar(alloc, &lhs, 8i64) => "true true false";
        boolean_text: gt_scalar(alloc, &lhs, 8i64) => "false false true";
        boolean_text: gt_eq_scalar(alloc, &lhs, 8i64) => "false true true";
    };
    drop(rhs);
    drop(lhs);
    end(is_refused)
}

#[test]
fn comparisons_of_booleans_and_text_answer_again(rt: HostRuntime) -> Result<(), Fail> {
    let alloc = rt.alloc();
    let booleans = BooleanArray::from_slice(alloc, &[true, true, false]).expect(&rt, "refused");
    let texts = Utf8Array::<i32>::from_slice(alloc, &["a", "b", "c"]).expect(&rt, "refused");
    let others = Utf8Array::<i32>::from_slice(alloc, &["b", "b", "b"]).expect(&rt, "refused");
    assert!(&rt; texts.len() == others.len(), "operands of one length");
    let is_refused = results! { &rt;
        boolean_text: lt(alloc, &booleans, &booleans) => "false false false";
        boolean_text: eq_scalar(alloc, &booleans, true) => "true true false";
        boolean_text: lt(alloc, &texts, &others) => "true false false";
        boolean_text: eq_scalar(alloc, &texts, "b") => "false true false";
    };
    drop(others);
    drop(texts);
    drop(booleans);
    end(is_refused)
}
