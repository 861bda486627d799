//! Arithmetic, over arrays that are made once.
use crate::compute::{Pair, pair};
use crate::operation::{Operation, Probe, run};
use crate::whole::array_of_parts;
use arrow_primitive::PrimitiveArray;
use arrow_types::data_type::DataType;
use compute_arithmetics::basic::{
    add, checked_add, div, has_zero_divisor, mul, negate, saturating_add, sub_scalar,
};
use compute_cast::primitive_as_primitive;
use std::alloc::Global;

/// Two arrays of 32-bit values.
type ShortPair = (PrimitiveArray<i32>, PrimitiveArray<i32>);

struct AddValues;

impl Operation for AddValues {
    type Source = Pair;

    type Made = PrimitiveArray<i64>;

    #[inline(always)]
    fn make(alloc: Global, (lhs, rhs): &Pair) -> Option<PrimitiveArray<i64>> {
        if lhs.len() != rhs.len() {
            return None;
        }
        add(alloc, lhs, rhs).ok()
    }
}

// lhs + rhs, wrapping around; the second array has no null
#[unsafe(no_mangle)]
pub extern "C" fn rattle_flat_arith_add_i64(
    alloc: Global,
    values: &[i64],
    others: &[i64],
    valid: &[u8],
    rounds: usize,
) -> u64 {
    run::<AddValues>(alloc, pair(alloc, values, others, valid), rounds)
}

struct CheckedAddValues;

impl Operation for CheckedAddValues {
    type Source = Pair;

    type Made = PrimitiveArray<i64>;

    #[inline(always)]
    fn make(alloc: Global, (lhs, rhs): &Pair) -> Option<PrimitiveArray<i64>> {
        if lhs.len() != rhs.len() {
            return None;
        }
        checked_add(alloc, lhs, rhs).ok()
    }
}

// lhs + rhs, null where it overflows
#[unsafe(no_mangle)]
pub extern "C" fn rattle_flat_arith_checked_add_i64(
    alloc: Global,
    values: &[i64],
    others: &[i64],
    valid: &[u8],
    rounds: usize,
) -> u64 {
    run::<CheckedAddValues>(alloc, pair(alloc, values, others, valid), rounds)
}

struct MulValues;

impl Operation for MulValues {
    type Source = Pair;

    type Made = PrimitiveArray<i64>;

    #[inline(always)]
    fn make(alloc: Global, (lhs, rhs): &Pair) -> Option<PrimitiveArray<i64>> {
        if lhs.len() != rhs.len() {
            return None;
        }
        mul(alloc, lhs, rhs).ok()
    }
}

// lhs * rhs, wrapping around
#[unsafe(no_mangle)]
pub extern "C" fn rattle_flat_arith_mul_i64(
    alloc: Global,
    values: &[i64],
    others: &[i64],
    valid: &[u8],
    rounds: usize,
) -> u64 {
    run::<MulValues>(alloc, pair(alloc, values, others, valid), rounds)
}

struct SubSeven;

impl Operation for SubSeven {
    type Source = PrimitiveArray<i64>;

    type Made = PrimitiveArray<i64>;

    #[inline(always)]
    fn make(alloc: Global, array: &PrimitiveArray<i64>) -> Option<PrimitiveArray<i64>> {
        sub_scalar(alloc, array, 7i64).ok()
    }
}

// each value - 7, wrapping around
#[unsafe(no_mangle)]
pub extern "C" fn rattle_flat_arith_sub_scalar_i64(
    alloc: Global,
    values: &[i64],
    valid: &[u8],
    rounds: usize,
) -> u64 {
    run::<SubSeven>(alloc, array_of_parts(alloc, values, valid), rounds)
}

struct NegateValues;

impl Operation for NegateValues {
    type Source = PrimitiveArray<i64>;

    type Made = PrimitiveArray<i64>;

    #[inline(always)]
    fn make(alloc: Global, array: &PrimitiveArray<i64>) -> Option<PrimitiveArray<i64>> {
        negate(alloc, array).ok()
    }
}

// each value with the other sign, wrapping around
#[unsafe(no_mangle)]
pub extern "C" fn rattle_flat_arith_negate_i64(
    alloc: Global,
    values: &[i64],
    valid: &[u8],
    rounds: usize,
) -> u64 {
    run::<NegateValues>(alloc, array_of_parts(alloc, values, valid), rounds)
}

/// Divides in each round. That no divisor is zero is tested once.
fn divide_each(
    alloc: Global,
    lhs: &PrimitiveArray<i64>,
    rhs: &PrimitiveArray<i64>,
    rounds: usize,
) -> u64 {
    if lhs.len() != rhs.len() || has_zero_divisor(lhs, rhs) {
        return u64::MAX;
    }
    let mut sum = 0u64;
    for round in 0..rounds {
        match div(alloc, lhs, rhs) {
            Ok(made) => sum = sum.wrapping_add(made.probe(round)),
            Err(_) => return u64::MAX,
        }
    }
    sum
}

// lhs / rhs, which has no zero
#[unsafe(no_mangle)]
pub extern "C" fn rattle_flat_arith_div_i64(
    alloc: Global,
    values: &[i64],
    others: &[i64],
    valid: &[u8],
    rounds: usize,
) -> u64 {
    match pair(alloc, values, others, valid) {
        Some((lhs, rhs)) => divide_each(alloc, &lhs, &rhs, rounds),
        None => u64::MAX,
    }
}

/// Returns an array of the low 32 bits of values.
fn shorts(alloc: Global, values: &[i64]) -> Option<PrimitiveArray<i32>> {
    let wide = array_of_parts(alloc, values, &[])?;
    primitive_as_primitive(alloc, &wide, DataType::Int32).ok()
}

fn short_pair(alloc: Global, values: &[i64], others: &[i64]) -> Option<ShortPair> {
    let first = shorts(alloc, values)?;
    let second = shorts(alloc, others)?;
    Some((first, second))
}

struct AddShorts;

impl Operation for AddShorts {
    type Source = ShortPair;

    type Made = PrimitiveArray<i32>;

    #[inline(always)]
    fn make(alloc: Global, (lhs, rhs): &ShortPair) -> Option<PrimitiveArray<i32>> {
        if lhs.len() != rhs.len() {
            return None;
        }
        add(alloc, lhs, rhs).ok()
    }
}

// lhs + rhs of the low 32 bits of each
#[unsafe(no_mangle)]
pub extern "C" fn rattle_flat_arith_add_i32(
    alloc: Global,
    values: &[i64],
    others: &[i64],
    rounds: usize,
) -> u64 {
    run::<AddShorts>(alloc, short_pair(alloc, values, others), rounds)
}

struct SaturatingAddShorts;

impl Operation for SaturatingAddShorts {
    type Source = ShortPair;

    type Made = PrimitiveArray<i32>;

    #[inline(always)]
    fn make(alloc: Global, (lhs, rhs): &ShortPair) -> Option<PrimitiveArray<i32>> {
        if lhs.len() != rhs.len() {
            return None;
        }
        saturating_add(alloc, lhs, rhs).ok()
    }
}

// Adds two arrays; a sum that overflows is the nearest number.
#[unsafe(no_mangle)]
pub extern "C" fn rattle_flat_arith_saturating_add_i32(
    alloc: Global,
    values: &[i64],
    others: &[i64],
    rounds: usize,
) -> u64 {
    run::<SaturatingAddShorts>(alloc, short_pair(alloc, values, others), rounds)
}
