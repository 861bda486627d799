//! Reads of a frozen array, which is made once. Each sum stands in a function of its own, and begins at the sum so far.
use crate::primitive::{array, builder};
use crate::rounds::read_rounds;
use arrow_primitive::{MutablePrimitiveArray, PrimitiveArray};
use std::alloc::Global;

#[inline(never)]
fn by_iter(array: &PrimitiveArray<i64>, start: u64) -> u64 {
    let mut sum = start;
    for slot in array.iter() {
        if let Some(value) = slot {
            sum = sum.wrapping_add(value.cast_unsigned());
        }
    }
    sum
}

#[unsafe(no_mangle)]
pub extern "C" fn rattle_flat_prim_iter_sum(
    alloc: Global,
    values: &[i64],
    valid: &[u8],
    rounds: usize,
) -> u64 {
    read_rounds(array(alloc, values, valid), rounds, by_iter)
}

#[inline(always)]
fn by_range(array: &PrimitiveArray<i64>, at: usize, window: usize, start: u64) -> u64 {
    if at > array.len() || window > array.len() - at {
        return start;
    }
    let mut sum = start;
    for slot in array.iter_range(at, window) {
        if let Some(value) = slot {
            sum = sum.wrapping_add(value.cast_unsigned());
        }
    }
    sum
}

#[inline(never)]
fn by_ranges(array: &PrimitiveArray<i64>, window: usize, start: u64) -> u64 {
    let mut sum = start;
    for i in 0..array.len().checked_div(window).unwrap_or(0) {
        sum = by_range(array, i.wrapping_mul(window), window, sum);
    }
    sum
}

// as prim_iter_sum, over windows of `window` slots
#[unsafe(no_mangle)]
pub extern "C" fn rattle_flat_prim_range_sum(
    alloc: Global,
    values: &[i64],
    valid: &[u8],
    window: usize,
    rounds: usize,
) -> u64 {
    read_rounds(array(alloc, values, valid), rounds, |array, sum| {
        by_ranges(array, window, sum)
    })
}

#[inline(never)]
fn by_builder_iter(array: &MutablePrimitiveArray<i64>, start: u64) -> u64 {
    let mut sum = start;
    for slot in array.iter() {
        if let Some(value) = slot {
            sum = sum.wrapping_add(value.cast_unsigned());
        }
    }
    sum
}

// as prim_iter_sum, of the builder
#[unsafe(no_mangle)]
pub extern "C" fn rattle_flat_prim_builder_iter_sum(
    alloc: Global,
    values: &[i64],
    valid: &[u8],
    rounds: usize,
) -> u64 {
    read_rounds(builder(alloc, values, valid), rounds, by_builder_iter)
}

#[inline(never)]
fn by_values(array: &PrimitiveArray<i64>, start: u64) -> u64 {
    let mut sum = start;
    for value in array.values().as_slice() {
        sum = sum.wrapping_add(value.cast_unsigned());
    }
    sum
}

#[unsafe(no_mangle)]
pub extern "C" fn rattle_flat_prim_values_sum(alloc: Global, values: &[i64], rounds: usize) -> u64 {
    read_rounds(array(alloc, values, &[]), rounds, by_values)
}

#[inline(never)]
fn by_value(array: &PrimitiveArray<i64>, start: u64) -> u64 {
    let mut sum = start;
    for i in 0..array.len() {
        sum = sum.wrapping_add(array.value(i).cast_unsigned());
    }
    sum
}

#[unsafe(no_mangle)]
pub extern "C" fn rattle_flat_prim_value_sum(alloc: Global, values: &[i64], rounds: usize) -> u64 {
    read_rounds(array(alloc, values, &[]), rounds, by_value)
}

#[inline(never)]
fn by_get(array: &PrimitiveArray<i64>, start: u64) -> u64 {
    let mut sum = start;
    for i in 0..array.len() {
        if let Some(value) = array.get(i) {
            sum = sum.wrapping_add(value.cast_unsigned());
        }
    }
    sum
}

#[unsafe(no_mangle)]
pub extern "C" fn rattle_flat_prim_get_sum(
    alloc: Global,
    values: &[i64],
    valid: &[u8],
    rounds: usize,
) -> u64 {
    read_rounds(array(alloc, values, valid), rounds, by_get)
}

#[inline(never)]
fn nulls(array: &PrimitiveArray<i64>, start: u64) -> u64 {
    start.wrapping_add(array.null_count() as u64)
}

// sum: null_count of a frozen array (made once)
#[unsafe(no_mangle)]
pub extern "C" fn rattle_flat_prim_null_count(
    alloc: Global,
    values: &[i64],
    valid: &[u8],
    rounds: usize,
) -> u64 {
    read_rounds(array(alloc, values, valid), rounds, nulls)
}
