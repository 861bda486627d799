//! Sums, least and greatest values of arrays that are made once. Each stands in a function of its own, and begins at the
//! sum so far.
use crate::kernels::texts_array;
use crate::rounds::read_rounds;
use crate::whole::array_of_parts;
use arrow_primitive::PrimitiveArray;
use arrow_utf8::Utf8Array;
use compute_aggregate::aggregate::{
    max_primitive, min_primitive, min_string, sum_primitive, sum_wide,
};
use compute_cast::WrapNumber;
use std::alloc::Global;

#[inline(never)]
fn add_sum(array: &PrimitiveArray<i64>, start: u64) -> u64 {
    match sum_primitive(array) {
        Ok(Some(sum)) => start.wrapping_add(sum.cast_unsigned()),
        Ok(None) => start,
        Err(_) => start.wrapping_add(1),
    }
}

// sum: the sum of the valid values, 1 where it does not fit
#[unsafe(no_mangle)]
pub extern "C" fn rattle_flat_agg_sum(
    alloc: Global,
    values: &[i64],
    valid: &[u8],
    rounds: usize,
) -> u64 {
    read_rounds(array_of_parts(alloc, values, valid), rounds, add_sum)
}

#[inline(never)]
fn add_wide_sum(array: &PrimitiveArray<i64>, start: u64) -> u64 {
    match sum_wide(array) {
        Ok(Some(sum)) => start.wrapping_add(u64::wrap_number(sum)),
        Ok(None) => start,
        Err(_) => start.wrapping_add(1),
    }
}

// sum: the low 64 bits of the sum of the valid values in 128 bits
#[unsafe(no_mangle)]
pub extern "C" fn rattle_flat_agg_sum_wide(
    alloc: Global,
    values: &[i64],
    valid: &[u8],
    rounds: usize,
) -> u64 {
    read_rounds(array_of_parts(alloc, values, valid), rounds, add_wide_sum)
}

#[inline(never)]
fn add_least(array: &PrimitiveArray<i64>, start: u64) -> u64 {
    match min_primitive(array) {
        Some(least) => start.wrapping_add(least.cast_unsigned()),
        None => start,
    }
}

// sum: the least of the valid values
#[unsafe(no_mangle)]
pub extern "C" fn rattle_flat_agg_min(
    alloc: Global,
    values: &[i64],
    valid: &[u8],
    rounds: usize,
) -> u64 {
    read_rounds(array_of_parts(alloc, values, valid), rounds, add_least)
}

#[inline(never)]
fn add_greatest(array: &PrimitiveArray<i64>, start: u64) -> u64 {
    match max_primitive(array) {
        Some(greatest) => start.wrapping_add(greatest.cast_unsigned()),
        None => start,
    }
}

// sum: the greatest of the valid values
#[unsafe(no_mangle)]
pub extern "C" fn rattle_flat_agg_max(
    alloc: Global,
    values: &[i64],
    valid: &[u8],
    rounds: usize,
) -> u64 {
    read_rounds(array_of_parts(alloc, values, valid), rounds, add_greatest)
}

#[inline(never)]
fn add_least_text(array: &Utf8Array<i32>, start: u64) -> u64 {
    match min_string(array) {
        Some(least) => start.wrapping_add(least.len() as u64),
        None => start,
    }
}

// sum: the length of the least of the valid texts
#[unsafe(no_mangle)]
pub extern "C" fn rattle_flat_agg_min_utf8(
    alloc: Global,
    data: &[u8],
    offsets: &[i32],
    valid: &[u8],
    rounds: usize,
) -> u64 {
    read_rounds(
        texts_array(alloc, data, offsets, valid),
        rounds,
        add_least_text,
    )
}
