//! The builder of primitive values.
use crate::rounds::{filled_builder, make_rounds, place};
use arrow_primitive::{MutablePrimitiveArray, PrimitiveArray};
use std::alloc::Global;

// The loops stand in functions of their own, which own nothing, since that is cheaper to prove, and are inlined, so that the
// compiler sees each with the builder that it fills.
#[inline(always)]
pub(crate) fn push_all(out: &mut MutablePrimitiveArray<i64>, values: &[i64]) -> Option<()> {
    for value in values {
        out.push(Some(*value)).ok()?;
    }
    Some(())
}

/// As `push_all`, where the values with a clear mark are null.
#[inline(always)]
fn push_marked(out: &mut MutablePrimitiveArray<i64>, values: &[i64], valid: &[u8]) -> Option<()> {
    for (value, mark) in values.iter().zip(valid) {
        out.push(if *mark != 0 { Some(*value) } else { None }).ok()?;
    }
    Some(())
}

/// Creates a builder of values with their marks, one byte each. Without marks every slot is valid.
pub(crate) fn builder(
    alloc: Global,
    values: &[i64],
    valid: &[u8],
) -> Option<MutablePrimitiveArray<i64>> {
    let mut out = MutablePrimitiveArray::new(alloc);
    let filled = if valid.is_empty() {
        push_all(&mut out, values)
    } else {
        push_marked(&mut out, values, valid)
    };
    filled_builder(out, filled)
}

/// Creates the frozen array of the same.
pub(crate) fn array(alloc: Global, values: &[i64], valid: &[u8]) -> Option<PrimitiveArray<i64>> {
    builder(alloc, values, valid)?.freeze().ok()
}

/// Returns the number of rows and the value that is stored in one of them.
#[inline(always)]
pub(crate) fn probe(out: &MutablePrimitiveArray<i64>, round: usize) -> u64 {
    let rows = out.len() as u64;
    match out.values().get(place(round, out.len())) {
        Some(value) => rows.wrapping_add(value.cast_unsigned()),
        None => rows,
    }
}

#[unsafe(no_mangle)]
pub extern "C" fn rattle_flat_prim_push(
    alloc: Global,
    values: &[i64],
    valid: &[u8],
    rounds: usize,
) -> u64 {
    make_rounds(rounds, || builder(alloc, values, valid), probe)
}

#[inline(always)]
fn push_all_null(out: &mut MutablePrimitiveArray<i64>, count: usize) -> Option<()> {
    for _ in 0..count {
        out.push_null().ok()?;
    }
    Some(())
}

#[inline(always)]
fn push_nulls(alloc: Global, count: usize) -> Option<MutablePrimitiveArray<i64>> {
    let mut out = MutablePrimitiveArray::new(alloc);
    let filled = push_all_null(&mut out, count);
    filled_builder(out, filled)
}

// new, then `count` times push_null
#[unsafe(no_mangle)]
pub extern "C" fn rattle_flat_prim_push_null(alloc: Global, count: usize, rounds: usize) -> u64 {
    make_rounds(rounds, || push_nulls(alloc, count), probe)
}

#[inline(always)]
fn extend_nulls(alloc: Global, count: usize) -> Option<MutablePrimitiveArray<i64>> {
    let mut out = MutablePrimitiveArray::new(alloc);
    let filled = out.extend_constant(count, None).ok();
    filled_builder(out, filled)
}

// new, then one extend_constant of `count` nulls
#[unsafe(no_mangle)]
pub extern "C" fn rattle_flat_prim_extend_null(alloc: Global, count: usize, rounds: usize) -> u64 {
    make_rounds(rounds, || extend_nulls(alloc, count), probe)
}

#[inline(always)]
fn pop_all(out: &mut MutablePrimitiveArray<i64>, count: usize, start: u64) -> u64 {
    let mut sum = start;
    for _ in 0..count {
        if let Some(value) = out.pop() {
            sum = sum.wrapping_add(value.cast_unsigned());
        }
    }
    sum
}

#[inline(always)]
fn push_pop_all(
    out: &mut MutablePrimitiveArray<i64>,
    values: &[i64],
    valid: &[u8],
    rounds: usize,
) -> u64 {
    let mut sum = 0u64;
    for round in 0..rounds {
        if push_marked(out, values, valid).is_none() {
            return u64::MAX;
        }
        sum = pop_all(out, values.len(), sum);
        sum = sum.wrapping_add((out.len() as u64).wrapping_add(round as u64));
    }
    sum
}

// one builder: a push of each and then a pop of each. sum: what the pops gave and the round
#[unsafe(no_mangle)]
pub extern "C" fn rattle_flat_prim_push_pop(
    alloc: Global,
    values: &[i64],
    valid: &[u8],
    rounds: usize,
) -> u64 {
    let mut out = MutablePrimitiveArray::new(alloc);
    push_pop_all(&mut out, values, valid, rounds)
}

fn count_nulls(array: &PrimitiveArray<i64>, _round: usize) -> u64 {
    array.null_count() as u64
}

// as prim_push, then freeze. sum: null_count
#[unsafe(no_mangle)]
pub extern "C" fn rattle_flat_prim_push_freeze(
    alloc: Global,
    values: &[i64],
    valid: &[u8],
    rounds: usize,
) -> u64 {
    make_rounds(rounds, || array(alloc, values, valid), count_nulls)
}
