//! Selections, over arrays that are made once.
use crate::compute::{Pair, pair};
use crate::kernels::{texts_array, truths_array};
use crate::operation::{Operation, run};
use crate::whole::array_of_parts;
use arrow_boolean::BooleanArray;
use arrow_primitive::PrimitiveArray;
use arrow_utf8::Utf8Array;
use compute_select::if_then_else::if_then_else_primitive;
use compute_select::length::length;
use compute_select::nullif::nullif_primitive;
use compute_select::take::take_primitive;
use std::alloc::Global;

struct Take;

impl Operation for Take {
    type Source = Pair;

    type Made = PrimitiveArray<i64>;

    #[inline(always)]
    fn make(alloc: Global, (keys, values): &Pair) -> Option<PrimitiveArray<i64>> {
        take_primitive(alloc, values, keys).ok()
    }
}

// the values at keys, and a null where a key is null; every key is below the number of values, which have no null
#[unsafe(no_mangle)]
pub extern "C" fn rattle_flat_select_take(
    alloc: Global,
    keys: &[i64],
    values: &[i64],
    valid: &[u8],
    rounds: usize,
) -> u64 {
    run::<Take>(alloc, pair(alloc, keys, values, valid), rounds)
}

struct NullIf;

impl Operation for NullIf {
    type Source = Pair;

    type Made = PrimitiveArray<i64>;

    #[inline(always)]
    fn make(alloc: Global, (lhs, rhs): &Pair) -> Option<PrimitiveArray<i64>> {
        if lhs.len() != rhs.len() {
            return None;
        }
        nullif_primitive(alloc, lhs, rhs).ok()
    }
}

// the values, and a null where the others are equal
#[unsafe(no_mangle)]
pub extern "C" fn rattle_flat_select_nullif(
    alloc: Global,
    values: &[i64],
    others: &[i64],
    valid: &[u8],
    rounds: usize,
) -> u64 {
    run::<NullIf>(alloc, pair(alloc, values, others, valid), rounds)
}

/// A predicate and two arrays of values.
type Choice = (BooleanArray, Pair);

fn choice(
    alloc: Global,
    bits: &[u8],
    values: &[i64],
    others: &[i64],
    valid: &[u8],
) -> Option<Choice> {
    let predicate = truths_array(alloc, bits, &[])?;
    let both = pair(alloc, values, others, valid)?;
    Some((predicate, both))
}

struct Choose;

impl Operation for Choose {
    type Source = Choice;

    type Made = PrimitiveArray<i64>;

    #[inline(always)]
    fn make(alloc: Global, (predicate, (lhs, rhs)): &Choice) -> Option<PrimitiveArray<i64>> {
        if lhs.len() != predicate.len() {
            return None;
        }
        if rhs.len() != predicate.len() {
            return None;
        }
        if_then_else_primitive(alloc, predicate, lhs, rhs).ok()
    }
}

// the values where the bits are set, else the others
#[unsafe(no_mangle)]
pub extern "C" fn rattle_flat_select_if_then_else(
    alloc: Global,
    bits: &[u8],
    values: &[i64],
    others: &[i64],
    valid: &[u8],
    rounds: usize,
) -> u64 {
    run::<Choose>(alloc, choice(alloc, bits, values, others, valid), rounds)
}

struct Lengths;

impl Operation for Lengths {
    type Source = Utf8Array<i32>;

    type Made = PrimitiveArray<i32>;

    #[inline(always)]
    fn make(alloc: Global, array: &Utf8Array<i32>) -> Option<PrimitiveArray<i32>> {
        length(alloc, array).ok()
    }
}

// the number of bytes of each text
#[unsafe(no_mangle)]
pub extern "C" fn rattle_flat_select_length(
    alloc: Global,
    data: &[u8],
    offsets: &[i32],
    valid: &[u8],
    rounds: usize,
) -> u64 {
    run::<Lengths>(alloc, texts_array(alloc, data, offsets, valid), rounds)
}
