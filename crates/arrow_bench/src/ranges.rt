//! Builders that take a range of an array: the slots from the fourth on, twice, so that marks move
//! within their bytes.
use crate::operation::{Operation, Probe, run};
use crate::rounds::{extend_twice, make_rounds_of};
use crate::{boolean, bytes, primitive};
use arrow_boolean::{BooleanArray, MutableBooleanArray};
use arrow_byte_array::{ByteArray, MutableByteArray};
use arrow_bytes::{Binary, ByteKind, Utf8};
use arrow_primitive::{MutablePrimitiveArray, PrimitiveArray};
use std::alloc::Global;

struct TakeNumbers;

impl Operation for TakeNumbers {
    type Source = PrimitiveArray<i64>;

    type Made = MutablePrimitiveArray<i64>;

    #[inline(always)]
    fn make(alloc: Global, array: &PrimitiveArray<i64>) -> Option<MutablePrimitiveArray<i64>> {
        let len = array.len().checked_sub(3)?;
        extend_twice(MutablePrimitiveArray::new(alloc), |out| {
            out.extend_from_array(array, 3, len).ok()
        })
    }
}

#[unsafe(no_mangle)]
pub extern "C" fn rattle_flat_prim_extend_array(
    alloc: Global,
    values: &[i64],
    valid: &[u8],
    rounds: usize,
) -> u64 {
    run::<TakeNumbers>(alloc, primitive::array(alloc, values, valid), rounds)
}

impl Probe for MutableBooleanArray {
    /// Returns the number of slots and the value that is stored in one of them.
    #[inline(always)]
    fn probe(&self, round: usize) -> u64 {
        boolean::probe(self, round)
    }
}

struct TakeBits;

impl Operation for TakeBits {
    type Source = BooleanArray;

    type Made = MutableBooleanArray;

    #[inline(always)]
    fn make(alloc: Global, array: &BooleanArray) -> Option<MutableBooleanArray> {
        let len = array.len().checked_sub(3)?;
        extend_twice(MutableBooleanArray::new(alloc), |out| {
            out.extend_from_array(array, 3, len).ok()
        })
    }
}

#[unsafe(no_mangle)]
pub extern "C" fn rattle_flat_bool_extend_array(
    alloc: Global,
    bits: &[u8],
    valid: &[u8],
    rounds: usize,
) -> u64 {
    run::<TakeBits>(alloc, boolean::array(alloc, bits, valid), rounds)
}

#[inline(always)]
fn take_items<K: ByteKind>(
    alloc: Global,
    array: &ByteArray<K, i32>,
) -> Option<MutableByteArray<K, i32>> {
    let len = array.len().checked_sub(3)?;
    extend_twice(MutableByteArray::new(alloc).ok()?, |out| {
        out.extend_from_array(array, 3, len).ok()
    })
}

/// Creates an array of items of `item` bytes each, with these marks.
fn array_of_items<K: ByteKind>(
    alloc: Global,
    data: &[u8],
    item: usize,
    valid: &[u8],
) -> Option<ByteArray<K, i32>> {
    bytes::of_parts(alloc, data, item, valid)?.freeze().ok()
}

fn extend_array<K: ByteKind>(
    alloc: Global,
    data: &[u8],
    item: usize,
    valid: &[u8],
    rounds: usize,
) -> u64 {
    make_rounds_of(
        array_of_items::<K>(alloc, data, item, valid),
        rounds,
        |array| take_items(alloc, array),
        bytes::probe_builder,
    )
}

#[unsafe(no_mangle)]
pub extern "C" fn rattle_flat_bin_extend_array(
    alloc: Global,
    data: &[u8],
    item: usize,
    valid: &[u8],
    rounds: usize,
) -> u64 {
    extend_array::<Binary>(alloc, data, item, valid, rounds)
}

#[unsafe(no_mangle)]
pub extern "C" fn rattle_flat_utf8_extend_array(
    alloc: Global,
    data: &[u8],
    item: usize,
    valid: &[u8],
    rounds: usize,
) -> u64 {
    extend_array::<Utf8>(alloc, data, item, valid, rounds)
}
