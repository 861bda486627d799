//! Builders and arrays of text.
use crate::bytes::{extend_self, marks_of, probe_builder};
use crate::operation::{Operation, run};
use crate::rounds::{filled_builder, make_rounds, read_rounds};
use arrow_bytes::Utf8;
use arrow_memory::bitmap::Bitmap;
use arrow_memory::buffer::Buffer;
use arrow_memory::offset::{Offsets, OffsetsBuffer};
use arrow_types::data_type::DataType;
use arrow_utf8::{MutableUtf8Array, Utf8Array};
use std::alloc::Global;

/// Returns offsets and bytes that can be shared.
fn shared_parts(
    alloc: Global,
    data: &[u8],
    offsets: &[i32],
) -> Option<(OffsetsBuffer<i32>, Buffer<u8>)> {
    let offsets = Offsets::try_from_vec(offsets.to_vec(alloc).ok()?).ok()?;
    let shared = offsets.freeze().ok()?;
    let bytes = Buffer::from_vec(data.to_vec(alloc).ok()?).ok()?;
    Some((shared, bytes))
}

/// Creates the array of such offsets and bytes under a mask.
pub(crate) fn array(
    alloc: Global,
    data: &[u8],
    offsets: &[i32],
    mask: Option<Bitmap>,
) -> Option<Utf8Array<i32>> {
    let (offsets, bytes) = shared_parts(alloc, data, offsets)?;
    Utf8Array::try_new(DataType::Utf8, offsets, bytes, mask).ok()
}

struct TryNew;

impl Operation for TryNew {
    type Source = (OffsetsBuffer<i32>, Buffer<u8>);

    type Made = Utf8Array<i32>;

    #[inline(always)]
    fn make(
        _alloc: Global,
        (offsets, bytes): &(OffsetsBuffer<i32>, Buffer<u8>),
    ) -> Option<Utf8Array<i32>> {
        let offsets = offsets.clone().ok()?;
        let bytes = bytes.clone().ok()?;
        Utf8Array::try_new(DataType::Utf8, offsets, bytes, None).ok()
    }
}

#[unsafe(no_mangle)]
pub extern "C" fn rattle_flat_utf8_try_new(
    alloc: Global,
    data: &[u8],
    offsets: &[i32],
    rounds: usize,
) -> u64 {
    run::<TryNew>(alloc, shared_parts(alloc, data, offsets), rounds)
}

#[inline(never)]
fn lengths(array: &Utf8Array<i32>, start: u64) -> u64 {
    let mut sum = start;
    for text in array.values_iter() {
        sum = sum.wrapping_add(text.len() as u64);
    }
    sum
}

#[unsafe(no_mangle)]
pub extern "C" fn rattle_flat_utf8_iter(
    alloc: Global,
    data: &[u8],
    offsets: &[i32],
    rounds: usize,
) -> u64 {
    read_rounds(array(alloc, data, offsets, None), rounds, lengths)
}

fn push_all(out: &mut MutableUtf8Array<i32>, text: &str, item: usize, times: usize) -> Option<()> {
    let rows = text.len().checked_div(item)?;
    for _ in 0..times {
        for i in 0..rows {
            let start = i.wrapping_mul(item);
            out.push(Some(text.get(start..start.wrapping_add(item))?))
                .ok()?;
        }
    }
    Some(())
}

/// As `push_all`, where the items with a clear mark are null.
fn push_marked(
    out: &mut MutableUtf8Array<i32>,
    text: &str,
    item: usize,
    times: usize,
    valid: &[u8],
) -> Option<()> {
    let rows = text.len().checked_div(item)?;
    for time in 0..times {
        for (i, mark) in (0..rows).zip(marks_of(valid, time, rows)) {
            let start = i.wrapping_mul(item);
            let part = text.get(start..start.wrapping_add(item))?;
            out.push(if *mark != 0 { Some(part) } else { None }).ok()?;
        }
    }
    Some(())
}

// Of the two each has a builder of its own, so that its loop is small enough for the compiler to follow.
#[inline(always)]
fn builder(alloc: Global, text: &str, item: usize, times: usize) -> Option<MutableUtf8Array<i32>> {
    let mut out = MutableUtf8Array::new(alloc).ok()?;
    let filled = push_all(&mut out, text, item, times);
    filled_builder(out, filled)
}

#[inline(always)]
fn builder_with_nulls(
    alloc: Global,
    text: &str,
    item: usize,
    times: usize,
    valid: &[u8],
) -> Option<MutableUtf8Array<i32>> {
    let mut out = MutableUtf8Array::new(alloc).ok()?;
    let filled = push_marked(&mut out, text, item, times, valid);
    filled_builder(out, filled)
}

#[unsafe(no_mangle)]
pub extern "C" fn rattle_flat_utf8_push(
    alloc: Global,
    data: &[u8],
    item: usize,
    times: usize,
    valid: &[u8],
    rounds: usize,
) -> u64 {
    let Ok(text) = std::str::from_utf8(data) else {
        return u64::MAX;
    };
    if valid.is_empty() {
        make_rounds(rounds, || builder(alloc, text, item, times), probe_builder)
    } else {
        make_rounds(
            rounds,
            || builder_with_nulls(alloc, text, item, times, valid),
            probe_builder,
        )
    }
}

#[unsafe(no_mangle)]
pub extern "C" fn rattle_flat_utf8_extend_self(
    alloc: Global,
    data: &[u8],
    item: usize,
    valid: &[u8],
    rounds: usize,
) -> u64 {
    extend_self::<Utf8>(alloc, data, item, valid, rounds)
}
