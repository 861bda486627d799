//! Builders and arrays of bytes, and what those of text have in common with them.
use crate::rounds::{
    convert_rounds, extend_twice, filled_builder, make_rounds, make_rounds_of, place,
};
use arrow_binary::{MutableBinaryArray, MutableBinaryValuesArray};
use arrow_byte_array::{ByteArray, MutableByteArray};
use arrow_bytes::{Binary, ByteKind};
use arrow_memory::bitmap::MutableBitmap;
use arrow_memory::offset::Offsets;
use either::{Left, Right};
use std::alloc::Global;

/// Returns the number of rows and the first byte of the item between the offsets at one of them.
pub(crate) fn probe(offsets: &[i32], bytes: &[u8], round: usize) -> u64 {
    let rows = offsets.len().saturating_sub(1);
    let at = place(round, rows);
    let (Some(start), Some(end)) = (offsets.get(at), offsets.get(at.saturating_add(1))) else {
        return rows as u64;
    };
    if start == end {
        return rows as u64;
    }
    match bytes.get(start.cast_unsigned() as usize) {
        Some(first) => (rows as u64).wrapping_add(u64::from(*first)),
        None => rows as u64,
    }
}

pub(crate) fn probe_builder<K: ByteKind>(out: &MutableByteArray<K, i32>, round: usize) -> u64 {
    probe(out.offsets().as_slice(), out.values(), round)
}

pub(crate) fn probe_array<K: ByteKind>(array: &ByteArray<K, i32>, round: usize) -> u64 {
    let offsets = array.offsets().buffer().as_slice();
    probe(offsets, array.values().as_slice(), round)
}

fn push_marks(marks: &mut MutableBitmap, valid: &[u8]) -> Option<()> {
    for mark in valid {
        marks.push(*mark != 0).ok()?;
    }
    Some(())
}

/// Returns the marks of bytes that are 0 or 1; none where there are none.
pub(crate) fn marks(alloc: Global, valid: &[u8]) -> Option<Option<MutableBitmap>> {
    if valid.is_empty() {
        return Some(None);
    }
    let mut marks = MutableBitmap::new(alloc);
    let filled = push_marks(&mut marks, valid);
    Some(Some(filled_builder(marks, filled)?))
}

fn push_lengths(offsets: &mut Offsets<i32>, bytes: usize, item: usize) -> Option<()> {
    for _ in 0..bytes.checked_div(item)? {
        offsets.try_push_usize(item).ok()?;
    }
    Some(())
}

/// Returns the offsets that cut `bytes` bytes into items of `item` bytes.
fn even_offsets(alloc: Global, bytes: usize, item: usize) -> Option<Offsets<i32>> {
    let mut offsets = Offsets::new(alloc).ok()?;
    let filled = push_lengths(&mut offsets, bytes, item);
    filled_builder(offsets, filled)
}

/// Creates a builder of items of `item` bytes, with marks, from its parts. A null stores its item, too.
pub(crate) fn of_parts<K: ByteKind>(
    alloc: Global,
    data: &[u8],
    item: usize,
    valid: &[u8],
) -> Option<MutableByteArray<K, i32>> {
    let offsets = even_offsets(alloc, data.len(), item)?;
    let all = data.to_vec(alloc).ok()?;
    let mask = marks(alloc, valid)?;
    MutableByteArray::try_new(K::default_type(false), offsets, all, mask).ok()
}

/// Returns the marks of one time over the data.
pub(crate) fn marks_of(valid: &[u8], time: usize, rows: usize) -> &[u8] {
    if valid.is_empty() {
        return valid;
    }
    let start = time.wrapping_mul(rows);
    valid.get(start..start.wrapping_add(rows)).unwrap_or(&[])
}

fn push_all(
    out: &mut MutableBinaryArray<i32>,
    data: &[u8],
    item: usize,
    times: usize,
) -> Option<()> {
    if item == 0 {
        return None;
    }
    for _ in 0..times {
        for part in data.chunks_exact(item) {
            out.push(Some(part)).ok()?;
        }
    }
    Some(())
}

/// As `push_all`, where the items with a clear mark are null.
fn push_marked(
    out: &mut MutableBinaryArray<i32>,
    data: &[u8],
    item: usize,
    times: usize,
    valid: &[u8],
) -> Option<()> {
    if item == 0 {
        return None;
    }
    let rows = data.len() / item;
    for time in 0..times {
        for (part, mark) in data.chunks_exact(item).zip(marks_of(valid, time, rows)) {
            out.push(if *mark != 0 { Some(part) } else { None }).ok()?;
        }
    }
    Some(())
}

// Of the two each has a builder of its own, so that its loop is small enough for the compiler to follow.
#[inline(always)]
fn builder(
    alloc: Global,
    data: &[u8],
    item: usize,
    times: usize,
) -> Option<MutableBinaryArray<i32>> {
    let mut out = MutableBinaryArray::new(alloc).ok()?;
    let filled = push_all(&mut out, data, item, times);
    filled_builder(out, filled)
}

#[inline(always)]
fn builder_with_nulls(
    alloc: Global,
    data: &[u8],
    item: usize,
    times: usize,
    valid: &[u8],
) -> Option<MutableBinaryArray<i32>> {
    let mut out = MutableBinaryArray::new(alloc).ok()?;
    let filled = push_marked(&mut out, data, item, times, valid);
    filled_builder(out, filled)
}

#[unsafe(no_mangle)]
pub extern "C" fn rattle_flat_bin_push(
    alloc: Global,
    data: &[u8],
    item: usize,
    times: usize,
    valid: &[u8],
    rounds: usize,
) -> u64 {
    if valid.is_empty() {
        make_rounds(rounds, || builder(alloc, data, item, times), probe_builder)
    } else {
        make_rounds(
            rounds,
            || builder_with_nulls(alloc, data, item, times, valid),
            probe_builder,
        )
    }
}

#[inline(always)]
fn push_values_all(
    out: &mut MutableBinaryValuesArray<i32>,
    data: &[u8],
    item: usize,
    times: usize,
) -> Option<()> {
    if item == 0 {
        return None;
    }
    for _ in 0..times {
        for part in data.chunks_exact(item) {
            out.push(part).ok()?;
        }
    }
    Some(())
}

#[inline(always)]
fn push_values(
    alloc: Global,
    data: &[u8],
    item: usize,
    times: usize,
) -> Option<MutableBinaryValuesArray<i32>> {
    let mut out = MutableBinaryValuesArray::new(alloc).ok()?;
    let filled = push_values_all(&mut out, data, item, times);
    filled_builder(out, filled)
}

fn probe_values(out: &MutableBinaryValuesArray<i32>, round: usize) -> u64 {
    probe(out.offsets().as_slice(), out.values(), round)
}

#[unsafe(no_mangle)]
pub extern "C" fn rattle_flat_vbin_push(
    alloc: Global,
    data: &[u8],
    item: usize,
    times: usize,
    rounds: usize,
) -> u64 {
    make_rounds(
        rounds,
        || push_values(alloc, data, item, times),
        probe_values,
    )
}

#[inline(always)]
fn extend_all(
    out: &mut MutableBinaryArray<i32>,
    data: &[u8],
    item: usize,
    times: usize,
) -> Option<()> {
    if item == 0 {
        return None;
    }
    for _ in 0..times {
        out.extend(data.chunks_exact(item).map(|part| Some(part)))
            .ok()?;
    }
    Some(())
}

#[inline(always)]
fn extend(
    alloc: Global,
    data: &[u8],
    item: usize,
    times: usize,
) -> Option<MutableBinaryArray<i32>> {
    let mut out = MutableBinaryArray::new(alloc).ok()?;
    let filled = extend_all(&mut out, data, item, times);
    filled_builder(out, filled)
}

#[unsafe(no_mangle)]
pub extern "C" fn rattle_flat_bin_extend(
    alloc: Global,
    data: &[u8],
    item: usize,
    times: usize,
    rounds: usize,
) -> u64 {
    make_rounds(rounds, || extend(alloc, data, item, times), probe_builder)
}

#[inline(always)]
fn extend_values_all(
    out: &mut MutableBinaryArray<i32>,
    data: &[u8],
    item: usize,
    times: usize,
) -> Option<()> {
    if item == 0 {
        return None;
    }
    for _ in 0..times {
        out.extend_values(data.chunks_exact(item)).ok()?;
    }
    Some(())
}

#[inline(always)]
fn extend_values(
    alloc: Global,
    data: &[u8],
    item: usize,
    times: usize,
) -> Option<MutableBinaryArray<i32>> {
    let mut out = MutableBinaryArray::new(alloc).ok()?;
    let filled = extend_values_all(&mut out, data, item, times);
    filled_builder(out, filled)
}

#[unsafe(no_mangle)]
pub extern "C" fn rattle_flat_bin_extend_values(
    alloc: Global,
    data: &[u8],
    item: usize,
    times: usize,
    rounds: usize,
) -> u64 {
    make_rounds(
        rounds,
        || extend_values(alloc, data, item, times),
        probe_builder,
    )
}

fn extend_by<K: ByteKind>(
    alloc: Global,
    big: &MutableByteArray<K, i32>,
) -> Option<MutableByteArray<K, i32>> {
    extend_twice(MutableByteArray::new(alloc).ok()?, |out| {
        out.try_extend_from_self(big).ok()
    })
}

pub(crate) fn extend_self<K: ByteKind>(
    alloc: Global,
    data: &[u8],
    item: usize,
    valid: &[u8],
    rounds: usize,
) -> u64 {
    make_rounds_of(
        of_parts::<K>(alloc, data, item, valid),
        rounds,
        |big| extend_by(alloc, big),
        probe_builder,
    )
}

#[unsafe(no_mangle)]
pub extern "C" fn rattle_flat_bin_extend_self(
    alloc: Global,
    data: &[u8],
    item: usize,
    valid: &[u8],
    rounds: usize,
) -> u64 {
    extend_self::<Binary>(alloc, data, item, valid, rounds)
}

#[inline(always)]
fn freeze_thaw(
    builder: MutableBinaryArray<i32>,
    round: usize,
) -> Option<(u64, MutableBinaryArray<i32>)> {
    let array = builder.freeze().ok()?;
    let probed = probe_array(&array, round);
    match array.into_mut() {
        Right(thawed) => Some((probed, thawed)),
        Left(_) => None,
    }
}

#[unsafe(no_mangle)]
pub extern "C" fn rattle_flat_bin_freeze_thaw(
    alloc: Global,
    data: &[u8],
    item: usize,
    valid: &[u8],
    rounds: usize,
) -> u64 {
    convert_rounds(of_parts(alloc, data, item, valid), rounds, freeze_thaw)
}
