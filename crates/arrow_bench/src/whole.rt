//! Builders that grow by many values, and arrays that are cloned, cut and thawed.
use crate::bytes::marks;
use crate::operation::{Operation, run};
use crate::primitive::{array, probe, push_all};
use crate::rounds::{convert_rounds, extend_twice, filled_builder, make_rounds, place};
use arrow_primitive::{MutablePrimitiveArray, PrimitiveArray};
use arrow_types::data_type::DataType;
use either::{Left, Right};
use std::alloc::Global;

/// Creates a builder of values and marks, one byte each, from its parts; a null stores its value too.
pub(crate) fn of_parts(
    alloc: Global,
    values: &[i64],
    valid: &[u8],
) -> Option<MutablePrimitiveArray<i64>> {
    let all = values.to_vec(alloc).ok()?;
    let mask = marks(alloc, valid)?;
    MutablePrimitiveArray::try_new(DataType::Int64, all, mask).ok()
}

#[inline(always)]
fn push_reserved(alloc: Global, values: &[i64]) -> Option<MutablePrimitiveArray<i64>> {
    let mut out = MutablePrimitiveArray::with_capacity(alloc, values.len()).ok()?;
    let filled = push_all(&mut out, values);
    filled_builder(out, filled)
}

#[unsafe(no_mangle)]
pub extern "C" fn rattle_flat_prim_push_reserved(
    alloc: Global,
    values: &[i64],
    rounds: usize,
) -> u64 {
    make_rounds(rounds, || push_reserved(alloc, values), probe)
}

#[inline(always)]
fn extend_all(out: &mut MutablePrimitiveArray<i64>, values: &[i64], piece: usize) -> Option<()> {
    if piece == 0 {
        return None;
    }
    for part in values.chunks(piece) {
        out.extend_from_slice(part).ok()?;
    }
    Some(())
}

#[inline(always)]
fn extend_slices(
    alloc: Global,
    values: &[i64],
    piece: usize,
) -> Option<MutablePrimitiveArray<i64>> {
    let mut out = MutablePrimitiveArray::new(alloc);
    let filled = extend_all(&mut out, values, piece);
    filled_builder(out, filled)
}

#[unsafe(no_mangle)]
pub extern "C" fn rattle_flat_prim_extend_slice(
    alloc: Global,
    values: &[i64],
    piece: usize,
    rounds: usize,
) -> u64 {
    make_rounds(rounds, || extend_slices(alloc, values, piece), probe)
}

struct ExtendBySelf;

impl Operation for ExtendBySelf {
    type Source = MutablePrimitiveArray<i64>;

    type Made = MutablePrimitiveArray<i64>;

    #[inline(always)]
    fn make(alloc: Global, big: &MutablePrimitiveArray<i64>) -> Option<MutablePrimitiveArray<i64>> {
        extend_twice(MutablePrimitiveArray::new(alloc), |out| {
            out.try_extend_from_self(big).ok()
        })
    }
}

#[unsafe(no_mangle)]
pub extern "C" fn rattle_flat_prim_extend_self(
    alloc: Global,
    values: &[i64],
    valid: &[u8],
    rounds: usize,
) -> u64 {
    run::<ExtendBySelf>(alloc, of_parts(alloc, values, valid), rounds)
}

fn push_slots(slots: &mut Vec<Option<i64>>, values: &[i64], valid: &[u8]) -> Option<()> {
    for (value, mark) in values.iter().zip(valid) {
        slots
            .push(if *mark != 0 { Some(*value) } else { None })
            .ok()?;
    }
    Some(())
}

/// Returns the slots of values with their marks, one byte each.
fn slots(alloc: Global, values: &[i64], valid: &[u8]) -> Option<Vec<Option<i64>>> {
    let mut slots = Vec::new(alloc);
    let filled = push_slots(&mut slots, values, valid);
    filled_builder(slots, filled)
}

struct Extend;

impl Operation for Extend {
    type Source = Vec<Option<i64>>;

    type Made = MutablePrimitiveArray<i64>;

    #[inline(always)]
    fn make(alloc: Global, slots: &Vec<Option<i64>>) -> Option<MutablePrimitiveArray<i64>> {
        let mut out = MutablePrimitiveArray::new(alloc);
        let filled = out.extend(slots.iter().copied()).ok();
        filled_builder(out, filled)
    }
}

#[unsafe(no_mangle)]
pub extern "C" fn rattle_flat_prim_extend(
    alloc: Global,
    values: &[i64],
    valid: &[u8],
    rounds: usize,
) -> u64 {
    run::<Extend>(alloc, slots(alloc, values, valid), rounds)
}

#[inline(always)]
fn sum_of(array: &PrimitiveArray<i64>) -> u64 {
    let mut sum = 0u64;
    for slot in array.iter() {
        if let Some(value) = slot {
            sum = sum.wrapping_add(value.cast_unsigned());
        }
    }
    sum
}

#[inline(always)]
fn cut_sum_of(array: PrimitiveArray<i64>, at: usize, window: usize) -> u64 {
    if at > array.len() || window > array.len() - at {
        return 0;
    }
    sum_of(&array.sliced(at, window))
}

fn cut_sum(array: &PrimitiveArray<i64>, at: usize, window: usize) -> Option<u64> {
    Some(cut_sum_of(array.clone().ok()?, at, window))
}

fn slices_sum(array: &PrimitiveArray<i64>, window: usize) -> Option<u64> {
    let mut sum = 0u64;
    let mut at = 0usize;
    for _ in 0..array.len() {
        if at > array.len() || window > array.len() - at {
            break;
        }
        sum = sum.wrapping_add(cut_sum(array, at, window)?);
        at = at.saturating_add(window);
    }
    Some(sum)
}

/// Returns an array and how many slots its slices have.
fn with_window(
    array: Option<PrimitiveArray<i64>>,
    window: usize,
) -> Option<(PrimitiveArray<i64>, usize)> {
    let array = array?;
    Some((array, window))
}

struct SumSlices;

impl Operation for SumSlices {
    type Source = (PrimitiveArray<i64>, usize);

    type Made = u64;

    #[inline(always)]
    fn make(_alloc: Global, (array, window): &(PrimitiveArray<i64>, usize)) -> Option<u64> {
        slices_sum(array, *window)
    }
}

#[unsafe(no_mangle)]
pub extern "C" fn rattle_flat_prim_slice_sum(
    alloc: Global,
    values: &[i64],
    valid: &[u8],
    window: usize,
    rounds: usize,
) -> u64 {
    let source = with_window(array(alloc, values, valid), window);
    run::<SumSlices>(alloc, source, rounds)
}

/// Returns the number of rows and the value that is stored in one of them.
pub(crate) fn probe_array(array: &PrimitiveArray<i64>, round: usize) -> u64 {
    let rows = array.len() as u64;
    match array.values().as_slice().get(place(round, array.len())) {
        Some(value) => rows.wrapping_add(value.cast_unsigned()),
        None => rows,
    }
}

#[inline(always)]
fn freeze_thaw(
    builder: MutablePrimitiveArray<i64>,
    round: usize,
) -> Option<(u64, MutablePrimitiveArray<i64>)> {
    let array = builder.freeze().ok()?;
    let probed = probe_array(&array, round);
    match array.into_mut() {
        Right(thawed) => Some((probed, thawed)),
        Left(_) => None,
    }
}

#[unsafe(no_mangle)]
pub extern "C" fn rattle_flat_prim_freeze_thaw(
    alloc: Global,
    values: &[i64],
    valid: &[u8],
    rounds: usize,
) -> u64 {
    convert_rounds(of_parts(alloc, values, valid), rounds, freeze_thaw)
}

#[inline(always)]
fn push_pop(thawed: &mut MutablePrimitiveArray<i64>, round: usize) -> Option<u64> {
    thawed.push(Some((round as u64).cast_signed())).ok()?;
    let rows = thawed.len() as u64;
    Some(rows.wrapping_add(thawed.pop()?.cast_unsigned()))
}

#[inline(always)]
fn push_freeze(
    mut thawed: MutablePrimitiveArray<i64>,
    round: usize,
) -> Option<(u64, PrimitiveArray<i64>)> {
    let pushed = push_pop(&mut thawed, round)?;
    Some((pushed, thawed.freeze().ok()?))
}

#[inline(always)]
fn thaw_push(array: PrimitiveArray<i64>, round: usize) -> Option<(u64, PrimitiveArray<i64>)> {
    match array.into_mut() {
        Right(thawed) => push_freeze(thawed, round),
        Left(_) => None,
    }
}

/// Creates the frozen array of the same as `of_parts`.
pub(crate) fn array_of_parts(
    alloc: Global,
    values: &[i64],
    valid: &[u8],
) -> Option<PrimitiveArray<i64>> {
    of_parts(alloc, values, valid)?.freeze().ok()
}

#[unsafe(no_mangle)]
pub extern "C" fn rattle_flat_prim_thaw_push(
    alloc: Global,
    values: &[i64],
    valid: &[u8],
    rounds: usize,
) -> u64 {
    convert_rounds(array_of_parts(alloc, values, valid), rounds, thaw_push)
}
