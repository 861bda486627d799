//! The builder and the array of booleans.
use crate::rounds::{filled_builder, make_rounds, place, read_rounds};
use arrow_boolean::{BooleanArray, MutableBooleanArray};
use std::alloc::Global;

#[inline(always)]
fn push_all(out: &mut MutableBooleanArray, bits: &[u8]) -> Option<()> {
    for bit in bits {
        out.push(Some(*bit != 0)).ok()?;
    }
    Some(())
}

/// As `push_all`, where the booleans with a clear mark are null.
#[inline(always)]
fn push_marked(out: &mut MutableBooleanArray, bits: &[u8], valid: &[u8]) -> Option<()> {
    for (bit, mark) in bits.iter().zip(valid) {
        out.push(if *mark != 0 { Some(*bit != 0) } else { None })
            .ok()?;
    }
    Some(())
}

/// Creates a builder of booleans with their marks, one byte each. Without marks every slot is valid.
fn builder(alloc: Global, bits: &[u8], valid: &[u8]) -> Option<MutableBooleanArray> {
    let mut out = MutableBooleanArray::new(alloc);
    let filled = if valid.is_empty() {
        push_all(&mut out, bits)
    } else {
        push_marked(&mut out, bits, valid)
    };
    filled_builder(out, filled)
}

/// Returns the number of rows, and the boolean that one of them stores.
pub(crate) fn probe(out: &MutableBooleanArray, round: usize) -> u64 {
    let rows = out.values().len();
    let at = place(round, rows);
    (rows as u64).wrapping_add(if at < rows {
        u64::from(out.values().get(at))
    } else {
        0
    })
}

#[unsafe(no_mangle)]
pub extern "C" fn rattle_flat_bool_push(
    alloc: Global,
    bits: &[u8],
    valid: &[u8],
    rounds: usize,
) -> u64 {
    make_rounds(rounds, || builder(alloc, bits, valid), probe)
}

#[inline(never)]
fn true_slots(array: &BooleanArray, start: u64) -> u64 {
    let mut sum = start;
    for slot in array.iter() {
        if let Some(true) = slot {
            sum = sum.wrapping_add(1);
        }
    }
    sum
}

/// Creates the frozen array of the same as `builder`.
pub(crate) fn array(alloc: Global, bits: &[u8], valid: &[u8]) -> Option<BooleanArray> {
    builder(alloc, bits, valid)?.freeze().ok()
}

#[unsafe(no_mangle)]
pub extern "C" fn rattle_flat_bool_iter(
    alloc: Global,
    bits: &[u8],
    valid: &[u8],
    rounds: usize,
) -> u64 {
    read_rounds(array(alloc, bits, valid), rounds, true_slots)
}
