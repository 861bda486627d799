//! Equality and text.
use crate::bits::frozen_marks;
use crate::operation::{Operation, Probe, run};
use crate::primitive::array;
use crate::rounds::read_rounds;
use arrow_memory::bitmap::Bitmap;
use arrow_primitive::PrimitiveArray;
use std::alloc::Global;
use std::fmt::Write;

#[inline(never)]
fn same_slots(pair: &(PrimitiveArray<i64>, PrimitiveArray<i64>), start: u64) -> u64 {
    start.wrapping_add(u64::from(pair.0 == pair.1))
}

fn two_arrays(
    alloc: Global,
    values: &[i64],
    valid: &[u8],
) -> Option<(PrimitiveArray<i64>, PrimitiveArray<i64>)> {
    let first = array(alloc, values, valid)?;
    let second = array(alloc, values, valid)?;
    Some((first, second))
}

#[unsafe(no_mangle)]
pub extern "C" fn rattle_flat_prim_equal(
    alloc: Global,
    values: &[i64],
    valid: &[u8],
    rounds: usize,
) -> u64 {
    read_rounds(two_arrays(alloc, values, valid), rounds, same_slots)
}

#[inline(never)]
fn same_marks(pair: &(Bitmap, Bitmap), start: u64) -> u64 {
    start.wrapping_add(u64::from(pair.0 == pair.1))
}

fn two_bitmaps(alloc: Global, pattern: &[u8], times: usize) -> Option<(Bitmap, Bitmap)> {
    let first = frozen_marks(alloc, pattern, times)?;
    let second = frozen_marks(alloc, pattern, times)?;
    Some((first, second))
}

#[unsafe(no_mangle)]
pub extern "C" fn rattle_flat_bits_equal(
    alloc: Global,
    pattern: &[u8],
    times: usize,
    rounds: usize,
) -> u64 {
    read_rounds(two_bitmaps(alloc, pattern, times), rounds, same_marks)
}

impl Probe for String {
    /// Returns the number of bytes.
    #[inline(always)]
    fn probe(&self, _round: usize) -> u64 {
        self.len() as u64
    }
}

struct PrintArray;

impl Operation for PrintArray {
    type Source = PrimitiveArray<i64>;

    type Made = String;

    #[inline(always)]
    fn make(alloc: Global, array: &PrimitiveArray<i64>) -> Option<String> {
        let mut text = String::new(alloc);
        match write!(text, "{array}") {
            Ok(()) => Some(text),
            Err(_) => None,
        }
    }
}

#[unsafe(no_mangle)]
pub extern "C" fn rattle_flat_prim_print(
    alloc: Global,
    values: &[i64],
    valid: &[u8],
    rounds: usize,
) -> u64 {
    run::<PrintArray>(alloc, array(alloc, values, valid), rounds)
}

struct PrintSlice;

impl Operation for PrintSlice {
    type Source = Vec<i64>;

    type Made = String;

    #[inline(always)]
    fn make(alloc: Global, values: &Vec<i64>) -> Option<String> {
        let values = values.as_slice();
        let mut text = String::new(alloc);
        match write!(text, "{values:?}") {
            Ok(()) => Some(text),
            Err(_) => None,
        }
    }
}

// as prim_print, of a slice of std
#[unsafe(no_mangle)]
pub extern "C" fn rattle_flat_slice_print(alloc: Global, values: &[i64], rounds: usize) -> u64 {
    run::<PrintSlice>(alloc, values.to_vec(alloc).ok(), rounds)
}
