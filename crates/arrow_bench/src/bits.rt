//! Bitmaps.
ghost use Rattle.std.specs.Prelude.{◌≡◌, length};

use crate::operation::{Operation, Probe, run};
use crate::rounds::{convert_rounds, filled_builder, make_rounds, place, read_rounds};
use arrow_memory::bitmap::{Bitmap, MutableBitmap, and, not, or};
use std::alloc::Global;

#[inline(always)]
fn push_all(out: &mut MutableBitmap, pattern: &[u8], times: usize) -> Option<()> {
    for _ in 0..times {
        for mark in pattern {
            out.push(*mark != 0).ok()?;
        }
    }
    Some(())
}

/// Creates a bitmap that repeats the marks of a pattern, one byte each.
fn marks(alloc: Global, pattern: &[u8], times: usize) -> Option<MutableBitmap> {
    let mut out = MutableBitmap::new(alloc);
    let filled = push_all(&mut out, pattern, times);
    filled_builder(out, filled)
}

/// Creates the frozen bitmap of the same.
pub(crate) fn frozen_marks(alloc: Global, pattern: &[u8], times: usize) -> Option<Bitmap> {
    marks(alloc, pattern, times)?.freeze().ok()
}

/// Returns the number of marks, and one of them.
fn probe(out: &MutableBitmap, round: usize) -> u64 {
    let rows = out.len();
    let at = place(round, rows);
    (rows as u64).wrapping_add(if at < rows { u64::from(out.get(at)) } else { 0 })
}

#[unsafe(no_mangle)]
pub extern "C" fn rattle_flat_bits_push(
    alloc: Global,
    pattern: &[u8],
    times: usize,
    rounds: usize,
) -> u64 {
    make_rounds(rounds, || marks(alloc, pattern, times), probe)
}

#[inline(always)]
fn extend_all(out: &mut MutableBitmap, piece: usize, times: usize) -> Option<()> {
    for time in 0..times {
        out.extend_constant(piece, time % 2 == 0).ok()?;
    }
    Some(())
}

#[inline(always)]
fn extend(alloc: Global, piece: usize, times: usize) -> Option<MutableBitmap> {
    let mut out = MutableBitmap::new(alloc);
    let filled = extend_all(&mut out, piece, times);
    filled_builder(out, filled)
}

// new, then `times` times extend_constant of `piece` marks, set and clear in turn
#[unsafe(no_mangle)]
pub extern "C" fn rattle_flat_bits_extend_constant(
    alloc: Global,
    piece: usize,
    times: usize,
    rounds: usize,
) -> u64 {
    make_rounds(rounds, || extend(alloc, piece, times), probe)
}

#[inline(never)]
fn unset_of(bitmap: &MutableBitmap, start: u64) -> u64 {
    start.wrapping_add(bitmap.unset_bits() as u64)
}

#[unsafe(no_mangle)]
pub extern "C" fn rattle_flat_bits_unset(
    alloc: Global,
    pattern: &[u8],
    times: usize,
    rounds: usize,
) -> u64 {
    read_rounds(marks(alloc, pattern, times), rounds, unset_of)
}

#[inline(always)]
fn freeze_thaw(bitmap: MutableBitmap, _round: usize) -> Option<(u64, MutableBitmap)> {
    let frozen = bitmap.freeze().ok()?;
    let unset = frozen.unset_bits() as u64;
    Some((unset, frozen.into_mut().right()?))
}

// sum: unset_bits after freeze; then into_mut, which gives the bits of the next round
#[unsafe(no_mangle)]
pub extern "C" fn rattle_flat_bits_freeze_unset(
    alloc: Global,
    pattern: &[u8],
    times: usize,
    rounds: usize,
) -> u64 {
    convert_rounds(marks(alloc, pattern, times), rounds, freeze_thaw)
}

#[inline(never)]
fn set_by_iter(bitmap: &Bitmap, start: u64) -> u64 {
    let mut sum = start;
    for mark in bitmap.iter() {
        sum = sum.wrapping_add(u64::from(mark));
    }
    sum
}

#[unsafe(no_mangle)]
pub extern "C" fn rattle_flat_bits_iter(
    alloc: Global,
    pattern: &[u8],
    times: usize,
    rounds: usize,
) -> u64 {
    read_rounds(frozen_marks(alloc, pattern, times), rounds, set_by_iter)
}

#[inline(never)]
fn set_by_get_bit(bitmap: &Bitmap, start: u64) -> u64 {
    let mut sum = start;
    for i in 0..bitmap.len() {
        sum = sum.wrapping_add(u64::from(bitmap.get_bit(i)));
    }
    sum
}

// sum: the set bits of the frozen bitmap (made once), by get_bit(i)
#[unsafe(no_mangle)]
pub extern "C" fn rattle_flat_bits_get_bit(
    alloc: Global,
    pattern: &[u8],
    times: usize,
    rounds: usize,
) -> u64 {
    read_rounds(frozen_marks(alloc, pattern, times), rounds, set_by_get_bit)
}

#[inline(never)]
fn set_by_get(bitmap: &MutableBitmap, start: u64) -> u64 {
    let mut sum = start;
    for i in 0..bitmap.len() {
        sum = sum.wrapping_add(u64::from(bitmap.get(i)));
    }
    sum
}

// Sums the marks of the builder by get(i).
#[unsafe(no_mangle)]
pub extern "C" fn rattle_flat_bits_get(
    alloc: Global,
    pattern: &[u8],
    times: usize,
    rounds: usize,
) -> u64 {
    read_rounds(marks(alloc, pattern, times), rounds, set_by_get)
}

#[inline(never)]
fn set_all(bitmap: &mut MutableBitmap, pattern: &[u8], clear: u8)
    requires { length bitmap.old ≡ length pattern.now }
    ensures { length bitmap.new ≡ length pattern.now }
{
    for i in 0..pattern.len() {
        bitmap.set(i, pattern[i] != clear);
    }
}

fn set_each(bitmap: &mut MutableBitmap, pattern: &[u8], rounds: usize) -> u64 {
    let mut sum = 0u64;
    for round in 0..rounds {
        if bitmap.len() == pattern.len() {
            set_all(bitmap, pattern, (round % 2) as u8);
        }
        sum = sum.wrapping_add(probe(bitmap, round));
    }
    sum
}

// a bitmap of the pattern (made once): set(i, pattern[i] != round % 2) for each; the probe
#[unsafe(no_mangle)]
pub extern "C" fn rattle_flat_bits_set(alloc: Global, pattern: &[u8], rounds: usize) -> u64 {
    let mut bitmap = MutableBitmap::new(alloc);
    match bitmap.extend_constant(pattern.len(), false) {
        Ok(()) => set_each(&mut bitmap, pattern, rounds),
        Err(_) => u64::MAX,
    }
}

impl Probe for Bitmap {
    /// Returns the number of clear marks.
    #[inline(always)]
    fn probe(&self, _round: usize) -> u64 {
        self.unset_bits() as u64
    }
}

struct BitsAnd;

impl Operation for BitsAnd {
    type Source = Bitmap;

    type Made = Bitmap;

    #[inline(always)]
    fn make(alloc: Global, marks: &Bitmap) -> Option<Bitmap> {
        and(alloc, marks, marks).ok()
    }
}

// sum: the clear marks of the bits combined with themselves by `and`
#[unsafe(no_mangle)]
pub extern "C" fn rattle_flat_bits_and(
    alloc: Global,
    pattern: &[u8],
    times: usize,
    rounds: usize,
) -> u64 {
    run::<BitsAnd>(alloc, frozen_marks(alloc, pattern, times), rounds)
}

struct BitsOr;

impl Operation for BitsOr {
    type Source = Bitmap;

    type Made = Bitmap;

    #[inline(always)]
    fn make(alloc: Global, marks: &Bitmap) -> Option<Bitmap> {
        or(alloc, marks, marks).ok()
    }
}

// sum: the clear marks of the bits combined with themselves by `or`
#[unsafe(no_mangle)]
pub extern "C" fn rattle_flat_bits_or(
    alloc: Global,
    pattern: &[u8],
    times: usize,
    rounds: usize,
) -> u64 {
    run::<BitsOr>(alloc, frozen_marks(alloc, pattern, times), rounds)
}

struct BitsNot;

impl Operation for BitsNot {
    type Source = Bitmap;

    type Made = Bitmap;

    #[inline(always)]
    fn make(alloc: Global, marks: &Bitmap) -> Option<Bitmap> {
        not(alloc, marks).ok()
    }
}

// sum: the clear marks of the opposite bits
#[unsafe(no_mangle)]
pub extern "C" fn rattle_flat_bits_not(
    alloc: Global,
    pattern: &[u8],
    times: usize,
    rounds: usize,
) -> u64 {
    run::<BitsNot>(alloc, frozen_marks(alloc, pattern, times), rounds)
}
