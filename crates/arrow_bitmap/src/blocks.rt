//! Marks that are read and written 512 at a time, as the bits of eight words.
ghost use Rattle.std.specs.Prelude.{◌≡◌, ℕ, ◌+◌, ◌*◌, ◌<◌, ◌≤◌, length};
ghost use Rattle.arrow_bitmap.specs.Marks.{block_mark, mark_at};

use std::simd::prelude::*;

/// Returns the marks of the 64 bytes from byte `first` on.
#[inline(always)]
pub(crate) fn whole_block(bytes: &[u8], first: usize) -> u64x8
    requires { first + 64 ≤ length bytes.now }
    ensures { (k : ℕ) → k < 512 → block_mark result k ≡ mark_at bytes.now (8 * first + k) }
{
    u64x8::from_le_bytes(u8x64::from_slice(&bytes[first..]))
}

/// Returns the 512 marks from bit `shift` of byte `first` on. The bits that the low words lack are the high bits of the
/// words that begin one byte later; the other bits of these are the same marks.
#[inline(always)]
pub(crate) fn block_at(bytes: &[u8], first: usize, shift: usize) -> u64x8
    requires some { first + 64 < length bytes.now }
    requires within { shift < 8 }
    ensures { (k : ℕ) → k < 512 → block_mark result k ≡ mark_at bytes.now (8 * first + shift + k) }
{
    let (low, high) = (whole_block(bytes, first), whole_block(bytes, first + 1));
    low >> u64x8::splat(shift as u64) | high << u64x8::splat((8 - shift) as u64)
}

/// Returns the 512 marks from `place` on, in one reading of the bytes if they begin with one.
#[inline(always)]
pub(crate) fn block_from(bytes: &[u8], place: usize) -> u64x8
    requires { place + 512 ≤ 8 * length bytes.now }
    ensures { (k : ℕ) → k < 512 → block_mark result k ≡ mark_at bytes.now (place + k) }
{
    let first = place / 8;
    let shift = place % 8;
    if shift == 0 {
        return whole_block(bytes, first);
    }
    block_at(bytes, first, shift)
}

/// Writes 512 marks, the bits of eight words, over the 64 bytes from byte `at` on.
#[inline(always)]
pub fn write_block(target: &mut [u8], at: usize, block: u64x8)
    requires { at + 64 ≤ length target.old }
    ensures marks { (k : ℕ) → k < 512 → mark_at target.new (8 * at + k) ≡ block_mark block k }
    ensures kept { (i : ℕ) → i < 8 * at → mark_at target.new i ≡ mark_at target.old i }
    ensures len { length target.new ≡ length target.old }
{
    block.to_le_bytes().copy_to_slice(&mut target[at..]);
}
