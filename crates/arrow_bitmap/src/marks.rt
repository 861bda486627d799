//! Consecutive marks of packed bytes, which may begin within a byte and which contracts see as a list: what bitmaps read,
//! compare, copy and combine. The public contracts that this serves are those of [`crate::Bitmap`] and
//! [`crate::MutableBitmap`], in which no byte is named.
ghost use Rattle.std.specs.Prelude.{◌≡◌, ℕ, ◌+◌, ◌*◌, ◌^◌, ◌<◌, ◌≤◌, ◌==◌, IfSome, Some, drop, length};
ghost use Rattle.std.specs.Prelude.{count_by, not, slice_get, slice_index, take, [], ◌∷◌};
ghost use Rattle.std.specs.Int.{bit_at, div_ceil};
ghost use Rattle.arrow_bitmap.specs.Marks.{block_mark, mark_at, marks};

use crate::bits::{count_clear, masked_mark_of};
use crate::blocks::block_at;
use crate::words::word_at;
use std::marker::Model;
use std::simd::prelude::*;

/// Returns eight marks of two bytes, from bit `shift` of the lower one on.
#[inline(always)]
fn between(low: u8, high: u8, shift: usize) -> u8
    requires { shift < 8 }
    ensures { (k : ℕ) → k < 8 → (bit_at result k == 1) ≡ mark_at (low ∷ high ∷ []) (shift + k) }
{
    low >> shift | high << 1 << (7 - shift)
}

/// Returns the byte at `index`, or a byte of clear marks past the end.
#[inline(always)]
fn byte_or_clear(bytes: &[u8], index: usize) -> u8
    ensures { result ≡ slice_index bytes.now index }
{
    bytes.get(index).copied().unwrap_or(0)
}

/// Returns eight marks from `place` on; marks past the bytes are clear.
#[inline(always)]
pub(crate) fn byte_at(bytes: &[u8], place: usize) -> u8
    ensures { (k : ℕ) → k < 8 → (bit_at result k == 1) ≡ mark_at bytes.now (place + k) }
{
    let low = byte_or_clear(bytes, place / 8);
    let high = byte_or_clear(bytes, place / 8 + 1);
    between(low, high, place % 8)
}

/// Consecutive marks of packed bytes.
#[derive(Drop)]
pub(crate) struct Marks<'a> {
    bytes: &'a [u8],
    start: usize,
    count: usize,
}

// Contracts see the marks. The bits before and after them belong to others, or to none.
impl<'a> Model for Marks<'a> {
    ghost use Rattle.std.specs.Prelude.{List, Bool, ◌+◌, ◌*◌, ◌^◌, ◌<◌, ◌≤◌, length};
    ghost use Rattle.arrow_bitmap.specs.Marks.{marks};

    ghost Value = { List Bool };

    ghost view = { λ m. marks m.bytes.now m.start m.count };

    ghost invariant = { λ m. (m.start + m.count ≤ 8 * length m.bytes.now) × (m.start + m.count < 2 ^ 64) };
}

#[tactic(auto, using(crate::proofs::MarkLemmas::mark_steps))]
impl<'a> Marks<'a> {
    /// Creates the `count` marks of packed bytes from mark `start` on.
    #[inline(always)]
    pub(crate) fn new(bytes: &'a [u8], start: usize, count: usize) -> Self
        requires within { start + count ≤ 8 * length bytes.now }
        requires fits { start + count < 2 ^ 64 }
        ensures { result ≡ marks bytes.entry.now start count }
    {
        Marks {
            bytes,
            start,
            count,
        }
    }

    /// Returns the same marks. A loop that writes bytes reads a local copy from registers, but what a reference points
    /// at from memory in each turn.
    #[inline(always)]
    pub(crate) fn copied(&self) -> Marks<'a>
        ensures { result ≡ self.now }
    {
        Marks {
            bytes: self.bytes,
            start: self.start,
            count: self.count,
        }
    }

    /// Returns the number of marks.
    #[inline(always)]
    pub(crate) fn len(&self) -> usize
        ensures { result ≡ length self.now }
    {
        self.count
    }

    /// Returns the `count` marks from index `first` on.
    #[inline(always)]
    pub(crate) fn range(&self, first: usize, count: usize) -> Marks<'a>
        requires { first + count ≤ length self.now }
        ensures { result ≡ take count (drop first self.now) }
    {
        Marks {
            bytes: self.bytes,
            start: self.start + first,
            count,
        }
    }

    /// Returns the mark at index `i`.
    #[inline(always)]
    pub(crate) fn get(&self, i: usize) -> bool
        requires { i < length self.now }
        ensures { slice_get self.now i ≡ Some result }
    {
        masked_mark_of(self.bytes, self.start + i)
    }

    /// Returns the eight marks from index `i` on as the bits of a byte. Bits past the last mark may be anything.
    #[inline(always)]
    pub(crate) fn byte(&self, i: usize) -> u8
        requires { i < length self.now }
        ensures { (k : ℕ) → k < 8 → i + k < length self.now → slice_get self.now (i + k) ≡ Some (bit_at result k == 1) }
    {
        byte_at(self.bytes, self.start + i)
    }

    /// Returns the 64 marks from index `i` on as the bits of a word.
    #[inline(always)]
    pub(crate) fn word(&self, i: usize) -> u64
        requires { i + 64 ≤ length self.now }
        ensures { (k : ℕ) → k < 64 → slice_get self.now (i + k) ≡ Some (bit_at result k == 1) }
    {
        word_at(self.bytes, self.start + i)
    }

    /// Returns the 512 marks from index `i` on, behind which there are more, as the bits of eight words.
    #[inline(always)]
    pub(crate) fn block(&self, i: usize) -> u64x8
        requires { i + 512 < length self.now }
        ensures { (k : ℕ) → k < 512 → slice_get self.now (i + k) ≡ Some (block_mark result k) }
    {
        let place = self.start + i;
        block_at(self.bytes, place / 8, place % 8)
    }

    /// Counts the clear marks among the `len` marks from index `first` on, if `unset` marks are clear in all. It counts
    /// these, or those outside of them, whichever are fewer.
    pub(crate) fn clear_in_range(&self, first: usize, len: usize, unset: usize) -> usize
        requires within { first + len ≤ length self.now }
        requires unset { unset ≡ count_by not self.now }
        ensures { result ≡ count_by not (take len (drop first self.now)) }
    {
        let start = self.start + first;
        let (end, past) = (start + len, self.start + self.count);
        if len < self.count / 2 {
            return count_clear(self.bytes, start, end);
        }
        unset - count_clear(self.bytes, self.start, start) - count_clear(self.bytes, end, past)
    }

    /// Returns the bytes of the marks, if these begin with a byte.
    #[inline(always)]
    pub(crate) fn bytes(&self) -> Option<&'a [u8]>
        ensures len { IfSome result (λ bytes. length bytes.now ≡ div_ceil (length self.now) 8) }
        ensures marks { IfSome result (λ bytes. marks bytes.now 0 (length self.now) ≡ self.now) }
    {
        if self.start % 8 != 0 {
            return None;
        }
        let first = self.start / 8;
        Some(&self.bytes[first..first + self.count.div_ceil(8)])
    }
}
