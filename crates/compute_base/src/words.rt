//! Bitmaps that are made 64 or 512 marks at a time. A kernel says by `MarkSource`, `MarkWords` or `MarkBlocks` what its
//! marks are, and `collect_marks` and `collect_blocks` write them as whole words.
ghost use Rattle.std.specs.Prelude.{◌≡◌, ◌==◌, ◌+◌, ◌*◌, ◌^◌, ◌<◌, ◌≤◌, ℕ, IfOk, List, Bool, Some, length, slice_get};
ghost use Rattle.std.specs.Int.{bit_at, div_ceil};
ghost use Rattle.arrow_memory.specs.Marks.{mark_at};
ghost use Rattle.arrow_column.specs.Column.{marks_of};
ghost use Rattle.compute_base.specs.Words.{HasMarks, HoldsBlock, HoldsMarks};

use arrow_column::Array;
use arrow_memory::bitmap::{Bitmap, MutableBitmap, write_block};
use std::alloc::{AllocError, Global};
use std::simd::prelude::*;

/// Marks that can be computed at each index.
pub trait MarkSource {
    /// The marks in order.
    ghost marks: { Self → List Bool };

    /// Returns the number of marks.
    fn len(&self) -> usize
        ensures { result ≡ length (marks self.now) };

    /// Returns the mark at `i`.
    fn mark(&self, i: usize) -> bool
        requires { i < length (marks self.now) }
        ensures { slice_get (marks self.now) i ≡ Some result };
}

/// Marks that can be computed up to 64 at a time.
pub trait MarkWords {
    /// The marks in order.
    ghost marks: { Self → List Bool };

    /// Returns the number of marks.
    fn len(&self) -> usize
        ensures { result ≡ length (marks self.now) };

    /// Returns the `count` marks from `place` on as the bits of a word, the least significant first.
    fn word(&self, place: usize, count: usize) -> u64
        requires few { count ≤ 64 }
        requires fits { place + count < 2 ^ 64 }
        requires within { place + count ≤ length (marks self.now) }
        ensures { HoldsMarks result (marks self.now) place count };
}

/// Marks that can also be computed 512 at a time.
pub trait MarkBlocks: MarkWords {
    /// Returns the 512 marks from `place` on as the bits of eight words.
    fn block(&self, place: usize) -> u64x8
        requires fits { place + 512 < 2 ^ 64 }
        requires within { place + 512 ≤ length (Self.marks self.now) }
        ensures { HoldsBlock result (Self.marks self.now) place };
}

/// Marks that are computed one by one, as words.
#[derive(Drop)]
pub struct PackedMarks<S> {
    pub source: S,
}

impl<S: MarkSource> MarkWords for PackedMarks<S> {
    ghost marks = { λ packed. S.marks packed.source };

    #[inline(always)]
    fn len(&self) -> usize {
        self.source.len()
    }

    #[inline(always)]
    fn word(&self, place: usize, count: usize) -> u64 {
        if count == 64 {
            pack_whole(&self.source, place)
        } else {
            pack_few(&self.source, place, count)
        }
    }
}

/// Returns the 64 marks from `place` on as the bits of a word. Each of four words collects every fourth mark, beginning
/// with the last ones, and each is shifted by four bits a turn. So the compiler makes a vector of the four words, with
/// one comparison and one shift for four marks. Beginning with the first ones, it makes slower code of comparisons.
#[inline(always)]
fn pack_whole<S: MarkSource>(source: &S, place: usize) -> u64
    requires fits { place + 64 < 2 ^ 64 }
    requires within { place + 64 ≤ length (S.marks source.now) }
    ensures { HoldsMarks result (S.marks source.now) place 64 }
{
    let (mut first, mut second, mut third, mut fourth) = (0, 0, 0, 0);
    for turn in 0..16 {
        let from = place + (60 - 4 * turn);
        first = first << 4 | u64::from(source.mark(from));
        second = second << 4 | u64::from(source.mark(from + 1));
        third = third << 4 | u64::from(source.mark(from + 2));
        fourth = fourth << 4 | u64::from(source.mark(from + 3));
    }
    first | second << 1 | third << 2 | fourth << 3
}

/// Returns the `count` marks from `place` on, at most 64, as the bits of a word.
fn pack_few<S: MarkSource>(source: &S, place: usize, count: usize) -> u64
    requires few { count ≤ 64 }
    requires fits { place + count < 2 ^ 64 }
    requires within { place + count ≤ length (S.marks source.now) }
    ensures { HoldsMarks result (S.marks source.now) place count }
{
    let mut word = 0;
    for i in 0..count {
        word |= u64::from(source.mark(place + i)) << i;
    }
    word
}

/// Writes a word over the eight bytes from byte `at` on.
#[inline(always)]
pub(crate) fn write_word(target: &mut [u8], at: usize, word: u64)
    requires { at + 8 ≤ length target.old }
    ensures marks { (k : ℕ) → k < 64 → mark_at target.new (8 * at + k) ≡ (bit_at word k == 1) }
    ensures kept { (i : ℕ) → i < 8 * at → mark_at target.new i ≡ mark_at target.old i }
    ensures len { length target.new ≡ length target.old }
{
    u8x8::from_array(word.to_le_bytes()).copy_to_slice(&mut target[at..]);
}

/// Writes the marks from word `first` on over bytes, whole words of them.
#[inline(always)]
fn write_words_from<S: MarkWords>(target: &mut [u8], source: &S, first: usize)
    requires len { length target.old ≡ 8 * div_ceil (length (S.marks source.now)) 64 }
    requires within { 64 * first ≤ length (S.marks source.now) }
    requires written { HasMarks (S.marks source.now) target.old (64 * first) }
    ensures marks { HasMarks (S.marks source.now) target.new (length (S.marks source.now)) }
    ensures len { length target.new ≡ length target.old }
{
    let len = source.len();
    let words = len / 64;
    for i in first..words {
        write_word(target, 8 * i, source.word(64 * i, 64));
    }
    let place = 64 * words;
    if place < len {
        write_word(target, 8 * words, source.word(place, len - place));
    }
}

/// Writes all marks over bytes, a word at a time.
// Not inlined, so that the compiler knows that `target` aliases nothing that is read.
#[inline(never)]
fn write_words<S: MarkWords>(target: &mut [u8], source: &S)
    requires { length target.old ≡ 8 * div_ceil (length (S.marks source.now)) 64 }
    ensures marks { HasMarks (S.marks source.now) target.new (length (S.marks source.now)) }
    ensures len { length target.new ≡ length target.old }
{
    write_words_from(target, source, 0);
}

/// Writes all marks over bytes, eight words at a time.
// Not inlined, as [`write_words`].
#[inline(never)]
fn write_blocks<S: MarkBlocks>(target: &mut [u8], source: &S)
    requires { length target.old ≡ 8 * div_ceil (length (S.marks source.now)) 64 }
    ensures marks { HasMarks (S.marks source.now) target.new (length (S.marks source.now)) }
    ensures len { length target.new ≡ length target.old }
{
    let blocks = source.len() / 512;
    for i in 0..blocks {
        write_block(target, 64 * i, source.block(512 * i));
    }
    write_words_from(target, source, 8 * blocks);
}

/// Returns the bitmap of all marks. The error is `AllocError`, which has no contents, since a result with a larger
/// error would be copied once more.
pub fn collect_marks<S: MarkWords>(alloc: Global, source: &S) -> Result<MutableBitmap, AllocError>
    ensures { IfOk result (λ bitmap. bitmap ≡ S.marks source.now) }
{
    let len = source.len();
    let mut bytes = Vec::new(alloc);
    bytes.resize(8 * len.div_ceil(64), 0)?;
    write_words(&mut bytes, source);
    Ok(MutableBitmap::from_bytes(bytes, len))
}

/// Returns the bitmap of all marks, as [`collect_marks`], 512 at a time.
pub fn collect_blocks<S: MarkBlocks>(alloc: Global, source: &S) -> Result<MutableBitmap, AllocError>
    ensures { IfOk result (λ bitmap. bitmap ≡ S.marks source.now) }
{
    let len = source.len();
    let mut bytes = Vec::new(alloc);
    bytes.resize(8 * len.div_ceil(64), 0)?;
    write_blocks(&mut bytes, source);
    Ok(MutableBitmap::from_bytes(bytes, len))
}

/// Returns the `count` marks of a bitmap from `place` on, at most 64, as the bits of a word.
#[inline(always)]
pub fn word_of(bitmap: &Bitmap, place: usize, count: usize) -> u64
    requires few { count ≤ 64 }
    requires within { place + count ≤ length bitmap.now }
    ensures { HoldsMarks result bitmap.now place count }
{
    if count == 64 {
        bitmap.word(place)
    } else {
        few_of(bitmap, place, count)
    }
}

/// Returns the marks of `count` slots from `place` on, at most 64, as the bits of a word. All are set if no mask is
/// held.
#[inline(always)]
pub fn marks_word<A: Array>(array: &A, place: usize, count: usize) -> u64
    requires few { count ≤ 64 }
    requires within { place + count ≤ length (A.column array.now).rows }
    ensures { HoldsMarks result (marks_of (A.column array.now)) place count }
{
    match array.validity() {
        Some(mask) => word_of(mask, place, count),
        None => u64::MAX,
    }
}

/// Returns the marks of 512 slots from `place` on as the bits of eight words. All are set if no mask is held.
#[inline(always)]
pub fn marks_block<A: Array>(array: &A, place: usize) -> u64x8
    requires { place + 512 ≤ length (A.column array.now).rows }
    ensures { HoldsBlock result (marks_of (A.column array.now)) place }
{
    let Some(mask) = array.validity() else {
        return u64x8::splat(u64::MAX);
    };
    mask.block(place)
}

/// Returns the marks from `place` on, at most 64, of a bitmap that has at least 64 marks, as the bits of a word. If
/// fewer than 64 are left, it reads the last 64 and shifts out those before `place`.
fn word_near(bitmap: &Bitmap, place: usize) -> u64
    requires long { 64 ≤ length bitmap.now }
    requires within { place < length bitmap.now }
    ensures { (k : ℕ) → k < 64 → place + k < length bitmap.now
        → slice_get bitmap.now (place + k) ≡ Some (bit_at result k == 1) }
{
    let start = place.min(bitmap.len() - 64);
    bitmap.word(start) >> (place - start)
}

/// Returns the `count` marks of a bitmap from `place` on as the bits of a word.
fn few_of(bitmap: &Bitmap, place: usize, count: usize) -> u64
    requires few { count ≤ 64 }
    requires within { place + count ≤ length bitmap.now }
    ensures { HoldsMarks result bitmap.now place count }
{
    let len = bitmap.len();
    if len >= 64 && count > 0 {
        return word_near(bitmap, place);
    }
    let mut word = 0;
    for i in 0..count {
        word |= u64::from(bitmap.get_bit(place + i)) << i;
    }
    word
}
