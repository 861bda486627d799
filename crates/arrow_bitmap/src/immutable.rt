//! Bitmaps that cannot be changed, and whose clones and slices share memory.
ghost use Rattle.std.specs.Prelude.{◌≡◌, ℕ, ◌+◌, ◌*◌, ◌^◌, ◌≤◌, ◌<◌, ◌==◌, [], length, take, drop, count_by};
ghost use Rattle.std.specs.Prelude.{not, replicate, false, slice_get, Some, vec_len, IfOk, IfErr, OnOk, List, Bool};
ghost use Rattle.std.specs.Prelude.{length as list_length};
ghost use Rattle.std.specs.Int.{bit_at};
ghost use Rattle.either.specs.Either.{MatchEither};
ghost use Rattle.arrow_types.specs.Failures.{OnlyOutOfMemory, OutOfMemoryKeeps};
ghost use Rattle.arrow_bitmap.specs.Marks.{block_mark, marks, packed_refusal};
ghost use Rattle.arrow_types.specs.Types.{refusal};

use crate::bits::{count_clear_first, fits_bytes, masked_mark_of};
use crate::blocks::block_from;
use crate::copy::own_bytes;
use crate::marks::Marks;
use crate::{BitmapIter, MutableBitmap};
use arrow_types::error::Error;
use either::{Either, Left, Right};
use std::alloc::Global;
use std::marker::Model;
use std::mem;
use std::rc::Rc;
use std::simd::prelude::*;

/// An immutable list of marks, packed eight to a byte, the least significant bit first (Arrow
/// columnar format, "Validity bitmaps"). In a validity bitmap a set mark is a valid slot.
///
/// Clones and slices share the bytes.
#[derive(Drop)]
pub struct Bitmap {
    bytes: Rc<Vec<u8>>,
    offset: usize,
    length: usize,
    // how many marks are clear, counted when they are chosen
    unset: usize,
}

// Contracts see the marks from the offset on.
impl Model for Bitmap {
    ghost use Rattle.std.specs.Prelude.{List, Bool};
    ghost use Rattle.arrow_bitmap.specs.Marks.{CountsClear, marks};

    ghost Value = { List Bool };

    ghost view = { λ bitmap. marks bitmap.bytes.value.items bitmap.offset bitmap.length };

    ghost invariant = { λ bitmap. CountsClear bitmap.bytes.value bitmap.offset bitmap.length bitmap.unset };
}

#[tactic(auto, using(crate::proofs::MarkLemmas::mark_steps))]
impl Bitmap {
    /// Creates a bitmap of the first `length` marks of packed bytes.
    pub(crate) fn from_bytes(bytes: Vec<u8>, length: usize) -> Result<Self, Error>
        requires { length ≤ 8 * vec_len bytes }
        ensures ok { IfOk result (λ bitmap. bitmap ≡ marks bytes.items 0 length) }
        ensures err { OnlyOutOfMemory result }
    {
        let unset = count_clear_first(&bytes, length);
        Bitmap::from_counted(bytes, length, unset)
    }

    /// Creates a bitmap of the first `length` marks of packed bytes, `unset` of which are clear.
    pub(crate) fn from_counted(bytes: Vec<u8>, length: usize, unset: usize) -> Result<Self, Error>
        requires within { length ≤ 8 * vec_len bytes }
        requires unset { unset ≡ count_by not (marks bytes.items 0 length) }
        ensures ok { IfOk result (λ bitmap. bitmap ≡ marks bytes.items 0 length) }
        ensures err { OnlyOutOfMemory result }
    {
        let bytes = Rc::new(*bytes.allocator(), bytes)?;
        Ok(Bitmap {
            bytes,
            offset: 0,
            length,
            unset,
        })
    }

    /// Creates an empty bitmap.
    ///
    /// # Errors
    /// `OutOfMemory` if an allocation fails.
    pub fn new(alloc: Global) -> Result<Self, Error>
        ensures ok { IfOk result (λ bitmap. bitmap ≡ []) }
        ensures err { OnlyOutOfMemory result }
    {
        Bitmap::from_bytes(Vec::new(alloc), 0)
    }

    /// Creates a bitmap of the first `length` marks of packed bytes, without copying them.
    ///
    /// # Errors
    /// - `OutOfSpec` if the bytes have fewer than `length` bits; this is checked first.
    /// - `OutOfMemory` if an allocation fails.
    ///
    /// The bytes are dropped on an error.
    pub fn try_new(bytes: Vec<u8>, length: usize) -> Result<Self, Error>
        ensures ok { IfOk result (λ bitmap. (length ≤ 8 * vec_len bytes) × (bitmap ≡ marks bytes.items 0 length)) }
        ensures count { IfOk result (λ bitmap. list_length bitmap ≡ length) }
        ensures err { IfErr result (λ e. refusal e ≡ packed_refusal (vec_len bytes) length) }
    {
        fits_bytes(bytes.len(), length)?;
        Bitmap::from_bytes(bytes, length)
    }

    /// Creates a bitmap of `length` clear marks.
    ///
    /// # Errors
    /// `OutOfMemory` if an allocation fails.
    pub fn new_zeroed(alloc: Global, length: usize) -> Result<Self, Error>
        ensures ok { IfOk result (λ bitmap. bitmap ≡ replicate length false) }
        ensures err { OnlyOutOfMemory result }
    {
        let mut marks = MutableBitmap::new(alloc);
        marks.extend_constant(length, false)?;
        marks.freeze()
    }

    /// Creates a bitmap from booleans.
    ///
    /// # Errors
    /// `OutOfMemory` if an allocation fails.
    pub fn from_slice(alloc: Global, slice: &[bool]) -> Result<Self, Error>
        ensures ok { IfOk result (λ bitmap. bitmap ≡ slice.now) }
        ensures err { OnlyOutOfMemory result }
    {
        MutableBitmap::from_slice(alloc, slice)?.freeze()
    }

    /// Returns a clone that shares the bytes.
    ///
    /// # Errors
    /// `OutOfMemory` if the number of owners would overflow.
    pub fn clone(&self) -> Result<Self, Error>
        ensures ok { IfOk result (λ bitmap. bitmap ≡ self.now) }
        ensures err { OnlyOutOfMemory result }
    {
        Ok(Bitmap {
            bytes: self.bytes.clone()?,
            offset: self.offset,
            length: self.length,
            unset: self.unset,
        })
    }

    /// Returns the bytes, which may be shared, the place of the first mark, the number of marks,
    /// and the number of clear marks.
    pub fn into_parts(self) -> (Rc<Vec<u8>>, usize, usize, usize)
        ensures within { result.1 + result.2 ≤ 8 * vec_len result.0.value }
        ensures fits { result.1 + result.2 < 2 ^ 64 }
        ensures value { marks result.0.value.items result.1 result.2 ≡ self }
        ensures unset { result.3 ≡ count_by not self }
    {
        let Bitmap {
            bytes,
            offset,
            length,
            unset,
        } = self;
        (bytes, offset, length, unset)
    }

    /// Creates a bitmap of `length` marks of packed bytes from `offset` on, `unset` of which are
    /// clear.
    pub fn from_parts(bytes: Rc<Vec<u8>>, offset: usize, length: usize, unset: usize) -> Self
        requires within { offset + length ≤ 8 * vec_len bytes.value }
        requires fits { offset + length < 2 ^ 64 }
        requires unset { unset ≡ count_by not (marks bytes.value.items offset length) }
        ensures { result ≡ marks bytes.value.items offset length }
    {
        Bitmap {
            bytes,
            offset,
            length,
            unset,
        }
    }

    /// Converts the bitmap into a growing one without copying it, if its bytes are not shared and
    /// it begins at their first bit. Otherwise returns the bitmap unchanged.
    pub fn into_mut(self) -> Either<Self, MutableBitmap>
        ensures { MatchEither result (λ bitmap. bitmap ≡ self) (λ bitmap. bitmap ≡ self) }
    {
        let (bytes, offset, length, unset) = self.into_parts();
        if offset != 0 {
            return Left(Bitmap::from_parts(bytes, offset, length, unset));
        }
        match Rc::try_unwrap(bytes) {
            Ok(bytes) => Right(MutableBitmap::from_bytes(bytes, length)),
            Err(bytes) => Left(Bitmap::from_parts(bytes, offset, length, unset)),
        }
    }

    /// Replaces the marks by what the closure returns for them. Shared marks are copied first. All
    /// memory is allocated before the closure is called.
    ///
    /// # Errors
    /// `OutOfMemory` if an allocation fails; the closure is then not called and the marks are
    /// unchanged.
    pub fn apply_mut<F: Fn(MutableBitmap) -> MutableBitmap>(
        &mut self,
        change: F,
    ) -> Result<(), Error>
        requires callable { F.pre change self.old }
        requires keeps { (changed : List Bool) → F.post change self.old changed → length changed ≡ length self.old }
        ensures ok { OnOk result (F.post change self.old self.new × (length self.new ≡ length self.old)) }
        ensures err { OutOfMemoryKeeps result self.old self.new }
    {
        own_bytes(&mut self.bytes, self.offset, self.length)?;
        self.offset = 0;
        let length = self.length;
        let Some(bytes) = Rc::get_mut(&mut self.bytes) else {
            return Err(Error::OutOfMemory);
        };
        let alloc = *bytes.allocator();
        let taken = mem::replace(bytes, Vec::new(alloc));
        let changed = change(MutableBitmap::from_bytes(taken, length));
        let unset = changed.unset_bits();
        *bytes = changed.into_vec();
        self.unset = unset;
        Ok(())
    }

    /// Returns the number of marks.
    #[inline(always)]
    pub fn len(&self) -> usize
        ensures { result ≡ length self.now }
    {
        self.length
    }

    /// Returns whether there is no mark.
    #[inline(always)]
    pub fn is_empty(&self) -> bool
        ensures { result ≡ (length self.now == 0) }
    {
        self.length == 0
    }

    /// Returns the mark at `index`.
    #[inline(always)]
    pub fn get_bit(&self, index: usize) -> bool
        requires { index < length self.now }
        ensures { slice_get self.now index ≡ Some result }
    {
        masked_mark_of(self.bytes.as_slice(), self.offset + index)
    }

    /// Returns the 64 marks from `place` on as the bits of a word, the least significant first.
    #[inline(always)]
    pub fn word(&self, place: usize) -> u64
        requires { place + 64 ≤ length self.now }
        ensures { (k : ℕ) → k < 64 → slice_get self.now (place + k) ≡ Some (bit_at result k == 1) }
    {
        self.marks().word(place)
    }

    /// Returns the 512 marks from `place` on as the bits of eight words, the least significant first.
    #[inline(always)]
    pub fn block(&self, place: usize) -> u64x8
        requires { place + 512 ≤ length self.now }
        ensures { (k : ℕ) → k < 512 → slice_get self.now (place + k) ≡ Some (block_mark result k) }
    {
        block_from(self.bytes.as_slice(), self.offset + place)
    }

    /// Returns the marks, which are borrowed.
    #[inline(always)]
    pub(crate) fn marks(&self) -> Marks<'_>
        ensures { result ≡ self.now }
    {
        Marks::new(self.bytes.as_slice(), self.offset, self.length)
    }

    /// Returns the number of clear marks, in constant time.
    #[inline(always)]
    pub fn unset_bits(&self) -> usize
        ensures { result ≡ count_by not self.now }
    {
        self.unset
    }

    /// Keeps only the `len` marks from `offset` on, without copying any. It counts the marks that
    /// stay or those that go, whichever are fewer.
    pub fn slice(&mut self, offset: usize, len: usize)
        requires { offset + len ≤ length self.old }
        ensures { self.new ≡ take len (drop offset self.old) }
    {
        self.unset = self.marks().clear_in_range(offset, len, self.unset);
        self.offset += offset;
        self.length = len;
    }

    /// Returns an iterator over the marks.
    pub fn iter(&self) -> BitmapIter<'_>
        ensures { result ≡ self.now }
    {
        BitmapIter::new(
            self.bytes.as_slice(),
            self.offset,
            self.offset + self.length,
        )
    }

    /// Returns an iterator over the `len` marks from `offset` on.
    #[inline(always)]
    pub fn iter_range(&self, offset: usize, len: usize) -> BitmapIter<'_>
        requires { offset + len ≤ length self.now }
        ensures { result ≡ take len (drop offset self.now) }
    {
        let first = self.offset + offset;
        BitmapIter::new(self.bytes.as_slice(), first, first + len)
    }
}
