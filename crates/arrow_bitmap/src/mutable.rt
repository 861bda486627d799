//! Bitmaps that can be changed and grow. A growth that fails leaves the marks as they were.
ghost use Rattle.std.specs.Prelude.{◌≡◌, ◌<◌, ◌+◌, ◌==◌, [], ◌∷◌, ◌++◌, count_by, length, not};
ghost use Rattle.std.specs.Prelude.{replicate, slice_get, slice_set, take, Some, OnOk, IfOk, IfErr};
ghost use Rattle.std.specs.Prelude.{MatchOption, drop, ◌*◌, ◌≤◌, vec_len, IsOk};
ghost use Rattle.arrow_types.specs.Failures.{OnlyOutOfMemory, OutOfMemoryKeeps};
ghost use Rattle.arrow_bitmap.specs.Marks.{bits_of, marks, bits_past_bytes};
ghost use Rattle.arrow_types.specs.Types.{refusal};

use crate::bits::{
    count_clear_first, extend_marks, fits_bytes, mark_of, masked_mark_of, push_mark, write_mark,
};
use crate::copy::extend_from_marks;
use crate::marks::Marks;
use crate::pack::pack;
use crate::words::extend_from_word;
use crate::{Bitmap, BitmapIter};
use arrow_types::error::Error;
use std::alloc::Global;
use std::marker::Model;

/// A growing list of marks, packed eight to a byte, the least significant bit first (Arrow columnar
/// format, "Validity bitmaps").
#[derive(Drop)]
pub struct MutableBitmap {
    bytes: Vec<u8>,
    length: usize,
}

// Contracts see the marks. Bits past the last mark don't count.
impl Model for MutableBitmap {
    ghost use Rattle.std.specs.Prelude.{List, Bool, ◌*◌, ◌≤◌, vec_len};
    ghost use Rattle.arrow_bitmap.specs.Marks.{marks};

    ghost Value = { List Bool };

    ghost view = { λ bitmap. marks bitmap.bytes.items 0 bitmap.length };

    ghost invariant = { λ bitmap. bitmap.length ≤ 8 * vec_len bitmap.bytes };
}

#[tactic(auto, using(crate::proofs::MarkLemmas::mark_steps))]
impl MutableBitmap {
    /// Creates an empty bitmap. Does not allocate.
    pub fn new(alloc: Global) -> Self
        ensures { result ≡ [] }
    {
        MutableBitmap {
            bytes: Vec::new(alloc),
            length: 0,
        }
    }

    /// Creates an empty bitmap, as [`MutableBitmap::new`].
    pub fn default(alloc: Global) -> Self
        ensures { result ≡ [] }
    {
        MutableBitmap::new(alloc)
    }

    /// Creates a bitmap of the first `length` marks of packed bytes.
    pub fn from_bytes(bytes: Vec<u8>, length: usize) -> Self
        requires { length ≤ 8 * vec_len bytes }
        ensures { result ≡ marks bytes.items 0 length }
    {
        MutableBitmap { bytes, length }
    }

    /// Returns the packed bytes without copying them. They may have more bits than there are marks.
    pub fn into_vec(self) -> Vec<u8>
        ensures room { length self ≤ 8 * vec_len result }
        ensures value { marks result.items 0 (length self) ≡ self }
    {
        let MutableBitmap { bytes, length: _ } = self;
        bytes
    }

    /// Creates a bitmap of the first `length` marks of packed bytes, without copying them. The
    /// bytes may have more bits.
    ///
    /// # Errors
    /// `OutOfSpec` if the bytes have fewer than `length` bits; they are then dropped.
    pub fn try_new(bytes: Vec<u8>, length: usize) -> Result<Self, Error>
        ensures ok { IfOk result (λ bitmap. (length ≤ 8 * vec_len bytes) × (bitmap ≡ marks bytes.items 0 length)) }
        ensures err { IfErr result (λ e. (8 * vec_len bytes < length) × (refusal e ≡ bits_past_bytes)) }
    {
        fits_bytes(bytes.len(), length)?;
        Ok(MutableBitmap { bytes, length })
    }

    /// Creates a bitmap from booleans.
    ///
    /// # Errors
    /// `OutOfMemory` if an allocation fails.
    pub fn from_slice(alloc: Global, slice: &[bool]) -> Result<Self, Error>
        ensures ok { IfOk result (λ bitmap. bitmap ≡ slice.now) }
        ensures err { OnlyOutOfMemory result }
    {
        let bytes = pack(alloc, slice)?;
        Ok(MutableBitmap::from_bytes(bytes, slice.len()))
    }

    /// Creates an empty bitmap with room for at least `capacity` marks.
    ///
    /// # Errors
    /// `OutOfMemory` if an allocation fails.
    pub fn with_capacity(alloc: Global, capacity: usize) -> Result<Self, Error>
        ensures ok { IfOk result (λ bitmap. bitmap ≡ []) }
        ensures err { OnlyOutOfMemory result }
    {
        Ok(MutableBitmap {
            bytes: Vec::with_capacity(alloc, capacity.div_ceil(8))?,
            length: 0,
        })
    }

    /// Reserves room for at least `additional` more marks.
    ///
    /// # Errors
    /// `OutOfMemory` if an allocation fails.
    pub fn reserve(&mut self, additional: usize) -> Result<(), Error>
        ensures kept { self.new ≡ self.old }
        ensures err { OnlyOutOfMemory result }
    {
        let needed = self.length.saturating_add(additional).div_ceil(8);
        self.bytes.reserve(needed.saturating_sub(self.bytes.len()))?;
        Ok(())
    }

    /// Gives unused room back to the allocator, if it takes it.
    ///
    /// # Errors
    /// Never: if the allocator refuses a smaller allocation, the room stays.
    pub fn shrink_to_fit(&mut self) -> Result<(), Error>
        ensures kept { self.new ≡ self.old }
        ensures ok { IsOk result }
    {
        self.bytes.truncate(self.length.div_ceil(8));
        self.bytes.shrink_to_fit();
        Ok(())
    }

    /// Returns a copy.
    ///
    /// # Errors
    /// `OutOfMemory` if an allocation fails.
    pub fn clone(&self) -> Result<Self, Error>
        ensures ok { IfOk result (λ bitmap. bitmap ≡ self.now) }
        ensures err { OnlyOutOfMemory result }
    {
        Ok(MutableBitmap {
            bytes: self.bytes.clone()?,
            length: self.length,
        })
    }

    /// Returns the number of marks.
    pub fn len(&self) -> usize
        ensures { result ≡ length self.now }
    {
        self.length
    }

    /// Returns whether there is no mark.
    #[inline(always)]
    pub fn is_empty(&self) -> bool
        ensures { result ≡ (length self.now == 0) }
    {
        self.length == 0
    }

    /// Returns the mark at `index`.
    pub fn get(&self, index: usize) -> bool
        requires { index < length self.now }
        ensures { slice_get self.now index ≡ Some result }
    {
        mark_of(&self.bytes, index)
    }

    /// Sets the mark at `index`.
    pub fn set(&mut self, index: usize, value: bool)
        requires { index < length self.old }
        ensures { self.new ≡ slice_set self.old index value }
    {
        write_mark(&mut self.bytes, index, value);
    }

    /// Appends a mark.
    ///
    /// # Errors
    /// `OutOfMemory` if an allocation fails; the marks are then unchanged.
    #[inline(always)]
    pub fn push(&mut self, value: bool) -> Result<(), Error>
        ensures ok { OnOk result (self.new ≡ self.old ++ value ∷ []) }
        ensures err { OutOfMemoryKeeps result self.old self.new }
    {
        let Some(length) = self.length.checked_add(1) else {
            return Err(Error::OutOfMemory);
        };
        push_mark(&mut self.bytes, self.length, value)?;
        self.length = length;
        Ok(())
    }

    /// Returns the marks, which are borrowed.
    #[inline(always)]
    pub(crate) fn marks(&self) -> Marks<'_>
        ensures { result ≡ self.now }
    {
        Marks::new(&self.bytes, 0, self.length)
    }

    /// Removes and returns the last mark; `None` if there is none.
    #[inline(always)]
    pub fn pop(&mut self) -> Option<bool>
        ensures { MatchOption result ((self.old ≡ []) × (self.new ≡ [])) (λ mark. self.old ≡ self.new ++ mark ∷ []) }
    {
        if self.length == 0 {
            return None;
        }
        self.length -= 1;
        Some(masked_mark_of(&self.bytes, self.length))
    }

    /// Keeps only the first `len` marks.
    pub fn truncate(&mut self, len: usize)
        requires { len ≤ length self.old }
        ensures { self.new ≡ take len self.old }
    {
        self.length = len;
    }

    /// Returns the allocator of the bytes, which contracts do not see.
    pub fn allocator(&self) -> Global {
        *self.bytes.allocator()
    }

    /// Appends `additional` equal marks, whole bytes at a time.
    ///
    /// # Errors
    /// `OutOfMemory` if an allocation fails or the length would pass `usize::MAX`; the marks are
    /// then unchanged.
    #[inline(always)]
    pub fn extend_constant(&mut self, additional: usize, value: bool) -> Result<(), Error>
        ensures ok { OnOk result (self.new ≡ self.old ++ replicate additional value) }
        ensures err { OutOfMemoryKeeps result self.old self.new }
    {
        let Some(end) = self.length.checked_add(additional) else {
            return Err(Error::OutOfMemory);
        };
        extend_marks(&mut self.bytes, self.length, end, value)?;
        self.length = end;
        Ok(())
    }

    /// Appends the marks of another bitmap, whole bytes at a time.
    ///
    /// # Errors
    /// `OutOfMemory` if an allocation fails or the length would pass `usize::MAX`; the marks are
    /// then unchanged.
    pub fn extend_from_bitmap(&mut self, other: &MutableBitmap) -> Result<(), Error>
        ensures ok { OnOk result (self.new ≡ self.old ++ other.now) }
        ensures err { OutOfMemoryKeeps result self.old self.new }
    {
        let Some(end) = self.length.checked_add(other.length) else {
            return Err(Error::OutOfMemory);
        };
        extend_from_marks(&mut self.bytes, self.length, &other.marks())?;
        self.length = end;
        Ok(())
    }

    /// Appends the `len` marks of a frozen bitmap from `offset` on, whole bytes at a time.
    ///
    /// # Errors
    /// `OutOfMemory` if an allocation fails or the length would pass `usize::MAX`; the marks are
    /// then unchanged.
    pub fn extend_from_range(
        &mut self,
        other: &Bitmap,
        offset: usize,
        len: usize,
    ) -> Result<(), Error>
        requires { offset + len ≤ length other.now }
        ensures ok { OnOk result (self.new ≡ self.old ++ take len (drop offset other.now)) }
        ensures err { OutOfMemoryKeeps result self.old self.new }
    {
        let Some(end) = self.length.checked_add(len) else {
            return Err(Error::OutOfMemory);
        };
        extend_from_marks(
            &mut self.bytes,
            self.length,
            &other.marks().range(offset, len),
        )?;
        self.length = end;
        Ok(())
    }

    /// Appends the first `count` bits of a word, at most 64, the least significant first.
    ///
    /// # Errors
    /// `OutOfMemory` if an allocation fails or the length would pass `usize::MAX`; the marks are
    /// then unchanged.
    #[inline(always)]
    pub fn extend_from_word(&mut self, word: u64, count: usize) -> Result<(), Error>
        requires { count ≤ 64 }
        ensures ok { OnOk result (self.new ≡ self.old ++ bits_of word count) }
        ensures err { OutOfMemoryKeeps result self.old self.new }
    {
        let Some(end) = self.length.checked_add(count) else {
            return Err(Error::OutOfMemory);
        };
        extend_from_word(&mut self.bytes, self.length, word, count)?;
        self.length = end;
        Ok(())
    }

    /// Counts the clear marks, eight bytes at a time.
    pub fn unset_bits(&self) -> usize
        ensures { result ≡ count_by not self.now }
    {
        count_clear_first(&self.bytes, self.length)
    }

    /// Returns an iterator over the marks.
    pub fn iter(&self) -> BitmapIter<'_>
        ensures { result ≡ self.now }
    {
        BitmapIter::new(&self.bytes, 0, self.length)
    }

    /// Converts the bitmap into an immutable one.
    ///
    /// # Errors
    /// `OutOfMemory` if an allocation fails; the marks are then dropped.
    pub fn freeze(self) -> Result<Bitmap, Error>
        ensures ok { IfOk result (λ bitmap. bitmap ≡ self) }
        ensures err { OnlyOutOfMemory result }
    {
        let MutableBitmap { bytes, length } = self;
        Bitmap::from_bytes(bytes, length)
    }

    /// Converts the bitmap into an immutable one, given its number of clear marks, which is not
    /// counted again.
    ///
    /// # Errors
    /// `OutOfMemory` if an allocation fails; the marks are then dropped.
    pub fn freeze_counted(self, unset: usize) -> Result<Bitmap, Error>
        requires { unset ≡ count_by not self }
        ensures ok { IfOk result (λ bitmap. bitmap ≡ self) }
        ensures err { OnlyOutOfMemory result }
    {
        let MutableBitmap { bytes, length } = self;
        Bitmap::from_counted(bytes, length, unset)
    }
}
