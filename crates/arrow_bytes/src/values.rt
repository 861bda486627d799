//! Immutable lists of byte strings, as arrays hold them: offsets, and bytes that may lie around the items, too.
ghost use Rattle.std.specs.Prelude.{◌≡◌, ◌<◌, [], length, replicate, slice_get, Some, IfOk};
ghost use Rattle.arrow_types.specs.Failures.{OnlyOutOfMemory};
ghost use Rattle.arrow_memory.specs.Offsets.{IsOffsets};
ghost use Rattle.arrow_check.specs.Pieces.{bytes_of, offsets_of};
ghost use Rattle.arrow_bytes.specs.Kinds.{AreItems, CutItems, IsItem};
ghost use Rattle.arrow_bytes.specs.Pieces.{nothing_around, pieces_of};

use crate::around::BytesAround;
use crate::{ByteKind, ItemSlice};
use arrow_check::accessor::Bytes;
use arrow_column::{StoredValues, Values};
use arrow_memory::buffer::Buffer;
use arrow_memory::offset::{Offsets, OffsetsBuffer};
use arrow_types::error::Error;
use arrow_types::offset::Offset;
use std::alloc::Global;
use std::marker::{Model, PhantomData};

/// The byte strings that an array stores, whose clones and slices share memory. Bytes may lie
/// before the first of them and after the last.
#[derive(Drop)]
pub struct ByteValues<K: ByteKind, O: Offset> {
    pub(crate) offsets: OffsetsBuffer<O>,
    pub(crate) bytes: Buffer<u8>,
    pub(crate) kind: PhantomData<K>,
}

// Contracts see three pieces: the items, and what lies before and behind them.
impl<K: ByteKind, O: Offset> Model for ByteValues<K, O> {
    ghost use Rattle.arrow_bytes.specs.Kinds.{LegalItems};
    ghost use Rattle.arrow_bytes.specs.Pieces.{Pieces, pieces_of};

    ghost Value = { Pieces };

    ghost view = { λ values. pieces_of values.offsets values.bytes };

    ghost invariant = { λ values. LegalItems K.is_text values.offsets values.bytes };
}

#[tactic(auto, using(crate::proofs::PieceLemmas::piece_reads, crate::proofs::PieceLemmas::piece_zeros, crate::proofs::KindLemmas::kind_zeros))]
impl<K: ByteKind, O: Offset> ByteValues<K, O> {
    /// Creates the items between offsets of bytes.
    #[inline(always)]
    pub fn new(offsets: OffsetsBuffer<O>, bytes: Buffer<u8>) -> Self
        requires { CutItems K.is_text offsets bytes }
        ensures { result ≡ pieces_of offsets bytes }
    {
        // The offsets themselves tell that they are legal.
        offsets.first();
        ByteValues {
            offsets,
            bytes,
            kind: PhantomData,
        }
    }

    /// Creates `length` empty items.
    ///
    /// # Errors
    /// `OutOfMemory` if an allocation fails.
    pub fn new_empty_items(alloc: Global, length: usize) -> Result<Self, Error>
        ensures ok { IfOk result (λ values. values ≡ record { around = nothing_around; items = replicate length [] }) }
        ensures err { OnlyOutOfMemory result }
    {
        let offsets = Offsets::new_zeroed(alloc, length)?.freeze()?;
        let bytes = Buffer::new(alloc)?;
        Ok(ByteValues {
            offsets,
            bytes,
            kind: PhantomData,
        })
    }

    /// Returns the offsets and all bytes.
    #[inline(always)]
    pub fn into_inner(self) -> (OffsetsBuffer<O>, Buffer<u8>)
        ensures offsets { result.0 ≡ offsets_of (length self.around.lead) self.items }
        ensures bytes { result.1 ≡ bytes_of self.around.lead self.items self.around.tail }
        ensures pieces { pieces_of result.0 result.1 ≡ self }
        ensures cut { CutItems K.is_text result.0 result.1 }
    {
        (self.offsets, self.bytes)
    }

    /// Returns the offsets.
    #[inline(always)]
    pub fn offsets(&self) -> &OffsetsBuffer<O>
        ensures { result.now ≡ offsets_of (length self.now.around.lead) self.now.items }
    {
        &self.offsets
    }

    /// Returns all bytes, including those before the first item and after the last.
    #[inline(always)]
    pub fn bytes(&self) -> &Buffer<u8>
        ensures value { result.now ≡ bytes_of self.now.around.lead self.now.items self.now.around.tail }
        ensures items { AreItems K.is_text self.now.items }
    {
        &self.bytes
    }

    /// Borrows the items, so that a loop reads them without following the owners of their memory.
    #[inline(always)]
    pub fn as_slice(&self) -> ItemSlice<'_, K, O>
        ensures { result ≡ self.now.items }
    {
        ItemSlice {
            offsets: &self.offsets,
            bytes: self.bytes.as_slice(),
            kind: PhantomData,
        }
    }

    /// Returns a clone that shares offsets and bytes.
    ///
    /// # Errors
    /// `OutOfMemory` if an allocation fails.
    pub fn clone(&self) -> Result<Self, Error>
        ensures ok { IfOk result (λ copy. copy ≡ self.now) }
        ensures err { OnlyOutOfMemory result }
    {
        let offsets = self.offsets.clone()?;
        let bytes = self.bytes.clone()?;
        Ok(ByteValues {
            offsets,
            bytes,
            kind: PhantomData,
        })
    }

    /// Returns the number of items.
    #[inline(always)]
    pub fn len(&self) -> usize
        ensures { result ≡ length self.now.items }
    {
        self.offsets.len_proxy()
    }

    /// Returns the item at `i`.
    #[inline(always)]
    pub fn value(&self, i: usize) -> &[u8]
        requires { i < length self.now.items }
        ensures value { slice_get self.now.items i ≡ Some result.now }
        ensures item { IsItem K.is_text result.now }
    {
        let (start, end) = self.offsets.start_end(i);
        &self.bytes.as_slice()[start..end]
    }
}

#[tactic(auto, using(crate::proofs::PieceLemmas::piece_reads, crate::proofs::PieceLemmas::piece_cuts))]
impl<K: ByteKind, O: Offset> StoredValues for ByteValues<K, O> {
    type Stored = Bytes;

    type Around = BytesAround;

    ghost stored = { λ values. values.items };

    ghost around = { λ values. values.around };

    #[inline(always)]
    fn count(&self) -> usize {
        self.offsets.len_proxy()
    }

    fn try_clone(&self) -> Result<Self, Error> {
        Ok(self.clone()?)
    }
}

#[tactic(auto, using(crate::proofs::PieceLemmas::piece_reads, crate::proofs::PieceLemmas::piece_cuts))]
impl<K: ByteKind, O: Offset> Values for ByteValues<K, O> {
    ghost use Rattle.arrow_bytes.specs.Pieces.{Around, around_cut};
    ghost use Rattle.arrow_bytes.specs.Cuts.{around-twice};

    ghost cut_around = { around_cut };

    #[inline(always)]
    fn cut(&mut self, offset: usize, len: usize) {
        // As many offsets are dropped as items.
        let dropped = self.offsets.len_proxy() - len;
        let kept = self.offsets.buffer().len() - dropped;
        self.offsets.slice(offset, kept);
    }

    ghost cut_twice = { around-twice };
}
