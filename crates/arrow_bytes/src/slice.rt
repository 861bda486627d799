//! Borrowed lists of byte strings, by which kernels read items without an array.
ghost use Rattle.std.specs.Prelude.{◌≡◌, ◌<◌, ◌≤◌, length, slice_get, Some};
ghost use Rattle.std.specs.List.{concat};
ghost use Rattle.arrow_bytes.specs.Kinds.{IsItem};

use crate::ByteKind;
use arrow_memory::offset::OffsetsBuffer;
use arrow_types::offset::Offset;
use std::marker::{Model, PhantomData};

/// Items that are borrowed from [`ByteValues`](crate::ByteValues). A loop reads them here without following the owners
/// of their memory.
#[derive(Drop)]
pub struct ItemSlice<'a, K: ByteKind, O: Offset> {
    pub(crate) offsets: &'a OffsetsBuffer<O>,
    pub(crate) bytes: &'a [u8],
    pub(crate) kind: PhantomData<K>,
}

// Contracts see the items.
impl<'a, K: ByteKind, O: Offset> Model for ItemSlice<'a, K, O> {
    ghost use Rattle.std.specs.Prelude.{List, ℕ};
    ghost use Rattle.arrow_bytes.specs.Kinds.{LegalItems};
    ghost use Rattle.arrow_check.specs.Pieces.{items_of};

    ghost Value = { List (List ℕ) };

    ghost view = { λ items. items_of items.offsets.now items.bytes.now };

    ghost invariant = { λ items. LegalItems K.is_text items.offsets.now items.bytes.now };
}

#[tactic(auto, using(crate::proofs::PieceLemmas::piece_reads, crate::proofs::PieceLemmas::piece_window))]
impl<'a, K: ByteKind, O: Offset> ItemSlice<'a, K, O> {
    /// Returns the number of items.
    #[inline(always)]
    pub fn count(&self) -> usize
        ensures { result ≡ length self.now }
    {
        self.offsets.len_proxy()
    }

    /// Returns the number of bytes of all items.
    #[inline(always)]
    pub fn byte_count(&self) -> usize
        ensures count { result ≡ length (concat self.now) }
        ensures within { result ≤ O.most }
    {
        let end = self.offsets.last().to_usize();
        end - self.offsets.first().to_usize()
    }

    /// Returns the item at `i`.
    #[inline(always)]
    pub fn value(&self, i: usize) -> &[u8]
        requires { i < length self.now }
        ensures value { slice_get self.now i ≡ Some result.now }
        ensures item { IsItem K.is_text result.now }
    {
        let (start, end) = self.offsets.start_end(i);
        &self.bytes[start..end]
    }
}
