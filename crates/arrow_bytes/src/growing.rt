//! Growing lists of byte strings, as builders hold them: offsets, and bytes that end with the last.
ghost use Rattle.std.specs.Prelude.{◌≡◌, ◌<◌, ◌≤◌, ◌+◌, false, [], ◌∷◌, length, slice_get, Some, IfOk};
ghost use Rattle.std.specs.Prelude.{OnErr, OnOk};
ghost use Rattle.arrow_types.specs.Failures.{OnlyOutOfMemory};
ghost use Rattle.arrow_memory.specs.Changes.{cut_of};
ghost use Rattle.arrow_memory.specs.Offsets.{last_of, IsOffsets};
ghost use Rattle.arrow_check.specs.Pieces.{bytes_of, items_of, offsets_of};
ghost use Rattle.arrow_bytes.specs.Appends.{AppendsItems, AppendKeepsItems};
ghost use Rattle.arrow_bytes.specs.Kinds.{AreItems, IsItem};
ghost use Rattle.arrow_bytes.specs.Pieces.{append_items, bare_items, items_overflow, pieces_of};

use crate::around::BytesAround;
use crate::{ByteItem, ByteKind, ByteValues, ItemSlice};
use arrow_check::accessor::Bytes;
use arrow_column::{GrowFrom, MutableValues, PushValue, ReserveItems, StoredValues};
use arrow_memory::buffer::Buffer;
use arrow_memory::offset::Offsets;
use arrow_types::error::Error;
use arrow_types::offset::Offset;
use std::alloc::{AllocError, Global};
use std::marker::{Model, PhantomData};

/// The byte strings that a builder stores. Bytes may lie before the first of them; none lie after
/// the last.
#[derive(Drop)]
pub struct MutableByteValues<K: ByteKind, O: Offset> {
    pub(crate) offsets: Offsets<O>,
    pub(crate) bytes: Vec<u8>,
    pub(crate) kind: PhantomData<K>,
}

// Contracts see three pieces: the items, and what lies before and behind them.
impl<K: ByteKind, O: Offset> Model for MutableByteValues<K, O> {
    ghost use Rattle.arrow_bytes.specs.Kinds.{LegalEndItems};
    ghost use Rattle.arrow_bytes.specs.Pieces.{Pieces, pieces_of};

    ghost Value = { Pieces };

    ghost view = { λ values. pieces_of values.offsets values.bytes.items };

    ghost invariant = { λ values. LegalEndItems K.is_text values.offsets values.bytes.items };
}

#[tactic(auto, using(crate::proofs::PieceLemmas::piece_reads, crate::proofs::PieceLemmas::piece_growth, crate::proofs::KindLemmas::kind_growth, crate::proofs::PieceLemmas::one_item))]
impl<K: ByteKind, O: Offset> MutableByteValues<K, O> {
    /// Creates the items between offsets of bytes that end at the last offset.
    #[inline(always)]
    pub fn new(offsets: Offsets<O>, bytes: Vec<u8>) -> Self
        requires ends { last_of offsets ≡ length bytes.items }
        requires items { AreItems K.is_text (items_of offsets bytes.items) }
        ensures { result ≡ pieces_of offsets bytes.items }
    {
        // The offsets themselves tell that they are legal.
        offsets.first();
        MutableByteValues {
            offsets,
            bytes,
            kind: PhantomData,
        }
    }

    /// Creates a list of no items with room for at least `capacity` items and `values` bytes.
    ///
    /// # Errors
    /// `OutOfMemory` if an allocation fails.
    pub fn with_capacities(alloc: Global, capacity: usize, values: usize) -> Result<Self, Error>
        ensures ok { IfOk result (λ values. values ≡ bare_items []) }
        ensures err { OnlyOutOfMemory result }
    {
        let offsets = Offsets::with_capacity(alloc, capacity)?;
        let bytes = Vec::with_capacity(alloc, values)?;
        Ok(MutableByteValues {
            offsets,
            bytes,
            kind: PhantomData,
        })
    }

    /// Returns the offsets and all bytes.
    #[inline(always)]
    pub fn into_inner(self) -> (Offsets<O>, Vec<u8>)
        ensures offsets { result.0 ≡ offsets_of (length self.around.lead) self.items }
        ensures bytes { result.1.items ≡ bytes_of self.around.lead self.items self.around.tail }
        ensures pieces { pieces_of result.0 result.1.items ≡ self }
        ensures ends { last_of result.0 ≡ length result.1.items }
        ensures items { AreItems K.is_text (items_of result.0 result.1.items) }
    {
        (self.offsets, self.bytes)
    }

    /// Returns the offsets.
    #[inline(always)]
    pub fn offsets(&self) -> &Offsets<O>
        ensures { result.now ≡ offsets_of (length self.now.around.lead) self.now.items }
    {
        &self.offsets
    }

    /// Returns all bytes, including those before the first item.
    #[inline(always)]
    pub fn bytes(&self) -> &Vec<u8>
        ensures value { result.now.items ≡ bytes_of self.now.around.lead self.now.items self.now.around.tail }
        ensures tail { self.now.around.tail ≡ [] }
        ensures items { AreItems K.is_text self.now.items }
    {
        &self.bytes
    }

    /// Returns the number of items.
    #[inline(always)]
    pub fn len(&self) -> usize
        ensures { result ≡ length self.now.items }
    {
        self.offsets.len_proxy()
    }

    /// Returns the item at `i`.
    #[inline(always)]
    pub fn value(&self, i: usize) -> &[u8]
        requires { i < length self.now.items }
        ensures value { slice_get self.now.items i ≡ Some result.now }
        ensures item { IsItem K.is_text result.now }
    {
        let (start, end) = self.offsets.start_end(i);
        &self.bytes.as_slice()[start..end]
    }

    /// Appends the bytes of an item.
    ///
    /// # Errors
    /// - `Overflow` if the item would end above the greatest offset; this is checked before memory
    ///   is allocated.
    /// - `OutOfMemory` if an allocation fails.
    ///
    /// The items are unchanged on an error.
    #[inline(always)]
    pub fn push_item(&mut self, item: &[u8]) -> Result<(), Error>
        requires { IsItem K.is_text item.now }
        ensures ok { AppendsItems result O.most self.old (item.now ∷ []) self.new }
        ensures err { AppendKeepsItems result O.most self.old (item.now ∷ []) self.new }
    {
        self.offsets.try_push_item(&mut self.bytes, item)
    }

    /// Appends `count` items of others, from item `first` on. Their bytes are copied at once.
    ///
    /// # Errors
    /// As [`MutableByteValues::push_item`], of the last of the items.
    #[inline(always)]
    pub fn push_items(
        &mut self,
        items: &ItemSlice<'_, K, O>,
        first: usize,
        count: usize,
    ) -> Result<(), Error>
        requires { first + count ≤ length items.now }
        ensures ok { AppendsItems result O.most self.old (cut_of first count items.now) self.new }
        ensures err { AppendKeepsItems result O.most self.old (cut_of first count items.now) self.new }
    {
        // So many slots are counted, so the sum of `first` and `count` can't overflow.
        items.offsets.len_proxy();
        let slots = first..first + count;
        self.offsets
            .try_extend_slots(&mut self.bytes, items.offsets, items.bytes, slots)
    }

    /// Appends the bytes of an item that does not end above the greatest offset.
    ///
    /// # Errors
    /// `AllocError` if an allocation fails; the items are then unchanged.
    #[inline(always)]
    pub fn push_fitting_item(&mut self, item: &[u8]) -> Result<(), AllocError>
        requires item { IsItem K.is_text item.now }
        requires fits { items_overflow O.most self.old (item.now ∷ []) ≡ false }
        ensures ok { OnOk result (self.new ≡ append_items self.old (item.now ∷ [])) }
        ensures err { OnErr result (self.new ≡ self.old) }
    {
        match self.push_item(item) {
            Ok(()) => Ok(()),
            // The item does not overflow, so an allocation failed.
            Err(_) => Err(AllocError),
        }
    }

    /// Appends `count` items of others, from item `first` on, which do not end above the greatest offset. Their bytes
    /// are copied at once.
    ///
    /// # Errors
    /// `AllocError` if an allocation fails; the items are then unchanged.
    #[inline(always)]
    pub fn push_fitting_items(
        &mut self,
        items: &ItemSlice<'_, K, O>,
        first: usize,
        count: usize,
    ) -> Result<(), AllocError>
        requires within { first + count ≤ length items.now }
        requires fits { items_overflow O.most self.old (cut_of first count items.now) ≡ false }
        ensures ok { OnOk result (self.new ≡ append_items self.old (cut_of first count items.now)) }
        ensures err { OnErr result (self.new ≡ self.old) }
    {
        match self.push_items(items, first, count) {
            Ok(()) => Ok(()),
            // The items do not overflow, so an allocation failed.
            Err(_) => Err(AllocError),
        }
    }

    /// Returns the number of items for whose offsets there is room; their bytes may have less.
    pub fn capacity(&self) -> usize
        ensures { length self.now.items ≤ result }
    {
        self.offsets.capacity()
    }

    /// Converts the items into immutable ones without copying bytes.
    ///
    /// # Errors
    /// `OutOfMemory` if an allocation fails; the items are then dropped.
    pub fn freeze(self) -> Result<ByteValues<K, O>, Error>
        ensures ok { IfOk result (λ frozen. frozen ≡ self) }
        ensures err { OnlyOutOfMemory result }
    {
        let MutableByteValues { offsets, bytes, .. } = self;
        let offsets = offsets.freeze()?;
        let bytes = Buffer::from_vec(bytes)?;
        Ok(ByteValues {
            offsets,
            bytes,
            kind: PhantomData,
        })
    }
}

#[tactic(auto, using(crate::proofs::PieceLemmas::piece_reads, crate::proofs::PieceLemmas::piece_growth, crate::proofs::KindLemmas::kind_growth, crate::proofs::PieceLemmas::piece_joins, crate::proofs::KindLemmas::kind_joins))]
impl<K: ByteKind, O: Offset> StoredValues for MutableByteValues<K, O> {
    type Stored = Bytes;

    type Around = BytesAround;

    ghost stored = { λ values. values.items };

    ghost around = { λ values. values.around };

    #[inline(always)]
    fn count(&self) -> usize {
        self.offsets.len_proxy()
    }

    fn try_clone(&self) -> Result<Self, Error> {
        let offsets = self.offsets.clone()?;
        let bytes = Vec::from_slice(*self.bytes.allocator(), &self.bytes)?;
        Ok(MutableByteValues {
            offsets,
            bytes,
            kind: PhantomData,
        })
    }
}

#[tactic(auto, using(crate::proofs::PieceLemmas::piece_reads, crate::proofs::PieceLemmas::piece_growth, crate::proofs::KindLemmas::kind_growth, crate::proofs::PieceLemmas::piece_joins, crate::proofs::KindLemmas::kind_joins))]
impl<K: ByteKind, O: Offset> MutableValues for MutableByteValues<K, O> {
    ghost use Rattle.std.specs.Prelude.{[], length};
    ghost use Rattle.std.specs.List.{concat};
    ghost use Rattle.arrow_bytes.specs.Pieces.{overflows_by};

    ghost default = { [] };

    #[inline(always)]
    fn allocated_by(&self) -> Global {
        *self.bytes.allocator()
    }

    #[inline(always)]
    fn push_default(&mut self) -> Result<(), Error> {
        self.offsets.push_empty()
    }

    // A call, so that a loop of appends, which comes here where memory is refused, stays small enough for the compiler
    // to follow.
    #[inline(never)]
    fn keep_first(&mut self, len: usize) {
        self.offsets.truncate(len);
        self.bytes.truncate(self.offsets.last().to_usize());
    }

    #[inline(always)]
    fn drop_last(&mut self) {
        self.offsets.truncate(self.offsets.len_proxy() - 1);
        let end = self.offsets.last().to_usize();
        self.bytes.truncate(end);
    }

    ghost join_overflows = { λ around items others. overflows_by O.most around items (length (concat others)) };

    fn append(&mut self, other: &Self) -> Result<(), Error> {
        self.offsets
            .try_extend_items(&mut self.bytes, &other.offsets, &other.bytes)
    }

    fn make_room(&mut self, additional: usize) -> Result<(), Error> {
        self.offsets.reserve(additional)
    }

    fn drop_room(&mut self) -> Result<(), Error> {
        self.offsets.shrink_to_fit()?;
        self.bytes.shrink_to_fit();
        Ok(())
    }
}

impl<K: ByteKind, O: Offset> GrowFrom<ByteValues<K, O>> for MutableByteValues<K, O> {
    fn grow_from(
        &mut self,
        other: &ByteValues<K, O>,
        offset: usize,
        len: usize,
    ) -> Result<(), Error> {
        self.push_items(&other.as_slice(), offset, len)
    }
}

#[tactic(auto, using(crate::proofs::PieceLemmas::one_item))]
impl<K: ByteKind, X: ByteItem<K>, O: Offset> PushValue<X> for MutableByteValues<K, O> {
    ghost use Rattle.arrow_bytes.specs.Column.{item_overflows};

    ghost shown = { X.bytes };

    ghost overflows = { item_overflows X.bytes O.most };

    #[inline(always)]
    fn push_value(&mut self, value: X) -> Result<(), Error> {
        self.push_item(value.bytes())
    }
}

#[tactic(auto, using(crate::proofs::PieceLemmas::piece_reads))]
impl<K: ByteKind, O: Offset> ReserveItems for MutableByteValues<K, O> {
    fn make_room_of(&mut self, additional: usize, bytes: usize) -> Result<(), Error> {
        self.offsets.reserve(additional)?;
        self.bytes.reserve(bytes)?;
        Ok(())
    }
}
