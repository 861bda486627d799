//! The items of arrays and builders, borrowed as their kind has them: `&[u8]` or `&str`.
ghost use Rattle.std.specs.Prelude.{◌≡◌, ◌<◌, length, slice_get, Some, option_map};
ghost use Rattle.arrow_column.specs.Column.{slots_of, stored_values};
ghost use Rattle.arrow_bytes.specs.Appends.{PushesSlot, PushesItem, PushKeepsSlots, PushKeepsItems};

use crate::{ByteArray, MutableByteArray, MutableByteValuesArray};
use arrow_bytes::{BorrowItem, ByteItem};
use arrow_check::accessor::ArrayAccessor;
use arrow_check::values_iter::ArrayValuesIter;
use arrow_types::error::Error;
use arrow_types::offset::Offset;

/// A double-ended iterator over the items that the slots of an array or a builder store, as
/// `ZipValidity` takes it.
#[derive(Drop)]
pub struct ByteItems<'a, A> {
    pub(crate) items: ArrayValuesIter<'a, A>,
}

impl<'a, K: BorrowItem<'a>, O: Offset> ArrayAccessor<'a> for ByteArray<K, O> {
    ghost use Rattle.std.specs.Prelude.{◌≡◌, ◌<◌, List, ℕ, Some, length, slice_get};
    ghost use Rattle.arrow_column.specs.Column.{stored_values};

    type Item = K::Borrowed;

    ghost Seen = { List ℕ };

    ghost seen = { K.Borrowed.bytes };

    ghost items = { stored_values };

    #[inline(always)]
    fn value(&'a self, index: usize) -> K::Borrowed
        requires { index < length (stored_values self.now) }
        ensures { slice_get (stored_values self.now) index ≡ Some (K.Borrowed.bytes result) }
    {
        K::borrow_item(self.column.values().value(index))
    }

    #[inline(always)]
    fn len(&self) -> usize
        ensures { result ≡ length (stored_values self.now) }
    {
        self.column.values().len()
    }
}

impl<'a, K: BorrowItem<'a>, O: Offset> ArrayAccessor<'a> for MutableByteArray<K, O> {
    ghost use Rattle.std.specs.Prelude.{◌≡◌, ◌<◌, List, ℕ, Some, length, slice_get};
    ghost use Rattle.arrow_column.specs.Column.{stored_values};

    type Item = K::Borrowed;

    ghost Seen = { List ℕ };

    ghost seen = { K.Borrowed.bytes };

    ghost items = { stored_values };

    #[inline(always)]
    fn value(&'a self, index: usize) -> K::Borrowed
        requires { index < length (stored_values self.now) }
        ensures { slice_get (stored_values self.now) index ≡ Some (K.Borrowed.bytes result) }
    {
        K::borrow_item(self.column.values().value(index))
    }

    #[inline(always)]
    fn len(&self) -> usize
        ensures { result ≡ length (stored_values self.now) }
    {
        self.column.values().len()
    }
}

impl<'a, K: BorrowItem<'a>, O: Offset> ArrayAccessor<'a> for MutableByteValuesArray<K, O> {
    ghost use Rattle.std.specs.Prelude.{◌≡◌, ◌<◌, List, ℕ, Some, length, slice_get};
    ghost use Rattle.arrow_column.specs.Column.{stored_values};

    type Item = K::Borrowed;

    ghost Seen = { List ℕ };

    ghost seen = { K.Borrowed.bytes };

    ghost items = { stored_values };

    #[inline(always)]
    fn value(&'a self, index: usize) -> K::Borrowed
        requires { index < length (stored_values self.now) }
        ensures { slice_get (stored_values self.now) index ≡ Some (K.Borrowed.bytes result) }
    {
        K::borrow_item(self.column.values().value(index))
    }

    #[inline(always)]
    fn len(&self) -> usize
        ensures { result ≡ length (stored_values self.now) }
    {
        self.column.values().len()
    }
}

impl<'a, K: BorrowItem<'a>, O: Offset> ByteArray<K, O> {
    /// Returns the item stored at `i`, also if the slot is null.
    #[inline(always)]
    pub fn value(&'a self, i: usize) -> K::Borrowed
        requires { i < length self.now.rows }
        ensures { slice_get (stored_values self.now) i ≡ Some (K.Borrowed.bytes result) }
    {
        K::borrow_item(self.column.values().value(i))
    }

    /// Returns the slot at `i`: its item, or `None` if it is null.
    #[inline(always)]
    pub fn get(&'a self, i: usize) -> Option<K::Borrowed>
        requires { i < length self.now.rows }
        ensures { slice_get (slots_of self.now) i ≡ Some (option_map K.Borrowed.bytes result) }
    {
        if self.column.is_null(i) {
            return None;
        }
        Some(self.value(i))
    }
}

impl<'a, K: BorrowItem<'a>, O: Offset> MutableByteArray<K, O> {
    /// Returns the item stored at `i`, also if the slot is null.
    #[inline(always)]
    pub fn value(&'a self, i: usize) -> K::Borrowed
        requires { i < length self.now.rows }
        ensures { slice_get (stored_values self.now) i ≡ Some (K.Borrowed.bytes result) }
    {
        K::borrow_item(self.column.values().value(i))
    }

    /// Returns the slot at `i`: its item, or `None` if it is null.
    #[inline(always)]
    pub fn get(&'a self, i: usize) -> Option<K::Borrowed>
        requires { i < length self.now.rows }
        ensures { slice_get (slots_of self.now) i ≡ Some (option_map K.Borrowed.bytes result) }
    {
        if self.column.is_null(i) {
            return None;
        }
        Some(self.value(i))
    }

    /// Appends a slot. A null stores no byte, and the builder holds a mask from then on.
    ///
    /// # Errors
    /// - `Overflow` if the bytes would end past the greatest offset; this is checked first.
    /// - `OutOfMemory` if an allocation fails.
    ///
    /// The builder is unchanged on an error.
    #[inline(always)]
    pub fn push(&mut self, value: Option<K::Borrowed>) -> Result<(), Error>
        ensures ok { PushesSlot K.Borrowed.bytes O.most result self.old value self.new }
        ensures err { PushKeepsSlots K.Borrowed.bytes O.most result self.old value self.new }
    {
        self.column.push(value)
    }

    /// Appends a slot, as `push`.
    ///
    /// # Errors
    /// As `push`.
    #[inline(always)]
    pub fn try_push(&mut self, value: Option<K::Borrowed>) -> Result<(), Error>
        ensures ok { PushesSlot K.Borrowed.bytes O.most result self.old value self.new }
        ensures err { PushKeepsSlots K.Borrowed.bytes O.most result self.old value self.new }
    {
        // Not by `push`: a call by a bound that names a lifetime gets no proof beside the `'static` text of `Error`.
        self.column.push::<K::Borrowed>(value)
    }
}

impl<'a, K: BorrowItem<'a>, O: Offset> MutableByteValuesArray<K, O> {
    /// Returns the item at `i`.
    #[inline(always)]
    pub fn value(&'a self, i: usize) -> K::Borrowed
        requires { i < length self.now.rows }
        ensures { slice_get (stored_values self.now) i ≡ Some (K.Borrowed.bytes result) }
    {
        K::borrow_item(self.column.values().value(i))
    }

    /// Appends an item.
    ///
    /// # Errors
    /// - `Overflow` if the bytes would end past the greatest offset; this is checked first.
    /// - `OutOfMemory` if an allocation fails.
    ///
    /// The builder is unchanged on an error.
    #[inline(always)]
    pub fn push(&mut self, value: K::Borrowed) -> Result<(), Error>
        ensures ok { PushesItem K.Borrowed.bytes O.most result self.old value self.new }
        ensures err { PushKeepsItems K.Borrowed.bytes O.most result self.old value self.new }
    {
        self.column.push_unmasked(value)
    }

    /// Appends an item, as `push`.
    ///
    /// # Errors
    /// As `push`.
    #[inline(always)]
    pub fn try_push(&mut self, value: K::Borrowed) -> Result<(), Error>
        ensures ok { PushesItem K.Borrowed.bytes O.most result self.old value self.new }
        ensures err { PushKeepsItems K.Borrowed.bytes O.most result self.old value self.new }
    {
        // Not by `push`, for the same reason as above.
        self.column.push_unmasked(value)
    }
}
