//! The iterators over arrays and builders of bytes, whose items are `&[u8]`.
ghost use Rattle.std.specs.Prelude.{◌≡◌, take, drop};
ghost use Rattle.arrow_column.specs.Column.{FitsCut, slots_of, stored_values};
ghost use Rattle.arrow_check.specs.Items.{IsWithin, rest_of};

use crate::{ByteArray, ByteItems, MutableByteArray, MutableByteValuesArray};
use arrow_bytes::Binary;
use arrow_check::accessor::Bytes;
use arrow_check::values_iter::ArrayValuesIter;
use arrow_memory::bitmap::BitmapIter;
use arrow_memory::list_iter::ListIter;
use arrow_memory::zip_validity::ZipValidity;
use arrow_types::offset::Offset;

impl<'a, O: Offset> ListIter for ByteItems<'a, ByteArray<Binary, O>> {
    ghost use Rattle.arrow_column.specs.Column.{stored_values};
    ghost use Rattle.arrow_check.specs.Items.{IsWithin, rest_of};

    type Item = &'a [u8];

    type Seen = Bytes;

    ghost seen = { λ item. item.now };

    ghost rest = { λ left. rest_of stored_values left.items };

    ghost can_take = { λ left. IsWithin stored_values left.items };

    #[inline(always)]
    fn take_first(&mut self) -> Option<&'a [u8]> {
        self.items.next()
    }

    #[inline(always)]
    fn take_last(&mut self) -> Option<&'a [u8]> {
        self.items.next_back()
    }

    #[inline(always)]
    fn count_left(&self) -> usize {
        self.items.len()
    }
}

impl<'a, O: Offset> ListIter for ByteItems<'a, MutableByteArray<Binary, O>> {
    ghost use Rattle.arrow_column.specs.Column.{stored_values};
    ghost use Rattle.arrow_check.specs.Items.{IsWithin, rest_of};

    type Item = &'a [u8];

    type Seen = Bytes;

    ghost seen = { λ item. item.now };

    ghost rest = { λ left. rest_of stored_values left.items };

    ghost can_take = { λ left. IsWithin stored_values left.items };

    #[inline(always)]
    fn take_first(&mut self) -> Option<&'a [u8]> {
        self.items.next()
    }

    #[inline(always)]
    fn take_last(&mut self) -> Option<&'a [u8]> {
        self.items.next_back()
    }

    #[inline(always)]
    fn count_left(&self) -> usize {
        self.items.len()
    }
}

impl<O: Offset> ByteArray<Binary, O> {
    /// Returns an iterator over the slots.
    #[inline(always)]
    pub fn iter(&self) -> ZipValidity<ByteItems<'_, ByteArray<Binary, O>>, BitmapIter<'_>>
        ensures { result ≡ slots_of self.now }
    {
        let items = ArrayValuesIter::new(self);
        ZipValidity::new(ByteItems { items }, self.column.marks())
    }

    /// Returns an iterator over the items that slots store, those of null slots included.
    #[inline(always)]
    pub fn values_iter(&self) -> ArrayValuesIter<'_, ByteArray<Binary, O>>
        ensures within { IsWithin stored_values result }
        ensures all { rest_of stored_values result ≡ stored_values self.now }
    {
        ArrayValuesIter::new(self)
    }

    /// Returns an iterator over the `len` slots from `offset` on.
    #[inline(always)]
    pub fn iter_range(
        &self,
        offset: usize,
        len: usize,
    ) -> ZipValidity<ByteItems<'_, ByteArray<Binary, O>>, BitmapIter<'_>>
        requires { FitsCut self.now offset len }
        ensures { result ≡ take len (drop offset (slots_of self.now)) }
    {
        let items = self.values_iter_range(offset, len);
        ZipValidity::new(ByteItems { items }, self.column.marks_range(offset, len))
    }

    /// Returns an iterator over the items that the `len` slots from `offset` on store, those of
    /// null slots included.
    #[inline(always)]
    pub fn values_iter_range(
        &self,
        offset: usize,
        len: usize,
    ) -> ArrayValuesIter<'_, ByteArray<Binary, O>>
        requires { FitsCut self.now offset len }
        ensures within { IsWithin stored_values result }
        ensures all { rest_of stored_values result ≡ take len (drop offset (stored_values self.now)) }
    {
        ArrayValuesIter::new_range(self, offset, len)
    }
}

impl<O: Offset> MutableByteArray<Binary, O> {
    /// Returns an iterator over the slots.
    #[inline(always)]
    pub fn iter(&self) -> ZipValidity<ByteItems<'_, MutableByteArray<Binary, O>>, BitmapIter<'_>>
        ensures { result ≡ slots_of self.now }
    {
        let items = ArrayValuesIter::new(self);
        ZipValidity::new(ByteItems { items }, self.column.marks())
    }

    /// Returns an iterator over the items that slots store, those of null slots included.
    #[inline(always)]
    pub fn values_iter(&self) -> ArrayValuesIter<'_, MutableByteArray<Binary, O>>
        ensures within { IsWithin stored_values result }
        ensures all { rest_of stored_values result ≡ stored_values self.now }
    {
        ArrayValuesIter::new(self)
    }
}

impl<O: Offset> MutableByteValuesArray<Binary, O> {
    /// Returns an iterator over the items.
    #[inline(always)]
    pub fn iter(&self) -> ArrayValuesIter<'_, MutableByteValuesArray<Binary, O>>
        ensures within { IsWithin stored_values result }
        ensures all { rest_of stored_values result ≡ stored_values self.now }
    {
        ArrayValuesIter::new(self)
    }
}

impl<'a, O: Offset> IntoIterator for &'a ByteArray<Binary, O> {
    ghost use Rattle.arrow_column.specs.Column.{slots_of};

    type Item = Option<&'a [u8]>;

    type IntoIter = ZipValidity<ByteItems<'a, ByteArray<Binary, O>>, BitmapIter<'a>>;

    ghost into_iter_gives = { λ array slots. slots ≡ slots_of array.now };

    #[inline(always)]
    fn into_iter(self) -> ZipValidity<ByteItems<'a, ByteArray<Binary, O>>, BitmapIter<'a>> {
        self.iter()
    }
}

impl<'a, O: Offset> IntoIterator for &'a MutableByteArray<Binary, O> {
    ghost use Rattle.arrow_column.specs.Column.{slots_of};

    type Item = Option<&'a [u8]>;

    type IntoIter = ZipValidity<ByteItems<'a, MutableByteArray<Binary, O>>, BitmapIter<'a>>;

    ghost into_iter_gives = { λ builder slots. slots ≡ slots_of builder.now };

    #[inline(always)]
    fn into_iter(self) -> ZipValidity<ByteItems<'a, MutableByteArray<Binary, O>>, BitmapIter<'a>> {
        self.iter()
    }
}

impl<'a, O: Offset> IntoIterator for &'a MutableByteValuesArray<Binary, O> {
    ghost use Rattle.arrow_column.specs.Column.{stored_values};
    ghost use Rattle.arrow_check.specs.Items.{IsWithin, rest_of};

    type Item = &'a [u8];

    type IntoIter = ArrayValuesIter<'a, MutableByteValuesArray<Binary, O>>;

    ghost into_iter_gives = { λ builder items. IsWithin stored_values items
        × (rest_of stored_values items ≡ stored_values builder.now) };

    #[inline(always)]
    fn into_iter(self) -> ArrayValuesIter<'a, MutableByteValuesArray<Binary, O>> {
        self.iter()
    }
}
