//! Iterators over arrays and builders, and over a range of an array, which makes no array of its own.
ghost use Rattle.std.specs.Prelude.{◌≡◌, take, drop};
ghost use Rattle.std.specs.Slice.Iter.{iter_rest};
ghost use Rattle.arrow_column.specs.Column.{FitsCut, slots_of, stored_values};

use crate::{MutablePrimitiveArray, PrimitiveArray};
use arrow_memory::bitmap::{BitmapIntoIter, BitmapIter};
use arrow_memory::buffer::BufferIntoIter;
use arrow_memory::zip_validity::ZipValidity;
use arrow_types::native_type::NativeType;
use std::slice::Iter;

impl<T: NativeType> PrimitiveArray<T> {
    /// Returns an iterator over the slots.
    #[inline(always)]
    pub fn iter(&self) -> ZipValidity<Iter<'_, T>, BitmapIter<'_>>
        ensures { result ≡ slots_of self.now }
    {
        ZipValidity::new(self.column.values().as_slice().iter(), self.column.marks())
    }

    /// Returns an iterator over the `len` slots from `offset` on.
    #[inline(always)]
    pub fn iter_range(&self, offset: usize, len: usize) -> ZipValidity<Iter<'_, T>, BitmapIter<'_>>
        requires { FitsCut self.now offset len }
        ensures { result ≡ take len (drop offset (slots_of self.now)) }
    {
        let values = &self.column.values().as_slice()[offset..offset + len];
        ZipValidity::new(values.iter(), self.column.marks_range(offset, len))
    }

    /// Returns an iterator over the stored values, those of null slots included.
    #[inline(always)]
    pub fn values_iter(&self) -> Iter<'_, T>
        ensures { iter_rest result ≡ stored_values self.now }
    {
        self.column.values().as_slice().iter()
    }
}

impl<T: NativeType> MutablePrimitiveArray<T> {
    /// Returns an iterator over the slots.
    #[inline(always)]
    pub fn iter(&self) -> ZipValidity<Iter<'_, T>, BitmapIter<'_>>
        ensures { result ≡ slots_of self.now }
    {
        ZipValidity::new(self.column.values().iter(), self.column.marks())
    }

    /// Returns an iterator over the stored values, those of null slots included.
    #[inline(always)]
    pub fn values_iter(&self) -> Iter<'_, T>
        ensures { iter_rest result ≡ stored_values self.now }
    {
        self.column.values().iter()
    }
}

impl<T: NativeType> IntoIterator for PrimitiveArray<T> {
    type Item = Option<T>;

    type IntoIter = ZipValidity<BufferIntoIter<T>, BitmapIntoIter>;

    ghost into_iter_gives = { λ array slots. slots ≡ slots_of array };

    fn into_iter(self) -> ZipValidity<BufferIntoIter<T>, BitmapIntoIter> {
        let (_, values, validity) = self.column.into_inner();
        let marks = match validity {
            None => None,
            Some(validity) => Some(validity.into_iter()),
        };
        ZipValidity::new(values.into_iter(), marks)
    }
}

impl<'a, T: NativeType> IntoIterator for &'a PrimitiveArray<T> {
    type Item = Option<&'a T>;

    type IntoIter = ZipValidity<Iter<'a, T>, BitmapIter<'a>>;

    ghost into_iter_gives = { λ array slots. slots ≡ slots_of array.now };

    #[inline(always)]
    fn into_iter(self) -> ZipValidity<Iter<'a, T>, BitmapIter<'a>> {
        self.iter()
    }
}
