//! Iterators over arrays and builders, and over a range of an array, which makes no array of its own.
ghost use Rattle.std.specs.Prelude.{◌≡◌, take, drop};
ghost use Rattle.arrow_column.specs.Column.{FitsCut, slots_of, stored_values};

use crate::{BooleanArray, MutableBooleanArray};
use arrow_memory::bitmap::{BitmapIntoIter, BitmapIter};
use arrow_memory::zip_validity::ZipValidity;

impl BooleanArray {
    /// Returns an iterator over the slots.
    #[inline(always)]
    pub fn iter(&self) -> ZipValidity<BitmapIter<'_>, BitmapIter<'_>>
        ensures { result ≡ slots_of self.now }
    {
        ZipValidity::new(self.column.values().iter(), self.column.marks())
    }

    /// Returns an iterator over the `len` slots from `offset` on.
    #[inline(always)]
    pub fn iter_range(
        &self,
        offset: usize,
        len: usize,
    ) -> ZipValidity<BitmapIter<'_>, BitmapIter<'_>>
        requires { FitsCut self.now offset len }
        ensures { result ≡ take len (drop offset (slots_of self.now)) }
    {
        let values = self.column.values().iter_range(offset, len);
        ZipValidity::new(values, self.column.marks_range(offset, len))
    }

    /// Returns an iterator over the stored values, those of null slots included.
    #[inline(always)]
    pub fn values_iter(&self) -> BitmapIter<'_>
        ensures { result ≡ stored_values self.now }
    {
        self.column.values().iter()
    }
}

impl MutableBooleanArray {
    /// Returns an iterator over the slots.
    #[inline(always)]
    pub fn iter(&self) -> ZipValidity<BitmapIter<'_>, BitmapIter<'_>>
        ensures { result ≡ slots_of self.now }
    {
        ZipValidity::new(self.column.values().iter(), self.column.marks())
    }

    /// Returns an iterator over the stored values, those of null slots included.
    #[inline(always)]
    pub fn values_iter(&self) -> BitmapIter<'_>
        ensures { result ≡ stored_values self.now }
    {
        self.column.values().iter()
    }
}

impl IntoIterator for BooleanArray {
    type Item = Option<bool>;

    type IntoIter = ZipValidity<BitmapIntoIter, BitmapIntoIter>;

    ghost into_iter_gives = { λ array slots. slots ≡ slots_of array };

    fn into_iter(self) -> ZipValidity<BitmapIntoIter, BitmapIntoIter> {
        let (_, values, validity) = self.column.into_inner();
        let marks = match validity {
            None => None,
            Some(validity) => Some(validity.into_iter()),
        };
        ZipValidity::new(values.into_iter(), marks)
    }
}

impl<'a> IntoIterator for &'a BooleanArray {
    type Item = Option<bool>;

    type IntoIter = ZipValidity<BitmapIter<'a>, BitmapIter<'a>>;

    ghost into_iter_gives = { λ array slots. slots ≡ slots_of array.now };

    #[inline(always)]
    fn into_iter(self) -> ZipValidity<BitmapIter<'a>, BitmapIter<'a>> {
        self.iter()
    }
}

impl<'a> IntoIterator for &'a MutableBooleanArray {
    type Item = Option<bool>;

    type IntoIter = ZipValidity<BitmapIter<'a>, BitmapIter<'a>>;

    ghost into_iter_gives = { λ builder slots. slots ≡ slots_of builder.now };

    #[inline(always)]
    fn into_iter(self) -> ZipValidity<BitmapIter<'a>, BitmapIter<'a>> {
        self.iter()
    }
}
