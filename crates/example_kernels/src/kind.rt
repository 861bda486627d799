//! Kinds of arrays, and how they are read.
ghost use Rattle.std.specs.Prelude.{◌≡◌, ◌-◌, ◌≤◌, IfSome, length};

use crate::items::Width;
use crate::read::{Value, booleans, bytes, numbers, texts};
use dethrugn::array::{BinaryArray, BooleanArray, PrimitiveArray, Utf8Array};
use dethrugn::bitmap::Bitmap;
use dethrugn::compute::comparison::equal::EqualArray;
use dethrugn::error::Error;
use std::alloc::Global;
use std::fmt::Debug;

/// An array that a line can have.
pub trait Kind: EqualArray + Debug + Drop {
    /// Reads what slots store.
    ///
    /// # Errors
    /// `OutOfMemory` if an allocation fails.
    fn read(alloc: Global, slots: &str) -> Result<Self, Error>;

    /// Returns up to `length` slots from `offset` on, with a mask of all slots.
    fn cut(self, mask: Option<Bitmap>, offset: usize, length: usize) -> Self;
}

/// Returns a mask if it has a mark for each slot.
fn fitting_mask(mask: Option<Bitmap>, slots: usize) -> Option<Bitmap>
    ensures { IfSome result (λ marks. length marks ≡ slots) }
{
    match mask {
        Some(mask) if mask.len() == slots => Some(mask),
        _ => None,
    }
}

/// Returns the offset and the length of a slice, within the bounds.
fn within(slots: usize, offset: usize, length: usize) -> (usize, usize)
    ensures offset { result.0 ≤ slots }
    ensures length { result.1 ≤ slots - result.0 }
{
    let offset = offset.min(slots);
    (offset, length.min(slots - offset))
}

impl<T: Value> Kind for PrimitiveArray<T> {
    fn read(alloc: Global, slots: &str) -> Result<Self, Error> {
        numbers(alloc, slots)
    }

    fn cut(self, mask: Option<Bitmap>, offset: usize, length: usize) -> Self {
        let mask = fitting_mask(mask, self.len());
        let array = self.with_validity(mask);
        let (offset, length) = within(array.len(), offset, length);
        array.sliced(offset, length)
    }
}

impl Kind for BooleanArray {
    fn read(alloc: Global, slots: &str) -> Result<Self, Error> {
        booleans(alloc, slots)
    }

    fn cut(self, mask: Option<Bitmap>, offset: usize, length: usize) -> Self {
        let mask = fitting_mask(mask, self.len());
        let array = self.with_validity(mask);
        let (offset, length) = within(array.len(), offset, length);
        array.sliced(offset, length)
    }
}

impl<O: Width> Kind for BinaryArray<O> {
    fn read(alloc: Global, slots: &str) -> Result<Self, Error> {
        bytes(alloc, slots)
    }

    fn cut(self, mask: Option<Bitmap>, offset: usize, length: usize) -> Self {
        let mask = fitting_mask(mask, self.len());
        let array = self.with_validity(mask);
        let (offset, length) = within(array.len(), offset, length);
        array.sliced(offset, length)
    }
}

impl<O: Width> Kind for Utf8Array<O> {
    fn read(alloc: Global, slots: &str) -> Result<Self, Error> {
        texts(alloc, slots)
    }

    fn cut(self, mask: Option<Bitmap>, offset: usize, length: usize) -> Self {
        let mask = fitting_mask(mask, self.len());
        let array = self.with_validity(mask);
        let (offset, length) = within(array.len(), offset, length);
        array.sliced(offset, length)
    }
}
