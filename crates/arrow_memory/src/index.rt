//! Values of a buffer by index, as `buffer[i]`. That the index is in bounds is a condition.
ghost use Rattle.std.specs.Prelude.{◌<◌, length, slice_get, Some};

use crate::buffer::Buffer;
use std::ops::Index;

impl<T: Drop> Index<usize> for Buffer<T> {
    ghost use Rattle.std.specs.Prelude.{◌≡◌, ◌<◌, length, slice_get, Some};

    type Output = T;

    ghost can_index = { λ buffer i. i < length buffer };

    ghost index_gives = { λ buffer i value. slice_get buffer i ≡ Some value };

    #[inline(always)]
    fn index(&self, index: usize) -> &T {
        &self.as_slice()[index]
    }
}
