//! Comparison of stored byte strings at a place, by which arrays and builders of bytes and text are compared.
use crate::{ByteKind, ByteValues, MutableByteValues};
use arrow_column::{EqualValues, Mask};
use arrow_types::offset::Offset;

impl<K: ByteKind, O: Offset, M: Mask> EqualValues<M> for ByteValues<K, O> {
    ghost use Rattle.arrow_memory.specs.NumberEquality.{same_numbers, same_numbers-Decides};

    ghost test = { same_numbers };

    #[inline(always)]
    fn is_same_at(&self, other: &Self, i: usize) -> bool {
        self.value(i) == other.value(i)
    }

    ghost test_decides = { same_numbers-Decides };
}

impl<K: ByteKind, O: Offset, M: Mask> EqualValues<M> for MutableByteValues<K, O> {
    ghost use Rattle.arrow_memory.specs.NumberEquality.{same_numbers, same_numbers-Decides};

    ghost test = { same_numbers };

    #[inline(always)]
    fn is_same_at(&self, other: &Self, i: usize) -> bool {
        self.value(i) == other.value(i)
    }

    ghost test_decides = { same_numbers-Decides };
}
