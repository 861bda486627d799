//! Arrays of bytes and of text as arrays whose values are equal or not, and have an order.
use super::equal::{EqualArray, EqualScalar};
use super::operators::{Comparison, Equal};
use super::ordered::{OrderedArray, Scalar};
use arrow_byte_array::ByteArray;
use arrow_bytes::{ByteItem, ByteKind};
use arrow_memory::bitmap::Bitmap;
use arrow_types::error::Error;
use arrow_types::offset::Offset;
use compute_base::words::{MarkSource, MarkWords, PackedMarks, collect_marks};
use std::alloc::Global;
use std::marker::PhantomData;

/// Whether a comparison holds of the items at each index of two arrays.
#[derive(Drop)]
struct ItemPairs<'a, C, K: ByteKind, O: Offset> {
    lhs: &'a ByteArray<K, O>,
    rhs: &'a ByteArray<K, O>,
    comparison: PhantomData<C>,
}

impl<'a, C: Comparison, K: ByteKind, O: Offset> MarkSource for ItemPairs<'a, C, K, O> {
    ghost use Rattle.std.specs.Ordering.{nat_cmp};
    ghost use Rattle.std.specs.Cmp.Lexicographic.{slice_cmp};
    ghost use Rattle.arrow_column.specs.Column.{stored_values};
    ghost use Rattle.compute_comparison.specs.Comparison.{compare_values};

    ghost marks = { λ pairs. compare_values C.test (slice_cmp nat_cmp)
        (stored_values pairs.lhs.now) (stored_values pairs.rhs.now) };

    #[inline(always)]
    fn len(&self) -> usize {
        self.lhs.len().min(self.rhs.len())
    }

    #[inline(always)]
    fn mark(&self, i: usize) -> bool {
        C::test(&self.lhs.item(i), &self.rhs.item(i))
    }
}

/// Whether a comparison holds of the item at each index of an array and a given one.
#[derive(Drop)]
struct ItemScalar<'a, C, K: ByteKind, O: Offset> {
    lhs: &'a ByteArray<K, O>,
    rhs: &'a [u8],
    comparison: PhantomData<C>,
}

impl<'a, C: Comparison, K: ByteKind, O: Offset> MarkSource for ItemScalar<'a, C, K, O> {
    ghost use Rattle.std.specs.Ordering.{nat_cmp};
    ghost use Rattle.std.specs.Cmp.Lexicographic.{slice_cmp};
    ghost use Rattle.arrow_column.specs.Column.{stored_values};
    ghost use Rattle.compute_comparison.specs.Comparison.{compare_scalar};

    ghost marks = { λ pairs. compare_scalar C.test (slice_cmp nat_cmp) (stored_values pairs.lhs.now) pairs.rhs.now };

    #[inline(always)]
    fn len(&self) -> usize {
        self.lhs.len()
    }

    #[inline(always)]
    fn mark(&self, i: usize) -> bool {
        C::test(&self.lhs.item(i), &self.rhs)
    }
}

impl<K: ByteKind, O: Offset> EqualArray for ByteArray<K, O> {
    ghost use Rattle.std.specs.Ordering.{is_eq, nat_cmp};
    ghost use Rattle.std.specs.Cmp.Lexicographic.{slice_cmp};

    ghost equal = { λ x y. is_eq (slice_cmp nat_cmp x y) };

    #[inline(always)]
    fn equal_word(lhs: &Self, rhs: &Self, place: usize, count: usize) -> u64 {
        let source = ItemPairs {
            lhs,
            rhs,
            comparison: PhantomData::<Equal>,
        };
        PackedMarks { source }.word(place, count)
    }
}

impl<K: ByteKind, O: Offset, I: ByteItem<K>> EqualScalar<ByteArray<K, O>> for I {
    ghost value = { I.bytes };

    #[inline(always)]
    fn equal_word(lhs: &ByteArray<K, O>, rhs: I, place: usize, count: usize) -> u64 {
        let source = ItemScalar {
            lhs,
            rhs: rhs.bytes(),
            comparison: PhantomData::<Equal>,
        };
        PackedMarks { source }.word(place, count)
    }
}

impl<K: ByteKind, O: Offset> OrderedArray for ByteArray<K, O> {
    ghost use Rattle.std.specs.Prelude.{refl};
    ghost use Rattle.std.specs.Ordering.{nat_cmp};
    ghost use Rattle.std.specs.Cmp.Lexicographic.{slice_cmp};

    ghost order = { slice_cmp nat_cmp };

    ghost equal_by_order = { λ x y. refl };

    fn compare_stored<C: Comparison>(
        alloc: Global,
        lhs: &Self,
        rhs: &Self,
    ) -> Result<Bitmap, Error> {
        let source = ItemPairs {
            lhs,
            rhs,
            comparison: PhantomData::<C>,
        };
        collect_marks(alloc, &PackedMarks { source })?.freeze()
    }
}

impl<K: ByteKind, O: Offset, I: ByteItem<K>> Scalar<ByteArray<K, O>> for I {
    fn compare_stored<C: Comparison>(
        alloc: Global,
        lhs: &ByteArray<K, O>,
        rhs: I,
    ) -> Result<Bitmap, Error> {
        let source = ItemScalar {
            lhs,
            rhs: rhs.bytes(),
            comparison: PhantomData::<C>,
        };
        collect_marks(alloc, &PackedMarks { source })?.freeze()
    }
}
