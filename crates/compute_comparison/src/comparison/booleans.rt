//! Arrays of booleans as arrays whose values are equal or not, and have an order.
ghost use Rattle.std.specs.Prelude.{◌≡◌, ◌==◌, ◌<◌, ℕ};
ghost use Rattle.std.specs.Int.{bit_at};

use super::equal::{EqualArray, EqualScalar};
use super::operators::{Comparison, Equal};
use super::ordered::{OrderedArray, Scalar};
use arrow_boolean::BooleanArray;
use arrow_memory::bitmap::Bitmap;
use arrow_types::error::Error;
use compute_base::words::{MarkWords, collect_marks, word_of};
use std::alloc::Global;
use std::marker::PhantomData;

/// Whether a comparison holds of the booleans at each index of two bitmaps.
#[derive(Drop)]
struct BooleanPairs<'a, C> {
    lhs: &'a Bitmap,
    rhs: &'a Bitmap,
    comparison: PhantomData<C>,
}

impl<'a, C: Comparison> MarkWords for BooleanPairs<'a, C> {
    ghost use Rattle.std.specs.Ordering.{bool_cmp};
    ghost use Rattle.compute_comparison.specs.Comparison.{compare_values};

    ghost marks = { λ pairs. compare_values C.test bool_cmp pairs.lhs.now pairs.rhs.now };

    #[inline(always)]
    fn len(&self) -> usize {
        self.lhs.len().min(self.rhs.len())
    }

    #[inline(always)]
    fn word(&self, place: usize, count: usize) -> u64 {
        C::test_words(
            word_of(self.lhs, place, count),
            word_of(self.rhs, place, count),
        )
    }
}

/// Whether a comparison holds of the boolean at each index of a bitmap and a given one.
#[derive(Drop)]
struct BooleanScalar<'a, C> {
    lhs: &'a Bitmap,
    rhs: bool,
    comparison: PhantomData<C>,
}

/// Returns the word whose 64 bits are all `bit`.
#[inline(always)]
fn repeat_bit(bit: bool) -> u64
    ensures { (k : ℕ) → k < 64 → (bit_at result k == 1) ≡ bit }
{
    if bit { u64::MAX } else { 0 }
}

impl<'a, C: Comparison> MarkWords for BooleanScalar<'a, C> {
    ghost use Rattle.std.specs.Ordering.{bool_cmp};
    ghost use Rattle.compute_comparison.specs.Comparison.{compare_scalar};

    ghost marks = { λ pairs. compare_scalar C.test bool_cmp pairs.lhs.now pairs.rhs };

    #[inline(always)]
    fn len(&self) -> usize {
        self.lhs.len()
    }

    #[inline(always)]
    fn word(&self, place: usize, count: usize) -> u64 {
        C::test_words(word_of(self.lhs, place, count), repeat_bit(self.rhs))
    }
}

impl EqualArray for BooleanArray {
    ghost use Rattle.std.specs.Ordering.{bool_cmp, is_eq};

    ghost equal = { λ x y. is_eq (bool_cmp x y) };

    #[inline(always)]
    fn equal_word(lhs: &Self, rhs: &Self, place: usize, count: usize) -> u64 {
        Equal::test_words(
            word_of(lhs.values(), place, count),
            word_of(rhs.values(), place, count),
        )
    }
}

impl EqualScalar<BooleanArray> for bool {
    ghost value = { λ scalar. scalar };

    #[inline(always)]
    fn equal_word(lhs: &BooleanArray, rhs: bool, place: usize, count: usize) -> u64 {
        Equal::test_words(word_of(lhs.values(), place, count), repeat_bit(rhs))
    }
}

impl OrderedArray for BooleanArray {
    ghost use Rattle.std.specs.Prelude.{refl};
    ghost use Rattle.std.specs.Ordering.{bool_cmp};

    ghost order = { bool_cmp };

    ghost equal_by_order = { λ x y. refl };

    fn compare_stored<C: Comparison>(
        alloc: Global,
        lhs: &Self,
        rhs: &Self,
    ) -> Result<Bitmap, Error> {
        let source = BooleanPairs {
            lhs: lhs.values(),
            rhs: rhs.values(),
            comparison: PhantomData::<C>,
        };
        collect_marks(alloc, &source)?.freeze()
    }
}

impl Scalar<BooleanArray> for bool {
    fn compare_stored<C: Comparison>(
        alloc: Global,
        lhs: &BooleanArray,
        rhs: bool,
    ) -> Result<Bitmap, Error> {
        let source = BooleanScalar {
            lhs: lhs.values(),
            rhs,
            comparison: PhantomData::<C>,
        };
        collect_marks(alloc, &source)?.freeze()
    }
}
