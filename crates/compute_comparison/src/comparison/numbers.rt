//! Arrays of native values as arrays whose values are equal or not, and have an order if their type has one.
ghost use Rattle.std.specs.Prelude.{◌≡◌, IfOk, length};
ghost use Rattle.arrow_types.specs.Failures.{OnlyOutOfMemory};
ghost use Rattle.arrow_column.specs.Column.{stored_values};
ghost use Rattle.compute_comparison.specs.Comparison.{compare_scalar, compare_stored};

use super::equal::{EqualArray, EqualScalar};
use super::operators::Comparison;
use super::ordered::{OrderedArray, Scalar};
use arrow_memory::bitmap::Bitmap;
use arrow_primitive::PrimitiveArray;
use arrow_types::error::Error;
use arrow_types::native_type::NativeType;
use compute_base::words::{MarkSource, MarkWords, PackedMarks, collect_marks};
use std::alloc::Global;
use std::marker::PhantomData;

/// A comparison of two native values.
trait Test<T> {
    ghost use Rattle.std.specs.Prelude.{Bool};

    /// Whether it holds of two values.
    ghost holds: { T → T → Bool };

    /// Returns whether it holds of two values.
    fn test(lhs: &T, rhs: &T) -> bool
        ensures { result ≡ holds lhs.now rhs.now };
}

/// A comparison of values of a type with an order.
struct ByOrder<C> {
    comparison: PhantomData<C>,
}

impl<T: Ord, C: Comparison> Test<T> for ByOrder<C> {
    ghost holds = { λ x y. C.test (T.cmp x y) };

    #[inline(always)]
    fn test(lhs: &T, rhs: &T) -> bool {
        C::test(lhs, rhs)
    }
}

/// `==` of values of any type.
struct ByEquality;

impl<T: PartialEq> Test<T> for ByEquality {
    ghost holds = { T.eq };

    #[inline(always)]
    fn test(lhs: &T, rhs: &T) -> bool {
        *lhs == *rhs
    }
}

/// Whether a comparison holds of the values at each index of two slices.
#[derive(Drop)]
struct NumberPairs<'a, C, T> {
    lhs: &'a [T],
    rhs: &'a [T],
    comparison: PhantomData<C>,
}

impl<'a, T: NativeType, C: Test<T>> MarkSource for NumberPairs<'a, C, T> {
    ghost use Rattle.compute_comparison.specs.Comparison.{compare_values};

    ghost marks = { λ pairs. compare_values (λ truth. truth) C.holds pairs.lhs.now pairs.rhs.now };

    #[inline(always)]
    fn len(&self) -> usize {
        self.lhs.len().min(self.rhs.len())
    }

    #[inline(always)]
    fn mark(&self, i: usize) -> bool {
        C::test(&self.lhs[i], &self.rhs[i])
    }
}

/// Whether a comparison holds of the value at each index of a slice and a given one.
#[derive(Drop)]
struct NumberScalar<'a, C, T> {
    lhs: &'a [T],
    rhs: T,
    comparison: PhantomData<C>,
}

impl<'a, T: NativeType, C: Test<T>> MarkSource for NumberScalar<'a, C, T> {
    ghost use Rattle.compute_comparison.specs.Comparison.{compare_scalar};

    ghost marks = { λ pairs. compare_scalar (λ truth. truth) C.holds pairs.lhs.now pairs.rhs };

    #[inline(always)]
    fn len(&self) -> usize {
        self.lhs.len()
    }

    #[inline(always)]
    fn mark(&self, i: usize) -> bool {
        C::test(&self.lhs[i], &self.rhs)
    }
}

/// Returns whether a comparison holds of the stored values at each index of two arrays.
fn compare_numbers<T: NativeType, C: Test<T>>(
    alloc: Global,
    lhs: &PrimitiveArray<T>,
    rhs: &PrimitiveArray<T>,
) -> Result<Bitmap, Error>
    ensures ok { IfOk result (λ truths. truths ≡ compare_stored (λ truth. truth) C.holds lhs.now rhs.now) }
    ensures err { OnlyOutOfMemory result }
{
    let source = NumberPairs {
        lhs: lhs.values().as_slice(),
        rhs: rhs.values().as_slice(),
        comparison: PhantomData::<C>,
    };
    collect_marks(alloc, &PackedMarks { source })?.freeze()
}

/// Returns whether a comparison holds of each stored value of an array and a value.
fn compare_number<T: NativeType, C: Test<T>>(
    alloc: Global,
    lhs: &PrimitiveArray<T>,
    rhs: T,
) -> Result<Bitmap, Error>
    ensures ok { IfOk result (λ truths. truths
        ≡ compare_scalar (λ truth. truth) C.holds (stored_values lhs.now) rhs) }
    ensures err { OnlyOutOfMemory result }
{
    let source = NumberScalar {
        lhs: lhs.values().as_slice(),
        rhs,
        comparison: PhantomData::<C>,
    };
    collect_marks(alloc, &PackedMarks { source })?.freeze()
}

impl<T: NativeType> EqualArray for PrimitiveArray<T> {
    ghost equal = { T.eq };

    #[inline(always)]
    fn equal_word(lhs: &Self, rhs: &Self, place: usize, count: usize) -> u64 {
        let source = NumberPairs {
            lhs: lhs.values().as_slice(),
            rhs: rhs.values().as_slice(),
            comparison: PhantomData::<ByEquality>,
        };
        PackedMarks { source }.word(place, count)
    }
}

impl<T: NativeType> EqualScalar<PrimitiveArray<T>> for T {
    ghost value = { λ scalar. scalar };

    #[inline(always)]
    fn equal_word(lhs: &PrimitiveArray<T>, rhs: T, place: usize, count: usize) -> u64 {
        let source = NumberScalar {
            lhs: lhs.values().as_slice(),
            rhs,
            comparison: PhantomData::<ByEquality>,
        };
        PackedMarks { source }.word(place, count)
    }
}

impl<T: NativeType + Ord> OrderedArray for PrimitiveArray<T> {
    ghost order = { T.cmp };

    ghost equal_by_order = { T.matches_eq };

    fn compare_stored<C: Comparison>(
        alloc: Global,
        lhs: &Self,
        rhs: &Self,
    ) -> Result<Bitmap, Error> {
        compare_numbers::<T, ByOrder<C>>(alloc, lhs, rhs)
    }
}

impl<T: NativeType + Ord> Scalar<PrimitiveArray<T>> for T {
    fn compare_stored<C: Comparison>(
        alloc: Global,
        lhs: &PrimitiveArray<T>,
        rhs: T,
    ) -> Result<Bitmap, Error> {
        compare_number::<T, ByOrder<C>>(alloc, lhs, rhs)
    }
}
