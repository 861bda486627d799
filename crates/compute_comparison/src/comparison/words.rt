//! Whether values and slots of arrays are equal, 64 at a time: one pass over the words of each kind of arrays.
ghost use Rattle.std.specs.Prelude.{◌≡◌, ◌==◌, ◌<◌, ℕ, IfOk, map};
ghost use Rattle.std.specs.Int.{bit_at};
ghost use Rattle.arrow_types.specs.Failures.{OnlyOutOfMemory};
ghost use Rattle.compute_comparison.specs.Comparison.{compare_stored, compare_stored_to, equal_slot_bit};
ghost use Rattle.compute_comparison.specs.Comparison.{equal_slots, slots_equal_to};

use super::equal::{EqualArray, EqualScalar};
use super::operators::Equality;
use arrow_memory::bitmap::Bitmap;
use arrow_types::error::Error;
use compute_base::words::{MarkWords, collect_marks, marks_word};
use std::alloc::Global;
use std::marker::PhantomData;

/// Whether `==` or `!=` holds of the values that two arrays store at each index.
#[derive(Drop)]
struct ValuePairs<'a, C, A> {
    lhs: &'a A,
    rhs: &'a A,
    comparison: PhantomData<C>,
}

impl<'a, C: Equality, A: EqualArray> MarkWords for ValuePairs<'a, C, A> {
    ghost use Rattle.compute_comparison.specs.Comparison.{compare_stored};

    ghost marks = { λ it. compare_stored C.holds A.equal
        (A.Array.column it.lhs.now) (A.Array.column it.rhs.now) };

    #[inline(always)]
    fn len(&self) -> usize {
        self.lhs.len().min(self.rhs.len())
    }

    #[inline(always)]
    fn word(&self, place: usize, count: usize) -> u64 {
        C::test_equal_words(A::equal_word(self.lhs, self.rhs, place, count))
    }
}

/// Whether `==` or `!=` holds of the value that an array stores at each index and a given one.
#[derive(Drop)]
struct ValuesByScalar<'a, C, A, S> {
    lhs: &'a A,
    rhs: S,
    comparison: PhantomData<C>,
}

impl<'a, C: Equality, A: EqualArray, S: EqualScalar<A>> MarkWords for ValuesByScalar<'a, C, A, S> {
    ghost use Rattle.compute_comparison.specs.Comparison.{compare_stored_to};

    ghost marks = { λ it. compare_stored_to C.holds A.equal (A.Array.column it.lhs.now) (S.value it.rhs) };

    #[inline(always)]
    fn len(&self) -> usize {
        self.lhs.len()
    }

    #[inline(always)]
    fn word(&self, place: usize, count: usize) -> u64 {
        C::test_equal_words(S::equal_word(self.lhs, self.rhs, place, count))
    }
}

/// Returns where two slots are equal, from where their stored values are and from the marks of both: two nulls are
/// equal, a null and a value are not.
#[inline(always)]
fn equal_slot_bits(equal: u64, left: u64, right: u64) -> u64
    ensures { (k : ℕ) → k < 64 → (bit_at result k == 1) ≡ equal_slot_bit equal left right k }
{
    (equal & (left & right)) | !(left | right)
}

/// Whether `==` or `!=` holds of the slots of two arrays at each index.
#[derive(Drop)]
struct SlotPairs<'a, C, A> {
    lhs: &'a A,
    rhs: &'a A,
    comparison: PhantomData<C>,
}

impl<'a, C: Equality, A: EqualArray> MarkWords for SlotPairs<'a, C, A> {
    ghost use Rattle.std.specs.Prelude.{map};
    ghost use Rattle.compute_comparison.specs.Comparison.{equal_slots};

    ghost marks = { λ it. map C.holds
        (equal_slots A.equal (A.Array.column it.lhs.now) (A.Array.column it.rhs.now)) };

    #[inline(always)]
    fn len(&self) -> usize {
        self.lhs.len().min(self.rhs.len())
    }

    #[inline(always)]
    fn word(&self, place: usize, count: usize) -> u64 {
        let equal = A::equal_word(self.lhs, self.rhs, place, count);
        let left = marks_word(self.lhs, place, count);
        let right = marks_word(self.rhs, place, count);
        C::test_equal_words(equal_slot_bits(equal, left, right))
    }
}

/// Whether `==` or `!=` holds of the slot of an array at each index and a value, which no null is equal to.
#[derive(Drop)]
struct SlotsByScalar<'a, C, A, S> {
    lhs: &'a A,
    rhs: S,
    comparison: PhantomData<C>,
}

impl<'a, C: Equality, A: EqualArray, S: EqualScalar<A>> MarkWords for SlotsByScalar<'a, C, A, S> {
    ghost use Rattle.std.specs.Prelude.{map};
    ghost use Rattle.compute_comparison.specs.Comparison.{slots_equal_to};

    ghost marks = { λ it. map C.holds
        (slots_equal_to A.equal (A.Array.column it.lhs.now) (S.value it.rhs)) };

    #[inline(always)]
    fn len(&self) -> usize {
        self.lhs.len()
    }

    #[inline(always)]
    fn word(&self, place: usize, count: usize) -> u64 {
        let equal = S::equal_word(self.lhs, self.rhs, place, count);
        let marks = marks_word(self.lhs, place, count);
        C::test_equal_words(marks & equal)
    }
}

/// Returns whether `==` or `!=` holds of the values that two arrays store at each index.
pub(crate) fn test_values<C: Equality, A: EqualArray>(
    alloc: Global,
    lhs: &A,
    rhs: &A,
) -> Result<Bitmap, Error>
    ensures ok { IfOk result (λ made. made
        ≡ compare_stored C.holds A.equal (A.column lhs.now) (A.column rhs.now)) }
    ensures err { OnlyOutOfMemory result }
{
    let source = ValuePairs {
        lhs,
        rhs,
        comparison: PhantomData::<C>,
    };
    collect_marks(alloc, &source)?.freeze()
}

/// Returns whether `==` or `!=` holds of each value that an array stores and `rhs`.
pub(crate) fn test_values_by_scalar<C: Equality, A: EqualArray, S: EqualScalar<A>>(
    alloc: Global,
    lhs: &A,
    rhs: S,
) -> Result<Bitmap, Error>
    ensures ok { IfOk result (λ made. made
        ≡ compare_stored_to C.holds A.equal (A.column lhs.now) (S.value rhs)) }
    ensures err { OnlyOutOfMemory result }
{
    let source = ValuesByScalar {
        lhs,
        rhs,
        comparison: PhantomData::<C>,
    };
    collect_marks(alloc, &source)?.freeze()
}

/// Returns whether `==` or `!=` holds of the slots of two arrays at each index, where two nulls are equal, and a null
/// and a value are not.
pub(crate) fn test_slots<C: Equality, A: EqualArray>(
    alloc: Global,
    lhs: &A,
    rhs: &A,
) -> Result<Bitmap, Error>
    ensures ok { IfOk result (λ made. made
        ≡ map C.holds (equal_slots A.equal (A.column lhs.now) (A.column rhs.now))) }
    ensures err { OnlyOutOfMemory result }
{
    let source = SlotPairs {
        lhs,
        rhs,
        comparison: PhantomData::<C>,
    };
    collect_marks(alloc, &source)?.freeze()
}

/// Returns whether `==` or `!=` holds of each slot of an array and a value, which no null is equal to.
pub(crate) fn test_slots_by_scalar<C: Equality, A: EqualArray, S: EqualScalar<A>>(
    alloc: Global,
    lhs: &A,
    rhs: S,
) -> Result<Bitmap, Error>
    ensures ok { IfOk result (λ made. made
        ≡ map C.holds (slots_equal_to A.equal (A.column lhs.now) (S.value rhs))) }
    ensures err { OnlyOutOfMemory result }
{
    let source = SlotsByScalar {
        lhs,
        rhs,
        comparison: PhantomData::<C>,
    };
    collect_marks(alloc, &source)?.freeze()
}
