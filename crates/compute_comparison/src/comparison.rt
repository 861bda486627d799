//! Comparisons of two arrays, slot by slot, and of an array with one value.
//!
//! `eq`, `neq` and the functions whose names begin so take arrays of every kind and type. The others take arrays whose
//! values have an order, which those of the types `i256`, `days_ms` and `months_days_ns` do not have. The modules
//! `primitive`, `boolean`, `binary` and `utf8` export the same functions.
ghost use Rattle.std.specs.Prelude.{◌≡◌, IfOk, length, option_map};
ghost use Rattle.std.specs.Ordering.{is_lt, is_le, is_gt, is_ge};
ghost use Rattle.arrow_types.specs.Failures.{OnlyOutOfMemory};
ghost use Rattle.arrow_boolean.specs.Fits.{boolean_type};
ghost use Rattle.compute_comparison.specs.Comparison.{compare_slot, compare_slots, equal_slots, slots_equal_to};
ghost use Rattle.compute_comparison.specs.Comparison.{slots_unequal_to, unequal, unequal_slots};
ghost use Rattle.compute_comparison.specs.Slots.{booleans};
ghost use Rattle.compute_base.specs.Slots.{CombinesSlots, MapsSlots, combine_valid};

pub mod binary;
pub mod boolean;
mod booleans;
mod bytes;
pub mod equal;
mod numbers;
pub mod operators;
pub mod ordered;
pub mod primitive;
pub mod utf8;
mod words;

use self::equal::{EqualArray, EqualScalar};
use self::operators::{
    Comparison, Equal, Equality, Greater, GreaterOrEqual, Less, LessOrEqual, Unequal,
};
use self::ordered::{OrderedArray, Scalar};
use self::words::{test_slots, test_slots_by_scalar, test_values, test_values_by_scalar};
use arrow_boolean::BooleanArray;
use arrow_types::data_type::DataType;
use arrow_types::error::Error;
use compute_base::masks::{clone_mask, mask_of_both};
use std::alloc::Global;

/// Returns whether the comparison holds of each pair of slots of two arrays of equal length.
fn compare<C: Comparison, A: OrderedArray>(
    alloc: Global,
    lhs: &A,
    rhs: &A,
) -> Result<BooleanArray, Error>
    requires { length (A.column lhs.now).rows ≡ length (A.column rhs.now).rows }
    ensures ok { IfOk result (CombinesSlots boolean_type (compare_slots C.test A.order)
        (A.column lhs.now) (A.column rhs.now)) }
    ensures err { OnlyOutOfMemory result }
{
    let truths = A::compare_stored::<C>(alloc, lhs, rhs)?;
    let validity = mask_of_both(alloc, lhs.validity(), rhs.validity())?;
    Ok(BooleanArray::new(DataType::Boolean, truths, validity))
}

/// Returns whether the comparison holds of each slot and `rhs`.
fn compare_with_scalar<C: Comparison, A: OrderedArray, S: Scalar<A>>(
    alloc: Global,
    lhs: &A,
    rhs: S,
) -> Result<BooleanArray, Error>
    ensures ok { IfOk result (MapsSlots boolean_type (compare_slot C.test A.order (S.value rhs)) (A.column lhs.now)) }
    ensures err { OnlyOutOfMemory result }
{
    let truths = S::compare_stored::<C>(alloc, lhs, rhs)?;
    let validity = clone_mask(lhs.validity())?;
    Ok(BooleanArray::new(DataType::Boolean, truths, validity))
}

/// Returns whether `==` or `!=` holds of each pair of slots of two arrays of equal length.
fn compare_equal<C: Equality, A: EqualArray>(
    alloc: Global,
    lhs: &A,
    rhs: &A,
) -> Result<BooleanArray, Error>
    requires { length (A.column lhs.now).rows ≡ length (A.column rhs.now).rows }
    ensures ok { IfOk result (CombinesSlots boolean_type (compare_slots C.holds A.equal)
        (A.column lhs.now) (A.column rhs.now)) }
    ensures err { OnlyOutOfMemory result }
{
    let truths = test_values::<C, A>(alloc, lhs, rhs)?;
    let validity = mask_of_both(alloc, lhs.validity(), rhs.validity())?;
    Ok(BooleanArray::new(DataType::Boolean, truths, validity))
}

/// Returns whether `==` or `!=` holds of each slot and `rhs`.
fn compare_equal_scalar<C: Equality, A: EqualArray, S: EqualScalar<A>>(
    alloc: Global,
    lhs: &A,
    rhs: S,
) -> Result<BooleanArray, Error>
    ensures ok { IfOk result (MapsSlots boolean_type (compare_slot C.holds A.equal (S.value rhs))
        (A.column lhs.now)) }
    ensures err { OnlyOutOfMemory result }
{
    let truths = test_values_by_scalar::<C, A, S>(alloc, lhs, rhs)?;
    let validity = clone_mask(lhs.validity())?;
    Ok(BooleanArray::new(DataType::Boolean, truths, validity))
}

/// Returns whether each slot of `lhs` is equal to the slot of `rhs` at its place; null where either
/// is null. Both arrays must have equally many slots. The result holds a mask if either array does.
///
/// # Errors
/// `OutOfMemory` if an allocation fails.
pub fn eq<A: EqualArray>(alloc: Global, lhs: &A, rhs: &A) -> Result<BooleanArray, Error>
    requires { length (A.column lhs.now).rows ≡ length (A.column rhs.now).rows }
    ensures ok { IfOk result (CombinesSlots boolean_type (combine_valid A.equal)
        (A.column lhs.now) (A.column rhs.now)) }
    ensures err { OnlyOutOfMemory result }
{
    compare_equal::<Equal, A>(alloc, lhs, rhs)
}

/// Returns whether each slot of `lhs` is equal to `rhs`; null where the slot is null. The result
/// holds a mask if the array does.
///
/// # Errors
/// `OutOfMemory` if an allocation fails.
pub fn eq_scalar<A: EqualArray, S: EqualScalar<A>>(
    alloc: Global,
    lhs: &A,
    rhs: S,
) -> Result<BooleanArray, Error>
    ensures ok { IfOk result (MapsSlots boolean_type (option_map (λ x. A.equal x (S.value rhs)))
        (A.column lhs.now)) }
    ensures err { OnlyOutOfMemory result }
{
    compare_equal_scalar::<Equal, A, S>(alloc, lhs, rhs)
}

/// Returns whether each slot of `lhs` is different from the slot of `rhs` at its place; null where
/// either is null. Both arrays must have equally many slots. The result holds a mask if either
/// array does.
///
/// # Errors
/// `OutOfMemory` if an allocation fails.
pub fn neq<A: EqualArray>(alloc: Global, lhs: &A, rhs: &A) -> Result<BooleanArray, Error>
    requires { length (A.column lhs.now).rows ≡ length (A.column rhs.now).rows }
    ensures ok { IfOk result (CombinesSlots boolean_type (combine_valid (unequal A.equal))
        (A.column lhs.now) (A.column rhs.now)) }
    ensures err { OnlyOutOfMemory result }
{
    compare_equal::<Unequal, A>(alloc, lhs, rhs)
}

/// Returns whether each slot of `lhs` is different from `rhs`; null where the slot is null. The
/// result holds a mask if the array does.
///
/// # Errors
/// `OutOfMemory` if an allocation fails.
pub fn neq_scalar<A: EqualArray, S: EqualScalar<A>>(
    alloc: Global,
    lhs: &A,
    rhs: S,
) -> Result<BooleanArray, Error>
    ensures ok { IfOk result (MapsSlots boolean_type (option_map (λ x. unequal A.equal x (S.value rhs)))
        (A.column lhs.now)) }
    ensures err { OnlyOutOfMemory result }
{
    compare_equal_scalar::<Unequal, A, S>(alloc, lhs, rhs)
}

/// Returns whether each slot of `lhs` is less than the slot of `rhs` at its place; null where
/// either is null. Both arrays must have equally many slots. The result holds a mask if either
/// array does.
///
/// # Errors
/// `OutOfMemory` if an allocation fails.
pub fn lt<A: OrderedArray>(alloc: Global, lhs: &A, rhs: &A) -> Result<BooleanArray, Error>
    requires { length (A.column lhs.now).rows ≡ length (A.column rhs.now).rows }
    ensures ok { IfOk result (CombinesSlots boolean_type (compare_slots is_lt A.order)
        (A.column lhs.now) (A.column rhs.now)) }
    ensures err { OnlyOutOfMemory result }
{
    compare::<Less, A>(alloc, lhs, rhs)
}

/// Returns whether each slot of `lhs` is less than `rhs`; null where the slot is null. The result
/// holds a mask if the array does.
///
/// # Errors
/// `OutOfMemory` if an allocation fails.
pub fn lt_scalar<A: OrderedArray, S: Scalar<A>>(
    alloc: Global,
    lhs: &A,
    rhs: S,
) -> Result<BooleanArray, Error>
    ensures ok { IfOk result (MapsSlots boolean_type (compare_slot is_lt A.order (S.value rhs)) (A.column lhs.now)) }
    ensures err { OnlyOutOfMemory result }
{
    compare_with_scalar::<Less, A, S>(alloc, lhs, rhs)
}

/// Returns whether each slot of `lhs` is less than or equal to the slot of `rhs` at its place; null
/// where either is null. Both arrays must have equally many slots. The result holds a mask if
/// either array does.
///
/// # Errors
/// `OutOfMemory` if an allocation fails.
pub fn lt_eq<A: OrderedArray>(alloc: Global, lhs: &A, rhs: &A) -> Result<BooleanArray, Error>
    requires { length (A.column lhs.now).rows ≡ length (A.column rhs.now).rows }
    ensures ok { IfOk result (CombinesSlots boolean_type (compare_slots is_le A.order)
        (A.column lhs.now) (A.column rhs.now)) }
    ensures err { OnlyOutOfMemory result }
{
    compare::<LessOrEqual, A>(alloc, lhs, rhs)
}

/// Returns whether each slot of `lhs` is less than or equal to `rhs`; null where the slot is null.
/// The result holds a mask if the array does.
///
/// # Errors
/// `OutOfMemory` if an allocation fails.
pub fn lt_eq_scalar<A: OrderedArray, S: Scalar<A>>(
    alloc: Global,
    lhs: &A,
    rhs: S,
) -> Result<BooleanArray, Error>
    ensures ok { IfOk result (MapsSlots boolean_type (compare_slot is_le A.order (S.value rhs)) (A.column lhs.now)) }
    ensures err { OnlyOutOfMemory result }
{
    compare_with_scalar::<LessOrEqual, A, S>(alloc, lhs, rhs)
}

/// Returns whether each slot of `lhs` is greater than the slot of `rhs` at its place; null where
/// either is null. Both arrays must have equally many slots. The result holds a mask if either
/// array does.
///
/// # Errors
/// `OutOfMemory` if an allocation fails.
pub fn gt<A: OrderedArray>(alloc: Global, lhs: &A, rhs: &A) -> Result<BooleanArray, Error>
    requires { length (A.column lhs.now).rows ≡ length (A.column rhs.now).rows }
    ensures ok { IfOk result (CombinesSlots boolean_type (compare_slots is_gt A.order)
        (A.column lhs.now) (A.column rhs.now)) }
    ensures err { OnlyOutOfMemory result }
{
    compare::<Greater, A>(alloc, lhs, rhs)
}

/// Returns whether each slot of `lhs` is greater than `rhs`; null where the slot is null. The
/// result holds a mask if the array does.
///
/// # Errors
/// `OutOfMemory` if an allocation fails.
pub fn gt_scalar<A: OrderedArray, S: Scalar<A>>(
    alloc: Global,
    lhs: &A,
    rhs: S,
) -> Result<BooleanArray, Error>
    ensures ok { IfOk result (MapsSlots boolean_type (compare_slot is_gt A.order (S.value rhs)) (A.column lhs.now)) }
    ensures err { OnlyOutOfMemory result }
{
    compare_with_scalar::<Greater, A, S>(alloc, lhs, rhs)
}

/// Returns whether each slot of `lhs` is greater than or equal to the slot of `rhs` at its place;
/// null where either is null. Both arrays must have equally many slots. The result holds a mask if
/// either array does.
///
/// # Errors
/// `OutOfMemory` if an allocation fails.
pub fn gt_eq<A: OrderedArray>(alloc: Global, lhs: &A, rhs: &A) -> Result<BooleanArray, Error>
    requires { length (A.column lhs.now).rows ≡ length (A.column rhs.now).rows }
    ensures ok { IfOk result (CombinesSlots boolean_type (compare_slots is_ge A.order)
        (A.column lhs.now) (A.column rhs.now)) }
    ensures err { OnlyOutOfMemory result }
{
    compare::<GreaterOrEqual, A>(alloc, lhs, rhs)
}

/// Returns whether each slot of `lhs` is greater than or equal to `rhs`; null where the slot is
/// null. The result holds a mask if the array does.
///
/// # Errors
/// `OutOfMemory` if an allocation fails.
pub fn gt_eq_scalar<A: OrderedArray, S: Scalar<A>>(
    alloc: Global,
    lhs: &A,
    rhs: S,
) -> Result<BooleanArray, Error>
    ensures ok { IfOk result (MapsSlots boolean_type (compare_slot is_ge A.order (S.value rhs)) (A.column lhs.now)) }
    ensures err { OnlyOutOfMemory result }
{
    compare_with_scalar::<GreaterOrEqual, A, S>(alloc, lhs, rhs)
}

/// Returns whether each slot of `lhs` is equal to the slot of `rhs` at its place, where two nulls
/// are equal, and a null and a value are not. Both arrays must have equally many slots. The result
/// has no null and no mask.
///
/// # Errors
/// `OutOfMemory` if an allocation fails.
pub fn eq_and_validity<A: EqualArray>(
    alloc: Global,
    lhs: &A,
    rhs: &A,
) -> Result<BooleanArray, Error>
    requires { length (A.column lhs.now).rows ≡ length (A.column rhs.now).rows }
    ensures ok { IfOk result (λ made. made ≡ booleans (equal_slots A.equal (A.column lhs.now) (A.column rhs.now))) }
    ensures err { OnlyOutOfMemory result }
{
    let equal = test_slots::<Equal, A>(alloc, lhs, rhs)?;
    Ok(BooleanArray::new(DataType::Boolean, equal, None))
}

/// Returns whether each slot of `lhs` is different from the slot of `rhs` at its place, where two
/// nulls are equal, and a null and a value are not. Both arrays must have equally many slots. The
/// result has no null and no mask.
///
/// # Errors
/// `OutOfMemory` if an allocation fails.
pub fn neq_and_validity<A: EqualArray>(
    alloc: Global,
    lhs: &A,
    rhs: &A,
) -> Result<BooleanArray, Error>
    requires { length (A.column lhs.now).rows ≡ length (A.column rhs.now).rows }
    ensures ok { IfOk result (λ made. made ≡ booleans (unequal_slots A.equal (A.column lhs.now) (A.column rhs.now))) }
    ensures err { OnlyOutOfMemory result }
{
    let unequal = test_slots::<Unequal, A>(alloc, lhs, rhs)?;
    Ok(BooleanArray::new(DataType::Boolean, unequal, None))
}

/// Returns whether each slot of `lhs` is equal to `rhs`, which no null is. The result has no null and no mask.
///
/// # Errors
/// `OutOfMemory` if an allocation fails.
pub fn eq_scalar_and_validity<A: EqualArray, S: EqualScalar<A>>(
    alloc: Global,
    lhs: &A,
    rhs: S,
) -> Result<BooleanArray, Error>
    ensures ok { IfOk result (λ made. made ≡ booleans (slots_equal_to A.equal (A.column lhs.now) (S.value rhs))) }
    ensures err { OnlyOutOfMemory result }
{
    let equal = test_slots_by_scalar::<Equal, A, S>(alloc, lhs, rhs)?;
    Ok(BooleanArray::new(DataType::Boolean, equal, None))
}

/// Returns whether each slot of `lhs` is different from `rhs`, which every null is. The result has no null and no mask.
///
/// # Errors
/// `OutOfMemory` if an allocation fails.
pub fn neq_scalar_and_validity<A: EqualArray, S: EqualScalar<A>>(
    alloc: Global,
    lhs: &A,
    rhs: S,
) -> Result<BooleanArray, Error>
    ensures ok { IfOk result (λ made. made ≡ booleans (slots_unequal_to A.equal (A.column lhs.now) (S.value rhs))) }
    ensures err { OnlyOutOfMemory result }
{
    let unequal = test_slots_by_scalar::<Unequal, A, S>(alloc, lhs, rhs)?;
    Ok(BooleanArray::new(DataType::Boolean, unequal, None))
}
