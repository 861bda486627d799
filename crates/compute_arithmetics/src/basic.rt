//! Addition, subtraction, multiplication, division, remainder and negation of integers, slot by slot. A slot of the
//! result is null where an operand is. Plain forms and `wrapping_` forms wrap; `checked_` forms give a null where the
//! result does not fit or the divisor is zero, and always hold a mask; `saturating_` forms give the number of the type
//! that is nearest. The result has the data type of `lhs`.
ghost use Rattle.std.specs.Prelude.{◌≡◌, ◌≢◌, ◌+ℤ◌, ◌-ℤ◌, ◌*ℤ◌, IfOk, List, Option, int_div, int_rem};
ghost use Rattle.std.specs.Prelude.{length, neg_ℤ, pos};
ghost use Rattle.arrow_integers.specs.NativeArithmetics.{lift, lift_checked, lift_division, some_if};
ghost use Rattle.arrow_types.specs.Failures.{OnlyOutOfMemory};
ghost use Rattle.std.specs.Bool.{OnFalse};
ghost use Rattle.std.specs.List.{list_any, zip};
ghost use Rattle.arrow_column.specs.Column.{slots_of};
ghost use Rattle.compute_arithmetics.specs.Arithmetic.{CombinesValues, CombinesValuesIf, MapsValues, MapsValuesIf};
ghost use Rattle.compute_arithmetics.specs.Arithmetic.{NoSlotIsZero, NoZeroDivisor, divides_by_zero, slot_is_zero};

use crate::combine::{combine, combine_checked, combine_checked_scalar, combine_scalar};
use crate::operation::{
    CheckedAdd, CheckedDiv, CheckedMul, CheckedNegate, CheckedRem, CheckedSub, Div, Negate,
    NoOperand, Rem, SaturatingAdd, SaturatingMul, SaturatingSub, WrappingAdd, WrappingMul,
    WrappingSub,
};
use arrow_integers::NativeArithmetics;
use arrow_primitive::PrimitiveArray;
use arrow_types::error::Error;
use std::alloc::Global;

/// Adds to each slot of `lhs` the slot of `rhs` at its place, wrapping around where the sum does
/// not fit. Both arrays must have equally many slots. The result holds a mask if either array does.
///
/// # Errors
/// `OutOfMemory` if an allocation fails.
pub fn add<T: NativeArithmetics>(
    alloc: Global,
    lhs: &PrimitiveArray<T>,
    rhs: &PrimitiveArray<T>,
) -> Result<PrimitiveArray<T>, Error>
    requires { length lhs.now.rows ≡ length rhs.now.rows }
    ensures ok { IfOk result (CombinesValues (lift T.number T.wrap ◌+ℤ◌) lhs.now rhs.now) }
    ensures err { OnlyOutOfMemory result }
{
    combine::<T, WrappingAdd>(alloc, lhs, rhs)
}

/// Adds `rhs` to each slot of `lhs`, wrapping around where the sum does not fit. The result holds a
/// mask if the array does.
///
/// # Errors
/// `OutOfMemory` if an allocation fails.
pub fn add_scalar<T: NativeArithmetics>(
    alloc: Global,
    lhs: &PrimitiveArray<T>,
    rhs: T,
) -> Result<PrimitiveArray<T>, Error>
    ensures ok { IfOk result (MapsValues (λ x. lift T.number T.wrap ◌+ℤ◌ x rhs) lhs.now) }
    ensures err { OnlyOutOfMemory result }
{
    combine_scalar::<T, T, WrappingAdd>(alloc, lhs, rhs)
}

/// Adds to each slot of `lhs` the slot of `rhs` at its place, wrapping around where the sum does not fit, as [`add`]
/// does. Both arrays must have equally many slots. The result holds a mask if either array does.
///
/// # Errors
/// `OutOfMemory` if an allocation fails.
pub fn wrapping_add<T: NativeArithmetics>(
    alloc: Global,
    lhs: &PrimitiveArray<T>,
    rhs: &PrimitiveArray<T>,
) -> Result<PrimitiveArray<T>, Error>
    requires { length lhs.now.rows ≡ length rhs.now.rows }
    ensures ok { IfOk result (CombinesValues (lift T.number T.wrap ◌+ℤ◌) lhs.now rhs.now) }
    ensures err { OnlyOutOfMemory result }
{
    add(alloc, lhs, rhs)
}

/// Adds `rhs` to each slot of `lhs`, wrapping around where the sum does not fit, as [`add_scalar`] does. The result
/// holds a mask if the array does.
///
/// # Errors
/// `OutOfMemory` if an allocation fails.
pub fn wrapping_add_scalar<T: NativeArithmetics>(
    alloc: Global,
    lhs: &PrimitiveArray<T>,
    rhs: T,
) -> Result<PrimitiveArray<T>, Error>
    ensures ok { IfOk result (MapsValues (λ x. lift T.number T.wrap ◌+ℤ◌ x rhs) lhs.now) }
    ensures err { OnlyOutOfMemory result }
{
    add_scalar(alloc, lhs, rhs)
}

/// Adds to each slot of `lhs` the slot of `rhs` at its place: null where the sum does not fit. Both
/// arrays must have equally many slots. The result holds a mask.
///
/// # Errors
/// `OutOfMemory` if an allocation fails.
pub fn checked_add<T: NativeArithmetics>(
    alloc: Global,
    lhs: &PrimitiveArray<T>,
    rhs: &PrimitiveArray<T>,
) -> Result<PrimitiveArray<T>, Error>
    requires { length lhs.now.rows ≡ length rhs.now.rows }
    ensures ok { IfOk result (CombinesValuesIf (lift_checked T.number T.fits T.wrap ◌+ℤ◌) lhs.now rhs.now) }
    ensures err { OnlyOutOfMemory result }
{
    combine_checked::<T, CheckedAdd>(alloc, lhs, rhs)
}

/// Adds `rhs` to each slot of `lhs`: null where the sum does not fit. The result holds a mask.
///
/// # Errors
/// `OutOfMemory` if an allocation fails.
pub fn checked_add_scalar<T: NativeArithmetics>(
    alloc: Global,
    lhs: &PrimitiveArray<T>,
    rhs: T,
) -> Result<PrimitiveArray<T>, Error>
    ensures ok { IfOk result (MapsValuesIf (λ x. lift_checked T.number T.fits T.wrap ◌+ℤ◌ x rhs) lhs.now) }
    ensures err { OnlyOutOfMemory result }
{
    combine_checked_scalar::<T, T, CheckedAdd>(alloc, lhs, rhs)
}

/// Adds to each slot of `lhs` the slot of `rhs` at its place: the number of the type that is
/// nearest to the sum. Both arrays must have equally many slots. The result holds a mask if either
/// array does.
///
/// # Errors
/// `OutOfMemory` if an allocation fails.
pub fn saturating_add<T: NativeArithmetics>(
    alloc: Global,
    lhs: &PrimitiveArray<T>,
    rhs: &PrimitiveArray<T>,
) -> Result<PrimitiveArray<T>, Error>
    requires { length lhs.now.rows ≡ length rhs.now.rows }
    ensures ok { IfOk result (CombinesValues (lift T.number T.nearest ◌+ℤ◌) lhs.now rhs.now) }
    ensures err { OnlyOutOfMemory result }
{
    combine::<T, SaturatingAdd>(alloc, lhs, rhs)
}

/// Adds `rhs` to each slot of `lhs`: the number of the type that is nearest to the sum. The result
/// holds a mask if the array does.
///
/// # Errors
/// `OutOfMemory` if an allocation fails.
pub fn saturating_add_scalar<T: NativeArithmetics>(
    alloc: Global,
    lhs: &PrimitiveArray<T>,
    rhs: T,
) -> Result<PrimitiveArray<T>, Error>
    ensures ok { IfOk result (MapsValues (λ x. lift T.number T.nearest ◌+ℤ◌ x rhs) lhs.now) }
    ensures err { OnlyOutOfMemory result }
{
    combine_scalar::<T, T, SaturatingAdd>(alloc, lhs, rhs)
}

/// Subtracts from each slot of `lhs` the slot of `rhs` at its place, wrapping around where the
/// difference does not fit. Both arrays must have equally many slots. The result holds a mask if
/// either array does.
///
/// # Errors
/// `OutOfMemory` if an allocation fails.
pub fn sub<T: NativeArithmetics>(
    alloc: Global,
    lhs: &PrimitiveArray<T>,
    rhs: &PrimitiveArray<T>,
) -> Result<PrimitiveArray<T>, Error>
    requires { length lhs.now.rows ≡ length rhs.now.rows }
    ensures ok { IfOk result (CombinesValues (lift T.number T.wrap ◌-ℤ◌) lhs.now rhs.now) }
    ensures err { OnlyOutOfMemory result }
{
    combine::<T, WrappingSub>(alloc, lhs, rhs)
}

/// Subtracts `rhs` from each slot of `lhs`, wrapping around where the difference does not fit. The
/// result holds a mask if the array does.
///
/// # Errors
/// `OutOfMemory` if an allocation fails.
pub fn sub_scalar<T: NativeArithmetics>(
    alloc: Global,
    lhs: &PrimitiveArray<T>,
    rhs: T,
) -> Result<PrimitiveArray<T>, Error>
    ensures ok { IfOk result (MapsValues (λ x. lift T.number T.wrap ◌-ℤ◌ x rhs) lhs.now) }
    ensures err { OnlyOutOfMemory result }
{
    combine_scalar::<T, T, WrappingSub>(alloc, lhs, rhs)
}

/// Subtracts from each slot of `lhs` the slot of `rhs` at its place, wrapping around where the difference does not fit,
/// as [`sub`] does. Both arrays must have equally many slots. The result holds a mask if either array does.
///
/// # Errors
/// `OutOfMemory` if an allocation fails.
pub fn wrapping_sub<T: NativeArithmetics>(
    alloc: Global,
    lhs: &PrimitiveArray<T>,
    rhs: &PrimitiveArray<T>,
) -> Result<PrimitiveArray<T>, Error>
    requires { length lhs.now.rows ≡ length rhs.now.rows }
    ensures ok { IfOk result (CombinesValues (lift T.number T.wrap ◌-ℤ◌) lhs.now rhs.now) }
    ensures err { OnlyOutOfMemory result }
{
    sub(alloc, lhs, rhs)
}

/// Subtracts `rhs` from each slot of `lhs`, wrapping around where the difference does not fit, as [`sub_scalar`] does.
/// The result holds a mask if the array does.
///
/// # Errors
/// `OutOfMemory` if an allocation fails.
pub fn wrapping_sub_scalar<T: NativeArithmetics>(
    alloc: Global,
    lhs: &PrimitiveArray<T>,
    rhs: T,
) -> Result<PrimitiveArray<T>, Error>
    ensures ok { IfOk result (MapsValues (λ x. lift T.number T.wrap ◌-ℤ◌ x rhs) lhs.now) }
    ensures err { OnlyOutOfMemory result }
{
    sub_scalar(alloc, lhs, rhs)
}

/// Subtracts from each slot of `lhs` the slot of `rhs` at its place: null where the difference does
/// not fit. Both arrays must have equally many slots. The result holds a mask.
///
/// # Errors
/// `OutOfMemory` if an allocation fails.
pub fn checked_sub<T: NativeArithmetics>(
    alloc: Global,
    lhs: &PrimitiveArray<T>,
    rhs: &PrimitiveArray<T>,
) -> Result<PrimitiveArray<T>, Error>
    requires { length lhs.now.rows ≡ length rhs.now.rows }
    ensures ok { IfOk result (CombinesValuesIf (lift_checked T.number T.fits T.wrap ◌-ℤ◌) lhs.now rhs.now) }
    ensures err { OnlyOutOfMemory result }
{
    combine_checked::<T, CheckedSub>(alloc, lhs, rhs)
}

/// Subtracts `rhs` from each slot of `lhs`: null where the difference does not fit. The result
/// holds a mask.
///
/// # Errors
/// `OutOfMemory` if an allocation fails.
pub fn checked_sub_scalar<T: NativeArithmetics>(
    alloc: Global,
    lhs: &PrimitiveArray<T>,
    rhs: T,
) -> Result<PrimitiveArray<T>, Error>
    ensures ok { IfOk result (MapsValuesIf (λ x. lift_checked T.number T.fits T.wrap ◌-ℤ◌ x rhs) lhs.now) }
    ensures err { OnlyOutOfMemory result }
{
    combine_checked_scalar::<T, T, CheckedSub>(alloc, lhs, rhs)
}

/// Subtracts from each slot of `lhs` the slot of `rhs` at its place: the number of the type that is
/// nearest to the difference. Both arrays must have equally many slots. The result holds a mask if
/// either array does.
///
/// # Errors
/// `OutOfMemory` if an allocation fails.
pub fn saturating_sub<T: NativeArithmetics>(
    alloc: Global,
    lhs: &PrimitiveArray<T>,
    rhs: &PrimitiveArray<T>,
) -> Result<PrimitiveArray<T>, Error>
    requires { length lhs.now.rows ≡ length rhs.now.rows }
    ensures ok { IfOk result (CombinesValues (lift T.number T.nearest ◌-ℤ◌) lhs.now rhs.now) }
    ensures err { OnlyOutOfMemory result }
{
    combine::<T, SaturatingSub>(alloc, lhs, rhs)
}

/// Subtracts `rhs` from each slot of `lhs`: the number of the type that is nearest to the
/// difference. The result holds a mask if the array does.
///
/// # Errors
/// `OutOfMemory` if an allocation fails.
pub fn saturating_sub_scalar<T: NativeArithmetics>(
    alloc: Global,
    lhs: &PrimitiveArray<T>,
    rhs: T,
) -> Result<PrimitiveArray<T>, Error>
    ensures ok { IfOk result (MapsValues (λ x. lift T.number T.nearest ◌-ℤ◌ x rhs) lhs.now) }
    ensures err { OnlyOutOfMemory result }
{
    combine_scalar::<T, T, SaturatingSub>(alloc, lhs, rhs)
}

/// Multiplies each slot of `lhs` by the slot of `rhs` at its place, wrapping around where the
/// product does not fit. Both arrays must have equally many slots. The result holds a mask if
/// either array does.
///
/// # Errors
/// `OutOfMemory` if an allocation fails.
pub fn mul<T: NativeArithmetics>(
    alloc: Global,
    lhs: &PrimitiveArray<T>,
    rhs: &PrimitiveArray<T>,
) -> Result<PrimitiveArray<T>, Error>
    requires { length lhs.now.rows ≡ length rhs.now.rows }
    ensures ok { IfOk result (CombinesValues (lift T.number T.wrap ◌*ℤ◌) lhs.now rhs.now) }
    ensures err { OnlyOutOfMemory result }
{
    combine::<T, WrappingMul>(alloc, lhs, rhs)
}

/// Multiplies each slot of `lhs` by `rhs`, wrapping around where the product does not fit. The
/// result holds a mask if the array does.
///
/// # Errors
/// `OutOfMemory` if an allocation fails.
pub fn mul_scalar<T: NativeArithmetics>(
    alloc: Global,
    lhs: &PrimitiveArray<T>,
    rhs: T,
) -> Result<PrimitiveArray<T>, Error>
    ensures ok { IfOk result (MapsValues (λ x. lift T.number T.wrap ◌*ℤ◌ x rhs) lhs.now) }
    ensures err { OnlyOutOfMemory result }
{
    combine_scalar::<T, T, WrappingMul>(alloc, lhs, rhs)
}

/// Multiplies each slot of `lhs` by the slot of `rhs` at its place, wrapping around where the product does not fit, as
/// [`mul`] does. Both arrays must have equally many slots. The result holds a mask if either array does.
///
/// # Errors
/// `OutOfMemory` if an allocation fails.
pub fn wrapping_mul<T: NativeArithmetics>(
    alloc: Global,
    lhs: &PrimitiveArray<T>,
    rhs: &PrimitiveArray<T>,
) -> Result<PrimitiveArray<T>, Error>
    requires { length lhs.now.rows ≡ length rhs.now.rows }
    ensures ok { IfOk result (CombinesValues (lift T.number T.wrap ◌*ℤ◌) lhs.now rhs.now) }
    ensures err { OnlyOutOfMemory result }
{
    mul(alloc, lhs, rhs)
}

/// Multiplies each slot of `lhs` by `rhs`, wrapping around where the product does not fit, as [`mul_scalar`] does. The
/// result holds a mask if the array does.
///
/// # Errors
/// `OutOfMemory` if an allocation fails.
pub fn wrapping_mul_scalar<T: NativeArithmetics>(
    alloc: Global,
    lhs: &PrimitiveArray<T>,
    rhs: T,
) -> Result<PrimitiveArray<T>, Error>
    ensures ok { IfOk result (MapsValues (λ x. lift T.number T.wrap ◌*ℤ◌ x rhs) lhs.now) }
    ensures err { OnlyOutOfMemory result }
{
    mul_scalar(alloc, lhs, rhs)
}

/// Multiplies each slot of `lhs` by the slot of `rhs` at its place: null where the product does not
/// fit. Both arrays must have equally many slots. The result holds a mask.
///
/// # Errors
/// `OutOfMemory` if an allocation fails.
pub fn checked_mul<T: NativeArithmetics>(
    alloc: Global,
    lhs: &PrimitiveArray<T>,
    rhs: &PrimitiveArray<T>,
) -> Result<PrimitiveArray<T>, Error>
    requires { length lhs.now.rows ≡ length rhs.now.rows }
    ensures ok { IfOk result (CombinesValuesIf (lift_checked T.number T.fits T.wrap ◌*ℤ◌) lhs.now rhs.now) }
    ensures err { OnlyOutOfMemory result }
{
    combine_checked::<T, CheckedMul>(alloc, lhs, rhs)
}

/// Multiplies each slot of `lhs` by `rhs`: null where the product does not fit. The result holds a
/// mask.
///
/// # Errors
/// `OutOfMemory` if an allocation fails.
pub fn checked_mul_scalar<T: NativeArithmetics>(
    alloc: Global,
    lhs: &PrimitiveArray<T>,
    rhs: T,
) -> Result<PrimitiveArray<T>, Error>
    ensures ok { IfOk result (MapsValuesIf (λ x. lift_checked T.number T.fits T.wrap ◌*ℤ◌ x rhs) lhs.now) }
    ensures err { OnlyOutOfMemory result }
{
    combine_checked_scalar::<T, T, CheckedMul>(alloc, lhs, rhs)
}

/// Multiplies each slot of `lhs` by the slot of `rhs` at its place: the number of the type that is
/// nearest to the product. Both arrays must have equally many slots. The result holds a mask if
/// either array does.
///
/// # Errors
/// `OutOfMemory` if an allocation fails.
pub fn saturating_mul<T: NativeArithmetics>(
    alloc: Global,
    lhs: &PrimitiveArray<T>,
    rhs: &PrimitiveArray<T>,
) -> Result<PrimitiveArray<T>, Error>
    requires { length lhs.now.rows ≡ length rhs.now.rows }
    ensures ok { IfOk result (CombinesValues (lift T.number T.nearest ◌*ℤ◌) lhs.now rhs.now) }
    ensures err { OnlyOutOfMemory result }
{
    combine::<T, SaturatingMul>(alloc, lhs, rhs)
}

/// Multiplies each slot of `lhs` by `rhs`: the number of the type that is nearest to the product.
/// The result holds a mask if the array does.
///
/// # Errors
/// `OutOfMemory` if an allocation fails.
pub fn saturating_mul_scalar<T: NativeArithmetics>(
    alloc: Global,
    lhs: &PrimitiveArray<T>,
    rhs: T,
) -> Result<PrimitiveArray<T>, Error>
    ensures ok { IfOk result (MapsValues (λ x. lift T.number T.nearest ◌*ℤ◌ x rhs) lhs.now) }
    ensures err { OnlyOutOfMemory result }
{
    combine_scalar::<T, T, SaturatingMul>(alloc, lhs, rhs)
}

/// Divides each slot of `lhs` by the slot of `rhs` at its place, rounding toward zero. Where both
/// slots are valid, that of `rhs` must not be zero, which [`has_zero_divisor`] tests. The least
/// number of a signed type divided by -1 wraps to itself. Both arrays must have equally many slots.
/// The result holds a mask if either array does.
///
/// # Errors
/// `OutOfMemory` if an allocation fails.
pub fn div<T: NativeArithmetics>(
    alloc: Global,
    lhs: &PrimitiveArray<T>,
    rhs: &PrimitiveArray<T>,
) -> Result<PrimitiveArray<T>, Error>
    requires same { length lhs.now.rows ≡ length rhs.now.rows }
    requires divisors { NoZeroDivisor T.number (slots_of lhs.now) (slots_of rhs.now) }
    ensures ok { IfOk result (CombinesValues (lift T.number T.wrap int_div) lhs.now rhs.now) }
    ensures err { OnlyOutOfMemory result }
{
    combine::<T, Div>(alloc, lhs, rhs)
}

/// Divides each slot of `lhs` by `rhs`, rounding toward zero. `rhs` must not be zero. The least
/// number of a signed type divided by -1 wraps to itself. The result holds a mask if the array
/// does.
///
/// # Errors
/// `OutOfMemory` if an allocation fails.
pub fn div_scalar<T: NativeArithmetics>(
    alloc: Global,
    lhs: &PrimitiveArray<T>,
    rhs: T,
) -> Result<PrimitiveArray<T>, Error>
    requires { T.number rhs ≢ pos 0 }
    ensures ok { IfOk result (MapsValues (λ x. lift T.number T.wrap int_div x rhs) lhs.now) }
    ensures err { OnlyOutOfMemory result }
{
    combine_scalar::<T, T, Div>(alloc, lhs, rhs)
}

/// Divides each slot of `lhs` by the slot of `rhs` at its place, rounding toward zero: null where
/// the divisor is zero, or where the quotient does not fit. Both arrays must have equally many
/// slots. The result holds a mask.
///
/// # Errors
/// `OutOfMemory` if an allocation fails.
pub fn checked_div<T: NativeArithmetics>(
    alloc: Global,
    lhs: &PrimitiveArray<T>,
    rhs: &PrimitiveArray<T>,
) -> Result<PrimitiveArray<T>, Error>
    requires { length lhs.now.rows ≡ length rhs.now.rows }
    ensures ok { IfOk result (CombinesValuesIf (lift_division T.number T.fits T.wrap int_div) lhs.now rhs.now) }
    ensures err { OnlyOutOfMemory result }
{
    combine_checked::<T, CheckedDiv>(alloc, lhs, rhs)
}

/// Divides each slot of `lhs` by `rhs`, rounding toward zero: null where `rhs` is zero, or where
/// the quotient does not fit. The result holds a mask.
///
/// # Errors
/// `OutOfMemory` if an allocation fails.
pub fn checked_div_scalar<T: NativeArithmetics>(
    alloc: Global,
    lhs: &PrimitiveArray<T>,
    rhs: T,
) -> Result<PrimitiveArray<T>, Error>
    ensures ok { IfOk result (MapsValuesIf (λ x. lift_division T.number T.fits T.wrap int_div x rhs) lhs.now) }
    ensures err { OnlyOutOfMemory result }
{
    combine_checked_scalar::<T, T, CheckedDiv>(alloc, lhs, rhs)
}

/// Returns the remainder of each slot of `lhs` divided by the slot of `rhs` at its place, which has
/// the sign of the dividend. Where both slots are valid, that of `rhs` must not be zero, which
/// [`has_zero_divisor`] tests. Both arrays must have equally many slots. The result holds a mask if
/// either array does.
///
/// # Errors
/// `OutOfMemory` if an allocation fails.
pub fn rem<T: NativeArithmetics>(
    alloc: Global,
    lhs: &PrimitiveArray<T>,
    rhs: &PrimitiveArray<T>,
) -> Result<PrimitiveArray<T>, Error>
    requires same { length lhs.now.rows ≡ length rhs.now.rows }
    requires divisors { NoZeroDivisor T.number (slots_of lhs.now) (slots_of rhs.now) }
    ensures ok { IfOk result (CombinesValues (lift T.number T.wrap int_rem) lhs.now rhs.now) }
    ensures err { OnlyOutOfMemory result }
{
    combine::<T, Rem>(alloc, lhs, rhs)
}

/// Returns the remainder of each slot of `lhs` divided by `rhs`, which has the sign of the
/// dividend. `rhs` must not be zero. The result holds a mask if the array does.
///
/// # Errors
/// `OutOfMemory` if an allocation fails.
pub fn rem_scalar<T: NativeArithmetics>(
    alloc: Global,
    lhs: &PrimitiveArray<T>,
    rhs: T,
) -> Result<PrimitiveArray<T>, Error>
    requires { T.number rhs ≢ pos 0 }
    ensures ok { IfOk result (MapsValues (λ x. lift T.number T.wrap int_rem x rhs) lhs.now) }
    ensures err { OnlyOutOfMemory result }
{
    combine_scalar::<T, T, Rem>(alloc, lhs, rhs)
}

/// Returns the remainder of each slot of `lhs` divided by the slot of `rhs` at its place, which has
/// the sign of the dividend: null where the divisor is zero, or where the quotient does not fit.
/// Both arrays must have equally many slots. The result holds a mask.
///
/// # Errors
/// `OutOfMemory` if an allocation fails.
pub fn checked_rem<T: NativeArithmetics>(
    alloc: Global,
    lhs: &PrimitiveArray<T>,
    rhs: &PrimitiveArray<T>,
) -> Result<PrimitiveArray<T>, Error>
    requires { length lhs.now.rows ≡ length rhs.now.rows }
    ensures ok { IfOk result (CombinesValuesIf (lift_division T.number T.fits T.wrap int_rem) lhs.now rhs.now) }
    ensures err { OnlyOutOfMemory result }
{
    combine_checked::<T, CheckedRem>(alloc, lhs, rhs)
}

/// Returns the remainder of each slot of `lhs` divided by `rhs`, which has the sign of the
/// dividend: null where `rhs` is zero, or where the quotient does not fit. The result holds a mask.
///
/// # Errors
/// `OutOfMemory` if an allocation fails.
pub fn checked_rem_scalar<T: NativeArithmetics>(
    alloc: Global,
    lhs: &PrimitiveArray<T>,
    rhs: T,
) -> Result<PrimitiveArray<T>, Error>
    ensures ok { IfOk result (MapsValuesIf (λ x. lift_division T.number T.fits T.wrap int_rem x rhs) lhs.now) }
    ensures err { OnlyOutOfMemory result }
{
    combine_checked_scalar::<T, T, CheckedRem>(alloc, lhs, rhs)
}

/// Negates each slot, wrapping around where the negation does not fit. The result holds a mask if
/// the array does.
///
/// # Errors
/// `OutOfMemory` if an allocation fails.
pub fn negate<T: NativeArithmetics>(
    alloc: Global,
    array: &PrimitiveArray<T>,
) -> Result<PrimitiveArray<T>, Error>
    ensures ok { IfOk result (MapsValues (λ x. T.wrap (neg_ℤ (T.number x))) array.now) }
    ensures err { OnlyOutOfMemory result }
{
    combine_scalar::<T, NoOperand, Negate>(alloc, array, NoOperand)
}

/// Negates each slot, wrapping around where the negation does not fit, as [`negate`] does. The
/// result holds a mask if the array does.
///
/// # Errors
/// `OutOfMemory` if an allocation fails.
pub fn wrapping_negate<T: NativeArithmetics>(
    alloc: Global,
    array: &PrimitiveArray<T>,
) -> Result<PrimitiveArray<T>, Error>
    ensures ok { IfOk result (MapsValues (λ x. T.wrap (neg_ℤ (T.number x))) array.now) }
    ensures err { OnlyOutOfMemory result }
{
    negate(alloc, array)
}

/// Negates each slot: null where the negation does not fit. The result holds a mask.
///
/// # Errors
/// `OutOfMemory` if an allocation fails.
pub fn checked_negate<T: NativeArithmetics>(
    alloc: Global,
    array: &PrimitiveArray<T>,
) -> Result<PrimitiveArray<T>, Error>
    ensures ok { IfOk result (MapsValuesIf (λ x. some_if (T.fits (neg_ℤ (T.number x)))
        (T.wrap (neg_ℤ (T.number x)))) array.now) }
    ensures err { OnlyOutOfMemory result }
{
    combine_checked_scalar::<T, NoOperand, CheckedNegate>(alloc, array, NoOperand)
}

/// Returns whether a slot is valid and zero.
#[inline(always)]
fn is_zero<T: NativeArithmetics>(slot: Option<T>) -> bool
    ensures { result ≡ slot_is_zero T.number slot }
{
    match slot {
        Some(value) => value == T::default(),
        None => false,
    }
}

/// Returns whether a valid slot is zero. If not, [`div`] and [`rem`] can divide any array of equal length by this one.
pub fn has_zero<T: NativeArithmetics>(array: &PrimitiveArray<T>) -> bool
    ensures value { result ≡ list_any (slot_is_zero T.number) (slots_of array.now) }
    ensures none { OnFalse result (NoSlotIsZero T.number (slots_of array.now)) }
    ensures divides { OnFalse result ((dividends : List (Option T))
        → NoZeroDivisor T.number dividends (slots_of array.now)) }
{
    for i in 0..array.len() {
        if is_zero(array.get(i)) {
            return true;
        }
    }
    false
}

/// Returns whether both slots are valid, and the second is zero.
#[inline(always)]
fn divides_by_zero<T: NativeArithmetics>(dividend: Option<T>, divisor: Option<T>) -> bool
    ensures { result ≡ divides_by_zero T.number dividend divisor }
{
    if let Some(_) = dividend {
        is_zero(divisor)
    } else {
        false
    }
}

/// Returns whether `rhs` has a valid zero at an index where the slot of `lhs` is valid. If not, [`div`] and [`rem`] can
/// divide `lhs` by `rhs`. Both arrays must have equally many slots.
pub fn has_zero_divisor<T: NativeArithmetics>(
    lhs: &PrimitiveArray<T>,
    rhs: &PrimitiveArray<T>,
) -> bool
    requires { length lhs.now.rows ≡ length rhs.now.rows }
    ensures value { result ≡ list_any (λ pair. divides_by_zero T.number pair.0 pair.1)
        (zip (slots_of lhs.now) (slots_of rhs.now)) }
    ensures none { OnFalse result (NoZeroDivisor T.number (slots_of lhs.now) (slots_of rhs.now)) }
{
    for i in 0..lhs.len() {
        if divides_by_zero(lhs.get(i), rhs.get(i)) {
            return true;
        }
    }
    false
}
