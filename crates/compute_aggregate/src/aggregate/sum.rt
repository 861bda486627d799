//! Sums of arrays of integers. A sum is exact: numbers are added in 64 bits, in halves or in 128 bits, and whether the
//! sum fits is asked at the end.
ghost use Rattle.std.specs.Prelude.{◌≡◌, ◌&&◌, ◌<◌, ◌≤◌, ◌^◌, IfErr, IfOk, IfSome, Some};
ghost use Rattle.std.specs.Prelude.{if◌then◌else◌, length, map, nat_le, option_map, pos, slice_get, unsigned_abs};
ghost use Rattle.std.specs.Int.{w128};
ghost use Rattle.arrow_integers.specs.NativeArithmetics.{fits_signed};
ghost use Rattle.arrow_column.specs.Column.{slots_of};
ghost use Rattle.compute_aggregate.specs.Aggregates.{sum_all, sum_of, valid_values};
ghost use Rattle.compute_aggregate.specs.Sums.{IsTotal, TotalOverflows, high_half, low_half, number_or_zero};
ghost use Rattle.compute_aggregate.specs.Sums.{of_halves, sum_split};

use crate::aggregate::fold::{Folder, fold_slots};
use arrow_integers::NativeArithmetics;
use arrow_primitive::PrimitiveArray;
use arrow_types::error::Error;
use arrow_types::primitive_type::PrimitiveType;

/// Returns whether both are true.
#[inline(always)]
fn both(lhs: bool, rhs: bool) -> bool
    ensures { result ≡ (lhs && rhs) }
{
    lhs && rhs
}

/// Returns the number if it is at most 2 ^ 32 from zero, else zero.
#[inline(always)]
fn narrow_or_zero(number: i128) -> i64
    ensures { result ≡ (if nat_le (unsigned_abs number) (2 ^ 32) then number else pos 0) }
{
    if number.unsigned_abs() <= 1 << 32 {
        number as i64
    } else {
        0
    }
}

/// Returns the number if it is at most 2 ^ 64 from zero, else zero.
#[inline(always)]
fn wide_or_zero(number: i128) -> i128
    ensures number { result ≡ (if nat_le (unsigned_abs number) (2 ^ 64) then number else pos 0) }
    ensures size { unsigned_abs result ≤ 2 ^ 64 }
{
    if number.unsigned_abs() <= 1 << 64 {
        number
    } else {
        0
    }
}

/// Returns whether the numbers of a type are at most 2 ^ 32 from zero. It has no contract, since only speed depends on
/// the result.
#[inline(always)]
fn is_narrow(primitive: PrimitiveType) -> bool {
    match primitive {
        PrimitiveType::Int8 | PrimitiveType::Int16 | PrimitiveType::Int32 => true,
        PrimitiveType::UInt8 | PrimitiveType::UInt16 | PrimitiveType::UInt32 => true,
        _ => false,
    }
}

/// Sums numbers that are at most 2 ^ 32 from zero, and returns whether all were.
struct NarrowSum;

impl<T: NativeArithmetics> Folder<T> for NarrowSum {
    ghost use Rattle.std.specs.Prelude.{◌^◌};
    ghost use Rattle.std.specs.Int.{w64};
    ghost use Rattle.compute_aggregate.specs.Sums.{add_small};

    type State = (i64, bool);

    ghost step = { λ state value. add_small w64 (2 ^ 32) state (T.number value) };

    #[inline(always)]
    fn step(state: (i64, bool), value: T) -> (i64, bool) {
        let number = value.to_i128();
        let sum = NativeArithmetics::wrapping_add(state.0, narrow_or_zero(number));
        (sum, both(state.1, number.unsigned_abs() <= 1 << 32))
    }
}

/// Returns a number as a high half, which counts 2 ^ 32, and a low half of 32 bits.
#[inline(always)]
fn halves(number: i128) -> (i64, i64)
    requires { unsigned_abs number ≤ 2 ^ 64 }
    ensures high { result.0 ≡ high_half number }
    ensures low { result.1 ≡ low_half number }
{
    let high = number >> 32;
    let low = number - high * (1 << 32);
    (high as i64, low as i64)
}

/// Returns the number of a high and a low half.
fn join_halves(halves: (i64, i64)) -> i128
    ensures { result ≡ of_halves halves }
{
    i128::from(halves.0) * (1 << 32) + i128::from(halves.1)
}

/// Sums the halves of numbers that are at most 2 ^ 64 from zero, and returns whether all were. The halves of several
/// numbers are added at once, since no sum of 64 bits carries into another.
struct HalvesSum;

impl<T: NativeArithmetics> Folder<T> for HalvesSum {
    ghost use Rattle.compute_aggregate.specs.Sums.{add_halves};

    type State = ((i64, i64), bool);

    ghost step = { λ state value. add_halves state (T.number value) };

    #[inline(always)]
    fn step(state: ((i64, i64), bool), value: T) -> ((i64, i64), bool) {
        let number = value.to_i128();
        let (high, low) = halves(wide_or_zero(number));
        let high = NativeArithmetics::wrapping_add(state.0.0, high);
        let low = NativeArithmetics::wrapping_add(state.0.1, low);
        ((high, low), both(state.1, number.unsigned_abs() <= 1 << 64))
    }
}

/// Sums numbers that are at most 2 ^ 64 from zero, and returns whether all were.
struct WideSum;

impl<T: NativeArithmetics> Folder<T> for WideSum {
    ghost use Rattle.std.specs.Prelude.{◌^◌};
    ghost use Rattle.std.specs.Int.{w128};
    ghost use Rattle.compute_aggregate.specs.Sums.{add_small};

    type State = (i128, bool);

    ghost step = { λ state value. add_small w128 (2 ^ 64) state (T.number value) };

    #[inline(always)]
    fn step(state: (i128, bool), value: T) -> (i128, bool) {
        let number = value.to_i128();
        let sum = NativeArithmetics::wrapping_add(state.0, wide_or_zero(number));
        (sum, both(state.1, number.unsigned_abs() <= 1 << 64))
    }
}

/// Returns the high and the low 64 bits of a number.
#[inline(always)]
pub(crate) fn split(number: i128) -> (i128, u128)
    ensures parts { sum_split result ≡ number }
    ensures high { unsigned_abs result.0 ≤ 2 ^ 63 }
    ensures low { result.1 < 2 ^ 64 }
{
    let high = number.div_euclid(1 << 64);
    let low = number.rem_euclid(1 << 64);
    (high, low as u128)
}

/// Returns the sum of high parts, each times 2 ^ 64, and low ones, if it fits in an `i128`.
pub(crate) fn join_sum(sums: (i128, u128)) -> Option<i128>
    ensures { IsTotal (sum_split sums) result }
{
    let (high, low) = sums;
    let high = high.checked_add((low >> 64) as i128)?;
    let high = high.checked_mul(1 << 64)?;
    high.checked_add((low % (1 << 64)) as i128)
}

/// Returns the sum of the valid slots, if there are fewer than 2 ^ 30 slots and no number is more than 2 ^ 32 from
/// zero.
fn narrow_total<T: NativeArithmetics>(array: &PrimitiveArray<T>) -> Option<i64>
    ensures { IfSome result (λ sum. sum ≡ sum_all (map T.number (valid_values array.now))) }
{
    if array.len() >= 1 << 30 {
        return None;
    }
    let (sum, is_exact) = fold_slots::<NarrowSum, T>((0, true), array, T::default());
    if is_exact { Some(sum) } else { None }
}

/// Returns the sum of fewer than 2 ^ 30 slots, if no number is more than 2 ^ 64 from zero.
fn halves_total<T: NativeArithmetics>(array: &PrimitiveArray<T>) -> Option<i128>
    requires { length array.now.rows < 2 ^ 30 }
    ensures { IfSome result (λ sum. sum ≡ sum_all (map T.number (valid_values array.now))) }
{
    let (sums, is_exact) = fold_slots::<HalvesSum, T>(((0, 0), true), array, T::default());
    if is_exact {
        Some(join_halves(sums))
    } else {
        None
    }
}

/// Returns the sum of the valid slots, if there are fewer than 2 ^ 62 slots and no number is more than 2 ^ 64 from
/// zero.
fn wide_total<T: NativeArithmetics>(array: &PrimitiveArray<T>) -> Option<i128>
    ensures { IfSome result (λ sum. sum ≡ sum_all (map T.number (valid_values array.now))) }
{
    if array.len() >= 1 << 62 {
        return None;
    }
    let (sum, is_exact) = fold_slots::<WideSum, T>((0, true), array, T::default());
    if is_exact { Some(sum) } else { None }
}

/// Returns the number of the slot at `i`, zero if it is null.
#[inline(always)]
fn number_at<T: NativeArithmetics>(array: &PrimitiveArray<T>, i: usize) -> i128
    requires { i < length array.now.rows }
    ensures { option_map (number_or_zero T.number) (slice_get (slots_of array.now) i) ≡ Some result }
{
    let number = array.value(i).to_i128();
    if array.is_valid(i) { number } else { 0 }
}

/// Returns the sum of the valid slots, if it fits in an `i128`.
fn split_total<T: NativeArithmetics>(array: &PrimitiveArray<T>) -> Option<i128>
    ensures { IsTotal (sum_all (map T.number (valid_values array.now))) result }
{
    let (mut high, mut low) = (0i128, 0u128);
    for i in 0..array.len() {
        let parts = split(number_at(array, i));
        high += parts.0;
        low += parts.1;
    }
    join_sum((high, low))
}

/// Returns the sum of the valid slots, if it fits in an `i128`. Each way is exact, the first that applies is the
/// fastest.
fn total<T: NativeArithmetics>(array: &PrimitiveArray<T>) -> Option<i128>
    ensures { IsTotal (sum_all (map T.number (valid_values array.now))) result }
{
    if is_narrow(T::PRIMITIVE) {
        if let Some(sum) = narrow_total(array) {
            return Some(i128::from(sum));
        }
    }
    let near = if array.len() < 1 << 30 {
        halves_total(array)
    } else {
        wide_total(array)
    };
    match near {
        Some(sum) => Some(sum),
        None => split_total(array),
    }
}

/// Returns the sum of the valid slots, or `None` if no slot is valid. Only the whole sum has to fit, and not those on
/// the way to it.
///
/// # Errors
/// `Overflow` if the sum does not fit in the type of the values.
pub fn sum_primitive<T: NativeArithmetics>(array: &PrimitiveArray<T>) -> Result<Option<T>, Error>
    ensures ok { IfOk result (λ sum. option_map T.number sum ≡ sum_of (map T.number (valid_values array.now))) }
    ensures err { IfErr result (TotalOverflows T.fits (sum_all (map T.number (valid_values array.now)))) }
{
    if array.null_count() == array.len() {
        return Ok(None);
    }
    let Some(sum) = total(array) else {
        return Err(Error::Overflow);
    };
    match T::from_i128(sum) {
        Some(sum) => Ok(Some(sum)),
        None => Err(Error::Overflow),
    }
}

/// Returns the sum of the valid slots as an `i128`, or `None` if no slot is valid. Only the whole sum has to fit, and
/// not those on the way to it.
///
/// # Errors
/// `Overflow` if the sum does not fit in 128 bits.
pub fn sum_wide<T: NativeArithmetics>(array: &PrimitiveArray<T>) -> Result<Option<i128>, Error>
    ensures ok { IfOk result (λ sum. sum ≡ sum_of (map T.number (valid_values array.now))) }
    ensures err { IfErr result (TotalOverflows (fits_signed w128)
        (sum_all (map T.number (valid_values array.now)))) }
{
    if array.null_count() == array.len() {
        return Ok(None);
    }
    let Some(wide) = total(array) else {
        return Err(Error::Overflow);
    };
    Ok(Some(wide))
}
