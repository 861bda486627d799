//! Sums of groups of slots, each an error exactly if it does not fit, whatever its sums on the way are.
ghost use Rattle.std.specs.Prelude.{◌≡◌, ◌+ℤ◌, ◌+◌, ◌||◌, ◌<◌, ◌≤◌, ◌^◌, ℕ, All, IfErr, IfOk, None, Some, false};
ghost use Rattle.std.specs.Prelude.{if◌then◌else◌, length, option_map, pos, slice_get, unsigned_abs};
ghost use Rattle.std.specs.Int.{w128};
ghost use Rattle.arrow_types.specs.Types.{IsRightType, logical_type};
ghost use Rattle.arrow_types.specs.declared.physical_type.PhysicalType.TheVariants as PhysicalType;
ghost use Rattle.arrow_types.specs.declared.primitive_type.PrimitiveType.TheVariants.{Int128};
ghost use Rattle.arrow_integers.specs.NativeArithmetics.{fits_signed};
ghost use Rattle.compute_aggregate.specs.GroupSums.{GroupSumsRefused, HasGroupSums, ShowsGroupSums, ShowsSums};
ghost use Rattle.compute_aggregate.specs.GroupSums.{SlotOverflow, SlotsRefused, SumsGroups, SumsGroupsAs};
ghost use Rattle.compute_aggregate.specs.GroupSums.{SumsGroupsWide, SumsRefused, sum_slot_of};
ghost use Rattle.compute_aggregate.specs.Sums.{number_or_zero};

use crate::aggregate::made::numbers_of_type;
use crate::aggregate::sum::{join_sum, split};
use crate::aggregate::whole_sums::{whole_slots, whole_sums};
use arrow_integers::NativeArithmetics;
use arrow_primitive::PrimitiveArray;
use arrow_types::data_type::DataType;
use arrow_types::error::Error;
use arrow_types::physical_type::PhysicalType;
use compute_group::Groups;
use std::alloc::Global;

/// Returns the number of a valid slot, zero of a null one.
#[inline(always)]
pub(crate) fn valid_number<T: NativeArithmetics>(value: T, is_valid: bool) -> i128
    ensures { result ≡ number_or_zero T.number (if is_valid then Some value else None) }
{
    let number = value.to_i128();
    if is_valid { number } else { 0 }
}

/// Returns whether either is true.
#[inline(always)]
pub(crate) fn either(lhs: bool, rhs: bool) -> bool
    ensures { result ≡ (lhs || rhs) }
{
    lhs || rhs
}

/// Adds the parts of a number to sums of parts, and notes whether there was a valid slot.
#[inline(always)]
fn add_parts(sum: ((i128, u128), bool), parts: (i128, u128), is_valid: bool) -> ((i128, u128), bool)
    requires high { unsigned_abs sum.0.0 + 2 ^ 64 ≤ 2 ^ 127 }
    requires part { unsigned_abs parts.0 ≤ 2 ^ 63 }
    requires low { sum.0.1 + parts.1 < 2 ^ 128 }
    ensures { result ≡ ((sum.0.0 +ℤ parts.0, sum.0.1 + parts.1), sum.1 || is_valid) }
{
    let is_some = either(sum.1, is_valid);
    ((sum.0.0 + parts.0, sum.0.1 + parts.1), is_some)
}

/// Adds the number of each slot to the sum of its group.
fn sum_rows<T: NativeArithmetics>(
    array: &PrimitiveArray<T>,
    indices: &[usize],
    sums: &mut [((i128, u128), bool)],
)
    requires rows { length indices.now ≡ length array.now.rows }
    requires within { All (λ g. g < length sums.old) indices.now }
    requires zero { (g : ℕ) → g < length sums.old → slice_get sums.old g ≡ Some ((pos 0, 0), false) }
    ensures { HasGroupSums T.number array.now indices.now (length sums.old) sums.new }
{
    for i in 0..indices.len() {
        let group = indices[i];
        let (value, is_valid) = (array.value(i), array.is_valid(i));
        let parts = split(valid_number(value, is_valid));
        let sum = sums[group];
        sums[group] = add_parts(sum, parts, is_valid);
    }
}

/// Returns the slot of a sum, null if there was no valid slot.
fn sum_slot<T: NativeArithmetics>(sum: ((i128, u128), bool)) -> Result<Option<T>, Error>
    ensures ok { IfOk result (λ slot. option_map T.number slot ≡ sum_slot_of sum) }
    ensures err { IfErr result (λ e. SlotOverflow T.fits sum e) }
{
    if !sum.1 {
        return Ok(None);
    }
    let Some(sum) = join_sum(sum.0) else {
        return Err(Error::Overflow);
    };
    match T::from_i128(sum) {
        Some(sum) => Ok(Some(sum)),
        None => Err(Error::Overflow),
    }
}

/// Returns the slots of sums.
fn sum_slots<T: NativeArithmetics>(
    alloc: Global,
    sums: &[((i128, u128), bool)],
) -> Result<Vec<Option<T>>, Error>
    ensures count { IfOk result (λ slots. length slots.items ≡ length sums.now) }
    ensures ok { IfOk result (λ slots. ShowsSums T.number sums.now slots.items) }
    ensures err { IfErr result (SlotsRefused T.fits sums.now) }
{
    let mut slots = Vec::with_capacity(alloc, sums.len())?;
    for i in 0..sums.len() {
        slots.push(sum_slot(sums[i])?)?;
    }
    Ok(slots)
}

/// Returns the slot of the sum of each group, from sums of high and low parts.
#[cold]
#[inline(never)]
fn split_slots<T: NativeArithmetics, S: NativeArithmetics>(
    alloc: Global,
    array: &PrimitiveArray<T>,
    indices: &[usize],
    groups: usize,
) -> Result<Vec<Option<S>>, Error>
    requires rows { length indices.now ≡ length array.now.rows }
    requires within { All (λ g. g < groups) indices.now }
    ensures count { IfOk result (λ slots. length slots.items ≡ groups) }
    ensures ok { IfOk result (λ slots. ShowsGroupSums S.number T.number array.now indices.now slots.items) }
    ensures err { IfErr result (GroupSumsRefused S.fits T.number array.now indices.now groups) }
{
    let mut sums = Vec::new(alloc);
    sums.resize(groups, ((0i128, 0u128), false))?;
    sum_rows(array, indices, sums.as_mut_slice());
    let slots = sum_slots::<S>(alloc, sums.as_slice());
    drop(sums);
    slots
}

/// Returns the slot of the sum of each group. Each way is exact, the first that applies is the faster.
fn group_slots<T: NativeArithmetics, S: NativeArithmetics>(
    alloc: Global,
    array: &PrimitiveArray<T>,
    indices: &[usize],
    groups: usize,
) -> Result<Vec<Option<S>>, Error>
    requires rows { length indices.now ≡ length array.now.rows }
    requires within { All (λ g. g < groups) indices.now }
    ensures count { IfOk result (λ slots. length slots.items ≡ groups) }
    ensures ok { IfOk result (λ slots. ShowsGroupSums S.number T.number array.now indices.now slots.items) }
    ensures err { IfErr result (GroupSumsRefused S.fits T.number array.now indices.now groups) }
{
    let mut sums = Vec::new(alloc);
    sums.resize(groups, (0i128, false))?;
    let is_whole = whole_sums(array, indices, sums.as_mut_slice());
    if !is_whole {
        drop(sums);
        return split_slots::<T, S>(alloc, array, indices, groups);
    }
    let slots = whole_slots::<S>(alloc, sums.as_slice());
    drop(sums);
    slots
}

/// Returns the array of the sum of each group, null for a group that has no valid slot.
fn sum_groups<T: NativeArithmetics, S: NativeArithmetics>(
    alloc: Global,
    array: &PrimitiveArray<T>,
    indices: &[usize],
    groups: usize,
    data_type: DataType,
) -> Result<PrimitiveArray<S>, Error>
    requires rows { length indices.now ≡ length array.now.rows }
    requires within { All (λ g. g < groups) indices.now }
    requires right { IsRightType (PhysicalType.Primitive S.PRIMITIVE) (logical_type data_type) }
    ensures ok { IfOk result
        (SumsGroupsAs (logical_type data_type) S.number T.number array.now indices.now groups) }
    ensures err { IfErr result (GroupSumsRefused S.fits T.number array.now indices.now groups) }
{
    match group_slots::<T, S>(alloc, array, indices, groups) {
        Err(error) => Err(error),
        Ok(slots) => {
            let made = numbers_of_type(alloc, slots.as_slice(), data_type);
            drop(slots);
            made
        }
    }
}

/// Returns the sum of the valid slots of each group, null for a group that has none. Only whole sums have to fit, and
/// not those on the way to them. The groups must be of as many slots as the array has. The result has the data type of
/// the array.
///
/// # Errors
/// `Overflow` if the sum of a group does not fit in the type of the values, and `OutOfMemory` if an allocation fails.
pub fn group_sum_primitive<T: NativeArithmetics>(
    alloc: Global,
    array: &PrimitiveArray<T>,
    groups: &Groups,
) -> Result<PrimitiveArray<T>, Error>
    requires { length groups.now.indices ≡ length array.now.rows }
    ensures ok { IfOk result
        (SumsGroups T.number array.now groups.now.indices (length groups.now.first)) }
    ensures err { IfErr result (SumsRefused T.number T.fits array.now groups.now) }
{
    let data_type = array.data_type().clone()?;
    sum_groups::<T, T>(alloc, array, groups.indices(), groups.len(), data_type)
}

/// Returns the sum of the valid slots of each group as an `i128`, null for a group that has none. Only whole sums have
/// to fit, and not those on the way to them. The groups must be of as many slots as the array has. The data type must
/// have the physical type of `i128`.
///
/// # Errors
/// `Overflow` if the sum of a group does not fit in 128 bits, and `OutOfMemory` if an allocation fails.
pub fn group_sum_wide<T: NativeArithmetics>(
    alloc: Global,
    array: &PrimitiveArray<T>,
    groups: &Groups,
    data_type: DataType,
) -> Result<PrimitiveArray<i128>, Error>
    requires rows { length groups.now.indices ≡ length array.now.rows }
    requires right { IsRightType (PhysicalType.Primitive Int128) (logical_type data_type) }
    ensures ok { IfOk result (SumsGroupsWide (logical_type data_type) T.number array.now groups.now) }
    ensures err { IfErr result (SumsRefused T.number (fits_signed w128) array.now groups.now) }
{
    sum_groups::<T, i128>(alloc, array, groups.indices(), groups.len(), data_type)
}
