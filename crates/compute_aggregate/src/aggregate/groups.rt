//! Aggregates by group: counts, and least and greatest values, which are null if no slot of the group is valid.
ghost use Rattle.std.specs.Prelude.{◌≡◌, ◌<◌, ◌^◌, ℕ, All, IfOk, None, Some, length, option_map, slice_get};
ghost use Rattle.std.specs.Ordering.{bool_cmp};
ghost use Rattle.arrow_types.specs.Failures.{OnlyOutOfMemory};
ghost use Rattle.compute_aggregate.specs.Aggregates.{extreme_slot, text_cmp};
ghost use Rattle.compute_aggregate.specs.Groups.{CountsGroups, CountsValid, ExtremesOfGroups, GroupStates, IsExtremeSlot, IsGreatestSlot, IsLeastSlot};
ghost use Rattle.compute_aggregate.specs.Groups.{AggregatesGroups, CountsRows, SeenExtremes, StatesOf, as_seen, count_step};
ghost use Rattle.compute_aggregate.specs.Groups.{KeepsExtreme};
ghost use Rattle.compute_aggregate.specs.Groups.{own_pairs};

use crate::aggregate::extreme::{Extreme, more_extreme};
use crate::aggregate::made::{booleans_like, items_like, numbers_like};
use arrow_binary::BinaryArray;
use arrow_boolean::BooleanArray;
use arrow_column::Array;
use arrow_primitive::PrimitiveArray;
use arrow_types::error::Error;
use arrow_types::native_type::NativeType;
use arrow_types::offset::Offset;
use arrow_utf8::Utf8Array;
use compute_base::bits::is_set;
use compute_base::words::marks_word;
use compute_group::Groups;
use compute_slots::{OrderSlots, ReadValues};
use std::alloc::{AllocError, Global};

/// Counts the valid slots of each group.
fn count_rows<A: Array>(array: &A, indices: &[usize], counts: &mut [u64])
    requires rows { length indices.now ≡ length (A.column array.now).rows }
    requires within { All (λ g. g < length counts.old) indices.now }
    requires zero { (g : ℕ) → g < length counts.old → slice_get counts.old g ≡ Some 0 }
    ensures folded { GroupStates count_step 0 (A.column array.now) indices.now (length counts.old) counts.new }
    ensures few { length indices.now < 2 ^ 64 }
{
    for i in 0..indices.len() {
        let group = indices[i];
        let count = counts[group];
        counts[group] = if array.is_valid(i) {
            count.wrapping_add(1)
        } else {
            count
        };
    }
}

/// Returns the number of valid slots of each group.
fn counts_of_groups<A: Array>(alloc: Global, array: &A, groups: &Groups) -> Result<Vec<u64>, Error>
    requires { length groups.now.indices ≡ length (A.column array.now).rows }
    ensures count { IfOk result (λ counts. length counts.items ≡ length groups.now.first) }
    ensures few { IfOk result (λ _. length groups.now.indices < 2 ^ 64) }
    ensures ok { IfOk result (λ counts. CountsValid (A.column array.now) groups.now counts.items) }
    ensures err { OnlyOutOfMemory result }
{
    let (indices, count) = (groups.indices(), groups.len());
    let mut counts = Vec::new(alloc);
    counts.resize(count, 0)?;
    count_rows(array, indices, counts.as_mut_slice());
    Ok(counts)
}

/// Returns the number of valid slots of each group of an array of any kind. The groups must be of as
/// many slots as the array has. The result has no mask. [`group_rows`] counts null slots too.
///
/// # Errors
/// `OutOfMemory` if an allocation fails.
pub fn group_count<A: Array>(
    alloc: Global,
    array: &A,
    groups: &Groups,
) -> Result<PrimitiveArray<u64>, Error>
    requires { length groups.now.indices ≡ length (A.column array.now).rows }
    ensures ok { IfOk result
        (CountsGroups (A.column array.now) groups.now.indices (length groups.now.first)) }
    ensures err { OnlyOutOfMemory result }
{
    PrimitiveArray::from_vec(counts_of_groups(alloc, array, groups)?)
}

/// Counts the slots of each group.
fn count_indices(indices: &[usize], counts: &mut [u64])
    requires within { All (λ g. g < length counts.old) indices.now }
    requires zero { (g : ℕ) → g < length counts.old → slice_get counts.old g ≡ Some 0 }
    ensures folded { StatesOf count_step 0 (own_pairs indices.now) (length counts.old) counts.new }
    ensures few { length indices.now < 2 ^ 64 }
{
    for i in 0..indices.len() {
        let group = indices[i];
        counts[group] = counts[group].wrapping_add(1);
    }
}

/// Returns the number of slots of each group.
fn sizes_of_groups(alloc: Global, groups: &Groups) -> Result<Vec<u64>, Error>
    ensures count { IfOk result (λ counts. length counts.items ≡ length groups.now.first) }
    ensures few { IfOk result (λ _. length groups.now.indices < 2 ^ 64) }
    ensures ok { IfOk result (λ counts.
        StatesOf count_step 0 (own_pairs groups.now.indices) (length groups.now.first) counts.items) }
    ensures err { OnlyOutOfMemory result }
{
    let (indices, count) = (groups.indices(), groups.len());
    let mut counts = Vec::new(alloc);
    counts.resize(count, 0)?;
    count_indices(indices, counts.as_mut_slice());
    Ok(counts)
}

/// Returns the number of slots of each group, null slots included. The result has no mask.
/// [`group_count`] counts the valid slots alone.
///
/// # Errors
/// `OutOfMemory` if an allocation fails.
pub fn group_rows(alloc: Global, groups: &Groups) -> Result<PrimitiveArray<u64>, Error>
    ensures ok { IfOk result (CountsRows groups.now.indices (length groups.now.first)) }
    ensures err { OnlyOutOfMemory result }
{
    PrimitiveArray::from_vec(sizes_of_groups(alloc, groups)?)
}

/// Returns the lesser, or the greater, of a value and the one before it; the one before it if the slot is null.
#[inline(always)]
fn kept_value<'a, A: OrderSlots<'a>>(
    best: Option<A::Value>,
    value: A::Value,
    is_valid: bool,
    extreme: Extreme,
) -> Option<A::Value>
    ensures { KeepsExtreme extreme A.order A.seen best (value, is_valid) result }
{
    let next = more_extreme::<A>(best, value, extreme);
    if is_valid { next } else { best }
}

/// Keeps the extreme value of the valid slots of each group. Looks the mask up once for 64 slots.
fn extreme_rows<'a, A: OrderSlots<'a> + ReadValues<'a>>(
    array: &'a A,
    indices: &[usize],
    best: &mut [Option<A::Value>],
    extreme: Extreme,
)
    requires rows { length indices.now ≡ length (A.column array.now).rows }
    requires within { All (λ g. g < length best.old) indices.now }
    requires none { (g : ℕ) → g < length best.old → slice_get best.old g ≡ Some None }
    ensures { ExtremesOfGroups extreme A.order (A.column array.entry.now) indices.now (length best.old)
        (as_seen A.seen best.new) }
{
    let (values, rows) = (array.stored_values(), indices.len());
    for i in 0..rows.div_ceil(64) {
        let place = 64 * i;
        let count = (rows - place).min(64);
        let word = marks_word(array, place, count);
        for k in 0..count {
            let (group, value) = (indices[place + k], A::stored_value(values, place + k));
            best[group] = kept_value::<A>(best[group], value, is_set(word, k), extreme);
        }
    }
}

/// Returns the extreme value of the valid slots of each group.
fn extremes_of_groups<'a, A: OrderSlots<'a> + ReadValues<'a>>(
    alloc: Global,
    array: &'a A,
    groups: &Groups,
    extreme: Extreme,
) -> Result<Vec<Option<A::Value>>, AllocError>
    requires { length groups.now.indices ≡ length (A.column array.now).rows }
    ensures count { IfOk result (λ best. length best.items ≡ length groups.now.first) }
    ensures ok { IfOk result (λ best.
        SeenExtremes extreme A.order A.seen (A.column array.entry.now) groups.now best.items) }
{
    let (indices, count) = (groups.indices(), groups.len());
    let mut best = Vec::new(alloc);
    best.resize(count, None)?;
    extreme_rows(array, indices, best.as_mut_slice(), extreme);
    Ok(best)
}

/// Returns the array of the extreme number of each group, null for a group that has no valid slot.
fn extreme_numbers<T: NativeType + Ord>(
    alloc: Global,
    array: &PrimitiveArray<T>,
    groups: &Groups,
    extreme: Extreme,
) -> Result<PrimitiveArray<T>, Error>
    requires { length groups.now.indices ≡ length array.now.rows }
    ensures ok { IfOk result (AggregatesGroups (IsExtremeSlot extreme T.cmp) array.now
        groups.now.indices (length groups.now.first)) }
    ensures err { OnlyOutOfMemory result }
{
    let best = extremes_of_groups(alloc, array, groups, extreme)?;
    let made = numbers_like(alloc, array, best.as_slice());
    drop(best);
    made
}

/// Returns the array of the extreme boolean of each group, null for a group that has no valid slot.
fn extreme_booleans(
    alloc: Global,
    array: &BooleanArray,
    groups: &Groups,
    extreme: Extreme,
) -> Result<BooleanArray, Error>
    requires { length groups.now.indices ≡ length array.now.rows }
    ensures ok { IfOk result (AggregatesGroups (IsExtremeSlot extreme bool_cmp) array.now
        groups.now.indices (length groups.now.first)) }
    ensures err { OnlyOutOfMemory result }
{
    let best = extremes_of_groups(alloc, array, groups, extreme)?;
    let made = booleans_like(alloc, array, best.as_slice());
    drop(best);
    made
}

/// Returns the array of the extreme byte string of each group, null for a group that has no valid slot.
fn extreme_bytes<O: Offset>(
    alloc: Global,
    array: &BinaryArray<O>,
    groups: &Groups,
    extreme: Extreme,
) -> Result<BinaryArray<O>, Error>
    requires { length groups.now.indices ≡ length array.now.rows }
    ensures ok { IfOk result (AggregatesGroups (IsExtremeSlot extreme text_cmp) array.now
        groups.now.indices (length groups.now.first)) }
    ensures err { OnlyOutOfMemory result }
{
    let best = extremes_of_groups(alloc, array, groups, extreme)?;
    let made = items_like(alloc, array, best.as_slice());
    drop(best);
    made
}

/// Returns the array of the extreme text of each group, null for a group that has no valid slot.
fn extreme_texts<O: Offset>(
    alloc: Global,
    array: &Utf8Array<O>,
    groups: &Groups,
    extreme: Extreme,
) -> Result<Utf8Array<O>, Error>
    requires { length groups.now.indices ≡ length array.now.rows }
    ensures ok { IfOk result (AggregatesGroups (IsExtremeSlot extreme text_cmp) array.now
        groups.now.indices (length groups.now.first)) }
    ensures err { OnlyOutOfMemory result }
{
    let best = extremes_of_groups(alloc, array, groups, extreme)?;
    let made = items_like(alloc, array, best.as_slice());
    drop(best);
    made
}

/// Returns the least value of the valid slots of each group, null for a group that has none. The
/// groups must be of as many slots as the array has. The result has the data type of the array.
///
/// # Errors
/// `OutOfMemory` if an allocation fails.
pub fn group_min_primitive<T: NativeType + Ord>(
    alloc: Global,
    array: &PrimitiveArray<T>,
    groups: &Groups,
) -> Result<PrimitiveArray<T>, Error>
    requires { length groups.now.indices ≡ length array.now.rows }
    ensures ok { IfOk result (AggregatesGroups (IsLeastSlot T.cmp) array.now
        groups.now.indices (length groups.now.first)) }
    ensures err { OnlyOutOfMemory result }
{
    extreme_numbers(alloc, array, groups, Extreme::Least)
}

/// Returns the least boolean of the valid slots of each group, where false is less than true, null
/// for a group that has none. The groups must be of as many slots as the array has. The result has
/// the data type of the array.
///
/// # Errors
/// `OutOfMemory` if an allocation fails.
pub fn group_min_boolean(
    alloc: Global,
    array: &BooleanArray,
    groups: &Groups,
) -> Result<BooleanArray, Error>
    requires { length groups.now.indices ≡ length array.now.rows }
    ensures ok { IfOk result (AggregatesGroups (IsLeastSlot bool_cmp) array.now
        groups.now.indices (length groups.now.first)) }
    ensures err { OnlyOutOfMemory result }
{
    extreme_booleans(alloc, array, groups, Extreme::Least)
}

/// Returns the least byte string of the valid slots of each group, by the order of unsigned bytes,
/// null for a group that has none. The groups must be of as many slots as the array has. The result
/// has the data type of the array.
///
/// # Errors
/// `OutOfMemory` if an allocation fails.
pub fn group_min_binary<O: Offset>(
    alloc: Global,
    array: &BinaryArray<O>,
    groups: &Groups,
) -> Result<BinaryArray<O>, Error>
    requires { length groups.now.indices ≡ length array.now.rows }
    ensures ok { IfOk result (AggregatesGroups (IsLeastSlot text_cmp) array.now
        groups.now.indices (length groups.now.first)) }
    ensures err { OnlyOutOfMemory result }
{
    extreme_bytes(alloc, array, groups, Extreme::Least)
}

/// Returns the least text of the valid slots of each group, by the order of its bytes, null for a
/// group that has none. The groups must be of as many slots as the array has. The result has the
/// data type of the array.
///
/// # Errors
/// `OutOfMemory` if an allocation fails.
pub fn group_min_utf8<O: Offset>(
    alloc: Global,
    array: &Utf8Array<O>,
    groups: &Groups,
) -> Result<Utf8Array<O>, Error>
    requires { length groups.now.indices ≡ length array.now.rows }
    ensures ok { IfOk result (AggregatesGroups (IsLeastSlot text_cmp) array.now
        groups.now.indices (length groups.now.first)) }
    ensures err { OnlyOutOfMemory result }
{
    extreme_texts(alloc, array, groups, Extreme::Least)
}

/// Returns the greatest value of the valid slots of each group, null for a group that has none. The
/// groups must be of as many slots as the array has. The result has the data type of the array.
///
/// # Errors
/// `OutOfMemory` if an allocation fails.
pub fn group_max_primitive<T: NativeType + Ord>(
    alloc: Global,
    array: &PrimitiveArray<T>,
    groups: &Groups,
) -> Result<PrimitiveArray<T>, Error>
    requires { length groups.now.indices ≡ length array.now.rows }
    ensures ok { IfOk result (AggregatesGroups (IsGreatestSlot T.cmp) array.now
        groups.now.indices (length groups.now.first)) }
    ensures err { OnlyOutOfMemory result }
{
    extreme_numbers(alloc, array, groups, Extreme::Greatest)
}

/// Returns the greatest boolean of the valid slots of each group, where false is less than true,
/// null for a group that has none. The groups must be of as many slots as the array has. The result
/// has the data type of the array.
///
/// # Errors
/// `OutOfMemory` if an allocation fails.
pub fn group_max_boolean(
    alloc: Global,
    array: &BooleanArray,
    groups: &Groups,
) -> Result<BooleanArray, Error>
    requires { length groups.now.indices ≡ length array.now.rows }
    ensures ok { IfOk result (AggregatesGroups (IsGreatestSlot bool_cmp) array.now
        groups.now.indices (length groups.now.first)) }
    ensures err { OnlyOutOfMemory result }
{
    extreme_booleans(alloc, array, groups, Extreme::Greatest)
}

/// Returns the greatest byte string of the valid slots of each group, by the order of unsigned
/// bytes, null for a group that has none. The groups must be of as many slots as the array has. The
/// result has the data type of the array.
///
/// # Errors
/// `OutOfMemory` if an allocation fails.
pub fn group_max_binary<O: Offset>(
    alloc: Global,
    array: &BinaryArray<O>,
    groups: &Groups,
) -> Result<BinaryArray<O>, Error>
    requires { length groups.now.indices ≡ length array.now.rows }
    ensures ok { IfOk result (AggregatesGroups (IsGreatestSlot text_cmp) array.now
        groups.now.indices (length groups.now.first)) }
    ensures err { OnlyOutOfMemory result }
{
    extreme_bytes(alloc, array, groups, Extreme::Greatest)
}

/// Returns the greatest text of the valid slots of each group, by the order of its bytes, null for
/// a group that has none. The groups must be of as many slots as the array has. The result has the
/// data type of the array.
///
/// # Errors
/// `OutOfMemory` if an allocation fails.
pub fn group_max_utf8<O: Offset>(
    alloc: Global,
    array: &Utf8Array<O>,
    groups: &Groups,
) -> Result<Utf8Array<O>, Error>
    requires { length groups.now.indices ≡ length array.now.rows }
    ensures ok { IfOk result (AggregatesGroups (IsGreatestSlot text_cmp) array.now
        groups.now.indices (length groups.now.first)) }
    ensures err { OnlyOutOfMemory result }
{
    extreme_texts(alloc, array, groups, Extreme::Greatest)
}
