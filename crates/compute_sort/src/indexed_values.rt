//! The values of slots with their indexes, and the indexes of null slots.
ghost use Rattle.std.specs.Prelude.{◌≡◌, ◌++◌, IfOk, OnOk, map};
ghost use Rattle.std.specs.Cmp.{IsTotalOrder};
ghost use Rattle.std.specs.List.Sorted.{IsPermutation};
ghost use Rattle.std.specs.Ordering.{on};
ghost use Rattle.arrow_column.specs.Column.{slots_of};
ghost use Rattle.compute_sort.specs.IndexedValues.{PushesPair, SortsPairs, SplitsAll, SplitsColumn, first_nulls, flip_if};
ghost use Rattle.compute_sort.specs.Columns.{SortsAt};
ghost use Rattle.compute_sort.specs.Sort.{SortsSlots, up_to};

use crate::SortOptions;
use crate::compare::slot_or_null;
use crate::in_order::{all_indexes, are_in_order, are_in_reverse, reversed_indexes};
use compute_slots::{BorrowSlots, OrderSlots, get_slot};
use std::alloc::{AllocError, Global};

/// The values of the valid slots of an array with their indexes, and the indexes of its null slots.
#[derive(Drop)]
pub(crate) struct IndexedValues<V: Drop> {
    pub(crate) values: Vec<(V, u64)>,
    pub(crate) nulls: Vec<u64>,
}

/// Appends a slot and its index to the values or to the nulls.
#[inline(always)]
fn push_pair<V: Drop>(
    to: &mut IndexedValues<V>,
    slot: Option<V>,
    index: u64,
) -> Result<(), AllocError>
    ensures { OnOk result (PushesPair slot index to.old.values.items to.old.nulls.items
        to.new.values.items to.new.nulls.items) }
{
    match slot {
        Some(value) => to.values.push((value, index))?,
        None => to.nulls.push(index)?,
    }
    Ok(())
}

/// Returns the values of the valid slots with their indexes, and the indexes of the null slots,
/// both in the order of the slots. Room is reserved for `nulls` null slots.
fn split_slots<'a, A: BorrowSlots<'a>>(
    alloc: Global,
    array: &'a A,
    nulls: usize,
) -> Result<IndexedValues<A::Value>, AllocError>
    ensures { IfOk result (λ split.
        SplitsAll A.seen (slots_of (A.column array.entry.now)) split.values.items split.nulls.items) }
{
    let count = array.len();
    let mut indexed = IndexedValues {
        values: Vec::with_capacity(alloc, count.saturating_sub(nulls))?,
        nulls: Vec::with_capacity(alloc, nulls)?,
    };
    for i in 0..count {
        push_pair(&mut indexed, get_slot(array, i), i as u64)?;
    }
    Ok(indexed)
}

/// Returns the values of the slots at indexes that are valid, and the indexes of the others, both in their order.
fn split_indexes<'a, A: BorrowSlots<'a>>(
    alloc: Global,
    array: &'a A,
    indexes: &[u64],
) -> Result<IndexedValues<A::Value>, AllocError>
    ensures { IfOk result (SplitsColumn A.seen (A.column array.entry.now) indexes.now) }
{
    let nulls = array.null_count();
    let mut indexed = IndexedValues {
        values: Vec::with_capacity(alloc, indexes.len().saturating_sub(nulls))?,
        nulls: Vec::with_capacity(alloc, nulls)?,
    };
    for index in indexes {
        let slot = slot_or_null(array, *index as usize);
        push_pair(&mut indexed, slot, *index)?;
    }
    Ok(indexed)
}

/// Sorts values ascending. Equal values stay in their order.
fn sort_ascending<'a, V: Copy, A: OrderSlots<'a, Value = V>>(
    array: &'a A,
    values: &mut Vec<(V, u64)>,
) -> Result<(), AllocError>
    requires { IsTotalOrder A.order }
    ensures permutation { IsPermutation values.old.items values.new.items }
    ensures sorted { OnOk result (SortsPairs (on A.seen A.order) values.old.items values.new.items) }
{
    values.sort_by(
        |lhs, rhs|
            ensures { result ≡ A.order (A.seen lhs.now.0) (A.seen rhs.now.0) }
        { array.compare(lhs.0, rhs.0) },
    )
}

/// Sorts values descending. Equal values stay in their order.
fn sort_descending<'a, V: Copy, A: OrderSlots<'a, Value = V>>(
    array: &'a A,
    values: &mut Vec<(V, u64)>,
) -> Result<(), AllocError>
    requires { IsTotalOrder A.order }
    ensures permutation { IsPermutation values.old.items values.new.items }
    ensures sorted { OnOk result
        (SortsPairs (λ x y. on A.seen A.order y x) values.old.items values.new.items) }
{
    values.sort_by(
        |lhs, rhs|
            ensures { result ≡ A.order (A.seen rhs.now.0) (A.seen lhs.now.0) }
        { array.compare(rhs.0, lhs.0) },
    )
}

/// Sorts values ascending or descending. Equal values stay in their order.
fn sort_values<'a, A: OrderSlots<'a>>(
    array: &'a A,
    values: &mut Vec<(A::Value, u64)>,
    descending: bool,
) -> Result<(), AllocError>
    requires { IsTotalOrder A.order }
    ensures permutation { IsPermutation values.old.items values.new.items }
    ensures sorted { OnOk result
        (SortsPairs (flip_if descending (on A.seen A.order)) values.old.items values.new.items) }
{
    if descending {
        return sort_descending::<A::Value, A>(array, values);
    }
    sort_ascending::<A::Value, A>(array, values)
}

/// Appends the indexes of values.
fn push_indexes<V>(indexes: &mut Vec<u64>, values: &[(V, u64)]) -> Result<(), AllocError>
    ensures { OnOk result (indexes.new.items ≡ indexes.old.items ++ map (λ pair. pair.1) values.now) }
{
    for (_, index) in values {
        indexes.push(*index)?;
    }
    Ok(())
}

/// Returns the indexes of values and of nulls, the nulls first or last.
pub(crate) fn join_indexes<V>(
    alloc: Global,
    values: &[(V, u64)],
    nulls: &[u64],
    nulls_first: bool,
) -> Result<Vec<u64>, AllocError>
    ensures { IfOk result (λ indexes.
        indexes.items ≡ first_nulls nulls_first nulls.now (map (λ pair. pair.1) values.now)) }
{
    let mut indexes = Vec::with_capacity(alloc, values.len().saturating_add(nulls.len()))?;
    if nulls_first {
        indexes.extend_from_slice(nulls)?;
        push_indexes(&mut indexes, values)?;
        return Ok(indexes);
    }
    push_indexes(&mut indexes, values)?;
    indexes.extend_from_slice(nulls)?;
    Ok(indexes)
}

/// Returns the indexes of all slots, sorted. Slots that are in order, or in the reverse order, are not copied.
pub(crate) fn sorted_indexes<'a, A: OrderSlots<'a>>(
    alloc: Global,
    array: &'a A,
    options: SortOptions,
) -> Result<Vec<u64>, AllocError>
    requires { IsTotalOrder A.order }
    ensures { IfOk result (λ indexes.
        SortsSlots options A.order (slots_of (A.column array.entry.now)) indexes.items) }
{
    if are_in_order(array, options) {
        return all_indexes(alloc, array.len());
    }
    if are_in_reverse(array, options) {
        return reversed_indexes(alloc, array.len());
    }
    let nulls = array.null_count();
    let mut indexed = split_slots(alloc, array, nulls)?;
    sort_values(array, &mut indexed.values, options.descending)?;
    let (values, nulls) = (indexed.values.as_slice(), indexed.nulls.as_slice());
    join_indexes(alloc, values, nulls, options.nulls_first)
}

/// Returns indexes sorted by the slots there. Those of equal slots stay in their order.
pub(crate) fn sort_indexes<'a, A: OrderSlots<'a>>(
    alloc: Global,
    array: &'a A,
    options: SortOptions,
    indexes: &[u64],
) -> Result<Vec<u64>, AllocError>
    ensures { IfOk result (λ sorted.
        SortsAt A.order (A.column array.entry.now) options indexes.now sorted.items) }
{
    let mut indexed = split_indexes(alloc, array, indexes)?;
    sort_values(array, &mut indexed.values, options.descending)?;
    let (values, nulls) = (indexed.values.as_slice(), indexed.nulls.as_slice());
    join_indexes(alloc, values, nulls, options.nulls_first)
}

/// Returns the first indexes up to a limit, or all.
pub(crate) fn truncate_to(mut indexes: Vec<u64>, limit: Option<usize>) -> Vec<u64>
    ensures { result.items ≡ up_to limit indexes.items }
{
    if let Some(limit) = limit {
        indexes.truncate(limit);
    }
    indexes
}
