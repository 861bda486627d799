//! Selection of the first values in order, without a sort of all. A pair is a value and its index.
ghost use Rattle.std.specs.Prelude.{◌≡◌, ◌<◌, IfOk, IsTrue, OnOk, Some, length};
ghost use Rattle.std.specs.Cmp.{IsTotalOrder};
ghost use Rattle.std.specs.Ordering.{on};
ghost use Rattle.arrow_column.specs.Column.{slots_of};
ghost use Rattle.compute_sort.specs.IndexedValues.{AppendsToFirst, IsPastFirst, KeepsAll, OffersSlot, SortsFirst};
ghost use Rattle.compute_sort.specs.IndexedValues.{SortsFirstSlots, pair_order_by, seen_order};
ghost use Rattle.compute_sort.specs.Sort.{AreSortedSlots};

use crate::SortOptions;
use crate::compare::compare_values;
use crate::indexed_values::{IndexedValues, join_indexes, sorted_indexes, truncate_to};
use compute_slots::{OrderSlots, get_slot};
use std::alloc::{AllocError, Global};
use std::cmp::Ordering;

/// The least number of first values that are kept: sorts of fewer at a time cost more in all.
pub(crate) const LEAST_KEPT: usize = 32;

/// Returns the order of two pairs: that of their values, and for equal values that of their
/// indexes.
#[inline(always)]
fn compare_pairs<'a, A: OrderSlots<'a>>(
    array: &'a A,
    lhs: &(A::Value, u64),
    rhs: &(A::Value, u64),
    descending: bool,
) -> Ordering
    ensures { result ≡ pair_order_by descending (on A.seen A.order) lhs.now rhs.now }
{
    match compare_values(array, lhs.0, rhs.0, descending) {
        Ordering::Equal => lhs.1.cmp(&rhs.1),
        order => order,
    }
}

/// Sorts pairs, equal values by their indexes, and keeps the first `limit`.
fn sort_first<'a, V: Copy, A: OrderSlots<'a, Value = V>>(
    array: &'a A,
    kept: &mut Vec<(V, u64)>,
    limit: usize,
    descending: bool,
) -> Result<(), AllocError>
    requires { IsTotalOrder A.order }
    ensures { OnOk result
        (SortsFirst (pair_order_by descending (on A.seen A.order)) limit kept.old.items kept.new.items) }
{
    kept.sort_by(
        |lhs, rhs|
            ensures { result ≡ pair_order_by descending (on A.seen A.order) lhs.now rhs.now }
        { compare_pairs(array, lhs, rhs, descending) },
    )?;
    kept.truncate(limit);
    Ok(())
}

/// Returns true only if there are `limit` kept pairs and the last of the first `limit` comes before
/// this pair.
#[inline(always)]
fn is_past_first<'a, A: OrderSlots<'a>>(
    array: &'a A,
    kept: &[(A::Value, u64)],
    pair: &(A::Value, u64),
    limit: usize,
    descending: bool,
) -> bool
    requires { 0 < limit }
    ensures { IsTrue result
        → IsPastFirst (pair_order_by descending (on A.seen A.order)) limit kept.now pair.now }
{
    limit <= kept.len() && compare_pairs(array, pair, &kept[limit - 1], descending).is_ge()
}

/// Appends a pair. Whenever there are then `limit` pairs, or twice as many, they are sorted and
/// only the first `limit` kept.
fn append_pair<'a, A: OrderSlots<'a>>(
    array: &'a A,
    kept: &mut Vec<(A::Value, u64)>,
    pair: (A::Value, u64),
    limit: usize,
    descending: bool,
) -> Result<(), AllocError>
    requires some { 0 < limit }
    requires total { IsTotalOrder A.order }
    ensures { OnOk result
        (AppendsToFirst (pair_order_by descending (on A.seen A.order)) limit pair
        kept.old.items kept.new.items) }
{
    kept.push(pair)?;
    if kept.len() == limit || kept.len() / 2 >= limit {
        return sort_first::<A::Value, A>(array, kept, limit, descending);
    }
    Ok(())
}

/// Adds a null to the nulls, and a value to the kept pairs unless `limit` of them come before it. The
/// slot is given with its index.
#[inline(always)]
fn offer_slot<'a, A: OrderSlots<'a>>(
    array: &'a A,
    to: &mut IndexedValues<A::Value>,
    slot: (Option<A::Value>, u64),
    limit: usize,
    descending: bool,
) -> Result<(), AllocError>
    requires some { 0 < limit }
    requires total { IsTotalOrder A.order }
    ensures { OnOk result
        (OffersSlot (pair_order_by descending (on A.seen A.order)) limit slot.0 slot.1 to.old to.new) }
{
    match slot.0 {
        None => to.nulls.push(slot.1)?,
        Some(value) => {
            let pair = (value, slot.1);
            if is_past_first(array, to.values.as_slice(), &pair, limit, descending) {
                return Ok(());
            }
            append_pair(array, &mut to.values, pair, limit, descending)?;
        }
    }
    Ok(())
}

/// Returns values of valid slots with their indexes, among them the first `limit`, and the indexes of
/// the null slots in order. Room is reserved for `nulls` null slots.
fn keep_slots<'a, A: OrderSlots<'a>>(
    alloc: Global,
    array: &'a A,
    nulls: usize,
    limit: usize,
    descending: bool,
) -> Result<IndexedValues<A::Value>, AllocError>
    requires some { 0 < limit }
    requires total { IsTotalOrder A.order }
    ensures { IfOk result
        (KeepsAll A.seen (pair_order_by descending (on A.seen A.order)) limit
        (slots_of (A.column array.entry.now))) }
{
    let mut indexed = IndexedValues {
        values: Vec::with_capacity(alloc, limit.saturating_mul(2))?,
        nulls: Vec::with_capacity(alloc, nulls)?,
    };
    for i in 0..array.len() {
        let slot = (get_slot(array, i), i as u64);
        offer_slot(array, &mut indexed, slot, limit, descending)?;
    }
    Ok(indexed)
}

/// Returns the first `limit` values of valid slots with their indexes, sorted, and the indexes of the
/// null slots in order. Room is reserved for `nulls` null slots.
fn first_pairs<'a, A: OrderSlots<'a>>(
    alloc: Global,
    array: &'a A,
    nulls: usize,
    limit: usize,
    descending: bool,
) -> Result<IndexedValues<A::Value>, AllocError>
    requires some { 0 < limit }
    requires total { IsTotalOrder A.order }
    ensures { IfOk result
        (SortsFirstSlots A.seen (seen_order descending A.seen A.order) limit
        (slots_of (A.column array.entry.now))) }
{
    let mut indexed = keep_slots(alloc, array, nulls, limit, descending)?;
    sort_first::<A::Value, A>(array, &mut indexed.values, limit, descending)?;
    Ok(indexed)
}

/// Returns the first `limit` of the sorted indexes of all slots, from a selection of the values.
fn selected_indexes<'a, A: OrderSlots<'a>>(
    alloc: Global,
    array: &'a A,
    options: SortOptions,
    limit: usize,
) -> Result<Vec<u64>, AllocError>
    requires { IsTotalOrder A.order }
    ensures { IfOk result (λ indexes.
        AreSortedSlots options A.order (slots_of (A.column array.entry.now)) (Some limit) indexes.items) }
{
    let nulls = array.null_count();
    let first = first_pairs(
        alloc,
        array,
        nulls,
        limit.max(LEAST_KEPT),
        options.descending,
    )?;
    let (values, nulls) = (first.values.as_slice(), first.nulls.as_slice());
    let indexes = join_indexes(alloc, values, nulls, options.nulls_first)?;
    Ok(truncate_to(indexes, Some(limit)))
}

/// Returns the first `limit` of the sorted indexes of all slots. If the limit is small beside the
/// number of values, these are selected rather than all sorted.
fn first_indexes<'a, A: OrderSlots<'a>>(
    alloc: Global,
    array: &'a A,
    options: SortOptions,
    limit: usize,
) -> Result<Vec<u64>, AllocError>
    requires { IsTotalOrder A.order }
    ensures { IfOk result (λ indexes.
        AreSortedSlots options A.order (slots_of (A.column array.entry.now)) (Some limit) indexes.items) }
{
    let valid = array.len().saturating_sub(array.null_count());
    if limit < valid / 8 {
        return selected_indexes(alloc, array, options, limit);
    }
    let indexes = sorted_indexes(alloc, array, options)?;
    Ok(truncate_to(indexes, Some(limit)))
}

/// Returns the sorted indexes of all slots, up to a limit.
pub(crate) fn limited_indexes<'a, A: OrderSlots<'a>>(
    alloc: Global,
    array: &'a A,
    options: SortOptions,
    limit: Option<usize>,
) -> Result<Vec<u64>, AllocError>
    requires { IsTotalOrder A.order }
    ensures { IfOk result (λ indexes.
        AreSortedSlots options A.order (slots_of (A.column array.entry.now)) limit indexes.items) }
{
    match limit {
        Some(limit) => first_indexes(alloc, array, options, limit),
        None => sorted_indexes(alloc, array, options),
    }
}
