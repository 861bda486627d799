//! Slots that are in order already, or in the reverse order, of which the first neighbours tell most others. Their
//! indexes are known without a sort.
ghost use Rattle.std.specs.Prelude.{◌≡◌, IfOk, IsTrue, reverse};
ghost use Rattle.std.specs.List.{range_with_len};
ghost use Rattle.compute_sort.specs.Columns.{IsInOrder, IsInReverse};

use crate::SortOptions;
use crate::compare::compare_slots;
use compute_slots::OrderSlots;
use std::alloc::{AllocError, Global};

/// Returns the numbers below `count`.
pub(crate) fn all_indexes(alloc: Global, count: usize) -> Result<Vec<u64>, AllocError>
    ensures { IfOk result (λ indexes. indexes.items ≡ range_with_len 0 count) }
{
    let mut indexes = Vec::with_capacity(alloc, count)?;
    for i in 0..count {
        indexes.push(i as u64)?;
    }
    Ok(indexes)
}

/// Returns the numbers below `count`, the greatest first.
pub(crate) fn reversed_indexes(alloc: Global, count: usize) -> Result<Vec<u64>, AllocError>
    ensures { IfOk result (λ indexes. indexes.items ≡ reverse (range_with_len 0 count)) }
{
    let mut indexes = all_indexes(alloc, count)?;
    indexes.reverse();
    Ok(indexes)
}

/// Returns true only if no slot is less than the one before it.
pub(crate) fn are_in_order<'a, A: OrderSlots<'a>>(array: &'a A, options: SortOptions) -> bool
    ensures { IsTrue result → IsInOrder A.order (A.column array.entry.now) options }
{
    for i in 1..array.len() {
        if compare_slots(array, options, i, i - 1).is_lt() {
            return false;
        }
    }
    true
}

/// Returns true only if each slot is less than the one before it.
pub(crate) fn are_in_reverse<'a, A: OrderSlots<'a>>(array: &'a A, options: SortOptions) -> bool
    ensures { IsTrue result → IsInReverse A.order (A.column array.entry.now) options }
{
    for i in 1..array.len() {
        if compare_slots(array, options, i, i - 1).is_ge() {
            return false;
        }
    }
    true
}
