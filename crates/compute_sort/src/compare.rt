//! Comparisons of values and of the slots at two indexes, with nulls first or last as the options say.
ghost use Rattle.std.specs.Prelude.{◌≡◌, if◌then◌else◌, option_map};
ghost use Rattle.arrow_column.specs.Column.{slots_of};
ghost use Rattle.compute_sort.specs.Columns.{order_at};
ghost use Rattle.compute_sort.specs.Sort.{slot_at, slot_order};

use crate::SortOptions;
use compute_slots::{BorrowSlots, OrderSlots, get_slot};
use std::cmp::Ordering;

/// Returns the slot at an index; past the end it is null.
#[inline(always)]
pub(crate) fn slot_or_null<'a, A: BorrowSlots<'a>>(array: &'a A, i: usize) -> Option<A::Value>
    ensures { option_map A.seen result ≡ slot_at (slots_of (A.column array.entry.now)) i }
{
    if i < array.len() {
        return get_slot(array, i);
    }
    None
}

/// Returns the order of two values, reversed if descending.
#[inline(always)]
pub(crate) fn compare_values<'a, A: OrderSlots<'a>>(
    array: &'a A,
    lhs: A::Value,
    rhs: A::Value,
    descending: bool,
) -> Ordering
    ensures { result
        ≡ (if descending then A.order (A.seen rhs) (A.seen lhs) else A.order (A.seen lhs) (A.seen rhs)) }
{
    if descending {
        array.compare(rhs, lhs)
    } else {
        array.compare(lhs, rhs)
    }
}

/// Returns the order of two slots.
#[inline(always)]
fn compare_options<'a, A: OrderSlots<'a>>(
    array: &'a A,
    lhs: Option<A::Value>,
    rhs: Option<A::Value>,
    options: SortOptions,
) -> Ordering
    ensures { result ≡ slot_order options A.order (option_map A.seen lhs) (option_map A.seen rhs) }
{
    match (lhs, rhs) {
        (Some(lhs), Some(rhs)) => compare_values(array, lhs, rhs, options.descending),
        (Some(_), None) => {
            if options.nulls_first {
                Ordering::Greater
            } else {
                Ordering::Less
            }
        }
        (None, Some(_)) => {
            if options.nulls_first {
                Ordering::Less
            } else {
                Ordering::Greater
            }
        }
        (None, None) => Ordering::Equal,
    }
}

/// Returns the order of the slots at two indexes; past the end a slot is null.
#[inline(always)]
pub(crate) fn compare_slots<'a, A: OrderSlots<'a>>(
    array: &'a A,
    options: SortOptions,
    i: usize,
    j: usize,
) -> Ordering
    ensures { result ≡ order_at A.order (A.column array.entry.now) options i j }
{
    compare_options(
        array,
        slot_or_null(array, i),
        slot_or_null(array, j),
        options,
    )
}
