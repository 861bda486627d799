//! Rows of which the kind of the first column is known: it is asked once for a selection, not for every two rows, most
//! of which differ there.
ghost use Rattle.std.specs.Prelude.{◌≡◌, ℕ, IfOk};
ghost use Rattle.std.specs.declared.cmp.Ordering.{Ordering};
ghost use Rattle.compute_sort.specs.Columns.{Selects, SelectsRows, then_index};

use crate::SortOptions;
use crate::columns::{SortColumn, SortValues, compare_columns};
use crate::compare::compare_slots;
use crate::first_rows::selected_rows;
use compute_slots::OrderSlots;
use std::alloc::{AllocError, Global};
use std::cmp::Ordering;

/// Rows that have an order.
pub(crate) trait RowOrder {
    /// The order of the rows at two indexes.
    ghost order: { Self → ℕ → ℕ → Ordering };

    /// Returns the order of the rows at two indexes.
    fn compare(&self, i: usize, j: usize) -> Ordering
        ensures { result ≡ order self.now i j };
}

/// Rows by the slots of an array, and where these are equal by columns.
#[derive(Drop)]
struct Rows<'a, A> {
    first: &'a A,
    options: SortOptions,
    rest: &'a [SortColumn<'a>],
}

impl<'a, A: OrderSlots<'a>> RowOrder for Rows<'a, A> {
    ghost use Rattle.compute_sort.specs.Columns.{order_at, rows_by};

    ghost order = { λ rows. rows_by (order_at A.order (A.column rows.first.now) rows.options) rows.rest.now };

    #[inline(always)]
    fn compare(&self, i: usize, j: usize) -> Ordering {
        match compare_slots(self.first, self.options, i, j) {
            Ordering::Equal => compare_columns(self.rest, i, j),
            order => order,
        }
    }
}

/// Returns the order of two rows, and of equal rows that of their indexes.
#[inline(always)]
pub(crate) fn compare_indexes<R: RowOrder>(rows: &R, i: usize, j: usize) -> Ordering
    ensures { result ≡ then_index (R.order rows.now) i j }
{
    match rows.compare(i, j) {
        Ordering::Equal => i.cmp(&j),
        order => order,
    }
}

/// Returns the first `limit` of the sorted indexes of rows, by the slots of an array and the other columns.
fn selected_by_array<'a, A: OrderSlots<'a>>(
    alloc: Global,
    first: &'a A,
    options: SortOptions,
    rest: &'a [SortColumn<'a>],
    limit: usize,
) -> Result<Vec<u64>, AllocError>
    ensures { IfOk result (λ it.
        Selects A.order (A.column first.entry.now) options rest.entry.now limit it.items) }
{
    let rows = Rows {
        first,
        options,
        rest,
    };
    selected_rows(alloc, &rows, first.len(), limit)
}

/// Returns the first `limit` of the sorted indexes of rows, by the slots of an array of any kind and the other columns.
pub(crate) fn selected_by<'a>(
    alloc: Global,
    first: SortValues<'a>,
    options: SortOptions,
    rest: &'a [SortColumn<'a>],
    limit: usize,
) -> Result<Vec<u64>, AllocError>
    ensures { IfOk result (λ indexes.
        SelectsRows first.entry options rest.entry.now limit indexes.items) }
{
    match first {
        SortValues::Int8(array) => selected_by_array(alloc, array, options, rest, limit),
        SortValues::Int16(array) => selected_by_array(alloc, array, options, rest, limit),
        SortValues::Int32(array) => selected_by_array(alloc, array, options, rest, limit),
        SortValues::Int64(array) => selected_by_array(alloc, array, options, rest, limit),
        SortValues::Int128(array) => selected_by_array(alloc, array, options, rest, limit),
        SortValues::UInt8(array) => selected_by_array(alloc, array, options, rest, limit),
        SortValues::UInt16(array) => selected_by_array(alloc, array, options, rest, limit),
        SortValues::UInt32(array) => selected_by_array(alloc, array, options, rest, limit),
        SortValues::UInt64(array) => selected_by_array(alloc, array, options, rest, limit),
        SortValues::Boolean(array) => selected_by_array(alloc, array, options, rest, limit),
        SortValues::Binary(array) => selected_by_array(alloc, array, options, rest, limit),
        SortValues::LargeBinary(array) => selected_by_array(alloc, array, options, rest, limit),
        SortValues::Utf8(array) => selected_by_array(alloc, array, options, rest, limit),
        SortValues::LargeUtf8(array) => selected_by_array(alloc, array, options, rest, limit),
    }
}
