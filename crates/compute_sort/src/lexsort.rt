//! Sorts over several columns: by each column, the last first, in the memory of a sort of one; or a selection.
ghost use Rattle.std.specs.Prelude.{◌≡◌, ◌<◌, IfOk, Some, length};
ghost use Rattle.arrow_types.specs.Failures.{OnlyOutOfMemory};
ghost use Rattle.compute_sort.specs.Columns.{AreColumns, AreSortedColumns, AreSortedRows, columns_at, rows_count};
ghost use Rattle.compute_sort.specs.Columns.{rows_order};
ghost use Rattle.compute_sort.specs.Sort.{HoldsSorted, PickOnce, SortsIndexes};

use crate::SortOptions;
use crate::columns::sort_by_column;
pub use crate::columns::{SortColumn, SortValues, SortedValues};
use crate::in_order::all_indexes;
use crate::indexed_values::truncate_to;
use crate::rows::selected_by;
use arrow_primitive::PrimitiveArray;
use arrow_types::error::Error;
use std::alloc::{AllocError, Global};

/// Returns the indexes of all rows, sorted: by the last column first, since each sort keeps the order of the one before
/// it where slots are equal. The kind of a column is asked once, and no two rows are compared by more than one column.
fn sorted_rows(
    alloc: Global,
    columns: &[SortColumn<'_>],
    count: usize,
) -> Result<Vec<u64>, AllocError>
    ensures { IfOk result (λ indexes. SortsIndexes (rows_order columns.now) count indexes.items) }
{
    let mut indexes = all_indexes(alloc, count)?;
    for k in 0..columns.len() {
        let column = columns[columns.len() - 1 - k];
        let options = column.options.unwrap_or(SortOptions::default());
        indexes = sort_by_column(alloc, &column.values, options, indexes.as_slice())?;
    }
    Ok(indexes)
}

/// Returns the first `limit` of the sorted indexes of all rows, from a selection.
fn selected_rows<'a>(
    alloc: Global,
    columns: &'a [SortColumn<'a>],
    limit: usize,
) -> Result<Vec<u64>, AllocError>
    requires { 0 < length columns.now }
    ensures { IfOk result (λ indexes. AreSortedRows columns.entry.now (Some limit) indexes.items) }
{
    let first = columns[0];
    let options = first.options.unwrap_or(SortOptions::default());
    selected_by(alloc, first.values, options, &columns[1..], limit)
}

/// Returns the sorted indexes of all rows, up to a limit. If the limit is small beside the number of rows, the first
/// rows are selected rather than all sorted.
fn limited_rows<'a>(
    alloc: Global,
    columns: &'a [SortColumn<'a>],
    limit: Option<usize>,
) -> Result<Vec<u64>, AllocError>
    requires { 0 < length columns.now }
    ensures { IfOk result (λ indexes. AreSortedRows columns.entry.now limit indexes.items) }
{
    let count = columns[0].values.len();
    if let Some(limit) = limit {
        if limit < count / 8 {
            return selected_rows(alloc, columns, limit);
        }
    }
    let indexes = sorted_rows(alloc, columns, count)?;
    Ok(truncate_to(indexes, limit))
}

/// Returns the slots of each column at indexes, each of which is there at most once.
fn take_columns(
    alloc: Global,
    columns: &[SortColumn<'_>],
    indexes: &[u64],
) -> Result<Vec<SortedValues>, Error>
    requires columns { AreColumns columns.now }
    requires once { PickOnce (rows_count columns.now) indexes.now }
    ensures ok { IfOk result (λ made. made.items ≡ columns_at columns.now indexes.now) }
    ensures err { OnlyOutOfMemory result }
{
    let mut made = Vec::with_capacity(alloc, columns.len())?;
    for column in columns {
        made.push(column.values.take(alloc, indexes)?)?;
    }
    Ok(made)
}

/// Returns the indexes that sort rows, up to a limit, as unsigned 64-bit numbers: every index once, in the order of the
/// rows there; the first column in which two rows differ decides, and equal rows are in the order of their indexes.
/// There must be a column, and all must have equally many slots ([`SortValues::len`]).
///
/// A sort of all rows needs the memory of [`crate::sort::sort_to_indices`] for one column at a time, and 8 bytes a row
/// more. With a limit below an eighth of the rows, 16 bytes for each of the first rows, of which at least 32 are kept.
///
/// # Errors
/// `OutOfMemory` if an allocation fails.
pub fn lexsort_to_indices<'a>(
    alloc: Global,
    columns: &'a [SortColumn<'a>],
    limit: Option<usize>,
) -> Result<PrimitiveArray<u64>, Error>
    requires { AreColumns columns.now }
    ensures ok { IfOk result (HoldsSorted (rows_order columns.entry.now) (rows_count columns.entry.now) limit) }
    ensures err { OnlyOutOfMemory result }
{
    PrimitiveArray::from_vec(limited_rows(alloc, columns, limit)?)
}

/// Returns the columns by which rows are sorted, each with its slots at the indexes of [`lexsort_to_indices`], up to a
/// limit. There must be a column, and all must have equally many slots ([`SortValues::len`]).
///
/// It needs the memory of [`lexsort_to_indices`], beside that of the columns which it returns.
///
/// # Errors
/// `OutOfMemory` if an allocation fails.
pub fn lexsort<'a>(
    alloc: Global,
    columns: &'a [SortColumn<'a>],
    limit: Option<usize>,
) -> Result<Vec<SortedValues>, Error>
    requires { AreColumns columns.now }
    ensures ok { IfOk result (λ made. AreSortedColumns columns.entry.now limit made.items) }
    ensures err { OnlyOutOfMemory result }
{
    let indexes = limited_rows(alloc, columns, limit)?;
    take_columns(alloc, columns, indexes.as_slice())
}
