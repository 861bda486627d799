//! Ranges of equal rows: each row that differs from the one before it begins a range. Columns need not be sorted.
ghost use Rattle.std.specs.Prelude.{◌≡◌, ◌++◌, [], IfOk, OnOk, if◌then◌else◌};
ghost use Rattle.arrow_types.specs.Failures.{OnlyOutOfMemory};
ghost use Rattle.compute_sort.specs.Columns.{AreColumns};
ghost use Rattle.compute_sort.specs.Partition.{ArePartitionOfRows, one_range};

use crate::columns::{SortColumn, changed_rows};
use arrow_types::error::Error;
use std::alloc::{AllocError, Global};
use std::ops::Range;

/// Ends the range that begins at `start` before row `i` if that row differs from the one before it. Returns where the
/// last range begins.
#[inline(always)]
fn end_range(
    ranges: &mut Vec<Range<usize>>,
    differs: bool,
    start: usize,
    i: usize,
) -> Result<usize, AllocError>
    ensures start { IfOk result (λ next. next ≡ (if differs then i else start)) }
    ensures ranges { OnOk result
        (ranges.new.items ≡ ranges.old.items ++ (if differs then one_range start i else [])) }
{
    if differs {
        ranges.push(start..i)?;
        return Ok(i);
    }
    Ok(start)
}

/// Returns the ranges of equal rows, in order: each row that differs from the one before it begins a range. If the rows
/// are sorted by the columns, equal rows are in one range. There must be a column, and all must have equally many slots
/// (`SortValues::len`). It needs a byte a row beside the ranges.
///
/// # Errors
/// `OutOfMemory` if an allocation fails.
pub fn lexicographical_partition_ranges(
    alloc: Global,
    columns: &[SortColumn<'_>],
) -> Result<Vec<Range<usize>>, Error>
    requires { AreColumns columns.now }
    ensures ok { IfOk result (λ ranges. ArePartitionOfRows columns.now ranges.items) }
    ensures err { OnlyOutOfMemory result }
{
    let count = columns[0].values.len();
    let mut ranges = Vec::new(alloc);
    if count == 0 {
        return Ok(ranges);
    }
    let changed = changed_rows(alloc, columns, count)?;
    let differs = changed.as_slice();
    let mut start = 0;
    for i in 1..count {
        start = end_range(&mut ranges, differs[i], start, i)?;
    }
    ranges.push(start..count)?;
    Ok(ranges)
}
