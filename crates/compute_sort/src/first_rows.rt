//! Selection of the first rows in order, without a sort of all, for a limit that is small beside the number of rows.
ghost use Rattle.std.specs.Prelude.{◌<◌, IfOk, IsTrue, OnOk, Some};
ghost use Rattle.std.specs.Cmp.{IsTotalOrder};
ghost use Rattle.compute_sort.specs.Columns.{then_index};
ghost use Rattle.compute_sort.specs.IndexedValues.{AppendsToFirst, IsPastFirst, SortsFirst, SortsFirstRows};
ghost use Rattle.compute_sort.specs.Sort.{AreSorted};

use crate::indexed_values::truncate_to;
use crate::rows::{RowOrder, compare_indexes};
use crate::select::LEAST_KEPT;
use std::alloc::{AllocError, Global};

/// Sorts rows, and keeps the first `limit`.
fn sort_first<R: RowOrder>(rows: &R, kept: &mut Vec<u64>, limit: usize)
    requires { IsTotalOrder (R.order rows.now) }
    ensures { SortsFirst (then_index (R.order rows.now)) limit kept.old.items kept.new.items }
{
    kept.sort_unstable_by(|i, j| compare_indexes(rows, *i as usize, *j as usize));
    kept.truncate(limit);
}

/// Returns true only if there are `limit` kept rows and the last of the first `limit` comes before this row.
#[inline(always)]
fn is_past_first<R: RowOrder>(rows: &R, kept: &[u64], row: u64, limit: usize) -> bool
    requires { 0 < limit }
    ensures { IsTrue result → IsPastFirst (then_index (R.order rows.now)) limit kept.now row }
{
    limit <= kept.len() && compare_indexes(rows, row as usize, kept[limit - 1] as usize).is_ge()
}

/// Appends a row. Whenever there are then `limit` rows, or twice as many, they are sorted and only the first `limit`
/// kept.
fn append_row<R: RowOrder>(
    rows: &R,
    kept: &mut Vec<u64>,
    row: u64,
    limit: usize,
) -> Result<(), AllocError>
    requires some { 0 < limit }
    requires total { IsTotalOrder (R.order rows.now) }
    ensures { OnOk result
        (AppendsToFirst (then_index (R.order rows.now)) limit row kept.old.items kept.new.items) }
{
    kept.push(row)?;
    if kept.len() == limit || kept.len() / 2 >= limit {
        sort_first(rows, kept, limit);
    }
    Ok(())
}

/// Appends a row unless `limit` of the kept rows come before it.
#[inline(always)]
fn offer_row<R: RowOrder>(
    rows: &R,
    kept: &mut Vec<u64>,
    row: u64,
    limit: usize,
) -> Result<(), AllocError>
    requires some { 0 < limit }
    requires total { IsTotalOrder (R.order rows.now) }
    ensures { OnOk result
        (AppendsToFirst (then_index (R.order rows.now)) limit row kept.old.items kept.new.items) }
{
    if is_past_first(rows, kept.as_slice(), row, limit) {
        return Ok(());
    }
    append_row(rows, kept, row, limit)
}

/// Returns the first `limit` of `count` rows, sorted.
fn first_rows<R: RowOrder>(
    alloc: Global,
    rows: &R,
    count: usize,
    limit: usize,
) -> Result<Vec<u64>, AllocError>
    requires some { 0 < limit }
    requires total { IsTotalOrder (R.order rows.now) }
    ensures { IfOk result (λ first. SortsFirstRows (then_index (R.order rows.now)) count limit first.items) }
{
    let mut kept = Vec::with_capacity(alloc, limit.saturating_mul(2))?;
    for i in 0..count {
        offer_row(rows, &mut kept, i as u64, limit)?;
    }
    sort_first(rows, &mut kept, limit);
    Ok(kept)
}

/// Returns the first `limit` of the sorted indexes of `count` rows, from a selection of the rows.
pub(crate) fn selected_rows<R: RowOrder>(
    alloc: Global,
    rows: &R,
    count: usize,
    limit: usize,
) -> Result<Vec<u64>, AllocError>
    requires { IsTotalOrder (R.order rows.now) }
    ensures { IfOk result (λ it.
        AreSorted (then_index (R.order rows.now)) count (Some limit) it.items) }
{
    let first = first_rows(alloc, rows, count, limit.max(LEAST_KEPT))?;
    Ok(truncate_to(first, Some(limit)))
}
