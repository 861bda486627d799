//! The walk of a filter over its rows, 64 at a time, whatever the rows store.
ghost use Rattle.std.specs.Prelude.{◌≡◌, ℕ, ◌+◌, ◌^◌, ◌<◌, ◌≤◌, List, Bool, Some, true, length, slice_get};
ghost use Rattle.std.specs.Prelude.{IfOk, OnOk};
ghost use Rattle.arrow_kernels.specs.Filtering.{IsPending, PassesOver};

use crate::filter_mask::FilterMask;
use crate::runs::has_long_runs;
use compute_base::bits::next_set;
use std::alloc::AllocError;

/// The rows of an array, of which a filter selects some.
pub(crate) trait FilterRows {
    /// What the selected rows are appended to.
    type Kept;

    /// How many rows runs must have on average to be appended run by run. Only speed depends on it.
    const LONG_RUN: u32;

    /// The mark of each row, which is set if the filter selects it.
    ghost selected: { Self → List Bool };

    /// The selected rows before a row are kept, and no others; the other selected rows can be appended.
    ghost keeps_before: { Self → Self.Kept → ℕ → Type 0 };

    /// Returns the marks of the rows.
    fn mask(&self) -> &FilterMask
        ensures { result.now ≡ selected self.now };

    /// Appends the rows from `first` up to `end`, all of which are selected.
    fn push_run(&self, kept: &mut Self::Kept, first: usize, end: usize) -> Result<(), AllocError>
        requires { IsPending (selected self.now) (keeps_before self.now kept.old) first end }
        ensures { OnOk result (keeps_before self.now kept.new end) };

    /// Appends the selected row `i`.
    fn push_row(&self, kept: &mut Self::Kept, i: usize) -> Result<(), AllocError>
        requires set { slice_get (selected self.now) i ≡ Some true }
        requires so_far { keeps_before self.now kept.old i }
        ensures { OnOk result (keeps_before self.now kept.new (i + 1)) };

    /// Rows that are not selected are passed over.
    ghost passes_over: { PassesOver selected keeps_before };
}

/// Appends a pending run. An empty run returns early, which saves the call of a copy.
#[inline(always)]
fn keep_run<R: FilterRows>(
    rows: &R,
    kept: &mut R::Kept,
    first: usize,
    end: usize,
) -> Result<(), AllocError>
    requires { IsPending (R.selected rows.now) (R.keeps_before rows.now kept.old) first end }
    ensures { OnOk result (R.keeps_before rows.now kept.new end) }
{
    if first == end {
        return Ok(());
    }
    rows.push_run(kept, first, end)
}

/// Appends the runs of selected rows that end within the 64 rows from `row` on, the first of which is pending from
/// `start` on. Returns where the run begins that is then pending: it includes the last of the 64 rows, and may continue
/// after them.
#[inline(always)]
fn keep_runs<R: FilterRows>(
    rows: &R,
    kept: &mut R::Kept,
    start: usize,
    row: usize,
) -> Result<usize, AllocError>
    requires within { row + 64 ≤ length (R.selected rows.now) }
    requires fits { row + 64 < 2 ^ 64 }
    requires pending { IsPending (R.selected rows.now) (R.keeps_before rows.now kept.old) start row }
    ensures { IfOk result (λ next. IsPending (R.selected rows.now) (R.keeps_before rows.now kept.new) next (row + 64)) }
{
    let word = rows.mask().word(row, 64);
    let mut first = start;
    let mut hole = next_set(!word, 0);
    while hole < 64 {
        keep_run(rows, kept, first, row + hole)?;
        let place = next_set(word, hole);
        first = row + place;
        hole = next_set(!word, place);
    }
    Ok(first)
}

/// Appends the selected ones of `count` rows from `row` on, at most 64, one after the other.
#[inline(always)]
fn keep_each<R: FilterRows>(
    rows: &R,
    kept: &mut R::Kept,
    row: usize,
    count: usize,
) -> Result<(), AllocError>
    requires few { count ≤ 64 }
    requires within { row + count ≤ length (R.selected rows.now) }
    requires fits { row + count < 2 ^ 64 }
    requires so_far { R.keeps_before rows.now kept.old row }
    ensures { OnOk result (R.keeps_before rows.now kept.new (row + count)) }
{
    let mut left = rows.mask().word(row, count);
    while left != 0 {
        rows.push_row(kept, row + left.trailing_zeros() as usize)?;
        left &= left - 1;
    }
    Ok(())
}

/// Appends selected rows up to the 64 rows from `row` on, in the way that suits the selection. The run from `first` on
/// is pending. Returns where the run begins that is then pending, so that a run of many words is appended at once.
#[inline(always)]
fn keep_word<R: FilterRows>(
    rows: &R,
    kept: &mut R::Kept,
    first: usize,
    row: usize,
) -> Result<usize, AllocError>
    requires within { row + 64 ≤ length (R.selected rows.now) }
    requires fits { row + 64 < 2 ^ 64 }
    requires pending { IsPending (R.selected rows.now) (R.keeps_before rows.now kept.old) first row }
    ensures { IfOk result (λ next. IsPending (R.selected rows.now) (R.keeps_before rows.now kept.new) next (row + 64)) }
{
    let word = rows.mask().word(row, 64);
    if word == u64::MAX {
        return Ok(first);
    }
    if has_long_runs(word, R::LONG_RUN) {
        return keep_runs(rows, kept, first, row);
    }
    keep_run(rows, kept, first, row)?;
    keep_each(rows, kept, row, 64)?;
    Ok(row + 64)
}

/// Appends the selected rows. The last ones, which fill no word, are appended one after the other.
#[inline(always)]
pub(crate) fn keep_rows<R: FilterRows>(rows: &R, kept: &mut R::Kept) -> Result<(), AllocError>
    requires { R.keeps_before rows.now kept.old 0 }
    ensures { OnOk result (R.keeps_before rows.now kept.new (length (R.selected rows.now))) }
{
    let len = rows.mask().len();
    let mut first = 0;
    let mut row = 0;
    while len - row >= 64 {
        first = keep_word(rows, kept, first, row)?;
        row += 64;
    }
    keep_run(rows, kept, first, row)?;
    keep_each(rows, kept, row, len - row)
}
