//! The marks that a filter selects, as whole words: the values of booleans, and the mask of any array, which is held
//! exactly if a selected row is null.
ghost use Rattle.std.specs.Prelude.{◌≡◌, ◌≤◌, length, option_map, IfOk, IfSome};
ghost use Rattle.std.specs.Option.{option_copied};
ghost use Rattle.arrow_types.specs.Failures.{OnlyOutOfMemory};
ghost use Rattle.arrow_column.specs.Masks.{mask_with_nulls};
ghost use Rattle.arrow_memory.specs.Marks.{bits_of};
ghost use Rattle.arrow_bytes.specs.Selection.{where_set};

use crate::filter_mask::FilterMask;
use crate::runs::{has_long_runs, run_end};
use arrow_memory::bitmap::{Bitmap, MutableBitmap};
use arrow_types::error::Error;
use compute_base::bits::next_set;
use compute_base::masks::needed_mask;
use compute_base::words::word_of;
use std::alloc::Global;

/// Returns the selected bits of a word of marks, packed, and their number: run by run.
fn filtered_runs(selected: u64, marks: u64) -> (u64, usize)
    ensures count { result.1 ≤ 64 }
    ensures bits { bits_of result.0 result.1 ≡ where_set (bits_of selected 64) (bits_of marks 64) }
{
    let mut kept = 0;
    let mut count = 0;
    let mut first = next_set(selected, 0);
    while first < 64 {
        let end = run_end(selected, first);
        let run = marks >> first & u64::MAX >> (64 - (end - first));
        kept += run << count;
        count += end - first;
        first = next_set(selected, end);
    }
    (kept, count)
}

/// Returns the selected bits of a word of marks, packed, and their number: bit by bit.
#[inline(always)]
fn filtered_bits(selected: u64, marks: u64) -> (u64, usize)
    ensures count { result.1 ≤ 64 }
    ensures bits { bits_of result.0 result.1 ≡ where_set (bits_of selected 64) (bits_of marks 64) }
{
    let mut kept = 0;
    let mut count = 0;
    let mut left = selected;
    while left != 0 {
        kept += (marks >> left.trailing_zeros() & 1) << count;
        count += 1;
        left &= left - 1;
    }
    (kept, count)
}

/// Returns the selected bits of a word of marks, packed, and their number, in the way that suits the selection.
#[inline(always)]
fn filtered_word(selected: u64, marks: u64) -> (u64, usize)
    ensures count { result.1 ≤ 64 }
    ensures bits { bits_of result.0 result.1 ≡ where_set (bits_of selected 64) (bits_of marks 64) }
{
    if selected == u64::MAX {
        return (marks, 64);
    }
    if has_long_runs(selected, 3) {
        filtered_runs(selected, marks)
    } else {
        filtered_bits(selected, marks)
    }
}

/// Returns the selected marks, 64 rows at a time. Room is reserved once, with a word more than the marks need, since
/// they are written as whole words.
fn filter_some_marks(alloc: Global, marks: &Bitmap, selected: &FilterMask) -> Result<Bitmap, Error>
    requires { length selected.now ≡ length marks.now }
    ensures ok { IfOk result (λ kept. kept ≡ where_set selected.now marks.now) }
    ensures err { OnlyOutOfMemory result }
{
    let len = selected.len();
    let room = (len - selected.unset_bits()).saturating_add(64);
    let mut kept = MutableBitmap::with_capacity(alloc, room)?;
    let mut row = 0;
    while row < len {
        let some = (len - row).min(64);
        let (bits, count) = filtered_word(selected.word(row, some), word_of(marks, row, some));
        if count > 0 {
            kept.extend_from_word(bits, count)?;
        }
        row += some;
    }
    kept.freeze()
}

/// Returns the selected marks.
pub(crate) fn filter_marks(
    alloc: Global,
    marks: &Bitmap,
    selected: &FilterMask,
) -> Result<Bitmap, Error>
    requires { length selected.now ≡ length marks.now }
    ensures ok { IfOk result (λ kept. kept ≡ where_set selected.now marks.now) }
    ensures err { OnlyOutOfMemory result }
{
    if selected.unset_bits() == 0 {
        return marks.clone();
    }
    if selected.unset_bits() == selected.len() {
        return Bitmap::new(alloc);
    }
    filter_some_marks(alloc, marks, selected)
}

/// Returns the mask of the selected rows, which is held exactly if one of them is null. Allocates nothing if no row of
/// the array is null.
pub(crate) fn filter_validity(
    alloc: Global,
    validity: Option<&Bitmap>,
    selected: &FilterMask,
) -> Result<Option<Bitmap>, Error>
    requires { IfSome (option_copied validity) (λ marks. length selected.now ≡ length marks) }
    ensures ok { IfOk result (λ mask.
        mask ≡ mask_with_nulls (option_map (where_set selected.now) (option_copied validity.entry))) }
    ensures err { OnlyOutOfMemory result }
{
    match validity {
        None => Ok(None),
        Some(marks) => {
            if marks.unset_bits() == 0 {
                return Ok(None);
            }
            Ok(needed_mask(filter_marks(alloc, marks, selected)?))
        }
    }
}
