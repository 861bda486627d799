//! The rows that a filter selects, as marks: found once, and walked over for values and for marks.
ghost use Rattle.std.specs.Prelude.{◌≡◌, ◌+◌, ◌^◌, ◌<◌, ◌≤◌, not, count_by, length, IfOk};
ghost use Rattle.arrow_types.specs.Failures.{OnlyOutOfMemory};
ghost use Rattle.arrow_bytes.specs.Selection.{asked};
ghost use Rattle.compute_base.specs.Words.{HoldsMarks};

use arrow_boolean::BooleanArray;
use arrow_memory::bitmap::{self, Bitmap};
use arrow_types::error::Error;
use compute_base::words::word_of;
use std::alloc::Global;
use std::marker::Model;

/// Returns a mark for each row, set where the filter's slot is valid and true. If no slot of the filter is null, these
/// marks are its values, which are shared.
fn selected_rows(alloc: Global, filter: &BooleanArray) -> Result<Bitmap, Error>
    ensures ok { IfOk result (λ marks. marks ≡ asked filter.now) }
    ensures err { OnlyOutOfMemory result }
{
    let Some(validity) = filter.validity() else {
        return filter.values().clone();
    };
    if validity.unset_bits() == 0 {
        return filter.values().clone();
    }
    bitmap::and(alloc, validity, filter.values())
}

/// Returns the number of slots that are valid and true, which is the number of rows that `array` selects if it is used
/// as a filter. Does not allocate.
pub fn true_count(array: &BooleanArray) -> usize
    ensures { result ≡ count_by (λ mark. mark) (asked array.now) }
{
    array.true_count()
}

/// The rows that a filter selects, as a mark for each row.
#[derive(Drop)]
pub(crate) struct FilterMask {
    bitmap: Bitmap,
}

// Contracts see the marks.
impl Model for FilterMask {
    ghost use Rattle.std.specs.Prelude.{List, Bool};

    ghost Value = { List Bool };

    ghost view = { λ mask. mask.bitmap };
}

impl FilterMask {
    /// Creates the selection of a filter.
    pub(crate) fn of(alloc: Global, filter: &BooleanArray) -> Result<Self, Error>
        ensures ok { IfOk result (λ rows. rows ≡ asked filter.now) }
        ensures err { OnlyOutOfMemory result }
    {
        Ok(FilterMask {
            bitmap: selected_rows(alloc, filter)?,
        })
    }

    /// Returns the number of rows.
    #[inline(always)]
    pub(crate) fn len(&self) -> usize
        ensures { result ≡ length self.now }
    {
        self.bitmap.len()
    }

    /// Returns the number of rows that are not selected.
    #[inline(always)]
    pub(crate) fn unset_bits(&self) -> usize
        ensures { result ≡ count_by not self.now }
    {
        self.bitmap.unset_bits()
    }

    /// Returns the marks of `count` rows from `row` on, at most 64, as the bits of a word, whose other bits are clear.
    #[inline(always)]
    pub(crate) fn word(&self, row: usize, count: usize) -> u64
        requires few { count ≤ 64 }
        requires within { row + count ≤ length self.now }
        ensures marks { HoldsMarks result self.now row count }
        ensures small { result < 2 ^ count }
    {
        if count == 64 {
            return self.bitmap.word(row);
        }
        word_of(&self.bitmap, row, count) & ((1 << count) - 1)
    }
}
