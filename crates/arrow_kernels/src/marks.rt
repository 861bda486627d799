//! The marks and masks of arrays, one array after the other, for concatenations.
ghost use Rattle.std.specs.Prelude.{◌≡◌, ◌++◌, ◌-◌, ◌^◌, Some, flat_map, length, min, not};
ghost use Rattle.std.specs.Prelude.{IfOk, OnOk};
ghost use Rattle.std.specs.List.{list_all};
ghost use Rattle.std.specs.Option.{option_copied};
ghost use Rattle.arrow_types.specs.Failures.{OnlyOutOfMemory};
ghost use Rattle.arrow_column.specs.Column.{marks_of};
ghost use Rattle.arrow_column.specs.Masks.{mask_with_nulls, AppendsMask};

use arrow_column::Array;
use arrow_memory::bitmap::{Bitmap, MutableBitmap};
use arrow_types::error::Error;
use std::alloc::Global;

/// Appends the marks of a bitmap.
pub(crate) fn extend_marks(joined: &mut MutableBitmap, marks: &Bitmap) -> Result<(), Error>
    ensures ok { OnOk result (joined.new ≡ joined.old ++ marks.now) }
    ensures err { OnlyOutOfMemory result }
{
    joined.extend_from_range(marks, 0, marks.len())
}

/// Appends the marks of a mask, or `slots` set marks if there is none.
fn extend_mask(
    joined: &mut MutableBitmap,
    validity: Option<&Bitmap>,
    slots: usize,
) -> Result<(), Error>
    ensures ok { OnOk result (AppendsMask slots (option_copied validity.entry) joined.old joined.new) }
    ensures err { OnlyOutOfMemory result }
{
    match validity {
        None => joined.extend_constant(slots, true),
        Some(marks) => extend_marks(joined, marks),
    }
}

/// Appends the mark of each slot of an array.
fn push_marks<A: Array>(joined: &mut MutableBitmap, array: &A) -> Result<(), Error>
    ensures ok { OnOk result (joined.new ≡ joined.old ++ marks_of (A.column array.now)) }
    ensures err { OnlyOutOfMemory result }
{
    extend_mask(joined, array.validity(), array.len())
}

/// Returns whether a slot of an array is null.
fn has_nulls<A: Array>(arrays: &[A]) -> bool
    ensures { result ≡ not (list_all (λ mark. mark) (flat_map (λ it. marks_of (A.column it)) arrays.now)) }
{
    for array in arrays {
        if array.null_count() != 0 {
            return true;
        }
    }
    false
}

/// Returns the number of slots of all arrays, or `usize::MAX` if it does not fit.
pub(crate) fn count_slots<A: Array>(arrays: &[A]) -> usize
    ensures { result ≡ min (length (flat_map (λ it. marks_of (A.column it)) arrays.now)) (2 ^ 64 - 1) }
{
    let mut count = 0_usize;
    for array in arrays {
        count = count.saturating_add(array.len());
    }
    count
}

/// Returns the marks of the slots of all arrays. Room is reserved once.
fn concat_marks<A: Array>(alloc: Global, arrays: &[A]) -> Result<Bitmap, Error>
    ensures ok { IfOk result (λ joined. joined ≡ flat_map (λ it. marks_of (A.column it)) arrays.now) }
    ensures err { OnlyOutOfMemory result }
{
    let mut joined = MutableBitmap::with_capacity(alloc, count_slots(arrays))?;
    for array in arrays {
        push_marks(&mut joined, array)?;
    }
    joined.freeze()
}

/// Returns the mask of the slots of all arrays, which is held exactly if one of them is null. Allocates nothing if none
/// is.
pub(crate) fn concat_validity<A: Array>(
    alloc: Global,
    arrays: &[A],
) -> Result<Option<Bitmap>, Error>
    ensures ok { IfOk result (λ mask. mask
        ≡ mask_with_nulls (Some (flat_map (λ it. marks_of (A.column it)) arrays.now))) }
    ensures err { OnlyOutOfMemory result }
{
    if !has_nulls(arrays) {
        return Ok(None);
    }
    Ok(Some(concat_marks(alloc, arrays)?))
}
