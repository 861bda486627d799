//! Masks of results. That of two arrays is `both_masks`, and shared where one array alone holds a mask; one that is
//! computed is held only if a mark is clear.
ghost use Rattle.std.specs.Prelude.{◌≡◌, IfOk, Some};
ghost use Rattle.std.specs.Option.{option_copied};
ghost use Rattle.arrow_types.specs.Failures.{OnlyOutOfMemory};
ghost use Rattle.arrow_column.specs.Masks.{mask_with_nulls};
ghost use Rattle.compute_base.specs.Slots.{FitEachOther, both_masks};

use arrow_memory::bitmap::{Bitmap, and};
use arrow_types::error::Error;
use std::alloc::Global;

/// Returns a clone of a mask, if there is one.
pub fn clone_mask(mask: Option<&Bitmap>) -> Result<Option<Bitmap>, Error>
    ensures ok { IfOk result (λ copy. copy ≡ option_copied mask.entry) }
    ensures err { OnlyOutOfMemory result }
{
    match mask {
        Some(mask) => Ok(Some(mask.clone()?)),
        None => Ok(None),
    }
}

/// Returns the mask of the slots that are valid in both of two arrays, if either holds a mask.
pub fn mask_of_both(
    alloc: Global,
    lhs: Option<&Bitmap>,
    rhs: Option<&Bitmap>,
) -> Result<Option<Bitmap>, Error>
    requires { FitEachOther (option_copied lhs) (option_copied rhs) }
    ensures ok { IfOk result (λ mask. mask ≡ both_masks (option_copied lhs.entry) (option_copied rhs.entry)) }
    ensures err { OnlyOutOfMemory result }
{
    match (lhs, rhs) {
        (Some(lhs), Some(rhs)) => Ok(Some(and(alloc, lhs, rhs)?)),
        (Some(lhs), None) => clone_mask(Some(lhs)),
        (None, rhs) => clone_mask(rhs),
    }
}

/// Returns `marks` as a mask if one of them is clear, and no mask otherwise.
pub fn needed_mask(marks: Bitmap) -> Option<Bitmap>
    ensures { result ≡ mask_with_nulls (Some marks) }
{
    if marks.unset_bits() == 0 {
        return None;
    }
    Some(marks)
}
