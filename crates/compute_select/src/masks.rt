//! Masks of what kernels select, made 64 marks at a time.
ghost use Rattle.std.specs.Prelude.{◌≡◌, ◌==◌, ◌&&◌, ◌<◌, ℕ, not, if◌then◌else◌, Some, IfOk};
ghost use Rattle.std.specs.Int.{bit_at};
ghost use Rattle.arrow_types.specs.Failures.{OnlyOutOfMemory};
ghost use Rattle.arrow_column.specs.Masks.{mask_with_nulls};

use arrow_memory::bitmap::Bitmap;
use arrow_types::error::Error;
use compute_base::masks::needed_mask;
use compute_base::words::{MarkWords, collect_marks};
use std::alloc::Global;

/// Returns the bits of the first word where the predicate is set, and those of the second elsewhere.
#[inline(always)]
pub(crate) fn choose_bits(predicate: u64, lhs: u64, rhs: u64) -> u64
    ensures { (k : ℕ) → k < 64 → (bit_at result k == 1)
        ≡ (if bit_at predicate k == 1 then bit_at lhs k == 1 else bit_at rhs k == 1) }
{
    (predicate & lhs) | (!predicate & rhs)
}

/// Returns the marks that stay set where others are clear or values differ.
#[inline(always)]
pub(crate) fn differing_bits(marks: u64, others: u64, equal: u64) -> u64
    ensures { (k : ℕ) → k < 64 → (bit_at result k == 1)
        ≡ (bit_at marks k == 1 && not (bit_at others k == 1 && bit_at equal k == 1)) }
{
    marks & !(others & equal)
}

/// Returns marks as a mask if one of them is clear. Makes 64 at a time.
pub(crate) fn collect_mask<S: MarkWords>(alloc: Global, source: &S) -> Result<Option<Bitmap>, Error>
    ensures ok { IfOk result (λ mask. mask ≡ mask_with_nulls (Some (S.marks source.now))) }
    ensures err { OnlyOutOfMemory result }
{
    Ok(needed_mask(collect_marks(alloc, source)?.freeze()?))
}
