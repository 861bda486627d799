//! Nulls where two arrays are equal. The result shares the stored values of the first array, and holds
//! a mask exactly if one of its slots is null.
ghost use Rattle.std.specs.Prelude.{◌≡◌, length, nat_eq, IfErr, IfOk};
ghost use Rattle.std.specs.Cmp.Lexicographic.{pointwise};
ghost use Rattle.arrow_types.specs.Failures.{OnlyOutOfMemory};
ghost use Rattle.arrow_column.specs.Combined.{MakesSlots};
ghost use Rattle.compute_select.specs.Selects.{MakesItems, RefusesItems, mask_shown, slots_differing};

use crate::masks::{collect_mask, differing_bits};
use arrow_binary::BinaryArray;
use arrow_boolean::BooleanArray;
use arrow_byte_array::ByteArray;
use arrow_bytes::ByteKind;
use arrow_memory::bitmap::Bitmap;
use arrow_primitive::PrimitiveArray;
use arrow_types::error::Error;
use arrow_types::native_type::NativeType;
use arrow_types::offset::Offset;
use arrow_utf8::Utf8Array;
use compute_base::words::{MarkWords, marks_word};
use compute_comparison::comparison::equal::EqualArray;
use std::alloc::Global;

/// Which slots of `lhs` stay valid: those that are valid and not equal to the slot of `rhs`.
#[derive(Drop)]
struct DifferingMarks<'a, A> {
    lhs: &'a A,
    rhs: &'a A,
}

impl<'a, A: EqualArray> MarkWords for DifferingMarks<'a, A> {
    ghost use Rattle.std.specs.Prelude.{is_some, map};
    ghost use Rattle.compute_select.specs.Selects.{slots_differing};

    ghost marks = { λ it. map is_some
        (slots_differing A.equal (A.Array.column it.lhs.now) (A.Array.column it.rhs.now)) };

    #[inline(always)]
    fn len(&self) -> usize {
        self.lhs.len().min(self.rhs.len())
    }

    #[inline(always)]
    fn word(&self, place: usize, count: usize) -> u64 {
        let marks = marks_word(self.lhs, place, count);
        let others = marks_word(self.rhs, place, count);
        differing_bits(
            marks,
            others,
            A::equal_word(self.lhs, self.rhs, place, count),
        )
    }
}

/// Returns the mask of `lhs` with nulls where both slots are valid and equal.
fn differing_mask<A: EqualArray>(alloc: Global, lhs: &A, rhs: &A) -> Result<Option<Bitmap>, Error>
    ensures ok { IfOk result (λ it. it
        ≡ mask_shown (slots_differing A.equal (A.column lhs.now) (A.column rhs.now))) }
    ensures err { OnlyOutOfMemory result }
{
    collect_mask(alloc, &DifferingMarks { lhs, rhs })
}

/// Returns the slots of `lhs`, and a null where the slots of both arrays are valid and equal, with
/// the data type of `lhs`. Both arrays must have equally many slots.
///
/// # Errors
/// `OutOfMemory` if an allocation fails.
pub fn nullif_primitive<T: NativeType>(
    alloc: Global,
    lhs: &PrimitiveArray<T>,
    rhs: &PrimitiveArray<T>,
) -> Result<PrimitiveArray<T>, Error>
    requires { length lhs.now.rows ≡ length rhs.now.rows }
    ensures ok { IfOk result (MakesSlots lhs.now.data_type (slots_differing T.eq lhs.now rhs.now)) }
    ensures err { OnlyOutOfMemory result }
{
    let mask = differing_mask(alloc, lhs, rhs)?;
    Ok(lhs.clone()?.with_validity(mask))
}

/// Returns the slots of `lhs`, and a null where the slots of both arrays are valid and equal, with
/// the data type of `lhs`. Both arrays must have equally many slots.
///
/// # Errors
/// `OutOfMemory` if an allocation fails.
pub fn nullif_boolean(
    alloc: Global,
    lhs: &BooleanArray,
    rhs: &BooleanArray,
) -> Result<BooleanArray, Error>
    requires { length lhs.now.rows ≡ length rhs.now.rows }
    ensures ok { IfOk result (MakesSlots lhs.now.data_type
        (slots_differing ⟦<bool as PartialEq>⟧.eq lhs.now rhs.now)) }
    ensures err { OnlyOutOfMemory result }
{
    let mask = differing_mask(alloc, lhs, rhs)?;
    Ok(lhs.clone()?.with_validity(mask))
}

/// Returns the slots of `lhs`, bytes or text, and a null where the slots of both arrays are valid and
/// equal, with the data type of `lhs`. Both arrays must have equally many slots. The items together
/// are no longer than those of `lhs`, so they never overflow.
///
/// # Errors
/// `OutOfMemory` if an allocation fails.
pub fn nullif_items<K: ByteKind, O: Offset>(
    alloc: Global,
    lhs: &ByteArray<K, O>,
    rhs: &ByteArray<K, O>,
) -> Result<ByteArray<K, O>, Error>
    requires { length lhs.now.rows ≡ length rhs.now.rows }
    ensures ok { IfOk result (MakesItems O.most lhs.now.data_type
        (slots_differing (pointwise nat_eq) lhs.now rhs.now)) }
    ensures err { OnlyOutOfMemory result }
{
    // Called for its contract: no item ends past the greatest offset.
    lhs.offsets().last();
    let mask = differing_mask(alloc, lhs, rhs)?;
    Ok(lhs.clone()?.with_validity(mask))
}

/// Returns the slots of `lhs`, and a null where the slots of both arrays are valid and equal, as
/// [`nullif_items`].
///
/// # Errors
/// `OutOfMemory` if an allocation fails.
pub fn nullif_binary<O: Offset>(
    alloc: Global,
    lhs: &BinaryArray<O>,
    rhs: &BinaryArray<O>,
) -> Result<BinaryArray<O>, Error>
    requires { length lhs.now.rows ≡ length rhs.now.rows }
    ensures ok { IfOk result (MakesItems O.most lhs.now.data_type
        (slots_differing (pointwise nat_eq) lhs.now rhs.now)) }
    ensures err { OnlyOutOfMemory result }
{
    nullif_items(alloc, lhs, rhs)
}

/// Returns the slots of `lhs`, and a null where the slots of both arrays are valid and equal, as
/// [`nullif_items`].
///
/// # Errors
/// `OutOfMemory` if an allocation fails.
pub fn nullif_utf8<O: Offset>(
    alloc: Global,
    lhs: &Utf8Array<O>,
    rhs: &Utf8Array<O>,
) -> Result<Utf8Array<O>, Error>
    requires { length lhs.now.rows ≡ length rhs.now.rows }
    ensures ok { IfOk result (MakesItems O.most lhs.now.data_type
        (slots_differing (pointwise nat_eq) lhs.now rhs.now)) }
    ensures err { OnlyOutOfMemory result }
{
    nullif_items(alloc, lhs, rhs)
}
