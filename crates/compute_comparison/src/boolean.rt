//! Logic of booleans, slot by slot, in which a null operand makes a null; and which slots of an
//! array are null.
ghost use Rattle.std.specs.Prelude.{◌≡◌, IfOk, is_none, is_some, length, map, option_map, replicate};
ghost use Rattle.std.specs.List.{list_all, list_any};
ghost use Rattle.arrow_types.specs.Failures.{OnlyOutOfMemory};
ghost use Rattle.arrow_column.specs.Column.{slots_of};
ghost use Rattle.arrow_boolean.specs.Fits.{boolean_type};
ghost use Rattle.compute_comparison.specs.Logic.{and_slots, is_true, not_slot, or_slots};
ghost use Rattle.compute_comparison.specs.Slots.{CombinesWithSlot, booleans};
ghost use Rattle.compute_base.specs.Slots.{CombinesSlots, MapsSlots};

use arrow_boolean::BooleanArray;
use arrow_column::Array;
use arrow_memory::bitmap::{self, Bitmap, MutableBitmap};
use arrow_types::data_type::DataType;
use arrow_types::error::Error;
use compute_base::masks::{clone_mask, mask_of_both};
use std::alloc::Global;

/// Returns whether each slot of `lhs` and the slot of `rhs` at its place are true; null where
/// either is null. Both arrays must have equally many slots. The result holds a mask if either
/// array does.
///
/// # Errors
/// `OutOfMemory` if an allocation fails.
pub fn and(alloc: Global, lhs: &BooleanArray, rhs: &BooleanArray) -> Result<BooleanArray, Error>
    requires { length lhs.now.rows ≡ length rhs.now.rows }
    ensures ok { IfOk result (CombinesSlots boolean_type and_slots lhs.now rhs.now) }
    ensures err { OnlyOutOfMemory result }
{
    let values = bitmap::and(alloc, lhs.values(), rhs.values())?;
    let validity = mask_of_both(alloc, lhs.validity(), rhs.validity())?;
    Ok(BooleanArray::new(DataType::Boolean, values, validity))
}

/// Returns whether each slot of `lhs` or the slot of `rhs` at its place is true; null where either
/// is null. Both arrays must have equally many slots. The result holds a mask if either array does.
///
/// # Errors
/// `OutOfMemory` if an allocation fails.
pub fn or(alloc: Global, lhs: &BooleanArray, rhs: &BooleanArray) -> Result<BooleanArray, Error>
    requires { length lhs.now.rows ≡ length rhs.now.rows }
    ensures ok { IfOk result (CombinesSlots boolean_type or_slots lhs.now rhs.now) }
    ensures err { OnlyOutOfMemory result }
{
    let values = bitmap::or(alloc, lhs.values(), rhs.values())?;
    let validity = mask_of_both(alloc, lhs.validity(), rhs.validity())?;
    Ok(BooleanArray::new(DataType::Boolean, values, validity))
}

/// Returns the opposite of each slot; null where the slot is null. The result holds a mask if the
/// array does.
///
/// # Errors
/// `OutOfMemory` if an allocation fails.
pub fn not(alloc: Global, array: &BooleanArray) -> Result<BooleanArray, Error>
    ensures ok { IfOk result (MapsSlots boolean_type not_slot array.now) }
    ensures err { OnlyOutOfMemory result }
{
    let values = bitmap::not(alloc, array.values())?;
    let validity = clone_mask(array.validity())?;
    Ok(BooleanArray::new(DataType::Boolean, values, validity))
}

/// Returns the slots of an array as they are.
pub(crate) fn keep_slots(array: &BooleanArray) -> Result<BooleanArray, Error>
    ensures ok { IfOk result (MapsSlots boolean_type (option_map (λ x. x)) array.now) }
    ensures err { OnlyOutOfMemory result }
{
    let values = array.values().clone()?;
    let validity = clone_mask(array.validity())?;
    Ok(BooleanArray::new(DataType::Boolean, values, validity))
}

/// Returns `value` in place of each valid slot.
fn replace_valid(alloc: Global, array: &BooleanArray, value: bool) -> Result<BooleanArray, Error>
    ensures ok { IfOk result (MapsSlots boolean_type (option_map (λ x. value)) array.now) }
    ensures err { OnlyOutOfMemory result }
{
    let values = repeat_mark(alloc, array.len(), value)?;
    let validity = clone_mask(array.validity())?;
    Ok(BooleanArray::new(DataType::Boolean, values, validity))
}

/// Returns whether each slot of `array` and `scalar` are true; null where either is null. The result holds a mask if
/// the array does, or if `scalar` is null.
///
/// # Errors
/// `OutOfMemory` if an allocation fails.
pub fn and_scalar(
    alloc: Global,
    array: &BooleanArray,
    scalar: Option<bool>,
) -> Result<BooleanArray, Error>
    ensures ok { IfOk result (CombinesWithSlot and_slots array.now scalar) }
    ensures err { OnlyOutOfMemory result }
{
    match scalar {
        Some(true) => keep_slots(array),
        Some(false) => replace_valid(alloc, array, false),
        None => BooleanArray::new_null(alloc, DataType::Boolean, array.len()),
    }
}

/// Returns whether each slot of `array` or `scalar` is true; null where either is null. The result holds a mask if the
/// array does, or if `scalar` is null.
///
/// # Errors
/// `OutOfMemory` if an allocation fails.
pub fn or_scalar(
    alloc: Global,
    array: &BooleanArray,
    scalar: Option<bool>,
) -> Result<BooleanArray, Error>
    ensures ok { IfOk result (CombinesWithSlot or_slots array.now scalar) }
    ensures err { OnlyOutOfMemory result }
{
    match scalar {
        Some(true) => replace_valid(alloc, array, true),
        Some(false) => keep_slots(array),
        None => BooleanArray::new_null(alloc, DataType::Boolean, array.len()),
    }
}

/// Returns a bitmap of `count` marks that are all `mark`.
fn repeat_mark(alloc: Global, count: usize, mark: bool) -> Result<Bitmap, Error>
    ensures ok { IfOk result (λ marks. marks ≡ replicate count mark) }
    ensures err { OnlyOutOfMemory result }
{
    let mut marks = MutableBitmap::new(alloc);
    marks.extend_constant(count, mark)?;
    marks.freeze()
}

/// Returns an array of `count` slots that are all `value`, without a mask.
pub(crate) fn repeat_value(alloc: Global, count: usize, value: bool) -> Result<BooleanArray, Error>
    ensures ok { IfOk result (λ made. made ≡ booleans (replicate count value)) }
    ensures err { OnlyOutOfMemory result }
{
    let values = repeat_mark(alloc, count, value)?;
    Ok(BooleanArray::new(DataType::Boolean, values, None))
}

/// Returns which slots are null, as marks.
fn null_marks<A: Array>(alloc: Global, array: &A) -> Result<Bitmap, Error>
    ensures ok { IfOk result (λ null. null ≡ map is_none (slots_of (A.column array.now))) }
    ensures err { OnlyOutOfMemory result }
{
    match array.validity() {
        Some(mask) => bitmap::not(alloc, mask),
        None => repeat_mark(alloc, array.len(), false),
    }
}

/// Returns which slots are valid, as marks.
fn valid_marks<A: Array>(alloc: Global, array: &A) -> Result<Bitmap, Error>
    ensures ok { IfOk result (λ valid. valid ≡ map is_some (slots_of (A.column array.now))) }
    ensures err { OnlyOutOfMemory result }
{
    match array.validity() {
        Some(mask) => mask.clone(),
        None => repeat_mark(alloc, array.len(), true),
    }
}

/// Returns which slots of an array of any kind are null. The result has no null and no mask.
///
/// # Errors
/// `OutOfMemory` if an allocation fails.
pub fn is_null<A: Array>(alloc: Global, array: &A) -> Result<BooleanArray, Error>
    ensures ok { IfOk result (λ made. made ≡ booleans (map is_none (slots_of (A.column array.now)))) }
    ensures err { OnlyOutOfMemory result }
{
    let null = null_marks(alloc, array)?;
    Ok(BooleanArray::new(DataType::Boolean, null, None))
}

/// Returns which slots of an array of any kind are valid, that is, not null. The result has no null
/// and no mask.
///
/// # Errors
/// `OutOfMemory` if an allocation fails.
pub fn is_not_null<A: Array>(alloc: Global, array: &A) -> Result<BooleanArray, Error>
    ensures ok { IfOk result (λ made. made ≡ booleans (map is_some (slots_of (A.column array.now)))) }
    ensures err { OnlyOutOfMemory result }
{
    let valid = valid_marks(alloc, array)?;
    Ok(BooleanArray::new(DataType::Boolean, valid, None))
}

/// Returns whether any slot is valid and true.
pub fn any(array: &BooleanArray) -> bool
    ensures { result ≡ list_any is_true (slots_of array.now) }
{
    array.true_count() > 0
}

/// Returns whether all slots are valid and true, which holds of an empty array.
pub fn all(array: &BooleanArray) -> bool
    ensures { result ≡ list_all is_true (slots_of array.now) }
{
    array.true_count() == array.len()
}
