//! Filters: the rows at which a filter is valid and true, in order. Data types and stored values
//! stay; the new array has no bytes around its slots, and holds a mask exactly if one of them is
//! null.
ghost use Rattle.std.specs.Prelude.{◌≡◌, length, IfOk, IfErr};
ghost use Rattle.arrow_types.specs.Failures.{OnlyOutOfMemory};
ghost use Rattle.arrow_bytes.specs.Pieces.{nothing_around};
ghost use Rattle.arrow_bytes.specs.Selection.{filtered};

use crate::filter_marks::{filter_marks, filter_validity};
use crate::filter_mask::FilterMask;
use crate::filter_values::{filter_byte_values, filter_values};
use arrow_binary::BinaryArray;
use arrow_boolean::BooleanArray;
use arrow_byte_array::ByteArray;
use arrow_bytes::ByteKind;
use arrow_primitive::PrimitiveArray;
use arrow_types::error::Error;
use arrow_types::native_type::NativeType;
use arrow_types::offset::Offset;
use arrow_utf8::Utf8Array;
use std::alloc::Global;

/// Returns the slots of `array` where `filter` is valid and true. Both must have equally many
/// slots.
///
/// # Errors
/// `OutOfMemory` if an allocation fails.
pub fn filter_primitive<T: NativeType>(
    alloc: Global,
    array: &PrimitiveArray<T>,
    filter: &BooleanArray,
) -> Result<PrimitiveArray<T>, Error>
    requires { length filter.now.rows ≡ length array.now.rows }
    ensures ok { IfOk result (λ kept. kept ≡ filtered tt array.now filter.now) }
    ensures err { OnlyOutOfMemory result }
{
    let selected = FilterMask::of(alloc, filter)?;
    let values = filter_values(alloc, array.values(), &selected)?;
    let mask = filter_validity(alloc, array.validity(), &selected)?;
    let data_type = array.data_type().clone()?;
    Ok(PrimitiveArray::new(data_type, values, mask))
}

/// Returns the slots of `array` where `filter` is valid and true. Both must have equally many
/// slots.
///
/// # Errors
/// `OutOfMemory` if an allocation fails.
pub fn filter_boolean(
    alloc: Global,
    array: &BooleanArray,
    filter: &BooleanArray,
) -> Result<BooleanArray, Error>
    requires { length filter.now.rows ≡ length array.now.rows }
    ensures ok { IfOk result (λ kept. kept ≡ filtered tt array.now filter.now) }
    ensures err { OnlyOutOfMemory result }
{
    let selected = FilterMask::of(alloc, filter)?;
    let values = filter_marks(alloc, array.values(), &selected)?;
    let mask = filter_validity(alloc, array.validity(), &selected)?;
    let data_type = array.data_type().clone()?;
    Ok(BooleanArray::new(data_type, values, mask))
}

/// Returns the slots of `array` where `filter` is valid and true. Both must have equally many slots. Items are not
/// validated again, since each is an item of `array`.
///
/// # Errors
/// `OutOfMemory` if an allocation fails.
pub fn filter_items<K: ByteKind, O: Offset>(
    alloc: Global,
    array: &ByteArray<K, O>,
    filter: &BooleanArray,
) -> Result<ByteArray<K, O>, Error>
    requires { length filter.now.rows ≡ length array.now.rows }
    ensures ok { IfOk result (λ kept. kept ≡ filtered nothing_around array.now filter.now) }
    ensures err { OnlyOutOfMemory result }
{
    let selected = FilterMask::of(alloc, filter)?;
    let values = filter_byte_values(alloc, array.byte_values(), &selected)?;
    let mask = filter_validity(alloc, array.validity(), &selected)?;
    let data_type = array.data_type().clone()?;
    Ok(ByteArray::from_byte_values(data_type, values, mask))
}

/// Returns the slots of `array` where `filter` is valid and true. Both must have equally many
/// slots.
///
/// # Errors
/// `OutOfMemory` if an allocation fails.
pub fn filter_binary<O: Offset>(
    alloc: Global,
    array: &BinaryArray<O>,
    filter: &BooleanArray,
) -> Result<BinaryArray<O>, Error>
    requires { length filter.now.rows ≡ length array.now.rows }
    ensures ok { IfOk result (λ kept. kept ≡ filtered nothing_around array.now filter.now) }
    ensures err { OnlyOutOfMemory result }
{
    filter_items(alloc, array, filter)
}

/// Returns the slots of `array` where `filter` is valid and true. Both must have equally many
/// slots.
///
/// # Errors
/// `OutOfMemory` if an allocation fails.
pub fn filter_utf8<O: Offset>(
    alloc: Global,
    array: &Utf8Array<O>,
    filter: &BooleanArray,
) -> Result<Utf8Array<O>, Error>
    requires { length filter.now.rows ≡ length array.now.rows }
    ensures ok { IfOk result (λ kept. kept ≡ filtered nothing_around array.now filter.now) }
    ensures err { OnlyOutOfMemory result }
{
    filter_items(alloc, array, filter)
}
