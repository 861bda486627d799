//! Arrays that are made of slots, under the data type of another array.
ghost use Rattle.std.specs.Prelude.{◌≡◌, ◌≤◌, IfOk, length};
ghost use Rattle.arrow_types.specs.Failures.{OnlyOutOfMemory};
ghost use Rattle.arrow_types.specs.Types.{IsRightType, logical_type};
ghost use Rattle.arrow_column.specs.Column.{slots_of, with_type};
ghost use Rattle.compute_aggregate.specs.Groups.{MakesSlots, as_seen, total_size};

use arrow_boolean::BooleanArray;
use arrow_byte_array::ByteArray;
use arrow_bytes::{ByteItem, ByteKind};
use arrow_primitive::PrimitiveArray;
use arrow_types::data_type::DataType;
use arrow_types::error::Error;
use arrow_types::native_type::NativeType;
use arrow_types::offset::Offset;
use arrow_types::physical_type::PhysicalType;
use std::alloc::Global;

/// Returns the array of slots, under a data type, which must have the physical type of `T`.
///
/// # Errors
/// `OutOfMemory` if an allocation fails.
pub(crate) fn numbers_of_type<T: NativeType>(
    alloc: Global,
    slots: &[Option<T>],
    data_type: DataType,
) -> Result<PrimitiveArray<T>, Error>
    requires { IsRightType (PhysicalType.Primitive T.PRIMITIVE) (logical_type data_type) }
    ensures ok { IfOk result (MakesSlots (logical_type data_type) slots.now) }
    ensures err { OnlyOutOfMemory result }
{
    Ok(PrimitiveArray::from(alloc, slots)?.to(data_type))
}

/// Returns the array of slots, under the data type of another array.
///
/// # Errors
/// `OutOfMemory` if an allocation fails.
pub(crate) fn numbers_like<T: NativeType>(
    alloc: Global,
    array: &PrimitiveArray<T>,
    slots: &[Option<T>],
) -> Result<PrimitiveArray<T>, Error>
    ensures ok { IfOk result (MakesSlots array.now.data_type slots.now) }
    ensures err { OnlyOutOfMemory result }
{
    numbers_of_type(alloc, slots, array.data_type().clone()?)
}

/// Returns the same slots under another data type.
fn with_data_type(array: BooleanArray, data_type: DataType) -> BooleanArray
    requires { IsRightType PhysicalType.Boolean (logical_type data_type) }
    ensures { result ≡ with_type array (logical_type data_type) }
{
    let (_, values, validity) = array.into_inner();
    BooleanArray::new(data_type, values, validity)
}

/// Returns the array of slots, under the data type of another array.
///
/// # Errors
/// `OutOfMemory` if an allocation fails.
pub(crate) fn booleans_like(
    alloc: Global,
    array: &BooleanArray,
    slots: &[Option<bool>],
) -> Result<BooleanArray, Error>
    ensures ok { IfOk result (MakesSlots array.now.data_type slots.now) }
    ensures err { OnlyOutOfMemory result }
{
    let data_type = array.data_type().clone()?;
    Ok(with_data_type(BooleanArray::from(alloc, slots)?, data_type))
}

/// Returns the same slots under another data type.
fn with_items_type<K: ByteKind, O: Offset>(
    array: ByteArray<K, O>,
    data_type: DataType,
) -> ByteArray<K, O>
    requires { IsRightType (K.layout O.IS_LARGE) (logical_type data_type) }
    ensures { result ≡ with_type array (logical_type data_type) }
{
    let (_, offsets, values, validity) = array.into_inner();
    ByteArray::new(data_type, offsets, values, validity)
}

/// Returns the array of slots, under the data type of another array, whose slots together have at least as many bytes.
///
/// # Errors
/// `OutOfMemory` if an allocation fails.
pub(crate) fn items_like<K: ByteKind, O: Offset, X: ByteItem<K>>(
    alloc: Global,
    array: &ByteArray<K, O>,
    slots: &[Option<X>],
) -> Result<ByteArray<K, O>, Error>
    requires { total_size length (as_seen X.bytes slots.now) ≤ total_size length (slots_of array.now) }
    ensures ok { IfOk result (MakesSlots array.now.data_type (as_seen X.bytes slots.now)) }
    ensures err { OnlyOutOfMemory result }
{
    // Called for its contract: no item ends past the greatest offset.
    array.offsets().last();
    let data_type = array.data_type().clone()?;
    Ok(with_items_type(ByteArray::from(alloc, slots)?, data_type))
}
