//! The slots of an array under another data type: bytes as text, text as bytes, and values of the same native type.
ghost use Rattle.std.specs.Prelude.{◌≡◌, IfOk};
ghost use Rattle.arrow_types.specs.Failures.{OnlyOutOfMemory};
ghost use Rattle.arrow_types.specs.Types.{IsRightType, logical_type};
ghost use Rattle.arrow_types.specs.declared.physical_type.PhysicalType.TheVariants as PhysicalType;
ghost use Rattle.arrow_column.specs.Column.{with_type};
ghost use Rattle.arrow_bytes.specs.Kinds.{binary_layout};
ghost use Rattle.compute_cast.specs.Cast.{BecomesText, FailsAsText};

use arrow_binary::BinaryArray;
use arrow_byte_array::laws::array_again;
use arrow_primitive::PrimitiveArray;
use arrow_types::data_type::DataType;
use arrow_types::error::Error;
use arrow_types::native_type::NativeType;
use arrow_types::offset::Offset;
use arrow_types::physical_type::PhysicalType;
use arrow_utf8::Utf8Array;
use compute_base::masks::clone_mask;

/// Returns the same slots as text, without copying any. Each item must be UTF-8 by itself, also the items that null
/// slots store. The result holds a mask if the array does.
///
/// # Errors
/// As [`Utf8Array::try_new`] of the array's parts:
/// - `OutOfSpec` if an item is not UTF-8 by itself, or else if the data type does not have the
///   physical type of an array of text.
/// - `OutOfMemory` if an allocation fails.
pub fn binary_to_utf8<O: Offset>(
    array: &BinaryArray<O>,
    data_type: DataType,
) -> Result<Utf8Array<O>, Error>
    ensures ok { BecomesText O.IS_LARGE array.now (logical_type data_type) result }
    ensures err { FailsAsText O.IS_LARGE array.now (logical_type data_type) result }
{
    // Called for its contract: an array is made again of its own parts.
    array_again();
    let offsets = array.offsets().clone()?;
    let values = array.values().clone()?;
    let validity = clone_mask(array.validity())?;
    Utf8Array::try_new(data_type, offsets, values, validity)
}

/// Returns the same slots as bytes, without copying any. The data type must have the physical type of an array of
/// bytes. The result holds a mask if the array does.
///
/// # Errors
/// `OutOfMemory` if an allocation fails.
pub fn utf8_to_binary<O: Offset>(
    array: &Utf8Array<O>,
    data_type: DataType,
) -> Result<BinaryArray<O>, Error>
    requires { IsRightType (binary_layout O.IS_LARGE) (logical_type data_type) }
    ensures ok { IfOk result (λ made. made ≡ with_type array.now (logical_type data_type)) }
    ensures err { OnlyOutOfMemory result }
{
    let (_, offsets, values, validity) = array.clone()?.into_inner();
    Ok(BinaryArray::new(data_type, offsets, values, validity))
}

/// Returns the same slots under another data type, without copying any. The data type must have the physical type of
/// `T`. The result holds a mask if the array does.
///
/// # Errors
/// `OutOfMemory` if an allocation fails.
pub fn primitive_to_same_primitive<T: NativeType>(
    array: &PrimitiveArray<T>,
    data_type: DataType,
) -> Result<PrimitiveArray<T>, Error>
    requires { IsRightType (PhysicalType.Primitive T.PRIMITIVE) (logical_type data_type) }
    ensures ok { IfOk result (λ made. made ≡ with_type array.now (logical_type data_type)) }
    ensures err { OnlyOutOfMemory result }
{
    Ok(array.clone()?.to(data_type))
}
