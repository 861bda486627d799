//! Arrays and builders of native values from raw parts, in the order of tests that the arrays have.
ghost use Rattle.std.specs.Prelude.{IsTrue};
ghost use Rattle.arrow_creation.specs.Outcome.{BuiltBy, FromParts, NativeFromParts};
ghost use Rattle.arrow_entry.specs.Entry.{value_of};
ghost use Rattle.arrow_model.specs.Kind.{frozen, is_native, shape, with_nulls};
ghost use Rattle.arrow_model.specs.Request as ask;

use crate::parts::raw::{mask_from_parts, mutable_mask_from_parts};
use arrow_entry::Entry;
use arrow_memory::buffer::Buffer;
use arrow_model::{Bits, Kind};
use arrow_primitive::{MutablePrimitiveArray, PrimitiveArray};
use arrow_types::data_type::DataType;
use arrow_types::error::Error;
use arrow_types::native_type::NativeType;
use arrow_types::offset::Offset;

/// Creates an array from raw parts.
///
/// # Errors
/// `OutOfSpec` for the first test that the parts fail, or `OutOfMemory` if an allocation fails.
fn array_from_parts<T: NativeType, O: Offset>(
    data_type: DataType,
    values: Vec<T>,
    mask: Option<Bits>,
) -> Result<PrimitiveArray<T>, Error>
    ensures { NativeFromParts T.NativeType O.Offset data_type mask frozen values.items result }
{
    let values = Buffer::from_vec(values)?;
    let mask = mask_from_parts(mask)?;
    PrimitiveArray::try_new(data_type, values, mask)
}

/// Creates a builder from raw parts.
///
/// # Errors
/// `OutOfSpec` for the first test that the parts fail, or `OutOfMemory` if an allocation fails.
fn builder_from_parts<T: NativeType, O: Offset>(
    data_type: DataType,
    values: Vec<T>,
    mask: Option<Bits>,
) -> Result<MutablePrimitiveArray<T>, Error>
    ensures { NativeFromParts T.NativeType O.Offset data_type mask with_nulls values.items result }
{
    let mask = mutable_mask_from_parts(mask)?;
    MutablePrimitiveArray::try_new(data_type, values, mask)
}

/// Creates what native values and the rest of raw parts make. The kind is one of native values.
///
/// # Errors
/// `OutOfSpec` for the first test that the parts fail, or `OutOfMemory` if an allocation fails.
pub fn natives_from_parts<T: NativeType, O: Offset>(
    kind: Kind,
    data_type: DataType,
    values: Vec<T>,
    mask: Option<Bits>,
) -> Result<Entry<T, O>, Error>
    requires { IsTrue (is_native (shape kind)) }
    ensures { BuiltBy value_of result
        (FromParts T.NativeType O.Offset data_type mask (shape kind) (ask.values values.items)) }
{
    match kind {
        Kind::Primitive => {
            let array = array_from_parts::<T, O>(data_type, values, mask)?;
            Ok(Entry::Primitive(array))
        }
        Kind::MutablePrimitive => {
            let builder = builder_from_parts::<T, O>(data_type, values, mask)?;
            Ok(Entry::MutablePrimitive(builder))
        }
        _ => unreachable!(),
    }
}
