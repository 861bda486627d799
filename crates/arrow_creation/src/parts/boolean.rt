//! Boolean arrays and builders from raw parts, in the order of tests that the arrays have.
ghost use Rattle.std.specs.Prelude.{IsTrue};
ghost use Rattle.arrow_creation.specs.Outcome.{BooleanFromParts, BuiltBy, FromParts};
ghost use Rattle.arrow_entry.specs.Entry.{value_of};
ghost use Rattle.arrow_model.specs.Kind.{frozen, is_boolean, shape, with_nulls};
ghost use Rattle.arrow_model.specs.Request.{packed, packed_bits};

use crate::parts::raw::{
    bitmap_from_parts, mask_from_parts, mutable_bitmap_from_parts, mutable_mask_from_parts,
};
use arrow_boolean::{BooleanArray, MutableBooleanArray};
use arrow_entry::Entry;
use arrow_model::{Bits, Kind};
use arrow_types::data_type::DataType;
use arrow_types::error::Error;
use arrow_types::native_type::NativeType;
use arrow_types::offset::Offset;

/// Creates an array from raw parts.
///
/// # Errors
/// `OutOfSpec` for the first test that the parts fail, or `OutOfMemory` if an allocation fails.
fn array_from_parts<T: NativeType, O: Offset>(
    data_type: DataType,
    values: Bits,
    mask: Option<Bits>,
) -> Result<BooleanArray, Error>
    ensures { BooleanFromParts T.NativeType O.Offset data_type mask frozen values result }
{
    let values = bitmap_from_parts(values)?;
    let mask = mask_from_parts(mask)?;
    BooleanArray::try_new(data_type, values, mask)
}

/// Creates a builder from raw parts.
///
/// # Errors
/// `OutOfSpec` for the first test that the parts fail, or `OutOfMemory` if an allocation fails.
fn builder_from_parts<T: NativeType, O: Offset>(
    data_type: DataType,
    values: Bits,
    mask: Option<Bits>,
) -> Result<MutableBooleanArray, Error>
    ensures { BooleanFromParts T.NativeType O.Offset data_type mask with_nulls values result }
{
    let values = mutable_bitmap_from_parts(values)?;
    let mask = mutable_mask_from_parts(mask)?;
    MutableBooleanArray::try_new(data_type, values, mask)
}

/// Creates what booleans and the rest of raw parts make. The kind is one of booleans.
///
/// # Errors
/// `OutOfSpec` for the first test that the parts fail, or `OutOfMemory` if an allocation fails.
pub fn bits_from_parts<T: NativeType, O: Offset>(
    kind: Kind,
    data_type: DataType,
    values: Bits,
    mask: Option<Bits>,
) -> Result<Entry<T, O>, Error>
    requires { IsTrue (is_boolean (shape kind)) }
    ensures { BuiltBy value_of result
        (FromParts T.NativeType O.Offset data_type mask (shape kind) (packed (packed_bits values))) }
{
    match kind {
        Kind::Boolean => {
            let array = array_from_parts::<T, O>(data_type, values, mask)?;
            Ok(Entry::Boolean(array))
        }
        Kind::MutableBoolean => {
            let builder = builder_from_parts::<T, O>(data_type, values, mask)?;
            Ok(Entry::MutableBoolean(builder))
        }
        _ => unreachable!(),
    }
}
