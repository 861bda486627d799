//! Arrays and builders of bytes and text from raw parts, in the order of tests that the arrays have. A text is tested
//! once.
ghost use Rattle.std.specs.Prelude.{IsTrue, None, false, true};
ghost use Rattle.arrow_creation.specs.Outcome.{BuiltBy, BytesCost, BytesCostAtMost, BytesFromParts, FromPieces};
ghost use Rattle.arrow_creation.specs.Outcome.{IsKindOf, PiecesCost, PiecesCostAtMost, built_answer, pieces_fit};
ghost use Rattle.arrow_entry.specs.Entry.{value_of};
ghost use Rattle.arrow_model.specs.Kind.{frozen, shape, values_alone, var_binary, with_nulls};
ghost use Rattle.arrow_model.specs.Value.{types_of};

use crate::parts::raw::{mutable_pieces_from_parts, pieces_from_parts};
use arrow_byte_array::{ByteArray, MutableByteArray, MutableByteValuesArray};
use arrow_bytes::{Binary, ByteKind, Utf8};
use arrow_check::cost::TextCost;
use arrow_entry::Entry;
use arrow_model::{Bits, Kind};
use arrow_types::data_type::DataType;
use arrow_types::error::Error;
use arrow_types::native_type::NativeType;
use arrow_types::offset::Offset;

/// Creates an array from raw parts. What the test of text costs is added to the counts.
///
/// # Errors
/// `OutOfSpec` for the first test that the parts fail, or `OutOfMemory` if an allocation fails.
fn array_from_parts<T: NativeType, K: ByteKind, O: Offset>(
    data_type: DataType,
    offsets: Vec<O>,
    bytes: Vec<u8>,
    mask: Option<Bits>,
    cost: &mut TextCost,
) -> Result<ByteArray<K, O>, Error>
    requires { IsKindOf (types_of T.NativeType O.Offset) (var_binary K.is_text) true
        (K.layout O.IS_LARGE) K.wrong_type }
    ensures transition { BytesFromParts T.NativeType O.Offset data_type mask frozen K.is_text offsets.items bytes.items result }
    ensures exact { BytesCost T.NativeType O.Offset frozen K.is_text mask offsets.items bytes.items result
        cost.old cost.new }
    ensures most { BytesCostAtMost T.NativeType O.Offset frozen K.is_text data_type mask
        offsets.items bytes.items cost.old cost.new }
{
    let (offsets, bytes, mask) = pieces_from_parts(offsets, bytes, mask)?;
    ByteArray::try_new_counted(data_type, offsets, bytes, mask, cost)
}

/// Creates a builder from raw parts. What the test of text costs is added to the counts.
///
/// # Errors
/// `OutOfSpec` for the first test that the parts fail, or `OutOfMemory` if an allocation fails.
fn builder_from_parts<T: NativeType, K: ByteKind, O: Offset>(
    data_type: DataType,
    offsets: Vec<O>,
    bytes: Vec<u8>,
    mask: Option<Bits>,
    cost: &mut TextCost,
) -> Result<MutableByteArray<K, O>, Error>
    requires { IsKindOf (types_of T.NativeType O.Offset) (var_binary K.is_text) false
        (K.layout O.IS_LARGE) K.wrong_builder_type }
    ensures transition { BytesFromParts T.NativeType O.Offset data_type mask with_nulls K.is_text offsets.items bytes.items result }
    ensures exact { BytesCost T.NativeType O.Offset with_nulls K.is_text mask offsets.items bytes.items result
        cost.old cost.new }
    ensures most { BytesCostAtMost T.NativeType O.Offset with_nulls K.is_text data_type mask
        offsets.items bytes.items cost.old cost.new }
{
    let (offsets, mask) = mutable_pieces_from_parts(offsets, mask)?;
    MutableByteArray::try_new_counted(data_type, offsets, bytes, mask, cost)
}

/// Creates a builder without nulls from raw parts. What the test of text costs is added to the counts.
///
/// # Errors
/// `OutOfSpec` for the first test that the parts fail, or `OutOfMemory` if an allocation fails.
fn values_from_parts<T: NativeType, K: ByteKind, O: Offset>(
    data_type: DataType,
    offsets: Vec<O>,
    bytes: Vec<u8>,
    cost: &mut TextCost,
) -> Result<MutableByteValuesArray<K, O>, Error>
    requires { IsKindOf (types_of T.NativeType O.Offset) (var_binary K.is_text) false
        (K.layout O.IS_LARGE) K.wrong_builder_type }
    ensures transition { BytesFromParts T.NativeType O.Offset data_type None values_alone K.is_text offsets.items bytes.items result }
    ensures exact { BytesCost T.NativeType O.Offset values_alone K.is_text None offsets.items bytes.items result
        cost.old cost.new }
    ensures most { BytesCostAtMost T.NativeType O.Offset values_alone K.is_text data_type None
        offsets.items bytes.items cost.old cost.new }
{
    let (offsets, _mask) = mutable_pieces_from_parts(offsets, None)?;
    MutableByteValuesArray::try_new_counted(data_type, offsets, bytes, cost)
}

/// Creates what offsets, bytes and the rest of raw parts make. The kind is one of bytes or text, and of a builder without
/// nulls there is no mask. What the test of text costs is added to the counts.
///
/// # Errors
/// `OutOfSpec` for the first test that the parts fail, or `OutOfMemory` if an allocation fails.
pub fn bytes_from_parts<T: NativeType, O: Offset>(
    kind: Kind,
    data_type: DataType,
    offsets: Vec<O>,
    bytes: Vec<u8>,
    mask: Option<Bits>,
    cost: &mut TextCost,
) -> Result<Entry<T, O>, Error>
    requires { IsTrue (pieces_fit (shape kind) mask) }
    ensures transition { BuiltBy value_of result
        (FromPieces T.NativeType O.Offset data_type mask (shape kind) offsets.items bytes.items) }
    ensures exact { PiecesCost T.NativeType O.Offset (shape kind) mask
        offsets.items bytes.items (built_answer result) cost.old cost.new }
    ensures most { PiecesCostAtMost T.NativeType O.Offset (shape kind) data_type mask
        offsets.items bytes.items cost.old cost.new }
{
    match kind {
        Kind::Binary => {
            let array = array_from_parts::<T, Binary, O>(data_type, offsets, bytes, mask, cost)?;
            Ok(Entry::Binary(array))
        }
        Kind::Utf8 => {
            let array = array_from_parts::<T, Utf8, O>(data_type, offsets, bytes, mask, cost)?;
            Ok(Entry::Utf8(array))
        }
        Kind::MutableBinary => {
            let builder = builder_from_parts::<T, Binary, O>(
                data_type, offsets, bytes, mask, cost,
            )?;
            Ok(Entry::MutableBinary(builder))
        }
        Kind::MutableUtf8 => {
            let builder = builder_from_parts::<T, Utf8, O>(data_type, offsets, bytes, mask, cost)?;
            Ok(Entry::MutableUtf8(builder))
        }
        Kind::BinaryValues => match mask {
            Some(_) => unreachable!(),
            None => {
                let builder = values_from_parts::<T, Binary, O>(data_type, offsets, bytes, cost)?;
                Ok(Entry::BinaryValues(builder))
            }
        },
        Kind::Utf8Values => match mask {
            Some(_) => unreachable!(),
            None => {
                let builder = values_from_parts::<T, Utf8, O>(data_type, offsets, bytes, cost)?;
                Ok(Entry::Utf8Values(builder))
            }
        },
        _ => unreachable!(),
    }
}
