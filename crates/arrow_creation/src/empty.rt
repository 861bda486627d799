//! Arrays and builders with no slot, with which values of slots begin.
ghost use Rattle.std.specs.Prelude.{[], ◌≡◌, Some};
ghost use Rattle.arrow_types.specs.Failures.{OnlyOutOfMemory};
ghost use Rattle.arrow_types.specs.Types.{default_logical_type};
ghost use Rattle.arrow_column.specs.Column.{column_of_parts};
ghost use Rattle.arrow_creation.specs.Outcome.{IfMade, builder_shape};
ghost use Rattle.arrow_model.specs.Change.{empty_value, slots_start};
ghost use Rattle.arrow_model.specs.Kind.{shape};
ghost use Rattle.arrow_model.specs.Value.{types_of};

use crate::kinds::builder_kind;
use arrow_binary::{BinaryArray, MutableBinaryArray, MutableBinaryValuesArray};
use arrow_boolean::{BooleanArray, MutableBooleanArray};
use arrow_entry::Entry;
use arrow_memory::bitmap::MutableBitmap;
use arrow_model::Kind;
use arrow_primitive::{MutablePrimitiveArray, PrimitiveArray};
use arrow_types::data_type::DataType;
use arrow_types::error::Error;
use arrow_types::native_type::NativeType;
use arrow_types::offset::Offset;
use arrow_utf8::{MutableUtf8Array, MutableUtf8ValuesArray, Utf8Array};
use std::alloc::Global;

/// Creates an array or a builder of a kind with no slot and no mask.
///
/// # Errors
/// `OutOfMemory` if an allocation fails.
#[tactic(auto, using(crate::proofs::EmptyLemmas::seen_empty))]
pub fn empty_entry<T: NativeType, O: Offset>(
    alloc: Global,
    kind: Kind,
) -> Result<Entry<T, O>, Error>
    ensures ok { IfMade result (empty_value (types_of T.NativeType O.Offset) (shape kind)) }
    ensures err { OnlyOutOfMemory result }
{
    Ok(match kind {
        Kind::Primitive => Entry::Primitive(PrimitiveArray::default(alloc)?),
        Kind::Boolean => Entry::Boolean(BooleanArray::new_empty(alloc, DataType::Boolean)?),
        Kind::Binary => Entry::Binary(BinaryArray::default(alloc)?),
        Kind::Utf8 => Entry::Utf8(Utf8Array::default(alloc)?),
        Kind::MutablePrimitive => Entry::MutablePrimitive(MutablePrimitiveArray::new(alloc)),
        Kind::MutableBoolean => Entry::MutableBoolean(MutableBooleanArray::new(alloc)),
        Kind::MutableBinary => Entry::MutableBinary(MutableBinaryArray::new(alloc)?),
        Kind::MutableUtf8 => Entry::MutableUtf8(MutableUtf8Array::new(alloc)?),
        Kind::BinaryValues => Entry::BinaryValues(MutableBinaryValuesArray::new(alloc)?),
        Kind::Utf8Values => Entry::Utf8Values(MutableUtf8ValuesArray::new(alloc)?),
    })
}

/// Creates a builder of native values with no slot, which holds a mask.
fn masked_builder<T: NativeType>(alloc: Global) -> MutablePrimitiveArray<T>
    ensures { result ≡ column_of_parts (default_logical_type T.PRIMITIVE) [] (Some []) }
{
    let mut builder = MutablePrimitiveArray::new(alloc);
    builder.set_validity(Some(MutableBitmap::new(alloc)));
    builder
}

/// Creates the builder in which slots of a kind are made: with no slot yet, and for native values with a mask.
///
/// # Errors
/// `OutOfMemory` if an allocation fails.
#[tactic(auto, using(crate::proofs::EmptyLemmas::seen_empty))]
pub fn slots_builder<T: NativeType, O: Offset>(
    alloc: Global,
    kind: Kind,
) -> Result<Entry<T, O>, Error>
    ensures ok { IfMade result (slots_start (types_of T.NativeType O.Offset) (builder_shape (shape kind))) }
    ensures err { OnlyOutOfMemory result }
{
    match kind {
        Kind::Primitive | Kind::MutablePrimitive => {
            Ok(Entry::MutablePrimitive(masked_builder(alloc)))
        }
        other => empty_entry(alloc, builder_kind(other)),
    }
}
