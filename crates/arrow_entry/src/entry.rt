//! The entries of a table. An entry is an enum and no trait object: a `match` of ten arms is proved faster than ten
//! implementations.

use arrow_binary::{BinaryArray, MutableBinaryArray, MutableBinaryValuesArray};
use arrow_boolean::{BooleanArray, MutableBooleanArray};
use arrow_primitive::{MutablePrimitiveArray, PrimitiveArray};
use arrow_types::native_type::NativeType;
use arrow_types::offset::Offset;
use arrow_utf8::{MutableUtf8Array, MutableUtf8ValuesArray, Utf8Array};

/// An array or a builder.
#[derive(Drop)]
pub enum Entry<T: NativeType, O: Offset> {
    /// An array of native values.
    Primitive(PrimitiveArray<T>),
    /// An array of booleans.
    Boolean(BooleanArray),
    /// An array of bytes.
    Binary(BinaryArray<O>),
    /// An array of text.
    Utf8(Utf8Array<O>),
    /// A builder of native values.
    MutablePrimitive(MutablePrimitiveArray<T>),
    /// A builder of booleans.
    MutableBoolean(MutableBooleanArray),
    /// A builder of bytes.
    MutableBinary(MutableBinaryArray<O>),
    /// A builder of text.
    MutableUtf8(MutableUtf8Array<O>),
    /// A builder of bytes without nulls.
    BinaryValues(MutableBinaryValuesArray<O>),
    /// A builder of text without nulls.
    Utf8Values(MutableUtf8ValuesArray<O>),
}
