//! The text of arrays of bytes and of text, and of their builders.
ghost use Rattle.std.specs.Fmt.{DisplaysOnOk};
ghost use Rattle.arrow_column.specs.SlotText.{named_text};
ghost use Rattle.arrow_bytes.specs.ItemText.{byte_builder_text, values_builder_text};

use crate::{ByteArray, MutableByteArray, MutableByteValuesArray};
use arrow_bytes::{ByteKind, MutableByteValues, WriteKind};
use arrow_column::{GrowingColumn, write_head};
use arrow_types::offset::Offset;
use std::fmt;

impl<K: WriteKind, O: Offset> fmt::Debug for ByteArray<K, O> {
    ghost debug_output = { named_text (K.array_name O.IS_LARGE) K.item_text };

    /// Writes the slots, as in `BinaryArray[[1, 2], None]` and `Utf8Array["ab", None]`.
    fn fmt<W: fmt::Write>(&self, f: &mut fmt::Formatter<W>) -> fmt::Result {
        self.column.write_named(f, K::array_name(O::IS_LARGE))
    }
}

impl<K: WriteKind, O: Offset> fmt::Display for ByteArray<K, O> {
    ghost output = { named_text (K.array_name O.IS_LARGE) K.item_text };

    /// Writes the array as `{:?}` does.
    fn fmt<W: fmt::Write>(&self, f: &mut fmt::Formatter<W>) -> fmt::Result {
        self.column.write_named(f, K::array_name(O::IS_LARGE))
    }
}

/// Writes the fields of a builder without nulls: its data type, its offsets and its bytes.
fn write_values<K: ByteKind, O: Offset, W: fmt::Write>(
    f: &mut fmt::Formatter<W>,
    name: &str,
    column: &GrowingColumn<MutableByteValues<K, O>>,
) -> fmt::Result
    ensures { DisplaysOnOk W.write_str_gives f.old result (values_builder_text name.now column.now) f.new }
{
    write_head(f, name, column.data_type(), ", offsets: ")?;
    let values = column.values();
    let (offsets, bytes) = (values.offsets(), values.bytes());
    write!(f, "{offsets:?}, values: {bytes:?} }}")
}

/// Writes the fields of a builder with nulls: the builder of its values, and its mask.
fn write_builder<K: WriteKind, O: Offset, W: fmt::Write>(
    f: &mut fmt::Formatter<W>,
    column: &GrowingColumn<MutableByteValues<K, O>>,
) -> fmt::Result
    ensures { DisplaysOnOk W.write_str_gives f.old result
        (byte_builder_text K.builder_name K.values_builder_name column.now) f.new }
{
    f.write_str(K::builder_name())?;
    f.write_str(" { values: ")?;
    write_values(f, K::values_builder_name(), column)?;
    column.write_validity(f)
}

impl<K: WriteKind, O: Offset> fmt::Debug for MutableByteValuesArray<K, O> {
    ghost debug_output = { values_builder_text K.values_builder_name };

    /// Writes the fields, as in `MutableUtf8ValuesArray { data_type: Utf8, offsets: Offsets([0, 1]),
    /// values: [97] }`.
    fn fmt<W: fmt::Write>(&self, f: &mut fmt::Formatter<W>) -> fmt::Result {
        write_values(f, K::values_builder_name(), &self.column)
    }
}

impl<K: WriteKind, O: Offset> fmt::Display for MutableByteValuesArray<K, O> {
    ghost output = { values_builder_text K.values_builder_name };

    /// Writes the builder as `{:?}` does.
    fn fmt<W: fmt::Write>(&self, f: &mut fmt::Formatter<W>) -> fmt::Result {
        write_values(f, K::values_builder_name(), &self.column)
    }
}

impl<K: WriteKind, O: Offset> fmt::Debug for MutableByteArray<K, O> {
    ghost debug_output = { byte_builder_text K.builder_name K.values_builder_name };

    /// Writes the fields, of which the first is the builder of the values, and the last the mask.
    fn fmt<W: fmt::Write>(&self, f: &mut fmt::Formatter<W>) -> fmt::Result {
        write_builder(f, &self.column)
    }
}

impl<K: WriteKind, O: Offset> fmt::Display for MutableByteArray<K, O> {
    ghost output = { byte_builder_text K.builder_name K.values_builder_name };

    /// Writes the builder as `{:?}` does.
    fn fmt<W: fmt::Write>(&self, f: &mut fmt::Formatter<W>) -> fmt::Result {
        write_builder(f, &self.column)
    }
}
