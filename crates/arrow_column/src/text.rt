//! The text of columns: the slots of a frozen column, and the fields of a growing one. Each part is written without the
//! options of the whole, so that `{:#?}` and `{:5?}` write what `{:?}` does.
ghost use Rattle.std.specs.Prelude.{ℕ, ◌<◌, List, Option, length, map};
ghost use Rattle.std.specs.Fmt.{DisplaysOnOk, WritesOnOk};
ghost use Rattle.arrow_types.specs.ListText.{slot_at};
ghost use Rattle.arrow_types.specs.Types.{logical_type};
ghost use Rattle.arrow_column.specs.Column.{mask_of};
ghost use Rattle.arrow_column.specs.SlotText.{array_text, builder_text, head_text, named_text, validity_text};

use crate::values::{MutableValues, Values};
use crate::{FrozenColumn, GrowingColumn};
use arrow_memory::bitmap::{Bitmap, MutableBitmap};
use arrow_memory::buffer::Buffer;
use arrow_types::data_type::DataType;
use arrow_types::list_text::{WriteItems, write_list};
use arrow_types::native_type::NativeType;
use std::fmt;

/// Stored values of an array that can be written one by one.
pub trait WriteValues: Values {
    /// The text of a stored value, or `None` where it is left open.
    ghost text: { Self.Stored → Option (List ℕ) };

    /// Writes the value at `i`.
    ///
    /// # Errors
    /// `Error` if the formatter fails.
    fn write_value<W: fmt::Write>(&self, f: &mut fmt::Formatter<W>, i: usize) -> fmt::Result
        requires { i < length (Self.stored self.now) }
        ensures { DisplaysOnOk W.write_str_gives f.old result (slot_at (map text (Self.stored self.now)) i) f.new };
}

impl<T: NativeType + fmt::Debug> WriteValues for Buffer<T> {
    ghost text = { T.debug_output };

    fn write_value<W: fmt::Write>(&self, f: &mut fmt::Formatter<W>, i: usize) -> fmt::Result {
        let value = self.as_slice()[i];
        write!(f, "{value:?}")
    }
}

impl WriteValues for Bitmap {
    ghost use Rattle.arrow_column.specs.SlotText.{boolean_text};

    ghost text = { boolean_text };

    fn write_value<W: fmt::Write>(&self, f: &mut fmt::Formatter<W>, i: usize) -> fmt::Result {
        let value = self.get_bit(i);
        write!(f, "{value:?}")
    }
}

// The items are the slots.
impl<V: WriteValues> WriteItems for FrozenColumn<V> {
    ghost use Rattle.arrow_column.specs.Column.{slots_of};
    ghost use Rattle.arrow_column.specs.SlotText.{debug_slots};

    ghost texts = { λ column. debug_slots V.text (slots_of column) };

    fn item_count(&self) -> usize {
        self.len()
    }

    fn write_item<W: fmt::Write>(&self, f: &mut fmt::Formatter<W>, i: usize) -> fmt::Result {
        if self.is_null(i) {
            return f.write_str("None");
        }
        self.values().write_value(f, i)
    }
}

impl<V: WriteValues> FrozenColumn<V> {
    /// Writes the data type and the slots, as in `Int32[1, None, 3]`.
    ///
    /// # Errors
    /// `Error` if the formatter fails.
    pub fn write<W: fmt::Write>(&self, f: &mut fmt::Formatter<W>) -> fmt::Result
        ensures { DisplaysOnOk W.write_str_gives f.old result (array_text V.text self.now) f.new }
    {
        write!(f, "{}", self.data_type)?;
        write_list(f, self)
    }

    /// Writes the name of an array and the slots, as in `BooleanArray[true, None]`. The data type stands in place of
    /// the name if it is an extension.
    ///
    /// # Errors
    /// `Error` if the formatter fails.
    pub fn write_named<W: fmt::Write>(&self, f: &mut fmt::Formatter<W>, name: &str) -> fmt::Result
        ensures { DisplaysOnOk W.write_str_gives f.old result (named_text name.now V.text self.now) f.new }
    {
        if self.data_type.is_extension() {
            return self.write(f);
        }
        f.write_str(name)?;
        write_list(f, self)
    }
}

/// Stored values of a builder that can be written together.
pub trait WriteMutableValues: MutableValues {
    /// The text of the stored values, or `None` where it is left open.
    ghost all_text: { List Self.Stored → Option (List ℕ) };

    /// Writes the stored values.
    ///
    /// # Errors
    /// `Error` if the formatter fails.
    fn write_values<W: fmt::Write>(&self, f: &mut fmt::Formatter<W>) -> fmt::Result
        ensures { DisplaysOnOk W.write_str_gives f.old result (all_text (Self.stored self.now)) f.new };
}

impl<T: NativeType + fmt::Debug> WriteMutableValues for Vec<T> {
    ghost use Rattle.std.specs.Fmt.{debug_list};

    ghost all_text = { debug_list T.debug_output };

    fn write_values<W: fmt::Write>(&self, f: &mut fmt::Formatter<W>) -> fmt::Result {
        write!(f, "{self:?}")
    }
}

impl WriteMutableValues for MutableBitmap {
    ghost use Rattle.arrow_memory.specs.MarkText.{marks_text};

    ghost all_text = { marks_text };

    fn write_values<W: fmt::Write>(&self, f: &mut fmt::Formatter<W>) -> fmt::Result {
        fmt::Debug::fmt(self, f)
    }
}

/// Writes a mask as the last field of a builder.
fn write_mask<W: fmt::Write>(f: &mut fmt::Formatter<W>, mask: &Option<MutableBitmap>) -> fmt::Result
    ensures { DisplaysOnOk W.write_str_gives f.old result (validity_text mask.now) f.new }
{
    write!(f, ", validity: {mask:?} }}")
}

/// Writes the name of a builder, its data type, and the name of the next field, as in `Builder { data_type: Int32,
/// values: `.
///
/// # Errors
/// `Error` if the formatter fails.
pub fn write_head<W: fmt::Write>(
    f: &mut fmt::Formatter<W>,
    name: &str,
    data_type: &DataType,
    next: &str,
) -> fmt::Result
    ensures { WritesOnOk W.write_str_gives f.old result
        (head_text name.now (logical_type data_type.now) next.now) f.new }
{
    write!(f, "{name} {{ data_type: {data_type}{next}")
}

impl<V: MutableValues> GrowingColumn<V> {
    /// Writes the mask as the last field of a builder, as in `, validity: Some([0b_____101]) }`.
    ///
    /// # Errors
    /// `Error` if the formatter fails.
    pub fn write_validity<W: fmt::Write>(&self, f: &mut fmt::Formatter<W>) -> fmt::Result
        ensures { DisplaysOnOk W.write_str_gives f.old result (validity_text (mask_of self.now)) f.new }
    {
        write_mask(f, &self.validity)
    }
}

impl<V: WriteMutableValues> GrowingColumn<V> {
    /// Writes the name of a builder and its fields, as in `Builder { data_type: Int32, values: [1, 2], validity: None
    /// }`.
    ///
    /// # Errors
    /// `Error` if the formatter fails.
    pub fn write_fields<W: fmt::Write>(&self, f: &mut fmt::Formatter<W>, name: &str) -> fmt::Result
        ensures { DisplaysOnOk W.write_str_gives f.old result (builder_text name.now V.all_text self.now) f.new }
    {
        write_head(f, name, self.data_type(), ", values: ")?;
        self.values().write_values(f)?;
        self.write_validity(f)
    }
}
