//! The text of arrays and of builders. Dates, times and decimals are written as the numbers that
//! are stored.
ghost use Rattle.std.specs.Prelude.{codes};
ghost use Rattle.std.specs.Fmt.{debug_list};
ghost use Rattle.arrow_column.specs.SlotText.{array_text, builder_text};

use crate::{MutablePrimitiveArray, PrimitiveArray};
use arrow_types::native_type::NativeType;
use std::fmt;

impl<T: NativeType + fmt::Debug> fmt::Debug for PrimitiveArray<T> {
    ghost debug_output = { array_text T.debug_output };

    /// Writes the data type and the slots, as in `Int64[1, None, 3]`.
    fn fmt<W: fmt::Write>(&self, f: &mut fmt::Formatter<W>) -> fmt::Result {
        self.column.write(f)
    }
}

impl<T: NativeType + fmt::Debug> fmt::Display for PrimitiveArray<T> {
    ghost output = { array_text T.debug_output };

    /// Writes the array as `{:?}` does.
    fn fmt<W: fmt::Write>(&self, f: &mut fmt::Formatter<W>) -> fmt::Result {
        self.column.write(f)
    }
}

impl<T: NativeType + fmt::Debug> fmt::Debug for MutablePrimitiveArray<T> {
    ghost debug_output = { builder_text (codes "MutablePrimitiveArray") (debug_list T.debug_output) };

    /// Writes the fields, as in `MutablePrimitiveArray { data_type: Int64, values: [1, 0],
    /// validity: Some([0b______01]) }`.
    fn fmt<W: fmt::Write>(&self, f: &mut fmt::Formatter<W>) -> fmt::Result {
        self.column.write_fields(f, "MutablePrimitiveArray")
    }
}

impl<T: NativeType + fmt::Debug> fmt::Display for MutablePrimitiveArray<T> {
    ghost output = { builder_text (codes "MutablePrimitiveArray") (debug_list T.debug_output) };

    /// Writes the builder as `{:?}` does.
    fn fmt<W: fmt::Write>(&self, f: &mut fmt::Formatter<W>) -> fmt::Result {
        self.column.write_fields(f, "MutablePrimitiveArray")
    }
}
