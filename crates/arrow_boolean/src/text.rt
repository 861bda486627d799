//! The text of arrays and of builders, the same by `{}`, by `{:?}` and under every option.
ghost use Rattle.std.specs.Prelude.{codes};
ghost use Rattle.arrow_memory.specs.MarkText.{marks_text};
ghost use Rattle.arrow_column.specs.SlotText.{boolean_text, builder_text, named_text};

use crate::{BooleanArray, MutableBooleanArray};
use std::fmt;

impl fmt::Debug for BooleanArray {
    ghost debug_output = { named_text (codes "BooleanArray") boolean_text };

    /// Writes the slots, as in `BooleanArray[true, None]`.
    fn fmt<W: fmt::Write>(&self, f: &mut fmt::Formatter<W>) -> fmt::Result {
        self.column.write_named(f, "BooleanArray")
    }
}

impl fmt::Display for BooleanArray {
    ghost output = { named_text (codes "BooleanArray") boolean_text };

    /// Writes the array as `{:?}` does.
    fn fmt<W: fmt::Write>(&self, f: &mut fmt::Formatter<W>) -> fmt::Result {
        self.column.write_named(f, "BooleanArray")
    }
}

impl fmt::Debug for MutableBooleanArray {
    ghost debug_output = { builder_text (codes "MutableBooleanArray") marks_text };

    /// Writes the fields, as in `MutableBooleanArray { data_type: Boolean, values: [0b______01],
    /// validity: None }`.
    fn fmt<W: fmt::Write>(&self, f: &mut fmt::Formatter<W>) -> fmt::Result {
        self.column.write_fields(f, "MutableBooleanArray")
    }
}

impl fmt::Display for MutableBooleanArray {
    ghost output = { builder_text (codes "MutableBooleanArray") marks_text };

    /// Writes the builder as `{:?}` does.
    fn fmt<W: fmt::Write>(&self, f: &mut fmt::Formatter<W>) -> fmt::Result {
        self.column.write_fields(f, "MutableBooleanArray")
    }
}
