//! The text of buffers and of offsets. A value is written without the options of the whole, so that `{:#?}` writes what
//! `{:?}` does.
ghost use Rattle.std.specs.Prelude.{codes};
ghost use Rattle.std.specs.Fmt.{debug_list};
ghost use Rattle.arrow_memory.specs.NumberText.{number_texts, offsets_text};

use crate::buffer::Buffer;
use crate::offset::{Offsets, OffsetsBuffer, number_at};
use arrow_types::list_text::{WriteItems, write_list};
use arrow_types::offset::Offset;
use std::fmt;

impl<T: fmt::Debug + Drop> fmt::Debug for Buffer<T> {
    ghost debug_output = { debug_list T.debug_output };

    /// Writes the values as a slice is written, as in `[1, 2, 3]`.
    fn fmt<W: fmt::Write>(&self, f: &mut fmt::Formatter<W>) -> fmt::Result {
        write!(f, "{:?}", self.as_slice())
    }
}

impl<T: fmt::Debug + Drop> fmt::Display for Buffer<T> {
    ghost output = { debug_list T.debug_output };

    /// Writes the values as `{:?}` does.
    fn fmt<W: fmt::Write>(&self, f: &mut fmt::Formatter<W>) -> fmt::Result {
        fmt::Debug::fmt(self, f)
    }
}

// The items are the numbers.
impl<O: Offset> WriteItems for OffsetsBuffer<O> {
    ghost texts = { number_texts };

    fn item_count(&self) -> usize {
        self.buffer().len()
    }

    fn write_item<W: fmt::Write>(&self, f: &mut fmt::Formatter<W>, i: usize) -> fmt::Result {
        let number = number_at(self.offsets.as_slice(), i);
        write!(f, "{number}")
    }
}

impl<O: Offset> WriteItems for Offsets<O> {
    ghost texts = { number_texts };

    fn item_count(&self) -> usize {
        self.offsets.len()
    }

    fn write_item<W: fmt::Write>(&self, f: &mut fmt::Formatter<W>, i: usize) -> fmt::Result {
        let number = number_at(self.offsets.as_slice(), i);
        write!(f, "{number}")
    }
}

impl<O: Offset> fmt::Debug for OffsetsBuffer<O> {
    ghost debug_output = { offsets_text (codes "OffsetsBuffer") };

    /// Writes the numbers, as in `OffsetsBuffer([0, 1, 3])`.
    fn fmt<W: fmt::Write>(&self, f: &mut fmt::Formatter<W>) -> fmt::Result {
        f.write_str("OffsetsBuffer(")?;
        write_list(f, self)?;
        f.write_str(")")
    }
}

impl<O: Offset> fmt::Display for OffsetsBuffer<O> {
    ghost output = { offsets_text (codes "OffsetsBuffer") };

    /// Writes the numbers as `{:?}` does.
    fn fmt<W: fmt::Write>(&self, f: &mut fmt::Formatter<W>) -> fmt::Result {
        fmt::Debug::fmt(self, f)
    }
}

impl<O: Offset> fmt::Debug for Offsets<O> {
    ghost debug_output = { offsets_text (codes "Offsets") };

    /// Writes the numbers, as in `Offsets([0, 1, 3])`.
    fn fmt<W: fmt::Write>(&self, f: &mut fmt::Formatter<W>) -> fmt::Result {
        f.write_str("Offsets(")?;
        write_list(f, self)?;
        f.write_str(")")
    }
}

impl<O: Offset> fmt::Display for Offsets<O> {
    ghost output = { offsets_text (codes "Offsets") };

    /// Writes the numbers as `{:?}` does.
    fn fmt<W: fmt::Write>(&self, f: &mut fmt::Formatter<W>) -> fmt::Result {
        fmt::Debug::fmt(self, f)
    }
}
