//! The names and the data types of a batch's columns, and their text, which is part of the contract.
ghost use Rattle.std.specs.Prelude.{Some};
ghost use Rattle.example_record_batch.specs.Schemas.{schema_text};

use crate::batch::Field;
use std::fmt;
use std::marker::Model;

/// The name and the data type of each column of a batch. It lends the columns.
#[derive(Drop)]
pub struct Schema<'a> {
    pub(crate) fields: &'a [Field],
}

// Contracts see the names and the data types.
impl<'a> Model for Schema<'a> {
    ghost use Rattle.std.specs.Prelude.{List};
    ghost use Rattle.example_record_batch.specs.Schemas.{NamedType, fields_schema};

    ghost Value = { List NamedType };

    ghost view = { λ schema. fields_schema schema.fields.now };
}

impl<'a> fmt::Display for Schema<'a> {
    ghost output = { λ columns. Some (schema_text columns) };

    /// Writes a line for each column, as in `name: Int64`.
    fn fmt<W: fmt::Write>(&self, f: &mut fmt::Formatter<W>) -> fmt::Result {
        for field in self.fields {
            writeln!(f, "{}: {}", field.name, field.array.data_type())?;
        }
        Ok(())
    }
}
