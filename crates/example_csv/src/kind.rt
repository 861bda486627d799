//! The types of columns. Another one needs a builder, a meaning of fields, and a text of cells.
use std::fmt;

/// The type of a column.
#[derive(Clone, Copy, Debug, PartialEq, Eq)]
pub enum Kind {
    /// Numbers of 64 bits.
    Int64,
    /// Booleans.
    Boolean,
    /// Text.
    Utf8,
}

impl fmt::Display for Kind {
    fn fmt<W: fmt::Write>(&self, f: &mut fmt::Formatter<W>) -> fmt::Result {
        match self {
            Kind::Int64 => write!(f, "i64"),
            Kind::Boolean => write!(f, "bool"),
            Kind::Utf8 => write!(f, "text"),
        }
    }
}
