//! The errors of the program. Contracts say which one comes and what it names; their texts are only tested.
ghost use Rattle.std.specs.Prelude.{◌≡◌};

use crate::kind::Kind;
use csv::{ErrorKind, Position};
use std::alloc::{AllocError, AllocFailed};
use std::{fmt, io};

/// A sum that does not fit in an `i64`.
#[derive(Debug, Drop)]
pub struct SumOverflow {
    /// The column that is summed.
    pub column: String,
    /// The column whose equal slots make a group.
    pub by: String,
    /// The text of these slots, `None` for the group of the nulls.
    pub key: Option<String>,
}

/// Names the column and the group.
impl fmt::Display for SumOverflow {
    fn fmt<W: fmt::Write>(&self, f: &mut fmt::Formatter<W>) -> fmt::Result {
        let (column, by) = (&self.column, &self.by);
        match &self.key {
            Some(key) => write!(f, "the sum of column '{column}' of group '{key}'")?,
            None => write!(
                f,
                "the sum of column '{column}' of the group without '{by}'"
            )?,
        }
        write!(f, " does not fit in 64 bits")
    }
}

/// An error of reading, selecting or printing a table.
#[derive(Debug, Drop)]
pub enum Error {
    /// The text is not CSV, or its records differ in length.
    Csv(csv::Error),
    /// An array cannot be built.
    Arrow(dethrugn::error::Error),
    /// Writing failed.
    Io(io::Error),
    /// An allocation failed.
    OutOfMemory,
    /// The input has no header row.
    NoHeader,
    /// A field of a declared column is not of the column's type.
    Field {
        /// How many bytes of the text come before the record, or before ends of lines that are skipped before it.
        byte: u64,
        /// The column, from 1.
        column: usize,
        /// The type of the column.
        wanted: Kind,
    },
    /// No column has this name.
    UnknownColumn(String),
    /// The column of this name does not hold booleans.
    NotTruth(String),
    /// The column of this name does not hold numbers.
    NotNumbers(String),
    /// The sum of a group does not fit in an `i64`.
    SumOverflow(SumOverflow),
}

impl Error {
    /// Returns how many bytes of the text come before the record that is refused, or before ends of lines that are
    /// skipped before it. `None` if the error is of no record.
    pub fn byte(&self) -> Option<u64> {
        match self {
            Error::Field { byte, .. } => Some(*byte),
            Error::Csv(error) => match error.kind() {
                ErrorKind::Utf8 { pos, .. } => byte_of(pos),
                ErrorKind::UnequalLengths { pos, .. } => byte_of(pos),
                _ => None,
            },
            _ => None,
        }
    }
}

/// Returns how many bytes come before a position.
fn byte_of(position: &Option<Position>) -> Option<u64> {
    match position {
        Some(position) => Some(position.byte()),
        None => None,
    }
}

/// Writes the reason, and the column if there is one; the line is not known here.
impl fmt::Display for Error {
    fn fmt<W: fmt::Write>(&self, f: &mut fmt::Formatter<W>) -> fmt::Result {
        match self {
            Error::Csv(error) => match error.kind() {
                ErrorKind::Utf8 { err, .. } => {
                    let column = err.field().saturating_add(1);
                    write!(f, "column {column}: not UTF-8")
                }
                ErrorKind::UnequalLengths {
                    expected_len,
                    len,
                    ..
                } => {
                    let plural = if *expected_len == 1 { "" } else { "s" };
                    write!(f, "expected {expected_len} field{plural}, found {len}")
                }
                _ => write!(f, "{error}"),
            },
            Error::Arrow(error) => write!(f, "{error}"),
            Error::Io(error) => write!(f, "{error}"),
            Error::OutOfMemory => write!(f, "out of memory"),
            Error::NoHeader => write!(f, "no header row"),
            Error::Field { column, wanted, .. } => {
                let wanted = match wanted {
                    Kind::Int64 => "number",
                    Kind::Boolean => "boolean",
                    Kind::Utf8 => "text",
                };
                write!(f, "column {column}: not a {wanted}")
            }
            Error::UnknownColumn(name) => write!(f, "no column '{name}'"),
            Error::NotTruth(name) => write!(f, "column '{name}' does not hold booleans"),
            Error::NotNumbers(name) => write!(f, "column '{name}' does not hold numbers"),
            Error::SumOverflow(sum) => write!(f, "{sum}"),
        }
    }
}

impl std::error::Error for Error {}

impl From<csv::Error> for Error {
    ghost use Rattle.example_csv.specs.declared.error.Error.TheVariants.{Csv};

    ghost from_gives = { λ e result. result ≡ Csv e };

    fn from(error: csv::Error) -> Error {
        Error::Csv(error)
    }
}

impl From<dethrugn::error::Error> for Error {
    ghost use Rattle.example_csv.specs.declared.error.Error.TheVariants.{Arrow};

    ghost from_gives = { λ e result. result ≡ Arrow e };

    fn from(error: dethrugn::error::Error) -> Error {
        Error::Arrow(error)
    }
}

impl From<io::Error> for Error {
    ghost use Rattle.example_csv.specs.declared.error.Error.TheVariants.{Io};

    ghost from_gives = { λ e result. result ≡ Io e };

    fn from(error: io::Error) -> Error {
        Error::Io(error)
    }
}

impl From<AllocError> for Error {
    ghost use Rattle.example_csv.specs.declared.error.Error.TheVariants.{OutOfMemory};

    ghost from_gives = { λ _ e. e ≡ OutOfMemory };

    fn from(_refused: AllocError) -> Error {
        Error::OutOfMemory
    }
}

impl<T: Drop> From<AllocFailed<T>> for Error {
    ghost use Rattle.example_csv.specs.declared.error.Error.TheVariants.{OutOfMemory};

    ghost from_gives = { λ _ e. e ≡ OutOfMemory };

    fn from(_refused: AllocFailed<T>) -> Error {
        Error::OutOfMemory
    }
}
