//! Errors of arrays and builders. Their texts are part of contracts, so `Display` is written by hand.
ghost use Rattle.std.specs.Prelude.{◌≡◌, Some};
ghost use Rattle.arrow_types.specs.Types.{refusal, refusal_text};

use std::alloc::{AllocError, AllocFailed};
use std::fmt;

/// An error of an array or a builder.
#[derive(Clone, Copy, Debug, PartialEq, Eq)]
pub enum Error {
    /// The arguments break a rule of the Arrow columnar format; the text says which.
    OutOfSpec(&'static str),
    /// An offset would pass the greatest number of its type, or a sum does not fit in its type.
    Overflow,
    /// An allocation failed.
    OutOfMemory,
}

impl fmt::Display for Error {
    ghost output = { λ e. Some (refusal_text (refusal e)) };

    fn fmt<W: fmt::Write>(&self, f: &mut fmt::Formatter<W>) -> fmt::Result {
        match self {
            Error::OutOfSpec(text) => write!(f, "{text}"),
            Error::Overflow => write!(f, "overflow"),
            Error::OutOfMemory => write!(f, "out of memory"),
        }
    }
}

impl std::error::Error for Error {}

impl From<AllocError> for Error {
    ghost use Rattle.arrow_types.specs.declared.error.Error.TheVariants.{OutOfMemory};

    ghost from_gives = { λ _ e. e ≡ OutOfMemory };

    fn from(_refused: AllocError) -> Error {
        Error::OutOfMemory
    }
}

impl<T: Drop> From<AllocFailed<T>> for Error {
    ghost use Rattle.arrow_types.specs.declared.error.Error.TheVariants.{OutOfMemory};

    ghost from_gives = { λ _ e. e ≡ OutOfMemory };

    fn from(_refused: AllocFailed<T>) -> Error {
        Error::OutOfMemory
    }
}
