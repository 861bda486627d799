//! How a session ends: the status and the text of each outcome, which the program prints.
ghost use Rattle.std.specs.Prelude.{◌≡◌, Some};
ghost use Rattle.arrow_session.specs.Session.{status_of, outcome_text};

use std::fmt;

/// How a session ended.
#[derive(Clone, Copy, PartialEq, Eq)]
pub enum Outcome {
    /// Every command was run and every reply was written.
    Done,
    /// The line of this number, counted from 1, is not a command; nothing was run or written.
    BadLine(usize),
    /// A read, a write or a flush failed.
    Device,
    /// An allocation failed outside of a command; a command has a reply for that.
    Memory,
}

impl Outcome {
    /// Returns the exit status of the program.
    pub fn status(&self) -> u8
        ensures { result ≡ status_of self.now }
    {
        match self {
            Outcome::Done => 0,
            Outcome::BadLine(_) => 2,
            Outcome::Device | Outcome::Memory => 1,
        }
    }
}

impl fmt::Display for Outcome {
    ghost output = { λ outcome. Some (outcome_text outcome) };

    fn fmt<W: fmt::Write>(&self, f: &mut fmt::Formatter<W>) -> fmt::Result {
        match self {
            Outcome::Done => Ok(()),
            Outcome::BadLine(number) => write!(f, "line {number}: not a command"),
            Outcome::Device => write!(f, "device fault"),
            Outcome::Memory => write!(f, "out of memory"),
        }
    }
}
