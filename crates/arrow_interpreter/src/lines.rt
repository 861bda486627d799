//! The lines of one table, by what they do: each is its words and the command that they make.

pub(crate) mod change;
pub(crate) mod convert;
pub(crate) mod create;
pub(crate) mod grow;
pub(crate) mod read;
