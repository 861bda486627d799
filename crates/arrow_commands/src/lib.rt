//! The commands that read or change one entry of a table, by subject.
#![tactic(auto)]

pub mod command;
pub mod convert;
pub mod grow;
pub mod mask;
pub mod read;
pub mod values;
