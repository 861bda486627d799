//! The commands that fill an empty entry of a table, by subject.
#![tactic(auto)]

mod empty;
pub mod fill;
mod kinds;
pub mod make;
pub mod parts;
pub mod select;
pub mod width;
