//! The syntax of the program's input and output: how lines, words and the fields in them are read, and how replies are
//! written.
#![tactic(auto)]

pub mod bits;
pub mod fields;
mod hexadecimal;
pub mod items;
pub mod lines;
pub mod numbers;
pub mod print;
pub mod readers;
mod search;
pub mod words;
