//! Arrays over arrays: lists and dictionaries.
#![tactic(auto)]

pub mod callers;
pub mod dictionary;
pub mod inner;
pub mod laws;
pub mod list;
pub mod slots;
