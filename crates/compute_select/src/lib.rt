//! Kernels that select slots of arrays: takes by keys of which some are null, slots of one of two
//! arrays by a predicate, nulls where two arrays are equal, concatenations of references to arrays;
//! and the lengths of bytes and text.
#![tactic(auto)]

pub mod concatenate;
pub mod if_then_else;
mod items;
pub mod length;
mod masks;
pub mod nullif;
pub mod take;
