//! Native integers as numbers: wrapping, checked and saturating arithmetic on their types.
#![tactic(auto)]

pub mod laws;
mod native_arithmetics;
mod native_integer;

pub use native_arithmetics::NativeArithmetics;
