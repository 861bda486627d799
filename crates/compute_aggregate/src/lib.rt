//! Kernels that compute one value of the slots of an array, or of each group of slots, under arrow2's module and function
//! names: sums, least and greatest values, counts.
#![tactic(auto)]

pub mod aggregate;
pub mod laws;
