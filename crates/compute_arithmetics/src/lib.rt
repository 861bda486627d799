//! Arithmetic of arrays of integers, slot by slot, and of an array with one value, under arrow2's module and function
//! names.
#![tactic(auto)]

pub mod basic;
mod combine;
mod operation;
