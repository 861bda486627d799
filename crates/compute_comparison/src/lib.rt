//! Kernels that work slot by slot, under arrow2's module and function names: comparisons, logic in
//! which a null stays null, and three-valued logic.
#![tactic(auto)]

pub mod boolean;
pub mod boolean_kleene;
pub mod comparison;
pub mod laws;
