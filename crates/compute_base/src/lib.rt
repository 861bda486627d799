//! The base of kernels, right above columns: marks that are made 64 at a time, the bits of words, slots that are
//! computed at each index, and masks of results. Kernels call it and cite its definitions; users do not list it.
#![tactic(auto)]

pub mod bits;
pub mod laws;
pub mod masks;
pub mod slots;
pub mod words;
