//! Checks of the parts that arrays are made of, and the iterator over an array's items.
#![tactic(auto)]

pub mod accessor;
pub mod bounds;
pub mod cost;
pub mod indexes;
pub mod judge;
pub mod laws;
pub mod places;
pub mod text;
pub mod values_iter;
