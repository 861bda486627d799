//! Arrays of booleans, and their builder (Arrow columnar format, "Fixed-size primitive layout",
//! of one bit a value).
#![tactic(auto)]

mod any_array;
mod array;
mod array_equality;
mod builder;
mod change;
mod equality;
mod extend;
mod from_natural;
mod iterator;
pub mod laws;
mod parts;
mod text;
mod true_count;

pub use array::BooleanArray;
pub use builder::MutableBooleanArray;
