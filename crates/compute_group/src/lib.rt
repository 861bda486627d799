//! Groups of equal slots of an array, in the order of their first slots, and hashes of slots. arrow2 has no groups; their
//! parts are named as in polars and DataFusion.
#![tactic(auto)]

mod boolean;
mod bytes;
mod group_numbers;
mod grouper;
mod hash;
mod hints;
mod keys;
pub mod laws;
mod primitive;
mod refine;

pub use boolean::{group_boolean, group_boolean_with};
pub use bytes::{group_binary, group_binary_with, group_utf8, group_utf8_with};
pub use group_numbers::Groups;
pub use hash::{hash_binary, hash_boolean, hash_primitive, hash_utf8};
pub use primitive::{group_primitive, group_primitive_with};
