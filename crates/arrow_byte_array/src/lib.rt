//! Arrays of bytes and of text and their builders, written once over a kind of items (Arrow
//! columnar format, "Variable-size Binary Layout").
#![tactic(auto)]

mod any_array;
mod array;
mod array_equality;
mod binary;
mod builder;
mod change;
mod equality;
mod extend;
mod from_natural;
mod items;
pub mod laws;
mod parts;
mod text;
mod utf8;
mod values_builder;

pub use array::ByteArray;
pub use builder::MutableByteArray;
pub use items::ByteItems;
pub use values_builder::MutableByteValuesArray;
