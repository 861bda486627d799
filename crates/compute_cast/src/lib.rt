//! Conversions of arrays between integers, booleans, bytes and text, under arrow2's function names.
#![tactic(auto)]

mod booleans;
mod bytes_to;
mod decimals;
mod digits;
mod integers;
mod number;
mod options;
mod retyped;
mod to_text;
mod wrap_number;

pub use booleans::{boolean_to_primitive, primitive_to_boolean};
pub use bytes_to::{binary_to_primitive, utf8_to_primitive};
pub use integers::{cast_primitive, primitive_as_primitive, primitive_to_primitive};
pub use options::CastOptions;
pub use retyped::{binary_to_utf8, primitive_to_same_primitive, utf8_to_binary};
pub use to_text::{boolean_to_binary, boolean_to_utf8, primitive_to_binary, primitive_to_utf8};
pub use wrap_number::WrapNumber;
