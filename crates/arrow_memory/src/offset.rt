//! Offsets of the variable-size layout: where the bytes of each slot begin and end.
mod faults;
mod growing;
mod items;
mod numbers;
mod shared;
mod widths;

pub use growing::Offsets;
pub use numbers::{number_at, start_end_of};
pub use shared::OffsetsBuffer;
