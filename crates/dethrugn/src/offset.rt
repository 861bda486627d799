//! Offset types, and lists of offsets.
pub use arrow_memory::offset::{Offsets, OffsetsBuffer};
pub use arrow_types::offset::Offset;
