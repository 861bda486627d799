//! Buffers: values in memory that clones and slices share.
pub use arrow_memory::buffer::{Buffer, BufferIntoIter as IntoIter};
