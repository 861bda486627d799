//! Stored byte strings of one kind: offsets, and the bytes between them. Arrays of bytes and of
//! text share them (Arrow columnar format, "Variable-size Binary Layout").
#![tactic(auto)]

mod around;
mod binary;
mod equality;
mod growing;
mod kind;
pub mod laws;
mod owned;
mod slice;
mod text;
mod thaw;
mod utf8;
mod values;

pub use around::BytesAround;
pub use binary::Binary;
pub use growing::MutableByteValues;
pub use kind::{BorrowItem, ByteItem, ByteKind, ItemError};
pub use slice::ItemSlice;
pub use text::WriteKind;
pub use thaw::into_mut_values;
pub use utf8::Utf8;
pub use values::ByteValues;
