//! Bitmaps: lists of marks, packed eight to a byte (Arrow columnar format, "Validity bitmaps"), which
//! contracts see as lists of booleans.
#![tactic(auto)]

mod bits;
mod blocks;
mod copy;
mod counts;
mod equality;
mod from_natural;
mod immutable;
mod iterator;
pub mod laws;
mod mark_iter;
mod marks;
mod mutable;
mod ops;
mod pack;
mod words;

pub use blocks::write_block;
pub use immutable::Bitmap;
pub use iterator::{BitmapIntoIter, BitmapIter};
pub use mark_iter::MarkIter;
pub use mutable::MutableBitmap;
pub use ops::{and, not, or};
