//! Bitmaps: lists of marks, frozen and growing, and what two of them make mark by mark.
pub use arrow_memory::bitmap::{Bitmap, BitmapIntoIter as IntoIter, MutableBitmap, and, not, or};

/// Iterators over marks, and over slots.
pub mod utils {
    pub use arrow_memory::bitmap::{BitmapIter, MarkIter};
    pub use arrow_memory::list_iter::ListIter;
    pub use arrow_memory::zip_validity::ZipValidity;
}
