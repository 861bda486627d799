//! What the tests of several crates use.
#![tactic(auto)]

pub mod assert_text;
mod tiny;

use arrow_memory::bitmap::{Bitmap, MutableBitmap};
use arrow_memory::buffer::Buffer;
use arrow_memory::offset::{Offsets, OffsetsBuffer};
use arrow_types::error::Error;
use arrow_types::native_type::NativeType;
use arrow_types::offset::Offset;
pub use assert_text::{Mismatch, Text};
use std::alloc::Global;
pub use tiny::Tiny;

/// Names a row of a table by its case and its index.
pub fn row(case: &str, index: usize) -> Text {
    Text::of(format_args!("{case} (row {index})"))
}

/// Names a row of a table that several types share by its case, a type and its index.
pub fn row_of(case: &str, of: &str, index: usize) -> Text {
    Text::of(format_args!("{case} ({of}, row {index})"))
}

/// Returns the name of a type of offsets.
pub fn offset_name<O: Offset>() -> &'static str {
    match O::max().to_usize() {
        100 => "Tiny",
        2147483647 => "i32",
        _ => "i64",
    }
}

/// Whether a value was made, or which refusal was answered.
pub fn tells<T: Drop>(answer: Result<T, Error>) -> &'static str {
    match answer {
        Ok(_) => "made",
        Err(Error::Overflow) => "overflow",
        Err(Error::OutOfMemory) => "out of memory",
        Err(Error::OutOfSpec(rule)) => rule,
    }
}

/// A buffer of these values.
pub fn buffer_of<T: NativeType>(alloc: Global, values: &[T]) -> Result<Buffer<T>, Error> {
    Buffer::from_vec(values.to_vec(alloc)?)
}

/// Offsets of these numbers.
pub fn offsets_of<O: Offset>(alloc: Global, numbers: &[usize]) -> Result<Offsets<O>, Error> {
    let mut offsets = Vec::new(alloc);
    for number in numbers {
        let Some(offset) = O::from_usize(*number) else {
            return Err(Error::Overflow);
        };
        offsets.push(offset)?;
    }
    Offsets::try_from_vec(offsets)
}

/// Frozen offsets of these numbers.
pub fn frozen_offsets<O: Offset>(
    alloc: Global,
    numbers: &[usize],
) -> Result<OffsetsBuffer<O>, Error> {
    offsets_of(alloc, numbers)?.freeze()
}

/// The growing mask that a text writes, where '1' is a set mark; none where the text is `none`.
pub fn growing_mask(alloc: Global, text: &str) -> Result<Option<MutableBitmap>, Error> {
    if text == "none" {
        return Ok(None);
    }
    let mut marks = MutableBitmap::new(alloc);
    for mark in text.as_bytes() {
        marks.push(*mark == b'1')?;
    }
    Ok(Some(marks))
}

/// The mask that a text writes; none where the text is `none`.
pub fn frozen_mask(alloc: Global, text: &str) -> Result<Option<Bitmap>, Error> {
    match growing_mask(alloc, text)? {
        Some(marks) => Ok(Some(marks.freeze()?)),
        None => Ok(None),
    }
}
