//! What programs over arrow2 do most. docs/FROM_ARROW2.md shows each function beside the code that it replaces.
use dethrugn::array::{BooleanArray, MutableUtf8Array, PrimitiveArray, Utf8Array};
use dethrugn::bitmap::{Bitmap, and};
use dethrugn::buffer::Buffer;
use dethrugn::compute::concatenate::concat_primitive;
use dethrugn::compute::filter::filter_utf8;
use dethrugn::compute::take::take_utf8;
use dethrugn::datatypes::DataType;
use dethrugn::either::{Left, Right};
use dethrugn::error::Error;
use dethrugn::offset::OffsetsBuffer;
use std::alloc::Global;

/// Creates an array of slots.
pub fn ages(alloc: Global) -> Result<PrimitiveArray<i32>, Error> {
    PrimitiveArray::from(alloc, &[Some(36), None, Some(41)])
}

/// Creates an array of text by a builder.
pub fn names(alloc: Global) -> Result<Utf8Array<i32>, Error> {
    let mut builder = MutableUtf8Array::<i32>::new(alloc)?;
    builder.push(Some("Ada"))?;
    builder.push(None)?;
    builder.freeze()
}

/// Returns the length of the longest text.
pub fn longest(names: &Utf8Array<i32>) -> usize {
    let mut longest = 0;
    for i in 0..names.len() {
        if let Some(name) = names.get(i) {
            longest = longest.max(name.len());
        }
    }
    longest
}

/// Returns the first ten slots, or all if there are fewer. They share the memory of `ages`.
pub fn first_ten(ages: &PrimitiveArray<i32>) -> Result<PrimitiveArray<i32>, Error> {
    let first = ages.clone()?;
    let count = first.len().min(10);
    Ok(first.sliced(0, count))
}

/// Returns the texts where a filter of equal length is valid and true, or `None` if the lengths differ.
pub fn kept(
    alloc: Global,
    names: &Utf8Array<i32>,
    filter: &BooleanArray,
) -> Result<Option<Utf8Array<i32>>, Error> {
    if filter.len() != names.len() {
        return Ok(None);
    }
    Ok(Some(filter_utf8(alloc, names, filter)?))
}

/// Returns the texts at these indexes; an index out of bounds is an error.
pub fn picked(alloc: Global, names: &Utf8Array<i32>) -> Result<Utf8Array<i32>, Error> {
    take_utf8(alloc, names, &[1_u32, 0])
}

/// Returns the slots of all arrays, of which there is at least one, one after the other.
pub fn joined(
    alloc: Global,
    ages: &[PrimitiveArray<i32>],
) -> Result<Option<PrimitiveArray<i32>>, Error> {
    if ages.is_empty() {
        return Ok(None);
    }
    Ok(Some(concat_primitive(alloc, ages)?))
}

/// Creates an array of text from its parts, which are tested.
pub fn received(offsets: OffsetsBuffer<i32>, bytes: Buffer<u8>) -> Result<Utf8Array<i32>, Error> {
    Utf8Array::try_new(DataType::Utf8, offsets, bytes, None)
}

/// Returns the marks that are set in both, or `None` if the lengths differ.
pub fn both_valid(alloc: Global, first: &Bitmap, second: &Bitmap) -> Result<Option<Bitmap>, Error> {
    if first.len() != second.len() {
        return Ok(None);
    }
    Ok(Some(and(alloc, first, second)?))
}

/// Appends a null to an array whose memory is not shared, without copying it, and returns other arrays as they are.
pub fn with_null(ages: PrimitiveArray<i32>) -> Result<PrimitiveArray<i32>, Error> {
    match ages.into_mut() {
        Left(shared) => Ok(shared),
        Right(mut builder) => {
            builder.push(None)?;
            builder.freeze()
        }
    }
}
