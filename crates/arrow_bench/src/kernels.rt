//! Kernels over arrays, which are made once.
use crate::bytes::marks;
use crate::operation::{Operation, run};
use crate::rounds::read_rounds;
use crate::text;
use crate::whole::array_of_parts;
use arrow_boolean::BooleanArray;
use arrow_kernels::{
    concat_primitive, concat_utf8, filter_primitive, filter_utf8, take_primitive, take_utf8,
    true_count,
};
use arrow_memory::bitmap::Bitmap;
use arrow_primitive::PrimitiveArray;
use arrow_types::data_type::DataType;
use arrow_utf8::Utf8Array;
use std::alloc::Global;

/// Returns the mask of marks, one byte each; none where there are none.
fn mask(alloc: Global, valid: &[u8]) -> Option<Option<Bitmap>> {
    match marks(alloc, valid)? {
        Some(marks) => Some(Some(marks.freeze().ok()?)),
        None => Some(None),
    }
}

/// Creates an array of booleans and their marks, each given as one byte.
pub(crate) fn truths_array(alloc: Global, bits: &[u8], valid: &[u8]) -> Option<BooleanArray> {
    let values = mask(alloc, bits)??;
    BooleanArray::try_new(DataType::Boolean, values, mask(alloc, valid)?).ok()
}

/// Creates the array of texts with their marks, one byte each; a null stores its text too.
pub(crate) fn texts_array(
    alloc: Global,
    data: &[u8],
    offsets: &[i32],
    valid: &[u8],
) -> Option<Utf8Array<i32>> {
    text::array(alloc, data, offsets, mask(alloc, valid)?)
}

/// Returns an array and the filter of marks, one byte each, which has no mask.
fn with_filter<A: Drop>(alloc: Global, array: Option<A>, bits: &[u8]) -> Option<(A, BooleanArray)> {
    let array = array?;
    let filter = truths_array(alloc, bits, &[])?;
    Some((array, filter))
}

struct Filter;

impl Operation for Filter {
    type Source = (PrimitiveArray<i64>, BooleanArray);

    type Made = PrimitiveArray<i64>;

    #[inline(always)]
    fn make(
        alloc: Global,
        (array, filter): &(PrimitiveArray<i64>, BooleanArray),
    ) -> Option<PrimitiveArray<i64>> {
        if filter.len() != array.len() {
            return None;
        }
        filter_primitive(alloc, array, filter).ok()
    }
}

// filter by the frozen boolean array of `marks`, which has no mask
#[unsafe(no_mangle)]
pub extern "C" fn rattle_flat_filter_prim(
    alloc: Global,
    values: &[i64],
    valid: &[u8],
    marks: &[u8],
    rounds: usize,
) -> u64 {
    let array = array_of_parts(alloc, values, valid);
    run::<Filter>(alloc, with_filter(alloc, array, marks), rounds)
}

struct FilterTexts;

impl Operation for FilterTexts {
    type Source = (Utf8Array<i32>, BooleanArray);

    type Made = Utf8Array<i32>;

    #[inline(always)]
    fn make(
        alloc: Global,
        (array, filter): &(Utf8Array<i32>, BooleanArray),
    ) -> Option<Utf8Array<i32>> {
        if filter.len() != array.len() {
            return None;
        }
        filter_utf8(alloc, array, filter).ok()
    }
}

#[unsafe(no_mangle)]
pub extern "C" fn rattle_flat_filter_utf8(
    alloc: Global,
    data: &[u8],
    offsets: &[i32],
    valid: &[u8],
    marks: &[u8],
    rounds: usize,
) -> u64 {
    let array = texts_array(alloc, data, offsets, valid);
    run::<FilterTexts>(alloc, with_filter(alloc, array, marks), rounds)
}

/// Returns an array and keys.
fn with_keys<A: Drop>(alloc: Global, array: Option<A>, keys: &[i64]) -> Option<(A, Vec<i64>)> {
    let array = array?;
    let keys = keys.to_vec(alloc).ok()?;
    Some((array, keys))
}

struct Take;

impl Operation for Take {
    type Source = (PrimitiveArray<i64>, Vec<i64>);

    type Made = PrimitiveArray<i64>;

    #[inline(always)]
    fn make(
        alloc: Global,
        (array, keys): &(PrimitiveArray<i64>, Vec<i64>),
    ) -> Option<PrimitiveArray<i64>> {
        take_primitive(alloc, array, keys.as_slice()).ok()
    }
}

// take; every key is below the number of rows
#[unsafe(no_mangle)]
pub extern "C" fn rattle_flat_take_prim(
    alloc: Global,
    values: &[i64],
    valid: &[u8],
    keys: &[i64],
    rounds: usize,
) -> u64 {
    let array = array_of_parts(alloc, values, valid);
    run::<Take>(alloc, with_keys(alloc, array, keys), rounds)
}

struct TakeTexts;

impl Operation for TakeTexts {
    type Source = (Utf8Array<i32>, Vec<i64>);

    type Made = Utf8Array<i32>;

    #[inline(always)]
    fn make(alloc: Global, (array, keys): &(Utf8Array<i32>, Vec<i64>)) -> Option<Utf8Array<i32>> {
        take_utf8(alloc, array, keys.as_slice()).ok()
    }
}

#[unsafe(no_mangle)]
pub extern "C" fn rattle_flat_take_utf8(
    alloc: Global,
    data: &[u8],
    offsets: &[i32],
    valid: &[u8],
    keys: &[i64],
    rounds: usize,
) -> u64 {
    let array = texts_array(alloc, data, offsets, valid);
    run::<TakeTexts>(alloc, with_keys(alloc, array, keys), rounds)
}

/// Returns an array in two parts. The second begins at a third of its slots, so that its marks do not
/// begin at a byte.
fn values_parts(
    alloc: Global,
    array: Option<PrimitiveArray<i64>>,
) -> Option<Vec<PrimitiveArray<i64>>> {
    let array = array?;
    let len = array.len();
    let cut = len / 3;
    let rest = array.clone().ok()?.sliced(cut, len - cut);
    Vec::from_array(alloc, [array.sliced(0, cut), rest]).ok()
}

struct Concat;

impl Operation for Concat {
    type Source = Vec<PrimitiveArray<i64>>;

    type Made = PrimitiveArray<i64>;

    #[inline(always)]
    fn make(alloc: Global, parts: &Vec<PrimitiveArray<i64>>) -> Option<PrimitiveArray<i64>> {
        if parts.is_empty() {
            return None;
        }
        concat_primitive(alloc, parts.as_slice()).ok()
    }
}

// concatenation of an array in two parts
#[unsafe(no_mangle)]
pub extern "C" fn rattle_flat_concat_prim(
    alloc: Global,
    values: &[i64],
    valid: &[u8],
    rounds: usize,
) -> u64 {
    let array = array_of_parts(alloc, values, valid);
    run::<Concat>(alloc, values_parts(alloc, array), rounds)
}

/// Returns an array of texts in two parts, as `values_parts`.
fn texts_parts(alloc: Global, array: Option<Utf8Array<i32>>) -> Option<Vec<Utf8Array<i32>>> {
    let array = array?;
    let len = array.len();
    let cut = len / 3;
    let rest = array.clone().ok()?.sliced(cut, len - cut);
    Vec::from_array(alloc, [array.sliced(0, cut), rest]).ok()
}

struct ConcatTexts;

impl Operation for ConcatTexts {
    type Source = Vec<Utf8Array<i32>>;

    type Made = Utf8Array<i32>;

    #[inline(always)]
    fn make(alloc: Global, parts: &Vec<Utf8Array<i32>>) -> Option<Utf8Array<i32>> {
        if parts.is_empty() {
            return None;
        }
        concat_utf8(alloc, parts.as_slice()).ok()
    }
}

#[unsafe(no_mangle)]
pub extern "C" fn rattle_flat_concat_utf8(
    alloc: Global,
    data: &[u8],
    offsets: &[i32],
    valid: &[u8],
    rounds: usize,
) -> u64 {
    let array = texts_array(alloc, data, offsets, valid);
    run::<ConcatTexts>(alloc, texts_parts(alloc, array), rounds)
}

fn count_true(array: &BooleanArray, start: u64) -> u64 {
    start.wrapping_add(true_count(array) as u64)
}

// the number of slots that are valid and true
#[unsafe(no_mangle)]
pub extern "C" fn rattle_flat_bool_true_count(
    alloc: Global,
    bits: &[u8],
    valid: &[u8],
    rounds: usize,
) -> u64 {
    read_rounds(truths_array(alloc, bits, valid), rounds, count_true)
}
