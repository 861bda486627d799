//! Casts, of arrays that are made once.
use crate::kernels::{texts_array, truths_array};
use crate::operation::{Operation, run};
use crate::whole::array_of_parts;
use arrow_boolean::BooleanArray;
use arrow_primitive::PrimitiveArray;
use arrow_types::data_type::DataType;
use arrow_utf8::Utf8Array;
use compute_cast::{
    boolean_to_primitive, boolean_to_utf8, primitive_as_primitive, primitive_to_boolean,
    primitive_to_primitive, primitive_to_utf8, utf8_to_primitive,
};
use std::alloc::Global;

struct WrapValues;

impl Operation for WrapValues {
    type Source = PrimitiveArray<i64>;

    type Made = PrimitiveArray<i32>;

    #[inline(always)]
    fn make(alloc: Global, array: &PrimitiveArray<i64>) -> Option<PrimitiveArray<i32>> {
        primitive_as_primitive(alloc, array, DataType::Int32).ok()
    }
}

// the low 32 bits of each value
#[unsafe(no_mangle)]
pub extern "C" fn rattle_flat_cast_wrap_i32(
    alloc: Global,
    values: &[i64],
    valid: &[u8],
    rounds: usize,
) -> u64 {
    run::<WrapValues>(alloc, array_of_parts(alloc, values, valid), rounds)
}

struct FitValues;

impl Operation for FitValues {
    type Source = PrimitiveArray<i64>;

    type Made = PrimitiveArray<i32>;

    #[inline(always)]
    fn make(alloc: Global, array: &PrimitiveArray<i64>) -> Option<PrimitiveArray<i32>> {
        primitive_to_primitive(alloc, array, DataType::Int32).ok()
    }
}

// the values as 32-bit numbers, null where one does not fit
#[unsafe(no_mangle)]
pub extern "C" fn rattle_flat_cast_fit_i32(
    alloc: Global,
    values: &[i64],
    valid: &[u8],
    rounds: usize,
) -> u64 {
    run::<FitValues>(alloc, array_of_parts(alloc, values, valid), rounds)
}

struct ToText;

impl Operation for ToText {
    type Source = PrimitiveArray<i64>;

    type Made = Utf8Array<i32>;

    #[inline(always)]
    fn make(alloc: Global, array: &PrimitiveArray<i64>) -> Option<Utf8Array<i32>> {
        primitive_to_utf8(alloc, array).ok()
    }
}

// the values in decimal
#[unsafe(no_mangle)]
pub extern "C" fn rattle_flat_cast_to_utf8(
    alloc: Global,
    values: &[i64],
    valid: &[u8],
    rounds: usize,
) -> u64 {
    run::<ToText>(alloc, array_of_parts(alloc, values, valid), rounds)
}

struct OfText;

impl Operation for OfText {
    type Source = Utf8Array<i32>;

    type Made = PrimitiveArray<i64>;

    #[inline(always)]
    fn make(alloc: Global, array: &Utf8Array<i32>) -> Option<PrimitiveArray<i64>> {
        utf8_to_primitive(alloc, array, DataType::Int64).ok()
    }
}

// the numbers of texts, null where one is none
#[unsafe(no_mangle)]
pub extern "C" fn rattle_flat_cast_of_utf8(
    alloc: Global,
    data: &[u8],
    offsets: &[i32],
    valid: &[u8],
    rounds: usize,
) -> u64 {
    run::<OfText>(alloc, texts_array(alloc, data, offsets, valid), rounds)
}

struct ToTruth;

impl Operation for ToTruth {
    type Source = PrimitiveArray<i64>;

    type Made = BooleanArray;

    #[inline(always)]
    fn make(alloc: Global, array: &PrimitiveArray<i64>) -> Option<BooleanArray> {
        primitive_to_boolean(alloc, array).ok()
    }
}

// whether each value is not zero
#[unsafe(no_mangle)]
pub extern "C" fn rattle_flat_cast_to_bool(
    alloc: Global,
    values: &[i64],
    valid: &[u8],
    rounds: usize,
) -> u64 {
    run::<ToTruth>(alloc, array_of_parts(alloc, values, valid), rounds)
}

struct OfTruth;

impl Operation for OfTruth {
    type Source = BooleanArray;

    type Made = PrimitiveArray<i64>;

    #[inline(always)]
    fn make(alloc: Global, array: &BooleanArray) -> Option<PrimitiveArray<i64>> {
        boolean_to_primitive(alloc, array, DataType::Int64).ok()
    }
}

// one where a bit is set, else zero
#[unsafe(no_mangle)]
pub extern "C" fn rattle_flat_cast_of_bool(
    alloc: Global,
    bits: &[u8],
    valid: &[u8],
    rounds: usize,
) -> u64 {
    run::<OfTruth>(alloc, truths_array(alloc, bits, valid), rounds)
}

struct TruthToText;

impl Operation for TruthToText {
    type Source = BooleanArray;

    type Made = Utf8Array<i32>;

    #[inline(always)]
    fn make(alloc: Global, array: &BooleanArray) -> Option<Utf8Array<i32>> {
        boolean_to_utf8(alloc, array).ok()
    }
}

// the text 1 where a bit is set, else 0
#[unsafe(no_mangle)]
pub extern "C" fn rattle_flat_cast_bool_utf8(
    alloc: Global,
    bits: &[u8],
    valid: &[u8],
    rounds: usize,
) -> u64 {
    run::<TruthToText>(alloc, truths_array(alloc, bits, valid), rounds)
}
