//! Kernels. Each makes of an array of three slots, the second of which is null, one of a null and the last, or the same
//! three, as a concatenation of this array alone, or over other offsets, and over their own again.
use crate::boolean::array_text as boolean_text;
use crate::bytes::array_text;
use crate::primitive::array_text as number_text;
use crate::refusal::{end, results};
use arrow_binary::BinaryArray;
use arrow_boolean::BooleanArray;
use arrow_kernels::{
    concat_binary, concat_boolean, concat_primitive, concat_utf8, filter_binary, filter_boolean,
    filter_primitive, filter_utf8, narrow_binary, narrow_utf8, take_binary, take_boolean,
    take_primitive, take_utf8, widen_binary, widen_utf8,
};
use arrow_primitive::PrimitiveArray;
use arrow_types::error::Error;
use arrow_utf8::Utf8Array;
use std::alloc::Global;
use std::slice;
use std::test::Fail;

/// The indices of the last two slots.
const KEYS: &[i64] = &[1, 2];

/// Slots of bytes, and of text.
const BYTES: &[Option<&[u8]>] = &[Some(b"ab"), None, Some(b"cde")];

const TEXTS: &[Option<&str>] = &[Some("ab"), None, Some("cde")];

/// The last two of three slots.
const FILTER: &[bool] = &[false, true, true];

#[test]
fn kernels_of_numbers_answer_again(rt: HostRuntime) -> Result<(), Fail> {
    let (alloc, slots) = (rt.alloc(), [Some(7), None, Some(9)]);
    let array = PrimitiveArray::from(alloc, slots.as_slice()).expect(&rt, "refused");
    let filter = BooleanArray::from_slice(alloc, FILTER).expect(&rt, "refused");
    assert!(&rt; array.len() == filter.len());
    let is_refused = results! { &rt;
        number_text: filter_primitive(alloc, &array, &filter) => "(0) 9";
        number_text: take_primitive(alloc, &array, KEYS) => "(0) 9";
        number_text: concat_primitive(alloc, slice::from_ref(&array)) => "7 (0) 9";
    };
    drop(array);
    drop(filter);
    end(is_refused)
}

#[test]
fn kernels_of_booleans_answer_again(rt: HostRuntime) -> Result<(), Fail> {
    let (alloc, slots) = (rt.alloc(), [Some(true), None, Some(true)]);
    let array = BooleanArray::from(alloc, slots.as_slice()).expect(&rt, "refused");
    let filter = BooleanArray::from_slice(alloc, FILTER).expect(&rt, "refused");
    assert!(&rt; array.len() == filter.len());
    let is_refused = results! { &rt;
        boolean_text: filter_boolean(alloc, &array, &filter) => "(false) true";
        boolean_text: take_boolean(alloc, &array, KEYS) => "(false) true";
        boolean_text: concat_boolean(alloc, slice::from_ref(&array)) => "true (false) true";
    };
    drop(array);
    drop(filter);
    end(is_refused)
}

/// Widens and narrows the offsets of bytes.
fn resize_binary(alloc: Global, array: &BinaryArray<i32>) -> Result<BinaryArray<i32>, Error> {
    let wide = widen_binary(alloc, array)?;
    let answer = narrow_binary(alloc, &wide);
    drop(wide);
    answer
}

#[test]
fn kernels_of_bytes_answer_again(rt: HostRuntime) -> Result<(), Fail> {
    let alloc = rt.alloc();
    let array = BinaryArray::<i32>::from(alloc, BYTES).expect(&rt, "refused");
    let filter = BooleanArray::from_slice(alloc, FILTER).expect(&rt, "refused");
    assert!(&rt; array.len() == filter.len());
    let is_refused = results! { &rt;
        array_text: filter_binary(alloc, &array, &filter) => "(<>) <cde>";
        array_text: take_binary(alloc, &array, KEYS) => "(<>) <cde>";
        array_text: concat_binary(alloc, slice::from_ref(&array)) => "<ab> (<>) <cde>";
        array_text: resize_binary(alloc, &array) => "<ab> (<>) <cde>";
    };
    drop(array);
    drop(filter);
    end(is_refused)
}

/// Widens and narrows the offsets of text.
fn resize_utf8(alloc: Global, array: &Utf8Array<i32>) -> Result<Utf8Array<i32>, Error> {
    let wide = widen_utf8(alloc, array)?;
    let answer = narrow_utf8(alloc, &wide);
    drop(wide);
    answer
}

#[test]
fn kernels_of_text_answer_again(rt: HostRuntime) -> Result<(), Fail> {
    let alloc = rt.alloc();
    let array = Utf8Array::<i32>::from(alloc, TEXTS).expect(&rt, "refused");
    let filter = BooleanArray::from_slice(alloc, FILTER).expect(&rt, "refused");
    assert!(&rt; array.len() == filter.len());
    let is_refused = results! { &rt;
        array_text: filter_utf8(alloc, &array, &filter) => "(<>) <cde>";
        array_text: take_utf8(alloc, &array, KEYS) => "(<>) <cde>";
        array_text: concat_utf8(alloc, slice::from_ref(&array)) => "<ab> (<>) <cde>";
        array_text: resize_utf8(alloc, &array) => "<ab> (<>) <cde>";
    };
    drop(array);
    drop(filter);
    end(is_refused)
}
