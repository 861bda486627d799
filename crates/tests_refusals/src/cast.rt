//! Conversions of three slots, the second of which is null, between integers, booleans, bytes and text.
use crate::boolean::array_text as boolean_text;
use crate::bytes::array_text;
use crate::primitive::array_text as number_text;
use crate::refusal::{end, results};
use arrow_binary::BinaryArray;
use arrow_boolean::BooleanArray;
use arrow_primitive::PrimitiveArray;
use arrow_types::data_type::DataType;
use arrow_utf8::Utf8Array;
use compute_cast::{
    CastOptions, binary_to_primitive, binary_to_utf8, boolean_to_binary, boolean_to_primitive,
    boolean_to_utf8, cast_primitive, primitive_as_primitive, primitive_to_binary,
    primitive_to_boolean, primitive_to_primitive, primitive_to_same_primitive, primitive_to_utf8,
    utf8_to_binary, utf8_to_primitive,
};
use std::test::Fail;

#[test]
fn casts_of_integers_to_text_bytes_and_another_type_answer_again(
    rt: HostRuntime,
) -> Result<(), Fail> {
    let (alloc, slots) = (rt.alloc(), [Some(7), None, Some(-12)]);
    let array = PrimitiveArray::<i64>::from(alloc, slots.as_slice()).expect(&rt, "refused");
    let is_refused = results! { &rt;
        array_text: primitive_to_utf8::<i64, i32>(alloc, &array) => "<7> (<>) <-12>";
        array_text: primitive_to_binary::<i64, i32>(alloc, &array) => "<7> (<>) <-12>";
        number_text: primitive_to_same_primitive(&array, DataType::Date64) => "7 (0) -12";
    };
    drop(array);
    end(is_refused)
}

#[test]
fn casts_of_text_answer_again(rt: HostRuntime) -> Result<(), Fail> {
    let (alloc, slots) = (rt.alloc(), [Some("7"), None, Some("-12")]);
    let array = Utf8Array::<i32>::from(alloc, slots.as_slice()).expect(&rt, "refused");
    let is_refused = results! { &rt;
        number_text: utf8_to_primitive::<i32, i64>(alloc, &array, DataType::Int64) => "7 (0) -12";
        array_text: utf8_to_binary(&array, DataType::Binary) => "<7> (<>) <-12>";
    };
    drop(array);
    end(is_refused)
}

#[test]
fn casts_of_bytes_to_integers_answer_again(rt: HostRuntime) -> Result<(), Fail> {
    let (alloc, slots) = (
        rt.alloc(),
        [Some(b"7".as_slice()), None, Some(b"x".as_slice())],
    );
    let array = BinaryArray::<i32>::from(alloc, slots.as_slice()).expect(&rt, "refused");
    let is_refused = results! { &rt;
        number_text: binary_to_primitive::<i32, i64>(alloc, &array, DataType::Int64) => "7 (0) (0)";
    };
    drop(array);
    end(is_refused)
}

#[test]
fn casts_of_integers_to_other_types_answer_again(rt: HostRuntime) -> Result<(), Fail> {
    let (alloc, slots) = (rt.alloc(), [Some(7), None, Some(-12)]);
    let array = PrimitiveArray::<i32>::from(alloc, slots.as_slice()).expect(&rt, "refused");
    let options = CastOptions::default();
    let is_refused = results! { &rt;
        number_text: primitive_as_primitive::<i32, i64>(alloc, &array, DataType::Int64) => "7 (0) -12";
        number_text: primitive_to_primitive::<i32, i64>(alloc, &array, DataType::Int64) => "7 (0) -12";
        number_text: cast_primitive::<i32, i64>(alloc, &array, DataType::Int64, options) => "7 (0) -12";
        boolean_text: primitive_to_boolean(alloc, &array) => "true (false) true";
    };
    drop(array);
    end(is_refused)
}

#[test]
fn casts_of_booleans_and_bytes_answer_again(rt: HostRuntime) -> Result<(), Fail> {
    let (alloc, slots) = (rt.alloc(), [Some(true), None, Some(false)]);
    let array = BooleanArray::from(alloc, slots.as_slice()).expect(&rt, "refused");
    let slots = [Some(b"a".as_slice()), None, Some(b"bc".as_slice())];
    let bytes = BinaryArray::<i32>::from(alloc, slots.as_slice()).expect(&rt, "refused");
    let is_refused = results! { &rt;
        number_text: boolean_to_primitive::<i64>(alloc, &array, DataType::Int64) => "1 (0) 0";
        array_text: boolean_to_utf8::<i32>(alloc, &array) => "<1> (<>) <0>";
        array_text: boolean_to_binary::<i32>(alloc, &array) => "<1> (<>) <0>";
        array_text: binary_to_utf8(&bytes, DataType::Utf8) => "<a> (<>) <bc>";
    };
    drop(bytes);
    drop(array);
    end(is_refused)
}
