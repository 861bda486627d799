//! Conversions between integers and booleans.
use crate::arrays::{check_numbers, check_value, row, stored_booleans, stored_numbers};
use arrow_types::data_type::DataType;
use compute_cast::{
    CastOptions, boolean_to_primitive, cast_primitive, primitive_as_primitive,
    primitive_to_boolean, primitive_to_primitive,
};
use tests_support::assert_text;

/// A name, whether numbers wrap, and the bytes of the numbers below.
#[rattlefmt::skip]
const BYTES: &[(&str, bool, (&str, &str))] = &[
    ("bytes that wrap", true, ("[0 255 200 255 0 _]", "111110")),
    ("bytes that fit", false, ("[0 _ 200 255 _ _]", "101100")),
];

#[test]
fn numbers_are_converted(rt: HostRuntime) {
    let alloc = rt.alloc();
    // The last slot is null.
    let values = [0, -1, 200, 255, 256, 7];
    let array = stored_numbers::<i32>(&rt, DataType::Int32, &values, "111110");
    for (index, (case, wrapped, expected)) in BYTES.iter().enumerate() {
        let row = row("numbers wrap or become null", "UInt8", index, *case);
        let options = CastOptions::default().with_wrapped(*wrapped);
        check_numbers(
            &rt,
            row.as_str(),
            cast_primitive::<i32, u8>(alloc, &array, DataType::UInt8, options),
            Ok(*expected),
            &DataType::UInt8,
        );
    }
    check_numbers(
        &rt,
        "numbers become null where they do not fit: bytes",
        primitive_to_primitive::<i32, u8>(alloc, &array, DataType::UInt8),
        Ok(("[0 _ 200 255 _ _]", "101100")),
        &DataType::UInt8,
    );
    check_numbers(
        &rt,
        "numbers wrap: signed bytes",
        primitive_as_primitive::<i32, i8>(alloc, &array, DataType::Int8),
        Ok(("[0 -1 -56 -1 0 _]", "111110")),
        &DataType::Int8,
    );
    drop(array);
}

#[test]
fn numbers_without_a_mask_are_converted(rt: HostRuntime) {
    let alloc = rt.alloc();
    let array = stored_numbers::<i32>(&rt, DataType::Int32, &[5, -6], "none");
    check_numbers(
        &rt,
        "numbers of no mask get one",
        primitive_to_primitive::<i32, i64>(alloc, &array, DataType::Date64),
        Ok(("[5 -6]", "11")),
        &DataType::Date64,
    );
    check_numbers(
        &rt,
        "numbers that wrap get no mask",
        primitive_as_primitive::<i32, i64>(alloc, &array, DataType::Date64),
        Ok(("[5 -6]", "none")),
        &DataType::Date64,
    );
    drop(array);
}

#[test]
fn options_are_those_of_arrow2(rt: HostRuntime) {
    let options = CastOptions::default();
    check_value(&rt, "the default", options, CastOptions { wrapped: false });
    let wrapped = options.with_wrapped(true);
    check_value(&rt, "wrapped", wrapped, CastOptions { wrapped: true });
    check_value(
        &rt,
        "no longer wrapped",
        wrapped.with_wrapped(false),
        options,
    );
}

#[test]
fn numbers_and_booleans_are_converted(rt: HostRuntime) {
    let alloc = rt.alloc();
    // The last slot is null.
    let values = [0, -1, 200, 255, 256, 7];
    let array = stored_numbers::<i32>(&rt, DataType::Int32, &values, "111110");
    let made = primitive_to_boolean(alloc, &array).expect(&rt, "memory");
    drop(array);
    assert_text::bools(made.iter(), "ftttt_").expect(
        &rt,
        "numbers become booleans: what is not zero",
    );
    drop(made);
    let array = stored_booleans(&rt, ("101", "110"));
    let made = boolean_to_primitive::<i64>(alloc, &array, DataType::Int64);
    drop(array);
    check_numbers(
        &rt,
        "booleans become numbers: one and zero",
        made,
        Ok(("[1 0 _]", "110")),
        &DataType::Int64,
    );
}
