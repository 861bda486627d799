//! Lengths of bytes and text, and concatenations of borrowed arrays.
use crate::arrays::{booleans, check_booleans, check_numbers, check_texts, items, numbers};
use arrow_types::data_type::DataType;
use arrow_utf8::Utf8Array;
use compute_select::concatenate::{concatenate_boolean, concatenate_items, concatenate_primitive};
use compute_select::length::length;

#[test]
fn lengths_are_those_of_bytes(rt: HostRuntime) {
    let texts: Utf8Array<i32> = items(&rt, &[Some("ab"), None, Some(""), Some("ß")]);
    let lengths = length(rt.alloc(), &texts);
    drop(texts);
    check_numbers(
        &rt,
        "lengths",
        lengths,
        Ok(("[2 _ 0 2]", "1011")),
        &DataType::Int32,
    );
}

#[test]
fn borrowed_arrays_are_concatenated(rt: HostRuntime) {
    let alloc = rt.alloc();
    let first = numbers(&rt, &[Some(1), None]).to(DataType::Date32);
    let second = numbers(&rt, &[Some(3)]);
    check_numbers(
        &rt,
        "numbers",
        concatenate_primitive(alloc, &[&first, &second, &first]),
        Ok(("[1 _ 3 1 _]", "10110")),
        &DataType::Date32,
    );
    drop((first, second));
    let first = booleans(&rt, &[Some(true), None]);
    let made = concatenate_boolean(alloc, &[&first, &first]);
    drop(first);
    check_booleans(
        &rt,
        "borrowed booleans are concatenated",
        "concatenate",
        made,
        ("t_t_", "1010"),
    );
    let row = "borrowed texts are concatenated";
    let first: Utf8Array<i32> = items(&rt, &[Some("ab"), None]);
    let made = concatenate_items(alloc, &[&first, &first]);
    drop(first);
    check_texts(&rt, row, made, "[\"ab\" _ \"ab\" _]");
}
