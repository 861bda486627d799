//! Slots of one of two arrays by a predicate, and nulls where two arrays are equal.
use crate::arrays::{
    booleans, check_booleans, check_bytes, check_numbers, check_texts, items, numbers,
};
use arrow_binary::BinaryArray;
use arrow_types::data_type::DataType;
use arrow_utf8::Utf8Array;
use compute_select::if_then_else::{
    if_then_else_binary, if_then_else_boolean, if_then_else_primitive, if_then_else_utf8,
};
use compute_select::nullif::{nullif_binary, nullif_boolean, nullif_primitive, nullif_utf8};

#[test]
fn numbers_and_booleans_are_chosen(rt: HostRuntime) {
    let alloc = rt.alloc();
    let predicate = booleans(
        &rt,
        &[Some(true), None, Some(false), Some(true), Some(false)],
    );
    let lhs = numbers(&rt, &[Some(1), Some(2), Some(3), None, Some(5)]);
    let rhs = numbers(&rt, &[Some(4), Some(5), Some(6), Some(7), Some(5)]);
    assert!(rt;
        lhs.len() == predicate.len(),
        "a value for each slot of the predicate"
    );
    assert!(rt;
        rhs.len() == predicate.len(),
        "another for each slot of the predicate"
    );
    check_numbers(
        &rt,
        "numbers are chosen: if then else",
        if_then_else_primitive(alloc, &predicate, &lhs, &rhs),
        Ok(("[1 _ 6 _ 5]", "10101")),
        &DataType::Int32,
    );
    check_numbers(
        &rt,
        "numbers are chosen: null if equal",
        nullif_primitive(alloc, &lhs, &rhs),
        Ok(("[1 2 3 _ _]", "11100")),
        &DataType::Int32,
    );
    check_numbers(
        &rt,
        "numbers are chosen: a null is equal to nothing",
        nullif_primitive(alloc, &rhs, &lhs),
        Ok(("[4 5 6 7 _]", "11110")),
        &DataType::Int32,
    );
    drop((rhs, lhs, predicate));
    let predicate = booleans(&rt, &[Some(true), None, Some(false), Some(false)]);
    let lhs = booleans(&rt, &[Some(true), Some(true), None, Some(false)]);
    let rhs = booleans(&rt, &[Some(false), Some(true), Some(true), None]);
    assert!(rt;
        lhs.len() == predicate.len(),
        "a value for each slot of the predicate"
    );
    assert!(rt;
        rhs.len() == predicate.len(),
        "another for each slot of the predicate"
    );
    let made = if_then_else_boolean(alloc, &predicate, &lhs, &rhs);
    let row = "booleans are chosen";
    check_booleans(&rt, row, "if then else", made, ("t_t_", "1010"));
    check_booleans(
        &rt,
        row,
        "null if equal",
        nullif_boolean(alloc, &lhs, &rhs),
        ("t__f", "1001"),
    );
    drop((rhs, lhs, predicate));
}

const BYTES: &[Option<&[u8]>] = &[Some(b"a"), Some(b"b")];

const OTHER_BYTES: &[Option<&[u8]>] = &[None, Some(b"b")];

#[test]
fn texts_and_bytes_are_chosen(rt: HostRuntime) {
    let alloc = rt.alloc();
    let predicate = booleans(&rt, &[Some(true), None, Some(false)]);
    let lhs: Utf8Array<i32> = items(&rt, &[Some("a"), Some("b"), Some("c")]);
    let rhs: Utf8Array<i32> = items(&rt, &[Some("x"), Some("b"), Some("")]);
    assert!(rt;
        lhs.len() == predicate.len(),
        "a value for each slot of the predicate"
    );
    assert!(rt;
        rhs.len() == predicate.len(),
        "another for each slot of the predicate"
    );
    check_texts(
        &rt,
        "texts are chosen: if then else",
        if_then_else_utf8(alloc, &predicate, &lhs, &rhs),
        "[\"a\" _ \"\"]",
    );
    check_texts(
        &rt,
        "texts are chosen: null if equal",
        nullif_utf8(alloc, &lhs, &rhs),
        "[\"a\" _ \"c\"]",
    );
    drop((rhs, lhs, predicate));
    let predicate = booleans(&rt, &[Some(false), Some(true)]);
    let lhs: BinaryArray<i64> = items(&rt, BYTES);
    let rhs: BinaryArray<i64> = items(&rt, OTHER_BYTES);
    assert!(rt;
        lhs.len() == predicate.len(),
        "a value for each slot of the predicate"
    );
    assert!(rt;
        rhs.len() == predicate.len(),
        "another for each slot of the predicate"
    );
    check_bytes(
        &rt,
        "bytes are chosen: if then else",
        if_then_else_binary(alloc, &predicate, &lhs, &rhs),
        "[_ [98]]",
    );
    check_bytes(
        &rt,
        "bytes are chosen: null if equal",
        nullif_binary(alloc, &lhs, &rhs),
        "[[97] _]",
    );
    drop((rhs, lhs, predicate));
}
