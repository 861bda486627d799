//! Least and greatest booleans, texts and bytes.
use crate::arrays::{check_value, items, row, stored_booleans};
use arrow_binary::BinaryArray;
use arrow_utf8::Utf8Array;
use compute_aggregate::aggregate::{
    count_valid, max_binary, max_boolean, max_string, min_binary, min_boolean, min_string,
};

/// A name, stored values, marks, the least and the greatest value, and how many slots are valid.
#[rattlefmt::skip]
const BOOLEANS: &[(&str, &str, &str, Option<bool>, Option<bool>, usize)] = &[
    ("no slot", "", "none", None, None, 0),
    ("null slots only", "10", "00", None, None, 0),
    ("both values", "101", "none", Some(false), Some(true), 3),
    ("all true", "111", "none", Some(true), Some(true), 3),
    ("all false", "00", "11", Some(false), Some(false), 2),
    ("a null stores false", "101", "101", Some(true), Some(true), 2),
    ("a null stores true", "010", "101", Some(false), Some(false), 2),
];

/// A name, slots, the least and the greatest text, and how many slots are valid.
#[rattlefmt::skip]
const TEXTS: &[(&str, &[Option<&str>], Option<&str>, Option<&str>, usize)] = &[
    ("no slot", &[], None, None, 0),
    ("null slots only", &[None, None], None, None, 0),
    ("a null", &[Some("b"), None, Some("a"), Some("c")], Some("a"), Some("c"), 3),
    ("a prefix is less", &[Some("ab"), Some("a")], Some("a"), Some("ab"), 2),
    ("the empty text", &[Some("a"), Some("")], Some(""), Some("a"), 2),
    ("by bytes", &[Some("é"), Some("z"), Some("Z")], Some("Z"), Some("é"), 3),
];

/// Bytes, some of which are no text.
const BYTES: &[Option<&[u8]>] = &[Some(b"\xff"), None, Some(b"\x00\xff"), Some(b"\x01")];

#[test]
fn booleans_texts_and_bytes_are_compared(rt: HostRuntime) {
    for (index, (case, values, mask, least, greatest, valid)) in BOOLEANS.iter().enumerate() {
        let row = row("aggregates of booleans", "Boolean", index, *case);
        let row = row.as_str();
        let array = stored_booleans(&rt, (*values, *mask));
        check_value(&rt, row, min_boolean(&array), *least);
        check_value(&rt, row, max_boolean(&array), *greatest);
        check_value(&rt, row, count_valid(&array), *valid);
        drop(array);
    }
    for (index, (case, slots, least, greatest, valid)) in TEXTS.iter().enumerate() {
        let row = row("extremes of texts", "Utf8", index, *case);
        let row = row.as_str();
        let array: Utf8Array<i32> = items(&rt, *slots);
        check_value(&rt, row, min_string(&array), *least);
        check_value(&rt, row, max_string(&array), *greatest);
        check_value(&rt, row, count_valid(&array), *valid);
        drop(array);
    }
    let row = "extremes of bytes";
    let array: BinaryArray<i64> = items(&rt, BYTES);
    check_value(&rt, row, min_binary(&array), Some(b"\x00\xff".as_slice()));
    check_value(&rt, row, max_binary(&array), Some(b"\xff".as_slice()));
    drop(array);
}
