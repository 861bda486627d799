//! Aggregates of groups of booleans, bytes and texts.
use super::groups::groups_of_keys;
use crate::arrays::{
    check_bytes, check_mask, check_slots, check_texts, items, row, stored_booleans,
};
use arrow_binary::BinaryArray;
use arrow_utf8::Utf8Array;
use compute_aggregate::aggregate::{
    group_count, group_max_binary, group_max_boolean, group_max_utf8, group_min_binary,
    group_min_boolean, group_min_utf8,
};

/// A name, stored values, marks, the key by which each slot is grouped, and the slots of the counts, of the
/// least and of the greatest values.
#[rattlefmt::skip]
const BOOLEANS: &[(&str, &str, &str, &[u32], &str, &str, &str)] = &[
    ("two groups", "1001", "none", &[0, 1, 0, 1], "[2 2]", "[false false]", "[true true]"),
    ("nulls store the other value", "0110", "1101", &[0, 1, 1, 0], "[2 1]", "[false true]", "[false true]"),
    ("a group of nulls", "10", "01", &[0, 1], "[0 1]", "[_ false]", "[_ false]"),
    ("no group", "", "none", &[], "[]", "[]", "[]"),
    ("one group", "01", "none", &[1, 1], "[2]", "[false]", "[true]"),
];

/// A name, slots, the key by which each slot is grouped, and the slots of the counts, of the least and of
/// the greatest texts.
#[rattlefmt::skip]
const TEXTS: &[(&str, &[Option<&str>], &[u32], &str, &str, &str)] = &[
    ("two groups", &[Some("b"), Some("x"), Some("a"), Some("y")], &[0, 1, 0, 1],
        "[2 2]", "[\"a\" \"x\"]", "[\"b\" \"y\"]"),
    ("the empty text is less", &[Some("a"), Some(""), None], &[0, 0, 0], "[2]", "[\"\"]", "[\"a\"]"),
    ("a prefix is less", &[Some("ab"), Some("a"), Some("abc")], &[1, 1, 1], "[3]", "[\"a\"]", "[\"abc\"]"),
    ("equal texts", &[Some("q"), Some("q")], &[0, 0], "[2]", "[\"q\"]", "[\"q\"]"),
    ("null slots only", &[None, None], &[0, 1], "[0 0]", "[_ _]", "[_ _]"),
    ("by bytes", &[Some("é"), Some("z"), Some("Z")], &[0, 0, 0], "[3]", "[\"Z\"]", "[\"é\"]"),
    ("no group", &[], &[], "[]", "[]", "[]"),
];

/// Bytes, some of which are no text.
const BYTES: &[Option<&[u8]>] = &[
    Some(b"\x00"),
    Some(b"\x7f"),
    None,
    Some(b"\x80"),
    Some(b"\xff"),
    Some(b"\x01"),
];

/// The keys by which they are grouped, from the second on.
const KEYS: &[u32] = &[1, 1, 1, 0, 0];

#[test]
fn groups_of_booleans_and_texts(rt: HostRuntime) {
    let alloc = rt.alloc();
    let rows = BOOLEANS.iter().enumerate();
    for (index, (case, values, mask, keys, counts, least, greatest)) in rows {
        let row = row("groups of booleans", "Boolean", index, *case);
        let row = row.as_str();
        let array = stored_booleans(&rt, (*values, *mask));
        let groups = groups_of_keys(&rt, *keys);
        assert!(rt;
            groups.indices().len() == array.len(),
            "a key for each slot"
        );
        let made = group_count(alloc, &array, &groups).expect(&rt, "memory");
        check_slots(&rt, row, made.iter(), *counts);
        drop(made);
        let made = group_min_boolean(alloc, &array, &groups).expect(&rt, "memory");
        check_slots(&rt, row, made.iter(), *least);
        drop(made);
        let made = group_max_boolean(alloc, &array, &groups).expect(&rt, "memory");
        check_slots(&rt, row, made.iter(), *greatest);
        drop(made);
        drop((groups, array));
    }
    let rows = TEXTS.iter().enumerate();
    for (index, (case, slots, keys, counts, least, greatest)) in rows {
        let row = row("groups of texts", "Utf8", index, *case);
        let row = row.as_str();
        let array: Utf8Array<i32> = items(&rt, *slots);
        let groups = groups_of_keys(&rt, *keys);
        assert!(rt;
            groups.indices().len() == array.len(),
            "a key for each slot"
        );
        let made = group_count(alloc, &array, &groups).expect(&rt, "memory");
        check_slots(&rt, row, made.iter(), *counts);
        drop(made);
        let made = group_min_utf8(alloc, &array, &groups);
        check_texts(&rt, row, made, *least);
        let made = group_max_utf8(alloc, &array, &groups);
        check_texts(&rt, row, made, *greatest);
        drop((groups, array));
    }
}

#[test]
fn groups_of_a_slice_of_bytes(rt: HostRuntime) {
    let alloc = rt.alloc();
    let array: BinaryArray<i64> = items(&rt, BYTES);
    assert!(rt; array.len() == 6, "slots");
    let array = array.sliced(1, 5);
    let groups = groups_of_keys(&rt, KEYS);
    assert!(rt;
        groups.indices().len() == array.len(),
        "a key for each slot"
    );
    let made = group_count(alloc, &array, &groups).expect(&rt, "memory");
    check_slots(&rt, "counts", made.iter(), "[2 2]");
    drop(made);
    let made = group_min_binary(alloc, &array, &groups).expect(&rt, "memory");
    check_mask(&rt, "a mask that no slot needs", made.validity(), "none");
    check_bytes(&rt, "least", Ok(made), "[[127] [1]]");
    let made = group_max_binary(alloc, &array, &groups);
    check_bytes(&rt, "greatest", made, "[[128] [255]]");
    drop((groups, array));
}
