//! Kernels that select, concatenate, group and hash three slots.
use crate::boolean::array_text as boolean_text;
use crate::bytes::array_text;
use crate::primitive::array_text as number_text;
use crate::refusal::{end, results};
use arrow_binary::BinaryArray;
use arrow_boolean::BooleanArray;
use arrow_primitive::PrimitiveArray;
use arrow_utf8::Utf8Array;
use compute_group::{
    Groups, group_primitive, group_utf8, hash_binary, hash_boolean, hash_primitive, hash_utf8,
};
use compute_select::concatenate::{concatenate_boolean, concatenate_items, concatenate_primitive};
use compute_select::if_then_else::{
    if_then_else_binary, if_then_else_boolean, if_then_else_primitive, if_then_else_utf8,
};
use compute_select::length::length;
use compute_select::nullif::{nullif_binary, nullif_boolean, nullif_primitive, nullif_utf8};
use compute_select::take::{take_binary, take_boolean, take_primitive, take_utf8};
use std::test::Fail;
use tests_support::Text;

/// Keys, the second of which is null.
const KEYS: &[Option<u32>] = &[Some(2), None, Some(0)];

/// Which slots are chosen of the first array.
const PREDICATE: &[bool] = &[true, false, true];

/// Writes the indexes of the first slots of groups, and the number of the group of each slot.
fn group_text(groups: &Groups) -> Text {
    Text::of(format_args!("{:?} {:?}", groups.first(), groups.indices()))
}

/// Writes lengths.
fn length_text(lengths: &PrimitiveArray<i32>) -> Text {
    Text::of(format_args!("{lengths:?}"))
}

/// Writes which hashes are equal to the last.
fn hash_text(hashes: &PrimitiveArray<u64>) -> Text {
    let hashes = hashes.values().as_slice();
    let [first, second, third] = hashes else {
        return Text::of("not three hashes");
    };
    Text::of(format_args!("{} {}", first == third, second == third))
}

#[test]
fn selections_and_groups_of_numbers_answer_again(rt: HostRuntime) -> Result<(), Fail> {
    let alloc = rt.alloc();
    let keys = PrimitiveArray::from(alloc, KEYS).expect(&rt, "refused");
    let predicate = BooleanArray::from_slice(alloc, PREDICATE).expect(&rt, "refused");
    let lhs = PrimitiveArray::from_slice(alloc, [7, 8, 7].as_slice()).expect(&rt, "refused");
    let rhs = PrimitiveArray::from_slice(alloc, [6, 8, 9].as_slice()).expect(&rt, "refused");
    assert!(&rt;
        lhs.len() == rhs.len() && lhs.len() == predicate.len(),
        "operands of one length"
    );
    let is_refused = results! { &rt;
        number_text: take_primitive(alloc, &rhs, &keys) => "9 (6) 6";
        number_text: if_then_else_primitive(alloc, &predicate, &lhs, &rhs) => "7 8 7";
        number_text: nullif_primitive(alloc, &lhs, &rhs) => "7 (8) 7";
        group_text: group_primitive(alloc, &lhs) => "[0, 1] [0, 1, 0]";
        hash_text: hash_primitive(alloc, &lhs) => "true false";
        number_text: concatenate_primitive(alloc, &[&lhs, &rhs]) => "7 8 7 6 8 9";
    };
    drop(rhs);
    drop(lhs);
    drop(predicate);
    drop(keys);
    end(is_refused)
}

/// Texts, of which the second is null, and others.
const TEXTS: &[Option<&str>] = &[Some("ab"), None, Some("cde")];

const OTHERS: &[Option<&str>] = &[Some("ab"), Some("x"), Some("y")];

#[test]
fn selections_and_groups_of_text_answer_again(rt: HostRuntime) -> Result<(), Fail> {
    let alloc = rt.alloc();
    let keys = PrimitiveArray::from(alloc, KEYS).expect(&rt, "refused");
    let predicate = BooleanArray::from_slice(alloc, PREDICATE).expect(&rt, "refused");
    let lhs = Utf8Array::<i32>::from(alloc, TEXTS).expect(&rt, "refused");
    let rhs = Utf8Array::<i32>::from(alloc, OTHERS).expect(&rt, "refused");
    assert!(&rt;
        lhs.len() == rhs.len() && lhs.len() == predicate.len(),
        "operands of one length"
    );
    let is_refused = results! { &rt;
        array_text: take_utf8(alloc, &rhs, &keys) => "<y> (<>) <ab>";
        array_text: if_then_else_utf8(alloc, &predicate, &lhs, &rhs) => "<ab> <x> <cde>";
        array_text: nullif_utf8(alloc, &lhs, &rhs) => "(<ab>) (<>) <cde>";
        length_text: length(alloc, &lhs) => "Int32[2, None, 3]";
        group_text: group_utf8(alloc, &lhs) => "[0, 1, 2] [0, 1, 2]";
        hash_text: hash_utf8(alloc, &lhs) => "false false";
        array_text: concatenate_items(alloc, &[&lhs, &rhs]) => "<ab> (<>) <cde> <ab> <x> <y>";
    };
    drop(rhs);
    drop(lhs);
    drop(predicate);
    drop(keys);
    end(is_refused)
}

#[test]
fn selections_of_booleans_answer_again(rt: HostRuntime) -> Result<(), Fail> {
    let alloc = rt.alloc();
    let keys = PrimitiveArray::from(alloc, KEYS).expect(&rt, "refused");
    let predicate = BooleanArray::from_slice(alloc, PREDICATE).expect(&rt, "refused");
    let lhs = BooleanArray::from_slice(alloc, &[true, false, true]).expect(&rt, "refused");
    let rhs = BooleanArray::from_slice(alloc, &[false, false, true]).expect(&rt, "refused");
    assert!(&rt;
        lhs.len() == rhs.len() && lhs.len() == predicate.len(),
        "operands of one length"
    );
    let is_refused = results! { &rt;
        boolean_text: take_boolean(alloc, &rhs, &keys) => "true (false) false";
        boolean_text: if_then_else_boolean(alloc, &predicate, &lhs, &rhs) => "true false true";
        boolean_text: nullif_boolean(alloc, &lhs, &rhs) => "true (false) (true)";
        boolean_text: concatenate_boolean(alloc, &[&lhs, &rhs]) => "true false true false false true";
        hash_text: hash_boolean(alloc, &lhs) => "true false";
    };
    drop(rhs);
    drop(lhs);
    drop(predicate);
    drop(keys);
    end(is_refused)
}

/// Bytes, of which the second are null, and others, the first and the last of which are equal.
const BYTES: &[Option<&[u8]>] = &[Some(b"ab"), None, Some(b"cde")];

const OTHER_BYTES: &[Option<&[u8]>] = &[Some(b"ab"), Some(b"x"), Some(b"ab")];

#[test]
fn selections_of_bytes_answer_again(rt: HostRuntime) -> Result<(), Fail> {
    let alloc = rt.alloc();
    let keys = PrimitiveArray::from(alloc, KEYS).expect(&rt, "refused");
    let predicate = BooleanArray::from_slice(alloc, PREDICATE).expect(&rt, "refused");
    let lhs = BinaryArray::<i32>::from(alloc, BYTES).expect(&rt, "refused");
    let rhs = BinaryArray::<i32>::from(alloc, OTHER_BYTES).expect(&rt, "refused");
    assert!(&rt;
        lhs.len() == rhs.len() && lhs.len() == predicate.len(),
        "operands of one length"
    );
    let is_refused = results! { &rt;
        array_text: take_binary(alloc, &rhs, &keys) => "<ab> (<>) <ab>";
        array_text: if_then_else_binary(alloc, &predicate, &lhs, &rhs) => "<ab> <x> <cde>";
        array_text: nullif_binary(alloc, &lhs, &rhs) => "(<ab>) (<>) <cde>";
        array_text: concatenate_items(alloc, &[&lhs, &rhs]) => "<ab> (<>) <cde> <ab> <x> <ab>";
        hash_text: hash_binary(alloc, &rhs) => "true false";
    };
    drop(rhs);
    drop(lhs);
    drop(predicate);
    drop(keys);
    end(is_refused)
}
