//! Aggregates of groups of three slots.
use crate::boolean::array_text as boolean_text;
use crate::bytes::array_text;
use crate::primitive::array_text as number_text;
use crate::refusal::{end, results};
use arrow_binary::BinaryArray;
use arrow_boolean::BooleanArray;
use arrow_primitive::PrimitiveArray;
use arrow_types::data_type::DataType;
use arrow_utf8::Utf8Array;
use compute_aggregate::aggregate::{
    group_count, group_max_binary, group_max_boolean, group_max_primitive, group_max_utf8,
    group_min_binary, group_min_boolean, group_min_primitive, group_min_utf8, group_rows,
    group_sum_primitive, group_sum_wide,
};
use compute_group::{Groups, group_primitive};
use std::process::Abort;
use std::test::Fail;
use tests_support::Text;

/// Keys by which three slots are grouped: the first and the last slot, and the second.
const KEYS: &[u32] = &[1, 0, 1];

/// Returns the groups of equal keys.
fn groups_of_keys(rt: &(impl Abort + AllocGlobal)) -> Groups {
    let alloc = rt.alloc();
    let keys = PrimitiveArray::from_slice(alloc, KEYS).expect(rt, "refused");
    let groups = group_primitive(alloc, &keys).expect(rt, "refused");
    drop(keys);
    groups
}

/// Writes sums of 128 bits.
fn wide_text(array: &PrimitiveArray<i128>) -> Text {
    Text::of(format_args!("{:?}", array.values().as_slice()))
}

/// Writes counts.
fn count_text(array: &PrimitiveArray<u64>) -> Text {
    Text::of(format_args!("{:?}", array.values().as_slice()))
}

#[test]
fn groups_of_numbers_answer_again(rt: HostRuntime) -> Result<(), Fail> {
    let alloc = rt.alloc();
    let array = PrimitiveArray::from_slice(alloc, [7, 8, 9].as_slice()).expect(&rt, "refused");
    let groups = groups_of_keys(&rt);
    assert!(&rt;
        groups.indices().len() == array.len(),
        "a key for each slot"
    );
    let is_refused = results! { &rt;
        count_text: group_rows(alloc, &groups) => "[2, 1]";
        count_text: group_count(alloc, &array, &groups) => "[2, 1]";
        number_text: group_sum_primitive(alloc, &array, &groups) => "16 8";
        wide_text: group_sum_wide(alloc, &array, &groups, DataType::Decimal(38, 0)) => "[16, 8]";
        number_text: group_min_primitive(alloc, &array, &groups) => "7 8";
        number_text: group_max_primitive(alloc, &array, &groups) => "9 8";
    };
    drop((groups, array));
    end(is_refused)
}

#[test]
fn groups_of_booleans_answer_again(rt: HostRuntime) -> Result<(), Fail> {
    let alloc = rt.alloc();
    let array = BooleanArray::from_slice(alloc, [true, false, false].as_slice()).expect(
        &rt, "refused",
    );
    let groups = groups_of_keys(&rt);
    assert!(&rt;
        groups.indices().len() == array.len(),
        "a key for each slot"
    );
    let is_refused = results! { &rt;
        boolean_text: group_max_boolean(alloc, &array, &groups) => "true false";
        boolean_text: group_min_boolean(alloc, &array, &groups) => "false false";
    };
    drop((groups, array));
    end(is_refused)
}

/// Slots of bytes, and of text.
const BYTES: &[Option<&[u8]>] = &[Some(b"ab"), None, Some(b"cde")];

const TEXTS: &[Option<&str>] = &[Some("ab"), None, Some("cde")];

#[test]
fn groups_of_bytes_answer_again(rt: HostRuntime) -> Result<(), Fail> {
    let alloc = rt.alloc();
    let array = BinaryArray::<i32>::from(alloc, BYTES).expect(&rt, "refused");
    let groups = groups_of_keys(&rt);
    assert!(&rt;
        groups.indices().len() == array.len(),
        "a key for each slot"
    );
    let is_refused = results! { &rt;
        array_text: group_max_binary(alloc, &array, &groups) => "<cde> (<>)";
        array_text: group_min_binary(alloc, &array, &groups) => "<ab> (<>)";
    };
    drop((groups, array));
    end(is_refused)
}

#[test]
fn groups_of_text_answer_again(rt: HostRuntime) -> Result<(), Fail> {
    let alloc = rt.alloc();
    let array = Utf8Array::<i32>::from(alloc, TEXTS).expect(&rt, "refused");
    let groups = groups_of_keys(&rt);
    assert!(&rt;
        groups.indices().len() == array.len(),
        "a key for each slot"
    );
    let is_refused = results! { &rt;
        array_text: group_min_utf8(alloc, &array, &groups) => "<ab> (<>)";
        array_text: group_max_utf8(alloc, &array, &groups) => "<cde> (<>)";
    };
    drop((groups, array));
    end(is_refused)
}
