//! Groups of equal slots, by fixed and by random keys.
use crate::refusal::{end, results};
use arrow_binary::BinaryArray;
use arrow_boolean::BooleanArray;
use arrow_primitive::{MutablePrimitiveArray, PrimitiveArray};
use arrow_utf8::Utf8Array;
use compute_group::{
    Groups, group_binary, group_binary_with, group_boolean, group_boolean_with, group_primitive,
    group_primitive_with, group_utf8_with,
};
use std::hash::RandomState;
use std::test::Fail;
use tests_support::Text;

/// Numbers, the second of which is null.
const NUMBERS: &[Option<u32>] = &[Some(2), None, Some(0)];

/// Booleans, of which the first and the last are equal.
const BOOLEANS: &[bool] = &[true, false, true];

/// Bytes, of which the second are null.
const BYTES: &[Option<&[u8]>] = &[Some(b"ab"), None, Some(b"ab")];

/// Texts, the second of which is null.
const TEXTS: &[Option<&str>] = &[Some("ab"), None, Some("cde")];

/// Writes the indexes of the first slots of groups, and the number of the group of each slot.
fn group_text(groups: &Groups) -> Text {
    Text::of(format_args!("{:?} {:?}", groups.first(), groups.indices()))
}

/// Writes the indexes of slots.
fn row_text(rows: &Vec<usize>) -> Text {
    Text::of(format_args!("{rows:?}"))
}

/// Writes how many groups and slots there are, and the number of the last slot's group.
fn count_text(groups: &Groups) -> Text {
    let indices = groups.indices();
    let last = indices.last().copied();
    Text::of(format_args!("{} {} {last:?}", groups.len(), indices.len()))
}

#[test]
fn groups_by_random_keys_answer_again(rt: HostRuntime) -> Result<(), Fail> {
    let alloc = rt.alloc();
    let random = RandomState::new(&rt).expect(&rt, "random keys");
    let numbers = PrimitiveArray::from(alloc, NUMBERS).expect(&rt, "refused");
    let booleans = BooleanArray::from_slice(alloc, BOOLEANS).expect(&rt, "refused");
    let bytes = BinaryArray::<i32>::from(alloc, BYTES).expect(&rt, "refused");
    let texts = Utf8Array::<i64>::from(alloc, TEXTS).expect(&rt, "refused");
    let is_refused = results! { &rt;
        group_text: group_primitive_with(alloc, random, &numbers) => "[0, 1, 2] [0, 1, 2]";
        group_text: group_boolean(alloc, &booleans) => "[0, 1] [0, 1, 0]";
        group_text: group_boolean_with(alloc, random, &booleans) => "[0, 1] [0, 1, 0]";
        group_text: group_binary(alloc, &bytes) => "[0, 1] [0, 1, 0]";
        group_text: group_binary_with(alloc, random, &bytes) => "[0, 1] [0, 1, 0]";
        group_text: group_utf8_with(alloc, random, &texts) => "[0, 1, 2] [0, 1, 2]";
    };
    drop(texts);
    drop(bytes);
    drop(booleans);
    drop(numbers);
    end(is_refused)
}

#[test]
fn groups_of_pairs_answer_again(rt: HostRuntime) -> Result<(), Fail> {
    let alloc = rt.alloc();
    let random = RandomState::new(&rt).expect(&rt, "random keys");
    let numbers = PrimitiveArray::from(alloc, NUMBERS).expect(&rt, "refused");
    let groups = group_primitive(alloc, &numbers).expect(&rt, "refused");
    drop(numbers);
    let is_refused = results! { &rt;
        group_text: groups.refine(alloc, &groups) => "[0, 1, 2] [0, 1, 2]";
        group_text: groups.refine_with(alloc, random, &groups) => "[0, 1, 2] [0, 1, 2]";
        group_text: groups.clone() => "[0, 1, 2] [0, 1, 2]";
        row_text: groups.rows(alloc, 1) => "[1]";
    };
    drop(groups);
    end(is_refused)
}

/// A thousand slots of 40 values in turn. Grouping them also allocates hints at the groups, and goes on without these.
#[test]
fn groups_with_hints_answer_again(rt: HostRuntime) -> Result<(), Fail> {
    let alloc = rt.alloc();
    let builder = MutablePrimitiveArray::<u32>::with_capacity(alloc, 1000);
    let mut builder = builder.expect(&rt, "refused");
    for i in 0..1000u32 {
        builder.push(Some(i % 40)).expect(&rt, "refused");
    }
    let array = builder.freeze().expect(&rt, "refused");
    let is_refused = results! { &rt;
        count_text: group_primitive(alloc, &array) => "40 1000 Some(39)";
    };
    drop(array);
    end(is_refused)
}
