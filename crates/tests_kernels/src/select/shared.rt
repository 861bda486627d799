//! What `nullif` shares with its first array. What is shared is not thawed.
use crate::arrays::{booleans, check_value, items, numbers};
use arrow_utf8::Utf8Array;
use compute_select::nullif::{nullif_boolean, nullif_primitive, nullif_utf8};
use tests_support::assert_text;

#[test]
fn nulls_where_slots_are_equal_share_the_values_of_the_first(rt: HostRuntime) {
    let alloc = rt.alloc();
    let row = "nulls where numbers are equal share the values of the first";
    let lhs = numbers(&rt, &[Some(1), Some(2)]);
    let rhs = numbers(&rt, &[Some(1), Some(3)]);
    assert!(rt; lhs.len() == rhs.len(), "slots");
    let made = nullif_primitive(alloc, &lhs, &rhs).expect(&rt, "memory");
    let (data_type, values, mask) = made.into_inner();
    drop((data_type, mask));
    let values = values.into_mut().left().expect(&rt, row);
    check_value(&rt, row, values.as_slice(), &[1, 2]);
    drop((values, rhs, lhs));
    let row = "nulls where booleans are equal share the values of the first";
    let lhs = booleans(&rt, &[Some(true), Some(false)]);
    let rhs = booleans(&rt, &[Some(true), Some(true)]);
    assert!(rt; lhs.len() == rhs.len(), "slots");
    let made = nullif_boolean(alloc, &lhs, &rhs).expect(&rt, "memory");
    let (data_type, values, mask) = made.into_inner();
    drop((data_type, mask));
    let values = values.into_mut().left().expect(&rt, row);
    assert_text::marks(values.iter(), "10").expect(&rt, row);
    drop((values, rhs, lhs));
    let row = "nulls where texts are equal share the items of the first";
    let lhs: Utf8Array<i32> = items(&rt, &[Some("a"), Some("bc")]);
    let rhs: Utf8Array<i32> = items(&rt, &[Some("a"), Some("b")]);
    assert!(rt; lhs.len() == rhs.len(), "slots");
    let made = nullif_utf8(alloc, &lhs, &rhs).expect(&rt, "memory");
    let (data_type, offsets, bytes, mask) = made.into_inner();
    drop((data_type, mask));
    let offsets = offsets.into_mut().left().expect(&rt, row);
    let bytes = bytes.into_mut().left().expect(&rt, row);
    check_value(&rt, row, bytes.as_slice(), b"abc");
    drop((offsets, bytes, rhs, lhs));
}
