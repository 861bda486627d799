//! What filters share with their arrays. What is shared is not thawed.
use crate::arrays::{Booleans, check_value, is_left, items, numbers, row, stored_booleans};
use arrow_binary::BinaryArray;
use arrow_kernels::{filter_binary, filter_boolean, filter_primitive};

/// A name, a filter, and whether it keeps every slot of three.
const FILTERS: &[(&str, Booleans, bool)] = &[
    ("every slot", ("111", "none"), true),
    ("all but the last slot", ("110", "none"), false),
];

const BYTES: &[Option<&[u8]>] = &[Some(b"a"), None, Some(b"bc")];

#[test]
fn a_filter_that_keeps_every_slot_shares_the_parts_of_its_array(rt: HostRuntime) {
    let alloc = rt.alloc();
    let array = numbers(&rt, &[Some(1i64), None, Some(10)]);
    for (index, (case, filter, is_shared)) in FILTERS.iter().enumerate() {
        let test = "a filter that keeps every number shares values and mask";
        let row = row(test, "Int64", index, *case);
        let filter = stored_booleans(&rt, *filter);
        assert!(rt; filter.len() == array.len());
        let kept = filter_primitive(alloc, &array, &filter).expect(&rt, "memory");
        drop(filter);
        let (data_type, values, mask) = kept.into_inner();
        drop(data_type);
        let mask = mask.expect(&rt, row.as_str());
        check_value(
            &rt,
            row.as_str(),
            [is_left(values.into_mut()), is_left(mask.into_mut())],
            [*is_shared; 2],
        );
    }
    drop(array);
    let array = stored_booleans(&rt, ("100", "101"));
    for (index, (case, filter, is_shared)) in FILTERS.iter().enumerate() {
        let test = "a filter that keeps every boolean shares values and mask";
        let row = row(test, "Boolean", index, *case);
        let filter = stored_booleans(&rt, *filter);
        assert!(rt; filter.len() == array.len());
        let kept = filter_boolean(alloc, &array, &filter).expect(&rt, "memory");
        drop(filter);
        let (data_type, values, mask) = kept.into_inner();
        drop(data_type);
        let mask = mask.expect(&rt, row.as_str());
        check_value(
            &rt,
            row.as_str(),
            [is_left(values.into_mut()), is_left(mask.into_mut())],
            [*is_shared; 2],
        );
    }
    drop(array);
    let array: BinaryArray<i32> = items(&rt, BYTES);
    for (index, (case, filter, is_shared)) in FILTERS.iter().enumerate() {
        let test = "a filter that keeps every item shares offsets bytes and mask";
        let row = row(test, "Binary", index, *case);
        let filter = stored_booleans(&rt, *filter);
        assert!(rt; filter.len() == array.len());
        let kept = filter_binary(alloc, &array, &filter).expect(&rt, "memory");
        drop(filter);
        let (data_type, offsets, bytes, mask) = kept.into_inner();
        drop(data_type);
        check_value(
            &rt,
            row.as_str(),
            [
                is_left(offsets.into_mut()),
                is_left(bytes.into_mut()),
                is_left(mask.expect(&rt, row.as_str()).into_mut()),
            ],
            [*is_shared; 3],
        );
    }
    drop(array);
}
