//! Arrays: how they are frozen, sliced, shared, thawed, and made of parts; and the values that they store, by those
//! calls that no array makes visible.
use super::*;
use arrow_bytes::{ByteValues, MutableByteValues, into_mut_values};
use arrow_memory::offset::OffsetsBuffer;

/// A name, the marks of a builder, and those of the array that it freezes to.
const FREEZES: &[(&str, &str, &str)] = &[
    ("no null", "11", "none"),
    ("a null", "10", "10"),
    ("no mask", "none", "none"),
];

/// Freezes builders with and without a null.
fn check_freeze<K: ByteKind, O: Offset>(rt: &(impl Abort + AllocGlobal)) {
    for (index, (case, before, after)) in FREEZES.iter().enumerate() {
        let builder: MutableByteArray<K, O> = builder_of(rt, (&[0, 1, 1], b"x", *before));
        let expected: Parts = (&[0, 1, 1], b"x", *after);
        check_array(rt, row(*case, index).as_str(), builder.freeze(), expected);
    }
    let array = values_of::<K, O>(rt, ITEMS).freeze();
    check_array(rt, "without nulls", array, ITEMS);
}

/// Slices an array, and the slice again, and makes an array of the parts of another, without its mask.
fn check_slices<K: ByteKind, O: Offset>(rt: &(impl Abort + AllocGlobal)) {
    let array: ByteArray<K, O> = array_of(rt, AROUND);
    assert!(rt; array.len() == 3);
    let slice = array.sliced(2, 1);
    check_array(rt, "the last slot", slice.clone(), (&[3, 5], AROUND.1, "1"));
    assert!(rt; slice.len() == 1);
    let none = slice.sliced(1, 0);
    check_array(rt, "no slot of it", Ok(none), (&[5], AROUND.1, ""));
    let (data_type, offsets, values, validity) = array_of::<K, O>(rt, AROUND).into_inner();
    drop(validity);
    let array = ByteArray::<K, O>::new(data_type, offsets, values, None);
    check_array(rt, "parts without the mask", Ok(array), BARE);
}

/// Thaws an array only once no clone shares it, and no slice hides a slot.
fn check_thawing<K: ByteKind, O: Offset>(rt: &(impl Abort + AllocGlobal)) {
    let array: ByteArray<K, O> = array_of(rt, SLOTS);
    let clone = array.clone().expect(rt, "memory").into_mut().left();
    let clone = clone.expect(rt, "a shared array stays frozen");
    check_array(rt, "a clone that is not thawed", Ok(clone), SLOTS);
    check_array(rt, "an array whose clone is not", array.clone(), SLOTS);
    let builder = array.into_mut().right().expect(rt, "an array alone thaws");
    check_builder(rt, "an array alone", Ok(builder), SLOTS);
    let array: ByteArray<K, O> = array_of(rt, ITEMS);
    assert!(rt; array.len() == 3);
    let slice = array.sliced(1, 1).into_mut().left();
    let slice = slice.expect(rt, "a slice stays frozen");
    check_array(rt, "a frozen slice", Ok(slice), (&[2, 2], ITEMS.1, "none"));
}

/// Freeze drops a mask without nulls, slices and parts keep all bytes, and arrays thaw if they are neither shared nor
/// sliced.
#[test]
fn arrays_are_frozen_sliced_and_thawed(rt: HostRuntime) {
    for_all_kinds!(check_freeze, &rt);
    for_all_kinds!(check_slices, &rt);
    for_all_kinds!(check_thawing, &rt);
}

/// Makes items of bytes that are not text.
fn check_bytes<O: Offset>(rt: &(impl Abort + AllocGlobal)) {
    let halves: Parts = (&[0, 1, 2], b"\xC3\xA9", "none");
    let array: ByteArray<Binary, O> = array_of(rt, halves);
    assert!(rt; array.len() == 2);
    let items = (array.get(0), array.value(0), array.get(1), array.value(1));
    let expected = "(Some([195]), [195], Some([169]), [169])";
    let name = case_of::<Binary, O>("halves of é");
    check_text(rt, name.as_str(), items, expected);
    check_array(rt, "halves of é", Ok(array), halves);
    let offsets = OffsetsBuffer::<O>::new(rt.alloc()).expect(rt, "memory");
    let data_type = ByteArray::<Binary, O>::default_data_type();
    let bytes = buffer_of(rt.alloc(), b"xy").expect(rt, "memory");
    let array = ByteArray::<Binary, O>::new(data_type, offsets, bytes, None);
    check_array(rt, "no slot over bytes", Ok(array), (&[0], b"xy", "none"));
}

#[test]
fn any_bytes_are_an_item_and_may_lie_outside_of_items(rt: HostRuntime) {
    for_both_widths!(check_bytes, &rt);
}

#[test]
fn new_items_are_empty_and_values_that_are_not_shared_thaw(rt: HostRuntime) {
    let values = ByteValues::<Binary, i32>::new_empty_items(rt.alloc(), 2).expect(&rt, "memory");
    assert!(rt; values.len() == 2);
    assert_text::value(values.value(1), &[]).expect(&rt, "the second of two empty items");
    drop(values);
    let values = MutableByteValues::<Utf8, i64>::with_capacities(rt.alloc(), 2, 2);
    let values = values.expect(&rt, "memory").freeze().expect(&rt, "memory");
    let thawed = into_mut_values(values, None).right();
    let (thawed, marks) = thawed.expect(&rt, "values alone thaw");
    assert_text::value(thawed.len(), 0).expect(&rt, "items");
    assert_text::growing_mask(marks.as_ref(), "none").expect(&rt, "mask");
    drop(marks);
    drop(thawed);
}
