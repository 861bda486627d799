//! Bytes and text: what slots store, bytes around the slots in slices, clones, thawed arrays and builders, and parts
//! that are taken out and accepted again.
use super::*;

/// Compares the items and the parts of arrays of two items around a null.
fn check_nulls<O: Offset>(rt: &(impl Abort + AllocGlobal)) {
    let array = ByteArray::<Binary, O>::from(rt.alloc(), BYTE_SLOTS).expect(rt, "memory");
    let name = case_of::<Binary, O>("stored items");
    let expected = "[[104, 105] [] [116, 104, 101, 114, 101]]";
    assert_text::items(array.values_iter(), expected).expect(rt, name.as_str());
    check_array(rt, "bytes", Ok(array), SLOTS);
    let array = ByteArray::<Utf8, O>::from(rt.alloc(), TEXT_SLOTS).expect(rt, "memory");
    let name = case_of::<Utf8, O>("stored items");
    assert_text::items(array.values_iter(), r#"["hi" "" "there"]"#).expect(rt, name.as_str());
    check_array(rt, "texts", Ok(array), SLOTS);
}

/// Three slots of one, no and two bytes, the second null, with bytes around them that are no text.
const AROUND: Parts = (&[2, 3, 3, 5], b"\xFF\xFF\x01\x04\x04\xC3", "101");

/// Compares the items of an array of bytes, and the slots and the parts of a slice.
fn check_slice<O: Offset>(rt: &(impl Abort + AllocGlobal)) {
    let mut array = own_array::<Binary, O>(rt, AROUND);
    assert!(rt; array.len() == 3);
    let values = (array.value(0), array.value(1), array.value(2));
    let name = case_of::<Binary, O>("the values");
    check_text(rt, name.as_str(), values, "([1], [], [4, 4])");
    array.slice(1, 2);
    assert!(rt; array.len() == 2);
    let slots = (array.get(0), array.get(1), array.null_count());
    let name = case_of::<Binary, O>("the null, the last slot, null_count of a slice");
    check_text(rt, name.as_str(), slots, "(None, Some([4, 4]), 1)");
    check_array(rt, "a slice", Ok(array), (&[3, 3, 5], AROUND.1, "01"));
}

/// A name, an offset, a length, and the offsets and the mask of that slice.
const SLICES: &[(&str, usize, usize, &[usize], &str)] = &[
    ("all", 0, 3, &[2, 3, 3, 5], "101"),
    ("the last two", 1, 2, &[3, 3, 5], "01"),
    ("the first", 0, 1, &[2, 3], "1"),
    ("none", 3, 0, &[5], ""),
];

/// Compares a builder, and another of its parts.
fn check_again<K: ByteKind, O: Offset>(
    rt: &(impl Abort + AllocGlobal),
    case: &str,
    builder: MutableByteArray<K, O>,
    expected: Parts,
) {
    check_builder(rt, case, builder.clone(), expected);
    let (data_type, offsets, bytes, mask) = builder.into_data();
    let builder = MutableByteArray::<K, O>::try_new(data_type, offsets, bytes, mask);
    check_builder(rt, case, builder, expected);
}

/// Compares arrays of the parts of slices, and builders of the parts of builders from which a slot was popped.
fn check_parts<K: ByteKind, O: Offset>(rt: &(impl Abort + AllocGlobal)) {
    for (index, (case, offset, len, offsets, marks)) in SLICES.iter().enumerate() {
        let array = own_array::<K, O>(rt, AROUND);
        assert!(rt; *offset <= array.len() && *len <= array.len() - *offset);
        let (data_type, ends, bytes, mask) = array.sliced(*offset, *len).into_inner();
        let array = ByteArray::<K, O>::try_new(data_type, ends, bytes, mask);
        check_array(
            rt,
            row(*case, index).as_str(),
            array,
            (*offsets, AROUND.1, *marks),
        );
    }
    let mut builder = thawed(rt, own_array::<K, O>(rt, AROUND));
    drop(builder.pop().expect(rt, "memory"));
    check_again(rt, "popped", builder, (&[2, 3, 3], b"\xFF\xFF\x01", "10"));
    let parts: Parts = (&[2, 3, 5], b"\xFF\xFF\x01\x04\x04", "none");
    let builder = values_of::<K, O>(rt, K::default_type(O::IS_LARGE), parts);
    let mut builder = builder.expect(rt, "parts that fit");
    drop(builder.pop().expect(rt, "memory"));
    let (data_type, offsets, bytes) = builder.into_inner();
    let builder = MutableByteValuesArray::<K, O>::try_new(data_type, offsets, bytes);
    check_values(rt, "popped", builder, (&[2, 3], b"\xFF\xFF\x01", "none"));
}

/// A name, the parts of an array, and the bytes and the mask of its builder.
const THAWS: &[(&str, Parts, &[u8], &str)] = &[
    ("a byte behind", (&[0, 1], b"a\xFF", "none"), b"a", "none"),
    ("bytes around", AROUND, b"\xFF\xFF\x01\x04\x04", "101"),
    ("no slot", (&[1], b"\xFF\xFF", ""), b"\xFF", ""),
    ("no slot at 0", (&[0], b"\xFF", "none"), b"", "none"),
];

/// Compares the builder of a thawed array, which has no bytes behind the last slot.
fn check_thawed<K: ByteKind, O: Offset>(rt: &(impl Abort + AllocGlobal)) {
    for (index, (case, parts, bytes, mask)) in THAWS.iter().enumerate() {
        let builder = thawed(rt, own_array::<K, O>(rt, *parts));
        let name = row(*case, index);
        check_builder(rt, name.as_str(), Ok(builder), (parts.0, *bytes, *mask));
    }
}

/// A name, and parts of three slots.
const SHARED: &[(&str, Parts)] = &[
    ("the last is null", (&[0, 5, 6, 6], b"hello ", "110")),
    ("the second is null", (&[0, 2, 2, 7], b"hithere", "101")),
];

/// Compares a clone, which stays frozen while the first array lives, and then the first, which thaws.
fn check_clone<K: ByteKind, O: Offset>(rt: &(impl Abort + AllocGlobal)) {
    for (index, (case, parts)) in SHARED.iter().enumerate() {
        let name = row(*case, index);
        let first = own_array::<K, O>(rt, *parts);
        let second = first.clone().expect(rt, "memory").into_mut().left();
        let second = second.expect(rt, case_of::<K, O>("a shared array stays frozen").as_str());
        check_array(rt, name.as_str(), Ok(second), *parts);
        check_builder(rt, name.as_str(), Ok(thawed(rt, first)), *parts);
    }
}

/// Parts of slices and popped builders are accepted, thawed arrays end at their last offset, and an array thaws once its
/// clone is dropped.
#[test]
fn parts_are_accepted_again_and_arrays_alone_thaw(rt: HostRuntime) {
    for_each_kind!(check_parts, &rt);
    for_each_kind!(check_thawed, &rt);
    for_each_kind!(check_clone, &rt);
}

/// Compares builders with bytes before the slots, or thawed from arrays with bytes behind them, after a pop or a push.
fn check_ends<O: Offset>(rt: &(impl Abort + AllocGlobal)) {
    let mut builder = own_builder::<Binary, O>(rt, (&[1, 3], b"\x07\x08\x09", "none"));
    let popped = builder.pop().expect(rt, "memory");
    let name = case_of::<Binary, O>("a popped item");
    check_text(rt, name.as_str(), popped, "Some([8, 9])");
    check_again(rt, "what is left", builder, (&[1], b"\x07", "none"));
    let parts: Parts = (&[0, 1], b"a\xFF", "none");
    let pushed: Parts = (&[0, 1, 2], b"ab", "none");
    let mut builder = thawed(rt, own_array::<Binary, O>(rt, parts));
    builder.push(Some(b"b")).expect(rt, "memory");
    check_again(rt, "thawed bytes", builder, pushed);
    let mut builder = thawed(rt, own_array::<Utf8, O>(rt, parts));
    builder.push(Some("b")).expect(rt, "memory");
    check_again(rt, "thawed text", builder, pushed);
    let mut builder = own_builder::<Utf8, O>(rt, (&[1, 2, 3], b"\xFFab", "none"));
    builder.push(Some("c")).expect(rt, "memory");
    let pushed: Parts = (&[1, 2, 3, 4], b"\xFFabc", "none");
    check_again(rt, "behind another byte", builder, pushed);
}

/// Nulls store no byte, slices keep all bytes, and items are popped and pushed at the last offset.
#[test]
fn nulls_store_no_byte_and_slices_keep_all(rt: HostRuntime) {
    for_each_offset!(check_nulls, &rt);
    for_each_offset!(check_slice, &rt);
    for_each_offset!(check_ends, &rt);
}
