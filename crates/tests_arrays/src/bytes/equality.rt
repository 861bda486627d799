//! Equality of arrays of bytes and of text, and of their builders without nulls, of both widths.
use super::*;

/// A name, the parts of two arrays or builders, and whether they are equal.
type Pair = (&'static str, Parts, Parts, bool);

/// Arrays, of which one at least has a mask.
#[rattlefmt::skip]
const MASKED: &[Pair] = &[
    ("no slot", (&[0], b"", "none"), (&[2], b"ab", ""), true),
    ("bytes around the slots", (&[0, 1, 3], b"abc", "none"), (&[1, 2, 4], b"xabcy", "11"), true),
    ("values under nulls", (&[0, 1, 3], b"abc", "10"), (&[0, 1, 1], b"a", "10"), true),
    ("a null", (&[0, 1, 3], b"abc", "none"), (&[0, 1, 3], b"abc", "10"), false),
];

/// Arrays without masks, and builders without nulls.
#[rattlefmt::skip]
const UNMASKED: &[Pair] = &[
    ("no item", (&[0], b"", "none"), (&[2], b"ab", "none"), true),
    ("bytes before the items", (&[0, 1, 3], b"abc", "none"), (&[1, 2, 4], b"xabc", "none"), true),
    ("other ends of the same bytes", (&[0, 1, 3], b"abc", "none"), (&[0, 2, 3], b"abc", "none"), false),
    ("another byte", (&[0, 1, 3], b"abc", "none"), (&[0, 1, 3], b"abd", "none"), false),
    ("one more", (&[0, 1], b"a", "none"), (&[0, 1, 1], b"a", "none"), false),
];

/// Compares the arrays of each pair for a kind and a width.
fn check_arrays<K: ByteKind, O: Offset>(rt: &(impl Abort + AllocGlobal), pairs: &[Pair]) {
    for (index, (case, first, second, expected)) in pairs.iter().enumerate() {
        let first = array_of::<K, O>(rt, *first);
        let second = array_of::<K, O>(rt, *second);
        let are_equal = first == second;
        drop(second);
        drop(first);
        let name = case_of::<K, O>(row(*case, index).as_str());
        assert_text::value(are_equal, *expected).expect(rt, name.as_str());
    }
}

/// A name, an array, the first slot and the number of slots of a slice of it, an array, and whether they are equal.
#[rattlefmt::skip]
const SLICES: &[(&str, Parts, [usize; 2], Parts, bool)] = &[
    ("without a mask", (&[0, 1, 3], b"abc", "none"), [1, 1], (&[0, 2], b"bc", "none"), true),
    ("no null is left of a mask", (&[0, 1, 3], b"abc", "01"), [1, 1], (&[0, 2], b"bc", "none"), true),
    ("a mask from within a byte on", (&[0, 1, 3, 4], b"abcd", "101"), [1, 2], (&[0, 0, 1], b"d", "01"), true),
    ("another slot is null", (&[0, 1, 3, 4], b"abcd", "101"), [1, 2], (&[0, 2, 3], b"bcd", "10"), false),
    ("another byte", (&[0, 1, 3, 4], b"abcd", "101"), [1, 2], (&[0, 2, 3], b"bce", "01"), false),
    ("no slot", (&[0, 1], b"a", "0"), [1, 0], (&[0], b"", "none"), true),
];

/// Compares all slices for a kind and a width.
fn check_slices<K: ByteKind, O: Offset>(rt: &(impl Abort + AllocGlobal)) {
    for (index, (case, parts, range, other, expected)) in SLICES.iter().enumerate() {
        let (mut first, second) = (array_of::<K, O>(rt, *parts), array_of::<K, O>(rt, *other));
        let [start, count] = *range;
        assert!(rt;
            start <= first.len() && count <= first.len() - start,
            "a slice within the array"
        );
        first.slice(start, count);
        let are_equal = (first == second, second == first);
        drop(second);
        drop(first);
        let name = case_of::<K, O>(row(*case, index).as_str());
        assert_text::value(are_equal, (*expected, *expected)).expect(rt, name.as_str());
    }
}

#[test]
fn a_slice_equals_an_array_of_its_slots(rt: HostRuntime) {
    for_all_kinds!(check_slices, &rt);
}

/// Compares the builders without nulls of each pair for a kind and a width.
fn check_builders<K: ByteKind, O: Offset>(rt: &(impl Abort + AllocGlobal)) {
    for (index, (case, first, second, expected)) in UNMASKED.iter().enumerate() {
        let (first, second) = (
            values_of::<K, O>(rt, *first),
            values_of::<K, O>(rt, *second),
        );
        let are_equal = first == second;
        drop(second);
        drop(first);
        let name = case_of::<K, O>(row(*case, index).as_str());
        assert_text::value(are_equal, *expected).expect(rt, name.as_str());
    }
}

#[test]
fn builders_without_nulls_are_equal_if_they_have_the_same_items(rt: HostRuntime) {
    for_all_kinds!(check_builders, &rt);
}

#[test]
fn arrays_are_equal_if_they_have_the_same_slots(rt: HostRuntime) {
    for_all_kinds!(check_arrays, &rt, MASKED);
    for_all_kinds!(check_arrays, &rt, UNMASKED);
}

#[test]
fn arrays_of_another_data_type_differ(rt: HostRuntime) {
    let name = String::from_str(rt.alloc(), "name").expect(&rt, "memory");
    let inner = Box::new(rt.alloc(), DataType::Utf8).expect(&rt, "memory");
    let data_type = DataType::Extension(name, inner, None);
    let first = ByteArray::<Utf8, i32>::default(rt.alloc()).expect(&rt, "memory");
    let offsets = frozen_offsets::<i32>(rt.alloc(), &[0]).expect(&rt, "offsets");
    let bytes = buffer_of(rt.alloc(), &[]).expect(&rt, "memory");
    let second = ByteArray::<Utf8, i32>::try_new(data_type, offsets, bytes, None);
    let second = second.expect(&rt, "an extension of text");
    let are_equal = first == second;
    drop(second);
    drop(first);
    assert_text::value(are_equal, false).expect(&rt, "text and an extension of text");
}
