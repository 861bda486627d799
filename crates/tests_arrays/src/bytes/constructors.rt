//! Constructors of arrays and builders.
use super::*;
use arrow_bytes::{ByteItem, ItemError};
use arrow_utf8::Utf8Array;

fn check_default_type<K: ByteKind, O: Offset>(rt: &impl Abort, expected: &str) {
    let name = case_of::<K, O>("the default data type of an array");
    check_text(
        rt,
        name.as_str(),
        ByteArray::<K, O>::default_data_type(),
        expected,
    );
    let name = case_of::<K, O>("the default data type of a builder");
    check_text(
        rt,
        name.as_str(),
        MutableByteValuesArray::<K, O>::default_data_type(),
        expected,
    );
}

#[test]
fn default_data_types_are_those_of_the_kind_and_may_be_written_out(rt: HostRuntime) {
    check_default_type::<Binary, i32>(&rt, "Binary");
    check_default_type::<Binary, i64>(&rt, "LargeBinary");
    check_default_type::<Utf8, i32>(&rt, "Utf8");
    check_default_type::<Utf8, i64>(&rt, "LargeUtf8");
    let nulls = Utf8Array::<i32>::new_null(rt.alloc(), DataType::Utf8, 2);
    check_array(
        &rt,
        "new_null of a type that is written out",
        nulls,
        (&[0, 0, 0], b"", "00"),
    );
    let none = Utf8Array::<i64>::new_empty(rt.alloc(), DataType::LargeUtf8);
    check_array(
        &rt,
        "new_empty of a type that is written out",
        none,
        NOTHING,
    );
}

/// Compares arrays of no slot and of nulls, and builders of no slot.
fn check_new<K: ByteKind, O: Offset>(rt: &(impl Abort + AllocGlobal)) {
    let alloc = rt.alloc();
    check_array(rt, "default", ByteArray::<K, O>::default(alloc), NOTHING);
    let array = ByteArray::<K, O>::new_empty(alloc, K::default_type(O::IS_LARGE));
    check_array(rt, "new_empty", array, NOTHING);
    let array = ByteArray::<K, O>::new_null(alloc, K::default_type(O::IS_LARGE), 0);
    check_array(rt, "new_null of none", array, (&[0], b"", ""));
    let array = ByteArray::<K, O>::new_null(alloc, K::default_type(O::IS_LARGE), 3);
    check_array(rt, "new_null of three", array, (&[0, 0, 0, 0], b"", "000"));
    let builder = MutableByteArray::<K, O>::new(alloc);
    check_builder(rt, "new", builder, NOTHING);
    let values = MutableByteValuesArray::<K, O>::new(alloc);
    check_values(rt, "new without nulls", values, NOTHING);
    let values = MutableByteValuesArray::<K, O>::default(alloc);
    check_values(rt, "default without nulls", values, NOTHING);
}

#[test]
fn new_arrays_and_builders_have_no_slot_or_nulls(rt: HostRuntime) {
    for_all_kinds!(check_new, &rt);
}

/// Compares arrays and builders of slices of the slots and items of `SLOTS` and `ITEMS`.
fn check_of_slices<K: ByteKind, O: Offset, T: ByteItem<K>>(
    rt: &(impl Abort + AllocGlobal),
    (slots, items): (&[Option<T>], &[T]),
) {
    let alloc = rt.alloc();
    check_array(rt, "from", ByteArray::<K, O>::from(alloc, slots), SLOTS);
    let array = ByteArray::<K, O>::from_slice(alloc, items);
    check_array(rt, "from_slice", array, ITEMS);
    let builder = MutableByteArray::<K, O>::from(alloc, slots);
    check_builder(rt, "from", builder, SLOTS);
    assert!(rt; slots.len() == 3);
    let array = ByteArray::<K, O>::from(alloc, &slots[..1]);
    let valid: Parts = (&[0, 2], b"\xC3\xA9", "none");
    check_array(rt, "from, no null", array, valid);
    let builder = MutableByteArray::<K, O>::from(alloc, &slots[1..2]);
    check_builder(rt, "from, a null alone", builder, (&[0, 0], b"", "0"));
}

#[test]
fn a_mask_is_made_for_nulls(rt: HostRuntime) {
    check_of_slices::<Binary, i32, &[u8]>(&rt, BYTES);
    check_of_slices::<Binary, i64, &[u8]>(&rt, BYTES);
    check_of_slices::<Utf8, i32, &str>(&rt, TEXTS);
    check_of_slices::<Utf8, i64, &str>(&rt, TEXTS);
}

/// The items of `ITEMS` thrice.
const THRICE: Parts = (
    &[0, 2, 2, 7, 9, 9, 14, 16, 16, 21],
    b"\xC3\xA9there\xC3\xA9there\xC3\xA9there",
    "none",
);

/// Makes arrays and builders of iterators over the slots and items of `SLOTS` and `ITEMS`, and extends the builders.
fn check_of_iterators<K: ByteKind, O: Offset, T: ByteItem<K> + ItemError<Error = Error>>(
    rt: &(impl Abort + AllocGlobal),
    (slots, items): (&[Option<T>], &[T]),
) {
    let alloc = rt.alloc();
    let array = ByteArray::<K, O>::from_iter(alloc, slots.iter().copied());
    check_array(rt, "from_iter", array, SLOTS);
    let array = ByteArray::<K, O>::from_iter_values(alloc, items.iter().copied());
    check_array(rt, "from_iter_values", array, ITEMS);
    let builder = MutableByteArray::<K, O>::from_iter(alloc, slots.iter().copied());
    check_builder(rt, "from_iter", builder, SLOTS);
    let builder = MutableByteArray::<K, O>::from_iter_values(alloc, items.iter().copied());
    let mut builder = builder.expect(rt, "memory");
    builder.extend(slots.iter().copied()).expect(rt, "extend");
    builder
        .try_extend(slots.iter().copied())
        .expect(rt, "try_extend");
    let thrice: Parts = (THRICE.0, THRICE.1, "111101101");
    check_builder(
        rt,
        "from_iter_values, extend, try_extend",
        Ok(builder),
        thrice,
    );
    let mut builder = MutableByteArray::<K, O>::default(alloc).expect(rt, "memory");
    builder
        .extend_values(items.iter().copied())
        .expect(rt, "memory");
    check_builder(rt, "default, extend_values", Ok(builder), ITEMS);
    let values = MutableByteValuesArray::<K, O>::try_from_iter(alloc, items.iter().copied());
    check_values(rt, "try_from_iter", values, ITEMS);
    let values = MutableByteValuesArray::<K, O>::from_iter(alloc, items.iter().copied());
    let mut values = values.expect(rt, "memory");
    values.extend(items.iter().copied()).expect(rt, "extend");
    values
        .try_extend(items.iter().copied())
        .expect(rt, "try_extend");
    check_values(rt, "from_iter, extend, try_extend", Ok(values), THRICE);
}

#[test]
fn arrays_and_builders_take_items_and_slots_that_are_borrowed(rt: HostRuntime) {
    check_of_iterators::<Binary, i32, &[u8]>(&rt, BYTES);
    check_of_iterators::<Binary, i64, &[u8]>(&rt, BYTES);
    check_of_iterators::<Utf8, i32, &str>(&rt, TEXTS);
    check_of_iterators::<Utf8, i64, &str>(&rt, TEXTS);
}
