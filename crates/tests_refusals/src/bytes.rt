//! Arrays and builders of bytes and of text. The calls are those of either kind; items are written as texts.
use crate::refusal::{changes, check_refusal, end, pushes, results};
use crate::slot_text;
use arrow_byte_array::{ByteArray, MutableByteArray, MutableByteValuesArray};
use arrow_bytes::{Binary, ByteItem, ByteKind, ItemError, Utf8};
use arrow_types::error::Error;
use arrow_types::offset::Offset;
use std::alloc::Global;
use std::fmt::Debug;
use std::process::Abort;
use std::test::Fail;
use tests_support::{Text, assert_text};

/// Writes what an array stores.
pub(crate) fn array_text<K: ByteKind, O: Offset>(array: &ByteArray<K, O>) -> Text {
    let (mask, offsets) = (slot_text::mask(array.validity()), array.offsets());
    slot_text::items(offsets.buffer().as_slice(), array.values().as_slice(), mask)
}

/// Writes what a builder stores.
fn builder_text<K: ByteKind, O: Offset>(builder: &MutableByteArray<K, O>) -> Text {
    let mask = slot_text::growing_mask(builder.validity());
    slot_text::items(builder.offsets().as_slice(), builder.values(), mask)
}

/// Writes what a builder without nulls stores.
fn values_text<K: ByteKind, O: Offset>(builder: &MutableByteValuesArray<K, O>) -> Text {
    let mask = Text::of("none");
    slot_text::items(builder.offsets().as_slice(), builder.values(), mask)
}

/// Creates a builder of items.
fn builder_of<X: ByteItem<K> + ItemError<Error = Error>, K: ByteKind, O: Offset>(
    alloc: Global,
    items: &[X],
) -> Result<MutableByteArray<K, O>, Error> {
    MutableByteArray::<K, O>::from_iter_values(alloc, items.iter().copied())
}

/// Creates a builder of items without nulls.
fn values_of<X: ByteItem<K> + ItemError<Error = Error>, K: ByteKind, O: Offset>(
    alloc: Global,
    items: &[X],
) -> Result<MutableByteValuesArray<K, O>, Error> {
    MutableByteValuesArray::<K, O>::from_iter(alloc, items.iter().copied())
}

/// Appends the last slot of an array.
fn extend_from_last<K: ByteKind, O: Offset>(
    builder: &mut MutableByteArray<K, O>,
    array: &ByteArray<K, O>,
) -> Result<(), Error> {
    if array.len() == 0 {
        return Ok(());
    }
    builder.extend_from_array(array, array.len() - 1, 1)
}

/// Compares an item that was popped with what it prints.
fn check_pop<T: Debug + Drop>(
    rt: &impl Abort,
    answer: Result<Option<T>, Error>,
    expected: &str,
) -> Result<(), Error> {
    let item = answer?;
    let came = Text::of(format_args!("{item:?}"));
    drop(item);
    assert_text::text(came, expected).expect(rt, "pop");
    Ok(())
}

/// One item, of one byte; another, for which a builder of the first has no room; items of two, no and five bytes; slots
/// of the same, the second of which is null; and what the first item prints when it is popped.
type Items<X> = (
    &'static [X],
    X,
    &'static [X],
    &'static [Option<X>],
    &'static str,
);

const BYTES: Items<&[u8]> = (
    &[b"a"],
    b"bcdefghijklmnopqrstuvwxyz0123456789\xC3\xA9",
    &[b"\xC3\xA9", b"", b"there"],
    &[Some(b"\xC3\xA9"), None, Some(b"there")],
    "Some([97])",
);

const TEXT: Items<&str> = (
    &["a"],
    "bcdefghijklmnopqrstuvwxyz0123456789é",
    &["é", "", "there"],
    &[Some("é"), None, Some("there")],
    "Some(\"a\")",
);

/// Makes builders of an item of one byte grow by each call.
macro_rules! check_growth {
    ($rt:ident, $kind:ident, $offset:ident, $items:ident) => {{
        let (alloc, (one, long, items, slots, popped)) = ($rt.alloc(), $items);
        let builder = MutableByteArray::<$kind, $offset>::from(alloc, slots).expect(&$rt, "refused");
        let array = ByteArray::<$kind, $offset>::from(alloc, slots).expect(&$rt, "refused");
        let are_slots_refused = changes! { &$rt,
            slot: builder_of::<_, $kind, $offset>(alloc, one), builder_text, "<a>";
            slot.push(Some(long)) => "<a> <bcdefghijklmnopqrstuvwxyz0123456789é>";
            slot.push(None) => "<a> (<>)";
            slot.try_push(Some(long)) => "<a> <bcdefghijklmnopqrstuvwxyz0123456789é>";
            slot.push_null() => "<a> (<>)";
            slot.try_extend_from_self(&builder) => "<a> <é> (<>) <there>";
            extend_from_last(slot, &array) => "<a> <there> under 11";
            slot.reserve(100, 1000) => "<a>";
            slot.shrink_to_fit() => "<a>";
            check_pop(&$rt, slot.pop(), popped) => "";
            slot.extend(slots.iter().copied()) => "<a> <é> (<>) <there>", Extension;
            slot.try_extend(slots.iter().copied()) => "<a> <é> (<>) <there>", Extension;
            slot.extend_values(items.iter().copied()) => "<a> <é> <> <there>", Extension;
        };
        drop(array);
        drop(builder);
        let values = values_of::<_, $kind, $offset>(alloc, items).expect(&$rt, "refused");
        let are_items_refused = changes! { &$rt,
            item: values_of::<_, $kind, $offset>(alloc, one), values_text, "<a>";
            item.push(long) => "<a> <bcdefghijklmnopqrstuvwxyz0123456789é>";
            item.try_push(long) => "<a> <bcdefghijklmnopqrstuvwxyz0123456789é>";
            item.push_null() => "<a> <>";
            item.try_extend_from_self(&values) => "<a> <é> <> <there>";
            item.reserve(100, 1000) => "<a>";
            item.shrink_to_fit() => "<a>";
            check_pop(&$rt, item.pop(), popped) => "";
            item.extend(items.iter().copied()) => "<a> <é> <> <there>", Extension;
            item.try_extend(items.iter().copied()) => "<a> <é> <> <there>", Extension;
        };
        drop(values);
        end(are_slots_refused || are_items_refused)
    }};
}

#[test]
fn builders_of_bytes_grow_or_are_left(rt: HostRuntime) -> Result<(), Fail> {
    check_growth!(rt, Binary, i32, BYTES)
}

#[test]
fn builders_of_text_grow_or_are_left(rt: HostRuntime) -> Result<(), Fail> {
    check_growth!(rt, Utf8, i64, TEXT)
}

/// Creates a builder and freezes it.
fn frozen<X: ByteItem<K> + ItemError<Error = Error>, K: ByteKind, O: Offset>(
    alloc: Global,
    slots: &[Option<X>],
) -> Result<ByteArray<K, O>, Error> {
    MutableByteArray::from(alloc, slots)?.freeze()
}

/// Creates a builder without nulls and freezes it.
fn frozen_values<X: ByteItem<K> + ItemError<Error = Error>, K: ByteKind, O: Offset>(
    alloc: Global,
    items: &[X],
) -> Result<ByteArray<K, O>, Error> {
    values_of(alloc, items)?.freeze()
}

/// Creates arrays by each call.
fn check_arrays<X: ByteItem<K> + ItemError<Error = Error>, K: ByteKind, O: Offset>(
    rt: &(impl Abort + AllocGlobal),
    items: &[X],
    slots: &[Option<X>],
) -> bool {
    let alloc = rt.alloc();
    results! { rt;
        array_text: ByteArray::<K, O>::from_slice(alloc, items) => "<é> <> <there>";
        array_text: ByteArray::<K, O>::from(alloc, slots) => "<é> (<>) <there>";
        array_text: ByteArray::<K, O>::from_iter(alloc, slots.iter().copied()) => "<é> (<>) <there>";
        array_text: ByteArray::<K, O>::from_iter_values(alloc, items.iter().copied()) => "<é> <> <there>";
        array_text: ByteArray::<K, O>::new_empty(alloc, K::default_type(O::IS_LARGE)) => "";
        array_text: ByteArray::<K, O>::new_null(alloc, K::default_type(O::IS_LARGE), 2) => "(<>) (<>)";
        array_text: ByteArray::<K, O>::default(alloc) => "";
        array_text: frozen::<X, K, O>(alloc, slots) => "<é> (<>) <there>";
        array_text: frozen_values::<X, K, O>(alloc, items) => "<é> <> <there>";
    }
}

/// Creates builders by each call.
fn check_builders<X: ByteItem<K> + ItemError<Error = Error>, K: ByteKind, O: Offset>(
    rt: &(impl Abort + AllocGlobal),
    items: &[X],
    slots: &[Option<X>],
) -> bool {
    let alloc = rt.alloc();
    results! { rt;
        builder_text: MutableByteArray::<K, O>::new(alloc) => "";
        builder_text: MutableByteArray::<K, O>::default(alloc) => "";
        builder_text: MutableByteArray::<K, O>::with_capacity(alloc, 3) => "";
        builder_text: MutableByteArray::<K, O>::with_capacities(alloc, 3, 6) => "";
        builder_text: MutableByteArray::<K, O>::from(alloc, slots) => "<é> (<>) <there>";
        builder_text: MutableByteArray::<K, O>::from_iter(alloc, slots.iter().copied()) => "<é> (<>) <there>";
        builder_text: MutableByteArray::<K, O>::from_iter_values(alloc, items.iter().copied()) => "<é> <> <there>";
        values_text: MutableByteValuesArray::<K, O>::new(alloc) => "";
        values_text: MutableByteValuesArray::<K, O>::default(alloc) => "";
        values_text: MutableByteValuesArray::<K, O>::with_capacity(alloc, 3) => "";
        values_text: MutableByteValuesArray::<K, O>::with_capacities(alloc, 3, 6) => "";
        values_text: MutableByteValuesArray::<K, O>::from_iter(alloc, items.iter().copied()) => "<é> <> <there>";
        values_text: MutableByteValuesArray::<K, O>::try_from_iter(alloc, items.iter().copied())
            => "<é> <> <there>";
    }
}

/// Clones arrays and builders.
fn check_clones<X: ByteItem<K> + ItemError<Error = Error>, K: ByteKind, O: Offset>(
    rt: &(impl Abort + AllocGlobal),
    items: &[X],
    slots: &[Option<X>],
) -> bool {
    let alloc = rt.alloc();
    let array = ByteArray::<K, O>::from(alloc, slots).expect(rt, "refused");
    let builder = MutableByteArray::<K, O>::from(alloc, slots).expect(rt, "refused");
    let values = values_of::<X, K, O>(alloc, items).expect(rt, "refused");
    let is_refused = results! { rt;
        array_text: array.clone() => "<é> (<>) <there>";
        builder_text: builder.clone() => "<é> (<>) <there>";
        values_text: values.clone() => "<é> <> <there>";
    };
    drop(array);
    drop(values);
    drop(builder);
    is_refused
}

/// Creates arrays and builders by each call, and ends the test.
fn check_created<X: ByteItem<K> + ItemError<Error = Error>, K: ByteKind, O: Offset>(
    rt: &(impl Abort + AllocGlobal),
    items: &[X],
    slots: &[Option<X>],
) -> Result<(), Fail> {
    let are_arrays_refused = check_arrays::<X, K, O>(rt, items, slots);
    let are_builders_refused = check_builders::<X, K, O>(rt, items, slots);
    let are_clones_refused = check_clones::<X, K, O>(rt, items, slots);
    end(are_arrays_refused || are_builders_refused || are_clones_refused)
}

#[test]
fn arrays_and_builders_of_bytes_are_created(rt: HostRuntime) -> Result<(), Fail> {
    let (_, _, items, slots, _) = BYTES;
    check_created::<_, Binary, i32>(&rt, items, slots)
}

#[test]
fn arrays_and_builders_of_text_are_created(rt: HostRuntime) -> Result<(), Fail> {
    let (_, _, items, slots, _) = TEXT;
    check_created::<_, Utf8, i64>(&rt, items, slots)
}

#[test]
fn pushes_of_bytes_into_room_need_no_memory(rt: HostRuntime) {
    let item = Some(b"\xC3\xA9".as_slice());
    pushes! { &rt, slots: MutableByteArray::<Binary, i32>::new(rt.alloc());
        slots.reserve(3, 6) => 3 of slots.push(item);
        slots.reserve(3, 6) => 3 of slots.push(item);
        slots.push_null() => 0 of slots.push_null();
        slots.reserve(100, 0) => 100 of slots.push_null();
    }
}

#[test]
fn pushes_of_text_into_room_need_no_memory(rt: HostRuntime) {
    pushes! { &rt, slots: MutableByteArray::<Utf8, i64>::with_capacities(rt.alloc(), 3, 6);
        slots.reserve(0, 0) => 3 of slots.push(Some("é"));
        slots.reserve(3, 6) => 3 of slots.push(Some("é"));
        slots.push_null() => 0 of slots.push_null();
        slots.reserve(100, 0) => 100 of slots.push_null();
    }
}

/// Checks that more slots, or more bytes, than any memory holds are refused.
fn check_too_many<K: ByteKind, O: Offset>(rt: &(impl Abort + AllocGlobal)) {
    let alloc = rt.alloc();
    let data_type = ByteArray::<K, O>::default_data_type();
    let nulls = ByteArray::<K, O>::new_null(alloc, data_type, usize::MAX);
    check_refusal(rt, "new_null", nulls);
    let slots = MutableByteArray::<K, O>::with_capacity(alloc, usize::MAX);
    check_refusal(rt, "with_capacity", slots);
    let bytes = MutableByteArray::<K, O>::with_capacities(alloc, 0, usize::MAX);
    check_refusal(rt, "with_capacities", bytes);
    let values = MutableByteValuesArray::<K, O>::with_capacities(alloc, 0, usize::MAX);
    check_refusal(rt, "with_capacities without nulls", values);
}

#[test]
fn more_bytes_than_memory_holds_are_refused(rt: HostRuntime) {
    check_too_many::<Binary, i32>(&rt);
}

#[test]
fn more_text_than_memory_holds_is_refused(rt: HostRuntime) {
    check_too_many::<Utf8, i64>(&rt);
}
