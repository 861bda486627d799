//! Arrays and builders of bytes and of text. What both kinds have in common is tested by functions over a kind and a
//! width of offsets, which tests call for both kinds at both widths; what prints differently, by macros over the kind.

/// Calls a function of a width of offsets for both widths.
macro_rules! for_both_widths {
    ($check:ident, $($argument:expr),+) => {{
        $check::<i32>($($argument),+);
        $check::<i64>($($argument),+);
    }};
}

/// Calls a function of a kind and a width of offsets for both kinds at both widths.
macro_rules! for_all_kinds {
    ($check:ident, $($argument:expr),+) => {{
        $check::<Binary, i32>($($argument),+);
        $check::<Binary, i64>($($argument),+);
        $check::<Utf8, i32>($($argument),+);
        $check::<Utf8, i64>($($argument),+);
    }};
}

mod arrays;
mod builders;
mod constructors;
mod equality;
mod extend_from_array;
mod iterators;
mod masks;
mod owned;
mod printing;
mod text;

use arrow_byte_array::{ByteArray, MutableByteArray, MutableByteValuesArray};
use arrow_bytes::{Binary, ByteKind, Utf8};
use arrow_types::data_type::DataType;
use arrow_types::error::Error;
use arrow_types::offset::Offset;
use std::fmt::Debug;
use std::process::Abort;
use tests_support::{
    Mismatch, Text, assert_text, buffer_of, frozen_mask, frozen_offsets, growing_mask, offset_name,
    offsets_of, row,
};

/// Offsets, bytes, and marks as a text of `1` and `0`, or `none` without a mask.
type Parts = (&'static [usize], &'static [u8], &'static str);

/// No slots.
const NOTHING: Parts = (&[0], b"", "none");

/// Slots of two, no and five bytes; the second is null.
const SLOTS: Parts = (&[0, 2, 2, 7], b"\xC3\xA9there", "101");

/// Items of two, no and five bytes.
const ITEMS: Parts = (&[0, 2, 2, 7], b"\xC3\xA9there", "none");

/// The slots and items of bytes that `SLOTS` and `ITEMS` store.
const BYTES: (&[Option<&[u8]>], &[&[u8]]) = (
    &[Some(b"\xC3\xA9"), None, Some(b"there")],
    &[b"\xC3\xA9", b"", b"there"],
);

/// The slots and items of text that `SLOTS` and `ITEMS` store.
const TEXTS: (&[Option<&str>], &[&str]) = (&[Some("é"), None, Some("there")], &["é", "", "there"]);

/// Slots of one, no and two bytes, the second of which is null, with bytes around them that are not text.
const AROUND: Parts = (&[2, 3, 3, 5], b"\xFF\xFF\x01\x04\x04\xC3", "101");

/// `AROUND` without a mask.
const BARE: Parts = (&[2, 3, 3, 5], b"\xFF\xFF\x01\x04\x04\xC3", "none");

/// Names a case, and the kind and the type of offsets with which it is tried.
fn case_of<K: ByteKind, O: Offset>(case: &str) -> Text {
    let data_type = K::default_type(false);
    let name = Text::of(format_args!("{case} ({data_type:?}, {})", offset_name::<O>()));
    drop(data_type);
    name
}

/// Compares the type with the default; offsets and bytes with parts, and what a comparison of masks returned; and the
/// length, whether it is zero, and the number of nulls with those of the parts.
fn check_stored<K: ByteKind, O: Offset>(
    rt: &impl Abort,
    case: &str,
    (data_type, offsets, bytes): (&DataType, &[O], &[u8]),
    mask: Result<(), Mismatch>,
    size: (usize, bool, usize),
    expected: Parts,
) {
    let default_type = K::default_type(O::IS_LARGE);
    assert_text::value(data_type, &default_type).expect(rt, case);
    drop(default_type);
    let (mut came, mut wanted) = (Text::new(), Text::new());
    for offset in offsets {
        came = came.and(format_args!("{:?} ", offset.try_to_usize()), 30);
    }
    for number in expected.0 {
        wanted = wanted.and(format_args!("{:?} ", Some(*number)), 30);
    }
    assert_text::text(came, wanted.as_str()).expect(rt, case);
    assert_text::value(bytes, expected.1).expect(rt, case);
    mask.expect(rt, case);
    let len = expected.0.len().saturating_sub(1);
    let marks = expected.2.as_bytes();
    let nulls = marks.iter().filter(|mark| **mark == b'0').count();
    assert_text::value(size, (len, len == 0, nulls)).expect(rt, case);
}

/// Compares an array with parts and the default type, and drops it.
fn check_array<K: ByteKind, O: Offset>(
    rt: &impl Abort,
    case: &str,
    answer: Result<ByteArray<K, O>, Error>,
    expected: Parts,
) {
    let name = case_of::<K, O>(case);
    let case = name.as_str();
    let array = answer.expect(rt, case);
    let (offsets, bytes) = (array.offsets().buffer(), array.values());
    let parts = (array.data_type(), offsets.as_slice(), bytes.as_slice());
    let mask = assert_text::mask(array.validity(), expected.2);
    let size = (array.len(), array.is_empty(), array.null_count());
    check_stored::<K, O>(rt, case, parts, mask, size, expected);
    drop(array);
}

/// Compares a builder with parts and the default type, and drops it.
fn check_builder<K: ByteKind, O: Offset>(
    rt: &impl Abort,
    case: &str,
    answer: Result<MutableByteArray<K, O>, Error>,
    expected: Parts,
) {
    let name = case_of::<K, O>(case);
    let case = name.as_str();
    let builder = answer.expect(rt, case);
    let (offsets, bytes) = (builder.offsets(), builder.values());
    let parts = (builder.data_type(), offsets.as_slice(), bytes.as_slice());
    let mask = assert_text::growing_mask(builder.validity(), expected.2);
    let size = (builder.len(), builder.is_empty(), builder.null_count());
    check_stored::<K, O>(rt, case, parts, mask, size, expected);
    drop(builder);
}

/// Compares a builder without nulls with parts and the default type, and drops it.
fn check_values<K: ByteKind, O: Offset>(
    rt: &impl Abort,
    case: &str,
    answer: Result<MutableByteValuesArray<K, O>, Error>,
    expected: Parts,
) {
    let name = case_of::<K, O>(case);
    let case = name.as_str();
    let builder = answer.expect(rt, case);
    let (offsets, bytes) = (builder.offsets(), builder.values());
    let parts = (builder.data_type(), offsets.as_slice(), bytes.as_slice());
    let size = (builder.len(), builder.is_empty(), 0);
    check_stored::<K, O>(rt, case, parts, Ok(()), size, expected);
    drop(builder);
}

/// Compares what a value prints with a text, and drops it.
fn check_text<T: Debug + Drop>(rt: &impl Abort, case: &str, value: T, expected: &str) {
    let came = Text::of(format_args!("{value:?}"));
    drop(value);
    assert_text::text(came, expected).expect(rt, case);
}

/// Creates an array of these parts.
fn array_of<K: ByteKind, O: Offset>(
    rt: &(impl Abort + AllocGlobal),
    parts: Parts,
) -> ByteArray<K, O> {
    let offsets = frozen_offsets(rt.alloc(), parts.0).expect(rt, "offsets");
    let values = buffer_of(rt.alloc(), parts.1).expect(rt, "memory");
    let validity = frozen_mask(rt.alloc(), parts.2).expect(rt, "memory");
    let array = ByteArray::try_new(K::default_type(O::IS_LARGE), offsets, values, validity);
    array.expect(rt, "parts that fit")
}

/// Creates a builder of these parts.
fn builder_of<K: ByteKind, O: Offset>(
    rt: &(impl Abort + AllocGlobal),
    parts: Parts,
) -> MutableByteArray<K, O> {
    let offsets = offsets_of(rt.alloc(), parts.0).expect(rt, "offsets");
    let values = parts.1.to_vec(rt.alloc()).expect(rt, "memory");
    let validity = growing_mask(rt.alloc(), parts.2).expect(rt, "memory");
    let data_type = K::default_type(O::IS_LARGE);
    let builder = MutableByteArray::try_new(data_type, offsets, values, validity);
    builder.expect(rt, "parts that fit")
}

/// Creates a builder without nulls of these offsets and bytes.
fn values_of<K: ByteKind, O: Offset>(
    rt: &(impl Abort + AllocGlobal),
    parts: Parts,
) -> MutableByteValuesArray<K, O> {
    let offsets = offsets_of(rt.alloc(), parts.0).expect(rt, "offsets");
    let values = parts.1.to_vec(rt.alloc()).expect(rt, "memory");
    let builder = MutableByteValuesArray::try_new(K::default_type(O::IS_LARGE), offsets, values);
    builder.expect(rt, "parts that fit")
}
