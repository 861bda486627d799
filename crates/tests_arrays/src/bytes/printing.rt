//! The text of arrays of bytes and of text, and of their builders.
use super::*;
use arrow_memory::offset::Offsets;
use std::fmt::Display;

/// Compares what both forms of a value write, and drops it.
fn check<A: Debug + Display + Drop>(rt: &impl Abort, case: &str, value: A, expected: &str) {
    let debug = assert_text::debug(&value, expected);
    let display = assert_text::display(&value, expected);
    drop(value);
    debug.expect(rt, case);
    display.expect(rt, case);
}

/// A name, a text, and what an array of it prints.
#[rattlefmt::skip]
const QUOTED: &[(&str, &str, &str)] = &[
    ("no character", "", "Utf8Array[\"\"]"),
    ("an apostrophe", "it's", "Utf8Array[\"it's\"]"),
    ("a quote and a backslash", "\"\\", "Utf8Array[\"\\\"\\\\\"]"),
    ("controls with a letter", "a\tb\nc\rd\0", "Utf8Array[\"a\\tb\\nc\\rd\\0\"]"),
    ("other controls", "\u{1}\u{1f}\u{7f} ~", "Utf8Array[\"\\u{1}\\u{1f}\\u{7f} ~\"]"),
    ("beyond ASCII", "\u{80}\u{e9}\u{301}\u{200b}名😀", "Utf8Array[\"\u{80}\u{e9}\u{301}\u{200b}名😀\"]"),
];

#[test]
fn texts_are_written_as_they_are_but_for_quotes_backslashes_and_controls(rt: HostRuntime) {
    for (index, (case, text, expected)) in QUOTED.iter().enumerate() {
        let array = ByteArray::<Utf8, i32>::from_slice(rt.alloc(), [*text].as_slice());
        let array = array.expect(&rt, "memory");
        check(&rt, row(*case, index).as_str(), array, *expected);
    }
}

#[test]
fn an_extension_is_written_in_place_of_the_name(rt: HostRuntime) {
    let name = String::from_str(rt.alloc(), "na\"me").expect(&rt, "memory");
    let inner = Box::new(rt.alloc(), DataType::LargeBinary).expect(&rt, "memory");
    let data_type = DataType::Extension(name, inner, None);
    let offsets = frozen_offsets::<i64>(rt.alloc(), &[0, 1]).expect(&rt, "offsets");
    let bytes = buffer_of(rt.alloc(), b"a").expect(&rt, "memory");
    let array = ByteArray::<Binary, i64>::try_new(data_type, offsets, bytes, None);
    let array = array.expect(&rt, "an extension of bytes");
    let expected = "Extension(\"na\\\"me\", LargeBinary, None)[[97]]";
    check(&rt, "an extension of bytes", array, expected);
}

/// Creates a builder of two items with a mask, or with none if the text is `none`.
fn two_items<K: ByteKind, O: Offset>(
    rt: &(impl Abort + AllocGlobal),
    mask: &str,
) -> MutableByteArray<K, O> {
    let bytes = Vec::from_slice(rt.alloc(), "zh\u{e9}\"".as_bytes()).expect(rt, "memory");
    let mut offsets = Offsets::<O>::new(rt.alloc()).expect(rt, "memory");
    for len in [4, 1] {
        offsets.try_push_usize(len).expect(rt, "memory");
    }
    let mask = growing_mask(rt.alloc(), mask).expect(rt, "memory");
    let data_type = K::default_type(O::IS_LARGE);
    let builder = MutableByteArray::try_new(data_type, offsets, bytes, mask);
    builder.expect(rt, "parts that fit")
}

#[test]
fn slots_are_written_behind_the_name(rt: HostRuntime) {
    let text = two_items::<Utf8, i32>(&rt, "10")
        .freeze()
        .expect(&rt, "memory");
    check(&rt, "Utf8", text, "Utf8Array[\"zhé\", None]");
    let text = two_items::<Utf8, i64>(&rt, "none")
        .freeze()
        .expect(&rt, "memory");
    let expected = "LargeUtf8Array[\"zhé\", \"\\\"\"]";
    check(&rt, "LargeUtf8", text, expected);
    let bytes = two_items::<Binary, i32>(&rt, "10")
        .freeze()
        .expect(&rt, "memory");
    let expected = "BinaryArray[[122, 104, 195, 169], None]";
    check(&rt, "Binary", bytes, expected);
    let bytes = ByteArray::<Binary, i64>::default(rt.alloc()).expect(&rt, "memory");
    check(&rt, "LargeBinary", bytes, "LargeBinaryArray[]");
}

#[test]
fn builders_are_written_by_fields(rt: HostRuntime) {
    let expected = "MutableUtf8Array { values: MutableUtf8ValuesArray { data_type: LargeUtf8, \
        offsets: Offsets([0, 4, 5]), values: [122, 104, 195, 169, 34] }, validity: Some([0b______01]) }";
    let builder = two_items::<Utf8, i64>(&rt, "10");
    check(&rt, "text with a mask", builder, expected);
    let expected = "MutableBinaryArray { values: MutableBinaryValuesArray { data_type: Binary, \
        offsets: Offsets([0, 4, 5]), values: [122, 104, 195, 169, 34] }, validity: None }";
    let builder = two_items::<Binary, i32>(&rt, "none");
    check(&rt, "bytes without a mask", builder, expected);
    let mut builder = MutableByteValuesArray::<Utf8, i32>::new(rt.alloc()).expect(&rt, "memory");
    builder.push("b").expect(&rt, "memory");
    let expected =
        "MutableUtf8ValuesArray { data_type: Utf8, offsets: Offsets([0, 1]), values: [98] }";
    check(&rt, "text without nulls", builder, expected);
}
