//! Raw parts of bytes and of text: which are refused, and which of several faults is reported.
use super::*;

const PAST: &str = "offsets must not exceed the values length";

const END: &str = "the last offset must equal the values length";

const MASK: &str = "validity mask length must match the number of values";

const LEN: &str = "validity's length must be equal to the number of values";

const BINARY: &str =
    "BinaryArray can only be initialized with DataType::Binary or DataType::LargeBinary";

const UTF8: &str = "Utf8Array can only be initialized with DataType::Utf8 or DataType::LargeUtf8";

const BINARY_BUILDER: &str =
    "MutableBinaryValuesArray can only be initialized with DataType::Binary or DataType::LargeBinary";

const UTF8_BUILDER: &str =
    "MutableUtf8ValuesArray can only be initialized with DataType::Utf8 or DataType::LargeUtf8";

const MADE: &str = "made";

/// A name, which lists the faults; a data type, which is the `own`, that of the other `kind`, or that of offsets of
/// the other `width`; parts; and the expected answer.
type Row = (&'static str, &'static str, Parts, &'static str);

/// Returns the data type that a word names.
fn type_of<K: ByteKind, Other: ByteKind>(word: &str, is_large: bool) -> DataType {
    if word == "kind" {
        Other::default_type(is_large)
    } else {
        K::default_type(is_large == (word != "width"))
    }
}

/// Compares the answers to the parts of arrays.
fn check_arrays<O: Offset, K: ByteKind, Other: ByteKind>(
    rt: &(impl Abort + AllocGlobal),
    rows: &[Row],
    of_type: &str,
) {
    for (index, (case, word, parts, answer)) in rows.iter().enumerate() {
        let name = case_of::<K, O>(row(*case, index).as_str());
        let data_type = type_of::<K, Other>(*word, O::IS_LARGE);
        let came = tells(array_of::<K, O>(rt, data_type, *parts));
        check_answer(rt, name.as_str(), came, *answer, of_type);
    }
}

/// Compares the answers to the parts of builders, and of builders without nulls, which have no mask to refuse.
fn check_builders<O: Offset, K: ByteKind, Other: ByteKind>(
    rt: &(impl Abort + AllocGlobal),
    rows: &[Row],
    of_type: &str,
) {
    for (index, (case, word, parts, answer)) in rows.iter().enumerate() {
        let name = case_of::<K, O>(row(*case, index).as_str());
        let data_type = type_of::<K, Other>(*word, O::IS_LARGE);
        let came = tells(builder_of::<K, O>(rt, data_type, *parts));
        check_answer(rt, name.as_str(), came, *answer, of_type);
        let answer = if *answer == LEN { MADE } else { *answer };
        let data_type = type_of::<K, Other>(*word, O::IS_LARGE);
        let came = tells(values_of::<K, O>(rt, data_type, *parts));
        check_answer(rt, name.as_str(), came, answer, of_type);
    }
}

#[rattlefmt::skip]
const ARRAYS: &[Row] = &[
    ("bytes before no slot", "own", (&[2], b"999", "none"), MADE),
    ("no slot past the end", "own", (&[3], b"99", "none"), PAST),
    ("a slot past the end", "own", (&[1, 4], b"999", "none"), PAST),
    ("past the end, a long mask", "own", (&[1, 4], b"999", "11"), PAST),
    ("past the end, other kind", "kind", (&[1, 4], b"999", "none"), PAST),
    ("past the end, a long mask, other kind", "kind", (&[1, 4], b"999", "11"), PAST),
    ("a long mask, other kind", "kind", (&[1, 3], b"999", "11"), MASK),
    ("an empty mask, other width", "width", (&[1, 3], b"999", ""), MASK),
    ("a long mask", "own", (&[1, 3], b"999", "11"), MASK),
    ("other kind, a mask", "kind", (&[1, 3], b"999", "1"), TYPE),
    ("other kind, no mask", "kind", (&[1, 3], b"999", "none"), TYPE),
    ("other width", "width", (&[0, 0], b"", "none"), TYPE),
    ("no fault, a mask", "own", (&[1, 3], b"999", "1"), MADE),
    ("no fault, no mask", "own", (&[1, 3], b"999", "none"), MADE),
];

#[rattlefmt::skip]
const TEXT_ARRAYS: &[Row] = &[
    ("a cut in è", "own", (&[0, 1, 4], ACCENTS, "none"), NO_TEXT),
    ("half of é", "own", (&[1, 2], b"\xC3\xA9", "none"), NO_TEXT),
    ("a cut in 😀", "own", (&[0, 2, 4], FOUR, "none"), NO_TEXT),
    ("past the end, no text", "own", (&[0, 3], b"\xC3a", "none"), PAST),
    ("past the end, no text, a long mask, other kind", "kind", (&[0, 3], b"\xC3a", "11111"), PAST),
    ("no text, a long mask, other kind", "kind", (&[0, 2], b"\xC3a", "11111"), NO_TEXT),
    ("no text, a long mask", "own", (&[0, 2], b"\xC3a", "11111"), NO_TEXT),
    ("no text, other kind", "kind", (&[0, 2], b"\xC3a", "none"), NO_TEXT),
    ("no text, other width", "width", (&[0, 2], b"\xC3a", "0"), NO_TEXT),
];

#[test]
fn arrays_are_refused_by_their_first_fault(rt: HostRuntime) {
    for_each_offset! { check_arrays::<Binary, Utf8>, &rt, ARRAYS, BINARY }
    for_each_offset! { check_arrays::<Utf8, Binary>, &rt, ARRAYS, UTF8 }
    for_each_offset! { check_arrays::<Utf8, Binary>, &rt, TEXT_ARRAYS, UTF8 }
}

#[rattlefmt::skip]
const BUILDERS: &[Row] = &[
    ("an end before the last byte", "own", (&[0, 2], b"999", "none"), END),
    ("an end past the last byte", "own", (&[0, 4], b"999", "none"), END),
    ("wrong end, other kind, a long mask", "kind", (&[0, 2], b"999", "11"), END),
    ("wrong end behind a byte, other kind, a long mask", "kind", (&[1, 3], b"9999", "11"), END),
    ("wrong end, other width", "width", (&[1, 3], b"9999", "none"), END),
    ("wrong end, a long mask", "own", (&[1, 3], b"9999", "11"), END),
    ("other kind, a long mask", "kind", (&[0, 3], b"999", "11"), TYPE),
    ("other width, a long mask", "width", (&[1, 3], b"999", "11"), TYPE),
    ("other kind", "kind", (&[1, 3], b"999", "none"), TYPE),
    ("other kind behind a byte, a long mask", "kind", (&[1, 3], b"999", "11"), TYPE),
    ("a long mask behind a byte", "own", (&[1, 3], b"999", "11"), LEN),
    ("a long mask", "own", (&[0, 3], b"999", "11"), LEN),
    ("an empty mask", "own", (&[1, 3], b"999", ""), LEN),
    ("no fault, a mask", "own", (&[1, 3], b"999", "1"), MADE),
    ("bytes before no slot", "own", (&[3], b"999", "none"), MADE),
];

#[rattlefmt::skip]
const TEXT_BUILDERS: &[Row] = &[
    ("an end before the last byte", "own", (&[0, 1], b"a\xFF", "none"), END),
    ("bytes before and after the slots", "own", (&[1, 2, 3], b"\xFFab\xFF", "none"), END),
    ("an end past the last byte, no text", "own", (&[0, 3], b"\xC3a", "none"), END),
    ("wrong end, no text, other kind, a long mask", "kind", (&[0, 1], b"\xC3a", "11111"), END),
    ("a cut in è", "own", (&[0, 1, 4], ACCENTS, "none"), NO_TEXT),
    ("no text, other kind, a long mask", "kind", (&[0, 2], b"\xC3a", "11111"), NO_TEXT),
    ("no text, a long mask", "own", (&[0, 2], b"\xC3a", "11111"), NO_TEXT),
    ("no text, other width", "width", (&[0, 2], b"\xC3a", "none"), NO_TEXT),
    ("no text before a slot", "own", (&[1, 3], b"\xFFab", "0"), MADE),
    ("no text before two slots", "own", (&[1, 2, 3], b"\xFFab", "none"), MADE),
];

#[test]
fn builders_are_refused_by_their_first_fault(rt: HostRuntime) {
    for_each_offset! { check_builders::<Binary, Utf8>, &rt, BUILDERS, BINARY_BUILDER }
    for_each_offset! { check_builders::<Utf8, Binary>, &rt, BUILDERS, UTF8_BUILDER }
    for_each_offset! { check_builders::<Utf8, Binary>, &rt, TEXT_BUILDERS, UTF8_BUILDER }
}

/// Creates an extension of the default data type.
fn extension<K: ByteKind, O: Offset>(rt: &(impl Abort + AllocGlobal)) -> DataType {
    let name = String::from_str(rt.alloc(), "photo").expect(rt, "memory");
    let inner = Box::new(rt.alloc(), K::default_type(O::IS_LARGE)).expect(rt, "memory");
    DataType::Extension(name, inner, None)
}

/// Compares the data types of an array and of a builder that are made with an extension type.
fn check_extension<K: ByteKind, O: Offset>(rt: &(impl Abort + AllocGlobal)) {
    let expected = extension::<K, O>(rt);
    let array = array_of::<K, O>(rt, extension::<K, O>(rt), (&[0, 0], b"", "none"));
    let array = array.expect(rt, "parts that fit");
    let name = case_of::<K, O>("an array");
    assert_text::value(array.data_type(), &expected).expect(rt, name.as_str());
    drop(array);
    let builder = builder_of::<K, O>(rt, extension::<K, O>(rt), (&[0], b"", "none"));
    let builder = builder.expect(rt, "parts that fit");
    let name = case_of::<K, O>("a builder");
    assert_text::value(builder.data_type(), &expected).expect(rt, name.as_str());
    drop(builder);
    drop(expected);
}

#[test]
fn extensions_of_the_own_type_are_kept(rt: HostRuntime) {
    for_each_kind!(check_extension, &rt);
}
