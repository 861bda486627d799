//! Kernels of bytes and of text.
use crate::arrays::{
    Booleans, Items, NEGATIVE, TOO_GREAT, check_stored_items, row, stored_booleans, stored_items,
};
use arrow_byte_array::ByteArray;
use arrow_bytes::{Binary, ByteKind, Utf8};
use arrow_kernels::{
    concat_binary, concat_utf8, filter_binary, filter_utf8, take_binary, take_utf8,
};
use arrow_types::error::Error;
use arrow_types::offset::Offset;
use std::process::Abort;
use tests_support::Tiny;

/// Items of one, no and two letters, the second of which is null, with letters around them.
const THREE: Items = (&[2, 3, 3, 5], b"yyabbz", "101");

/// The offsets of seventy items of one byte.
#[rattlefmt::skip]
const SEVENTY: &[usize] = &[
    0, 1, 2, 3, 4, 5, 6, 7, 8, 9, 10, 11, 12, 13, 14, 15, 16, 17, 18, 19, 20, 21, 22, 23, 24, 25, 26, 27, 28, 29, 30,
    31, 32, 33, 34, 35, 36, 37, 38, 39, 40, 41, 42, 43, 44, 45, 46, 47, 48, 49, 50, 51, 52, 53, 54, 55, 56, 57, 58, 59,
    60, 61, 62, 63, 64, 65, 66, 67, 68, 69, 70,
];

/// A name, an array, a filter, and the slots that it keeps.
#[rattlefmt::skip]
const FILTERS: &[(&str, Items, Booleans, Items)] = &[
    ("a needless mask", THREE, ("101", "111"), (&[0, 1, 3], b"abb", "none")),
    ("a null of the array", THREE, ("011", "111"), (&[0, 0, 2], b"bb", "01")),
    ("nulls of the filter", THREE, ("111", "100"), (&[0, 1], b"a", "none")),
    ("no slot", THREE, ("000", "111"), (&[0], b"", "none")),
    (
        "items alone, in two words",
        (SEVENTY, b"abcdefghijabcdefghijabcdefghijabcdefghijabcdefghijabcdefghijabcdefghij", "none"),
        (
            "1010101010101010101010101010101010101010101010101010101010101010101010",
            "1111111111111111111111111111111111111111111111111111111111111111111111",
        ),
        (
            &[
                0, 1, 2, 3, 4, 5, 6, 7, 8, 9, 10, 11, 12, 13, 14, 15, 16, 17, 18, 19, 20, 21, 22, 23, 24, 25, 26, 27, 28,
                29, 30, 31, 32, 33, 34, 35,
            ],
            b"acegiacegiacegiacegiacegiacegiacegi",
            "none",
        ),
    ),
    (
        "runs, the second of which begins after a word",
        (SEVENTY, b"abcdefghijabcdefghijabcdefghijabcdefghijabcdefghijabcdefghijabcdefghij", "none"),
        (
            "1111111111000000000000000000000000000000000000000000000000000000011111",
            "1111111111111111111111111111111111111111111111111111111111111111111111",
        ),
        (&[0, 1, 2, 3, 4, 5, 6, 7, 8, 9, 10, 11, 12, 13, 14, 15], b"abcdefghijfghij", "none"),
    ),
];

/// Forty bytes, twice as many, and as many as `Tiny` can count.
const X40: &[u8] = b"xxxxxxxxxxxxxxxxxxxxxxxxxxxxxxxxxxxxxxxx";

const X80: &[u8] =
    b"xxxxxxxxxxxxxxxxxxxxxxxxxxxxxxxxxxxxxxxxxxxxxxxxxxxxxxxxxxxxxxxxxxxxxxxxxxxxxxxx";

const X100: &[u8] =
    b"xxxxxxxxxxxxxxxxxxxxxxxxxxxxxxxxxxxxxxxxxxxxxxxxxxxxxxxxxxxxxxxxxxxxxxxxxxxxxxxxxxxxxxxxxxxxxxxxxxxx";

const FORTY: Items = (&[0, 40], X40, "none");

/// A name, an array, keys, and the slots at them.
type Take = (&'static str, Items, &'static [i64], Result<Items, Error>);

#[rattlefmt::skip]
const TAKES: &[Take] = &[
    ("an item twice", THREE, &[2, 2, 0], Ok((&[0, 2, 4, 5], b"bbbba", "none"))),
    ("a null that stores a letter", (&[0, 1, 2], b"ab", "01"), &[0], Ok((&[0, 1], b"a", "0"))),
    ("80 bytes", FORTY, &[0, 0], Ok((&[0, 40, 80], X80, "none"))),
];

#[rattlefmt::skip]
const TINY_TAKES: &[Take] = &[
    ("120 bytes", FORTY, &[0, 0, 0], Err(Error::Overflow)),
    ("120 bytes, then a key of the length", FORTY, &[0, 0, 0, 1], Err(TOO_GREAT)),
    ("120 bytes, then a negative key", FORTY, &[0, 0, 0, -1], Err(NEGATIVE)),
];

/// An array, and the offset and length of a slice of it.
type Slice = (Items, usize, usize);

/// A name, slices, and their concatenation.
type Concatenation = (&'static str, &'static [Slice], Result<Items, Error>);

const TWENTY: Items = (&[0, 20], b"xxxxxxxxxxxxxxxxxxxx", "none");

#[rattlefmt::skip]
const CONCATENATIONS: &[Concatenation] = &[
    ("one array", &[(THREE, 0, 3)], Ok((&[0, 1, 1, 3], b"abb", "101"))),
    (
        "masks and none",
        &[(THREE, 1, 2), (THREE, 0, 1), ((&[0, 2], b"cd", "none"), 0, 1)],
        Ok((&[0, 0, 2, 3, 5], b"bbacd", "0111")),
    ),
    ("no null", &[(THREE, 0, 1), (THREE, 2, 1)], Ok((&[0, 1, 3], b"abb", "none"))),
    ("no slot", &[(THREE, 3, 0), (THREE, 0, 0)], Ok((&[0], b"", "none"))),
    ("100 bytes", &[(FORTY, 0, 1), (TWENTY, 0, 1), (FORTY, 0, 1)], Ok((&[0, 40, 60, 100], X100, "none"))),
    (
        "100 bytes, around no slot",
        &[(FORTY, 0, 1), (FORTY, 0, 1), (TWENTY, 1, 0), (TWENTY, 0, 1)],
        Ok((&[0, 40, 80, 100], X100, "none")),
    ),
];

#[rattlefmt::skip]
const TINY_CONCATENATIONS: &[Concatenation] = &[
    (
        "101 bytes",
        &[(FORTY, 0, 1), (TWENTY, 0, 1), (FORTY, 0, 1), ((&[3, 4], b"abcz", "none"), 0, 1)],
        Err(Error::Overflow),
    ),
    ("120 bytes", &[(FORTY, 0, 1), (FORTY, 0, 1), (FORTY, 0, 1)], Err(Error::Overflow)),
];

/// Filters bytes and texts over offsets whose name is `kind`.
fn check_filters<O: Offset>(rt: &(impl Abort + AllocGlobal), kind: &str) {
    for (index, (case, array, filter, expected)) in FILTERS.iter().enumerate() {
        let name = row("filters keep slots at true, Binary", kind, index, *case);
        let filter = stored_booleans(rt, *filter);
        let bytes = stored_items::<Binary, O>(rt, *array);
        let texts = stored_items::<Utf8, O>(rt, *array);
        assert!(rt; filter.len() == bytes.len() && filter.len() == texts.len());
        let kept = filter_binary(rt.alloc(), &bytes, &filter);
        check_stored_items(rt, name.as_str(), kept, Ok(*expected));
        drop(bytes);
        let name = row("filters keep slots at true, Utf8", kind, index, *case);
        let kept = filter_utf8(rt.alloc(), &texts, &filter);
        check_stored_items(rt, name.as_str(), kept, Ok(*expected));
        drop((texts, filter));
    }
}

/// Takes bytes and texts over offsets whose name is `kind`.
fn check_takes<O: Offset>(rt: &(impl Abort + AllocGlobal), kind: &str, cases: &[Take]) {
    for (index, (case, array, keys, expected)) in cases.iter().enumerate() {
        let name = row("takes keep slots at keys, Binary", kind, index, *case);
        let bytes = stored_items::<Binary, O>(rt, *array);
        let taken = take_binary(rt.alloc(), &bytes, *keys);
        check_stored_items(rt, name.as_str(), taken, *expected);
        drop(bytes);
        let name = row("takes keep slots at keys, Utf8", kind, index, *case);
        let texts = stored_items::<Utf8, O>(rt, *array);
        let taken = take_utf8(rt.alloc(), &texts, *keys);
        check_stored_items(rt, name.as_str(), taken, *expected);
        drop(texts);
    }
}

/// Creates slices of arrays.
fn slices_of<K: ByteKind, O: Offset>(
    rt: &(impl Abort + AllocGlobal),
    slices: &[Slice],
) -> Vec<ByteArray<K, O>> {
    let mut arrays = Vec::new(rt.alloc());
    for (array, offset, len) in slices {
        let array = stored_items::<K, O>(rt, *array);
        assert!(rt; *offset <= array.len() && *len <= array.len() - *offset);
        arrays
            .push(array.sliced(*offset, *len))
            .expect(rt, "memory");
    }
    arrays
}

/// Concatenates bytes and texts over offsets whose name is `kind`.
fn check_concatenations<O: Offset>(
    rt: &(impl Abort + AllocGlobal),
    kind: &str,
    cases: &[Concatenation],
) {
    for (index, (case, slices, expected)) in cases.iter().enumerate() {
        let name = row(
            "concatenations have all slots in order, Binary",
            kind,
            index,
            *case,
        );
        let arrays = slices_of::<Binary, O>(rt, *slices);
        assert!(rt; !arrays.is_empty());
        let joined = concat_binary(rt.alloc(), &arrays);
        check_stored_items(rt, name.as_str(), joined, *expected);
        drop(arrays);
        let name = row(
            "concatenations have all slots in order, Utf8",
            kind,
            index,
            *case,
        );
        let arrays = slices_of::<Utf8, O>(rt, *slices);
        assert!(rt; !arrays.is_empty());
        let joined = concat_utf8(rt.alloc(), &arrays);
        check_stored_items(rt, name.as_str(), joined, *expected);
        drop(arrays);
    }
}

#[test]
fn items_are_filtered_taken_and_concatenated(rt: HostRuntime) {
    check_filters::<i32>(&rt, "i32");
    check_filters::<i64>(&rt, "i64");
    check_filters::<Tiny>(&rt, "Tiny");
    check_takes::<i32>(&rt, "i32", TAKES);
    check_takes::<i64>(&rt, "i64", TAKES);
    check_takes::<Tiny>(&rt, "Tiny", TAKES);
    check_takes::<Tiny>(&rt, "Tiny past its greatest offset", TINY_TAKES);
    check_concatenations::<i32>(&rt, "i32", CONCATENATIONS);
    check_concatenations::<i64>(&rt, "i64", CONCATENATIONS);
    check_concatenations::<Tiny>(&rt, "Tiny", CONCATENATIONS);
    check_concatenations::<Tiny>(&rt, "Tiny past its greatest offset", TINY_CONCATENATIONS);
}
