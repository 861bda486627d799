//! Ranges of arrays that builders take: bytes, those of null slots included, and marks; and the overflow past the
//! greatest offset, which is 100 for `Tiny`.
use super::*;
use tests_support::{Tiny, tells};

/// A name, a builder, an array, the offset and length of a slice of it and of a range of that, and the builder then.
type Case = (&'static str, Parts, Parts, [usize; 2], [usize; 2], Parts);

/// Writes a table of such cases, as `name: builder + array, slice, range => expected builder;`.
macro_rules! cases {
    ($($name:literal: $first:tt + $second:tt, $slice:tt, $range:tt => $joined:tt;)*) => {
        &[$(($name, $first, $second, $slice, $range, $joined)),*]
    };
}

/// The offsets of eleven items of a byte.
const ELEVEN: &[usize] = &[0, 1, 2, 3, 4, 5, 6, 7, 8, 9, 10, 11];

const UNMASKED: Parts = (ELEVEN, b"abcdefghijk", "none");

/// The nulls store `b`, `f` and `j`.
const MASKED: Parts = (ELEVEN, b"abcdefghijk", "10111011101");

/// Only the bytes of the range are appended. A mask is held if either side holds one, also if no slot of the range is
/// null or the range is empty.
const CASES: &[Case] = cases! {
    "a mask and bytes around, after nothing":
        NOTHING + AROUND, [0, 3], [0, 3] => (&[0, 1, 1, 3], b"\x01\x04\x04", "101");
    "one slot of a slice, after masked slots and another byte":
        (&[1, 2, 3], b"\xFFyz", "10") + AROUND, [1, 2], [1, 1] => (&[1, 2, 3, 5], b"\xFFyz\x04\x04", "101");
    "nothing of a masked array":
        (&[1, 2, 3], b"\xFFyz", "none") + AROUND, [0, 3], [3, 0] => (&[1, 2, 3], b"\xFFyz", "11");
    "no mask on either side":
        ITEMS + UNMASKED, [0, 11], [3, 4] => (&[0, 2, 2, 7, 8, 9, 10, 11], b"\xC3\xA9theredefg", "none");
    "a mask in the builder":
        SLOTS + UNMASKED, [0, 11], [3, 4] => (&[0, 2, 2, 7, 8, 9, 10, 11], b"\xC3\xA9theredefg", "1011111");
    "a mask in the array":
        ITEMS + MASKED, [1, 9], [4, 5] => (&[0, 2, 2, 7, 8, 9, 10, 11, 12], b"\xC3\xA9therefghij", "11101110");
    "masks on both sides, past a byte":
        SLOTS + MASKED, [0, 11], [2, 9]
            => (&[0, 2, 2, 7, 8, 9, 10, 11, 12, 13, 14, 15, 16], b"\xC3\xA9therecdefghijk", "101111011101");
    "nothing, no mask":
        NOTHING + UNMASKED, [4, 0], [0, 0] => NOTHING;
};

/// Items of forty bytes, one byte and thirty, between ten bytes that do not count.
const LONG: Parts = (&[5, 45, 46, 76], &[7; 81], "101");

/// Ranges that end at the greatest offset, or before it. Other slots of the array do not count.
const CASES_THAT_FIT: &[Case] = cases! {
    "at the greatest":
        (&[0, 60], &[7; 60], "none") + LONG, [0, 3], [0, 1] => (&[0, 60, 100], &[7; 100], "11");
    "the last slot of a slice":
        (&[30, 60], &[7; 60], "0") + LONG, [1, 2], [1, 1] => (&[30, 60, 90], &[7; 90], "01");
    "nothing after the greatest":
        (&[100], &[7; 100], "none") + LONG, [0, 3], [2, 0] => (&[100], &[7; 100], "");
};

/// Ranges that end past the greatest offset, which leave the builder unchanged.
const CASES_THAT_OVERFLOW: &[Case] = cases! {
    "one past the greatest":
        (&[0, 60], &[7; 60], "none") + LONG, [0, 3], [0, 2] => (&[0, 60], &[7; 60], "none");
    "a byte after the greatest":
        (&[100], &[7; 100], "none") + LONG, [0, 3], [1, 1] => (&[100], &[7; 100], "none");
};

/// Appends a range of an array, and compares what was answered and the builder.
fn check_case<K: ByteKind, O: Offset>(
    rt: &(impl Abort + AllocGlobal),
    index: usize,
    case: &Case,
    answer: &str,
) {
    let (name, first, second, slice, range, joined) = *case;
    let name = row(name, index);
    let (start, count, offset, len) = (slice[0], slice[1], range[0], range[1]);
    let array: ByteArray<K, O> = array_of(rt, second);
    assert!(rt; start <= array.len() && count <= array.len() - start);
    let array = array.sliced(start, count);
    let mut builder: MutableByteArray<K, O> = builder_of(rt, first);
    assert!(rt; offset <= array.len() && len <= array.len() - offset);
    let came = tells(builder.extend_from_array(&array, offset, len));
    drop(array);
    assert_text::value(came, answer).expect(rt, case_of::<K, O>(name.as_str()).as_str());
    check_builder(rt, name.as_str(), Ok(builder), joined);
}

#[test]
fn ranges_of_arrays_are_appended_and_end_at_the_greatest_offset(rt: HostRuntime) {
    for (index, case) in CASES.iter().enumerate() {
        for_all_kinds!(check_case, &rt, index, case, "made");
    }
    for (index, case) in CASES_THAT_FIT.iter().enumerate() {
        check_case::<Binary, Tiny>(&rt, index, case, "made");
        check_case::<Utf8, Tiny>(&rt, index, case, "made");
    }
    for (index, case) in CASES_THAT_OVERFLOW.iter().enumerate() {
        check_case::<Binary, Tiny>(&rt, index, case, "overflow");
        check_case::<Utf8, Tiny>(&rt, index, case, "overflow");
    }
}
