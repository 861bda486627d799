//! Text: no item is other than UTF-8, and what the test of it costs.
use super::*;
use arrow_check::cost::TextCost;
use arrow_utf8::{MutableUtf8Array, MutableUtf8ValuesArray, Utf8Array};
use tests_support::{row_of, tells};

const PAST: &str = "offsets must not exceed the values length";

const END: &str = "the last offset must equal the values length";

const NO_TEXT: &str = "every text between two offsets must be UTF-8";

/// A name, bytes, and the places at which they can be cut into two texts.
type Characters = (&'static str, &'static [u8], &'static [usize]);

const CHARACTERS: &[Characters] = &[
    ("one byte each", &[0x61, 0x62, 0x63], &[0, 1, 2, 3]),
    ("two bytes each", &[0xC3, 0xA9, 0xC3, 0xA8], &[0, 2, 4]),
    ("three bytes and one", &[0xE2, 0x82, 0xAC, 0x61], &[0, 3, 4]),
    ("four bytes", &[0xF0, 0x9F, 0x98, 0x80], &[0, 4]),
    ("a first byte alone", &[0x61, 0xC3], &[]),
    ("a byte of no character", &[0xFF, 0x61], &[]),
    ("a surrogate", &[0xED, 0xA0, 0x80], &[]),
    ("past the last character", &[0xF4, 0x90, 0x80, 0x80], &[]),
];

/// Cuts bytes at each place, and compares what is returned; all bytes are tested once at most, and one is looked at.
fn check_cuts<O: Offset>(rt: &(impl Abort + AllocGlobal), characters: &Characters) {
    let (case, bytes, accepted) = *characters;
    for k in 0..bytes.len() + 1 {
        let (mut cost, data_type) = (TextCost::new(), Utf8::default_type(O::IS_LARGE));
        let offsets = frozen_offsets::<O>(rt.alloc(), [0, k, bytes.len()].as_slice());
        let offsets = offsets.expect(rt, "offsets");
        let values = buffer_of(rt.alloc(), bytes).expect(rt, "memory");
        let answer = Utf8Array::try_new_counted(data_type, offsets, values, None, &mut cost);
        let expected = if accepted.contains(&k) {
            "made"
        } else {
            NO_TEXT
        };
        let tests = (cost.ascii_tests().max(1), cost.whole_tests().max(1));
        let came = (tells(answer), tests, cost.bytes_looked().max(1));
        let name = Text::of(format_args!("{case}, cut at {k} ({})", offset_name::<O>()));
        assert_text::value(came, (expected, (1, 1), 1)).expect(rt, name.as_str());
    }
}

#[test]
fn each_slot_is_text_by_itself(rt: HostRuntime) {
    for characters in CHARACTERS {
        for_both_widths!(check_cuts, &rt, characters);
    }
}

/// The answer to offsets and bytes, and how many tests for ASCII, tests for UTF-8, and bytes looked at it took.
type Answer = (&'static str, [u64; 3]);

/// A name, offsets and bytes, and the expected answers of an array and of a builder.
type Cost = (
    &'static str,
    &'static [usize],
    &'static [u8],
    Answer,
    Answer,
);

#[rattlefmt::skip]
const COSTS: &[Cost] = &[
    ("é, è", &[0, 2, 4], b"\xC3\xA9\xC3\xA8", ("made", [1, 1, 1]), ("made", [1, 1, 1])),
    ("a, b, c", &[0, 1, 2, 3], b"abc", ("made", [1, 0, 0]), ("made", [1, 0, 0])),
    ("U+1F600", &[0, 4, 4], b"\xF0\x9F\x98\x80", ("made", [1, 1, 0]), ("made", [1, 1, 0])),
    ("half of é", &[1, 2], b"\xC3\xA9", (NO_TEXT, [1, 1, 0]), (NO_TEXT, [1, 1, 0])),
    ("none in é", &[1, 1], b"\xC3\xA9", ("made", [1, 0, 0]), (END, [0, 0, 0])),
    ("no item, no byte", &[5], b"", (PAST, [0, 0, 0]), (END, [0, 0, 0])),
];

/// Compares the answers and costs of an array and of builders with and without nulls.
fn check_costs<O: Offset>(rt: &(impl Abort + AllocGlobal), index: usize, expected: &Cost) {
    let (case, numbers, bytes, of_array, of_builders) = *expected;
    let name = row_of(case, offset_name::<O>(), index);
    macro_rules! check_answer_and_cost {
        ($new:path; $offsets:ident, $values:expr, [$($mask:expr)?] => $expected:ident) => {{
            let (mut cost, data_type) = (TextCost::new(), Utf8::default_type(O::IS_LARGE));
            let offsets = $offsets::<O>(rt.alloc(), numbers).expect(rt, "offsets");
            let values = $values.expect(rt, "memory");
            let answer = tells($new(data_type, offsets, values, $($mask,)? &mut cost));
            let counts = [cost.ascii_tests(), cost.whole_tests(), cost.bytes_looked()];
            let (call, came) = (stringify!($new), (answer, counts));
            assert_text::value((call, came), (call, $expected)).expect(rt, name.as_str());
        }};
    }
    check_answer_and_cost! { Utf8Array::try_new_counted; frozen_offsets, buffer_of(rt.alloc(), bytes), [None] => of_array }
    check_answer_and_cost! { MutableUtf8Array::try_new_counted; offsets_of, bytes.to_vec(rt.alloc()), [None] => of_builders }
    check_answer_and_cost! { MutableUtf8ValuesArray::try_new_counted; offsets_of, bytes.to_vec(rt.alloc()), [] => of_builders }
}

#[test]
fn tests_of_text_are_counted(rt: HostRuntime) {
    for (index, expected) in COSTS.iter().enumerate() {
        for_both_widths!(check_costs, &rt, index, expected);
    }
}
