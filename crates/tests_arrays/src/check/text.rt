//! Checks of texts: what is accepted, what is refused, and what it costs.
use crate::check::judges::{AnyBytes, AsciiBytes};
use arrow_check::cost::{TextBytes, TextCost};
use arrow_check::judge::Judge;
use arrow_check::text::{check_text, check_utf8};
use std::process::Abort;
use tests_support::{assert_text, frozen_offsets, offsets_of, row, row_of, tells};

const PAST: &str = "offsets must not exceed the values length";

const NO_TEXT: &str = "every text between two offsets must be UTF-8";

/// Bytes, and the indexes at which they can be cut into two texts.
const CHARACTERS: &[(&[u8], &[usize])] = &[
    (&[0x61, 0x62, 0x63], &[0, 1, 2, 3]),
    (&[0xC3, 0xA9, 0xC3, 0xA8], &[0, 2, 4]),
    (&[0xE2, 0x82, 0xAC, 0x61], &[0, 3, 4]),
    (&[0xF0, 0x9F, 0x98, 0x80], &[0, 4]),
    (&[0x61, 0xC3], &[]),
    (&[0xFF, 0x61], &[]),
    (&[0xED, 0xA0, 0x80], &[]),
    (&[0xF4, 0x90, 0x80, 0x80], &[]),
];

#[test]
fn each_item_is_text_by_itself(rt: HostRuntime) {
    for (index, (bytes, accepted)) in CHARACTERS.iter().enumerate() {
        for cut in 0..bytes.len() + 1 {
            let offsets = offsets_of::<i32>(rt.alloc(), [0, cut, bytes.len()].as_slice());
            let offsets = offsets.expect(&rt, "offsets");
            let mut text = TextBytes::new(*bytes, TextCost::new());
            let came = tells(check_utf8(offsets.as_slice(), &mut text));
            drop(offsets);
            let is_accepted = accepted.contains(&cut);
            let expected = if is_accepted { "made" } else { NO_TEXT };
            assert_text::value((*bytes, cut, came), (*bytes, cut, expected)).expect(
                &rt,
                row("bytes that are cut", index).as_str(),
            );
        }
    }
}

/// Offsets, bytes, the answer, and then the judge's counts: tests for ASCII, tests for text, looks.
type Case = (&'static [usize], &'static [u8], &'static str, [u64; 3]);

/// Compares the answer for a judge's bytes, and its counts then, with those of a row of its table.
fn check<J: Judge>(
    rt: &(impl Abort + AllocGlobal),
    by: &str,
    index: usize,
    judge: &mut J,
    case: Case,
) {
    let (numbers, bytes, expected, counts) = case;
    let offsets = offsets_of::<i32>(rt.alloc(), numbers).expect(rt, "offsets");
    let came = tells(check_text(offsets.as_slice(), judge));
    drop(offsets);
    let counted = [
        judge.ascii_tests(),
        judge.whole_tests(),
        judge.bytes_looked(),
    ];
    assert_text::value(
        (numbers, bytes, came, counted),
        (numbers, bytes, expected, counts),
    )
    .expect(rt, row_of("a check", by, index).as_str());
}

#[rattlefmt::skip]
const TEXTS: &[Case] = &[
    (&[0, 2, 4], &[0xC3, 0xA9, 0xC3, 0xA8], "made", [1, 1, 1]),
    (&[0, 1, 4], &[0xC3, 0xA9, 0xC3, 0xA8], NO_TEXT, [1, 1, 1]),
    (&[0, 1, 2], &[0xFF, 0x61], NO_TEXT, [1, 1, 0]),
    (&[0, 1, 2, 3], &[0x61, 0x62, 0x63], "made", [1, 0, 0]),
    (&[0, 4, 4], &[0xF0, 0x9F, 0x98, 0x80], "made", [1, 1, 0]),
    (&[1, 2], &[0xC3, 0xA9], NO_TEXT, [1, 1, 0]),
    (&[1, 1], &[0xC3, 0xA9], "made", [1, 0, 0]),
    (&[5], &[], PAST, [0, 0, 0]),
    (&[0], &[], "made", [1, 0, 0]),
    (&[0, 1], &[0x61, 0xFF], "made", [1, 0, 0]),
    (&[1, 2], &[0xFF, 0x61], "made", [1, 0, 0]),
    (&[0, 1, 3], &[0xFF, 0x61], PAST, [0, 0, 0]),
    (&[2, 2, 5, 5], &[0xFF, 0xC3, 0xE2, 0x82, 0xAC, 0x80], "made", [1, 1, 1]),
];

const BY_ASCII: &[Case] = &[
    (&[0, 2], &[0xC3, 0xA9], NO_TEXT, [1, 1, 0]),
    (&[0, 1, 2], &[0x61, 0x62], "made", [1, 0, 0]),
    (&[0, 1], &[0x61, 0xFF], "made", [1, 0, 0]),
    (&[3], &[0x61, 0xFF], PAST, [0, 0, 0]),
];

/// Each inner offset is looked at once.
const BY_ANY: &[Case] = &[
    (&[0, 1, 3, 3, 3], &[0xFF, 0xC3, 0x61], "made", [1, 1, 1]),
    (&[0, 1, 2, 3], &[0xFF, 0xBF, 0x61], NO_TEXT, [1, 1, 2]),
    (&[0, 1, 2, 3], &[0xFF, 0x7F, 0x80], NO_TEXT, [1, 1, 2]),
    (&[0, 1, 2, 3], &[0xFF, 0x7F, 0xC0], "made", [1, 1, 2]),
    (&[1, 3], &[0xFF, 0x80, 0x80], "made", [1, 1, 0]),
];

#[test]
fn a_check_costs_two_tests_and_a_look_at_each_inner_offset(rt: HostRuntime) {
    for (index, case) in TEXTS.iter().enumerate() {
        let mut judge = TextBytes::new(case.1, TextCost::new());
        check(&rt, "UTF-8", index, &mut judge, *case);
    }
    for (index, case) in BY_ASCII.iter().enumerate() {
        check(&rt, "ASCII", index, &mut AsciiBytes::new(case.1), *case);
    }
    for (index, case) in BY_ANY.iter().enumerate() {
        check(&rt, "any bytes", index, &mut AnyBytes::new(case.1), *case);
    }
}

/// A hundred texts of one character of two bytes.
const HUNDRED: &str =
    "éééééééééééééééééééééééééééééééééééééééééééééééééééééééééééééééééééééééééééééééééééééééééééééééééééé";

#[test]
fn a_window_is_tested_once_and_counts_go_on(rt: HostRuntime) {
    let mut numbers = Vec::new(rt.alloc());
    for i in 0..101 {
        numbers.push(2 * i).expect(&rt, "memory");
    }
    let offsets = offsets_of::<i32>(rt.alloc(), numbers.as_slice());
    drop(numbers);
    let offsets = offsets.expect(&rt, "offsets");
    let mut cost = TextCost::new();
    for (case, expected) in [
        ("the first check", [1, 1, 99]),
        ("the second check", [2, 2, 198]),
    ] {
        let mut text = TextBytes::new(HUNDRED.as_bytes(), cost);
        let answer = tells(check_text(offsets.as_slice(), &mut text));
        cost = text.cost();
        let counts = [cost.ascii_tests(), cost.whole_tests(), cost.bytes_looked()];
        assert_text::value((answer, counts), ("made", expected)).expect(&rt, case);
    }
    drop(offsets);
}

/// Offsets over the bytes of two texts, and the answer.
const FROZEN: &[(&[usize], &str)] = &[(&[0, 2, 4], "made"), (&[0, 1, 4], NO_TEXT), (&[0, 5], PAST)];

#[test]
fn frozen_offsets_are_checked(rt: HostRuntime) {
    for (index, (numbers, expected)) in FROZEN.iter().enumerate() {
        let offsets = frozen_offsets::<i64>(rt.alloc(), *numbers).expect(&rt, "offsets");
        let mut text = TextBytes::new("éè".as_bytes(), TextCost::new());
        let came = tells(check_text(offsets.buffer().as_slice(), &mut text));
        drop(offsets);
        let name = row("two texts", index);
        assert_text::value((*numbers, came), (*numbers, *expected)).expect(&rt, name.as_str());
    }
}
