//! Operations on the marks of bitmaps. Expected answers were worked out by hand.
use crate::bitmap::{check, cut, pushed};
use arrow_bitmap::{Bitmap, MutableBitmap, and, not, or};
use std::process::Abort;
use tests_support::{Text, assert_text, row, row_of};

/// Creates the bitmap of a text as a slice, with set marks before and after it.
fn sliced(rt: &(impl Abort + AllocGlobal), offset: usize, text: &str) -> Bitmap {
    let mut marks = MutableBitmap::new(rt.alloc());
    marks.extend_constant(offset, true).expect(rt, "memory");
    let inner = pushed(rt, text);
    marks.extend_from_bitmap(&inner).expect(rt, "memory");
    drop(inner);
    marks.push(true).expect(rt, "memory");
    let mut bitmap = marks.freeze().expect(rt, "memory");
    cut(rt, &mut bitmap, offset, text.len());
    bitmap
}

/// Compares the marks of a bitmap, and the number of clear ones, with a text, and drops it.
fn check_answer(rt: &impl Abort, case: &str, bitmap: Bitmap, expected: &str) {
    check(rt, case, bitmap.iter(), expected);
    let mut clear = 0_usize;
    for mark in expected.as_bytes() {
        clear = clear.saturating_add(usize::from(*mark == b'0'));
    }
    assert_text::value(bitmap.unset_bits(), clear).expect(rt, case);
    drop(bitmap);
}

/// Two lists of marks, and the expected answers of `and`, `or`, and `not` of the first.
const COMBINED: &[[&str; 5]] = &[
    ["", "", "", "", ""],
    ["1100", "1010", "1000", "1110", "0011"],
    ["11110000", "10101010", "10100000", "11111010", "00001111"],
    [
        "1111000011",
        "1010101010",
        "1010000010",
        "1111101011",
        "0000111100",
    ],
    [
        "11110000111100001111",
        "10101010101010101010",
        "10100000101000001010",
        "11111010111110101111",
        "00001111000011110000",
    ],
];

/// Compares the answers of the operations on slices that begin at these indexes.
fn check_from(
    rt: &(impl Abort + AllocGlobal),
    index: usize,
    (offset, other): (usize, usize),
    texts: &[&str; 5],
) {
    let first = sliced(rt, offset, texts[0]);
    let second = sliced(rt, other, texts[1]);
    assert!(rt; first.len() == second.len());
    let both = and(rt.alloc(), &first, &second).expect(rt, "memory");
    let either = or(rt.alloc(), &first, &second).expect(rt, "memory");
    drop(second);
    let none = not(rt.alloc(), &first).expect(rt, "memory");
    drop(first);
    let starts = Text::of(format_args!("from {offset} and {other}"));
    check_answer(
        rt,
        row_of("and", starts.as_str(), index).as_str(),
        both,
        texts[2],
    );
    check_answer(
        rt,
        row_of("or", starts.as_str(), index).as_str(),
        either,
        texts[3],
    );
    check_answer(
        rt,
        row_of("not", starts.as_str(), index).as_str(),
        none,
        texts[4],
    );
}

/// The indexes at which slices of the two lists begin.
const STARTS: &[(usize, usize)] = &[(0, 0), (3, 0), (0, 5), (3, 5), (8, 13)];

#[test]
fn marks_are_combined_from_any_index(rt: HostRuntime) {
    for (index, texts) in COMBINED.iter().enumerate() {
        for starts in STARTS {
            check_from(&rt, index, *starts, texts);
        }
    }
}

/// Creates a bitmap of `len` marks of a word that is repeated, from one of its marks on.
fn repeated(rt: &(impl Abort + AllocGlobal), word: u64, offset: usize, len: usize) -> Bitmap {
    let mut marks = MutableBitmap::new(rt.alloc());
    for _ in 0..offset.saturating_add(len) / 64 + 1 {
        marks.extend_from_word(word, 64).expect(rt, "memory");
    }
    let mut bitmap = marks.freeze().expect(rt, "memory");
    cut(rt, &mut bitmap, offset, len);
    bitmap
}

/// Compares the marks of a bitmap with a word that is repeated, and the number of clear ones, and drops it.
fn check_words(rt: &impl Abort, case: &str, bitmap: Bitmap, word: u64, clear: usize) {
    assert_text::value(bitmap.unset_bits(), clear).expect(rt, case);
    for index in 0..bitmap.len() / 64 {
        assert_text::value((index, bitmap.word(64 * index)), (index, word)).expect(rt, case);
    }
    drop(bitmap);
}

/// Where slices of two lists of marks begin, how many marks they have, and how many of the answers of `and` and of `or`
/// are clear. The lists repeat the marks 00001111 and 01010101.
const LONG: &[[usize; 5]] = &[
    [0, 0, 512, 384, 128],
    [8, 16, 2_048, 1_536, 512],
    [0, 0, 2_051, 1_539, 514],
    [0, 8, 4_600, 3_450, 1_150],
    [0, 0, 66_048, 49_536, 16_512],
    [3, 5, 512, 384, 128],
    [3, 5, 520, 390, 130],
    [3, 5, 2_048, 1_536, 512],
    [3, 5, 4_600, 3_450, 1_150],
    [3, 5, 66_048, 49_536, 16_512],
];

#[test]
fn long_lists_of_marks_are_combined_and_counted(rt: HostRuntime) {
    for (index, [offset, other, len, clear_in_both, clear_in_either]) in LONG.iter().enumerate() {
        let first = repeated(&rt, 0xF0F0_F0F0_F0F0_F0F0, *offset, *len);
        let second = repeated(&rt, 0xAAAA_AAAA_AAAA_AAAA, *other, *len);
        assert!(&rt; first.len() == second.len());
        let both = and(rt.alloc(), &first, &second).expect(&rt, "memory");
        let either = or(rt.alloc(), &first, &second).expect(&rt, "memory");
        drop(first);
        drop(second);
        // From offsets 3 and 5 the lists repeat 01111000 and 10101010.
        let (set_in_both, set_in_either) = if *offset == 3 {
            (0x1414_1414_1414_1414, 0x5F5F_5F5F_5F5F_5F5F)
        } else {
            (0xA0A0_A0A0_A0A0_A0A0, 0xFAFA_FAFA_FAFA_FAFA)
        };
        check_words(
            &rt,
            row("and", index).as_str(),
            both,
            set_in_both,
            *clear_in_both,
        );
        check_words(
            &rt,
            row("or", index).as_str(),
            either,
            set_in_either,
            *clear_in_either,
        );
    }
}
