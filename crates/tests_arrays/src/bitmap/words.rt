//! Marks as words. The nine bytes below are the number 0xff_efcd_ab89_6745_2301, of which the word from index p is the
//! 64 bits above the lowest p.
use crate::bitmap::{check, cut};
use arrow_bitmap::{Bitmap, MutableBitmap};
use tests_support::{assert_text, row};

/// A name, the slice of the 72 marks, and the index and the bits of a word of it.
const WORDS: &[(&str, usize, usize, usize, u64)] = &[
    ("at the first mark", 0, 72, 0, 0xefcd_ab89_6745_2301),
    ("at the second mark", 0, 72, 1, 0xf7e6_d5c4_b3a2_9180),
    ("inside a byte", 0, 72, 4, 0xfefc_dab8_9674_5230),
    ("up to the end", 0, 72, 8, 0xffef_cdab_8967_4523),
    ("at the first of a slice", 4, 68, 0, 0xfefc_dab8_9674_5230),
    ("up to the end of a slice", 4, 68, 4, 0xffef_cdab_8967_4523),
];

#[test]
fn words_are_read_from_any_index(rt: HostRuntime) {
    for (at, (case, offset, len, index, word)) in WORDS.iter().enumerate() {
        let bytes = [0x01, 0x23, 0x45, 0x67, 0x89, 0xab, 0xcd, 0xef, 0xff];
        let bytes = bytes.to_vec(rt.alloc()).expect(&rt, "memory");
        let mut marks = Bitmap::try_new(bytes, 72).expect(&rt, "bits for all marks");
        cut(&rt, &mut marks, *offset, *len);
        assert!(rt; marks.len() >= 64 && *index <= marks.len() - 64);
        let came = marks.word(*index);
        drop(marks);
        assert_text::value(came, *word).expect(&rt, row(*case, at).as_str());
    }
}

#[test]
fn blocks_are_the_words_of_512_marks(rt: HostRuntime) {
    for (at, index) in [0, 1, 8, 15, 64].iter().enumerate() {
        let mut bytes = Vec::new(rt.alloc());
        for i in 0..72u8 {
            bytes.push(i.wrapping_mul(37)).expect(&rt, "memory");
        }
        let marks = Bitmap::try_new(bytes, 576).expect(&rt, "bits for all marks");
        assert!(rt; marks.len() == 576, "all marks");
        let words = marks.block(*index).to_array();
        for i in 0..8 {
            assert!(rt;
                index + 64 * i + 64 <= marks.len(),
                "a word within the marks"
            );
            assert_text::value((i, words[i]), (i, marks.word(index + 64 * i))).expect(
                &rt,
                row("a word of a block", at).as_str(),
            );
        }
        drop(marks);
    }
}

/// A name, words and how many of their first bits are appended, and the marks, with a set one after them.
const APPENDED: &[(&str, &[(u64, usize)], &str)] = &[
    ("none", &[], "1"),
    (
        "parts of a byte",
        &[(0xff, 0), (0x05, 3), (0x00, 2), (0xff, 0), (0x02, 2)],
        "10100011",
    ),
    (
        "up to a border",
        &[(u64::MAX, 63), (0x1, 1), (0x8000_0000_0000_0001, 64)],
        "111111111111111111111111111111111111111111111111111111111111111110000000000000000000000000000000000000000000000000000000000000011",
    ),
    (
        "over a border",
        &[(0x0, 5), (u64::MAX, 64), (0xfe, 2)],
        "000001111111111111111111111111111111111111111111111111111111111111111011",
    ),
];

#[test]
fn words_are_appended_after_any_mark(rt: HostRuntime) {
    for (index, (case, words, expected)) in APPENDED.iter().enumerate() {
        let mut marks = MutableBitmap::new(rt.alloc());
        for (word, count) in *words {
            assert!(rt; *count <= 64);
            marks.extend_from_word(*word, *count).expect(&rt, "memory");
        }
        marks.push(true).expect(&rt, "memory");
        check(&rt, row(*case, index).as_str(), marks.iter(), *expected);
        drop(marks);
    }
}
