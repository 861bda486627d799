//! Every boundary of Unicode's table of characters (Unicode Standard, Table 3-7), at every index of a window.
use arrow_check::cost::{TextBytes, TextCost};
use arrow_check::text::check_utf8;
use std::process::Abort;
use tests_support::{assert_text, offsets_of};

/// The rows of the table: the least and the greatest of each byte.
const ROWS: [&[(u8, u8)]; 9] = [
    &[(0x00, 0x7F)],
    &[(0xC2, 0xDF), (0x80, 0xBF)],
    &[(0xE0, 0xE0), (0xA0, 0xBF), (0x80, 0xBF)],
    &[(0xE1, 0xEC), (0x80, 0xBF), (0x80, 0xBF)],
    &[(0xED, 0xED), (0x80, 0x9F), (0x80, 0xBF)],
    &[(0xEE, 0xEF), (0x80, 0xBF), (0x80, 0xBF)],
    &[(0xF0, 0xF0), (0x90, 0xBF), (0x80, 0xBF), (0x80, 0xBF)],
    &[(0xF1, 0xF3), (0x80, 0xBF), (0x80, 0xBF), (0x80, 0xBF)],
    &[(0xF4, 0xF4), (0x80, 0x8F), (0x80, 0xBF), (0x80, 0xBF)],
];

/// Returns the bytes after the first character, or `None` if no character begins them.
fn after_character(bytes: &[u8]) -> Option<&[u8]> {
    for row in ROWS {
        let mut is_first = row.len() <= bytes.len();
        for (range, byte) in row.iter().zip(bytes) {
            is_first &= range.0 <= *byte && *byte <= range.1;
        }
        if is_first {
            return bytes.get(row.len()..);
        }
    }
    None
}

/// Returns whether the bytes between two indexes are characters, one after the other.
fn is_text_between(bytes: &[u8], start: usize, end: usize) -> bool {
    let Some(mut rest) = bytes.get(start..end) else {
        return false;
    };
    for _ in start..end {
        match after_character(rest) {
            Some(after) => rest = after,
            None => return rest.is_empty(),
        }
    }
    rest.is_empty()
}

/// Creates bytes at the boundaries of a row, each of which is chosen by two bits of a number, between ASCII
/// neighbours, with bytes before and after that are no text.
fn around(
    rt: &(impl Abort + AllocGlobal),
    row: &[(u8, u8)],
    choice: usize,
    before: usize,
) -> Vec<u8> {
    let mut bytes = Vec::new(rt.alloc());
    bytes.push(0xFF).expect(rt, "memory");
    let len = before.saturating_add(1);
    bytes.resize(len, 0x61).expect(rt, "memory");
    let mut choice = choice;
    for (least, greatest) in row {
        let byte = match choice % 4 {
            0 => least.saturating_sub(1),
            1 => *least,
            2 => *greatest,
            _ => greatest.saturating_add(1),
        };
        bytes.push(byte).expect(rt, "memory");
        choice /= 4;
    }
    bytes.push(0x7F).expect(rt, "memory");
    bytes.push(0x80).expect(rt, "memory");
    bytes
}

/// Compares whether two items, one after the other, are accepted with whether each is text by itself.
fn check_cut(rt: &(impl Abort + AllocGlobal), bytes: &[u8], [start, cut, end]: [usize; 3]) {
    let offsets = offsets_of::<i32>(rt.alloc(), [start, cut, end].as_slice());
    let offsets = offsets.expect(rt, "offsets");
    let mut text = TextBytes::new(bytes, TextCost::new());
    let came = check_utf8(offsets.as_slice(), &mut text).is_ok();
    drop(offsets);
    let expected = is_text_between(bytes, start, cut) & is_text_between(bytes, cut, end);
    // Texts are made of a failure alone, since there are many windows.
    if came != expected {
        let (first, second) = (bytes.get(start..cut), bytes.get(cut..end));
        assert_text::value((first, second, came), (first, second, expected)).expect(
            rt,
            "two items",
        );
    }
}

/// Checks the boundaries of a row that a number chooses after `before` bytes of ASCII: all windows that begin at one of
/// the first `starts` of these, cut at and ended at each byte after them.
fn check_after(
    rt: &(impl Abort + AllocGlobal),
    row: &[(u8, u8)],
    choice: usize,
    before: usize,
    starts: usize,
) {
    let bytes = around(rt, row, choice, before);
    for cut in before..bytes.len() {
        for start in 1..cut.min(starts).saturating_add(1) {
            for end in cut..bytes.len() {
                check_cut(rt, bytes.as_slice(), [start, cut, end]);
            }
        }
    }
    drop(bytes);
}

#[test]
fn each_boundary_of_the_table(rt: HostRuntime) {
    for row in ROWS.iter() {
        for choice in 0..256_usize {
            if choice >> (2 * row.len()).min(63) == 0 {
                check_after(&rt, *row, choice, 1, usize::MAX);
            }
        }
    }
}

#[test]
fn characters_across_blocks_of_64_bytes_and_long_parts(rt: HostRuntime) {
    for before in 61..64_usize {
        for row in ROWS.iter() {
            for choice in 0..256_usize {
                // At most one byte isn't the least of its range.
                let others = choice ^ 0b01_01_01_01;
                let differing = (others | others >> 1) & 0b01_01_01_01;
                if differing & differing.saturating_sub(1) == 0 {
                    check_after(&rt, *row, choice, before, 1);
                }
            }
        }
    }
    for before in 8189..8192_usize {
        check_after(&rt, ROWS[1], 0b01_01_01_01, before, 1);
        check_after(&rt, ROWS[7], 0b01_01_01_01, before, 1);
    }
}
