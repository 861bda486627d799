//! Places at which offsets fall and texts are none.
use arrow_check::places::{first_falling_offset, first_unfit_text};
use arrow_types::offset::Offset;
use std::process::Abort;
use tests_support::{assert_text, buffer_of, frozen_offsets, offset_name, row_of};

/// A name, offsets, and the first that falls.
const FALLS: &[(&str, &[i64], Option<usize>)] = &[
    ("none", &[], None),
    ("one", &[7], None),
    ("equal ones", &[0, 3, 3, 9], None),
    ("the second", &[3, 2, 9, 1], Some(1)),
    ("the last", &[0, 3, 3, 2], Some(3)),
    ("a negative first", &[-1, 0], Some(0)),
    ("a negative one later", &[0, 5, -5], Some(2)),
    ("not the second of two falls", &[0, 5, 4, 3], Some(2)),
];

#[test]
fn the_first_offset_that_falls_is_found(rt: HostRuntime) {
    for (index, (case, offsets, expected)) in FALLS.iter().enumerate() {
        let wide = row_of(*case, "i64", index);
        assert_text::value(first_falling_offset(*offsets), *expected).expect(&rt, wide.as_str());
        let mut narrow = Vec::new(rt.alloc());
        for offset in *offsets {
            let offset = i32::try_from(*offset).expect(&rt, "32 bits");
            narrow.push(offset).expect(&rt, "memory");
        }
        let came = first_falling_offset(narrow.as_slice());
        drop(narrow);
        let narrow = row_of(*case, "i32", index);
        assert_text::value(came, *expected).expect(&rt, narrow.as_str());
    }
}

/// A name, offsets, bytes, and the first slot that is not UTF-8.
const UNFIT: &[(&str, &[usize], &[u8], Option<usize>)] = &[
    ("no slot", &[2], b"a\xff", None),
    ("texts", &[0, 1, 3, 3], b"a\xc3\xa9", None),
    ("a character cut in two", &[0, 2, 3], b"a\xc3\xa9", Some(0)),
    ("the second half of one", &[0, 1, 1, 2], b"a\xa9", Some(2)),
    ("the second of three", &[0, 1, 2, 3], b"a\xff\xff", Some(1)),
    ("bytes before the first slot", &[1, 2], b"\xffa", None),
    ("bytes after the last slot", &[0, 1], b"a\xff", None),
    ("a surrogate", &[0, 0, 3], b"\xed\xa0\x80", Some(1)),
    ("past the values, text within", &[0, 1, 9], b"ab", None),
    (
        "past the values, none within",
        &[0, 1, 9],
        b"a\xc3",
        Some(1),
    ),
    ("all past the values", &[4, 6], b"\xff", None),
];

/// Compares the answers for offsets of a width.
fn check_unfit<O: Offset>(rt: &(impl Abort + AllocGlobal)) {
    for (index, (case, numbers, bytes, expected)) in UNFIT.iter().enumerate() {
        let offsets = frozen_offsets::<O>(rt.alloc(), *numbers).expect(rt, "offsets");
        let values = buffer_of(rt.alloc(), *bytes).expect(rt, "memory");
        let came = first_unfit_text(&offsets, &values);
        drop(offsets);
        drop(values);
        let name = row_of(*case, offset_name::<O>(), index);
        assert_text::value(came, *expected).expect(rt, name.as_str());
    }
}

#[test]
fn the_first_slot_that_is_no_text_is_found(rt: HostRuntime) {
    check_unfit::<i32>(&rt);
    check_unfit::<i64>(&rt);
}
