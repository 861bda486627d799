//! Keys that point at items.
use arrow_check::indexes::{check_indexes, check_slots};
use arrow_memory::bitmap::Bitmap;
use arrow_types::index_key::IndexKey;
use std::process::Abort;
use tests_support::{assert_text, row, tells};

const NO_INDEX: &str = "the dictionary key must fit in a usize";

const PAST: &str = "a dictionary key must be below the length of the dictionary values";

/// Compares the answer of `check_indexes` for keys into a number of items.
fn check<K: IndexKey>(rt: &impl Abort, case: &str, keys: &[K], items: usize, expected: &str) {
    assert_text::value(tells(check_indexes(keys, items)), expected).expect(rt, case);
}

#[test]
fn keys_of_every_sign_and_width_are_checked(rt: HostRuntime) {
    check::<i8>(&rt, "i8, a negative key", &[2, -1], 3, NO_INDEX);
    check::<u8>(&rt, "u8, one past the items", &[255], 255, PAST);
    check::<u8>(&rt, "u8, the last item", &[254, 0], 255, "made");
    check::<i32>(&rt, "i32, the first fault", &[1, 3, -1], 3, PAST);
    let (greatest, below) = (&[u64::MAX], &[18446744073709551614]);
    check::<u64>(&rt, "u64, the greatest", greatest, usize::MAX, PAST);
    check::<u64>(&rt, "u64, below the greatest", below, usize::MAX, "made");
}

/// A name, keys, their marks, and the expected answer of `check_slots` for three items.
#[rattlefmt::skip]
const SLOTS: &[(&str, [i32; 4], [bool; 4], &str)] = &[
    ("nulls under both faults", [2, 9, 0, -1], [true, false, true, false], "made"),
    ("a null under one fault", [2, 9, 0, -1], [true, false, true, true], NO_INDEX),
    ("no null", [2, 9, 0, -1], [true; 4], PAST),
    ("a null under the first fault", [-1, 0, 3, -1], [false, true, true, true], PAST),
    ("nulls alone", [3, -1, 9, -7], [false; 4], "made"),
];

#[test]
fn keys_are_checked_but_those_of_nulls(rt: HostRuntime) {
    for (index, (case, keys, marks, expected)) in SLOTS.iter().enumerate() {
        let validity = Bitmap::from_slice(rt.alloc(), marks.as_slice()).expect(&rt, "memory");
        assert!(rt; validity.len() == 4);
        let came = tells(check_slots(keys.as_slice(), Some(&validity), 3));
        drop(validity);
        assert_text::value(came, *expected).expect(&rt, row(*case, index).as_str());
    }
    let came = [
        tells(check_slots([0_u8, 3].as_slice(), None, 3)),
        tells(check_slots([0_u8, 2].as_slice(), None, 3)),
    ];
    assert_text::value(came, [PAST, "made"]).expect(
        &rt,
        "no mask: one past the items, the last item",
    );
}
