//! Keys that point at items.
use arrow_check::indexes::check_indexes;
use tests_support::{assert_text, row, tells};

const NEGATIVE: &str = "the dictionary key must fit in a usize";

const PAST: &str = "a dictionary key must be below the length of the dictionary values";

/// A name, keys, the number of items, and the expected answer.
const KEYS: &[(&str, &[i64], usize, &str)] = &[
    ("negative, then past", &[0, -1, 9], 3, NEGATIVE),
    ("past, then negative", &[0, 9, -1], 3, PAST),
    ("one past", &[0, 3], 3, PAST),
    ("in bounds", &[2, 0, 1, 1], 3, "made"),
    ("no key, no item", &[], 0, "made"),
    ("no item", &[0], 0, PAST),
    ("the greatest", &[i64::MAX], usize::MAX, "made"),
    ("the least", &[i64::MIN], usize::MAX, NEGATIVE),
];

#[test]
fn the_first_bad_key_is_reported(rt: HostRuntime) {
    for (index, (case, keys, items, expected)) in KEYS.iter().enumerate() {
        let came = tells(check_indexes(*keys, *items));
        assert_text::value(came, *expected).expect(&rt, row(*case, index).as_str());
    }
}
