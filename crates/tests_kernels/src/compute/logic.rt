//! Logic of booleans in which a null stays null, and three-valued logic.
use crate::arrays::{Booleans, check_booleans, check_value, numbers, row, stored_booleans};
use compute_comparison::{boolean, boolean_kleene};

/// A name, two arrays, and their results: of `and` and `or`, of three-valued `and` and `or`, and the
/// mask of the first two.
type Case = (
    &'static str,
    Booleans,
    Booleans,
    [&'static str; 4],
    &'static str,
    [&'static str; 2],
);

/// All pairs of true, false and null. A null stores true where it could be taken for a value.
const LEFT: Booleans = ("111000111", "111111000");

const RIGHT: Booleans = ("101101101", "110110110");

#[rattlefmt::skip]
const CASES: &[Case] = &[
    ("no slot", ("", "none"), ("", "none"), ["", "", "", ""], "none", ["none", "none"]),
    ("no mask", ("0011", "none"), ("0101", "none"), ["ffft", "fttt", "ffft", "fttt"], "none", ["none", "none"]),
    ("all pairs", LEFT, RIGHT, ["tf_ff____", "tt_tf____", "tf_fff_f_", "ttttf_t__"], "110110000",
        ["110111010", "111110100"]),
    ("the first's mask", ("1111", "0011"), ("0101", "none"), ["__ft", "__tt", "f_ft", "_ttt"], "0011",
        ["1011", "0111"]),
    ("the second's mask", ("0101", "none"), ("1111", "0011"), ["__ft", "__tt", "f_ft", "_ttt"], "0011",
        ["1011", "0111"]),
];

/// A name, an array, a slot, and what `and_scalar` and `or_scalar` make of them, and these of three-valued logic: slots
/// and masks.
type ScalarCase = (
    &'static str,
    Booleans,
    Option<bool>,
    [&'static str; 4],
    [&'static str; 4],
);

/// True, false and a null, which stores true.
const THREE: Booleans = ("101", "110");

const TWO: Booleans = ("01", "none");

#[rattlefmt::skip]
const SCALARS: &[ScalarCase] = &[
    ("no slot, null", ("", "none"), None, ["", "", "", ""], ["", "", "", ""]),
    ("no slot, true", ("", "none"), Some(true), ["", "", "", ""], ["none", "none", "none", "none"]),
    ("all three, true", THREE, Some(true), ["tf_", "tt_", "tf_", "ttt"], ["110", "110", "110", "none"]),
    ("all three, false", THREE, Some(false), ["ff_", "tf_", "fff", "tf_"], ["110", "110", "none", "110"]),
    ("all three, null", THREE, None, ["___", "___", "_f_", "t__"], ["000", "000", "010", "100"]),
    ("no mask, true", TWO, Some(true), ["ft", "tt", "ft", "tt"], ["none", "none", "none", "none"]),
    ("no mask, false", TWO, Some(false), ["ff", "ft", "ff", "ft"], ["none", "none", "none", "none"]),
    ("no mask, null", TWO, None, ["__", "__", "f_", "_t"], ["00", "00", "10", "01"]),
];

#[test]
fn booleans_are_combined_with_one_slot(rt: HostRuntime) {
    let alloc = rt.alloc();
    for (index, (case, stored, scalar, slots, masks)) in SCALARS.iter().enumerate() {
        let row = row("an array and a slot are combined", "Boolean", index, *case);
        let row = row.as_str();
        let array = stored_booleans(&rt, *stored);
        check_booleans(
            &rt,
            row,
            "and",
            boolean::and_scalar(alloc, &array, *scalar),
            (slots[0], masks[0]),
        );
        check_booleans(
            &rt,
            row,
            "or",
            boolean::or_scalar(alloc, &array, *scalar),
            (slots[1], masks[1]),
        );
        check_booleans(
            &rt,
            row,
            "three-valued and",
            boolean_kleene::and_scalar(alloc, &array, *scalar),
            (slots[2], masks[2]),
        );
        check_booleans(
            &rt,
            row,
            "three-valued or",
            boolean_kleene::or_scalar(alloc, &array, *scalar),
            (slots[3], masks[3]),
        );
        drop(array);
    }
}

/// A name, an array, its opposites, `any` and `all`, and these in three-valued logic.
type One = (
    &'static str,
    Booleans,
    &'static str,
    [bool; 2],
    [Option<bool>; 2],
);

#[rattlefmt::skip]
const ONES: &[One] = &[
    ("no slot", ("", "none"), "", [false, true], [Some(false), Some(true)]),
    ("all true", ("111", "none"), "fff", [true, true], [Some(true), Some(true)]),
    ("all true, masked", ("11", "11"), "ff", [true, true], [Some(true), Some(true)]),
    ("all false", ("000", "none"), "ttt", [false, false], [Some(false), Some(false)]),
    ("one true", ("010", "none"), "tft", [true, false], [Some(true), Some(false)]),
    ("true and null", ("11", "01"), "_f", [true, false], [Some(true), None]),
    ("false and null", ("10", "01"), "_t", [false, false], [None, Some(false)]),
    ("only nulls", ("11", "00"), "__", [false, false], [None, None]),
    ("all three", ("101", "110"), "ft_", [true, false], [Some(true), Some(false)]),
];

#[test]
fn booleans_are_combined_negated_and_summed_up(rt: HostRuntime) {
    let alloc = rt.alloc();
    for (index, (case, first, second, expected, mask, known)) in CASES.iter().enumerate() {
        let row = row("two arrays are combined", "Boolean", index, *case);
        let row = row.as_str();
        let [both, either, known_both, known_either] = *expected;
        let (lhs, rhs) = (stored_booleans(&rt, *first), stored_booleans(&rt, *second));
        assert!(&rt; lhs.len() == rhs.len());
        check_booleans(
            &rt,
            row,
            "and",
            boolean::and(alloc, &lhs, &rhs),
            (both, *mask),
        );
        check_booleans(
            &rt,
            row,
            "or",
            boolean::or(alloc, &lhs, &rhs),
            (either, *mask),
        );
        check_booleans(
            &rt,
            row,
            "three-valued and",
            boolean_kleene::and(alloc, &lhs, &rhs),
            (known_both, known[0]),
        );
        check_booleans(
            &rt,
            row,
            "three-valued or",
            boolean_kleene::or(alloc, &lhs, &rhs),
            (known_either, known[1]),
        );
        drop(rhs);
        drop(lhs);
    }
    for (index, (case, stored, opposites, bare, known)) in ONES.iter().enumerate() {
        let row = row(
            "one array is negated and summed up",
            "Boolean",
            index,
            *case,
        );
        let row = row.as_str();
        let array = stored_booleans(&rt, *stored);
        check_booleans(
            &rt,
            row,
            "not",
            boolean::not(alloc, &array),
            (*opposites, stored.1),
        );
        check_value(
            &rt,
            row,
            [boolean::any(&array), boolean::all(&array)],
            *bare,
        );
        check_value(
            &rt,
            row,
            [boolean_kleene::any(&array), boolean_kleene::all(&array)],
            *known,
        );
        drop(array);
    }
    let array = numbers(&rt, &[Some(0_u8), None, Some(2)]);
    let row = "nulls of any kind are found: numbers";
    check_booleans(
        &rt,
        row,
        "is_null",
        boolean::is_null(alloc, &array),
        ("ftf", "none"),
    );
    check_booleans(
        &rt,
        row,
        "is_not_null",
        boolean::is_not_null(alloc, &array),
        ("tft", "none"),
    );
    drop(array);
    let array = stored_booleans(&rt, ("01", "none"));
    let row = "nulls of any kind are found: booleans, no mask";
    check_booleans(
        &rt,
        row,
        "is_null",
        boolean::is_null(alloc, &array),
        ("ff", "none"),
    );
    check_booleans(
        &rt,
        row,
        "is_not_null",
        boolean::is_not_null(alloc, &array),
        ("tt", "none"),
    );
    drop(array);
}
