//! More than 64 slots, whose marks and values begin within a byte.
use crate::arrays::{check_booleans, numbers, stored_booleans};
use arrow_boolean::{BooleanArray, MutableBooleanArray};
use arrow_types::error::Error;
use compute_comparison::comparison::{
    eq, eq_and_validity, eq_scalar, lt, lt_scalar, neq_scalar_and_validity,
};
use compute_comparison::{boolean, boolean_kleene};
use std::process::Abort;
use tests_support::{Text, assert_text};

/// Four letters that a text repeats.
type Letters = &'static [&'static str; 4];

/// Returns a text of `len` letters.
fn cycle(letters: Letters, len: usize) -> Text {
    let mut text = Text::new();
    for i in 0..len {
        text = text.and(letters[i % 4], 1);
    }
    text
}

/// Returns `len` booleans from slot `from` on of an array of 140.
fn cut_bools(
    rt: &(impl Abort + AllocGlobal),
    values: Letters,
    mask: Letters,
    (from, len): (usize, usize),
) -> BooleanArray {
    let (values, mask) = (cycle(values, 140), cycle(mask, 140));
    let array = stored_booleans(rt, (values.as_str(), mask.as_str()));
    assert!(rt;
        from <= array.len() && len <= array.len() - from,
        "a slice within the array"
    );
    array.sliced(from, len)
}

/// Compares what a call answers with `len` slots, whose letters and marks repeat.
fn check_cycle(
    rt: &impl Abort,
    (test, len): (&str, usize),
    call: &str,
    answer: Result<BooleanArray, Error>,
    (slots, marks): (Letters, Letters),
) {
    let row = Text::of(format_args!("{test}: {len} slots"));
    let (slots, marks) = (cycle(slots, len), cycle(marks, len));
    check_booleans(
        rt,
        row.as_str(),
        call,
        answer,
        (slots.as_str(), marks.as_str()),
    );
}

/// What numbers go through again and again.
const NUMBERS: &[Option<i16>; 4] = &[Some(5), None, Some(7), Some(-1)];

/// Lengths of one word, of one and a piece, and of two and a piece.
const LENGTHS: &[usize] = &[64, 67, 131];

#[test]
fn booleans_and_one_slot_are_read_64_at_a_time(rt: HostRuntime) {
    let alloc = rt.alloc();
    for length in LENGTHS {
        let len = *length;
        // Slots t f f null.
        let array = cut_bools(&rt, &["0", "0", "1", "1"], &["1", "1", "0", "1"], (3, len));
        let test = ("booleans and one slot are read 64 at a time", len);
        check_booleans(
            &rt,
            Text::of(format_args!("{}: {len} slots", test.0)).as_str(),
            "unlike true",
            neq_scalar_and_validity(alloc, &array, true),
            (cycle(&["f", "t", "t", "t"], len).as_str(), "none"),
        );
        check_cycle(
            &rt,
            test,
            "known and a null",
            boolean_kleene::and_scalar(alloc, &array, None),
            (&["_", "f", "f", "_"], &["0", "1", "1", "0"]),
        );
        drop(array);
    }
}

#[test]
fn booleans_and_numbers_are_read_64_at_a_time(rt: HostRuntime) {
    let alloc = rt.alloc();
    let mut slots = Vec::new(alloc);
    for i in 0..140 {
        let slot = NUMBERS[i % 4];
        slots.push(slot).expect(&rt, "memory");
    }
    for length in LENGTHS {
        let len = *length;
        // Slots t f f null, and null f t f.
        let lhs = cut_bools(&rt, &["0", "0", "1", "1"], &["1", "1", "0", "1"], (3, len));
        let rhs = cut_bools(&rt, &["0", "1", "0", "1"], &["1", "0", "1", "1"], (1, len));
        assert!(&rt; lhs.len() == rhs.len());
        let test = ("booleans are combined 64 at a time", len);
        let both = &["0", "1", "1", "0"];
        check_cycle(
            &rt,
            test,
            "eq",
            eq(alloc, &lhs, &rhs),
            (&["_", "t", "f", "_"], both),
        );
        check_cycle(
            &rt,
            test,
            "lt",
            lt(alloc, &lhs, &rhs),
            (&["_", "f", "t", "_"], both),
        );
        check_cycle(
            &rt,
            test,
            "or",
            boolean::or(alloc, &lhs, &rhs),
            (&["_", "f", "t", "_"], both),
        );
        let known = &["0", "1", "1", "1"];
        check_cycle(
            &rt,
            test,
            "known and",
            boolean_kleene::and(alloc, &lhs, &rhs),
            (&["_", "f", "f", "f"], known),
        );
        let known = &["1", "1", "1", "0"];
        check_cycle(
            &rt,
            test,
            "known or",
            boolean_kleene::or(alloc, &lhs, &rhs),
            (&["t", "f", "t", "_"], known),
        );
        check_booleans(
            &rt,
            Text::of(format_args!("{}: {len} slots", test.0)).as_str(),
            "validity",
            eq_and_validity(alloc, &lhs, &rhs),
            (cycle(&["f", "t", "f", "f"], len).as_str(), "none"),
        );
        drop(rhs);
        drop(lhs);
        // The numbers from the second on.
        let array = numbers(&rt, &slots);
        assert!(rt;
            1 <= array.len() && len <= array.len() - 1,
            "a slice within the array"
        );
        let array = array.sliced(1, len);
        let test = ("numbers are compared 64 at a time", len);
        let marks = &["0", "1", "1", "1"];
        check_cycle(
            &rt,
            test,
            "lt",
            lt_scalar(alloc, &array, 5_i16),
            (&["_", "f", "t", "f"], marks),
        );
        check_cycle(
            &rt,
            test,
            "eq",
            eq_scalar(alloc, &array, 7_i16),
            (&["_", "t", "f", "f"], marks),
        );
        drop(array);
    }
    drop(slots);
}

/// The slots that repeat in arrays of more than 1,024, and what three-valued logic makes of them: two arrays, then what
/// `and` and `or` make of both, then of the first and a null.
const KNOWN: &[[Option<bool>; 4]; 6] = &[
    [Some(true), Some(false), Some(false), None],
    [None, Some(false), Some(true), Some(false)],
    [None, Some(false), Some(false), Some(false)],
    [Some(true), Some(false), Some(true), None],
    [None, Some(false), Some(false), None],
    [Some(true), None, None, None],
];

/// Returns 1,030 slots, of which four repeat, behind at most eight others.
fn repeated(
    rt: &(impl Abort + AllocGlobal),
    slots: &[Option<bool>; 4],
    from: usize,
) -> BooleanArray {
    assert!(rt; from <= 8, "at most eight slots before");
    let mut builder = MutableBooleanArray::new(rt.alloc());
    for i in 0..from + 1030 {
        builder.push(slots[(i + 8 - from) % 4]).expect(rt, "memory");
    }
    let array = builder.freeze().expect(rt, "memory");
    assert!(rt; array.len() == from + 1030, "all slots");
    array.sliced(from, 1030)
}

/// Compares each slot of an answer with that of four which repeat.
fn check_known(
    rt: &impl Abort,
    call: &str,
    answer: Result<BooleanArray, Error>,
    slots: &[Option<bool>; 4],
) {
    let made = answer.expect(rt, call);
    assert!(rt; made.len() == 1030, "as many slots");
    for i in 0..made.len() {
        assert_text::value((i, made.get(i)), (i, slots[i % 4])).expect(rt, call);
    }
    drop(made);
}

#[test]
fn known_slots_are_computed_512_at_a_time(rt: HostRuntime) {
    let alloc = rt.alloc();
    // Both begin with a byte, both within one, and one of each.
    for (left, right) in [(0, 0), (3, 6), (8, 1)] {
        let lhs = repeated(&rt, &KNOWN[0], left);
        let rhs = repeated(&rt, &KNOWN[1], right);
        assert!(&rt; lhs.len() == rhs.len(), "equally many slots");
        check_known(
            &rt,
            "known and",
            boolean_kleene::and(alloc, &lhs, &rhs),
            &KNOWN[2],
        );
        check_known(
            &rt,
            "known or",
            boolean_kleene::or(alloc, &lhs, &rhs),
            &KNOWN[3],
        );
        check_known(
            &rt,
            "and a null",
            boolean_kleene::and_scalar(alloc, &lhs, None),
            &KNOWN[4],
        );
        check_known(
            &rt,
            "or a null",
            boolean_kleene::or_scalar(alloc, &lhs, None),
            &KNOWN[5],
        );
    }
}
