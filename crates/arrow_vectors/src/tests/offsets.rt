//! Raw offsets, and slots that end near the greatest offset.
use super::*;

const NEGATIVE: &str = "the first offset must not be negative";

const FALLS: &str = "offsets must never fall";

/// Returns the answer to raw offsets.
fn answer<O: Offset>(rt: &(impl Abort + AllocGlobal), offsets: &[O]) -> &'static str {
    tells(Offsets::try_from_vec(offsets.to_vec(rt.alloc()).expect(rt, "memory")))
}

/// A name, raw offsets, and the expected answer.
const RAW: &[(&str, &[i32], &str)] = &[
    ("none", &[], "offsets must have at least one element"),
    ("negative, then falls", &[-1, -2], NEGATIVE),
    ("negative", &[-1, 0], NEGATIVE),
    ("negative alone", &[-1], NEGATIVE),
    ("falls", &[0, 2, 1], FALLS),
    ("falls below zero", &[0, -1, 5], FALLS),
    ("falls from the greatest", &[0, i32::MAX, i32::MIN], FALLS),
    ("slots behind other bytes", &[2, 3, 3, 5], "made"),
    ("no slot", &[5], "made"),
    ("the greatest", &[0, i32::MAX], "made"),
];

/// A name, two numbers, and the expected answer to them as offsets of at most 100.
const NARROW: &[(&str, i8, i8, &str)] = &[
    ("negative", -1, 0, NEGATIVE),
    ("both negative", i8::MIN, -1, NEGATIVE),
    ("falls", 3, 2, FALLS),
    ("up to the greatest", 99, 100, "made"),
    ("the greatest twice", 100, 100, "made"),
    ("one above the greatest", 100, 101, "not an offset"),
    ("a first one above it", i8::MAX, 0, "not an offset"),
];

#[test]
fn raw_offsets_are_refused_by_their_first_fault(rt: HostRuntime) {
    for (index, (case, offsets, expected)) in RAW.iter().enumerate() {
        let name = row_of(*case, "i32", index);
        assert_text::value(answer(&rt, *offsets), *expected).expect(&rt, name.as_str());
    }
    for (index, (case, first, second, expected)) in NARROW.iter().enumerate() {
        let came = match (Tiny::new(*first), Tiny::new(*second)) {
            (Some(first), Some(second)) => answer(&rt, [first, second].as_slice()),
            _ => "not an offset",
        };
        assert_text::value(came, *expected).expect(&rt, row_of(*case, "Tiny", index).as_str());
    }
}

/// A name, how far before the greatest offset the last of two lies, the bytes of a slot behind it, and the expected
/// answer.
type End = (&'static str, usize, usize, &'static str);

const ENDS: &[End] = &[
    ("no byte", 1, 0, "made"),
    ("up to the greatest", 1, 1, "made"),
    ("one past it", 1, 2, "overflow"),
    ("no byte at the greatest", 0, 0, "made"),
    ("a byte at the greatest", 0, 1, "overflow"),
    ("far past it", 0, 95, "overflow"),
    ("one before the greatest", 2, 1, "made"),
    ("two bytes up to it", 2, 2, "made"),
    ("two bytes and one past it", 2, 3, "overflow"),
];

/// Compares the answers to a slot, and the offsets then, once it is pushed and once it comes from other offsets. A slot
/// that is far too long is refused before.
fn check_end<O: Offset>(
    rt: &(impl Abort + AllocGlobal),
    index: usize,
    (case, before, length, answer): End,
) {
    let name = row_of(case, offset_name::<O>(), index);
    let case = name.as_str();
    let last = O::max().to_usize().saturating_sub(before);
    let all = [0, last, last.saturating_add(length)];
    let (ends, start) = (all.as_slice(), &all[..2]);
    let expected = if answer == "made" { ends } else { start };
    let mut pushed = offsets_of::<O>(rt.alloc(), start).expect(rt, "offsets");
    let far = tells(pushed.try_push_usize(usize::MAX - 5));
    let came = tells(pushed.try_push_usize(length));
    assert_text::value((far, came), ("overflow", answer)).expect(rt, case);
    check_bytes(rt, case, pushed.as_slice(), &[], (expected, &[]));
    drop(pushed);
    let mut joined = offsets_of::<O>(rt.alloc(), start).expect(rt, "offsets");
    for (length, answer) in [(95, "overflow"), (length, answer)] {
        let other = offsets_of::<O>(rt.alloc(), [5, length.saturating_add(5)].as_slice());
        let other = other.expect(rt, "offsets");
        let came = tells(joined.try_extend_from_self(&other));
        drop(other);
        assert_text::value(came, answer).expect(rt, case);
    }
    check_bytes(rt, case, joined.as_slice(), &[], (expected, &[]));
    drop(joined);
}

#[test]
fn slots_end_at_the_greatest_offset(rt: HostRuntime) {
    for (index, end) in ENDS.iter().enumerate() {
        for_each_offset!(check_end, &rt, index, *end);
    }
}
