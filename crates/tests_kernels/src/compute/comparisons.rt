//! Comparisons of arrays of each kind, and of an array with a value.
use crate::arrays::{check_booleans, items, numbers, stored_booleans};
use arrow_binary::BinaryArray;
use arrow_types::native_type::{NativeType, days_ms, i256, months_days_ns};
use arrow_utf8::Utf8Array;
use compute_comparison::comparison::equal::{EqualArray, EqualScalar};
use compute_comparison::comparison::ordered::{OrderedArray, Scalar};
use compute_comparison::comparison::{
    eq, eq_and_validity, eq_scalar, eq_scalar_and_validity, gt, gt_eq, gt_eq_scalar, gt_scalar, lt,
    lt_eq, lt_eq_scalar, lt_scalar, neq, neq_and_validity, neq_scalar, neq_scalar_and_validity,
};
use std::process::Abort;
use tests_support::Text;

/// The expected slots of `eq`, `neq`, `lt`, `lt_eq`, `gt` and `gt_eq`, and their mask.
type Six = ([&'static str; 6], &'static str);

/// What is expected of these six, and the slots of `eq_and_validity` and `neq_and_validity`; or of the calls that take
/// a value for the second array.
type Eight = (Six, [&'static str; 2]);

/// The expected slots of `eq` and `neq` and their mask, and those of `eq_and_validity` and `neq_and_validity`; or of
/// the calls that take a value.
type Four = (([&'static str; 2], &'static str), [&'static str; 2]);

/// Compares two arrays for equality, and so that nulls are equal to each other (`eq_and_validity`, `neq_and_validity`).
fn check_equality<A: EqualArray>(
    rt: &(impl Abort + AllocGlobal),
    row: &str,
    (lhs, rhs): (&A, &A),
    (([equal, unequal], mask), [same, differing]): &Four,
) {
    let alloc = rt.alloc();
    assert!(rt; lhs.len() == rhs.len(), "operands of one length");
    check_booleans(rt, row, "eq", eq(alloc, lhs, rhs), (*equal, *mask));
    check_booleans(rt, row, "neq", neq(alloc, lhs, rhs), (*unequal, *mask));
    check_booleans(
        rt,
        row,
        "eq_and_validity",
        eq_and_validity(alloc, lhs, rhs),
        (*same, "none"),
    );
    check_booleans(
        rt,
        row,
        "neq_and_validity",
        neq_and_validity(alloc, lhs, rhs),
        (*differing, "none"),
    );
}

/// Compares two arrays in each way.
fn check_pairs<A: OrderedArray>(
    rt: &(impl Abort + AllocGlobal),
    case: &str,
    (lhs, rhs): (&A, &A),
    (([equal, unequal, less, at_most, greater, at_least], mask), ends): &Eight,
) {
    let alloc = rt.alloc();
    let row = Text::of(format_args!("{case}, {}", lhs.data_type()));
    let row = row.as_str();
    check_equality(rt, row, (lhs, rhs), &(([*equal, *unequal], *mask), *ends));
    assert!(rt; lhs.len() == rhs.len(), "operands of one length");
    check_booleans(rt, row, "lt", lt(alloc, lhs, rhs), (*less, *mask));
    check_booleans(rt, row, "lt_eq", lt_eq(alloc, lhs, rhs), (*at_most, *mask));
    check_booleans(rt, row, "gt", gt(alloc, lhs, rhs), (*greater, *mask));
    check_booleans(rt, row, "gt_eq", gt_eq(alloc, lhs, rhs), (*at_least, *mask));
}

/// Compares an array with a value for equality, and so that no null is equal to it (`eq_scalar_and_validity`,
/// `neq_scalar_and_validity`).
fn check_equality_scalar<A: EqualArray, S: EqualScalar<A>>(
    rt: &(impl Abort + AllocGlobal),
    row: &str,
    lhs: &A,
    rhs: S,
    (([equal, unequal], mask), [same, differing]): &Four,
) {
    let alloc = rt.alloc();
    check_booleans(rt, row, "eq", eq_scalar(alloc, lhs, rhs), (*equal, *mask));
    check_booleans(
        rt,
        row,
        "neq",
        neq_scalar(alloc, lhs, rhs),
        (*unequal, *mask),
    );
    check_booleans(
        rt,
        row,
        "eq_scalar_and_validity",
        eq_scalar_and_validity(alloc, lhs, rhs),
        (*same, "none"),
    );
    check_booleans(
        rt,
        row,
        "neq_scalar_and_validity",
        neq_scalar_and_validity(alloc, lhs, rhs),
        (*differing, "none"),
    );
}

/// Compares an array with a value in each way.
fn check_scalar<A: OrderedArray, S: Scalar<A>>(
    rt: &(impl Abort + AllocGlobal),
    case: &str,
    lhs: &A,
    rhs: S,
    (([equal, unequal, less, at_most, greater, at_least], mask), ends): &Eight,
) {
    let alloc = rt.alloc();
    let row = Text::of(format_args!("{case}, {}", lhs.data_type()));
    let row = row.as_str();
    check_equality_scalar(rt, row, lhs, rhs, &(([*equal, *unequal], *mask), *ends));
    check_booleans(rt, row, "lt", lt_scalar(alloc, lhs, rhs), (*less, *mask));
    check_booleans(
        rt,
        row,
        "lt_eq",
        lt_eq_scalar(alloc, lhs, rhs),
        (*at_most, *mask),
    );
    check_booleans(rt, row, "gt", gt_scalar(alloc, lhs, rhs), (*greater, *mask));
    check_booleans(
        rt,
        row,
        "gt_eq",
        gt_eq_scalar(alloc, lhs, rhs),
        (*at_least, *mask),
    );
}

/// Numbers, with a null on either side and on both.
const FIRST: &[Option<i32>] = &[Some(-1), Some(2), Some(3), None, Some(4), None];

const SECOND: &[Option<i32>] = &[Some(2), Some(2), Some(-3), Some(0), None, None];

/// Bytes, which are compared lexicographically.
const BYTES: &[Option<&[u8]>] = &[Some(b"a"), Some(b"b"), Some(b"\xff"), Some(b""), None];

const OTHER_BYTES: &[Option<&[u8]>] = &[Some(b"ab"), Some(b"ab"), Some(b"\xff"), None, None];

/// What comparisons make of `FIRST` and `SECOND`, and of `FIRST` and 2.
#[rattlefmt::skip]
const NUMBERS: &Eight =
    &((["ftf___", "tft___", "tff___", "ttf___", "fft___", "ftt___"], "111000"), ["ftffft", "tftttf"]);

#[rattlefmt::skip]
const BY_TWO: &Eight =
    &((["ftf_f_", "tft_t_", "tff_f_", "ttf_f_", "fft_t_", "ftt_t_"], "111010"), ["ftffff", "tftttt"]);

/// What comparisons make of false, false, true and true, and of false, true, false and true; and with a mask of either.
const BOOLEANS: &Eight = &(
    (["tfft", "fttf", "ftff", "ttft", "fftf", "tftt"], "none"),
    ["tfft", "fttf"],
);

const BY_TRUE: &Eight = &(
    (["fftt", "ttff", "ttff", "tttt", "ffff", "fftt"], "none"),
    ["fftt", "ttff"],
);

const BY_FALSE: &Eight = &(
    (["ttff", "fftt", "ffff", "ttff", "fftt", "tttt"], "none"),
    ["ttff", "fftt"],
);

const SECOND_MASKED: &Eight = &(
    (["_ff_", "_tt_", "_tf_", "_tf_", "_ft_", "_ft_"], "0110"),
    ["ffff", "tttt"],
);

const FIRST_MASKED: &Eight = &(
    (["_ff_", "_tt_", "_ft_", "_ft_", "_tf_", "_tf_"], "0110"),
    ["ffff", "tttt"],
);

/// What comparisons make of `BYTES` and `OTHER_BYTES`, and of `BYTES` and a byte.
const BYTES_BY_BYTES: &Eight = &(
    (
        ["fft__", "ttf__", "tff__", "tft__", "ftf__", "ftt__"],
        "11100",
    ),
    ["fftft", "ttftf"],
);

const BY_BYTE: &Eight = &(
    (
        ["fftf_", "ttft_", "ttft_", "tttt_", "ffff_", "fftf_"],
        "11110",
    ),
    ["fftff", "ttftt"],
);

/// What comparisons make of "Z", "é", a null and "a", and of "a", "z", a null and "a" or of "a" alone.
const TEXTS: &Eight = &(LETTERS, ["fftt", "ttff"]);

const BY_LETTER: &Eight = &(LETTERS, ["ffft", "tttf"]);

const LETTERS: Six = (["ff_t", "tt_f", "tf_f", "tf_t", "ft_f", "ft_t"], "1101");

#[test]
fn arrays_are_compared(rt: HostRuntime) {
    let (lhs, rhs) = (numbers(&rt, FIRST), numbers(&rt, SECOND));
    check_pairs(
        &rt,
        "numbers are compared slot by slot",
        (&lhs, &rhs),
        NUMBERS,
    );
    drop(rhs);
    check_scalar(&rt, "a value", &lhs, 2_i32, BY_TWO);
    drop(lhs);
    let lhs = stored_booleans(&rt, ("0011", "none"));
    let rhs = stored_booleans(&rt, ("0101", "none"));
    check_pairs(&rt, "false is less than true", (&lhs, &rhs), BOOLEANS);
    drop(rhs);
    check_scalar(&rt, "true", &lhs, true, BY_TRUE);
    check_scalar(&rt, "false", &lhs, false, BY_FALSE);
    let rhs = stored_booleans(&rt, ("0101", "0110"));
    check_pairs(&rt, "the second's mask", (&lhs, &rhs), SECOND_MASKED);
    check_pairs(&rt, "the first's mask", (&rhs, &lhs), FIRST_MASKED);
    drop(rhs);
    drop(lhs);
    let lhs: BinaryArray<i64> = items(&rt, BYTES);
    let rhs: BinaryArray<i64> = items(&rt, OTHER_BYTES);
    check_pairs(
        &rt,
        "bytes are compared lexicographically",
        (&lhs, &rhs),
        BYTES_BY_BYTES,
    );
    drop(rhs);
    check_scalar(&rt, "a byte", &lhs, b"\xff".as_slice(), BY_BYTE);
    drop(lhs);
    let lhs: Utf8Array<i32> = items(&rt, &[Some("Z"), Some("é"), None, Some("a")]);
    let rhs: Utf8Array<i32> = items(&rt, &[Some("a"), Some("z"), None, Some("a")]);
    check_pairs(&rt, "text is compared by its bytes", (&lhs, &rhs), TEXTS);
    drop(rhs);
    check_scalar(&rt, "a letter", &lhs, "a", BY_LETTER);
    drop(lhs);
}

/// Compares values of a type without an order: two that are equal, each of the others beside one that differs from the
/// first in one part, and nulls on either side and on both.
fn check_parts<T: NativeType>(
    rt: &(impl Abort + AllocGlobal),
    (first, others): (T, &[T]),
    expected: &Four,
    scalar: &Four,
) {
    let alloc = rt.alloc();
    let row = Text::of(format_args!("values of several parts: {:?}", T::PRIMITIVE));
    let row = row.as_str();
    let mut slots = Vec::new(alloc);
    let mut beside = Vec::new(alloc);
    for other in others {
        slots.push(Some(first)).expect(rt, "memory");
        beside.push(Some(*other)).expect(rt, "memory");
    }
    slots.push(Some(first)).expect(rt, "memory");
    beside.push(None).expect(rt, "memory");
    slots.push(None).expect(rt, "memory");
    beside.push(Some(first)).expect(rt, "memory");
    slots.push(None).expect(rt, "memory");
    beside.push(None).expect(rt, "memory");
    let lhs = numbers(rt, slots.as_slice());
    let rhs = numbers(rt, beside.as_slice());
    drop(slots);
    drop(beside);
    check_equality(rt, row, (&lhs, &rhs), expected);
    drop(lhs);
    check_equality_scalar(rt, row, &rhs, first, scalar);
    drop(rhs);
}

#[test]
fn values_of_several_parts_are_compared_for_equality(rt: HostRuntime) {
    let three: &Four = &((["tff___", "ftt___"], "111000"), ["tfffft", "fttttf"]);
    let by_first: &Four = &((["tff_t_", "ftt_f_"], "111010"), ["tffftf", "ftttft"]);
    check_parts(
        &rt,
        (i256(-1, 2), &[i256(-1, 2), i256(1, 2), i256(-1, 3)]),
        three,
        by_first,
    );
    check_parts(
        &rt,
        (
            days_ms(7, -8),
            &[days_ms(7, -8), days_ms(8, -8), days_ms(7, 8)],
        ),
        three,
        by_first,
    );
    check_parts(
        &rt,
        (
            months_days_ns(1, 2, 3),
            &[
                months_days_ns(1, 2, 3),
                months_days_ns(2, 2, 3),
                months_days_ns(1, 1, 3),
                months_days_ns(1, 2, -3),
            ],
        ),
        &((["tfff___", "fttt___"], "1111000"), ["tffffft", "ftttttf"]),
        &((["tfff_t_", "fttt_f_"], "1111010"), ["tfffftf", "fttttft"]),
    );
}
