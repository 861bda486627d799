//! Comparisons and logic, over arrays that are made once.
use crate::kernels::{texts_array, truths_array};
use crate::operation::{Operation, run};
use crate::whole::array_of_parts;
use arrow_boolean::BooleanArray;
use arrow_primitive::PrimitiveArray;
use arrow_utf8::Utf8Array;
use compute_comparison::comparison::{eq, eq_and_validity, eq_scalar_and_validity, lt, lt_scalar};
use compute_comparison::{boolean, boolean_kleene};
use std::alloc::Global;

/// Two arrays of values.
pub(crate) type Pair = (PrimitiveArray<i64>, PrimitiveArray<i64>);

/// Two arrays of booleans.
type TruthsPair = (BooleanArray, BooleanArray);

/// Two arrays of texts.
type TextsPair = (Utf8Array<i32>, Utf8Array<i32>);

/// Returns two arrays of values, of which the second has no null.
pub(crate) fn pair(alloc: Global, values: &[i64], others: &[i64], valid: &[u8]) -> Option<Pair> {
    let first = array_of_parts(alloc, values, valid)?;
    let second = array_of_parts(alloc, others, &[])?;
    Some((first, second))
}

struct LessThan;

impl Operation for LessThan {
    type Source = Pair;

    type Made = BooleanArray;

    #[inline(always)]
    fn make(alloc: Global, (lhs, rhs): &Pair) -> Option<BooleanArray> {
        if lhs.len() != rhs.len() {
            return None;
        }
        lt(alloc, lhs, rhs).ok()
    }
}

// lhs < rhs; the second array has no null
#[unsafe(no_mangle)]
pub extern "C" fn rattle_flat_cmp_lt(
    alloc: Global,
    values: &[i64],
    others: &[i64],
    valid: &[u8],
    rounds: usize,
) -> u64 {
    run::<LessThan>(alloc, pair(alloc, values, others, valid), rounds)
}

struct Equal;

impl Operation for Equal {
    type Source = Pair;

    type Made = BooleanArray;

    #[inline(always)]
    fn make(alloc: Global, (lhs, rhs): &Pair) -> Option<BooleanArray> {
        if lhs.len() != rhs.len() {
            return None;
        }
        eq(alloc, lhs, rhs).ok()
    }
}

// lhs = rhs
#[unsafe(no_mangle)]
pub extern "C" fn rattle_flat_cmp_eq(
    alloc: Global,
    values: &[i64],
    others: &[i64],
    valid: &[u8],
    rounds: usize,
) -> u64 {
    run::<Equal>(alloc, pair(alloc, values, others, valid), rounds)
}

struct EqualSlots;

impl Operation for EqualSlots {
    type Source = Pair;

    type Made = BooleanArray;

    #[inline(always)]
    fn make(alloc: Global, (lhs, rhs): &Pair) -> Option<BooleanArray> {
        if lhs.len() != rhs.len() {
            return None;
        }
        eq_and_validity(alloc, lhs, rhs).ok()
    }
}

// lhs = rhs, where two nulls are equal; the second array has no null
#[unsafe(no_mangle)]
pub extern "C" fn rattle_flat_cmp_eq_validity(
    alloc: Global,
    values: &[i64],
    others: &[i64],
    valid: &[u8],
    rounds: usize,
) -> u64 {
    run::<EqualSlots>(alloc, pair(alloc, values, others, valid), rounds)
}

struct EqualZeroSlots;

impl Operation for EqualZeroSlots {
    type Source = PrimitiveArray<i64>;

    type Made = BooleanArray;

    #[inline(always)]
    fn make(alloc: Global, array: &PrimitiveArray<i64>) -> Option<BooleanArray> {
        eq_scalar_and_validity(alloc, array, 0i64).ok()
    }
}

// each slot = 0, which no null is
#[unsafe(no_mangle)]
pub extern "C" fn rattle_flat_cmp_eq_scalar_validity(
    alloc: Global,
    values: &[i64],
    valid: &[u8],
    rounds: usize,
) -> u64 {
    run::<EqualZeroSlots>(alloc, array_of_parts(alloc, values, valid), rounds)
}

struct LessThanZero;

impl Operation for LessThanZero {
    type Source = PrimitiveArray<i64>;

    type Made = BooleanArray;

    #[inline(always)]
    fn make(alloc: Global, array: &PrimitiveArray<i64>) -> Option<BooleanArray> {
        lt_scalar(alloc, array, 0i64).ok()
    }
}

// each value < 0
#[unsafe(no_mangle)]
pub extern "C" fn rattle_flat_cmp_lt_scalar(
    alloc: Global,
    values: &[i64],
    valid: &[u8],
    rounds: usize,
) -> u64 {
    run::<LessThanZero>(alloc, array_of_parts(alloc, values, valid), rounds)
}

/// Returns two arrays of texts between the same offsets, without nulls.
fn texts_pair(alloc: Global, data: &[u8], others: &[u8], offsets: &[i32]) -> Option<TextsPair> {
    let first = texts_array(alloc, data, offsets, &[])?;
    let second = texts_array(alloc, others, offsets, &[])?;
    Some((first, second))
}

struct EqualTexts;

impl Operation for EqualTexts {
    type Source = TextsPair;

    type Made = BooleanArray;

    #[inline(always)]
    fn make(alloc: Global, (lhs, rhs): &TextsPair) -> Option<BooleanArray> {
        if lhs.len() != rhs.len() {
            return None;
        }
        eq(alloc, lhs, rhs).ok()
    }
}

// lhs = rhs, of texts between the same offsets
#[unsafe(no_mangle)]
pub extern "C" fn rattle_flat_cmp_eq_utf8(
    alloc: Global,
    data: &[u8],
    others: &[u8],
    offsets: &[i32],
    rounds: usize,
) -> u64 {
    run::<EqualTexts>(alloc, texts_pair(alloc, data, others, offsets), rounds)
}

/// Returns two arrays of booleans, of which the second has no null.
fn truths_pair(alloc: Global, bits: &[u8], others: &[u8], valid: &[u8]) -> Option<TruthsPair> {
    let first = truths_array(alloc, bits, valid)?;
    let second = truths_array(alloc, others, &[])?;
    Some((first, second))
}

struct LogicAnd;

impl Operation for LogicAnd {
    type Source = TruthsPair;

    type Made = BooleanArray;

    #[inline(always)]
    fn make(alloc: Global, (lhs, rhs): &TruthsPair) -> Option<BooleanArray> {
        if lhs.len() != rhs.len() {
            return None;
        }
        boolean::and(alloc, lhs, rhs).ok()
    }
}

// and, null where a slot is null; the second array has no null
#[unsafe(no_mangle)]
pub extern "C" fn rattle_flat_logic_and(
    alloc: Global,
    bits: &[u8],
    others: &[u8],
    valid: &[u8],
    rounds: usize,
) -> u64 {
    run::<LogicAnd>(alloc, truths_pair(alloc, bits, others, valid), rounds)
}

struct LogicNot;

impl Operation for LogicNot {
    type Source = BooleanArray;

    type Made = BooleanArray;

    #[inline(always)]
    fn make(alloc: Global, array: &BooleanArray) -> Option<BooleanArray> {
        boolean::not(alloc, array).ok()
    }
}

// the opposite of each slot
#[unsafe(no_mangle)]
pub extern "C" fn rattle_flat_logic_not(
    alloc: Global,
    bits: &[u8],
    valid: &[u8],
    rounds: usize,
) -> u64 {
    run::<LogicNot>(alloc, truths_array(alloc, bits, valid), rounds)
}

struct NullSlots;

impl Operation for NullSlots {
    type Source = PrimitiveArray<i64>;

    type Made = BooleanArray;

    #[inline(always)]
    fn make(alloc: Global, array: &PrimitiveArray<i64>) -> Option<BooleanArray> {
        boolean::is_null(alloc, array).ok()
    }
}

// which slots are null
#[unsafe(no_mangle)]
pub extern "C" fn rattle_flat_logic_is_null(
    alloc: Global,
    values: &[i64],
    valid: &[u8],
    rounds: usize,
) -> u64 {
    run::<NullSlots>(alloc, array_of_parts(alloc, values, valid), rounds)
}

struct KleeneAnd;

impl Operation for KleeneAnd {
    type Source = TruthsPair;

    type Made = BooleanArray;

    #[inline(always)]
    fn make(alloc: Global, (lhs, rhs): &TruthsPair) -> Option<BooleanArray> {
        if lhs.len() != rhs.len() {
            return None;
        }
        boolean_kleene::and(alloc, lhs, rhs).ok()
    }
}

// and of three-valued logic
#[unsafe(no_mangle)]
pub extern "C" fn rattle_flat_kleene_and(
    alloc: Global,
    bits: &[u8],
    others: &[u8],
    valid: &[u8],
    rounds: usize,
) -> u64 {
    run::<KleeneAnd>(alloc, truths_pair(alloc, bits, others, valid), rounds)
}

struct KleeneAndNull;

impl Operation for KleeneAndNull {
    type Source = BooleanArray;

    type Made = BooleanArray;

    #[inline(always)]
    fn make(alloc: Global, array: &BooleanArray) -> Option<BooleanArray> {
        boolean_kleene::and_scalar(alloc, array, None).ok()
    }
}

// and of three-valued logic, with a null
#[unsafe(no_mangle)]
pub extern "C" fn rattle_flat_kleene_and_null(
    alloc: Global,
    bits: &[u8],
    valid: &[u8],
    rounds: usize,
) -> u64 {
    run::<KleeneAndNull>(alloc, truths_array(alloc, bits, valid), rounds)
}
