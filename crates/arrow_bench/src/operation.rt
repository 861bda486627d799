//! Operations that make a value in each round, and what is read of it. An operation is a type and no closure, which is
//! cheaper to prove.
use crate::bytes::probe_array;
use crate::primitive;
use crate::rounds::place;
use arrow_boolean::BooleanArray;
use arrow_primitive::{MutablePrimitiveArray, PrimitiveArray};
use arrow_types::native_type::NativeType;
use arrow_utf8::Utf8Array;
use compute_cast::WrapNumber;
use compute_group::Groups;
use std::alloc::Global;
use std::ops::Range;

/// What a round makes.
pub(crate) trait Probe {
    /// Returns a number that is read of it: of an array the number of slots, that of null ones, and what the slot is
    /// that the round chooses, zero if it is null.
    fn probe(&self, round: usize) -> u64;
}

/// Returns the number of slots and of null ones, and the slot that the round chooses.
#[inline(always)]
fn probe_slot<T: NativeType>(array: &PrimitiveArray<T>, round: usize) -> (u64, Option<T>) {
    let rows = array.len();
    let at = place(round, rows);
    let counts = (rows as u64).wrapping_add(array.null_count() as u64);
    if at < rows {
        return (counts, array.get(at));
    }
    (counts, None)
}

impl Probe for PrimitiveArray<i64> {
    #[inline(always)]
    fn probe(&self, round: usize) -> u64 {
        match probe_slot(self, round) {
            (counts, Some(value)) => counts.wrapping_add(value.cast_unsigned()),
            (counts, None) => counts,
        }
    }
}

impl Probe for PrimitiveArray<i32> {
    #[inline(always)]
    fn probe(&self, round: usize) -> u64 {
        match probe_slot(self, round) {
            (counts, Some(value)) => counts.wrapping_add(i64::from(value).cast_unsigned()),
            (counts, None) => counts,
        }
    }
}

impl Probe for PrimitiveArray<u64> {
    #[inline(always)]
    fn probe(&self, round: usize) -> u64 {
        match probe_slot(self, round) {
            (counts, Some(value)) => counts.wrapping_add(value),
            (counts, None) => counts,
        }
    }
}

impl Probe for PrimitiveArray<i128> {
    /// As that of numbers of 64 bits: a value is its low 64 bits.
    #[inline(always)]
    fn probe(&self, round: usize) -> u64 {
        match probe_slot(self, round) {
            (counts, Some(value)) => counts.wrapping_add(u64::wrap_number(value)),
            (counts, None) => counts,
        }
    }
}

impl Probe for BooleanArray {
    #[inline(always)]
    fn probe(&self, round: usize) -> u64 {
        let rows = self.len();
        let at = place(round, rows);
        let counts = (rows as u64).wrapping_add(self.null_count() as u64);
        if at < rows && self.get(at) == Some(true) {
            return counts.wrapping_add(1);
        }
        counts
    }
}

impl Probe for Utf8Array<i32> {
    /// As that of numbers: a text is its first byte, zero if it has none.
    #[inline(always)]
    fn probe(&self, round: usize) -> u64 {
        let rows = self.len();
        let at = place(round, rows);
        let nulls = self.null_count() as u64;
        if at < rows && self.is_null(at) {
            return nulls.wrapping_add(rows as u64);
        }
        nulls.wrapping_add(probe_array(self, round))
    }
}

impl Probe for MutablePrimitiveArray<i64> {
    /// Returns the number of slots and the value that is stored in one of them.
    #[inline(always)]
    fn probe(&self, round: usize) -> u64 {
        primitive::probe(self, round)
    }
}

impl Probe for u64 {
    /// Returns the number itself.
    #[inline(always)]
    fn probe(&self, _round: usize) -> u64 {
        *self
    }
}

impl Probe for Groups {
    /// Returns the number of slots, that of groups, and the number of the group of a slot.
    #[inline(always)]
    fn probe(&self, round: usize) -> u64 {
        let indices = self.indices();
        let rows = indices.len();
        let counts = (rows as u64).wrapping_add(self.len() as u64);
        match indices.get(place(round, rows)) {
            Some(number) => counts.wrapping_add(*number as u64),
            None => counts,
        }
    }
}

impl Probe for Vec<Range<usize>> {
    /// Returns the number of ranges, and where one of them begins.
    #[inline(always)]
    fn probe(&self, round: usize) -> u64 {
        let count = self.len();
        match self.get(place(round, count)) {
            Some(range) => (count as u64).wrapping_add(range.start as u64),
            None => count as u64,
        }
    }
}

/// An operation on a source that is made once.
pub(crate) trait Operation {
    type Source: Drop;

    type Made: Probe + Drop;

    /// Makes a value of the source; `None` if memory is refused, or if the source does not fit.
    fn make(alloc: Global, source: &Self::Source) -> Option<Self::Made>;
}

#[inline(always)]
fn make_each<O: Operation>(alloc: Global, source: &O::Source, rounds: usize) -> u64 {
    let mut sum = 0u64;
    for round in 0..rounds {
        match O::make(alloc, source) {
            Some(made) => sum = sum.wrapping_add(made.probe(round)),
            None => return u64::MAX,
        }
    }
    sum
}

/// Makes a value of a source in each round, and sums up what is read of it.
#[inline(always)]
pub(crate) fn run<O: Operation>(alloc: Global, source: Option<O::Source>, rounds: usize) -> u64 {
    match source {
        Some(source) => make_each::<O>(alloc, &source, rounds),
        None => u64::MAX,
    }
}
