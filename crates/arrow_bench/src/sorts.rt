//! Sorts, and ranges of equal rows, over arrays that are made once.
use crate::compute::{Pair, pair};
use crate::kernels::texts_array;
use crate::operation::{Operation, run};
use crate::whole::array_of_parts;
use arrow_primitive::PrimitiveArray;
use arrow_utf8::Utf8Array;
use compute_sort::SortOptions;
use compute_sort::lexsort::{SortColumn, SortValues, lexsort_to_indices};
use compute_sort::partition::lexicographical_partition_ranges;
use compute_sort::sort::sort_to_indices;
use std::alloc::Global;
use std::ops::Range;

/// How many indexes a sort with a limit returns.
const LIMIT: usize = 100;

struct Sort;

impl Operation for Sort {
    type Source = PrimitiveArray<i64>;

    type Made = PrimitiveArray<u64>;

    #[inline(always)]
    fn make(alloc: Global, array: &PrimitiveArray<i64>) -> Option<PrimitiveArray<u64>> {
        sort_to_indices(alloc, array, SortOptions::default(), None).ok()
    }
}

// the indexes that sort the array, nulls first
#[unsafe(no_mangle)]
pub extern "C" fn rattle_flat_sort_prim(
    alloc: Global,
    values: &[i64],
    valid: &[u8],
    rounds: usize,
) -> u64 {
    run::<Sort>(alloc, array_of_parts(alloc, values, valid), rounds)
}

struct SortTexts;

impl Operation for SortTexts {
    type Source = Utf8Array<i32>;

    type Made = PrimitiveArray<u64>;

    #[inline(always)]
    fn make(alloc: Global, array: &Utf8Array<i32>) -> Option<PrimitiveArray<u64>> {
        sort_to_indices(alloc, array, SortOptions::default(), None).ok()
    }
}

// the indexes that sort the texts
#[unsafe(no_mangle)]
pub extern "C" fn rattle_flat_sort_utf8(
    alloc: Global,
    data: &[u8],
    offsets: &[i32],
    valid: &[u8],
    rounds: usize,
) -> u64 {
    run::<SortTexts>(alloc, texts_array(alloc, data, offsets, valid), rounds)
}

struct SortFirst;

impl Operation for SortFirst {
    type Source = PrimitiveArray<i64>;

    type Made = PrimitiveArray<u64>;

    #[inline(always)]
    fn make(alloc: Global, array: &PrimitiveArray<i64>) -> Option<PrimitiveArray<u64>> {
        sort_to_indices(alloc, array, SortOptions::default(), Some(LIMIT)).ok()
    }
}

// the first hundred of the indexes that sort the array, which has no null
#[unsafe(no_mangle)]
pub extern "C" fn rattle_flat_sort_limit(alloc: Global, values: &[i64], rounds: usize) -> u64 {
    run::<SortFirst>(alloc, array_of_parts(alloc, values, &[]), rounds)
}

#[inline(always)]
fn sort_rows(
    alloc: Global,
    (first, second): &Pair,
    limit: Option<usize>,
) -> Option<PrimitiveArray<u64>> {
    if first.len() != second.len() {
        return None;
    }
    let columns = [
        SortColumn {
            values: SortValues::Int64(first),
            options: None,
        },
        SortColumn {
            values: SortValues::Int64(second),
            options: None,
        },
    ];
    lexsort_to_indices(alloc, &columns, limit).ok()
}

struct SortRows;

impl Operation for SortRows {
    type Source = Pair;

    type Made = PrimitiveArray<u64>;

    #[inline(always)]
    fn make(alloc: Global, columns: &Pair) -> Option<PrimitiveArray<u64>> {
        sort_rows(alloc, columns, None)
    }
}

// the indexes that sort the rows of two columns, nulls first; the second has no null
#[unsafe(no_mangle)]
pub extern "C" fn rattle_flat_lexsort(
    alloc: Global,
    values: &[i64],
    others: &[i64],
    valid: &[u8],
    rounds: usize,
) -> u64 {
    run::<SortRows>(alloc, pair(alloc, values, others, valid), rounds)
}

struct SortFirstRows;

impl Operation for SortFirstRows {
    type Source = Pair;

    type Made = PrimitiveArray<u64>;

    #[inline(always)]
    fn make(alloc: Global, columns: &Pair) -> Option<PrimitiveArray<u64>> {
        sort_rows(alloc, columns, Some(LIMIT))
    }
}

// the first hundred of these
#[unsafe(no_mangle)]
pub extern "C" fn rattle_flat_lexsort_limit(
    alloc: Global,
    values: &[i64],
    others: &[i64],
    valid: &[u8],
    rounds: usize,
) -> u64 {
    run::<SortFirstRows>(alloc, pair(alloc, values, others, valid), rounds)
}

struct Partition;

impl Operation for Partition {
    type Source = Pair;

    type Made = Vec<Range<usize>>;

    #[inline(always)]
    fn make(alloc: Global, (first, second): &Pair) -> Option<Vec<Range<usize>>> {
        if first.len() != second.len() {
            return None;
        }
        let columns = [
            SortColumn {
                values: SortValues::Int64(first),
                options: None,
            },
            SortColumn {
                values: SortValues::Int64(second),
                options: None,
            },
        ];
        lexicographical_partition_ranges(alloc, &columns).ok()
    }
}

// the ranges of equal rows of two columns without nulls
#[unsafe(no_mangle)]
pub extern "C" fn rattle_flat_partition(
    alloc: Global,
    values: &[i64],
    others: &[i64],
    rounds: usize,
) -> u64 {
    run::<Partition>(alloc, pair(alloc, values, others, &[]), rounds)
}
