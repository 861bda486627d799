//! Sorts of three slots, the second of which is null, and of rows of them.
use crate::boolean::array_text as boolean_text;
use crate::bytes::array_text;
use crate::refusal::{end, results};
use arrow_binary::BinaryArray;
use arrow_boolean::BooleanArray;
use arrow_primitive::PrimitiveArray;
use arrow_utf8::Utf8Array;
use compute_sort::SortOptions;
use compute_sort::lexsort::{SortColumn, SortValues, SortedValues, lexsort, lexsort_to_indices};
use compute_sort::partition::lexicographical_partition_ranges;
use compute_sort::sort::{sort, sort_to_indices};
use std::ops::Range;
use std::test::Fail;
use tests_support::Text;

const BOOLEANS: &[Option<bool>] = &[Some(true), None, Some(false)];

const BYTES: &[Option<&[u8]>] = &[Some(b"cde"), None, Some(b"ab")];

const TEXTS: &[Option<&str>] = &[Some("ab"), None, Some("cde")];

/// The least first, and nulls last.
const ASCENDING: SortOptions = SortOptions {
    descending: false,
    nulls_first: false,
};

/// The greatest first, and nulls last.
const DESCENDING: SortOptions = SortOptions {
    descending: true,
    nulls_first: false,
};

/// Writes indexes.
pub(crate) fn index_text(array: &PrimitiveArray<u64>) -> Text {
    Text::of(format_args!("{:?}", array.values().as_slice()))
}

/// Writes the numbers and the texts of sorted columns.
fn columns_text(columns: &Vec<SortedValues>) -> Text {
    let mut written = Text::new();
    for column in columns {
        written = match column {
            SortedValues::Int64(array) => {
                let values = Text::of(format_args!("{:?} ", array.values().as_slice()));
                written.and(values.as_str(), 100)
            }
            SortedValues::Utf8(array) => written.and(array_text(array).as_str(), 100),
            _ => written.and("another kind", 100),
        };
    }
    written
}

/// Writes ranges of rows.
fn ranges_text(ranges: &Vec<Range<usize>>) -> Text {
    Text::of(format_args!("{:?}", ranges.as_slice()))
}

#[test]
fn sorts_of_booleans_and_items_answer_again(rt: HostRuntime) -> Result<(), Fail> {
    let alloc = rt.alloc();
    let booleans = BooleanArray::from(alloc, BOOLEANS).expect(&rt, "refused");
    let bytes = BinaryArray::<i32>::from(alloc, BYTES).expect(&rt, "refused");
    let texts = Utf8Array::<i64>::from(alloc, TEXTS).expect(&rt, "refused");
    let is_refused = results! { &rt;
        index_text: sort_to_indices(alloc, &booleans, ASCENDING, None) => "[2, 0, 1]";
        index_text: sort_to_indices(alloc, &bytes, ASCENDING, None) => "[2, 0, 1]";
        index_text: sort_to_indices(alloc, &texts, DESCENDING, Some(2)) => "[2, 0]";
        boolean_text: sort(alloc, &booleans, ASCENDING, None) => "false true (false)";
        array_text: sort(alloc, &bytes, ASCENDING, None) => "<ab> <cde> (<>)";
        array_text: sort(alloc, &texts, DESCENDING, None) => "<cde> <ab> (<>)";
    };
    drop(texts);
    drop(bytes);
    drop(booleans);
    end(is_refused)
}

#[test]
fn sorts_of_rows_answer_again(rt: HostRuntime) -> Result<(), Fail> {
    let alloc = rt.alloc();
    let numbers = PrimitiveArray::from_slice(alloc, [7, 8, 7].as_slice()).expect(&rt, "refused");
    let texts = Utf8Array::<i32>::from(alloc, TEXTS).expect(&rt, "refused");
    let columns = [
        SortColumn {
            values: SortValues::Int64(&numbers),
            options: None,
        },
        SortColumn {
            values: SortValues::Utf8(&texts),
            options: Some(DESCENDING),
        },
    ];
    assert!(&rt; numbers.len() == texts.len(), "columns of one length");
    let is_refused = results! { &rt;
        index_text: lexsort_to_indices(alloc, &columns, None) => "[2, 0, 1]";
        index_text: lexsort_to_indices(alloc, &columns, Some(1)) => "[2]";
        columns_text: lexsort(alloc, &columns, None) => "[7, 7, 8] <cde> <ab> (<>)";
        ranges_text: lexicographical_partition_ranges(alloc, &columns) => "[0..1, 1..2, 2..3]";
    };
    drop(texts);
    drop(numbers);
    end(is_refused)
}

#[test]
fn selections_of_rows_answer_again(rt: HostRuntime) -> Result<(), Fail> {
    let alloc = rt.alloc();
    let values = [9, 8, 7, 6, 5, 4, 3, 2, 1, 9, 8, 7, 6, 5, 4, 3];
    let numbers = PrimitiveArray::from_slice(alloc, values.as_slice()).expect(&rt, "refused");
    let columns = [SortColumn {
        values: SortValues::Int64(&numbers),
        options: None,
    }];
    let is_refused = results! { &rt;
        index_text: lexsort_to_indices(alloc, &columns, Some(1)) => "[8]";
        columns_text: lexsort(alloc, &columns, Some(1)) => "[1] ";
    };
    drop(numbers);
    end(is_refused)
}
