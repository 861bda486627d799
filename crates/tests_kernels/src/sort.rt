//! Sorts. What each returns was worked out by hand.
use crate::arrays::{
    booleans, check_booleans, check_mask, check_numbers, check_slots, check_value, items, numbers,
    row,
};
use arrow_types::data_type::DataType;
use arrow_utf8::Utf8Array;
use compute_sort::SortOptions;
use compute_sort::lexsort::{SortColumn, SortValues, SortedValues, lexsort, lexsort_to_indices};
use compute_sort::partition::lexicographical_partition_ranges;
use compute_sort::sort::{sort, sort_to_indices};
use std::process::Abort;
use tests_support::Text;

const ASCENDING: SortOptions = SortOptions {
    descending: false,
    nulls_first: false,
};

const ASCENDING_NULLS_FIRST: SortOptions = SortOptions {
    descending: false,
    nulls_first: true,
};

const DESCENDING: SortOptions = SortOptions {
    descending: true,
    nulls_first: false,
};

const DESCENDING_NULLS_FIRST: SortOptions = SortOptions {
    descending: true,
    nulls_first: true,
};

/// A name, options, a limit, the indexes that sort, the slots there, and the mask.
type Case = (
    &'static str,
    SortOptions,
    Option<usize>,
    &'static str,
    &'static str,
    &'static str,
);

#[rattlefmt::skip]
const NUMBERS: &[Case] = &[
    ("ascending", ASCENDING, None, "[2 4 1 3 0 5]", "[1 2 3 3 _ _]", "111100"),
    ("ascending, nulls first", ASCENDING_NULLS_FIRST, None, "[0 5 2 4 1 3]", "[_ _ 1 2 3 3]", "001111"),
    ("descending", DESCENDING, None, "[1 3 4 2 0 5]", "[3 3 2 1 _ _]", "111100"),
    ("descending, nulls first", DESCENDING_NULLS_FIRST, None, "[0 5 1 3 4 2]", "[_ _ 3 3 2 1]", "001111"),
    ("the first two", ASCENDING, Some(2), "[2 4]", "[1 2]", "none"),
    ("none", DESCENDING, Some(0), "[]", "[]", "none"),
    ("a limit above the length", DESCENDING_NULLS_FIRST, Some(9), "[0 5 1 3 4 2]", "[_ _ 3 3 2 1]", "001111"),
];

/// Cases of 1, 1, 2, 3 and two nulls.
#[rattlefmt::skip]
const RISING: &[Case] = &[
    ("in order", ASCENDING, None, "[0 1 2 3 4 5]", "[1 1 2 3 _ _]", "111100"),
    ("nulls move", ASCENDING_NULLS_FIRST, None, "[4 5 0 1 2 3]", "[_ _ 1 1 2 3]", "001111"),
    ("equal numbers keep their order", DESCENDING_NULLS_FIRST, None, "[4 5 3 2 0 1]", "[_ _ 3 2 1 1]", "001111"),
    ("the first five", ASCENDING, Some(5), "[0 1 2 3 4]", "[1 1 2 3 _]", "11110"),
];

/// Cases of a null, 3, 2 and 1.
#[rattlefmt::skip]
const FALLING: &[Case] = &[
    ("in reverse order", ASCENDING, None, "[3 2 1 0]", "[1 2 3 _]", "1110"),
    ("in order", DESCENDING_NULLS_FIRST, None, "[0 1 2 3]", "[_ 3 2 1]", "0111"),
    ("the null moves", DESCENDING, None, "[1 2 3 0]", "[3 2 1 _]", "1110"),
    ("the first three in reverse", ASCENDING, Some(3), "[3 2 1]", "[1 2 3]", "none"),
];

/// Cases of twelve times the numbers from 0 to 99, where the slots at 7, 407 and 807 are null. The
/// limits are below an eighth of the slots, so the first slots are selected.
#[rattlefmt::skip]
const HUNDREDS: &[Case] = &[
    ("none", ASCENDING, Some(0), "[]", "[]", "none"),
    ("the least", ASCENDING, Some(1), "[0]", "[0]", "none"),
    ("the greatest", DESCENDING, Some(1), "[99]", "[99]", "none"),
    ("the first of equal numbers", ASCENDING, Some(5), "[0 100 200 300 400]", "[0 0 0 0 0]", "none"),
    ("descending, the first of equal numbers", DESCENDING, Some(5), "[99 199 299 399 499]", "[99 99 99 99 99]", "none"),
    ("equal numbers and the first two of others", ASCENDING, Some(14),
        "[0 100 200 300 400 500 600 700 800 900 1000 1100 1 101]", "[0 0 0 0 0 0 0 0 0 0 0 0 1 1]", "none"),
    ("descending, equal numbers and the first two of others", DESCENDING, Some(14),
        "[99 199 299 399 499 599 699 799 899 999 1099 1199 98 198]", "[99 99 99 99 99 99 99 99 99 99 99 99 98 98]", "none"),
    ("nulls first", ASCENDING_NULLS_FIRST, Some(5), "[7 407 807 0 100]", "[_ _ _ 0 0]", "00011"),
    ("descending, nulls first", DESCENDING_NULLS_FIRST, Some(5), "[7 407 807 99 199]", "[_ _ _ 99 99]", "00011"),
    ("fewer than the nulls", DESCENDING_NULLS_FIRST, Some(2), "[7 407]", "[_ _]", "00"),
];

/// Cases of "b", "ab", a null, "", "b" and "a".
#[rattlefmt::skip]
const TEXTS: &[Case] = &[
    ("ascending", ASCENDING, None, "[3 5 1 0 4 2]", "[\"\" \"a\" \"ab\" \"b\" \"b\" _]", "111110"),
    ("descending", DESCENDING, None, "[0 4 1 5 3 2]", "[\"b\" \"b\" \"ab\" \"a\" \"\" _]", "111110"),
];

const FOUR_TEXTS: &[&str; 4] = &["b", "a", "c", "ab"];

/// Cases of 400 times these.
#[rattlefmt::skip]
const MANY_TEXTS: &[Case] = &[
    ("ascending", ASCENDING, Some(3), "[1 5 9]", "[\"a\" \"a\" \"a\"]", "none"),
    ("descending", DESCENDING, Some(3), "[2 6 10]", "[\"c\" \"c\" \"c\"]", "none"),
];

/// Texts that begin alike.
#[rattlefmt::skip]
const ALIKE: &[Option<&str>] = &[
    Some("abcdé"), Some("abcd"), Some("abce"), Some("abc"), Some("zbcd"), Some("ébcd"), Some("abcdz"),
];

#[rattlefmt::skip]
const ALIKE_CASES: &[Case] = &[
    ("ascending", ASCENDING, None, "[3 1 6 0 2 4 5]",
        "[\"abc\" \"abcd\" \"abcdz\" \"abcdé\" \"abce\" \"zbcd\" \"ébcd\"]", "none"),
    ("descending", DESCENDING, None, "[5 4 2 0 6 1 3]",
        "[\"ébcd\" \"zbcd\" \"abce\" \"abcdé\" \"abcdz\" \"abcd\" \"abc\"]", "none"),
];

/// Sorts of true, a null, false, true and false: a name, options, or `None` for the default ones, the indexes that sort, the
/// slots there as texts of `t`, `f` and `_`, and the mask.
#[rattlefmt::skip]
const BOOLEANS: &[(&str, Option<SortOptions>, &str, &str, &str)] = &[
    ("ascending", Some(ASCENDING), "[2 4 0 3 1]", "fftt_", "11110"),
    ("by default, ascending, nulls first", None, "[1 2 4 0 3]", "_fftt", "01111"),
    ("descending, nulls first", Some(DESCENDING_NULLS_FIRST), "[1 0 3 2 4]", "_ttff", "01111"),
];

/// Sorts numbers by each case's options, up to its limit, and compares what comes with the case.
fn check_sorted_numbers(
    rt: &(impl Abort + AllocGlobal),
    test: &str,
    slots: &[Option<i32>],
    cases: &[Case],
) {
    let array = numbers(rt, slots);
    for (index, (case, options, limit, indexes, slots, mask)) in cases.iter().enumerate() {
        let row = row(test, "Int32", index, *case);
        let row = row.as_str();
        let keys = sort_to_indices(rt.alloc(), &array, *options, *limit).expect(rt, row);
        check_slots(rt, row, keys.iter(), *indexes);
        drop(keys);
        check_numbers(
            rt,
            row,
            sort(rt.alloc(), &array, *options, *limit),
            Ok((*slots, *mask)),
            &DataType::Int32,
        );
    }
    drop(array);
}

/// Sorts texts by each case's options, up to its limit, and compares what comes with the case.
fn check_sorted_texts(
    rt: &(impl Abort + AllocGlobal),
    test: &str,
    slots: &[Option<&str>],
    cases: &[Case],
) {
    let array: Utf8Array<i32> = items(rt, slots);
    for (index, (case, options, limit, indexes, slots, mask)) in cases.iter().enumerate() {
        let row = row(test, "Utf8", index, *case);
        let row = row.as_str();
        let keys = sort_to_indices(rt.alloc(), &array, *options, *limit).expect(rt, row);
        check_slots(rt, row, keys.iter(), *indexes);
        drop(keys);
        let sorted = sort(rt.alloc(), &array, *options, *limit).expect(rt, row);
        check_slots(rt, row, sorted.iter(), *slots);
        check_mask(rt, row, sorted.validity(), *mask);
        drop(sorted);
    }
    drop(array);
}

#[test]
fn numbers_texts_and_booleans_are_sorted(rt: HostRuntime) {
    let alloc = rt.alloc();
    let slots = &[None, Some(3), Some(1), Some(3), Some(2), None];
    check_sorted_numbers(&rt, "numbers are sorted", slots, NUMBERS);
    let mut slots = Vec::new(alloc);
    for i in 0..1200 {
        let slot = if i % 400 == 7 { None } else { Some(i % 100) };
        slots.push(slot).expect(&rt, "memory");
    }
    check_sorted_numbers(&rt, "first of many slots are sorted", &slots, HUNDREDS);
    drop(slots);
    check_sorted_texts(
        &rt,
        "texts are sorted by their bytes",
        &[Some("b"), Some("ab"), None, Some(""), Some("b"), Some("a")],
        TEXTS,
    );
    check_sorted_texts(&rt, "texts that begin alike are sorted", ALIKE, ALIKE_CASES);
    let mut slots = Vec::new(alloc);
    for i in 0..1600 {
        let text = FOUR_TEXTS[i % 4];
        slots.push(Some(text)).expect(&rt, "memory");
    }
    check_sorted_texts(&rt, "first of many texts are sorted", &slots, MANY_TEXTS);
    drop(slots);
    let array = booleans(
        &rt,
        &[Some(true), None, Some(false), Some(true), Some(false)],
    );
    for (index, (case, options, indexes, slots, mask)) in BOOLEANS.iter().enumerate() {
        let row = row("booleans are sorted", "Boolean", index, *case);
        let row = row.as_str();
        let options = (*options).unwrap_or(SortOptions::default());
        let keys = sort_to_indices(alloc, &array, options, None).expect(&rt, row);
        check_slots(&rt, row, keys.iter(), *indexes);
        drop(keys);
        check_booleans(
            &rt,
            row,
            "sort",
            sort(alloc, &array, options, None),
            (*slots, *mask),
        );
    }
    drop(array);
}

#[test]
fn slots_in_order_and_in_reverse_order_are_sorted(rt: HostRuntime) {
    let slots = &[Some(1), Some(1), Some(2), Some(3), None, None];
    check_sorted_numbers(&rt, "slots in order are sorted", slots, RISING);
    let slots = &[None, Some(3), Some(2), Some(1)];
    check_sorted_numbers(&rt, "slots in reverse order are sorted", slots, FALLING);
}

/// Limits below and above an eighth of 1,960 valid slots, and above all.
const LIMITS: &[usize] = &[0, 1, 9, 64, 240, 300, 2500];

const ORDERS: &[(&str, SortOptions)] = &[
    ("ascending", ASCENDING),
    ("ascending, nulls first", ASCENDING_NULLS_FIRST),
    ("descending", DESCENDING),
    ("descending, nulls first", DESCENDING_NULLS_FIRST),
];

#[test]
fn limit_cuts_the_sorted_indexes(rt: HostRuntime) {
    let alloc = rt.alloc();
    let mut slots = Vec::new(alloc);
    for i in 0..2000u32 {
        // Each number below 1,009 stands there once or twice.
        let slot = if i % 50 == 3 {
            None
        } else {
            Some((i * 7919 % 1009) as i32)
        };
        slots.push(slot).expect(&rt, "memory");
    }
    let array = numbers(&rt, &slots);
    drop(slots);
    for (case, options) in ORDERS {
        let (case, options) = (*case, *options);
        let all = sort_to_indices(alloc, &array, options, None).expect(&rt, case);
        for limit in LIMITS {
            let row = Text::of(format_args!("Int32, {case}, limit {limit}"));
            let row = row.as_str();
            let first = sort_to_indices(alloc, &array, options, Some(*limit)).expect(&rt, row);
            check_value(&rt, row, first.len(), all.len().min(*limit));
            for (i, (came, expected)) in first.iter().zip(all.iter()).enumerate() {
                check_value(&rt, row, (i, came), (i, expected));
            }
            drop(first);
        }
        drop(all);
    }
    drop(array);
}

/// A name, the options of names and of ages, a limit, the sorted indexes, and the sorted names and ages.
type RowsCase = (
    &'static str,
    Option<SortOptions>,
    Option<SortOptions>,
    Option<usize>,
    &'static str,
    &'static str,
    &'static str,
);

/// Cases of the names "b", "a", a null, "b" and "a", and the ages 5, 2, 9, a null and 2.
#[rattlefmt::skip]
const ROWS: &[RowsCase] = &[
    ("without options", None, None, None, "[2 1 4 3 0]", "[_ \"a\" \"a\" \"b\" \"b\"]", "[9 2 2 _ 5]"),
    ("the second descending", None, Some(DESCENDING), None, "[2 1 4 0 3]",
        "[_ \"a\" \"a\" \"b\" \"b\"]", "[9 2 2 5 _]"),
    ("both descending", Some(DESCENDING), Some(DESCENDING), None, "[0 3 1 4 2]",
        "[\"b\" \"b\" \"a\" \"a\" _]", "[5 _ 2 2 9]"),
    ("the first three", None, None, Some(3), "[2 1 4]", "[_ \"a\" \"a\"]", "[9 2 2]"),
    ("none", None, None, Some(0), "[]", "[]", "[]"),
    ("a limit above the length", None, None, Some(6), "[2 1 4 3 0]",
        "[_ \"a\" \"a\" \"b\" \"b\"]", "[9 2 2 _ 5]"),
];

/// Compares sorted names and ages with texts of their slots.
fn check_sorted_columns(
    rt: &impl Abort,
    row: &str,
    columns: &[SortedValues],
    names: &str,
    ages: &str,
) {
    check_value(rt, row, columns.len(), 2);
    for column in columns {
        match column {
            SortedValues::LargeUtf8(array) => check_slots(rt, row, array.iter(), names),
            SortedValues::UInt8(array) => check_slots(rt, row, array.iter(), ages),
            _ => assert!(rt; false, "a column of another kind"),
        }
    }
}

#[test]
fn rows_are_sorted_by_the_first_column_that_differs(rt: HostRuntime) {
    let names: Utf8Array<i64> = items(&rt, &[Some("b"), Some("a"), None, Some("b"), Some("a")]);
    let ages = numbers(&rt, &[Some(5u8), Some(2), Some(9), None, Some(2)]);
    for (index, (case, first, second, limit, expected, sorted_names, sorted_ages)) in ROWS
        .iter()
        .enumerate()
    {
        let row = row("rows", "LargeUtf8 and UInt8", index, *case);
        let columns = [
            SortColumn {
                values: SortValues::LargeUtf8(&names),
                options: *first,
            },
            SortColumn {
                values: SortValues::UInt8(&ages),
                options: *second,
            },
        ];
        assert!(rt; names.len() == ages.len(), "columns of one length");
        let keys = lexsort_to_indices(rt.alloc(), &columns, *limit).expect(&rt, row.as_str());
        check_slots(&rt, row.as_str(), keys.iter(), *expected);
        drop(keys);
        let sorted = lexsort(rt.alloc(), &columns, *limit).expect(&rt, row.as_str());
        check_sorted_columns(
            &rt,
            row.as_str(),
            sorted.as_slice(),
            *sorted_names,
            *sorted_ages,
        );
        drop(sorted);
    }
    drop(ages);
    drop(names);
}

#[test]
fn limit_cuts_the_sorted_rows(rt: HostRuntime) {
    let (mut tens, mut rest) = (Vec::new(rt.alloc()), Vec::new(rt.alloc()));
    for i in 0..2000u32 {
        // Each pair of numbers stands there once or twice, and a row with nulls 40 times.
        let is_null = i % 50 == 3;
        let (high, low) = ((i * 7919 % 1009 / 10) as i32, (i * 7919 % 1009 % 10) as i8);
        tens.push(if is_null { None } else { Some(high) })
            .expect(&rt, "memory");
        rest.push(if is_null { None } else { Some(low) })
            .expect(&rt, "memory");
    }
    let (tens, rest) = (numbers(&rt, &tens), numbers(&rt, &rest));
    for (case, options) in ORDERS {
        let columns = [
            SortColumn {
                values: SortValues::Int32(&tens),
                options: Some(*options),
            },
            SortColumn {
                values: SortValues::Int8(&rest),
                options: None,
            },
        ];
        assert!(rt; tens.len() == rest.len(), "columns of one length");
        let all = lexsort_to_indices(rt.alloc(), &columns, None).expect(&rt, *case);
        for limit in LIMITS {
            let row = Text::of(format_args!("rows, {}, limit {limit}", *case));
            let row = row.as_str();
            let first = lexsort_to_indices(rt.alloc(), &columns, Some(*limit)).expect(&rt, row);
            check_value(&rt, row, first.len(), all.len().min(*limit));
            for (i, (came, expected)) in first.iter().zip(all.iter()).enumerate() {
                check_value(&rt, row, (i, came), (i, expected));
            }
            drop(first);
        }
        drop(all);
    }
    drop(rest);
    drop(tens);
}

/// A name, the slots of two columns, and the ranges of equal rows.
type RangesCase = (
    &'static str,
    &'static [Option<i32>],
    &'static [Option<i32>],
    &'static str,
);

#[rattlefmt::skip]
const RANGES: &[RangesCase] = &[
    ("no rows", &[], &[], "[]"),
    ("one row", &[Some(1)], &[None], "[0..1]"),
    ("equal rows", &[Some(1), Some(1), Some(1)], &[Some(2), Some(2), Some(2)], "[0..3]"),
    ("different rows", &[Some(1), Some(2), Some(3)], &[Some(1), Some(1), Some(1)], "[0..1, 1..2, 2..3]"),
    ("the second column differs", &[Some(1), Some(1), Some(2), Some(2), Some(2)],
        &[Some(1), Some(2), Some(2), Some(2), Some(3)], "[0..1, 1..2, 2..4, 4..5]"),
    ("nulls are equal", &[None, None, Some(1)], &[None, None, None], "[0..2, 2..3]"),
    ("a null and a value differ", &[None, Some(0)], &[Some(1), Some(1)], "[0..1, 1..2]"),
    ("rows that are not sorted", &[Some(1), Some(2), Some(1)], &[None, None, None], "[0..1, 1..2, 2..3]"),
];

#[test]
fn ranges_of_equal_rows_follow_each_other(rt: HostRuntime) {
    for (index, (case, first, second, expected)) in RANGES.iter().enumerate() {
        let row = row("ranges", "Int32", index, *case);
        let (first, second) = (numbers(&rt, *first), numbers(&rt, *second));
        let columns = [
            SortColumn {
                values: SortValues::Int32(&first),
                options: None,
            },
            SortColumn {
                values: SortValues::Int32(&second),
                options: Some(DESCENDING),
            },
        ];
        assert!(rt; first.len() == second.len(), "columns of one length");
        let ranges = lexicographical_partition_ranges(rt.alloc(), &columns).expect(
            &rt,
            row.as_str(),
        );
        let came = Text::of(format_args!("{:?}", ranges.as_slice()));
        check_value(&rt, row.as_str(), came.as_str(), *expected);
        drop(ranges);
        drop(second);
        drop(first);
    }
}

#[test]
fn columns_have_a_length(rt: HostRuntime) {
    let names: Utf8Array<i32> = items(&rt, &[Some("b"), None]);
    let none = numbers::<i64>(&rt, &[]);
    let (names_values, none_values) = (SortValues::Utf8(&names), SortValues::Int64(&none));
    check_value(
        &rt,
        "texts",
        (names_values.len(), names_values.is_empty()),
        (2, false),
    );
    check_value(
        &rt,
        "numbers",
        (none_values.len(), none_values.is_empty()),
        (0, true),
    );
    drop(none);
    drop(names);
}
