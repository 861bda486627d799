//! Filters of runs of rows, which end around the ends of words. Each is compared with an array of the slots of the rows that
//! are set, which were pushed one by one.
use crate::arrays::{booleans, check_value, items, numbers};
use arrow_boolean::BooleanArray;
use arrow_kernels::{filter_boolean, filter_primitive, filter_utf8};
use arrow_types::data_type::DataType;
use arrow_utf8::Utf8Array;
use std::process::Abort;
use tests_support::Text;

/// A name, and lengths of runs of rows that are set and clear in turns, which are repeated.
#[rattlefmt::skip]
const RUNS: &[(&str, &[usize])] = &[
    ("every row, 1", &[1]),
    ("no row, 0", &[0, 1]),
    ("every second row, 10", &[1, 1]),
    ("one row of thirty", &[1, 29]),
    ("a hole in the last row of each word", &[63, 1]),
    ("a hole in the first row of each word", &[0, 1, 63]),
    ("two holes in a word", &[20, 1, 30, 1, 12]),
    ("runs over the ends of words", &[100, 30]),
    ("whole words", &[128, 64]),
    ("a word and a half", &[96, 32]),
    ("short runs", &[9, 2]),
    ("99 rows of 100", &[99, 1]),
    ("001", &[0, 2, 1]),
    ("1111110", &[6, 1]),
    ("0000000001", &[0, 9, 1]),
];

/// Numbers of rows, and the row of the filter's array at which it begins.
const ROWS: &[(usize, usize)] = &[
    (63, 0),
    (64, 0),
    (65, 5),
    (128, 0),
    (130, 1),
    (300, 0),
    (1000, 0),
    (1000, 67),
];

/// Returns whether the row at a place of the runs is set.
fn is_set(lengths: &[usize], place: usize) -> bool {
    let mut left = place;
    let mut set = true;
    for length in lengths {
        if left < *length {
            return set;
        }
        left -= *length;
        set = !set;
    }
    false
}

/// Returns the marks of `count` rows of runs.
fn marks_of(rt: &(impl Abort + AllocGlobal), lengths: &[usize], count: usize) -> Vec<bool> {
    let mut period = 0usize;
    for length in lengths {
        period = period.saturating_add(*length);
    }
    assert!(rt; period > 0);
    let mut marks = Vec::new(rt.alloc());
    for row in 0..count {
        marks
            .push(is_set(lengths, row % period))
            .expect(rt, "memory");
    }
    marks
}

/// Calls `check` with the name of each case, the filter, and its marks.
fn for_each_filter<R: Abort + AllocGlobal, F: FnMut(&str, &BooleanArray, &[bool])>(
    rt: &R,
    mut check: F,
)
    requires { F.IsAlwaysCallable check }
{
    for (index, (case, lengths)) in RUNS.iter().enumerate() {
        for (count, offset) in ROWS {
            let name = Text::of(format_args!("row {index}, {case}, {count} rows from {offset}"));
            let marks = marks_of(rt, *lengths, (*count).saturating_add(*offset));
            let filter = BooleanArray::from_slice(rt.alloc(), &marks).expect(rt, "memory");
            assert!(rt; *offset <= filter.len() && *count <= filter.len() - *offset);
            let filter = filter.sliced(*offset, *count);
            assert!(rt; *offset <= marks.len());
            check(name.as_str(), &filter, &marks[*offset..]);
            drop(filter);
            drop(marks);
        }
    }
}

/// Returns the slots of all rows, whose values `value` makes, and those of the rows that are set. Each seventh row is null,
/// from the row `null` on.
fn slots_of<R: Abort + AllocGlobal, T: Copy, F: Fn(usize) -> T>(
    rt: &R,
    marks: &[bool],
    null: usize,
    value: F,
) -> (Vec<Option<T>>, Vec<Option<T>>)
    requires { F.IsAlwaysCallable value }
{
    let (mut all, mut kept) = (Vec::new(rt.alloc()), Vec::new(rt.alloc()));
    for (row, is_kept) in marks.iter().enumerate() {
        let slot = if row % 7 == null {
            None
        } else {
            Some(value(row))
        };
        all.push(slot).expect(rt, "memory");
        if *is_kept {
            kept.push(slot).expect(rt, "memory");
        }
    }
    (all, kept)
}

/// Texts, of which each row has one in turns.
const TEXTS: &[&str] = &[
    "",
    "a",
    "bcdefghij",
    "klmnopqrstuvwxyzklmnopqrstuvwxyz",
    "\u{e4}\u{20ac}",
];

/// A test, and the first row that is null: none if it is 7.
const NULLS: &[(&str, usize)] = &[
    ("numbers of runs are kept", 3),
    ("long filters keep slots at true", 7),
];

#[test]
fn slots_of_runs_are_kept(rt: HostRuntime) {
    let alloc = rt.alloc();
    for_each_filter(&rt, |name, filter, marks| {
        for (test, null) in NULLS {
            let row = Text::of(format_args!("{test}: {name}"));
            let (all, kept) = slots_of(&rt, marks, *null, |row| (row % 1_000_000) as i64);
            let array = numbers(&rt, &all).to(DataType::Date64);
            let expected = numbers(&rt, &kept).to(DataType::Date64);
            drop((all, kept));
            assert!(rt; filter.len() == array.len());
            let kept = filter_primitive(alloc, &array, filter).expect(&rt, "memory");
            drop(array);
            let masks = (kept.validity().is_some(), expected.validity().is_some());
            check_value(&rt, row.as_str(), masks.0, masks.1);
            check_value(&rt, row.as_str(), kept, expected);
        }
        let row = Text::of(format_args!("booleans of runs are kept: {name}"));
        let (all, kept) = slots_of(&rt, marks, 3, |row| row % 3 == 0);
        let array = booleans(&rt, &all);
        let expected = booleans(&rt, &kept);
        drop((all, kept));
        assert!(rt; filter.len() == array.len());
        let kept = filter_boolean(alloc, &array, filter).expect(&rt, "memory");
        drop(array);
        check_value(&rt, row.as_str(), kept, expected);
        let row = Text::of(format_args!("texts of runs are kept: {name}"));
        let (all, kept) = slots_of(&rt, marks, 3, |row| TEXTS[row % TEXTS.len()]);
        let array: Utf8Array<i32> = items(&rt, &all);
        let expected: Utf8Array<i32> = items(&rt, &kept);
        drop((all, kept));
        assert!(rt; filter.len() == array.len());
        let kept = filter_utf8(alloc, &array, filter).expect(&rt, "memory");
        drop(array);
        check_value(&rt, row.as_str(), kept, expected);
    });
}
