//! Items that end one before the greatest offset, at it, and one past it, over offsets that end at 100. One past it is
//! refused as an overflow, and leaves nothing of it behind; the items before it stay.
use super::*;
use arrow_bytes::{ByteItem, ItemError};

/// A name, three items, slots of them, the expected answer, and how many items and bytes a builder has then.
type Row<'a, X> = (&'a str, &'a [X], &'a [Option<X>], &'a str, usize, usize);

macro_rules! row {
    ($case:literal, [$($item:expr),*], $answer:literal, $len:literal, $bytes:literal) => {
        ($case, &[$($item),*], &[$(Some($item)),*], $answer, $len, $bytes)
    };
}

/// Compares the answer of a call, and names the call.
fn check_call(rt: &impl Abort, case: &str, call: &str, came: &str, expected: &str) {
    assert_text::value((call, came), (call, expected)).expect(rt, case);
}

/// Compares the answers of all calls that extend a builder by the items of a row, and the builders then.
fn check_extended<K: ByteKind, X: ByteItem<K> + ItemError<Error = Error>>(
    rt: &(impl Abort + AllocGlobal),
    index: usize,
    (case, items, slots, answer, len, bytes): Row<'_, X>,
) {
    let name = case_of::<K, Tiny>(row(case, index).as_str());
    macro_rules! check_extend {
        ($($call:literal: $type:ident::$extend:ident($argument:expr);)*) => {
            $(
                let mut builder = $type::<K, Tiny>::new(rt.alloc()).expect(rt, "memory");
                let came = tells(builder.$extend($argument));
                let sizes = (builder.len(), builder.values().len());
                drop(builder);
                let came = ($call, came, sizes);
                assert_text::value(came, ($call, answer, (len, bytes))).expect(rt, name.as_str());
            )*
        };
    }
    check_extend! {
        "extend": MutableByteArray::extend(slots.iter().copied());
        "try_extend": MutableByteArray::try_extend(slots.iter().copied());
        "extend_values": MutableByteArray::extend_values(items.iter().copied());
        "extend without nulls": MutableByteValuesArray::extend(items.iter().copied());
        "try_extend without nulls": MutableByteValuesArray::try_extend(items.iter().copied());
    }
}

/// Compares the answers of all constructors from the items of a row.
fn check_made<K: ByteKind, X: ByteItem<K> + ItemError<Error = Error>>(
    rt: &(impl Abort + AllocGlobal),
    index: usize,
    (case, items, slots, answer, _, _): Row<'_, X>,
) {
    let name = case_of::<K, Tiny>(row(case, index).as_str());
    macro_rules! check_constructor {
        ($($call:literal: $type:ident::$constructor:ident($argument:expr);)*) => {
            $(
                let came = tells($type::<K, Tiny>::$constructor(rt.alloc(), $argument));
                check_call(rt, name.as_str(), $call, came, answer);
            )*
        };
    }
    check_constructor! {
        "from": MutableByteArray::from(slots);
        "from_iter": MutableByteArray::from_iter(slots.iter().copied());
        "from_iter_values": MutableByteArray::from_iter_values(items.iter().copied());
        "from_iter without nulls": MutableByteValuesArray::from_iter(items.iter().copied());
        "try_from_iter without nulls": MutableByteValuesArray::try_from_iter(items.iter().copied());
        "from_slice to an array": ByteArray::from_slice(items);
        "from to an array": ByteArray::from(slots);
        "from_iter to an array": ByteArray::from_iter(slots.iter().copied());
        "from_iter_values to an array": ByteArray::from_iter_values(items.iter().copied());
    }
}

#[rattlefmt::skip]
const BYTES: &[Row<'static, &[u8]>] = &[
    row!("up to 99", [&[7; 60], &[7; 39], &[]], "made", 3, 99),
    row!("up to 100", [&[7; 60], &[7; 40], &[]], "made", 3, 100),
    row!("up to 101, by the third", [&[7; 60], &[7; 40], &[7]], "overflow", 2, 100),
    row!("up to 101, by the second", [&[7; 60], &[7; 41], &[]], "overflow", 1, 60),
    row!("up to 101, from halves", [&[7; 50], &[7; 50], &[7]], "overflow", 2, 100),
];

/// Sixty bytes, and thirty-nine.
const EUROS: &str = "€€€€€€€€€€€€€€€€€€€€";

const ACCENTS: &str = "éééééééééééééééééééa";

#[rattlefmt::skip]
const TEXTS: &[Row<'static, &str>] = &[
    row!("up to 100", [EUROS, ACCENTS, "a"], "made", 3, 100),
    row!("up to 101, by two bytes", [EUROS, ACCENTS, "é"], "overflow", 2, 99),
    row!("up to 101, by a byte", [EUROS, "éééééééééééééééééééé", "a"], "overflow", 2, 100),
];

#[test]
fn items_end_at_the_greatest_offset(rt: HostRuntime) {
    for (index, row) in BYTES.iter().enumerate() {
        check_extended::<Binary, &[u8]>(&rt, index, *row);
        check_made::<Binary, &[u8]>(&rt, index, *row);
    }
    for (index, row) in TEXTS.iter().enumerate() {
        check_extended::<Utf8, &str>(&rt, index, *row);
        check_made::<Utf8, &str>(&rt, index, *row);
    }
}

/// Compares the answers to items that are pushed one after the other by each call, and the offsets after each.
macro_rules! check_pushes {
    ($rt:expr, $pushes:ident; $($made:expr, |$builder:ident, $item:ident| $push:expr;)*) => {
        $(
            let mut $builder = $made;
            for (index, (case, item, expected, offsets)) in $pushes.iter().enumerate() {
                let $item = *item;
                let name = row(*case, index);
                check_call($rt, name.as_str(), stringify!($push), tells($push), *expected);
                check_bytes($rt, name.as_str(), $builder.offsets().as_slice(), &[], (*offsets, &[]));
            }
            drop($builder);
        )*
    };
}

/// A name, an item that is pushed, the expected answer, and the offsets then.
const PUSHES: &[(&str, &[u8], &str, &[usize])] = &[
    ("up to 60", &[7; 60], "made", &[0, 60]),
    ("up to 101", &[7; 41], "overflow", &[0, 60]),
    ("up to 99", &[7; 39], "made", &[0, 60, 99]),
    ("up to 101, from 99", &[7; 2], "overflow", &[0, 60, 99]),
    ("up to 100", &[7], "made", &[0, 60, 99, 100]),
    ("no byte at 100", &[], "made", &[0, 60, 99, 100, 100]),
    ("a byte at 100", &[7], "overflow", &[0, 60, 99, 100, 100]),
];

/// Behind forty bytes.
const PUSHES_BEHIND: &[(&str, &[u8], &str, &[usize])] = &[
    ("up to 101, from 40", &[7; 61], "overflow", &[40]),
    ("up to 100, from 40", &[7; 60], "made", &[40, 100]),
];

const TEXT_PUSHES: &[(&str, &str, &str, &[usize])] = &[
    ("up to 60", EUROS, "made", &[0, 60]),
    ("up to 99", ACCENTS, "made", &[0, 60, 99]),
    ("two bytes from 99", "é", "overflow", &[0, 60, 99]),
    ("a byte from 99", "a", "made", &[0, 60, 99, 100]),
    ("a byte at 100", "a", "overflow", &[0, 60, 99, 100]),
];

#[test]
fn refused_bytes_and_text_leave_the_builder(rt: HostRuntime) {
    let (alloc, rt) = (rt.alloc(), &rt);
    check_pushes! { rt, PUSHES;
        MutableByteArray::<Binary, Tiny>::new(alloc).expect(rt, "memory"), |slots, item| slots.push(Some(item));
        MutableByteArray::<Binary, Tiny>::new(alloc).expect(rt, "memory"), |slots, item| slots.try_push(Some(item));
        MutableByteValuesArray::<Binary, Tiny>::new(alloc).expect(rt, "memory"), |items, item| items.push(item);
        MutableByteValuesArray::<Binary, Tiny>::new(alloc).expect(rt, "memory"), |items, item| items.try_push(item);
    }
    check_pushes! { rt, PUSHES_BEHIND;
        own_builder::<Binary, Tiny>(rt, (&[40], &[7; 40], "none")), |slots, item| slots.push(Some(item));
    }
    check_pushes! { rt, TEXT_PUSHES;
        MutableByteArray::<Utf8, Tiny>::new(alloc).expect(rt, "memory"), |slots, item| slots.push(Some(item));
        MutableByteArray::<Utf8, Tiny>::new(alloc).expect(rt, "memory"), |slots, item| slots.try_push(Some(item));
        MutableByteValuesArray::<Utf8, Tiny>::new(alloc).expect(rt, "memory"), |items, item| items.push(item);
        MutableByteValuesArray::<Utf8, Tiny>::new(alloc).expect(rt, "memory"), |items, item| items.try_push(item);
    }
}
