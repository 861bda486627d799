//! Equality and text of arrays, and the text of builders.
use super::*;
use arrow_types::native_type::days_ms;
use tests_support::frozen_mask;

/// Creates an array of stored values and a mask.
pub(super) fn array_of(
    rt: &(impl Abort + AllocGlobal),
    (values, mask): Stored,
) -> PrimitiveArray<i64> {
    let values = buffer(rt, values);
    let mask = frozen_mask(rt.alloc(), mask).expect(rt, "memory");
    PrimitiveArray::try_new(DataType::Int64, values, mask).expect(rt, "parts that fit")
}

/// A name, two arrays, and whether they are equal.
#[rattlefmt::skip]
const PAIRS: &[(&str, Stored, Stored, bool)] = &[
    ("no slot", (&[], "none"), (&[], ""), true),
    ("a mask of valid slots", (&[1, 2], "none"), (&[1, 2], "11"), true),
    ("values under nulls", (&[1, 2, 3], "101"), (&[1, 5, 3], "101"), true),
    ("another value", (&[1, 2], "none"), (&[1, 3], "none"), false),
    ("another valid value", (&[1, 2, 3], "101"), (&[1, 2, 4], "101"), false),
    ("a null", (&[1, 2], "none"), (&[1, 2], "10"), false),
    ("one more", (&[1], "none"), (&[1, 2], "none"), false),
];

#[test]
fn arrays_are_equal_if_they_have_the_same_type_and_slots(rt: HostRuntime) {
    for (index, (case, first, second, expected)) in PAIRS.iter().enumerate() {
        let (first, second) = (array_of(&rt, *first), array_of(&rt, *second));
        let are_equal = first == second;
        drop(second);
        drop(first);
        assert_text::value(are_equal, *expected).expect(&rt, row(*case, index).as_str());
    }
    let first = array_of(&rt, (&[1, 2], "none"));
    let date = array_of(&rt, (&[1, 2], "none")).to(DataType::Date64);
    let (are_equal, text) = (first == date, Text::of(format_args!("{date}")));
    drop(date);
    drop(first);
    assert_text::value(are_equal, false).expect(&rt, "arrays of another data type differ");
    assert_text::text(text, "Date64[1, 2]").expect(&rt, "a date is written as its number");
}

/// A name, an array, the first slot and the number of slots of a slice of it, an array, and whether they are equal.
#[rattlefmt::skip]
const SLICES: &[(&str, Stored, [usize; 2], Stored, bool)] = &[
    ("without a mask", (&[1, 2, 3], "none"), [1, 2], (&[2, 3], "none"), true),
    ("no null is left of a mask", (&[1, 2, 3], "011"), [1, 2], (&[2, 3], "none"), true),
    ("a mask from within a byte on", (&[1, 2, 3], "101"), [1, 2], (&[9, 3], "01"), true),
    ("another slot is null", (&[1, 2, 3], "101"), [1, 2], (&[2, 3], "10"), false),
    ("another value", (&[1, 2, 3], "101"), [1, 2], (&[2, 4], "01"), false),
    ("past a byte", (&[0, 0, 0, 0, 0, 0, 0, 0, 5, 6], "1111111101"), [8, 2], (&[0, 6], "01"), true),
    ("no slot", (&[1], "0"), [1, 0], (&[], "none"), true),
];

#[test]
fn a_slice_equals_an_array_of_its_slots(rt: HostRuntime) {
    for (index, (case, stored, range, other, expected)) in SLICES.iter().enumerate() {
        let (mut first, second) = (array_of(&rt, *stored), array_of(&rt, *other));
        let [start, count] = *range;
        assert!(rt;
            start <= first.len() && count <= first.len() - start,
            "a slice within the array"
        );
        first.slice(start, count);
        let are_equal = (first == second, second == first);
        drop(second);
        drop(first);
        assert_text::value(are_equal, (*expected, *expected)).expect(
            &rt,
            row(*case, index).as_str(),
        );
    }
}

/// A name, an array, and its text.
const TEXTS: &[(&str, Stored, &str)] = &[
    ("no slot", (&[], "none"), "Int64[]"),
    ("a null", (&[1, -2, 3], "101"), "Int64[1, None, 3]"),
];

#[test]
fn slots_are_written_behind_the_name(rt: HostRuntime) {
    for (index, (case, stored, expected)) in TEXTS.iter().enumerate() {
        let array = array_of(&rt, *stored);
        let debug = assert_text::debug(&array, *expected);
        let display = assert_text::display(&array, *expected);
        drop(array);
        debug.expect(&rt, row(*case, index).as_str());
        display.expect(&rt, row(*case, index).as_str());
    }
    let mut builder = MutablePrimitiveArray::new(rt.alloc());
    builder.push(Some(days_ms(1, 2))).expect(&rt, "memory");
    let array = builder.freeze().expect(&rt, "memory");
    let came = assert_text::debug(&array, "Interval(DayTime)[days_ms(1, 2)]");
    drop(array);
    came.expect(&rt, "an interval");
    let mut builder = MutablePrimitiveArray::new(rt.alloc());
    builder.push(Some(i256(-1, 1))).expect(&rt, "memory");
    let array = builder.freeze().expect(&rt, "memory");
    let expected = "Decimal256(32, 32)[-340282366920938463463374607431768211455]";
    let came = assert_text::debug(&array, expected);
    drop(array);
    came.expect(&rt, "a number of 256 bits");
}

#[test]
fn builders_are_written_by_fields(rt: HostRuntime) {
    let mut builder = MutablePrimitiveArray::<i16>::new(rt.alloc());
    builder.push(Some(-7)).expect(&rt, "memory");
    let expected = "MutablePrimitiveArray { data_type: Int16, values: [-7], validity: None }";
    assert_text::debug(&builder, expected).expect(&rt, "fields without a mask");
    builder.push(None).expect(&rt, "memory");
    let expected =
        "MutablePrimitiveArray { data_type: Int16, values: [-7, 0], validity: Some([0b______01]) }";
    assert_text::debug(&builder, expected).expect(&rt, "fields with a mask");
    assert_text::display(&builder, expected).expect(&rt, "fields with a mask");
    drop(builder);
}
