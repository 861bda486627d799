//! Equality and text of arrays and of builders.
use super::*;

/// A name, two arrays, and whether they are equal.
const PAIRS: &[(&str, Stored, Stored, bool)] = &[
    ("no slot", ("", "none"), ("", ""), true),
    ("values under nulls", ("101", "011"), ("001", "011"), true),
    ("another value", ("101", "011"), ("111", "011"), false),
    ("a null", ("101", "111"), ("101", "011"), false),
    ("one more", ("1", "none"), ("10", "none"), false),
];

#[test]
fn arrays_are_equal_if_they_have_the_same_slots(rt: HostRuntime) {
    for (index, (case, first, second, expected)) in PAIRS.iter().enumerate() {
        let (first, second) = (array_of(&rt, *first), array_of(&rt, *second));
        let are_equal = first == second;
        drop(second);
        drop(first);
        assert_text::value(are_equal, *expected).expect(&rt, row(*case, index).as_str());
    }
}

/// A name, an array, the first slot and the number of slots of a slice of it, an array, and whether they are equal.
#[rattlefmt::skip]
const SLICES: &[(&str, Stored, [usize; 2], Stored, bool)] = &[
    ("within a byte", ("0110", "none"), [1, 2], ("11", "none"), true),
    ("no null is left of a mask", ("0110", "0110"), [1, 2], ("11", "none"), true),
    ("a mask from within a byte on", ("01101", "11011"), [1, 4], ("1001", "1011"), true),
    ("another slot is null", ("01101", "11011"), [1, 4], ("1101", "1101"), false),
    ("another value", ("01101", "11011"), [1, 4], ("1100", "1011"), false),
    ("past a byte", ("111111111010", "111111110110"), [8, 4], ("0011", "0110"), true),
    ("past a byte, another mask", ("111111111010", "111111110110"), [8, 4], ("1010", "none"), false),
    ("no slot", ("1", "0"), [1, 0], ("", "none"), true),
];

#[test]
fn a_slice_equals_an_array_of_its_slots(rt: HostRuntime) {
    for (index, (case, stored, range, other, expected)) in SLICES.iter().enumerate() {
        let (mut first, second) = (array_of(&rt, *stored), array_of(&rt, *other));
        let [start, count] = *range;
        assert!(rt;
            start <= first.len() && count <= first.len() - start,
            "a slice within the array"
        );
        first.slice(start, count);
        let are_equal = (first == second, second == first);
        drop(second);
        drop(first);
        assert_text::value(are_equal, (*expected, *expected)).expect(
            &rt,
            row(*case, index).as_str(),
        );
    }
}

/// Eight slots that are true, and a ninth that is true, false, or a null.
const TRUE: Stored = ("111111111", "none");

const FALSE: Stored = ("111111110", "none");

const NULL: Stored = ("111111110", "111111110");

/// A name, two builders, and whether they are equal.
const COMPARED: &[(&str, Stored, Stored, bool)] = &[
    ("other values of nulls", ("10", "10"), ("11", "10"), true),
    ("the same value", TRUE, TRUE, true),
    ("another value", TRUE, FALSE, false),
    ("a value and a null", FALSE, NULL, false),
    ("a null and a value", NULL, FALSE, false),
];

/// Creates a builder of these parts.
fn builder(rt: &(impl Abort + AllocGlobal), (values, mask): Stored) -> MutableBooleanArray {
    let values = growing_mask(rt.alloc(), values).expect(rt, "memory");
    let values = values.expect(rt, "stored values");
    let mask = growing_mask(rt.alloc(), mask).expect(rt, "memory");
    MutableBooleanArray::try_new(DataType::Boolean, values, mask).expect(rt, "parts that fit")
}

#[test]
fn slots_are_compared_without_the_stored_values_of_nulls(rt: HostRuntime) {
    for (index, (case, first, second, expected)) in COMPARED.iter().enumerate() {
        let (left, right) = (builder(&rt, *first), builder(&rt, *second));
        let are_equal = left == right;
        drop(right);
        drop(left);
        assert_text::value(are_equal, *expected).expect(&rt, row(*case, index).as_str());
    }
}

#[test]
fn slots_are_written_behind_the_name(rt: HostRuntime) {
    let array = array_of(&rt, ("101", "110"));
    let expected = "BooleanArray[true, false, None]";
    assert_text::debug(&array, expected).expect(&rt, "an array");
    assert_text::display(&array, expected).expect(&rt, "an array");
    drop(array);
}

#[test]
fn an_extension_is_written_in_place_of_the_name(rt: HostRuntime) {
    let name = String::from_str(rt.alloc(), "flags").expect(&rt, "memory");
    let inner = Box::new(rt.alloc(), DataType::Boolean).expect(&rt, "memory");
    let data_type = DataType::Extension(name, inner, None);
    let mask = Some(bits(&rt, "110"));
    let array = BooleanArray::try_new(data_type, bits(&rt, "101"), mask);
    let array = array.expect(&rt, "an extension of booleans");
    let expected = "Extension(\"flags\", Boolean, None)[true, false, None]";
    assert_text::debug(&array, expected).expect(&rt, "an extension");
    assert_text::display(&array, expected).expect(&rt, "an extension");
    drop(array);
}

#[test]
fn builders_are_written_by_fields(rt: HostRuntime) {
    let mut builder = MutableBooleanArray::new(rt.alloc());
    builder.push(Some(true)).expect(&rt, "memory");
    let expected =
        "MutableBooleanArray { data_type: Boolean, values: [0b_______1], validity: None }";
    assert_text::debug(&builder, expected).expect(&rt, "no mask");
    builder.push(None).expect(&rt, "memory");
    let expected =
        "MutableBooleanArray { data_type: Boolean, values: [0b______01], validity: Some([0b______01]) }";
    assert_text::debug(&builder, expected).expect(&rt, "a mask");
    assert_text::display(&builder, expected).expect(&rt, "a mask");
    drop(builder);
}
