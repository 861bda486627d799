//! Layouts, texts and clones of data types. The texts are those of Rust's `{:?}` for Arrow's names.
use crate::types::made::{extension, timestamp, two_extensions};
use arrow_types::data_type::DataType;
use arrow_types::physical_type::PhysicalType;
use arrow_types::primitive_type::PrimitiveType;
use arrow_types::units::IntervalUnit::{DayTime, MonthDayNano, YearMonth};
use arrow_types::units::TimeUnit::{Microsecond, Millisecond, Nanosecond, Second};
use std::process::Abort;
use tests_support::{Text, assert_text, row};

/// Compares what a type and its physical type print with these, and the type with its clone.
fn check(rt: &(impl Abort + AllocGlobal), made: &DataType, text: &str, physical: &str) {
    let printed = made.to_string(rt.alloc()).expect(rt, "memory");
    assert_text::value(printed.as_str(), text).expect(rt, text);
    drop(printed);
    assert_text::debug(made, text).expect(rt, text);
    assert_text::display(made, text).expect(rt, text);
    let layout = Text::of(format_args!("{:?}", made.to_physical_type()));
    assert_text::text(layout, physical).expect(rt, text);
    let copy = made.clone().expect(rt, "memory");
    assert_text::value(&copy, made).expect(rt, text);
    drop(copy);
}

#[test]
fn types_have_a_text_a_layout_and_equal_clones(rt: HostRuntime) {
    // What a type prints, the type, and what its physical type prints.
    #[rattlefmt::skip]
    let types = [
        ("Int8", DataType::Int8, "Primitive(Int8)"),
        ("Int16", DataType::Int16, "Primitive(Int16)"),
        ("Int32", DataType::Int32, "Primitive(Int32)"),
        ("Int64", DataType::Int64, "Primitive(Int64)"),
        ("UInt8", DataType::UInt8, "Primitive(UInt8)"),
        ("UInt16", DataType::UInt16, "Primitive(UInt16)"),
        ("UInt32", DataType::UInt32, "Primitive(UInt32)"),
        ("UInt64", DataType::UInt64, "Primitive(UInt64)"),
        ("Decimal(5, 2)", DataType::Decimal(5, 2), "Primitive(Int128)"),
        ("Decimal(0, 18446744073709551615)", DataType::Decimal(0, usize::MAX), "Primitive(Int128)"),
        ("Decimal256(76, 0)", DataType::Decimal256(76, 0), "Primitive(Int256)"),
        ("Date32", DataType::Date32, "Primitive(Int32)"),
        ("Date64", DataType::Date64, "Primitive(Int64)"),
        ("Time32(Second)", DataType::Time32(Second), "Primitive(Int32)"),
        ("Time32(Nanosecond)", DataType::Time32(Nanosecond), "Primitive(Int32)"),
        ("Time64(Second)", DataType::Time64(Second), "Primitive(Int64)"),
        ("Time64(Microsecond)", DataType::Time64(Microsecond), "Primitive(Int64)"),
        ("Time64(Nanosecond)", DataType::Time64(Nanosecond), "Primitive(Int64)"),
        ("Duration(Millisecond)", DataType::Duration(Millisecond), "Primitive(Int64)"),
        ("Interval(YearMonth)", DataType::Interval(YearMonth), "Primitive(Int32)"),
        ("Interval(DayTime)", DataType::Interval(DayTime), "Primitive(DaysMs)"),
        ("Interval(MonthDayNano)", DataType::Interval(MonthDayNano), "Primitive(MonthDayNano)"),
        ("Boolean", DataType::Boolean, "Boolean"),
        ("Binary", DataType::Binary, "Binary"),
        ("LargeBinary", DataType::LargeBinary, "LargeBinary"),
        ("Utf8", DataType::Utf8, "Utf8"),
        ("LargeUtf8", DataType::LargeUtf8, "LargeUtf8"),
    ];
    for (text, data_type, physical) in types.iter() {
        check(&rt, data_type, *text, *physical);
    }
    drop(types);
}

/// Zones that are none, ASCII, escaped, or beyond ASCII, and what a time with them prints.
const ZONES: &[(Option<&str>, &str)] = &[
    (None, "Timestamp(Microsecond, None)"),
    (Some("UTC"), "Timestamp(Microsecond, Some(\"UTC\"))"),
    (Some("\"\\"), "Timestamp(Microsecond, Some(\"\\\"\\\\\"))"),
    (Some("Zürich"), "Timestamp(Microsecond, Some(\"Zürich\"))"),
    (
        Some("a\n\u{1f}'\u{301}"),
        "Timestamp(Microsecond, Some(\"a\\n\\u{1f}'\u{301}\"))",
    ),
];

#[test]
fn timestamps_print_their_zones(rt: HostRuntime) {
    for (zone, text) in ZONES {
        let time = timestamp(&rt, Microsecond, *zone);
        check(&rt, &time, *text, "Primitive(Int64)");
        drop(time);
    }
}

#[test]
fn is_extension_is_true_of_extensions_alone(rt: HostRuntime) {
    let text = DataType::Utf8;
    assert_text::value(text.is_extension(), false).expect(&rt, "text");
    drop(text);
    let names = extension(&rt, "names", DataType::Utf8, None);
    let is_extension = names.is_extension();
    drop(names);
    assert_text::value(is_extension, true).expect(&rt, "an extension of text");
}

#[test]
fn extensions_print_what_they_extend(rt: HostRuntime) {
    let names = extension(&rt, "names", DataType::Utf8, None);
    check(&rt, &names, "Extension(\"names\", Utf8, None)", "Utf8");
    drop(names);
    let ages = two_extensions(&rt);
    let text =
        "Extension(\"ages\", Extension(\"months\", Interval(YearMonth), None), Some(\"whole\"))";
    check(&rt, &ages, text, "Primitive(Int32)");
    drop(ages);
    let foreign = extension(&rt, "名前", DataType::Utf8, Some("Übersicht 😀"));
    let text = "Extension(\"名前\", Utf8, Some(\"Übersicht 😀\"))";
    check(&rt, &foreign, text, "Utf8");
    drop(foreign);
}

#[test]
fn a_type_is_right_for_its_own_layout_alone(rt: HostRuntime) {
    let (narrow, wide) = (
        PhysicalType::Primitive(PrimitiveType::Int32),
        PhysicalType::Primitive(PrimitiveType::Int64),
    );
    let date = DataType::Date64;
    assert_text::value(
        [date.is_right_for(wide), date.is_right_for(narrow)],
        [true, false],
    )
    .expect(&rt, "Int64 and Int32 for Date64");
    drop(date);
    let months = two_extensions(&rt);
    assert_text::value(
        [months.is_right_for(wide), months.is_right_for(narrow)],
        [false, true],
    )
    .expect(&rt, "Int64 and Int32 for extended months");
    drop(months);
}

#[test]
fn native_types_have_default_types(rt: HostRuntime) {
    #[rattlefmt::skip]
    let types = [
        (PrimitiveType::Int8, DataType::Int8),
        (PrimitiveType::Int16, DataType::Int16),
        (PrimitiveType::Int32, DataType::Int32),
        (PrimitiveType::Int64, DataType::Int64),
        (PrimitiveType::Int128, DataType::Decimal(32, 32)),
        (PrimitiveType::Int256, DataType::Decimal256(32, 32)),
        (PrimitiveType::UInt8, DataType::UInt8),
        (PrimitiveType::UInt16, DataType::UInt16),
        (PrimitiveType::UInt32, DataType::UInt32),
        (PrimitiveType::UInt64, DataType::UInt64),
        (PrimitiveType::DaysMs, DataType::Interval(DayTime)),
        (PrimitiveType::MonthDayNano, DataType::Interval(MonthDayNano)),
    ];
    for (index, (primitive, expected)) in types.iter().enumerate() {
        let came = primitive.default_data_type();
        assert_text::value(&came, expected).expect(&rt, row("a default type", index).as_str());
        drop(came);
    }
    drop(types);
}
