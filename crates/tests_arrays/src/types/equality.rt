//! Equality of data types, part by part.
use crate::types::made::{extension, timestamp};
use arrow_types::data_type::DataType;
use arrow_types::units::IntervalUnit::{DayTime, YearMonth};
use arrow_types::units::TimeUnit::{self, Millisecond, Nanosecond, Second};
use std::process::Abort;
use tests_support::{assert_text, row};

#[test]
fn equality_sees_units_and_digits(rt: HostRuntime) {
    #[rattlefmt::skip]
    let different = [
        ("name", DataType::Int32, DataType::Date32),
        ("offsets", DataType::Binary, DataType::LargeBinary),
        ("unit", DataType::Time32(Second), DataType::Time32(Millisecond)),
        ("width", DataType::Time32(Second), DataType::Time64(Second)),
        ("unit", DataType::Duration(Second), DataType::Duration(Nanosecond)),
        ("unit", DataType::Interval(YearMonth), DataType::Interval(DayTime)),
        ("digits", DataType::Decimal(5, 2), DataType::Decimal(6, 2)),
        ("scale", DataType::Decimal(5, 2), DataType::Decimal(5, 3)),
        ("digits", DataType::Decimal256(6, 2), DataType::Decimal256(5, 2)),
        ("scale", DataType::Decimal256(5, 3), DataType::Decimal256(5, 2)),
        ("width", DataType::Decimal(5, 2), DataType::Decimal256(5, 2)),
    ];
    for (index, (case, first, second)) in different.iter().enumerate() {
        let came = (first, second, *first == *second);
        let name = row(*case, index);
        assert_text::value(came, (first, second, false)).expect(&rt, name.as_str());
    }
    drop(different);
}

/// A name, the unit and the zone of a time, and whether it equals a time of seconds in UTC.
const TIMES: &[(&str, TimeUnit, Option<&str>, bool)] = &[
    ("the same", Second, Some("UTC"), true),
    ("another unit", Millisecond, Some("UTC"), false),
    ("another zone", Second, Some("UTC+1"), false),
    ("an empty zone", Second, Some(""), false),
    ("no zone", Second, None, false),
];

#[test]
fn equality_sees_zones(rt: HostRuntime) {
    let universal = timestamp(&rt, Second, Some("UTC"));
    for (index, (case, unit, zone, expected)) in TIMES.iter().enumerate() {
        let time = timestamp(&rt, *unit, *zone);
        let are_equal = time == universal;
        drop(time);
        assert_text::value(are_equal, *expected).expect(&rt, row(*case, index).as_str());
    }
    drop(universal);
}

/// The names of an extension and of the one that it extends, the unit of the duration that that extends, and the
/// metadata of the first.
type Nested = (&'static str, &'static str, TimeUnit, Option<&'static str>);

/// Creates the extension of these parts.
fn nested(rt: &(impl Abort + AllocGlobal), (name, within, unit, metadata): Nested) -> DataType {
    let inner = extension(rt, within, DataType::Duration(unit), None);
    extension(rt, name, inner, metadata)
}

/// An `id` of a `row` of seconds, without metadata.
const BARE: Nested = ("id", "row", Second, None);

/// A name, an extension, and whether it equals that one.
const EXTENSIONS: &[(&str, Nested, bool)] = &[
    ("the same", BARE, true),
    ("empty metadata", ("id", "row", Second, Some("")), false),
    ("metadata", ("id", "row", Second, Some("x")), false),
    ("another name", ("ID", "row", Second, None), false),
    ("another inner name", ("id", "rows", Second, None), false),
    ("names changed places", ("row", "id", Second, None), false),
    ("another inner type", ("id", "row", Nanosecond, None), false),
];

#[test]
fn equality_sees_each_part_of_an_extension(rt: HostRuntime) {
    let bare = nested(&rt, BARE);
    for (index, (case, parts, expected)) in EXTENSIONS.iter().enumerate() {
        let other = nested(&rt, *parts);
        let are_equal = other == bare;
        drop(other);
        assert_text::value(are_equal, *expected).expect(&rt, row(*case, index).as_str());
    }
    drop(bare);
}
