//! Arrays of any kind, by the trait alone.
ghost use Rattle.std.specs.Prelude.{◌≡◌, ◌<◌, Some, length, not, slice_get};
ghost use Rattle.arrow_column.specs.Column.{marks_of};

use crate::arrays::{booleans, check_mask, check_value, items, numbers};
use arrow_binary::BinaryArray;
use arrow_boolean::BooleanArray;
use arrow_column::Array;
use arrow_primitive::PrimitiveArray;
use arrow_types::data_type::DataType;
use arrow_utf8::Utf8Array;
use std::process::Abort;
use tests_support::{Text, assert_text};

/// Returns whether a slot is null or past the last.
fn is_null_or_past<A: Array>(array: &A, i: usize) -> bool
    ensures { i < length (A.column array.now).rows → slice_get (marks_of (A.column array.now)) i ≡ Some (not result) }
{
    i >= array.len() || array.is_null(i)
}

/// Compares what the trait tells of an array of two slots, the second of which is null, and of none. The data type's name
/// is `name`.
fn check<A: Array + Drop>(rt: &impl Abort, name: &str, array: A, empty: A) {
    let of = Text::of(format_args!("{}", array.data_type()));
    assert_text::text(of, name).expect(rt, name);
    check_value(
        rt,
        name,
        (array.len(), array.is_empty(), array.null_count()),
        (2, false, 1),
    );
    check_mask(rt, name, array.validity(), "10");
    check_value(
        rt,
        name,
        [0, 1, 2].map(|i| is_null_or_past(&array, i)),
        [false, true, true],
    );
    assert!(rt; array.len() == 2);
    check_value(rt, name, array.is_valid(0), true);
    drop(array);
    check_value(
        rt,
        name,
        (empty.len(), empty.is_empty(), empty.null_count()),
        (0, true, 0),
    );
    check_mask(rt, name, empty.validity(), "none");
    drop(empty);
}

#[test]
fn each_kind_of_array_tells_what_all_have(rt: HostRuntime) {
    let alloc = rt.alloc();
    let array = numbers(&rt, &[Some(7i64), None]);
    let empty = PrimitiveArray::<i64>::new_empty(alloc, DataType::Int64);
    check(&rt, "Int64", array, empty.expect(&rt, "memory"));
    let array = booleans(&rt, &[Some(true), None]);
    let empty = BooleanArray::new_empty(alloc, DataType::Boolean);
    check(&rt, "Boolean", array, empty.expect(&rt, "memory"));
    let array: Utf8Array<i32> = items(&rt, &[Some("é"), None]);
    let empty = Utf8Array::<i32>::default(alloc);
    check(&rt, "Utf8", array, empty.expect(&rt, "memory"));
    let array: BinaryArray<i64> = items(&rt, &[Some(b"\xff".as_slice()), None]);
    let empty = BinaryArray::<i64>::default(alloc);
    check(&rt, "LargeBinary", array, empty.expect(&rt, "memory"));
}
