//! The slots of an array under another data type.
use crate::arrays::{check_mask, check_numbers, check_value, row, stored_items, stored_numbers};
use arrow_bytes::{Binary, Utf8};
use arrow_types::data_type::DataType;
use arrow_types::error::Error;
use arrow_types::offset::Offset;
use arrow_types::units::TimeUnit;
use compute_cast::{binary_to_utf8, primitive_to_same_primitive, utf8_to_binary};

#[test]
fn bytes_become_text_if_they_are_utf8(rt: HostRuntime) {
    let bytes = "\u{ef}\u{e9}".as_bytes();
    let array = stored_items::<Binary, i32>(&rt, (&[0, 2, 4], bytes, "10"));
    let made = binary_to_utf8(&array, DataType::Utf8).expect(&rt, "memory");
    drop(array);
    check_value(&rt, "the same bytes", made.values().as_slice(), bytes);
    check_value(&rt, "the new type", made.data_type(), &DataType::Utf8);
    check_mask(&rt, "the same mask", made.validity(), "10");
    drop(made);
    let array = stored_items::<Binary, i32>(&rt, (&[0, 2, 4], b"hi\xff\xff", "10"));
    for (index, (case, data_type)) in [
        ("a null that stores no text", DataType::Utf8),
        ("no text, and the wrong type", DataType::LargeUtf8),
    ]
    .into_iter()
    .enumerate()
    {
        let row = row("binary_to_utf8", "Binary", index, case);
        check_value(
            &rt,
            row.as_str(),
            binary_to_utf8(&array, data_type).err(),
            Some(Error::OutOfSpec("every text between two offsets must be UTF-8")),
        );
    }
    drop(array);
}

#[test]
fn bytes_become_no_text_of_another_type(rt: HostRuntime) {
    let array = stored_items::<Binary, i32>(&rt, (&[0, 2, 4], b"hi\xc3\xa9", "10"));
    for (index, (case, data_type)) in [
        ("the type of large offsets", DataType::LargeUtf8),
        ("the type of bytes", DataType::Binary),
    ]
    .into_iter()
    .enumerate()
    {
        let row = row("binary_to_utf8", "Binary", index, case);
        let text = "Utf8Array can only be initialized with DataType::Utf8 or DataType::LargeUtf8";
        check_value(
            &rt,
            row.as_str(),
            binary_to_utf8(&array, data_type).err(),
            Some(Error::OutOfSpec(text)),
        );
    }
    drop(array);
}

/// A name, offsets, bytes and marks of text. The items of the last row lie between other bytes.
#[rattlefmt::skip]
const TEXTS: &[(&str, &[usize], &[u8], &str)] = &[
    ("no slot", &[0], b"", "none"),
    ("without a mask", &[0, 2, 2, 4], b"hi\xc3\xa9", "none"),
    ("a null that stores a text", &[0, 2, 4], b"hi\xc3\xa9", "10"),
    ("bytes around", &[1, 3, 3], b"\xffhi\xff", "11"),
];

#[test]
fn text_becomes_the_same_bytes(rt: HostRuntime) {
    for (index, (case, offsets, bytes, mask)) in TEXTS.iter().enumerate() {
        let array = stored_items::<Utf8, i64>(&rt, (*offsets, *bytes, *mask));
        let made = utf8_to_binary(&array, DataType::LargeBinary).expect(&rt, "memory");
        drop(array);
        let row = row("utf8_to_binary", "LargeUtf8", index, *case);
        let row = row.as_str();
        let came = made.offsets().buffer().as_slice();
        check_value(&rt, row, came.len(), offsets.len());
        for (i, (offset, expected)) in came.iter().zip(offsets.iter()).enumerate() {
            check_value(&rt, row, (i, offset.try_to_usize()), (i, Some(*expected)));
        }
        check_value(&rt, row, made.values().as_slice(), *bytes);
        check_mask(&rt, row, made.validity(), *mask);
        check_value(&rt, row, made.data_type(), &DataType::LargeBinary);
        drop(made);
    }
}

/// A name, values, marks, and the slots under another type.
#[rattlefmt::skip]
const SAME: &[(&str, &[i64], &str, &str)] = &[
    ("no slot", &[], "none", "[]"),
    ("without a mask", &[3, -1], "none", "[3 -1]"),
    ("a needless mask", &[3, -1], "11", "[3 -1]"),
    ("a null", &[3, -1, 7], "101", "[3 _ 7]"),
];

#[test]
fn numbers_become_the_same_of_another_type(rt: HostRuntime) {
    for (index, (case, values, mask, slots)) in SAME.iter().enumerate() {
        let array = stored_numbers::<i64>(&rt, DataType::Int64, *values, *mask);
        let duration = DataType::Duration(TimeUnit::Second);
        let made = primitive_to_same_primitive(&array, duration).expect(&rt, "memory");
        let row = row("primitive_to_same_primitive", "Int64", index, *case);
        let row = row.as_str();
        check_value(&rt, row, made.values().as_slice(), *values);
        drop(array);
        let duration = DataType::Duration(TimeUnit::Second);
        check_numbers(&rt, row, Ok(made), Ok((*slots, *mask)), &duration);
        drop(duration);
    }
}
