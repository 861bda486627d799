//! Takes by keys with nulls.
use crate::arrays::{
    NEGATIVE, Slots, TOO_GREAT, booleans, check_booleans, check_bytes, check_numbers, check_texts,
    check_value, items, numbers, row, stored_numbers,
};
use arrow_binary::BinaryArray;
use arrow_types::data_type::DataType;
use arrow_types::error::Error;
use arrow_utf8::Utf8Array;
use compute_select::take::{take_binary, take_boolean, take_primitive, take_utf8};
use tests_support::Tiny;

/// A name, the stored values and marks of keys, and the slots and marks that they take of a ten, a
/// null and a thirty.
type Case = (
    &'static str,
    (&'static [i8], &'static str),
    Result<Slots, Error>,
);

#[rattlefmt::skip]
const NUMBERS: &[Case] = &[
    ("a null key, and a null", (&[2, 0, 0, 1], "1011"), Ok(("[30 _ 10 _]", "1010"))),
    ("keys of nulls are not tested", (&[9, 0, -1], "010"), Ok(("[_ 10 _]", "010"))),
    ("no null", (&[0, 2, 0], "none"), Ok(("[10 30 10]", "none"))),
    ("a needless mask", (&[2], "1"), Ok(("[30]", "none"))),
    ("no key", (&[], "none"), Ok(("[]", "none"))),
    ("a key past the end", (&[0, 3, -1], "111"), Err(TOO_GREAT)),
    ("a negative key", (&[7, -1, 3], "011"), Err(NEGATIVE)),
];

const BYTES: &[Option<&[u8]>] = &[Some(b"ab"), None, Some(b"c")];

const SIXTY: &str = "123456789 123456789 123456789 123456789 123456789 123456789 ";

#[test]
fn slots_are_taken(rt: HostRuntime) {
    let alloc = rt.alloc();
    let array = numbers(&rt, &[Some(10), None, Some(30)]).to(DataType::Date32);
    for (index, (case, (values, mask), expected)) in NUMBERS.iter().enumerate() {
        let row = row("numbers are taken", "Date32", index, *case);
        let keys = stored_numbers::<i8>(&rt, DataType::Int8, *values, *mask);
        check_numbers(
            &rt,
            row.as_str(),
            take_primitive(alloc, &array, &keys),
            *expected,
            &DataType::Date32,
        );
        drop(keys);
    }
    drop(array);
    let keys = stored_numbers::<i8>(&rt, DataType::Int8, &[2, 0, 0, 1], "1011");
    let array = booleans(&rt, &[Some(true), None, Some(false)]);
    let taken = take_boolean(alloc, &array, &keys);
    drop(array);
    check_booleans(
        &rt,
        "booleans are taken",
        "a null key, and a null",
        taken,
        ("f_t_", "1010"),
    );
    let texts: Utf8Array<i32> = items(&rt, &[Some("ab"), None, Some("c")]);
    check_texts(
        &rt,
        "items are taken: text",
        take_utf8(alloc, &texts, &keys),
        "[\"c\" _ \"ab\" _]",
    );
    drop(texts);
    let bytes: BinaryArray<i64> = items(&rt, BYTES);
    check_bytes(
        &rt,
        "items are taken: bytes",
        take_binary(alloc, &bytes, &keys),
        "[[99] _ [97, 98] _]",
    );
    drop((bytes, keys));
    let texts: Utf8Array<Tiny> = items(&rt, &[Some(SIXTY), Some("")]);
    let keys = stored_numbers::<i8>(&rt, DataType::Int8, &[0, 1, 0], "111");
    let taken = take_utf8(alloc, &texts, &keys).err();
    drop((keys, texts));
    check_value(
        &rt,
        "items that end past the greatest offset overflow: 120 bytes",
        taken,
        Some(Error::Overflow),
    );
}
