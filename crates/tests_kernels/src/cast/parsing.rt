//! Integers of text.
use crate::arrays::{Slots, check_mask, check_slots, check_value, items};
use arrow_binary::BinaryArray;
use arrow_integers::NativeArithmetics;
use arrow_types::data_type::DataType;
use arrow_utf8::Utf8Array;
use compute_cast::{binary_to_primitive, utf8_to_primitive};
use std::fmt::Debug;
use std::process::Abort;
use tests_support::Text;

/// Compares the numbers of texts and their mask.
fn check<T: NativeArithmetics + Debug>(
    rt: &(impl Abort + AllocGlobal),
    case: &str,
    texts: &[Option<&str>],
    (slots, mask): Slots,
) {
    let row = Text::of(format_args!("{case}, {:?}", T::PRIMITIVE));
    let row = row.as_str();
    let array: Utf8Array<i32> = items(rt, texts);
    let data_type = T::PRIMITIVE.default_data_type();
    let made = utf8_to_primitive::<i32, T>(rt.alloc(), &array, data_type).expect(rt, row);
    drop(array);
    check_slots(rt, row, made.iter(), slots);
    check_mask(rt, row, made.validity(), mask);
    drop(made);
}

/// Texts with signs and leading zeros.
#[rattlefmt::skip]
const SIGNS: &[Option<&str>] = &[Some("0"), Some("+5"), Some("-5"), Some("007"), Some("-0"), Some("-007")];

/// Texts that are no numbers, and a null.
#[rattlefmt::skip]
const OTHERS: &[Option<&str>] = &[
    Some(""), Some("-"), Some("+"), Some("+-1"), Some("--1"), Some(" 1"), Some("1 "), Some("1.0"), Some("1_0"),
    Some("0x1"), Some("1e1"), Some("a"), Some("\u{0661}"), Some("\u{2212}1"), Some("1/"), Some("1:"), None,
];

const NULLS: Slots = ("[_ _ _ _ _ _ _ _ _ _ _ _ _ _ _ _ _]", "00000000000000000");

/// Texts about the ends of types.
#[rattlefmt::skip]
const ENDS_OF_BYTES: &[Option<&str>] = &[
    Some("127"), Some("128"), Some("-128"), Some("-129"), Some("383"), Some("99999999999999999999"),
];

const ENDS_OF_WORDS: &[Option<&str>] = &[
    Some("9223372036854775807"),
    Some("9223372036854775808"),
    Some("-9223372036854775808"),
    Some("-9223372036854775809"),
];

const ENDS_OF_NATURALS: &[Option<&str>] = &[
    Some("18446744073709551615"),
    Some("18446744073709551616"),
    Some("9999999999999999999"),
];

const GREATEST: &[Option<&str>] = &[
    Some("170141183460469231731687303715884105727"),
    Some("170141183460469231731687303715884105728"),
];

const LEAST: &[Option<&str>] = &[
    Some("-170141183460469231731687303715884105728"),
    Some("-170141183460469231731687303715884105729"),
];

const PAST_128_BITS: &[Option<&str>] = &[
    Some("340282366920938463463374607431768211456"),
    Some("340282366920938463463374607431768211457"),
    Some("3402823669209384634633746074317682114560"),
    Some("-340282366920938463463374607431768211457"),
];

/// Bytes, of which the third are no text.
const BYTES: &[Option<&[u8]>] = &[Some(b"41"), None, Some(b"\xff"), Some(b"+2")];

#[test]
fn texts_are_read_as_numbers(rt: HostRuntime) {
    let row = "signs and leading zeros are allowed";
    check::<i8>(&rt, row, SIGNS, ("[0 5 -5 7 0 -7]", "none"));
    check::<i128>(&rt, row, SIGNS, ("[0 5 -5 7 0 -7]", "none"));
    check::<u16>(&rt, row, SIGNS, ("[0 5 _ 7 _ _]", "110100"));
    let zeros = [Some("0000000000000000000000000000000000000000000012")];
    check::<u8>(&rt, "many zeros", &zeros, ("[12]", "none"));
    let row = "other texts are null";
    check::<i64>(&rt, row, OTHERS, NULLS);
    check::<u64>(&rt, row, OTHERS, NULLS);
    let row = "numbers that do not fit are null";
    check::<i8>(&rt, row, ENDS_OF_BYTES, ("[127 _ -128 _ _ _]", "101000"));
    check::<u8>(&rt, row, ENDS_OF_BYTES, ("[127 128 _ _ _ _]", "110000"));
    let slots = "[9223372036854775807 _ -9223372036854775808 _]";
    check::<i64>(&rt, row, ENDS_OF_WORDS, (slots, "1010"));
    let slots = "[18446744073709551615 _ 9999999999999999999]";
    check::<u64>(&rt, row, ENDS_OF_NATURALS, (slots, "101"));
    let slots = "[170141183460469231731687303715884105727 _]";
    check::<i128>(
        &rt,
        "numbers of 128 bits are read: the greatest",
        GREATEST,
        (slots, "10"),
    );
    let slots = "[-170141183460469231731687303715884105728 _]";
    check::<i128>(
        &rt,
        "numbers of 128 bits are read: the least",
        LEAST,
        (slots, "10"),
    );
    let row = "numbers of 128 bits are read: past 128 bits";
    check::<i128>(&rt, row, PAST_128_BITS, ("[_ _ _ _]", "0000"));
}

#[test]
fn sliced_texts_and_bytes_are_read_as_numbers(rt: HostRuntime) {
    let row = "sliced texts are read";
    let array: Utf8Array<i64> = items(&rt, &[Some("1"), Some("-22"), None, Some("333")]);
    assert!(rt; array.len() == 4, "slots");
    let array = array.sliced(1, 2);
    let made = utf8_to_primitive::<i64, i32>(rt.alloc(), &array, DataType::Date32);
    drop(array);
    let made = made.expect(&rt, "memory");
    check_slots(&rt, row, made.iter(), "[-22 _]");
    check_mask(&rt, row, made.validity(), "10");
    check_value(&rt, row, made.data_type(), &DataType::Date32);
    drop(made);
    let row = "bytes are read as text";
    let array: BinaryArray<i32> = items(&rt, BYTES);
    let made = binary_to_primitive::<i32, u32>(rt.alloc(), &array, DataType::UInt32);
    drop(array);
    let made = made.expect(&rt, "memory");
    check_slots(&rt, row, made.iter(), "[41 _ _ 2]");
    check_mask(&rt, row, made.validity(), "1001");
    drop(made);
}
