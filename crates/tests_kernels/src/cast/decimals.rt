//! Integers and booleans as decimal text.
use crate::arrays::{
    Items, Slots, booleans, check_mask, check_slots, check_stored_items, check_value, numbers, row,
    stored_booleans,
};
use arrow_integers::NativeArithmetics;
use arrow_types::data_type::DataType;
use arrow_types::error::Error;
use compute_cast::{boolean_to_binary, boolean_to_utf8, primitive_to_binary, primitive_to_utf8};
use std::process::Abort;
use tests_support::{Text, Tiny};

/// Compares the texts of `len` slots from slot `from` on, and their mask.
fn check<T: NativeArithmetics>(
    rt: &(impl Abort + AllocGlobal),
    case: &str,
    slots: &[Option<T>],
    (from, len): (usize, usize),
    (texts, mask): Slots,
) {
    let row = Text::of(format_args!("{case}, {:?}", T::PRIMITIVE));
    let row = row.as_str();
    let array = numbers(rt, slots);
    assert!(rt; from <= array.len() && len <= array.len() - from, "a slice");
    let array = array.sliced(from, len);
    let made = primitive_to_utf8::<T, i32>(rt.alloc(), &array).expect(rt, row);
    drop(array);
    check_slots(rt, row, made.iter(), texts);
    check_mask(rt, row, made.validity(), mask);
    check_value(rt, row, made.data_type(), &DataType::Utf8);
    drop(made);
}

const NUMBERS: &[Option<i32>] = &[Some(1), Some(-22), None, Some(333)];

#[test]
fn numbers_have_decimal_texts(rt: HostRuntime) {
    let row = "signed numbers have decimal texts";
    let bytes = &[
        Some(-128i8),
        Some(-1),
        Some(0),
        Some(9),
        Some(10),
        Some(127),
    ];
    let texts = "[\"-128\" \"-1\" \"0\" \"9\" \"10\" \"127\"]";
    check(&rt, row, bytes, (0, 6), (texts, "none"));
    let words = &[Some(i64::MIN), None, Some(i64::MAX)];
    let texts = "[\"-9223372036854775808\" _ \"9223372036854775807\"]";
    check(&rt, row, words, (0, 3), (texts, "101"));
    let texts = "[\"-170141183460469231731687303715884105728\"]";
    check(&rt, row, &[Some(i128::MIN)], (0, 1), (texts, "none"));
    let texts = "[\"170141183460469231731687303715884105727\"]";
    check(&rt, row, &[Some(i128::MAX)], (0, 1), (texts, "none"));
    let row = "unsigned numbers have decimal texts";
    check(
        &rt,
        row,
        &[Some(0u8), Some(255)],
        (0, 2),
        ("[\"0\" \"255\"]", "none"),
    );
    let texts = "[\"18446744073709551615\"]";
    check(&rt, row, &[Some(u64::MAX)], (0, 1), (texts, "none"));
    let row = "sliced numbers have the texts of their slots: with a null";
    check(&rt, row, NUMBERS, (1, 2), ("[\"-22\" _]", "10"));
    let row = "sliced numbers have the texts of their slots: without a null";
    check(&rt, row, NUMBERS, (3, 1), ("[\"333\"]", "none"));
    let row = "sliced numbers have the texts of their slots: no slot";
    check(&rt, row, NUMBERS, (4, 0), ("[]", "none"));
}

#[test]
fn numbers_have_the_bytes_of_their_texts(rt: HostRuntime) {
    let words = numbers(&rt, &[Some(-70i64), None, Some(0)]);
    let made = primitive_to_binary::<i64, i64>(rt.alloc(), &words).expect(&rt, "memory");
    drop(words);
    check_slots(&rt, "with a null", made.iter(), "[[45, 55, 48] _ [48]]");
    check_mask(&rt, "with a null", made.validity(), "101");
    check_value(&rt, "with a null", made.data_type(), &DataType::LargeBinary);
    drop(made);
    let bytes = numbers(&rt, &[Some(255u8)]);
    let made = primitive_to_binary::<u8, i32>(rt.alloc(), &bytes).expect(&rt, "memory");
    drop(bytes);
    check_slots(&rt, "no null", made.iter(), "[[50, 53, 53]]");
    check_mask(&rt, "no null", made.validity(), "none");
    check_value(&rt, "no null", made.data_type(), &DataType::Binary);
    drop(made);
}

#[test]
fn texts_past_the_greatest_offset_overflow(rt: HostRuntime) {
    let alloc = rt.alloc();
    let wide = numbers(&rt, &[Some(i128::MIN); 4]);
    let made = primitive_to_binary::<i128, Tiny>(alloc, &wide).err();
    drop(wide);
    check_value(&rt, "160 bytes", made, Some(Error::Overflow));
    let least = Some(i128::MIN);
    let array = numbers(&rt, &[least, least, least, Some(1234567)]);
    check_value(
        &rt,
        "128 bytes",
        primitive_to_utf8::<i128, Tiny>(alloc, &array).err(),
        Some(Error::Overflow),
    );
    assert!(rt; array.len() == 4, "slots");
    let array = array.sliced(1, 3);
    let made = primitive_to_utf8::<i128, Tiny>(alloc, &array).expect(&rt, "94 bytes");
    drop(array);
    check_value(&rt, "94 bytes", made.len(), 3);
    drop(made);
}

/// A name, stored booleans and marks, and the offsets, the bytes and the marks of the texts. A null stores no byte.
#[rattlefmt::skip]
const BOOLEANS: &[(&str, (&str, &str), Items)] = &[
    ("no slot", ("", "none"), (&[0], b"", "none")),
    ("without a mask", ("110", "none"), (&[0, 1, 2, 3], b"110", "none")),
    ("a needless mask", ("01", "11"), (&[0, 1, 2], b"01", "none")),
    ("nulls that store both", ("0110", "1100"), (&[0, 1, 2, 2, 2], b"01", "1100")),
    ("null slots only", ("10", "00"), (&[0, 0, 0], b"", "00")),
];

#[test]
fn booleans_have_the_texts_one_and_zero(rt: HostRuntime) {
    let alloc = rt.alloc();
    for (index, (case, parts, expected)) in BOOLEANS.iter().enumerate() {
        let array = stored_booleans(&rt, *parts);
        let text = row("boolean_to_utf8", "Boolean", index, *case);
        let made = boolean_to_utf8::<i32>(alloc, &array);
        check_stored_items(&rt, text.as_str(), made, Ok(*expected));
        let bytes = row("boolean_to_binary", "Boolean", index, *case);
        let made = boolean_to_binary::<i64>(alloc, &array);
        drop(array);
        check_stored_items(&rt, bytes.as_str(), made, Ok(*expected));
    }
}

#[test]
fn texts_of_booleans_past_the_greatest_offset_overflow(rt: HostRuntime) {
    let alloc = rt.alloc();
    let array = booleans(&rt, &[Some(true); 101]);
    let made = boolean_to_utf8::<Tiny>(alloc, &array).err();
    check_value(&rt, "101 bytes", made, Some(Error::Overflow));
    assert!(rt; array.len() == 101, "slots");
    let array = array.sliced(1, 100);
    let made = boolean_to_binary::<Tiny>(alloc, &array).expect(&rt, "100 bytes");
    drop(array);
    check_value(&rt, "100 bytes", made.values().len(), 100);
    drop(made);
}
