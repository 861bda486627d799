//! Names, defaults, equality and texts of the native types, and values of bytes.
ghost use Rattle.std.specs.Prelude.{◌≡◌};

use arrow_types::le_bytes::FromLeBytes;
use arrow_types::native_type::{NativeType, days_ms, i256, months_days_ns};
use arrow_types::primitive_type::PrimitiveType;
use std::fmt::Debug;
use std::process::Abort;
use tests_support::{Text, assert_text, row};

/// Returns how a type names itself, by its bound.
fn name_of<T: NativeType>() -> PrimitiveType
    ensures { result ≡ T.PRIMITIVE }
{
    T::PRIMITIVE
}

/// Returns what a null of a type stores, by its bound.
fn null_of<T: NativeType>() -> T
    ensures { result ≡ T.zero }
{
    T::default()
}

/// Compares the name of a type, and what a null stores, with these, and asks that the other value is none of a null.
fn check<T: NativeType + Debug + Drop>(rt: &impl Abort, name: PrimitiveType, null: T, other: T) {
    let case = Text::of(format_args!("the name and a null of {name:?} beside {other:?}"));
    let came = (name_of::<T>(), null_of::<T>(), null_of::<T>() == other);
    assert_text::value(came, (name, null, false)).expect(rt, case.as_str());
}

#[test]
fn nulls_store_zero_in_each_part(rt: HostRuntime) {
    check(&rt, PrimitiveType::Int8, 0, -128_i8);
    check(&rt, PrimitiveType::Int16, 0, 256_i16);
    check(&rt, PrimitiveType::Int32, 0, -1_i32);
    check(&rt, PrimitiveType::Int64, 0, 4294967296_i64);
    check(&rt, PrimitiveType::Int128, 0, 18446744073709551616_i128);
    check(&rt, PrimitiveType::Int256, i256(0, 0), i256(-1, 0));
    let high = i256(0, 18446744073709551616);
    check(&rt, PrimitiveType::Int256, i256(0, 0), high);
    check(&rt, PrimitiveType::UInt8, 0, 255_u8);
    check(&rt, PrimitiveType::UInt16, 0, 256_u16);
    check(&rt, PrimitiveType::UInt32, 0, 65536_u32);
    check(&rt, PrimitiveType::UInt64, 0, 4294967296_u64);
    let (name, null) = (PrimitiveType::DaysMs, days_ms(0, 0));
    check(&rt, name, null, days_ms(1, 0));
    check(&rt, name, null, days_ms(0, -1));
    let (name, null) = (PrimitiveType::MonthDayNano, months_days_ns(0, 0, 0));
    check(&rt, name, null, months_days_ns(1, 0, 0));
    check(&rt, name, null, months_days_ns(0, 1, 0));
    check(&rt, name, null, months_days_ns(0, 0, 4294967296));
}

/// Numbers of 256 bits, and their text.
#[rattlefmt::skip]
const WIDE: &[(i256, &str)] = &[
    (i256(0, 0), "0"),
    (i256(0, 9), "9"),
    (i256(0, 10), "10"),
    (i256(-1, u128::MAX), "-1"),
    (i256(-1, 340282366920938463463374607431768211356), "-100"),
    (i256(0, u128::MAX), "340282366920938463463374607431768211455"),
    (i256(1, 0), "340282366920938463463374607431768211456"),
    (i256(-1, 0), "-340282366920938463463374607431768211456"),
    (i256(i128::MAX, u128::MAX),
        "57896044618658097711785492504343953926634992332820282019728792003956564819967"),
    (i256(i128::MIN, 0),
        "-57896044618658097711785492504343953926634992332820282019728792003956564819968"),
];

#[test]
fn numbers_of_256_bits_are_printed_in_decimal(rt: HostRuntime) {
    for (index, (number, expected)) in WIDE.iter().enumerate() {
        let name = row("i256", index);
        assert_text::debug(number, *expected).expect(&rt, name.as_str());
        assert_text::display(number, *expected).expect(&rt, name.as_str());
    }
}

#[test]
fn intervals_are_printed_by_their_parts(rt: HostRuntime) {
    let days = days_ms(1, -2);
    assert_text::debug(&days, "days_ms(1, -2)").expect(&rt, "days_ms");
    assert_text::display(&days, "1d -2ms").expect(&rt, "days_ms");
    let months = months_days_ns(-1, 2, i64::MIN);
    let expected = "months_days_ns(-1, 2, -9223372036854775808)";
    assert_text::debug(&months, expected).expect(&rt, "months_days_ns");
    let expected = "-1m 2d -9223372036854775808ns";
    assert_text::display(&months, expected).expect(&rt, "months_days_ns");
}

/// Compares the value of bytes, by the bound, and how many bytes it has, with these.
fn check_bytes<T: FromLeBytes + Debug + Drop>(rt: &impl Abort, bytes: &[u8], expected: T) {
    let case = Text::of(format_args!("bytes of {:?}", T::PRIMITIVE));
    assert_text::value(T::SIZE, bytes.len()).expect(rt, case.as_str());
    assert!(rt; bytes.len() == T::SIZE);
    assert_text::value(T::from_le_slice(bytes), expected).expect(rt, case.as_str());
}

#[test]
fn values_are_read_from_their_lowest_byte_on(rt: HostRuntime) {
    check_bytes(&rt, &[254], -2_i8);
    check_bytes(&rt, &[1, 128], -32767_i16);
    check_bytes(&rt, &[1, 2, 0, 0], 513_i32);
    check_bytes(&rt, &[0, 0, 0, 0, 1, 0, 0, 0], 4294967296_i64);
    check_bytes(&rt, &[255; 16], -1_i128);
    check_bytes(&rt, &[254], 254_u8);
    check_bytes(&rt, &[1, 128], 32769_u16);
    check_bytes(&rt, &[1, 2, 0, 128], 2147484161_u32);
    check_bytes(&rt, &[0, 0, 0, 0, 1, 0, 0, 0], 4294967296_u64);
    check_bytes(&rt, &[1, 0, 0, 0, 2, 0, 0, 0], days_ms(1, 2));
    check_bytes(&rt, &[255; 32], i256(-1, u128::MAX));
    let three = [1, 0, 0, 0, 2, 0, 0, 0, 0, 1, 0, 0, 0, 0, 0, 0];
    check_bytes(&rt, &three, months_days_ns(1, 2, 256));
}
