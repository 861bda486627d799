//! Buffers of native values from bytes. Expected values were worked out by hand: the first byte of a value is its
//! lowest.
use arrow_memory::buffer::Buffer;
use arrow_types::error::Error;
use arrow_types::le_bytes::FromLeBytes;
use arrow_types::native_type::{days_ms, i256, months_days_ns};
use std::fmt::Debug;
use std::process::Abort;
use tests_support::assert_text;

/// The bytes of sixteen values of eight bits, and of fewer wider ones.
const BYTES: [u8; 16] = [1, 2, 3, 4, 5, 6, 7, 128, 255, 0, 0, 0, 254, 255, 255, 255];

/// Compares the values of bytes with these.
fn check<T: FromLeBytes + Debug + Drop>(
    rt: &(impl Abort + AllocGlobal),
    case: &str,
    bytes: &[u8],
    expected: &[T],
) {
    let buffer = Buffer::<T>::from_le_bytes(rt.alloc(), bytes).expect(rt, case);
    assert_text::value(buffer.as_slice(), expected).expect(rt, case);
    drop(buffer);
}

/// The parts of a value come in the order in which they are declared, but the low half of a number of 256 bits comes
/// first.
#[test]
fn values_begin_with_their_lowest_byte(rt: HostRuntime) {
    check::<u8>(&rt, "u8", &BYTES, &BYTES);
    let expected = [0x0201, 0x0403, 0x0605, 0x8007, 0x00ff, 0, 0xfffe, 0xffff];
    check::<u16>(&rt, "u16", &BYTES, &expected);
    let expected = [0x0403_0201, 0x8007_0605, 0xff, 0xffff_fffe];
    check::<u32>(&rt, "u32", &BYTES, &expected);
    let expected = [0x8007_0605_0403_0201, 0xffff_fffe_0000_00ff];
    check::<u64>(&rt, "u64", &BYTES, &expected);
    let expected = [1, 2, 3, 4, 5, 6, 7, -128, -1, 0, 0, 0, -2, -1, -1, -1];
    check::<i8>(&rt, "i8", &BYTES, &expected);
    let expected = [0x0201, 0x0403, 0x0605, -0x7ff9, 0xff, 0, -2, -1];
    check::<i16>(&rt, "i16", &BYTES, &expected);
    let expected = [0x0403_0201, -0x7ff8_f9fb, 0xff, -2];
    check::<i32>(&rt, "i32", &BYTES, &expected);
    let expected = [-0x7ff8_f9fa_fbfc_fdff, -0x1_ffff_ff01];
    check::<i64>(&rt, "i64", &BYTES, &expected);
    let expected = [-0x1_ffff_ff00_7ff8_f9fa_fbfc_fdff];
    check::<i128>(&rt, "i128", &BYTES, &expected);
    let expected = [days_ms(0x0403_0201, -0x7ff8_f9fb), days_ms(0xff, -2)];
    check(&rt, "days and milliseconds", &BYTES, &expected);
    let expected = [months_days_ns(0x0403_0201, -0x7ff8_f9fb, -0x1_ffff_ff01)];
    check(&rt, "months, days and nanoseconds", &BYTES, &expected);
    let mut bytes = [0_u8; 32];
    bytes[0] = 5;
    bytes[16] = 255;
    bytes[31] = 1;
    let high = 0x0100_0000_0000_0000_0000_0000_0000_00ff;
    check(&rt, "256 bits", &bytes, &[i256(high, 5)]);
}

/// Compares the error of bytes with the text of uneven ones.
fn check_refused<T: FromLeBytes>(rt: &(impl Abort + AllocGlobal), case: &str, bytes: &[u8]) {
    let refused = Buffer::<T>::from_le_bytes(rt.alloc(), bytes)
        .err()
        .expect(rt, case);
    let text = "the number of bytes must be a multiple of the size of a value";
    assert_text::value(refused, Error::OutOfSpec(text)).expect(rt, case);
}

#[test]
fn bytes_are_a_whole_number_of_values(rt: HostRuntime) {
    check::<u8>(&rt, "no byte of u8", &[], &[]);
    check::<i64>(&rt, "no byte of i64", &[], &[]);
    check_refused::<i16>(&rt, "one byte of i16", &[1]);
    check_refused::<u32>(&rt, "seven bytes of u32", &[1, 2, 3, 4, 5, 6, 7]);
    check_refused::<i64>(&rt, "seven bytes of i64", &[1, 2, 3, 4, 5, 6, 7]);
    check_refused::<months_days_ns>(&rt, "one byte of an interval", &[1]);
    check_refused::<i256>(&rt, "half of 256 bits", &BYTES);
}
