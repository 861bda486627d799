//! Decimal texts of numbers, which are appended to the bytes of an array, and their lengths, of which overflows are
//! found.
ghost use Rattle.std.specs.Prelude.{◌≡◌, ◌+◌, ◌<◌, ◌++◌, OnOk, drop, length, pos};
ghost use Rattle.std.specs.Fmt.{signed_decimal};
ghost use Rattle.std.specs.Str.{IsAscii};

use itoa::{Buffer, write_digits};
use std::alloc::AllocError;

/// The length of the longest text of a number of 64 bits.
const LONGEST: usize = 20;

/// Writes the decimal text of a number so that it ends at index 20, and returns where it starts.
#[inline(always)]
fn write_short(number: i64, buffer: &mut [u8; 40]) -> usize
    ensures start { result + length (signed_decimal number) ≡ 20 }
    ensures written { drop result buffer.new ≡ signed_decimal number ++ drop 20 buffer.old }
{
    let start = write_digits(number.unsigned_abs(), buffer, LONGEST);
    if number >= 0 {
        return start;
    }
    buffer[start - 1] = b'-';
    start - 1
}

/// Appends the one digit of a number below 10.
#[inline(always)]
fn append_digit(bytes: &mut Vec<u8>, digit: u8) -> Result<(), AllocError>
    requires { digit < 10 }
    ensures { OnOk result (bytes.new.items ≡ bytes.old.items ++ signed_decimal (pos digit)) }
{
    bytes.push(b'0' + digit)?;
    Ok(())
}

/// Appends the decimal text of a number of 64 bits.
#[inline(always)]
fn append_short(bytes: &mut Vec<u8>, number: i64) -> Result<(), AllocError>
    ensures { OnOk result (bytes.new.items ≡ bytes.old.items ++ signed_decimal number) }
{
    let mut buffer = [0; 40];
    let start = write_short(number, &mut buffer);
    let end = bytes.len() + (LONGEST - start);
    // Copies as many bytes as the longest text has and cuts off those after the text: a copy of unknown length would be
    // a call.
    bytes.extend_from_slice(&buffer[start..start + LONGEST])?;
    bytes.truncate(end);
    Ok(())
}

/// Appends the decimal text of a number. It is not inlined, so that a loop of appends stays small.
#[inline(never)]
fn append_long(bytes: &mut Vec<u8>, number: i128) -> Result<(), AllocError>
    ensures { OnOk result (bytes.new.items ≡ bytes.old.items ++ signed_decimal number) }
{
    bytes.extend_from_slice(Buffer::new().format(number).as_bytes())
}

/// Appends the decimal text of a number.
#[inline(always)]
pub(crate) fn append_number(bytes: &mut Vec<u8>, number: i128) -> Result<(), AllocError>
    ensures text { OnOk result (bytes.new.items ≡ bytes.old.items ++ signed_decimal number) }
    ensures ascii { IsAscii (signed_decimal number) }
{
    match i64::try_from(number) {
        // One digit, as that of a boolean, needs no buffer.
        Ok(short) if short >= 0 && short < 10 => append_digit(bytes, short as u8),
        Ok(short) => append_short(bytes, short),
        Err(_) => append_long(bytes, number),
    }
}

/// Returns the number of bytes of the decimal text of a number.
pub(crate) fn text_length(number: i128) -> usize
    ensures { result ≡ length (signed_decimal number) }
{
    Buffer::new().format(number).len()
}
