//! The text of native types of several parts. It is the same under every option of a format, so that arrays of them
//! print alike under `{:?}` and `{:#?}`.
ghost use Rattle.std.specs.Prelude.{◌≡◌, ◌+◌, ◌*◌, ◌/◌, ◌%◌, ◌^◌, Some};
ghost use Rattle.std.specs.Fmt.{WritesOnOk};
ghost use Rattle.arrow_types.specs.NativeText.{days_ms_debug, days_ms_text, long_decimal, i256_text};
ghost use Rattle.arrow_types.specs.NativeText.{months_days_ns_debug, months_days_ns_text};

use crate::native_type::{days_ms, i256, months_days_ns};
use std::fmt;

/// Divides a number of 256 bits by ten, and returns the halves of the quotient, and the remainder.
fn div_ten(high: u128, low: u128) -> (u128, u128, u8)
    ensures quotient { result.0 * 2 ^ 128 + result.1 ≡ (high * 2 ^ 128 + low) / 10 }
    ensures remainder { result.2 ≡ (high * 2 ^ 128 + low) % 10 }
{
    // The base of the high half is ten times this, and six.
    let tenth = 34028236692093846346337460743176821145;
    let carry = high % 10;
    let rest = carry * 6 + low % 10;
    (
        high / 10,
        carry * tenth + low / 10 + rest / 10,
        (rest % 10) as u8,
    )
}

/// Writes a number of 256 bits in decimal.
fn write_decimal<W: fmt::Write>(f: &mut fmt::Formatter<W>, high: u128, low: u128) -> fmt::Result
    ensures { WritesOnOk W.write_str_gives f.old result (long_decimal (high * 2 ^ 128 + low)) f.new }
{
    let (front_high, front_low, digit) = div_ten(high, low);
    if front_high != 0 || front_low != 0 {
        write_decimal(f, front_high, front_low)?;
    }
    f.write_char((b'0' + digit) as char)
}

/// Writes an integer of 256 bits in decimal.
fn write_i256<W: fmt::Write>(f: &mut fmt::Formatter<W>, value: i256) -> fmt::Result
    ensures { WritesOnOk W.write_str_gives f.old result (i256_text value) f.new }
{
    let i256(high, low) = value;
    let magnitude = high.unsigned_abs();
    if high >= 0 {
        return write_decimal(f, magnitude, low);
    }
    f.write_str("-")?;
    if low == 0 {
        return write_decimal(f, magnitude, 0);
    }
    write_decimal(f, magnitude - 1, u128::MAX - low + 1)
}

impl fmt::Debug for i256 {
    ghost debug_output = { λ x. Some (i256_text x) };

    /// Writes the number in decimal, as `{}` does.
    fn fmt<W: fmt::Write>(&self, f: &mut fmt::Formatter<W>) -> fmt::Result {
        write_i256(f, *self)
    }
}

impl fmt::Display for i256 {
    ghost output = { λ x. Some (i256_text x) };

    /// Writes the number in decimal.
    fn fmt<W: fmt::Write>(&self, f: &mut fmt::Formatter<W>) -> fmt::Result {
        write_i256(f, *self)
    }
}

impl fmt::Debug for days_ms {
    ghost debug_output = { λ x. Some (days_ms_debug x) };

    /// Writes the parts, as in `days_ms(1, 2)`.
    fn fmt<W: fmt::Write>(&self, f: &mut fmt::Formatter<W>) -> fmt::Result {
        let days_ms(days, milliseconds) = *self;
        write!(f, "days_ms({days}, {milliseconds})")
    }
}

impl fmt::Display for days_ms {
    ghost output = { λ x. Some (days_ms_text x) };

    /// Writes the parts with their units, as in `1d 2ms`.
    fn fmt<W: fmt::Write>(&self, f: &mut fmt::Formatter<W>) -> fmt::Result {
        let days_ms(days, milliseconds) = *self;
        write!(f, "{days}d {milliseconds}ms")
    }
}

impl fmt::Debug for months_days_ns {
    ghost debug_output = { λ x. Some (months_days_ns_debug x) };

    /// Writes the parts, as in `months_days_ns(1, 2, 3)`.
    fn fmt<W: fmt::Write>(&self, f: &mut fmt::Formatter<W>) -> fmt::Result {
        let months_days_ns(months, days, ns) = *self;
        write!(f, "months_days_ns({months}, {days}, {ns})")
    }
}

impl fmt::Display for months_days_ns {
    ghost output = { λ x. Some (months_days_ns_text x) };

    /// Writes the parts with their units, as in `1m 2d 3ns`.
    fn fmt<W: fmt::Write>(&self, f: &mut fmt::Formatter<W>) -> fmt::Result {
        let months_days_ns(months, days, ns) = *self;
        write!(f, "{months}m {days}d {ns}ns")
    }
}
