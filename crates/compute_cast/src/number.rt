//! Decimal texts read as numbers, as Rust's `parse` of the type reads them.
ghost use Rattle.std.specs.Prelude.{◌≡◌, ◌&&◌, pos};
ghost use Rattle.std.specs.Int.{w128};
ghost use Rattle.std.specs.Str.Parse.{starts_with_minus};
ghost use Rattle.arrow_integers.specs.NativeArithmetics.{fits_signed, some_if};
ghost use Rattle.compute_cast.specs.Decimals.{digits_of_text, value_of_text, with_sign};

use crate::digits::value_of_digits;
use arrow_integers::NativeArithmetics;

/// Returns whether a text begins with a minus sign, and what follows its sign. A minus is a sign only
/// if `is_signed`.
#[inline(always)]
fn split_sign(text: &[u8], is_signed: bool) -> (bool, &[u8])
    ensures minus { result.0 ≡ (is_signed && starts_with_minus text.now) }
    ensures digits { result.1.now ≡ digits_of_text is_signed text.now }
{
    if text.is_empty() {
        return (false, text);
    }
    if text[0] == b'+' {
        return (false, &text[1..]);
    }
    if is_signed && text[0] == b'-' {
        return (true, &text[1..]);
    }
    (false, text)
}

/// Returns `value`, or `None` if it does not fit.
#[inline(always)]
fn positive_value(value: u128) -> Option<i128>
    ensures { result ≡ some_if (fits_signed w128 (pos value)) (pos value) }
{
    if value < 0x8000_0000_0000_0000_0000_0000_0000_0000 {
        Some(value as i128)
    } else {
        None
    }
}

/// Returns `value`, negated if `is_negative`, or `None` if it does not fit.
#[inline(always)]
fn signed_value(value: u128, is_negative: bool) -> Option<i128>
    ensures { result ≡ some_if (fits_signed w128 (with_sign is_negative value)) (with_sign is_negative value) }
{
    if !is_negative {
        return positive_value(value);
    }
    if value == 0 {
        return Some(0);
    }
    match positive_value(value - 1) {
        Some(below) => Some(-1 - below),
        None => None,
    }
}

/// Parses a text, or returns `None` if it is not a number of the type.
#[inline(always)]
pub(crate) fn parse_value<T: NativeArithmetics>(text: &[u8]) -> Option<T>
    ensures { result ≡ value_of_text T.fits T.wrap text.now }
{
    let is_signed = T::from_i128(-1).is_some();
    let (is_negative, digits) = split_sign(text, is_signed);
    if digits.is_empty() {
        return None;
    }
    let value = value_of_digits(digits)?;
    match signed_value(value, is_negative) {
        Some(number) => T::from_i128(number),
        None => None,
    }
}
