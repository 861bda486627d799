//! The numbers that words write: decimal digits, behind a `-` if the number may be negative. One that does not fit is
//! no number.
ghost use Rattle.std.specs.Prelude.{◌≡◌, ◌^◌};
ghost use Rattle.arrow_syntax.specs.Words.{parse_usize, with_digit, positive, negative, parse_i64, parse_i32};

/// Appends a digit to a number. Returns `None` if the byte is no digit or the result overflows. A number far below the
/// greatest `usize` cannot overflow, which spares most numbers the wide product.
#[inline(always)]
pub(crate) fn with_digit(number: usize, byte: u8) -> Option<usize>
    ensures { result ≡ with_digit number byte }
{
    if byte < b'0' || b'9' < byte {
        return None;
    }
    let digit = usize::from(byte - b'0');
    if number < 1 << 60 {
        return Some(number * 10 + digit);
    }
    number.checked_mul(10)?.checked_add(digit)
}

/// Returns the number that one or more digits write, or `None` if it does not fit. Leading zeros are allowed.
#[inline(always)]
pub fn parse_usize(word: &[u8]) -> Option<usize>
    ensures { result ≡ parse_usize word.now }
{
    if word.is_empty() {
        return None;
    }
    let mut number = 0;
    for byte in word {
        number = with_digit(number, *byte)?;
    }
    Some(number)
}

fn positive(number: usize) -> Option<i64>
    ensures { result ≡ positive (2 ^ 63) number }
{
    i64::try_from(number).ok()
}

fn negative(number: usize) -> Option<i64>
    ensures { result ≡ negative (2 ^ 63) number }
{
    // The least `i64` has no opposite.
    if number == 1 << 63 {
        return Some(i64::MIN);
    }
    Some(-i64::try_from(number).ok()?)
}

/// Returns the `i64` that digits write, after a `-` if it is negative.
pub fn parse_i64(word: &[u8]) -> Option<i64>
    ensures { result ≡ parse_i64 word.now }
{
    let (first, digits) = word.split_first()?;
    if *first == b'-' {
        negative(parse_usize(digits)?)
    } else {
        positive(parse_usize(word)?)
    }
}

/// Returns the `i32` that digits write, after a `-` if it is negative.
pub fn parse_i32(word: &[u8]) -> Option<i32>
    ensures { result ≡ parse_i32 word.now }
{
    i32::try_from(parse_i64(word)?).ok()
}
