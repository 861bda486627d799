//! Values of decimal digits. Up to 19 digits fit in 64 bits, so only longer texts test each step.
ghost use Rattle.std.specs.Prelude.{◌≡◌, ◌≤◌, length};
ghost use Rattle.std.specs.Str.{all_ascii_digits};
ghost use Rattle.std.specs.Str.Parse.{digits_value};
ghost use Rattle.arrow_integers.specs.NativeArithmetics.{some_if};
ghost use Rattle.compute_cast.specs.Decimals.{wide_value};

/// Returns the value of at most 19 digits, which fits, or `None` if a byte is not a digit.
#[inline(always)]
fn short_value(digits: &[u8]) -> Option<u64>
    requires { length digits.now ≤ 19 }
    ensures { result ≡ some_if (all_ascii_digits digits.now) (digits_value 10 digits.now) }
{
    let mut value: u64 = 0;
    for i in 0..digits.len() {
        let byte = digits[i];
        if !byte.is_ascii_digit() {
            return None;
        }
        value = value * 10 + u64::from(byte - b'0');
    }
    Some(value)
}

/// Returns the value of digits, or `None` if a byte is not a digit or the value does not fit.
#[inline(never)]
fn long_value(digits: &[u8]) -> Option<u128>
    ensures { result ≡ wide_value digits.now }
{
    let mut value: u128 = 0;
    for i in 0..digits.len() {
        let byte = digits[i];
        if !byte.is_ascii_digit() {
            return None;
        }
        let tens = value.checked_mul(10)?;
        value = tens.checked_add(u128::from(byte - b'0'))?;
    }
    Some(value)
}

/// Returns the value of digits, or `None` if a byte is not a digit or the value does not fit.
#[inline(always)]
pub(crate) fn value_of_digits(digits: &[u8]) -> Option<u128>
    ensures { result ≡ wide_value digits.now }
{
    if digits.len() <= 19 {
        match short_value(digits) {
            Some(value) => Some(u128::from(value)),
            None => None,
        }
    } else {
        long_value(digits)
    }
}
