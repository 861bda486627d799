//! Tests of hexadecimal digits: whether they write bytes, and whether these are a text. Nothing is allocated.
ghost use Rattle.std.specs.Prelude.{◌≡◌, ◌*◌, ◌<◌, ◌≤◌, None, Some, IfNone, IfSome, IsUtf8, if◌then◌else◌};
ghost use Rattle.std.specs.Prelude.{is_some, length, take};
ghost use Rattle.std.specs.List.{list_all};
ghost use Rattle.std.specs.Str.{IsValidUpTo};
ghost use Rattle.hex.specs.Hex.{is_hex_digit};
ghost use Rattle.arrow_syntax.specs.Fields.{hex_bytes, hex_text};

use std::str::from_utf8;

/// The number of bytes that are decoded at a time.
const WINDOW: usize = 64;

fn is_digit(byte: u8) -> bool
    ensures { result ≡ is_hex_digit byte }
{
    (b'0' <= byte && byte <= b'9')
        || (b'A' <= byte && byte <= b'F')
        || (b'a' <= byte && byte <= b'f')
}

fn are_all_digits(word: &[u8]) -> bool
    ensures { result ≡ list_all is_hex_digit word.now }
{
    word.iter().all(|byte| is_digit(*byte))
}

/// Returns whether hexadecimal digits write bytes.
pub(crate) fn are_bytes(digits: &[u8]) -> bool
    ensures { result ≡ is_some (hex_bytes digits.now) }
{
    digits.len() % 2 == 0 && are_all_digits(digits)
}

/// Decodes digits into `room`, which has half their length, and returns whether all are digits.
fn decode_into(digits: &[u8], room: &mut [u8]) -> bool
    requires { length digits.now ≡ 2 * length room.old }
    ensures { hex_bytes digits.now ≡ (if result then Some room.new else None) }
{
    hex::decode_to_slice(digits, room).is_ok()
}

/// Returns the length of the longest beginning of `bytes` that is UTF-8.
fn whole_characters(bytes: &[u8]) -> usize
    ensures within { result ≤ length bytes.now }
    ensures text { IsUtf8 (take result bytes.now) }
    ensures none { result ≡ 0 → 0 < length bytes.now → IsValidUpTo bytes.now 0 }
{
    match from_utf8(bytes) {
        Ok(_) => bytes.len(),
        Err(error) => error.valid_up_to(),
    }
}

/// Returns the digits after the first characters that digits write, or `None` if they write no text.
fn past_characters(digits: &[u8]) -> Option<&[u8]>
    requires { 0 < length digits.now }
    ensures none { IfNone result (hex_text digits.now ≡ None) }
    ensures some { IfSome result (λ rest. is_some (hex_text digits.now) ≡ is_some (hex_text rest.now)) }
    ensures shorter { IfSome result (λ rest. length rest.now < length digits.now) }
{
    let mut room = [0; WINDOW];
    let count = (digits.len() / 2).min(WINDOW);
    let bytes = &mut room[..count];
    if !decode_into(&digits[..2 * count], &mut *bytes) {
        return None;
    }
    let whole = whole_characters(bytes);
    if whole == 0 {
        return None;
    }
    Some(&digits[2 * whole..])
}

/// Returns whether hexadecimal digits write a text.
pub(crate) fn is_text(digits: &[u8]) -> bool
    ensures { result ≡ is_some (hex_text digits.now) }
{
    let mut rest = digits;
    while !rest.is_empty() {
        let Some(after) = past_characters(rest) else {
            return false;
        };
        rest = after;
    }
    true
}
