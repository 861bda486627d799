//! The words that are booleans, as a list and as packed bits, tested and read by the same definition.
ghost use Rattle.std.specs.Prelude.{◌≡◌, ◌≤◌, Bool, List, Option, is_some, length, option_map, IfOk};
ghost use Rattle.arrow_model.specs.Request.{Packed, packed_bits};
ghost use Rattle.arrow_syntax.specs.Fields.{parse_bit, parse_bits, byte_of, parse_mask, packed_bytes, packed_of};
ghost use Rattle.arrow_syntax.specs.Fields.{parse_packed, parse_packed_mask};
ghost use Rattle.arrow_syntax.specs.Readers.{ParsesAs, each};

use crate::readers::Word;
use crate::words::word_eq;
use arrow_model::Bits;
use std::alloc::{AllocError, Global};

/// Returns the boolean of the digit `0` or `1`.
fn parse_bit(digit: u8) -> Option<bool>
    ensures { result ≡ parse_bit digit }
{
    match digit {
        b'0' => Some(false),
        b'1' => Some(true),
        _ => None,
    }
}

fn digits_of(alloc: Global, word: &[u8]) -> Result<Option<Vec<bool>>, AllocError>
    ensures { ParsesAs result (λ bits. bits.items) (each parse_bit word.now) }
{
    let mut bits = Vec::with_capacity(alloc, word.len())?;
    for digit in word {
        let Some(bit) = parse_bit(*digit) else {
            return Ok(None);
        };
        bits.push(bit)?;
    }
    Ok(Some(bits))
}

/// Returns whether each byte of a word is such a digit.
fn are_digits(word: &[u8]) -> bool
    ensures { result ≡ is_some (each parse_bit word.now) }
{
    for digit in word {
        if parse_bit(*digit).is_none() {
            return false;
        }
    }
    true
}

// A digit for each boolean, or `.` if there are none.
impl Word for Vec<bool> {
    ghost Meaning = { List Bool };

    ghost meaning = { λ bits. bits.items };

    ghost parse = { parse_bits };

    fn of_word(alloc: Global, word: &[u8]) -> Result<Option<Self>, AllocError> {
        if word_eq(word, b".") {
            return Ok(Some(Vec::new(alloc)));
        }
        digits_of(alloc, word)
    }

    fn is_word(word: &[u8]) -> bool {
        word_eq(word, b".") || are_digits(word)
    }
}

// Such a word, or `-` for no mask.
impl Word for Option<Vec<bool>> {
    ghost Meaning = { Option (List Bool) };

    ghost meaning = { option_map (λ bits. bits.items) };

    ghost parse = { parse_mask };

    fn of_word(alloc: Global, word: &[u8]) -> Result<Option<Self>, AllocError> {
        if word_eq(word, b"-") {
            return Ok(Some(None));
        }
        match <Vec<bool>>::of_word(alloc, word)? {
            Some(bits) => Ok(Some(Some(bits))),
            None => Ok(None),
        }
    }

    fn is_word(word: &[u8]) -> bool {
        word_eq(word, b"-") || <Vec<bool>>::is_word(word)
    }
}

/// Packs up to eight booleans into a byte, the first into its lowest bit.
#[tactic(auto, using(crate::proofs::Packing::byte_below_128))]
fn byte_of(bits: &[bool]) -> u8
    requires { length bits.now ≤ 8 }
    ensures { result ≡ byte_of bits.now }
{
    match bits {
        [] => 0,
        [first, others @ ..] => u8::from(*first) + 2 * byte_of(others),
    }
}

/// Packs booleans into bytes.
#[tactic(auto, unfolding(crate::specs::Fields::packed_bytes))]
fn packed_bytes(alloc: Global, bits: &[bool]) -> Result<Vec<u8>, AllocError>
    ensures { IfOk result (λ bytes. bytes.items ≡ packed_bytes bits.now) }
{
    let count = bits.len().div_ceil(8);
    let mut bytes = Vec::with_capacity(alloc, count)?;
    for index in 0..count {
        let rest = &bits[8 * index..];
        bytes.push(byte_of(&rest[..rest.len().min(8)]))?;
    }
    Ok(bytes)
}

fn pack(alloc: Global, bits: &[bool]) -> Result<Bits, AllocError>
    ensures { IfOk result (λ read. packed_bits read ≡ packed_of bits.now) }
{
    Ok(Bits {
        bytes: packed_bytes(alloc, bits)?,
        length: bits.len(),
    })
}

// The same booleans, packed.
impl Word for Bits {
    ghost Meaning = { Packed };

    ghost meaning = { packed_bits };

    ghost parse = { parse_packed };

    fn of_word(alloc: Global, word: &[u8]) -> Result<Option<Self>, AllocError> {
        match <Vec<bool>>::of_word(alloc, word)? {
            Some(bits) => Ok(Some(pack(alloc, &bits)?)),
            None => Ok(None),
        }
    }

    fn is_word(word: &[u8]) -> bool {
        <Vec<bool>>::is_word(word)
    }
}

// A packed mask, or none.
impl Word for Option<Bits> {
    ghost Meaning = { Option Packed };

    ghost meaning = { option_map packed_bits };

    ghost parse = { parse_packed_mask };

    fn of_word(alloc: Global, word: &[u8]) -> Result<Option<Self>, AllocError> {
        match <Option<Vec<bool>>>::of_word(alloc, word)? {
            Some(Some(marks)) => Ok(Some(Some(pack(alloc, &marks)?))),
            Some(None) => Ok(Some(None)),
            None => Ok(None),
        }
    }

    fn is_word(word: &[u8]) -> bool {
        <Option<Vec<bool>>>::is_word(word)
    }
}
