//! The words that are items and slots, and those that name a change of a list of them.
ghost use Rattle.std.specs.Prelude.{◌≡◌, ℕ, ℤ, true, false, List, Option, Some, None, is_some};
ghost use Rattle.std.specs.Prelude.{option_map, string_bytes, if◌then◌else◌};
ghost use Rattle.std.specs.Str.{is_utf8};
ghost use Rattle.arrow_model.specs.Item.{Stored, value, bytes_item, ListChange, fill, reversal, stored_item, stored_slot};
ghost use Rattle.arrow_model.specs.Item.{change_of};
ghost use Rattle.arrow_syntax.specs.Fields.{hex_bytes, parse_bytes, change_by_name, parse_change, item_by_letter};
ghost use Rattle.arrow_syntax.specs.Fields.{parse_item, parse_slot, hex_text};
ghost use Rattle.arrow_syntax.specs.Readers.{ParsesAs, map_read, no_words, only};
ghost use Rattle.arrow_syntax.specs.Words.{words_of, parse_i64};

use crate::hexadecimal::{are_bytes, is_text};
use crate::numbers::parse_i64;
use crate::readers::{Last, Word, Words};
use crate::words::{next_word, word_eq};
use arrow_model::{Change, Item};
use hex::FromHexError;
use std::alloc::{AllocError, Global};

/// Returns the bytes that hexadecimal digits write.
fn hex_bytes(alloc: Global, digits: &[u8]) -> Result<Option<Vec<u8>>, AllocError>
    ensures { ParsesAs result (λ bytes. bytes.items) (hex_bytes digits.now) }
{
    match hex::decode(alloc, digits) {
        Ok(bytes) => Ok(Some(bytes)),
        Err(FromHexError::OutOfMemory) => Err(AllocError),
        Err(_) => Ok(None),
    }
}

/// Converts bytes into a text, or returns `None` if they are not UTF-8.
fn text_from_utf8(bytes: Vec<u8>) -> Option<String>
    ensures { option_map string_bytes result ≡ (if is_utf8 bytes.items then Some bytes.items else None) }
{
    String::from_utf8(bytes).ok()
}

/// Returns the text whose bytes hexadecimal digits write.
fn hex_text(alloc: Global, digits: &[u8]) -> Result<Option<String>, AllocError>
    ensures { ParsesAs result string_bytes (hex_text digits.now) }
{
    match hex_bytes(alloc, digits)? {
        Some(bytes) => Ok(text_from_utf8(bytes)),
        None => Ok(None),
    }
}

// Bytes: `x` and hexadecimal digits.
impl Word for Vec<u8> {
    ghost Meaning = { List ℕ };

    ghost meaning = { λ bytes. bytes.items };

    ghost parse = { parse_bytes };

    fn of_word(alloc: Global, word: &[u8]) -> Result<Option<Self>, AllocError> {
        let Some((first, digits)) = word.split_first() else {
            return Ok(None);
        };
        if *first == b'x' {
            hex_bytes(alloc, digits)
        } else {
            Ok(None)
        }
    }

    fn is_word(word: &[u8]) -> bool {
        match word.split_first() {
            Some((first, digits)) => *first == b'x' && are_bytes(digits),
            None => false,
        }
    }
}

/// Returns the native item that a number writes.
#[inline(always)]
fn read_value(digits: &[u8]) -> Option<Item<i64>>
    ensures { option_map stored_item result ≡ option_map value (parse_i64 digits.now) }
{
    Some(Item::Value(parse_i64(digits)?))
}

#[inline(always)]
fn read_bytes(alloc: Global, digits: &[u8]) -> Result<Option<Item<i64>>, AllocError>
    ensures { ParsesAs result stored_item (option_map (bytes_item false) (hex_bytes digits.now)) }
{
    match hex_bytes(alloc, digits)? {
        Some(bytes) => Ok(Some(Item::Bytes(bytes))),
        None => Ok(None),
    }
}

#[inline(always)]
fn read_text(alloc: Global, digits: &[u8]) -> Result<Option<Item<i64>>, AllocError>
    ensures { ParsesAs result stored_item (option_map (bytes_item true) (hex_text digits.now)) }
{
    match hex_text(alloc, digits)? {
        Some(text) => Ok(Some(Item::Text(text))),
        None => Ok(None),
    }
}

/// Returns the item that a word writes, by its first letter.
#[inline(always)]
fn item_by_letter(alloc: Global, word: &[u8]) -> Result<Option<Item<i64>>, AllocError>
    ensures { ParsesAs result stored_item (item_by_letter word.now) }
{
    let Some((first, rest)) = word.split_first() else {
        return Ok(None);
    };
    match *first {
        b'v' => Ok(read_value(rest)),
        b'x' => read_bytes(alloc, rest),
        b't' => read_text(alloc, rest),
        _ => Ok(None),
    }
}

/// Returns whether a word writes an item, by its first letter.
#[inline(always)]
fn is_item_by_letter(word: &[u8]) -> bool
    ensures { result ≡ is_some (item_by_letter word.now) }
{
    let Some((first, rest)) = word.split_first() else {
        return false;
    };
    match *first {
        b'v' => parse_i64(rest).is_some(),
        b'x' => are_bytes(rest),
        b't' => is_text(rest),
        _ => false,
    }
}

impl Word for Item<i64> {
    ghost Meaning = { Stored ℤ };

    ghost meaning = { stored_item };

    ghost parse = { parse_item };

    #[inline(always)]
    fn of_word(alloc: Global, word: &[u8]) -> Result<Option<Self>, AllocError> {
        if word_eq(word, b"b0") {
            return Ok(Some(Item::Bit(false)));
        }
        if word_eq(word, b"b1") {
            return Ok(Some(Item::Bit(true)));
        }
        item_by_letter(alloc, word)
    }

    #[inline(always)]
    fn is_word(word: &[u8]) -> bool {
        word_eq(word, b"b0") || word_eq(word, b"b1") || is_item_by_letter(word)
    }
}

// An item, or `_` for a null.
impl Word for Option<Item<i64>> {
    ghost Meaning = { Option (Stored ℤ) };

    ghost meaning = { stored_slot };

    ghost parse = { parse_slot };

    #[inline(always)]
    fn of_word(alloc: Global, word: &[u8]) -> Result<Option<Self>, AllocError> {
        if word_eq(word, b"_") {
            return Ok(Some(None));
        }
        match <Item<i64>>::of_word(alloc, word)? {
            Some(item) => Ok(Some(Some(item))),
            None => Ok(None),
        }
    }

    #[inline(always)]
    fn is_word(word: &[u8]) -> bool {
        word_eq(word, b"_") || <Item<i64>>::is_word(word)
    }
}

/// Returns the change that fills with the item that the words write.
fn fill_change(alloc: Global, words: &[u8]) -> Result<Option<Change<i64>>, AllocError>
    ensures { ParsesAs result change_of (map_read (only parse_item) fill (words_of words.now)) }
{
    match <Last<Item<i64>>>::of_words(alloc, words)? {
        Some(Last(item)) => Ok(Some(Change::Fill(item))),
        None => Ok(None),
    }
}

/// Returns the change that reverses a list, if no word follows.
fn reverse_change(words: &[u8]) -> Option<Change<i64>>
    ensures { option_map change_of result ≡ no_words reversal (words_of words.now) }
{
    match next_word(words) {
        Some(_) => None,
        None => Some(Change::Reverse),
    }
}

/// Returns the change of this name.
fn change_by_name(
    alloc: Global,
    name: &[u8],
    words: &[u8],
) -> Result<Option<Change<i64>>, AllocError>
    ensures { ParsesAs result change_of (change_by_name name.now (words_of words.now)) }
{
    if word_eq(name, b"fill") {
        return fill_change(alloc, words);
    }
    if word_eq(name, b"reverse") {
        return Ok(reverse_change(words));
    }
    Ok(None)
}

/// Returns whether the words behind a change's name are well formed.
fn is_change(name: &[u8], words: &[u8]) -> bool
    ensures { result ≡ is_some (change_by_name name.now (words_of words.now)) }
{
    if word_eq(name, b"fill") {
        return <Last<Item<i64>>>::are_words(words);
    }
    word_eq(name, b"reverse") && <()>::are_words(words)
}

// A change by its name: `fill` and an item, or `reverse`.
impl Words for Change<i64> {
    ghost Content = { ListChange (Stored ℤ) };

    ghost content = { change_of };

    ghost reader = { parse_change };

    fn of_words(alloc: Global, words: &[u8]) -> Result<Option<Self>, AllocError> {
        match next_word(words) {
            Some((name, rest)) => change_by_name(alloc, name, rest),
            None => Ok(None),
        }
    }

    fn are_words(words: &[u8]) -> bool {
        match next_word(words) {
            Some((name, rest)) => is_change(name, rest),
            None => false,
        }
    }
}
