//! The words that are numbers, kinds, types, or calls of an iterator.
ghost use Rattle.std.specs.Prelude.{◌≡◌, ℕ, ℤ, IfSome, Some, option_and_then, option_map};
ghost use Rattle.arrow_types.specs.Types.{LogicalType, logical_type};
ghost use Rattle.arrow_model.specs.declared.kind.Kind.{Kind};
ghost use Rattle.arrow_model.specs.declared.item.Turn.{Turn};
ghost use Rattle.arrow_syntax.specs.Fields.{parse_kind, parse_type, parse_skip, parse_turn};
ghost use Rattle.arrow_syntax.specs.Readers.{first, with_rest};
ghost use Rattle.arrow_syntax.specs.Words.{parse_usize, parse_i64, parse_i32, with_digit, words_of};

use crate::numbers::{parse_i32, parse_i64, parse_usize, with_digit};
use crate::readers::Word;
use crate::words::{next_word, word_eq};
use arrow_model::{Kind, Turn};
use arrow_types::data_type::DataType;
use std::alloc::{AllocError, Global};

/// Returns the number that two digits write.
#[inline(always)]
fn two_digits(tens: u8, ones: u8) -> Option<usize>
    ensures { result ≡ option_and_then (λ n. with_digit n ones) (with_digit 0 tens) }
{
    with_digit(with_digit(0, tens)?, ones)
}

/// Returns the number of a first word that is one or two digits, and the rest of the text. Most numbers are, and
/// reading them so takes a third of the instructions.
#[inline(always)]
fn short_number(text: &[u8]) -> Option<(usize, &[u8])>
    ensures { IfSome result (λ x. first parse_usize (words_of text.now) ≡ Some (x.0, words_of x.1.now)) }
{
    match text {
        [digit, b' ', rest @ ..] => Some((with_digit(0, *digit)?, rest)),
        [digit] => Some((with_digit(0, *digit)?, &[])),
        [tens, ones, b' ', rest @ ..] => Some((two_digits(*tens, *ones)?, rest)),
        [tens, ones] => Some((two_digits(*tens, *ones)?, &[])),
        _ => None,
    }
}

/// Returns the number that the first word writes and the rest of the text, or `None` if there is none.
#[inline(always)]
pub fn first_number(text: &[u8]) -> Option<(usize, &[u8])>
    ensures { option_map (with_rest (λ x. x)) result ≡ first parse_usize (words_of text.now) }
{
    if let Some(found) = short_number(text) {
        return Some(found);
    }
    let (word, rest) = next_word(text)?;
    match parse_usize(word) {
        Some(number) => Some((number, rest)),
        None => None,
    }
}

impl Word for usize {
    ghost Meaning = { ℕ };

    ghost meaning = { λ x. x };

    ghost parse = { parse_usize };

    #[inline(always)]
    fn of_word(_alloc: Global, word: &[u8]) -> Result<Option<Self>, AllocError> {
        Ok(parse_usize(word))
    }

    #[inline(always)]
    fn is_word(word: &[u8]) -> bool {
        parse_usize(word).is_some()
    }
}

impl Word for i64 {
    ghost Meaning = { ℤ };

    ghost meaning = { λ x. x };

    ghost parse = { parse_i64 };

    fn of_word(_alloc: Global, word: &[u8]) -> Result<Option<Self>, AllocError> {
        Ok(parse_i64(word))
    }

    fn is_word(word: &[u8]) -> bool {
        parse_i64(word).is_some()
    }
}

impl Word for i32 {
    ghost Meaning = { ℤ };

    ghost meaning = { λ x. x };

    ghost parse = { parse_i32 };

    fn of_word(_alloc: Global, word: &[u8]) -> Result<Option<Self>, AllocError> {
        Ok(parse_i32(word))
    }

    fn is_word(word: &[u8]) -> bool {
        parse_i32(word).is_some()
    }
}

/// Returns the kind of array or builder that a word names.
fn parse_kind(word: &[u8]) -> Option<Kind>
    ensures { result ≡ parse_kind word.now }
{
    if word_eq(word, b"prim") {
        return Some(Kind::Primitive);
    }
    if word_eq(word, b"bool") {
        return Some(Kind::Boolean);
    }
    if word_eq(word, b"bin") {
        return Some(Kind::Binary);
    }
    if word_eq(word, b"utf8") {
        return Some(Kind::Utf8);
    }
    if word_eq(word, b"mprim") {
        return Some(Kind::MutablePrimitive);
    }
    if word_eq(word, b"mbool") {
        return Some(Kind::MutableBoolean);
    }
    if word_eq(word, b"mbin") {
        return Some(Kind::MutableBinary);
    }
    if word_eq(word, b"mutf8") {
        return Some(Kind::MutableUtf8);
    }
    if word_eq(word, b"vbin") {
        return Some(Kind::BinaryValues);
    }
    if word_eq(word, b"vutf8") {
        return Some(Kind::Utf8Values);
    }
    None
}

/// Returns the kind that the first word names and the rest of the text, or `None` if there is none.
pub fn first_kind(text: &[u8]) -> Option<(Kind, &[u8])>
    ensures { option_map (with_rest (λ x. x)) result ≡ first parse_kind (words_of text.now) }
{
    let (word, rest) = next_word(text)?;
    match parse_kind(word) {
        Some(kind) => Some((kind, rest)),
        None => None,
    }
}

impl Word for Kind {
    ghost Meaning = { Kind };

    ghost meaning = { λ x. x };

    ghost parse = { parse_kind };

    fn of_word(_alloc: Global, word: &[u8]) -> Result<Option<Self>, AllocError> {
        Ok(parse_kind(word))
    }

    fn is_word(word: &[u8]) -> bool {
        parse_kind(word).is_some()
    }
}

/// Returns the type that a word names.
fn parse_type(word: &[u8]) -> Option<DataType>
    ensures { option_map logical_type result ≡ parse_type word.now }
{
    if word_eq(word, b"Boolean") {
        return Some(DataType::Boolean);
    }
    if word_eq(word, b"Int8") {
        return Some(DataType::Int8);
    }
    if word_eq(word, b"Int16") {
        return Some(DataType::Int16);
    }
    if word_eq(word, b"Int32") {
        return Some(DataType::Int32);
    }
    if word_eq(word, b"Int64") {
        return Some(DataType::Int64);
    }
    if word_eq(word, b"UInt8") {
        return Some(DataType::UInt8);
    }
    if word_eq(word, b"UInt16") {
        return Some(DataType::UInt16);
    }
    if word_eq(word, b"UInt32") {
        return Some(DataType::UInt32);
    }
    if word_eq(word, b"UInt64") {
        return Some(DataType::UInt64);
    }
    if word_eq(word, b"Date32") {
        return Some(DataType::Date32);
    }
    if word_eq(word, b"Date64") {
        return Some(DataType::Date64);
    }
    if word_eq(word, b"Binary") {
        return Some(DataType::Binary);
    }
    if word_eq(word, b"LargeBinary") {
        return Some(DataType::LargeBinary);
    }
    if word_eq(word, b"Utf8") {
        return Some(DataType::Utf8);
    }
    if word_eq(word, b"LargeUtf8") {
        return Some(DataType::LargeUtf8);
    }
    None
}

impl Word for DataType {
    ghost Meaning = { LogicalType };

    ghost meaning = { logical_type };

    ghost parse = { parse_type };

    fn of_word(_alloc: Global, word: &[u8]) -> Result<Option<Self>, AllocError> {
        Ok(parse_type(word))
    }

    fn is_word(word: &[u8]) -> bool {
        parse_type(word).is_some()
    }
}

/// Returns the turn that `s` and a number write, which is the number of items that are skipped.
fn parse_skip(word: &[u8]) -> Option<Turn>
    ensures { result ≡ parse_skip word.now }
{
    let (first, rest) = word.split_first()?;
    if *first != b's' {
        return None;
    }
    Some(Turn::Skip(parse_usize(rest)?))
}

/// Returns the turn of an iterator that a word writes.
fn parse_turn(word: &[u8]) -> Option<Turn>
    ensures { result ≡ parse_turn word.now }
{
    if word_eq(word, b"f") {
        return Some(Turn::Front);
    }
    if word_eq(word, b"b") {
        return Some(Turn::Back);
    }
    parse_skip(word)
}

impl Word for Turn {
    ghost Meaning = { Turn };

    ghost meaning = { λ x. x };

    ghost parse = { parse_turn };

    fn of_word(_alloc: Global, word: &[u8]) -> Result<Option<Self>, AllocError> {
        Ok(parse_turn(word))
    }

    fn is_word(word: &[u8]) -> bool {
        parse_turn(word).is_some()
    }
}
