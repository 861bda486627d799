//! The words of a line, between spaces. Nothing is copied.
ghost use Rattle.std.specs.Prelude.{◌≡◌, ◌==◌, ◌∷◌, [], ◌<◌, IfSome, MatchOption, bytes_eq, length, position};
ghost use Rattle.arrow_syntax.specs.Words.{SplitsAt, words_of};

use crate::search::among_first;

/// Returns whether four bytes are the same, by one comparison of numbers.
#[inline(always)]
fn same_four(bytes: &[u8; 4], others: &[u8; 4]) -> bool
    ensures { result ≡ bytes_eq bytes.now others.now }
{
    u32::from_le_bytes(*bytes) == u32::from_le_bytes(*others)
}

/// Returns whether texts of one length are the same. The loop is over the length of the second, which is known wherever
/// this is called, so that the compiler unrolls it.
#[inline(always)]
fn same_bytes(word: &[u8], name: &[u8]) -> bool
    requires { length word.now ≡ length name.now }
    ensures { result ≡ bytes_eq word.now name.now }
{
    for at in 0..name.len() {
        if word[at] != name[at] {
            return false;
        }
    }
    true
}

/// Returns whether a word is this name. Most names have four letters or more, and the first four are compared together.
#[inline(always)]
pub fn word_eq(word: &[u8], name: &[u8]) -> bool
    ensures { result ≡ bytes_eq word.now name.now }
{
    if word.len() != name.len() {
        return false;
    }
    match (word, name) {
        ([a, b, c, d, rest @ ..], [e, f, g, h, others @ ..]) => {
            same_four(&[*a, *b, *c, *d], &[*e, *f, *g, *h]) && same_bytes(rest, others)
        }
        _ => same_bytes(word, name),
    }
}

/// Returns the place of the first occurrence of a byte. Words are short, so 8 bytes together and then a plain loop are
/// faster than `memchr`.
#[inline(always)]
fn position_of(byte: u8, text: &[u8]) -> Option<usize>
    ensures { result ≡ position (λ b. b == byte) text.now }
{
    if text.len() >= 8 {
        if let Some(place) = among_first::<8>(byte, text) {
            return Some(place);
        }
    }
    for place in 0..text.len() {
        if text[place] == byte {
            return Some(place);
        }
    }
    None
}

/// Splits a text at the first occurrence of a byte. Returns what precedes it, and what follows it if it occurs.
#[inline(always)]
fn split_at(byte: u8, text: &[u8]) -> (&[u8], Option<&[u8]>)
    ensures pieces { SplitsAt byte text.now result.0.now result.1 }
    ensures shorter { IfSome result.1 (λ after. length after.now < length text.now) }
{
    match position_of(byte, text) {
        Some(place) => (&text[..place], Some(&text[place + 1..])),
        None => (text, None),
    }
}

/// Returns the first word of a text that may begin with spaces, and what follows it, or `None` if the text has no word.
#[cold]
#[inline(never)]
fn word_behind_spaces(text: &[u8]) -> Option<(&[u8], &[u8])>
    ensures { MatchOption result (words_of text.now ≡ [])
        (λ word. words_of text.now ≡ word.0.now ∷ words_of word.1.now) }
{
    let mut rest = Some(text);
    while let Some(text) = rest {
        let (word, after) = split_at(b' ', text);
        if !word.is_empty() {
            return Some((word, after.unwrap_or(&[])));
        }
        rest = after;
    }
    None
}

/// Returns the first word of a text and what follows it, or `None` if the text has no word. Most texts begin with a word,
/// which is found with no loop over spaces.
#[inline(always)]
pub fn next_word(text: &[u8]) -> Option<(&[u8], &[u8])>
    ensures { MatchOption result (words_of text.now ≡ [])
        (λ word. words_of text.now ≡ word.0.now ∷ words_of word.1.now) }
{
    if text.is_empty() {
        return None;
    }
    let (word, after) = split_at(b' ', text);
    if word.is_empty() {
        return word_behind_spaces(text);
    }
    Some((word, after.unwrap_or(&[])))
}
