//! How the words behind a line's name are read: each by its type, and none may be left over.
ghost use Rattle.std.specs.Prelude.{◌≡◌, IfOk, ℕ, List, Option, is_some, map, option_map};
ghost use Rattle.arrow_syntax.specs.Readers.{ParsesAs, each, end, first, only, with_rest, ◌▸◌};
ghost use Rattle.arrow_syntax.specs.Words.{words_of};

use crate::words::next_word;
use std::alloc::{AllocError, Global};

/// A value that one word writes.
pub trait Word: Sized + Drop {
    /// The type of the value in contracts, apart from where it lies in memory.
    ghost Meaning: { Type 0 };

    ghost meaning: { Self → Meaning };

    /// The value that a word writes, if the word is well formed.
    ghost parse: { List ℕ → Option Meaning };

    /// Returns the value that a word writes, or `None` if the word is malformed.
    fn of_word(alloc: Global, word: &[u8]) -> Result<Option<Self>, AllocError>
        ensures { ParsesAs result meaning (parse word.now) };

    /// Returns whether a word is well formed. Allocates nothing.
    fn is_word(word: &[u8]) -> bool
        ensures { result ≡ is_some (parse word.now) };
}

/// A value that all remaining words of a line write.
pub trait Words: Sized + Drop {
    /// The type of the value in contracts, apart from where it lies in memory.
    ghost Content: { Type 0 };

    ghost content: { Self → Content };

    /// The value that words write, if they are well formed.
    ghost reader: { List (List ℕ) → Option Content };

    /// Returns the value that words write, or `None` if they are malformed.
    fn of_words(alloc: Global, words: &[u8]) -> Result<Option<Self>, AllocError>
        ensures { ParsesAs result content (reader (words_of words.now)) };

    /// Returns whether words are well formed. Allocates nothing.
    fn are_words(words: &[u8]) -> bool
        ensures { result ≡ is_some (reader (words_of words.now)) };
}

/// One word, which is the last of a line.
#[derive(Drop)]
pub struct Last<A>(pub A);

/// Reads the first word. Returns its value and the rest of the text, or `None` if the word is missing or malformed.
pub fn next<A: Word>(alloc: Global, text: &[u8]) -> Result<Option<(A, &[u8])>, AllocError>
    ensures { ParsesAs result (with_rest A.meaning) (first A.parse (words_of text.now)) }
{
    let Some((word, rest)) = next_word(text) else {
        return Ok(None);
    };
    match A::of_word(alloc, word)? {
        Some(value) => Ok(Some((value, rest))),
        None => Ok(None),
    }
}

// No word.
impl Words for () {
    ghost use Rattle.std.specs.Prelude.{⊤};

    ghost Content = { ⊤ };

    ghost content = { λ x. x };

    ghost reader = { end };

    #[inline(always)]
    fn of_words(_alloc: Global, words: &[u8]) -> Result<Option<Self>, AllocError> {
        Ok(end(words))
    }

    #[inline(always)]
    fn are_words(words: &[u8]) -> bool {
        next_word(words).is_none()
    }
}

/// Returns `Some` if no word follows.
#[inline(always)]
fn end(text: &[u8]) -> Option<()>
    ensures { result ≡ end (words_of text.now) }
{
    match next_word(text) {
        Some(_) => None,
        None => Some(()),
    }
}

impl<A: Word> Words for Last<A> {
    ghost Content = { A.Meaning };

    ghost content = { λ x. A.meaning x.0 };

    ghost reader = { only A.parse };

    #[inline(always)]
    fn of_words(alloc: Global, words: &[u8]) -> Result<Option<Self>, AllocError> {
        let Some((word, rest)) = next_word(words) else {
            return Ok(None);
        };
        if end(rest).is_none() {
            return Ok(None);
        }
        match A::of_word(alloc, word)? {
            Some(value) => Ok(Some(Last(value))),
            None => Ok(None),
        }
    }

    #[inline(always)]
    fn are_words(words: &[u8]) -> bool {
        match next_word(words) {
            Some((word, rest)) => end(rest).is_some() && A::is_word(word),
            None => false,
        }
    }
}

// One word, and then others.
impl<A: Word, B: Words> Words for (A, B) {
    ghost Content = { A.Meaning × B.Content };

    ghost content = { λ x. (A.meaning x.0, B.content x.1) };

    ghost reader = { A.parse ▸ B.reader };

    #[inline(always)]
    fn of_words(alloc: Global, words: &[u8]) -> Result<Option<Self>, AllocError> {
        let Some((word, rest)) = next_word(words) else {
            return Ok(None);
        };
        let Some(value) = A::of_word(alloc, word)? else {
            return Ok(None);
        };
        match B::of_words(alloc, rest)? {
            Some(others) => Ok(Some((value, others))),
            None => Ok(None),
        }
    }

    #[inline(always)]
    fn are_words(words: &[u8]) -> bool {
        match next_word(words) {
            Some((word, rest)) => A::is_word(word) && B::are_words(rest),
            None => false,
        }
    }
}

// Any number of words.
impl<A: Word> Words for Vec<A> {
    ghost Content = { List A.Meaning };

    ghost content = { λ xs. map A.meaning xs.items };

    ghost reader = { each A.parse };

    fn of_words(alloc: Global, words: &[u8]) -> Result<Option<Self>, AllocError> {
        let mut all = Vec::new(alloc);
        let mut rest = words;
        while let Some((word, after)) = next_word(rest) {
            let Some(value) = A::of_word(alloc, word)? else {
                return Ok(None);
            };
            all.push(value)?;
            rest = after;
        }
        Ok(Some(all))
    }

    fn are_words(words: &[u8]) -> bool {
        let mut rest = words;
        while let Some((word, after)) = next_word(rest) {
            if !A::is_word(word) {
                return false;
            }
            rest = after;
        }
        true
    }
}
