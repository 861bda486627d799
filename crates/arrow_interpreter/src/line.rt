//! The lines of a table of one width of offsets: the traits by which each line is its words and the command that they
//! make.
ghost use Rattle.std.specs.Prelude.{◌≡◌, ℤ, ℕ, IfOk, List, Option, is_some, map};
ghost use Rattle.arrow_model.specs.Request.{Request, as_request};
ghost use Rattle.arrow_interpreter.specs.Replies.{RunsLine, on_table};
ghost use Rattle.arrow_syntax.specs.Readers.{ParsesAs, ReadsToo, each};
ghost use Rattle.arrow_syntax.specs.Words.{words_of};

use crate::interpreter::Interpreter;
use arrow_syntax::readers::Words;
use arrow_table::{Command, Width};
use std::alloc::{AllocError, Global};

/// A line that makes a command: a name, a number, and further words.
pub(crate) trait CommandLine<O: ParseOffset> {
    /// The type of the words behind the number.
    type Rest: Words;

    /// The request that a number and the words behind it make, if these are well formed.
    ghost reader: { ℕ → List (List ℕ) → Option (Request ℤ) };

    /// Makes the command.
    fn command(number: usize, rest: Self::Rest) -> Command<i64, O>
        ensures { ReadsToo Self.Rest.reader (Self.Rest.content rest) (reader number) (as_request O.number result) };

    /// The words are well formed if those of their type are.
    ghost same: { (n : ℕ) (words : List (List ℕ)) → is_some (reader n words) ≡ is_some (Self.Rest.reader words) };
}

/// A line that reads its own words. Most of these lines make no command, which would copy the values of their words.
pub(crate) trait DirectLine<O: ParseOffset> {
    /// The request that a number and the words behind it make, if these are well formed.
    ghost reader: { ℕ → List (List ℕ) → Option (Request ℤ) };

    /// Returns whether the words are well formed. The number is a parameter only because the contract names it.
    fn is_line(number: usize, words: &[u8]) -> bool
        ensures { result ≡ is_some (reader number (words_of words.now)) };

    /// Runs the line and returns whether the words were well formed.
    fn run(interpreter: &mut Interpreter, number: usize, words: &[u8]) -> Result<bool, AllocError>
        ensures { IfOk result
            (RunsLine (on_table O.IS_LARGE (reader number (words_of words.now))) interpreter.old interpreter.new) };
}

/// A width of offsets that words write.
pub(crate) trait ParseOffset: Width {
    /// The number that a word writes, if it is one of the width's.
    ghost offset: { List ℕ → Option ℤ };

    /// Returns the offsets that words write, or `None` if one of them is malformed.
    fn offsets_of(alloc: Global, words: &[u8]) -> Result<Option<Vec<Self>>, AllocError>
        ensures { ParsesAs result (λ offsets. map Self.number offsets.items) (each offset (words_of words.now)) };

    /// Returns whether each word writes an offset.
    fn are_offsets(words: &[u8]) -> bool
        ensures { result ≡ is_some (each offset (words_of words.now)) };
}

impl ParseOffset for i32 {
    ghost use Rattle.arrow_syntax.specs.Words.{parse_i32};

    ghost offset = { parse_i32 };

    fn offsets_of(alloc: Global, words: &[u8]) -> Result<Option<Vec<i32>>, AllocError> {
        Vec::<i32>::of_words(alloc, words)
    }

    fn are_offsets(words: &[u8]) -> bool {
        Vec::<i32>::are_words(words)
    }
}

impl ParseOffset for i64 {
    ghost use Rattle.arrow_syntax.specs.Words.{parse_i64};

    ghost offset = { parse_i64 };

    fn offsets_of(alloc: Global, words: &[u8]) -> Result<Option<Vec<i64>>, AllocError> {
        Vec::<i64>::of_words(alloc, words)
    }

    fn are_offsets(words: &[u8]) -> bool {
        Vec::<i64>::are_words(words)
    }
}

/// Any number of offsets.
#[derive(Drop)]
pub(crate) struct OffsetWords<O: ParseOffset>(pub(crate) Vec<O>);

impl<O: ParseOffset> Words for OffsetWords<O> {
    ghost use Rattle.std.specs.Prelude.{ℤ, List, map};
    ghost use Rattle.arrow_syntax.specs.Readers.{each};

    ghost Content = { List ℤ };

    ghost content = { λ offsets. map O.number offsets.0.items };

    ghost reader = { each O.offset };

    fn of_words(alloc: Global, words: &[u8]) -> Result<Option<Self>, AllocError> {
        match O::offsets_of(alloc, words)? {
            Some(offsets) => Ok(Some(OffsetWords(offsets))),
            None => Ok(None),
        }
    }

    fn are_words(words: &[u8]) -> bool {
        O::are_offsets(words)
    }
}
