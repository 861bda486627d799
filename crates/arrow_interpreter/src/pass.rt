//! The passes over the lines of an input: all lines are tested, and then they are run, by [`crate::interpreter`].
ghost use Rattle.std.specs.Prelude.{◌≡◌, Bool, None, Ok, Option, Result, is_some, ℤ};
ghost use Rattle.std.specs.declared.alloc.AllocError.{AllocError};
ghost use Rattle.arrow_model.specs.Both.{BothRequest};
ghost use Rattle.arrow_interpreter.specs.Replies.{on_table};
ghost use Rattle.arrow_syntax.specs.Lines.{narrow_line, widen_line};
ghost use Rattle.arrow_syntax.specs.Words.{words_of};

use crate::line::{CommandLine, DirectLine, ParseOffset};
use arrow_syntax::readers::{Last, Words};
use std::alloc::AllocError;

/// A pass over the lines of an input. The functions that find a line by its name are generic over it. Each call returns
/// whether the words were a line.
pub(crate) trait Pass {
    /// The effect of a pass on words that make this request, or on words that are not a line (`None`).
    ghost Handles: { Option (BothRequest ℤ) → Self → Self → Result Bool AllocError → Type 0 };

    /// Handles words that are not a line.
    fn none(&mut self) -> Result<bool, AllocError>
        ensures { Handles None self.old self.new result };

    /// Handles a line that makes a command, by its number and the words behind it.
    fn line<O: ParseOffset, L: CommandLine<O>>(
        &mut self,
        number: usize,
        words: &[u8],
    ) -> Result<bool, AllocError>
        ensures { Handles (on_table O.IS_LARGE (L.reader number (words_of words.now))) self.old self.new result };

    /// Handles a line that reads its own words, by its number and the words behind it.
    fn direct<O: ParseOffset, L: DirectLine<O>>(
        &mut self,
        number: usize,
        words: &[u8],
    ) -> Result<bool, AllocError>
        ensures { Handles (on_table O.IS_LARGE (L.reader number (words_of words.now))) self.old self.new result };

    /// Handles `widen E F`.
    fn widen_line(&mut self, words: &[u8]) -> Result<bool, AllocError>
        ensures { Handles (widen_line (words_of words.now)) self.old self.new result };

    /// Handles `narrow E F`.
    fn narrow_line(&mut self, words: &[u8]) -> Result<bool, AllocError>
        ensures { Handles (narrow_line (words_of words.now)) self.old self.new result };
}

/// The first pass: lines are tested, and nothing is made of their words or run. No call fails.
#[derive(Drop)]
pub(crate) struct Tested;

impl Pass for Tested {
    ghost Handles = { λ request _ _ result. result ≡ Ok (is_some request) };

    #[inline(always)]
    fn none(&mut self) -> Result<bool, AllocError> {
        Ok(false)
    }

    #[inline(always)]
    fn line<O: ParseOffset, L: CommandLine<O>>(
        &mut self,
        _number: usize,
        words: &[u8],
    ) -> Result<bool, AllocError> {
        Ok(L::Rest::are_words(words))
    }

    #[inline(always)]
    fn direct<O: ParseOffset, L: DirectLine<O>>(
        &mut self,
        number: usize,
        words: &[u8],
    ) -> Result<bool, AllocError> {
        Ok(L::is_line(number, words))
    }

    #[inline(always)]
    fn widen_line(&mut self, words: &[u8]) -> Result<bool, AllocError> {
        Ok(TwoNumbers::are_words(words))
    }

    #[inline(always)]
    fn narrow_line(&mut self, words: &[u8]) -> Result<bool, AllocError> {
        Ok(TwoNumbers::are_words(words))
    }
}

/// The words of `widen` and of `narrow`.
pub(crate) type TwoNumbers = (usize, Last<usize>);
