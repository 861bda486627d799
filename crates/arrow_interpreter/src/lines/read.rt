//! The lines that read a value. Each is a type; another needs its name in [`crate::run`] too.
ghost use Rattle.arrow_syntax.specs.Lines.{bytes_line, get_line, held_line, is_null_line, len_line, list_line};
ghost use Rattle.arrow_syntax.specs.Lines.{nulls_line, offsets_line, turns_line, type_line, value_line};
ghost use Rattle.std.proofs.Common.{rules};

use crate::interpreter::Interpreter;
use crate::line::{CommandLine, DirectLine, ParseOffset};
use arrow_syntax::readers::{Last, Words};
use arrow_table::{Command, Turn};
use std::alloc::AllocError;

/// `len E`
pub(crate) struct LenLine;

impl<O: ParseOffset> CommandLine<O> for LenLine {
    type Rest = ();

    ghost reader = { len_line };

    ghost same = { Prim.search rules };

    #[inline(always)]
    fn command(number: usize, _end: Self::Rest) -> Command<i64, O> {
        Command::Len(number)
    }
}

/// `value E I`
pub(crate) struct ValueLine;

impl<O: ParseOffset> CommandLine<O> for ValueLine {
    type Rest = Last<usize>;

    ghost reader = { value_line };

    ghost same = { Prim.search rules };

    #[inline(always)]
    fn command(number: usize, index: Self::Rest) -> Command<i64, O> {
        Command::Value(number, index.0)
    }
}

/// `get E I`
pub(crate) struct GetLine;

impl<O: ParseOffset> CommandLine<O> for GetLine {
    type Rest = Last<usize>;

    ghost reader = { get_line };

    ghost same = { Prim.search rules };

    #[inline(always)]
    fn command(number: usize, index: Self::Rest) -> Command<i64, O> {
        Command::Get(number, index.0)
    }
}

/// `isnull E I`
pub(crate) struct IsNullLine;

impl<O: ParseOffset> CommandLine<O> for IsNullLine {
    type Rest = Last<usize>;

    ghost reader = { is_null_line };

    ghost same = { Prim.search rules };

    #[inline(always)]
    fn command(number: usize, index: Self::Rest) -> Command<i64, O> {
        Command::IsNull(number, index.0)
    }
}

/// `nulls E`
pub(crate) struct NullsLine;

impl<O: ParseOffset> CommandLine<O> for NullsLine {
    type Rest = ();

    ghost reader = { nulls_line };

    ghost same = { Prim.search rules };

    #[inline(always)]
    fn command(number: usize, _end: Self::Rest) -> Command<i64, O> {
        Command::NullCount(number)
    }
}

/// `list E`. The slots are written from where they lie.
pub(crate) struct ListLine;

impl<O: ParseOffset> DirectLine<O> for ListLine {
    ghost reader = { list_line };

    fn is_line(_number: usize, words: &[u8]) -> bool {
        <()>::are_words(words)
    }

    fn run(interpreter: &mut Interpreter, number: usize, words: &[u8]) -> Result<bool, AllocError> {
        if !<()>::are_words(words) {
            return Ok(false);
        }
        interpreter.list::<O>(number)?;
        Ok(true)
    }
}

/// `turns E TURN*`
pub(crate) struct TurnsLine;

impl<O: ParseOffset> CommandLine<O> for TurnsLine {
    type Rest = Vec<Turn>;

    ghost reader = { turns_line };

    ghost same = { Prim.search rules };

    #[inline(always)]
    fn command(number: usize, turns: Self::Rest) -> Command<i64, O> {
        Command::Turns(number, turns)
    }
}

/// `type E`
pub(crate) struct TypeLine;

impl<O: ParseOffset> CommandLine<O> for TypeLine {
    type Rest = ();

    ghost reader = { type_line };

    ghost same = { Prim.search rules };

    #[inline(always)]
    fn command(number: usize, _end: Self::Rest) -> Command<i64, O> {
        Command::TypeOf(number)
    }
}

/// `held E`
pub(crate) struct HeldLine;

impl<O: ParseOffset> CommandLine<O> for HeldLine {
    type Rest = ();

    ghost reader = { held_line };

    ghost same = { Prim.search rules };

    #[inline(always)]
    fn command(number: usize, _end: Self::Rest) -> Command<i64, O> {
        Command::Held(number)
    }
}

/// `bytes E`
pub(crate) struct BytesLine;

impl<O: ParseOffset> CommandLine<O> for BytesLine {
    type Rest = ();

    ghost reader = { bytes_line };

    ghost same = { Prim.search rules };

    #[inline(always)]
    fn command(number: usize, _end: Self::Rest) -> Command<i64, O> {
        Command::Bytes(number)
    }
}

/// `offsets E`
pub(crate) struct OffsetsLine;

impl<O: ParseOffset> CommandLine<O> for OffsetsLine {
    type Rest = ();

    ghost reader = { offsets_line };

    ghost same = { Prim.search rules };

    #[inline(always)]
    fn command(number: usize, _end: Self::Rest) -> Command<i64, O> {
        Command::Offsets(number)
    }
}
