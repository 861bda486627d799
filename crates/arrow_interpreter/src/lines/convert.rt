//! The lines that convert a value, and those about two values, about three, and about none.
ghost use Rattle.arrow_syntax.specs.Lines.{equal_line, filter_line, freeze_line, indexes_line, nullable_line};
ghost use Rattle.arrow_syntax.specs.Lines.{take_line, thaw_line, to_line};
ghost use Rattle.std.proofs.Common.{rules};

use crate::interpreter::Interpreter;
use crate::line::{CommandLine, DirectLine, ParseOffset};
use arrow_syntax::readers::{Last, Words};
use arrow_table::Command;
use arrow_types::data_type::DataType;
use std::alloc::AllocError;

/// `freeze E`
pub(crate) struct FreezeLine;

impl<O: ParseOffset> CommandLine<O> for FreezeLine {
    type Rest = ();

    ghost reader = { freeze_line };

    ghost same = { Prim.search rules };

    #[inline(always)]
    fn command(number: usize, _end: Self::Rest) -> Command<i64, O> {
        Command::Freeze(number)
    }
}

/// `thaw E`
pub(crate) struct ThawLine;

impl<O: ParseOffset> CommandLine<O> for ThawLine {
    type Rest = ();

    ghost reader = { thaw_line };

    ghost same = { Prim.search rules };

    #[inline(always)]
    fn command(number: usize, _end: Self::Rest) -> Command<i64, O> {
        Command::Thaw(number)
    }
}

/// `nullable E`
pub(crate) struct NullableLine;

impl<O: ParseOffset> CommandLine<O> for NullableLine {
    type Rest = ();

    ghost reader = { nullable_line };

    ghost same = { Prim.search rules };

    #[inline(always)]
    fn command(number: usize, _end: Self::Rest) -> Command<i64, O> {
        Command::Nullable(number)
    }
}

/// `to E TYPE`. The line reads its words itself: the proof of an `impl` whose `Rest` holds a data type does not finish.
pub(crate) struct ToLine;

impl<O: ParseOffset> DirectLine<O> for ToLine {
    ghost reader = { to_line };

    fn is_line(_number: usize, words: &[u8]) -> bool {
        <Last<DataType>>::are_words(words)
    }

    fn run(interpreter: &mut Interpreter, number: usize, words: &[u8]) -> Result<bool, AllocError> {
        match <Last<DataType>>::of_words(*interpreter.text.allocator(), words)? {
            Some(Last(data_type)) => {
                interpreter.run::<O>(Command::To(number, data_type))?;
                Ok(true)
            }
            None => Ok(false),
        }
    }
}

/// `equal E F`
pub(crate) struct EqualLine;

impl<O: ParseOffset> CommandLine<O> for EqualLine {
    type Rest = Last<usize>;

    ghost reader = { equal_line };

    ghost same = { Prim.search rules };

    #[inline(always)]
    fn command(number: usize, other: Self::Rest) -> Command<i64, O> {
        Command::Equal(number, other.0)
    }
}

/// `filter E F G`
pub(crate) struct FilterLine;

impl<O: ParseOffset> CommandLine<O> for FilterLine {
    type Rest = (usize, Last<usize>);

    ghost reader = { filter_line };

    ghost same = { Prim.search rules };

    #[inline(always)]
    fn command(number: usize, others: Self::Rest) -> Command<i64, O> {
        Command::Filter(number, others.0, others.1.0)
    }
}

/// `take E G INT*`
pub(crate) struct TakeLine;

impl<O: ParseOffset> CommandLine<O> for TakeLine {
    type Rest = (usize, Vec<i64>);

    ghost reader = { take_line };

    ghost same = { Prim.search rules };

    #[inline(always)]
    fn command(number: usize, keys: Self::Rest) -> Command<i64, O> {
        Command::Take(number, keys.1, keys.0)
    }
}

/// `indexes LEN INT*`
pub(crate) struct IndexesLine;

impl<O: ParseOffset> CommandLine<O> for IndexesLine {
    type Rest = Vec<i64>;

    ghost reader = { indexes_line };

    ghost same = { Prim.search rules };

    #[inline(always)]
    fn command(number: usize, keys: Self::Rest) -> Command<i64, O> {
        Command::CheckIndexes(keys, number)
    }
}
