//! The lines that make a builder grow or shrink. Each is a type; another needs its name in [`crate::run`] too.
ghost use Rattle.arrow_syntax.specs.Lines.{constant_line, extend_line, extend_values_line, pop_line, push_line};
ghost use Rattle.arrow_syntax.specs.Lines.{push_null_line, reserve_line, self_line, shrink_line};
ghost use Rattle.std.proofs.Common.{rules};

use crate::interpreter::Interpreter;
use crate::line::{CommandLine, DirectLine, ParseOffset};
use arrow_syntax::readers::{Last, Words};
use arrow_table::{Command, Item};
use std::alloc::AllocError;

/// `push E SLOT`. No command is made, since these lines are the most frequent.
pub(crate) struct PushLine;

impl<O: ParseOffset> DirectLine<O> for PushLine {
    ghost reader = { push_line };

    fn is_line(_number: usize, words: &[u8]) -> bool {
        <Last<Option<Item<i64>>>>::are_words(words)
    }

    #[inline(always)]
    fn run(interpreter: &mut Interpreter, number: usize, words: &[u8]) -> Result<bool, AllocError> {
        let read = <Last<Option<Item<i64>>>>::of_words(*interpreter.text.allocator(), words)?;
        match &read {
            Some(Last(slot)) => {
                interpreter.push::<O>(number, slot)?;
                Ok(true)
            }
            None => Ok(false),
        }
    }
}

/// `pushnull E`
pub(crate) struct PushNullLine;

impl<O: ParseOffset> CommandLine<O> for PushNullLine {
    type Rest = ();

    ghost reader = { push_null_line };

    ghost same = { Prim.search rules };

    #[inline(always)]
    fn command(number: usize, _end: Self::Rest) -> Command<i64, O> {
        Command::PushNull(number)
    }
}

/// `pop E`
pub(crate) struct PopLine;

impl<O: ParseOffset> CommandLine<O> for PopLine {
    type Rest = ();

    ghost reader = { pop_line };

    ghost same = { Prim.search rules };

    #[inline(always)]
    fn command(number: usize, _end: Self::Rest) -> Command<i64, O> {
        Command::Pop(number)
    }
}

/// `extend E SLOT*`
pub(crate) struct ExtendLine;

impl<O: ParseOffset> CommandLine<O> for ExtendLine {
    type Rest = Vec<Option<Item<i64>>>;

    ghost reader = { extend_line };

    ghost same = { Prim.search rules };

    #[inline(always)]
    fn command(number: usize, slots: Self::Rest) -> Command<i64, O> {
        Command::Extend(number, slots)
    }
}

/// `extendvalues E ITEM*`
pub(crate) struct ExtendValuesLine;

impl<O: ParseOffset> CommandLine<O> for ExtendValuesLine {
    type Rest = Vec<Item<i64>>;

    ghost reader = { extend_values_line };

    ghost same = { Prim.search rules };

    #[inline(always)]
    fn command(number: usize, items: Self::Rest) -> Command<i64, O> {
        Command::ExtendValues(number, items)
    }
}

/// `constant E N SLOT`
pub(crate) struct ConstantLine;

impl<O: ParseOffset> CommandLine<O> for ConstantLine {
    type Rest = (usize, Last<Option<Item<i64>>>);

    ghost reader = { constant_line };

    ghost same = { Prim.search rules };

    #[inline(always)]
    fn command(number: usize, (count, Last(slot)): Self::Rest) -> Command<i64, O> {
        Command::ExtendConstant(number, count, slot)
    }
}

/// `self E F`
pub(crate) struct ExtendFromSelfLine;

impl<O: ParseOffset> CommandLine<O> for ExtendFromSelfLine {
    type Rest = Last<usize>;

    ghost reader = { self_line };

    ghost same = { Prim.search rules };

    #[inline(always)]
    fn command(number: usize, other: Self::Rest) -> Command<i64, O> {
        Command::ExtendFromSelf(number, other.0)
    }
}

/// `reserve E N B`
pub(crate) struct ReserveLine;

impl<O: ParseOffset> CommandLine<O> for ReserveLine {
    type Rest = (usize, Last<usize>);

    ghost reader = { reserve_line };

    ghost same = { Prim.search rules };

    #[inline(always)]
    fn command(number: usize, (count, Last(bytes)): Self::Rest) -> Command<i64, O> {
        Command::Reserve(number, count, bytes)
    }
}

/// `shrink E`
pub(crate) struct ShrinkLine;

impl<O: ParseOffset> CommandLine<O> for ShrinkLine {
    type Rest = ();

    ghost reader = { shrink_line };

    ghost same = { Prim.search rules };

    #[inline(always)]
    fn command(number: usize, _end: Self::Rest) -> Command<i64, O> {
        Command::Shrink(number)
    }
}
