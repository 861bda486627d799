//! The lines that cut, copy and change a value. Each is a type; another needs its name in [`crate::run`] too.
ghost use Rattle.arrow_syntax.specs.Lines.{apply_mask_line, apply_values_line, clone_line, drop_line, mask_line};
ghost use Rattle.arrow_syntax.specs.Lines.{set_line, slice_line, values_line, write_line};
ghost use Rattle.std.proofs.Common.{rules};

use crate::line::{CommandLine, ParseOffset};
use arrow_syntax::readers::Last;
use arrow_table::{Change, Command, Item};

/// `slice E A N`
pub(crate) struct SliceLine;

impl<O: ParseOffset> CommandLine<O> for SliceLine {
    type Rest = (usize, Last<usize>);

    ghost reader = { slice_line };

    ghost same = { Prim.search rules };

    #[inline(always)]
    fn command(number: usize, range: Self::Rest) -> Command<i64, O> {
        Command::Slice(number, range.0, range.1.0)
    }
}

/// `clone E F`
pub(crate) struct CloneLine;

impl<O: ParseOffset> CommandLine<O> for CloneLine {
    type Rest = Last<usize>;

    ghost reader = { clone_line };

    ghost same = { Prim.search rules };

    #[inline(always)]
    fn command(number: usize, other: Self::Rest) -> Command<i64, O> {
        Command::Clone(number, other.0)
    }
}

/// `drop E`
pub(crate) struct DropLine;

impl<O: ParseOffset> CommandLine<O> for DropLine {
    type Rest = ();

    ghost reader = { drop_line };

    ghost same = { Prim.search rules };

    #[inline(always)]
    fn command(number: usize, _end: Self::Rest) -> Command<i64, O> {
        Command::Drop(number)
    }
}

/// `mask E MASK`
pub(crate) struct MaskLine;

impl<O: ParseOffset> CommandLine<O> for MaskLine {
    type Rest = Last<Option<Vec<bool>>>;

    ghost reader = { mask_line };

    ghost same = { Prim.search rules };

    #[inline(always)]
    fn command(number: usize, mask: Self::Rest) -> Command<i64, O> {
        Command::SetMask(number, mask.0)
    }
}

/// `applymask E NAMED`
pub(crate) struct ApplyMaskLine;

impl<O: ParseOffset> CommandLine<O> for ApplyMaskLine {
    type Rest = Change<i64>;

    ghost reader = { apply_mask_line };

    ghost same = { Prim.search rules };

    #[inline(always)]
    fn command(number: usize, change: Self::Rest) -> Command<i64, O> {
        Command::ApplyMask(number, change)
    }
}

/// `values E ITEM*`
pub(crate) struct ValuesLine;

impl<O: ParseOffset> CommandLine<O> for ValuesLine {
    type Rest = Vec<Item<i64>>;

    ghost reader = { values_line };

    ghost same = { Prim.search rules };

    #[inline(always)]
    fn command(number: usize, items: Self::Rest) -> Command<i64, O> {
        Command::SetValues(number, items)
    }
}

/// `applyvalues E NAMED`
pub(crate) struct ApplyValuesLine;

impl<O: ParseOffset> CommandLine<O> for ApplyValuesLine {
    type Rest = Change<i64>;

    ghost reader = { apply_values_line };

    ghost same = { Prim.search rules };

    #[inline(always)]
    fn command(number: usize, change: Self::Rest) -> Command<i64, O> {
        Command::ApplyValues(number, change)
    }
}

/// `set E I SLOT`
pub(crate) struct SetLine;

impl<O: ParseOffset> CommandLine<O> for SetLine {
    type Rest = (usize, Last<Option<Item<i64>>>);

    ghost reader = { set_line };

    ghost same = { Prim.search rules };

    #[inline(always)]
    fn command(number: usize, (index, Last(slot)): Self::Rest) -> Command<i64, O> {
        Command::Set(number, index, slot)
    }
}

/// `write E I ITEM`
pub(crate) struct WriteLine;

impl<O: ParseOffset> CommandLine<O> for WriteLine {
    type Rest = (usize, Last<Item<i64>>);

    ghost reader = { write_line };

    ghost same = { Prim.search rules };

    #[inline(always)]
    fn command(number: usize, (index, Last(item)): Self::Rest) -> Command<i64, O> {
        Command::Write(number, index, item)
    }
}
