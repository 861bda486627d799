//! The lines that make a value in an empty entry. Each is a type; another needs its name in [`crate::run`] too.
ghost use Rattle.arrow_syntax.specs.Lines.{items_line, new_line, null_line, parts_line, slots_line, types_over};
ghost use Rattle.std.specs.Prelude.{◌≡◌, is_some};
ghost use Rattle.arrow_types.specs.Types.{logical_type};
ghost use Rattle.arrow_model.specs.Value.{default_type};
ghost use Rattle.arrow_model.specs.Kind.{shape};
ghost use Rattle.arrow_model.specs.Request.{given_by};
ghost use Rattle.arrow_syntax.specs.Fields.{parse_packed_mask, parse_raw, parse_type};
ghost use Rattle.arrow_syntax.specs.Readers.{ParsesAs, ◌▸◌};
ghost use Rattle.arrow_syntax.specs.Words.{words_of};
ghost use Rattle.std.proofs.Common.{rules};

use crate::interpreter::Interpreter;
use crate::line::{CommandLine, DirectLine, OffsetWords, ParseOffset};
use arrow_syntax::fields::first_kind;
use arrow_syntax::readers::{Last, Words, next};
use arrow_table::{Bits, Command, Item, Kind, Parts, Raw};
use arrow_types::data_type::DataType;
use arrow_types::offset::Offset;
use std::alloc::{AllocError, Global};

/// `new E KIND`
pub(crate) struct NewLine;

impl<O: ParseOffset> CommandLine<O> for NewLine {
    type Rest = Last<Kind>;

    ghost reader = { new_line };

    ghost same = { Prim.search rules };

    #[inline(always)]
    fn command(number: usize, kind: Self::Rest) -> Command<i64, O> {
        Command::New(number, kind.0)
    }
}

/// `null E KIND N`
pub(crate) struct NullLine;

impl<O: ParseOffset> CommandLine<O> for NullLine {
    type Rest = (Kind, Last<usize>);

    ghost reader = { null_line (types_over O.most O.IS_LARGE) };

    ghost same = { Prim.search rules };

    #[inline(always)]
    fn command(number: usize, (kind, Last(count)): Self::Rest) -> Command<i64, O> {
        Command::NewNull(number, kind, default_type::<O>(kind), count)
    }
}

/// `parts E KIND TYPE MASK ..`. The parts are put together once, where the value is made of them.
pub(crate) struct PartsLine;

impl<O: ParseOffset> DirectLine<O> for PartsLine {
    ghost reader = { parts_line O.offset };

    fn is_line(_number: usize, words: &[u8]) -> bool {
        match first_kind(words) {
            Some((kind, words)) => are_parts::<O>(kind, words),
            None => false,
        }
    }

    fn run(interpreter: &mut Interpreter, number: usize, words: &[u8]) -> Result<bool, AllocError> {
        let alloc = *interpreter.text.allocator();
        let Some((kind, words)) = first_kind(words) else {
            return Ok(false);
        };
        let Some((data_type, words)) = next::<DataType>(alloc, words)? else {
            return Ok(false);
        };
        let Some((mask, words)) = next::<Option<Bits>>(alloc, words)? else {
            return Ok(false);
        };
        let Some(raw) = parse_raw::<O>(alloc, kind, words)? else {
            return Ok(false);
        };
        let parts = Parts {
            kind,
            data_type,
            raw,
            mask,
        };
        interpreter.parts::<O>(number, parts)?;
        Ok(true)
    }
}

/// `slots E KIND SLOT*`
pub(crate) struct SlotsLine;

impl<O: ParseOffset> CommandLine<O> for SlotsLine {
    type Rest = (Kind, Vec<Option<Item<i64>>>);

    ghost reader = { slots_line };

    ghost same = { Prim.search rules };

    #[inline(always)]
    fn command(number: usize, (kind, slots): Self::Rest) -> Command<i64, O> {
        Command::FromSlots(number, kind, slots)
    }
}

/// `items E KIND ITEM*`
pub(crate) struct ItemsLine;

impl<O: ParseOffset> CommandLine<O> for ItemsLine {
    type Rest = (Kind, Vec<Item<i64>>);

    ghost reader = { items_line };

    ghost same = { Prim.search rules };

    #[inline(always)]
    fn command(number: usize, (kind, items): Self::Rest) -> Command<i64, O> {
        Command::FromItems(number, kind, items)
    }
}

/// Returns the type of a kind's values if no other is given.
fn default_type<O: Offset>(kind: Kind) -> DataType
    ensures { logical_type result ≡ default_type (types_over O.most O.IS_LARGE) (shape kind).value_kind }
{
    match kind {
        Kind::Primitive | Kind::MutablePrimitive => DataType::Int64,
        Kind::Boolean | Kind::MutableBoolean => DataType::Boolean,
        Kind::Binary | Kind::MutableBinary | Kind::BinaryValues => {
            if O::IS_LARGE {
                DataType::LargeBinary
            } else {
                DataType::Binary
            }
        }
        Kind::Utf8 | Kind::MutableUtf8 | Kind::Utf8Values => {
            if O::IS_LARGE {
                DataType::LargeUtf8
            } else {
                DataType::Utf8
            }
        }
    }
}

/// Raw bytes and offsets: `xHEX OFF*`
type RawBytes<O> = (Vec<u8>, OffsetWords<O>);

/// Returns the raw values of a kind that words write, or `None` if they are malformed.
fn parse_raw<O: ParseOffset>(
    alloc: Global,
    kind: Kind,
    words: &[u8],
) -> Result<Option<Raw<i64, O>>, AllocError>
    ensures { ParsesAs result (given_by O.number)
        (parse_raw O.offset (shape kind).value_kind (words_of words.now)) }
{
    match kind {
        Kind::Primitive | Kind::MutablePrimitive => match <Vec<i64>>::of_words(alloc, words)? {
            Some(values) => Ok(Some(Raw::Values(values))),
            None => Ok(None),
        },
        Kind::Boolean | Kind::MutableBoolean => match <Last<Bits>>::of_words(alloc, words)? {
            Some(Last(bits)) => Ok(Some(Raw::Bits(bits))),
            None => Ok(None),
        },
        _ => match <RawBytes<O>>::of_words(alloc, words)? {
            Some((bytes, OffsetWords(offsets))) => Ok(Some(Raw::Pieces(offsets, bytes))),
            None => Ok(None),
        },
    }
}

/// Returns whether words are a type, a mask and raw values of a kind.
fn are_parts<O: ParseOffset>(kind: Kind, words: &[u8]) -> bool
    ensures { result ≡ is_some
        ((parse_type ▸ parse_packed_mask ▸ parse_raw O.offset (shape kind).value_kind) (words_of words.now)) }
{
    match kind {
        Kind::Primitive | Kind::MutablePrimitive => <PartsOf<Vec<i64>>>::are_words(words),
        Kind::Boolean | Kind::MutableBoolean => <PartsOf<Last<Bits>>>::are_words(words),
        _ => <PartsOf<RawBytes<O>>>::are_words(words),
    }
}

/// `TYPE MASK` and raw values
type PartsOf<R> = (DataType, (Option<Bits>, R));
