//! One command: a `match` with an arm for each, which hands it to its code. Another command is another arm.
ghost use Rattle.std.specs.Prelude.{[], ◌∷◌, ◌≡◌, IfNone, IfSome, false};
ghost use Rattle.arrow_model.specs.Answer.{answer_of, outcome};
ghost use Rattle.arrow_model.specs.Request.{as_request, parts_request};
ghost use Rattle.arrow_model.specs.Run.{CostsAtMost, is_parts};
ghost use Rattle.arrow_model.specs.Step.{StepCosts};
ghost use Rattle.arrow_table.specs.Listed.{CommandChanges};

use crate::check_indexes::check_indexes;
use crate::equal::equal_at;
use crate::extend_from_self::extend_at;
use arrow_check::cost::TextCost;
use arrow_commands::command::{read_at, run_at, update_at};
use arrow_commands::convert::{DropEntry, Freeze, Nullable, Slice, Thaw, To};
use arrow_commands::grow::{
    Extend, ExtendConstant, ExtendValues, Pop, Push, PushNull, Reserve, Shrink,
};
use arrow_commands::mask::{ApplyMask, SetMask};
use arrow_commands::read::{
    Bytes, Get, Held, IsNull, Len, NullCount, Offsets, Slots, Turns, TypeOf, Value,
};
use arrow_commands::values::{ApplyValues, Set, SetValues, Write};
use arrow_creation::fill::{FromItems, FromSlots, New, NewNull};
use arrow_creation::make::put_at;
use arrow_creation::parts::lent_parts_at;
use arrow_creation::select::{Clone, Filter, Take};
use arrow_entry::Entry;
use arrow_model::{Command, Parts, Reply};
use arrow_types::error::Error;
use arrow_types::native_type::NativeType;
use arrow_types::offset::Offset;
use std::alloc::Global;

/// Does a command that is not about raw parts. The answer is allocated by `alloc`.
///
/// # Errors
/// The refusal that the command is answered with.
#[inline(always)]
fn change<T: NativeType, O: Offset>(
    alloc: Global,
    entries: &mut Vec<Option<Entry<T, O>>>,
    command: &Command<T, O>,
) -> Result<Reply<T>, Error>
    requires { is_parts (as_request O.number command.now) ≡ false }
    ensures { CommandChanges T.NativeType O.Offset command.now entries.old.items (outcome result) entries.new.items }
{
    match command {
        &Command::New(e, kind) => put_at(alloc, entries, e, New(kind)),
        Command::NewNull(e, kind, data_type, length) => {
            let command = NewNull {
                kind: *kind,
                data_type,
                length: *length,
            };
            put_at(alloc, entries, *e, command)
        }
        Command::FromSlots(e, kind, slots) => put_at(alloc, entries, *e, FromSlots(*kind, slots)),
        Command::FromItems(e, kind, items) => put_at(alloc, entries, *e, FromItems(*kind, items)),
        &Command::Len(e) => read_at(alloc, entries, e, Len),
        &Command::Value(e, i) => read_at(alloc, entries, e, Value(i)),
        &Command::Get(e, i) => read_at(alloc, entries, e, Get(i)),
        &Command::IsNull(e, i) => read_at(alloc, entries, e, IsNull(i)),
        &Command::NullCount(e) => read_at(alloc, entries, e, NullCount),
        &Command::Slots(e) => read_at(alloc, entries, e, Slots),
        Command::Turns(e, turns) => read_at(alloc, entries, *e, Turns(turns)),
        &Command::TypeOf(e) => read_at(alloc, entries, e, TypeOf),
        &Command::Held(e) => read_at(alloc, entries, e, Held),
        &Command::Bytes(e) => read_at(alloc, entries, e, Bytes),
        &Command::Offsets(e) => read_at(alloc, entries, e, Offsets),
        &Command::Slice(e, offset, length) => update_at(alloc, entries, e, Slice(offset, length)),
        &Command::Clone(e, f) => put_at(alloc, entries, f, Clone(e)),
        &Command::Drop(e) => run_at(alloc, entries, e, DropEntry),
        Command::SetMask(e, mask) => update_at(alloc, entries, *e, SetMask(mask)),
        Command::ApplyMask(e, change) => update_at(alloc, entries, *e, ApplyMask(change)),
        Command::SetValues(e, items) => update_at(alloc, entries, *e, SetValues(items)),
        Command::ApplyValues(e, change) => update_at(alloc, entries, *e, ApplyValues(change)),
        Command::Set(e, i, slot) => update_at(alloc, entries, *e, Set(*i, slot)),
        Command::Write(e, i, item) => update_at(alloc, entries, *e, Write(*i, item)),
        Command::Push(e, slot) => update_at(alloc, entries, *e, Push(slot)),
        &Command::PushNull(e) => update_at(alloc, entries, e, PushNull),
        &Command::Pop(e) => update_at(alloc, entries, e, Pop),
        Command::Extend(e, slots) => update_at(alloc, entries, *e, Extend(slots)),
        Command::ExtendValues(e, items) => update_at(alloc, entries, *e, ExtendValues(items)),
        Command::ExtendConstant(e, n, slot) => update_at(
            alloc,
            entries,
            *e,
            ExtendConstant(*n, slot),
        ),
        &Command::ExtendFromSelf(e, f) => extend_at(entries, e, f),
        &Command::Reserve(e, slots, bytes) => update_at(alloc, entries, e, Reserve(slots, bytes)),
        &Command::Shrink(e) => update_at(alloc, entries, e, Shrink),
        &Command::Freeze(e) => run_at(alloc, entries, e, Freeze),
        &Command::Thaw(e) => run_at(alloc, entries, e, Thaw),
        &Command::Nullable(e) => run_at(alloc, entries, e, Nullable),
        Command::To(e, data_type) => run_at(alloc, entries, *e, To(data_type)),
        &Command::Equal(e, f) => Ok(equal_at(entries, e, f)),
        &Command::Filter(e, f, g) => put_at(alloc, entries, g, Filter(e, f)),
        Command::Take(e, keys, g) => put_at(alloc, entries, *g, Take(*e, keys)),
        Command::CheckIndexes(keys, length) => check_indexes(keys, *length),
        // It is about raw parts, which the condition excludes.
        Command::Parts(_, _) => unreachable!(),
    }
}

/// Returns the entry and the parts of a command about raw parts.
#[inline(always)]
fn parts_of<T: NativeType, O: Offset>(command: &Command<T, O>) -> Option<(usize, &Parts<T, O>)>
    ensures none { IfNone result (is_parts (as_request O.number command.now) ≡ false) }
    ensures some { IfSome result (λ p. as_request O.number command.now ≡ parts_request O.number p.0 p.1.now) }
{
    match command {
        Command::Parts(e, parts) => Some((*e, parts)),
        _ => None,
    }
}

/// Returns the reply to a command: what it answered, or its refusal.
#[inline(always)]
pub(crate) fn reply_of<T>(done: Result<Reply<T>, Error>) -> Reply<T>
    ensures { answer_of result ≡ outcome done }
{
    match done {
        Ok(reply) => reply,
        Err(refused) => Reply::Refused(refused),
    }
}

/// Does one command. The answer is allocated by `alloc`.
#[inline(always)]
pub(crate) fn step<T: NativeType, O: Offset>(
    alloc: Global,
    entries: &mut Vec<Option<Entry<T, O>>>,
    cost: &mut TextCost,
    command: &Command<T, O>,
) -> Reply<T>
    ensures step { CommandChanges T.NativeType O.Offset command.now entries.old.items (answer_of result)
        entries.new.items }
    ensures exact { StepCosts (as_request O.number command.now) (answer_of result) cost.old cost.new }
    ensures most { CostsAtMost (as_request O.number command.now ∷ []) cost.old cost.new }
{
    match parts_of(command) {
        Some((e, given)) => reply_of(lent_parts_at(entries, e, given, cost)),
        None => reply_of(change(alloc, entries, command)),
    }
}
