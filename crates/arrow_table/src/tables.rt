//! Two tables, one of each width of offsets, and the run of a list of commands on them.
ghost use Rattle.std.specs.Prelude.{[], ◌<◌, ◌∷◌, ◌≡◌, ◌≤◌, IfOk, IfSome, length, map, option_copied, take};
ghost use Rattle.std.specs.Prelude.{vec_capacity, vec_len};
ghost use Rattle.arrow_types.specs.Failures.{OnlyOutOfMemory};
ghost use Rattle.arrow_entry.specs.Entry.{value_in, value_of};
ghost use Rattle.arrow_model.specs.Answer.{answer_of};
ghost use Rattle.arrow_model.specs.Both.{IsBothStep, IsTablesRun, both_request, narrow, narrow_of, narrow_to, wide};
ghost use Rattle.arrow_model.specs.Both.{wide_of, widen};
ghost use Rattle.arrow_model.specs.Item.{stored_slot};
ghost use Rattle.arrow_model.specs.Request.{all_slots, as_request, at, parts_request, push};
ghost use Rattle.arrow_model.specs.Run.{CostsAtMost};
ghost use Rattle.arrow_model.specs.Step.{entry_at};
ghost use Rattle.arrow_model.specs.Value.{empty_table, types};
ghost use Rattle.arrow_model.specs.Values.{IsValue};
ghost use Rattle.arrow_table.specs.Listed.{listed};
ghost use Rattle.arrow_table.specs.Width.{WidthCosts, WidthStep, half};

use crate::sequence::{Executor, run_all};
use crate::step::reply_of;
use crate::{BothCommand, Command, Entry, Item, Parts, Reply, Table};
use arrow_creation::make::put_at;
use arrow_creation::width::OtherWidth;
use arrow_types::error::Error;
use arrow_types::native_type::NativeType;
use arrow_types::offset::Offset;
use std::alloc::Global;
use std::marker::Model;

/// A table over offsets of 32 bits, and a table over offsets of 64.
#[derive(Drop)]
pub struct Tables<T: NativeType> {
    narrow: Table<T, i32>,
    wide: Table<T, i64>,
}

// Contracts see both.
impl<T: NativeType> Model for Tables<T> {
    ghost use Rattle.arrow_model.specs.Both.{Both};

    ghost Value = { Both T };

    ghost view = { λ tables. record { narrow = tables.narrow; wide = tables.wide } };
}

impl<T: NativeType> Tables<T> {
    /// Creates two tables of `n` empty entries each.
    ///
    /// # Errors
    /// `OutOfMemory` if an allocation fails.
    pub fn new(alloc: Global, n: usize) -> Result<Self, Error>
        ensures ok { IfOk result (λ tables. tables ≡ record { narrow = empty_table n; wide = empty_table n }) }
        ensures err { OnlyOutOfMemory result }
    {
        let narrow = Table::new(alloc, n)?;
        match Table::new(alloc, n) {
            Ok(wide) => Ok(Tables { narrow, wide }),
            Err(refused) => {
                narrow.discard();
                Err(refused)
            }
        }
    }

    /// Drops both tables. What their entries drop is then not proved again in the crate of the caller.
    pub fn discard(self) {
        self.narrow.discard();
        self.wide.discard();
    }

    /// Returns the table over offsets of 32 bits.
    pub fn narrow(&self) -> &Table<T, i32>
        ensures { result.now ≡ self.now.narrow }
    {
        &self.narrow
    }

    /// Returns the table over offsets of 64 bits.
    pub fn wide(&self) -> &Table<T, i64>
        ensures { result.now ≡ self.now.wide }
    {
        &self.wide
    }

    /// Runs a command on the table over offsets of 32 bits, and returns its reply, which is allocated by `alloc`.
    #[inline(always)]
    pub fn on_narrow(&mut self, alloc: Global, command: &Command<T, i32>) -> Reply<T>
        ensures step { IsBothStep T.zero T.PRIMITIVE self.old (narrow (as_request (λ n. n) command.now)) (answer_of result)
            self.new }
        ensures costs { CostsAtMost (as_request (λ n. n) command.now ∷ []) self.old.narrow.cost self.new.narrow.cost }
    {
        self.narrow.step(alloc, command)
    }

    /// Runs a command on the table over offsets of 64 bits, and returns its reply, which is allocated by `alloc`.
    #[inline(always)]
    pub fn on_wide(&mut self, alloc: Global, command: &Command<T, i64>) -> Reply<T>
        ensures step { IsBothStep T.zero T.PRIMITIVE self.old (wide (as_request (λ n. n) command.now)) (answer_of result)
            self.new }
        ensures costs { CostsAtMost (as_request (λ n. n) command.now ∷ []) self.old.wide.cost self.new.wide.cost }
    {
        self.wide.step(alloc, command)
    }

    /// Copies the array of bytes or text in the narrow entry `e` into the empty wide entry `f`, over offsets of 64
    /// bits, and returns the reply.
    pub fn widen(&mut self, e: usize, f: usize) -> Reply<T>
        ensures { IsBothStep T.zero T.PRIMITIVE self.old (widen e f) (answer_of result) self.new }
    {
        let alloc = *self.wide.entries.allocator();
        let command = OtherWidth(&self.narrow.entries, e);
        reply_of(put_at(alloc, &mut self.wide.entries, f, command))
    }

    /// Copies the array of bytes or text in the wide entry `e` into the empty narrow entry `f`, over offsets of 32
    /// bits, and returns the reply.
    pub fn narrow_to(&mut self, e: usize, f: usize) -> Reply<T>
        ensures { IsBothStep T.zero T.PRIMITIVE self.old (narrow_to e f) (answer_of result) self.new }
    {
        let alloc = *self.narrow.entries.allocator();
        let command = OtherWidth(&self.wide.entries, e);
        reply_of(put_at(alloc, &mut self.narrow.entries, f, command))
    }
}

impl<T: NativeType> Executor<T> for Tables<T> {
    ghost use Rattle.arrow_model.specs.Both.{BothCommandStep};

    type Command = BothCommand<T>;

    ghost steps_to = { BothCommandStep T.zero T.PRIMITIVE };

    fn step(&mut self, alloc: Global, command: &BothCommand<T>) -> Reply<T> {
        match command {
            BothCommand::Narrow(command) => self.on_narrow(alloc, command),
            BothCommand::Wide(command) => self.on_wide(alloc, command),
            BothCommand::Widen(e, f) => self.widen(*e, *f),
            BothCommand::NarrowTo(e, f) => self.narrow_to(*e, *f),
        }
    }
}

/// A width of offsets. Its calls are about the table of this width.
pub trait Width: Offset {
    /// Returns what an entry of the table of this width holds, or `None` if it is empty or out of bounds. It is a valid
    /// value, and its slots are those that the command `Slots` copies.
    fn get<T: NativeType>(tables: &Tables<T>, e: usize) -> Option<&Entry<T, Self>>
        ensures entry { entry_at (half Self.IS_LARGE tables.now).entries e ≡ value_in (option_copied result) }
        ensures step { WidthStep T.NativeType Self.IS_LARGE tables.now (at e all_slots) (listed (option_copied result))
            tables.now }
        ensures value { IfSome (option_copied result)
            (λ entry. IsValue (types T.zero T.PRIMITIVE Self.most Self.IS_LARGE) (value_of entry)) };

    /// Runs a command on the table of this width, and returns its reply, which is allocated by `alloc`.
    fn step<T: NativeType>(
        tables: &mut Tables<T>,
        alloc: Global,
        command: &Command<T, Self>,
    ) -> Reply<T>
        ensures step { WidthStep T.NativeType Self.IS_LARGE tables.old (as_request Self.number command.now)
            (answer_of result) tables.new }
        ensures costs { WidthCosts Self.IS_LARGE (as_request Self.number command.now ∷ []) tables.old tables.new };

    /// Appends a slot to the builder in an entry of the table of this width, and returns the reply. This is the command
    /// `Push`, with no command made for it.
    fn push<T: NativeType>(tables: &mut Tables<T>, e: usize, slot: &Option<Item<T>>) -> Reply<T>
        ensures { WidthStep T.NativeType Self.IS_LARGE tables.old (at e (push (stored_slot slot.now)))
            (answer_of result) tables.new };

    /// Makes a value of raw parts in an empty entry of the table of this width, and returns the reply. This is the
    /// command `Parts`, but the parts are moved into the value and not copied.
    fn parts<T: NativeType>(tables: &mut Tables<T>, e: usize, parts: Parts<T, Self>) -> Reply<T>
        ensures step { WidthStep T.NativeType Self.IS_LARGE tables.old (parts_request Self.number e parts)
            (answer_of result) tables.new }
        ensures costs { WidthCosts Self.IS_LARGE (parts_request Self.number e parts ∷ []) tables.old tables.new };
}

impl Width for i32 {
    #[inline(always)]
    fn get<T: NativeType>(tables: &Tables<T>, e: usize) -> Option<&Entry<T, i32>> {
        tables.narrow.get(e)
    }

    #[inline(always)]
    fn step<T: NativeType>(
        tables: &mut Tables<T>,
        alloc: Global,
        command: &Command<T, i32>,
    ) -> Reply<T> {
        tables.narrow.step(alloc, command)
    }

    #[inline(always)]
    fn push<T: NativeType>(tables: &mut Tables<T>, e: usize, slot: &Option<Item<T>>) -> Reply<T> {
        tables.narrow.push_at(e, slot)
    }

    #[inline(always)]
    fn parts<T: NativeType>(tables: &mut Tables<T>, e: usize, parts: Parts<T, i32>) -> Reply<T>
        ensures step { IsBothStep T.zero T.PRIMITIVE tables.old (narrow (parts_request (λ n. n) e parts))
            (answer_of result) tables.new }
        ensures costs { CostsAtMost (parts_request (λ n. n) e parts ∷ []) tables.old.narrow.cost tables.new.narrow.cost }
    {
        tables.narrow.parts_at(e, parts)
    }
}

impl Width for i64 {
    #[inline(always)]
    fn get<T: NativeType>(tables: &Tables<T>, e: usize) -> Option<&Entry<T, i64>> {
        tables.wide.get(e)
    }

    #[inline(always)]
    fn step<T: NativeType>(
        tables: &mut Tables<T>,
        alloc: Global,
        command: &Command<T, i64>,
    ) -> Reply<T> {
        tables.wide.step(alloc, command)
    }

    #[inline(always)]
    fn push<T: NativeType>(tables: &mut Tables<T>, e: usize, slot: &Option<Item<T>>) -> Reply<T> {
        tables.wide.push_at(e, slot)
    }

    #[inline(always)]
    fn parts<T: NativeType>(tables: &mut Tables<T>, e: usize, parts: Parts<T, i64>) -> Reply<T>
        ensures step { IsBothStep T.zero T.PRIMITIVE tables.old (wide (parts_request (λ n. n) e parts))
            (answer_of result) tables.new }
        ensures costs { CostsAtMost (parts_request (λ n. n) e parts ∷ []) tables.old.wide.cost tables.new.wide.cost }
    {
        tables.wide.parts_at(e, parts)
    }
}

/// Runs commands in order, appends a reply for each, and returns how many were run. It stops early only if the list of
/// replies is full and cannot grow, and never shrinks that list.
pub fn run_both<T: NativeType>(
    tables: &mut Tables<T>,
    commands: &[BothCommand<T>],
    replies: &mut Vec<Reply<T>>,
) -> usize
    ensures count { result ≤ length commands.now }
    ensures run { IsTablesRun T.zero T.PRIMITIVE tables.old (take result commands.now) replies.old.items
        replies.new.items tables.new }
    ensures narrow_costs { CostsAtMost (narrow_of (map both_request (take result commands.now)))
        tables.old.narrow.cost tables.new.narrow.cost }
    ensures wide_costs { CostsAtMost (wide_of (map both_request (take result commands.now)))
        tables.old.wide.cost tables.new.wide.cost }
    ensures full { result < length commands.now → vec_len replies.new ≡ vec_capacity replies.new }
    ensures room { vec_capacity replies.old ≤ vec_capacity replies.new }
{
    run_all(tables, commands, replies)
}
