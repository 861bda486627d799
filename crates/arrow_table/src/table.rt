//! A table, a command on it, and the run of a list of commands, whose contract is the headline of the project.
ghost use Rattle.std.specs.Prelude.{[], ◌<◌, ◌∷◌, ◌≡◌, ◌≤◌, IfOk, IfSome, length, map, option_copied, option_map, take};
ghost use Rattle.std.specs.Prelude.{vec_capacity, vec_len};
ghost use Rattle.arrow_types.specs.Failures.{OnlyOutOfMemory};
ghost use Rattle.arrow_entry.specs.Entry.{value_in, value_of};
ghost use Rattle.arrow_model.specs.Answer.{answer_of};
ghost use Rattle.arrow_model.specs.Value.{empty_table, types_of};
ghost use Rattle.arrow_model.specs.Item.{stored_slot};
ghost use Rattle.arrow_model.specs.Kind.{shape};
ghost use Rattle.arrow_model.specs.Request.{all_slots, as_request, at, parts_request, push};
ghost use Rattle.arrow_model.specs.Run.{CostsAtMost, IsTableRun};
ghost use Rattle.arrow_model.specs.Step.{IsStep, entry_at};
ghost use Rattle.arrow_model.specs.Values.{IsValue};
ghost use Rattle.arrow_table.specs.Listed.{listed};

use crate::sequence::{Executor, run_all};
use crate::step::{reply_of, step};
use crate::{Command, Entry, Item, Kind, Parts, Reply};
use arrow_check::cost::TextCost;
use arrow_commands::command::update_at;
use arrow_commands::grow::Push;
use arrow_creation::parts::parts_at;
use arrow_entry::{discard_all, empty_entries, entry_at};
use arrow_types::error::Error;
use arrow_types::native_type::NativeType;
use arrow_types::offset::Offset;
use std::alloc::Global;
use std::marker::Model;

/// A table of entries, each of which is empty or holds an array or a builder; and counts of what its tests of text
/// cost.
#[derive(Drop)]
pub struct Table<T: NativeType, O: Offset> {
    pub(crate) entries: Vec<Option<Entry<T, O>>>,
    cost: TextCost,
}

// Contracts see the values of the entries, in order, and the counts. Each entry is empty or holds a valid value, which
// commands keep so.
impl<T: NativeType, O: Offset> Model for Table<T, O> {
    ghost use Rattle.arrow_entry.specs.Entry.{state_of, table_of};
    ghost use Rattle.arrow_model.specs.Value.{TableState, types};
    ghost use Rattle.arrow_model.specs.Values.{AreValues};

    ghost Value = { TableState T };

    ghost view = { λ table. table_of table.entries.items table.cost };

    ghost invariant = { λ table. AreValues (types T.zero T.PRIMITIVE O.most O.IS_LARGE)
        (state_of table.entries.items) };
}

#[tactic(auto, using(crate::proofs::Steps::none_yet))]
impl<T: NativeType, O: Offset> Table<T, O> {
    /// Creates a table of `n` empty entries.
    ///
    /// # Errors
    /// `OutOfMemory` if an allocation fails.
    pub fn new(alloc: Global, n: usize) -> Result<Self, Error>
        ensures ok { IfOk result (λ table. table ≡ empty_table n) }
        ensures err { OnlyOutOfMemory result }
    {
        let entries = empty_entries(alloc, n)?;
        Ok(Table {
            entries,
            cost: TextCost::new(),
        })
    }

    /// Drops the table. What its entries drop is then not proved again in the crate of the caller.
    pub fn discard(self) {
        discard_all(self.entries);
    }

    /// The number of entries.
    pub fn len(&self) -> usize
        ensures { result ≡ length self.now.entries }
    {
        self.entries.len()
    }

    /// Returns the kind of an entry; `None` if the entry is empty or out of bounds.
    pub fn kind(&self, i: usize) -> Option<Kind>
        ensures { option_map shape result ≡ option_map (λ v. v.shape) (entry_at self.now.entries i) }
    {
        match self.entries.get(i)? {
            Some(entry) => Some(entry.kind()),
            None => None,
        }
    }

    /// Returns what an entry holds, borrowed; `None` if the entry is empty or out of bounds. It is a valid value, and its
    /// slots are those that the command `Slots` copies.
    #[inline(always)]
    pub fn get(&self, i: usize) -> Option<&Entry<T, O>>
        ensures entry { entry_at self.now.entries i ≡ value_in (option_copied result) }
        ensures step { IsStep (types_of T.NativeType O.Offset) self.now (at i all_slots)
            (listed (option_copied result)) self.now }
        ensures value { IfSome (option_copied result)
            (λ entry. IsValue (types_of T.NativeType O.Offset) (value_of entry)) }
    {
        entry_at(&self.entries, i)
    }

    /// Appends a slot to the builder in an entry, and returns the reply. This is the command `Push`, with no command
    /// made for it.
    #[inline(always)]
    pub fn push_at(&mut self, i: usize, slot: &Option<Item<T>>) -> Reply<T>
        ensures { IsStep (types_of T.NativeType O.Offset) self.old (at i (push (stored_slot slot.now)))
            (answer_of result) self.new }
    {
        let alloc = *self.entries.allocator();
        reply_of(update_at(alloc, &mut self.entries, i, Push(slot)))
    }

    /// Makes a value of raw parts in an empty entry, and returns the reply. This is the command `Parts`, but the parts
    /// are moved into the value and not copied.
    #[inline(always)]
    pub fn parts_at(&mut self, i: usize, parts: Parts<T, O>) -> Reply<T>
        ensures step { IsStep (types_of T.NativeType O.Offset) self.old (parts_request O.number i parts)
            (answer_of result) self.new }
        ensures costs { CostsAtMost (parts_request O.number i parts ∷ []) self.old.cost self.new.cost }
    {
        reply_of(parts_at(&mut self.entries, i, parts, &mut self.cost))
    }

    /// What the table's tests of text cost so far.
    pub fn text_cost(&self) -> &TextCost
        ensures { result.now ≡ self.now.cost }
    {
        &self.cost
    }
}

impl<T: NativeType, O: Offset> Executor<T> for Table<T, O> {
    ghost use Rattle.arrow_model.specs.Run.{CommandStep};

    type Command = Command<T, O>;

    ghost steps_to = { CommandStep T.NativeType O.Offset };

    #[inline(always)]
    fn step(&mut self, alloc: Global, command: &Command<T, O>) -> Reply<T> {
        step(alloc, &mut self.entries, &mut self.cost, command)
    }
}

/// Runs commands in order, appends a reply for each, and returns how many were run. It stops early only if the list of
/// replies is full and cannot grow, and never shrinks that list.
pub fn run<T: NativeType, O: Offset>(
    table: &mut Table<T, O>,
    commands: &[Command<T, O>],
    replies: &mut Vec<Reply<T>>,
) -> usize
    ensures count { result ≤ length commands.now }
    ensures run { IsTableRun T.NativeType O.Offset table.old (take result commands.now) replies.old.items
        replies.new.items table.new }
    ensures costs { CostsAtMost (map (as_request O.number) (take result commands.now)) table.old.cost table.new.cost }
    ensures full { result < length commands.now → vec_len replies.new ≡ vec_capacity replies.new }
    ensures room { vec_capacity replies.old ≤ vec_capacity replies.new }
{
    run_all(table, commands, replies)
}
