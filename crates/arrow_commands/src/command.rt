//! The traits of commands on one entry, and how such a command is run on an entry of a table.
ghost use Rattle.std.specs.Prelude.{Some};
ghost use Rattle.arrow_commands.specs.ValueSteps.{StepOfHeld};
ghost use Rattle.arrow_entry.specs.Entry.{EntriesStep, EntryStep};
ghost use Rattle.arrow_model.specs.Answer.{outcome};
ghost use Rattle.arrow_model.specs.Request.{Ask, at};

use arrow_entry::Entry;
use arrow_model::Reply;
use arrow_types::error::Error;
use arrow_types::native_type::NativeType;
use arrow_types::offset::Offset;
use std::alloc::Global;

/// A command that reads an entry.
pub trait ReadsEntry<T: NativeType, O: Offset>: Drop {
    /// The command on one entry that this is.
    ghost asks: { Self → Ask T };

    /// Reads the entry. The answer is allocated by `alloc`.
    ///
    /// # Errors
    /// `OutOfMemory` if an allocation fails.
    fn read(&self, alloc: Global, entry: &Entry<T, O>) -> Result<Reply<T>, Error>
        ensures { EntryStep T.NativeType O.Offset (asks self.now) (Some entry.now) (outcome result) (Some entry.now) };
}

/// A command that changes an array or a builder, which stays in its entry.
pub trait UpdatesEntry<T: NativeType, O: Offset>: Drop {
    /// The command on one entry that this is.
    ghost asks: { Self → Ask T };

    /// Changes the array or the builder. The answer is allocated by `alloc`.
    ///
    /// # Errors
    /// The refusal that the command is answered with.
    fn update(&self, alloc: Global, entry: &mut Entry<T, O>) -> Result<Reply<T>, Error>
        ensures { StepOfHeld T.NativeType O.Offset (asks self.now) entry.old result entry.new };
}

/// A command that changes what an entry holds, or empties it.
pub trait ChangesEntry<T: NativeType, O: Offset>: Drop {
    /// The command on one entry that this is.
    ghost asks: { Self → Ask T };

    /// Changes the entry. The answer is allocated by `alloc`.
    ///
    /// # Errors
    /// The refusal that the command is answered with.
    fn run(&self, alloc: Global, entry: &mut Option<Entry<T, O>>) -> Result<Reply<T>, Error>
        ensures { EntryStep T.NativeType O.Offset (asks self.now) entry.old (outcome result) entry.new };
}

/// Reads the entry at an index; the command's condition fails if it is empty or past the table.
#[inline(always)]
pub fn read_at<T: NativeType, O: Offset, R: ReadsEntry<T, O>>(
    alloc: Global,
    entries: &Vec<Option<Entry<T, O>>>,
    e: usize,
    command: R,
) -> Result<Reply<T>, Error>
    ensures { EntriesStep T.NativeType O.Offset (at e (R.asks command)) entries.now.items (outcome result)
        entries.now.items }
{
    if e >= entries.len() {
        return Ok(Reply::NotMet);
    }
    match &entries[e] {
        Some(entry) => command.read(alloc, entry),
        None => Ok(Reply::NotMet),
    }
}

/// Changes the array or the builder at an index; the command's condition fails if the entry is empty or past the table.
#[inline(always)]
pub fn update_at<T: NativeType, O: Offset, R: UpdatesEntry<T, O>>(
    alloc: Global,
    entries: &mut Vec<Option<Entry<T, O>>>,
    e: usize,
    command: R,
) -> Result<Reply<T>, Error>
    ensures { EntriesStep T.NativeType O.Offset (at e (R.asks command)) entries.old.items (outcome result)
        entries.new.items }
{
    if e >= entries.len() {
        return Ok(Reply::NotMet);
    }
    match &mut entries[e] {
        Some(entry) => command.update(alloc, entry),
        None => Ok(Reply::NotMet),
    }
}

/// Changes the entry at an index; the command's condition fails if it is past the table.
#[inline(always)]
pub fn run_at<T: NativeType, O: Offset, R: ChangesEntry<T, O>>(
    alloc: Global,
    entries: &mut Vec<Option<Entry<T, O>>>,
    e: usize,
    command: R,
) -> Result<Reply<T>, Error>
    ensures { EntriesStep T.NativeType O.Offset (at e (R.asks command)) entries.old.items (outcome result)
        entries.new.items }
{
    if e >= entries.len() {
        return Ok(Reply::NotMet);
    }
    let entry = &mut entries[e];
    command.run(alloc, entry)
}
