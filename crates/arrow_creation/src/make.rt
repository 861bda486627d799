//! The trait of commands that fill an empty entry, and how such a command is run on an entry of a table.
ghost use Rattle.arrow_creation.specs.Outcome.{MadeBy, PutsAt};
ghost use Rattle.arrow_entry.specs.Entry.{state_of};
ghost use Rattle.arrow_model.specs.Answer.{outcome};
ghost use Rattle.arrow_model.specs.Transition.{Transition};
ghost use Rattle.arrow_model.specs.Value.{State};

use arrow_entry::{Entry, replace};
use arrow_model::Reply;
use arrow_types::error::Error;
use arrow_types::native_type::NativeType;
use arrow_types::offset::Offset;
use std::alloc::Global;

/// A command that makes what an empty entry is to hold.
pub trait MakesEntry<T: NativeType, O: Offset>: Drop {
    /// What the command may answer, given what the entries hold, and what the entry then is.
    ghost makes: { Self → State T → Transition T };

    /// Creates what the entry is to hold; `None` if the command's condition fails. Memory is allocated by `alloc`.
    ///
    /// # Errors
    /// The refusal that the command is answered with.
    fn make(
        &self,
        alloc: Global,
        entries: &Vec<Option<Entry<T, O>>>,
    ) -> Result<Option<Entry<T, O>>, Error>
        ensures { MadeBy result (makes self.now (state_of entries.now.items)) };
}

/// Puts what a command makes into the entry at an index; the command's condition fails if that is not empty or
/// past the table.
///
/// # Errors
/// The refusal that the command is answered with; the entries are then as before.
pub fn put_at<T: NativeType, O: Offset, R: MakesEntry<T, O>>(
    alloc: Global,
    entries: &mut Vec<Option<Entry<T, O>>>,
    e: usize,
    command: R,
) -> Result<Reply<T>, Error>
    ensures { PutsAt e (R.makes command) entries.old.items (outcome result) entries.new.items }
{
    if e >= entries.len() {
        return Ok(Reply::NotMet);
    }
    if entries[e].is_some() {
        return Ok(Reply::NotMet);
    }
    let made = command.make(alloc, entries)?;
    let reply = if made.is_some() {
        Reply::Done
    } else {
        Reply::NotMet
    };
    replace(&mut entries[e], made);
    Ok(reply)
}
