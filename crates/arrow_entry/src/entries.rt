//! Lists of entries, each of which may be empty. What entries drop is proved here alone: crates above drop by
//! `discard`.
ghost use Rattle.std.specs.Prelude.{◌≡◌, IfOk, None, option_copied, replicate};
ghost use Rattle.arrow_entry.specs.Entry.{state_of, value_in};
ghost use Rattle.arrow_model.specs.Step.{entry_at};

use crate::Entry;
use arrow_types::native_type::NativeType;
use arrow_types::offset::Offset;
use std::alloc::{AllocError, Global};
use std::mem;

/// Creates a list of `n` empty entries.
///
/// # Errors
/// `AllocError` if the allocation fails.
pub fn empty_entries<T: NativeType, O: Offset>(
    alloc: Global,
    n: usize,
) -> Result<Vec<Option<Entry<T, O>>>, AllocError>
    ensures { IfOk result (λ entries. entries.items ≡ replicate n None) }
{
    let mut entries = Vec::with_capacity(alloc, n)?;
    for _ in 0..n {
        entries.push(None)?;
    }
    Ok(entries)
}

/// Returns the array or builder in an entry of a table; `None` if the entry is empty or out of bounds.
#[inline(always)]
pub fn entry_at<T: NativeType, O: Offset>(
    entries: &Vec<Option<Entry<T, O>>>,
    e: usize,
) -> Option<&Entry<T, O>>
    ensures { entry_at (state_of entries.now.items) e ≡ value_in (option_copied result) }
{
    match entries.get(e)? {
        Some(entry) => Some(entry),
        None => None,
    }
}

/// Replaces what is in an entry.
pub fn replace<T: NativeType, O: Offset>(entry: &mut Option<Entry<T, O>>, with: Option<Entry<T, O>>)
    ensures { entry.new ≡ with }
{
    // By a call: without one, what each of the ten kinds drops would be proved again here.
    drop(mem::replace(entry, with));
}

/// Drops a list of entries. The crates above call this and [`discard`], so that what each of the ten kinds drops is proved
/// once.
pub fn discard_all<T: NativeType, O: Offset>(entries: Vec<Option<Entry<T, O>>>) {
    drop(entries);
}

/// Drops an array or a builder.
pub fn discard<T: NativeType, O: Offset>(entry: Entry<T, O>) {
    drop(entry);
}
