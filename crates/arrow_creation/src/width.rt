//! Commands that make an array over offsets of the other width, of an entry of the other table.

use crate::make::MakesEntry;
use arrow_entry::{Entry, entry_at};
use arrow_kernels::{narrow_binary, narrow_utf8, widen_binary, widen_utf8};
use arrow_types::error::Error;
use arrow_types::native_type::NativeType;
use arrow_types::offset::Offset;
use std::alloc::Global;

/// Makes an array over offsets of one width of what an entry over those of the other holds.
#[derive(Drop)]
pub struct OtherWidth<'a, T: NativeType, O: Offset>(pub &'a Vec<Option<Entry<T, O>>>, pub usize);

#[tactic(auto, using(arrow_entry::proofs::CallerLemmas::seen_changes))]
impl<'a, T: NativeType> MakesEntry<T, i64> for OtherWidth<'a, T, i32> {
    ghost use Rattle.arrow_entry.specs.Entry.{state_of};
    ghost use Rattle.arrow_model.specs.Both.{Widens, wide_types};
    ghost use Rattle.arrow_model.specs.Step.{entry_at};

    ghost makes = { λ command state. Widens (wide_types T.zero T.PRIMITIVE)
        (entry_at (state_of command.0.now.items) command.1) };

    fn make(
        &self,
        alloc: Global,
        _entries: &Vec<Option<Entry<T, i64>>>,
    ) -> Result<Option<Entry<T, i64>>, Error> {
        match entry_at(self.0, self.1) {
            Some(Entry::Binary(array)) => Ok(Some(Entry::Binary(widen_binary(alloc, array)?))),
            Some(Entry::Utf8(array)) => Ok(Some(Entry::Utf8(widen_utf8(alloc, array)?))),
            _ => Ok(None),
        }
    }
}

#[tactic(auto, using(arrow_entry::proofs::CallerLemmas::seen_changes, crate::proofs::Chosen::seen_choices))]
impl<'a, T: NativeType> MakesEntry<T, i32> for OtherWidth<'a, T, i64> {
    ghost use Rattle.arrow_entry.specs.Entry.{state_of};
    ghost use Rattle.arrow_model.specs.Both.{Narrows, narrow_types};
    ghost use Rattle.arrow_model.specs.Step.{entry_at};

    ghost makes = { λ command state. Narrows (narrow_types T.zero T.PRIMITIVE)
        (entry_at (state_of command.0.now.items) command.1) };

    fn make(
        &self,
        alloc: Global,
        _entries: &Vec<Option<Entry<T, i32>>>,
    ) -> Result<Option<Entry<T, i32>>, Error> {
        match entry_at(self.0, self.1) {
            Some(Entry::Binary(array)) => Ok(Some(Entry::Binary(narrow_binary(alloc, array)?))),
            Some(Entry::Utf8(array)) => Ok(Some(Entry::Utf8(narrow_utf8(alloc, array)?))),
            _ => Ok(None),
        }
    }
}
