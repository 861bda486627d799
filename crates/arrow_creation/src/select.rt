//! Commands that make a value of what another entry holds. The table is only read; what is made is put into an empty
//! entry.
ghost use Rattle.std.specs.Prelude.{◌≡◌, None, Some, length, option_copied};
ghost use Rattle.arrow_types.specs.Failures.{OnlyOutOfMemory};
ghost use Rattle.arrow_creation.specs.Outcome.{IfMade, MadeBy};
ghost use Rattle.arrow_entry.specs.Entry.{value_of};
ghost use Rattle.arrow_model.specs.Chosen.{array_in, filter_in};
ghost use Rattle.arrow_model.specs.Step.{Filtered, Taken};
ghost use Rattle.arrow_model.specs.Transition.{require_some};

use crate::make::MakesEntry;
use arrow_boolean::BooleanArray;
use arrow_entry::{Entry, entry_at};
use arrow_kernels::{
    filter_binary, filter_boolean, filter_primitive, filter_utf8, take_binary, take_boolean,
    take_primitive, take_utf8,
};
use arrow_types::error::Error;
use arrow_types::native_type::NativeType;
use arrow_types::offset::Offset;
use std::alloc::Global;

/// Makes a clone of what the entry at an index holds.
#[derive(Drop)]
pub struct Clone(pub usize);

/// Clones an array or a builder.
///
/// # Errors
/// `OutOfMemory` if an allocation fails.
fn cloned<T: NativeType, O: Offset>(entry: &Entry<T, O>) -> Result<Entry<T, O>, Error>
    ensures ok { IfMade result (value_of entry.now) }
    ensures err { OnlyOutOfMemory result }
{
    match entry {
        Entry::Primitive(array) => Ok(Entry::Primitive(array.clone()?)),
        Entry::Boolean(array) => Ok(Entry::Boolean(array.clone()?)),
        Entry::Binary(array) => Ok(Entry::Binary(array.clone()?)),
        Entry::Utf8(array) => Ok(Entry::Utf8(array.clone()?)),
        Entry::MutablePrimitive(builder) => Ok(Entry::MutablePrimitive(builder.clone()?)),
        Entry::MutableBoolean(builder) => Ok(Entry::MutableBoolean(builder.clone()?)),
        Entry::MutableBinary(builder) => Ok(Entry::MutableBinary(builder.clone()?)),
        Entry::MutableUtf8(builder) => Ok(Entry::MutableUtf8(builder.clone()?)),
        Entry::BinaryValues(builder) => Ok(Entry::BinaryValues(builder.clone()?)),
        Entry::Utf8Values(builder) => Ok(Entry::Utf8Values(builder.clone()?)),
    }
}

impl<T: NativeType, O: Offset> MakesEntry<T, O> for Clone {
    ghost use Rattle.arrow_model.specs.Step.{Clones, entry_at};

    ghost makes = { λ command state. Clones (entry_at state command.0) };

    fn make(
        &self,
        _alloc: Global,
        entries: &Vec<Option<Entry<T, O>>>,
    ) -> Result<Option<Entry<T, O>>, Error> {
        match entry_at(entries, self.0) {
            Some(from) => Ok(Some(cloned(from)?)),
            None => Ok(None),
        }
    }
}

/// Makes an array of the rows of one entry where another, a boolean array of the same length, is valid and true.
#[derive(Drop)]
pub struct Filter(pub usize, pub usize);

/// Returns the filter that an entry is; `None` if it is not a boolean array.
#[tactic(auto, using(crate::proofs::Chosen::seen_bits))]
fn filter_of<T: NativeType, O: Offset>(entry: &Entry<T, O>) -> Option<&BooleanArray>
    ensures { filter_in (Some (value_of entry.now)) ≡ option_copied result }
{
    match entry {
        Entry::Boolean(filter) => Some(filter),
        _ => None,
    }
}

/// Filters an entry, which has as many slots as the filter; `None` if it is not an array.
///
/// # Errors
/// `OutOfMemory` if an allocation fails.
#[tactic(auto, using(arrow_entry::proofs::CallerLemmas::seen_reads, crate::proofs::Chosen::seen_choices))]
fn filtered<T: NativeType, O: Offset>(
    alloc: Global,
    entry: &Entry<T, O>,
    filter: &BooleanArray,
) -> Result<Option<Entry<T, O>>, Error>
    requires { length filter.now.rows ≡ length (value_of entry.now).column.rows }
    ensures { MadeBy result (require_some None (array_in (Some (value_of entry.now))) (Filtered filter.now)) }
{
    match entry {
        Entry::Primitive(array) => Ok(Some(Entry::Primitive(filter_primitive(
            alloc, array, filter,
        )?))),
        Entry::Boolean(array) => Ok(Some(Entry::Boolean(filter_boolean(alloc, array, filter)?))),
        Entry::Binary(array) => Ok(Some(Entry::Binary(filter_binary(alloc, array, filter)?))),
        Entry::Utf8(array) => Ok(Some(Entry::Utf8(filter_utf8(alloc, array, filter)?))),
        _ => Ok(None),
    }
}

impl<T: NativeType, O: Offset> MakesEntry<T, O> for Filter {
    ghost use Rattle.arrow_model.specs.Step.{Filters, entry_at};

    ghost makes = { λ command state. Filters (entry_at state command.0) (entry_at state command.1) };

    fn make(
        &self,
        alloc: Global,
        entries: &Vec<Option<Entry<T, O>>>,
    ) -> Result<Option<Entry<T, O>>, Error> {
        let Some(by) = entry_at(entries, self.1) else {
            return Ok(None);
        };
        let Some(filter) = filter_of(by) else {
            return Ok(None);
        };
        let Some(from) = entry_at(entries, self.0) else {
            return Ok(None);
        };
        if filter.len() != from.len() {
            return Ok(None);
        }
        filtered(alloc, from, filter)
    }
}

/// Makes an array of the rows of an entry at the indexes that keys give, in their order.
#[derive(Drop)]
pub struct Take<'a>(pub usize, pub &'a Vec<i64>);

/// Takes the rows at the indexes that keys give; `None` if the entry is not an array.
///
/// # Errors
/// `OutOfSpec` for the first key that is out of bounds. Or else `Overflow` if the items together have more bytes than
/// an offset can express, or `OutOfMemory` if an allocation fails.
#[tactic(auto, using(arrow_entry::proofs::CallerLemmas::seen_reads, crate::proofs::Chosen::seen_choices))]
fn taken<T: NativeType, O: Offset>(
    alloc: Global,
    entry: &Entry<T, O>,
    keys: &[i64],
) -> Result<Option<Entry<T, O>>, Error>
    ensures { MadeBy result (require_some None (array_in (Some (value_of entry.now))) (Taken O.most keys.now)) }
{
    match entry {
        Entry::Primitive(array) => Ok(Some(Entry::Primitive(take_primitive(alloc, array, keys)?))),
        Entry::Boolean(array) => Ok(Some(Entry::Boolean(take_boolean(alloc, array, keys)?))),
        Entry::Binary(array) => Ok(Some(Entry::Binary(take_binary(alloc, array, keys)?))),
        Entry::Utf8(array) => Ok(Some(Entry::Utf8(take_utf8(alloc, array, keys)?))),
        _ => Ok(None),
    }
}

impl<'a, T: NativeType, O: Offset> MakesEntry<T, O> for Take<'a> {
    ghost use Rattle.arrow_model.specs.Step.{TakesKeys, entry_at};

    ghost makes = { λ command state. TakesKeys O.most command.1.now.items (entry_at state command.0) };

    fn make(
        &self,
        alloc: Global,
        entries: &Vec<Option<Entry<T, O>>>,
    ) -> Result<Option<Entry<T, O>>, Error> {
        match entry_at(entries, self.0) {
            Some(from) => taken(alloc, from, self.1),
            None => Ok(None),
        }
    }
}
