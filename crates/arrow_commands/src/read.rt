//! Commands that read an entry. The code of each is proved against its case in `Step.antt`, which says for which kinds
//! it is.
ghost use Rattle.std.specs.Prelude.{◌≡◌, IfOk, map};
ghost use Rattle.arrow_memory.specs.Offsets.{KeepsOffsets, numbers_of};
ghost use Rattle.arrow_column.specs.Column.{slots_of};
ghost use Rattle.arrow_commands.specs.Steps.{AreOffsetsOf, FoundInBytes};
ghost use Rattle.arrow_entry.specs.Entry.{value_of};
ghost use Rattle.arrow_model.specs.Change.{all_bytes};
ghost use Rattle.arrow_model.specs.Item.{stored_slot};
ghost use Rattle.arrow_model.specs.Kind.{reads_values};

use crate::command::ReadsEntry;
use arrow_entry::Entry;
use arrow_model::{Item, Reply, Turn};
use arrow_types::error::Error;
use arrow_types::native_type::NativeType;
use arrow_types::offset::Offset;
use std::alloc::{AllocError, Global};

/// Answers the number of slots.
#[derive(Drop)]
pub struct Len;

impl<T: NativeType, O: Offset> ReadsEntry<T, O> for Len {
    ghost use Rattle.arrow_model.specs.Request.{len};

    ghost asks = { λ command. len };

    fn read(&self, _alloc: Global, entry: &Entry<T, O>) -> Result<Reply<T>, Error> {
        Ok(Reply::Number(entry.len()))
    }
}

/// Returns whether the command is for the kind of an entry.
fn reads_values<T: NativeType, O: Offset>(entry: &Entry<T, O>) -> bool
    ensures { result ≡ reads_values (value_of entry.now).shape }
{
    match entry {
        Entry::MutablePrimitive(_) | Entry::MutableBoolean(_) | Entry::MutableBinary(_) => false,
        _ => true,
    }
}

/// Answers what the slot at an index stores, also if it is null.
#[derive(Drop)]
pub struct Value(pub usize);

impl<T: NativeType, O: Offset> ReadsEntry<T, O> for Value {
    ghost use Rattle.arrow_model.specs.Request.{value};

    ghost asks = { λ command. value command.0 };

    fn read(&self, alloc: Global, entry: &Entry<T, O>) -> Result<Reply<T>, Error> {
        if !reads_values(entry) {
            return Ok(Reply::NotMet);
        }
        if self.0 >= entry.len() {
            return Ok(Reply::NotMet);
        }
        Ok(Reply::Slot(Some(entry.item(alloc, self.0)?)))
    }
}

/// Answers the slot of an array at an index.
#[derive(Drop)]
pub struct Get(pub usize);

impl<T: NativeType, O: Offset> ReadsEntry<T, O> for Get {
    ghost use Rattle.arrow_model.specs.Request.{get};

    ghost asks = { λ command. get command.0 };

    fn read(&self, alloc: Global, entry: &Entry<T, O>) -> Result<Reply<T>, Error> {
        if !entry.is_array() {
            return Ok(Reply::NotMet);
        }
        if self.0 >= entry.len() {
            return Ok(Reply::NotMet);
        }
        Ok(Reply::Slot(entry.get(alloc, self.0)?))
    }
}

/// Answers whether the slot of an array at an index is null.
#[derive(Drop)]
pub struct IsNull(pub usize);

impl<T: NativeType, O: Offset> ReadsEntry<T, O> for IsNull {
    ghost use Rattle.arrow_model.specs.Request.{is_null};

    ghost asks = { λ command. is_null command.0 };

    fn read(&self, _alloc: Global, entry: &Entry<T, O>) -> Result<Reply<T>, Error> {
        if !entry.is_array() {
            return Ok(Reply::NotMet);
        }
        if self.0 >= entry.len() {
            return Ok(Reply::NotMet);
        }
        Ok(Reply::Flag(entry.is_null(self.0)))
    }
}

/// Answers the number of nulls of an array.
#[derive(Drop)]
pub struct NullCount;

#[tactic(auto, using(arrow_entry::proofs::CallerLemmas::seen_reads))]
impl<T: NativeType, O: Offset> ReadsEntry<T, O> for NullCount {
    ghost use Rattle.arrow_model.specs.Request.{null_count};

    ghost asks = { λ command. null_count };

    fn read(&self, _alloc: Global, entry: &Entry<T, O>) -> Result<Reply<T>, Error> {
        match entry {
            Entry::Primitive(array) => Ok(Reply::Number(array.null_count())),
            Entry::Boolean(array) => Ok(Reply::Number(array.null_count())),
            Entry::Binary(array) => Ok(Reply::Number(array.null_count())),
            Entry::Utf8(array) => Ok(Reply::Number(array.null_count())),
            _ => Ok(Reply::NotMet),
        }
    }
}

/// Returns all slots, in order; bytes and texts are copied.
///
/// # Errors
/// `AllocError` if an allocation fails.
#[tactic(auto, using(arrow_entry::proofs::CallerLemmas::slot_lists))]
fn all_slots<T: NativeType, O: Offset>(
    alloc: Global,
    entry: &Entry<T, O>,
) -> Result<Vec<Option<Item<T>>>, AllocError>
    ensures { IfOk result (λ slots. map stored_slot slots.items ≡ slots_of (value_of entry.now).column) }
{
    let mut slots = Vec::with_capacity(alloc, entry.len())?;
    for i in 0..entry.len() {
        let slot = entry.get(alloc, i)?;
        slots.push(slot)?;
    }
    Ok(slots)
}

/// Answers all slots, in order.
#[derive(Drop)]
pub struct Slots;

impl<T: NativeType, O: Offset> ReadsEntry<T, O> for Slots {
    ghost use Rattle.arrow_model.specs.Request.{all_slots};

    ghost asks = { λ command. all_slots };

    fn read(&self, alloc: Global, entry: &Entry<T, O>) -> Result<Reply<T>, Error> {
        Ok(Reply::Slots(all_slots(alloc, entry)?))
    }
}

/// Answers what the turns of one fresh iterator over the stored items give.
#[derive(Drop)]
pub struct Turns<'a>(pub &'a [Turn]);

impl<'a, T: NativeType, O: Offset> ReadsEntry<T, O> for Turns<'a> {
    ghost use Rattle.arrow_model.specs.Request.{turns};

    ghost asks = { λ command. turns command.0.now };

    fn read(&self, alloc: Global, entry: &Entry<T, O>) -> Result<Reply<T>, Error> {
        Ok(Reply::Slots(entry.turns(alloc, self.0)?))
    }
}

/// Answers the data type.
#[derive(Drop)]
pub struct TypeOf;

impl<T: NativeType, O: Offset> ReadsEntry<T, O> for TypeOf {
    ghost use Rattle.arrow_model.specs.Request.{type_of};

    ghost asks = { λ command. type_of };

    fn read(&self, _alloc: Global, entry: &Entry<T, O>) -> Result<Reply<T>, Error> {
        Ok(Reply::Typed(entry.data_type().clone()?))
    }
}

/// Answers whether a mask is held.
#[derive(Drop)]
pub struct Held;

impl<T: NativeType, O: Offset> ReadsEntry<T, O> for Held {
    ghost use Rattle.arrow_model.specs.Request.{held};

    ghost asks = { λ command. held };

    fn read(&self, _alloc: Global, entry: &Entry<T, O>) -> Result<Reply<T>, Error> {
        Ok(Reply::Flag(entry.is_masked()))
    }
}

/// Returns all bytes, where there are any.
#[tactic(auto, using(arrow_entry::proofs::CallerLemmas::seen_reads, arrow_entry::proofs::CallerLemmas::seen_bytes))]
fn bytes_of<T: NativeType, O: Offset>(entry: &Entry<T, O>) -> Option<&[u8]>
    ensures { FoundInBytes entry.now result (λ bytes. bytes.now ≡ all_bytes (value_of entry.now)) }
{
    match entry {
        Entry::Binary(array) => Some(array.values().as_slice()),
        Entry::Utf8(array) => Some(array.values().as_slice()),
        Entry::MutableBinary(builder) => Some(builder.values().as_slice()),
        Entry::MutableUtf8(builder) => Some(builder.values().as_slice()),
        Entry::BinaryValues(builder) => Some(builder.values().as_slice()),
        Entry::Utf8Values(builder) => Some(builder.values().as_slice()),
        _ => None,
    }
}

/// Answers all bytes, those around the slots too.
#[derive(Drop)]
pub struct Bytes;

impl<T: NativeType, O: Offset> ReadsEntry<T, O> for Bytes {
    ghost use Rattle.arrow_model.specs.Request.{bytes};

    ghost asks = { λ command. bytes };

    fn read(&self, alloc: Global, entry: &Entry<T, O>) -> Result<Reply<T>, Error> {
        match bytes_of(entry) {
            Some(bytes) => Ok(Reply::Slot(Some(Item::Bytes(Vec::from_slice(alloc, bytes)?)))),
            None => Ok(Reply::NotMet),
        }
    }
}

/// Returns the numbers of legal offsets.
///
/// # Errors
/// `AllocError` if an allocation fails.
#[tactic(auto, using(arrow_entry::proofs::CallerLemmas::number_lists))]
fn to_numbers<O: Offset>(alloc: Global, offsets: &[O]) -> Result<Vec<usize>, AllocError>
    requires { KeepsOffsets O.number O.most offsets.now }
    ensures { IfOk result (λ numbers. numbers.items ≡ numbers_of O.number offsets.now) }
{
    let mut numbers = Vec::new(alloc);
    for i in 0..offsets.len() {
        numbers.push(offsets[i].to_usize())?;
    }
    Ok(numbers)
}

/// Returns the offsets, where there are any.
#[tactic(auto, using(arrow_entry::proofs::CallerLemmas::seen_reads, arrow_entry::proofs::CallerLemmas::seen_bytes))]
fn offsets_of<T: NativeType, O: Offset>(entry: &Entry<T, O>) -> Option<&[O]>
    ensures { FoundInBytes entry.now result (λ offsets. AreOffsetsOf O.Offset (value_of entry.now) offsets.now) }
{
    match entry {
        Entry::Binary(array) => Some(array.offsets().buffer().as_slice()),
        Entry::Utf8(array) => Some(array.offsets().buffer().as_slice()),
        Entry::MutableBinary(builder) => Some(builder.offsets().as_slice()),
        Entry::MutableUtf8(builder) => Some(builder.offsets().as_slice()),
        Entry::BinaryValues(builder) => Some(builder.offsets().as_slice()),
        Entry::Utf8Values(builder) => Some(builder.offsets().as_slice()),
        _ => None,
    }
}

/// Answers where each slot begins and ends in the bytes.
#[derive(Drop)]
pub struct Offsets;

impl<T: NativeType, O: Offset> ReadsEntry<T, O> for Offsets {
    ghost use Rattle.arrow_model.specs.Request.{offsets};

    ghost asks = { λ command. offsets };

    fn read(&self, alloc: Global, entry: &Entry<T, O>) -> Result<Reply<T>, Error> {
        match offsets_of(entry) {
            Some(offsets) => Ok(Reply::Numbers(to_numbers(alloc, offsets)?)),
            None => Ok(Reply::NotMet),
        }
    }
}
