//! Commands on a builder: slots that are appended or removed, and room.
ghost use Rattle.std.specs.Prelude.{◌≡◌, IfOk, IsTrue, OnErr, OnOk, false, is_some, option_map, string_bytes, true};
ghost use Rattle.arrow_types.specs.Failures.{OnlyOutOfMemory, OutOfMemoryKeeps};
ghost use Rattle.arrow_column.specs.Column.{last_slot};
ghost use Rattle.arrow_commands.specs.Steps.{NativeStep};
ghost use Rattle.arrow_entry.specs.Entry.{value_of};
ghost use Rattle.arrow_model.specs.Change.{without_last_slot};
ghost use Rattle.arrow_model.specs.Item.{bit, bytes_item, stored_slot, value};
ghost use Rattle.arrow_model.specs.Kind.{is_builder, is_var_binary, with_nulls};
ghost use Rattle.arrow_model.specs.Request as ask;

use crate::command::UpdatesEntry;
use arrow_entry::{Entry, items_fit, push_items, push_slots, slots_fit};
use arrow_model::{Item, Reply};
use arrow_primitive::MutablePrimitiveArray;
use arrow_types::error::Error;
use arrow_types::native_type::NativeType;
use arrow_types::offset::Offset;
use std::alloc::Global;

/// Appends a slot to a builder.
#[derive(Drop)]
pub struct Push<'a, T>(pub &'a Option<Item<T>>);

impl<'a, T: NativeType, O: Offset> UpdatesEntry<T, O> for Push<'a, T> {
    ghost use Rattle.arrow_model.specs.Item.{stored_slot};
    ghost use Rattle.arrow_model.specs.Request.{push};

    ghost asks = { λ command. push (stored_slot command.0.now) };

    fn update(&self, _alloc: Global, entry: &mut Entry<T, O>) -> Result<Reply<T>, Error> {
        if !entry.can_push(self.0) {
            return Ok(Reply::NotMet);
        }
        entry.push_slot(self.0)?;
        Ok(Reply::Done)
    }
}

/// Appends a null to a builder, or an empty item to one without nulls.
#[derive(Drop)]
pub struct PushNull;

impl<T: NativeType, O: Offset> UpdatesEntry<T, O> for PushNull {
    ghost use Rattle.arrow_model.specs.Request.{push_null};

    ghost asks = { λ command. push_null };

    fn update(&self, _alloc: Global, entry: &mut Entry<T, O>) -> Result<Reply<T>, Error> {
        if entry.is_array() {
            return Ok(Reply::NotMet);
        }
        entry.push_null()?;
        Ok(Reply::Done)
    }
}

/// Returns a slot of a native value as it is answered.
fn value_item<T>(slot: Option<T>) -> Option<Item<T>>
    ensures { stored_slot result ≡ option_map value slot }
{
    match slot {
        Some(x) => Some(Item::Value(x)),
        None => None,
    }
}

/// Returns a slot of a boolean as it is answered.
fn bit_item<T>(slot: Option<bool>) -> Option<Item<T>>
    ensures { stored_slot result ≡ option_map bit slot }
{
    match slot {
        Some(x) => Some(Item::Bit(x)),
        None => None,
    }
}

/// Returns a slot of bytes as it is answered.
fn bytes_item<T>(slot: Option<Vec<u8>>) -> Option<Item<T>>
    ensures { stored_slot result ≡ option_map (λ x. bytes_item false x.items) slot }
{
    match slot {
        Some(x) => Some(Item::Bytes(x)),
        None => None,
    }
}

/// Returns a slot of text as it is answered.
fn text_item<T>(slot: Option<String>) -> Option<Item<T>>
    ensures { stored_slot result ≡ option_map (λ x. bytes_item true (string_bytes x)) slot }
{
    match slot {
        Some(x) => Some(Item::Text(x)),
        None => None,
    }
}

/// Removes the last slot of a builder and returns it. Bytes and text are copied; no other slot takes memory.
///
/// # Errors
/// `OutOfMemory` if the copy fails; the builder is then as before.
#[tactic(auto, using(arrow_entry::proofs::CallerLemmas::seen_reads, arrow_entry::proofs::CallerLemmas::seen_grows, arrow_entry::proofs::CallerLemmas::seen_bytes))]
fn pop_slot<T: NativeType, O: Offset>(entry: &mut Entry<T, O>) -> Result<Option<Item<T>>, Error>
    requires { IsTrue (is_builder (value_of entry.old).shape) }
    ensures ok { OnOk result (value_of entry.new ≡ without_last_slot (value_of entry.old)) }
    ensures slot { IfOk result (λ slot. stored_slot slot ≡ last_slot (value_of entry.old).column) }
    ensures err { OutOfMemoryKeeps result (value_of entry.old) (value_of entry.new) }
    ensures copies { OnErr result (IsTrue (is_var_binary (value_of entry.old).shape)) }
    ensures some { OnErr result (IsTrue (is_some (last_slot (value_of entry.old).column))) }
{
    match entry {
        Entry::MutablePrimitive(builder) => Ok(value_item(builder.pop())),
        Entry::MutableBoolean(builder) => Ok(bit_item(builder.pop())),
        Entry::MutableBinary(builder) => Ok(bytes_item(builder.pop()?)),
        Entry::MutableUtf8(builder) => Ok(text_item(builder.pop()?)),
        Entry::BinaryValues(builder) => Ok(bytes_item(builder.pop()?)),
        Entry::Utf8Values(builder) => Ok(text_item(builder.pop()?)),
        _ => unreachable!(),
    }
}

/// Removes the last slot of a builder and answers it.
#[derive(Drop)]
pub struct Pop;

impl<T: NativeType, O: Offset> UpdatesEntry<T, O> for Pop {
    ghost use Rattle.arrow_model.specs.Request.{pop};

    ghost asks = { λ command. pop };

    fn update(&self, _alloc: Global, entry: &mut Entry<T, O>) -> Result<Reply<T>, Error> {
        if entry.is_array() {
            return Ok(Reply::NotMet);
        }
        Ok(Reply::Slot(pop_slot(entry)?))
    }
}

/// Appends slots to a builder with nulls, one after the other.
#[derive(Drop)]
pub struct Extend<'a, T>(pub &'a [Option<Item<T>>]);

impl<'a, T: NativeType, O: Offset> UpdatesEntry<T, O> for Extend<'a, T> {
    ghost use Rattle.std.specs.Prelude.{map};
    ghost use Rattle.arrow_model.specs.Item.{stored_slot};
    ghost use Rattle.arrow_model.specs.Request.{extend};

    ghost asks = { λ command. extend (map stored_slot command.0.now) };

    fn update(&self, _alloc: Global, entry: &mut Entry<T, O>) -> Result<Reply<T>, Error> {
        if !entry.is_builder_with_nulls() {
            return Ok(Reply::NotMet);
        }
        if !slots_fit(entry.kind(), self.0) {
            return Ok(Reply::NotMet);
        }
        match push_slots(entry, self.0) {
            Ok(()) => Ok(Reply::Done),
            Err(refused) => Err(refused),
        }
    }
}

/// Appends items to a builder, one after the other.
#[derive(Drop)]
pub struct ExtendValues<'a, T>(pub &'a [Item<T>]);

impl<'a, T: NativeType, O: Offset> UpdatesEntry<T, O> for ExtendValues<'a, T> {
    ghost use Rattle.std.specs.Prelude.{map};
    ghost use Rattle.arrow_model.specs.Item.{stored_item};
    ghost use Rattle.arrow_model.specs.Request.{extend_values};

    ghost asks = { λ command. extend_values (map stored_item command.0.now) };

    fn update(&self, _alloc: Global, entry: &mut Entry<T, O>) -> Result<Reply<T>, Error> {
        if entry.is_array() {
            return Ok(Reply::NotMet);
        }
        if !items_fit(entry.kind(), self.0) {
            return Ok(Reply::NotMet);
        }
        push_items(entry, self.0)?;
        Ok(Reply::Done)
    }
}

/// Appends `n` equal slots to a builder of native values.
///
/// # Errors
/// `OutOfMemory` if an allocation fails; the builder is then as before.
#[tactic(auto, using(arrow_entry::proofs::CallerLemmas::seen_changes, crate::proofs::ValueLists::seen_lists))]
fn extend_natives<T: NativeType, O: Offset>(
    builder: &mut MutablePrimitiveArray<T>,
    n: usize,
    x: &Option<Item<T>>,
) -> Result<Reply<T>, Error>
    ensures { NativeStep T.NativeType O.Offset with_nulls (ask.extend_constant n (stored_slot x.now))
        builder.old result builder.new }
{
    match x {
        None => builder.extend_constant(n, None)?,
        Some(Item::Value(x)) => builder.extend_constant(n, Some(*x))?,
        _ => return Ok(Reply::NotMet),
    }
    Ok(Reply::Done)
}

/// Appends equal slots to a builder of native values: as many as the number says.
#[derive(Drop)]
pub struct ExtendConstant<'a, T>(pub usize, pub &'a Option<Item<T>>);

impl<'a, T: NativeType, O: Offset> UpdatesEntry<T, O> for ExtendConstant<'a, T> {
    ghost use Rattle.arrow_model.specs.Item.{stored_slot};
    ghost use Rattle.arrow_model.specs.Request.{extend_constant};

    ghost asks = { λ command. extend_constant command.0 (stored_slot command.1.now) };

    fn update(&self, _alloc: Global, entry: &mut Entry<T, O>) -> Result<Reply<T>, Error> {
        match entry {
            Entry::MutablePrimitive(builder) => extend_natives::<T, O>(builder, self.0, self.1),
            _ => Ok(Reply::NotMet),
        }
    }
}

/// Reserves room for slots of a builder, and for bytes where it has any.
///
/// # Errors
/// `OutOfMemory` if an allocation fails.
fn reserve_room<T: NativeType, O: Offset>(
    entry: &mut Entry<T, O>,
    slots: usize,
    bytes: usize,
) -> Result<(), Error>
    requires { IsTrue (is_builder (value_of entry.old).shape) }
    ensures same { value_of entry.new ≡ value_of entry.old }
    ensures err { OnlyOutOfMemory result }
{
    match entry {
        Entry::MutablePrimitive(builder) => builder.reserve(slots),
        Entry::MutableBoolean(builder) => builder.reserve(slots),
        Entry::MutableBinary(builder) => builder.reserve(slots, bytes),
        Entry::MutableUtf8(builder) => builder.reserve(slots, bytes),
        Entry::BinaryValues(builder) => builder.reserve(slots, bytes),
        Entry::Utf8Values(builder) => builder.reserve(slots, bytes),
        _ => unreachable!(),
    }
}

/// Reserves room for slots of a builder, and for bytes where it has any.
#[derive(Drop)]
pub struct Reserve(pub usize, pub usize);

impl<T: NativeType, O: Offset> UpdatesEntry<T, O> for Reserve {
    ghost use Rattle.arrow_model.specs.Request.{reserve};

    ghost asks = { λ command. reserve };

    fn update(&self, _alloc: Global, entry: &mut Entry<T, O>) -> Result<Reply<T>, Error> {
        if entry.is_array() {
            return Ok(Reply::NotMet);
        }
        reserve_room(entry, self.0, self.1)?;
        Ok(Reply::Done)
    }
}

/// Gives back the room of a builder that is not used.
///
/// # Errors
/// `OutOfMemory` if an allocation fails.
fn drop_room<T: NativeType, O: Offset>(entry: &mut Entry<T, O>) -> Result<(), Error>
    requires { IsTrue (is_builder (value_of entry.old).shape) }
    ensures same { value_of entry.new ≡ value_of entry.old }
    ensures err { OnlyOutOfMemory result }
{
    match entry {
        Entry::MutablePrimitive(builder) => builder.shrink_to_fit(),
        Entry::MutableBoolean(builder) => builder.shrink_to_fit(),
        Entry::MutableBinary(builder) => builder.shrink_to_fit(),
        Entry::MutableUtf8(builder) => builder.shrink_to_fit(),
        Entry::BinaryValues(builder) => builder.shrink_to_fit(),
        Entry::Utf8Values(builder) => builder.shrink_to_fit(),
        _ => unreachable!(),
    }
}

/// Gives back the room of a builder that is not used.
#[derive(Drop)]
pub struct Shrink;

impl<T: NativeType, O: Offset> UpdatesEntry<T, O> for Shrink {
    ghost use Rattle.arrow_model.specs.Request.{shrink};

    ghost asks = { λ command. shrink };

    fn update(&self, _alloc: Global, entry: &mut Entry<T, O>) -> Result<Reply<T>, Error> {
        if entry.is_array() {
            return Ok(Reply::NotMet);
        }
        drop_room(entry)?;
        Ok(Reply::Done)
    }
}
