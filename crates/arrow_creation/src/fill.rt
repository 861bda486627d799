//! Commands that make a value of what they name: an empty one, nulls, slots, or items.
ghost use Rattle.std.specs.Prelude.{◌≡◌, Err, IfErr, IfOk, IsTrue, false, if◌then◌else◌, map};
ghost use Rattle.std.specs.List.{list_all};
ghost use Rattle.arrow_types.specs.Failures.{OnlyOutOfMemory};
ghost use Rattle.arrow_types.specs.Types.{IsRightType, logical_type};
ghost use Rattle.arrow_creation.specs.Outcome.{BuiltBy, IfMade};
ghost use Rattle.arrow_entry.specs.Entry.{value_of};
ghost use Rattle.arrow_model.specs.Change.{frozen_value, nulls_value};
ghost use Rattle.arrow_model.specs.Item.{fits, slot_fits, stored_item, stored_slot};
ghost use Rattle.arrow_model.specs.Kind.{is_builder, is_frozen, is_values_alone, shape};
ghost use Rattle.arrow_model.specs.Step.{ItemsFill, SlotsFill};
ghost use Rattle.arrow_model.specs.Value.{layout, types_of};

use crate::empty::{empty_entry, slots_builder};
use crate::kinds::{builder_kind, holds_values_alone, is_array};
use crate::make::MakesEntry;
use arrow_binary::BinaryArray;
use arrow_boolean::BooleanArray;
use arrow_entry::{Entry, discard, frozen, items_fit, push_items, push_slots, slots_fit};
use arrow_model::{Item, Kind};
use arrow_primitive::PrimitiveArray;
use arrow_types::data_type::DataType;
use arrow_types::error::Error;
use arrow_types::native_type::NativeType;
use arrow_types::offset::Offset;
use arrow_types::physical_type::PhysicalType;
use arrow_utf8::Utf8Array;
use std::alloc::Global;

/// Makes an array or a builder of a kind with no slot.
#[derive(Drop)]
pub struct New(pub Kind);

impl<T: NativeType, O: Offset> MakesEntry<T, O> for New {
    ghost use Rattle.arrow_creation.specs.Outcome.{MakesKind};
    ghost use Rattle.arrow_model.specs.Request.{nothing};

    ghost makes = { λ command _. MakesKind T.NativeType O.Offset command.0 nothing };

    fn make(
        &self,
        alloc: Global,
        _entries: &Vec<Option<Entry<T, O>>>,
    ) -> Result<Option<Entry<T, O>>, Error> {
        Ok(Some(empty_entry(alloc, self.0)?))
    }
}

/// Makes an array of nulls.
#[derive(Drop)]
pub struct NewNull<'a> {
    /// The kind, which has to be an array's.
    pub kind: Kind,
    /// The type, which has to be right for the kind.
    pub data_type: &'a DataType,
    /// The number of nulls.
    pub length: usize,
}

/// Returns how the values of a kind lie in memory.
fn layout_of<T: NativeType, O: Offset>(kind: Kind) -> PhysicalType
    ensures { result ≡ layout (types_of T.NativeType O.Offset) (shape kind).value_kind }
{
    match kind {
        Kind::Primitive | Kind::MutablePrimitive => PhysicalType::Primitive(T::PRIMITIVE),
        Kind::Boolean | Kind::MutableBoolean => PhysicalType::Boolean,
        Kind::Binary | Kind::MutableBinary | Kind::BinaryValues => {
            if O::IS_LARGE {
                PhysicalType::LargeBinary
            } else {
                PhysicalType::Binary
            }
        }
        Kind::Utf8 | Kind::MutableUtf8 | Kind::Utf8Values => {
            if O::IS_LARGE {
                PhysicalType::LargeUtf8
            } else {
                PhysicalType::Utf8
            }
        }
    }
}

/// Creates an array of nulls.
///
/// # Errors
/// `OutOfMemory` if an allocation fails.
#[tactic(auto, using(crate::proofs::EmptyLemmas::seen_nulls))]
fn null_entry<T: NativeType, O: Offset>(
    alloc: Global,
    kind: Kind,
    data_type: &DataType,
    length: usize,
) -> Result<Entry<T, O>, Error>
    requires array { IsTrue (is_frozen (shape kind)) }
    requires right { IsRightType (layout (types_of T.NativeType O.Offset) (shape kind).value_kind)
        (logical_type data_type.now) }
    ensures ok { IfMade result
        (nulls_value (types_of T.NativeType O.Offset) (shape kind) (logical_type data_type.now) length) }
    ensures err { OnlyOutOfMemory result }
{
    let data_type = data_type.clone()?;
    Ok(match kind {
        Kind::Primitive => Entry::Primitive(PrimitiveArray::new_null(alloc, data_type, length)?),
        Kind::Boolean => Entry::Boolean(BooleanArray::new_null(alloc, data_type, length)?),
        Kind::Binary => Entry::Binary(BinaryArray::new_null(alloc, data_type, length)?),
        Kind::Utf8 => Entry::Utf8(Utf8Array::new_null(alloc, data_type, length)?),
        _ => unreachable!(),
    })
}

impl<'a, T: NativeType, O: Offset> MakesEntry<T, O> for NewNull<'a> {
    ghost use Rattle.arrow_creation.specs.Outcome.{MakesKind};
    ghost use Rattle.arrow_model.specs.Request.{nulls};
    ghost use Rattle.arrow_types.specs.Types.{logical_type};

    ghost makes = { λ command _. MakesKind T.NativeType O.Offset command.kind
        (nulls (logical_type command.data_type.now) command.length) };

    fn make(
        &self,
        alloc: Global,
        _entries: &Vec<Option<Entry<T, O>>>,
    ) -> Result<Option<Entry<T, O>>, Error> {
        if !is_array(self.kind) {
            return Ok(None);
        }
        if !self.data_type.is_right_for(layout_of::<T, O>(self.kind)) {
            return Ok(None);
        }
        Ok(Some(null_entry(alloc, self.kind, self.data_type, self.length)?))
    }
}

/// Returns what a builder of a kind's values becomes once it is filled: an array if the kind is an array's, or else the
/// builder.
///
/// # Errors
/// The error at which filling the builder stopped, if it did, or else `OutOfMemory` if an allocation fails.
fn finish<T: NativeType, O: Offset>(
    kind: Kind,
    builder: Entry<T, O>,
    filled: Result<(), Error>,
) -> Result<Entry<T, O>, Error>
    requires { IfOk filled (λ _. IsTrue (is_builder (value_of builder).shape)) }
    ensures ok { IfMade result
        (if is_frozen (shape kind) then frozen_value (value_of builder) else value_of builder) }
    ensures stopped { IfErr filled (λ e. result ≡ Err e) }
    ensures err { IfOk filled (λ _. OnlyOutOfMemory result) }
{
    match filled {
        Ok(()) => {
            if is_array(kind) {
                frozen(builder)
            } else {
                Ok(builder)
            }
        }
        Err(refused) => {
            discard(builder);
            Err(refused)
        }
    }
}

/// Makes an array or a builder of slots.
#[derive(Drop)]
pub struct FromSlots<'a, T>(pub Kind, pub &'a [Option<Item<T>>]);

/// Creates an array or a builder of slots, each of which fits.
///
/// # Errors
/// `Overflow` if offsets can't express the end of a slot, or else `OutOfMemory` if an allocation fails.
fn entry_from_slots<T: NativeType, O: Offset>(
    alloc: Global,
    kind: Kind,
    slots: &[Option<Item<T>>],
) -> Result<Entry<T, O>, Error>
    requires nulls { is_values_alone (shape kind) ≡ false }
    requires fit { IsTrue (list_all (slot_fits (shape kind).value_kind) (map stored_slot slots.now)) }
    ensures { BuiltBy value_of result
        (SlotsFill (types_of T.NativeType O.Offset) (shape kind) (map stored_slot slots.now)) }
{
    let mut made = slots_builder(alloc, kind)?;
    let filled = push_slots(&mut made, slots);
    finish(kind, made, filled)
}

impl<'a, T: NativeType, O: Offset> MakesEntry<T, O> for FromSlots<'a, T> {
    ghost use Rattle.std.specs.Prelude.{map};
    ghost use Rattle.arrow_model.specs.Item.{stored_slot};
    ghost use Rattle.arrow_creation.specs.Outcome.{MakesKind};
    ghost use Rattle.arrow_model.specs.Request.{slots};

    ghost makes = { λ command _. MakesKind T.NativeType O.Offset command.0
        (slots (map stored_slot command.1.now)) };

    fn make(
        &self,
        alloc: Global,
        _entries: &Vec<Option<Entry<T, O>>>,
    ) -> Result<Option<Entry<T, O>>, Error> {
        if holds_values_alone(self.0) {
            return Ok(None);
        }
        if !slots_fit(self.0, self.1) {
            return Ok(None);
        }
        Ok(Some(entry_from_slots(alloc, self.0, self.1)?))
    }
}

/// Makes an array or a builder of items.
#[derive(Drop)]
pub struct FromItems<'a, T>(pub Kind, pub &'a [Item<T>]);

/// Creates an array or a builder of items, each of which fits.
///
/// # Errors
/// `Overflow` if offsets can't express the end of an item, or else `OutOfMemory` if an allocation fails.
fn entry_from_items<T: NativeType, O: Offset>(
    alloc: Global,
    kind: Kind,
    items: &[Item<T>],
) -> Result<Entry<T, O>, Error>
    requires { IsTrue (list_all (fits (shape kind).value_kind) (map stored_item items.now)) }
    ensures { BuiltBy value_of result
        (ItemsFill (types_of T.NativeType O.Offset) (shape kind) (map stored_item items.now)) }
{
    let mut made = empty_entry(alloc, builder_kind(kind))?;
    let filled = push_items(&mut made, items);
    finish(kind, made, filled)
}

impl<'a, T: NativeType, O: Offset> MakesEntry<T, O> for FromItems<'a, T> {
    ghost use Rattle.std.specs.Prelude.{map};
    ghost use Rattle.arrow_model.specs.Item.{stored_item};
    ghost use Rattle.arrow_creation.specs.Outcome.{MakesKind};
    ghost use Rattle.arrow_model.specs.Request.{items};

    ghost makes = { λ command _. MakesKind T.NativeType O.Offset command.0
        (items (map stored_item command.1.now)) };

    fn make(
        &self,
        alloc: Global,
        _entries: &Vec<Option<Entry<T, O>>>,
    ) -> Result<Option<Entry<T, O>>, Error> {
        if !items_fit(self.0, self.1) {
            return Ok(None);
        }
        Ok(Some(entry_from_items(alloc, self.0, self.1)?))
    }
}
