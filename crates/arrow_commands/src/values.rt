//! Commands that replace or change stored values, or a slot. The code of each is proved against its case in
//! `Step.antt`, which says for which kinds it is.
ghost use Rattle.std.specs.Prelude.{◌<◌, ◌≡◌, IfOk, IfSome, IsTrue, OnOk, Some, is_some, length, map, option_map};
ghost use Rattle.std.specs.Prelude.{replicate, reverse, slice_set};
ghost use Rattle.std.specs.Bool.{OnFalse};
ghost use Rattle.std.specs.List.{list_all};
ghost use Rattle.arrow_types.specs.Failures.{OnlyOutOfMemory, OutOfMemoryKeeps};
ghost use Rattle.arrow_column.specs.Column.{stored_values, with_stored};
ghost use Rattle.arrow_commands.specs.ValueSteps.{CanReplace, StepOfHeld};
ghost use Rattle.arrow_entry.specs.Entry.{value_of};
ghost use Rattle.arrow_model.specs.Item.{bit, can_replace, change_of, fits, slot_fits, stored_item, stored_slot, value};
ghost use Rattle.arrow_model.specs.Kind.{boolean, native, shape};
ghost use Rattle.arrow_model.specs.Request as ask;

use crate::command::UpdatesEntry;
use arrow_boolean::BooleanArray;
use arrow_column::LendValues;
use arrow_entry::{Entry, items_fit};
use arrow_memory::bitmap::MutableBitmap;
use arrow_memory::buffer::Buffer;
use arrow_model::{Change, Item, Kind, Reply};
use arrow_primitive::{MutablePrimitiveArray, PrimitiveArray};
use arrow_types::error::Error;
use arrow_types::native_type::NativeType;
use arrow_types::offset::Offset;
use std::alloc::Global;

/// Returns whether there are `count` items, all of which fit a kind.
fn all_fit<T: NativeType>(kind: Kind, items: &[Item<T>], count: usize) -> bool
    ensures { result ≡ can_replace (shape kind).value_kind count (map stored_item items.now) }
{
    if items.len() != count {
        return false;
    }
    items_fit(kind, items)
}

/// Returns the native values that items are.
///
/// # Errors
/// `OutOfMemory` if an allocation fails.
fn natives<T: NativeType>(alloc: Global, items: &[Item<T>]) -> Result<Vec<T>, Error>
    requires { IsTrue (list_all (fits native) (map stored_item items.now)) }
    ensures ok { IfOk result (λ values. map value values.items ≡ map stored_item items.now) }
    ensures err { OnlyOutOfMemory result }
{
    let mut values = Vec::with_capacity(alloc, items.len())?;
    let mut rest = items;
    while let Some((item, others)) = rest.split_first() {
        match item {
            Item::Value(x) => values.push(*x)?,
            _ => unreachable!(),
        }
        rest = others;
    }
    Ok(values)
}

/// Returns the booleans that items are.
///
/// # Errors
/// `OutOfMemory` if an allocation fails.
fn bits<T>(alloc: Global, items: &[Item<T>]) -> Result<MutableBitmap, Error>
    requires { IsTrue (list_all (fits boolean) (map stored_item items.now)) }
    ensures ok { IfOk result (λ bits. map bit bits ≡ map stored_item items.now) }
    ensures err { OnlyOutOfMemory result }
{
    let mut bits = MutableBitmap::with_capacity(alloc, items.len())?;
    let mut rest = items;
    while let Some((item, others)) = rest.split_first() {
        match item {
            Item::Bit(x) => bits.push(*x)?,
            _ => unreachable!(),
        }
        rest = others;
    }
    Ok(bits)
}

/// Replaces the stored values of an entry by as many items, which fit its kind. The condition fails if the entry is not
/// of native values, nor an array of booleans.
///
/// # Errors
/// `OutOfMemory` if an allocation fails; the entry is then as before.
#[tactic(auto, using(arrow_entry::proofs::CallerLemmas::seen_reads, arrow_entry::proofs::CallerLemmas::seen_changes))]
fn replace_values<T: NativeType, O: Offset>(
    alloc: Global,
    entry: &mut Entry<T, O>,
    items: &[Item<T>],
) -> Result<Reply<T>, Error>
    requires { CanReplace entry.old (map stored_item items.now) }
    ensures { StepOfHeld T.NativeType O.Offset (ask.set_values (map stored_item items.now)) entry.old result entry.new }
{
    match entry {
        Entry::Primitive(array) => array.set_values(Buffer::from_vec(natives(alloc, items)?)?),
        Entry::MutablePrimitive(builder) => builder.set_values(natives(alloc, items)?),
        Entry::Boolean(array) => array.set_values(bits(alloc, items)?.freeze()?),
        _ => return Ok(Reply::NotMet),
    }
    Ok(Reply::Done)
}

/// Replaces the stored values.
#[derive(Drop)]
pub struct SetValues<'a, T>(pub &'a [Item<T>]);

impl<'a, T: NativeType, O: Offset> UpdatesEntry<T, O> for SetValues<'a, T> {
    ghost use Rattle.std.specs.Prelude.{map};
    ghost use Rattle.arrow_model.specs.Item.{stored_item};
    ghost use Rattle.arrow_model.specs.Request.{set_values};

    ghost asks = { λ command. set_values (map stored_item command.0.now) };

    fn update(&self, alloc: Global, entry: &mut Entry<T, O>) -> Result<Reply<T>, Error> {
        if !all_fit(entry.kind(), self.0, entry.len()) {
            return Ok(Reply::NotMet);
        }
        replace_values(alloc, entry, self.0)
    }
}

/// Returns as many values, all of them `x`.
fn filled<T: NativeType>(mut values: Vec<T>, x: T) -> Vec<T>
    ensures { result.items ≡ replicate (length values.items) x }
{
    for i in 0..values.len() {
        values[i] = x;
    }
    values
}

/// Returns as many marks, all of them `mark`.
fn filled_marks(mut marks: MutableBitmap, mark: bool) -> MutableBitmap
    ensures { result ≡ replicate (length marks) mark }
{
    for i in 0..marks.len() {
        marks.set(i, mark);
    }
    marks
}

/// Returns the same marks in reverse order.
#[tactic(auto, using(crate::proofs::ValueLists::turns))]
fn reversed_marks(mut marks: MutableBitmap) -> MutableBitmap
    ensures { result ≡ reverse marks }
{
    let count = marks.len();
    for i in 0..count / 2 {
        let j = count - 1 - i;
        let first = marks.get(i);
        let last = marks.get(j);
        marks.set(i, last);
        marks.set(j, first);
    }
    marks
}

/// Gives every slot of a builder the same stored value.
fn fill_values<T: NativeType>(builder: &mut MutablePrimitiveArray<T>, x: T)
    ensures { builder.new ≡ with_stored builder.old (replicate (length (stored_values builder.old)) x) }
{
    builder.apply_values(|values| filled(values, x))
}

/// Reverses a builder's stored values.
fn reverse_values<T: NativeType>(builder: &mut MutablePrimitiveArray<T>)
    ensures { builder.new ≡ with_stored builder.old (reverse (stored_values builder.old)) }
{
    builder.apply_values(|mut values| {
        values.reverse();
        values
    })
}

/// Gives every slot of an array the same stored value.
///
/// # Errors
/// `OutOfMemory` if an allocation fails; the array is then as before.
fn fill_bits(array: &mut BooleanArray, x: bool) -> Result<(), Error>
    ensures ok { OnOk result (array.new ≡ with_stored array.old (replicate (length (stored_values array.old)) x)) }
    ensures err { OutOfMemoryKeeps result array.old array.new }
{
    array.apply_values_mut(|marks| filled_marks(marks, x))
}

/// Reverses an array's stored values.
///
/// # Errors
/// `OutOfMemory` if an allocation fails; the array is then as before.
fn reverse_bits(array: &mut BooleanArray) -> Result<(), Error>
    ensures ok { OnOk result (array.new ≡ with_stored array.old (reverse (stored_values array.old))) }
    ensures err { OutOfMemoryKeeps result array.old array.new }
{
    array.apply_values_mut(|marks| reversed_marks(marks))
}

/// Changes the stored values of a builder of native values, or of a boolean array: all become equal, or are reversed.
#[derive(Drop)]
pub struct ApplyValues<'a, T>(pub &'a Change<T>);

#[tactic(auto, using(arrow_entry::proofs::CallerLemmas::seen_reads, arrow_entry::proofs::CallerLemmas::seen_changes, crate::proofs::ValueLists::seen_turns))]
impl<'a, T: NativeType, O: Offset> UpdatesEntry<T, O> for ApplyValues<'a, T> {
    ghost use Rattle.arrow_model.specs.Item.{change_of};
    ghost use Rattle.arrow_model.specs.Request.{apply_values};

    ghost asks = { λ command. apply_values (change_of command.0.now) };

    fn update(&self, _alloc: Global, entry: &mut Entry<T, O>) -> Result<Reply<T>, Error> {
        match (entry, self.0) {
            (Entry::MutablePrimitive(builder), Change::Fill(Item::Value(x))) => {
                fill_values(builder, *x)
            }
            (Entry::MutablePrimitive(builder), Change::Reverse) => reverse_values(builder),
            (Entry::Boolean(array), Change::Fill(Item::Bit(x))) => fill_bits(array, *x)?,
            (Entry::Boolean(array), Change::Reverse) => reverse_bits(array)?,
            _ => return Ok(Reply::NotMet),
        }
        Ok(Reply::Done)
    }
}

/// Returns a slot of a native value, if it is one.
fn native_slot<T: NativeType>(slot: &Option<Item<T>>) -> Option<Option<T>>
    ensures fits { slot_fits native (stored_slot slot.now) ≡ is_some result }
    ensures value { IfSome result (λ x. stored_slot slot.now ≡ option_map value x) }
{
    match slot {
        None => Some(None),
        Some(Item::Value(x)) => Some(Some(*x)),
        _ => None,
    }
}

/// Returns a slot of a boolean, if it is one.
fn bit_slot<T: NativeType>(slot: &Option<Item<T>>) -> Option<Option<bool>>
    ensures fits { slot_fits boolean (stored_slot slot.now) ≡ is_some result }
    ensures value { IfSome result (λ x. stored_slot slot.now ≡ option_map bit x) }
{
    match slot {
        None => Some(None),
        Some(Item::Bit(x)) => Some(Some(*x)),
        _ => None,
    }
}

/// Replaces the slot at an index of a builder of native values or booleans.
///
/// # Errors
/// `OutOfMemory` if an allocation fails; the builder is then as before.
#[tactic(auto, using(arrow_entry::proofs::CallerLemmas::seen_reads, arrow_entry::proofs::CallerLemmas::seen_changes))]
fn set_slot<T: NativeType, O: Offset>(
    entry: &mut Entry<T, O>,
    i: usize,
    slot: &Option<Item<T>>,
) -> Result<Reply<T>, Error>
    requires { i < length (value_of entry.old).column.rows }
    ensures { StepOfHeld T.NativeType O.Offset (ask.set i (stored_slot slot.now)) entry.old result entry.new }
{
    match entry {
        Entry::MutablePrimitive(builder) => match native_slot(slot) {
            Some(slot) => builder.set(i, slot)?,
            None => return Ok(Reply::NotMet),
        },
        Entry::MutableBoolean(builder) => match bit_slot(slot) {
            Some(slot) => builder.set(i, slot)?,
            None => return Ok(Reply::NotMet),
        },
        _ => return Ok(Reply::NotMet),
    }
    Ok(Reply::Done)
}

/// Replaces the slot at an index of a builder of native values or booleans.
#[derive(Drop)]
pub struct Set<'a, T>(pub usize, pub &'a Option<Item<T>>);

impl<'a, T: NativeType, O: Offset> UpdatesEntry<T, O> for Set<'a, T> {
    ghost use Rattle.arrow_model.specs.Item.{stored_slot};
    ghost use Rattle.arrow_model.specs.Request.{set};

    ghost asks = { λ command. set command.0 (stored_slot command.1.now) };

    fn update(&self, _alloc: Global, entry: &mut Entry<T, O>) -> Result<Reply<T>, Error> {
        if self.0 >= entry.len() {
            return Ok(Reply::NotMet);
        }
        set_slot(entry, self.0, self.1)
    }
}

/// Writes a stored value of an array if the values are not shared, and returns whether it did.
fn write_over<T: NativeType>(array: &mut PrimitiveArray<T>, i: usize, x: T) -> bool
    requires { i < length array.old.rows }
    ensures changed { IsTrue result → array.new ≡ with_stored array.old (slice_set (stored_values array.old) i x) }
    ensures unchanged { OnFalse result (array.new ≡ array.old) }
{
    array.get_mut_values(|values| values[i] = x)
}

/// Writes a stored value of a builder.
fn write_to<T: NativeType>(builder: &mut MutablePrimitiveArray<T>, i: usize, x: T)
    requires { i < length builder.old.rows }
    ensures { builder.new ≡ with_stored builder.old (slice_set (stored_values builder.old) i x) }
{
    builder.values_mut_slice()[i] = x;
}

/// Writes the stored value at an index of native values.
#[tactic(auto, using(arrow_entry::proofs::CallerLemmas::seen_reads, arrow_entry::proofs::CallerLemmas::seen_changes, crate::proofs::ValueLists::seen_lists))]
fn write_item<T: NativeType, O: Offset>(
    entry: &mut Entry<T, O>,
    i: usize,
    item: &Item<T>,
) -> Result<Reply<T>, Error>
    requires { i < length (value_of entry.old).column.rows }
    ensures { StepOfHeld T.NativeType O.Offset (ask.write i (stored_item item.now)) entry.old result entry.new }
{
    let Item::Value(x) = item else {
        return Ok(Reply::NotMet);
    };
    match entry {
        Entry::Primitive(array) => {
            if !write_over(array, i, *x) {
                return Ok(Reply::NotGiven);
            }
        }
        Entry::MutablePrimitive(builder) => write_to(builder, i, *x),
        _ => return Ok(Reply::NotMet),
    }
    Ok(Reply::Done)
}

/// Writes the stored value at an index of native values.
#[derive(Drop)]
pub struct Write<'a, T>(pub usize, pub &'a Item<T>);

impl<'a, T: NativeType, O: Offset> UpdatesEntry<T, O> for Write<'a, T> {
    ghost use Rattle.arrow_model.specs.Item.{stored_item};
    ghost use Rattle.arrow_model.specs.Request.{write};

    ghost asks = { λ command. write command.0 (stored_item command.1.now) };

    fn update(&self, _alloc: Global, entry: &mut Entry<T, O>) -> Result<Reply<T>, Error> {
        if self.0 >= entry.len() {
            return Ok(Reply::NotMet);
        }
        write_item(entry, self.0, self.1)
    }
}
