//! Slots and items that are appended to an entry one after the other.
ghost use Rattle.std.specs.Prelude.{IsTrue, Some, map};
ghost use Rattle.std.specs.List.{list_all};
ghost use Rattle.arrow_entry.specs.Entry.{ExtendsByAll, ExtendsUntilRefused, value_of};
ghost use Rattle.arrow_model.specs.Item.{fits, slot_fits, stored_item, stored_slot};
ghost use Rattle.arrow_model.specs.Kind.{is_builder, is_nullable};

use crate::{Entry, Item};
use arrow_types::error::Error;
use arrow_types::native_type::NativeType;
use arrow_types::offset::Offset;

/// Appends slots, each of which fits, until one is refused.
///
/// # Errors
/// `Overflow` if offsets can't express the end of one, or else `OutOfMemory`; those before it are then appended.
pub fn push_slots<T: NativeType, O: Offset>(
    entry: &mut Entry<T, O>,
    slots: &[Option<Item<T>>],
) -> Result<(), Error>
    requires nullable { IsTrue (is_nullable (value_of entry.old).shape) }
    requires fit { IsTrue (list_all (slot_fits (value_of entry.old).shape.value_kind) (map stored_slot slots.now)) }
    ensures ok { ExtendsByAll T.NativeType O.Offset result entry.old (map stored_slot slots.now) entry.new }
    ensures err { ExtendsUntilRefused T.NativeType O.Offset result entry.old (map stored_slot slots.now) entry.new }
{
    let mut rest = slots;
    while let Some((slot, others)) = rest.split_first() {
        match entry.push_slot(slot) {
            Ok(()) => rest = others,
            Err(refused) => return Err(refused),
        }
    }
    Ok(())
}

/// Appends items, each of which fits, until one is refused.
///
/// # Errors
/// `Overflow` if offsets can't express the end of one, or else `OutOfMemory`; those before it are then appended.
pub fn push_items<T: NativeType, O: Offset>(
    entry: &mut Entry<T, O>,
    items: &[Item<T>],
) -> Result<(), Error>
    requires builder { IsTrue (is_builder (value_of entry.old).shape) }
    requires fit { IsTrue (list_all (fits (value_of entry.old).shape.value_kind) (map stored_item items.now)) }
    ensures ok { ExtendsByAll T.NativeType O.Offset result entry.old (map Some (map stored_item items.now)) entry.new }
    ensures err { ExtendsUntilRefused T.NativeType O.Offset result entry.old (map Some (map stored_item items.now))
        entry.new }
{
    let mut rest = items;
    while let Some((item, others)) = rest.split_first() {
        match entry.push_item(item) {
            Ok(()) => rest = others,
            Err(refused) => return Err(refused),
        }
    }
    Ok(())
}
