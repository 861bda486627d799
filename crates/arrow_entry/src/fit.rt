//! Whether items and slots fit a kind: native values, booleans, bytes or text.
ghost use Rattle.std.specs.Prelude.{◌≡◌, map};
ghost use Rattle.std.specs.List.{list_all};
ghost use Rattle.arrow_model.specs.Item.{fits, slot_fits, stored_item, stored_slot};
ghost use Rattle.arrow_model.specs.Kind.{shape};

use crate::{Item, Kind};
use arrow_types::native_type::NativeType;

/// Returns whether an item fits a kind: whether it is what the kind's slots store.
fn item_fits<T: NativeType>(kind: Kind, item: &Item<T>) -> bool
    ensures { result ≡ fits (shape kind).value_kind (stored_item item.now) }
{
    match item {
        Item::Value(_) => matches!(kind, Kind::Primitive | Kind::MutablePrimitive),
        Item::Bit(_) => matches!(kind, Kind::Boolean | Kind::MutableBoolean),
        Item::Bytes(_) => matches!(
            kind,
            Kind::Binary | Kind::MutableBinary | Kind::BinaryValues
        ),
        Item::Text(_) => matches!(kind, Kind::Utf8 | Kind::MutableUtf8 | Kind::Utf8Values),
    }
}

/// Returns whether a slot is null or its item fits a kind.
fn fits_in<T: NativeType>(kind: Kind, slot: &Option<Item<T>>) -> bool
    ensures { result ≡ slot_fits (shape kind).value_kind (stored_slot slot.now) }
{
    match slot {
        Some(item) => item_fits(kind, item),
        None => true,
    }
}

/// Returns whether each slot is null or its item fits a kind.
pub fn slots_fit<T: NativeType>(kind: Kind, slots: &[Option<Item<T>>]) -> bool
    ensures { result ≡ list_all (slot_fits (shape kind).value_kind) (map stored_slot slots.now) }
{
    let mut rest = slots;
    while let Some((slot, others)) = rest.split_first() {
        if !fits_in(kind, slot) {
            return false;
        }
        rest = others;
    }
    true
}

/// Returns whether each item fits a kind.
pub fn items_fit<T: NativeType>(kind: Kind, items: &[Item<T>]) -> bool
    ensures { result ≡ list_all (fits (shape kind).value_kind) (map stored_item items.now) }
{
    let mut rest = items;
    while let Some((item, others)) = rest.split_first() {
        if !item_fits(kind, item) {
            return false;
        }
        rest = others;
    }
    true
}
