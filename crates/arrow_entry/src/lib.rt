//! The entries of a table: arrays and builders of ten kinds, seen as one value.
#![tactic(auto)]

mod entries;
mod entry;
mod extend;
mod fit;
mod freeze;
mod grow;
mod kind;
mod read;
mod slot;
mod turns;

pub use arrow_model::{Item, Kind, Turn};
pub use entries::{discard, discard_all, empty_entries, entry_at, replace};
pub use entry::Entry;
pub use extend::{push_items, push_slots};
pub use fit::{items_fit, slots_fit};
pub use freeze::frozen;
pub use slot::SlotRef;
