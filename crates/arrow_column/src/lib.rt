//! Columns: stored values and an optional mask. Arrays and builders of every kind are made of them.
#![tactic(auto)]

mod any_array;
mod change;
mod closures;
mod equality;
mod extend;
mod freeze;
mod frozen;
mod grow;
mod growing;
pub mod laws;
mod lend;
mod mask;
mod room;
mod text;
mod thaw;
mod unmasked;
mod values;

pub use any_array::Array;
pub use equality::EqualValues;
pub use frozen::FrozenColumn;
pub use growing::GrowingColumn;
pub use lend::LendValues;
pub use mask::{Mask, is_mask_of};
pub use room::ReserveItems;
pub use text::{WriteMutableValues, WriteValues, write_head};
pub use values::{
    Grow, GrowFrom, MutableValues, PushValue, Repeated, SetValue, StoredValues, Values,
};
