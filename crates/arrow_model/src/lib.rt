//! The model of a table of arrays and builders: its kinds, items, commands and replies, and what each command means.
#![tactic(auto)]

mod command;
mod item;
mod kind;
pub mod laws;
mod reply;

pub use command::{Bits, BothCommand, Command, Parts, Raw};
pub use item::{Change, Item, Turn};
pub use kind::Kind;
pub use reply::Reply;
