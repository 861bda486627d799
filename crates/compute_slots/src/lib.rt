//! The slots of arrays as kernels borrow them: their values, and the order, the equality and the hash of these. Kernels
//! are written once over these traits, for arrays of numbers, booleans, bytes and text.
#![tactic(auto)]

mod borrow;
mod bytes;
mod hash;
mod order;
mod values;

pub use borrow::{BorrowSlots, get_slot};
pub use hash::{HashSlots, ItemBytes};
pub use order::OrderSlots;
pub use values::ReadValues;
