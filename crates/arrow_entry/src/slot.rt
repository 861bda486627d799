//! What a slot stores, borrowed, so that a slot is listed without a copy.
ghost use Rattle.std.specs.Prelude.{◌≡◌, IfErr, IfOk, IsTrue};
ghost use Rattle.arrow_entry.specs.Slot.{stored_ref};
ghost use Rattle.arrow_model.specs.Item.{has_bytes, stored_item};

use arrow_model::Item;
use std::alloc::{AllocError, Global};

/// What a slot stores, borrowed from an array or a builder.
#[derive(Clone, Copy)]
pub enum SlotRef<'a, T> {
    /// A native value.
    Value(T),
    /// A boolean.
    Bit(bool),
    /// Bytes.
    Bytes(&'a [u8]),
    /// A text.
    Text(&'a str),
}

impl<'a, T> SlotRef<'a, T> {
    /// Returns the item, whose bytes are a copy.
    ///
    /// # Errors
    /// `AllocError` if the copy of bytes or of a text fails.
    pub fn to_item(self, alloc: Global) -> Result<Item<T>, AllocError>
        ensures ok { IfOk result (λ item. stored_item item ≡ stored_ref self.entry) }
        ensures err { IfErr result (λ _. IsTrue (has_bytes (stored_ref self.entry))) }
    {
        match self {
            SlotRef::Value(x) => Ok(Item::Value(x)),
            SlotRef::Bit(x) => Ok(Item::Bit(x)),
            SlotRef::Bytes(bytes) => Ok(Item::Bytes(Vec::from_slice(alloc, bytes)?)),
            SlotRef::Text(text) => Ok(Item::Text(String::from_str(alloc, text)?)),
        }
    }
}
