//! Arrays that lend their items: the bound of [`crate::values_iter`], which a user's array can meet.
ghost use Rattle.std.specs.Prelude.{◌≡◌, ◌<◌, List, length, slice_get, Some};

use std::marker::Model;

/// An array that lends its items.
pub trait ArrayAccessor<'a> {
    /// The type of a lent item.
    type Item: 'a;

    /// What contracts see of an item.
    ghost Seen: { Type 0 };

    /// What contracts see of this item.
    ghost seen: { Self.Item → Seen };

    /// The items in order.
    ghost items: { Self → List Seen };

    /// Returns the item at `index`.
    fn value(&'a self, index: usize) -> Self::Item
        requires { index < length (items self.now) }
        ensures { slice_get (items self.now) index ≡ Some (seen result) };

    /// Returns the number of items.
    fn len(&self) -> usize
        ensures { result ≡ length (items self.now) };
}

/// What contracts see of an item of bytes or of text: its bytes. It names a type; no call makes
/// one.
#[derive(Drop)]
pub struct Bytes {
    bytes: Vec<u8>,
}

impl Model for Bytes {
    ghost use Rattle.std.specs.Prelude.{List, ℕ};

    ghost Value = { List ℕ };

    ghost view = { λ seen. seen.bytes.items };
}
