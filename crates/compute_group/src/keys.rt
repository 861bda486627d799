//! Slots as keys, which can be compared and hashed: what a grouping is written over.
ghost use Rattle.std.specs.Prelude.{◌≡◌, ◌<◌, List, Option, Some, length, slice_get};
ghost use Rattle.std.specs.Bool.{Decides};
ghost use Rattle.arrow_column.specs.Column.{slots_of};
ghost use Rattle.arrow_memory.specs.Rows.{slot};

use arrow_types::native_type::NativeType;
use compute_slots::HashSlots;
use std::hash::Hash;

/// A list of slots, the valid ones of which are keys.
pub(crate) trait Keys {
    /// The key of what a slot stores.
    type Key: Eq + Hash + Copy;

    /// What contracts see of a key.
    ghost Seen: { Type 0 };

    /// What contracts see of this key.
    ghost seen: { Self.Key → Seen };

    /// The slots in order.
    ghost slots: { Self → List (Option Seen) };

    /// Returns the number of slots.
    fn count(&self) -> usize
        ensures { result ≡ length (slots self.now) };

    /// Returns the key of what the slot at `i` stores, and whether the slot is valid. No branch
    /// depends on the mark.
    fn row(&self, i: usize) -> (Self::Key, bool)
        requires { i < length (slots self.now) }
        ensures { slice_get (slots self.now) i ≡ Some (slot (seen result.0, result.1)) };

    /// Keys are equal exactly if what contracts see of them is.
    ghost decides: { (x y : Self.Key) → Decides (Self.Key.eq x y) (seen x ≡ seen y) };
}

/// Returns the key of what the slot of an array at `i` stores, and whether the slot is valid. No branch depends on the
/// mark.
#[inline(always)]
pub(crate) fn key_at<'a, A: HashSlots<'a>>(array: &'a A, i: usize) -> (A::Key, bool)
    requires { i < length (A.column array.now).rows }
    ensures slot { slice_get (slots_of (A.column array.entry.now)) i ≡ Some (slot (A.key_seen result.0, result.1)) }
    ensures feeds { (x : A.Key) → A.Key.hash_input x ≡ A.input (A.key_seen x) }
{
    let key = A::to_key(array.value(i));
    (key, array.is_valid(i))
}

/// The slots of an array.
#[derive(Drop)]
pub(crate) struct ArraySlots<'a, A> {
    pub(crate) array: &'a A,
}

impl<'a, A: HashSlots<'a>> Keys for ArraySlots<'a, A> {
    ghost use Rattle.arrow_column.specs.Column.{slots_of};

    type Key = A::Key;

    ghost Seen = { A.Stored };

    ghost seen = { A.key_seen };

    ghost slots = { λ source. slots_of (A.column source.array.now) };

    #[inline(always)]
    fn count(&self) -> usize {
        self.array.len()
    }

    #[inline(always)]
    fn row(&self, i: usize) -> (A::Key, bool) {
        key_at(self.array, i)
    }

    ghost decides = { A.decides };
}

/// The values of an array, none of which is null.
#[derive(Clone, Copy)]
pub(crate) struct Values<'a, T> {
    pub(crate) values: &'a [T],
}

impl<'a, T: NativeType + Eq + Hash> Keys for Values<'a, T> {
    ghost use Rattle.std.specs.Prelude.{Some, map};

    type Key = T;

    ghost Seen = { T };

    ghost seen = { λ value. value };

    ghost slots = { λ source. map Some source.values.now };

    #[inline(always)]
    fn count(&self) -> usize {
        self.values.len()
    }

    #[inline(always)]
    fn row(&self, i: usize) -> (T, bool) {
        (self.values[i], true)
    }

    ghost decides = { T.same };
}
