//! Arrays whose values can be tested for equality and hashed, as keys of a grouping. Bytes and text of the same bytes
//! have the same hash.
ghost use Rattle.std.specs.Prelude.{◌≡◌, ℕ, List, nat_eq};
ghost use Rattle.std.proofs.Common.{ap};
ghost use Rattle.std.specs.Bool.{Decides};
ghost use Rattle.std.specs.Cmp.{on_equiv, on_per, partial_equiv_from_equiv};
ghost use Rattle.std.specs.Cmp.Lexicographic.{bytes_decides, nat_list_eq_equiv, pointwise};
ghost use Rattle.std.specs.Hash as fed;

use crate::borrow::BorrowSlots;
use arrow_boolean::BooleanArray;
use arrow_byte_array::ByteArray;
use arrow_bytes::{Binary, Utf8};
use arrow_primitive::PrimitiveArray;
use arrow_types::native_type::NativeType;
use arrow_types::offset::Offset;
use std::hash::{Hash, Hasher};

/// An array whose values can be tested for equality and hashed, as keys of a hash table.
pub trait HashSlots<'a>: BorrowSlots<'a> {
    /// A value as a key. Bytes are one of a type that hashes them as a text of the same bytes is.
    type Key: Eq + Hash + Copy;

    /// What contracts see of a key.
    ghost key_seen: { Self.Key → Self.Stored };

    /// What a value feeds to the hash function.
    ghost input: { Self.Stored → List (List ℕ) };

    /// Returns a value as a key. A key feeds to the hash function what its value does.
    fn to_key(value: Self::Value) -> Self::Key
        ensures seen { key_seen result ≡ Self.seen value }
        ensures feeds { (x : Self.Key) → Self.Key.hash_input x ≡ input (key_seen x) };

    /// Keys are equal exactly if what contracts see of them is.
    ghost decides: { (x y : Self.Key) → Decides (Self.Key.eq x y) (key_seen x ≡ key_seen y) };
}

/// The bytes of an item. They are hashed as those of a text are.
#[derive(Clone, Copy)]
pub struct ItemBytes<'a> {
    bytes: &'a [u8],
}

impl<'a> PartialEq for ItemBytes<'a> {
    ghost eq = { λ x y. pointwise nat_eq x.bytes.now y.bytes.now };

    ghost laws = { on_per (λ x. x.bytes.now) (partial_equiv_from_equiv nat_list_eq_equiv) };

    #[inline(always)]
    fn eq(&self, other: &Self) -> bool {
        self.bytes == other.bytes
    }
}

impl<'a> Eq for ItemBytes<'a> {
    ghost laws = { on_equiv (λ x. x.bytes.now) nat_list_eq_equiv };
}

impl<'a> Hash for ItemBytes<'a> {
    ghost hash_input = { λ x. fed.str x.bytes.now };

    ghost respects_eq = { λ x y same. ap fed.str ((bytes_decides x.bytes.now y.bytes.now).0 same) };

    #[inline(always)]
    fn hash<H: Hasher>(&self, state: &mut H) {
        state.write(self.bytes);
        state.write_u8(0xff);
    }
}

impl<'a, T: NativeType + Eq + Hash> HashSlots<'a> for PrimitiveArray<T> {
    type Key = T;

    ghost key_seen = { λ key. key };

    ghost input = { T.hash_input };

    #[inline(always)]
    fn to_key(value: T) -> T {
        value
    }

    ghost decides = { T.same };
}

impl<'a> HashSlots<'a> for BooleanArray {
    ghost use Rattle.std.specs.Cmp.{booleans_Decides};

    type Key = bool;

    ghost key_seen = { λ key. key };

    ghost input = { ⟦<bool as Hash>⟧.hash_input };

    #[inline(always)]
    fn to_key(value: bool) -> bool {
        value
    }

    ghost decides = { booleans_Decides };
}

impl<'a, O: Offset> HashSlots<'a> for ByteArray<Binary, O> {
    ghost use Rattle.std.specs.Prelude.{◌≡◌};
    ghost use Rattle.std.specs.Cmp.Lexicographic.{bytes_decides};
    ghost use Rattle.std.specs.Hash as fed;

    type Key = ItemBytes<'a>;

    ghost key_seen = { λ key. key.bytes.now };

    ghost input = { fed.str };

    #[inline(always)]
    fn to_key(value: &'a [u8]) -> ItemBytes<'a>
        ensures seen { result.bytes.now ≡ value.now }
        ensures feeds { (x : _) → ⟦<ItemBytes<'a> as Hash>⟧.hash_input x ≡ fed.str x.bytes.now }
    {
        ItemBytes { bytes: value }
    }

    ghost decides = { λ x y. bytes_decides x.bytes.now y.bytes.now };
}

impl<'a, O: Offset> HashSlots<'a> for ByteArray<Utf8, O> {
    ghost use Rattle.std.specs.Prelude.{◌≡◌};
    ghost use Rattle.std.specs.Cmp.Lexicographic.{bytes_decides};
    ghost use Rattle.std.specs.Hash as fed;

    type Key = &'a str;

    ghost key_seen = { λ key. key.now };

    ghost input = { fed.str };

    #[inline(always)]
    fn to_key(value: &'a str) -> &'a str
        ensures seen { result.now ≡ value.now }
        ensures feeds { (x : _) → ⟦<&'a str as Hash>⟧.hash_input x ≡ fed.str x.now }
    {
        value
    }

    ghost decides = { λ x y. bytes_decides x.now y.now };
}
