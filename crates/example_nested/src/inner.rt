//! Inner arrays: the arrays that lists and dictionaries are made over. An array of a user's own takes part by the same
//! two traits.
ghost use Rattle.std.specs.Prelude.{◌≡◌, ◌<◌, List, Option, Some, length, option_map, slice_get};

use dethrugn::array::{Binary, BooleanArray, ByteArray, ByteKind, PrimitiveArray, Utf8};
use dethrugn::buffer::Buffer;
use dethrugn::offset::Offset;
use dethrugn::types::NativeType;

/// An array whose slots contracts see as a list.
pub trait InnerArray: Drop {
    /// What contracts see of a value.
    type Seen: Drop;

    /// The slots in order.
    ghost slots: { Self → List (Option Self.Seen) };

    /// Returns the number of slots.
    fn len(&self) -> usize
        ensures { result ≡ length (slots self.now) };
}

/// An inner array whose slots can be borrowed.
pub trait BorrowSlots<'a>: InnerArray {
    /// A borrowed value.
    type Item: Drop;

    /// What contracts see of this value.
    ghost seen: { Self.Item → Self.Seen };

    /// Returns the slot at `i`: its value, or `None` if it is null.
    fn slot(&'a self, i: usize) -> Option<Self::Item>
        requires { i < length (Self.slots self.now) }
        ensures { slice_get (Self.slots self.now) i ≡ Some (option_map seen result) };
}

impl<T: NativeType> InnerArray for PrimitiveArray<T> {
    ghost use Rattle.dethrugn.specs.Column.{slots_of};

    type Seen = T;

    ghost slots = { slots_of };

    #[inline(always)]
    fn len(&self) -> usize {
        self.len()
    }
}

impl<'a, T: NativeType> BorrowSlots<'a> for PrimitiveArray<T> {
    type Item = T;

    ghost seen = { λ value. value };

    #[inline(always)]
    fn slot(&'a self, i: usize) -> Option<T> {
        self.get(i)
    }
}

impl InnerArray for BooleanArray {
    ghost use Rattle.dethrugn.specs.Column.{slots_of};

    type Seen = bool;

    ghost slots = { slots_of };

    #[inline(always)]
    fn len(&self) -> usize {
        self.len()
    }
}

impl<'a> BorrowSlots<'a> for BooleanArray {
    type Item = bool;

    ghost seen = { λ value. value };

    #[inline(always)]
    fn slot(&'a self, i: usize) -> Option<bool> {
        self.get(i)
    }
}

impl<K: ByteKind, O: Offset> InnerArray for ByteArray<K, O> {
    ghost use Rattle.dethrugn.specs.Column.{slots_of};

    // Contracts see the bytes of an item as those of a buffer.
    type Seen = Buffer<u8>;

    ghost slots = { slots_of };

    #[inline(always)]
    fn len(&self) -> usize {
        self.len()
    }
}

impl<'a, O: Offset> BorrowSlots<'a> for ByteArray<Binary, O> {
    type Item = &'a [u8];

    ghost seen = { λ item. item.now };

    #[inline(always)]
    fn slot(&'a self, i: usize) -> Option<&'a [u8]> {
        self.get(i)
    }
}

impl<'a, O: Offset> BorrowSlots<'a> for ByteArray<Utf8, O> {
    type Item = &'a str;

    ghost seen = { λ item. item.now };

    #[inline(always)]
    fn slot(&'a self, i: usize) -> Option<&'a str> {
        self.get(i)
    }
}
