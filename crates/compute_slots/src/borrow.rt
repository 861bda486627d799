//! Arrays whose stored values can be borrowed: sorts, groups, hashes and aggregates are written once over
//! `BorrowSlots`. The trait is sealed, so that another kind of array is an `impl` here.
ghost use Rattle.std.specs.Prelude.{◌≡◌, ◌<◌, Some, length, option_map, slice_get};
ghost use Rattle.arrow_column.specs.Column.{slots_of, stored_values};

use arrow_boolean::BooleanArray;
use arrow_byte_array::ByteArray;
use arrow_bytes::{Binary, ByteKind, Utf8};
use arrow_column::Array;
use arrow_primitive::PrimitiveArray;
use arrow_types::native_type::NativeType;
use arrow_types::offset::Offset;

// Only the arrays of this library implement the traits, so that a function can be added to one.
mod sealed {
    pub trait Sealed {}
}

/// An array whose stored values can be borrowed: numbers and booleans are copied, bytes and text are not.
pub trait BorrowSlots<'a>: Array + sealed::Sealed {
    /// A borrowed value.
    type Value: Copy;

    /// What contracts see of a borrowed value.
    ghost seen: { Self.Value → Self.Stored };

    /// Returns the value stored at `i`, also if the slot is null.
    fn value(&'a self, i: usize) -> Self::Value
        requires { i < length (Self.column self.now).rows }
        ensures { slice_get (stored_values (Self.column self.now)) i ≡ Some (seen result) };
}

/// Returns the slot of an array at `i`: its value, or `None` if it is null.
#[inline(always)]
pub fn get_slot<'a, A: BorrowSlots<'a>>(array: &'a A, i: usize) -> Option<A::Value>
    requires { i < length (A.column array.now).rows }
    ensures { slice_get (slots_of (A.column array.entry.now)) i ≡ Some (option_map A.seen result) }
{
    if array.is_null(i) {
        return None;
    }
    Some(array.value(i))
}

impl<T: NativeType> sealed::Sealed for PrimitiveArray<T> {}

impl sealed::Sealed for BooleanArray {}

impl<K: ByteKind, O: Offset> sealed::Sealed for ByteArray<K, O> {}

impl<'a, T: NativeType> BorrowSlots<'a> for PrimitiveArray<T> {
    type Value = T;

    ghost seen = { λ value. value };

    #[inline(always)]
    fn value(&'a self, i: usize) -> T {
        self.value(i)
    }
}

impl<'a> BorrowSlots<'a> for BooleanArray {
    type Value = bool;

    ghost seen = { λ value. value };

    #[inline(always)]
    fn value(&'a self, i: usize) -> bool {
        self.value(i)
    }
}

impl<'a, O: Offset> BorrowSlots<'a> for ByteArray<Binary, O> {
    ghost use Rattle.std.specs.Prelude.{◌≡◌, ◌<◌, Some, length, slice_get};
    ghost use Rattle.arrow_column.specs.Column.{stored_values};

    type Value = &'a [u8];

    ghost seen = { λ item. item.now };

    #[inline(always)]
    fn value(&'a self, i: usize) -> &'a [u8]
        requires { i < length self.now.rows }
        ensures { slice_get (stored_values self.now) i ≡ Some result.now }
    {
        self.value(i)
    }
}

impl<'a, O: Offset> BorrowSlots<'a> for ByteArray<Utf8, O> {
    ghost use Rattle.std.specs.Prelude.{◌≡◌, ◌<◌, Some, length, slice_get};
    ghost use Rattle.arrow_column.specs.Column.{stored_values};

    type Value = &'a str;

    ghost seen = { λ item. item.now };

    #[inline(always)]
    fn value(&'a self, i: usize) -> &'a str
        requires { i < length self.now.rows }
        ensures { slice_get (stored_values self.now) i ≡ Some result.now }
    {
        self.value(i)
    }
}
