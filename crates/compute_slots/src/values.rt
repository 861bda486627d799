//! Arrays whose values can be read without the array, so that a loop keeps in registers where they lie.
ghost use Rattle.std.specs.Prelude.{◌≡◌, ◌<◌, List, Some, length, slice_get};
ghost use Rattle.arrow_column.specs.Column.{stored_values};

use crate::borrow::BorrowSlots;
use arrow_boolean::BooleanArray;
use arrow_byte_array::ByteArray;
use arrow_bytes::{Binary, Utf8};
use arrow_primitive::PrimitiveArray;
use arrow_types::native_type::NativeType;
use arrow_types::offset::Offset;

/// An array whose values can be read without the array: those of numbers from their slice, which a loop keeps in
/// registers.
pub trait ReadValues<'a>: BorrowSlots<'a> {
    /// What the values are read from: of numbers their slice, of others the array.
    type Values: Copy;

    /// The stored values.
    ghost stored: { Self.Values → List Self.Stored };

    /// Returns what the values are read from.
    fn stored_values(&'a self) -> Self::Values
        ensures { stored result ≡ stored_values (Self.column self.now) };

    /// Returns the value stored at `i`, also if the slot is null.
    fn stored_value(values: Self::Values, i: usize) -> Self::Value
        requires { i < length (stored values) }
        ensures { slice_get (stored values) i ≡ Some (Self.seen result) };
}

impl<'a, T: NativeType + 'a> ReadValues<'a> for PrimitiveArray<T> {
    type Values = &'a [T];

    ghost stored = { λ values. values.now };

    #[inline(always)]
    fn stored_values(&'a self) -> &'a [T] {
        self.values().as_slice()
    }

    #[inline(always)]
    fn stored_value(values: &'a [T], i: usize) -> T {
        values[i]
    }
}

impl<'a> ReadValues<'a> for BooleanArray {
    ghost use Rattle.arrow_column.specs.Column.{stored_values};

    type Values = &'a Self;

    ghost stored = { λ values. stored_values values.now };

    #[inline(always)]
    fn stored_values(&'a self) -> &'a Self {
        self
    }

    #[inline(always)]
    fn stored_value(values: &'a Self, i: usize) -> bool {
        values.value(i)
    }
}

impl<'a, O: Offset + 'a> ReadValues<'a> for ByteArray<Binary, O> {
    ghost use Rattle.std.specs.Prelude.{◌≡◌, ◌<◌, Some, length, slice_get};
    ghost use Rattle.arrow_column.specs.Column.{stored_values};

    type Values = &'a Self;

    ghost stored = { λ values. stored_values values.now };

    #[inline(always)]
    fn stored_values(&'a self) -> &'a Self {
        self
    }

    #[inline(always)]
    fn stored_value(values: &'a Self, i: usize) -> &'a [u8] {
        values.value(i)
    }
}

impl<'a, O: Offset + 'a> ReadValues<'a> for ByteArray<Utf8, O> {
    ghost use Rattle.std.specs.Prelude.{◌≡◌, ◌<◌, Some, length, slice_get};
    ghost use Rattle.arrow_column.specs.Column.{stored_values};

    type Values = &'a Self;

    ghost stored = { λ values. stored_values values.now };

    #[inline(always)]
    fn stored_values(&'a self) -> &'a Self {
        self
    }

    #[inline(always)]
    fn stored_value(values: &'a Self, i: usize) -> &'a str {
        values.value(i)
    }
}
