//! Arrays whose values have a total order, on which sorts and least and greatest values rest. `i256` and intervals have
//! none.
ghost use Rattle.std.specs.Prelude.{◌≡◌};
ghost use Rattle.std.specs.Cmp.{IsTotalOrder};
ghost use Rattle.std.specs.Cmp.Lexicographic.{slice_cmp};
ghost use Rattle.std.specs.Ordering.{is_lt, nat_cmp};
ghost use Rattle.std.specs.declared.cmp.Ordering.{Ordering};

use crate::borrow::BorrowSlots;
use crate::bytes::compare_bytes;
use arrow_boolean::BooleanArray;
use arrow_byte_array::ByteArray;
use arrow_bytes::{Binary, Utf8};
use arrow_primitive::PrimitiveArray;
use arrow_types::native_type::NativeType;
use arrow_types::offset::Offset;
use std::cmp::Ordering;

/// An array whose values have an order: numbers their own, false is less than true, and bytes and text have that of
/// their unsigned bytes.
pub trait OrderSlots<'a>: BorrowSlots<'a> {
    /// The order of two values.
    ghost order: { Self.Stored → Self.Stored → Ordering };

    /// Returns the order of two values.
    fn compare(&'a self, lhs: Self::Value, rhs: Self::Value) -> Ordering
        ensures { result ≡ order (Self.seen lhs) (Self.seen rhs) };

    /// Returns whether a value is less than another. This is a call of its own because `<` of numbers is one
    /// comparison.
    fn is_less(lhs: Self::Value, rhs: Self::Value) -> bool
        ensures { result ≡ is_lt (order (Self.seen lhs) (Self.seen rhs)) };

    /// The order is total.
    ghost total: { IsTotalOrder order };
}

impl<'a, T: NativeType + Ord> OrderSlots<'a> for PrimitiveArray<T> {
    ghost order = { T.cmp };

    #[inline(always)]
    fn compare(&'a self, lhs: T, rhs: T) -> Ordering {
        lhs.cmp(&rhs)
    }

    #[inline(always)]
    fn is_less(lhs: T, rhs: T) -> bool {
        lhs < rhs
    }

    ghost total = { T.total };
}

impl<'a> OrderSlots<'a> for BooleanArray {
    ghost use Rattle.std.specs.Cmp.{bool_cmp_total};
    ghost use Rattle.std.specs.Ordering.{bool_cmp};

    ghost order = { bool_cmp };

    #[inline(always)]
    fn compare(&'a self, lhs: bool, rhs: bool) -> Ordering {
        lhs.cmp(&rhs)
    }

    #[inline(always)]
    fn is_less(lhs: bool, rhs: bool) -> bool {
        !lhs && rhs
    }

    ghost total = { bool_cmp_total };
}

/// Returns whether bytes are less than others.
#[inline(always)]
fn are_less(lhs: &[u8], rhs: &[u8]) -> bool
    ensures { result ≡ is_lt (slice_cmp nat_cmp lhs.now rhs.now) }
{
    lhs.cmp(rhs).is_lt()
}

impl<'a, O: Offset> OrderSlots<'a> for ByteArray<Binary, O> {
    ghost use Rattle.std.specs.Prelude.{◌≡◌};
    ghost use Rattle.std.specs.Cmp.Lexicographic.{nat_list_cmp_total, slice_cmp};
    ghost use Rattle.std.specs.Ordering.{is_lt, nat_cmp};

    ghost order = { slice_cmp nat_cmp };

    #[inline(always)]
    fn compare(&'a self, lhs: &'a [u8], rhs: &'a [u8]) -> Ordering
        ensures { result ≡ slice_cmp nat_cmp lhs.now rhs.now }
    {
        compare_bytes(lhs, rhs)
    }

    #[inline(always)]
    fn is_less(lhs: &'a [u8], rhs: &'a [u8]) -> bool
        ensures { result ≡ is_lt (slice_cmp nat_cmp lhs.now rhs.now) }
    {
        are_less(lhs, rhs)
    }

    ghost total = { nat_list_cmp_total };
}

impl<'a, O: Offset> OrderSlots<'a> for ByteArray<Utf8, O> {
    ghost use Rattle.std.specs.Prelude.{◌≡◌};
    ghost use Rattle.std.specs.Cmp.Lexicographic.{nat_list_cmp_total, slice_cmp};
    ghost use Rattle.std.specs.Ordering.{is_lt, nat_cmp};

    ghost order = { slice_cmp nat_cmp };

    #[inline(always)]
    fn compare(&'a self, lhs: &'a str, rhs: &'a str) -> Ordering
        ensures { result ≡ slice_cmp nat_cmp lhs.now rhs.now }
    {
        compare_bytes(lhs.as_bytes(), rhs.as_bytes())
    }

    #[inline(always)]
    fn is_less(lhs: &'a str, rhs: &'a str) -> bool
        ensures { result ≡ is_lt (slice_cmp nat_cmp lhs.now rhs.now) }
    {
        are_less(lhs.as_bytes(), rhs.as_bytes())
    }

    ghost total = { nat_list_cmp_total };
}
