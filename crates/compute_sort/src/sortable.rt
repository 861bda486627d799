//! Arrays that a sort can return. Another kind of array is an `impl` here.
ghost use Rattle.std.specs.Prelude.{◌≡◌, IfOk, List, ℕ, length, pos};
ghost use Rattle.std.specs.declared.cmp.Ordering.{Ordering};
ghost use Rattle.arrow_types.specs.Failures.{OnlyOutOfMemory};
ghost use Rattle.arrow_bytes.specs.Pieces.{nothing_around};
ghost use Rattle.arrow_bytes.specs.Selection.{taken};
ghost use Rattle.arrow_column.specs.Column.{slots_of};
ghost use Rattle.compute_sort.specs.Sort.{AreSortedSlots, HasSlotsAt, PickOnce};

use crate::SortOptions;
use crate::select::limited_indexes;
use arrow_boolean::BooleanArray;
use arrow_byte_array::ByteArray;
use arrow_bytes::{Binary, ByteKind, Utf8};
use arrow_column::Array;
use arrow_kernels::{take_boolean, take_items, take_primitive};
use arrow_primitive::PrimitiveArray;
use arrow_types::error::Error;
use arrow_types::native_type::NativeType;
use arrow_types::offset::Offset;
use std::alloc::{AllocError, Global};

/// An array that can be sorted: its slots have an order, and can be taken at indexes.
pub trait SortableArray: Array {
    /// The order of two values: numbers have their own, false is less than true, and bytes and text have that of their
    /// unsigned bytes.
    ghost order: { Self.Stored → Self.Stored → Ordering };

    /// The array that a take makes of the slots at indexes.
    ghost take_at: { Self → List ℕ → Self };

    /// Returns the sorted indexes of all slots, up to a limit.
    ///
    /// # Errors
    /// If an allocation fails.
    fn sorted_indexes(
        &self,
        alloc: Global,
        options: SortOptions,
        limit: Option<usize>,
    ) -> Result<Vec<u64>, AllocError>
        ensures { IfOk result (λ indexes.
            AreSortedSlots options order (slots_of (Self.column self.now)) limit indexes.items) };

    /// Returns the array of the slots at indexes, each of which is there at most once.
    ///
    /// # Errors
    /// `OutOfMemory` if an allocation fails.
    fn take_indexes(&self, alloc: Global, indexes: &[u64]) -> Result<Self, Error>
        requires { PickOnce (length (slots_of (Self.column self.now))) indexes.now }
        ensures ok { IfOk result (λ made. made ≡ take_at self.now indexes.now) }
        ensures slots { IfOk result (λ made.
            HasSlotsAt (Self.column self.now) indexes.now (Self.column made)) }
        ensures err { OnlyOutOfMemory result };
}

impl<T: NativeType + Ord> SortableArray for PrimitiveArray<T> {
    ghost use Rattle.std.specs.Prelude.{pos};
    ghost use Rattle.arrow_bytes.specs.Selection.{taken};

    ghost order = { T.cmp };

    ghost take_at = { λ array keys. taken tt (λ key. pos key) array keys };

    fn sorted_indexes(
        &self,
        alloc: Global,
        options: SortOptions,
        limit: Option<usize>,
    ) -> Result<Vec<u64>, AllocError> {
        limited_indexes(alloc, self, options, limit)
    }

    fn take_indexes(&self, alloc: Global, indexes: &[u64]) -> Result<Self, Error> {
        // Called for its contract: the number of slots fits in a `usize`.
        self.len();
        take_primitive(alloc, self, indexes)
    }
}

impl SortableArray for BooleanArray {
    ghost use Rattle.std.specs.Prelude.{pos};
    ghost use Rattle.std.specs.Ordering.{bool_cmp};
    ghost use Rattle.arrow_bytes.specs.Selection.{taken};

    ghost order = { bool_cmp };

    ghost take_at = { λ array keys. taken tt (λ key. pos key) array keys };

    fn sorted_indexes(
        &self,
        alloc: Global,
        options: SortOptions,
        limit: Option<usize>,
    ) -> Result<Vec<u64>, AllocError> {
        limited_indexes(alloc, self, options, limit)
    }

    fn take_indexes(&self, alloc: Global, indexes: &[u64]) -> Result<Self, Error> {
        // Called for its contract: the number of slots fits in a `usize`.
        self.len();
        take_boolean(alloc, self, indexes)
    }
}

/// Returns the array of the slots at indexes, each of which is there at most once.
fn take_items_once<K: ByteKind, O: Offset>(
    alloc: Global,
    array: &ByteArray<K, O>,
    indexes: &[u64],
) -> Result<ByteArray<K, O>, Error>
    requires { PickOnce (length (slots_of array.now)) indexes.now }
    ensures ok { IfOk result (λ made. made ≡ taken nothing_around (λ key. pos key) array.now indexes.now) }
    ensures slots { IfOk result (λ made. HasSlotsAt array.now indexes.now made) }
    ensures err { OnlyOutOfMemory result }
{
    // Called for their contracts: the number of slots fits in a `usize`, and no item ends past the
    // greatest offset.
    array.len();
    array.offsets().last();
    take_items(alloc, array, indexes)
}

impl<O: Offset> SortableArray for ByteArray<Binary, O> {
    ghost use Rattle.std.specs.Prelude.{pos};
    ghost use Rattle.std.specs.Cmp.Lexicographic.{slice_cmp};
    ghost use Rattle.std.specs.Ordering.{nat_cmp};
    ghost use Rattle.arrow_bytes.specs.Pieces.{nothing_around};
    ghost use Rattle.arrow_bytes.specs.Selection.{taken};

    ghost order = { slice_cmp nat_cmp };

    ghost take_at = { λ array keys. taken nothing_around (λ key. pos key) array keys };

    fn sorted_indexes(
        &self,
        alloc: Global,
        options: SortOptions,
        limit: Option<usize>,
    ) -> Result<Vec<u64>, AllocError> {
        limited_indexes(alloc, self, options, limit)
    }

    fn take_indexes(&self, alloc: Global, indexes: &[u64]) -> Result<Self, Error> {
        take_items_once(alloc, self, indexes)
    }
}

impl<O: Offset> SortableArray for ByteArray<Utf8, O> {
    ghost use Rattle.std.specs.Prelude.{pos};
    ghost use Rattle.std.specs.Cmp.Lexicographic.{slice_cmp};
    ghost use Rattle.std.specs.Ordering.{nat_cmp};
    ghost use Rattle.arrow_bytes.specs.Pieces.{nothing_around};
    ghost use Rattle.arrow_bytes.specs.Selection.{taken};

    ghost order = { slice_cmp nat_cmp };

    ghost take_at = { λ array keys. taken nothing_around (λ key. pos key) array keys };

    fn sorted_indexes(
        &self,
        alloc: Global,
        options: SortOptions,
        limit: Option<usize>,
    ) -> Result<Vec<u64>, AllocError> {
        limited_indexes(alloc, self, options, limit)
    }

    fn take_indexes(&self, alloc: Global, indexes: &[u64]) -> Result<Self, Error> {
        take_items_once(alloc, self, indexes)
    }
}
