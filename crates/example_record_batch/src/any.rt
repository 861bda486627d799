//! An array of one of four kinds. Its functions go by cases, and so do the definitions that their contracts cite.
//! README.md says what another kind needs.
ghost use Rattle.std.specs.Prelude.{◌≡◌, ◌<◌, length, not, slice_get, None, Some, IfOk};
ghost use Rattle.dethrugn.specs.Failures.{OnlyOutOfMemory};
ghost use Rattle.example_record_batch.specs.AnyArrays.{FitsAnyCut, any_cut, any_filtered, array_kind, nulls_of};
ghost use Rattle.example_record_batch.specs.AnyArrays.{slot_count, array_type, validity_of};
ghost use Rattle.dethrugn.specs.Sort.{HoldsSorted, PickOnce};
ghost use Rattle.dethrugn.specs.Types.{IsRightType, logical_type};
ghost use Rattle.example_record_batch.specs.Taking.{any_order, any_taken};

use dethrugn::array::{BinaryArray, BooleanArray, PrimitiveArray, UInt64Array, Utf8Array};
use dethrugn::compute::filter::{filter_binary, filter_boolean, filter_primitive, filter_utf8};
use dethrugn::compute::sort::{SortOptions, SortableArray, sort_to_indices};
use dethrugn::datatypes;
use dethrugn::error::Error;
use std::alloc::Global;

/// An array of one of four kinds.
#[derive(Drop)]
pub enum AnyArray {
    /// Numbers.
    Int64(PrimitiveArray<i64>),
    /// Booleans.
    Boolean(BooleanArray),
    /// Bytes.
    Binary(BinaryArray<i32>),
    /// Text.
    Utf8(Utf8Array<i32>),
}

impl AnyArray {
    /// Returns the number of slots.
    pub fn len(&self) -> usize
        ensures { result ≡ slot_count self.now }
    {
        match self {
            AnyArray::Int64(array) => array.len(),
            AnyArray::Boolean(array) => array.len(),
            AnyArray::Binary(array) => array.len(),
            AnyArray::Utf8(array) => array.len(),
        }
    }

    /// Returns the data type.
    pub fn data_type(&self) -> &datatypes::DataType
        ensures value { logical_type result.now ≡ array_type self.now }
        ensures right { IsRightType (array_kind self.now) (array_type self.now) }
    {
        match self {
            AnyArray::Int64(array) => array.data_type(),
            AnyArray::Boolean(array) => array.data_type(),
            AnyArray::Binary(array) => array.data_type(),
            AnyArray::Utf8(array) => array.data_type(),
        }
    }

    /// Returns whether the slot at `i` is null.
    pub fn is_null(&self, i: usize) -> bool
        requires { i < slot_count self.now }
        ensures { slice_get (validity_of self.now) i ≡ Some (not result) }
    {
        match self {
            AnyArray::Int64(array) => array.is_null(i),
            AnyArray::Boolean(array) => array.is_null(i),
            AnyArray::Binary(array) => array.is_null(i),
            AnyArray::Utf8(array) => array.is_null(i),
        }
    }

    /// Returns the number of null slots.
    pub fn null_count(&self) -> usize
        ensures { result ≡ nulls_of self.now }
    {
        match self {
            AnyArray::Int64(array) => array.null_count(),
            AnyArray::Boolean(array) => array.null_count(),
            AnyArray::Binary(array) => array.null_count(),
            AnyArray::Utf8(array) => array.null_count(),
        }
    }

    /// Keeps only the `len` slots that begin at `offset`, without copying any.
    pub fn slice(&mut self, offset: usize, len: usize)
        requires { FitsAnyCut self.old offset len }
        ensures { self.new ≡ any_cut self.old offset len }
    {
        match self {
            AnyArray::Int64(array) => array.slice(offset, len),
            AnyArray::Boolean(array) => array.slice(offset, len),
            AnyArray::Binary(array) => array.slice(offset, len),
            AnyArray::Utf8(array) => array.slice(offset, len),
        }
    }

    /// Returns a clone that shares the memory of the array.
    ///
    /// # Errors
    /// `OutOfMemory` if an allocation fails.
    pub fn clone(&self) -> Result<Self, Error>
        ensures ok { IfOk result (λ copy. copy ≡ self.now) }
        ensures err { OnlyOutOfMemory result }
    {
        Ok(match self {
            AnyArray::Int64(array) => AnyArray::Int64(array.clone()?),
            AnyArray::Boolean(array) => AnyArray::Boolean(array.clone()?),
            AnyArray::Binary(array) => AnyArray::Binary(array.clone()?),
            AnyArray::Utf8(array) => AnyArray::Utf8(array.clone()?),
        })
    }

    /// Returns the slots where `filter` is valid and true. `filter` must have as many slots as the array.
    ///
    /// # Errors
    /// `OutOfMemory` if an allocation fails.
    pub fn filter(&self, alloc: Global, filter: &BooleanArray) -> Result<Self, Error>
        requires { length filter.now.rows ≡ slot_count self.now }
        ensures ok { IfOk result (λ kept. kept ≡ any_filtered self.now filter.now) }
        ensures err { OnlyOutOfMemory result }
    {
        Ok(match self {
            AnyArray::Int64(array) => AnyArray::Int64(filter_primitive(alloc, array, filter)?),
            AnyArray::Boolean(array) => AnyArray::Boolean(filter_boolean(alloc, array, filter)?),
            AnyArray::Binary(array) => AnyArray::Binary(filter_binary(alloc, array, filter)?),
            AnyArray::Utf8(array) => AnyArray::Utf8(filter_utf8(alloc, array, filter)?),
        })
    }

    /// Returns the slots at `indexes`, each of which is the index of a slot and there at most once.
    ///
    /// # Errors
    /// `OutOfMemory` if an allocation fails.
    pub fn take(&self, alloc: Global, indexes: &[u64]) -> Result<Self, Error>
        requires { PickOnce (slot_count self.now) indexes.now }
        ensures ok { IfOk result (λ made. made ≡ any_taken self.now indexes.now) }
        ensures err { OnlyOutOfMemory result }
    {
        Ok(match self {
            AnyArray::Int64(array) => AnyArray::Int64(array.take_indexes(alloc, indexes)?),
            AnyArray::Boolean(array) => AnyArray::Boolean(array.take_indexes(alloc, indexes)?),
            AnyArray::Binary(array) => AnyArray::Binary(array.take_indexes(alloc, indexes)?),
            AnyArray::Utf8(array) => AnyArray::Utf8(array.take_indexes(alloc, indexes)?),
        })
    }

    /// Returns the indexes that sort the slots: every index once, in the order of the slots there, and equal slots in
    /// the order of their indexes. Numbers have their own order, `false` comes before `true`, and bytes and text are
    /// ordered by their bytes.
    ///
    /// # Errors
    /// `OutOfMemory` if an allocation fails.
    pub fn sort_to_indices(&self, alloc: Global, options: SortOptions) -> Result<UInt64Array, Error>
        ensures ok { IfOk result (HoldsSorted
            (any_order self.now options.descending options.nulls_first) (slot_count self.now) None) }
        ensures err { OnlyOutOfMemory result }
    {
        match self {
            AnyArray::Int64(array) => sort_to_indices(alloc, array, options, None),
            AnyArray::Boolean(array) => sort_to_indices(alloc, array, options, None),
            AnyArray::Binary(array) => sort_to_indices(alloc, array, options, None),
            AnyArray::Utf8(array) => sort_to_indices(alloc, array, options, None),
        }
    }
}

mod concat;
pub mod group;
mod overflow;
