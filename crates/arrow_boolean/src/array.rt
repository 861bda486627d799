//! Arrays of booleans. Each call is one of its column, stated again for readers of this type.
ghost use Rattle.std.specs.Prelude.{◌≡◌, ◌==◌, ◌<◌, length, not, count_by, slice_get, Some, IfOk, IfErr};
ghost use Rattle.std.specs.Option.{option_copied};
ghost use Rattle.arrow_types.specs.Failures.{OnlyOutOfMemory};
ghost use Rattle.arrow_types.specs.Types.{logical_type, IsRightType};
ghost use Rattle.arrow_memory.specs.Rows.{FitsMask};
ghost use Rattle.arrow_column.specs.Column.{FitsCut, IsColumn, column_of_parts, cut, empty_column, mask_of};
ghost use Rattle.arrow_column.specs.Column.{marks_of, slots_of, stored_values};

use arrow_column::FrozenColumn;
use arrow_memory::bitmap::Bitmap;
use arrow_types::data_type::DataType;
use arrow_types::error::Error;
use arrow_types::physical_type::PhysicalType;
use std::alloc::Global;
use std::marker::Model;

/// An immutable array of booleans, each of which may be null. A null slot stores a value too.
#[derive(Drop)]
pub struct BooleanArray {
    pub(crate) column: FrozenColumn<Bitmap>,
}

// Contracts see the column: the type, a row for each slot, and whether a mask is held.
impl Model for BooleanArray {
    ghost use Rattle.std.specs.Prelude.{Bool};
    ghost use Rattle.arrow_types.specs.Types.{IsRightType};
    ghost use Rattle.arrow_column.specs.Column.{Column};
    ghost use Rattle.arrow_types.specs.declared.physical_type.PhysicalType.TheVariants.{Boolean};

    ghost Value = { Column Bool };

    ghost view = { λ array. array.column };

    ghost invariant = { λ array. IsRightType Boolean array.column.data_type };
}

impl BooleanArray {
    /// Creates an array from parts that fit: a mask has a mark for each value, and the data type
    /// has the array's physical type. [`BooleanArray::try_new`] checks them.
    pub fn new(data_type: DataType, values: Bitmap, validity: Option<Bitmap>) -> Self
        requires mask { FitsMask values validity }
        requires right { IsRightType PhysicalType.Boolean (logical_type data_type) }
        ensures { result ≡ column_of_parts (logical_type data_type) values validity }
    {
        BooleanArray {
            column: FrozenColumn::new(data_type, values, validity),
        }
    }

    /// Creates an array of no slots, without a mask. The data type must have the array's physical
    /// type.
    ///
    /// # Errors
    /// `OutOfMemory` if an allocation fails.
    pub fn new_empty(alloc: Global, data_type: DataType) -> Result<Self, Error>
        requires { IsRightType PhysicalType.Boolean (logical_type data_type) }
        ensures ok { IfOk result (λ array. array ≡ empty_column (logical_type data_type)) }
        ensures err { OnlyOutOfMemory result }
    {
        Ok(BooleanArray::new(data_type, Bitmap::new(alloc)?, None))
    }

    /// Returns the data type, the stored values, and the mask if one is held.
    pub fn into_inner(self) -> (DataType, Bitmap, Option<Bitmap>)
        ensures data_type { logical_type result.0 ≡ self.data_type }
        ensures values { result.1 ≡ stored_values self }
        ensures mask { result.2 ≡ mask_of self }
        ensures is_column { IsColumn self }
        ensures fits { FitsMask result.1 result.2 }
        ensures again { column_of_parts (logical_type result.0) result.1 result.2 ≡ self }
        ensures right { IsRightType PhysicalType.Boolean (logical_type result.0) }
    {
        self.column.into_inner()
    }

    /// Returns the number of slots.
    #[inline(always)]
    pub fn len(&self) -> usize
        ensures { result ≡ length self.now.rows }
    {
        self.column.len()
    }

    /// Returns whether there is no slot.
    #[inline(always)]
    pub fn is_empty(&self) -> bool
        ensures { result ≡ (length self.now.rows == 0) }
    {
        self.column.is_empty()
    }

    /// Returns the value stored at `i`, also if the slot is null.
    #[inline(always)]
    pub fn value(&self, i: usize) -> bool
        requires { i < length self.now.rows }
        ensures { slice_get (stored_values self.now) i ≡ Some result }
    {
        self.column.values().get_bit(i)
    }

    /// Returns the slot at `i`: its value, or `None` if it is null.
    #[inline(always)]
    pub fn get(&self, i: usize) -> Option<bool>
        requires { i < length self.now.rows }
        ensures { slice_get (slots_of self.now) i ≡ Some result }
    {
        if self.column.is_null(i) {
            return None;
        }
        Some(self.value(i))
    }

    /// Returns whether the slot at `i` is null.
    #[inline(always)]
    pub fn is_null(&self, i: usize) -> bool
        requires { i < length self.now.rows }
        ensures { slice_get (marks_of self.now) i ≡ Some (not result) }
    {
        self.column.is_null(i)
    }

    /// Returns whether the slot at `i` is valid, that is, not null.
    #[inline(always)]
    pub fn is_valid(&self, i: usize) -> bool
        requires { i < length self.now.rows }
        ensures { slice_get (marks_of self.now) i ≡ Some result }
    {
        !self.is_null(i)
    }

    /// Returns the number of null slots, in constant time.
    #[inline(always)]
    pub fn null_count(&self) -> usize
        ensures { result ≡ count_by not (marks_of self.now) }
    {
        self.column.null_count()
    }

    /// Returns the stored values, those of null slots included.
    #[inline(always)]
    pub fn values(&self) -> &Bitmap
        ensures { result.now ≡ stored_values self.now }
    {
        self.column.values()
    }

    /// Returns the mask if one is held; otherwise no slot is null.
    #[inline(always)]
    pub fn validity(&self) -> Option<&Bitmap>
        ensures mask { option_copied result ≡ mask_of self.now }
        ensures is_column { IsColumn self.now }
    {
        self.column.validity()
    }

    /// Returns the data type.
    #[inline(always)]
    pub fn data_type(&self) -> &DataType
        ensures value { logical_type result.now ≡ self.now.data_type }
        ensures right { IsRightType PhysicalType.Boolean self.now.data_type }
    {
        self.column.data_type()
    }

    /// Keeps only the `len` slots from `offset` on, without copying any. A held mask stays held.
    pub fn slice(&mut self, offset: usize, len: usize)
        requires { FitsCut self.old offset len }
        ensures { self.new ≡ cut self.old offset len }
    {
        self.column.slice(offset, len);
    }

    /// Returns the `len` slots from `offset` on, without copying any. A held mask stays held.
    pub fn sliced(mut self, offset: usize, len: usize) -> Self
        requires { FitsCut self offset len }
        ensures { result ≡ cut self offset len }
    {
        self.slice(offset, len);
        self
    }

    /// Returns a clone that shares values and marks.
    ///
    /// # Errors
    /// `OutOfMemory` if an allocation fails.
    pub fn clone(&self) -> Result<Self, Error>
        ensures ok { IfOk result (λ copy. copy ≡ self.now) }
        ensures err { OnlyOutOfMemory result }
    {
        Ok(BooleanArray {
            column: self.column.clone()?,
        })
    }
}
