//! Builders of arrays of native values. Each call is one of its column, stated again for readers of this type.
ghost use Rattle.std.specs.Prelude.{◌≡◌, ◌==◌, ◌<◌, ◌≤◌, length, not, count_by, slice_get, Some, None};
ghost use Rattle.std.specs.Prelude.{OnOk, IfOk, IfErr, IsOk};
ghost use Rattle.std.specs.Option.{option_copied};
ghost use Rattle.arrow_types.specs.Failures.{OnlyOutOfMemory, OutOfMemoryKeeps};
ghost use Rattle.arrow_types.specs.Types.{logical_type, IsRightType, default_logical_type};
ghost use Rattle.arrow_memory.specs.Rows.{FitsMask};
ghost use Rattle.arrow_column.specs.Column.{Column, IsColumn, append_slot, column_of_parts, empty_column};
ghost use Rattle.arrow_column.specs.Column.{without_needless_mask, last_slot, marks_of, mask_of, slots_of};
ghost use Rattle.arrow_column.specs.Column.{stored_values, with_slot, with_type, without_last};

use crate::PrimitiveArray;
use arrow_column::GrowingColumn;
use arrow_memory::bitmap::MutableBitmap;
use arrow_memory::buffer::Buffer;
use arrow_types::data_type::DataType;
use arrow_types::error::Error;
use arrow_types::native_type::NativeType;
use arrow_types::physical_type::PhysicalType;
use std::alloc::Global;
use std::marker::Model;

/// A growing array of native values, each of which may be null: the builder of [`PrimitiveArray`].
#[derive(Drop)]
pub struct MutablePrimitiveArray<T: NativeType> {
    pub(crate) column: GrowingColumn<Vec<T>>,
}

// Contracts see the column: the type, a row for each slot, and whether a mask is held.
impl<T: NativeType> Model for MutablePrimitiveArray<T> {
    ghost use Rattle.arrow_types.specs.Types.{IsRightType};
    ghost use Rattle.arrow_column.specs.Column.{Column};
    ghost use Rattle.arrow_types.specs.declared.physical_type.PhysicalType.TheVariants.{Primitive};

    ghost Value = { Column T };

    ghost view = { λ builder. builder.column };

    ghost invariant = { λ builder. IsRightType (Primitive T.PRIMITIVE) builder.column.data_type };
}

impl<T: NativeType> MutablePrimitiveArray<T> {
    /// Creates a builder of no slots, without a mask, of the native type's default data type. Does
    /// not allocate.
    #[inline(always)]
    pub fn new(alloc: Global) -> Self
        ensures { result ≡ empty_column (default_logical_type T.PRIMITIVE) }
    {
        MutablePrimitiveArray::from_vec(Vec::new(alloc))
    }

    /// Creates a builder of no slots, as [`MutablePrimitiveArray::new`].
    pub fn default(alloc: Global) -> Self
        ensures { result ≡ empty_column (default_logical_type T.PRIMITIVE) }
    {
        MutablePrimitiveArray::new(alloc)
    }

    /// Creates a builder of valid slots with the values of a vector, without copying them and
    /// without a mask, of the native type's default data type.
    #[inline(always)]
    pub fn from_vec(values: Vec<T>) -> Self
        ensures { result ≡ column_of_parts (default_logical_type T.PRIMITIVE) values.items None }
    {
        MutablePrimitiveArray {
            column: GrowingColumn::new(T::PRIMITIVE.default_data_type(), values, None),
        }
    }

    /// Creates a builder of no slots, without a mask. The data type must have the builder's
    /// physical type.
    pub fn from_data_type(alloc: Global, data_type: DataType) -> Self
        requires { IsRightType (PhysicalType.Primitive T.PRIMITIVE) (logical_type data_type) }
        ensures { result ≡ empty_column (logical_type data_type) }
    {
        MutablePrimitiveArray {
            column: GrowingColumn::new(data_type, Vec::new(alloc), None),
        }
    }

    /// Creates a builder of no slots, without a mask, with room for at least `capacity` slots.
    ///
    /// # Errors
    /// `OutOfMemory` if an allocation fails.
    pub fn with_capacity(alloc: Global, capacity: usize) -> Result<Self, Error>
        ensures ok { IfOk result (λ builder. builder ≡ empty_column (default_logical_type T.PRIMITIVE)) }
        ensures err { OnlyOutOfMemory result }
    {
        Ok(MutablePrimitiveArray::from_vec(Vec::with_capacity(alloc, capacity)?))
    }

    /// Creates a builder of no slots, without a mask, with room for at least `capacity` slots. The
    /// data type must have the builder's physical type.
    ///
    /// # Errors
    /// `OutOfMemory` if an allocation fails.
    pub fn with_capacity_from(
        alloc: Global,
        capacity: usize,
        data_type: DataType,
    ) -> Result<Self, Error>
        requires { IsRightType (PhysicalType.Primitive T.PRIMITIVE) (logical_type data_type) }
        ensures ok { IfOk result (λ builder. builder ≡ empty_column (logical_type data_type)) }
        ensures err { OnlyOutOfMemory result }
    {
        Ok(MutablePrimitiveArray {
            column: GrowingColumn::new(data_type, Vec::with_capacity(alloc, capacity)?, None),
        })
    }

    /// Returns the data type, the stored values, and the mask if one is held.
    pub fn into_inner(self) -> (DataType, Vec<T>, Option<MutableBitmap>)
        ensures data_type { logical_type result.0 ≡ self.data_type }
        ensures values { result.1.items ≡ stored_values self }
        ensures mask { result.2 ≡ mask_of self }
        ensures is_column { IsColumn self }
        ensures fits { FitsMask result.1.items result.2 }
        ensures again { column_of_parts (logical_type result.0) result.1.items result.2 ≡ self }
        ensures right { IsRightType (PhysicalType.Primitive T.PRIMITIVE) (logical_type result.0) }
    {
        self.column.into_inner()
    }

    /// Returns the same slots under another data type, which must have the builder's physical type.
    pub fn to(self, data_type: DataType) -> Self
        requires { IsRightType (PhysicalType.Primitive T.PRIMITIVE) (logical_type data_type) }
        ensures { result ≡ with_type self (logical_type data_type) }
    {
        MutablePrimitiveArray {
            column: self.column.to(data_type),
        }
    }

    /// Returns the number of slots.
    #[inline(always)]
    pub fn len(&self) -> usize
        ensures { result ≡ length self.now.rows }
    {
        self.column.len()
    }

    /// Returns whether there is no slot.
    #[inline(always)]
    pub fn is_empty(&self) -> bool
        ensures { result ≡ (length self.now.rows == 0) }
    {
        self.column.is_empty()
    }

    /// Returns the slot at `i`: its value, or `None` if it is null.
    #[inline(always)]
    pub fn get(&self, i: usize) -> Option<T>
        requires { i < length self.now.rows }
        ensures { slice_get (slots_of self.now) i ≡ Some result }
    {
        if self.column.is_null(i) {
            return None;
        }
        Some(self.column.values()[i])
    }

    /// Returns whether the slot at `i` is null.
    #[inline(always)]
    pub fn is_null(&self, i: usize) -> bool
        requires { i < length self.now.rows }
        ensures { slice_get (marks_of self.now) i ≡ Some (not result) }
    {
        self.column.is_null(i)
    }

    /// Returns the number of null slots. Counts them if a mask is held.
    #[inline(always)]
    pub fn null_count(&self) -> usize
        ensures { result ≡ count_by not (marks_of self.now) }
    {
        self.column.null_count()
    }

    /// Returns the number of values for which there is room; a mask may have less.
    pub fn capacity(&self) -> usize
        ensures { length self.now.rows ≤ result }
    {
        self.column.values().capacity()
    }

    /// Returns the stored values, those of null slots included.
    #[inline(always)]
    pub fn values(&self) -> &Vec<T>
        ensures { result.now.items ≡ stored_values self.now }
    {
        self.column.values()
    }

    /// Returns the mask if one is held; otherwise no slot is null.
    #[inline(always)]
    pub fn validity(&self) -> Option<&MutableBitmap>
        ensures mask { option_copied result ≡ mask_of self.now }
        ensures is_column { IsColumn self.now }
    {
        self.column.validity()
    }

    /// Returns the data type.
    #[inline(always)]
    pub fn data_type(&self) -> &DataType
        ensures value { logical_type result.now ≡ self.now.data_type }
        ensures right { IsRightType (PhysicalType.Primitive T.PRIMITIVE) self.now.data_type }
    {
        self.column.data_type()
    }

    /// Appends a slot. A null stores the default value, and the builder holds a mask from then on.
    ///
    /// # Errors
    /// `OutOfMemory` if an allocation fails; the builder is then unchanged.
    #[inline(always)]
    pub fn push(&mut self, value: Option<T>) -> Result<(), Error>
        ensures ok { OnOk result (self.new ≡ append_slot T.zero self.old value) }
        ensures err { OutOfMemoryKeeps result self.old self.new }
    {
        match value {
            Some(value) => self.column.push_valid(value),
            None => self.column.push_null(),
        }
    }

    /// Appends a slot, as [`MutablePrimitiveArray::push`].
    ///
    /// # Errors
    /// As `push`.
    #[inline(always)]
    pub fn try_push(&mut self, value: Option<T>) -> Result<(), Error>
        ensures ok { OnOk result (self.new ≡ append_slot T.zero self.old value) }
        ensures err { OutOfMemoryKeeps result self.old self.new }
    {
        self.push(value)
    }

    /// Appends a null.
    ///
    /// # Errors
    /// `OutOfMemory` if an allocation fails; the builder is then unchanged.
    #[inline(always)]
    pub fn push_null(&mut self) -> Result<(), Error>
        ensures ok { OnOk result (self.new ≡ append_slot T.zero self.old None) }
        ensures err { OutOfMemoryKeeps result self.old self.new }
    {
        self.column.push_null()
    }

    /// Removes the last slot and returns it; `None` if it is null or there is none.
    #[inline(always)]
    pub fn pop(&mut self) -> Option<T>
        ensures slot { result ≡ last_slot self.old }
        ensures rest { self.new ≡ without_last self.old }
    {
        let last = self.len().checked_sub(1)?;
        let value = self.values()[last];
        self.column.remove_last().then_some(value)
    }

    /// Replaces the slot at `i`. A null stores the default value, and the builder holds a mask from
    /// then on.
    ///
    /// # Errors
    /// `OutOfMemory` if an allocation for the mask fails; the builder is then unchanged.
    #[inline(always)]
    pub fn set(&mut self, i: usize, value: Option<T>) -> Result<(), Error>
        requires { i < length self.old.rows }
        ensures ok { OnOk result (self.new ≡ with_slot T.zero self.old i value) }
        ensures err { OutOfMemoryKeeps result self.old self.new }
    {
        self.column.set(i, value)
    }

    /// Reserves room for at least `additional` more slots, in a held mask too.
    ///
    /// # Errors
    /// `OutOfMemory` if an allocation fails.
    pub fn reserve(&mut self, additional: usize) -> Result<(), Error>
        ensures kept { self.new ≡ self.old }
        ensures err { OnlyOutOfMemory result }
    {
        self.column.reserve(additional)
    }

    /// Gives unused room back to the allocator, if it takes it.
    ///
    /// # Errors
    /// Never: if the allocator refuses a smaller allocation, the room stays.
    pub fn shrink_to_fit(&mut self) -> Result<(), Error>
        ensures kept { self.new ≡ self.old }
        ensures ok { IsOk result }
    {
        self.column.shrink_to_fit()
    }

    /// Returns a copy.
    ///
    /// # Errors
    /// `OutOfMemory` if an allocation fails.
    pub fn clone(&self) -> Result<Self, Error>
        ensures ok { IfOk result (λ copy. copy ≡ self.now) }
        ensures err { OnlyOutOfMemory result }
    {
        Ok(MutablePrimitiveArray {
            column: self.column.clone()?,
        })
    }

    /// Converts the builder into an array of the same slots, which holds a mask exactly if a slot
    /// is null.
    ///
    /// # Errors
    /// `OutOfMemory` if an allocation fails; the builder is then dropped.
    pub fn freeze(self) -> Result<PrimitiveArray<T>, Error>
        ensures ok { IfOk result (λ array. array ≡ without_needless_mask self) }
        ensures err { OnlyOutOfMemory result }
    {
        let (data_type, values, validity) = self.column.freeze_mask()?;
        Ok(PrimitiveArray::new(data_type, Buffer::from_vec(values)?, validity))
    }
}
