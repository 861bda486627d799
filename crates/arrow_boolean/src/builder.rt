//! Builders of arrays of booleans. `freeze` keeps any mask, as arrow2's does.
ghost use Rattle.std.specs.Prelude.{◌≡◌, ◌==◌, ◌<◌, length, not, count_by, slice_get, false, Some, None};
ghost use Rattle.std.specs.Prelude.{OnOk, IfOk, IfErr, IsOk};
ghost use Rattle.std.specs.Option.{option_copied};
ghost use Rattle.arrow_types.specs.Failures.{OnlyOutOfMemory, OutOfMemoryKeeps};
ghost use Rattle.arrow_types.specs.Types.{logical_type, IsRightType};
ghost use Rattle.arrow_column.specs.Column.{IsColumn, append_slot, empty_column, last_slot, marks_of, mask_of};
ghost use Rattle.arrow_column.specs.Column.{slots_of, stored_values, with_slot, without_last};
ghost use Rattle.arrow_boolean.specs.Fits.{boolean_type};

use crate::BooleanArray;
use arrow_column::GrowingColumn;
use arrow_memory::bitmap::MutableBitmap;
use arrow_types::data_type::DataType;
use arrow_types::error::Error;
use arrow_types::physical_type::PhysicalType;
use std::alloc::Global;
use std::marker::Model;

/// A growing array of booleans, each of which may be null: the builder of [`BooleanArray`].
#[derive(Drop)]
pub struct MutableBooleanArray {
    pub(crate) column: GrowingColumn<MutableBitmap>,
}

// Contracts see the column: the type, a row for each slot, and whether a mask is held.
impl Model for MutableBooleanArray {
    ghost use Rattle.std.specs.Prelude.{Bool};
    ghost use Rattle.arrow_types.specs.Types.{IsRightType};
    ghost use Rattle.arrow_column.specs.Column.{Column};
    ghost use Rattle.arrow_types.specs.declared.physical_type.PhysicalType.TheVariants.{Boolean};

    ghost Value = { Column Bool };

    ghost view = { λ builder. builder.column };

    ghost invariant = { λ builder. IsRightType Boolean builder.column.data_type };
}

impl MutableBooleanArray {
    /// Creates a builder of no slots, without a mask, of data type `Boolean`. Does not allocate.
    #[inline(always)]
    pub fn new(alloc: Global) -> Self
        ensures { result ≡ empty_column boolean_type }
    {
        MutableBooleanArray::from_values(MutableBitmap::new(alloc))
    }

    /// Creates a builder of no slots, as [`MutableBooleanArray::new`].
    pub fn default(alloc: Global) -> Self
        ensures { result ≡ empty_column boolean_type }
    {
        MutableBooleanArray::new(alloc)
    }

    /// Creates a builder of no slots, without a mask, with room for at least `capacity` slots.
    ///
    /// # Errors
    /// `OutOfMemory` if an allocation fails.
    pub fn with_capacity(alloc: Global, capacity: usize) -> Result<Self, Error>
        ensures ok { IfOk result (λ builder. builder ≡ empty_column boolean_type) }
        ensures err { OnlyOutOfMemory result }
    {
        Ok(MutableBooleanArray::from_values(MutableBitmap::with_capacity(alloc, capacity)?))
    }

    /// Returns the number of slots.
    #[inline(always)]
    pub fn len(&self) -> usize
        ensures { result ≡ length self.now.rows }
    {
        self.column.len()
    }

    /// Returns whether there is no slot.
    #[inline(always)]
    pub fn is_empty(&self) -> bool
        ensures { result ≡ (length self.now.rows == 0) }
    {
        self.column.is_empty()
    }

    /// Returns the slot at `i`: its value, or `None` if it is null.
    #[inline(always)]
    pub fn get(&self, i: usize) -> Option<bool>
        requires { i < length self.now.rows }
        ensures { slice_get (slots_of self.now) i ≡ Some result }
    {
        if self.column.is_null(i) {
            return None;
        }
        Some(self.column.values().get(i))
    }

    /// Returns whether the slot at `i` is null.
    #[inline(always)]
    pub fn is_null(&self, i: usize) -> bool
        requires { i < length self.now.rows }
        ensures { slice_get (marks_of self.now) i ≡ Some (not result) }
    {
        self.column.is_null(i)
    }

    /// Returns the number of null slots. Counts them if a mask is held.
    #[inline(always)]
    pub fn null_count(&self) -> usize
        ensures { result ≡ count_by not (marks_of self.now) }
    {
        self.column.null_count()
    }

    /// Returns the stored values, those of null slots included.
    #[inline(always)]
    pub fn values(&self) -> &MutableBitmap
        ensures { result.now ≡ stored_values self.now }
    {
        self.column.values()
    }

    /// Returns the mask if one is held; otherwise no slot is null.
    #[inline(always)]
    pub fn validity(&self) -> Option<&MutableBitmap>
        ensures mask { option_copied result ≡ mask_of self.now }
        ensures is_column { IsColumn self.now }
    {
        self.column.validity()
    }

    /// Returns the data type.
    #[inline(always)]
    pub fn data_type(&self) -> &DataType
        ensures value { logical_type result.now ≡ self.now.data_type }
        ensures right { IsRightType PhysicalType.Boolean self.now.data_type }
    {
        self.column.data_type()
    }

    /// Appends a slot. A null stores false, and the builder holds a mask from then on.
    ///
    /// # Errors
    /// `OutOfMemory` if an allocation fails; the builder is then unchanged.
    #[inline(always)]
    pub fn push(&mut self, value: Option<bool>) -> Result<(), Error>
        ensures ok { OnOk result (self.new ≡ append_slot false self.old value) }
        ensures err { OutOfMemoryKeeps result self.old self.new }
    {
        match value {
            Some(value) => self.column.push_valid(value),
            None => self.column.push_null(),
        }
    }

    /// Appends a slot, as [`MutableBooleanArray::push`].
    ///
    /// # Errors
    /// As `push`.
    #[inline(always)]
    pub fn try_push(&mut self, value: Option<bool>) -> Result<(), Error>
        ensures ok { OnOk result (self.new ≡ append_slot false self.old value) }
        ensures err { OutOfMemoryKeeps result self.old self.new }
    {
        self.push(value)
    }

    /// Appends a null.
    ///
    /// # Errors
    /// `OutOfMemory` if an allocation fails; the builder is then unchanged.
    #[inline(always)]
    pub fn push_null(&mut self) -> Result<(), Error>
        ensures ok { OnOk result (self.new ≡ append_slot false self.old None) }
        ensures err { OutOfMemoryKeeps result self.old self.new }
    {
        self.column.push_null()
    }

    /// Removes the last slot and returns it; `None` if it is null or there is none.
    #[inline(always)]
    pub fn pop(&mut self) -> Option<bool>
        ensures slot { result ≡ last_slot self.old }
        ensures rest { self.new ≡ without_last self.old }
    {
        let last = self.len().checked_sub(1)?;
        let value = self.values().get(last);
        self.column.remove_last().then_some(value)
    }

    /// Replaces the slot at `i`. A null stores false, and the builder holds a mask from then on.
    ///
    /// # Errors
    /// `OutOfMemory` if an allocation for the mask fails; the builder is then unchanged.
    #[inline(always)]
    pub fn set(&mut self, i: usize, value: Option<bool>) -> Result<(), Error>
        requires { i < length self.old.rows }
        ensures ok { OnOk result (self.new ≡ with_slot false self.old i value) }
        ensures err { OutOfMemoryKeeps result self.old self.new }
    {
        self.column.set(i, value)
    }

    /// Reserves room for at least `additional` more slots, in a held mask too.
    ///
    /// # Errors
    /// `OutOfMemory` if an allocation fails.
    pub fn reserve(&mut self, additional: usize) -> Result<(), Error>
        ensures kept { self.new ≡ self.old }
        ensures err { OnlyOutOfMemory result }
    {
        self.column.reserve(additional)
    }

    /// Gives unused room back to the allocator, if it takes it.
    ///
    /// # Errors
    /// Never: if the allocator refuses a smaller allocation, the room stays.
    pub fn shrink_to_fit(&mut self) -> Result<(), Error>
        ensures kept { self.new ≡ self.old }
        ensures ok { IsOk result }
    {
        self.column.shrink_to_fit()
    }

    /// Returns a copy.
    ///
    /// # Errors
    /// `OutOfMemory` if an allocation fails.
    pub fn clone(&self) -> Result<Self, Error>
        ensures ok { IfOk result (λ copy. copy ≡ self.now) }
        ensures err { OnlyOutOfMemory result }
    {
        Ok(MutableBooleanArray {
            column: self.column.clone()?,
        })
    }

    /// Converts the builder into an array of the same slots, which holds a mask exactly if the
    /// builder does, even if no slot is null.
    ///
    /// # Errors
    /// `OutOfMemory` if an allocation fails; the builder is then dropped.
    pub fn freeze(self) -> Result<BooleanArray, Error>
        ensures ok { IfOk result (λ array. array ≡ self) }
        ensures err { OnlyOutOfMemory result }
    {
        let (data_type, values, validity) = self.column.freeze_whole_mask()?;
        Ok(BooleanArray::new(data_type, values.freeze()?, validity))
    }
}
