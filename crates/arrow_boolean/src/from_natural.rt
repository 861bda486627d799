//! Arrays and builders made of values or of slots, in place of arrow2's `From`, since an allocation may fail.
ghost use Rattle.std.specs.Prelude.{◌≡◌, None, false, IfOk};
ghost use Rattle.std.specs.Iterator.{IsFinite};
ghost use Rattle.arrow_types.specs.Failures.{OnlyOutOfMemory};
ghost use Rattle.arrow_types.specs.Types.{logical_type, IsRightType};
ghost use Rattle.arrow_column.specs.Column.{append_slots, column_of_parts, empty_column, null_column};
ghost use Rattle.arrow_boolean.specs.Fits.{boolean_type};
ghost use Rattle.arrow_column.specs.Appends.{ExtendsAll};

use crate::{BooleanArray, MutableBooleanArray};
use arrow_column::GrowingColumn;
use arrow_memory::bitmap::{Bitmap, MutableBitmap};
use arrow_types::data_type::DataType;
use arrow_types::error::Error;
use arrow_types::physical_type::PhysicalType;
use std::alloc::Global;

impl MutableBooleanArray {
    /// Creates a builder of valid slots with these values, without a mask, of data type `Boolean`.
    #[inline(always)]
    pub(crate) fn from_values(values: MutableBitmap) -> Self
        ensures { result ≡ column_of_parts boolean_type values None }
    {
        MutableBooleanArray {
            column: GrowingColumn::new(DataType::Boolean, values, None),
        }
    }

    /// Creates a builder of these slots, which holds a mask exactly if one is null, of data type
    /// `Boolean`.
    ///
    /// # Errors
    /// `OutOfMemory` if an allocation fails.
    pub fn from(alloc: Global, slots: &[Option<bool>]) -> Result<Self, Error>
        ensures ok { IfOk result (λ builder. builder ≡ append_slots false (empty_column boolean_type) slots.now) }
        ensures err { OnlyOutOfMemory result }
    {
        let mut builder = MutableBooleanArray::new(alloc);
        builder.column.extend_from_slots(slots)?;
        Ok(builder)
    }

    /// Creates a builder of the slots of an iterator, which holds a mask exactly if one is null, of
    /// data type `Boolean`. `size_hint` is only used to reserve room.
    ///
    /// # Errors
    /// `OutOfMemory` if an allocation fails.
    pub fn from_iter<I: Iterator<Item = Option<bool>>>(
        alloc: Global,
        iter: I,
    ) -> Result<Self, Error>
        requires can { I.can_next iter }
        requires ends { IsFinite (I.remaining iter) }
        ensures ok { IfOk result (ExtendsAll false I.next_gives iter (empty_column boolean_type)) }
        ensures err { OnlyOutOfMemory result }
    {
        let mut builder = MutableBooleanArray::new(alloc);
        builder.extend(iter)?;
        Ok(builder)
    }

    /// Creates valid slots with the values of a slice, without a mask, of data type `Boolean`.
    ///
    /// # Errors
    /// `OutOfMemory` if an allocation fails.
    pub fn from_slice(alloc: Global, slice: &[bool]) -> Result<Self, Error>
        ensures ok { IfOk result (λ builder. builder ≡ column_of_parts boolean_type slice.now None) }
        ensures err { OnlyOutOfMemory result }
    {
        Ok(MutableBooleanArray::from_values(MutableBitmap::from_slice(alloc, slice)?))
    }
}

impl BooleanArray {
    /// Creates valid slots with the values of a slice, without a mask, of data type `Boolean`.
    ///
    /// # Errors
    /// `OutOfMemory` if an allocation fails.
    pub fn from_slice(alloc: Global, slice: &[bool]) -> Result<Self, Error>
        ensures ok { IfOk result (λ array. array ≡ column_of_parts boolean_type slice.now None) }
        ensures err { OnlyOutOfMemory result }
    {
        Ok(BooleanArray::new(DataType::Boolean, Bitmap::from_slice(alloc, slice)?, None))
    }

    /// Creates an array of these slots, which holds a mask exactly if one is null, of data type
    /// `Boolean`.
    ///
    /// # Errors
    /// `OutOfMemory` if an allocation fails.
    pub fn from(alloc: Global, slots: &[Option<bool>]) -> Result<Self, Error>
        ensures ok { IfOk result (λ array. array ≡ append_slots false (empty_column boolean_type) slots.now) }
        ensures err { OnlyOutOfMemory result }
    {
        MutableBooleanArray::from(alloc, slots)?.freeze()
    }

    /// Creates an array of the slots of an iterator, which holds a mask exactly if one is null, of
    /// data type `Boolean`. `size_hint` is only used to reserve room.
    ///
    /// # Errors
    /// `OutOfMemory` if an allocation fails.
    pub fn from_iter<I: Iterator<Item = Option<bool>>>(
        alloc: Global,
        iter: I,
    ) -> Result<Self, Error>
        requires can { I.can_next iter }
        requires ends { IsFinite (I.remaining iter) }
        ensures ok { IfOk result (ExtendsAll false I.next_gives iter (empty_column boolean_type)) }
        ensures err { OnlyOutOfMemory result }
    {
        MutableBooleanArray::from_iter(alloc, iter)?.freeze()
    }

    /// Creates an array of `length` null slots that store false, with a mask. The data type must
    /// have the array's physical type.
    ///
    /// # Errors
    /// `OutOfMemory` if an allocation fails.
    pub fn new_null(alloc: Global, data_type: DataType, length: usize) -> Result<Self, Error>
        requires { IsRightType PhysicalType.Boolean (logical_type data_type) }
        ensures ok { IfOk result (λ array. array ≡ null_column (logical_type data_type) tt false length) }
        ensures err { OnlyOutOfMemory result }
    {
        let values = Bitmap::new_zeroed(alloc, length)?;
        let validity = Bitmap::new_zeroed(alloc, length)?;
        Ok(BooleanArray::new(data_type, values, Some(validity)))
    }
}
