//! Arrays and builders made of values or of slots, in place of arrow2's `From`, since an allocation may fail.
ghost use Rattle.std.specs.Prelude.{◌≡◌, None, IfOk};
ghost use Rattle.std.specs.Iterator.{IsFinite};
ghost use Rattle.arrow_types.specs.Failures.{OnlyOutOfMemory};
ghost use Rattle.arrow_types.specs.Types.{logical_type, IsRightType, default_logical_type};
ghost use Rattle.arrow_column.specs.Column.{append_slots, column_of_parts, empty_masked, null_column, array_of_slots};
ghost use Rattle.arrow_column.specs.Appends.{ExtendsAll, CollectsSlots, CollectsValues};

use crate::{MutablePrimitiveArray, PrimitiveArray};
use arrow_memory::bitmap::{Bitmap, MutableBitmap};
use arrow_memory::buffer::Buffer;
use arrow_types::data_type::DataType;
use arrow_types::error::Error;
use arrow_types::native_type::NativeType;
use arrow_types::physical_type::PhysicalType;
use std::alloc::Global;

#[tactic(auto, using(crate::proofs::SlotLemmas::slot_steps))]
impl<T: NativeType> MutablePrimitiveArray<T> {
    /// Creates a builder of no slots that holds a mask of no marks.
    fn masked(alloc: Global) -> Self
        ensures { result ≡ empty_masked (default_logical_type T.PRIMITIVE) }
    {
        let mut builder = MutablePrimitiveArray::new(alloc);
        builder.set_validity(Some(MutableBitmap::new(alloc)));
        builder
    }

    /// Creates a builder of these slots, which holds a mask, of the native type's default data
    /// type.
    ///
    /// # Errors
    /// `OutOfMemory` if an allocation fails.
    pub fn from(alloc: Global, slots: &[Option<T>]) -> Result<Self, Error>
        ensures ok { IfOk result (λ builder. builder ≡ append_slots T.zero
            (empty_masked (default_logical_type T.PRIMITIVE)) slots.now) }
        ensures err { OnlyOutOfMemory result }
    {
        let mut builder = MutablePrimitiveArray::masked(alloc);
        builder.column.extend_from_slots(slots)?;
        Ok(builder)
    }

    /// Creates a builder of the slots of an iterator, which holds a mask, of the native type's
    /// default data type. `size_hint` is only used to reserve room.
    ///
    /// # Errors
    /// `OutOfMemory` if an allocation fails.
    pub fn from_iter<I: Iterator<Item = Option<T>>>(alloc: Global, iter: I) -> Result<Self, Error>
        requires can { I.can_next iter }
        requires ends { IsFinite (I.remaining iter) }
        ensures ok { IfOk result (ExtendsAll T.zero I.next_gives iter
            (empty_masked (default_logical_type T.PRIMITIVE))) }
        ensures err { OnlyOutOfMemory result }
    {
        let mut builder = MutablePrimitiveArray::masked(alloc);
        builder.extend(iter)?;
        Ok(builder)
    }

    /// Creates valid slots with the values of a slice, without a mask, of the native type's default
    /// data type.
    ///
    /// # Errors
    /// `OutOfMemory` if an allocation fails.
    pub fn from_slice(alloc: Global, slice: &[T]) -> Result<Self, Error>
        ensures ok { IfOk result (λ builder. builder ≡ column_of_parts (default_logical_type T.PRIMITIVE) slice.now
            None) }
        ensures err { OnlyOutOfMemory result }
    {
        let mut values = Vec::new(alloc);
        values.extend_from_slice(slice)?;
        Ok(MutablePrimitiveArray::from_vec(values))
    }
}

#[tactic(auto, using(crate::proofs::SlotLemmas::slot_steps))]
impl<T: NativeType> PrimitiveArray<T> {
    /// Creates an array of valid slots with the values of a vector, without copying them and
    /// without a mask, of the native type's default data type.
    ///
    /// # Errors
    /// `OutOfMemory` if an allocation fails; the values are then dropped.
    pub fn from_vec(values: Vec<T>) -> Result<Self, Error>
        ensures ok { IfOk result (λ array. array ≡ column_of_parts (default_logical_type T.PRIMITIVE) values.items
            None) }
        ensures err { OnlyOutOfMemory result }
    {
        Ok(PrimitiveArray::new(
            T::PRIMITIVE.default_data_type(),
            Buffer::from_vec(values)?,
            None,
        ))
    }

    /// Creates valid slots with the values of a slice, without a mask, of the native type's default
    /// data type.
    ///
    /// # Errors
    /// `OutOfMemory` if an allocation fails.
    pub fn from_slice(alloc: Global, slice: &[T]) -> Result<Self, Error>
        ensures ok { IfOk result (λ array. array ≡ column_of_parts (default_logical_type T.PRIMITIVE) slice.now None) }
        ensures err { OnlyOutOfMemory result }
    {
        let mut values = Vec::new(alloc);
        values.extend_from_slice(slice)?;
        PrimitiveArray::from_vec(values)
    }

    /// Creates an array of valid slots with the values of an iterator, without a mask, of the
    /// native type's default data type. `size_hint` is only used to reserve room.
    ///
    /// # Errors
    /// `OutOfMemory` if an allocation fails.
    pub fn from_values<I: Iterator<Item = T>>(alloc: Global, iter: I) -> Result<Self, Error>
        requires can { I.can_next iter }
        requires ends { IsFinite (I.remaining iter) }
        ensures ok { IfOk result (CollectsValues (default_logical_type T.PRIMITIVE) I.next_gives iter) }
        ensures err { OnlyOutOfMemory result }
    {
        let mut builder = MutablePrimitiveArray::new(alloc);
        builder.extend_values(iter)?;
        builder.freeze()
    }

    /// Creates an array of these slots, which holds a mask exactly if one is null, of the native
    /// type's default data type.
    ///
    /// # Errors
    /// `OutOfMemory` if an allocation fails.
    pub fn from(alloc: Global, slots: &[Option<T>]) -> Result<Self, Error>
        ensures ok { IfOk result (λ array. array ≡ array_of_slots T.zero (default_logical_type T.PRIMITIVE) slots.now) }
        ensures err { OnlyOutOfMemory result }
    {
        MutablePrimitiveArray::from(alloc, slots)?.freeze()
    }

    /// Creates an array of the slots of an iterator, which holds a mask exactly if one is null, of
    /// the native type's default data type. `size_hint` is only used to reserve room.
    ///
    /// # Errors
    /// `OutOfMemory` if an allocation fails.
    pub fn from_iter<I: Iterator<Item = Option<T>>>(alloc: Global, iter: I) -> Result<Self, Error>
        requires can { I.can_next iter }
        requires ends { IsFinite (I.remaining iter) }
        ensures ok { IfOk result (CollectsSlots T.zero (default_logical_type T.PRIMITIVE) I.next_gives iter) }
        ensures err { OnlyOutOfMemory result }
    {
        MutablePrimitiveArray::from_iter(alloc, iter)?.freeze()
    }

    /// Creates an array of `length` null slots that store the default value, with a mask. The data
    /// type must have the array's physical type.
    ///
    /// # Errors
    /// `OutOfMemory` if an allocation fails.
    pub fn new_null(alloc: Global, data_type: DataType, length: usize) -> Result<Self, Error>
        requires { IsRightType (PhysicalType.Primitive T.PRIMITIVE) (logical_type data_type) }
        ensures ok { IfOk result (λ array. array ≡ null_column (logical_type data_type) tt T.zero length) }
        ensures err { OnlyOutOfMemory result }
    {
        let mut values = Vec::new(alloc);
        values.resize(length, T::default())?;
        Ok(PrimitiveArray::new(
            data_type,
            Buffer::from_vec(values)?,
            Some(Bitmap::new_zeroed(alloc, length)?),
        ))
    }
}
