//! Arrays and builders made of items or of slots. They allocate a builder first, and then report overflows.
ghost use Rattle.std.specs.Prelude.{◌≡◌, [], IfOk, IfErr};
ghost use Rattle.std.specs.Iterator.{IsFinite};
ghost use Rattle.arrow_types.specs.Failures.{OnlyOutOfMemory};
ghost use Rattle.arrow_types.specs.Types.{logical_type, IsRightType};
ghost use Rattle.arrow_column.specs.Column.{null_column};
ghost use Rattle.arrow_bytes.specs.Pieces.{nothing_around};
ghost use Rattle.arrow_bytes.specs.Appends.{MadeOfSlots, FrozenOfSlots, FrozenOfItems, SlotsRefused, ItemsRefused};
ghost use Rattle.arrow_bytes.specs.Appends.{MadeOfGivenSlots, MadeOfGivenItems, FrozenOfGivenSlots, GivenSlotsRefused};
ghost use Rattle.arrow_bytes.specs.Appends.{GivenItemsRefused};

use crate::{ByteArray, MutableByteArray, MutableByteValuesArray};
use arrow_bytes::{ByteItem, ByteKind, ByteValues, ItemError};
use arrow_column::FrozenColumn;
use arrow_memory::bitmap::Bitmap;
use arrow_types::data_type::DataType;
use arrow_types::error::Error;
use arrow_types::offset::Offset;
use std::alloc::Global;

impl<K: ByteKind, O: Offset> MutableByteArray<K, O> {
    /// Creates a builder of these slots, which holds a mask exactly if one is null, of the default
    /// data type.
    ///
    /// # Errors
    /// - `Overflow` if the bytes of a slot would end past the greatest offset.
    /// - `OutOfMemory` if an allocation fails.
    pub fn from<X: ByteItem<K>>(alloc: Global, slots: &[Option<X>]) -> Result<Self, Error>
        ensures ok { IfOk result (MadeOfSlots X.bytes O.most (K.default_type O.IS_LARGE) slots.now) }
        ensures err { IfErr result (SlotsRefused X.bytes O.most (K.default_type O.IS_LARGE) slots.now) }
    {
        let mut builder = MutableByteArray::<K, O>::new(alloc)?;
        builder.column.extend_from_slots(slots)?;
        Ok(builder)
    }

    /// Creates a builder of the slots of an iterator, which holds a mask exactly if one is null, of
    /// the default data type. `size_hint` is only used to reserve room.
    ///
    /// # Errors
    /// - `Overflow` if the bytes of a slot would end past the greatest offset.
    /// - `OutOfMemory` if an allocation fails.
    pub fn from_iter<X: ByteItem<K> + ItemError, I: Iterator<Item = Option<X>>>(
        alloc: Global,
        iter: I,
    ) -> Result<Self, X::Error>
        requires can { I.can_next iter }
        requires ends { IsFinite (I.remaining iter) }
        ensures ok { IfOk result (MadeOfGivenSlots X.bytes O.most (K.default_type O.IS_LARGE) I.next_gives iter) }
        ensures err { IfErr result (λ e. GivenSlotsRefused X.bytes O.most (K.default_type O.IS_LARGE) I.next_gives iter
            (X.error e)) }
    {
        let mut builder = match MutableByteArray::<K, O>::new(alloc) {
            Ok(builder) => builder,
            Err(refused) => return Err(X::from_error(refused)),
        };
        match builder.column.extend(iter) {
            Ok(()) => Ok(builder),
            Err(refused) => Err(X::from_error(refused)),
        }
    }

    /// Creates a builder of the items of an iterator, without a mask, of the default data type.
    /// `size_hint` is only used to reserve room.
    ///
    /// # Errors
    /// - `Overflow` if an item would end past the greatest offset.
    /// - `OutOfMemory` if an allocation fails.
    pub fn from_iter_values<X: ByteItem<K> + ItemError, I: Iterator<Item = X>>(
        alloc: Global,
        iter: I,
    ) -> Result<Self, X::Error>
        requires can { I.can_next iter }
        requires ends { IsFinite (I.remaining iter) }
        ensures ok { IfOk result (MadeOfGivenItems X.bytes O.most (K.default_type O.IS_LARGE) I.next_gives iter) }
        ensures err { IfErr result (λ e. GivenItemsRefused X.bytes O.most (K.default_type O.IS_LARGE) I.next_gives iter
            (X.error e)) }
    {
        let mut builder = match MutableByteArray::<K, O>::new(alloc) {
            Ok(builder) => builder,
            Err(refused) => return Err(X::from_error(refused)),
        };
        match builder.column.extend_values(iter) {
            Ok(()) => Ok(builder),
            Err(refused) => Err(X::from_error(refused)),
        }
    }
}

impl<K: ByteKind, O: Offset> MutableByteValuesArray<K, O> {
    /// Creates a builder of the items of an iterator, of the default data type. `size_hint` is only
    /// used to reserve room.
    ///
    /// # Errors
    /// - `Overflow` if an item would end past the greatest offset.
    /// - `OutOfMemory` if an allocation fails.
    pub fn from_iter<X: ByteItem<K> + ItemError, I: Iterator<Item = X>>(
        alloc: Global,
        iter: I,
    ) -> Result<Self, X::Error>
        requires can { I.can_next iter }
        requires ends { IsFinite (I.remaining iter) }
        ensures ok { IfOk result (MadeOfGivenItems X.bytes O.most (K.default_type O.IS_LARGE) I.next_gives iter) }
        ensures err { IfErr result (λ e. GivenItemsRefused X.bytes O.most (K.default_type O.IS_LARGE) I.next_gives iter
            (X.error e)) }
    {
        let mut builder = match MutableByteValuesArray::<K, O>::new(alloc) {
            Ok(builder) => builder,
            Err(refused) => return Err(X::from_error(refused)),
        };
        match builder.extend(iter) {
            Ok(()) => Ok(builder),
            Err(refused) => Err(refused),
        }
    }

    /// Creates a builder of the items of an iterator, as `from_iter`.
    ///
    /// # Errors
    /// As `from_iter`.
    pub fn try_from_iter<X: ByteItem<K> + ItemError, I: Iterator<Item = X>>(
        alloc: Global,
        iter: I,
    ) -> Result<Self, X::Error>
        requires can { I.can_next iter }
        requires ends { IsFinite (I.remaining iter) }
        ensures ok { IfOk result (MadeOfGivenItems X.bytes O.most (K.default_type O.IS_LARGE) I.next_gives iter) }
        ensures err { IfErr result (λ e. GivenItemsRefused X.bytes O.most (K.default_type O.IS_LARGE) I.next_gives iter
            (X.error e)) }
    {
        MutableByteValuesArray::<K, O>::from_iter(alloc, iter)
    }
}

impl<K: ByteKind, O: Offset> ByteArray<K, O> {
    /// Creates an array of these items, without a mask, of the default data type.
    ///
    /// # Errors
    /// - `Overflow` if an item would end past the greatest offset.
    /// - `OutOfMemory` if an allocation fails.
    pub fn from_slice<X: ByteItem<K>>(alloc: Global, slice: &[X]) -> Result<Self, Error>
        ensures ok { IfOk result (FrozenOfItems X.bytes O.most (K.default_type O.IS_LARGE) slice.now) }
        ensures err { IfErr result (ItemsRefused X.bytes O.most (K.default_type O.IS_LARGE) slice.now) }
    {
        let mut builder = MutableByteArray::<K, O>::new(alloc)?;
        builder.column.extend_from_values(slice)?;
        builder.freeze()
    }

    /// Creates an array of these slots, which holds a mask exactly if one is null, of the default
    /// data type.
    ///
    /// # Errors
    /// - `Overflow` if the bytes of a slot would end past the greatest offset.
    /// - `OutOfMemory` if an allocation fails.
    pub fn from<X: ByteItem<K>>(alloc: Global, slots: &[Option<X>]) -> Result<Self, Error>
        ensures ok { IfOk result (FrozenOfSlots X.bytes O.most (K.default_type O.IS_LARGE) slots.now) }
        ensures err { IfErr result (SlotsRefused X.bytes O.most (K.default_type O.IS_LARGE) slots.now) }
    {
        MutableByteArray::<K, O>::from(alloc, slots)?.freeze()
    }

    /// Creates an array of the slots of an iterator, which holds a mask exactly if one is null, of
    /// the default data type. `size_hint` is only used to reserve room.
    ///
    /// # Errors
    /// - `Overflow` if the bytes of a slot would end past the greatest offset.
    /// - `OutOfMemory` if an allocation fails.
    pub fn from_iter<X: ByteItem<K> + ItemError, I: Iterator<Item = Option<X>>>(
        alloc: Global,
        iter: I,
    ) -> Result<Self, X::Error>
        requires can { I.can_next iter }
        requires ends { IsFinite (I.remaining iter) }
        ensures ok { IfOk result (FrozenOfGivenSlots X.bytes O.most (K.default_type O.IS_LARGE) I.next_gives iter) }
        ensures err { IfErr result (λ e. GivenSlotsRefused X.bytes O.most (K.default_type O.IS_LARGE) I.next_gives iter
            (X.error e)) }
    {
        let builder = MutableByteArray::<K, O>::from_iter(alloc, iter)?;
        match builder.freeze() {
            Ok(array) => Ok(array),
            Err(refused) => Err(X::from_error(refused)),
        }
    }

    /// Creates an array of the items of an iterator, without a mask, of the default data type.
    /// `size_hint` is only used to reserve room.
    ///
    /// # Errors
    /// - `Overflow` if an item would end past the greatest offset.
    /// - `OutOfMemory` if an allocation fails.
    pub fn from_iter_values<X: ByteItem<K> + ItemError, I: Iterator<Item = X>>(
        alloc: Global,
        iter: I,
    ) -> Result<Self, X::Error>
        requires can { I.can_next iter }
        requires ends { IsFinite (I.remaining iter) }
        ensures ok { IfOk result (MadeOfGivenItems X.bytes O.most (K.default_type O.IS_LARGE) I.next_gives iter) }
        ensures err { IfErr result (λ e. GivenItemsRefused X.bytes O.most (K.default_type O.IS_LARGE) I.next_gives iter
            (X.error e)) }
    {
        let builder = MutableByteValuesArray::<K, O>::from_iter(alloc, iter)?;
        match builder.freeze() {
            Ok(array) => Ok(array),
            Err(refused) => Err(X::from_error(refused)),
        }
    }

    /// Creates an array of `length` null slots that store no byte, with a mask. The data type must
    /// have the array's physical type.
    ///
    /// # Errors
    /// `OutOfMemory` if an allocation fails.
    pub fn new_null(alloc: Global, data_type: DataType, length: usize) -> Result<Self, Error>
        requires { IsRightType (K.layout O.IS_LARGE) (logical_type data_type) }
        ensures ok { IfOk result (λ array. array ≡ null_column (logical_type data_type) nothing_around [] length) }
        ensures err { OnlyOutOfMemory result }
    {
        let values = ByteValues::new_empty_items(alloc, length)?;
        let validity = Bitmap::new_zeroed(alloc, length)?;
        Ok(ByteArray {
            column: FrozenColumn::new(data_type, values, Some(validity)),
        })
    }
}

impl<K: ByteKind, O: Offset> From<MutableByteValuesArray<K, O>> for MutableByteArray<K, O> {
    ghost from_gives = { λ values builder. builder ≡ values };

    /// Converts a builder without nulls into one with nulls of the same slots, which holds no mask.
    fn from(values: MutableByteValuesArray<K, O>) -> Self {
        MutableByteArray {
            column: values.column,
        }
    }
}
