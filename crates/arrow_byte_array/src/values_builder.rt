//! Builders without nulls of arrays of bytes and of text. A null that is pushed is an empty item.
ghost use Rattle.std.specs.Prelude.{◌≡◌, ◌==◌, ◌≤◌, [], false, is_some, IsTrue, length, None, Some, OnOk, IfOk};
ghost use Rattle.std.specs.Prelude.{IfErr, option_map, IsOk};
ghost use Rattle.arrow_types.specs.Failures.{OnlyOutOfMemory, OutOfMemoryKeeps};
ghost use Rattle.arrow_types.specs.Types.{logical_type, IsRightType};
ghost use Rattle.arrow_column.specs.Column.{all_valid, append_slot, last_slot, stored_values, without_last};
ghost use Rattle.arrow_column.specs.Column.{without_needless_mask};
ghost use Rattle.arrow_memory.specs.Offsets.{last_of};
ghost use Rattle.arrow_check.specs.Pieces.{items_of};
ghost use Rattle.arrow_bytes.specs.Column.{byte_column, bytes_held, empty_bytes, offsets_held};
ghost use Rattle.arrow_bytes.specs.Kinds.{AreItems};

use crate::ByteArray;
use crate::builder::pop_slot;
use arrow_bytes::{ByteKind, MutableByteValues};
use arrow_column::{FrozenColumn, GrowingColumn};
use arrow_memory::offset::Offsets;
use arrow_types::data_type::DataType;
use arrow_types::error::Error;
use arrow_types::offset::Offset;
use std::alloc::Global;
use std::marker::Model;

/// A growing array of byte strings of one kind, none of which is null. Bytes may lie before the
/// first of them; none lie after the last.
#[derive(Drop)]
pub struct MutableByteValuesArray<K: ByteKind, O: Offset> {
    pub(crate) column: GrowingColumn<MutableByteValues<K, O>>,
}

// Contracts see a column that holds no mask.
impl<K: ByteKind, O: Offset> Model for MutableByteValuesArray<K, O> {
    ghost use Rattle.std.specs.Prelude.{◌≡◌, false};
    ghost use Rattle.arrow_types.specs.Types.{IsRightType};
    ghost use Rattle.arrow_bytes.specs.Column.{ByteColumn};

    ghost Value = { ByteColumn };

    ghost view = { λ builder. builder.column };

    ghost invariant = { λ builder. IsRightType (K.layout O.IS_LARGE) builder.column.data_type
        × (builder.column.held ≡ false) };
}

impl<K: ByteKind, O: Offset> MutableByteValuesArray<K, O> {
    /// Returns the default data type: `Binary` or `Utf8`, or the large type if the offset type is
    /// large.
    pub fn default_data_type() -> DataType
        ensures value { logical_type result ≡ K.default_type O.IS_LARGE }
        ensures right { IsRightType (K.layout O.IS_LARGE) (logical_type result) }
    {
        K::default_type(O::IS_LARGE)
    }

    /// Creates a builder of no items, of the default data type.
    ///
    /// # Errors
    /// `OutOfMemory` if an allocation fails.
    pub fn new(alloc: Global) -> Result<Self, Error>
        ensures ok { IfOk result (λ builder. builder ≡ empty_bytes (K.default_type O.IS_LARGE)) }
        ensures err { OnlyOutOfMemory result }
    {
        MutableByteValuesArray::with_capacities(alloc, 0, 0)
    }

    /// Creates a builder of no items, as [`MutableByteValuesArray::new`].
    ///
    /// # Errors
    /// `OutOfMemory` if an allocation fails.
    pub fn default(alloc: Global) -> Result<Self, Error>
        ensures ok { IfOk result (λ builder. builder ≡ empty_bytes (K.default_type O.IS_LARGE)) }
        ensures err { OnlyOutOfMemory result }
    {
        MutableByteValuesArray::new(alloc)
    }

    /// Creates a builder of no items with room for at least `capacity` items.
    ///
    /// # Errors
    /// `OutOfMemory` if an allocation fails.
    pub fn with_capacity(alloc: Global, capacity: usize) -> Result<Self, Error>
        ensures ok { IfOk result (λ builder. builder ≡ empty_bytes (K.default_type O.IS_LARGE)) }
        ensures err { OnlyOutOfMemory result }
    {
        MutableByteValuesArray::with_capacities(alloc, capacity, 0)
    }

    /// Creates a builder of no items with room for at least `capacity` items and `values` bytes.
    ///
    /// # Errors
    /// `OutOfMemory` if an allocation fails.
    pub fn with_capacities(alloc: Global, capacity: usize, values: usize) -> Result<Self, Error>
        ensures ok { IfOk result (λ builder. builder ≡ empty_bytes (K.default_type O.IS_LARGE)) }
        ensures err { OnlyOutOfMemory result }
    {
        let values = MutableByteValues::with_capacities(alloc, capacity, values)?;
        Ok(MutableByteValuesArray {
            column: GrowingColumn::new(K::default_type(O::IS_LARGE), values, None),
        })
    }

    /// Returns the data type, the offsets, and all bytes.
    pub fn into_inner(self) -> (DataType, Offsets<O>, Vec<u8>)
        ensures data_type { logical_type result.0 ≡ self.data_type }
        ensures offsets { result.1 ≡ offsets_held self }
        ensures values { result.2.items ≡ bytes_held self }
        ensures at_end { last_of result.1 ≡ length result.2.items }
        ensures items { AreItems K.is_text (items_of result.1 result.2.items) }
        ensures again { byte_column (logical_type result.0) result.1 result.2.items None ≡ self }
        ensures right { IsRightType (K.layout O.IS_LARGE) (logical_type result.0) }
    {
        let (data_type, values, _) = self.column.into_inner();
        let (offsets, values) = values.into_inner();
        (data_type, offsets, values)
    }

    /// Returns the number of items.
    #[inline(always)]
    pub fn len(&self) -> usize
        ensures { result ≡ length self.now.rows }
    {
        self.column.len()
    }

    /// Returns whether there is no item.
    #[inline(always)]
    pub fn is_empty(&self) -> bool
        ensures { result ≡ (length self.now.rows == 0) }
    {
        self.column.is_empty()
    }

    /// Returns the number of items for whose offsets there is room; their bytes may have less.
    pub fn capacity(&self) -> usize
        ensures { length self.now.rows ≤ result }
    {
        self.column.values().capacity()
    }

    /// Returns all bytes, including those before the first item. Every item is one of the kind.
    #[inline(always)]
    pub fn values(&self) -> &Vec<u8>
        ensures value { result.now.items ≡ bytes_held self.now }
        ensures tail { self.now.around.tail ≡ [] }
        ensures items { AreItems K.is_text (stored_values self.now) }
    {
        self.column.values().bytes()
    }

    /// Returns the offsets: where each item begins and ends in the bytes.
    #[inline(always)]
    pub fn offsets(&self) -> &Offsets<O>
        ensures { result.now ≡ offsets_held self.now }
    {
        self.column.values().offsets()
    }

    /// Returns the data type.
    #[inline(always)]
    pub fn data_type(&self) -> &DataType
        ensures value { logical_type result.now ≡ self.now.data_type }
        ensures right { IsRightType (K.layout O.IS_LARGE) self.now.data_type }
        ensures held { self.now.held ≡ false }
        ensures valid { IsTrue (all_valid self.now) }
    {
        // Called for its contract: without a mask every slot is valid.
        self.column.validity();
        self.column.data_type()
    }

    /// Appends an empty item.
    ///
    /// # Errors
    /// `OutOfMemory` if an allocation fails; the builder is then unchanged.
    #[inline(always)]
    pub fn push_null(&mut self) -> Result<(), Error>
        ensures ok { OnOk result (self.new ≡ append_slot [] self.old (Some [])) }
        ensures err { OutOfMemoryKeeps result self.old self.new }
    {
        self.column.push_unmasked_default()
    }

    /// Removes the last item and returns a copy of it; `None` if there is none, for which nothing
    /// is allocated.
    ///
    /// # Errors
    /// `OutOfMemory` if the copy cannot be allocated; the builder is then unchanged.
    pub fn pop(&mut self) -> Result<Option<K::Owned>, Error>
        ensures ok { OnOk result (self.new ≡ without_last self.old) }
        ensures slot { IfOk result (λ slot. option_map K.owned slot ≡ last_slot self.old) }
        ensures err { IfErr result (λ e. (e ≡ Error.OutOfMemory) × IsTrue (is_some (last_slot self.old))
            × (self.new ≡ self.old)) }
    {
        pop_slot(&mut self.column)
    }

    /// Reserves room for at least `additional` more items and `additional_values` more bytes.
    ///
    /// # Errors
    /// `OutOfMemory` if an allocation fails.
    pub fn reserve(&mut self, additional: usize, additional_values: usize) -> Result<(), Error>
        ensures kept { self.new ≡ self.old }
        ensures err { OnlyOutOfMemory result }
    {
        self.column.reserve_items(additional, additional_values)
    }

    /// Gives unused room back to the allocator, if it takes it.
    ///
    /// # Errors
    /// Never: if the allocator refuses a smaller allocation, the room stays.
    pub fn shrink_to_fit(&mut self) -> Result<(), Error>
        ensures kept { self.new ≡ self.old }
        ensures ok { IsOk result }
    {
        self.column.shrink_to_fit()
    }

    /// Returns a copy.
    ///
    /// # Errors
    /// `OutOfMemory` if an allocation fails.
    pub fn clone(&self) -> Result<Self, Error>
        ensures ok { IfOk result (λ copy. copy ≡ self.now) }
        ensures err { OnlyOutOfMemory result }
    {
        Ok(MutableByteValuesArray {
            column: self.column.clone()?,
        })
    }

    /// Converts the builder into an array of the same items without copying bytes. The array holds
    /// no mask.
    ///
    /// # Errors
    /// `OutOfMemory` if an allocation fails; the builder is then dropped.
    pub fn freeze(self) -> Result<ByteArray<K, O>, Error>
        ensures ok { IfOk result (λ array. array ≡ self) }
        ensures needless { IfOk result (λ array. array ≡ without_needless_mask self) }
        ensures err { OnlyOutOfMemory result }
    {
        let (data_type, values, _) = self.column.into_inner();
        Ok(ByteArray {
            column: FrozenColumn::new(data_type, values.freeze()?, None),
        })
    }
}
