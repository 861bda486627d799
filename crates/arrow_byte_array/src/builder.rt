//! Builders with nulls of arrays of bytes and of text. An overflow is found before a byte is appended.
ghost use Rattle.std.specs.Prelude.{◌≡◌, ◌==◌, ◌<◌, ◌≤◌, [], is_some, IsTrue, length, not, count_by, slice_get};
ghost use Rattle.std.specs.Prelude.{Some, None, OnOk, IfOk, IfErr, option_map, IsOk};
ghost use Rattle.std.specs.Option.{option_copied};
ghost use Rattle.arrow_types.specs.Failures.{OnlyOutOfMemory, OutOfMemoryKeeps};
ghost use Rattle.arrow_types.specs.Types.{logical_type, IsRightType};
ghost use Rattle.arrow_memory.specs.Rows.{FitsMask};
ghost use Rattle.arrow_column.specs.Column.{IsColumn, append_slot, last_slot, marks_of, mask_of, stored_values};
ghost use Rattle.arrow_column.specs.Column.{without_last, without_needless_mask};
ghost use Rattle.arrow_memory.specs.Offsets.{last_of};
ghost use Rattle.arrow_check.specs.Pieces.{items_of};
ghost use Rattle.arrow_bytes.specs.Column.{byte_column, bytes_held, empty_bytes, offsets_held};
ghost use Rattle.arrow_bytes.specs.Kinds.{AreItems};

use crate::{ByteArray, MutableByteValuesArray};
use arrow_bytes::{ByteKind, MutableByteValues};
use arrow_column::{FrozenColumn, GrowingColumn, MutableValues};
use arrow_memory::bitmap::MutableBitmap;
use arrow_memory::offset::Offsets;
use arrow_types::data_type::DataType;
use arrow_types::error::Error;
use arrow_types::offset::Offset;
use std::alloc::Global;
use std::marker::Model;

/// Removes the last slot of a column and returns a copy of it; `None` if it is null or there is
/// none.
pub(crate) fn pop_slot<K: ByteKind, O: Offset>(
    column: &mut GrowingColumn<MutableByteValues<K, O>>,
) -> Result<Option<K::Owned>, Error>
    ensures ok { OnOk result (column.new ≡ without_last column.old) }
    ensures slot { IfOk result (λ slot. option_map K.owned slot ≡ last_slot column.old) }
    ensures err { IfErr result (λ e. (e ≡ Error.OutOfMemory) × IsTrue (is_some (last_slot column.old))
        × (column.new ≡ column.old)) }
{
    let Some(last) = column.len().checked_sub(1) else {
        return Ok(None);
    };
    if column.is_null(last) {
        column.remove_last();
        return Ok(None);
    }
    let values = column.values();
    let item = K::copy_item(values.allocated_by(), values.value(last))?;
    column.remove_last();
    Ok(Some(item))
}

/// A growing array of byte strings of one kind, each of which may be null: the builder of
/// [`ByteArray`]. A null slot stores an item too. Bytes may lie before the first slot; none lie
/// after the last.
#[derive(Drop)]
pub struct MutableByteArray<K: ByteKind, O: Offset> {
    pub(crate) column: GrowingColumn<MutableByteValues<K, O>>,
}

// Contracts see the column: the type, a row for each slot, the bytes before them, and whether a mask is held.
impl<K: ByteKind, O: Offset> Model for MutableByteArray<K, O> {
    ghost use Rattle.arrow_types.specs.Types.{IsRightType};
    ghost use Rattle.arrow_bytes.specs.Column.{ByteColumn};

    ghost Value = { ByteColumn };

    ghost view = { λ builder. builder.column };

    ghost invariant = { λ builder. IsRightType (K.layout O.IS_LARGE) builder.column.data_type };
}

impl<K: ByteKind, O: Offset> MutableByteArray<K, O> {
    /// Creates a builder of no slots, without a mask, of the default data type.
    ///
    /// # Errors
    /// `OutOfMemory` if an allocation fails.
    pub fn new(alloc: Global) -> Result<Self, Error>
        ensures ok { IfOk result (λ builder. builder ≡ empty_bytes (K.default_type O.IS_LARGE)) }
        ensures err { OnlyOutOfMemory result }
    {
        MutableByteArray::with_capacities(alloc, 0, 0)
    }

    /// Creates a builder of no slots, as [`MutableByteArray::new`].
    ///
    /// # Errors
    /// `OutOfMemory` if an allocation fails.
    pub fn default(alloc: Global) -> Result<Self, Error>
        ensures ok { IfOk result (λ builder. builder ≡ empty_bytes (K.default_type O.IS_LARGE)) }
        ensures err { OnlyOutOfMemory result }
    {
        MutableByteArray::new(alloc)
    }

    /// Creates a builder of no slots, without a mask, with room for at least `capacity` slots.
    ///
    /// # Errors
    /// `OutOfMemory` if an allocation fails.
    pub fn with_capacity(alloc: Global, capacity: usize) -> Result<Self, Error>
        ensures ok { IfOk result (λ builder. builder ≡ empty_bytes (K.default_type O.IS_LARGE)) }
        ensures err { OnlyOutOfMemory result }
    {
        MutableByteArray::with_capacities(alloc, capacity, 0)
    }

    /// Creates a builder of no slots, without a mask, with room for at least `capacity` slots and
    /// `values` bytes.
    ///
    /// # Errors
    /// `OutOfMemory` if an allocation fails.
    // Out of line, so that the compiler follows the new builder through a loop of appends.
    #[inline(never)]
    pub fn with_capacities(alloc: Global, capacity: usize, values: usize) -> Result<Self, Error>
        ensures ok { IfOk result (λ builder. builder ≡ empty_bytes (K.default_type O.IS_LARGE)) }
        ensures err { OnlyOutOfMemory result }
    {
        let values = MutableByteValues::with_capacities(alloc, capacity, values)?;
        Ok(MutableByteArray {
            column: GrowingColumn::new(K::default_type(O::IS_LARGE), values, None),
        })
    }

    /// Returns the number of slots.
    #[inline(always)]
    pub fn len(&self) -> usize
        ensures { result ≡ length self.now.rows }
    {
        self.column.len()
    }

    /// Returns whether there is no slot.
    #[inline(always)]
    pub fn is_empty(&self) -> bool
        ensures { result ≡ (length self.now.rows == 0) }
    {
        self.column.is_empty()
    }

    /// Returns whether the slot at `i` is null.
    #[inline(always)]
    pub fn is_null(&self, i: usize) -> bool
        requires { i < length self.now.rows }
        ensures { slice_get (marks_of self.now) i ≡ Some (not result) }
    {
        self.column.is_null(i)
    }

    /// Returns the number of null slots. Counts them if a mask is held.
    #[inline(always)]
    pub fn null_count(&self) -> usize
        ensures { result ≡ count_by not (marks_of self.now) }
    {
        self.column.null_count()
    }

    /// Returns the number of slots for whose offsets there is room; bytes and a mask may have less.
    pub fn capacity(&self) -> usize
        ensures { length self.now.rows ≤ result }
    {
        self.column.values().capacity()
    }

    /// Returns the data type, the offsets, all bytes, and the mask if one is held.
    pub fn into_data(self) -> (DataType, Offsets<O>, Vec<u8>, Option<MutableBitmap>)
        ensures data_type { logical_type result.0 ≡ self.data_type }
        ensures offsets { result.1 ≡ offsets_held self }
        ensures values { result.2.items ≡ bytes_held self }
        ensures mask { result.3 ≡ mask_of self }
        ensures at_end { last_of result.1 ≡ length result.2.items }
        ensures items { AreItems K.is_text (items_of result.1 result.2.items) }
        ensures is_column { IsColumn self }
        ensures fits { FitsMask (items_of result.1 result.2.items) result.3 }
        ensures again { byte_column (logical_type result.0) result.1 result.2.items result.3 ≡ self }
        ensures right { IsRightType (K.layout O.IS_LARGE) (logical_type result.0) }
    {
        let (data_type, values, validity) = self.column.into_inner();
        let (offsets, values) = values.into_inner();
        (data_type, offsets, values, validity)
    }

    /// Returns all bytes, including those before the first slot. Every slot is an item of the kind.
    #[inline(always)]
    pub fn values(&self) -> &Vec<u8>
        ensures value { result.now.items ≡ bytes_held self.now }
        ensures tail { self.now.around.tail ≡ [] }
        ensures items { AreItems K.is_text (stored_values self.now) }
    {
        self.column.values().bytes()
    }

    /// Returns the offsets: where each slot begins and ends in the bytes.
    #[inline(always)]
    pub fn offsets(&self) -> &Offsets<O>
        ensures { result.now ≡ offsets_held self.now }
    {
        self.column.values().offsets()
    }

    /// Returns the mask if one is held; otherwise no slot is null.
    #[inline(always)]
    pub fn validity(&self) -> Option<&MutableBitmap>
        ensures mask { option_copied result ≡ mask_of self.now }
        ensures is_column { IsColumn self.now }
    {
        self.column.validity()
    }

    /// Returns the data type.
    #[inline(always)]
    pub fn data_type(&self) -> &DataType
        ensures value { logical_type result.now ≡ self.now.data_type }
        ensures right { IsRightType (K.layout O.IS_LARGE) self.now.data_type }
    {
        self.column.data_type()
    }

    /// Appends a null, which stores no byte. The builder holds a mask from then on.
    ///
    /// # Errors
    /// `OutOfMemory` if an allocation fails; the builder is then unchanged.
    #[inline(always)]
    pub fn push_null(&mut self) -> Result<(), Error>
        ensures ok { OnOk result (self.new ≡ append_slot [] self.old None) }
        ensures err { OutOfMemoryKeeps result self.old self.new }
    {
        self.column.push_null()
    }

    /// Removes the last slot and returns a copy of it; `None` if it is null or there is none, for
    /// which nothing is allocated.
    ///
    /// # Errors
    /// `OutOfMemory` if the copy cannot be allocated; the builder is then unchanged.
    pub fn pop(&mut self) -> Result<Option<K::Owned>, Error>
        ensures ok { OnOk result (self.new ≡ without_last self.old) }
        ensures slot { IfOk result (λ slot. option_map K.owned slot ≡ last_slot self.old) }
        ensures err { IfErr result (λ e. (e ≡ Error.OutOfMemory) × IsTrue (is_some (last_slot self.old))
            × (self.new ≡ self.old)) }
    {
        pop_slot(&mut self.column)
    }

    /// Reserves room for at least `additional` more slots, in a held mask too, and for
    /// `additional_values` more bytes.
    ///
    /// # Errors
    /// `OutOfMemory` if an allocation fails.
    pub fn reserve(&mut self, additional: usize, additional_values: usize) -> Result<(), Error>
        ensures kept { self.new ≡ self.old }
        ensures err { OnlyOutOfMemory result }
    {
        self.column.reserve_items(additional, additional_values)
    }

    /// Gives unused room back to the allocator, if it takes it.
    ///
    /// # Errors
    /// Never: if the allocator refuses a smaller allocation, the room stays.
    pub fn shrink_to_fit(&mut self) -> Result<(), Error>
        ensures kept { self.new ≡ self.old }
        ensures ok { IsOk result }
    {
        self.column.shrink_to_fit()
    }

    /// Returns a copy.
    ///
    /// # Errors
    /// `OutOfMemory` if an allocation fails.
    pub fn clone(&self) -> Result<Self, Error>
        ensures ok { IfOk result (λ copy. copy ≡ self.now) }
        ensures err { OnlyOutOfMemory result }
    {
        Ok(MutableByteArray {
            column: self.column.clone()?,
        })
    }

    /// Converts the builder into an array of the same slots without copying bytes. The array holds
    /// a mask exactly if a slot is null.
    ///
    /// # Errors
    /// `OutOfMemory` if an allocation fails; the builder is then dropped.
    pub fn freeze(self) -> Result<ByteArray<K, O>, Error>
        ensures ok { IfOk result (λ array. array ≡ without_needless_mask self) }
        ensures err { OnlyOutOfMemory result }
    {
        let (data_type, values, validity) = self.column.freeze_mask()?;
        Ok(ByteArray {
            column: FrozenColumn::new(data_type, values.freeze()?, validity),
        })
    }
}
