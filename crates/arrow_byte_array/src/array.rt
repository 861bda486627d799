//! Arrays of bytes and of text. Each call is one of its column, stated again for readers of this type.
ghost use Rattle.std.specs.Prelude.{◌≡◌, ◌==◌, ◌<◌, length, not, count_by, slice_get, Some, None, IfOk};
ghost use Rattle.std.specs.Prelude.{IfErr};
ghost use Rattle.std.specs.Option.{option_copied};
ghost use Rattle.arrow_types.specs.Failures.{OnlyOutOfMemory};
ghost use Rattle.arrow_types.specs.Types.{logical_type, IsRightType};
ghost use Rattle.arrow_memory.specs.Rows.{FitsMask};
ghost use Rattle.arrow_column.specs.Column.{FitsCut, IsColumn, column_with, cut_with, mask_of, marks_of};
ghost use Rattle.arrow_column.specs.Column.{stored_values};
ghost use Rattle.arrow_check.specs.Pieces.{items_of};
ghost use Rattle.arrow_bytes.specs.Pieces.{around_cut};
ghost use Rattle.arrow_bytes.specs.Column.{byte_column, bytes_held, empty_bytes, offsets_held};
ghost use Rattle.arrow_bytes.specs.Kinds.{AreItems, CutItems, IsItem};

use arrow_bytes::{ByteKind, ByteValues};
use arrow_column::FrozenColumn;
use arrow_memory::bitmap::Bitmap;
use arrow_memory::buffer::Buffer;
use arrow_memory::offset::OffsetsBuffer;
use arrow_types::data_type::DataType;
use arrow_types::error::Error;
use arrow_types::offset::Offset;
use std::alloc::Global;
use std::marker::Model;

/// An immutable array of byte strings of one kind, each of which may be null; a null slot stores an
/// item too. Bytes may lie before the first slot and after the last.
///
/// Other Arrow crates call it a `GenericByteArray`. `BinaryArray` and `Utf8Array` are its names for
/// bytes and for text.
#[derive(Drop)]
pub struct ByteArray<K: ByteKind, O: Offset> {
    pub(crate) column: FrozenColumn<ByteValues<K, O>>,
}

// Contracts see the column: the type, a row for each slot, the bytes around them, and whether a mask is held.
impl<K: ByteKind, O: Offset> Model for ByteArray<K, O> {
    ghost use Rattle.arrow_types.specs.Types.{IsRightType};
    ghost use Rattle.arrow_bytes.specs.Column.{ByteColumn};

    ghost Value = { ByteColumn };

    ghost view = { λ array. array.column };

    ghost invariant = { λ array. IsRightType (K.layout O.IS_LARGE) array.column.data_type };
}

impl<K: ByteKind, O: Offset> ByteArray<K, O> {
    /// Returns the default data type: `Binary` or `Utf8`, or the large type if the offset type is
    /// large.
    pub fn default_data_type() -> DataType
        ensures value { logical_type result ≡ K.default_type O.IS_LARGE }
        ensures right { IsRightType (K.layout O.IS_LARGE) (logical_type result) }
    {
        K::default_type(O::IS_LARGE)
    }

    /// Creates an array from parts that fit: no offset is past the values, every slot is an item of
    /// the kind (text is UTF-8 by itself), a mask has a mark for each slot, and the data type has
    /// the array's physical type. [`ByteArray::try_new`] checks them.
    pub fn new(
        data_type: DataType,
        offsets: OffsetsBuffer<O>,
        values: Buffer<u8>,
        validity: Option<Bitmap>,
    ) -> Self
        requires cut { CutItems K.is_text offsets values }
        requires mask { FitsMask (items_of offsets values) validity }
        requires right { IsRightType (K.layout O.IS_LARGE) (logical_type data_type) }
        ensures { result ≡ byte_column (logical_type data_type) offsets values validity }
    {
        ByteArray {
            column: FrozenColumn::new(data_type, ByteValues::new(offsets, values), validity),
        }
    }

    /// Creates an array of stored items and a mask with a mark for each of them. The data type must have the array's
    /// physical type.
    pub fn from_byte_values(
        data_type: DataType,
        values: ByteValues<K, O>,
        validity: Option<Bitmap>,
    ) -> Self
        requires mask { FitsMask values.items validity }
        requires right { IsRightType (K.layout O.IS_LARGE) (logical_type data_type) }
        ensures { result ≡ column_with (logical_type data_type) values.around values.items validity }
    {
        ByteArray {
            column: FrozenColumn::new(data_type, values, validity),
        }
    }

    /// Creates an array of no slots and no bytes, without a mask. The data type must have the
    /// array's physical type.
    ///
    /// # Errors
    /// `OutOfMemory` if an allocation fails.
    pub fn new_empty(alloc: Global, data_type: DataType) -> Result<Self, Error>
        requires { IsRightType (K.layout O.IS_LARGE) (logical_type data_type) }
        ensures ok { IfOk result (λ array. array ≡ empty_bytes (logical_type data_type)) }
        ensures err { OnlyOutOfMemory result }
    {
        let values = ByteValues::new_empty_items(alloc, 0)?;
        Ok(ByteArray {
            column: FrozenColumn::new(data_type, values, None),
        })
    }

    /// Creates an array of no slots and no bytes, without a mask, of the default data type.
    ///
    /// # Errors
    /// `OutOfMemory` if an allocation fails.
    pub fn default(alloc: Global) -> Result<Self, Error>
        ensures ok { IfOk result (λ array. array ≡ empty_bytes (K.default_type O.IS_LARGE)) }
        ensures err { OnlyOutOfMemory result }
    {
        ByteArray::new_empty(alloc, K::default_type(O::IS_LARGE))
    }

    /// Returns the data type, the offsets, all bytes, and the mask if one is held.
    pub fn into_inner(self) -> (DataType, OffsetsBuffer<O>, Buffer<u8>, Option<Bitmap>)
        ensures data_type { logical_type result.0 ≡ self.data_type }
        ensures offsets { result.1 ≡ offsets_held self }
        ensures values { result.2 ≡ bytes_held self }
        ensures mask { result.3 ≡ mask_of self }
        ensures cut { CutItems K.is_text result.1 result.2 }
        ensures is_column { IsColumn self }
        ensures fits { FitsMask (items_of result.1 result.2) result.3 }
        ensures again { byte_column (logical_type result.0) result.1 result.2 result.3 ≡ self }
        ensures right { IsRightType (K.layout O.IS_LARGE) (logical_type result.0) }
    {
        let (data_type, values, validity) = self.column.into_inner();
        let (offsets, values) = values.into_inner();
        (data_type, offsets, values, validity)
    }

    /// Returns the stored items, those of null slots included, with the bytes around them.
    #[inline(always)]
    pub fn byte_values(&self) -> &ByteValues<K, O>
        ensures around { result.now.around ≡ self.now.around }
        ensures items { result.now.items ≡ stored_values self.now }
        ensures count { length result.now.items ≡ length self.now.rows }
    {
        self.column.values()
    }

    /// Returns the bytes of the item that is stored at `i`, also if the slot is null.
    #[inline(always)]
    pub fn item(&self, i: usize) -> &[u8]
        requires { i < length self.now.rows }
        ensures value { slice_get (stored_values self.now) i ≡ Some result.now }
        ensures item { IsItem K.is_text result.now }
    {
        self.column.values().value(i)
    }

    /// Returns the number of slots.
    #[inline(always)]
    pub fn len(&self) -> usize
        ensures { result ≡ length self.now.rows }
    {
        self.column.len()
    }

    /// Returns whether there is no slot.
    #[inline(always)]
    pub fn is_empty(&self) -> bool
        ensures { result ≡ (length self.now.rows == 0) }
    {
        self.column.is_empty()
    }

    /// Returns whether the slot at `i` is null.
    #[inline(always)]
    pub fn is_null(&self, i: usize) -> bool
        requires { i < length self.now.rows }
        ensures { slice_get (marks_of self.now) i ≡ Some (not result) }
    {
        self.column.is_null(i)
    }

    /// Returns whether the slot at `i` is valid, that is, not null.
    #[inline(always)]
    pub fn is_valid(&self, i: usize) -> bool
        requires { i < length self.now.rows }
        ensures { slice_get (marks_of self.now) i ≡ Some result }
    {
        !self.is_null(i)
    }

    /// Returns the number of null slots, in constant time.
    #[inline(always)]
    pub fn null_count(&self) -> usize
        ensures { result ≡ count_by not (marks_of self.now) }
    {
        self.column.null_count()
    }

    /// Returns all bytes, including those before the first slot and after the last. Every slot is
    /// an item of the kind.
    #[inline(always)]
    pub fn values(&self) -> &Buffer<u8>
        ensures value { result.now ≡ bytes_held self.now }
        ensures items { AreItems K.is_text (stored_values self.now) }
    {
        self.column.values().bytes()
    }

    /// Returns the offsets: where each slot begins and ends in the bytes.
    #[inline(always)]
    pub fn offsets(&self) -> &OffsetsBuffer<O>
        ensures { result.now ≡ offsets_held self.now }
    {
        self.column.values().offsets()
    }

    /// Returns the mask if one is held; otherwise no slot is null.
    #[inline(always)]
    pub fn validity(&self) -> Option<&Bitmap>
        ensures mask { option_copied result ≡ mask_of self.now }
        ensures is_column { IsColumn self.now }
    {
        self.column.validity()
    }

    /// Returns the data type.
    #[inline(always)]
    pub fn data_type(&self) -> &DataType
        ensures value { logical_type result.now ≡ self.now.data_type }
        ensures right { IsRightType (K.layout O.IS_LARGE) self.now.data_type }
    {
        self.column.data_type()
    }

    /// Keeps only the `len` slots from `offset` on, without copying any. A held mask stays held,
    /// and all bytes stay.
    pub fn slice(&mut self, offset: usize, len: usize)
        requires { FitsCut self.old offset len }
        ensures { self.new ≡ cut_with around_cut self.old offset len }
    {
        self.column.slice(offset, len);
    }

    /// Returns the `len` slots from `offset` on, without copying any. A held mask stays held, and
    /// all bytes stay.
    pub fn sliced(mut self, offset: usize, len: usize) -> Self
        requires { FitsCut self offset len }
        ensures { result ≡ cut_with around_cut self offset len }
    {
        self.slice(offset, len);
        self
    }

    /// Returns a clone that shares offsets, bytes and marks.
    ///
    /// # Errors
    /// `OutOfMemory` if an allocation fails.
    pub fn clone(&self) -> Result<Self, Error>
        ensures ok { IfOk result (λ copy. copy ≡ self.now) }
        ensures err { OnlyOutOfMemory result }
    {
        Ok(ByteArray {
            column: self.column.clone()?,
        })
    }
}
