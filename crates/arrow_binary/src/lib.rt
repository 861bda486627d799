//! Arrays of bytes and their builders (Arrow columnar format, "Variable-size Binary Layout"). Any
//! list of bytes is an item. Their calls and contracts are those of `arrow_byte_array` at the kind
//! `Binary`.
#![tactic(auto)]

use arrow_byte_array::{ByteArray, MutableByteArray, MutableByteValuesArray};
use arrow_bytes::Binary;
use arrow_check::values_iter::ArrayValuesIter;

/// An immutable array of byte strings, each of which may be null; a null slot stores bytes too.
/// Bytes may lie before the first slot and after the last.
///
/// `try_new` rejects parts if the last offset is past the values, then if a mask has another number
/// of marks than there are slots, then if the data type's physical type is not `Binary`, or
/// `LargeBinary` over large offsets.
pub type BinaryArray<O> = ByteArray<Binary, O>;

/// A growing array of byte strings, each of which may be null: the builder of [`BinaryArray`].
/// Bytes may lie before the first slot; none lie after the last.
///
/// `try_new` rejects parts if the last offset is not the number of values, then if the data type's
/// physical type is not `Binary`, or `LargeBinary` over large offsets, then if a mask has another
/// number of marks than there are slots.
pub type MutableBinaryArray<O> = MutableByteArray<Binary, O>;

/// A growing array of byte strings, none of which is null. Bytes may lie before the first of them;
/// none lie after the last. `try_new` rejects parts as that of [`MutableBinaryArray`] does.
pub type MutableBinaryValuesArray<O> = MutableByteValuesArray<Binary, O>;

/// An iterator over the bytes that the slots of an array store.
pub type BinaryValueIter<'a, O> = ArrayValuesIter<'a, ByteArray<Binary, O>>;

/// An iterator over the items of a builder without nulls.
pub type MutableBinaryValuesIter<'a, O> = ArrayValuesIter<'a, MutableByteValuesArray<Binary, O>>;
