//! Arrays of text and their builders (Arrow columnar format, "Variable-size Binary Layout"). Each
//! item is UTF-8 by itself, and stays so through every call. Their calls and contracts are those of
//! `arrow_byte_array` at the kind `Utf8`.
#![tactic(auto)]

use arrow_byte_array::{ByteArray, MutableByteArray, MutableByteValuesArray};
use arrow_bytes::Utf8;
use arrow_check::values_iter::ArrayValuesIter;

/// An immutable array of texts, each of which may be null; each slot is UTF-8 by itself, a null one
/// too. Bytes may lie before the first slot and after the last.
///
/// `try_new` rejects parts if the last offset is past the values, then if a slot is not UTF-8 by
/// itself, then if a mask has another number of marks than there are slots, then if the data type's
/// physical type is not `Utf8`, or `LargeUtf8` over large offsets.
pub type Utf8Array<O> = ByteArray<Utf8, O>;

/// A growing array of texts, each of which may be null: the builder of [`Utf8Array`]. Each slot is
/// UTF-8 by itself, a null one too. Bytes may lie before the first slot; none lie after the last.
///
/// `try_new` rejects parts if the last offset is not the number of values, then if a slot is not
/// UTF-8 by itself, then if the data type's physical type is not `Utf8`, or `LargeUtf8` over large
/// offsets, then if a mask has another number of marks than there are slots.
pub type MutableUtf8Array<O> = MutableByteArray<Utf8, O>;

/// A growing array of texts, none of which is null; each is UTF-8 by itself. Bytes may lie before
/// the first of them; none lie after the last. `try_new` rejects parts as that of
/// [`MutableUtf8Array`] does.
pub type MutableUtf8ValuesArray<O> = MutableByteValuesArray<Utf8, O>;

/// An iterator over the texts that the slots of an array store.
pub type Utf8ValuesIter<'a, O> = ArrayValuesIter<'a, ByteArray<Utf8, O>>;

/// An iterator over the items of a builder without nulls.
pub type MutableUtf8ValuesIter<'a, O> = ArrayValuesIter<'a, MutableByteValuesArray<Utf8, O>>;
