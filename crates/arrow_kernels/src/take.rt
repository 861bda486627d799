//! Takes: the rows at keys, in the order of the keys. A key is the index of a row. Data types and stored values stay;
//! the new array has no bytes around its slots, and holds a mask exactly if one of them is null. All keys are checked,
//! and the lengths of all items added, before memory is allocated.
ghost use Rattle.std.specs.Prelude.{◌≡◌, ⊤, false, length, None, IfOk, IfErr};
ghost use Rattle.std.specs.Prelude.{MatchOption};
ghost use Rattle.arrow_types.specs.Failures.{OnlyOutOfMemory};
ghost use Rattle.arrow_check.specs.Indexes.{AllInBounds, FailsAt};
ghost use Rattle.arrow_bytes.specs.Pieces.{nothing_around};
ghost use Rattle.arrow_bytes.specs.Selection.{first_out_of_bounds, taken, taking_overflows, TakesItems, TakeRefused};

use crate::take_parts::{items_length, take_items_at, take_marks, take_validity, take_values};
use arrow_binary::BinaryArray;
use arrow_boolean::BooleanArray;
use arrow_byte_array::ByteArray;
use arrow_bytes::ByteKind;
use arrow_check::indexes::check_indexes;
use arrow_memory::buffer::Buffer;
use arrow_primitive::PrimitiveArray;
use arrow_types::error::Error;
use arrow_types::index_key::IndexKey;
use arrow_types::native_type::NativeType;
use arrow_types::offset::Offset;
use arrow_utf8::Utf8Array;
use std::alloc::Global;

/// Returns the slots of `array` at the keys.
///
/// # Errors
/// - `OutOfSpec` for the first key that is out of bounds: it is negative, does not fit in a `usize`, or is not less
///   than the number of slots.
/// - `OutOfMemory` if an allocation fails.
pub fn take_primitive<T: NativeType, K: IndexKey>(
    alloc: Global,
    array: &PrimitiveArray<T>,
    keys: &[K],
) -> Result<PrimitiveArray<T>, Error>
    ensures out_of_bounds { MatchOption (first_out_of_bounds K.number array.now keys.now) ⊤ (FailsAt K.number result) }
    ensures ok { IfOk result (λ made. made ≡ taken tt K.number array.now keys.now) }
    ensures err { IfErr result (λ e. first_out_of_bounds K.number array.now keys.now ≡ None → e ≡ Error.OutOfMemory) }
{
    let stored = array.values().as_slice();
    check_indexes(keys, stored.len())?;
    let values = take_values(alloc, stored, keys)?;
    let mask = take_validity(alloc, array.validity(), keys)?;
    let data_type = array.data_type().clone()?;
    Ok(PrimitiveArray::new(data_type, Buffer::from_vec(values)?, mask))
}

/// Returns the slots of `array` at the keys.
///
/// # Errors
/// As [`take_primitive`].
pub fn take_boolean<K: IndexKey>(
    alloc: Global,
    array: &BooleanArray,
    keys: &[K],
) -> Result<BooleanArray, Error>
    ensures out_of_bounds { MatchOption (first_out_of_bounds K.number array.now keys.now) ⊤ (FailsAt K.number result) }
    ensures ok { IfOk result (λ made. made ≡ taken tt K.number array.now keys.now) }
    ensures err { IfErr result (λ e. first_out_of_bounds K.number array.now keys.now ≡ None → e ≡ Error.OutOfMemory) }
{
    check_indexes(keys, array.len())?;
    let values = take_marks(alloc, array.values(), keys)?;
    let mask = take_validity(alloc, array.validity(), keys)?;
    let data_type = array.data_type().clone()?;
    Ok(BooleanArray::new(data_type, values, mask))
}

/// Returns the slots of `array` at keys, all of which are in bounds. Items are not validated again, since each is an
/// item of `array`.
fn taken_items<K: ByteKind, O: Offset, I: IndexKey>(
    alloc: Global,
    array: &ByteArray<K, O>,
    keys: &[I],
    room: usize,
) -> Result<ByteArray<K, O>, Error>
    requires keys { AllInBounds I.number (length array.now.rows) keys.now }
    requires within { taking_overflows O.most I.number array.now keys.now ≡ false }
    ensures ok { IfOk result (λ made. made ≡ taken nothing_around I.number array.now keys.now) }
    ensures err { OnlyOutOfMemory result }
{
    let values = take_items_at(alloc, array.byte_values().as_slice(), keys, room)?;
    let mask = take_validity(alloc, array.validity(), keys)?;
    let data_type = array.data_type().clone()?;
    Ok(ByteArray::from_byte_values(data_type, values, mask))
}

/// Returns the slots of `array` at the keys.
///
/// # Errors
/// - `OutOfSpec` for the first key that is out of bounds: it is negative, does not fit in a `usize`, or is not less
///   than the number of slots.
/// - Otherwise `Overflow` if the items together have more bytes than the greatest offset.
/// - `OutOfMemory` if an allocation fails.
pub fn take_items<K: ByteKind, O: Offset, I: IndexKey>(
    alloc: Global,
    array: &ByteArray<K, O>,
    keys: &[I],
) -> Result<ByteArray<K, O>, Error>
    ensures out_of_bounds { MatchOption (first_out_of_bounds I.number array.now keys.now) ⊤ (FailsAt I.number result) }
    ensures ok { IfOk result (TakesItems O.most I.number array.now keys.now) }
    ensures err { IfErr result (TakeRefused O.most I.number array.now keys.now) }
{
    check_indexes(keys, array.len())?;
    let room = items_length(array.byte_values().as_slice(), keys)?;
    taken_items(alloc, array, keys, room)
}

/// Returns the slots of `array` at the keys.
///
/// # Errors
/// As [`take_items`].
pub fn take_binary<O: Offset, K: IndexKey>(
    alloc: Global,
    array: &BinaryArray<O>,
    keys: &[K],
) -> Result<BinaryArray<O>, Error>
    ensures out_of_bounds { MatchOption (first_out_of_bounds K.number array.now keys.now) ⊤ (FailsAt K.number result) }
    ensures ok { IfOk result (TakesItems O.most K.number array.now keys.now) }
    ensures err { IfErr result (TakeRefused O.most K.number array.now keys.now) }
{
    take_items(alloc, array, keys)
}

/// Returns the slots of `array` at the keys.
///
/// # Errors
/// As [`take_items`].
pub fn take_utf8<O: Offset, K: IndexKey>(
    alloc: Global,
    array: &Utf8Array<O>,
    keys: &[K],
) -> Result<Utf8Array<O>, Error>
    ensures out_of_bounds { MatchOption (first_out_of_bounds K.number array.now keys.now) ⊤ (FailsAt K.number result) }
    ensures ok { IfOk result (TakesItems O.most K.number array.now keys.now) }
    ensures err { IfErr result (TakeRefused O.most K.number array.now keys.now) }
{
    take_items(alloc, array, keys)
}
