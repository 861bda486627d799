//! Conversions of integers and of booleans to text and to bytes. Where one fails, the bytes of all texts are counted,
//! to tell an overflow from running out of memory.
ghost use Rattle.std.specs.Prelude.{◌≡◌, ◌++◌, ◌<◌, false, IfErr, IfOk, OnOk, Some, length, option_map, slice_get};
ghost use Rattle.std.specs.Fmt.{signed_decimal};
ghost use Rattle.std.specs.Option.{option_map_or};
ghost use Rattle.std.specs.Str.{IsAscii};
ghost use Rattle.arrow_types.specs.Failures.{OnlyOutOfMemory};
ghost use Rattle.arrow_memory.specs.Offsets.{last_of};
ghost use Rattle.arrow_column.specs.Column.{mask_of, slots_of, without_needless_mask};
ghost use Rattle.arrow_bytes.specs.Kinds.{binary_type, text_type};
ghost use Rattle.compute_cast.specs.Cast.{number_of_bool};
ghost use Rattle.compute_cast.specs.Decimals.{DecimalsRefused, MakesDecimals};
ghost use Rattle.compute_cast.specs.Stored.{AppendsDecimal, HoldSlots, MakesTexts, decimal_text, ends_past};

use crate::decimals::{append_number, text_length};
use arrow_binary::BinaryArray;
use arrow_boolean::BooleanArray;
use arrow_byte_array::ByteArray;
use arrow_bytes::{Binary, ByteKind, Utf8};
use arrow_column::Array;
use arrow_integers::NativeArithmetics;
use arrow_memory::bitmap::Bitmap;
use arrow_memory::buffer::Buffer;
use arrow_memory::offset::Offsets;
use arrow_primitive::PrimitiveArray;
use arrow_types::error::Error;
use arrow_types::offset::Offset;
use arrow_utf8::Utf8Array;
use std::alloc::Global;

/// The number of bytes that are reserved for the text of a number; more are allocated as they are needed.
const ROOM: usize = 8;

/// A kind that has every ASCII text as an item.
trait TextKind: ByteKind {
    ghost use Rattle.std.specs.Prelude.{List, ℕ};
    ghost use Rattle.std.specs.Str.{IsAscii};
    ghost use Rattle.arrow_bytes.specs.Kinds.{IsItem};

    /// States that every ASCII text is an item of the kind.
    ghost ascii_item: { (text : List ℕ) → IsAscii text → IsItem Self.is_text text };
}

impl TextKind for Utf8 {
    ghost use Rattle.arrow_check.specs.AsciiText.{ascii_is_text};

    ghost ascii_item = { ascii_is_text };
}

impl TextKind for Binary {
    ghost ascii_item = { λ text ascii. tt };
}

/// An array whose valid slots have numbers.
trait NumberSlots: Array {
    ghost use Rattle.std.specs.Prelude.{ℤ};

    /// The number of a stored value.
    ghost number: { Self.Stored → ℤ };

    /// Returns the number of the slot at `i`, or `None` if it is null.
    fn get_number(&self, i: usize) -> Option<i128>
        requires { i < length (Self.column self.now).rows }
        ensures { option_map (option_map number) (slice_get (slots_of (Self.column self.now)) i) ≡ Some result };
}

impl<T: NativeArithmetics> NumberSlots for PrimitiveArray<T> {
    ghost number = { T.number };

    #[inline(always)]
    fn get_number(&self, i: usize) -> Option<i128> {
        match self.get(i) {
            Some(value) => Some(value.to_i128()),
            None => None,
        }
    }
}

impl NumberSlots for BooleanArray {
    ghost use Rattle.compute_cast.specs.Cast.{number_of_bool};

    ghost number = { number_of_bool };

    #[inline(always)]
    fn get_number(&self, i: usize) -> Option<i128> {
        match self.get(i) {
            Some(value) => Some(i128::from(value)),
            None => None,
        }
    }
}

/// Appends the decimal text of the number of a slot, or nothing if it is null, and the end of its slot.
#[inline(always)]
fn push_decimal<O: Offset>(
    offsets: &mut Offsets<O>,
    bytes: &mut Vec<u8>,
    number: Option<i128>,
) -> Result<(), Error>
    ensures fits { OnOk result (ends_past (λ z. z) O.most (last_of offsets.old) number ≡ false) }
    ensures end { OnOk result (AppendsDecimal (λ z. z) offsets.old number offsets.new) }
    ensures text { OnOk result (bytes.new.items ≡ bytes.old.items ++ decimal_text (λ z. z) number) }
    ensures ascii { OnOk result (IsAscii (decimal_text (λ z. z) number)) }
{
    match number {
        Some(number) => {
            let before = bytes.len();
            append_number(bytes, number)?;
            offsets.try_push_usize(bytes.len() - before)
        }
        None => offsets.push_empty(),
    }
}

/// Returns the offsets and the bytes of the decimal texts of all slots. A null has no bytes.
fn decimal_parts<A: NumberSlots, K: TextKind, O: Offset>(
    alloc: Global,
    array: &A,
) -> Result<(Offsets<O>, Vec<u8>), Error>
    ensures ok { IfOk result
        (HoldSlots A.number O.most K.is_text (K.default_type O.IS_LARGE) (A.column array.now)) }
{
    let room = array
        .len()
        .saturating_sub(array.null_count())
        .saturating_mul(ROOM);
    let mut offsets = Offsets::with_capacity(alloc, array.len())?;
    let mut bytes = Vec::with_capacity(alloc, room)?;
    for i in 0..array.len() {
        push_decimal(&mut offsets, &mut bytes, array.get_number(i))?;
    }
    Ok((offsets, bytes))
}

/// Returns a clone of the mask of an array if a slot is null.
fn mask_if_null<A: Array>(array: &A) -> Result<Option<Bitmap>, Error>
    ensures ok { IfOk result (λ mask. mask ≡ mask_of (without_needless_mask (A.column array.now))) }
    ensures err { OnlyOutOfMemory result }
{
    if array.null_count() == 0 {
        return Ok(None);
    }
    match array.validity() {
        Some(mask) => Ok(Some(mask.clone()?)),
        None => Ok(None),
    }
}

/// Returns the array of the decimal texts of all slots, as items of the kind.
fn decimal_array<A: NumberSlots, K: TextKind, O: Offset>(
    alloc: Global,
    array: &A,
) -> Result<ByteArray<K, O>, Error>
    ensures { IfOk result (MakesTexts A.number O.most (K.default_type O.IS_LARGE) (A.column array.now)) }
{
    let validity = mask_if_null(array)?;
    let (offsets, bytes) = decimal_parts::<A, K, O>(alloc, array)?;
    let ends = offsets.freeze()?;
    let values = Buffer::from_vec(bytes)?;
    Ok(ByteArray::new(K::default_type(O::IS_LARGE), ends, values, validity))
}

/// Returns the number of bytes of the decimal text of the number of a slot, zero if it is null.
fn slot_length(number: Option<i128>) -> usize
    ensures { result ≡ option_map_or (λ z. length (signed_decimal z)) number 0 }
{
    match number {
        Some(number) => text_length(number),
        None => 0,
    }
}

/// Returns the error for an array of decimal texts that could not be made: `Overflow` if they have more bytes than the
/// greatest offset, else `OutOfMemory`. Counts all bytes, since an allocation may fail before the slot that overflows
/// is reached.
#[cold]
#[inline(never)]
fn decimals_error<A: NumberSlots, O: Offset>(array: &A) -> Error
    ensures { DecimalsRefused A.number O.most (slots_of (A.column array.now)) result }
{
    let mut bytes: usize = 0;
    for i in 0..array.len() {
        match bytes.checked_add(slot_length(array.get_number(i))) {
            Some(more) => bytes = more,
            None => return Error::Overflow,
        }
    }
    match O::from_usize(bytes) {
        Some(_) => Error::OutOfMemory,
        None => Error::Overflow,
    }
}

/// Converts each slot to the decimal text of its number, as items of the kind.
fn numbers_to_kind<A: NumberSlots, K: TextKind, O: Offset>(
    alloc: Global,
    array: &A,
) -> Result<ByteArray<K, O>, Error>
    ensures ok { IfOk result (MakesTexts A.number O.most (K.default_type O.IS_LARGE) (A.column array.now)) }
    ensures err { IfErr result (DecimalsRefused A.number O.most (slots_of (A.column array.now))) }
{
    match decimal_array::<A, K, O>(alloc, array) {
        Ok(made) => Ok(made),
        Err(_) => Err(decimals_error::<A, O>(array)),
    }
}

/// Converts each slot to the decimal text of its number: digits without leading zeros, behind a `-` if it is negative.
/// The result has the default data type, and holds a mask exactly if a slot is null.
///
/// # Errors
/// - `Overflow` if all texts together have more bytes than the greatest offset.
/// - `OutOfMemory` otherwise, if an allocation fails.
pub fn primitive_to_utf8<T: NativeArithmetics, O: Offset>(
    alloc: Global,
    array: &PrimitiveArray<T>,
) -> Result<Utf8Array<O>, Error>
    ensures ok { IfOk result (MakesDecimals T.number O.most (text_type O.IS_LARGE) (slots_of array.now)) }
    ensures err { IfErr result (DecimalsRefused T.number O.most (slots_of array.now)) }
{
    numbers_to_kind(alloc, array)
}

/// Converts each slot to the bytes of the decimal text of its number, as [`primitive_to_utf8`].
///
/// # Errors
/// - `Overflow` if all texts together have more bytes than the greatest offset.
/// - `OutOfMemory` otherwise, if an allocation fails.
pub fn primitive_to_binary<T: NativeArithmetics, O: Offset>(
    alloc: Global,
    array: &PrimitiveArray<T>,
) -> Result<BinaryArray<O>, Error>
    ensures ok { IfOk result (MakesDecimals T.number O.most (binary_type O.IS_LARGE) (slots_of array.now)) }
    ensures err { IfErr result (DecimalsRefused T.number O.most (slots_of array.now)) }
{
    numbers_to_kind(alloc, array)
}

/// Converts each slot to the text `1` where it is true, and to `0` where it is false. The result has the default data
/// type, and holds a mask exactly if a slot is null.
///
/// # Errors
/// - `Overflow` if all texts together have more bytes than the greatest offset.
/// - `OutOfMemory` otherwise, if an allocation fails.
pub fn boolean_to_utf8<O: Offset>(
    alloc: Global,
    array: &BooleanArray,
) -> Result<Utf8Array<O>, Error>
    ensures ok { IfOk result (MakesDecimals number_of_bool O.most (text_type O.IS_LARGE) (slots_of array.now)) }
    ensures err { IfErr result (DecimalsRefused number_of_bool O.most (slots_of array.now)) }
{
    numbers_to_kind(alloc, array)
}

/// Converts each slot to the bytes of the text `1` or `0`, as [`boolean_to_utf8`].
///
/// # Errors
/// - `Overflow` if all texts together have more bytes than the greatest offset.
/// - `OutOfMemory` otherwise, if an allocation fails.
pub fn boolean_to_binary<O: Offset>(
    alloc: Global,
    array: &BooleanArray,
) -> Result<BinaryArray<O>, Error>
    ensures ok { IfOk result (MakesDecimals number_of_bool O.most (binary_type O.IS_LARGE) (slots_of array.now)) }
    ensures err { IfErr result (DecimalsRefused number_of_bool O.most (slots_of array.now)) }
{
    numbers_to_kind(alloc, array)
}
