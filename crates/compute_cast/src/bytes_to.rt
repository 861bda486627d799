//! Conversions of text and bytes to integers, by the rules of Rust's `parse`: a slot that does not parse becomes null.
ghost use Rattle.std.specs.Prelude.{◌≡◌, ◌<◌, ℕ, IfOk, List, Option, Some, length, slice_get};
ghost use Rattle.arrow_types.specs.Failures.{OnlyOutOfMemory};
ghost use Rattle.arrow_types.specs.Types.{IsRightType, logical_type};
ghost use Rattle.arrow_types.specs.declared.physical_type.PhysicalType.TheVariants as PhysicalType;
ghost use Rattle.arrow_column.specs.Column.{slots_of};
ghost use Rattle.compute_cast.specs.Decimals.{array_of_texts, value_of_slot};

use crate::number::parse_value;
use arrow_binary::BinaryArray;
use arrow_byte_array::ByteArray;
use arrow_bytes::ByteKind;
use arrow_integers::NativeArithmetics;
use arrow_memory::buffer::Buffer;
use arrow_primitive::PrimitiveArray;
use arrow_types::data_type::DataType;
use arrow_types::error::Error;
use arrow_types::offset::Offset;
use arrow_types::physical_type::PhysicalType;
use arrow_utf8::Utf8Array;
use compute_base::masks::needed_mask;
use compute_base::slots::{SlotParts, SlotSource, collect_slots};
use std::alloc::Global;
use std::marker::PhantomData;

/// Parses the slot at `i`: returns its value, or `None` if it is null or not a number of the type.
#[inline(always)]
fn parse_slot<K: ByteKind, O: Offset, T: NativeArithmetics>(
    array: &ByteArray<K, O>,
    i: usize,
) -> Option<T>
    requires { i < length array.now.rows }
    ensures { (slot : Option (List ℕ)) → slice_get (slots_of array.now) i ≡ Some slot
        → result ≡ value_of_slot T.fits T.wrap slot }
{
    if array.is_null(i) {
        return None;
    }
    parse_value(array.item(i))
}

/// The values of the slots of an array; there is none where a slot is null or not a number of the type.
#[derive(Drop)]
struct ParsedSlots<'a, K: ByteKind, O: Offset, T> {
    array: &'a ByteArray<K, O>,
    parsed: PhantomData<T>,
}

impl<'a, K: ByteKind, O: Offset, T: NativeArithmetics> SlotSource<T> for ParsedSlots<'a, K, O, T> {
    ghost use Rattle.std.specs.Prelude.{map};
    ghost use Rattle.arrow_column.specs.Column.{slots_of};
    ghost use Rattle.compute_cast.specs.Decimals.{value_of_slot};

    ghost slots = { λ source. map (value_of_slot T.fits T.wrap) (slots_of source.array.now) };

    #[inline(always)]
    fn len(&self) -> usize {
        self.array.len()
    }

    #[inline(always)]
    fn slot(&self, i: usize) -> Option<T> {
        parse_slot(self.array, i)
    }
}

/// Parses all slots as decimal numbers.
fn parse_slots<K: ByteKind, O: Offset, T: NativeArithmetics>(
    alloc: Global,
    array: &ByteArray<K, O>,
    data_type: DataType,
) -> Result<PrimitiveArray<T>, Error>
    requires { IsRightType (PhysicalType.Primitive T.PRIMITIVE) (logical_type data_type) }
    ensures ok { IfOk result (λ made. made
        ≡ array_of_texts T.fits T.wrap T.zero (logical_type data_type) (slots_of array.now)) }
    ensures err { OnlyOutOfMemory result }
{
    let source = ParsedSlots {
        array,
        parsed: PhantomData::<T>,
    };
    let SlotParts { values, marks } = collect_slots::<T, _>(alloc, &source)?;
    let marks = marks.freeze()?;
    let values = Buffer::from_vec(values)?;
    Ok(PrimitiveArray::new(data_type, values, needed_mask(marks)))
}

/// Parses each text as a decimal number; null where the slot is null or its text is not a number of
/// the type. The data type must have the physical type of `T`. The result holds a mask exactly if a
/// slot is null.
///
/// A text is read as by Rust's `parse`: one digit or more and nothing else, after an optional `+` or,
/// if the type is signed, `-`. Leading zeros are allowed, spaces are not. The number must fit in the
/// type. For an unsigned type a text with a `-` is a null, even `-0`.
///
/// # Errors
/// `OutOfMemory` if an allocation fails.
pub fn utf8_to_primitive<O: Offset, T: NativeArithmetics>(
    alloc: Global,
    array: &Utf8Array<O>,
    data_type: DataType,
) -> Result<PrimitiveArray<T>, Error>
    requires { IsRightType (PhysicalType.Primitive T.PRIMITIVE) (logical_type data_type) }
    ensures ok { IfOk result (λ made. made
        ≡ array_of_texts T.fits T.wrap T.zero (logical_type data_type) (slots_of array.now)) }
    ensures err { OnlyOutOfMemory result }
{
    parse_slots(alloc, array, data_type)
}

/// Parses the bytes of each slot as a decimal number, as [`utf8_to_primitive`] does.
///
/// # Errors
/// `OutOfMemory` if an allocation fails.
pub fn binary_to_primitive<O: Offset, T: NativeArithmetics>(
    alloc: Global,
    array: &BinaryArray<O>,
    data_type: DataType,
) -> Result<PrimitiveArray<T>, Error>
    requires { IsRightType (PhysicalType.Primitive T.PRIMITIVE) (logical_type data_type) }
    ensures ok { IfOk result (λ made. made
        ≡ array_of_texts T.fits T.wrap T.zero (logical_type data_type) (slots_of array.now)) }
    ensures err { OnlyOutOfMemory result }
{
    parse_slots(alloc, array, data_type)
}
