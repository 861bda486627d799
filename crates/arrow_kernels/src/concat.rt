//! Concatenations: the rows of several arrays, of which there must be one at least, in order. The
//! data type is that of the first, and stored values stay; the new array has no bytes around its
//! slots, and holds a mask exactly if one of them is null.
ghost use Rattle.std.specs.Prelude.{◌≡◌, ◌<◌, false, length, IfOk, IfErr};
ghost use Rattle.arrow_types.specs.Failures.{OnlyOutOfMemory};
ghost use Rattle.arrow_column.specs.Column.{refused_growth};
ghost use Rattle.arrow_bytes.specs.Pieces.{nothing_around};
ghost use Rattle.arrow_bytes.specs.Selection.{Concatenates, concat_overflows};

use crate::concat_parts::{concat_bits, concat_byte_values, concat_length, concat_values};
use crate::marks::concat_validity;
use arrow_binary::BinaryArray;
use arrow_boolean::BooleanArray;
use arrow_byte_array::ByteArray;
use arrow_bytes::ByteKind;
use arrow_memory::buffer::Buffer;
use arrow_primitive::PrimitiveArray;
use arrow_types::error::Error;
use arrow_types::native_type::NativeType;
use arrow_types::offset::Offset;
use arrow_utf8::Utf8Array;
use std::alloc::Global;

/// Returns the slots of the arrays, one array after the other, with the data type of the first.
///
/// # Errors
/// `OutOfMemory` if an allocation fails.
pub fn concat_primitive<T: NativeType>(
    alloc: Global,
    arrays: &[PrimitiveArray<T>],
) -> Result<PrimitiveArray<T>, Error>
    requires { 0 < length arrays.now }
    ensures ok { IfOk result (λ made. Concatenates tt arrays.now made) }
    ensures err { OnlyOutOfMemory result }
{
    let values = concat_values(alloc, arrays)?;
    let mask = concat_validity(alloc, arrays)?;
    let data_type = arrays[0].data_type().clone()?;
    Ok(PrimitiveArray::new(data_type, Buffer::from_vec(values)?, mask))
}

/// Returns the slots of the arrays, one array after the other, with the data type of the first.
///
/// # Errors
/// `OutOfMemory` if an allocation fails.
pub fn concat_boolean(alloc: Global, arrays: &[BooleanArray]) -> Result<BooleanArray, Error>
    requires { 0 < length arrays.now }
    ensures ok { IfOk result (λ made. Concatenates tt arrays.now made) }
    ensures err { OnlyOutOfMemory result }
{
    let values = concat_bits(alloc, arrays)?;
    let mask = concat_validity(alloc, arrays)?;
    let data_type = arrays[0].data_type().clone()?;
    Ok(BooleanArray::new(data_type, values, mask))
}

/// Returns the slots of arrays whose items together end at most at the greatest offset, one array after the other.
/// Items are not validated again, since each is an item of one of the arrays.
fn concatenated_items<K: ByteKind, O: Offset>(
    alloc: Global,
    arrays: &[ByteArray<K, O>],
    room: usize,
) -> Result<ByteArray<K, O>, Error>
    requires some { 0 < length arrays.now }
    requires within { concat_overflows O.most arrays.now ≡ false }
    ensures ok { IfOk result (λ made. Concatenates nothing_around arrays.now made) }
    ensures err { OnlyOutOfMemory result }
{
    let values = concat_byte_values(alloc, arrays, room)?;
    let mask = concat_validity(alloc, arrays)?;
    let data_type = arrays[0].data_type().clone()?;
    Ok(ByteArray::from_byte_values(data_type, values, mask))
}

/// Returns the slots of the arrays, one array after the other, with the data type of the first.
///
/// # Errors
/// - `Overflow` if the items together have more bytes than the greatest offset; all lengths are
///   added before memory is allocated.
/// - `OutOfMemory` if an allocation fails.
pub fn concat_items<K: ByteKind, O: Offset>(
    alloc: Global,
    arrays: &[ByteArray<K, O>],
) -> Result<ByteArray<K, O>, Error>
    requires { 0 < length arrays.now }
    ensures ok { IfOk result (λ made. (concat_overflows O.most arrays.now ≡ false)
        × Concatenates nothing_around arrays.now made) }
    ensures err { IfErr result (λ e. e ≡ refused_growth (concat_overflows O.most arrays.now)) }
{
    let room = concat_length(arrays)?;
    concatenated_items(alloc, arrays, room)
}

/// Returns the slots of the arrays, one array after the other, with the data type of the first.
///
/// # Errors
/// As [`concat_items`].
pub fn concat_binary<O: Offset>(
    alloc: Global,
    arrays: &[BinaryArray<O>],
) -> Result<BinaryArray<O>, Error>
    requires { 0 < length arrays.now }
    ensures ok { IfOk result (λ made. (concat_overflows O.most arrays.now ≡ false)
        × Concatenates nothing_around arrays.now made) }
    ensures err { IfErr result (λ e. e ≡ refused_growth (concat_overflows O.most arrays.now)) }
{
    concat_items(alloc, arrays)
}

/// Returns the slots of the arrays, one array after the other, with the data type of the first.
///
/// # Errors
/// As [`concat_items`].
pub fn concat_utf8<O: Offset>(alloc: Global, arrays: &[Utf8Array<O>]) -> Result<Utf8Array<O>, Error>
    requires { 0 < length arrays.now }
    ensures ok { IfOk result (λ made. (concat_overflows O.most arrays.now ≡ false)
        × Concatenates nothing_around arrays.now made) }
    ensures err { IfErr result (λ e. e ≡ refused_growth (concat_overflows O.most arrays.now)) }
{
    concat_items(alloc, arrays)
}
