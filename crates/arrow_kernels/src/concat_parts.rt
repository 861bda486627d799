//! The stored values and items of arrays, one array after the other.
ghost use Rattle.std.specs.Prelude.{◌≡◌, ◌<◌, ◌≤◌, flat_map, length, IfOk, IfErr};
ghost use Rattle.std.specs.List.{concat};
ghost use Rattle.arrow_types.specs.Failures.{OnlyOutOfMemory};
ghost use Rattle.arrow_column.specs.Column.{stored_values};
ghost use Rattle.arrow_bytes.specs.Pieces.{bare_items};

use crate::marks::{count_slots, extend_marks};
use arrow_boolean::BooleanArray;
use arrow_byte_array::ByteArray;
use arrow_bytes::{ByteKind, ByteValues, MutableByteValues};
use arrow_memory::bitmap::{Bitmap, MutableBitmap};
use arrow_primitive::PrimitiveArray;
use arrow_types::error::Error;
use arrow_types::native_type::NativeType;
use arrow_types::offset::Offset;
use std::alloc::Global;

/// Returns the stored values. Room is reserved once.
pub(crate) fn concat_values<T: NativeType>(
    alloc: Global,
    arrays: &[PrimitiveArray<T>],
) -> Result<Vec<T>, Error>
    ensures ok { IfOk result (λ joined. joined.items ≡ flat_map stored_values arrays.now) }
    ensures err { OnlyOutOfMemory result }
{
    let mut joined = Vec::with_capacity(alloc, count_slots(arrays))?;
    for array in arrays {
        joined.extend_from_slice(array.values().as_slice())?;
    }
    Ok(joined)
}

/// Returns the stored booleans. Room is reserved once.
pub(crate) fn concat_bits(alloc: Global, arrays: &[BooleanArray]) -> Result<Bitmap, Error>
    ensures ok { IfOk result (λ joined. joined ≡ flat_map stored_values arrays.now) }
    ensures err { OnlyOutOfMemory result }
{
    let mut joined = MutableBitmap::with_capacity(alloc, count_slots(arrays))?;
    for array in arrays {
        extend_marks(&mut joined, array.values())?;
    }
    joined.freeze()
}

/// Returns the number of bytes of the items of arrays.
///
/// # Errors
/// `Overflow` if the number is above the greatest offset.
pub(crate) fn concat_length<K: ByteKind, O: Offset>(
    arrays: &[ByteArray<K, O>],
) -> Result<usize, Error>
    ensures ok { IfOk result (λ total. (total ≤ O.most)
        × (total ≡ length (concat (flat_map stored_values arrays.now)))) }
    ensures err { IfErr result (λ e. (e ≡ Error.Overflow)
        × (O.most < length (concat (flat_map stored_values arrays.now)))) }
{
    let most = O::max().to_usize();
    let mut total = 0;
    for array in arrays {
        let added = array.byte_values().as_slice().byte_count();
        if added > most - total {
            return Err(Error::Overflow);
        }
        total += added;
    }
    Ok(total)
}

/// Returns the items, with nothing around them. Together they end at most at the greatest offset;
/// room for them is reserved once.
pub(crate) fn concat_byte_values<K: ByteKind, O: Offset>(
    alloc: Global,
    arrays: &[ByteArray<K, O>],
    room: usize,
) -> Result<ByteValues<K, O>, Error>
    requires { length (concat (flat_map stored_values arrays.now)) ≤ O.most }
    ensures ok { IfOk result (λ joined. joined ≡ bare_items (flat_map stored_values arrays.now)) }
    ensures err { OnlyOutOfMemory result }
{
    let mut joined = MutableByteValues::with_capacities(alloc, count_slots(arrays), room)?;
    for array in arrays {
        joined.push_fitting_items(&array.byte_values().as_slice(), 0, array.len())?;
    }
    joined.freeze()
}
