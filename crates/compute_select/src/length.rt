//! The lengths of bytes and text, in bytes, as integers of the offsets' width.
ghost use Rattle.std.specs.Prelude.{◌≡◌, ◌+◌, ◌<◌, ◌≤◌, length as length_of, map, pos, slice_index, IfOk};
ghost use Rattle.arrow_types.specs.Failures.{OnlyOutOfMemory};
ghost use Rattle.arrow_types.specs.Types.{default_logical_type};
ghost use Rattle.arrow_memory.specs.Offsets.{KeepsOffsets, last_of, numbers_of};
ghost use Rattle.arrow_column.specs.Column.{stored_values};
ghost use Rattle.compute_select.specs.Lengths.{HasLengths, length_at};

use arrow_byte_array::ByteArray;
use arrow_bytes::ByteKind;
use arrow_memory::buffer::Buffer;
use arrow_memory::offset::start_end_of;
use arrow_primitive::PrimitiveArray;
use arrow_types::error::Error;
use arrow_types::native_type::NativeType;
use arrow_types::offset::Offset;
use compute_base::masks::clone_mask;
use std::alloc::{AllocError, Global};

/// Returns the distance between the offset at `i` and the next one, which is the number of bytes of an item.
#[inline(always)]
fn item_length<O: Offset>(offsets: &[O], i: usize) -> O
    requires keeps { KeepsOffsets O.number O.most offsets.now }
    requires within { i + 1 < length_of offsets.now }
    ensures size { O.number result ≡ pos (length_at (numbers_of O.number offsets.now) i) }
    ensures last { slice_index (numbers_of O.number offsets.now) (i + 1)
        ≤ last_of (numbers_of O.number offsets.now) }
{
    let (start, end) = start_end_of(offsets, i);
    O::from_as_usize(end - start)
}

/// Returns the number of bytes of each item.
fn item_lengths<K: ByteKind, O: Offset>(
    alloc: Global,
    array: &ByteArray<K, O>,
) -> Result<Vec<O>, AllocError>
    ensures { IfOk result (λ lengths.
        map O.number lengths.items ≡ map (λ item. pos (length_of item)) (stored_values array.now)) }
{
    // A slice: through the array, each offset would be read behind two pointers, and one at a time.
    let offsets = array.offsets().buffer().as_slice();
    let mut lengths = Vec::with_capacity(alloc, array.len())?;
    for i in 0..array.len() {
        lengths.push_reserved(item_length(offsets, i));
    }
    Ok(lengths)
}

/// Returns the number of bytes of each slot as numbers of the offsets' width, of the default data
/// type; null where the slot is null. The result holds a mask if the array does.
///
/// # Errors
/// `OutOfMemory` if an allocation fails.
pub fn length<K: ByteKind, O: Offset + NativeType>(
    alloc: Global,
    array: &ByteArray<K, O>,
) -> Result<PrimitiveArray<O>, Error>
    ensures ok { IfOk result (HasLengths (default_logical_type O.PRIMITIVE) O.number array.now) }
    ensures err { OnlyOutOfMemory result }
{
    let lengths = item_lengths(alloc, array)?;
    let validity = clone_mask(array.validity())?;
    let lengths = Buffer::from_vec(lengths)?;
    Ok(PrimitiveArray::new(O::PRIMITIVE.default_data_type(), lengths, validity))
}
