//! Sorts of one array: the one list of all indexes in the order of the slots, equal slots in the order of their
//! indexes.
ghost use Rattle.std.specs.Prelude.{IfOk};
ghost use Rattle.arrow_types.specs.Failures.{OnlyOutOfMemory};
ghost use Rattle.arrow_column.specs.Column.{slots_of};
ghost use Rattle.compute_sort.specs.Sort.{HoldsSortedSlots, IsSortedColumn, TakesSortedSlots};

use crate::{SortOptions, SortableArray};
use arrow_primitive::PrimitiveArray;
use arrow_types::error::Error;
use std::alloc::Global;

/// Returns the indexes that sort the slots of an array, up to a limit, as unsigned 64-bit numbers: every index once, in
/// the order of the slots there, and equal slots in the order of their indexes.
///
/// A sort of all slots needs 8 bytes a slot for the indexes, and for each valid slot its value beside its index (16
/// bytes; 24 of bytes and text, 32 of 128-bit numbers), and room of the standard library's stable sort for at most as
/// many again. With a limit below an eighth of the valid slots, there are only twice as many values as the limit, at
/// least 64, and the indexes of the null slots.
///
/// # Errors
/// `OutOfMemory` if an allocation fails.
pub fn sort_to_indices<A: SortableArray>(
    alloc: Global,
    array: &A,
    options: SortOptions,
    limit: Option<usize>,
) -> Result<PrimitiveArray<u64>, Error>
    ensures ok { IfOk result
        (HoldsSortedSlots options A.order (slots_of (A.column array.now)) limit) }
    ensures err { OnlyOutOfMemory result }
{
    PrimitiveArray::from_vec(array.sorted_indexes(alloc, options, limit)?)
}

/// Returns the slots of an array, sorted, up to a limit: those at the indexes of [`sort_to_indices`], with the array's
/// data type, and with a mask exactly if one of them is null. It needs the memory of [`sort_to_indices`], beside that
/// of the array which it returns.
///
/// # Errors
/// `OutOfMemory` if an allocation fails.
pub fn sort<A: SortableArray>(
    alloc: Global,
    array: &A,
    options: SortOptions,
    limit: Option<usize>,
) -> Result<A, Error>
    ensures ok { IfOk result
        (TakesSortedSlots options A.order (slots_of (A.column array.now)) limit
        (A.take_at array.now)) }
    ensures slots { IfOk result (λ made.
        IsSortedColumn options A.order (A.column array.now) limit (A.column made)) }
    ensures err { OnlyOutOfMemory result }
{
    let indexes = array.sorted_indexes(alloc, options, limit)?;
    array.take_indexes(alloc, indexes.as_slice())
}
