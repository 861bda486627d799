//! Groups of equal items of arrays of bytes and of text, by public keys and by the caller's hash function.
ghost use Rattle.std.specs.Prelude.{IfOk};
ghost use Rattle.arrow_column.specs.Column.{slots_of};
ghost use Rattle.arrow_types.specs.Failures.{OnlyOutOfMemory};
ghost use Rattle.compute_group.specs.Grouping.{IsGrouping};

use crate::group_numbers::Groups;
use crate::grouper::group_slots;
use crate::keys::ArraySlots;
use arrow_binary::BinaryArray;
use arrow_types::error::Error;
use arrow_types::offset::Offset;
use arrow_utf8::Utf8Array;
use std::alloc::Global;
use std::hash::{BuildHasher, BuildHasherDefault, FoldHasher};

/// Groups equal slots, numbered in the order of their first slots. The null slots are one group.
///
/// Slots are hashed with fixed, public keys: whoever chooses the slots can make many of them have the same hash, and
/// grouping these takes time quadratic in their number. For slots from outside use [`group_binary_with`].
///
/// # Errors
/// `OutOfMemory` if an allocation fails.
pub fn group_binary<O: Offset>(alloc: Global, array: &BinaryArray<O>) -> Result<Groups, Error>
    ensures ok { IfOk result (λ groups. IsGrouping (slots_of array.now) groups.first groups.indices) }
    ensures err { OnlyOutOfMemory result }
{
    group_binary_with(alloc, BuildHasherDefault::<FoldHasher>::new(), array)
}

/// Groups equal slots as [`group_binary`] does, but hashes them by `hashers`, which changes only how long it takes.
///
/// This is for slots from outside: with the random keys of `RandomState::new(&rt)?` as `hashers`, nobody can choose
/// many slots that have the same hash.
///
/// # Errors
/// `OutOfMemory` if an allocation fails.
pub fn group_binary_with<O: Offset, S: BuildHasher + Copy>(
    alloc: Global,
    hashers: S,
    array: &BinaryArray<O>,
) -> Result<Groups, Error>
    ensures ok { IfOk result (λ groups. IsGrouping (slots_of array.now) groups.first groups.indices) }
    ensures err { OnlyOutOfMemory result }
{
    Ok(group_slots(alloc, hashers, &ArraySlots { array })?)
}

/// Groups equal slots, numbered in the order of their first slots. The null slots are one group.
///
/// Slots are hashed with fixed, public keys: whoever chooses the slots can make many of them have the same hash, and
/// grouping these takes time quadratic in their number. For slots from outside use [`group_utf8_with`].
///
/// # Errors
/// `OutOfMemory` if an allocation fails.
pub fn group_utf8<O: Offset>(alloc: Global, array: &Utf8Array<O>) -> Result<Groups, Error>
    ensures ok { IfOk result (λ groups. IsGrouping (slots_of array.now) groups.first groups.indices) }
    ensures err { OnlyOutOfMemory result }
{
    group_utf8_with(alloc, BuildHasherDefault::<FoldHasher>::new(), array)
}

/// Groups equal slots as [`group_utf8`] does, but hashes them by `hashers`, which changes only how long it takes.
///
/// This is for slots from outside: with the random keys of `RandomState::new(&rt)?` as `hashers`, nobody can choose
/// many slots that have the same hash.
///
/// # Errors
/// `OutOfMemory` if an allocation fails.
pub fn group_utf8_with<O: Offset, S: BuildHasher + Copy>(
    alloc: Global,
    hashers: S,
    array: &Utf8Array<O>,
) -> Result<Groups, Error>
    ensures ok { IfOk result (λ groups. IsGrouping (slots_of array.now) groups.first groups.indices) }
    ensures err { OnlyOutOfMemory result }
{
    Ok(group_slots(alloc, hashers, &ArraySlots { array })?)
}
