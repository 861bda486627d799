//! Groups of equal booleans, by public keys and by the caller's hash function.
ghost use Rattle.std.specs.Prelude.{◌≡◌, IfOk};
ghost use Rattle.arrow_column.specs.Column.{slots_of};
ghost use Rattle.arrow_types.specs.Failures.{OnlyOutOfMemory};
ghost use Rattle.compute_group.specs.Grouping.{IsGrouping};

use crate::group_numbers::Groups;
use crate::grouper::group_slots;
use crate::keys::ArraySlots;
use arrow_boolean::BooleanArray;
use arrow_types::error::Error;
use std::alloc::Global;
use std::hash::{BuildHasher, BuildHasherDefault, FoldHasher};

/// Groups equal slots, numbered in the order of their first slots: at most three groups, of true, false and null slots.
///
/// # Errors
/// `OutOfMemory` if an allocation fails.
pub fn group_boolean(alloc: Global, array: &BooleanArray) -> Result<Groups, Error>
    ensures ok { IfOk result (λ groups. IsGrouping (slots_of array.now) groups.first groups.indices) }
    ensures err { OnlyOutOfMemory result }
{
    group_boolean_with(alloc, BuildHasherDefault::<FoldHasher>::new(), array)
}

/// Groups equal slots as [`group_boolean`] does, but hashes them by `hashers`. This is for code that treats all types
/// alike: random keys make no difference, since there are only three different slots.
///
/// # Errors
/// `OutOfMemory` if an allocation fails.
pub fn group_boolean_with<S: BuildHasher + Copy>(
    alloc: Global,
    hashers: S,
    array: &BooleanArray,
) -> Result<Groups, Error>
    ensures ok { IfOk result (λ groups. IsGrouping (slots_of array.now) groups.first groups.indices) }
    ensures err { OnlyOutOfMemory result }
{
    Ok(group_slots(alloc, hashers, &ArraySlots { array })?)
}
