//! Groups of equal numbers, by public keys and by the caller's hash function.
ghost use Rattle.std.specs.Prelude.{◌≡◌, IfOk};
ghost use Rattle.arrow_column.specs.Column.{slots_of};
ghost use Rattle.arrow_types.specs.Failures.{OnlyOutOfMemory};
ghost use Rattle.compute_group.specs.Grouping.{IsGrouping};

use crate::group_numbers::Groups;
use crate::grouper::group_slots;
use crate::keys::{ArraySlots, Values};
use arrow_primitive::PrimitiveArray;
use arrow_types::error::Error;
use arrow_types::native_type::NativeType;
use std::alloc::Global;
use std::hash::{BuildHasher, BuildHasherDefault, FoldHasher, Hash};

/// Groups equal slots, numbered in the order of their first slots. The null slots are one group.
///
/// Slots are hashed with fixed, public keys: whoever chooses the slots can make many of them have the same hash, and
/// grouping these takes time quadratic in their number. For slots from outside use [`group_primitive_with`].
///
/// # Errors
/// `OutOfMemory` if an allocation fails.
pub fn group_primitive<T: NativeType + Eq + Hash>(
    alloc: Global,
    array: &PrimitiveArray<T>,
) -> Result<Groups, Error>
    ensures ok { IfOk result (λ groups. IsGrouping (slots_of array.now) groups.first groups.indices) }
    ensures err { OnlyOutOfMemory result }
{
    group_primitive_with(alloc, BuildHasherDefault::<FoldHasher>::new(), array)
}

/// Groups equal slots as [`group_primitive`] does, but hashes them by `hashers`, which changes only how long it takes.
///
/// This is for slots from outside: with the random keys of `RandomState::new(&rt)?` as `hashers`, nobody can choose
/// many slots that have the same hash.
///
/// # Errors
/// `OutOfMemory` if an allocation fails.
pub fn group_primitive_with<T: NativeType + Eq + Hash, S: BuildHasher + Copy>(
    alloc: Global,
    hashers: S,
    array: &PrimitiveArray<T>,
) -> Result<Groups, Error>
    ensures ok { IfOk result (λ groups. IsGrouping (slots_of array.now) groups.first groups.indices) }
    ensures err { OnlyOutOfMemory result }
{
    if array.null_count() == 0 {
        let values = array.values().as_slice();
        return Ok(group_slots(alloc, hashers, &Values { values })?);
    }
    Ok(group_slots(alloc, hashers, &ArraySlots { array })?)
}
