//! Groups of slots of any type: the one loop of all groupings, over [`crate::keys`].
ghost use Rattle.std.specs.Prelude.{◌≡◌, ◌<◌, ◌^◌, IfOk, OnOk, length};
ghost use Rattle.indexmap.specs.IndexSet.{insert_key};
ghost use Rattle.compute_group.specs.Grouping.{AddsHint, ArePlaces, IsGrouping, NumbersKey};
ghost use Rattle.compute_group.specs.Grouping.{first_after, null_first, null_number, number_of};

use crate::group_numbers::Groups;
use crate::hints::{Progress, add_hint, hinted_number, known_number};
use crate::keys::Keys;
use indexmap::IndexSet;
use std::alloc::{AllocError, Global};
use std::hash::{BuildHasher, Hash};

/// Where the slot stands that is added to groups, and how far the grouping is.
#[derive(Clone, Copy)]
struct NextSlot {
    /// The index of the slot.
    place: usize,
    /// The number of all slots.
    count: usize,
    /// The number of the group of the null slots, if there was one.
    null: Option<usize>,
}

/// Returns the number of the group whose key has this index among the keys. The group of the null
/// slots has a number and no key, so keys after it have greater numbers.
#[inline(always)]
fn number_of(null: Option<usize>, index: usize) -> usize
    requires { index < 2 ^ 63 }
    ensures { result ≡ number_of null index }
{
    match null {
        Some(null) if null <= index => index + 1,
        _ => index,
    }
}

/// Adds a valid slot, writes a hint at its group, and returns the number of the group. `keys` has a key for each group
/// but that of the null slots.
#[inline(always)]
fn add_key<K: Eq + Hash + Copy, B: BuildHasher + Copy>(
    keys: &mut IndexSet<K, B>,
    first: &mut Vec<usize>,
    hints: &mut Vec<(K, usize)>,
    slot: NextSlot,
    key: K,
) -> Result<usize, AllocError>
    requires { ArePlaces slot.count (length hints.old.items) }
    ensures keys { OnOk result (keys.new.keys ≡ insert_key K.eq keys.old.keys key) }
    ensures first { OnOk result
        (first.new.items ≡ first_after K.eq keys.old.keys first.old.items slot.place key) }
    ensures number { IfOk result (NumbersKey K.eq key keys.new.keys slot.null) }
    ensures hints { IfOk result (λ number. AddsHint hints.old.items (key, number) hints.new.items) }
    ensures places { OnOk result (ArePlaces slot.count (length hints.new.items)) }
{
    let (index, is_new) = keys.insert_full(key)?;
    // Below 2 ^ 63, which the sum in `number_of` needs.
    let groups = keys.len();
    if is_new {
        first.push(slot.place)?;
    }
    let number = number_of(slot.null, index);
    let progress = Progress {
        groups,
        passed: slot.place,
        count: slot.count,
    };
    add_hint(*keys.hasher(), hints, progress, key, number);
    Ok(number)
}

/// Adds the null slot at index `place`, and returns the number of its group.
#[inline(always)]
fn add_null(first: &mut Vec<usize>, null: Option<usize>, place: usize) -> Result<usize, AllocError>
    ensures first { OnOk result (first.new.items ≡ null_first null first.old.items place) }
    ensures number { IfOk result (λ number. number ≡ null_number null first.old.items) }
{
    if let Some(number) = null {
        return Ok(number);
    }
    let number = first.len();
    first.push(place)?;
    Ok(number)
}

/// Returns the groups of equal slots. Its state is in variables and not in a struct, since a call that grows one field
/// of a struct makes the compiler load the others again. Keys are hashed by `hashers` alone, both in the set and for
/// the hints, so `hashers` decides which keys collide.
pub(crate) fn group_slots<S: Keys, B: BuildHasher + Copy>(
    alloc: Global,
    hashers: B,
    source: &S,
) -> Result<Groups, AllocError>
    ensures { IfOk result (λ groups. IsGrouping (S.slots source.now) groups.first groups.indices) }
{
    let count = source.count();
    let mut indices = Vec::with_capacity(alloc, count)?;
    let mut first = Vec::new(alloc);
    let mut keys = IndexSet::with_hasher(alloc, hashers);
    let mut hints = Vec::new(alloc);
    let mut null = None;
    for i in 0..count {
        let (key, is_valid) = source.row(i);
        let hinted = hinted_number(hashers, &hints, key);
        let number = match known_number(is_valid, hinted, null) {
            Some(number) => number,
            None => {
                if is_valid {
                    let place = i;
                    let slot = NextSlot { place, count, null };
                    add_key(&mut keys, &mut first, &mut hints, slot, key)?
                } else {
                    let number = add_null(&mut first, null, i)?;
                    null = Some(number);
                    number
                }
            }
        };
        indices.push_reserved(number);
    }
    drop(keys);
    drop(hints);
    Ok(Groups::from_lists(first, indices))
}
