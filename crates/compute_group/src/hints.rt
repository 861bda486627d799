//! Hints at the numbers of groups: keys with the numbers of their groups, each at a place that the
//! hash of the key chooses. In an array of few distinct keys nearly every key is found there by one
//! comparison. A hint may be overwritten, and is never wrong.
ghost use Rattle.std.specs.Prelude.{◌≡◌, ◌<◌, None, Some, if◌then◌else◌, length, true};
ghost use Rattle.compute_group.specs.Grouping.{AddsHint, ArePlaces, HintsNumber};

use std::hash::{BuildHasher, Hash};

/// The greatest number of places for hints.
const MOST_PLACES: usize = 16384;

/// How far the grouping of an array is.
#[derive(Clone, Copy)]
pub(crate) struct Progress {
    /// The number of groups so far.
    pub(crate) groups: usize,
    /// The number of slots before the one that is looked at.
    pub(crate) passed: usize,
    /// The number of all slots.
    pub(crate) count: usize,
}

/// Returns how many places for hints `count` slots begin with. Filling the places takes a small part
/// of the time that grouping the slots takes.
fn first_places(count: usize) -> usize
    ensures { ArePlaces count result }
{
    if count >= 16384 {
        4096
    } else if count >= 4096 {
        1024
    } else if count >= 1024 {
        256
    } else if count >= 64 {
        64
    } else {
        0
    }
}

/// Returns the number of places for hints after a new key: eight or more a group, or none if there are too many groups
/// or most slots begin a new one. Only speed depends on the result.
fn needed_places(places: usize, progress: Progress) -> usize
    requires { ArePlaces progress.count places }
    ensures { ArePlaces progress.count result }
{
    let Progress {
        groups,
        passed,
        count,
    } = progress;
    if groups == 1 {
        return first_places(count);
    }
    if groups <= places / 8 {
        return places;
    }
    let repeated = passed.saturating_sub(groups);
    if places <= MOST_PLACES / 4 && places <= count / 4 && repeated >= groups / 16 {
        return places * 4;
    }
    0
}

/// Returns the place of a hint at the group of a key. It is chosen by the same hash as the key's place in the set of
/// keys, so keys collide here as rarely as they do in the set.
#[inline(always)]
fn hint_place<K: Hash + Copy, B: BuildHasher + Copy>(hashers: B, key: K, places: usize) -> usize
    requires { 0 < places }
    ensures { result < places }
{
    hashers.hash_one(key) as usize & (places - 1)
}

/// Returns the number of a group, and whether it is known to be that of the key, since the hint at the place of the key
/// has this key.
#[inline(always)]
pub(crate) fn hinted_number<K: Eq + Hash + Copy, B: BuildHasher + Copy>(
    hashers: B,
    hints: &[(K, usize)],
    key: K,
) -> (usize, bool)
    ensures { result.1 ≡ true → HintsNumber K.eq hints.now key result.0 }
{
    if hints.is_empty() {
        return (0, false);
    }
    let (hinted, number) = hints[hint_place(hashers, key, hints.len())];
    (number, key == hinted)
}

/// Returns the number of the group of a slot, if it is known: that of its key, or that of the null
/// slots. Which of the two is looked up in an array, since a branch on the mark often mispredicts.
#[inline(always)]
pub(crate) fn known_number(
    is_valid: bool,
    hinted: (usize, bool),
    null: Option<usize>,
) -> Option<usize>
    ensures { result ≡ (if is_valid then (if hinted.1 then Some hinted.0 else None) else null) }
{
    let of_nulls = match null {
        Some(number) => (number, true),
        None => (0, false),
    };
    let (number, is_known) = [of_nulls, hinted][usize::from(is_valid)];
    if is_known { Some(number) } else { None }
}

/// Writes a hint at the number of the group of a key. Drops all earlier hints if the number of places changes. If an
/// allocation fails, there are no hints from then on: only speed depends on them.
#[cold]
#[inline(never)]
fn write_hint<K: Hash + Copy, B: BuildHasher + Copy>(
    hashers: B,
    hints: &mut Vec<(K, usize)>,
    progress: Progress,
    key: K,
    number: usize,
)
    requires { ArePlaces progress.count (length hints.old.items) }
    ensures hint { AddsHint hints.old.items (key, number) hints.new.items }
    ensures places { ArePlaces progress.count (length hints.new.items) }
{
    let places = needed_places(hints.len(), progress);
    if places != hints.len() {
        hints.clear();
        match hints.resize(places, (key, number)) {
            Ok(()) => {}
            // Without hints the grouping only takes longer.
            Err(_) => {}
        }
    } else if !hints.is_empty() {
        let at = hint_place(hashers, key, hints.len());
        hints[at] = (key, number);
    }
}

/// Writes a hint at the number of the group of a key if there are hints or it is the first group.
#[inline(always)]
pub(crate) fn add_hint<K: Hash + Copy, B: BuildHasher + Copy>(
    hashers: B,
    hints: &mut Vec<(K, usize)>,
    progress: Progress,
    key: K,
    number: usize,
)
    requires { ArePlaces progress.count (length hints.old.items) }
    ensures hint { AddsHint hints.old.items (key, number) hints.new.items }
    ensures places { ArePlaces progress.count (length hints.new.items) }
{
    if hints.is_empty() && progress.groups > 1 {
        return;
    }
    write_hint(hashers, hints, progress, key, number);
}
