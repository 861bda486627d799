//! Hashes of slots, by a hash function with fixed, public keys, so that equal slots have equal hashes in every run.
ghost use Rattle.std.specs.Prelude.{◌≡◌, IfOk, None, map};
ghost use Rattle.arrow_column.specs.Column.{slots_of};
ghost use Rattle.arrow_memory.specs.Rows.{slot};
ghost use Rattle.arrow_types.specs.Failures.{OnlyOutOfMemory};
ghost use Rattle.compute_group.specs.Hashes.{HashesSlots, bytes_input, hash_of, hash_slot};

use crate::keys::key_at;
use arrow_binary::BinaryArray;
use arrow_boolean::BooleanArray;
use arrow_primitive::PrimitiveArray;
use arrow_types::error::Error;
use arrow_types::native_type::NativeType;
use arrow_types::offset::Offset;
use arrow_utf8::Utf8Array;
use compute_slots::HashSlots;
use std::alloc::{AllocError, Global};
use std::hash::{FoldHasher, Hash, Hasher};

/// Returns the hash of a key.
#[inline(always)]
fn hash_key<K: Hash + Copy>(key: K) -> u64
    ensures { result ≡ hash_of (K.hash_input key) }
{
    let mut state = FoldHasher::default();
    key.hash(&mut state);
    state.finish()
}

/// Returns the hash of the slot of a key, which is `null` if the slot is null. The key is hashed in any case, since a
/// branch on the mark costs more than a hash where nulls lie at random.
#[inline(always)]
fn hash_row<K: Hash + Copy>(key: K, is_valid: bool, null: u64) -> u64
    requires { null ≡ hash_of (⟦<Option<K> as Hash>⟧.hash_input None) }
    ensures { result ≡ hash_of (⟦<Option<K> as Hash>⟧.hash_input (slot (key, is_valid))) }
{
    let hash = hash_key(Some(key));
    if is_valid { hash } else { null }
}

/// Returns the hash of each slot.
fn hash_slots<'a, A: HashSlots<'a>>(alloc: Global, array: &'a A) -> Result<Vec<u64>, AllocError>
    ensures { IfOk result (λ hashes.
        hashes.items ≡ map (hash_slot A.input) (slots_of (A.column array.entry.now))) }
{
    let count = array.len();
    let mut hashes = Vec::with_capacity(alloc, count)?;
    let null = hash_key::<Option<A::Key>>(None);
    for i in 0..count {
        let (key, is_valid) = key_at(array, i);
        hashes.push_reserved(hash_row(key, is_valid, null));
    }
    Ok(hashes)
}

/// Returns a hash for each slot, which depends on the slot alone: equal slots have equal hashes, and so do null ones.
/// The result has no mask. The keys of the hash function are fixed and public, so whoever chooses the slots can make
/// many of them have the same hash.
///
/// # Errors
/// `OutOfMemory` if an allocation fails.
pub fn hash_primitive<T: NativeType + Eq + Hash>(
    alloc: Global,
    array: &PrimitiveArray<T>,
) -> Result<PrimitiveArray<u64>, Error>
    ensures ok { IfOk result (HashesSlots ⟦<Option<T> as Hash>⟧.hash_input array.now) }
    ensures err { OnlyOutOfMemory result }
{
    PrimitiveArray::from_vec(hash_slots(alloc, array)?)
}

/// Returns a hash for each slot, which depends on the slot alone: equal slots have equal hashes, and so do null ones.
/// The result has no mask. The keys of the hash function are fixed and public, so whoever chooses the slots can make
/// many of them have the same hash.
///
/// # Errors
/// `OutOfMemory` if an allocation fails.
pub fn hash_boolean(alloc: Global, array: &BooleanArray) -> Result<PrimitiveArray<u64>, Error>
    ensures ok { IfOk result (HashesSlots ⟦<Option<bool> as Hash>⟧.hash_input array.now) }
    ensures err { OnlyOutOfMemory result }
{
    PrimitiveArray::from_vec(hash_slots(alloc, array)?)
}

/// Returns a hash for each slot, which depends on the slot alone: equal slots have equal hashes, and so do null ones.
/// The hash is that of a text of the same bytes. The result has no mask. The keys of the hash function are fixed and
/// public, so whoever chooses the slots can make many of them have the same hash.
///
/// # Errors
/// `OutOfMemory` if an allocation fails.
pub fn hash_binary<O: Offset>(
    alloc: Global,
    array: &BinaryArray<O>,
) -> Result<PrimitiveArray<u64>, Error>
    ensures ok { IfOk result (HashesSlots bytes_input array.now) }
    ensures err { OnlyOutOfMemory result }
{
    PrimitiveArray::from_vec(hash_slots(alloc, array)?)
}

/// Returns a hash for each slot, which depends on the slot alone: equal slots have equal hashes, and so do null ones.
/// The result has no mask. The keys of the hash function are fixed and public, so whoever chooses the slots can make
/// many of them have the same hash.
///
/// # Errors
/// `OutOfMemory` if an allocation fails.
pub fn hash_utf8<O: Offset>(
    alloc: Global,
    array: &Utf8Array<O>,
) -> Result<PrimitiveArray<u64>, Error>
    ensures ok { IfOk result (HashesSlots bytes_input array.now) }
    ensures err { OnlyOutOfMemory result }
{
    PrimitiveArray::from_vec(hash_slots(alloc, array)?)
}
