//! Slots that are computed at each index: what they store, and their marks, 64 at a time.
ghost use Rattle.std.specs.Prelude.{◌≡◌, ◌+◌, ◌^◌, ◌<◌, ◌≤◌, IfOk, List, Option, Some, length, slice_get, take};
ghost use Rattle.std.specs.Vec.{vec_capacity};
ghost use Rattle.compute_base.specs.Slots.{stored_of, valid_of};
ghost use Rattle.compute_base.specs.Words.{HoldsMarks};

use crate::words::write_word;
use arrow_memory::bitmap::MutableBitmap;
use arrow_types::native_type::NativeType;
use std::alloc::{AllocError, Global};

/// Slots that can be computed at each index.
pub trait SlotSource<T> {
    /// The slots in order.
    ghost slots: { Self → List (Option T) };

    /// Returns the number of slots.
    fn len(&self) -> usize
        ensures { result ≡ length (slots self.now) };

    /// Returns the slot at `i`.
    fn slot(&self, i: usize) -> Option<T>
        requires { i < length (slots self.now) }
        ensures { slice_get (slots self.now) i ≡ Some result };
}

/// What slots store, the default where they are null, and their marks.
#[derive(Drop)]
pub struct SlotParts<T: NativeType> {
    pub values: Vec<T>,
    pub marks: MutableBitmap,
}

/// Appends what `count` slots from `place` on store, at most 64, behind what those before them store, and returns their
/// marks as the bits of a word.
#[inline(always)]
fn push_slots<T: NativeType, S: SlotSource<T>>(
    values: &mut Vec<T>,
    source: &S,
    place: usize,
    count: usize,
) -> u64
    requires few { count ≤ 64 }
    requires fits { place + count < 2 ^ 64 }
    requires within { place + count ≤ length (S.slots source.now) }
    requires room { length (S.slots source.now) ≤ vec_capacity values.old }
    requires so_far { values.old.items ≡ take place (stored_of T.zero (S.slots source.now)) }
    ensures room { vec_capacity values.new ≡ vec_capacity values.old }
    ensures so_far { values.new.items ≡ take (place + count) (stored_of T.zero (S.slots source.now)) }
    ensures marks { HoldsMarks result (valid_of (S.slots source.now)) place count }
{
    let mut word = 0;
    for i in 0..count {
        let slot = source.slot(place + i);
        word |= u64::from(slot.is_some()) << i;
        values.push_reserved(slot.unwrap_or(T::default()));
    }
    word
}

/// Returns what all slots store, and their marks, in one pass over them.
///
/// # Errors
/// If an allocation fails.
// The marks are not frozen here: freezing fails with an `Error`, which may hold a `'static` text, and a function that
// returns one can't be given a source that borrows.
pub fn collect_slots<T: NativeType, S: SlotSource<T>>(
    alloc: Global,
    source: &S,
) -> Result<SlotParts<T>, AllocError>
    ensures values { IfOk result (λ made. made.values.items ≡ stored_of T.zero (S.slots source.now)) }
    ensures marks { IfOk result (λ made. made.marks ≡ valid_of (S.slots source.now)) }
{
    let len = source.len();
    let words = len / 64;
    let mut values = Vec::with_capacity(alloc, len)?;
    let mut bytes = Vec::new(alloc);
    bytes.resize(8 * (words + 1), 0)?;
    for i in 0..words {
        let word = push_slots::<T, S>(&mut values, source, 64 * i, 64);
        write_word(&mut bytes, 8 * i, word);
    }
    let place = 64 * words;
    let last = push_slots::<T, S>(&mut values, source, place, len - place);
    write_word(&mut bytes, 8 * words, last);
    let marks = MutableBitmap::from_bytes(bytes, len);
    Ok(SlotParts { values, marks })
}
