//! Bytes that are appended together with the ends of their slots.
ghost use Rattle.std.specs.Prelude.{◌≡◌, ◌+◌, ◌<◌, ◌≤◌, ◌++◌, length, IsTrue, OnOk, OnErr};
ghost use Rattle.std.specs.Prelude.{IfErr};
ghost use Rattle.std.specs.Vec.{vec_len, vec_capacity};
ghost use Rattle.arrow_memory.specs.Offsets.{last_of, IsOffsets, KeepsOffsets, window_of, slots_to, joined_end};
ghost use Rattle.arrow_memory.specs.Offsets.{AppendsEnd, AppendsOffsets, EndRefused};
ghost use Rattle.arrow_memory.specs.Offsets.{numbers_of};

use crate::offset::numbers::number_at;
use crate::offset::{Offsets, OffsetsBuffer};
use arrow_types::error::Error;
use arrow_types::offset::Offset;
use std::alloc::AllocError;
use std::ops::Range;

/// Returns whether an item has eight to sixteen bytes, and there is room for its end and for sixteen bytes. Nothing has
/// to grow then.
#[inline(always)]
fn has_room_for<O: Offset>(ends: &Vec<O>, values: &Vec<u8>, item: &[u8]) -> bool
    ensures long { IsTrue result → 8 ≤ length item.now }
    ensures short { IsTrue result → length item.now ≤ 16 }
    ensures ends { IsTrue result → vec_len ends.now < vec_capacity ends.now }
    ensures values { IsTrue result → vec_len values.now + 16 ≤ vec_capacity values.now }
{
    if item.len() < 8 || ends.len() == ends.capacity() {
        return false;
    }
    // A length never comes near the second bound. It tells the compiler that sums of lengths don't wrap.
    if item.len() > 16 || values.len() > usize::MAX - 16 || values.capacity() - values.len() < 16 {
        return false;
    }
    true
}

/// Appends eight to sixteen bytes, for sixteen of which there is room, as two words: the first eight bytes and the last
/// eight, which may overlap. This needs no call of a copy of unknown length, and as nothing can grow, the compiler writes
/// back the length alone.
#[inline(always)]
fn append_words(values: &mut Vec<u8>, bytes: &[u8])
    requires long { 8 ≤ length bytes.now }
    requires short { length bytes.now ≤ 16 }
    requires room { vec_len values.old + 16 ≤ vec_capacity values.old }
    ensures { values.new.items ≡ values.old.items ++ bytes.now }
{
    let before = values.len();
    let (Some(first), Some(last)) = (bytes.first_chunk::<8>(), bytes.last_chunk::<8>()) else {
        unreachable!();
    };
    let (first, last) = (*first, *last);
    let Ok(()) = values.extend_from_slice([first, first].as_flattened()) else {
        unreachable!();
    };
    values.truncate(before + bytes.len());
    // The first word fills the room up to the end, where the last eight bytes then take their place.
    let Some(word) = values.as_mut_slice().last_chunk_mut::<8>() else {
        unreachable!();
    };
    *word = last;
}

impl<O: Offset> Offsets<O> {
    /// Appends an item to the values, and the end of its slot to the offsets.
    ///
    /// # Errors
    /// - `Overflow` if the end would be above the greatest number of the offset type; this is
    ///   checked before memory is allocated.
    /// - `OutOfMemory` if an allocation fails.
    ///
    /// Offsets and values are unchanged on an error.
    #[inline(always)]
    pub fn try_push_item(&mut self, values: &mut Vec<u8>, item: &[u8]) -> Result<(), Error>
        ensures legal { IsOffsets self.new }
        ensures ok { OnOk result (AppendsEnd O.most self.old (length item.now) self.new) }
        ensures bytes { OnOk result (values.new.items ≡ values.old.items ++ item.now) }
        ensures err { IfErr result (λ e. EndRefused e O.most (last_of self.old + length item.now)) }
        ensures kept { OnErr result ((self.new ≡ self.old) × (values.new.items ≡ values.old.items)) }
    {
        let last = self.last().to_usize();
        if item.len() > O::max().to_usize() - last {
            return Err(Error::Overflow);
        }
        if !has_room_for(&self.offsets, values, item) {
            self.push_any_item(values, item)?;
            return Ok(());
        }
        append_words(values, item);
        self.offsets
            .push_reserved(O::from_as_usize(last + item.len()));
        Ok(())
    }

    /// Appends an item as [`Offsets::try_push_item`], whatever its length is and whatever has to grow, but not past the
    /// greatest offset. A call, so that a loop of appends stays small.
    ///
    /// # Errors
    /// `AllocError` if an allocation fails; offsets and values are then unchanged.
    #[inline(never)]
    fn push_any_item(&mut self, values: &mut Vec<u8>, item: &[u8]) -> Result<(), AllocError>
        requires { last_of self.old + length item.now ≤ O.most }
        ensures legal { IsOffsets self.new }
        ensures ok { OnOk result (AppendsEnd O.most self.old (length item.now) self.new) }
        ensures bytes { OnOk result (values.new.items ≡ values.old.items ++ item.now) }
        ensures kept { OnErr result ((self.new ≡ self.old) × (values.new.items ≡ values.old.items)) }
    {
        let before = self.len_proxy();
        let Ok(()) = self.try_push_usize(item.len()) else {
            return Err(AllocError);
        };
        match values.extend_from_slice(item) {
            Ok(()) => Ok(()),
            Err(refused) => {
                // The end that was pushed goes back: no item stands before it.
                self.truncate(before);
                Err(refused)
            }
        }
    }

    /// Appends the items between offsets of other bytes, as [`Offsets::try_extend_items`].
    fn try_extend_cut(
        &mut self,
        values: &mut Vec<u8>,
        other: &[O],
        others: &[u8],
    ) -> Result<(), Error>
        requires keeps { KeepsOffsets O.number O.most other.now }
        requires held { last_of (numbers_of O.number other.now) ≤ length others.now }
        ensures legal { IsOffsets self.new }
        ensures ok { OnOk result (AppendsOffsets O.most self.old (numbers_of O.number other.now) self.new) }
        ensures bytes { OnOk result (values.new.items ≡ values.old.items
            ++ window_of (numbers_of O.number other.now) others.now) }
        ensures err { IfErr result (λ e. EndRefused e O.most (joined_end self.old (numbers_of O.number other.now))) }
        ensures kept { OnErr result ((self.new ≡ self.old) × (values.new.items ≡ values.old.items)) }
    {
        let before = self.len_proxy();
        let start = number_at(other, 0);
        let end = number_at(other, other.len() - 1);
        self.try_extend_from_slice(other)?;
        match values.extend_from_slice(&others[start..end]) {
            Ok(()) => Ok(()),
            Err(_) => {
                self.truncate(before);
                Err(Error::OutOfMemory)
            }
        }
    }

    /// Appends other items to the values, and the ends of their slots to the offsets: the bytes
    /// from the other's first offset to its last, in slots that keep their lengths.
    ///
    /// # Errors
    /// - `Overflow` if the last end would be above the greatest number of the offset type; this is
    ///   checked before memory is allocated.
    /// - `OutOfMemory` if an allocation fails.
    ///
    /// Offsets and values are unchanged on an error.
    pub fn try_extend_items(
        &mut self,
        values: &mut Vec<u8>,
        other: &Offsets<O>,
        others: &[u8],
    ) -> Result<(), Error>
        requires { last_of other.now ≤ length others.now }
        ensures legal { IsOffsets self.new }
        ensures other { IsOffsets other.now }
        ensures ok { OnOk result (AppendsOffsets O.most self.old other.now self.new) }
        ensures bytes { OnOk result (values.new.items ≡ values.old.items ++ window_of other.now others.now) }
        ensures err { IfErr result (λ e. EndRefused e O.most (joined_end self.old other.now)) }
        ensures kept { OnErr result ((self.new ≡ self.old) × (values.new.items ≡ values.old.items)) }
    {
        self.try_extend_cut(values, other.as_slice(), others)
    }

    /// Appends the items in a run of slots of others to the values, and the ends of their slots to the offsets. The
    /// bytes are copied at once, and the slots keep their lengths.
    ///
    /// # Errors
    /// As [`Offsets::try_extend_items`].
    pub fn try_extend_slots(
        &mut self,
        values: &mut Vec<u8>,
        other: &OffsetsBuffer<O>,
        others: &[u8],
        run: Range<usize>,
    ) -> Result<(), Error>
        requires order { run.start ≤ run.end }
        requires within { run.end < length other.now }
        requires held { last_of other.now ≤ length others.now }
        ensures legal { IsOffsets self.new }
        ensures other { IsOffsets other.now }
        ensures ok { OnOk result (AppendsOffsets O.most self.old (slots_to run.start run.end other.now) self.new) }
        ensures bytes { OnOk result (values.new.items ≡ values.old.items
            ++ window_of (slots_to run.start run.end other.now) others.now) }
        ensures err { IfErr result (λ e. EndRefused e O.most (joined_end self.old (slots_to run.start run.end other.now))) }
        ensures kept { OnErr result ((self.new ≡ self.old) × (values.new.items ≡ values.old.items)) }
    {
        let offsets = other.buffer().as_slice();
        self.try_extend_cut(values, &offsets[run.start..run.end + 1], others)
    }
}
