//! Offsets that grow. That they never fall is their invariant; a growth past the greatest offset is found before memory
//! is allocated.
ghost use Rattle.std.specs.Prelude.{◌≡◌, ◌+◌, ◌<◌, ◌≤◌, pos, [], ◌∷◌, ◌++◌, length, map, take, replicate, OnErr};
ghost use Rattle.std.specs.Prelude.{slice_index, ◌==◌, None, OnOk, IfOk, IfErr, MatchOption, IsOk};
ghost use Rattle.arrow_types.specs.Failures.{OnlyOutOfMemory, OutOfMemoryKeeps};
ghost use Rattle.arrow_types.specs.Types.{refusal, out_of_spec};
ghost use Rattle.arrow_memory.specs.Offsets.{first_of, last_of, IsOffsets, KeepsOffsets, first_fault, numbers_of};
ghost use Rattle.arrow_memory.specs.Offsets.{joined_end, AppendsEnd, AppendsOffsets, PopsOffset, EndRefused};

use crate::buffer::Buffer;
use crate::offset::OffsetsBuffer;
use crate::offset::faults::first_broken_rule;
use crate::offset::numbers::{append_moved, number_at, start_end_of};
use arrow_types::error::Error;
use arrow_types::offset::Offset;
use std::alloc::Global;
use std::marker::Model;

/// Growing offsets: at least one, the first not negative, none below the one before it (Arrow
/// columnar format, "Variable-size Binary Layout").
#[derive(Drop)]
pub struct Offsets<O: Offset> {
    pub(crate) offsets: Vec<O>,
}

// Contracts see the numbers.
impl<O: Offset> Model for Offsets<O> {
    ghost use Rattle.std.specs.Prelude.{List, ℕ};
    ghost use Rattle.arrow_memory.specs.Offsets.{numbers_of, KeepsOffsets};

    ghost Value = { List ℕ };

    ghost view = { λ a. numbers_of O.number a.offsets.items };

    ghost invariant = { λ a. KeepsOffsets O.number O.most a.offsets.items };
}

impl<O: Offset> Offsets<O> {
    /// Creates offsets of no slot: one zero.
    ///
    /// # Errors
    /// `OutOfMemory` if an allocation fails.
    pub fn new(alloc: Global) -> Result<Self, Error>
        ensures ok { IfOk result (λ offsets. offsets ≡ 0 ∷ []) }
        ensures err { OnlyOutOfMemory result }
    {
        Offsets::with_capacity(alloc, 0)
    }

    /// Creates offsets of `length` empty slots: all are zero.
    ///
    /// # Errors
    /// `OutOfMemory` if an allocation fails or the number of offsets would pass `usize::MAX`.
    pub fn new_zeroed(alloc: Global, length: usize) -> Result<Self, Error>
        ensures ok { IfOk result (λ offsets. offsets ≡ replicate (length + 1) 0) }
        ensures err { OnlyOutOfMemory result }
    {
        let Some(count) = length.checked_add(1) else {
            return Err(Error::OutOfMemory);
        };
        let mut offsets = Vec::new(alloc);
        offsets.resize(count, O::from_as_usize(0))?;
        Ok(Offsets { offsets })
    }

    /// Creates offsets of no slot with room for at least `capacity` slots.
    ///
    /// # Errors
    /// `OutOfMemory` if an allocation fails or the number of offsets would pass `usize::MAX`.
    pub fn with_capacity(alloc: Global, capacity: usize) -> Result<Self, Error>
        ensures ok { IfOk result (λ offsets. offsets ≡ 0 ∷ []) }
        ensures err { OnlyOutOfMemory result }
    {
        let Some(count) = capacity.checked_add(1) else {
            return Err(Error::OutOfMemory);
        };
        let mut offsets = Vec::with_capacity(alloc, count)?;
        offsets.push_reserved(O::from_as_usize(0));
        Ok(Offsets { offsets })
    }

    /// Creates offsets from a vector, without copying it.
    ///
    /// # Errors
    /// `OutOfSpec` with the first rule that is broken: there is at least one offset, the first is
    /// not negative, and none is below the one before it. The offsets are then dropped.
    pub fn try_from_vec(offsets: Vec<O>) -> Result<Self, Error>
        ensures ok { IfOk result (λ taken. (first_fault (map O.number offsets.items) ≡ None)
            × (taken ≡ numbers_of O.number offsets.items)) }
        ensures err { IfErr result (λ e. MatchOption (first_fault (map O.number offsets.items)) ⊥ (λ text.
            refusal e ≡ out_of_spec text)) }
    {
        match first_broken_rule(&offsets) {
            Some(rule) => Err(Error::OutOfSpec(rule)),
            None => Ok(Offsets { offsets }),
        }
    }

    /// Returns the number of slots for which there is room.
    pub fn capacity(&self) -> usize
        ensures { length self.now ≤ result + 1 }
    {
        self.offsets.capacity() - 1
    }

    /// Returns the number of slots, which is one below the number of offsets.
    #[inline(always)]
    pub fn len_proxy(&self) -> usize
        ensures count { result + 1 ≡ length self.now }
        ensures legal { IsOffsets self.now }
    {
        self.offsets.len() - 1
    }

    /// Returns whether there is no slot: there is one offset, which begins and ends them all.
    #[inline(always)]
    pub fn is_empty(&self) -> bool
        ensures { result ≡ (length self.now == 1) }
    {
        self.len_proxy() == 0
    }

    /// Returns the first offset, where the first slot begins.
    #[inline(always)]
    pub fn first(&self) -> &O
        ensures value { O.number result.now ≡ pos (first_of self.now) }
        ensures within { first_of self.now ≤ last_of self.now }
        ensures legal { IsOffsets self.now }
    {
        &self.offsets[0]
    }

    /// Returns the last offset, where the last slot ends.
    #[inline(always)]
    pub fn last(&self) -> &O
        ensures value { O.number result.now ≡ pos (last_of self.now) }
        ensures within { last_of self.now ≤ O.most }
        ensures legal { IsOffsets self.now }
    {
        &self.offsets[self.offsets.len() - 1]
    }

    /// Returns where the slot at `index` begins and ends.
    #[inline(always)]
    pub fn start_end(&self, index: usize) -> (usize, usize)
        requires { index + 1 < length self.now }
        ensures start { result.0 ≡ slice_index self.now index }
        ensures end { result.1 ≡ slice_index self.now (index + 1) }
        ensures order { result.0 ≤ result.1 }
        ensures within { result.1 ≤ last_of self.now }
        ensures legal { IsOffsets self.now }
    {
        start_end_of(&self.offsets, index)
    }

    /// Returns the offsets as a slice.
    #[inline(always)]
    pub fn as_slice(&self) -> &[O]
        ensures keeps { KeepsOffsets O.number O.most result.now }
        ensures numbers { numbers_of O.number result.now ≡ self.now }
        ensures value { map O.number result.now ≡ map pos self.now }
        ensures within { last_of self.now ≤ O.most }
        ensures legal { IsOffsets self.now }
    {
        self.offsets.as_slice()
    }

    /// Returns the vector of the offsets.
    pub fn into_inner(self) -> Vec<O>
        ensures value { map O.number result.items ≡ map pos self }
        ensures legal { first_fault (map O.number result.items) ≡ None }
    {
        let Offsets { offsets } = self;
        offsets
    }

    /// Removes and returns the last offset; `None` if there is no slot.
    pub fn pop(&mut self) -> Option<O>
        ensures { PopsOffset O.number self.old result self.new }
    {
        if self.len_proxy() == 0 {
            None
        } else {
            self.offsets.pop()
        }
    }

    /// Keeps only the first `slots` slots.
    #[inline(always)]
    pub fn truncate(&mut self, slots: usize)
        requires { slots < length self.old }
        ensures { self.new ≡ take (slots + 1) self.old }
    {
        self.offsets.truncate(slots + 1);
    }

    /// Appends the end of a slot of `length` bytes.
    ///
    /// # Errors
    /// - `Overflow` if the end would be above the greatest number of the offset type; this is
    ///   checked before memory is allocated.
    /// - `OutOfMemory` if an allocation fails.
    ///
    /// The offsets are unchanged on an error.
    #[inline(always)]
    pub fn try_push_usize(&mut self, length: usize) -> Result<(), Error>
        ensures legal { IsOffsets self.new }
        ensures ok { OnOk result (AppendsEnd O.most self.old length self.new) }
        ensures err { IfErr result (λ e. EndRefused e O.most (last_of self.old + length) × (self.new ≡ self.old)) }
    {
        let last = self.last().to_usize();
        if length > O::max().to_usize() - last {
            return Err(Error::Overflow);
        }
        self.offsets.push(O::from_as_usize(last + length))?;
        Ok(())
    }

    /// Appends the end of an empty slot.
    ///
    /// # Errors
    /// `OutOfMemory` if an allocation fails; the offsets are then unchanged.
    #[inline(always)]
    pub fn push_empty(&mut self) -> Result<(), Error>
        ensures legal { IsOffsets self.new }
        ensures ok { OnOk result (self.new ≡ self.old ++ last_of self.old ∷ []) }
        ensures err { OutOfMemoryKeeps result self.old self.new }
    {
        match self.try_push_usize(0) {
            Ok(()) => Ok(()),
            // The end of an empty slot is never too great.
            Err(_) => Err(Error::OutOfMemory),
        }
    }

    /// Appends the slots of other offsets, as [`Offsets::try_extend_from_self`].
    pub(super) fn try_extend_from_slice(&mut self, other: &[O]) -> Result<(), Error>
        requires { KeepsOffsets O.number O.most other.now }
        ensures legal { IsOffsets self.new }
        ensures ok { OnOk result (AppendsOffsets O.most self.old (numbers_of O.number other.now) self.new) }
        ensures err { IfErr result (λ e. EndRefused e O.most (joined_end self.old (numbers_of O.number other.now))) }
        ensures kept { OnErr result (self.new ≡ self.old) }
    {
        let last = self.last().to_usize();
        let added = number_at(other, other.len() - 1) - number_at(other, 0);
        if added > O::max().to_usize() - last {
            return Err(Error::Overflow);
        }
        append_moved(&mut self.offsets, other, last)?;
        Ok(())
    }

    /// Appends the slots of other offsets, which keep their lengths: the other offsets move by the
    /// distance from their first offset to the last of these.
    ///
    /// # Errors
    /// - `Overflow` if the last end would be above the greatest number of the offset type; this is
    ///   checked before memory is allocated.
    /// - `OutOfMemory` if an allocation fails.
    ///
    /// The offsets are unchanged on an error.
    pub fn try_extend_from_self(&mut self, other: &Offsets<O>) -> Result<(), Error>
        ensures legal { IsOffsets self.new }
        ensures ok { OnOk result (AppendsOffsets O.most self.old other.now self.new) }
        ensures err { IfErr result (λ e. EndRefused e O.most (joined_end self.old other.now)) }
        ensures kept { OnErr result (self.new ≡ self.old) }
    {
        self.try_extend_from_slice(other.as_slice())
    }

    /// Reserves room for at least `additional` more slots.
    ///
    /// # Errors
    /// `OutOfMemory` if an allocation fails.
    pub fn reserve(&mut self, additional: usize) -> Result<(), Error>
        ensures kept { self.new ≡ self.old }
        ensures err { OnlyOutOfMemory result }
    {
        self.offsets.reserve(additional)?;
        Ok(())
    }

    /// Gives unused room back to the allocator, if it takes it.
    ///
    /// # Errors
    /// Never: if the allocator refuses a smaller allocation, the room stays.
    pub fn shrink_to_fit(&mut self) -> Result<(), Error>
        ensures kept { self.new ≡ self.old }
        ensures ok { IsOk result }
    {
        self.offsets.shrink_to_fit();
        Ok(())
    }

    /// Returns a copy.
    ///
    /// # Errors
    /// `OutOfMemory` if an allocation fails.
    pub fn clone(&self) -> Result<Self, Error>
        ensures ok { IfOk result (λ copy. copy ≡ self.now) }
        ensures err { OnlyOutOfMemory result }
    {
        Ok(Offsets {
            offsets: Vec::from_slice(*self.offsets.allocator(), &self.offsets)?,
        })
    }

    /// Converts the offsets into immutable ones, without copying them.
    ///
    /// # Errors
    /// `OutOfMemory` if an allocation fails; the offsets are then dropped.
    pub fn freeze(self) -> Result<OffsetsBuffer<O>, Error>
        ensures ok { IfOk result (λ frozen. frozen ≡ self) }
        ensures err { OnlyOutOfMemory result }
    {
        let Offsets { offsets } = self;
        Ok(OffsetsBuffer {
            offsets: Buffer::from_vec(offsets)?,
        })
    }
}
