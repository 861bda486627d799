//! Immutable offsets, whose clones and slices share memory. That they never fall is their invariant.
ghost use Rattle.std.specs.Prelude.{◌≡◌, ◌+◌, ◌<◌, ◌≤◌, pos, [], ◌∷◌, length, map, take, drop, slice_index, IfOk};
ghost use Rattle.std.specs.Prelude.{◌==◌, IfErr, MatchOption, None};
ghost use Rattle.either.specs.Either.{MatchEither};
ghost use Rattle.arrow_types.specs.Failures.{OnlyOutOfMemory};
ghost use Rattle.arrow_types.specs.Types.{out_of_spec, refusal};
ghost use Rattle.arrow_memory.specs.FileOffsets.{IsFileFault};
ghost use Rattle.arrow_memory.specs.Offsets.{file_offsets, first_fault, first_of, last_of, IsOffsets, KeepsOffsets, numbers_of};

use crate::buffer::Buffer;
use crate::offset::Offsets;
use crate::offset::faults::first_broken_rule;
use crate::offset::numbers::start_end_of;
use arrow_types::error::Error;
use arrow_types::offset::Offset;
use either::{Either, Left, Right};
use std::alloc::Global;
use std::marker::Model;

/// Immutable offsets: at least one, the first not negative, none below the one before it (Arrow
/// columnar format, "Variable-size Binary Layout"). Clones and slices share the memory.
#[derive(Drop)]
pub struct OffsetsBuffer<O: Offset> {
    pub(crate) offsets: Buffer<O>,
}

// Contracts see the numbers.
impl<O: Offset> Model for OffsetsBuffer<O> {
    ghost use Rattle.std.specs.Prelude.{List, ℕ};
    ghost use Rattle.arrow_memory.specs.Offsets.{numbers_of, KeepsOffsets};

    ghost Value = { List ℕ };

    ghost view = { λ a. numbers_of O.number a.offsets };

    ghost invariant = { λ a. KeepsOffsets O.number O.most a.offsets };
}

impl<O: Offset> OffsetsBuffer<O> {
    /// Creates offsets of no slot: one zero.
    ///
    /// # Errors
    /// `OutOfMemory` if an allocation fails.
    pub fn new(alloc: Global) -> Result<Self, Error>
        ensures ok { IfOk result (λ offsets. offsets ≡ 0 ∷ []) }
        ensures err { OnlyOutOfMemory result }
    {
        Offsets::new(alloc)?.freeze()
    }

    /// Creates offsets from a buffer, without copying it.
    ///
    /// # Errors
    /// `OutOfSpec` with the first rule that is broken: there is at least one offset, the first is not negative, and none is
    /// below the one before it.
    pub fn try_from_buffer(offsets: Buffer<O>) -> Result<Self, Error>
        ensures ok { IfOk result (λ made. (first_fault (map O.number offsets) ≡ None)
            × (made ≡ numbers_of O.number offsets)) }
        ensures err { IfErr result (λ e. MatchOption (first_fault (map O.number offsets)) ⊥ (λ text.
            refusal e ≡ out_of_spec text)) }
    {
        match first_broken_rule(offsets.as_slice()) {
            Some(rule) => Err(Error::OutOfSpec(rule)),
            None => Ok(OffsetsBuffer { offsets }),
        }
    }

    /// Creates offsets from a buffer of a file, which may be empty if there are no slots (Arrow columnar format,
    /// "Variable-size Binary Layout"). Such a buffer is read as one offset, 0; any other is not copied.
    ///
    /// # Errors
    /// - `OutOfSpec` with the first rule that is broken: the first offset is not negative, and none is below the one
    ///   before it.
    /// - `OutOfMemory` if the buffer is empty and an allocation fails.
    pub fn try_from_file_buffer(alloc: Global, offsets: Buffer<O>) -> Result<Self, Error>
        ensures ok { IfOk result (λ made. map pos made ≡ file_offsets (map O.number offsets)) }
        ensures err { IfErr result (IsFileFault O.number offsets) }
    {
        if offsets.is_empty() {
            drop(offsets);
            return OffsetsBuffer::new(alloc);
        }
        OffsetsBuffer::try_from_buffer(offsets)
    }

    /// Returns a clone that shares the offsets.
    ///
    /// # Errors
    /// `OutOfMemory` if the number of owners would overflow.
    pub fn clone(&self) -> Result<Self, Error>
        ensures ok { IfOk result (λ copy. copy ≡ self.now) }
        ensures err { OnlyOutOfMemory result }
    {
        Ok(OffsetsBuffer {
            offsets: self.offsets.clone()?,
        })
    }

    /// Returns the buffer of the offsets.
    #[inline(always)]
    pub fn buffer(&self) -> &Buffer<O>
        ensures count { length result.now ≡ length self.now }
        ensures keeps { KeepsOffsets O.number O.most result.now }
        ensures numbers { numbers_of O.number result.now ≡ self.now }
        ensures value { map O.number result.now ≡ map pos self.now }
        ensures within { last_of self.now ≤ O.most }
        ensures legal { IsOffsets self.now }
    {
        &self.offsets
    }

    /// Returns the number of slots, which is one below the number of offsets.
    #[inline(always)]
    pub fn len_proxy(&self) -> usize
        ensures count { result + 1 ≡ length self.now }
        ensures legal { IsOffsets self.now }
    {
        self.offsets.len() - 1
    }

    /// Returns whether there is no slot: there is one offset, which begins and ends them all.
    #[inline(always)]
    pub fn is_empty(&self) -> bool
        ensures { result ≡ (length self.now == 1) }
    {
        self.len_proxy() == 0
    }

    /// Returns the first offset, where the first slot begins.
    #[inline(always)]
    pub fn first(&self) -> &O
        ensures value { O.number result.now ≡ pos (first_of self.now) }
        ensures within { first_of self.now ≤ last_of self.now }
        ensures legal { IsOffsets self.now }
    {
        &self.offsets.as_slice()[0]
    }

    /// Returns the last offset, where the last slot ends.
    #[inline(always)]
    pub fn last(&self) -> &O
        ensures value { O.number result.now ≡ pos (last_of self.now) }
        ensures within { last_of self.now ≤ O.most }
        ensures legal { IsOffsets self.now }
    {
        let offsets = self.offsets.as_slice();
        &offsets[offsets.len() - 1]
    }

    /// Returns where the slot at `index` begins and ends.
    #[inline(always)]
    pub fn start_end(&self, index: usize) -> (usize, usize)
        requires { index + 1 < length self.now }
        ensures start { result.0 ≡ slice_index self.now index }
        ensures end { result.1 ≡ slice_index self.now (index + 1) }
        ensures order { result.0 ≤ result.1 }
        ensures within { result.1 ≤ last_of self.now }
        ensures legal { IsOffsets self.now }
    {
        start_end_of(self.offsets.as_slice(), index)
    }

    /// Keeps only the `len` offsets from `offset` on, at least one, without copying any. The
    /// offsets keep their values, so bytes of slots that go lie before the first offset or after
    /// the last.
    pub fn slice(&mut self, offset: usize, len: usize)
        requires some { 1 ≤ len }
        requires within { offset + len ≤ length self.old }
        ensures value { self.new ≡ take len (drop offset self.old) }
        ensures legal { IsOffsets self.new }
    {
        self.offsets.slice(offset, len);
    }

    /// Converts the offsets into growing ones without copying them, if they are not shared and show
    /// all of their vector. Otherwise returns them unchanged.
    pub fn into_mut(self) -> Either<Self, Offsets<O>>
        ensures { MatchEither result (λ shared. shared ≡ self) (λ offsets. offsets ≡ self) }
    {
        let OffsetsBuffer { offsets } = self;
        match offsets.into_mut() {
            Left(offsets) => Left(OffsetsBuffer { offsets }),
            Right(offsets) => Right(Offsets { offsets }),
        }
    }
}
