//! Offsets of 32 bits as offsets of 64, and the other way round.
ghost use Rattle.std.specs.Prelude.{◌≡◌, ◌<◌, ◌≤◌, pos, map, IfOk, IfErr};
ghost use Rattle.arrow_types.specs.Failures.{OnlyOutOfMemory};
ghost use Rattle.arrow_memory.specs.Offsets.{last_of, KeepsOffsets, MatchGrowth, numbers_of};

use crate::buffer::Buffer;
use crate::offset::OffsetsBuffer;
use crate::offset::numbers::number_at;
use arrow_types::error::Error;
use arrow_types::offset::Offset;
use std::alloc::{AllocError, Global};

/// Returns the numbers of offsets as offsets of another type, whose greatest number is at least each of them.
fn write_numbers<O: Offset, P: Offset>(alloc: Global, offsets: &[O]) -> Result<Vec<P>, AllocError>
    requires keeps { KeepsOffsets O.number O.most offsets.now }
    requires within { last_of (numbers_of O.number offsets.now) ≤ P.most }
    ensures { IfOk result (λ written. map P.number written.items ≡ map pos (numbers_of O.number offsets.now)) }
{
    let mut written = Vec::with_capacity(alloc, offsets.len())?;
    for i in 0..offsets.len() {
        written.push_reserved(P::from_as_usize(number_at(offsets, i)));
    }
    Ok(written)
}

impl<O: Offset> OffsetsBuffer<O> {
    /// Returns the same numbers as offsets of another type.
    ///
    /// # Errors
    /// - `Overflow` if the last offset is above that type's greatest number; this is checked before
    ///   memory is allocated.
    /// - `OutOfMemory` if an allocation fails.
    fn as_offsets<P: Offset>(&self) -> Result<OffsetsBuffer<P>, Error>
        ensures ok { IfOk result (λ offsets. (last_of self.now ≤ P.most) × (offsets ≡ self.now)) }
        ensures err { IfErr result (λ e. MatchGrowth e (P.most < last_of self.now) (last_of self.now ≤ P.most)) }
    {
        if P::from_usize(self.last().to_usize()).is_none() {
            return Err(Error::Overflow);
        }
        let written = write_numbers(self.offsets.allocator(), self.offsets.as_slice())?;
        Ok(OffsetsBuffer {
            offsets: Buffer::from_vec(written)?,
        })
    }
}

impl OffsetsBuffer<i32> {
    /// Returns the same numbers as offsets of 64 bits.
    ///
    /// # Errors
    /// `OutOfMemory` if an allocation fails.
    pub fn widen(&self) -> Result<OffsetsBuffer<i64>, Error>
        ensures ok { IfOk result (λ wide. wide ≡ self.now) }
        ensures err { OnlyOutOfMemory result }
    {
        // The last offset is below every number that needs more than 32 bits.
        self.last();
        self.as_offsets()
    }
}

impl OffsetsBuffer<i64> {
    /// Returns the same numbers as offsets of 32 bits.
    ///
    /// # Errors
    /// - `Overflow` if the last offset is above 2147483647; this is checked before memory is
    ///   allocated.
    /// - `OutOfMemory` if an allocation fails.
    pub fn narrow(&self) -> Result<OffsetsBuffer<i32>, Error>
        ensures ok { IfOk result (λ narrow. (last_of self.now ≤ 2147483647) × (narrow ≡ self.now)) }
        ensures err { IfErr result (λ e.
            MatchGrowth e (2147483647 < last_of self.now) (last_of self.now ≤ 2147483647)) }
    {
        self.as_offsets()
    }
}
