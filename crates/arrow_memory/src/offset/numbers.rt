//! The numbers of offsets that are kept as values of an offset type.
ghost use Rattle.std.specs.Prelude.{◌≡◌, ◌+◌, ◌-◌, ◌<◌, ◌≤◌, pos, ◌++◌, length, map, slice_index, OnOk};
ghost use Rattle.std.specs.Prelude.{OnErr};
ghost use Rattle.std.specs.Vec.{vec_len, vec_capacity};
ghost use Rattle.arrow_memory.specs.Offsets.{first_of, last_of, numbers_of, KeepsOffsets, ends_behind, AppendsEnds, AppendsValues};

use arrow_types::offset::Offset;
use std::alloc::AllocError;
use std::mem;

/// Returns the number of the offset at `index`.
#[inline(always)]
#[tactic(auto, using(crate::proofs::OffsetLemmas::offset_reads))]
pub fn number_at<O: Offset>(offsets: &[O], index: usize) -> usize
    requires keeps { KeepsOffsets O.number O.most offsets.now }
    requires within { index < length offsets.now }
    ensures { result ≡ slice_index (numbers_of O.number offsets.now) index }
{
    offsets[index].to_usize()
}

/// Returns where the slot at `index` begins and ends.
#[inline(always)]
#[tactic(auto, using(crate::proofs::OffsetLemmas::offset_reads))]
pub fn start_end_of<O: Offset>(offsets: &[O], index: usize) -> (usize, usize)
    requires keeps { KeepsOffsets O.number O.most offsets.now }
    requires within { index + 1 < length offsets.now }
    ensures start { result.0 ≡ slice_index (numbers_of O.number offsets.now) index }
    ensures end { result.1 ≡ slice_index (numbers_of O.number offsets.now) (index + 1) }
    ensures order { result.0 ≤ result.1 }
    ensures last { result.1 ≤ last_of (numbers_of O.number offsets.now) }
{
    let start = number_at(offsets, index);
    let length = offsets[index].distance_to(&offsets[index + 1]);
    (start, start + length)
}

/// Appends the ends of other slots, moved to lie behind the last offset.
///
/// # Errors
/// `AllocError` if an allocation fails; the offsets are then unchanged.
pub(super) fn append_moved<O: Offset>(
    offsets: &mut Vec<O>,
    other: &[O],
    last: usize,
) -> Result<(), AllocError>
    requires keeps { KeepsOffsets O.number O.most offsets.old.items }
    requires other { KeepsOffsets O.number O.most other.now }
    requires last { last ≡ last_of (numbers_of O.number offsets.old.items) }
    requires within { last + (last_of (numbers_of O.number other.now) - first_of (numbers_of O.number other.now)) ≤
        O.most }
    ensures ok { OnOk result (AppendsValues O.number O.most last offsets.old.items other.now offsets.new.items) }
    ensures err { OnErr result (offsets.new.items ≡ offsets.old.items) }
{
    if number_at(other, 0) == last {
        // Nothing moves, so the ends are copied as they are.
        offsets.extend_from_slice(&other[1..])?;
        return Ok(());
    }
    offsets.reserve(other.len() - 1)?;
    let alloc = *offsets.allocator();
    let taken = mem::replace(offsets, Vec::new(alloc));
    *offsets = with_ends(taken, other, last);
    Ok(())
}

/// Returns the offsets with the ends of other slots, moved to lie behind the offset `last`, for which there is room.
#[inline(always)]
fn with_ends<O: Offset>(offsets: Vec<O>, other: &[O], last: usize) -> Vec<O>
    requires other { KeepsOffsets O.number O.most other.now }
    requires room { vec_len offsets + length other.now ≤ vec_capacity offsets + 1 }
    requires within { last + (last_of (numbers_of O.number other.now) - first_of (numbers_of O.number other.now)) ≤
        O.most }
    ensures { map O.number result.items ≡ map O.number offsets.items
        ++ map pos (ends_behind O.number last other.now) }
{
    let slots = other.len() - 1;
    // Vector code takes up to 32 offsets a step. Whole steps leave it no rest, which would be taken one by one; the
    // rest is a loop of its own, whose vector code is narrower.
    let whole = slots - slots % 32;
    let offsets = with_some_ends(offsets, other, last, 0, whole);
    with_some_ends(offsets, other, last, whole, slots)
}

/// Returns the offsets with the ends of some other slots, from slot `from` up to `to`, as [`with_ends`]. A vector of its
/// own has its length in a register, so the compiler can make vector code of the loop.
#[inline(always)]
fn with_some_ends<O: Offset>(
    mut offsets: Vec<O>,
    other: &[O],
    last: usize,
    from: usize,
    to: usize,
) -> Vec<O>
    requires other { KeepsOffsets O.number O.most other.now }
    requires order { from ≤ to }
    requires slots { to < length other.now }
    requires room { vec_len offsets + to ≤ vec_capacity offsets + from }
    requires within { last + (last_of (numbers_of O.number other.now) - first_of (numbers_of O.number other.now)) ≤
        O.most }
    ensures ends { AppendsEnds O.number last other.now from to offsets.items result.items }
    ensures count { vec_len result + from ≡ vec_len offsets + to }
    ensures capacity { vec_capacity result ≡ vec_capacity offsets }
{
    let first = number_at(other, 0);
    for i in from..to {
        let end = last + (number_at(other, i + 1) - first);
        offsets.push_reserved(O::from_as_usize(end));
    }
    offsets
}
