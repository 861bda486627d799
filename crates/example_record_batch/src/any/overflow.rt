//! Which group has a sum that does not fit in 64 bits, so that an error can name it: a sum of groups says only that
//! there is one.
ghost use Rattle.std.specs.Prelude.{◌≡◌, ◌+◌, ◌+ℤ◌, ◌<◌, ◌≤◌, ◌^◌, ℕ, All, IfOk, IfSome, Some, length, not, pos};
ghost use Rattle.std.specs.Prelude.{slice_get, unsigned_abs, unwrap_or};
ghost use Rattle.std.specs.Int.{w64};
ghost use Rattle.dethrugn.specs.Failures.{OnlyOutOfMemory};
ghost use Rattle.dethrugn.specs.NativeArithmetics.{fits_signed};
ghost use Rattle.example_record_batch.specs.AnyArrays.{slot_count};
ghost use Rattle.example_record_batch.specs.Grouping.{HasSums, first_overflow, overflowing_group};

use crate::any::AnyArray;
use dethrugn::array::PrimitiveArray;
use dethrugn::compute::arithmetics::NativeArithmetics;
use dethrugn::compute::group::Groups;
use dethrugn::error::Error;
use std::alloc::{AllocError, Global};

/// Adds the number of a slot to a sum, if it is valid.
fn add_slot(sum: i128, slot: Option<i64>) -> i128
    requires { unsigned_abs sum + 2 ^ 63 < 2 ^ 127 }
    ensures sum { result ≡ sum +ℤ unwrap_or slot (pos 0) }
    ensures small { unsigned_abs result ≤ unsigned_abs sum + 2 ^ 63 }
{
    match slot {
        Some(number) => sum + i128::from(number),
        None => sum,
    }
}

/// Adds the number of each valid slot to the sum of its group.
fn add_numbers(array: &PrimitiveArray<i64>, indices: &[usize], sums: &mut [i128])
    requires rows { length indices.now ≡ length array.now.rows }
    requires within { All (λ g. g < length sums.old) indices.now }
    requires zero { (g : ℕ) → g < length sums.old → slice_get sums.old g ≡ Some (pos 0) }
    ensures { HasSums array.now indices.now (length sums.old) sums.new }
{
    // There are fewer than 2 ^ 64 numbers, and each is at most 2 ^ 63 from zero, so no sum leaves 128 bits.
    for i in 0..indices.len() {
        let group = indices[i];
        sums[group] = add_slot(sums[group], array.get(i));
    }
}

/// Returns the sum of each group, however great.
fn wide_sums(
    alloc: Global,
    array: &PrimitiveArray<i64>,
    indices: &[usize],
    groups: usize,
) -> Result<Vec<i128>, AllocError>
    requires rows { length indices.now ≡ length array.now.rows }
    requires within { All (λ g. g < groups) indices.now }
    ensures count { IfOk result (λ sums. length sums.items ≡ groups) }
    ensures ok { IfOk result (λ sums. HasSums array.now indices.now groups sums.items) }
{
    let mut sums = Vec::new(alloc);
    sums.resize(groups, 0)?;
    add_numbers(array, indices, sums.as_mut_slice());
    Ok(sums)
}

/// Returns whether a sum does not fit in an `i64`.
fn overflows(sum: i128) -> bool
    ensures { result ≡ not (fits_signed w64 sum) }
{
    i64::from_i128(sum).is_none()
}

/// Returns the first group whose sum does not fit in an `i64`.
fn first_overflow(
    alloc: Global,
    array: &PrimitiveArray<i64>,
    indices: &[usize],
    groups: usize,
) -> Result<Option<usize>, AllocError>
    requires rows { length indices.now ≡ length array.now.rows }
    requires within { All (λ g. g < groups) indices.now }
    ensures ok { IfOk result (λ group. group ≡ first_overflow array.now indices.now groups) }
    ensures within { IfOk result (λ group. IfSome group (λ g. g < groups)) }
{
    let sums = wide_sums(alloc, array, indices, groups)?;
    for group in 0..groups {
        if overflows(sums[group]) {
            return Ok(Some(group));
        }
    }
    Ok(None)
}

impl AnyArray {
    /// Returns the first group whose valid slots have a sum that does not fit in an `i64`, and `None` if all sums fit.
    /// The groups must be of as many slots as the array has. Only an array of numbers has sums. Takes a pass over the
    /// slots, so it is called where [`AnyArray::group_aggregate`] has failed.
    ///
    /// # Errors
    /// `OutOfMemory` if an allocation fails.
    pub fn overflowing_group(&self, alloc: Global, groups: &Groups) -> Result<Option<usize>, Error>
        requires { length groups.now.indices ≡ slot_count self.now }
        ensures ok { IfOk result (λ group.
            group ≡ overflowing_group self.now groups.now.indices (length groups.now.first)) }
        ensures within { IfOk result (λ group. IfSome group (λ g. g < length groups.now.first)) }
        ensures err { OnlyOutOfMemory result }
    {
        let (indices, count) = (groups.indices(), groups.len());
        match self {
            AnyArray::Int64(array) => Ok(first_overflow(alloc, array, indices, count)?),
            _ => Ok(None),
        }
    }
}
