//! Sums of groups of slots whose numbers are at most 2 ^ 64 from zero: no sum of fewer than 2 ^ 62 of
//! them leaves 128 bits.
ghost use Rattle.std.specs.Prelude.{◌≡◌, ◌+ℤ◌, ◌+◌, ◌||◌, ◌<◌, ◌≤◌, ◌^◌, ℕ, ℤ, Bool, All, IfErr, IfOk, None, Some, false, true};
ghost use Rattle.std.specs.Prelude.{length, map, option_map, pos, slice_get, unsigned_abs};
ghost use Rattle.arrow_memory.specs.Rows.{rows_of, slot};
ghost use Rattle.compute_aggregate.specs.GroupSums.{AddsSlot, ShowsWhole, SumsMasked, SumsTo, WholeOverflow};
ghost use Rattle.compute_aggregate.specs.GroupSums.{WholeRefused, slots_by_group, whole_slot_of};

use crate::aggregate::group_sums::{either, valid_number};
use arrow_integers::NativeArithmetics;
use arrow_memory::bitmap::Bitmap;
use arrow_primitive::PrimitiveArray;
use arrow_types::error::Error;
use compute_base::bits::is_set;
use std::alloc::Global;

/// Adds a number to a sum, and notes whether there was a valid slot. The parts are written each by itself: a whole pair
/// would be written with the bytes that pad it.
#[inline(always)]
fn add_number(sum: &mut (i128, bool), number: i128, is_valid: bool)
    requires sum { unsigned_abs sum.old.0 ≤ 2 ^ 126 }
    requires number { unsigned_abs number ≤ 2 ^ 64 }
    ensures { sum.new ≡ (sum.old.0 +ℤ number, sum.old.1 || is_valid) }
{
    sum.0 += number;
    sum.1 = either(sum.1, is_valid);
}

/// Adds the number of a slot to the sum of its group, if it is at most 2 ^ 64 from zero, and returns
/// whether it is.
#[inline(always)]
fn add_slot<T: NativeArithmetics>(
    sums: &mut [(i128, bool)],
    group: usize,
    value: T,
    is_valid: bool,
) -> bool
    requires within { group < length sums.old }
    requires size { (sum : ℤ × Bool) → slice_get sums.old group ≡ Some sum → unsigned_abs (sum.0) ≤ 2 ^ 126 }
    ensures { result ≡ true → AddsSlot T.number sums.old group (slot (value, is_valid)) sums.new }
{
    let number = valid_number(value, is_valid);
    if number.unsigned_abs() > 1 << 64 {
        return false;
    }
    add_number(&mut sums[group], number, is_valid);
    true
}

/// Adds the numbers of values, all valid, to the sums of their groups, and returns whether all are at most
/// 2 ^ 64 from zero.
fn add_values<T: NativeArithmetics>(
    values: &[T],
    indices: &[usize],
    sums: &mut [(i128, bool)],
) -> bool
    requires rows { length indices.now ≡ length values.now }
    requires few { length indices.now < 2 ^ 62 }
    requires within { All (λ g. g < length sums.old) indices.now }
    requires zero { (g : ℕ) → g < length sums.old → slice_get sums.old g ≡ Some (pos 0, false) }
    ensures { result ≡ true → SumsTo T.number (slots_by_group indices.now (rows_of values.now None))
        (length indices.now) sums.new }
{
    for i in 0..indices.len() {
        if !add_slot(sums, indices[i], values[i], true) {
            return false;
        }
    }
    true
}

/// Adds the numbers of the 64 slots from `place` on to the sums of their groups, and returns whether all
/// are at most 2 ^ 64 from zero.
#[inline(always)]
fn add_word<T: NativeArithmetics>(
    values: &[T],
    mask: &Bitmap,
    indices: &[usize],
    place: usize,
    sums: &mut [(i128, bool)],
) -> bool
    requires same { length mask.now ≡ length values.now }
    requires rows { length indices.now ≡ length values.now }
    requires few { length indices.now < 2 ^ 62 }
    requires place { place + 64 ≤ length values.now }
    requires within { All (λ g. g < length sums.old) indices.now }
    requires before { SumsMasked T.number indices.now values.now mask.now place sums.old }
    ensures { result ≡ true → SumsMasked T.number indices.now values.now mask.now (place + 64) sums.new }
{
    let word = mask.word(place);
    for i in 0..64usize {
        let k = place + i;
        if !add_slot(sums, indices[k], values[k], is_set(word, i)) {
            return false;
        }
    }
    true
}

/// Adds the numbers of the slots to the sums of their groups, and returns whether all are at most 2 ^ 64
/// from zero.
fn add_masked<T: NativeArithmetics>(
    values: &[T],
    mask: &Bitmap,
    indices: &[usize],
    sums: &mut [(i128, bool)],
) -> bool
    requires same { length mask.now ≡ length values.now }
    requires rows { length indices.now ≡ length values.now }
    requires few { length indices.now < 2 ^ 62 }
    requires within { All (λ g. g < length sums.old) indices.now }
    requires zero { (g : ℕ) → g < length sums.old → slice_get sums.old g ≡ Some (pos 0, false) }
    ensures { result ≡ true → SumsMasked T.number indices.now values.now mask.now (length indices.now) sums.new }
{
    let words = indices.len() / 64;
    for i in 0..words {
        if !add_word(values, mask, indices, 64 * i, sums) {
            return false;
        }
    }
    for k in 64 * words..indices.len() {
        if !add_slot(sums, indices[k], values[k], mask.get_bit(k)) {
            return false;
        }
    }
    true
}

/// Adds the number of each slot to the sum of its group. Returns `false` if there are 2 ^ 62 slots or more,
/// or a number is more than 2 ^ 64 from zero; the sums are then not to be used.
pub(crate) fn whole_sums<T: NativeArithmetics>(
    array: &PrimitiveArray<T>,
    indices: &[usize],
    sums: &mut [(i128, bool)],
) -> bool
    requires rows { length indices.now ≡ length array.now.rows }
    requires within { All (λ g. g < length sums.old) indices.now }
    requires zero { (g : ℕ) → g < length sums.old → slice_get sums.old g ≡ Some (pos 0, false) }
    ensures { result ≡ true → SumsTo T.number (slots_by_group indices.now array.now.rows)
        (length indices.now) sums.new }
{
    if indices.len() >= 1 << 62 {
        return false;
    }
    let values = array.values().as_slice();
    if array.null_count() == 0 {
        return add_values(values, indices, sums);
    }
    match array.validity() {
        None => add_values(values, indices, sums),
        Some(mask) => add_masked(values, mask, indices, sums),
    }
}

/// Returns the slot of a whole sum, null if there was no valid slot.
fn whole_slot<T: NativeArithmetics>(sum: (i128, bool)) -> Result<Option<T>, Error>
    ensures ok { IfOk result (λ slot. option_map T.number slot ≡ whole_slot_of sum) }
    ensures err { IfErr result (λ e. WholeOverflow T.fits sum e) }
{
    if !sum.1 {
        return Ok(None);
    }
    match T::from_i128(sum.0) {
        Some(sum) => Ok(Some(sum)),
        None => Err(Error::Overflow),
    }
}

/// Returns the slots of whole sums.
pub(crate) fn whole_slots<T: NativeArithmetics>(
    alloc: Global,
    sums: &[(i128, bool)],
) -> Result<Vec<Option<T>>, Error>
    ensures count { IfOk result (λ slots. length slots.items ≡ length sums.now) }
    ensures ok { IfOk result (λ slots. ShowsWhole T.number sums.now slots.items) }
    ensures err { IfErr result (WholeRefused T.fits sums.now) }
{
    let mut slots = Vec::with_capacity(alloc, sums.len())?;
    for i in 0..sums.len() {
        slots.push(whole_slot(sums[i])?)?;
    }
    Ok(slots)
}
