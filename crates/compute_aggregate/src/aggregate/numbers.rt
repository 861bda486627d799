//! Least and greatest values of arrays of numbers.
ghost use Rattle.std.specs.Prelude.{◌≡◌, ◌==◌, ℕ, ◌+◌, ◌<◌, ◌≤◌, [], Contains, MatchOption, Some, false, fold, length, slice_get};
ghost use Rattle.arrow_column.specs.Column.{marks_of};
ghost use Rattle.compute_aggregate.specs.Aggregates.{IsGreatest, IsLeast, valid_values};
ghost use Rattle.compute_aggregate.specs.Folds.{slot_values};

use crate::aggregate::fold::{Folder, fold_slots};
use arrow_memory::bitmap::Bitmap;
use arrow_primitive::PrimitiveArray;
use arrow_types::native_type::NativeType;

/// Keeps the lesser of two values.
struct Lesser;

impl<T: NativeType + Ord> Folder<T> for Lesser {
    ghost use Rattle.std.specs.Ordering.{ord_min};

    type State = T;

    ghost step = { ord_min T.cmp };

    #[inline(always)]
    fn step(state: T, value: T) -> T {
        if value < state { value } else { state }
    }
}

/// Keeps the greater of two values.
struct Greater;

impl<T: NativeType + Ord> Folder<T> for Greater {
    ghost use Rattle.std.specs.Ordering.{ord_max};

    type State = T;

    ghost step = { ord_max T.cmp };

    #[inline(always)]
    fn step(state: T, value: T) -> T {
        if value < state { state } else { value }
    }
}

/// Returns where the first word of 64 marks begins that is not all clear, or where the last whole word
/// ends.
fn skip_clear_words(mask: &Bitmap) -> usize
    ensures { (k : ℕ) → k < result → slice_get mask.now k ≡ Some false }
{
    let words = mask.len() / 64;
    for i in 0..words {
        if mask.word(64 * i) != 0 {
            return 64 * i;
        }
    }
    64 * words
}

/// Returns the value of the first valid slot, or `None` if no slot is valid.
fn first_valid<T: NativeType>(array: &PrimitiveArray<T>) -> Option<T>
    ensures { MatchOption result (valid_values array.now ≡ []) (Contains (valid_values array.now)) }
{
    let first = match array.validity() {
        None => 0,
        Some(mask) => skip_clear_words(mask),
    };
    for i in first..array.len() {
        if array.is_valid(i) {
            return Some(array.value(i));
        }
    }
    None
}

/// Returns the least value of the valid slots, or `None` if no slot is valid.
pub fn min_primitive<T: NativeType + Ord>(array: &PrimitiveArray<T>) -> Option<T>
    ensures { MatchOption result (valid_values array.now ≡ []) (IsLeast T.cmp (valid_values array.now)) }
{
    match first_valid(array) {
        None => None,
        Some(first) => Some(fold_slots::<Lesser, T>(first, array, first)),
    }
}

/// Returns the greatest value of the valid slots, or `None` if no slot is valid.
pub fn max_primitive<T: NativeType + Ord>(array: &PrimitiveArray<T>) -> Option<T>
    ensures { MatchOption result (valid_values array.now ≡ []) (IsGreatest T.cmp (valid_values array.now)) }
{
    match first_valid(array) {
        None => None,
        Some(first) => Some(fold_slots::<Greater, T>(first, array, first)),
    }
}
