//! The least or the greatest of the values of valid slots, for arrays whose values have an order.
ghost use Rattle.std.specs.Prelude.{◌≡◌, ◌==◌, ◌+◌, ◌<◌, ◌≤◌, ◌^◌, ℕ, Some, true, length, option_map, slice_get};
ghost use Rattle.std.specs.Int.{bit_at};
ghost use Rattle.arrow_column.specs.Column.{marks_of};
ghost use Rattle.compute_aggregate.specs.Aggregates.{extreme_before, extreme_of_all, extreme_slot};

use arrow_memory::bitmap::Bitmap;
use compute_base::bits::next_set;
use compute_slots::OrderSlots;

/// Which of the values is returned.
#[derive(Clone, Copy)]
pub(crate) enum Extreme {
    /// The least.
    Least,
    /// The greatest.
    Greatest,
}

/// Returns the lesser, or the greater, of a value and the one before it, if there is one.
#[inline(always)]
pub(crate) fn more_extreme<'a, A: OrderSlots<'a>>(
    best: Option<A::Value>,
    value: A::Value,
    extreme: Extreme,
) -> Option<A::Value>
    ensures { option_map A.seen result
        ≡ extreme_slot extreme A.order (option_map A.seen best) (Some (A.seen value)) }
{
    let Some(best) = best else {
        return Some(value);
    };
    match extreme {
        Extreme::Least => {
            if A::is_less(value, best) {
                Some(value)
            } else {
                Some(best)
            }
        }
        Extreme::Greatest => {
            if !A::is_less(value, best) {
                Some(value)
            } else {
                Some(best)
            }
        }
    }
}

/// Returns the extreme of the values of the slots before `place`, which is `before`, and of the 64 from there on, whose
/// marks are the bits of a word. Goes from one set bit to the next.
#[inline(always)]
fn extreme_of_word<'a, A: OrderSlots<'a>>(
    array: &'a A,
    word: u64,
    place: usize,
    before: Option<A::Value>,
    extreme: Extreme,
) -> Option<A::Value>
    requires within { place + 64 ≤ length (A.column array.now).rows }
    requires fits { place + 64 < 2 ^ 64 }
    requires marks { (k : ℕ) → k < 64
        → slice_get (marks_of (A.column array.now)) (place + k) ≡ Some (bit_at word k == 1) }
    requires so_far { option_map A.seen before ≡ extreme_before extreme A.order (A.column array.now) place }
    ensures { option_map A.seen result
        ≡ extreme_before extreme A.order (A.column array.entry.now) (place + 64) }
{
    let mut best = before;
    let mut k = next_set(word, 0);
    while k < 64 {
        best = more_extreme::<A>(best, array.value(place + k), extreme);
        k = next_set(word, k + 1);
    }
    best
}

/// Returns the extreme of the values of the slots whose marks are set.
fn extreme_masked<'a, A: OrderSlots<'a>>(
    array: &'a A,
    mask: &Bitmap,
    extreme: Extreme,
) -> Option<A::Value>
    requires { mask.now ≡ marks_of (A.column array.now) }
    ensures { option_map A.seen result ≡ extreme_of_all extreme A.order (A.column array.entry.now) }
{
    let words = mask.len() / 64;
    let mut best = None;
    for i in 0..words {
        best = extreme_of_word(array, mask.word(64 * i), 64 * i, best, extreme);
    }
    for k in 64 * words..mask.len() {
        let next = more_extreme::<A>(best, array.value(k), extreme);
        best = if mask.get_bit(k) { next } else { best };
    }
    best
}

/// Returns the extreme of the values of all slots, none of which is null.
fn extreme_unmasked<'a, A: OrderSlots<'a>>(
    array: &'a A,
    rows: usize,
    extreme: Extreme,
) -> Option<A::Value>
    requires rows { rows ≡ length (A.column array.now).rows }
    requires valid { (k : ℕ) → k < rows → slice_get (marks_of (A.column array.now)) k ≡ Some true }
    ensures { option_map A.seen result ≡ extreme_of_all extreme A.order (A.column array.entry.now) }
{
    let mut best = None;
    for i in 0..rows {
        best = more_extreme::<A>(best, array.value(i), extreme);
    }
    best
}

/// Returns the extreme of the values of the valid slots, `None` if no slot is valid.
pub(crate) fn extreme_value<'a, A: OrderSlots<'a>>(
    array: &'a A,
    extreme: Extreme,
) -> Option<A::Value>
    ensures { option_map A.seen result ≡ extreme_of_all extreme A.order (A.column array.entry.now) }
{
    let rows = array.len();
    match array.validity() {
        None => extreme_unmasked(array, rows, extreme),
        Some(mask) => {
            if mask.unset_bits() == 0 {
                return extreme_unmasked(array, rows, extreme);
            }
            extreme_masked(array, mask, extreme)
        }
    }
}
