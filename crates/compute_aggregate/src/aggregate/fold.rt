//! Folds of the values of arrays: one loop over values, or 64 marks at a time with no branch on a mark.
ghost use Rattle.std.specs.Prelude.{◌≡◌, ◌+◌, ◌≤◌, drop, fold, length, take};
ghost use Rattle.compute_aggregate.specs.Folds.{slot_values, values_or};

use arrow_memory::bitmap::Bitmap;
use arrow_primitive::PrimitiveArray;
use arrow_types::native_type::NativeType;
use compute_base::bits::is_set;

/// A fold of values, one after the other.
pub(crate) trait Folder<T: Copy> {
    type State: Copy;

    /// The state after one more value.
    ghost step: { Self.State → T → Self.State };

    /// Returns the state after one more value.
    fn step(state: Self::State, value: T) -> Self::State
        ensures { result ≡ step state value };
}

/// Folds all values.
pub(crate) fn fold_values<F: Folder<T>, T: Copy>(start: F::State, values: &[T]) -> F::State
    ensures { result ≡ fold F.step start values.now }
{
    let mut state = start;
    for i in 0..values.len() {
        state = F::step(state, values[i]);
    }
    state
}

/// Folds the 64 values from `place` on, where `null` stands for those whose mark is clear.
#[inline(always)]
fn fold_word<F: Folder<T>, T: Copy>(
    start: F::State,
    values: &[T],
    mask: &Bitmap,
    place: usize,
    null: T,
) -> F::State
    requires same { length mask.now ≡ length values.now }
    requires within { place + 64 ≤ length values.now }
    ensures { result ≡ fold F.step start (take 64 (drop place (values_or null values.now mask.now))) }
{
    let word = mask.word(place);
    let part = &values[place..place + 64];
    let mut state = start;
    for i in 0..64usize {
        let value = part[i];
        state = F::step(state, if is_set(word, i) { value } else { null });
    }
    state
}

/// Folds all values, where `null` stands for those whose mark is clear.
fn fold_masked<F: Folder<T>, T: Copy>(
    start: F::State,
    values: &[T],
    mask: &Bitmap,
    null: T,
) -> F::State
    requires { length mask.now ≡ length values.now }
    ensures { result ≡ fold F.step start (values_or null values.now mask.now) }
{
    let words = values.len() / 64;
    let mut state = start;
    for i in 0..words {
        state = fold_word::<F, T>(state, values, mask, 64 * i, null);
    }
    for k in 64 * words..values.len() {
        let value = values[k];
        state = F::step(state, if mask.get_bit(k) { value } else { null });
    }
    state
}

/// Folds the values of the slots, where `null` stands for those that are null.
pub(crate) fn fold_slots<F: Folder<T>, T: NativeType>(
    start: F::State,
    array: &PrimitiveArray<T>,
    null: T,
) -> F::State
    ensures { result ≡ fold F.step start (slot_values null array.now) }
{
    let values = array.values().as_slice();
    if array.null_count() == 0 {
        return fold_values::<F, T>(start, values);
    }
    match array.validity() {
        None => fold_values::<F, T>(start, values),
        Some(mask) => fold_masked::<F, T>(start, values, mask, null),
    }
}
