//! How many slots of an array of booleans are true, 64 at a time: as many rows as it keeps as a filter.
ghost use Rattle.std.specs.Prelude.{◌≡◌, ◌+◌, ◌<◌, ◌≤◌, Some, count_by, drop, false, length, slice_get, unwrap_or};
ghost use Rattle.arrow_column.specs.Column.{slots_of};
ghost use Rattle.arrow_column.specs.Combined.{set_in_both};

use crate::BooleanArray;
use arrow_memory::bitmap::Bitmap;

/// Returns whether both lists have a set mark at `i`.
fn is_set_in_both(values: &Bitmap, validity: &Bitmap, i: usize) -> bool
    requires same { length validity.now ≡ length values.now }
    requires within { i < length values.now }
    ensures { slice_get (set_in_both values.now validity.now) i ≡ Some result }
{
    if validity.get_bit(i) {
        values.get_bit(i)
    } else {
        false
    }
}

/// Returns the number of set marks, in constant time.
fn count_set(marks: &Bitmap) -> usize
    ensures { result ≡ count_by (λ mark. mark) marks.now }
{
    marks.len() - marks.unset_bits()
}

/// Counts the marks that are set in both of two short lists of equal length, one by one.
fn count_few(values: &Bitmap, validity: &Bitmap) -> usize
    requires { length validity.now ≡ length values.now }
    ensures { result ≡ count_by (λ mark. mark) (set_in_both values.now validity.now) }
{
    let mut count = 0;
    for i in 0..values.len() {
        if is_set_in_both(values, validity, i) {
            count += 1;
        }
    }
    count
}

/// Counts the marks from `from` on, fewer than 64, that are set in both of two lists of equal
/// length, which have at least 64 marks.
fn count_last(values: &Bitmap, validity: &Bitmap, from: usize) -> usize
    requires same { length validity.now ≡ length values.now }
    requires long { 64 ≤ length values.now }
    requires within { from ≤ length values.now }
    requires few { length values.now < from + 64 }
    ensures { result ≡ count_by (λ mark. mark) (drop from (set_in_both values.now validity.now)) }
{
    if from == values.len() {
        return 0;
    }
    // The last word begins before `from`, so the marks up to there are shifted out.
    let place = values.len() - 64;
    let word = values.word(place) & validity.word(place);
    (word >> (from - place)).count_ones() as usize
}

/// Counts the marks that are set in both of two lists of equal length, 64 at a time.
fn count_both(values: &Bitmap, validity: &Bitmap) -> usize
    requires { length validity.now ≡ length values.now }
    ensures { result ≡ count_by (λ mark. mark) (set_in_both values.now validity.now) }
{
    if values.len() < 64 {
        return count_few(values, validity);
    }
    let mut count = 0;
    let words = values.len() / 64;
    for at in 0..words {
        let word = values.word(64 * at) & validity.word(64 * at);
        count += word.count_ones() as usize;
    }
    count + count_last(values, validity, 64 * words)
}

impl BooleanArray {
    /// Returns the number of slots that are valid and true. Looks at 64 slots at a time, and at none
    /// if no slot is null. Does not allocate.
    pub fn true_count(&self) -> usize
        ensures { result ≡ count_by (λ slot. unwrap_or slot false) (slots_of self.now) }
    {
        let Some(validity) = self.validity() else {
            return count_set(self.values());
        };
        if self.null_count() == 0 {
            return count_set(self.values());
        }
        count_both(self.values(), validity)
    }
}
