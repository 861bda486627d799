//! Equality of lists of marks, also under a mask, 64 marks at a time.
ghost use Rattle.std.specs.Prelude.{◌≡◌, ℕ, ◌+◌, ◌<◌, ◌≤◌, ◌↔◌, IsTrue, IfSome, length};
ghost use Rattle.std.specs.Int.{bit_at};
ghost use Rattle.arrow_bitmap.specs.Masks.{AgreeWhere, FitsMask, IsValidAt};
ghost use Rattle.arrow_bitmap.specs.MarkEquality.{AgreeWhereIn, same_marks};

use crate::marks::Marks;
use crate::{Bitmap, MutableBitmap};

/// Returns whether two words have the same bits wherever `kept` has a set bit.
#[inline(always)]
fn same_word(first: u64, second: u64, kept: u64) -> bool
    ensures { IsTrue result ↔ ((i : ℕ) → i < 64 → bit_at kept i ≡ 1 → bit_at first i ≡ bit_at second i) }
{
    first & kept == second & kept
}

/// Returns 64 marks of a mask, from `place` on, as the bits of a word. Without a mask all are set.
#[inline(always)]
fn mask_word(mask: &Option<Marks<'_>>, place: usize) -> u64
    requires { IfSome mask.now (λ marks. place + 64 ≤ length marks) }
    ensures { (k : ℕ) → k < 64 → (bit_at result k ≡ 1) ↔ IsValidAt mask.now (place + k) }
{
    match mask {
        None => u64::MAX,
        Some(marks) => marks.word(place),
    }
}

/// Returns whether two lists of marks have the same mark wherever a mask has a set mark, among the 64 marks from `place`
/// on.
fn agree_in_word(
    first: &Marks<'_>,
    second: &Marks<'_>,
    mask: &Option<Marks<'_>>,
    place: usize,
) -> bool
    requires first { place + 64 ≤ length first.now }
    requires second { place + 64 ≤ length second.now }
    requires mask { IfSome mask.now (λ marks. place + 64 ≤ length marks) }
    ensures { IsTrue result ↔ AgreeWhereIn mask.now place 64 first.now second.now }
{
    same_word(
        first.word(place),
        second.word(place),
        mask_word(mask, place),
    )
}

/// Returns whether a mask has a set mark at `i`; without a mask every slot is valid.
#[inline(always)]
fn is_valid_at(mask: &Option<Marks<'_>>, i: usize) -> bool
    requires { IfSome mask.now (λ marks. i < length marks) }
    ensures { IsTrue result ↔ IsValidAt mask.now i }
{
    match mask {
        None => true,
        Some(marks) => marks.get(i),
    }
}

/// Returns whether two lists of marks of equal length agree wherever a mask has a set mark, one mark at a time.
fn agree_one_by_one(first: &Marks<'_>, second: &Marks<'_>, mask: &Option<Marks<'_>>) -> bool
    requires same { length first.now ≡ length second.now }
    requires fits { FitsMask first.now mask.now }
    ensures { IsTrue result ↔ AgreeWhere mask.now first.now second.now }
{
    for i in 0..first.len() {
        if is_valid_at(mask, i) {
            if first.get(i) != second.get(i) {
                return false;
            }
        }
    }
    true
}

/// Returns whether two lists of marks of equal length agree wherever a mask has a set mark, or everywhere without a
/// mask, 64 marks at a time.
fn agree_where(first: &Marks<'_>, second: &Marks<'_>, mask: &Option<Marks<'_>>) -> bool
    requires same { length first.now ≡ length second.now }
    requires fits { FitsMask first.now mask.now }
    ensures { IsTrue result ↔ AgreeWhere mask.now first.now second.now }
{
    let count = first.len();
    if count < 64 {
        return agree_one_by_one(first, second, mask);
    }
    for word in 0..count / 64 {
        if !agree_in_word(first, second, mask, 64 * word) {
            return false;
        }
    }
    // The last 64 marks, some of which may be compared a second time.
    agree_in_word(first, second, mask, count - 64)
}

/// Returns whether two slices have the same bytes.
fn same_slices(first: &[u8], second: &[u8]) -> bool
    ensures { IsTrue result → first.now ≡ second.now }
{
    first == second
}

/// Returns whether two lists of marks of equal length both begin with a byte, and have the same whole bytes and the
/// same last 64 marks. Bytes are compared at once.
fn have_same_bytes(first: &Marks<'_>, second: &Marks<'_>) -> bool
    requires { length first.now ≡ length second.now }
    ensures { IsTrue result → first.now ≡ second.now }
{
    let count = first.len();
    if count < 64 {
        return false;
    }
    let (Some(left), Some(right)) = (first.bytes(), second.bytes()) else {
        return false;
    };
    let whole = count / 8;
    same_slices(&left[..whole], &right[..whole]) && agree_in_word(first, second, &None, count - 64)
}

/// Returns whether two lists have the same marks.
fn are_same(first: &Marks<'_>, second: &Marks<'_>) -> bool
    ensures { IsTrue result ↔ first.now ≡ second.now }
{
    if first.len() != second.len() {
        return false;
    }
    // Most lists that are compared are the same.
    have_same_bytes(first, second) || agree_where(first, second, &None)
}

impl Bitmap {
    /// Returns whether two bitmaps of equal length have the same mark wherever `mask` has a set mark, or everywhere
    /// without a mask. Compares 64 marks at a time.
    pub fn agrees_where(&self, other: &Self, mask: &Option<Bitmap>) -> bool
        requires same { length self.now ≡ length other.now }
        requires fits { FitsMask self.now mask.now }
        ensures { IsTrue result ↔ AgreeWhere mask.now self.now other.now }
    {
        let mask = match mask {
            None => None,
            Some(marks) => Some(marks.marks()),
        };
        agree_where(&self.marks(), &other.marks(), &mask)
    }
}

impl MutableBitmap {
    /// Returns whether both lists have the same marks. Compares 64 marks at a time.
    pub fn has_marks_of(&self, other: &Self) -> bool
        ensures { IsTrue result ↔ self.now ≡ other.now }
    {
        are_same(&self.marks(), &other.marks())
    }

    /// Returns whether two lists of equal length have the same mark wherever `mask` has a set mark, or everywhere
    /// without a mask. Compares 64 marks at a time.
    pub fn agrees_where(&self, other: &Self, mask: &Option<MutableBitmap>) -> bool
        requires same { length self.now ≡ length other.now }
        requires fits { IfSome mask.now (λ marks. length marks ≡ length self.now) }
        ensures { IsTrue result ↔ AgreeWhere mask.now self.now other.now }
    {
        let mask = match mask {
            None => None,
            Some(marks) => Some(marks.marks()),
        };
        agree_where(&self.marks(), &other.marks(), &mask)
    }
}

impl PartialEq for Bitmap {
    ghost use Rattle.std.specs.Cmp.{decided, partial_equiv_from_equiv};
    ghost use Rattle.arrow_bitmap.specs.MarkEquality.{same_marks, same_marks-Decides};

    ghost eq = { same_marks };

    ghost laws = { partial_equiv_from_equiv (decided same_marks same_marks-Decides) };

    /// Returns whether both have the same marks.
    fn eq(&self, other: &Self) -> bool
        ensures value { result ≡ same_marks self.now other.now }
        ensures decides { IsTrue result ↔ self.now ≡ other.now }
    {
        are_same(&self.marks(), &other.marks())
    }
}

impl Eq for Bitmap {
    ghost use Rattle.std.specs.Cmp.{decided};
    ghost use Rattle.arrow_bitmap.specs.MarkEquality.{same_marks, same_marks-Decides};

    ghost laws = { decided same_marks same_marks-Decides };
}

impl PartialEq for MutableBitmap {
    ghost use Rattle.std.specs.Cmp.{decided, partial_equiv_from_equiv};
    ghost use Rattle.arrow_bitmap.specs.MarkEquality.{same_marks, same_marks-Decides};

    ghost eq = { same_marks };

    ghost laws = { partial_equiv_from_equiv (decided same_marks same_marks-Decides) };

    /// Returns whether both have the same marks, as [`MutableBitmap::has_marks_of`].
    fn eq(&self, other: &Self) -> bool
        ensures value { result ≡ same_marks self.now other.now }
        ensures decides { IsTrue result ↔ self.now ≡ other.now }
    {
        self.has_marks_of(other)
    }
}

impl Eq for MutableBitmap {
    ghost use Rattle.std.specs.Cmp.{decided};
    ghost use Rattle.arrow_bitmap.specs.MarkEquality.{same_marks, same_marks-Decides};

    ghost laws = { decided same_marks same_marks-Decides };
}
