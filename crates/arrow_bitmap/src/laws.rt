//! Laws of packed marks, stated over the definitions for all values. Each is the contract of a
//! function with an empty body.
ghost use Rattle.std.specs.Prelude.{◌≡◌, ◌+◌, ◌<◌, ◌≤◌, ◌/◌, ◌%◌, ◌==◌, ℕ, List, Some, drop, length, slice_get};
ghost use Rattle.std.specs.Prelude.{slice_index, take};
ghost use Rattle.std.specs.Int.{bit_at};
ghost use Rattle.arrow_bitmap.specs.Marks.{mark_at, marks};

/// The `n` marks of packed bytes from mark `p` on: there are `n`, mark `i` of them is mark `p + i` of
/// the bytes, which is bit `(p + i) % 8` of byte `(p + i) / 8`, and consecutive marks of them are marks
/// of the bytes.
pub fn packed_marks()
    ensures count { (xs : List ℕ) (p n : ℕ) → length (marks xs p n) ≡ n }
    ensures mark { (xs : List ℕ) (p n i : ℕ) → i < n
        → slice_get (marks xs p n) i ≡ Some (mark_at xs (p + i)) }
    ensures bit { (xs : List ℕ) (i : ℕ)
        → mark_at xs i ≡ (bit_at (slice_index xs (i / 8)) (i % 8) == 1) }
    ensures cut { (xs : List ℕ) (p n a m : ℕ) → a + m ≤ n
        → take m (drop a (marks xs p n)) ≡ marks xs (p + a) m }
{}
