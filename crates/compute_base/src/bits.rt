//! The set bits of words, for kernels that walk over marks 64 at a time.
ghost use Rattle.std.specs.Prelude.{◌≡◌, ◌==◌, ◌<◌, ◌≤◌, ℕ};
ghost use Rattle.std.specs.Int.{bit_at};

/// Returns whether the bit at `i` is set.
#[inline(always)]
pub fn is_set(word: u64, i: usize) -> bool
    requires { i < 64 }
    ensures { result ≡ (bit_at word i == 1) }
{
    word >> i & 1 == 1
}

/// Returns the place of the first set bit from `from` on, or 64 if there is none.
#[inline(always)]
pub fn next_set(word: u64, from: usize) -> usize
    requires { from ≤ 64 }
    ensures low { from ≤ result }
    ensures high { result ≤ 64 }
    ensures clear { (k : ℕ) → from ≤ k → k < result → bit_at word k ≡ 0 }
    ensures set { result < 64 → bit_at word result ≡ 1 }
{
    if from == 64 {
        return 64;
    }
    let rest = word >> from;
    if rest == 0 {
        return 64;
    }
    from + rest.trailing_zeros() as usize
}
