//! Runs of set bits of a word, by which filters copy rows. Only speed depends on which runs are called long.
ghost use Rattle.std.specs.Prelude.{◌≡◌, ℕ, ◌<◌, ◌≤◌};
ghost use Rattle.std.specs.Int.{bit_at};

/// Returns the place after the run of set bits that begins at `first`.
#[inline(always)]
pub(crate) fn run_end(word: u64, first: usize) -> usize
    requires within { first < 64 }
    requires set { bit_at word first ≡ 1 }
    ensures more { first < result }
    ensures high { result ≤ 64 }
    ensures set { (k : ℕ) → first ≤ k → k < result → bit_at word k ≡ 1 }
{
    first + (word >> first).trailing_ones() as usize
}

/// Returns whether runs of set bits have `length` bits or more on average, so that appending run by run is faster than
/// row by row. It has no contract, since only speed depends on the result.
#[inline(always)]
pub(crate) fn has_long_runs(word: u64, length: u32) -> bool {
    let runs = (word & !(word << 1)).count_ones();
    word.count_ones() >= runs.saturating_mul(length)
}
