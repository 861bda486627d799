//! Searches for a byte that is likely to be near, as the end of a line or of a word.
ghost use Rattle.std.specs.Prelude.{◌≡◌, ◌==◌, ◌≤◌, IfSome, Some, length, position};

use std::simd::prelude::*;

/// Returns the place of the first occurrence of a byte, if it is among the first `N` bytes, which are looked at together.
#[inline(always)]
pub(crate) fn among_first<const N: usize>(byte: u8, text: &[u8]) -> Option<usize>
    requires few { N ≤ 64 }
    requires within { N ≤ length text.now }
    ensures { IfSome result (λ place. position (λ b. b == byte) text.now ≡ Some place) }
{
    let marks = Simd::<u8, N>::from_slice(text)
        .simd_eq(Simd::<u8, N>::splat(byte))
        .to_bitmask();
    if marks == 0 {
        return None;
    }
    Some(marks.trailing_zeros() as usize)
}
