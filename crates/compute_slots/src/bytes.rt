//! The order of byte strings, which is that of slices. Only speed is gained by looking at four bytes first.
ghost use Rattle.std.specs.Prelude.{◌≡◌, ◌≤◌, length};
ghost use Rattle.std.specs.Cmp.Lexicographic.{slice_cmp};
ghost use Rattle.std.specs.Ordering.{nat_cmp};
ghost use Rattle.compute_slots.specs.Bytes.{AreBytes, four_bytes};

use std::cmp::Ordering;

/// Returns the first four bytes as a number, the first byte as its highest.
#[inline(always)]
fn first_four(bytes: &[u8]) -> u32
    requires { 4 ≤ length bytes.now }
    ensures value { result ≡ four_bytes bytes.now }
    ensures bytes { AreBytes bytes.now }
{
    let high = u32::from(bytes[0]) * 256 + u32::from(bytes[1]);
    let low = u32::from(bytes[2]) * 256 + u32::from(bytes[3]);
    high * 65536 + low
}

/// Returns the order of byte strings. Most differ in their first four bytes, which are compared at once.
#[inline(always)]
pub(crate) fn compare_bytes(lhs: &[u8], rhs: &[u8]) -> Ordering
    ensures { result ≡ slice_cmp nat_cmp lhs.now rhs.now }
{
    if lhs.len() < 4 || rhs.len() < 4 {
        return lhs.cmp(rhs);
    }
    let (x, y) = (first_four(lhs), first_four(rhs));
    if x == y {
        return lhs.cmp(rhs);
    }
    x.cmp(&y)
}
