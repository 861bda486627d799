//! Offset types: the integers of the variable-size layout. The trait is open, since its ghost members and their law are
//! all that offsets need; tests have a type that ends at 100.
ghost use Rattle.std.specs.Prelude.{◌≡◌, ◌<◌, ◌≤◌, ◌^◌, ℕ, Bool, ℤ, pos, ◌+ℤ◌, ◌<ℤ◌, ◌≤ℤ◌, MatchOption};

/// An integer that an offset is stored as (Arrow columnar format, "Variable-size Binary Layout").
pub trait Offset: Copy {
    /// The number of a value.
    ghost number: { Self → ℤ };

    /// The greatest number of the type.
    ghost most: { ℕ };

    /// Whether the layouts over these offsets are the large ones.
    ghost IS_LARGE: { Bool };

    const IS_LARGE: bool;

    /// Returns the greatest number, which is not negative.
    fn max() -> Self
        ensures { number result ≡ pos most };

    /// Converts a number into an offset, or returns `None` if it is above the greatest number.
    fn from_usize(value: usize) -> Option<Self>
        ensures { MatchOption result (most < value) (λ offset. (value ≤ most) × (number offset ≡ pos value)) };

    /// Converts a number that is at most the greatest number into an offset. An implementation may
    /// leave out the test.
    #[inline(always)]
    fn from_as_usize(value: usize) -> Self
        requires { value ≤ most }
        ensures { number result ≡ pos value }
    {
        match Self::from_usize(value) {
            Some(offset) => offset,
            None => unreachable!(),
        }
    }

    /// Returns the number, or `None` if it is negative.
    fn try_to_usize(&self) -> Option<usize>
        ensures { MatchOption result (number self.now <ℤ pos 0) (λ value. (number self.now ≡ pos value)
            × (value ≤ most)) };

    /// Returns the number, which must not be negative.
    fn to_usize(&self) -> usize
        requires { pos 0 ≤ℤ number self.now }
        ensures value { number self.now ≡ pos result }
        ensures within { result ≤ most };

    /// Returns the distance to `end`, which must not be below this offset, nor this offset
    /// negative. An implementation may subtract in its own width, which saves one conversion.
    #[inline(always)]
    fn distance_to(&self, end: &Self) -> usize
        requires start { pos 0 ≤ℤ number self.now }
        requires order { number self.now ≤ℤ number end.now }
        ensures { number end.now ≡ number self.now +ℤ pos result }
    {
        end.to_usize() - self.to_usize()
    }

    /// Every number that is not negative fits in a `usize`.
    ghost fits: { most < 2 ^ 64 };
}

impl Offset for i32 {
    ghost use Rattle.std.specs.Prelude.{false};
    ghost use Rattle.std.proofs.Common.{lit<};

    ghost number = { λ x. x };

    ghost most = { 2147483647 };

    ghost IS_LARGE = { false };

    const IS_LARGE: bool = false;

    ghost fits = { lit< tt };

    #[inline(always)]
    fn max() -> i32 {
        i32::MAX
    }

    #[inline(always)]
    fn from_usize(value: usize) -> Option<i32> {
        if value <= i32::MAX as usize {
            Some(value as i32)
        } else {
            None
        }
    }

    #[inline(always)]
    fn from_as_usize(value: usize) -> i32 {
        value as i32
    }

    #[inline(always)]
    fn try_to_usize(&self) -> Option<usize> {
        if *self < 0 {
            None
        } else {
            Some(*self as usize)
        }
    }

    #[inline(always)]
    fn to_usize(&self) -> usize {
        *self as usize
    }

    #[inline(always)]
    fn distance_to(&self, end: &i32) -> usize {
        (*end - *self) as u32 as usize
    }
}

impl Offset for i64 {
    ghost use Rattle.std.specs.Prelude.{true};
    ghost use Rattle.std.proofs.Common.{lit<};

    ghost number = { λ x. x };

    ghost most = { 9223372036854775807 };

    ghost IS_LARGE = { true };

    const IS_LARGE: bool = true;

    ghost fits = { lit< tt };

    #[inline(always)]
    fn max() -> i64 {
        i64::MAX
    }

    #[inline(always)]
    fn from_usize(value: usize) -> Option<i64> {
        if value <= i64::MAX as usize {
            Some(value as i64)
        } else {
            None
        }
    }

    #[inline(always)]
    fn from_as_usize(value: usize) -> i64 {
        value as i64
    }

    #[inline(always)]
    fn try_to_usize(&self) -> Option<usize> {
        if *self < 0 {
            None
        } else {
            Some(*self as usize)
        }
    }

    #[inline(always)]
    fn to_usize(&self) -> usize {
        *self as usize
    }
}
