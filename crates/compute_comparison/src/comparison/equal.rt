//! Arrays whose values can be tested for equality, and the values with which they can be compared. `compare_equal` and
//! `compare_equal_scalar`, which `eq` and `neq` call, stand beside `compare` and `compare_with_scalar` since they take
//! types without an order, as `i256`; one generic form for both would need a trait and a wrapper type for each, which
//! is more code than the two bodies of three lines.
ghost use Rattle.std.specs.Prelude.{◌≡◌, ◌+◌, ◌<◌, ◌≤◌, ◌^◌, length};
ghost use Rattle.compute_base.specs.Words.{HoldsMarks};
ghost use Rattle.compute_comparison.specs.Comparison.{equal_stored, stored_equal_to};

use arrow_column::Array;

/// An array whose values can be tested for equality: native values of every type, booleans, bytes and
/// text.
pub trait EqualArray: Array {
    ghost use Rattle.std.specs.Prelude.{Bool};

    /// Whether two values are equal.
    ghost equal: { Self.Stored → Self.Stored → Bool };

    /// Returns at which of `count` places from `place` on two arrays store equal values, as the bits of a word, the
    /// least significant first.
    fn equal_word(lhs: &Self, rhs: &Self, place: usize, count: usize) -> u64
        requires few { count ≤ 64 }
        requires fits { place + count < 2 ^ 64 }
        requires left { place + count ≤ length (Self.column lhs.now).rows }
        requires right { place + count ≤ length (Self.column rhs.now).rows }
        ensures { HoldsMarks result (equal_stored equal (Self.column lhs.now) (Self.column rhs.now)) place count };
}

/// A value with which the values of an array can be tested for equality.
pub trait EqualScalar<A: EqualArray>: Copy {
    /// The stored value that it is compared as.
    ghost value: { Self → A.Stored };

    /// Returns which of the `count` values that an array stores from `place` on are equal to this value, as the bits of
    /// a word, the least significant first.
    fn equal_word(lhs: &A, rhs: Self, place: usize, count: usize) -> u64
        requires few { count ≤ 64 }
        requires fits { place + count < 2 ^ 64 }
        requires within { place + count ≤ length (A.column lhs.now).rows }
        ensures { HoldsMarks result (stored_equal_to A.equal (A.column lhs.now) (value rhs)) place count };
}
