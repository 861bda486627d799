//! The six comparisons of two values, as types, over which comparisons of arrays are written once.
ghost use Rattle.std.specs.Prelude.{◌≡◌, ◌<◌, ◌==◌, ℕ, Bool};
ghost use Rattle.std.specs.Int.{bit_at};
ghost use Rattle.std.specs.Ordering.{bool_cmp};

/// A comparison of two values.
pub trait Comparison {
    ghost use Rattle.std.specs.Prelude.{Bool};
    ghost use Rattle.std.specs.declared.cmp.Ordering.{Ordering};

    /// Whether it holds of two values in this order.
    ghost test: { Ordering → Bool };

    /// Returns whether it holds of two values.
    fn test<T: Ord>(lhs: &T, rhs: &T) -> bool
        ensures { result ≡ test (T.cmp lhs.now rhs.now) };

    /// Returns whether it holds of each of 64 pairs of booleans, which are the bits of two words;
    /// false is less than true.
    fn test_words(lhs: u64, rhs: u64) -> u64
        ensures { (k : ℕ) → k < 64
            → (bit_at result k == 1) ≡ test (bool_cmp (bit_at lhs k == 1) (bit_at rhs k == 1)) };
}

/// A comparison that depends only on whether two values are equal: `==` or `!=`.
pub trait Equality: Comparison {
    ghost use Rattle.std.specs.Prelude.{Bool};
    ghost use Rattle.std.specs.Ordering.{is_eq};
    ghost use Rattle.std.specs.declared.cmp.Ordering.{Ordering};

    /// Whether it holds of two values, given whether they are equal.
    ghost holds: { Bool → Bool };

    /// Returns whether it holds of each of 64 pairs of values, given as the bits of a word which of them are equal.
    fn test_equal_words(equal: u64) -> u64
        ensures { (k : ℕ) → k < 64 → (bit_at result k == 1) ≡ holds (bit_at equal k == 1) };

    /// States that the comparison by an order agrees with the one by equality.
    ghost by_order: { (order : Ordering) → Self.test order ≡ holds (is_eq order) };
}

/// `==`.
pub struct Equal;

/// `!=`.
pub struct Unequal;

/// `<`.
pub struct Less;

/// `<=`.
pub struct LessOrEqual;

/// `>`.
pub struct Greater;

/// `>=`.
pub struct GreaterOrEqual;

impl Comparison for Equal {
    ghost use Rattle.std.specs.Ordering.{is_eq};

    ghost test = { is_eq };

    #[inline(always)]
    fn test<T: Ord>(lhs: &T, rhs: &T) -> bool {
        *lhs == *rhs
    }

    #[inline(always)]
    fn test_words(lhs: u64, rhs: u64) -> u64 {
        !(lhs ^ rhs)
    }
}

impl Comparison for Unequal {
    ghost use Rattle.std.specs.Ordering.{is_ne};

    ghost test = { is_ne };

    #[inline(always)]
    fn test<T: Ord>(lhs: &T, rhs: &T) -> bool {
        *lhs != *rhs
    }

    #[inline(always)]
    fn test_words(lhs: u64, rhs: u64) -> u64 {
        lhs ^ rhs
    }
}

impl Equality for Equal {
    ghost use Rattle.std.specs.Prelude.{refl};

    ghost holds = { λ equal. equal };

    ghost by_order = { λ order. refl };

    #[inline(always)]
    fn test_equal_words(equal: u64) -> u64 {
        equal
    }
}

impl Equality for Unequal {
    ghost use Rattle.std.specs.Prelude.{not};
    ghost use Rattle.compute_comparison.specs.Comparison.{unequal_by_order};

    ghost holds = { not };

    ghost by_order = { unequal_by_order };

    #[inline(always)]
    fn test_equal_words(equal: u64) -> u64 {
        !equal
    }
}

impl Comparison for Less {
    ghost use Rattle.std.specs.Ordering.{is_lt};

    ghost test = { is_lt };

    #[inline(always)]
    fn test<T: Ord>(lhs: &T, rhs: &T) -> bool {
        *lhs < *rhs
    }

    #[inline(always)]
    fn test_words(lhs: u64, rhs: u64) -> u64 {
        !lhs & rhs
    }
}

impl Comparison for LessOrEqual {
    ghost use Rattle.std.specs.Ordering.{is_le};

    ghost test = { is_le };

    #[inline(always)]
    fn test<T: Ord>(lhs: &T, rhs: &T) -> bool {
        *lhs <= *rhs
    }

    #[inline(always)]
    fn test_words(lhs: u64, rhs: u64) -> u64 {
        !lhs | rhs
    }
}

impl Comparison for Greater {
    ghost use Rattle.std.specs.Ordering.{is_gt};

    ghost test = { is_gt };

    #[inline(always)]
    fn test<T: Ord>(lhs: &T, rhs: &T) -> bool {
        *lhs > *rhs
    }

    #[inline(always)]
    fn test_words(lhs: u64, rhs: u64) -> u64 {
        lhs & !rhs
    }
}

impl Comparison for GreaterOrEqual {
    ghost use Rattle.std.specs.Ordering.{is_ge};

    ghost test = { is_ge };

    #[inline(always)]
    fn test<T: Ord>(lhs: &T, rhs: &T) -> bool {
        *lhs >= *rhs
    }

    #[inline(always)]
    fn test_words(lhs: u64, rhs: u64) -> u64 {
        lhs | !rhs
    }
}
