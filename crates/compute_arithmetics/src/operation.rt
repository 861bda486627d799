//! Operations on a value, and on what stands on its right: a value, or nothing.
ghost use Rattle.std.specs.Prelude.{◌≡◌};

use arrow_integers::NativeArithmetics;

/// The right side of an operation on one value.
#[derive(Clone, Copy)]
pub(crate) struct NoOperand;

/// An operation that has a result for any value, with any right side.
pub(crate) trait Operation<T: NativeArithmetics, R> {
    /// The result for a value and a right side.
    ghost make: { T → R → T };

    /// Returns the result for a value and a right side.
    fn apply(lhs: T, rhs: R) -> T
        ensures { result ≡ make lhs rhs };
}

/// An operation that has no result for some values or right sides.
pub(crate) trait CheckedOperation<T: NativeArithmetics, R> {
    ghost use Rattle.std.specs.Prelude.{Option};

    /// The result for a value and a right side, if there is one.
    ghost make: { T → R → Option T };

    /// Returns the result for a value and a right side, if there is one.
    fn apply(lhs: T, rhs: R) -> Option<T>
        ensures { result ≡ make lhs rhs };
}

pub(crate) struct WrappingAdd;

impl<T: NativeArithmetics> Operation<T, T> for WrappingAdd {
    ghost use Rattle.std.specs.Prelude.{◌+ℤ◌};
    ghost use Rattle.arrow_integers.specs.NativeArithmetics.{lift};

    ghost make = { lift T.number T.wrap ◌+ℤ◌ };

    #[inline(always)]
    fn apply(lhs: T, rhs: T) -> T {
        lhs.wrapping_add(rhs)
    }
}

pub(crate) struct WrappingSub;

impl<T: NativeArithmetics> Operation<T, T> for WrappingSub {
    ghost use Rattle.std.specs.Prelude.{◌-ℤ◌};
    ghost use Rattle.arrow_integers.specs.NativeArithmetics.{lift};

    ghost make = { lift T.number T.wrap ◌-ℤ◌ };

    #[inline(always)]
    fn apply(lhs: T, rhs: T) -> T {
        lhs.wrapping_sub(rhs)
    }
}

pub(crate) struct WrappingMul;

impl<T: NativeArithmetics> Operation<T, T> for WrappingMul {
    ghost use Rattle.std.specs.Prelude.{◌*ℤ◌};
    ghost use Rattle.arrow_integers.specs.NativeArithmetics.{lift};

    ghost make = { lift T.number T.wrap ◌*ℤ◌ };

    #[inline(always)]
    fn apply(lhs: T, rhs: T) -> T {
        lhs.wrapping_mul(rhs)
    }
}

pub(crate) struct SaturatingAdd;

impl<T: NativeArithmetics> Operation<T, T> for SaturatingAdd {
    ghost use Rattle.std.specs.Prelude.{◌+ℤ◌};
    ghost use Rattle.arrow_integers.specs.NativeArithmetics.{lift};

    ghost make = { lift T.number T.nearest ◌+ℤ◌ };

    #[inline(always)]
    fn apply(lhs: T, rhs: T) -> T {
        lhs.saturating_add(rhs)
    }
}

pub(crate) struct SaturatingSub;

impl<T: NativeArithmetics> Operation<T, T> for SaturatingSub {
    ghost use Rattle.std.specs.Prelude.{◌-ℤ◌};
    ghost use Rattle.arrow_integers.specs.NativeArithmetics.{lift};

    ghost make = { lift T.number T.nearest ◌-ℤ◌ };

    #[inline(always)]
    fn apply(lhs: T, rhs: T) -> T {
        lhs.saturating_sub(rhs)
    }
}

pub(crate) struct SaturatingMul;

impl<T: NativeArithmetics> Operation<T, T> for SaturatingMul {
    ghost use Rattle.std.specs.Prelude.{◌*ℤ◌};
    ghost use Rattle.arrow_integers.specs.NativeArithmetics.{lift};

    ghost make = { lift T.number T.nearest ◌*ℤ◌ };

    #[inline(always)]
    fn apply(lhs: T, rhs: T) -> T {
        lhs.saturating_mul(rhs)
    }
}

pub(crate) struct Div;

impl<T: NativeArithmetics> Operation<T, T> for Div {
    ghost use Rattle.std.specs.Prelude.{int_div};
    ghost use Rattle.arrow_integers.specs.NativeArithmetics.{lift};
    ghost use Rattle.compute_arithmetics.specs.Arithmetic.{unless_zero};

    ghost make = { unless_zero T.number T.zero (lift T.number T.wrap int_div) };

    #[inline(always)]
    fn apply(lhs: T, rhs: T) -> T {
        if rhs == T::default() {
            T::default()
        } else {
            lhs.wrapping_div(rhs)
        }
    }
}

pub(crate) struct Rem;

impl<T: NativeArithmetics> Operation<T, T> for Rem {
    ghost use Rattle.std.specs.Prelude.{int_rem};
    ghost use Rattle.arrow_integers.specs.NativeArithmetics.{lift};
    ghost use Rattle.compute_arithmetics.specs.Arithmetic.{unless_zero};

    ghost make = { unless_zero T.number T.zero (lift T.number T.wrap int_rem) };

    #[inline(always)]
    fn apply(lhs: T, rhs: T) -> T {
        if rhs == T::default() {
            T::default()
        } else {
            lhs.wrapping_rem(rhs)
        }
    }
}

pub(crate) struct Negate;

impl<T: NativeArithmetics> Operation<T, NoOperand> for Negate {
    ghost use Rattle.std.specs.Prelude.{neg_ℤ};

    ghost make = { λ x _. T.wrap (neg_ℤ (T.number x)) };

    #[inline(always)]
    fn apply(value: T, _nothing: NoOperand) -> T {
        value.wrapping_neg()
    }
}

pub(crate) struct CheckedAdd;

impl<T: NativeArithmetics> CheckedOperation<T, T> for CheckedAdd {
    ghost use Rattle.std.specs.Prelude.{◌+ℤ◌};
    ghost use Rattle.arrow_integers.specs.NativeArithmetics.{lift_checked};

    ghost make = { lift_checked T.number T.fits T.wrap ◌+ℤ◌ };

    #[inline(always)]
    fn apply(lhs: T, rhs: T) -> Option<T> {
        lhs.checked_add(rhs)
    }
}

pub(crate) struct CheckedSub;

impl<T: NativeArithmetics> CheckedOperation<T, T> for CheckedSub {
    ghost use Rattle.std.specs.Prelude.{◌-ℤ◌};
    ghost use Rattle.arrow_integers.specs.NativeArithmetics.{lift_checked};

    ghost make = { lift_checked T.number T.fits T.wrap ◌-ℤ◌ };

    #[inline(always)]
    fn apply(lhs: T, rhs: T) -> Option<T> {
        lhs.checked_sub(rhs)
    }
}

pub(crate) struct CheckedMul;

impl<T: NativeArithmetics> CheckedOperation<T, T> for CheckedMul {
    ghost use Rattle.std.specs.Prelude.{◌*ℤ◌};
    ghost use Rattle.arrow_integers.specs.NativeArithmetics.{lift_checked};

    ghost make = { lift_checked T.number T.fits T.wrap ◌*ℤ◌ };

    #[inline(always)]
    fn apply(lhs: T, rhs: T) -> Option<T> {
        lhs.checked_mul(rhs)
    }
}

pub(crate) struct CheckedDiv;

impl<T: NativeArithmetics> CheckedOperation<T, T> for CheckedDiv {
    ghost use Rattle.std.specs.Prelude.{int_div};
    ghost use Rattle.arrow_integers.specs.NativeArithmetics.{lift_division};

    ghost make = { lift_division T.number T.fits T.wrap int_div };

    #[inline(always)]
    fn apply(lhs: T, rhs: T) -> Option<T> {
        lhs.checked_div(rhs)
    }
}

pub(crate) struct CheckedRem;

impl<T: NativeArithmetics> CheckedOperation<T, T> for CheckedRem {
    ghost use Rattle.std.specs.Prelude.{int_rem};
    ghost use Rattle.arrow_integers.specs.NativeArithmetics.{lift_division};

    ghost make = { lift_division T.number T.fits T.wrap int_rem };

    #[inline(always)]
    fn apply(lhs: T, rhs: T) -> Option<T> {
        lhs.checked_rem(rhs)
    }
}

pub(crate) struct CheckedNegate;

impl<T: NativeArithmetics> CheckedOperation<T, NoOperand> for CheckedNegate {
    ghost use Rattle.std.specs.Prelude.{neg_ℤ};
    ghost use Rattle.arrow_integers.specs.NativeArithmetics.{some_if};

    ghost make = { λ x _. some_if (T.fits (neg_ℤ (T.number x))) (T.wrap (neg_ℤ (T.number x))) };

    #[inline(always)]
    fn apply(value: T, _nothing: NoOperand) -> Option<T> {
        value.checked_neg()
    }
}
