//! Arithmetic on native integers, through the numbers that they are, which contracts of kernels cite. It is implemented
//! once, over `num_traits`.
ghost use Rattle.std.specs.Prelude.{◌≡◌, ◌≢◌, ◌+ℤ◌, ◌-ℤ◌, ◌*ℤ◌, ◌≤ℤ◌, ◌^◌, ℕ, ℤ, Bool, true, pos, neg_ℤ, int_div};
ghost use Rattle.std.specs.Prelude.{int_rem, FitsSigned};
ghost use Rattle.std.specs.Int.{w128};
ghost use Rattle.arrow_integers.specs.NativeArithmetics.{DiffersByMultiple, lift_division, some_if};

use crate::native_integer::NativeInteger;
use arrow_types::native_type::NativeType;
use num_traits::{
    CheckedAdd, CheckedDiv, CheckedMul, CheckedRem, CheckedSub, FromPrimitive, SaturatingAdd,
    SaturatingMul, SaturatingSub, WrappingAdd, WrappingMul, WrappingSub,
};

/// A native type of integers, with wrapping, checked and saturating arithmetic: `i8` to `i128` and `u8` to `u64`.
/// Results are stated by the numbers of values.
pub trait NativeArithmetics: NativeType + Ord {
    /// The number of bits of a value.
    ghost bits: { ℕ };

    /// The number of a value.
    ghost number: { Self → ℤ };

    /// Whether a value of the type has this number.
    ghost fits: { ℤ → Bool };

    /// The value whose number differs from this one by a multiple of two to the number of bits.
    ghost wrap: { ℤ → Self };

    /// The value whose number is nearest to this one.
    ghost nearest: { ℤ → Self };

    /// Returns the sum, which wraps.
    fn wrapping_add(self, rhs: Self) -> Self
        ensures { result ≡ wrap (number self +ℤ number rhs) };

    /// Returns the difference, which wraps.
    fn wrapping_sub(self, rhs: Self) -> Self
        ensures { result ≡ wrap (number self -ℤ number rhs) };

    /// Returns the product, which wraps.
    fn wrapping_mul(self, rhs: Self) -> Self
        ensures { result ≡ wrap (number self *ℤ number rhs) };

    /// Returns the quotient, rounded toward zero. The divisor must not be zero. The least number of a signed type
    /// divided by -1 wraps to itself.
    fn wrapping_div(self, rhs: Self) -> Self
        requires { number rhs ≢ pos 0 }
        ensures { result ≡ wrap (int_div (number self) (number rhs)) };

    /// Returns the remainder of the quotient that is rounded toward zero, which has the sign of the dividend. The
    /// divisor must not be zero.
    fn wrapping_rem(self, rhs: Self) -> Self
        requires { number rhs ≢ pos 0 }
        ensures { result ≡ wrap (int_rem (number self) (number rhs)) };

    /// Returns the sum, or `None` if it does not fit.
    fn checked_add(self, rhs: Self) -> Option<Self>
        ensures { result ≡ some_if (fits (number self +ℤ number rhs)) (wrap (number self +ℤ number rhs)) };

    /// Returns the difference, or `None` if it does not fit.
    fn checked_sub(self, rhs: Self) -> Option<Self>
        ensures { result ≡ some_if (fits (number self -ℤ number rhs)) (wrap (number self -ℤ number rhs)) };

    /// Returns the product, or `None` if it does not fit.
    fn checked_mul(self, rhs: Self) -> Option<Self>
        ensures { result ≡ some_if (fits (number self *ℤ number rhs)) (wrap (number self *ℤ number rhs)) };

    /// Returns the quotient, rounded toward zero, or `None` if the divisor is zero or the quotient does not fit.
    fn checked_div(self, rhs: Self) -> Option<Self>
        ensures { result ≡ lift_division number fits wrap int_div self rhs };

    /// Returns the remainder, or `None` if the divisor is zero or the quotient does not fit.
    fn checked_rem(self, rhs: Self) -> Option<Self>
        ensures { result ≡ lift_division number fits wrap int_rem self rhs };

    /// Returns the number of the type that is nearest to the sum.
    fn saturating_add(self, rhs: Self) -> Self
        ensures { result ≡ nearest (number self +ℤ number rhs) };

    /// Returns the number of the type that is nearest to the difference.
    fn saturating_sub(self, rhs: Self) -> Self
        ensures { result ≡ nearest (number self -ℤ number rhs) };

    /// Returns the number of the type that is nearest to the product.
    fn saturating_mul(self, rhs: Self) -> Self
        ensures { result ≡ nearest (number self *ℤ number rhs) };

    /// Returns the negation, which wraps.
    #[inline(always)]
    fn wrapping_neg(self) -> Self
        ensures { result ≡ wrap (neg_ℤ (number self)) }
    {
        Self::default().wrapping_sub(self)
    }

    /// Returns the negation, or `None` if it does not fit.
    #[inline(always)]
    fn checked_neg(self) -> Option<Self>
        ensures { result ≡ some_if (fits (neg_ℤ (number self))) (wrap (neg_ℤ (number self))) }
    {
        Self::default().checked_sub(self)
    }

    /// Returns the number of the value, which fits in its type.
    fn to_i128(self) -> i128
        ensures value { result ≡ number self }
        ensures fits { fits (number self) ≡ true };

    /// Returns the value that has a number, or `None` if it does not fit.
    fn from_i128(value: i128) -> Option<Self>
        ensures { result ≡ some_if (fits value) (wrap value) };

    /// The zero of the type is the number zero.
    ghost zero_number: { number Self.zero ≡ pos 0 };

    /// Different values have different numbers.
    ghost same_number: { (x y : Self) → number x ≡ number y → x ≡ y };

    /// The number of a wrapped value fits.
    ghost wrapped_fits: { (z : ℤ) → fits (number (wrap z)) ≡ true };

    /// A number that fits does not wrap.
    ghost number_of_wrap: { (z : ℤ) → fits z ≡ true → number (wrap z) ≡ z };

    /// The number of a value wraps to that value.
    ghost wrap_of_number: { (x : Self) → fits (number x) ≡ true → wrap (number x) ≡ x };

    /// Every number of the type fits in 128 bits.
    ghost fits_128_bits: { (z : ℤ) → fits z ≡ true → FitsSigned w128 z };

    /// A number wraps to one that differs by a multiple of two to the number of bits.
    ghost differs: { (z : ℤ) → DiffersByMultiple (2 ^ bits) z (number (wrap z)) };

    /// The number that is nearest to another fits.
    ghost nearest_fits: { (z : ℤ) → fits (number (nearest z)) ≡ true };

    /// A number that fits is the nearest to itself.
    ghost number_of_nearest: { (z : ℤ) → fits z ≡ true → number (nearest z) ≡ z };

    /// No number of the type lies between a number and a greater nearest one.
    ghost nearest_below: { (z y : ℤ) → fits y ≡ true → z ≤ℤ y → number (nearest z) ≤ℤ y };

    /// No number of the type lies between a number and a lesser nearest one.
    ghost nearest_above: { (z y : ℤ) → fits y ≡ true → y ≤ℤ z → y ≤ℤ number (nearest z) };
}

impl<T: NativeInteger> NativeArithmetics for T {
    ghost use Rattle.std.proofs.Common.{ap, sym, ◌∙◌};
    ghost use Rattle.arrow_integers.specs.NativeArithmetics.{bit_count, fits_integer, nearest_integer, wrap_integer};
    ghost use Rattle.arrow_integers.specs.NativeNumbers.{nearest_value_above, nearest_value_below, nearest_value_fits};
    ghost use Rattle.arrow_integers.specs.NativeNumbers.{nearest_value_same, wrap_integer_same, wrap_value_differs};
    ghost use Rattle.arrow_integers.specs.NativeNumbers.{wrap_value_fits, wrap_value_same};

    ghost bits = { bit_count T.width };

    ghost number = { λ x. T.value x };

    ghost fits = { fits_integer T.signed T.width };

    ghost wrap = { λ z. T.of_number (wrap_integer T.signed T.width z) };

    ghost nearest = { λ z. T.of_number (nearest_integer T.signed T.width z) };

    ghost zero_number = { T.zero_value_law };

    ghost same_number = { λ x y e. sym (T.number_of_value_law x) ∙ ap T.of_number e ∙ T.number_of_value_law y };

    ghost wrapped_fits = { wrap_value_fits T.value T.of_number T.signed T.width T.value_of_number_law };

    ghost number_of_wrap = { wrap_value_same T.value T.of_number T.signed T.width T.value_of_number_law };

    ghost wrap_of_number = { λ x e. ap T.of_number (wrap_integer_same T.signed T.width (T.value x) e)
        ∙ T.number_of_value_law x };

    ghost fits_128_bits = { T.fits_128_bits_law };

    ghost differs = { wrap_value_differs T.value T.of_number T.signed T.width T.value_of_number_law };

    ghost nearest_fits = { nearest_value_fits T.value T.of_number T.signed T.width T.value_of_number_law };

    ghost number_of_nearest = { nearest_value_same T.value T.of_number T.signed T.width T.value_of_number_law };

    ghost nearest_below = { nearest_value_below T.value T.of_number T.signed T.width T.value_of_number_law };

    ghost nearest_above = { nearest_value_above T.value T.of_number T.signed T.width T.value_of_number_law };

    #[inline(always)]
    fn wrapping_add(self, rhs: T) -> T {
        WrappingAdd::wrapping_add(&self, &rhs)
    }

    #[inline(always)]
    fn wrapping_sub(self, rhs: T) -> T {
        WrappingSub::wrapping_sub(&self, &rhs)
    }

    #[inline(always)]
    fn wrapping_mul(self, rhs: T) -> T {
        WrappingMul::wrapping_mul(&self, &rhs)
    }

    #[inline(always)]
    fn wrapping_div(self, rhs: T) -> T {
        // Called for their contracts: both are numbers of the type.
        self.as_i128();
        rhs.as_i128();
        // Only the least number divided by -1 has no quotient, and its negation wraps to itself.
        NativeArithmetics::checked_div(self, rhs).unwrap_or(self)
    }

    #[inline(always)]
    fn wrapping_rem(self, rhs: T) -> T {
        // Called for their contracts: both are numbers of the type.
        self.as_i128();
        rhs.as_i128();
        // As for the quotient; the remainder is zero.
        NativeArithmetics::checked_rem(self, rhs).unwrap_or(T::default())
    }

    #[inline(always)]
    fn checked_add(self, rhs: T) -> Option<T> {
        CheckedAdd::checked_add(&self, &rhs)
    }

    #[inline(always)]
    fn checked_sub(self, rhs: T) -> Option<T> {
        CheckedSub::checked_sub(&self, &rhs)
    }

    #[inline(always)]
    fn checked_mul(self, rhs: T) -> Option<T> {
        CheckedMul::checked_mul(&self, &rhs)
    }

    #[inline(always)]
    fn checked_div(self, rhs: T) -> Option<T> {
        // Called for its contract: the divisor is a number of the type.
        rhs.as_i128();
        CheckedDiv::checked_div(&self, &rhs)
    }

    #[inline(always)]
    fn checked_rem(self, rhs: T) -> Option<T> {
        // Called for their contracts: both are numbers of the type.
        self.as_i128();
        rhs.as_i128();
        CheckedRem::checked_rem(&self, &rhs)
    }

    #[inline(always)]
    fn saturating_add(self, rhs: T) -> T {
        SaturatingAdd::saturating_add(&self, &rhs)
    }

    #[inline(always)]
    fn saturating_sub(self, rhs: T) -> T {
        SaturatingSub::saturating_sub(&self, &rhs)
    }

    #[inline(always)]
    fn saturating_mul(self, rhs: T) -> T {
        SaturatingMul::saturating_mul(&self, &rhs)
    }

    #[inline(always)]
    fn to_i128(self) -> i128 {
        self.as_i128()
    }

    #[inline(always)]
    fn from_i128(value: i128) -> Option<T> {
        FromPrimitive::from_i128(value)
    }
}
