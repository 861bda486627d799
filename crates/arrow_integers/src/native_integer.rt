//! The native types of integers, each by its width and by whether it is signed. Their operations are those of the crate
//! `num_traits`, whose laws say what each makes; the laws here say the same of numbers.
ghost use Rattle.std.specs.Prelude.{◌≡◌, ℤ, Bool, true, false, pos, refl, unsigned_abs, FitsSigned};
ghost use Rattle.std.specs.Bool.{Decides};
ghost use Rattle.std.specs.Int.{Width, w8, w16, w32, w64, w128};
ghost use Rattle.num_traits.specs.Laws.{Saturates};
ghost use Rattle.arrow_integers.specs.NativeArithmetics.{fits_integer, nearest_integer, wrap_integer};
ghost use Rattle.arrow_integers.specs.NativeNumbers.{signed_decides, signed_in_128_bits, signed_nearest_is};
ghost use Rattle.arrow_integers.specs.NativeNumbers.{signed_wrap_is, unsigned_fits_is, unsigned_in_128_bits};
ghost use Rattle.arrow_integers.specs.NativeNumbers.{unsigned_nearest_is, unsigned_value, unsigned_wrap_is};

use arrow_types::native_type::NativeType;
use num_traits::{
    CheckedAdd, CheckedDiv, CheckedMul, CheckedRem, CheckedSub, FromPrimitive, SaturatingAdd,
    SaturatingMul, SaturatingSub, WrappingAdd, WrappingMul, WrappingSub,
};

/// A native type of integers, whose operations are those of `num_traits`. It is public for the bound that names it, and
/// no other crate can reach it.
pub trait NativeInteger: NativeType
    + Ord
    + WrappingAdd
    + WrappingSub
    + WrappingMul
    + CheckedAdd
    + CheckedSub
    + CheckedMul
    + CheckedDiv
    + CheckedRem
    + SaturatingAdd
    + SaturatingSub
    + SaturatingMul
    + FromPrimitive {
    /// Whether the type has numbers below zero.
    ghost signed: { Bool };

    /// The width of the type.
    ghost width: { Width };

    /// The value that has a number of the type.
    ghost of_number: { ℤ → Self };

    /// Returns the number of the value.
    fn as_i128(self) -> i128
        ensures value { result ≡ Self.value self }
        ensures fits { fits_integer signed width (Self.value self) ≡ true };

    /// The type has the numbers of a type of its width and sign.
    ghost fits_integer_law: { (z : ℤ) → Decides (fits_integer signed width z) (Self.fits z) };

    /// A number wraps as in a type of its width and sign.
    ghost wrap_integer_law: { (z : ℤ) → Self.wrap z ≡ wrap_integer signed width z };

    /// A result that stops at the ends of the type is the nearest number.
    ghost nearest_integer_law: { (z v : ℤ) → Saturates (λ y. y) Self.fits Self.low Self.high z v
        → v ≡ nearest_integer signed width z };

    /// The value of a number of the type has that number.
    ghost value_of_number_law: { (z : ℤ) → fits_integer signed width z ≡ true → Self.value (of_number z) ≡ z };

    /// A value is that of its number.
    ghost number_of_value_law: { (x : Self) → of_number (Self.value x) ≡ x };

    /// The zero of the type is the number zero.
    ghost zero_value_law: { Self.value Self.zero ≡ pos 0 };

    /// Every number of the type fits in 128 bits.
    ghost fits_128_bits_law: { (z : ℤ) → fits_integer signed width z ≡ true → FitsSigned w128 z };
}

impl NativeInteger for i8 {
    ghost signed = { true };

    ghost width = { w8 };

    ghost of_number = { λ z. z };

    ghost fits_integer_law = { signed_decides w8 };

    ghost wrap_integer_law = { signed_wrap_is w8 };

    ghost nearest_integer_law = { signed_nearest_is w8 };

    ghost value_of_number_law = { λ z e. refl };

    ghost number_of_value_law = { λ x. refl };

    ghost zero_value_law = { refl };

    ghost fits_128_bits_law = { signed_in_128_bits w8 };

    #[inline(always)]
    fn as_i128(self) -> i128 {
        i128::from(self)
    }
}

impl NativeInteger for i16 {
    ghost signed = { true };

    ghost width = { w16 };

    ghost of_number = { λ z. z };

    ghost fits_integer_law = { signed_decides w16 };

    ghost wrap_integer_law = { signed_wrap_is w16 };

    ghost nearest_integer_law = { signed_nearest_is w16 };

    ghost value_of_number_law = { λ z e. refl };

    ghost number_of_value_law = { λ x. refl };

    ghost zero_value_law = { refl };

    ghost fits_128_bits_law = { signed_in_128_bits w16 };

    #[inline(always)]
    fn as_i128(self) -> i128 {
        i128::from(self)
    }
}

impl NativeInteger for i32 {
    ghost signed = { true };

    ghost width = { w32 };

    ghost of_number = { λ z. z };

    ghost fits_integer_law = { signed_decides w32 };

    ghost wrap_integer_law = { signed_wrap_is w32 };

    ghost nearest_integer_law = { signed_nearest_is w32 };

    ghost value_of_number_law = { λ z e. refl };

    ghost number_of_value_law = { λ x. refl };

    ghost zero_value_law = { refl };

    ghost fits_128_bits_law = { signed_in_128_bits w32 };

    #[inline(always)]
    fn as_i128(self) -> i128 {
        i128::from(self)
    }
}

impl NativeInteger for i64 {
    ghost signed = { true };

    ghost width = { w64 };

    ghost of_number = { λ z. z };

    ghost fits_integer_law = { signed_decides w64 };

    ghost wrap_integer_law = { signed_wrap_is w64 };

    ghost nearest_integer_law = { signed_nearest_is w64 };

    ghost value_of_number_law = { λ z e. refl };

    ghost number_of_value_law = { λ x. refl };

    ghost zero_value_law = { refl };

    ghost fits_128_bits_law = { signed_in_128_bits w64 };

    #[inline(always)]
    fn as_i128(self) -> i128 {
        i128::from(self)
    }
}

impl NativeInteger for i128 {
    ghost signed = { true };

    ghost width = { w128 };

    ghost of_number = { λ z. z };

    ghost fits_integer_law = { signed_decides w128 };

    ghost wrap_integer_law = { signed_wrap_is w128 };

    ghost nearest_integer_law = { signed_nearest_is w128 };

    ghost value_of_number_law = { λ z e. refl };

    ghost number_of_value_law = { λ x. refl };

    ghost zero_value_law = { refl };

    ghost fits_128_bits_law = { signed_in_128_bits w128 };

    #[inline(always)]
    fn as_i128(self) -> i128 {
        self
    }
}

impl NativeInteger for u8 {
    ghost signed = { false };

    ghost width = { w8 };

    ghost of_number = { unsigned_abs };

    ghost fits_integer_law = { unsigned_fits_is w8 };

    ghost wrap_integer_law = { unsigned_wrap_is w8 };

    ghost nearest_integer_law = { unsigned_nearest_is w8 };

    ghost value_of_number_law = { unsigned_value w8 };

    ghost number_of_value_law = { λ x. refl };

    ghost zero_value_law = { refl };

    ghost fits_128_bits_law = { unsigned_in_128_bits w8 refl };

    #[inline(always)]
    fn as_i128(self) -> i128 {
        i128::from(self)
    }
}

impl NativeInteger for u16 {
    ghost signed = { false };

    ghost width = { w16 };

    ghost of_number = { unsigned_abs };

    ghost fits_integer_law = { unsigned_fits_is w16 };

    ghost wrap_integer_law = { unsigned_wrap_is w16 };

    ghost nearest_integer_law = { unsigned_nearest_is w16 };

    ghost value_of_number_law = { unsigned_value w16 };

    ghost number_of_value_law = { λ x. refl };

    ghost zero_value_law = { refl };

    ghost fits_128_bits_law = { unsigned_in_128_bits w16 refl };

    #[inline(always)]
    fn as_i128(self) -> i128 {
        i128::from(self)
    }
}

impl NativeInteger for u32 {
    ghost signed = { false };

    ghost width = { w32 };

    ghost of_number = { unsigned_abs };

    ghost fits_integer_law = { unsigned_fits_is w32 };

    ghost wrap_integer_law = { unsigned_wrap_is w32 };

    ghost nearest_integer_law = { unsigned_nearest_is w32 };

    ghost value_of_number_law = { unsigned_value w32 };

    ghost number_of_value_law = { λ x. refl };

    ghost zero_value_law = { refl };

    ghost fits_128_bits_law = { unsigned_in_128_bits w32 refl };

    #[inline(always)]
    fn as_i128(self) -> i128 {
        i128::from(self)
    }
}

impl NativeInteger for u64 {
    ghost signed = { false };

    ghost width = { w64 };

    ghost of_number = { unsigned_abs };

    ghost fits_integer_law = { unsigned_fits_is w64 };

    ghost wrap_integer_law = { unsigned_wrap_is w64 };

    ghost nearest_integer_law = { unsigned_nearest_is w64 };

    ghost value_of_number_law = { unsigned_value w64 };

    ghost number_of_value_law = { λ x. refl };

    ghost zero_value_law = { refl };

    ghost fits_128_bits_law = { unsigned_in_128_bits w64 refl };

    #[inline(always)]
    fn as_i128(self) -> i128 {
        i128::from(self)
    }
}
