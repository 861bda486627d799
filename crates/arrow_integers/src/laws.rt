//! Laws of the numbers of integer types, for all numbers. Each is the contract of a function with an empty body.
ghost use Rattle.std.specs.Prelude.{◌≡◌, ◌≤ℤ◌, ◌^◌, ℤ, true};
ghost use Rattle.arrow_integers.specs.NativeArithmetics.{DiffersByMultiple};

use crate::native_arithmetics::NativeArithmetics;

/// A number wraps to one of the type, from which it differs by a multiple of two to the number of bits; one that fits
/// does not change.
pub fn wrapped_numbers<T: NativeArithmetics>()
    ensures fits { (z : ℤ) → T.fits (T.number (T.wrap z)) ≡ true }
    ensures same { (z : ℤ) → T.fits z ≡ true → T.number (T.wrap z) ≡ z }
    ensures differs { (z : ℤ) → DiffersByMultiple (2 ^ T.bits) z (T.number (T.wrap z)) }
{}

/// The nearest number is one of the type: the number itself if it fits, otherwise the least of the type if the number
/// is below all, and the greatest if it is above all.
pub fn nearest_numbers<T: NativeArithmetics>()
    ensures fits { (z : ℤ) → T.fits (T.number (T.nearest z)) ≡ true }
    ensures same { (z : ℤ) → T.fits z ≡ true → T.number (T.nearest z) ≡ z }
    ensures least { (z y : ℤ) → T.fits y ≡ true → z ≤ℤ y → T.number (T.nearest z) ≤ℤ y }
    ensures greatest { (z y : ℤ) → T.fits y ≡ true → y ≤ℤ z → y ≤ℤ T.number (T.nearest z) }
{}
