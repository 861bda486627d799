//! Arrays whose values have an order, and the values with which they can be compared.
ghost use Rattle.std.specs.Prelude.{◌≡◌, IfOk, length};
ghost use Rattle.arrow_types.specs.Failures.{OnlyOutOfMemory};
ghost use Rattle.arrow_column.specs.Column.{stored_values};
ghost use Rattle.compute_comparison.specs.Comparison.{compare_scalar, compare_stored};

use super::equal::{EqualArray, EqualScalar};
use super::operators::Comparison;
use arrow_memory::bitmap::Bitmap;
use arrow_types::error::Error;
use std::alloc::Global;

/// An array whose values have an order: numbers; booleans, of which false is less than true; bytes
/// and text, by their bytes.
pub trait OrderedArray: EqualArray {
    ghost use Rattle.std.specs.Ordering.{is_eq};
    ghost use Rattle.std.specs.declared.cmp.Ordering.{Ordering};

    /// The order of the values.
    ghost order: { Self.Stored → Self.Stored → Ordering };

    /// Returns whether a comparison holds of the stored values at each index of two arrays of equal
    /// length.
    ///
    /// # Errors
    /// `OutOfMemory` if an allocation fails.
    fn compare_stored<C: Comparison>(alloc: Global, lhs: &Self, rhs: &Self) -> Result<Bitmap, Error>
        requires { length (Self.column lhs.now).rows ≡ length (Self.column rhs.now).rows }
        ensures ok { IfOk result (λ truths. truths
            ≡ compare_stored C.test order (Self.column lhs.now) (Self.column rhs.now)) }
        ensures err { OnlyOutOfMemory result };

    /// States that two values are equal exactly if they are equal in the order.
    ghost equal_by_order: { (x y : Self.Stored) → Self.equal x y ≡ is_eq (order x y) };
}

/// A value with which the values of an array can be compared.
pub trait Scalar<A: OrderedArray>: EqualScalar<A> {
    /// Returns whether a comparison holds of each stored value of an array and this value.
    ///
    /// # Errors
    /// `OutOfMemory` if an allocation fails.
    fn compare_stored<C: Comparison>(alloc: Global, lhs: &A, rhs: Self) -> Result<Bitmap, Error>
        ensures ok { IfOk result (λ truths. truths
            ≡ compare_scalar C.test A.order (stored_values (A.column lhs.now)) (Self.value rhs)) }
        ensures err { OnlyOutOfMemory result };
}
