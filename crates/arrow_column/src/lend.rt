//! Columns whose stored values can be borrowed mutably. It is a trait, since only a trait's clause can say what is
//! written through a borrowed slice.
ghost use Rattle.std.specs.Prelude.{◌≡◌, List};
ghost use Rattle.std.specs.Borrow.{Array, Lends, sem};

use crate::GrowingColumn;
use arrow_types::native_type::NativeType;

/// A type whose stored values can be borrowed for writing. It is a trait because only a trait's
/// clause can speak of what is written to a struct with type parameters.
pub trait LendValues<T> {
    /// The values that are borrowed.
    ghost lent: { Self → List T };

    /// The value after the borrowed values were written.
    ghost written: { Self → List T → Self };

    /// Borrows the stored values for writing.
    fn values_mut_slice(&mut self) -> &mut [T]
        ensures* writes_back { sem 𝓛 (Lends Self.row (Array T.row 0) self.entry result (written self.old)) }
        ensures value { result.now ≡ lent self.old };
}

#[tactic(auto, using(crate::proofs::RowLemmas::row_steps))]
impl<T: NativeType> LendValues<T> for GrowingColumn<Vec<T>> {
    ghost use Rattle.arrow_column.specs.Column.{stored_values, with_written};

    ghost lent = { stored_values };

    ghost written = { with_written };

    #[inline(always)]
    fn values_mut_slice(&mut self) -> &mut [T] {
        self.values.as_mut_slice()
    }
}
