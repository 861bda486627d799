//! Growth of columns by many slots at once: all of them are appended, or none.
ghost use Rattle.arrow_column.specs.Column.{append_nulls, append_values, cut_with, FitsCut, column_overflows};
ghost use Rattle.arrow_column.specs.Growth.{Grows, GrowthKeeps, JoinGrows, JoinKeeps};

use crate::mask::{NewSlots, join_marks};
use crate::values::{Grow, GrowFrom, MutableValues, Values};
use crate::{FrozenColumn, GrowingColumn};
use arrow_types::error::Error;

#[tactic(auto, using(crate::proofs::RowLemmas::row_steps))]
impl<V: MutableValues> GrowingColumn<V> {
    /// Appends valid slots with these values.
    ///
    /// # Errors
    /// - `Overflow` if the values would overflow their type; this is checked first.
    /// - `OutOfMemory` if an allocation fails.
    ///
    /// The column is unchanged on an error.
    #[inline(always)]
    pub fn grow_valid<X>(&mut self, values: X) -> Result<(), Error>
    where
        V: Grow<X>,
        ensures ok { Grows result (column_overflows V.overgrows self.old values) self.new
            (append_values self.old (V.given values)) }
        ensures err { GrowthKeeps result (column_overflows V.overgrows self.old values) self.old self.new }
    {
        let before = self.values.count();
        let alloc = self.values.allocated_by();
        let count = self.values.grow(values)?;
        match join_marks(alloc, &mut self.validity, before, NewSlots::Valid(count)) {
            Ok(()) => Ok(()),
            Err(refused) => {
                self.values.keep_first(before);
                Err(refused)
            }
        }
    }

    /// Appends null slots that store these values. The column holds a mask from then on.
    ///
    /// # Errors
    /// As `grow_valid`.
    pub fn grow_null<X>(&mut self, values: X) -> Result<(), Error>
    where
        V: Grow<X>,
        ensures ok { Grows result (column_overflows V.overgrows self.old values) self.new
            (append_nulls self.old (V.given values)) }
        ensures err { GrowthKeeps result (column_overflows V.overgrows self.old values) self.old self.new }
    {
        let before = self.values.count();
        let alloc = self.values.allocated_by();
        let count = self.values.grow(values)?;
        match join_marks(alloc, &mut self.validity, before, NewSlots::Null(count)) {
            Ok(()) => Ok(()),
            Err(refused) => {
                self.values.keep_first(before);
                Err(refused)
            }
        }
    }

    /// Appends the rows of another column. The data type stays; a mask is held if either column
    /// held one.
    ///
    /// # Errors
    /// - `Overflow` if the values would overflow their type; this is checked first.
    /// - `OutOfMemory` if an allocation fails.
    ///
    /// The column is unchanged on an error.
    pub fn try_extend_from_self(&mut self, other: &Self) -> Result<(), Error>
        ensures ok { JoinGrows result V.join_overflows self.old other.now self.new }
        ensures err { JoinKeeps result V.join_overflows self.old other.now self.new }
    {
        let before = self.values.count();
        let alloc = self.values.allocated_by();
        self.values.append(&other.values)?;
        let new = NewSlots::OfBuilder(&other.validity, other.values.count());
        match join_marks(alloc, &mut self.validity, before, new) {
            Ok(()) => Ok(()),
            Err(refused) => {
                self.values.keep_first(before);
                Err(refused)
            }
        }
    }

    /// Appends the rows of the `len` slots of an array's column from `offset` on. The data type
    /// stays; a mask is held if either column held one.
    ///
    /// # Errors
    /// As `try_extend_from_self`.
    pub fn extend_from_frozen<F: Values<Stored = V::Stored>>(
        &mut self,
        other: &FrozenColumn<F>,
        offset: usize,
        len: usize,
    ) -> Result<(), Error>
    where
        V: GrowFrom<F>,
        requires { FitsCut other.now offset len }
        ensures ok { JoinGrows result V.join_overflows self.old (cut_with F.cut_around other.now offset len) self.new }
        ensures err { JoinKeeps result V.join_overflows self.old (cut_with F.cut_around other.now offset len) self.new }
    {
        let before = self.values.count();
        let alloc = self.values.allocated_by();
        self.values.grow_from(&other.values, offset, len)?;
        let new = NewSlots::OfArray(&other.validity, offset, len);
        match join_marks(alloc, &mut self.validity, before, new) {
            Ok(()) => Ok(()),
            Err(refused) => {
                self.values.keep_first(before);
                Err(refused)
            }
        }
    }
}
