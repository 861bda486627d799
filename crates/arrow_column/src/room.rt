//! Room of columns, of which contracts say only that slots stay; and clones.
ghost use Rattle.std.specs.Prelude.{◌≡◌, IfOk, IfErr, IsOk};
ghost use Rattle.arrow_types.specs.Failures.{OnlyOutOfMemory};

use crate::mask::{clone_mask, reserve_marks, shrink_marks};
use crate::values::{MutableValues, Values};
use crate::{FrozenColumn, GrowingColumn};
use arrow_types::error::Error;

/// Stored values of several bytes each, which reserve room for values and for bytes.
pub trait ReserveItems: MutableValues {
    /// Reserves room for at least `additional` more values and `bytes` more bytes of theirs.
    ///
    /// # Errors
    /// `OutOfMemory` if an allocation fails.
    fn make_room_of(&mut self, additional: usize, bytes: usize) -> Result<(), Error>
        ensures stored { Self.stored self.new ≡ Self.stored self.old }
        ensures around { Self.around self.new ≡ Self.around self.old }
        ensures err { OnlyOutOfMemory result };
}

#[tactic(auto, using(crate::proofs::RowLemmas::row_steps))]
impl<V: MutableValues> GrowingColumn<V> {
    /// Reserves room for at least `additional` more slots, in a held mask too, and for `bytes` more
    /// bytes of their values.
    ///
    /// # Errors
    /// `OutOfMemory` if an allocation fails.
    pub fn reserve_items(&mut self, additional: usize, bytes: usize) -> Result<(), Error>
    where
        V: ReserveItems,
        ensures kept { self.new ≡ self.old }
        ensures err { OnlyOutOfMemory result }
    {
        self.values.make_room_of(additional, bytes)?;
        reserve_marks(&mut self.validity, additional)
    }

    /// Reserves room for at least `additional` more slots, in a held mask too.
    ///
    /// # Errors
    /// `OutOfMemory` if an allocation fails.
    // Out of line, so that the compiler follows the column through the loop that comes behind.
    #[inline(never)]
    pub fn reserve(&mut self, additional: usize) -> Result<(), Error>
        ensures kept { self.new ≡ self.old }
        ensures err { OnlyOutOfMemory result }
    {
        self.values.make_room(additional)?;
        reserve_marks(&mut self.validity, additional)
    }

    /// Gives unused room back to the allocator, if it takes it.
    ///
    /// # Errors
    /// Never: if the allocator refuses a smaller allocation, the room stays.
    pub fn shrink_to_fit(&mut self) -> Result<(), Error>
        ensures kept { self.new ≡ self.old }
        ensures ok { IsOk result }
    {
        self.values.drop_room()?;
        shrink_marks(&mut self.validity)
    }

    /// Returns a copy.
    ///
    /// # Errors
    /// `OutOfMemory` if an allocation fails.
    pub fn clone(&self) -> Result<Self, Error>
        ensures ok { IfOk result (λ copy. copy ≡ self.now) }
        ensures err { OnlyOutOfMemory result }
    {
        let validity = clone_mask(&self.validity)?;
        let values = self.values.try_clone()?;
        let data_type = self.data_type.clone()?;
        Ok(GrowingColumn::new(data_type, values, validity))
    }
}

#[tactic(auto, using(crate::proofs::RowLemmas::row_steps))]
impl<V: Values> FrozenColumn<V> {
    /// Returns a clone that shares values and marks.
    ///
    /// # Errors
    /// `OutOfMemory` if an allocation fails.
    pub fn clone(&self) -> Result<Self, Error>
        ensures ok { IfOk result (λ copy. copy ≡ self.now) }
        ensures err { OnlyOutOfMemory result }
    {
        let validity = clone_mask(&self.validity)?;
        let values = self.values.try_clone()?;
        let data_type = self.data_type.clone()?;
        Ok(FrozenColumn::new(data_type, values, validity))
    }
}
