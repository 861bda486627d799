//! Replacement of values and masks, and thawing of arrays, which copies nothing or leaves the array as it is.
ghost use Rattle.std.specs.Prelude.{◌≡◌, List, Bool, length, IfSome, OnOk, IfOk};
ghost use Rattle.either.specs.Either.{MatchEither};
ghost use Rattle.arrow_types.specs.Failures.{OnlyOutOfMemory, OutOfMemoryKeeps};
ghost use Rattle.arrow_column.specs.Column.{mask_of, stored_values, with_mask, with_stored};
ghost use Rattle.arrow_column.specs.Changes.{ChangesMask, ReplacesStored};

use crate::{BooleanArray, MutableBooleanArray};
use arrow_memory::bitmap::{Bitmap, MutableBitmap};
use arrow_types::error::Error;
use either::{Either, Left, Right};

impl BooleanArray {
    /// Replaces the mask, which must have a mark for each slot; without one every slot is valid.
    pub fn set_validity(&mut self, validity: Option<Bitmap>)
        requires { IfSome validity (λ marks. length marks ≡ length self.old.rows) }
        ensures { self.new ≡ with_mask self.old validity }
    {
        self.column.set_validity(validity);
    }

    /// Returns the same stored values under another mask, which must have a mark for each slot;
    /// without one every slot is valid.
    pub fn with_validity(mut self, validity: Option<Bitmap>) -> Self
        requires { IfSome validity (λ marks. length marks ≡ length self.rows) }
        ensures { result ≡ with_mask self validity }
    {
        self.set_validity(validity);
        self
    }

    /// Replaces a held mask by what the closure returns for it, which must have equally many marks.
    /// Does nothing if no mask is held.
    pub fn apply_validity<F: FnOnce(Bitmap) -> Bitmap + Drop>(&mut self, change: F)
        requires callable { IfSome (mask_of self.old) (λ marks. F.pre change marks) }
        requires keeps { IfSome (mask_of self.old) (λ marks. (changed : List Bool) → F.post change marks changed
            → length changed ≡ length marks) }
        ensures { ChangesMask (F.post change) self.old self.new }
    {
        self.column.apply_validity(change);
    }

    /// Replaces the stored values by equally many others. The marks stay.
    pub fn set_values(&mut self, values: Bitmap)
        requires { length values ≡ length self.old.rows }
        ensures { self.new ≡ with_stored self.old values }
    {
        self.column.set_values(values);
    }

    /// Returns equally many other stored values under the same marks, which are shared. The array
    /// stays.
    ///
    /// # Errors
    /// `OutOfMemory` if an allocation fails; the values are then dropped.
    pub fn with_values(&self, values: Bitmap) -> Result<Self, Error>
        requires { length values ≡ length self.now.rows }
        ensures ok { IfOk result (λ array. array ≡ with_stored self.now values) }
        ensures err { OnlyOutOfMemory result }
    {
        let mut array = self.clone()?;
        array.set_values(values);
        Ok(array)
    }

    /// Replaces the stored values by what the closure returns for them, which must be equally many.
    /// Shared values are copied first. The marks stay. All memory is allocated before the closure
    /// is called.
    ///
    /// # Errors
    /// `OutOfMemory` if an allocation fails; the closure is then not called and the array is
    /// unchanged.
    pub fn apply_values_mut<F: Fn(MutableBitmap) -> MutableBitmap>(
        &mut self,
        change: F,
    ) -> Result<(), Error>
        requires callable { F.pre change (stored_values self.old) }
        requires keeps { (changed : List Bool) → F.post change (stored_values self.old) changed
            → length changed ≡ length self.old.rows }
        ensures ok { OnOk result (ReplacesStored (F.post change) self.old self.new) }
        ensures err { OutOfMemoryKeeps result self.old self.new }
    {
        self.column.apply_values_mut(change)
    }

    /// Converts the array into a builder without copying it, if neither values nor mask are shared
    /// and both begin at their first bit. Otherwise returns the array unchanged.
    pub fn into_mut(self) -> Either<Self, MutableBooleanArray>
        ensures { MatchEither result (λ array. array ≡ self) (λ builder. builder ≡ self) }
    {
        match self.column.into_mut() {
            Left(column) => Left(BooleanArray { column }),
            Right(column) => Right(MutableBooleanArray { column }),
        }
    }
}
