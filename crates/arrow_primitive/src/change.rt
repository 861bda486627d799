//! Replacement of values and masks, and thawing of arrays, which copies nothing or leaves the array as it is.
ghost use Rattle.std.specs.Prelude.{◌≡◌, List, Bool, length, IfSome, IsTrue};
ghost use Rattle.std.specs.Bool.{OnFalse};
ghost use Rattle.std.specs.Borrow.{MutBor};
ghost use Rattle.std.specs.Fn.{FnOnceReturnsAtMut};
ghost use Rattle.either.specs.Either.{MatchEither};
ghost use Rattle.arrow_column.specs.Column.{mask_of, stored_values, with_mask, with_stored};
ghost use Rattle.arrow_column.specs.Changes.{ChangesMask, WritesStored, KeepsCount, ReplacesVec};

use crate::{MutablePrimitiveArray, PrimitiveArray};
use arrow_column::LendValues;
use arrow_memory::bitmap::{Bitmap, MutableBitmap};
use arrow_memory::buffer::Buffer;
use arrow_types::native_type::NativeType;
use either::{Either, Left, Right};

impl<T: NativeType> PrimitiveArray<T> {
    /// Replaces the mask, which must have a mark for each slot; without one every slot is valid.
    pub fn set_validity(&mut self, validity: Option<Bitmap>)
        requires { IfSome validity (λ marks. length marks ≡ length self.old.rows) }
        ensures { self.new ≡ with_mask self.old validity }
    {
        self.column.set_validity(validity);
    }

    /// Returns the same stored values under another mask, which must have a mark for each slot;
    /// without one every slot is valid.
    pub fn with_validity(mut self, validity: Option<Bitmap>) -> Self
        requires { IfSome validity (λ marks. length marks ≡ length self.rows) }
        ensures { result ≡ with_mask self validity }
    {
        self.set_validity(validity);
        self
    }

    /// Replaces a held mask by what the closure returns for it, which must have equally many marks.
    /// Does nothing if no mask is held.
    pub fn apply_validity<F: FnOnce(Bitmap) -> Bitmap + Drop>(&mut self, change: F)
        requires callable { IfSome (mask_of self.old) (λ marks. F.pre change marks) }
        requires keeps { IfSome (mask_of self.old) (λ marks. (changed : List Bool) → F.post change marks changed
            → length changed ≡ length marks) }
        ensures { ChangesMask (F.post change) self.old self.new }
    {
        self.column.apply_validity(change);
    }

    /// Replaces the stored values by equally many others. The marks stay.
    pub fn set_values(&mut self, values: Buffer<T>)
        requires { length values ≡ length self.old.rows }
        ensures { self.new ≡ with_stored self.old values }
    {
        self.column.set_values(values);
    }

    /// Returns equally many other stored values under the same marks.
    pub fn with_values(mut self, values: Buffer<T>) -> Self
        requires { length values ≡ length self.rows }
        ensures { result ≡ with_stored self values }
    {
        self.set_values(values);
        self
    }

    /// Calls `change` on the stored values if they are not shared, and returns whether it did. The
    /// marks stay.
    pub fn get_mut_values<F: FnOnce(&mut [T]) + Drop>(&mut self, change: F) -> bool
        requires { (values : MutBor (List T)) → values.now ≡ stored_values self.old → F.pre change values }
        ensures changed { IsTrue result → WritesStored (FnOnceReturnsAtMut F.FnOnce change) self.old self.new }
        ensures unchanged { OnFalse result (self.new ≡ self.old) }
    {
        self.column.get_mut_values(change)
    }

    /// Converts the array into a builder without copying it, if neither values nor mask are shared,
    /// the values show all of their vector, and the mask begins at its first bit. Otherwise returns
    /// the array unchanged.
    pub fn into_mut(self) -> Either<Self, MutablePrimitiveArray<T>>
        ensures { MatchEither result (λ array. array ≡ self) (λ builder. builder ≡ self) }
    {
        match self.column.into_mut() {
            Left(column) => Left(PrimitiveArray { column }),
            Right(column) => Right(MutablePrimitiveArray { column }),
        }
    }
}

impl<T: NativeType> MutablePrimitiveArray<T> {
    /// Replaces the mask, which must have a mark for each slot; without one every slot is valid.
    pub fn set_validity(&mut self, validity: Option<MutableBitmap>)
        requires { IfSome validity (λ marks. length marks ≡ length self.old.rows) }
        ensures { self.new ≡ with_mask self.old validity }
    {
        self.column.set_validity(validity);
    }

    /// Replaces the stored values by equally many others. The marks stay.
    pub fn set_values(&mut self, values: Vec<T>)
        requires { length values.items ≡ length self.old.rows }
        ensures { self.new ≡ with_stored self.old values.items }
    {
        self.column.set_values(values);
    }

    /// Replaces the stored values by what the closure returns for them, which must be equally many.
    /// The marks stay.
    pub fn apply_values<F: Fn(Vec<T>) -> Vec<T>>(&mut self, change: F)
        requires callable { (values : _) → values.items ≡ stored_values self.old → F.pre change values }
        requires keeps { KeepsCount (F.post change) self.old }
        ensures { ReplacesVec (F.post change) self.old self.new }
    {
        self.column.apply_values(change);
    }
}

/// After its values were written, a builder has these values under the same marks.
impl<T: NativeType> LendValues<T> for MutablePrimitiveArray<T> {
    ghost use Rattle.arrow_column.specs.Column.{stored_values, with_written};

    ghost lent = { stored_values };

    ghost written = { with_written };

    /// Borrows the stored values for writing. The marks stay.
    #[inline(always)]
    fn values_mut_slice(&mut self) -> &mut [T] {
        self.column.values_mut_slice()
    }
}
