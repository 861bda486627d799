//! Replacement of masks, and thawing of arrays, which copies nothing or leaves the array as it is.
ghost use Rattle.std.specs.Prelude.{◌≡◌, List, Bool, length, IfSome};
ghost use Rattle.either.specs.Either.{MatchEither};
ghost use Rattle.arrow_column.specs.Column.{mask_of, with_mask};
ghost use Rattle.arrow_bytes.specs.Column.{column_without_tail};
ghost use Rattle.arrow_column.specs.Changes.{ChangesMask};

use crate::{ByteArray, MutableByteArray};
use arrow_bytes::{ByteKind, into_mut_values};
use arrow_column::{FrozenColumn, GrowingColumn};
use arrow_memory::bitmap::{Bitmap, MutableBitmap};
use arrow_types::offset::Offset;
use either::{Either, Left, Right};

impl<K: ByteKind, O: Offset> ByteArray<K, O> {
    /// Replaces the mask, which must have a mark for each slot; without one every slot is valid.
    pub fn set_validity(&mut self, validity: Option<Bitmap>)
        requires { IfSome validity (λ marks. length marks ≡ length self.old.rows) }
        ensures { self.new ≡ with_mask self.old validity }
    {
        self.column.set_validity(validity);
    }

    /// Returns the same items under another mask, which must have a mark for each slot; without one
    /// every slot is valid.
    pub fn with_validity(mut self, validity: Option<Bitmap>) -> Self
        requires { IfSome validity (λ marks. length marks ≡ length self.rows) }
        ensures { result ≡ with_mask self validity }
    {
        self.set_validity(validity);
        self
    }

    /// Replaces a held mask by what the closure returns for it, which must have equally many marks.
    /// Does nothing if no mask is held.
    pub fn apply_validity<F: FnOnce(Bitmap) -> Bitmap + Drop>(&mut self, change: F)
        requires callable { IfSome (mask_of self.old) (λ marks. F.pre change marks) }
        requires keeps { IfSome (mask_of self.old) (λ marks. (changed : List Bool) → F.post change marks changed
            → length changed ≡ length marks) }
        ensures { ChangesMask (F.post change) self.old self.new }
    {
        self.column.apply_validity(change);
    }

    /// Converts the array into a builder without copying it, if offsets, bytes and mask are not
    /// shared, the offsets show all of their vector, and bytes and mask begin at the first place.
    /// Bytes after the last slot are cut off. Otherwise returns the array unchanged.
    pub fn into_mut(self) -> Either<Self, MutableByteArray<K, O>>
        ensures { MatchEither result (λ array. array ≡ self) (λ builder. builder ≡ column_without_tail self) }
    {
        let (data_type, values, validity) = self.column.into_inner();
        match into_mut_values(values, validity) {
            Left((values, validity)) => Left(ByteArray {
                column: FrozenColumn::new(data_type, values, validity),
            }),
            Right((values, validity)) => Right(MutableByteArray {
                column: GrowingColumn::new(data_type, values, validity),
            }),
        }
    }
}

impl<K: ByteKind, O: Offset> MutableByteArray<K, O> {
    /// Replaces the mask, which must have a mark for each slot; without one every slot is valid.
    pub fn set_validity(&mut self, validity: Option<MutableBitmap>)
        requires { IfSome validity (λ marks. length marks ≡ length self.old.rows) }
        ensures { self.new ≡ with_mask self.old validity }
    {
        self.column.set_validity(validity);
    }

    /// Returns the same items under another mask, which must have a mark for each slot; without one
    /// every slot is valid.
    pub fn with_validity(mut self, validity: Option<MutableBitmap>) -> Self
        requires { IfSome validity (λ marks. length marks ≡ length self.rows) }
        ensures { result ≡ with_mask self validity }
    {
        self.set_validity(validity);
        self
    }

    /// Replaces a held mask by what the closure returns for it, which must have equally many marks.
    /// Does nothing if no mask is held.
    pub fn apply_validity<F: FnOnce(MutableBitmap) -> MutableBitmap + Drop>(&mut self, change: F)
        requires callable { IfSome (mask_of self.old) (λ marks. F.pre change marks) }
        requires keeps { IfSome (mask_of self.old) (λ marks. (changed : List Bool) → F.post change marks changed
            → length changed ≡ length marks) }
        ensures { ChangesMask (F.post change) self.old self.new }
    {
        self.column.apply_validity(change);
    }
}
