//! Thawing: columns of arrays as columns of builders, if no buffer is shared.
ghost use Rattle.std.specs.Prelude.{◌≡◌};
ghost use Rattle.either.specs.Either.{MatchEither};

use crate::{FrozenColumn, GrowingColumn};
use arrow_memory::bitmap::{Bitmap, MutableBitmap};
use arrow_memory::buffer::Buffer;
use arrow_memory::thaw::{into_mut_bits, into_mut_values};
use arrow_types::native_type::NativeType;
use either::{Either, Left, Right};

#[tactic(auto, using(crate::proofs::RowLemmas::row_steps))]
impl<T: NativeType> FrozenColumn<Buffer<T>> {
    /// Converts the column into a growing one without copying it, if neither its values nor its
    /// mask are shared and both begin at the first place. Otherwise returns the column unchanged.
    pub fn into_mut(self) -> Either<Self, GrowingColumn<Vec<T>>>
        ensures { MatchEither result (λ column. column ≡ self) (λ column. column ≡ self) }
    {
        match into_mut_values(self.values, self.validity) {
            Left((values, validity)) => Left(FrozenColumn {
                data_type: self.data_type,
                values,
                validity,
            }),
            Right((values, validity)) => Right(GrowingColumn {
                data_type: self.data_type,
                values,
                validity,
            }),
        }
    }
}

#[tactic(auto, using(crate::proofs::RowLemmas::row_steps))]
impl FrozenColumn<Bitmap> {
    /// Converts the column into a growing one without copying it, if neither its values nor its
    /// mask are shared and both begin at the first place. Otherwise returns the column unchanged.
    pub fn into_mut(self) -> Either<Self, GrowingColumn<MutableBitmap>>
        ensures { MatchEither result (λ column. column ≡ self) (λ column. column ≡ self) }
    {
        match into_mut_bits(self.values, self.validity) {
            Left((values, validity)) => Left(FrozenColumn {
                data_type: self.data_type,
                values,
                validity,
            }),
            Right((values, validity)) => Right(GrowingColumn {
                data_type: self.data_type,
                values,
                validity,
            }),
        }
    }
}
