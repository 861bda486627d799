//! Freezing columns with the mask that they hold, even if no slot is null.
ghost use Rattle.std.specs.Prelude.{◌≡◌, is_some, IfOk, IfErr};
ghost use Rattle.arrow_types.specs.Failures.{OnlyOutOfMemory};
ghost use Rattle.arrow_types.specs.Types.{logical_type};
ghost use Rattle.arrow_memory.specs.Rows.{FitsMask, rows_of};

use crate::GrowingColumn;
use crate::values::MutableValues;
use arrow_memory::bitmap::{Bitmap, MutableBitmap};
use arrow_types::data_type::DataType;
use arrow_types::error::Error;

/// Converts a mask into an immutable one, if there is one.
#[inline(always)]
fn freeze_whole(validity: Option<MutableBitmap>) -> Result<Option<Bitmap>, Error>
    ensures ok { IfOk result (λ mask. mask ≡ validity) }
    ensures err { OnlyOutOfMemory result }
{
    match validity {
        None => Ok(None),
        Some(marks) => Ok(Some(marks.freeze()?)),
    }
}

#[tactic(auto, using(crate::proofs::RowLemmas::row_steps))]
impl<V: MutableValues> GrowingColumn<V> {
    /// Returns the data type, the stored values, and the mask of an array of the same slots. The
    /// mask is held exactly if the column holds one.
    ///
    /// # Errors
    /// `OutOfMemory` if an allocation for the mask fails; the column is then dropped.
    #[inline(always)]
    pub fn freeze_whole_mask(self) -> Result<(DataType, V, Option<Bitmap>), Error>
        ensures data_type { IfOk result (λ parts. logical_type parts.0 ≡ self.data_type) }
        ensures around { IfOk result (λ parts. V.around parts.1 ≡ self.around) }
        ensures fits { IfOk result (λ parts. FitsMask (V.stored parts.1) parts.2) }
        ensures rows { IfOk result (λ parts. rows_of (V.stored parts.1) parts.2 ≡ self.rows) }
        ensures held { IfOk result (λ parts. is_some parts.2 ≡ self.held) }
        ensures err { OnlyOutOfMemory result }
    {
        let GrowingColumn {
            data_type,
            values,
            validity,
        } = self;
        Ok((data_type, values, freeze_whole(validity)?))
    }
}
