//! Immutable columns, of which arrays are made. Each call is a definition on columns, which the arrays state again.
ghost use Rattle.std.specs.Prelude.{IsTrue, None, ◌≡◌, ◌==◌, ◌<◌, length, not, count_by, slice_get, Some};
ghost use Rattle.std.specs.Prelude.{IfSome, map, take, drop};
ghost use Rattle.std.specs.Option.{option_copied};
ghost use Rattle.arrow_types.specs.Types.{logical_type};
ghost use Rattle.arrow_memory.specs.Rows.{FitsMask, rows_of, slot};
ghost use Rattle.arrow_column.specs.Column.{slots_of, ColumnWith, FitsCut, IsColumn, column_with, cut_with};
ghost use Rattle.arrow_column.specs.Column.{marks_of, mask_of, stored_values, with_mask, with_type};
ghost use Rattle.arrow_column.specs.Slots.{ShowsStored};

use crate::mask::{is_valid_at, null_count, slice_mask};
use crate::values::Values;
use arrow_memory::bitmap::{Bitmap, BitmapIter};
use arrow_types::data_type::DataType;
use std::marker::Model;

/// A data type, stored values, and an optional mask with a mark for each of them. Without a mask
/// every slot is valid.
#[derive(Drop)]
pub struct FrozenColumn<V: Values> {
    pub(super) data_type: DataType,
    pub(super) values: V,
    pub(super) validity: Option<Bitmap>,
}

// Contracts see the column: the type, a row for each slot, and whether a mask is held.
impl<V: Values> Model for FrozenColumn<V> {
    ghost use Rattle.arrow_types.specs.Types.{logical_type};
    ghost use Rattle.arrow_memory.specs.Rows.{FitsMask};
    ghost use Rattle.arrow_column.specs.Column.{slots_of, ColumnWith, column_with};

    ghost Value = { ColumnWith V.Around V.Stored };

    ghost view = { λ column. column_with (logical_type column.data_type) (V.around column.values)
        (V.stored column.values) column.validity };

    ghost invariant = { λ column. FitsMask (V.stored column.values) column.validity };
}

#[tactic(auto, using(crate::proofs::RowLemmas::row_steps))]
impl<V: Values> FrozenColumn<V> {
    /// Creates a column from its parts. A mask must have a mark for each value.
    #[inline(always)]
    pub fn new(data_type: DataType, values: V, validity: Option<Bitmap>) -> Self
        requires { FitsMask (V.stored values) validity }
        ensures { result ≡ column_with (logical_type data_type) (V.around values) (V.stored values) validity }
    {
        FrozenColumn {
            data_type,
            values,
            validity,
        }
    }

    /// Returns the data type, the stored values and the mask.
    #[inline(always)]
    pub fn into_inner(self) -> (DataType, V, Option<Bitmap>)
        ensures data_type { logical_type result.0 ≡ self.data_type }
        ensures around { V.around result.1 ≡ self.around }
        ensures values { V.stored result.1 ≡ stored_values self }
        ensures mask { result.2 ≡ mask_of self }
        ensures rows { rows_of (V.stored result.1) result.2 ≡ self.rows }
        ensures fits { FitsMask (V.stored result.1) result.2 }
        ensures is_column { IsColumn self }
        ensures again { column_with (logical_type result.0) (V.around result.1) (V.stored result.1) result.2 ≡ self }
    {
        (self.data_type, self.values, self.validity)
    }

    /// Returns the same slots under another data type.
    #[inline(always)]
    pub fn to(mut self, data_type: DataType) -> Self
        ensures { result ≡ with_type self (logical_type data_type) }
    {
        self.data_type = data_type;
        self
    }

    /// Returns the data type.
    #[inline(always)]
    pub fn data_type(&self) -> &DataType
        ensures { logical_type result.now ≡ self.now.data_type }
    {
        &self.data_type
    }

    /// Returns the number of slots.
    #[inline(always)]
    pub fn len(&self) -> usize
        ensures { result ≡ length self.now.rows }
    {
        self.values.count()
    }

    /// Returns whether there is no slot.
    #[inline(always)]
    pub fn is_empty(&self) -> bool
        ensures { result ≡ (length self.now.rows == 0) }
    {
        self.len() == 0
    }

    /// Returns the stored values, those of null slots included.
    #[inline(always)]
    pub fn values(&self) -> &V
        ensures around { V.around result.now ≡ self.now.around }
        ensures values { V.stored result.now ≡ stored_values self.now }
        ensures length { length (V.stored result.now) ≡ length self.now.rows }
    {
        &self.values
    }

    /// Returns the mask if one is held; otherwise no slot is null.
    #[inline(always)]
    pub fn validity(&self) -> Option<&Bitmap>
        ensures mask { option_copied result ≡ mask_of self.now }
        ensures is_column { IsColumn self.now }
    {
        self.validity.as_ref()
    }

    /// Returns an iterator over the marks if a mask is held.
    #[inline(always)]
    pub fn marks(&self) -> Option<BitmapIter<'_>>
        ensures rows { rows_of (stored_values self.now) result ≡ self.now.rows }
        ensures fits { FitsMask (stored_values self.now) result }
    {
        match &self.validity {
            None => None,
            Some(validity) => Some(validity.iter()),
        }
    }

    /// Returns an iterator over the marks of the `len` slots from `offset` on if a mask is held.
    #[inline(always)]
    pub fn marks_range(&self, offset: usize, len: usize) -> Option<BitmapIter<'_>>
        requires { FitsCut self.now offset len }
        ensures slots { map slot (rows_of (take len (drop offset (stored_values self.now))) result)
            ≡ take len (drop offset (slots_of self.now)) }
        ensures fits { FitsMask (take len (drop offset (stored_values self.now))) result }
    {
        match &self.validity {
            None => None,
            Some(validity) => Some(validity.iter_range(offset, len)),
        }
    }

    /// Returns whether the slot at `i` is valid.
    #[inline(always)]
    pub fn is_valid(&self, i: usize) -> bool
        requires { i < length self.now.rows }
        ensures { slice_get (marks_of self.now) i ≡ Some result }
    {
        is_valid_at(&self.validity, i)
    }

    /// Returns whether the slot at `i` is null.
    #[inline(always)]
    pub fn is_null(&self, i: usize) -> bool
        requires { i < length self.now.rows }
        ensures mark { slice_get (marks_of self.now) i ≡ Some (not result) }
        ensures null { IsTrue result → slice_get (slots_of self.now) i ≡ Some None }
        ensures valid { IsTrue (not result) → ShowsStored self.now i }
    {
        !self.is_valid(i)
    }

    /// Returns the number of null slots.
    #[inline(always)]
    pub fn null_count(&self) -> usize
        ensures { result ≡ count_by not (marks_of self.now) }
    {
        null_count(&self.validity)
    }

    /// Keeps only the `len` slots from `offset` on. A held mask stays held.
    #[inline(always)]
    pub fn slice(&mut self, offset: usize, len: usize)
        requires { FitsCut self.old offset len }
        ensures { self.new ≡ cut_with V.cut_around self.old offset len }
    {
        self.values.cut(offset, len);
        slice_mask(&mut self.validity, offset, len);
    }

    /// Replaces the mask; without one every slot is valid. The stored values stay.
    #[inline(always)]
    pub fn set_validity(&mut self, validity: Option<Bitmap>)
        requires { IfSome validity (λ marks. length marks ≡ length self.old.rows) }
        ensures { self.new ≡ with_mask self.old validity }
    {
        self.validity = validity;
    }
}
