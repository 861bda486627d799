//! Growing columns, of which builders are made. Values grow first, and are cut back if the growth of the mask fails.
ghost use Rattle.std.specs.Prelude.{IsTrue, slice_get, not, is_some, count_by, ◌≡◌, ◌==◌, ◌<◌, ◌-◌, length, Some};
ghost use Rattle.std.specs.Prelude.{None, OnOk, IfOk, IfSome};
ghost use Rattle.std.specs.Option.{option_copied};
ghost use Rattle.arrow_types.specs.Failures.{OnlyOutOfMemory, OutOfMemoryKeeps};
ghost use Rattle.arrow_types.specs.Types.{logical_type};
ghost use Rattle.arrow_memory.specs.Rows.{FitsMask, rows_of};
ghost use Rattle.arrow_column.specs.Column.{slots_of, all_valid, marks_of, slot_overflows, IsColumn, append_slot};
ghost use Rattle.arrow_column.specs.Column.{push_slot, push_item, column_overflows};
ghost use Rattle.arrow_column.specs.Column.{column_with, last_slot, mask_of, stored_values};
ghost use Rattle.arrow_column.specs.Column.{with_mask, with_type, without_last};
ghost use Rattle.arrow_column.specs.Growth.{Grows, GrowthKeeps};
ghost use Rattle.arrow_column.specs.Slots.{ShowsStored, LastShowsStored};

use crate::mask::{freeze_mask, is_valid_at, null_count, pop_mark, push_null_mark, push_valid};
use crate::values::{MutableValues, PushValue};
use arrow_memory::bitmap::{Bitmap, BitmapIter, MutableBitmap};
use arrow_types::data_type::DataType;
use arrow_types::error::Error;
use std::marker::Model;

/// A data type, stored values, and an optional mask with a mark for each of them. Without a mask
/// every slot is valid.
#[derive(Drop)]
pub struct GrowingColumn<V: MutableValues> {
    pub(super) data_type: DataType,
    pub(super) values: V,
    pub(super) validity: Option<MutableBitmap>,
}

// Contracts see the column: the type, a row for each slot, and whether a mask is held.
impl<V: MutableValues> Model for GrowingColumn<V> {
    ghost use Rattle.arrow_types.specs.Types.{logical_type};
    ghost use Rattle.arrow_memory.specs.Rows.{FitsMask};
    ghost use Rattle.arrow_column.specs.Column.{ColumnWith, column_with};

    ghost Value = { ColumnWith V.Around V.Stored };

    ghost view = { λ column. column_with (logical_type column.data_type) (V.around column.values)
        (V.stored column.values) column.validity };

    ghost invariant = { λ column. FitsMask (V.stored column.values) column.validity };
}

#[tactic(auto, using(crate::proofs::RowLemmas::row_steps))]
impl<V: MutableValues> GrowingColumn<V> {
    /// Creates a column from its parts. A mask must have a mark for each value.
    #[inline(always)]
    pub fn new(data_type: DataType, values: V, validity: Option<MutableBitmap>) -> Self
        requires { FitsMask (V.stored values) validity }
        ensures { result ≡ column_with (logical_type data_type) (V.around values) (V.stored values) validity }
    {
        GrowingColumn {
            data_type,
            values,
            validity,
        }
    }

    /// Returns the data type, the stored values and the mask.
    #[inline(always)]
    pub fn into_inner(self) -> (DataType, V, Option<MutableBitmap>)
        ensures data_type { logical_type result.0 ≡ self.data_type }
        ensures around { V.around result.1 ≡ self.around }
        ensures values { V.stored result.1 ≡ stored_values self }
        ensures mask { result.2 ≡ mask_of self }
        ensures rows { rows_of (V.stored result.1) result.2 ≡ self.rows }
        ensures fits { FitsMask (V.stored result.1) result.2 }
        ensures is_column { IsColumn self }
        ensures again { column_with (logical_type result.0) (V.around result.1) (V.stored result.1) result.2 ≡ self }
    {
        (self.data_type, self.values, self.validity)
    }

    /// Returns the same slots under another data type.
    #[inline(always)]
    pub fn to(mut self, data_type: DataType) -> Self
        ensures { result ≡ with_type self (logical_type data_type) }
    {
        self.data_type = data_type;
        self
    }

    /// Returns the data type.
    #[inline(always)]
    pub fn data_type(&self) -> &DataType
        ensures { logical_type result.now ≡ self.now.data_type }
    {
        &self.data_type
    }

    /// Returns the number of slots.
    #[inline(always)]
    pub fn len(&self) -> usize
        ensures { result ≡ length self.now.rows }
    {
        self.values.count()
    }

    /// Returns whether there is no slot.
    #[inline(always)]
    pub fn is_empty(&self) -> bool
        ensures { result ≡ (length self.now.rows == 0) }
    {
        self.len() == 0
    }

    /// Returns the stored values, those of null slots included.
    #[inline(always)]
    pub fn values(&self) -> &V
        ensures around { V.around result.now ≡ self.now.around }
        ensures values { V.stored result.now ≡ stored_values self.now }
        ensures length { length (V.stored result.now) ≡ length self.now.rows }
    {
        &self.values
    }

    /// Returns the mask if one is held; otherwise no slot is null.
    #[inline(always)]
    pub fn validity(&self) -> Option<&MutableBitmap>
        ensures mask { option_copied result ≡ mask_of self.now }
        ensures is_column { IsColumn self.now }
    {
        self.validity.as_ref()
    }

    /// Returns an iterator over the marks if a mask is held.
    #[inline(always)]
    pub fn marks(&self) -> Option<BitmapIter<'_>>
        ensures rows { rows_of (stored_values self.now) result ≡ self.now.rows }
        ensures fits { FitsMask (stored_values self.now) result }
    {
        match &self.validity {
            None => None,
            Some(validity) => Some(validity.iter()),
        }
    }

    /// Replaces the mask; without one every slot is valid. The stored values stay.
    #[inline(always)]
    pub fn set_validity(&mut self, validity: Option<MutableBitmap>)
        requires { IfSome validity (λ marks. length marks ≡ length self.old.rows) }
        ensures { self.new ≡ with_mask self.old validity }
    {
        self.validity = validity;
    }

    /// Appends a null, which stores the default. The column holds a mask from then on.
    ///
    /// # Errors
    /// `OutOfMemory` if an allocation fails; the column is then unchanged.
    #[inline(always)]
    pub fn push_null(&mut self) -> Result<(), Error>
        ensures data_type { self.new.data_type ≡ self.old.data_type }
        ensures ok { OnOk result (self.new ≡ append_slot V.default self.old None) }
        ensures err { OutOfMemoryKeeps result self.old self.new }
    {
        let before = self.values.count();
        let alloc = self.values.allocated_by();
        self.values.push_default()?;
        match push_null_mark(alloc, &mut self.validity, before) {
            Ok(()) => Ok(()),
            Err(refused) => {
                self.values.keep_first(before);
                Err(refused)
            }
        }
    }

    /// Appends a valid slot.
    ///
    /// # Errors
    /// - `Overflow` if the value would overflow the values' type; this is checked first.
    /// - `OutOfMemory` if an allocation fails.
    ///
    /// The column is unchanged on an error.
    #[inline(always)]
    pub fn push_valid<X>(&mut self, value: X) -> Result<(), Error>
    where
        V: PushValue<X>,
        ensures data_type { self.new.data_type ≡ self.old.data_type }
        ensures ok { Grows result (column_overflows V.overflows self.old value) self.new
            (push_item V.shown V.default self.old value) }
        ensures err { GrowthKeeps result (column_overflows V.overflows self.old value) self.old self.new }
    {
        let before = self.values.count();
        self.values.push_value(value)?;
        match push_valid(&mut self.validity) {
            Ok(()) => Ok(()),
            Err(refused) => {
                self.values.keep_first(before);
                Err(refused)
            }
        }
    }

    /// Appends a slot. A null stores the default, and the column holds a mask from then on.
    ///
    /// # Errors
    /// - `Overflow` if the value would overflow the values' type; this is checked first.
    /// - `OutOfMemory` if an allocation fails.
    ///
    /// The column is unchanged on an error.
    #[inline(always)]
    pub fn push<X>(&mut self, slot: Option<X>) -> Result<(), Error>
    where
        V: PushValue<X>,
        ensures data_type { self.new.data_type ≡ self.old.data_type }
        ensures ok { Grows result (slot_overflows V.overflows self.old slot) self.new
            (push_slot V.shown V.default self.old slot) }
        ensures err { GrowthKeeps result (slot_overflows V.overflows self.old slot) self.old self.new }
    {
        match slot {
            Some(value) => self.push_valid(value),
            None => self.push_null(),
        }
    }

    /// Removes the last slot and returns whether it was valid.
    #[inline(always)]
    pub fn remove_last(&mut self) -> bool
        requires { 0 < length self.old.rows }
        ensures mark { slice_get (marks_of self.old) (length self.old.rows - 1) ≡ Some result }
        ensures null { IsTrue (not result) → last_slot self.old ≡ None }
        ensures valid { IsTrue result → LastShowsStored self.old }
        ensures rest { self.new ≡ without_last self.old }
    {
        self.values.drop_last();
        pop_mark(&mut self.validity)
    }

    /// Returns whether the slot at `i` is valid.
    #[inline(always)]
    pub fn is_valid(&self, i: usize) -> bool
        requires { i < length self.now.rows }
        ensures { slice_get (marks_of self.now) i ≡ Some result }
    {
        is_valid_at(&self.validity, i)
    }

    /// Returns whether the slot at `i` is null.
    #[inline(always)]
    pub fn is_null(&self, i: usize) -> bool
        requires { i < length self.now.rows }
        ensures mark { slice_get (marks_of self.now) i ≡ Some (not result) }
        ensures null { IsTrue result → slice_get (slots_of self.now) i ≡ Some None }
        ensures valid { IsTrue (not result) → ShowsStored self.now i }
    {
        !self.is_valid(i)
    }

    /// Returns the number of null slots. Counts them if a mask is held.
    #[inline(always)]
    pub fn null_count(&self) -> usize
        ensures { result ≡ count_by not (marks_of self.now) }
    {
        null_count(&self.validity)
    }

    /// Returns the data type, the stored values, and the mask of an array of the same slots. The
    /// mask is held exactly if a slot is null.
    ///
    /// # Errors
    /// `OutOfMemory` if an allocation for the mask fails; the column is then dropped.
    #[inline(always)]
    pub fn freeze_mask(self) -> Result<(DataType, V, Option<Bitmap>), Error>
        ensures data_type { IfOk result (λ parts. logical_type parts.0 ≡ self.data_type) }
        ensures around { IfOk result (λ parts. V.around parts.1 ≡ self.around) }
        ensures fits { IfOk result (λ parts. FitsMask (V.stored parts.1) parts.2) }
        ensures rows { IfOk result (λ parts. rows_of (V.stored parts.1) parts.2 ≡ self.rows) }
        ensures held { IfOk result (λ parts. is_some parts.2 ≡ not (all_valid self)) }
        ensures err { OnlyOutOfMemory result }
    {
        let GrowingColumn {
            data_type,
            values,
            validity,
        } = self;
        Ok((data_type, values, freeze_mask(validity)?))
    }
}
