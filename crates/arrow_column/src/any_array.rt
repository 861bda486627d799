//! What arrays of every kind have in common: the trait by which code is written over any of them.
ghost use Rattle.std.specs.Prelude.{◌≡◌, ◌<◌, ◌==◌, Some, count_by, length, not, slice_get};
ghost use Rattle.std.specs.Option.{option_copied};
ghost use Rattle.arrow_types.specs.Types.{logical_type};
ghost use Rattle.arrow_column.specs.Column.{ColumnWith, IsColumn, marks_of, mask_of};

use arrow_memory::bitmap::Bitmap;
use arrow_types::data_type::DataType;

/// An array of any kind. Code that needs no value of a slot can be written once, over this trait.
pub trait Array {
    /// What contracts see of what lies around the stored values.
    type Around;

    /// What contracts see of a stored value.
    type Stored;

    /// The column that contracts see of an array.
    ghost column: { Self → ColumnWith Self.Around Self.Stored };

    /// Returns the number of slots.
    fn len(&self) -> usize
        ensures { result ≡ length (column self.now).rows };

    /// Returns whether there is no slot.
    #[inline(always)]
    fn is_empty(&self) -> bool
        ensures { result ≡ (length (column self.now).rows == 0) }
    {
        self.len() == 0
    }

    /// Returns the data type.
    fn data_type(&self) -> &DataType
        ensures { logical_type result.now ≡ (column self.now).data_type };

    /// Returns the mask if one is held; otherwise no slot is null.
    fn validity(&self) -> Option<&Bitmap>
        ensures mask { option_copied result ≡ mask_of (column self.now) }
        ensures is_column { IsColumn (column self.now) };

    /// Returns the number of null slots, in constant time.
    fn null_count(&self) -> usize
        ensures { result ≡ count_by not (marks_of (column self.now)) };

    /// Returns whether the slot at `i` is null.
    fn is_null(&self, i: usize) -> bool
        requires { i < length (column self.now).rows }
        ensures { slice_get (marks_of (column self.now)) i ≡ Some (not result) };

    /// Returns whether the slot at `i` is valid, that is, not null.
    #[inline(always)]
    fn is_valid(&self, i: usize) -> bool
        requires { i < length (column self.now).rows }
        ensures { slice_get (marks_of (column self.now)) i ≡ Some result }
    {
        !self.is_null(i)
    }
}
