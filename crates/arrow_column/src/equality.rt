//! Equality of columns, which compares slots alone: what a null slot stores makes no difference.
ghost use Rattle.std.specs.Prelude.{◌≡◌, ◌<◌, ◌↔◌, Bool, IsTrue, length, slice_get};
ghost use Rattle.std.specs.Bool.{Decides};
ghost use Rattle.arrow_memory.specs.Rows.{AgreeWhere, FitsMask};
ghost use Rattle.arrow_column.specs.ArrayEquality.{same_typed_slots};
ghost use Rattle.arrow_column.specs.Column.{slots_of};
ghost use Rattle.arrow_column.specs.SlotEquality.{ShowSame, same_slots};

use crate::mask::{Mask, is_valid_at, null_count, same_masks};
use crate::values::{MutableValues, StoredValues, Values};
use crate::{FrozenColumn, GrowingColumn};
use arrow_memory::bitmap::{Bitmap, MutableBitmap};
use arrow_memory::buffer::Buffer;
use arrow_types::native_type::NativeType;

/// Stored values that can be compared wherever a mask is set, so that columns of them can be compared.
pub trait EqualValues<M: Mask>: StoredValues {
    /// Whether two stored values are equal, as a test.
    ghost test: { Self.Stored → Self.Stored → Bool };

    /// Returns whether both store the same value at `i`.
    fn is_same_at(&self, other: &Self, i: usize) -> bool
        requires here { i < length (Self.stored self.now) }
        requires there { i < length (Self.stored other.now) }
        ensures { IsTrue result ↔ slice_get (Self.stored self.now) i ≡ slice_get (Self.stored other.now) i };

    /// Returns whether both, of equal length, store the same value wherever a slot is valid; without a mask every slot
    /// is. Compares one value at a time, which those that can be compared many at a time replace.
    fn are_same_where(&self, other: &Self, mask: &Option<M>) -> bool
        requires same { length (Self.stored self.now) ≡ length (Self.stored other.now) }
        requires fits { FitsMask (Self.stored self.now) (M.mask mask.now) }
        ensures { IsTrue result ↔ AgreeWhere (M.mask mask.now) (Self.stored self.now) (Self.stored other.now) }
    {
        for i in 0..self.count() {
            if is_valid_at(mask, i) {
                if !self.is_same_at(other, i) {
                    return false;
                }
            }
        }
        true
    }

    /// The test decides whether stored values are equal.
    ghost test_decides: { (x y : Self.Stored) → Decides (test x y) (x ≡ y) };
}

/// Returns whether two slices of equal length have the same value wherever a slot is valid. Compares them at once,
/// since null slots mostly store the same value too. Otherwise values and marks are read before either is tested, so
/// that no branch depends on a mark alone.
fn agree_where<T: NativeType, M: Mask>(first: &[T], second: &[T], mask: &Option<M>) -> bool
    requires same { length first.now ≡ length second.now }
    requires fits { FitsMask first.now (M.mask mask.now) }
    ensures { IsTrue result ↔ AgreeWhere (M.mask mask.now) first.now second.now }
{
    if first == second {
        return true;
    }
    if null_count(mask) == 0 {
        return false;
    }
    for i in 0..first.len() {
        let is_same = first[i] == second[i];
        if is_valid_at(mask, i) & !is_same {
            return false;
        }
    }
    true
}

impl<T: NativeType, M: Mask> EqualValues<M> for Vec<T> {
    ghost test = { T.eq };

    #[inline(always)]
    fn is_same_at(&self, other: &Vec<T>, i: usize) -> bool {
        self[i] == other[i]
    }

    fn are_same_where(&self, other: &Vec<T>, mask: &Option<M>) -> bool {
        agree_where(self, other, mask)
    }

    ghost test_decides = { T.same };
}

impl<T: NativeType, M: Mask> EqualValues<M> for Buffer<T> {
    ghost test = { T.eq };

    #[inline(always)]
    fn is_same_at(&self, other: &Buffer<T>, i: usize) -> bool {
        self.as_slice()[i] == other.as_slice()[i]
    }

    fn are_same_where(&self, other: &Buffer<T>, mask: &Option<M>) -> bool {
        agree_where(self.as_slice(), other.as_slice(), mask)
    }

    ghost test_decides = { T.same };
}

impl EqualValues<MutableBitmap> for MutableBitmap {
    ghost use Rattle.std.specs.Bool.{beq};
    ghost use Rattle.std.specs.Cmp.{booleans_Decides};

    ghost test = { beq };

    #[inline(always)]
    fn is_same_at(&self, other: &MutableBitmap, i: usize) -> bool {
        self.get(i) == other.get(i)
    }

    /// Compares one byte at a time.
    fn are_same_where(&self, other: &MutableBitmap, mask: &Option<MutableBitmap>) -> bool {
        self.agrees_where(other, mask)
    }

    ghost test_decides = { booleans_Decides };
}

impl EqualValues<Bitmap> for Bitmap {
    ghost use Rattle.std.specs.Bool.{beq};
    ghost use Rattle.std.specs.Cmp.{booleans_Decides};

    ghost test = { beq };

    #[inline(always)]
    fn is_same_at(&self, other: &Bitmap, i: usize) -> bool {
        self.get_bit(i) == other.get_bit(i)
    }

    /// Compares 64 marks at a time.
    fn are_same_where(&self, other: &Bitmap, mask: &Option<Bitmap>) -> bool {
        self.agrees_where(other, mask)
    }

    ghost test_decides = { booleans_Decides };
}

/// Returns whether stored values under a mask and others under another one show the same slots.
fn show_same_slots<M: Mask, V: EqualValues<M>>(
    values: &V,
    mask: &Option<M>,
    others: &V,
    marks: &Option<M>,
) -> bool
    requires fits { FitsMask (V.stored values.now) (M.mask mask.now) }
    requires others_fit { FitsMask (V.stored others.now) (M.mask marks.now) }
    ensures { IsTrue result ↔ ShowSame V.stored M.mask values.now mask.now others.now marks.now }
{
    let count = values.count();
    if others.count() != count {
        return false;
    }
    if !same_masks(mask, marks, count) {
        return false;
    }
    values.are_same_where(others, mask)
}

impl<V: MutableValues + EqualValues<MutableBitmap>> GrowingColumn<V> {
    /// Returns whether both have the same slots: equally many, and at each place two nulls or the same value. Types,
    /// held masks and values under nulls are not compared.
    pub fn has_slots_of(&self, other: &Self) -> bool
        ensures value { result ≡ same_slots V.test (slots_of self.now) (slots_of other.now) }
        ensures decides { IsTrue result ↔ slots_of self.now ≡ slots_of other.now }
    {
        show_same_slots(&self.values, &self.validity, &other.values, &other.validity)
    }
}

impl<V: Values + EqualValues<Bitmap>> FrozenColumn<V> {
    /// Returns whether both have the same slots, as `has_slots_of` of a growing column.
    pub fn has_slots_of(&self, other: &Self) -> bool
        ensures value { result ≡ same_slots V.test (slots_of self.now) (slots_of other.now) }
        ensures decides { IsTrue result ↔ slots_of self.now ≡ slots_of other.now }
    {
        show_same_slots(&self.values, &self.validity, &other.values, &other.validity)
    }

    /// Returns whether both have the same data type and the same slots.
    pub fn has_typed_slots_of(&self, other: &Self) -> bool
        ensures value { result ≡ same_typed_slots V.test self.now other.now }
        ensures decides { IsTrue result ↔ ((self.now.data_type ≡ other.now.data_type)
            × (slots_of self.now ≡ slots_of other.now)) }
    {
        if !self.data_type.eq(&other.data_type) {
            return false;
        }
        self.has_slots_of(other)
    }
}
