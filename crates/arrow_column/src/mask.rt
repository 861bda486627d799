//! Optional masks: the marks of slots, where there are any. Both kinds of bitmaps are masks by one trait, and share
//! what is here.
ghost use Rattle.std.specs.Prelude.{IsTrue, ◌↔◌, slice_get, slice_set, ◌≡◌, ◌<◌, Bool, List, Option, true, false, not};
ghost use Rattle.std.specs.Prelude.{[], ◌∷◌, ◌++◌, replicate, None, Some, option_map, unwrap_or, is_some, length};
ghost use Rattle.std.specs.Prelude.{count_by, take, drop, ◌+◌, ◌≤◌, IfSome, MatchOption, OnOk, IfOk, IsOk};
ghost use Rattle.std.specs.Bool.{Decides};
ghost use Rattle.arrow_types.specs.Failures.{OnlyOutOfMemory, OutOfMemoryKeeps};
ghost use Rattle.arrow_memory.specs.MarkWrites.{TakesLastMark};
ghost use Rattle.arrow_memory.specs.Rows.{IsValidAt};
ghost use Rattle.arrow_column.specs.Masks.{HasNewMarks, mask_with_new, mask_with_nulls, marks_under, new_marks, new_mask};

use crate::values::StoredValues;
use arrow_memory::bitmap::{Bitmap, MutableBitmap};
use arrow_types::error::Error;
use std::alloc::Global;

/// A bitmap that can be the mask of a column.
pub trait Mask: StoredValues<Stored = bool> + PartialEq {
    /// The marks of a mask, where there is one.
    ghost mask: { Option Self → Option (List Bool) };

    /// Returns the mark at `index`.
    fn get(&self, index: usize) -> bool
        requires { index < length (Self.stored self.now) }
        ensures { slice_get (Self.stored self.now) index ≡ Some result };

    /// Returns the number of clear marks.
    fn unset_bits(&self) -> usize
        ensures { result ≡ count_by not (Self.stored self.now) };

    /// `None` has no marks.
    ghost no_mask: { mask None ≡ None };

    /// The marks of a mask are those of the bitmap.
    ghost some_mask: { (bitmap : Self) → mask (Some bitmap) ≡ Some (Self.stored bitmap) };

    /// Bitmaps are equal if they have the same marks.
    ghost eq_decides: { (x y : Self) → Decides (Self.eq x y) (Self.stored x ≡ Self.stored y) };
}

impl Mask for Bitmap {
    ghost use Rattle.std.specs.Prelude.{refl};
    ghost use Rattle.arrow_memory.specs.MarkEquality.{same_marks-Decides};

    ghost mask = { λ mask. mask };

    #[inline(always)]
    fn get(&self, index: usize) -> bool {
        self.get_bit(index)
    }

    #[inline(always)]
    fn unset_bits(&self) -> usize {
        self.unset_bits()
    }

    ghost no_mask = { refl };

    ghost some_mask = { λ bitmap. refl };

    ghost eq_decides = { same_marks-Decides };
}

impl Mask for MutableBitmap {
    ghost use Rattle.std.specs.Prelude.{refl};
    ghost use Rattle.arrow_memory.specs.MarkEquality.{same_marks-Decides};

    ghost mask = { λ mask. mask };

    #[inline(always)]
    fn get(&self, index: usize) -> bool {
        self.get(index)
    }

    #[inline(always)]
    fn unset_bits(&self) -> usize {
        self.unset_bits()
    }

    ghost no_mask = { refl };

    ghost some_mask = { λ bitmap. refl };

    ghost eq_decides = { same_marks-Decides };
}

/// Returns whether a mask, if there is one, has a mark for each of `slots` slots.
#[inline(always)]
pub fn is_mask_of<M: Mask>(validity: &Option<M>, slots: usize) -> bool
    ensures { IsTrue result ↔ IfSome validity.now (λ bitmap. length (M.stored bitmap) ≡ slots) }
{
    match validity {
        None => true,
        Some(bitmap) => bitmap.count() == slots,
    }
}

/// Returns whether a slot is valid; without a mask every slot is.
#[inline(always)]
pub(crate) fn is_valid_at<M: Mask>(validity: &Option<M>, i: usize) -> bool
    requires { IfSome (M.mask validity.now) (λ marks. i < length marks) }
    ensures mark { MatchOption (M.mask validity.now) (result ≡ true) (λ marks. slice_get marks i ≡ Some result) }
    ensures valid { IsTrue result ↔ IsValidAt (M.mask validity.now) i }
{
    match validity {
        None => true,
        Some(bitmap) => bitmap.get(i),
    }
}

/// Returns the number of nulls; without a mask there is none.
#[inline(always)]
pub(crate) fn null_count<M: Mask>(validity: &Option<M>) -> usize
    ensures { result ≡ count_by not (unwrap_or (M.mask validity.now) []) }
{
    match validity {
        None => 0,
        Some(bitmap) => bitmap.unset_bits(),
    }
}

/// Returns a copy of a mask, if there is one, which shares the marks if they are those of an array.
pub(crate) fn clone_mask<M: Mask>(validity: &Option<M>) -> Result<Option<M>, Error>
    ensures ok { IfOk result (λ copy. M.mask copy ≡ M.mask validity.now) }
    ensures err { OnlyOutOfMemory result }
{
    match validity {
        None => Ok(None),
        Some(bitmap) => Ok(Some(bitmap.try_clone()?)),
    }
}

/// Returns whether two masks of equally many slots mark the same slots as valid. Marks are compared and counted many at
/// a time.
pub(crate) fn same_masks<M: Mask>(first: &Option<M>, second: &Option<M>, count: usize) -> bool
    requires first { IfSome (M.mask first.now) (λ marks. length marks ≡ count) }
    requires second { IfSome (M.mask second.now) (λ marks. length marks ≡ count) }
    ensures { IsTrue result ↔ marks_under (M.mask first.now) count ≡ marks_under (M.mask second.now) count }
{
    match first {
        Some(bitmap) => match second {
            Some(other) => bitmap.eq(other),
            None => null_count(first) == 0,
        },
        None => null_count(second) == 0,
    }
}

/// Slots that are appended to a column, of which the marks matter.
#[derive(Clone, Copy)]
pub(crate) enum NewSlots<'a> {
    /// As many valid slots.
    Valid(usize),
    /// As many nulls.
    Null(usize),
    /// The slots of a builder, with its mask and their number.
    OfBuilder(&'a Option<MutableBitmap>, usize),
    /// The slots of an array from an offset on, with its mask, the offset and their number.
    OfArray(&'a Option<Bitmap>, usize, usize),
}

/// Appends the marks of other slots.
#[inline(always)]
fn append_marks(marks: &mut MutableBitmap, new: NewSlots<'_>) -> Result<(), Error>
    requires { HasNewMarks new }
    ensures ok { OnOk result (marks.new ≡ marks.old ++ new_marks new.entry) }
    ensures err { OutOfMemoryKeeps result marks.old marks.new }
{
    match new {
        NewSlots::Valid(count) => marks.extend_constant(count, true),
        NewSlots::Null(count) => marks.extend_constant(count, false),
        NewSlots::OfBuilder(mask, count) => match mask {
            Some(others) => marks.extend_from_bitmap(others),
            None => marks.extend_constant(count, true),
        },
        NewSlots::OfArray(mask, offset, len) => match mask {
            Some(others) => marks.extend_from_range(others, offset, len),
            None => marks.extend_constant(len, true),
        },
    }
}

/// Returns whether other slots have a mask.
#[inline(always)]
fn have_mask(new: &NewSlots<'_>) -> bool
    ensures { result ≡ is_some (new_mask new.now) }
{
    match new {
        NewSlots::Valid(_) => false,
        NewSlots::Null(_) => true,
        NewSlots::OfBuilder(mask, _) => mask.is_some(),
        NewSlots::OfArray(mask, _, _) => mask.is_some(),
    }
}

/// Creates a mask of `length` valid slots followed by other slots. It is not inlined, so that a loop of appends stays
/// small enough for the compiler to follow.
#[cold]
#[inline(never)]
fn init_validity(
    alloc: Global,
    validity: &mut Option<MutableBitmap>,
    length: usize,
    new: NewSlots<'_>,
) -> Result<(), Error>
    requires { HasNewMarks new }
    ensures ok { OnOk result (validity.new ≡ Some (replicate length true ++ new_marks new.entry)) }
    ensures err { OutOfMemoryKeeps result validity.old validity.new }
{
    let mut marks = MutableBitmap::new(alloc);
    marks.extend_constant(length, true)?;
    append_marks(&mut marks, new)?;
    *validity = Some(marks);
    Ok(())
}

/// Appends the marks of other slots to those of `length` slots. A mask is held if either has one, and slots without one
/// are valid in it.
#[inline(always)]
#[tactic(auto, using(crate::proofs::MaskLemmas::join_steps))]
pub(crate) fn join_marks(
    alloc: Global,
    validity: &mut Option<MutableBitmap>,
    length: usize,
    new: NewSlots<'_>,
) -> Result<(), Error>
    requires { HasNewMarks new }
    ensures ok { OnOk result (validity.new ≡ mask_with_new validity.old length new.entry) }
    ensures err { OutOfMemoryKeeps result validity.old validity.new }
{
    match validity {
        Some(marks) => append_marks(marks, new),
        None => {
            if !have_mask(&new) {
                return Ok(());
            }
            init_validity(alloc, validity, length, new)
        }
    }
}

/// Appends the mark of a valid slot, if a mask is held.
#[inline(always)]
pub(crate) fn push_valid(validity: &mut Option<MutableBitmap>) -> Result<(), Error>
    ensures ok { OnOk result (validity.new ≡ option_map (λ marks. marks ++ true ∷ []) validity.old) }
    ensures err { OutOfMemoryKeeps result validity.old validity.new }
{
    match validity {
        None => Ok(()),
        Some(marks) => marks.push(true),
    }
}

/// Appends the mark of a null. If no mask is held, creates one in which the `length` slots before it are valid, by a
/// call that is not inlined.
#[inline(always)]
pub(crate) fn push_null_mark(
    alloc: Global,
    validity: &mut Option<MutableBitmap>,
    length: usize,
) -> Result<(), Error>
    ensures ok { OnOk result (validity.new ≡ Some (marks_under validity.old length ++ false ∷ [])) }
    ensures err { OutOfMemoryKeeps result validity.old validity.new }
{
    match validity {
        Some(marks) => marks.push(false),
        None => init_validity(alloc, validity, length, NewSlots::Null(1)),
    }
}

/// Removes and returns the last mark; without a mask the slot is valid.
#[inline(always)]
pub(crate) fn pop_mark(validity: &mut Option<MutableBitmap>) -> bool
    requires { IfSome validity.old (λ marks. 0 < length marks) }
    ensures { TakesLastMark validity.old validity.new result }
{
    match validity {
        None => true,
        Some(marks) => match marks.pop() {
            Some(mark) => mark,
            None => false,
        },
    }
}

/// Keeps only the `len` marks from `offset` on, if a mask is held.
#[inline(always)]
pub(crate) fn slice_mask(validity: &mut Option<Bitmap>, offset: usize, len: usize)
    requires { IfSome validity.old (λ marks. offset + len ≤ length marks) }
    ensures { validity.new ≡ option_map (λ marks. take len (drop offset marks)) validity.old }
{
    if let Some(marks) = validity {
        marks.slice(offset, len);
    }
}

/// Returns the mask of an array, which is held exactly if a slot is null.
pub(crate) fn freeze_mask(validity: Option<MutableBitmap>) -> Result<Option<Bitmap>, Error>
    ensures ok { IfOk result (λ mask. mask ≡ mask_with_nulls validity) }
    ensures err { OnlyOutOfMemory result }
{
    let Some(marks) = validity else {
        return Ok(None);
    };
    // Counted before it is frozen, so that a mask that no slot needs takes no memory.
    let unset = marks.unset_bits();
    if unset == 0 {
        return Ok(None);
    }
    Ok(Some(marks.freeze_counted(unset)?))
}

/// Sets the mark at `i`, if a mask is held.
#[inline(always)]
pub(crate) fn set_valid_mark(validity: &mut Option<MutableBitmap>, i: usize)
    requires { IfSome validity.old (λ marks. i < length marks) }
    ensures { validity.new ≡ option_map (λ marks. slice_set marks i true) validity.old }
{
    if let Some(marks) = validity {
        marks.set(i, true);
    }
}

/// Creates a mask of `count` slots of which only the one at `i` is null.
#[cold]
#[inline(never)]
fn null_mark_at(alloc: Global, count: usize, i: usize) -> Result<MutableBitmap, Error>
    requires { i < count }
    ensures ok { IfOk result (λ marks. marks ≡ slice_set (replicate count true) i false) }
    ensures err { OnlyOutOfMemory result }
{
    let mut marks = MutableBitmap::new(alloc);
    marks.extend_constant(count, true)?;
    marks.set(i, false);
    Ok(marks)
}

/// Clears the mark at a place. If no mask is held, creates one in which the other slots are valid.
#[inline(always)]
pub(crate) fn set_null_mark(
    alloc: Global,
    validity: &mut Option<MutableBitmap>,
    count: usize,
    i: usize,
) -> Result<(), Error>
    requires within { i < count }
    requires fits { IfSome validity.old (λ marks. length marks ≡ count) }
    ensures ok { OnOk result (validity.new ≡ Some (slice_set (marks_under validity.old count) i false)) }
    ensures err { OutOfMemoryKeeps result validity.old validity.new }
{
    match validity {
        Some(marks) => {
            marks.set(i, false);
            Ok(())
        }
        None => {
            *validity = Some(null_mark_at(alloc, count, i)?);
            Ok(())
        }
    }
}

/// Reserves room for more marks, if a mask is held.
pub(crate) fn reserve_marks(
    validity: &mut Option<MutableBitmap>,
    additional: usize,
) -> Result<(), Error>
    ensures kept { validity.new ≡ validity.old }
    ensures err { OnlyOutOfMemory result }
{
    match validity {
        None => Ok(()),
        Some(marks) => marks.reserve(additional),
    }
}

/// Gives unused room back, if a mask is held.
pub(crate) fn shrink_marks(validity: &mut Option<MutableBitmap>) -> Result<(), Error>
    ensures kept { validity.new ≡ validity.old }
    ensures ok { IsOk result }
{
    match validity {
        None => Ok(()),
        Some(marks) => marks.shrink_to_fit(),
    }
}
