//! List arrays: each slot is a list of slots of an inner array (Arrow columnar format, "Variable-size List Layout").
//! Parts are checked in arrow2's order, and a list is returned as its two offsets, without a copy.
ghost use Rattle.std.specs.Prelude.{◌≡◌, ◌==◌, ◌+◌, ◌<◌, ◌≤◌, Some, not, count_by, drop, length, map, slice_get};
ghost use Rattle.std.specs.Prelude.{take};
ghost use Rattle.dethrugn.specs.Validation.{AcceptedBy, RefusedBy};
ghost use Rattle.dethrugn.specs.Column.{unfit_mask};
ghost use Rattle.dethrugn.specs.Rows.{FitsMask, slot};
ghost use Rattle.example_nested.specs.Lists.{list_tests, lists_of};

use crate::inner::{BorrowSlots, InnerArray};
use crate::slots::{ListSlots, SlotIter};
use dethrugn::array::specification::check_bounds;
use dethrugn::bitmap::Bitmap;
use dethrugn::buffer::Buffer;
use dethrugn::error::Error;
use dethrugn::offset::{Offset, OffsetsBuffer};
use std::marker::Model;

/// The text of the error about a mask.
const UNFIT_MASK: &str = "validity mask length must match the number of values";

/// An array of lists, each of which may be null. A list is the slots of the inner array from one
/// offset up to the next. A null list stores slots too.
#[derive(Drop)]
pub struct ListArray<O: Offset, A: InnerArray> {
    offsets: OffsetsBuffer<O>,
    values: A,
    validity: Option<Bitmap>,
}

// Contracts see a row for each list: its slots, and whether it is valid.
impl<O: Offset, A: InnerArray> Model for ListArray<O, A> {
    ghost use Rattle.dethrugn.specs.Validation.{Passes};
    ghost use Rattle.dethrugn.specs.Offsets.{IsOffsets};
    ghost use Rattle.example_nested.specs.Lists.{Lists, list_tests, lists_of};

    ghost Value = { Lists A.Seen };

    ghost view = { λ array. lists_of array.offsets (A.slots array.values) array.validity };

    ghost invariant = { λ array. IsOffsets array.offsets
        × Passes (list_tests array.offsets (A.slots array.values) array.validity) };
}

#[tactic(auto, using(crate::proofs::ListLemmas::list_steps))]
impl<O: Offset, A: InnerArray> ListArray<O, A> {
    /// Creates an array of lists from its parts: list `i` is the slots of `values` from offset `i` up to
    /// the next.
    ///
    /// # Errors
    /// `OutOfSpec` with the first of these that fails: the last offset is at most the number of
    /// values; a mask has a mark for each list.
    pub fn try_new(
        offsets: OffsetsBuffer<O>,
        values: A,
        validity: Option<Bitmap>,
    ) -> Result<Self, Error>
        ensures ok { AcceptedBy (list_tests offsets (A.slots values) validity) result
            (lists_of offsets (A.slots values) validity) }
        ensures err { RefusedBy (list_tests offsets (A.slots values) validity) result }
    {
        check_bounds(offsets.buffer().as_slice(), values.len())?;
        if let Some(marks) = &validity {
            if marks.len() != offsets.len_proxy() {
                return Err(Error::OutOfSpec(UNFIT_MASK));
            }
        }
        Ok(ListArray {
            offsets,
            values,
            validity,
        })
    }

    /// Returns the number of lists.
    pub fn len(&self) -> usize
        ensures { result ≡ length self.now }
    {
        self.offsets.len_proxy()
    }

    /// Returns whether there is no list.
    pub fn is_empty(&self) -> bool
        ensures { result ≡ (length self.now == 0) }
    {
        self.len() == 0
    }

    /// Returns whether the list at `i` is null.
    pub fn is_null(&self, i: usize) -> bool
        requires { i < length self.now }
        ensures { slice_get (map (λ row. row.1) self.now) i ≡ Some (not result) }
    {
        match &self.validity {
            Some(marks) => !marks.get_bit(i),
            None => false,
        }
    }

    /// Returns the number of null lists.
    pub fn null_count(&self) -> usize
        ensures { result ≡ count_by not (map (λ row. row.1) self.now) }
    {
        match &self.validity {
            Some(marks) => marks.unset_bits(),
            None => 0,
        }
    }

    /// Returns the slots of the list at `i`, also if it is null.
    pub fn value(&self, i: usize) -> ListSlots<'_, A>
        requires { i < length self.now }
        ensures { slice_get (map (λ row. row.0) self.now) i ≡ Some result }
    {
        let (start, end) = self.offsets.start_end(i);
        ListSlots::new(&self.values, start, end)
    }

    /// Returns the list at `i`, or `None` if it is null.
    pub fn get(&self, i: usize) -> Option<ListSlots<'_, A>>
        requires { i < length self.now }
        ensures { slice_get (map slot self.now) i ≡ Some result }
    {
        if self.is_null(i) {
            return None;
        }
        Some(self.value(i))
    }

    /// Keeps only the `len` lists from `offset` on, without copying any.
    pub fn slice(&mut self, offset: usize, len: usize)
        requires { offset + len ≤ length self.old }
        ensures { self.new ≡ take len (drop offset self.old) }
    {
        // Called for its contract: `len + 1` is at most the number of offsets.
        self.offsets.buffer().len();
        self.offsets.slice(offset, len + 1);
        let Some(marks) = &mut self.validity else {
            return;
        };
        marks.slice(offset, len);
    }

    /// Returns an iterator over the lists, where a null list is `None`.
    pub fn iter(&self) -> SlotIter<'_, ListArray<O, A>>
        ensures { result ≡ map slot self.now }
    {
        SlotIter::new(self)
    }
}

impl<O: Offset, A: InnerArray> InnerArray for ListArray<O, A> {
    ghost use Rattle.std.specs.Prelude.{map};
    ghost use Rattle.dethrugn.specs.Rows.{slot};

    // Contracts see a list as the values of a buffer.
    type Seen = Buffer<Option<A::Seen>>;

    ghost slots = { map slot };

    fn len(&self) -> usize {
        self.len()
    }
}

impl<'a, O: Offset, A: InnerArray + 'a> BorrowSlots<'a> for ListArray<O, A> {
    type Item = ListSlots<'a, A>;

    ghost seen = { λ list. list };

    fn slot(&'a self, i: usize) -> Option<ListSlots<'a, A>> {
        self.get(i)
    }
}
