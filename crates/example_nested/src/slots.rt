//! Borrowed slots of an inner array, and an iterator over them. The library's iterator over an array's items would
//! borrow the list instead of the array.
ghost use Rattle.std.specs.Prelude.{◌≡◌, ◌==◌, ◌<◌, ◌≤◌, Some, IfSome, length, option_map, slice_get, slice_range};
ghost use Rattle.std.specs.Iterator.{UpTo, YieldsFirstBy, YieldsLastBy, at_most, item_count};
ghost use Rattle.std.specs.Iterator.SizeHint.{IsWithinCount};

use crate::inner::{BorrowSlots, InnerArray};
use std::marker::Model;

/// The slots of an inner array between two indexes, borrowed.
#[derive(Drop)]
pub struct ListSlots<'a, A: InnerArray> {
    array: &'a A,
    start: usize,
    end: usize,
}

// Contracts see the slots.
impl<'a, A: InnerArray> Model for ListSlots<'a, A> {
    ghost use Rattle.std.specs.Prelude.{◌≤◌, List, Option, length, slice_range};

    ghost Value = { List (Option A.Seen) };

    ghost view = { λ list. slice_range (A.slots list.array.now) list.start list.end };

    ghost invariant = { λ list. (list.start ≤ list.end) × (list.end ≤ length (A.slots list.array.now)) };
}

impl<'a, A: InnerArray> ListSlots<'a, A> {
    /// Borrows the slots of `array` from `start` up to `end`.
    pub fn new(array: &'a A, start: usize, end: usize) -> Self
        requires order { start ≤ end }
        requires within { end ≤ length (A.slots array.now) }
        ensures { result ≡ slice_range (A.slots array.entry.now) start end }
    {
        ListSlots { array, start, end }
    }

    /// Returns the number of slots.
    pub fn len(&self) -> usize
        ensures { result ≡ length self.now }
    {
        self.end - self.start
    }

    /// Returns whether there is no slot.
    pub fn is_empty(&self) -> bool
        ensures { result ≡ (length self.now == 0) }
    {
        self.start == self.end
    }

    /// Returns an iterator over the slots.
    pub fn iter(&self) -> SlotIter<'a, A>
        ensures { result ≡ self.now }
    {
        SlotIter {
            array: self.array,
            index: self.start,
            end: self.end,
        }
    }
}

#[tactic(auto, using(crate::proofs::SlotLemmas::range_steps))]
impl<'a, A: BorrowSlots<'a>> ListSlots<'a, A> {
    /// Returns the slot at `k`: its value, or `None` if it is null.
    pub fn get(&self, k: usize) -> Option<A::Item>
        requires { k < length self.now }
        ensures { slice_get self.now k ≡ Some (option_map A.seen result) }
    {
        // Called for its contract: the sum is below the number of slots.
        self.array.len();
        self.array.slot(self.start + k)
    }
}

/// A double-ended iterator over slots of an inner array.
#[derive(Drop)]
pub struct SlotIter<'a, A: InnerArray> {
    array: &'a A,
    index: usize,
    end: usize,
}

// Contracts see the slots that are left.
impl<'a, A: InnerArray> Model for SlotIter<'a, A> {
    ghost use Rattle.std.specs.Prelude.{◌≤◌, List, Option, length, slice_range};

    ghost Value = { List (Option A.Seen) };

    ghost view = { λ iter. slice_range (A.slots iter.array.now) iter.index iter.end };

    ghost invariant = { λ iter. (iter.index ≤ iter.end) × (iter.end ≤ length (A.slots iter.array.now)) };
}

impl<'a, A: InnerArray> SlotIter<'a, A> {
    /// Creates an iterator over all slots of an array.
    pub fn new(array: &'a A) -> Self
        ensures { result ≡ A.slots array.entry.now }
    {
        SlotIter {
            array,
            index: 0,
            end: array.len(),
        }
    }
}

#[tactic(auto, using(crate::proofs::SlotLemmas::range_steps))]
impl<'a, A: BorrowSlots<'a>> Iterator for SlotIter<'a, A> {
    type Item = Option<A::Item>;

    ghost next_gives = { YieldsFirstBy (option_map A.seen) (λ slots. slots) };

    ghost remaining = { item_count (λ slots. slots) };

    fn next(&mut self) -> Option<Option<A::Item>> {
        if self.index == self.end {
            return None;
        }
        let slot = self.array.slot(self.index);
        self.index += 1;
        Some(slot)
    }

    /// Returns the number of slots left, in both parts.
    fn size_hint(&self) -> (usize, Option<usize>)
        ensures exact { result ≡ (length self.now, Some (length self.now)) }
        ensures lower { IsWithinCount result.0 (at_most (length self.now)) }
        ensures upper { IfSome result.1 (UpTo (at_most (length self.now))) }
    {
        let left = self.end - self.index;
        (left, Some(left))
    }
}

#[tactic(auto, using(crate::proofs::SlotLemmas::range_steps))]
impl<'a, A: BorrowSlots<'a>> DoubleEndedIterator for SlotIter<'a, A> {
    ghost next_back_gives = { YieldsLastBy (option_map A.seen) (λ slots. slots) };

    fn next_back(&mut self) -> Option<Option<A::Item>> {
        if self.index == self.end {
            return None;
        }
        self.end -= 1;
        Some(self.array.slot(self.end))
    }
}
