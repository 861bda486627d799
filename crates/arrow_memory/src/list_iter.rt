//! Double-ended iterators whose remaining items contracts know as a list.
ghost use Rattle.std.specs.Prelude.{◌≡◌, List, length, ⊤};
ghost use Rattle.std.specs.Iterator.{YieldsFirstBy, YieldsLastBy};

pub use arrow_bitmap::MarkIter;
use arrow_bitmap::{BitmapIntoIter, BitmapIter};
use std::iter::Copied;
use std::slice::Iter;
use std::vec::IntoIter;

/// A double-ended iterator whose remaining items are a known list.
pub trait ListIter: Drop {
    /// The type of the items.
    type Item;

    /// What contracts see of an item.
    type Seen;

    /// What contracts see of this item.
    ghost seen: { Self.Item → Self.Seen };

    /// The items that are left, in order.
    ghost rest: { Self → List Self.Seen };

    /// The condition of a call; every call keeps it.
    ghost can_take: { Self → Type 0 } = { λ _. ⊤ };

    /// Removes and returns the first item that is left.
    fn take_first(&mut self) -> Option<Self::Item>
        requires { can_take self.old }
        ensures keeps { can_take self.new }
        ensures first { YieldsFirstBy seen rest self.old result self.new };

    /// Removes and returns the last item that is left.
    fn take_last(&mut self) -> Option<Self::Item>
        requires { can_take self.old }
        ensures keeps { can_take self.new }
        ensures last { YieldsLastBy seen rest self.old result self.new };

    /// Returns the number of items left.
    fn count_left(&self) -> usize
        requires { can_take self.now }
        ensures { result ≡ length (rest self.now) };
}

impl<'a, T> ListIter for Iter<'a, T> {
    ghost use Rattle.std.specs.Slice.Iter.{iter_rest};

    type Item = &'a T;

    type Seen = T;

    ghost seen = { λ item. item.now };

    ghost rest = { iter_rest };

    #[inline(always)]
    fn take_first(&mut self) -> Option<&'a T> {
        self.next()
    }

    #[inline(always)]
    fn take_last(&mut self) -> Option<&'a T> {
        self.next_back()
    }

    #[inline(always)]
    fn count_left(&self) -> usize {
        self.len()
    }
}

impl<'a> ListIter for BitmapIter<'a> {
    type Item = bool;

    type Seen = bool;

    ghost seen = { λ mark. mark };

    ghost rest = { λ marks. marks };

    #[inline(always)]
    fn take_first(&mut self) -> Option<bool> {
        self.next()
    }

    #[inline(always)]
    fn take_last(&mut self) -> Option<bool> {
        self.next_back()
    }

    #[inline(always)]
    fn count_left(&self) -> usize {
        self.len()
    }
}

impl ListIter for BitmapIntoIter {
    type Item = bool;

    type Seen = bool;

    ghost seen = { λ mark. mark };

    ghost rest = { λ marks. marks };

    #[inline(always)]
    fn take_first(&mut self) -> Option<bool> {
        self.next()
    }

    #[inline(always)]
    fn take_last(&mut self) -> Option<bool> {
        self.next_back()
    }

    #[inline(always)]
    fn count_left(&self) -> usize {
        let (left, _) = self.size_hint();
        left
    }
}

impl<'a, T: Copy + 'a> ListIter for Copied<Iter<'a, T>> {
    ghost use Rattle.std.specs.Slice.Iter.{iter_rest};
    ghost use Rattle.std.specs.Iterator.Adapters.{copied_source};

    type Item = T;

    type Seen = T;

    ghost seen = { λ item. item };

    ghost rest = { λ items. iter_rest (copied_source items) };

    #[inline(always)]
    fn take_first(&mut self) -> Option<T> {
        self.next()
    }

    #[inline(always)]
    fn take_last(&mut self) -> Option<T> {
        self.next_back()
    }

    #[inline(always)]
    fn count_left(&self) -> usize {
        self.len()
    }
}

impl<T: Drop> ListIter for IntoIter<T> {
    ghost use Rattle.std.specs.Vec.Iter.{into_iter_items};

    type Item = T;

    type Seen = T;

    ghost seen = { λ item. item };

    ghost rest = { into_iter_items };

    #[inline(always)]
    fn take_first(&mut self) -> Option<T> {
        self.next()
    }

    #[inline(always)]
    fn take_last(&mut self) -> Option<T> {
        self.next_back()
    }

    #[inline(always)]
    fn count_left(&self) -> usize {
        self.len()
    }
}
