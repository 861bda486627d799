//! Iterators over the items of an array, from both ends. `IsWithin` is a condition of each call, which `new` ensures
//! and each call keeps.
ghost use Rattle.std.specs.Prelude.{◌≡◌, ◌-◌, ◌≤◌, length, take, drop, Some, IfSome};
ghost use Rattle.std.specs.Iterator.{MakesProgress, YieldsFirstBy, YieldsLastBy, at_most, UpTo};
ghost use Rattle.std.specs.Iterator.SizeHint.{IsWithinCount};
ghost use Rattle.arrow_memory.specs.Items.{SkipsThenFirstBy};
ghost use Rattle.arrow_check.specs.Items.{IsWithin, rest_of};

use crate::accessor::ArrayAccessor;

/// A double-ended iterator over the items of an array.
#[derive(Drop)]
pub struct ArrayValuesIter<'a, A> {
    array: &'a A,
    index: usize,
    end: usize,
}

#[tactic(auto, using(crate::proofs::ItemLemmas::rest_steps))]
impl<'a, A: ArrayAccessor<'a>> ArrayValuesIter<'a, A> {
    /// Creates an iterator over all items of an array.
    #[inline(always)]
    pub fn new(array: &'a A) -> Self
        ensures within { IsWithin A.items result }
        ensures all { rest_of A.items result ≡ A.items array.entry.now }
    {
        ArrayValuesIter {
            array,
            index: 0,
            end: array.len(),
        }
    }

    /// Creates an iterator over the `len` items of an array from `offset` on.
    #[inline(always)]
    pub fn new_range(array: &'a A, offset: usize, len: usize) -> Self
        requires start { offset ≤ length (A.items array.now) }
        requires end { len ≤ length (A.items array.now) - offset }
        ensures within { IsWithin A.items result }
        ensures all { rest_of A.items result ≡ take len (drop offset (A.items array.entry.now)) }
    {
        // Called for its contract: the sum is no greater than the number of items.
        array.len();
        ArrayValuesIter {
            array,
            index: offset,
            end: offset + len,
        }
    }

    /// Returns the number of items left.
    #[inline(always)]
    pub fn len(&self) -> usize
        requires { IsWithin A.items self.now }
        ensures { result ≡ length (rest_of A.items self.now) }
    {
        self.end - self.index
    }

    /// Skips `n` items and returns the next one. If no more than `n` are left, the iterator is at
    /// its end and the result is `None`.
    #[inline(always)]
    pub fn nth(&mut self, n: usize) -> Option<A::Item>
        requires { IsWithin A.items self.old }
        ensures steps { SkipsThenFirstBy A.seen (rest_of A.items) n self.old result self.new }
        ensures keeps { IsWithin A.items self.new }
    {
        let left = self.len();
        if n >= left {
            self.index = self.end;
            return None;
        }
        self.index += n;
        self.next()
    }

    /// Returns an iterator over the same items.
    #[inline(always)]
    pub fn clone(&self) -> Self
        ensures { result ≡ self.now }
    {
        ArrayValuesIter {
            array: self.array,
            index: self.index,
            end: self.end,
        }
    }
}

#[tactic(auto, using(crate::proofs::ItemLemmas::rest_steps))]
impl<'a, A: ArrayAccessor<'a>> Iterator for ArrayValuesIter<'a, A> {
    type Item = A::Item;

    ghost can_next = { IsWithin A.items };

    ghost next_gives = { YieldsFirstBy A.seen (rest_of A.items) };

    ghost remaining = { λ s. at_most (s.end - s.index) };

    #[inline(always)]
    fn next(&mut self) -> Option<A::Item>
        requires { IsWithin A.items self.old }
        ensures steps { YieldsFirstBy A.seen (rest_of A.items) self.old result self.new }
        ensures goes { MakesProgress (IsWithin A.items) (λ s. at_most (s.end - s.index)) self.old result self.new }
        ensures keeps { IsWithin A.items self.new }
    {
        if self.index == self.end {
            return None;
        }
        let item = self.array.value(self.index);
        self.index += 1;
        Some(item)
    }

    /// Returns the number of items left, in both parts.
    #[inline(always)]
    fn size_hint(&self) -> (usize, Option<usize>)
        ensures exact { IsWithin A.items self.now
            → result ≡ (length (rest_of A.items self.now), Some (length (rest_of A.items self.now))) }
        ensures lower { IsWithinCount result.0 (at_most (self.now.end - self.now.index)) }
        ensures upper { IfSome result.1 (UpTo (at_most (self.now.end - self.now.index))) }
    {
        let left = self.end.saturating_sub(self.index);
        (left, Some(left))
    }
}

#[tactic(auto, using(crate::proofs::ItemLemmas::rest_steps))]
impl<'a, A: ArrayAccessor<'a>> DoubleEndedIterator for ArrayValuesIter<'a, A> {
    ghost can_next_back = { IsWithin A.items };

    ghost next_back_gives = { YieldsLastBy A.seen (rest_of A.items) };

    #[inline(always)]
    fn next_back(&mut self) -> Option<A::Item>
        requires { IsWithin A.items self.old }
        ensures steps { YieldsLastBy A.seen (rest_of A.items) self.old result self.new }
        ensures goes { MakesProgress (IsWithin A.items) (λ s. at_most (s.end - s.index)) self.old result self.new }
        ensures keeps { IsWithin A.items self.new }
    {
        if self.index == self.end {
            return None;
        }
        let item = self.array.value(self.end - 1);
        self.end -= 1;
        Some(item)
    }
}
