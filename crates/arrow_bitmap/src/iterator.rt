//! Iterators over marks, from both ends, which contracts see as the list of marks that are left.
ghost use Rattle.std.specs.Prelude.{◌≡◌, ◌-◌, ◌*◌, ◌≤◌, ◌<◌, length, vec_len, Some, IfSome};
ghost use Rattle.std.specs.Iterator.{YieldsFirst, YieldsLast, item_count, at_most, UpTo};
ghost use Rattle.std.specs.Iterator.SizeHint.{IsWithinCount};
ghost use Rattle.arrow_bitmap.specs.Marks.{marks};
ghost use Rattle.arrow_bitmap.specs.Items.{SkipsThenFirstBy};

use crate::Bitmap;
use crate::bits::{mark_of, masked_mark_of};
use crate::mark_iter::MarkIter;
use std::marker::Model;
use std::rc::Rc;

/// A double-ended iterator over the marks of a bitmap.
#[derive(Drop)]
pub struct BitmapIter<'a> {
    bytes: &'a [u8],
    index: usize,
    end: usize,
}

// Contracts see the marks that are left.
impl<'a> Model for BitmapIter<'a> {
    ghost use Rattle.std.specs.Prelude.{List, Bool, ◌-◌, ◌*◌, ◌≤◌, length};
    ghost use Rattle.arrow_bitmap.specs.Marks.{marks};

    ghost Value = { List Bool };

    ghost view = { λ iterator. marks iterator.bytes.now iterator.index (iterator.end - iterator.index) };

    ghost invariant = { λ iterator. (iterator.index ≤ iterator.end) × (iterator.end ≤ 8 * length iterator.bytes.now) };
}

impl<'a> BitmapIter<'a> {
    /// Creates an iterator over the marks of packed bytes from `index` up to `end`.
    pub(crate) fn new(bytes: &'a [u8], index: usize, end: usize) -> Self
        requires order { index ≤ end }
        requires within { end ≤ 8 * length bytes.now }
        ensures { result ≡ marks bytes.entry.now index (end - index) }
    {
        BitmapIter { bytes, index, end }
    }

    /// Skips `n` marks and returns the next one. If no more than `n` are left, the iterator is at
    /// its end and the result is `None`. Takes constant time.
    #[tactic(auto, using(crate::proofs::MarkLemmas::mark_skips))]
    #[inline(always)]
    pub fn nth(&mut self, n: usize) -> Option<bool>
        ensures { SkipsThenFirstBy (λ mark. mark) (λ marks. marks) n self.old result self.new }
    {
        if n >= self.end - self.index {
            self.index = self.end;
            return None;
        }
        self.index += n;
        Some(self.pass())
    }
}

#[tactic(auto, using(crate::proofs::MarkLemmas::mark_steps))]
impl<'a> MarkIter for BitmapIter<'a> {
    ghost marks = { λ marks. marks };

    #[inline(always)]
    fn pass(&mut self) -> bool {
        let mark = mark_of(self.bytes, self.index);
        self.index += 1;
        mark
    }

    #[inline(always)]
    fn pass_back(&mut self) -> bool {
        self.end -= 1;
        mark_of(self.bytes, self.end)
    }
}

#[tactic(auto, using(crate::proofs::MarkLemmas::mark_steps))]
impl<'a> Iterator for BitmapIter<'a> {
    type Item = bool;

    ghost next_gives = { YieldsFirst (λ marks. marks) };

    ghost remaining = { item_count (λ marks. marks) };

    fn next(&mut self) -> Option<bool> {
        if self.index == self.end {
            return None;
        }
        // Not by `pass`, which shifts: a loop over marks alone is not vectorized.
        let mark = masked_mark_of(self.bytes, self.index);
        self.index += 1;
        Some(mark)
    }

    /// Returns the number of marks left, in both parts.
    fn size_hint(&self) -> (usize, Option<usize>)
        ensures exact { result ≡ (length self.now, Some (length self.now)) }
        ensures lower { IsWithinCount result.0 (at_most (length self.now)) }
        ensures upper { IfSome result.1 (UpTo (at_most (length self.now))) }
    {
        let left = self.end - self.index;
        (left, Some(left))
    }
}

#[tactic(auto, using(crate::proofs::MarkLemmas::mark_steps))]
impl<'a> DoubleEndedIterator for BitmapIter<'a> {
    ghost next_back_gives = { YieldsLast (λ marks. marks) };

    fn next_back(&mut self) -> Option<bool> {
        if self.index == self.end {
            return None;
        }
        Some(self.pass_back())
    }
}

impl<'a> ExactSizeIterator for BitmapIter<'a> {
    fn len(&self) -> usize {
        self.end - self.index
    }
}

impl IntoIterator for Bitmap {
    type Item = bool;

    type IntoIter = BitmapIntoIter;

    ghost into_iter_gives = { λ bitmap marks. marks ≡ bitmap };

    fn into_iter(self) -> BitmapIntoIter {
        let (bytes, offset, length, _unset) = self.into_parts();
        BitmapIntoIter::new(bytes, offset, offset + length)
    }
}

/// A double-ended iterator over the marks of a bitmap that owns the bytes.
#[derive(Drop)]
pub struct BitmapIntoIter {
    bytes: Rc<Vec<u8>>,
    index: usize,
    end: usize,
}

// Contracts see the marks that are left.
impl Model for BitmapIntoIter {
    ghost use Rattle.std.specs.Prelude.{List, Bool, ◌-◌, ◌*◌, ◌≤◌, vec_len};
    ghost use Rattle.arrow_bitmap.specs.Marks.{marks};

    ghost Value = { List Bool };

    ghost view = { λ iterator. marks iterator.bytes.value.items iterator.index (iterator.end - iterator.index) };

    ghost invariant = { λ iterator. (iterator.index ≤ iterator.end)
        × (iterator.end ≤ 8 * vec_len iterator.bytes.value) };
}

impl BitmapIntoIter {
    /// Creates an iterator over the marks of packed bytes from `index` up to `end`.
    pub(crate) fn new(bytes: Rc<Vec<u8>>, index: usize, end: usize) -> Self
        requires order { index ≤ end }
        requires within { end ≤ 8 * vec_len bytes.value }
        ensures { result ≡ marks bytes.value.items index (end - index) }
    {
        BitmapIntoIter { bytes, index, end }
    }

    /// Skips `n` marks and returns the next one. If no more than `n` are left, the iterator is at
    /// its end and the result is `None`. Takes constant time.
    #[tactic(auto, using(crate::proofs::MarkLemmas::mark_skips))]
    #[inline(always)]
    pub fn nth(&mut self, n: usize) -> Option<bool>
        ensures { SkipsThenFirstBy (λ mark. mark) (λ marks. marks) n self.old result self.new }
    {
        let left = self.end - self.index;
        if n >= left {
            self.index = self.end;
            return None;
        }
        self.index += n;
        Some(self.pass())
    }
}

#[tactic(auto, using(crate::proofs::MarkLemmas::mark_steps))]
impl MarkIter for BitmapIntoIter {
    ghost marks = { λ marks. marks };

    #[inline(always)]
    fn pass(&mut self) -> bool {
        let mark = mark_of(self.bytes.as_slice(), self.index);
        self.index += 1;
        mark
    }

    #[inline(always)]
    fn pass_back(&mut self) -> bool {
        self.end -= 1;
        mark_of(self.bytes.as_slice(), self.end)
    }
}

#[tactic(auto, using(crate::proofs::MarkLemmas::mark_steps))]
impl Iterator for BitmapIntoIter {
    type Item = bool;

    ghost next_gives = { YieldsFirst (λ marks. marks) };

    ghost remaining = { item_count (λ marks. marks) };

    fn next(&mut self) -> Option<bool> {
        if self.index == self.end {
            return None;
        }
        Some(self.pass())
    }

    /// Returns the number of marks left, in both parts.
    fn size_hint(&self) -> (usize, Option<usize>)
        ensures exact { result ≡ (length self.now, Some (length self.now)) }
        ensures lower { IsWithinCount result.0 (at_most (length self.now)) }
        ensures upper { IfSome result.1 (UpTo (at_most (length self.now))) }
    {
        let left = self.end - self.index;
        (left, Some(left))
    }
}

#[tactic(auto, using(crate::proofs::MarkLemmas::mark_steps))]
impl DoubleEndedIterator for BitmapIntoIter {
    ghost next_back_gives = { YieldsLast (λ marks. marks) };

    fn next_back(&mut self) -> Option<bool> {
        if self.index == self.end {
            return None;
        }
        Some(self.pass_back())
    }
}

mod text;
