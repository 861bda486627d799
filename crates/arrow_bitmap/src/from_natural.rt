//! Bitmaps made of the marks of an iterator, whose length is not trusted.
ghost use Rattle.std.specs.Prelude.{IfErr, IfOk, OnOk};
ghost use Rattle.std.specs.Iterator.{Drains, IsFinite};
ghost use Rattle.arrow_types.specs.Failures.{OnlyOutOfMemory};
ghost use Rattle.arrow_bitmap.specs.MarkAppends.{AppendsMarks, AppendsMarksUntil};

use crate::{Bitmap, MutableBitmap};
use arrow_types::error::Error;
use std::alloc::Global;

impl MutableBitmap {
    /// Appends the marks of an iterator. `size_hint` is only used to reserve room; a reservation
    /// that fails is ignored.
    ///
    /// # Errors
    /// `OutOfMemory` if an allocation fails; the marks before the failure stay appended.
    pub fn extend<I: Iterator<Item = bool>>(&mut self, iter: I) -> Result<(), Error>
        requires can { I.can_next iter }
        requires ends { IsFinite (I.remaining iter) }
        ensures ok { OnOk result (AppendsMarks I.next_gives iter self.old self.new) }
        ensures err { IfErr result (AppendsMarksUntil I.next_gives iter self.old self.new) }
    {
        let (least, _) = iter.size_hint();
        // If that much room is refused at once, each mark asks for its own.
        let _ = self.reserve(least);
        for mark in iter {
            self.push(mark)?;
        }
        Ok(())
    }

    /// Creates a bitmap of the marks of an iterator. `size_hint` is only used to reserve room.
    ///
    /// # Errors
    /// `OutOfMemory` if an allocation fails.
    pub fn from_iter<I: Iterator<Item = bool>>(alloc: Global, iter: I) -> Result<Self, Error>
        requires can { I.can_next iter }
        requires ends { IsFinite (I.remaining iter) }
        ensures ok { IfOk result (Drains I.next_gives iter) }
        ensures err { OnlyOutOfMemory result }
    {
        let mut marks = MutableBitmap::new(alloc);
        marks.extend(iter)?;
        Ok(marks)
    }
}

impl Bitmap {
    /// Creates a bitmap of the marks of an iterator. `size_hint` is only used to reserve room.
    ///
    /// # Errors
    /// `OutOfMemory` if an allocation fails.
    pub fn from_iter<I: Iterator<Item = bool>>(alloc: Global, iter: I) -> Result<Self, Error>
        requires can { I.can_next iter }
        requires ends { IsFinite (I.remaining iter) }
        ensures ok { IfOk result (Drains I.next_gives iter) }
        ensures err { OnlyOutOfMemory result }
    {
        MutableBitmap::from_iter(alloc, iter)?.freeze()
    }
}
