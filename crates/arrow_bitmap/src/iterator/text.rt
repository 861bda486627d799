//! The text of bitmaps: their bytes as binary numbers, as in `[0b10110001, 0b______01]`. It begins
//! with the first mark, also of a slice that begins within a byte.
ghost use Rattle.std.specs.Prelude.{◌≡◌, ◌+◌, ◌-◌, ◌*◌, ◌<◌, [], ◌∷◌, length, slice_get};
ghost use Rattle.std.specs.Int.{div_ceil};
ghost use Rattle.arrow_bitmap.specs.MarkText.{byte_texts, mark_digit, marks_text};

use crate::bits::mark_of;
use crate::{Bitmap, BitmapIter, MutableBitmap};
use arrow_types::list_text::{WriteItems, write_list};
use std::fmt;

impl<'a> BitmapIter<'a> {
    /// Returns digit `k` of a byte of marks, of which the last mark is the first digit; `_` if there
    /// is no such mark.
    fn digit(&self, byte: usize, k: usize) -> &'static str
        requires byte { byte < div_ceil (length self.now) 8 }
        requires digit { k < 8 }
        ensures { result.now ≡ mark_digit (slice_get self.now (8 * byte + 7 - k)) ∷ [] }
    {
        let count = self.end - self.index;
        let i = 8 * byte + 7 - k;
        if i >= count {
            return "_";
        }
        if mark_of(self.bytes, self.index + i) {
            "1"
        } else {
            "0"
        }
    }
}

// The items are bytes of eight marks.
impl<'a> WriteItems for BitmapIter<'a> {
    ghost texts = { byte_texts };

    fn item_count(&self) -> usize {
        (self.end - self.index).div_ceil(8)
    }

    fn write_item<W: fmt::Write>(&self, f: &mut fmt::Formatter<W>, i: usize) -> fmt::Result {
        f.write_str("0b")?;
        for k in 0..8 {
            f.write_str(self.digit(i, k))?;
        }
        Ok(())
    }
}

impl fmt::Debug for Bitmap {
    ghost debug_output = { marks_text };

    fn fmt<W: fmt::Write>(&self, f: &mut fmt::Formatter<W>) -> fmt::Result {
        write_list(f, &self.iter())
    }
}

impl fmt::Display for Bitmap {
    ghost output = { marks_text };

    fn fmt<W: fmt::Write>(&self, f: &mut fmt::Formatter<W>) -> fmt::Result {
        write_list(f, &self.iter())
    }
}

impl fmt::Debug for MutableBitmap {
    ghost debug_output = { marks_text };

    fn fmt<W: fmt::Write>(&self, f: &mut fmt::Formatter<W>) -> fmt::Result {
        write_list(f, &self.iter())
    }
}

impl fmt::Display for MutableBitmap {
    ghost output = { marks_text };

    fn fmt<W: fmt::Write>(&self, f: &mut fmt::Formatter<W>) -> fmt::Result {
        write_list(f, &self.iter())
    }
}
