//! What arrays and builders store, as text: `7 (0) 9` for a null that stores 0 between two valid slots, and `<a> (<>)`
//! for items of bytes. A mask without a null is named, since no call makes one before the first null.
ghost use Rattle.std.specs.Iterator.{IsFinite};

use arrow_memory::bitmap::{Bitmap, BitmapIter, MutableBitmap};
use arrow_types::offset::Offset;
use std::fmt::Display;
use tests_support::Text;

/// Writes marks as `1` for a set and `0` for a clear one.
pub(crate) fn marks(bits: BitmapIter<'_>) -> Text {
    let mut written = Text::new();
    for mark in bits {
        written = written.and(if mark { "1" } else { "0" }, 1);
    }
    written
}

/// Writes the mask of an array, `none` if there is none.
pub(crate) fn mask(bitmap: Option<&Bitmap>) -> Text {
    match bitmap {
        Some(bits) => marks(bits.iter()),
        None => Text::of("none"),
    }
}

/// Writes the mask of a builder, `none` if there is none.
pub(crate) fn growing_mask(bitmap: Option<&MutableBitmap>) -> Text {
    match bitmap {
        Some(bits) => marks(bits.iter()),
        None => Text::of("none"),
    }
}

/// Appends a slot, that of a null in parentheses.
fn with_slot<D: Display + Drop>(written: Text, mark: Option<&u8>, value: D) -> Text {
    let gap = if written.as_str().len() == 0 { "" } else { " " };
    if mark == Some(&b'0') {
        written.and(format_args!("{gap}({value})"), 100)
    } else {
        written.and(format_args!("{gap}{value}"), 100)
    }
}

/// Appends a mask without a null.
fn with_mask(written: Text, mask: Text) -> Text {
    if mask.as_str() == "none" || mask.as_str().as_bytes().contains(&b'0') {
        return written;
    }
    written.and(format_args!(" under {}", mask.as_str()), 100)
}

/// Writes stored values under a mask.
pub(crate) fn values<T: Display + Drop, I: Iterator<Item = T>>(values: I, mask: Text) -> Text
    requires can { I.can_next values }
    requires ends { IsFinite (I.remaining values) }
{
    let (mut written, mut marks) = (Text::new(), mask.as_str().as_bytes().iter());
    for value in values {
        written = with_slot(written, marks.next(), value);
    }
    with_mask(written, mask)
}

/// Writes the items between offsets under a mask, and names other bytes.
pub(crate) fn items<O: Offset>(offsets: &[O], bytes: &[u8], mask: Text) -> Text {
    let (mut written, mut marks) = (Text::new(), mask.as_str().as_bytes().iter());
    let (mut offsets, mut start) = (offsets.iter(), 0);
    if offsets.next().and_then(|first| first.try_to_usize()) != Some(0) {
        written = written.and("bytes before", 20);
    }
    for offset in offsets {
        let end = offset.try_to_usize().unwrap_or(0);
        let item = bytes.get(start..end).unwrap_or(b"no such bytes");
        let item = str::from_utf8(item).unwrap_or("not text");
        written = with_slot(written, marks.next(), format_args!("<{item}>"));
        start = end;
    }
    if start != bytes.len() {
        written = written.and(" bytes behind", 20);
    }
    with_mask(written, mask)
}
