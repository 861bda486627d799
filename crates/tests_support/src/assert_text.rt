//! Comparisons whose error says what was expected and what came, each as text: `[1 _ 2]` for slots, `1101` for marks. A
//! test names the case: `assert_text::slots(array.iter(), "[1 _ 2]").expect(&rt, "a null in the second")`. An iterator
//! is asked once more after its end, and has to give nothing again.
ghost use Rattle.std.specs.Iterator.{IsFinite};
ghost use Rattle.std.specs.Prelude.{None};

use arrow_memory::bitmap::{Bitmap, MutableBitmap};
use std::fmt;
use std::fmt::{Debug, Display, InlineText, Write};

/// A text of at most 400 bytes, without memory of its own. A longer one ends in dots.
pub type Text = InlineText<400>;

/// What a test expected, and what came.
#[derive(Clone, Copy)]
pub struct Mismatch {
    expected: Text,
    came: Text,
}

impl Debug for Mismatch {
    fn fmt<W: Write>(&self, f: &mut fmt::Formatter<W>) -> fmt::Result {
        write!(
            f,
            "expected {}, got {}",
            self.expected.as_str(),
            self.came.as_str()
        )
    }
}

/// Returns what both print as an error unless they are equal.
pub fn value<T: PartialEq + Debug + Drop>(came: T, expected: T) -> Result<(), Mismatch> {
    let is_same = came == expected;
    let texts = Mismatch {
        expected: Text::of(format_args!("{expected:?}")),
        came: Text::of(format_args!("{came:?}")),
    };
    drop(expected);
    drop(came);
    if is_same { Ok(()) } else { Err(texts) }
}

/// Returns both texts as an error unless they are equal.
pub fn text(came: Text, expected: &str) -> Result<(), Mismatch> {
    if came.as_str() == expected {
        return Ok(());
    }
    Err(Mismatch {
        expected: Text::of(expected),
        came,
    })
}

/// Compares what a value prints by `{:?}` with a text, plainly and under each option, which changes nothing.
pub fn debug<T: Debug>(value: &T, expected: &str) -> Result<(), Mismatch> {
    text(Text::of(format_args!("{value:?}")), expected)?;
    text(Text::of(format_args!("{value:#?}")), expected)?;
    text(Text::of(format_args!("{value:5?}")), expected)?;
    text(Text::of(format_args!("{value:+?}")), expected)
}

/// Compares what a value prints by `{}` with a text, plainly and under each option, which changes nothing.
pub fn display<T: Display>(value: &T, expected: &str) -> Result<(), Mismatch> {
    text(Text::of(format_args!("{value}")), expected)?;
    text(Text::of(format_args!("{value:#}")), expected)?;
    text(Text::of(format_args!("{value:5}")), expected)?;
    text(Text::of(format_args!("{value:+}")), expected)
}

/// Compares what an iterator gave with a text, and whether it gave more after its end.
fn ended(written: Text, gives_more: bool, expected: &str) -> Result<(), Mismatch> {
    if gives_more {
        return text(written.and(", and more after the end", 30), expected);
    }
    text(written, expected)
}

/// Compares marks with a text of `1` for a set and `0` for a clear one.
pub fn marks<I: Iterator<Item = bool>>(mut bits: I, expected: &str) -> Result<(), Mismatch>
    requires can { I.can_next bits }
    requires ends { IsFinite (I.remaining bits) }
    requires again { (s t : I) → I.next_gives s None t → I.can_next t }
{
    let mut written = Text::new();
    while let Some(mark) = bits.next() {
        written = written.and(if mark { "1" } else { "0" }, 1);
    }
    ended(written, bits.next().is_some(), expected)
}

/// Compares slots of booleans with a text of `t`, `f`, and `_` for a null.
pub fn bools<I: Iterator<Item = Option<bool>>>(mut items: I, expected: &str) -> Result<(), Mismatch>
    requires can { I.can_next items }
    requires ends { IsFinite (I.remaining items) }
    requires again { (s t : I) → I.next_gives s None t → I.can_next t }
{
    let mut written = Text::new();
    while let Some(slot) = items.next() {
        let letter = match slot {
            Some(true) => "t",
            Some(false) => "f",
            None => "_",
        };
        written = written.and(letter, 1);
    }
    ended(written, items.next().is_some(), expected)
}

/// Compares slots with a text of what each prints, and `_` for a null, as `[1 _ 2]`.
pub fn slots<T: Debug + Drop, I: Iterator<Item = Option<T>>>(
    mut items: I,
    expected: &str,
) -> Result<(), Mismatch>
    requires can { I.can_next items }
    requires ends { IsFinite (I.remaining items) }
    requires again { (s t : I) → I.next_gives s None t → I.can_next t }
{
    let (mut written, mut is_first) = (Text::new().and("[", 1), true);
    while let Some(slot) = items.next() {
        written = written.and(if is_first { "" } else { " " }, 1);
        written = match slot {
            Some(value) => written.and(format_args!("{value:?}"), 100),
            None => written.and("_", 1),
        };
        is_first = false;
    }
    ended(written.and("]", 1), items.next().is_some(), expected)
}

/// Compares items with a text of what each prints, as `["a" "b"]`. It takes iterators that say nothing of calls after
/// their end, as those over stored items, and does not ask them again.
pub fn items<T: Debug + Drop, I: Iterator<Item = T>>(
    items: I,
    expected: &str,
) -> Result<(), Mismatch>
    requires can { I.can_next items }
    requires ends { IsFinite (I.remaining items) }
{
    let (mut written, mut is_first) = (Text::new().and("[", 1), true);
    for item in items {
        written = written.and(if is_first { "" } else { " " }, 1);
        written = written.and(format_args!("{item:?}"), 100);
        is_first = false;
    }
    text(written.and("]", 1), expected)
}

/// Compares the mask of an array with a text, which is `none` if there is none.
pub fn mask(bitmap: Option<&Bitmap>, expected: &str) -> Result<(), Mismatch> {
    match bitmap {
        Some(bits) => marks(bits.iter(), expected),
        None => text(Text::of("none"), expected),
    }
}

/// Compares the mask of a builder with a text, which is `none` if there is none.
pub fn growing_mask(bitmap: Option<&MutableBitmap>, expected: &str) -> Result<(), Mismatch> {
    match bitmap {
        Some(bits) => marks(bits.iter(), expected),
        None => text(Text::of("none"), expected),
    }
}
