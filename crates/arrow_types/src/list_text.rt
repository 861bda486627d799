//! The text of lists whose items are written one by one, such as the slots of an array.
ghost use Rattle.std.specs.Prelude.{ℕ, ◌≡◌, ◌<◌, List, Option, length};
ghost use Rattle.std.specs.Fmt.{DisplaysOnOk, WritesOnOk};
ghost use Rattle.arrow_types.specs.ListText.{list_text, separator, slot_at};

use std::fmt;

/// A list whose items can be written one by one, without allocating.
pub trait WriteItems {
    /// The text of each item in order, or `None` where it is left open.
    ghost texts: { Self → List (Option (List ℕ)) };

    /// Returns the number of items.
    fn item_count(&self) -> usize
        ensures { result ≡ length (texts self.now) };

    /// Writes the item at `i`.
    ///
    /// # Errors
    /// `Error` if the formatter fails.
    fn write_item<W: fmt::Write>(&self, f: &mut fmt::Formatter<W>, i: usize) -> fmt::Result
        requires { i < length (texts self.now) }
        ensures { DisplaysOnOk W.write_str_gives f.old result (slot_at (texts self.now) i) f.new };
}

/// Writes the items in brackets with a comma between two, as in `[1, None, 3]`.
///
/// # Errors
/// `Error` if the formatter fails.
pub fn write_list<L: WriteItems, W: fmt::Write>(f: &mut fmt::Formatter<W>, items: &L) -> fmt::Result
    ensures { DisplaysOnOk W.write_str_gives f.old result (list_text (L.texts items.now)) f.new }
{
    f.write_str("[")?;
    for i in 0..items.item_count() {
        write_separator(f, i)?;
        items.write_item(f, i)?;
    }
    f.write_str("]")
}

/// Writes what stands before the item at `i`: a comma, unless it is the first.
fn write_separator<W: fmt::Write>(f: &mut fmt::Formatter<W>, i: usize) -> fmt::Result
    ensures { WritesOnOk W.write_str_gives f.old result (separator i) f.new }
{
    if i > 0 { f.write_str(", ") } else { Ok(()) }
}
