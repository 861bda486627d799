//! The text of items, which arrays and builders print: bytes as numbers, text in quotes.
ghost use Rattle.std.specs.Prelude.{◌≡◌, ℕ, Bool, List, Option};
ghost use Rattle.std.specs.Fmt.{DisplaysOnOk};
ghost use Rattle.arrow_bytes.specs.Kinds.{IsItem};

use crate::{Binary, BorrowItem, ByteKind, ByteValues, Utf8};
use arrow_column::WriteValues;
use arrow_types::offset::Offset;
use arrow_types::quoted::write_quoted;
use std::fmt;

/// A kind of items that can be printed, with the names of its array and builders.
pub trait WriteKind: ByteKind {
    /// The text of an item.
    ghost item_text: { List ℕ → Option (List ℕ) };

    /// The name of arrays, for large offsets or others.
    ghost array_name: { Bool → List ℕ };

    /// The name of builders with nulls.
    ghost builder_name: { List ℕ };

    /// The name of builders without nulls.
    ghost values_builder_name: { List ℕ };

    /// Writes an item.
    ///
    /// # Errors
    /// `Error` if the formatter fails.
    fn write_item<W: fmt::Write>(f: &mut fmt::Formatter<W>, bytes: &[u8]) -> fmt::Result
        requires { IsItem Self.is_text bytes.now }
        ensures { DisplaysOnOk W.write_str_gives f.old result (item_text bytes.now) f.new };

    /// Returns the name of arrays, for large offsets or others.
    fn array_name(is_large: bool) -> &'static str
        ensures { result.now ≡ array_name is_large };

    /// Returns the name of builders with nulls.
    fn builder_name() -> &'static str
        ensures { result.now ≡ builder_name };

    /// Returns the name of builders without nulls.
    fn values_builder_name() -> &'static str
        ensures { result.now ≡ values_builder_name };
}

impl WriteKind for Binary {
    ghost use Rattle.std.specs.Prelude.{codes, if◌then◌else◌};
    ghost use Rattle.arrow_bytes.specs.ItemText.{bytes_text};

    ghost item_text = { bytes_text };

    ghost array_name = { λ is_large. if is_large then codes "LargeBinaryArray" else codes "BinaryArray" };

    ghost builder_name = { codes "MutableBinaryArray" };

    ghost values_builder_name = { codes "MutableBinaryValuesArray" };

    /// Writes the bytes as numbers, as in `[1, 255]`.
    fn write_item<W: fmt::Write>(f: &mut fmt::Formatter<W>, bytes: &[u8]) -> fmt::Result {
        write!(f, "{bytes:?}")
    }

    fn array_name(is_large: bool) -> &'static str {
        if is_large {
            "LargeBinaryArray"
        } else {
            "BinaryArray"
        }
    }

    fn builder_name() -> &'static str {
        "MutableBinaryArray"
    }

    fn values_builder_name() -> &'static str {
        "MutableBinaryValuesArray"
    }
}

impl WriteKind for Utf8 {
    ghost use Rattle.std.specs.Prelude.{Some, codes, if◌then◌else◌};
    ghost use Rattle.arrow_types.specs.QuotedText.{quoted_text};

    ghost item_text = { λ text. Some (quoted_text text) };

    ghost array_name = { λ is_large. if is_large then codes "LargeUtf8Array" else codes "Utf8Array" };

    ghost builder_name = { codes "MutableUtf8Array" };

    ghost values_builder_name = { codes "MutableUtf8ValuesArray" };

    /// Writes the text in quotes, as in `"ab"`, with escapes for quotes, backslashes and control characters of ASCII.
    /// Every other character is written as it is.
    fn write_item<W: fmt::Write>(f: &mut fmt::Formatter<W>, bytes: &[u8]) -> fmt::Result {
        write_quoted(f, Utf8::borrow_item(bytes))
    }

    fn array_name(is_large: bool) -> &'static str {
        if is_large {
            "LargeUtf8Array"
        } else {
            "Utf8Array"
        }
    }

    fn builder_name() -> &'static str {
        "MutableUtf8Array"
    }

    fn values_builder_name() -> &'static str {
        "MutableUtf8ValuesArray"
    }
}

impl<K: WriteKind, O: Offset> WriteValues for ByteValues<K, O> {
    ghost text = { K.item_text };

    fn write_value<W: fmt::Write>(&self, f: &mut fmt::Formatter<W>, i: usize) -> fmt::Result {
        K::write_item(f, self.value(i))
    }
}
