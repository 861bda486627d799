//! The kind of text, whose items are UTF-8 by themselves. Here is the one `unsafe` block, in which bytes become a
//! `&str` by that.
ghost use Rattle.std.specs.Prelude.{◌≡◌};
ghost use Rattle.arrow_check.specs.Utf8.{IsWellFormed};

use crate::{BorrowItem, ByteItem, ByteKind, ItemError};
use arrow_check::cost::{TextBytes, TextCost};
use arrow_check::laws::well_formed_is_utf8;
use arrow_check::text::check_utf8;
use arrow_types::data_type::DataType;
use arrow_types::error::Error;
use arrow_types::offset::Offset;
use arrow_types::physical_type::PhysicalType;
use std::alloc::Global;

/// The kind of text. A list of bytes is an item if it is UTF-8.
#[derive(Copy, Clone)]
pub struct Utf8;

/// The text of the error about an array's data type.
const WRONG_TYPE: &str =
    "Utf8Array can only be initialized with DataType::Utf8 or DataType::LargeUtf8";

/// The text of the error about a builder's data type.
const WRONG_BUILDER_TYPE: &str =
    "MutableUtf8ValuesArray can only be initialized with DataType::Utf8 or DataType::LargeUtf8";

impl ByteKind for Utf8 {
    ghost use Rattle.std.specs.Prelude.{true, string_bytes};
    ghost use Rattle.arrow_bytes.specs.Kinds.{text_layout, text_type, wrong_text_builder_type, wrong_text_type};

    type Owned = String;

    ghost is_text = { true };

    ghost owned = { string_bytes };

    ghost layout = { text_layout };

    ghost default_type = { text_type };

    ghost wrong_type = { wrong_text_type };

    ghost wrong_builder_type = { wrong_text_builder_type };

    fn layout(is_large: bool) -> PhysicalType {
        if is_large {
            PhysicalType::LargeUtf8
        } else {
            PhysicalType::Utf8
        }
    }

    fn default_type(is_large: bool) -> DataType {
        if is_large {
            DataType::LargeUtf8
        } else {
            DataType::Utf8
        }
    }

    fn wrong_type() -> Error {
        Error::OutOfSpec(WRONG_TYPE)
    }

    fn wrong_builder_type() -> Error {
        Error::OutOfSpec(WRONG_BUILDER_TYPE)
    }

    fn check_items<O: Offset>(
        offsets: &[O],
        bytes: &[u8],
        cost: &mut TextCost,
    ) -> Result<(), Error> {
        let mut text = TextBytes::new(bytes, *cost);
        let tested = check_utf8(offsets, &mut text);
        *cost = text.cost();
        tested
    }

    fn copy_item(alloc: Global, bytes: &[u8]) -> Result<String, Error> {
        Ok(String::from_str(alloc, text_of(bytes))?)
    }
}

impl<'a> ByteItem<Utf8> for &'a str {
    ghost bytes = { λ item. item.now };

    #[inline(always)]
    fn bytes(&self) -> &[u8] {
        // Text for std is text by Unicode's table, too.
        well_formed_is_utf8();
        self.as_bytes()
    }
}

impl<'a> BorrowItem<'a> for Utf8 {
    type Borrowed = &'a str;

    #[inline(always)]
    fn borrow_item(bytes: &'a [u8]) -> &'a str {
        text_of(bytes)
    }
}

impl<'a> ItemError for &'a str {
    type Error = Error;

    ghost error = { λ e. e };

    #[inline(always)]
    fn from_error(refused: Error) -> Error
        ensures { result ≡ refused }
    {
        refused
    }
}

/// Returns bytes that are text as a `&str`, without a test.
#[inline(always)]
fn text_of(bytes: &[u8]) -> &str
    requires { IsWellFormed bytes.now }
    ensures { result.now ≡ bytes.now }
{
    // Text by Unicode's table is text for std, too. So no byte is looked at: the unchecked call asks for that proof.
    well_formed_is_utf8();
    unsafe { std::str::from_utf8_unchecked(bytes) }
}
