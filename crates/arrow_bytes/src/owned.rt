//! Owned texts and bytes as items, by reference. An item is copied where it is appended, so the owner keeps it.
ghost use Rattle.std.specs.Prelude.{◌≡◌};

use crate::{Binary, ByteItem, ItemError, Utf8};
use arrow_check::laws::well_formed_is_utf8;
use arrow_types::error::Error;

impl<'a> ByteItem<Utf8> for &'a String {
    ghost use Rattle.std.specs.Prelude.{string_bytes};

    ghost bytes = { λ item. string_bytes item.now };

    #[inline(always)]
    fn bytes(&self) -> &[u8] {
        // Text for std is text by Unicode's table, too.
        well_formed_is_utf8();
        self.as_str().as_bytes()
    }
}

impl<'a> ItemError for &'a String {
    type Error = Error;

    ghost error = { λ e. e };

    #[inline(always)]
    fn from_error(refused: Error) -> Error
        ensures { result ≡ refused }
    {
        refused
    }
}

impl<'a> ByteItem<Binary> for &'a Vec<u8> {
    ghost bytes = { λ item. item.now.items };

    #[inline(always)]
    fn bytes(&self) -> &[u8] {
        self.as_slice()
    }
}

impl<'a> ItemError for &'a Vec<u8> {
    type Error = Error;

    ghost error = { λ e. e };

    #[inline(always)]
    fn from_error(refused: Error) -> Error
        ensures { result ≡ refused }
    {
        refused
    }
}
