//! The kind of bytes, of which any bytes are an item. Another kind is a file like this one.
ghost use Rattle.std.specs.Prelude.{◌≡◌};

use crate::{BorrowItem, ByteItem, ByteKind, ItemError};
use arrow_check::cost::TextCost;
use arrow_types::data_type::DataType;
use arrow_types::error::Error;
use arrow_types::offset::Offset;
use arrow_types::physical_type::PhysicalType;
use std::alloc::Global;

/// The kind of bytes. Any list of bytes is an item.
#[derive(Copy, Clone)]
pub struct Binary;

/// The text of the error about an array's data type.
const WRONG_TYPE: &str =
    "BinaryArray can only be initialized with DataType::Binary or DataType::LargeBinary";

/// The text of the error about a builder's data type.
const WRONG_BUILDER_TYPE: &str =
    "MutableBinaryValuesArray can only be initialized with DataType::Binary or DataType::LargeBinary";

impl ByteKind for Binary {
    ghost use Rattle.std.specs.Prelude.{false};
    ghost use Rattle.arrow_bytes.specs.Kinds.{binary_layout, binary_type, wrong_binary_builder_type, wrong_binary_type};

    type Owned = Vec<u8>;

    ghost is_text = { false };

    ghost owned = { λ item. item.items };

    ghost layout = { binary_layout };

    ghost default_type = { binary_type };

    ghost wrong_type = { wrong_binary_type };

    ghost wrong_builder_type = { wrong_binary_builder_type };

    fn layout(is_large: bool) -> PhysicalType {
        if is_large {
            PhysicalType::LargeBinary
        } else {
            PhysicalType::Binary
        }
    }

    fn default_type(is_large: bool) -> DataType {
        if is_large {
            DataType::LargeBinary
        } else {
            DataType::Binary
        }
    }

    fn wrong_type() -> Error {
        Error::OutOfSpec(WRONG_TYPE)
    }

    fn wrong_builder_type() -> Error {
        Error::OutOfSpec(WRONG_BUILDER_TYPE)
    }

    #[inline(always)]
    fn check_items<O: Offset>(
        _offsets: &[O],
        _bytes: &[u8],
        _cost: &mut TextCost,
    ) -> Result<(), Error> {
        Ok(())
    }

    #[inline(always)]
    fn copy_item(alloc: Global, bytes: &[u8]) -> Result<Vec<u8>, Error> {
        Ok(Vec::from_slice(alloc, bytes)?)
    }
}

impl<'a> ByteItem<Binary> for &'a [u8] {
    ghost bytes = { λ item. item.now };

    #[inline(always)]
    fn bytes(&self) -> &[u8] {
        self
    }
}

impl<'a> BorrowItem<'a> for Binary {
    type Borrowed = &'a [u8];

    #[inline(always)]
    fn borrow_item(bytes: &'a [u8]) -> &'a [u8] {
        bytes
    }
}

impl<'a> ItemError for &'a [u8] {
    type Error = Error;

    ghost error = { λ e. e };

    #[inline(always)]
    fn from_error(refused: Error) -> Error
        ensures { result ≡ refused }
    {
        refused
    }
}
