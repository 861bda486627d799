//! Arrays and builders made of parts from outside, which are checked.
ghost use Rattle.arrow_types.specs.Types.{logical_type};
ghost use Rattle.arrow_column.specs.Validation.{AcceptsParts, RefusesParts};
ghost use Rattle.arrow_primitive.specs.Fits.{parts_tests};

use crate::{MutablePrimitiveArray, PrimitiveArray};
use arrow_column::{GrowingColumn, is_mask_of};
use arrow_memory::bitmap::{Bitmap, MutableBitmap};
use arrow_memory::buffer::Buffer;
use arrow_types::data_type::DataType;
use arrow_types::error::Error;
use arrow_types::native_type::NativeType;
use arrow_types::physical_type::PhysicalType;

/// The text of the error about a mask.
const UNFIT_MASK: &str = "validity mask length must match the number of values";

/// The text of the error about a data type.
const WRONG_TYPE: &str =
    "PrimitiveArray can only be initialized with a DataType whose physical type is Primitive";

impl<T: NativeType> PrimitiveArray<T> {
    /// Creates an array from its parts.
    ///
    /// # Errors
    /// `OutOfSpec` with the first of these that fails: a mask has a mark for each value; the data
    /// type has the array's physical type.
    pub fn try_new(
        data_type: DataType,
        values: Buffer<T>,
        validity: Option<Bitmap>,
    ) -> Result<Self, Error>
        ensures ok { AcceptsParts (parts_tests T.PRIMITIVE) (logical_type data_type) values validity result }
        ensures err { RefusesParts (parts_tests T.PRIMITIVE) (logical_type data_type) values validity result }
    {
        if !is_mask_of(&validity, values.len()) {
            return Err(Error::OutOfSpec(UNFIT_MASK));
        }
        if !data_type.is_right_for(PhysicalType::Primitive(T::PRIMITIVE)) {
            return Err(Error::OutOfSpec(WRONG_TYPE));
        }
        Ok(PrimitiveArray::new(data_type, values, validity))
    }

    /// Creates an array from its parts, as [`PrimitiveArray::try_new`].
    ///
    /// # Errors
    /// As `try_new`.
    pub fn from_inner(
        data_type: DataType,
        values: Buffer<T>,
        validity: Option<Bitmap>,
    ) -> Result<Self, Error>
        ensures ok { AcceptsParts (parts_tests T.PRIMITIVE) (logical_type data_type) values validity result }
        ensures err { RefusesParts (parts_tests T.PRIMITIVE) (logical_type data_type) values validity result }
    {
        PrimitiveArray::try_new(data_type, values, validity)
    }
}

impl<T: NativeType> MutablePrimitiveArray<T> {
    /// Creates a builder from its parts.
    ///
    /// # Errors
    /// `OutOfSpec` with the first of these that fails: a mask has a mark for each value; the data
    /// type has the builder's physical type.
    pub fn try_new(
        data_type: DataType,
        values: Vec<T>,
        validity: Option<MutableBitmap>,
    ) -> Result<Self, Error>
        ensures ok { AcceptsParts (parts_tests T.PRIMITIVE) (logical_type data_type) values.items validity result }
        ensures err { RefusesParts (parts_tests T.PRIMITIVE) (logical_type data_type) values.items validity result }
    {
        let slots = values.len();
        if !is_mask_of(&validity, slots) {
            return Err(Error::OutOfSpec(UNFIT_MASK));
        }
        if !data_type.is_right_for(PhysicalType::Primitive(T::PRIMITIVE)) {
            return Err(Error::OutOfSpec(WRONG_TYPE));
        }
        Ok(MutablePrimitiveArray {
            column: GrowingColumn::new(data_type, values, validity),
        })
    }
}
