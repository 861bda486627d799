//! Arrays and builders made of parts from outside, which are checked.
ghost use Rattle.arrow_types.specs.Types.{logical_type};
ghost use Rattle.arrow_column.specs.Validation.{AcceptsParts, RefusesParts};
ghost use Rattle.arrow_boolean.specs.Fits.{boolean_array_tests, boolean_builder_tests};

use crate::{BooleanArray, MutableBooleanArray};
use arrow_column::{GrowingColumn, is_mask_of};
use arrow_memory::bitmap::{Bitmap, MutableBitmap};
use arrow_types::data_type::DataType;
use arrow_types::error::Error;
use arrow_types::physical_type::PhysicalType;

/// The text of the error about a mask.
const UNFIT_MASK: &str = "validity mask length must match the number of values";

/// The text of the error about an array's data type.
const WRONG_TYPE: &str =
    "BooleanArray can only be initialized with a DataType whose physical type is Boolean";

/// The text of the error about a builder's data type.
const WRONG_BUILDER_TYPE: &str =
    "MutableBooleanArray can only be initialized with a DataType whose physical type is Boolean";

impl BooleanArray {
    /// Creates an array from its parts.
    ///
    /// # Errors
    /// `OutOfSpec` with the first of these that fails: a mask has a mark for each value; the data
    /// type has the array's physical type.
    pub fn try_new(
        data_type: DataType,
        values: Bitmap,
        validity: Option<Bitmap>,
    ) -> Result<Self, Error>
        ensures ok { AcceptsParts boolean_array_tests (logical_type data_type) values validity result }
        ensures err { RefusesParts boolean_array_tests (logical_type data_type) values validity result }
    {
        if !is_mask_of(&validity, values.len()) {
            return Err(Error::OutOfSpec(UNFIT_MASK));
        }
        if !data_type.is_right_for(PhysicalType::Boolean) {
            return Err(Error::OutOfSpec(WRONG_TYPE));
        }
        Ok(BooleanArray::new(data_type, values, validity))
    }
}

impl MutableBooleanArray {
    /// Creates a builder from its parts.
    ///
    /// # Errors
    /// `OutOfSpec` with the first of these that fails: a mask has a mark for each value; the data
    /// type has the builder's physical type.
    pub fn try_new(
        data_type: DataType,
        values: MutableBitmap,
        validity: Option<MutableBitmap>,
    ) -> Result<Self, Error>
        ensures ok { AcceptsParts boolean_builder_tests (logical_type data_type) values validity result }
        ensures err { RefusesParts boolean_builder_tests (logical_type data_type) values validity result }
    {
        let slots = values.len();
        if !is_mask_of(&validity, slots) {
            return Err(Error::OutOfSpec(UNFIT_MASK));
        }
        if !data_type.is_right_for(PhysicalType::Boolean) {
            return Err(Error::OutOfSpec(WRONG_BUILDER_TYPE));
        }
        Ok(MutableBooleanArray {
            column: GrowingColumn::new(data_type, values, validity),
        })
    }
}
