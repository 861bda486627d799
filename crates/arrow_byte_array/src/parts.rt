//! Arrays and builders made of parts from outside, which are checked.
ghost use Rattle.std.specs.Prelude.{◌≡◌, IfOk, IfErr};
ghost use Rattle.arrow_types.specs.Types.{refusal};
ghost use Rattle.arrow_column.specs.Validation.{IsFirstFailure, Passes, accept};
ghost use Rattle.arrow_bytes.specs.Pieces.{pieces_of};
ghost use Rattle.arrow_bytes.specs.Kinds.{BuilderCosts, Costs, TestsOnce};
ghost use Rattle.arrow_bytes.specs.Validation.{AcceptsArray, RefusesArray, AcceptsBuilder, RefusesBuilder};
ghost use Rattle.arrow_bytes.specs.Validation.{AcceptsValuesBuilder, RefusesValuesBuilder, AcceptsItems};
ghost use Rattle.arrow_bytes.specs.Validation.{values_tests};

use crate::{ByteArray, MutableByteArray, MutableByteValuesArray};
use arrow_bytes::{ByteKind, ByteValues, MutableByteValues};
use arrow_check::bounds::{check_bounds, check_last};
use arrow_check::cost::TextCost;
use arrow_column::{FrozenColumn, GrowingColumn, is_mask_of};
use arrow_memory::bitmap::{Bitmap, MutableBitmap};
use arrow_memory::buffer::Buffer;
use arrow_memory::offset::{Offsets, OffsetsBuffer};
use arrow_types::data_type::DataType;
use arrow_types::error::Error;
use arrow_types::offset::Offset;

/// The text of the error about an array's mask.
const UNFIT_MASK: &str = "validity mask length must match the number of values";

/// The text of the error about a builder's mask.
const UNFIT_BUILDER_MASK: &str = "validity's length must be equal to the number of values";

/// Returns the stored values of an array's parts, each of which must be an item of the kind. Adds
/// the cost of the test to the counts.
fn array_values<K: ByteKind, O: Offset>(
    offsets: OffsetsBuffer<O>,
    values: Buffer<u8>,
    cost: &mut TextCost,
) -> Result<ByteValues<K, O>, Error>
    ensures ok { IfOk result (λ stored.
        Passes (values_tests K.is_text offsets values accept)
        × (stored ≡ pieces_of offsets values)) }
    ensures err { IfErr result (λ e.
        IsFirstFailure (values_tests K.is_text offsets values accept) (refusal e)) }
    ensures counted { TestsOnce offsets values cost.old cost.new }
    ensures exact { Costs K.is_text offsets values cost.old cost.new }
{
    check_bounds(offsets.buffer().as_slice(), values.len())?;
    K::check_items(offsets.buffer().as_slice(), values.as_slice(), cost)?;
    Ok(ByteValues::new(offsets, values))
}

impl<K: ByteKind, O: Offset> ByteArray<K, O> {
    /// Creates an array from its parts. Bytes before the first offset and after the last are
    /// allowed and are not validated.
    ///
    /// # Errors
    /// `OutOfSpec` with the first of these that fails: the last offset is at most the number of
    /// values; every slot is an item of the kind (text is UTF-8 by itself); a mask has a mark for
    /// each slot; the data type has the array's physical type.
    pub fn try_new(
        data_type: DataType,
        offsets: OffsetsBuffer<O>,
        values: Buffer<u8>,
        validity: Option<Bitmap>,
    ) -> Result<Self, Error>
        ensures ok { AcceptsArray K.is_text (K.layout O.IS_LARGE) K.wrong_type data_type offsets values validity
            result }
        ensures err { RefusesArray K.is_text (K.layout O.IS_LARGE) K.wrong_type data_type offsets values validity
            result }
    {
        let mut cost = TextCost::new();
        ByteArray::try_new_counted(data_type, offsets, values, validity, &mut cost)
    }

    /// Creates an array from its parts, as `try_new`, and adds the cost of the test of text to the
    /// counts: for all slots together one test for ASCII, one for UTF-8 if they are not ASCII, and
    /// at most one look for each offset between two slots.
    ///
    /// # Errors
    /// As `try_new`; the counts may have risen.
    pub fn try_new_counted(
        data_type: DataType,
        offsets: OffsetsBuffer<O>,
        values: Buffer<u8>,
        validity: Option<Bitmap>,
        cost: &mut TextCost,
    ) -> Result<Self, Error>
        ensures ok { AcceptsArray K.is_text (K.layout O.IS_LARGE) K.wrong_type data_type offsets values validity
            result }
        ensures err { RefusesArray K.is_text (K.layout O.IS_LARGE) K.wrong_type data_type offsets values validity
            result }
        ensures counted { TestsOnce offsets values cost.old cost.new }
        ensures exact { Costs K.is_text offsets values cost.old cost.new }
    {
        let values = array_values::<K, O>(offsets, values, cost)?;
        if !is_mask_of(&validity, values.len()) {
            return Err(Error::OutOfSpec(UNFIT_MASK));
        }
        if !data_type.is_right_for(K::layout(O::IS_LARGE)) {
            return Err(K::wrong_type());
        }
        Ok(ByteArray {
            column: FrozenColumn::new(data_type, values, validity),
        })
    }
}

/// Returns the stored values of a builder's parts, each of which must be an item of the kind, under
/// a data type of the builder's physical type. Adds the cost of the test to the counts.
fn builder_values<K: ByteKind, O: Offset>(
    data_type: &DataType,
    offsets: Offsets<O>,
    values: Vec<u8>,
    cost: &mut TextCost,
) -> Result<MutableByteValues<K, O>, Error>
    ensures ok { AcceptsItems K.is_text (K.layout O.IS_LARGE) K.wrong_builder_type data_type.now offsets values.items
        result }
    ensures err { RefusesValuesBuilder K.is_text (K.layout O.IS_LARGE) K.wrong_builder_type data_type.now offsets
        values.items result }
    ensures counted { TestsOnce offsets values.items cost.old cost.new }
    ensures exact { BuilderCosts K.is_text offsets values.items cost.old cost.new }
{
    check_last(offsets.as_slice(), values.len())?;
    K::check_items(offsets.as_slice(), values.as_slice(), cost)?;
    if !data_type.is_right_for(K::layout(O::IS_LARGE)) {
        return Err(K::wrong_builder_type());
    }
    Ok(MutableByteValues::new(offsets, values))
}

impl<K: ByteKind, O: Offset> MutableByteArray<K, O> {
    /// Creates a builder from its parts. Bytes before the first offset are allowed and are not
    /// validated.
    ///
    /// # Errors
    /// `OutOfSpec` with the first of these that fails: the last offset is the number of values;
    /// every slot is an item of the kind (text is UTF-8 by itself); the data type has the builder's
    /// physical type; a mask has a mark for each slot.
    pub fn try_new(
        data_type: DataType,
        offsets: Offsets<O>,
        values: Vec<u8>,
        validity: Option<MutableBitmap>,
    ) -> Result<Self, Error>
        ensures ok { AcceptsBuilder K.is_text (K.layout O.IS_LARGE) K.wrong_builder_type data_type offsets values.items
            validity result }
        ensures err { RefusesBuilder K.is_text (K.layout O.IS_LARGE) K.wrong_builder_type data_type offsets values.items
            validity result }
    {
        let mut cost = TextCost::new();
        MutableByteArray::try_new_counted(data_type, offsets, values, validity, &mut cost)
    }

    /// Creates a builder from its parts, as `try_new`, and adds the cost of the test of text to the
    /// counts: for all slots together one test for ASCII, one for UTF-8 if they are not ASCII, and
    /// at most one look for each offset between two slots.
    ///
    /// # Errors
    /// As `try_new`; the counts may have risen.
    pub fn try_new_counted(
        data_type: DataType,
        offsets: Offsets<O>,
        values: Vec<u8>,
        validity: Option<MutableBitmap>,
        cost: &mut TextCost,
    ) -> Result<Self, Error>
        ensures ok { AcceptsBuilder K.is_text (K.layout O.IS_LARGE) K.wrong_builder_type data_type offsets values.items
            validity result }
        ensures err { RefusesBuilder K.is_text (K.layout O.IS_LARGE) K.wrong_builder_type data_type offsets values.items
            validity result }
        ensures counted { TestsOnce offsets values.items cost.old cost.new }
        ensures exact { BuilderCosts K.is_text offsets values.items cost.old cost.new }
    {
        let values = builder_values::<K, O>(&data_type, offsets, values, cost)?;
        if !is_mask_of(&validity, values.len()) {
            return Err(Error::OutOfSpec(UNFIT_BUILDER_MASK));
        }
        Ok(MutableByteArray {
            column: GrowingColumn::new(data_type, values, validity),
        })
    }
}

impl<K: ByteKind, O: Offset> MutableByteValuesArray<K, O> {
    /// Creates a builder from its parts. Bytes before the first offset are allowed and are not
    /// validated.
    ///
    /// # Errors
    /// `OutOfSpec` with the first of these that fails: the last offset is the number of values;
    /// every item is one of the kind (text is UTF-8 by itself); the data type has the builder's
    /// physical type.
    pub fn try_new(data_type: DataType, offsets: Offsets<O>, values: Vec<u8>) -> Result<Self, Error>
        ensures ok { AcceptsValuesBuilder K.is_text (K.layout O.IS_LARGE) K.wrong_builder_type data_type offsets
            values.items result }
        ensures err { RefusesValuesBuilder K.is_text (K.layout O.IS_LARGE) K.wrong_builder_type data_type offsets
            values.items result }
    {
        let mut cost = TextCost::new();
        MutableByteValuesArray::try_new_counted(data_type, offsets, values, &mut cost)
    }

    /// Creates a builder from its parts, as `try_new`, and adds the cost of the test of text to the
    /// counts: for all items together one test for ASCII, one for UTF-8 if they are not ASCII, and
    /// at most one look for each offset between two items.
    ///
    /// # Errors
    /// As `try_new`; the counts may have risen.
    pub fn try_new_counted(
        data_type: DataType,
        offsets: Offsets<O>,
        values: Vec<u8>,
        cost: &mut TextCost,
    ) -> Result<Self, Error>
        ensures ok { AcceptsValuesBuilder K.is_text (K.layout O.IS_LARGE) K.wrong_builder_type data_type offsets
            values.items result }
        ensures err { RefusesValuesBuilder K.is_text (K.layout O.IS_LARGE) K.wrong_builder_type data_type offsets
            values.items result }
        ensures counted { TestsOnce offsets values.items cost.old cost.new }
        ensures exact { BuilderCosts K.is_text offsets values.items cost.old cost.new }
    {
        let values = builder_values::<K, O>(&data_type, offsets, values, cost)?;
        Ok(MutableByteValuesArray {
            column: GrowingColumn::new(data_type, values, None),
        })
    }
}
