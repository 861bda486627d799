//! Arrays and their builders, and the iterators over what they store.
pub use arrow_binary::{
    BinaryArray, BinaryValueIter, MutableBinaryArray, MutableBinaryValuesArray,
    MutableBinaryValuesIter,
};
pub use arrow_boolean::{BooleanArray, MutableBooleanArray};
pub use arrow_byte_array::{ByteArray, ByteItems, MutableByteArray, MutableByteValuesArray};
pub use arrow_bytes::{Binary, BorrowItem, ByteItem, ByteKind, ItemError, Utf8};
pub use arrow_check::accessor::ArrayAccessor;
pub use arrow_check::values_iter::ArrayValuesIter;
pub use arrow_column::{Array, LendValues};
pub use arrow_primitive::{
    DaysMsArray, DaysMsVec, Int8Array, Int8Vec, Int16Array, Int16Vec, Int32Array, Int32Vec,
    Int64Array, Int64Vec, Int128Array, Int128Vec, Int256Array, Int256Vec, MonthsDaysNsArray,
    MonthsDaysNsVec, MutablePrimitiveArray, PrimitiveArray, UInt8Array, UInt8Vec, UInt16Array,
    UInt16Vec, UInt32Array, UInt32Vec, UInt64Array, UInt64Vec,
};
pub use arrow_utf8::{
    MutableUtf8Array, MutableUtf8ValuesArray, MutableUtf8ValuesIter, Utf8Array, Utf8ValuesIter,
};

/// The tests of raw parts (offsets, keys, text), and calls that find the first fault of parts.
pub mod specification {
    pub use arrow_check::bounds::{check_bounds, check_last};
    pub use arrow_check::cost::{TextBytes, TextCost};
    pub use arrow_check::indexes::{check_indexes, check_slots};
    pub use arrow_check::judge::Judge;
    pub use arrow_check::places::{first_falling_offset, first_unfit_text};
    pub use arrow_check::text::{check_text, check_utf8};
}
