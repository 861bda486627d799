//! Physical types: how the values of an array lie in memory. By this alone a data type is right for an array.
use crate::primitive_type::PrimitiveType;

/// A physical type: how the values of an array lie in memory.
#[derive(Clone, Copy, Debug, PartialEq, Eq)]
pub enum PhysicalType {
    /// One bit for each slot (Arrow columnar format, "Fixed-size primitive layout").
    Boolean,
    /// One native value for each slot (Arrow columnar format, "Fixed-size primitive layout").
    Primitive(PrimitiveType),
    /// Bytes between offsets of 32 bits (Arrow columnar format, "Variable-size Binary Layout").
    Binary,
    /// Bytes between offsets of 64 bits.
    LargeBinary,
    /// Text between offsets of 32 bits.
    Utf8,
    /// Text between offsets of 64 bits.
    LargeUtf8,
}
