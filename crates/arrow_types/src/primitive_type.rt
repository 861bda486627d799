//! Primitive types: the names of the native types, each with the data type that its arrays have by default.
use crate::data_type::DataType;
use crate::units::IntervalUnit;

/// The native type of the values of a primitive array.
#[derive(Clone, Copy, Debug, PartialEq, Eq)]
pub enum PrimitiveType {
    /// Signed integers of 8 bits.
    Int8,
    /// Signed integers of 16 bits.
    Int16,
    /// Signed integers of 32 bits.
    Int32,
    /// Signed integers of 64 bits.
    Int64,
    /// Signed integers of 128 bits.
    Int128,
    /// Signed integers of 256 bits.
    Int256,
    /// Unsigned integers of 8 bits.
    UInt8,
    /// Unsigned integers of 16 bits.
    UInt16,
    /// Unsigned integers of 32 bits.
    UInt32,
    /// Unsigned integers of 64 bits.
    UInt64,
    /// Days and milliseconds.
    DaysMs,
    /// Months, days and nanoseconds.
    MonthDayNano,
}

impl PrimitiveType {
    ghost use Rattle.std.specs.Prelude.{◌≡◌};
    ghost use Rattle.arrow_types.specs.declared.physical_type.PhysicalType.TheVariants as physical;
    ghost use Rattle.arrow_types.specs.Types.{logical_type, default_logical_type, IsRightType};

    /// Returns the data type that values of this type have unless another is given: the data type
    /// of the same name, or the decimal or interval type that is stored so.
    pub fn default_data_type(self) -> DataType
        ensures value { logical_type result ≡ default_logical_type self }
        ensures right { IsRightType (physical.Primitive self) (logical_type result) }
    {
        match self {
            PrimitiveType::Int8 => DataType::Int8,
            PrimitiveType::Int16 => DataType::Int16,
            PrimitiveType::Int32 => DataType::Int32,
            PrimitiveType::Int64 => DataType::Int64,
            PrimitiveType::Int128 => DataType::Decimal(32, 32),
            PrimitiveType::Int256 => DataType::Decimal256(32, 32),
            PrimitiveType::UInt8 => DataType::UInt8,
            PrimitiveType::UInt16 => DataType::UInt16,
            PrimitiveType::UInt32 => DataType::UInt32,
            PrimitiveType::UInt64 => DataType::UInt64,
            PrimitiveType::DaysMs => DataType::Interval(IntervalUnit::DayTime),
            PrimitiveType::MonthDayNano => DataType::Interval(IntervalUnit::MonthDayNano),
        }
    }
}
