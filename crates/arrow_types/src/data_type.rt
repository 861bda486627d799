//! Data types: what the values of an array mean. Contracts see one as its `logical_type`, in which no address of a text
//! stands.
use crate::physical_type::PhysicalType;
use crate::primitive_type::PrimitiveType;
use crate::units::{IntervalUnit, TimeUnit};

/// A logical type of the Arrow columnar format: what the values of an array mean.
#[derive(Drop)]
pub enum DataType {
    /// True or false.
    Boolean,
    /// Signed integers of 8 bits.
    Int8,
    /// Signed integers of 16 bits.
    Int16,
    /// Signed integers of 32 bits.
    Int32,
    /// Signed integers of 64 bits.
    Int64,
    /// Unsigned integers of 8 bits.
    UInt8,
    /// Unsigned integers of 16 bits.
    UInt16,
    /// Unsigned integers of 32 bits.
    UInt32,
    /// Unsigned integers of 64 bits.
    UInt64,
    /// Days since the epoch, in 32 bits.
    Date32,
    /// Milliseconds since the epoch, in 64 bits.
    Date64,
    /// Times of a day, in 32 bits.
    Time32(TimeUnit),
    /// Times of a day, in 64 bits.
    Time64(TimeUnit),
    /// Times since the epoch, in a time zone if one is named.
    Timestamp(TimeUnit, Option<String>),
    /// Lengths of time.
    Duration(TimeUnit),
    /// Calendar intervals.
    Interval(IntervalUnit),
    /// Decimal numbers of 128 bits: the number of digits, and how many of them stand after the
    /// point.
    Decimal(usize, usize),
    /// Decimal numbers of 256 bits: the number of digits, and how many of them stand after the
    /// point.
    Decimal256(usize, usize),
    /// Bytes, with offsets of 32 bits.
    Binary,
    /// Bytes, with offsets of 64 bits.
    LargeBinary,
    /// Text, with offsets of 32 bits.
    Utf8,
    /// Text, with offsets of 64 bits.
    LargeUtf8,
    /// An extension type: its name, its storage type, and its metadata.
    Extension(String, Box<DataType>, Option<String>),
}

impl DataType {
    ghost use Rattle.std.specs.Prelude.{◌≡◌, IsTrue, ◌↔◌};
    ghost use Rattle.arrow_types.specs.Types.{is_extension, logical_type, physical_type, IsRightType};

    /// Returns whether this type's physical type is `physical`.
    pub fn is_right_for(&self, physical: PhysicalType) -> bool
        ensures { IsTrue result ↔ IsRightType physical (logical_type self.now) }
    {
        self.to_physical_type() == physical
    }

    /// Returns whether this type is an extension around another.
    pub fn is_extension(&self) -> bool
        ensures { result ≡ is_extension (logical_type self.now) }
    {
        matches!(self, DataType::Extension(_, _, _))
    }

    /// Returns the physical type: how the values of this type lie in memory. An extension's is that
    /// of its storage type.
    pub fn to_physical_type(&self) -> PhysicalType
        ensures { result ≡ physical_type (logical_type self.now) }
    {
        match self {
            DataType::Boolean => PhysicalType::Boolean,
            DataType::Int8 => PhysicalType::Primitive(PrimitiveType::Int8),
            DataType::Int16 => PhysicalType::Primitive(PrimitiveType::Int16),
            DataType::Int32
            | DataType::Date32
            | DataType::Time32(_)
            | DataType::Interval(IntervalUnit::YearMonth) => {
                PhysicalType::Primitive(PrimitiveType::Int32)
            }
            DataType::Int64
            | DataType::Date64
            | DataType::Time64(_)
            | DataType::Timestamp(_, _)
            | DataType::Duration(_) => PhysicalType::Primitive(PrimitiveType::Int64),
            DataType::UInt8 => PhysicalType::Primitive(PrimitiveType::UInt8),
            DataType::UInt16 => PhysicalType::Primitive(PrimitiveType::UInt16),
            DataType::UInt32 => PhysicalType::Primitive(PrimitiveType::UInt32),
            DataType::UInt64 => PhysicalType::Primitive(PrimitiveType::UInt64),
            DataType::Interval(IntervalUnit::DayTime) => {
                PhysicalType::Primitive(PrimitiveType::DaysMs)
            }
            DataType::Interval(IntervalUnit::MonthDayNano) => {
                PhysicalType::Primitive(PrimitiveType::MonthDayNano)
            }
            DataType::Decimal(_, _) => PhysicalType::Primitive(PrimitiveType::Int128),
            DataType::Decimal256(_, _) => PhysicalType::Primitive(PrimitiveType::Int256),
            DataType::Binary => PhysicalType::Binary,
            DataType::LargeBinary => PhysicalType::LargeBinary,
            DataType::Utf8 => PhysicalType::Utf8,
            DataType::LargeUtf8 => PhysicalType::LargeUtf8,
            DataType::Extension(_, inner, _) => inner.to_physical_type(),
        }
    }
}

mod clone;
mod display;
mod equality;
