//! The text of data types: Arrow's names with their parts, the same by `{}`, by `{:?}` and under every option.
ghost use Rattle.std.specs.Prelude.{Some};
ghost use Rattle.arrow_types.specs.TypeText.{type_text};
ghost use Rattle.arrow_types.specs.Types.{logical_type};

use super::DataType;
use crate::quoted::{QuotedOption, QuotedText};
use std::fmt;

impl fmt::Display for DataType {
    ghost output = { λ t. Some (type_text (logical_type t)) };

    /// Writes the type as its variant, as in `Timestamp(Microsecond, Some("UTC"))`.
    fn fmt<W: fmt::Write>(&self, f: &mut fmt::Formatter<W>) -> fmt::Result {
        match self {
            DataType::Boolean => f.write_str("Boolean"),
            DataType::Int8 => f.write_str("Int8"),
            DataType::Int16 => f.write_str("Int16"),
            DataType::Int32 => f.write_str("Int32"),
            DataType::Int64 => f.write_str("Int64"),
            DataType::UInt8 => f.write_str("UInt8"),
            DataType::UInt16 => f.write_str("UInt16"),
            DataType::UInt32 => f.write_str("UInt32"),
            DataType::UInt64 => f.write_str("UInt64"),
            DataType::Date32 => f.write_str("Date32"),
            DataType::Date64 => f.write_str("Date64"),
            DataType::Time32(unit) => write!(f, "Time32({unit})"),
            DataType::Time64(unit) => write!(f, "Time64({unit})"),
            DataType::Timestamp(unit, zone) => {
                write!(f, "Timestamp({unit}, {})", QuotedOption(zone))
            }
            DataType::Duration(unit) => write!(f, "Duration({unit})"),
            DataType::Interval(unit) => write!(f, "Interval({unit})"),
            DataType::Decimal(precision, scale) => write!(f, "Decimal({precision}, {scale})"),
            DataType::Decimal256(precision, scale) => write!(f, "Decimal256({precision}, {scale})"),
            DataType::Binary => f.write_str("Binary"),
            DataType::LargeBinary => f.write_str("LargeBinary"),
            DataType::Utf8 => f.write_str("Utf8"),
            DataType::LargeUtf8 => f.write_str("LargeUtf8"),
            DataType::Extension(name, inner, metadata) => {
                let (name, metadata) = (QuotedText(name), QuotedOption(metadata));
                write!(f, "Extension({name}, {inner}, {metadata})")
            }
        }
    }
}

impl fmt::Debug for DataType {
    ghost debug_output = { λ t. Some (type_text (logical_type t)) };

    /// Writes the type as `{}` does.
    fn fmt<W: fmt::Write>(&self, f: &mut fmt::Formatter<W>) -> fmt::Result {
        write!(f, "{self}")
    }
}
