//! Copies of data types, which allocate memory for their text and so return a `Result`.
ghost use Rattle.std.specs.Prelude.{◌≡◌, IfOk};
ghost use Rattle.arrow_types.specs.Types.{logical_type};

use super::DataType;
use std::alloc::AllocError;

impl Clone for DataType {
    ghost is_clone = { λ t u. logical_type u ≡ logical_type t };

    fn clone(&self) -> Result<DataType, AllocError> {
        copy(self)
    }
}

fn copy(data_type: &DataType) -> Result<DataType, AllocError>
    ensures { IfOk result (λ t. logical_type t ≡ logical_type data_type.now) }
{
    match data_type {
        DataType::Boolean => Ok(DataType::Boolean),
        DataType::Int8 => Ok(DataType::Int8),
        DataType::Int16 => Ok(DataType::Int16),
        DataType::Int32 => Ok(DataType::Int32),
        DataType::Int64 => Ok(DataType::Int64),
        DataType::UInt8 => Ok(DataType::UInt8),
        DataType::UInt16 => Ok(DataType::UInt16),
        DataType::UInt32 => Ok(DataType::UInt32),
        DataType::UInt64 => Ok(DataType::UInt64),
        DataType::Date32 => Ok(DataType::Date32),
        DataType::Date64 => Ok(DataType::Date64),
        DataType::Time32(unit) => Ok(DataType::Time32(*unit)),
        DataType::Time64(unit) => Ok(DataType::Time64(*unit)),
        DataType::Timestamp(unit, time_zone) => Ok(DataType::Timestamp(*unit, time_zone.clone()?)),
        DataType::Duration(unit) => Ok(DataType::Duration(*unit)),
        DataType::Interval(unit) => Ok(DataType::Interval(*unit)),
        DataType::Decimal(precision, scale) => Ok(DataType::Decimal(*precision, *scale)),
        DataType::Decimal256(precision, scale) => Ok(DataType::Decimal256(*precision, *scale)),
        DataType::Binary => Ok(DataType::Binary),
        DataType::LargeBinary => Ok(DataType::LargeBinary),
        DataType::Utf8 => Ok(DataType::Utf8),
        DataType::LargeUtf8 => Ok(DataType::LargeUtf8),
        DataType::Extension(name, inner, metadata) => {
            let alloc = *Box::allocator(inner);
            Ok(DataType::Extension(
                name.clone()?,
                Box::new(alloc, copy(inner)?)?,
                metadata.clone()?,
            ))
        }
    }
}
