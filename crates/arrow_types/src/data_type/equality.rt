//! Equality of data types, which holds exactly for the same logical type.
ghost use Rattle.std.specs.Prelude.{◌≡◌, IsTrue, ◌↔◌};
ghost use Rattle.arrow_types.specs.Types.{logical_type};

use super::DataType;

impl PartialEq for DataType {
    ghost use Rattle.std.specs.Cmp.{decided, on_per, partial_equiv_from_equiv};
    ghost use Rattle.arrow_types.specs.TypeEquality.{same_type, same_type-Decides};

    ghost eq = { λ t u. same_type (logical_type t) (logical_type u) };

    ghost laws = { on_per logical_type (partial_equiv_from_equiv (decided same_type same_type-Decides)) };

    fn eq(&self, other: &DataType) -> bool
        ensures value { result ≡ same_type (logical_type self.now) (logical_type other.now) }
        ensures decides { IsTrue result ↔ logical_type self.now ≡ logical_type other.now }
    {
        same(self, other)
    }
}

impl Eq for DataType {
    ghost use Rattle.std.specs.Cmp.{decided, on_equiv};
    ghost use Rattle.arrow_types.specs.TypeEquality.{same_type, same_type-Decides};

    ghost laws = { on_equiv logical_type (decided same_type same_type-Decides) };
}

/// Returns whether two data types are the same in every part.
fn same(first: &DataType, second: &DataType) -> bool
    ensures { IsTrue result ↔ logical_type first.now ≡ logical_type second.now }
{
    match (first, second) {
        (DataType::Boolean, DataType::Boolean)
        | (DataType::Int8, DataType::Int8)
        | (DataType::Int16, DataType::Int16)
        | (DataType::Int32, DataType::Int32)
        | (DataType::Int64, DataType::Int64)
        | (DataType::UInt8, DataType::UInt8)
        | (DataType::UInt16, DataType::UInt16)
        | (DataType::UInt32, DataType::UInt32)
        | (DataType::UInt64, DataType::UInt64)
        | (DataType::Date32, DataType::Date32)
        | (DataType::Date64, DataType::Date64)
        | (DataType::Binary, DataType::Binary)
        | (DataType::LargeBinary, DataType::LargeBinary)
        | (DataType::Utf8, DataType::Utf8)
        | (DataType::LargeUtf8, DataType::LargeUtf8) => true,
        (DataType::Time32(unit), DataType::Time32(other))
        | (DataType::Time64(unit), DataType::Time64(other))
        | (DataType::Duration(unit), DataType::Duration(other)) => unit == other,
        (DataType::Interval(unit), DataType::Interval(other)) => unit == other,
        (DataType::Timestamp(unit, zone), DataType::Timestamp(other, place)) => {
            unit == other && zone == place
        }
        (DataType::Decimal(digits, scale), DataType::Decimal(m, n))
        | (DataType::Decimal256(digits, scale), DataType::Decimal256(m, n)) => {
            digits == m && scale == n
        }
        (DataType::Extension(name, inner, metadata), DataType::Extension(other, within, noted)) =>
            name == other && metadata == noted && same(inner, within),
        _ => false,
    }
}
