//! Names of the arrays and builders of each native type, as arrow2 has them.
use crate::{MutablePrimitiveArray, PrimitiveArray};
use arrow_types::native_type::{days_ms, i256, months_days_ns};

/// An array of `i8`.
pub type Int8Array = PrimitiveArray<i8>;
/// An array of `i16`.
pub type Int16Array = PrimitiveArray<i16>;
/// An array of `i32`.
pub type Int32Array = PrimitiveArray<i32>;
/// An array of `i64`.
pub type Int64Array = PrimitiveArray<i64>;
/// An array of `i128`.
pub type Int128Array = PrimitiveArray<i128>;
/// An array of `i256`.
pub type Int256Array = PrimitiveArray<i256>;
/// An array of `u8`.
pub type UInt8Array = PrimitiveArray<u8>;
/// An array of `u16`.
pub type UInt16Array = PrimitiveArray<u16>;
/// An array of `u32`.
pub type UInt32Array = PrimitiveArray<u32>;
/// An array of `u64`.
pub type UInt64Array = PrimitiveArray<u64>;
/// An array of `days_ms`.
pub type DaysMsArray = PrimitiveArray<days_ms>;
/// An array of `months_days_ns`.
pub type MonthsDaysNsArray = PrimitiveArray<months_days_ns>;
/// A builder of arrays of `i8`.
pub type Int8Vec = MutablePrimitiveArray<i8>;
/// A builder of arrays of `i16`.
pub type Int16Vec = MutablePrimitiveArray<i16>;
/// A builder of arrays of `i32`.
pub type Int32Vec = MutablePrimitiveArray<i32>;
/// A builder of arrays of `i64`.
pub type Int64Vec = MutablePrimitiveArray<i64>;
/// A builder of arrays of `i128`.
pub type Int128Vec = MutablePrimitiveArray<i128>;
/// A builder of arrays of `i256`.
pub type Int256Vec = MutablePrimitiveArray<i256>;
/// A builder of arrays of `u8`.
pub type UInt8Vec = MutablePrimitiveArray<u8>;
/// A builder of arrays of `u16`.
pub type UInt16Vec = MutablePrimitiveArray<u16>;
/// A builder of arrays of `u32`.
pub type UInt32Vec = MutablePrimitiveArray<u32>;
/// A builder of arrays of `u64`.
pub type UInt64Vec = MutablePrimitiveArray<u64>;
/// A builder of arrays of `days_ms`.
pub type DaysMsVec = MutablePrimitiveArray<days_ms>;
/// A builder of arrays of `months_days_ns`.
pub type MonthsDaysNsVec = MutablePrimitiveArray<months_days_ns>;
