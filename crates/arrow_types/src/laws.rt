//! The ghost members of each native type, offset type and key type as plain values. Each law is the
//! contract of a function with an empty body.
ghost use Rattle.std.specs.Prelude.{◌≡◌, ℕ, ℤ, List, pos, true, false};
ghost use Rattle.std.specs.Int.{from_le_bytes, w128, w16, w32, w64, w8};
ghost use Rattle.arrow_types.specs.declared.primitive_type.PrimitiveType.TheVariants.{Int8, Int16, Int32, Int64};
ghost use Rattle.arrow_types.specs.declared.primitive_type.PrimitiveType.TheVariants.{Int128, Int256, UInt8};
ghost use Rattle.arrow_types.specs.declared.primitive_type.PrimitiveType.TheVariants.{UInt16, UInt32, UInt64};
ghost use Rattle.arrow_types.specs.declared.primitive_type.PrimitiveType.TheVariants.{DaysMs, MonthDayNano};
ghost use Rattle.arrow_types.specs.LeBytes.{days_ms_of_bytes, i256_of_bytes, months_days_ns_of_bytes};
ghost use Rattle.arrow_types.specs.LeBytes.{signed_of_bytes};

use crate::index_key::IndexKey;
use crate::le_bytes::FromLeBytes;
use crate::native_type::{NativeType, days_ms, i256, months_days_ns};
use crate::offset::Offset;

/// A null of `i8` stores zero.
pub fn native_i8()
    ensures primitive { ⟦<i8 as NativeType>⟧.PRIMITIVE ≡ Int8 }
    ensures zero { ⟦<i8 as NativeType>⟧.zero ≡ pos 0 }
{}

/// A null of `i16` stores zero.
pub fn native_i16()
    ensures primitive { ⟦<i16 as NativeType>⟧.PRIMITIVE ≡ Int16 }
    ensures zero { ⟦<i16 as NativeType>⟧.zero ≡ pos 0 }
{}

/// A null of `i32` stores zero.
pub fn native_i32()
    ensures primitive { ⟦<i32 as NativeType>⟧.PRIMITIVE ≡ Int32 }
    ensures zero { ⟦<i32 as NativeType>⟧.zero ≡ pos 0 }
{}

/// A null of `i64` stores zero.
pub fn native_i64()
    ensures primitive { ⟦<i64 as NativeType>⟧.PRIMITIVE ≡ Int64 }
    ensures zero { ⟦<i64 as NativeType>⟧.zero ≡ pos 0 }
{}

/// A null of `i128` stores zero.
pub fn native_i128()
    ensures primitive { ⟦<i128 as NativeType>⟧.PRIMITIVE ≡ Int128 }
    ensures zero { ⟦<i128 as NativeType>⟧.zero ≡ pos 0 }
{}

/// A null of `u8` stores zero.
pub fn native_u8()
    ensures primitive { ⟦<u8 as NativeType>⟧.PRIMITIVE ≡ UInt8 }
    ensures zero { ⟦<u8 as NativeType>⟧.zero ≡ 0 }
{}

/// A null of `u16` stores zero.
pub fn native_u16()
    ensures primitive { ⟦<u16 as NativeType>⟧.PRIMITIVE ≡ UInt16 }
    ensures zero { ⟦<u16 as NativeType>⟧.zero ≡ 0 }
{}

/// A null of `u32` stores zero.
pub fn native_u32()
    ensures primitive { ⟦<u32 as NativeType>⟧.PRIMITIVE ≡ UInt32 }
    ensures zero { ⟦<u32 as NativeType>⟧.zero ≡ 0 }
{}

/// A null of `u64` stores zero.
pub fn native_u64()
    ensures primitive { ⟦<u64 as NativeType>⟧.PRIMITIVE ≡ UInt64 }
    ensures zero { ⟦<u64 as NativeType>⟧.zero ≡ 0 }
{}

/// A null of `i256` stores zero in every part.
pub fn native_i256()
    ensures primitive { ⟦<i256 as NativeType>⟧.PRIMITIVE ≡ Int256 }
    ensures high { ⟦<i256 as NativeType>⟧.zero.0 ≡ pos 0 }
    ensures low { ⟦<i256 as NativeType>⟧.zero.1 ≡ 0 }
{}

/// A null of `days_ms` stores zero in every part.
pub fn native_days_ms()
    ensures primitive { ⟦<days_ms as NativeType>⟧.PRIMITIVE ≡ DaysMs }
    ensures days { ⟦<days_ms as NativeType>⟧.zero.0 ≡ pos 0 }
    ensures milliseconds { ⟦<days_ms as NativeType>⟧.zero.1 ≡ pos 0 }
{}

/// A null of `months_days_ns` stores zero in every part.
pub fn native_months_days_ns()
    ensures primitive { ⟦<months_days_ns as NativeType>⟧.PRIMITIVE ≡ MonthDayNano }
    ensures months { ⟦<months_days_ns as NativeType>⟧.zero.0 ≡ pos 0 }
    ensures days { ⟦<months_days_ns as NativeType>⟧.zero.1 ≡ pos 0 }
    ensures nanoseconds { ⟦<months_days_ns as NativeType>⟧.zero.2 ≡ pos 0 }
{}

/// The offsets of `i32` are its numbers up to 2147483647, and are not large.
pub fn offset_i32()
    ensures number { (x : ℤ) → ⟦<i32 as Offset>⟧.number x ≡ x }
    ensures most { ⟦<i32 as Offset>⟧.most ≡ 2147483647 }
    ensures large { ⟦<i32 as Offset>⟧.IS_LARGE ≡ false }
{}

/// The offsets of `i64` are its numbers up to 9223372036854775807, and are large.
pub fn offset_i64()
    ensures number { (x : ℤ) → ⟦<i64 as Offset>⟧.number x ≡ x }
    ensures most { ⟦<i64 as Offset>⟧.most ≡ 9223372036854775807 }
    ensures large { ⟦<i64 as Offset>⟧.IS_LARGE ≡ true }
{}

/// The number of a key is its value.
pub fn keys()
    ensures i8 { (x : ℤ) → ⟦<i8 as IndexKey>⟧.number x ≡ x }
    ensures i16 { (x : ℤ) → ⟦<i16 as IndexKey>⟧.number x ≡ x }
    ensures i32 { (x : ℤ) → ⟦<i32 as IndexKey>⟧.number x ≡ x }
    ensures i64 { (x : ℤ) → ⟦<i64 as IndexKey>⟧.number x ≡ x }
    ensures u8 { (x : ℕ) → ⟦<u8 as IndexKey>⟧.number x ≡ pos x }
    ensures u16 { (x : ℕ) → ⟦<u16 as IndexKey>⟧.number x ≡ pos x }
    ensures u32 { (x : ℕ) → ⟦<u32 as IndexKey>⟧.number x ≡ pos x }
    ensures u64 { (x : ℕ) → ⟦<u64 as IndexKey>⟧.number x ≡ pos x }
    ensures usize { (x : ℕ) → ⟦<usize as IndexKey>⟧.number x ≡ pos x }
{}

/// The number of bytes of a value of each native type.
pub fn byte_counts()
    ensures i8 { ⟦<i8 as FromLeBytes>⟧.SIZE ≡ 1 }
    ensures i16 { ⟦<i16 as FromLeBytes>⟧.SIZE ≡ 2 }
    ensures i32 { ⟦<i32 as FromLeBytes>⟧.SIZE ≡ 4 }
    ensures i64 { ⟦<i64 as FromLeBytes>⟧.SIZE ≡ 8 }
    ensures i128 { ⟦<i128 as FromLeBytes>⟧.SIZE ≡ 16 }
    ensures i256 { ⟦<i256 as FromLeBytes>⟧.SIZE ≡ 32 }
    ensures u8 { ⟦<u8 as FromLeBytes>⟧.SIZE ≡ 1 }
    ensures u16 { ⟦<u16 as FromLeBytes>⟧.SIZE ≡ 2 }
    ensures u32 { ⟦<u32 as FromLeBytes>⟧.SIZE ≡ 4 }
    ensures u64 { ⟦<u64 as FromLeBytes>⟧.SIZE ≡ 8 }
    ensures days_ms { ⟦<days_ms as FromLeBytes>⟧.SIZE ≡ 8 }
    ensures months_days_ns { ⟦<months_days_ns as FromLeBytes>⟧.SIZE ≡ 16 }
{}

/// The value of bytes of each native type, the least significant first.
pub fn values_of_bytes()
    ensures i8 { (xs : List ℕ) → ⟦<i8 as FromLeBytes>⟧.of_bytes xs ≡ signed_of_bytes w8 xs }
    ensures i16 { (xs : List ℕ) → ⟦<i16 as FromLeBytes>⟧.of_bytes xs ≡ signed_of_bytes w16 xs }
    ensures i32 { (xs : List ℕ) → ⟦<i32 as FromLeBytes>⟧.of_bytes xs ≡ signed_of_bytes w32 xs }
    ensures i64 { (xs : List ℕ) → ⟦<i64 as FromLeBytes>⟧.of_bytes xs ≡ signed_of_bytes w64 xs }
    ensures i128 { (xs : List ℕ) → ⟦<i128 as FromLeBytes>⟧.of_bytes xs ≡ signed_of_bytes w128 xs }
    ensures i256 { (xs : List ℕ) → ⟦<i256 as FromLeBytes>⟧.of_bytes xs ≡ i256_of_bytes xs }
    ensures u8 { (xs : List ℕ) → ⟦<u8 as FromLeBytes>⟧.of_bytes xs ≡ from_le_bytes w8 xs }
    ensures u16 { (xs : List ℕ) → ⟦<u16 as FromLeBytes>⟧.of_bytes xs ≡ from_le_bytes w16 xs }
    ensures u32 { (xs : List ℕ) → ⟦<u32 as FromLeBytes>⟧.of_bytes xs ≡ from_le_bytes w32 xs }
    ensures u64 { (xs : List ℕ) → ⟦<u64 as FromLeBytes>⟧.of_bytes xs ≡ from_le_bytes w64 xs }
    ensures days_ms { (xs : List ℕ) → ⟦<days_ms as FromLeBytes>⟧.of_bytes xs ≡ days_ms_of_bytes xs }
    ensures months_days_ns { (xs : List ℕ)
        → ⟦<months_days_ns as FromLeBytes>⟧.of_bytes xs ≡ months_days_ns_of_bytes xs }
{}
