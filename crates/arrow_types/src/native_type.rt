//! Native types: the types of the values of primitive arrays. CONTRIBUTING.md lists what else another one changes.
ghost use Rattle.std.specs.Prelude.{◌≡◌};
ghost use Rattle.std.specs.Bool.{Decides};

use crate::primitive_type::PrimitiveType;

/// A type of the values of a primitive array, which has one for each slot.
pub trait NativeType: Copy + PartialEq {
    ghost use Rattle.arrow_types.specs.declared.primitive_type.PrimitiveType.{PrimitiveType};

    /// The primitive type of this type.
    ghost PRIMITIVE: { PrimitiveType };

    const PRIMITIVE: PrimitiveType;

    /// The value that a null slot stores by default.
    ghost zero: { Self };

    /// Returns zero in every part: the value that a null slot stores by default.
    fn default() -> Self
        ensures { result ≡ zero };

    /// Two values are equal exactly if they are the same value.
    ghost same: { (x y : Self) → Decides (Self.eq x y) (x ≡ y) };
}

impl NativeType for i8 {
    ghost use Rattle.std.specs.Prelude.{pos};
    ghost use Rattle.arrow_types.specs.declared.primitive_type.PrimitiveType.TheVariants.{Int8};
    ghost use Rattle.std.specs.Cmp.{signed_Decides};

    ghost PRIMITIVE = { Int8 };

    const PRIMITIVE: PrimitiveType = PrimitiveType::Int8;

    ghost zero = { pos 0 };

    ghost same = { signed_Decides };

    #[inline(always)]
    fn default() -> i8 {
        0
    }
}

impl NativeType for i16 {
    ghost use Rattle.std.specs.Prelude.{pos};
    ghost use Rattle.arrow_types.specs.declared.primitive_type.PrimitiveType.TheVariants.{Int16};
    ghost use Rattle.std.specs.Cmp.{signed_Decides};

    ghost PRIMITIVE = { Int16 };

    const PRIMITIVE: PrimitiveType = PrimitiveType::Int16;

    ghost zero = { pos 0 };

    ghost same = { signed_Decides };

    #[inline(always)]
    fn default() -> i16 {
        0
    }
}

impl NativeType for i32 {
    ghost use Rattle.std.specs.Prelude.{pos};
    ghost use Rattle.arrow_types.specs.declared.primitive_type.PrimitiveType.TheVariants.{Int32};
    ghost use Rattle.std.specs.Cmp.{signed_Decides};

    ghost PRIMITIVE = { Int32 };

    const PRIMITIVE: PrimitiveType = PrimitiveType::Int32;

    ghost zero = { pos 0 };

    ghost same = { signed_Decides };

    #[inline(always)]
    fn default() -> i32 {
        0
    }
}

impl NativeType for i64 {
    ghost use Rattle.std.specs.Prelude.{pos};
    ghost use Rattle.arrow_types.specs.declared.primitive_type.PrimitiveType.TheVariants.{Int64};
    ghost use Rattle.std.specs.Cmp.{signed_Decides};

    ghost PRIMITIVE = { Int64 };

    const PRIMITIVE: PrimitiveType = PrimitiveType::Int64;

    ghost zero = { pos 0 };

    ghost same = { signed_Decides };

    #[inline(always)]
    fn default() -> i64 {
        0
    }
}

impl NativeType for i128 {
    ghost use Rattle.std.specs.Prelude.{pos};
    ghost use Rattle.arrow_types.specs.declared.primitive_type.PrimitiveType.TheVariants.{Int128};
    ghost use Rattle.std.specs.Cmp.{signed_Decides};

    ghost PRIMITIVE = { Int128 };

    const PRIMITIVE: PrimitiveType = PrimitiveType::Int128;

    ghost zero = { pos 0 };

    ghost same = { signed_Decides };

    #[inline(always)]
    fn default() -> i128 {
        0
    }
}

impl NativeType for u8 {
    ghost use Rattle.arrow_types.specs.declared.primitive_type.PrimitiveType.TheVariants.{UInt8};
    ghost use Rattle.std.specs.Cmp.{unsigned_Decides};

    ghost PRIMITIVE = { UInt8 };

    const PRIMITIVE: PrimitiveType = PrimitiveType::UInt8;

    ghost zero = { 0 };

    ghost same = { unsigned_Decides };

    #[inline(always)]
    fn default() -> u8 {
        0
    }
}

impl NativeType for u16 {
    ghost use Rattle.arrow_types.specs.declared.primitive_type.PrimitiveType.TheVariants.{UInt16};
    ghost use Rattle.std.specs.Cmp.{unsigned_Decides};

    ghost PRIMITIVE = { UInt16 };

    const PRIMITIVE: PrimitiveType = PrimitiveType::UInt16;

    ghost zero = { 0 };

    ghost same = { unsigned_Decides };

    #[inline(always)]
    fn default() -> u16 {
        0
    }
}

impl NativeType for u32 {
    ghost use Rattle.arrow_types.specs.declared.primitive_type.PrimitiveType.TheVariants.{UInt32};
    ghost use Rattle.std.specs.Cmp.{unsigned_Decides};

    ghost PRIMITIVE = { UInt32 };

    const PRIMITIVE: PrimitiveType = PrimitiveType::UInt32;

    ghost zero = { 0 };

    ghost same = { unsigned_Decides };

    #[inline(always)]
    fn default() -> u32 {
        0
    }
}

impl NativeType for u64 {
    ghost use Rattle.arrow_types.specs.declared.primitive_type.PrimitiveType.TheVariants.{UInt64};
    ghost use Rattle.std.specs.Cmp.{unsigned_Decides};

    ghost PRIMITIVE = { UInt64 };

    const PRIMITIVE: PrimitiveType = PrimitiveType::UInt64;

    ghost zero = { 0 };

    ghost same = { unsigned_Decides };

    #[inline(always)]
    fn default() -> u64 {
        0
    }
}

/// A signed integer of 256 bits, as a high half and a low half.
#[derive(Clone, Copy, PartialEq, Eq)]
pub struct i256(pub i128, pub u128);

/// An interval of days and milliseconds.
#[derive(Clone, Copy, PartialEq, Eq)]
pub struct days_ms(pub i32, pub i32);

/// An interval of months, days and nanoseconds.
#[derive(Clone, Copy, PartialEq, Eq)]
pub struct months_days_ns(pub i32, pub i32, pub i64);

impl NativeType for i256 {
    ghost use Rattle.std.specs.Prelude.{pos};
    ghost use Rattle.arrow_types.specs.NativeEquality.{i256-Decides};
    ghost use Rattle.arrow_types.specs.declared.primitive_type.PrimitiveType.TheVariants.{Int256};

    ghost PRIMITIVE = { Int256 };

    const PRIMITIVE: PrimitiveType = PrimitiveType::Int256;

    ghost zero = { record { 0 = pos 0; 1 = 0 } };

    ghost same = { i256-Decides };

    #[inline(always)]
    fn default() -> i256 {
        i256(0, 0)
    }
}

impl NativeType for days_ms {
    ghost use Rattle.std.specs.Prelude.{pos};
    ghost use Rattle.arrow_types.specs.NativeEquality.{days_ms-Decides};
    ghost use Rattle.arrow_types.specs.declared.primitive_type.PrimitiveType.TheVariants.{DaysMs};

    ghost PRIMITIVE = { DaysMs };

    const PRIMITIVE: PrimitiveType = PrimitiveType::DaysMs;

    ghost zero = { record { 0 = pos 0; 1 = pos 0 } };

    ghost same = { days_ms-Decides };

    #[inline(always)]
    fn default() -> days_ms {
        days_ms(0, 0)
    }
}

impl NativeType for months_days_ns {
    ghost use Rattle.std.specs.Prelude.{pos};
    ghost use Rattle.arrow_types.specs.NativeEquality.{months_days_ns-Decides};
    ghost use Rattle.arrow_types.specs.declared.primitive_type.PrimitiveType.TheVariants.{MonthDayNano};

    ghost PRIMITIVE = { MonthDayNano };

    const PRIMITIVE: PrimitiveType = PrimitiveType::MonthDayNano;

    ghost zero = { record { 0 = pos 0; 1 = pos 0; 2 = pos 0 } };

    ghost same = { months_days_ns-Decides };

    #[inline(always)]
    fn default() -> months_days_ns {
        months_days_ns(0, 0, 0)
    }
}
