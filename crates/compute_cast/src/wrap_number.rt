//! Numbers that wrap to values, which is Rust's `as`. Another type of integers is an `impl` here.
ghost use Rattle.std.specs.Prelude.{◌≡◌};

use arrow_integers::NativeArithmetics;

/// A native type of integers to which numbers wrap.
pub trait WrapNumber: NativeArithmetics {
    /// Returns the value whose number differs from `value` by a multiple of two to the number of bits.
    fn wrap_number(value: i128) -> Self
        ensures { result ≡ Self.wrap value };
}

impl WrapNumber for i8 {
    #[inline(always)]
    fn wrap_number(value: i128) -> i8 {
        u8::wrap_number(value).cast_signed()
    }
}

impl WrapNumber for i16 {
    #[inline(always)]
    fn wrap_number(value: i128) -> i16 {
        u16::wrap_number(value).cast_signed()
    }
}

impl WrapNumber for i32 {
    #[inline(always)]
    fn wrap_number(value: i128) -> i32 {
        u32::wrap_number(value).cast_signed()
    }
}

impl WrapNumber for i64 {
    #[inline(always)]
    fn wrap_number(value: i128) -> i64 {
        u64::wrap_number(value).cast_signed()
    }
}

impl WrapNumber for i128 {
    #[inline(always)]
    fn wrap_number(value: i128) -> i128 {
        value
    }
}

impl WrapNumber for u8 {
    #[inline(always)]
    fn wrap_number(value: i128) -> u8 {
        (value.cast_unsigned() % 0x100) as u8
    }
}

impl WrapNumber for u16 {
    #[inline(always)]
    fn wrap_number(value: i128) -> u16 {
        (value.cast_unsigned() % 0x1_0000) as u16
    }
}

impl WrapNumber for u32 {
    #[inline(always)]
    fn wrap_number(value: i128) -> u32 {
        (value.cast_unsigned() % 0x1_0000_0000) as u32
    }
}

impl WrapNumber for u64 {
    #[inline(always)]
    fn wrap_number(value: i128) -> u64 {
        (value.cast_unsigned() % 0x1_0000_0000_0000_0000) as u64
    }
}
