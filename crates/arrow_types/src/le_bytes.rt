//! Native values from their bytes, the least significant first, for `Buffer::from_le_bytes`.
ghost use Rattle.std.specs.Prelude.{◌≡◌, ◌<◌, ℕ, List, length};
ghost use Rattle.std.specs.Int.{from_le_bytes, w128};

use crate::native_type::{NativeType, days_ms, i256, months_days_ns};

/// A native type whose values lie in memory as bytes, the least significant first (Arrow columnar
/// format, "Byte Order").
pub trait FromLeBytes: NativeType {
    /// The number of bytes of a value.
    ghost SIZE: { ℕ };

    const SIZE: usize;

    /// The value of these bytes.
    ghost of_bytes: { List ℕ → Self };

    /// Returns the value of `SIZE` bytes.
    fn from_le_slice(bytes: &[u8]) -> Self
        requires { length bytes.now ≡ SIZE }
        ensures { result ≡ of_bytes bytes.now };

    /// A value has bytes.
    ghost sized: { 0 < SIZE };
}

impl FromLeBytes for i8 {
    ghost use Rattle.std.proofs.Common.{lit<};
    ghost use Rattle.std.specs.Int.{w8};
    ghost use Rattle.arrow_types.specs.LeBytes.{signed_of_bytes};

    ghost SIZE = { 1 };

    const SIZE: usize = 1;

    ghost of_bytes = { signed_of_bytes w8 };

    ghost sized = { lit< tt };

    #[inline(always)]
    fn from_le_slice(bytes: &[u8]) -> i8 {
        i8::from_le_bytes([bytes[0]])
    }
}

impl FromLeBytes for i16 {
    ghost use Rattle.std.proofs.Common.{lit<};
    ghost use Rattle.std.specs.Int.{w16};
    ghost use Rattle.arrow_types.specs.LeBytes.{signed_of_bytes};

    ghost SIZE = { 2 };

    const SIZE: usize = 2;

    ghost of_bytes = { signed_of_bytes w16 };

    ghost sized = { lit< tt };

    #[inline(always)]
    fn from_le_slice(bytes: &[u8]) -> i16 {
        i16::from_le_bytes([bytes[0], bytes[1]])
    }
}

impl FromLeBytes for i32 {
    ghost use Rattle.std.proofs.Common.{lit<};
    ghost use Rattle.std.specs.Int.{w32};
    ghost use Rattle.arrow_types.specs.LeBytes.{signed_of_bytes};

    ghost SIZE = { 4 };

    const SIZE: usize = 4;

    ghost of_bytes = { signed_of_bytes w32 };

    ghost sized = { lit< tt };

    #[inline(always)]
    fn from_le_slice(bytes: &[u8]) -> i32 {
        i32::from_le_bytes([bytes[0], bytes[1], bytes[2], bytes[3]])
    }
}

impl FromLeBytes for i64 {
    ghost use Rattle.std.proofs.Common.{lit<};
    ghost use Rattle.std.specs.Int.{w64};
    ghost use Rattle.arrow_types.specs.LeBytes.{signed_of_bytes};

    ghost SIZE = { 8 };

    const SIZE: usize = 8;

    ghost of_bytes = { signed_of_bytes w64 };

    ghost sized = { lit< tt };

    #[inline(always)]
    fn from_le_slice(bytes: &[u8]) -> i64 {
        i64::from_le_bytes([
            bytes[0], bytes[1], bytes[2], bytes[3], bytes[4], bytes[5], bytes[6], bytes[7],
        ])
    }
}

impl FromLeBytes for i128 {
    ghost use Rattle.std.proofs.Common.{lit<};
    ghost use Rattle.std.specs.Int.{w128};
    ghost use Rattle.arrow_types.specs.LeBytes.{signed_of_bytes};

    ghost SIZE = { 16 };

    const SIZE: usize = 16;

    ghost of_bytes = { signed_of_bytes w128 };

    ghost sized = { lit< tt };

    #[inline(always)]
    fn from_le_slice(bytes: &[u8]) -> i128 {
        i128::from_le_bytes([
            bytes[0], bytes[1], bytes[2], bytes[3], bytes[4], bytes[5], bytes[6], bytes[7],
            bytes[8], bytes[9], bytes[10], bytes[11], bytes[12], bytes[13], bytes[14], bytes[15],
        ])
    }
}

impl FromLeBytes for u8 {
    ghost use Rattle.std.proofs.Common.{lit<};
    ghost use Rattle.std.specs.Int.{from_le_bytes, w8};

    ghost SIZE = { 1 };

    const SIZE: usize = 1;

    ghost of_bytes = { from_le_bytes w8 };

    ghost sized = { lit< tt };

    #[inline(always)]
    fn from_le_slice(bytes: &[u8]) -> u8 {
        u8::from_le_bytes([bytes[0]])
    }
}

impl FromLeBytes for u16 {
    ghost use Rattle.std.proofs.Common.{lit<};
    ghost use Rattle.std.specs.Int.{from_le_bytes, w16};

    ghost SIZE = { 2 };

    const SIZE: usize = 2;

    ghost of_bytes = { from_le_bytes w16 };

    ghost sized = { lit< tt };

    #[inline(always)]
    fn from_le_slice(bytes: &[u8]) -> u16 {
        u16::from_le_bytes([bytes[0], bytes[1]])
    }
}

impl FromLeBytes for u32 {
    ghost use Rattle.std.proofs.Common.{lit<};
    ghost use Rattle.std.specs.Int.{from_le_bytes, w32};

    ghost SIZE = { 4 };

    const SIZE: usize = 4;

    ghost of_bytes = { from_le_bytes w32 };

    ghost sized = { lit< tt };

    #[inline(always)]
    fn from_le_slice(bytes: &[u8]) -> u32 {
        u32::from_le_bytes([bytes[0], bytes[1], bytes[2], bytes[3]])
    }
}

impl FromLeBytes for u64 {
    ghost use Rattle.std.proofs.Common.{lit<};
    ghost use Rattle.std.specs.Int.{from_le_bytes, w64};

    ghost SIZE = { 8 };

    const SIZE: usize = 8;

    ghost of_bytes = { from_le_bytes w64 };

    ghost sized = { lit< tt };

    #[inline(always)]
    fn from_le_slice(bytes: &[u8]) -> u64 {
        u64::from_le_bytes([
            bytes[0], bytes[1], bytes[2], bytes[3], bytes[4], bytes[5], bytes[6], bytes[7],
        ])
    }
}

/// Returns the unsigned number of sixteen bytes.
#[inline(always)]
fn u128_of(bytes: &[u8]) -> u128
    requires { length bytes.now ≡ 16 }
    ensures { result ≡ from_le_bytes w128 bytes.now }
{
    u128::from_le_bytes([
        bytes[0], bytes[1], bytes[2], bytes[3], bytes[4], bytes[5], bytes[6], bytes[7], bytes[8],
        bytes[9], bytes[10], bytes[11], bytes[12], bytes[13], bytes[14], bytes[15],
    ])
}

impl FromLeBytes for i256 {
    ghost use Rattle.std.proofs.Common.{lit<};
    ghost use Rattle.arrow_types.specs.LeBytes.{i256_of_bytes};

    ghost SIZE = { 32 };

    const SIZE: usize = 32;

    ghost of_bytes = { i256_of_bytes };

    ghost sized = { lit< tt };

    #[inline(always)]
    fn from_le_slice(bytes: &[u8]) -> i256 {
        i256(i128::from_le_slice(&bytes[16..32]), u128_of(&bytes[0..16]))
    }
}

impl FromLeBytes for days_ms {
    ghost use Rattle.std.proofs.Common.{lit<};
    ghost use Rattle.arrow_types.specs.LeBytes.{days_ms_of_bytes};

    ghost SIZE = { 8 };

    const SIZE: usize = 8;

    ghost of_bytes = { days_ms_of_bytes };

    ghost sized = { lit< tt };

    #[inline(always)]
    fn from_le_slice(bytes: &[u8]) -> days_ms {
        days_ms(
            i32::from_le_slice(&bytes[0..4]),
            i32::from_le_slice(&bytes[4..8]),
        )
    }
}

impl FromLeBytes for months_days_ns {
    ghost use Rattle.std.proofs.Common.{lit<};
    ghost use Rattle.arrow_types.specs.LeBytes.{months_days_ns_of_bytes};

    ghost SIZE = { 16 };

    const SIZE: usize = 16;

    ghost of_bytes = { months_days_ns_of_bytes };

    ghost sized = { lit< tt };

    #[inline(always)]
    fn from_le_slice(bytes: &[u8]) -> months_days_ns {
        months_days_ns(
            i32::from_le_slice(&bytes[0..4]),
            i32::from_le_slice(&bytes[4..8]),
            i64::from_le_slice(&bytes[8..16]),
        )
    }
}
