//! Booleans packed to marks, one byte at a time, for `MutableBitmap::from_slice`.
ghost use Rattle.std.specs.Prelude.{◌≡◌, ℕ, ◌*◌, ◌≤◌, ◌<◌, [], ◌∷◌, false, length, vec_len, slice_index_or, IfOk};
ghost use Rattle.arrow_bitmap.specs.Marks.{mark_at, marks};

use crate::bits::with_bit;
use std::alloc::{AllocError, Global};

/// Packs up to eight booleans into a byte.
#[inline(always)]
fn pack_byte(values: &[bool]) -> u8
    requires { length values.now ≤ 8 }
    ensures { (k : ℕ) → k < length values.now → mark_at (result ∷ []) k ≡ slice_index_or values.now k false }
{
    let mut byte = 0;
    for index in 0..values.len() {
        byte = with_bit(byte, index, values[index]);
    }
    byte
}

/// Packs booleans into bytes.
pub(crate) fn pack(alloc: Global, values: &[bool]) -> Result<Vec<u8>, AllocError>
    ensures room { IfOk result (λ bytes. length values.now ≤ 8 * vec_len bytes) }
    ensures ok { IfOk result (λ bytes. marks bytes.items 0 (length values.now) ≡ values.now) }
{
    let whole = values.len() / 8;
    let mut bytes = Vec::with_capacity(alloc, values.len().div_ceil(8))?;
    for index in 0..whole {
        bytes.push_reserved(pack_byte(&values[8 * index..8 * index + 8]));
    }
    if 8 * whole < values.len() {
        bytes.push_reserved(pack_byte(&values[8 * whole..]));
    }
    Ok(bytes)
}
