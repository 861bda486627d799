//! Marks that are read and appended 64 at a time, as the bits of a word, the least significant
//! first.
ghost use Rattle.std.specs.Prelude.{◌≡◌, ℕ, ◌+◌, ◌-◌, ◌*◌, ◌^◌, ◌<◌, ◌≤◌, ◌==◌, ◌++◌, length, vec_len, OnOk};
ghost use Rattle.std.specs.Int.{bit_at};
ghost use Rattle.arrow_bitmap.specs.Marks.{bits_of, mark_at, marks};

use crate::copy::join_byte;
use std::alloc::AllocError;

/// Returns the marks of eight bytes from byte `first` on as the bits of a word.
#[inline(always)]
fn whole_word(bytes: &[u8], first: usize) -> u64
    requires { first + 8 ≤ length bytes.now }
    ensures { (k : ℕ) → k < 64 → (bit_at result k == 1) ≡ mark_at bytes.now (8 * first + k) }
{
    u64::from_le_bytes([
        bytes[first],
        bytes[first + 1],
        bytes[first + 2],
        bytes[first + 3],
        bytes[first + 4],
        bytes[first + 5],
        bytes[first + 6],
        bytes[first + 7],
    ])
}

/// Returns the bits of a word from `shift` on, followed by as many bits of the next byte as the
/// word has room for.
#[inline(always)]
fn moved_word(word: u64, next: u8, shift: usize) -> u64
    requires some { 0 < shift }
    requires within { shift < 8 }
    ensures low { (k : ℕ) → shift + k < 64 → bit_at result k ≡ bit_at word (shift + k) }
    ensures high { (k : ℕ) → k < 64 → 64 ≤ shift + k → bit_at result k ≡ bit_at next (shift + k - 64) }
{
    word >> shift | (next as u64) << (64 - shift)
}

/// Returns the 64 marks from `place` on as the bits of a word.
#[inline(always)]
pub(crate) fn word_at(bytes: &[u8], place: usize) -> u64
    requires { place + 64 ≤ 8 * length bytes.now }
    ensures { (k : ℕ) → k < 64 → (bit_at result k == 1) ≡ mark_at bytes.now (place + k) }
{
    let first = place / 8;
    let shift = place % 8;
    let word = whole_word(bytes, first);
    if shift == 0 {
        return word;
    }
    moved_word(word, bytes[first + 8], shift)
}

/// Appends the first bits of a word behind the first marks: those that fill the last byte, and the
/// others as eight bytes, of which those that are needed stay.
pub(crate) fn extend_from_word(
    bytes: &mut Vec<u8>,
    len: usize,
    word: u64,
    count: usize,
) -> Result<(), AllocError>
    requires within { len ≤ 8 * vec_len bytes.old }
    requires fits { len + count < 2 ^ 64 }
    requires count { count ≤ 64 }
    ensures ok { OnOk result (marks bytes.new.items 0 (len + count) ≡ marks bytes.old.items 0 len
        ++ bits_of word count) }
    ensures room { OnOk result (len + count ≤ 8 * vec_len bytes.new) }
    ensures kept { marks bytes.new.items 0 len ≡ marks bytes.old.items 0 len }
    ensures room_left { len ≤ 8 * vec_len bytes.new }
{
    // Bits behind the last mark have no meaning, so they may be written before memory is allocated.
    join_byte(bytes, len, (word % 256) as u8);
    let head = (8 - len % 8) % 8;
    let rest = (word >> head).to_le_bytes();
    bytes.extend_from_slice(&rest)?;
    bytes.truncate((len + count).div_ceil(8));
    Ok(())
}
