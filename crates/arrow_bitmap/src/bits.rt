//! Single marks and ranges of equal marks in packed bytes. Mark i is bit i mod 8, the least
//! significant first, of byte i / 8.
ghost use Rattle.std.specs.Prelude.{◌≡◌, ◌≢◌, ℕ, ◌+◌, ◌-◌, ◌*◌, ◌^◌, ◌≤◌, ◌<◌, length, vec_len, if◌then◌else◌};
ghost use Rattle.std.specs.Prelude.{count_by, not, [], ◌∷◌, ◌++◌, replicate, OnOk, OnErr, IfErr, IfSome, slice_get};
ghost use Rattle.std.specs.Int.{bit_at, div_ceil, from_le_bytes, w64};
ghost use Rattle.std.specs.Int.Count.{ones};
ghost use Rattle.arrow_bitmap.specs.Marks.{mark_at, marks, bits_past_bytes};
ghost use Rattle.arrow_types.specs.Types.{refusal};
ghost use Rattle.arrow_bitmap.specs.MarkWrites.{FillsMarks};

use crate::counts::count_clear_turns;
use crate::marks::byte_at;
use arrow_types::error::Error;
use std::alloc::AllocError;

/// The bits of a byte, one at a time, the least significant first.
static BITS: [u8; 8] = [1, 2, 4, 8, 16, 32, 64, 128];

/// Returns the byte in which only this bit is set.
fn bit_by_itself(bit: usize) -> u8
    requires { bit < 8 }
    ensures { result ≡ 2 ^ bit }
{
    BITS[bit]
}

/// Returns the mark at `index`.
pub(crate) fn mark_of(bytes: &[u8], index: usize) -> bool
    requires { index < 8 * length bytes.now }
    ensures { result ≡ mark_at bytes.now index }
{
    bytes[index / 8] & (1 << (index % 8)) != 0
}

/// Returns the mark at `index`, as [`mark_of`]. The mask of its bit is looked up, which is faster than a shift unless
/// the compiler vectorizes a loop of shifts.
#[inline(always)]
pub(crate) fn masked_mark_of(bytes: &[u8], index: usize) -> bool
    requires { index < 8 * length bytes.now }
    ensures { result ≡ mark_at bytes.now index }
{
    bytes[index / 8] & bit_by_itself(index % 8) != 0
}

/// Returns `mask` if `value` is true, else 0.
#[inline(always)]
fn kept_where(value: bool, mask: u8) -> u8
    ensures { result ≡ (if value then mask else 0) }
{
    if value { mask } else { 0 }
}

/// Returns the byte with one bit set to `value`. The mask of the bit is looked up, which takes
/// fewer instructions than a shift by a number that the compiler does not know.
#[inline(always)]
pub(crate) fn with_bit(byte: u8, bit: usize, value: bool) -> u8
    requires { bit < 8 }
    ensures same { bit_at result bit ≡ (if value then 1 else 0) }
    ensures others { (k : ℕ) → k < 8 → k ≢ bit → bit_at result k ≡ bit_at byte k }
{
    let mask = bit_by_itself(bit);
    byte & !mask | kept_where(value, mask)
}

/// Writes the mark at `index`.
pub(crate) fn write_mark(bytes: &mut Vec<u8>, index: usize, value: bool)
    requires { index < 8 * vec_len bytes.old }
    ensures marks { FillsMarks bytes.old.items bytes.new.items index (index + 1) value }
    ensures len { vec_len bytes.new ≡ vec_len bytes.old }
{
    let byte = bytes[index / 8];
    bytes[index / 8] = with_bit(byte, index % 8, value);
}

/// Returns a byte of eight equal marks.
fn byte_of(value: bool) -> u8
    ensures { (k : ℕ) → k < 8 → bit_at result k ≡ (if value then 1 else 0) }
{
    if value { 255 } else { 0 }
}

/// Returns the byte with all bits from `from` on set to `value`.
fn with_top(byte: u8, from: usize, value: bool) -> u8
    requires { from < 8 }
    ensures kept { (k : ℕ) → k < from → bit_at result k ≡ bit_at byte k }
    ensures top { (k : ℕ) → from ≤ k → k < 8 → bit_at result k ≡ (if value then 1 else 0) }
{
    let top = 255 << from;
    if value { byte | top } else { byte & !top }
}

/// Writes equal marks from `start` to the end of its byte.
fn fill_byte(bytes: &mut Vec<u8>, start: usize, value: bool)
    requires { start ≤ 8 * vec_len bytes.old }
    ensures marks { FillsMarks bytes.old.items bytes.new.items start (8 * div_ceil start 8) value }
    ensures len { vec_len bytes.new ≡ vec_len bytes.old }
{
    if start % 8 != 0 {
        let byte = bytes[start / 8];
        bytes[start / 8] = with_top(byte, start % 8, value);
    }
}

/// Counts the clear marks among fewer than eight from `start` on.
#[inline(always)]
fn count_clear_few(bytes: &[u8], start: usize, count: usize) -> usize
    requires { count < 8 }
    ensures { result ≡ count_by not (marks bytes.now start count) }
{
    let clear = !byte_at(bytes, start) % (1 << count);
    clear.count_ones() as usize
}

/// Counts the clear bits of a range of bytes, one byte at a time.
fn count_clear_bytes(bytes: &[u8], first: usize, past: usize) -> usize
    requires order { first ≤ past }
    requires within { past ≤ length bytes.now }
    requires fits { 8 * past < 2 ^ 64 }
    ensures { result ≡ count_by not (marks bytes.now (8 * first) (8 * (past - first))) }
{
    let mut clear = 0;
    for index in first..past {
        clear += bytes[index].count_zeros() as usize;
    }
    clear
}

/// Counts the set bits of a word of eight bytes.
#[inline(always)]
fn count_set_word(words: &[[u8; 8]], index: usize) -> usize
    requires { index < length words.now }
    ensures { IfSome (slice_get words.now index) (λ eight. result ≡ ones (from_le_bytes w64 eight)) }
{
    u64::from_le_bytes(words[index]).count_ones() as usize
}

/// Counts the clear bits of a range of bytes, eight bytes at a time. It counts the set bits, for
/// which processors have an instruction.
fn count_clear_words(bytes: &[u8], first: usize, past: usize) -> usize
    requires order { first ≤ past }
    requires within { past ≤ length bytes.now }
    requires fits { 8 * past < 2 ^ 64 }
    ensures { result ≡ count_by not (marks bytes.now (8 * first) (8 * (past - first))) }
{
    let (words, rest) = bytes[first..past].as_chunks::<8>();
    let mut set = 0;
    for index in 0..words.len() {
        set += count_set_word(words, index);
    }
    64 * words.len() - set + count_clear_bytes(bytes, past - rest.len(), past)
}

/// Counts the clear bits of 256 bytes `turns` times, which may be none, from byte `first` on.
#[inline(always)]
fn count_clear_front(bytes: &[u8], first: usize, turns: usize) -> usize
    requires within { first + 256 * turns ≤ length bytes.now }
    requires fits { 2048 * turns < 2 ^ 64 }
    ensures { result ≡ count_by not (marks bytes.now (8 * first) (2048 * turns)) }
{
    if turns == 0 {
        return 0;
    }
    count_clear_turns(bytes, first, turns)
}

/// Counts the clear bits of a range of bytes, 256 bytes at a time, and the rest eight bytes at a time.
fn count_clear_whole(bytes: &[u8], first: usize, past: usize) -> usize
    requires order { first ≤ past }
    requires within { past ≤ length bytes.now }
    requires fits { 8 * past < 2 ^ 64 }
    ensures { result ≡ count_by not (marks bytes.now (8 * first) (8 * (past - first))) }
{
    let turns = (past - first) / 256;
    let rest = first + 256 * turns;
    count_clear_front(bytes, first, turns) + count_clear_words(bytes, rest, past)
}

/// Counts the clear marks of a range: those of the whole bytes between its ends by blocks and words. A range that has no
/// whole byte has at most fourteen marks.
pub(crate) fn count_clear(bytes: &[u8], start: usize, end: usize) -> usize
    requires order { start ≤ end }
    requires within { end ≤ 8 * length bytes.now }
    ensures { result ≡ count_by not (marks bytes.now start (end - start)) }
{
    let first = start.div_ceil(8);
    let past = end / 8;
    if first < past {
        let head = count_clear_few(bytes, start, 8 * first - start);
        let body = count_clear_whole(bytes, first, past);
        head + body + count_clear_few(bytes, 8 * past, end - 8 * past)
    } else {
        let middle = start + (end - start) / 2;
        count_clear_few(bytes, start, middle - start) + count_clear_few(bytes, middle, end - middle)
    }
}

/// Counts the clear marks up to `end`, eight bytes at a time.
#[inline(always)]
fn count_clear_short(bytes: &[u8], end: usize) -> usize
    requires { end ≤ 8 * length bytes.now }
    ensures { result ≡ count_by not (marks bytes.now 0 end) }
{
    let past = end / 8;
    count_clear_words(bytes, 0, past) + count_clear_few(bytes, 8 * past, end - 8 * past)
}

/// Counts the clear marks up to `end`, 256 bytes at a time.
// A call, so that short ranges save no registers for it.
#[inline(never)]
fn count_clear_long(bytes: &[u8], end: usize) -> usize
    requires { end ≤ 8 * length bytes.now }
    ensures { result ≡ count_by not (marks bytes.now 0 end) }
{
    let past = end / 8;
    count_clear_whole(bytes, 0, past) + count_clear_few(bytes, 8 * past, end - 8 * past)
}

/// Counts the clear marks up to `end`.
pub(crate) fn count_clear_first(bytes: &[u8], end: usize) -> usize
    requires { end ≤ 8 * length bytes.now }
    ensures { result ≡ count_by not (marks bytes.now 0 end) }
{
    if end < 2048 {
        return count_clear_short(bytes, end);
    }
    count_clear_long(bytes, end)
}

/// Writes a mark behind the first `length` marks, in a new byte if the bytes are full.
#[tactic(auto, using(crate::proofs::MarkLemmas::mark_steps))]
#[inline(always)]
pub(crate) fn push_mark(bytes: &mut Vec<u8>, length: usize, value: bool) -> Result<(), AllocError>
    requires { length ≤ 8 * vec_len bytes.old }
    ensures ok { OnOk result (marks bytes.new.items 0 (length + 1) ≡ marks bytes.old.items 0 length ++ value ∷ []) }
    ensures room { OnOk result (length + 1 ≤ 8 * vec_len bytes.new) }
    ensures err { OnErr result (bytes.new.items ≡ bytes.old.items) }
{
    if bytes.len() <= length / 8 {
        bytes.push(0)?;
    }
    write_mark(bytes, length, value);
    Ok(())
}

/// Appends bytes of equal marks until there are `needed` bytes.
#[tactic(auto, using(crate::proofs::MarkLemmas::mark_steps))]
fn grow_bytes(
    bytes: &mut Vec<u8>,
    length: usize,
    needed: usize,
    value: bool,
) -> Result<(), AllocError>
    requires within { length ≤ 8 * vec_len bytes.old }
    requires order { div_ceil length 8 ≤ needed }
    ensures kept { marks bytes.new.items 0 length ≡ marks bytes.old.items 0 length }
    ensures filled { OnOk result ((i : ℕ) → 8 * div_ceil length 8 ≤ i → i < 8 * needed
        → mark_at bytes.new.items i ≡ value) }
    ensures room { OnOk result (vec_len bytes.new ≡ needed) }
    ensures room_left { length ≤ 8 * vec_len bytes.new }
{
    bytes.truncate(length.div_ceil(8));
    bytes.resize(needed, byte_of(value))?;
    Ok(())
}

/// Writes equal marks behind the first `length` marks up to `end`: the rest of the last byte, and
/// then whole bytes.
#[tactic(auto, using(crate::proofs::MarkLemmas::mark_steps))]
pub(crate) fn extend_marks(
    bytes: &mut Vec<u8>,
    length: usize,
    end: usize,
    value: bool,
) -> Result<(), AllocError>
    requires order { length ≤ end }
    requires within { length ≤ 8 * vec_len bytes.old }
    ensures ok { OnOk result (marks bytes.new.items 0 end ≡ marks bytes.old.items 0 length
        ++ replicate (end - length) value) }
    ensures room { OnOk result (end ≤ 8 * vec_len bytes.new) }
    ensures err { OnErr result (marks bytes.new.items 0 length ≡ marks bytes.old.items 0 length) }
    ensures room_left { length ≤ 8 * vec_len bytes.new }
{
    grow_bytes(bytes, length, end.div_ceil(8), value)?;
    fill_byte(bytes, length, value);
    Ok(())
}

/// Checks that `length` marks fit in `bytes` bytes.
pub(crate) fn fits_bytes(bytes: usize, length: usize) -> Result<(), Error>
    ensures ok { OnOk result (length ≤ 8 * bytes) }
    ensures err { IfErr result (λ e. (8 * bytes < length) × (refusal e ≡ bits_past_bytes)) }
{
    if bytes < length.div_ceil(8) {
        return Err(Error::OutOfSpec("the bits must fit in the bytes"));
    }
    Ok(())
}
