//! Marks that are appended behind others, which may end within a byte.
ghost use Rattle.std.specs.Prelude.{◌≡◌, ℕ, ◌+◌, ◌*◌, ◌^◌, ◌≤◌, ◌<◌, ◌==◌, length, vec_len, OnOk};
ghost use Rattle.std.specs.Int.{bit_at, div_ceil};
ghost use Rattle.arrow_types.specs.Failures.{OutOfMemoryKeeps};
ghost use Rattle.arrow_bitmap.specs.Marks.{mark_at, marks};
ghost use Rattle.arrow_bitmap.specs.MarkWrites.{AppendsAll, ExtendsMarks, KeepsMarks};

use crate::marks::Marks;
use crate::ops::{First, append_combined};
use arrow_types::error::Error;
use std::alloc::AllocError;
use std::rc::Rc;

/// Returns a byte with the bits of `byte` below `from`, and those of `above` from there on.
#[inline(always)]
fn joined(byte: u8, from: usize, above: u8) -> u8
    requires { from < 8 }
    ensures kept { (k : ℕ) → k < from → bit_at result k ≡ bit_at byte k }
    ensures put { (k : ℕ) → from + k < 8 → bit_at result (from + k) ≡ bit_at above k }
{
    byte & !(255 << from) | above << from
}

/// Keeps the first `len` marks, and writes the bits of a byte behind them, up to the end of the byte in which they end.
pub(crate) fn join_byte(bytes: &mut Vec<u8>, len: usize, above: u8)
    requires { len ≤ 8 * vec_len bytes.old }
    ensures kept { (i : ℕ) → i < len → mark_at bytes.new.items i ≡ mark_at bytes.old.items i }
    ensures put { (k : ℕ) → len + k < 8 * div_ceil len 8 → mark_at bytes.new.items (len + k) ≡ (bit_at above k == 1) }
    ensures len { vec_len bytes.new ≡ div_ceil len 8 }
{
    bytes.truncate(len.div_ceil(8));
    if len % 8 != 0 {
        let byte = bytes[len / 8];
        bytes[len / 8] = joined(byte, len % 8, above);
    }
}

/// Appends marks behind whole bytes. The bits behind the last may be anything.
fn append_marks(bytes: &mut Vec<u8>, source: &Marks<'_>) -> Result<(), AllocError>
    ensures ok { OnOk result (AppendsAll (λ mark other. mark) source.now source.now bytes.old.items bytes.new.items) }
    ensures len { OnOk result (vec_len bytes.new ≡ vec_len bytes.old + div_ceil (length source.now) 8) }
    ensures kept { KeepsMarks bytes.old.items bytes.new.items }
    ensures room { vec_len bytes.old ≤ vec_len bytes.new }
{
    if let Some(whole) = source.bytes() {
        bytes.extend_from_slice(whole)?;
        return Ok(());
    }
    append_combined::<First>(bytes, source, source)
}

/// Appends marks behind the first `len` marks.
pub(crate) fn extend_from_marks(
    bytes: &mut Vec<u8>,
    len: usize,
    source: &Marks<'_>,
) -> Result<(), AllocError>
    requires within { len ≤ 8 * vec_len bytes.old }
    requires fits { len + length source.now < 2 ^ 64 }
    ensures ok { OnOk result (ExtendsMarks bytes.old.items bytes.new.items len source.now) }
    ensures room { OnOk result (len + length source.now ≤ 8 * vec_len bytes.new) }
    ensures kept { marks bytes.new.items 0 len ≡ marks bytes.old.items 0 len }
    ensures room_left { len ≤ 8 * vec_len bytes.new }
{
    if source.len() == 0 {
        return Ok(());
    }
    // Bits behind the last mark have no meaning, so they may be written before memory is allocated.
    join_byte(bytes, len, source.byte(0));
    let head = (8 - len % 8) % 8;
    if head < source.len() {
        append_marks(bytes, &source.range(head, source.len() - head))?;
    }
    Ok(())
}

/// Moves marks to the front of bytes that are not shared, copying them if they are shared or begin
/// elsewhere.
#[tactic(auto, using(crate::proofs::MarkLemmas::mark_steps))]
pub(crate) fn own_bytes(bytes: &mut Rc<Vec<u8>>, offset: usize, length: usize) -> Result<(), Error>
    requires within { offset + length ≤ 8 * vec_len bytes.old.value }
    requires fits { offset + length < 2 ^ 64 }
    ensures ok { OnOk result (marks bytes.new.value.items 0 length ≡ marks bytes.old.value.items offset length) }
    ensures room { OnOk result (length ≤ 8 * vec_len bytes.new.value) }
    ensures err { OutOfMemoryKeeps result bytes.old bytes.new }
{
    if offset == 0 && Rc::strong_count(bytes) == 1 {
        return Ok(());
    }
    let alloc = *bytes.allocator();
    let mut copy = Vec::new(alloc);
    extend_from_marks(&mut copy, 0, &Marks::new(bytes.as_slice(), offset, length))?;
    *bytes = Rc::new(alloc, copy)?;
    Ok(())
}
