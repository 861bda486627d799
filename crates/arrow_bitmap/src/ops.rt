//! Operations on the marks of bitmaps, eight at a time. Bytes of combined marks are pushed into reserved room of a vector
//! that is a local value: the compiler then keeps its length in a register, and combines many bytes at once, none of which
//! is written twice. Whatever holds the vector takes it out for that.
ghost use Rattle.std.specs.Prelude.{◌≡◌, ℕ, ◌+◌, ◌*◌, ◌<◌, ◌≤◌, ◌==◌, ◌&&◌, ◌||◌, Bool, length, map, not, IfOk};
ghost use Rattle.std.specs.Prelude.{vec_len, [], ◌-◌, ◌^◌, OnOk, OnErr};
ghost use Rattle.std.specs.List.{zip};
ghost use Rattle.std.specs.Int.{bit_at, div_ceil};
ghost use Rattle.std.specs.Vec.{vec_capacity};
ghost use Rattle.arrow_types.specs.Failures.{OnlyOutOfMemory};
ghost use Rattle.arrow_bitmap.specs.Marks.{block_mark, marks};
ghost use Rattle.arrow_bitmap.specs.MarkWrites.{AppendsAll, AppendsCombined, WritesCombined, clear_count};

use crate::Bitmap;
use crate::bits::count_clear;
use crate::blocks::write_block;
use crate::counts::SetMarks;
use crate::marks::Marks;
use arrow_types::error::Error;
use std::alloc::{AllocError, Global};
use std::mem;
use std::simd::prelude::*;

/// An operation on two marks.
pub(crate) trait MarkOp {
    /// The operation.
    ghost op: { Bool → Bool → Bool };

    /// Applies it to the eight pairs of marks of two bytes.
    fn on_bytes(first: u8, second: u8) -> u8
        ensures { (k : ℕ) → k < 8 → (bit_at result k == 1) ≡ op (bit_at first k == 1) (bit_at second k == 1) };

    /// Applies it to the 512 pairs of marks of eight words and eight others.
    fn on_blocks(left: u64x8, right: u64x8) -> u64x8
        ensures { (k : ℕ) → k < 512 → block_mark result k ≡ op (block_mark left k) (block_mark right k) };
}

/// Whether both marks are set.
struct Conjunction;

impl MarkOp for Conjunction {
    ghost op = { λ first second. first && second };

    #[inline(always)]
    fn on_bytes(first: u8, second: u8) -> u8 {
        first & second
    }

    #[inline(always)]
    fn on_blocks(left: u64x8, right: u64x8) -> u64x8 {
        left & right
    }
}

/// Whether at least one of the marks is set.
struct Disjunction;

impl MarkOp for Disjunction {
    ghost op = { λ first second. first || second };

    #[inline(always)]
    fn on_bytes(first: u8, second: u8) -> u8 {
        first | second
    }

    #[inline(always)]
    fn on_blocks(left: u64x8, right: u64x8) -> u64x8 {
        left | right
    }
}

/// Whether the first mark is clear.
struct Negation;

impl MarkOp for Negation {
    ghost op = { λ first second. not first };

    #[inline(always)]
    fn on_bytes(first: u8, _second: u8) -> u8 {
        !first
    }

    #[inline(always)]
    fn on_blocks(left: u64x8, _right: u64x8) -> u64x8 {
        !left
    }
}

/// The first mark, whatever the second is: a copy.
pub(crate) struct First;

impl MarkOp for First {
    ghost op = { λ first second. first };

    #[inline(always)]
    fn on_bytes(first: u8, _second: u8) -> u8 {
        first
    }

    #[inline(always)]
    fn on_blocks(left: u64x8, _right: u64x8) -> u64x8 {
        left
    }
}

/// Writes the first combined marks over bytes, of which there are at least 64, from byte `from` on, 64 bytes at a time.
/// The last 64 may overlap those before them, so that no rest is left.
// A call, so that short ranges save no registers for it.
#[inline(never)]
fn write_blocks<O: MarkOp>(target: &mut [u8], from: usize, first: &Marks<'_>, second: &Marks<'_>)
    requires some { from + 64 ≤ length target.old }
    requires fits { 8 * (length target.old - from) < 2 ^ 64 }
    requires first { 8 * (length target.old - from) < length first.now }
    requires second { 8 * (length target.old - from) < length second.now }
    ensures marks { WritesCombined O.op first.now second.now from (8 * (length target.old - from))
        target.old target.new }
    ensures len { length target.new ≡ length target.old }
{
    let (first, second) = (first.copied(), second.copied());
    let count = target.len() - from;
    for block in 0..count / 64 {
        let marks = O::on_blocks(first.block(512 * block), second.block(512 * block));
        write_block(target, from + 64 * block, marks);
    }
    let rest = count - 64;
    let marks = O::on_blocks(first.block(8 * rest), second.block(8 * rest));
    write_block(target, from + rest, marks);
}

/// Appends the first `8 * n` combined marks, which fill at least 64 bytes.
fn push_blocks<O: MarkOp>(
    bytes: Vec<u8>,
    first: &Marks<'_>,
    second: &Marks<'_>,
    n: usize,
) -> Vec<u8>
    requires some { 64 ≤ n }
    requires fits { 8 * n < 2 ^ 64 }
    requires first { 8 * n < length first.now }
    requires second { 8 * n < length second.now }
    requires room { vec_len bytes + n ≤ vec_capacity bytes }
    ensures marks { AppendsCombined O.op first.now second.now 0 (8 * n) bytes.items result.items }
    ensures len { vec_len result ≡ vec_len bytes + n }
    ensures capacity { vec_capacity bytes ≤ vec_capacity result }
{
    let start = bytes.len();
    let mut grown = bytes;
    match grown.resize(start + n, 0) {
        Ok(()) => write_blocks::<O>(&mut grown, start, first, second),
        // There is room for them.
        Err(_) => unreachable!(),
    }
    grown
}

/// Appends the first `8 * n` combined marks: 64 bytes at a time if they fill as many, else one.
#[inline(always)]
fn push_bytes<O: MarkOp>(bytes: Vec<u8>, first: &Marks<'_>, second: &Marks<'_>, n: usize) -> Vec<u8>
    requires fits { 8 * n < 2 ^ 64 }
    requires first { 8 * n < length first.now }
    requires second { 8 * n < length second.now }
    requires room { vec_len bytes + n ≤ vec_capacity bytes }
    ensures marks { AppendsCombined O.op first.now second.now 0 (8 * n) bytes.items result.items }
    ensures len { vec_len result ≡ vec_len bytes + n }
    ensures capacity { vec_capacity bytes ≤ vec_capacity result }
{
    if n >= 64 {
        return push_blocks::<O>(bytes, first, second, n);
    }
    let mut grown = bytes;
    for i in 0..n {
        grown.push_reserved(O::on_bytes(first.byte(8 * i), second.byte(8 * i)));
    }
    grown
}

/// Appends the combined marks of two lists of as many, which may begin within a byte, behind whole bytes. The bits
/// behind the last may be anything.
#[inline(always)]
fn push_shifted<O: MarkOp>(bytes: Vec<u8>, first: &Marks<'_>, second: &Marks<'_>) -> Vec<u8>
    requires some { 0 < length first.now }
    requires same { length first.now ≡ length second.now }
    requires room { vec_len bytes + div_ceil (length first.now) 8 ≤ vec_capacity bytes }
    ensures marks { AppendsAll O.op first.now second.now bytes.items result.items }
    ensures len { vec_len result ≡ vec_len bytes + div_ceil (length first.now) 8 }
    ensures capacity { vec_capacity bytes ≤ vec_capacity result }
{
    let last = (first.len() - 1) / 8;
    let mut grown = push_bytes::<O>(bytes, first, second, last);
    grown.push_reserved(O::on_bytes(first.byte(8 * last), second.byte(8 * last)));
    grown
}

/// Appends the combined marks of two lists of as many behind whole bytes. The bits behind the last may be anything.
#[inline(always)]
fn push_combined<O: MarkOp>(bytes: Vec<u8>, first: &Marks<'_>, second: &Marks<'_>) -> Vec<u8>
    requires same { length first.now ≡ length second.now }
    requires room { vec_len bytes + div_ceil (length first.now) 8 ≤ vec_capacity bytes }
    ensures marks { AppendsAll O.op first.now second.now bytes.items result.items }
    ensures len { vec_len result ≡ vec_len bytes + div_ceil (length first.now) 8 }
    ensures capacity { vec_capacity bytes ≤ vec_capacity result }
{
    if first.len() == 0 {
        return bytes;
    }
    let (Some(left), Some(right)) = (first.bytes(), second.bytes()) else {
        return push_shifted::<O>(bytes, first, second);
    };
    let mut grown = bytes;
    for i in 0..left.len() {
        grown.push_reserved(O::on_bytes(left[i], right[i]));
    }
    grown
}

/// Appends combined marks as [`push_combined`] to bytes that another value holds.
pub(crate) fn append_combined<'a, O: MarkOp>(
    bytes: &mut Vec<u8>,
    first: &Marks<'a>,
    second: &Marks<'a>,
) -> Result<(), AllocError>
    requires { length first.now ≡ length second.now }
    ensures ok { OnOk result (AppendsAll O.op first.now second.now bytes.old.items bytes.new.items) }
    ensures len { OnOk result (vec_len bytes.new ≡ vec_len bytes.old + div_ceil (length first.now) 8) }
    ensures err { OnErr result (bytes.new.items ≡ bytes.old.items) }
{
    bytes.reserve(first.len().div_ceil(8))?;
    let empty = Vec::new(*bytes.allocator());
    let held = mem::replace(bytes, empty);
    *bytes = push_combined::<O>(held, first, second);
    Ok(())
}

/// Appends combined marks as [`push_combined`], and returns how many of them are clear.
#[inline(always)]
fn push_counted<O: MarkOp>(
    bytes: Vec<u8>,
    first: &Marks<'_>,
    second: &Marks<'_>,
) -> (Vec<u8>, usize)
    requires same { length first.now ≡ length second.now }
    requires fits { 8 * vec_len bytes + length first.now < 2 ^ 64 }
    requires room { vec_len bytes + div_ceil (length first.now) 8 ≤ vec_capacity bytes }
    ensures marks { AppendsAll O.op first.now second.now bytes.items result.0.items }
    ensures len { vec_len result.0 ≡ vec_len bytes + div_ceil (length first.now) 8 }
    ensures capacity { vec_capacity bytes ≤ vec_capacity result.0 }
    ensures clear { result.1 ≡ clear_count result.0.items (8 * vec_len bytes) (length first.now) }
{
    let start = 8 * bytes.len();
    let grown = push_combined::<O>(bytes, first, second);
    let clear = count_clear(&grown, start, start + first.len());
    (grown, clear)
}

/// How many marks are combined before they are counted: those of four blocks, as [`SetMarks`] adds them.
const TURN: usize = 2048;

/// Returns the combined marks of two lists of as many, as packed bytes, and how many of them are clear.
fn combine_lists<O: MarkOp>(
    alloc: Global,
    first: &Marks<'_>,
    second: &Marks<'_>,
) -> Result<(Vec<u8>, usize), AllocError>
    requires { length first.now ≡ length second.now }
    ensures room { IfOk result (λ made. length first.now ≤ 8 * vec_len made.0) }
    ensures ok { IfOk result (λ made. AppendsAll O.op first.now second.now [] made.0.items) }
    ensures clear { IfOk result (λ made. made.1 ≡ clear_count made.0.items 0 (length first.now)) }
{
    let count = first.len();
    let mut bytes = Vec::with_capacity(alloc, count.div_ceil(8))?;
    let mut set = SetMarks::new();
    for turn in 0..count / TURN {
        let start = TURN * turn;
        let (one, other) = (first.range(start, TURN), second.range(start, TURN));
        bytes = push_combined::<O>(bytes, &one, &other);
        set.add_four(&bytes, 256 * turn);
    }
    let (start, rest) = (count - count % TURN, count % TURN);
    let (one, other) = (first.range(start, rest), second.range(start, rest));
    let (grown, more) = push_counted::<O>(bytes, &one, &other);
    Ok((grown, start - set.count() + more))
}

/// Returns the combined marks of two bitmaps of equal length.
fn combine<O: MarkOp>(alloc: Global, first: &Bitmap, second: &Bitmap) -> Result<Bitmap, Error>
    requires { length first.now ≡ length second.now }
    ensures ok { IfOk result (λ bitmap. bitmap ≡ map (λ pair. O.op pair.0 pair.1) (zip first.now second.now)) }
    ensures err { OnlyOutOfMemory result }
{
    let (bytes, clear) = combine_lists::<O>(alloc, &first.marks(), &second.marks())?;
    Bitmap::from_counted(bytes, first.len(), clear)
}

/// Returns the bitmap of the marks that are set in both of two bitmaps of equal length.
///
/// # Errors
/// `OutOfMemory` if an allocation fails.
pub fn and(alloc: Global, lhs: &Bitmap, rhs: &Bitmap) -> Result<Bitmap, Error>
    requires { length lhs.now ≡ length rhs.now }
    ensures ok { IfOk result (λ bitmap. bitmap ≡ map (λ pair. pair.0 && pair.1) (zip lhs.now rhs.now)) }
    ensures err { OnlyOutOfMemory result }
{
    combine::<Conjunction>(alloc, lhs, rhs)
}

/// Returns the bitmap of the marks that are set in at least one of two bitmaps of equal length.
///
/// # Errors
/// `OutOfMemory` if an allocation fails.
pub fn or(alloc: Global, lhs: &Bitmap, rhs: &Bitmap) -> Result<Bitmap, Error>
    requires { length lhs.now ≡ length rhs.now }
    ensures ok { IfOk result (λ bitmap. bitmap ≡ map (λ pair. pair.0 || pair.1) (zip lhs.now rhs.now)) }
    ensures err { OnlyOutOfMemory result }
{
    combine::<Disjunction>(alloc, lhs, rhs)
}

/// Returns the bitmap of the opposite marks, of which those are clear that were set.
///
/// # Errors
/// `OutOfMemory` if an allocation fails.
pub fn not(alloc: Global, bitmap: &Bitmap) -> Result<Bitmap, Error>
    ensures ok { IfOk result (λ marks. marks ≡ map not bitmap.now) }
    ensures err { OnlyOutOfMemory result }
{
    let marks = bitmap.marks();
    let mut bytes = Vec::with_capacity(alloc, marks.len().div_ceil(8))?;
    append_combined::<Negation>(&mut bytes, &marks, &marks)?;
    Bitmap::from_counted(bytes, bitmap.len(), bitmap.len() - bitmap.unset_bits())
}
