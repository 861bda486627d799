//! Set marks, counted 1,024 at a time: four times four words are added place by place to the digits of the sums so far,
//! and only what is carried is counted. A processor counts the bits of one word a cycle, and adds vectors meanwhile. All
//! digits of four words fit in the sixteen registers of x86-64-v2, those of eight do not.
ghost use Rattle.std.specs.Prelude.{◌≡◌, ℕ, ◌+◌, ◌*◌, ◌^◌, ◌<◌, ◌≤◌, length, count_by, not};
ghost use Rattle.arrow_bitmap.specs.Blocks.{block_set};
ghost use Rattle.arrow_bitmap.specs.Marks.{marks};

use std::marker::Model;
use std::simd::prelude::*;

/// Returns the marks of the 32 bytes from byte `first` on as the bits of four words.
#[inline(always)]
fn four_words(bytes: &[u8], first: usize) -> u64x4
    requires { first + 32 ≤ length bytes.now }
    ensures { block_set result + count_by not (marks bytes.now (8 * first) 256) ≡ 256 }
{
    u64x4::from_le_bytes(u8x32::from_slice(&bytes[first..]))
}

/// Adds the digits of three times four words, mark by mark. Returns the lower digits of the sums, and the higher ones.
#[inline(always)]
fn add_digits(first: u64x4, second: u64x4, third: u64x4) -> (u64x4, u64x4)
    ensures { block_set result.0 + 2 * block_set result.1 ≡ block_set first + block_set second + block_set third }
{
    let odd = first ^ second;
    (odd ^ third, first & second | odd & third)
}

/// Counts the set marks of four words. For x86-64-v2 the compiler makes this of scalar instructions, which a processor
/// does beside those of vectors.
#[inline(always)]
fn set_in_words(block: u64x4) -> usize
    ensures { result ≡ block_set block }
{
    let words = block.to_array();
    let mut set = 0;
    for index in 0..4 {
        set += words[index].count_ones() as usize;
    }
    set
}

/// A number of set marks, in parts: the digits of a sum for each place of four words, and what they carry.
#[derive(Drop)]
pub(crate) struct SetMarks {
    ones: u64x4,
    twos: u64x4,
    fours: usize,
}

// Contracts see the number.
impl Model for SetMarks {
    ghost use Rattle.std.specs.Prelude.{ℕ, ◌+◌, ◌*◌};
    ghost use Rattle.arrow_bitmap.specs.Blocks.{block_set};

    ghost Value = { ℕ };

    ghost view = { λ set. block_set set.ones + 2 * block_set set.twos + 4 * set.fours };
}

impl SetMarks {
    /// Creates the number of no marks.
    #[inline(always)]
    pub(crate) fn new() -> Self
        ensures { result ≡ 0 }
    {
        SetMarks {
            ones: u64x4::splat(0),
            twos: u64x4::splat(0),
            fours: 0,
        }
    }

    /// Adds the set marks of the 128 bytes from byte `first` on.
    #[inline(always)]
    fn add_half(&mut self, bytes: &[u8], first: usize)
        requires within { first + 128 ≤ length bytes.now }
        requires fits { self.old + 1024 < 2 ^ 64 }
        ensures { self.new + count_by not (marks bytes.now (8 * first) 1024) ≡ self.old + 1024 }
    {
        let (low, high) = add_digits(
            self.ones,
            four_words(bytes, first),
            four_words(bytes, first + 32),
        );
        let (ones, carried) = add_digits(
            low,
            four_words(bytes, first + 64),
            four_words(bytes, first + 96),
        );
        let (twos, fours) = add_digits(self.twos, high, carried);
        self.ones = ones;
        self.twos = twos;
        self.fours += set_in_words(fours);
    }

    /// Adds the set marks of the 256 bytes from byte `first` on.
    #[inline(always)]
    pub(crate) fn add_four(&mut self, bytes: &[u8], first: usize)
        requires within { first + 256 ≤ length bytes.now }
        requires fits { self.old + 2048 < 2 ^ 64 }
        ensures { self.new + count_by not (marks bytes.now (8 * first) 2048) ≡ self.old + 2048 }
    {
        self.add_half(bytes, first);
        self.add_half(bytes, first + 128);
    }

    /// Returns the number.
    #[inline(always)]
    pub(crate) fn count(self) -> usize
        requires { self < 2 ^ 64 }
        ensures { result ≡ self }
    {
        4 * self.fours + 2 * set_in_words(self.twos) + set_in_words(self.ones)
    }
}

/// Counts the clear marks of 256 bytes `turns` times, from byte `first` on.
// A call, so that short ranges save no registers for it.
#[inline(never)]
pub(crate) fn count_clear_turns(bytes: &[u8], first: usize, turns: usize) -> usize
    requires within { first + 256 * turns ≤ length bytes.now }
    requires fits { 2048 * turns < 2 ^ 64 }
    ensures { result ≡ count_by not (marks bytes.now (8 * first) (2048 * turns)) }
{
    let mut set = SetMarks::new();
    for turn in 0..turns {
        set.add_four(bytes, first + 256 * turn);
    }
    2048 * turns - set.count()
}
