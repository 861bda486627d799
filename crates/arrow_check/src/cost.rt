//! Bytes that text checks read by counted acts. No other call reads a byte, so the counts are all that a check read.
ghost use Rattle.std.specs.Prelude.{◌≡◌, ◌+◌, ◌<◌, ◌≤◌, ◌↔◌, IsTrue, MatchBool, length, take, drop, slice_get, Some};
ghost use Rattle.std.specs.Str.{IsAscii, IsNotAscii};
ghost use Rattle.arrow_check.specs.Reading.{no_cost, one_more, after_ascii, after_whole_test, after_look};
ghost use Rattle.arrow_check.specs.Utf8.{IsWellFormed};

use crate::judge::Judge;
use std::marker::Model;
use std::simd::prelude::*;

/// Returns the next count, which stays at the greatest number.
#[inline(always)]
fn one_more(count: u64) -> u64
    ensures { result ≡ one_more count }
{
    count.saturating_add(1)
}

/// Returns whether bytes are UTF-8.
#[inline(always)]
fn is_text(bytes: &[u8]) -> bool
    ensures { IsTrue result ↔ IsWellFormed bytes.now }
{
    simdutf8::is_utf8(bytes)
}

/// Returns whether a block of bytes is ASCII.
#[inline(always)]
fn is_ascii_block(block: u8x64) -> bool
    ensures { MatchBool result (IsAscii block) (IsNotAscii block) }
{
    block.simd_ge(u8x64::splat(0x80)).to_bitmask() == 0
}

/// Returns whether bytes are ASCII. Both halves are read side by side, 64 bytes of each under one
/// test, because memory is prefetched faster at two places than at one.
fn is_ascii_by_halves(bytes: &[u8]) -> bool
    ensures { MatchBool result (IsAscii bytes.now) (IsNotAscii bytes.now) }
{
    let half = bytes.len() / 2;
    let front = &bytes[..half];
    let back = &bytes[half..];
    let mut at = 0;
    while half - at >= 64 {
        let first = is_ascii_block(u8x64::from_slice(&front[at..]));
        let second = is_ascii_block(u8x64::from_slice(&back[at..]));
        if !(first & second) {
            return false;
        }
        at += 64;
    }
    if !front[at..].is_ascii() {
        return false;
    }
    back[at..].is_ascii()
}

/// The cost of text checks: how often each act of reading was done. Each count stays at `u64::MAX`.
#[derive(Clone, Copy, Debug, Drop, PartialEq, Eq)]
pub struct TextCost {
    ascii_tests: u64,
    whole_tests: u64,
    bytes_looked: u64,
}

// Contracts see the three counts.
impl Model for TextCost {
    ghost use Rattle.arrow_check.specs.Reading.{Cost};

    ghost Value = { Cost };

    ghost view = { λ c. record {
      ascii_tests = c.ascii_tests;
      whole_tests = c.whole_tests;
      bytes_looked =
          c.bytes_looked;
    } };

    ghost inverse = { λ c. record {
      ascii_tests = c.ascii_tests;
      whole_tests = c.whole_tests;
      bytes_looked =
          c.bytes_looked;
    } };
}

impl TextCost {
    /// Creates counts of zero.
    pub fn new() -> Self
        ensures { result ≡ no_cost }
    {
        TextCost {
            ascii_tests: 0,
            whole_tests: 0,
            bytes_looked: 0,
        }
    }

    /// Returns how often bytes were tested for ASCII.
    pub fn ascii_tests(&self) -> u64
        ensures { result ≡ self.now.ascii_tests }
    {
        self.ascii_tests
    }

    /// Returns how often bytes were tested for UTF-8.
    pub fn whole_tests(&self) -> u64
        ensures { result ≡ self.now.whole_tests }
    {
        self.whole_tests
    }

    /// Returns how often one byte was looked at.
    pub fn bytes_looked(&self) -> u64
        ensures { result ≡ self.now.bytes_looked }
    {
        self.bytes_looked
    }
}

/// Bytes that a text check reads by three counted acts, and by these alone.
#[derive(Drop)]
pub struct TextBytes<'a> {
    bytes: &'a [u8],
    cost: TextCost,
}

// Contracts see the bytes and the counts.
impl<'a> Model for TextBytes<'a> {
    ghost use Rattle.arrow_check.specs.Reading.{Reading};

    ghost Value = { Reading };

    ghost view = { λ t. record { bytes = t.bytes.now; cost = t.cost } };
}

impl<'a> TextBytes<'a> {
    /// Creates a judge of these bytes, which counts on from `cost`.
    #[inline(always)]
    pub fn new(bytes: &'a [u8], cost: TextCost) -> Self
        ensures bytes { result.bytes ≡ bytes.entry.now }
        ensures cost { result.cost ≡ cost }
    {
        TextBytes { bytes, cost }
    }

    /// Returns the counts.
    #[inline(always)]
    pub fn cost(&self) -> TextCost
        ensures { result ≡ self.now.cost }
    {
        self.cost
    }

    /// Returns the number of bytes.
    #[inline(always)]
    pub fn len(&self) -> usize
        ensures { result ≡ length self.now.bytes }
    {
        self.bytes.len()
    }

    /// Returns whether the `len` bytes from `offset` on are ASCII: all below 80 (hexadecimal).
    #[inline(always)]
    pub fn ascii(&mut self, offset: usize, len: usize) -> bool
        requires { offset + len ≤ length self.old.bytes }
        ensures answer { MatchBool result (IsAscii (take len (drop offset self.old.bytes)))
            (IsNotAscii (take len (drop offset self.old.bytes))) }
        ensures counted { self.new ≡ after_ascii self.old }
    {
        self.cost.ascii_tests = one_more(self.cost.ascii_tests);
        is_ascii_by_halves(&self.bytes[offset..offset + len])
    }

    /// Returns whether the `len` bytes from `offset` on are UTF-8.
    #[inline(always)]
    pub fn whole_test(&mut self, offset: usize, len: usize) -> bool
        requires { offset + len ≤ length self.old.bytes }
        ensures answer { IsTrue result ↔ IsWellFormed (take len (drop offset self.old.bytes)) }
        ensures counted { self.new ≡ after_whole_test self.old }
    {
        self.cost.whole_tests = one_more(self.cost.whole_tests);
        is_text(&self.bytes[offset..offset + len])
    }

    /// Returns the byte at `place`.
    #[inline(always)]
    pub fn look(&mut self, place: usize) -> u8
        requires { place < length self.old.bytes }
        ensures byte { slice_get self.old.bytes place ≡ Some result }
        ensures counted { self.new ≡ after_look self.old }
    {
        self.cost.bytes_looked = one_more(self.cost.bytes_looked);
        self.bytes[place]
    }
}

// The judge whose rule is Unicode's.
impl<'a> Judge for TextBytes<'a> {
    ghost use Rattle.arrow_check.specs.Utf8.{IsWellFormed};
    ghost use Rattle.arrow_check.specs.AsciiText.{ascii_is_text};

    ghost reading = { λ text. text };

    ghost accepts = { IsWellFormed };

    ghost takes_ascii = { ascii_is_text };

    #[inline(always)]
    fn len(&self) -> usize {
        self.len()
    }

    #[inline(always)]
    fn ascii(&mut self, offset: usize, len: usize) -> bool {
        self.ascii(offset, len)
    }

    #[inline(always)]
    fn whole_test(&mut self, offset: usize, len: usize) -> bool {
        self.whole_test(offset, len)
    }

    #[inline(always)]
    fn look(&mut self, place: usize) -> u8 {
        self.look(place)
    }

    #[inline(always)]
    fn ascii_tests(&self) -> u64 {
        self.cost.ascii_tests
    }

    #[inline(always)]
    fn whole_tests(&self) -> u64 {
        self.cost.whole_tests
    }

    #[inline(always)]
    fn bytes_looked(&self) -> u64 {
        self.cost.bytes_looked
    }
}
