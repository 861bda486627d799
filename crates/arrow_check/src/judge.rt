//! Judges: bytes that text checks read by counted acts alone, under a rule of which bytes are text.
ghost use Rattle.std.specs.Prelude.{◌≡◌, ◌+◌, ◌<◌, ◌≤◌, ◌↔◌, ℕ, List, IsTrue, length, take, drop};
ghost use Rattle.std.specs.Prelude.{slice_get, Some};
ghost use Rattle.std.specs.Str.{IsAscii};
ghost use Rattle.arrow_check.specs.Reading.{Reading, after_ascii, after_whole_test, after_look};
ghost use Rattle.arrow_check.specs.AsciiText.{TellsAscii};

/// Bytes of which only their number and the answers of three acts can be read. Each act is counted.
/// The type fixes which bytes are text.
pub trait Judge {
    /// The bytes, which no act changes, and the counts of the acts so far.
    ghost reading: { Self → Reading };

    /// Which bytes are text.
    ghost accepts: { List ℕ → Type 0 };

    /// Returns the number of bytes.
    fn len(&self) -> usize
        ensures { result ≡ length (reading self.now).bytes };

    /// Returns whether the `len` bytes from `offset` on are ASCII: all below 80 (hexadecimal).
    fn ascii(&mut self, offset: usize, len: usize) -> bool
        requires { offset + len ≤ length (reading self.old).bytes }
        ensures answer { TellsAscii result (take len (drop offset (reading self.old).bytes)) }
        ensures counted { reading self.new ≡ after_ascii (reading self.old) };

    /// Returns whether the `len` bytes from `offset` on are text.
    fn whole_test(&mut self, offset: usize, len: usize) -> bool
        requires { offset + len ≤ length (reading self.old).bytes }
        ensures answer { IsTrue result ↔ accepts (take len (drop offset (reading self.old).bytes)) }
        ensures counted { reading self.new ≡ after_whole_test (reading self.old) };

    /// Returns the byte at `place`.
    fn look(&mut self, place: usize) -> u8
        requires { place < length (reading self.old).bytes }
        ensures byte { slice_get (reading self.old).bytes place ≡ Some result }
        ensures counted { reading self.new ≡ after_look (reading self.old) };

    /// Returns how often bytes were tested for ASCII.
    fn ascii_tests(&self) -> u64
        ensures { result ≡ (reading self.now).cost.ascii_tests };

    /// Returns how often bytes were tested for text.
    fn whole_tests(&self) -> u64
        ensures { result ≡ (reading self.now).cost.whole_tests };

    /// Returns how often one byte was looked at.
    fn bytes_looked(&self) -> u64
        ensures { result ≡ (reading self.now).cost.bytes_looked };

    /// Bytes that are all ASCII are text.
    ghost takes_ascii: { (bytes : List ℕ) → IsAscii bytes → accepts bytes };
}
