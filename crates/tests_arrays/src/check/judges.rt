//! Judges of the tests' own: one that accepts ASCII alone, and one that accepts any bytes.
ghost use Rattle.std.specs.Prelude.{◌≡◌};
ghost use Rattle.arrow_check.specs.Reading.{one_more};

use arrow_check::cost::{TextBytes, TextCost};
use arrow_check::judge::Judge;

/// Returns one more, up to the greatest number.
fn one_more(count: u64) -> u64
    ensures { result ≡ one_more count }
{
    count.saturating_add(1)
}

/// Bytes of which those below 80 (hexadecimal) alone are text.
#[derive(Drop)]
pub struct AsciiBytes<'a> {
    bytes: &'a [u8],
    ascii_tests: u64,
    whole_tests: u64,
    bytes_looked: u64,
}

impl<'a> AsciiBytes<'a> {
    /// Creates a judge of these bytes, of which nothing was read yet.
    pub fn new(bytes: &'a [u8]) -> Self {
        AsciiBytes {
            bytes,
            ascii_tests: 0,
            whole_tests: 0,
            bytes_looked: 0,
        }
    }
}

impl<'a> Judge for AsciiBytes<'a> {
    ghost use Rattle.std.specs.Prelude.{⊤};
    ghost use Rattle.std.specs.Str.{IsAscii};

    ghost reading = { λ j. record { bytes = j.bytes.now; cost = record { ascii_tests = j.ascii_tests; whole_tests = j.whole_tests; bytes_looked = j.bytes_looked } } };

    ghost accepts = { IsAscii };

    ghost takes_ascii = { λ bytes ascii. ascii };

    fn len(&self) -> usize {
        self.bytes.len()
    }

    fn ascii(&mut self, offset: usize, len: usize) -> bool {
        self.ascii_tests = one_more(self.ascii_tests);
        self.bytes[offset..offset + len].is_ascii()
    }

    fn whole_test(&mut self, offset: usize, len: usize) -> bool {
        self.whole_tests = one_more(self.whole_tests);
        self.bytes[offset..offset + len].is_ascii()
    }

    fn look(&mut self, place: usize) -> u8 {
        self.bytes_looked = one_more(self.bytes_looked);
        self.bytes[place]
    }

    fn ascii_tests(&self) -> u64 {
        self.ascii_tests
    }

    fn whole_tests(&self) -> u64 {
        self.whole_tests
    }

    fn bytes_looked(&self) -> u64 {
        self.bytes_looked
    }
}

/// Bytes any of which are text.
#[derive(Drop)]
pub struct AnyBytes<'a> {
    text: TextBytes<'a>,
}

impl<'a> AnyBytes<'a> {
    /// Creates a judge of these bytes, of which nothing was read yet.
    pub fn new(bytes: &'a [u8]) -> Self {
        AnyBytes {
            text: TextBytes::new(bytes, TextCost::new()),
        }
    }
}

impl<'a> Judge for AnyBytes<'a> {
    ghost use Rattle.std.specs.Prelude.{⊤};

    ghost reading = { λ j. j.text };

    ghost accepts = { λ bytes. ⊤ };

    ghost takes_ascii = { λ bytes ascii. tt };

    fn len(&self) -> usize {
        self.text.len()
    }

    fn ascii(&mut self, offset: usize, len: usize) -> bool {
        self.text.ascii(offset, len)
    }

    fn whole_test(&mut self, offset: usize, len: usize) -> bool {
        self.text.whole_test(offset, len) || true
    }

    fn look(&mut self, place: usize) -> u8 {
        self.text.look(place)
    }

    fn ascii_tests(&self) -> u64 {
        self.text.cost().ascii_tests()
    }

    fn whole_tests(&self) -> u64 {
        self.text.cost().whole_tests()
    }

    fn bytes_looked(&self) -> u64 {
        self.text.cost().bytes_looked()
    }
}
