//! Readers and writers that count their faults, by which the contract of `session` says that `Device` comes of one.
ghost use Rattle.std.specs.Prelude.{◌≡◌, ◌≤◌, false, is_err};
ghost use Rattle.std.specs.Io.{ReadsAtMost, WritesAtMost};
ghost use Rattle.std.specs.Io.KnownBytes.{Keeps, ReadConsumes, WriteAppends};
ghost use Rattle.arrow_session.specs.Counted.{fault_count, found_end, inside, count_after, found_after};
ghost use Rattle.arrow_session.specs.Counted.{is_write_fault};

use std::io;
use std::io::{Read, Write};

/// A reader or a writer that counts its faults: reads, writes and flushes that failed, and writes
/// of a non-empty slice that took nothing. A reader also remembers whether it found the end of its input since the last
/// session on it began.
#[derive(Drop)]
pub struct Counted<R> {
    inner: R,
    faults: u64,
    has_ended: bool,
}

impl<R> Counted<R> {
    /// Creates a reader or a writer with no faults so far. Does not allocate.
    pub fn new(inner: R) -> Self
        ensures count { fault_count result ≡ 0 }
        ensures inside { inside result ≡ inner }
        ensures end { found_end result ≡ false }
    {
        Counted {
            inner,
            faults: 0,
            has_ended: false,
        }
    }

    /// Returns the number of faults, or `u64::MAX` if there were more.
    pub fn count(&self) -> u64
        ensures { result ≡ fault_count self.now }
    {
        self.faults
    }

    /// Returns whether a read found the end of the input since the last session on this reader began, or at all if there
    /// was none.
    pub fn has_ended(&self) -> bool
        ensures { result ≡ found_end self.now }
    {
        self.has_ended
    }

    /// Forgets that a read found the end of the input.
    pub(crate) fn forget_end(&mut self)
        ensures count { fault_count self.new ≡ fault_count self.old }
        ensures inside { inside self.new ≡ inside self.old }
        ensures end { found_end self.new ≡ false }
    {
        self.has_ended = false;
    }

    /// Counts a fault if there was one.
    fn note(&mut self, is_fault: bool)
        ensures count { fault_count self.new ≡ count_after is_fault (fault_count self.old) }
        ensures never_less { fault_count self.old ≤ fault_count self.new }
        ensures inside { inside self.new ≡ inside self.old }
        ensures end { found_end self.new ≡ found_end self.old }
    {
        if is_fault {
            self.faults = self.faults.saturating_add(1);
        }
    }
}

impl<R: Read> Read for Counted<R> {
    ghost remaining = { λ counted. R.remaining (inside counted) };

    fn read(&mut self, buf: &mut [u8]) -> io::Result<usize>
        ensures bound { ReadsAtMost result buf.new }
        ensures bytes { ReadConsumes (R.remaining (inside self.old)) (R.remaining (inside self.new)) result buf.new }
        ensures count { fault_count self.new ≡ count_after (is_err result) (fault_count self.old) }
        ensures never_less { fault_count self.old ≤ fault_count self.new }
        ensures end { found_end self.new ≡ found_after result buf.new (found_end self.old) }
    {
        let result = self.inner.read(buf);
        self.note(result.is_err());
        let is_end = match &result {
            Ok(count) => *count == 0 && !buf.is_empty(),
            Err(_) => false,
        };
        self.has_ended = is_end || self.has_ended;
        result
    }
}

impl<W: Write> Write for Counted<W> {
    ghost contents = { λ counted. W.contents (inside counted) };

    fn write(&mut self, buf: &[u8]) -> io::Result<usize>
        ensures bound { WritesAtMost result buf.now }
        ensures bytes { WriteAppends (W.contents (inside self.old)) (W.contents (inside self.new)) result buf.now }
        ensures count { fault_count self.new ≡ count_after (is_write_fault result buf.now) (fault_count self.old) }
        ensures never_less { fault_count self.old ≤ fault_count self.new }
    {
        let result = self.inner.write(buf);
        let is_fault = match &result {
            Ok(taken) => *taken == 0 && !buf.is_empty(),
            Err(_) => true,
        };
        self.note(is_fault);
        result
    }

    fn flush(&mut self) -> io::Result<()>
        ensures bytes { Keeps (W.contents (inside self.old)) (W.contents (inside self.new)) }
        ensures count { fault_count self.new ≡ count_after (is_err result) (fault_count self.old) }
        ensures never_less { fault_count self.old ≤ fault_count self.new }
    {
        let result = self.inner.flush();
        self.note(result.is_err());
        result
    }
}
