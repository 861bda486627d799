//! Devices that fail, and devices that have to be asked again.
use super::{DONE, FIRST_REPLIES, FIRST_RUN, check_end};
use arrow_session::counted::Counted;
use arrow_session::session::session;
use std::io;
use std::io::{ErrorKind, Read, Write};
use std::process::Abort;
use tests_support::{Text, assert_text};

/// Which read or write fails, counted from one, and in which way.
#[derive(Clone, Copy)]
struct Failure {
    number: usize,
    kind: ErrorKind,
}

/// Gives seven bytes at a time; one read fails so.
#[derive(Drop)]
struct Reader {
    bytes: &'static [u8],
    failure: Failure,
    reads: usize,
}

impl Read for Reader {
    fn read(&mut self, buf: &mut [u8]) -> io::Result<usize> {
        self.reads = self.reads.saturating_add(1);
        if self.reads == self.failure.number {
            return Err(io::Error::from(self.failure.kind));
        }
        let mut piece = &self.bytes[..self.bytes.len().min(7)];
        let count = piece.read(buf)?;
        self.bytes = &self.bytes[self.bytes.len().min(count)..];
        Ok(count)
    }
}

/// Takes three bytes at a time; one write fails so, and each flush may.
#[derive(Drop)]
struct Writer<'a> {
    taken: &'a mut Vec<u8>,
    flushes: &'a mut u32,
    failure: Failure,
    flush_fails: bool,
    writes: usize,
}

impl Write for Writer<'_> {
    fn write(&mut self, buf: &[u8]) -> io::Result<usize> {
        self.writes = self.writes.saturating_add(1);
        if self.writes == self.failure.number {
            return Err(io::Error::from(self.failure.kind));
        }
        let piece = &buf[..buf.len().min(3)];
        self.taken.extend_from_slice(piece)?;
        Ok(piece.len())
    }

    fn flush(&mut self) -> io::Result<()> {
        *self.flushes = self.flushes.saturating_add(1);
        if self.flush_fails {
            return Err(io::Error::from(ErrorKind::Other));
        }
        Ok(())
    }
}

const FAULT: &str = "status 1 device fault";

/// Compares how a session ends of which one write fails, as each flush may, its faults and flushes, and what is written.
fn check_writes(
    rt: &(impl Abort + AllocGlobal),
    case: &str,
    input: &str,
    failure: Failure,
    flush_fails: bool,
    expected: (&str, u64, u32, &str),
) {
    let (mut taken, mut flushes) = (Vec::new(rt.alloc()), 0);
    let mut output = Counted::new(Writer {
        taken: &mut taken,
        flushes: &mut flushes,
        failure,
        flush_fails,
        writes: 0,
    });
    let outcome = session(rt.alloc(), &mut Counted::new(input.as_bytes()), &mut output);
    let faults = output.count();
    drop(output);
    check_end(rt, case, outcome, &taken, (expected.0, expected.3));
    drop(taken);
    assert_text::value((faults, flushes), (expected.1, expected.2)).expect(rt, case);
}

/// A name, an input, how the second write fails, whether each flush does, and what the session comes to.
type Case = (
    &'static str,
    &'static str,
    ErrorKind,
    bool,
    (&'static str, u64, u32, &'static str),
);

#[rattlefmt::skip]
const WRITERS: &[Case] = &[
    ("interrupted", FIRST_RUN, ErrorKind::Interrupted, false, (DONE, 1, 1, FIRST_REPLIES)),
    ("a fault", FIRST_RUN, ErrorKind::Other, false, (FAULT, 1, 0, "ok\n")),
    ("no second write", "new 0 prim", ErrorKind::Other, false, (DONE, 0, 1, "ok\n")),
    ("a flush that fails", "new 0 prim", ErrorKind::Other, true, (FAULT, 1, 1, "ok\n")),
    ("no replies", "# no replies\n", ErrorKind::Other, false, (DONE, 0, 1, "")),
    ("no replies, a flush that fails", "# no replies\n", ErrorKind::Other, true, (FAULT, 1, 1, "")),
];

/// A session flushes once, also if it has no replies, and a flush that failed is a fault.
#[test]
fn a_session_flushes_once(rt: HostRuntime) {
    for (case, input, kind, flush_fails, expected) in WRITERS {
        let (number, kind) = (2, *kind);
        let failure = Failure { number, kind };
        check_writes(&rt, *case, *input, failure, *flush_fails, *expected);
    }
}

/// Each of the seventeen writes of the first run. What was written before is a beginning.
#[test]
fn an_interrupted_write_is_tried_again_and_another_failure_ends_the_session(rt: HostRuntime) {
    for number in 1..18 {
        let begun = FIRST_REPLIES.get(..3 * (number - 1));
        let begun = begun.expect(&rt, "a beginning of the replies");
        for (name, kind, expected) in [
            (
                "interrupted",
                ErrorKind::Interrupted,
                (DONE, 1, 1, FIRST_REPLIES),
            ),
            ("other", ErrorKind::Other, (FAULT, 1, 0, begun)),
            ("broken pipe", ErrorKind::BrokenPipe, (FAULT, 1, 0, begun)),
        ] {
            let case = Text::of(format_args!("{name} at write {number}"));
            let failure = Failure { number, kind };
            check_writes(&rt, case.as_str(), FIRST_RUN, failure, false, expected);
        }
    }
}

/// Each of the sixteen reads of the first run, the last of which finds its end.
#[test]
fn an_interrupted_read_is_tried_again_and_another_failure_ends_the_session(rt: HostRuntime) {
    for number in 1..17 {
        for (name, kind, ended, replies) in [
            ("interrupted", ErrorKind::Interrupted, DONE, FIRST_REPLIES),
            ("other", ErrorKind::Other, FAULT, ""),
            ("broken pipe", ErrorKind::BrokenPipe, FAULT, ""),
        ] {
            let case = Text::of(format_args!("{name} at read {number}"));
            let mut written = Vec::new(rt.alloc());
            let mut input = Counted::new(Reader {
                bytes: FIRST_RUN.as_bytes(),
                failure: Failure { number, kind },
                reads: 0,
            });
            let mut output = Counted::new(&mut written);
            let outcome = session(rt.alloc(), &mut input, &mut output);
            drop(output);
            let faults = input.count();
            drop(input);
            check_end(&rt, case.as_str(), outcome, &written, (ended, replies));
            drop(written);
            assert_text::value(faults, 1).expect(&rt, case.as_str());
        }
    }
}

#[test]
fn a_writer_that_takes_nothing_more_ends_the_session(rt: HostRuntime) {
    let mut room = [0; 3];
    let mut output = Counted::new(room.as_mut_slice());
    let mut input = Counted::new(FIRST_RUN.as_bytes());
    let outcome = session(rt.alloc(), &mut input, &mut output);
    let faults = output.count();
    assert_text::value(faults, 1).expect(&rt, "faults");
    let expected = (FAULT, "ok\n");
    check_end(&rt, "a full writer", outcome, room.as_slice(), expected);
}

#[test]
fn a_writer_is_at_fault_that_takes_nothing_of_something(rt: HostRuntime) {
    for (piece, faults) in [("", 0), ("a", 1)] {
        let mut room = [0; 0];
        let mut output = Counted::new(room.as_mut_slice());
        let _ = output.write(piece.as_bytes());
        assert_text::value(output.count(), faults).expect(&rt, piece);
    }
}

#[test]
fn the_end_is_found_by_a_read_into_room(rt: HostRuntime) {
    let mut input = Counted::new("a".as_bytes());
    let mut room = [0; 1];
    let _ = input.read(&mut room);
    assert_text::value(input.has_ended(), false).expect(&rt, "a read of the last byte");
    let _ = input.read(&mut room[..0]);
    assert_text::value(input.has_ended(), false).expect(&rt, "a read into no room");
    let _ = input.read(&mut room);
    assert_text::value(input.has_ended(), true).expect(&rt, "a read past the last byte");
}
