//! Sessions.
use crate::refusal::{check_text, end};
use arrow_session::counted::Counted;
use arrow_session::outcome::Outcome;
use arrow_session::session::session;
use std::alloc::Global;
use std::io;
use std::io::Read;
use std::test::Fail;
use tests_support::Text;

/// Runs a session over what a reader gives, and writes how it ended, whether input was left, and its output, behind which
/// stand dots.
fn run_session<R: Read>(alloc: Global, input: &mut Counted<R>) -> Text {
    let mut room = [b'.'; 32];
    let outcome = session(alloc, input, &mut Counted::new(room.as_mut_slice()));
    let outcome = match outcome {
        Outcome::Done => Text::of("done"),
        _ => Text::of(outcome),
    };
    let end = if input.has_ended() {
        ""
    } else {
        ", input left"
    };
    let written = str::from_utf8(room.as_slice()).unwrap_or("not text");
    Text::of(format_args!("{}{end}: {written:?}", outcome.as_str()))
}

/// Where a session has not read its input to the end, memory was refused to it, and nothing else is right.
#[test]
fn a_refusal_ends_a_session_or_is_the_reply_of_its_command(rt: HostRuntime) -> Result<(), Fail> {
    let came = run_session(
        rt.alloc(),
        &mut Counted::new("new 0 mprim\npush 0 v1\nlen 0".as_bytes()),
    );
    end(check_text(
        &rt,
        "three commands",
        came,
        "done: \"ok\\nok\\n1\\n........................\"",
        &[
            "done: \"ok\\nrefused: out of memory\\n0\\n....\"",
            "out of memory: \"................................\"",
            "out of memory, input left: \"................................\"",
        ],
    ))
}

/// Lines of which the last is no command. Those before it would need memory.
const BAD_AT_ITS_END: &str =
    "new 0 mprim\nextend 0 v1 v2 v3\nnull 1 prim 1000\nitems 2 utf8 t6869\nlist 2\nlen";

/// Only a refusal while the input is read may end the session with `Memory`, since no line before the bad one is run.
#[test]
fn the_first_bad_line_is_named_before_any_is_run(rt: HostRuntime) -> Result<(), Fail> {
    let came = run_session(rt.alloc(), &mut Counted::new(BAD_AT_ITS_END.as_bytes()));
    end(check_text(
        &rt,
        "a bad last line",
        came,
        "line 6: not a command: \"................................\"",
        &["out of memory, input left: \"................................\""],
    ))
}

/// Finds an end at its first read, and gives bytes at others.
#[derive(Drop)]
struct Late {
    bytes: &'static [u8],
    has_begun: bool,
}

impl Read for Late {
    fn read(&mut self, buf: &mut [u8]) -> io::Result<usize> {
        if self.has_begun {
            return self.bytes.read(buf);
        }
        self.has_begun = true;
        Ok(0)
    }
}

/// The end that was found before the session hides no bad line.
#[test]
fn a_session_forgets_an_end_that_was_found_before(rt: HostRuntime) -> Result<(), Fail> {
    let mut input = Counted::new(Late {
        bytes: BAD_AT_ITS_END.as_bytes(),
        has_begun: false,
    });
    let mut room = [0; 1];
    let _ = input.read(&mut room);
    let came = run_session(rt.alloc(), &mut input);
    end(check_text(
        &rt,
        "a bad last line",
        came,
        "line 6: not a command: \"................................\"",
        &["out of memory, input left: \"................................\""],
    ))
}
