//! Whole sessions over known bytes, with ample memory. More of them are files in `examples/`.
mod devices;
mod lines;

use arrow_session::counted::Counted;
use arrow_session::outcome::Outcome;
use arrow_session::session::session;
use std::process::Abort;
use tests_support::{Text, assert_text};

/// A builder that is filled, popped, frozen, sliced and looked at.
pub(crate) const FIRST_RUN: &str = concat!(
    "new 0 mprim\npush 0 v1\npush 0 _\npush 0 v2\npop 0\npush 0 v3\nfreeze 0\nlist 0\n",
    "slice 0 1 2\nlist 0\nlen 0\npop 0\n",
);

/// The replies.
pub(crate) const FIRST_REPLIES: &str =
    "ok\nok\nok\nok\nv2\nok\nok\n[v1 _ v3]\nok\n[_ v3]\n2\nnot met\n";

/// Compares how a session ended, by its status and words, and what it wrote.
pub(crate) fn check_end(
    rt: &impl Abort,
    case: &str,
    outcome: Outcome,
    written: &[u8],
    expected: (&str, &str),
) {
    let came = Text::of(format_args!("status {} {outcome}", outcome.status()));
    assert_text::text(came, expected.0).expect(rt, case);
    let replies = str::from_utf8(written).ok().expect(rt, "replies are text");
    assert_text::text(Text::of(replies), expected.1).expect(rt, case);
}

/// Compares how a session over an input ends, and what it writes.
pub(crate) fn check_session(
    rt: &(impl Abort + AllocGlobal),
    case: &str,
    input: &[u8],
    expected: (&str, &str),
) {
    let mut written = Vec::new(rt.alloc());
    let mut output = Counted::new(&mut written);
    let outcome = session(rt.alloc(), &mut Counted::new(input), &mut output);
    drop(output);
    check_end(rt, case, outcome, &written, expected);
    drop(written);
}

/// How a session ends whose lines are all commands.
pub(crate) const DONE: &str = "status 0 ";

/// A name, an input, how its session ends, and the replies.
#[rattlefmt::skip]
const SESSIONS: &[(&str, &str, (&str, &str))] = &[
    ("first run", FIRST_RUN, (DONE, FIRST_REPLIES)),
    ("a bad line", "new 0 mprim\npush 0 1\n", ("status 2 line 2: not a command", "")),
    ("no line", "", (DONE, "")),
    ("no command", "# nothing is asked\n\n   ", (DONE, "")),
];

#[test]
fn commands_are_answered_unless_a_line_is_none(rt: HostRuntime) {
    for (case, input, expected) in SESSIONS {
        check_session(&rt, *case, input.as_bytes(), *expected);
    }
}

#[test]
fn outcomes_have_a_status_and_words(rt: HostRuntime) {
    for (outcome, expected) in [
        (Outcome::Done, DONE),
        (Outcome::BadLine(2), "status 2 line 2: not a command"),
        (Outcome::Device, "status 1 device fault"),
        (Outcome::Memory, "status 1 out of memory"),
    ] {
        check_end(&rt, "an outcome", outcome, b"", (expected, ""));
    }
}
