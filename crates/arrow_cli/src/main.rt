//! A table of arrays and builders, from lines to lines. Only tested: that `main` hands its streams to `session` and
//! prints the outcome.
#![tactic(auto)]

use arrow_session::counted::Counted;
use arrow_session::outcome::Outcome;
use arrow_session::session::session;
use std::process::ExitCode;

/// Runs the commands of standard input, and writes their replies to standard output.
fn main(rt: HostRuntime) -> ExitCode {
    let mut input = Counted::new(rt.stdin());
    let mut output = Counted::new(rt.stdout());
    let outcome = session(rt.alloc(), &mut input, &mut output);
    if outcome != Outcome::Done {
        // If standard error fails too, the status still reports the outcome.
        let _ = eprintln!(rt; "{outcome}");
    }
    ExitCode::from(outcome.status())
}
