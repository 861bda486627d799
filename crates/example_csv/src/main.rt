//! Reads a table of CSV from standard input, selects rows and columns, and prints these or a summary of them.
#![tactic(auto)]

ghost use Rattle.std.specs.Prelude.{◌≡◌, codes};
ghost use Rattle.std.specs.declared.io.ErrorKind.TheVariants.{InvalidData};

mod answer;
mod builder;
mod error;
mod field;
mod group;
mod kind;
mod options;
mod position;
mod read;
mod select;
mod sort;
mod summary;
mod text;
mod write_aligned;
mod write_csv;

use crate::answer::answer;
use crate::error::Error;
use crate::options::{Options, command};
use crate::position::line_of;
use clap::ArgMatches;
use std::hash::RandomState;
use std::io::{BufWriter, Read, Write};
use std::process::ExitCode;
use std::{env, io};

/// Prints what the options ask of the table of a text.
fn run(rt: &HostRuntime, options: &Options, text: &[u8]) -> Result<(), Error> {
    let output = BufWriter::new(rt.alloc(), rt.stdout())?;
    answer(rt.alloc(), RandomState::new(rt)?, options, text, output)?.flush()?;
    Ok(())
}

/// Returns why the arguments can't be read.
fn argument_fault(kind: io::ErrorKind) -> &'static str
    ensures { kind ≡ InvalidData → result.now ≡ codes "an argument is not UTF-8" }
{
    match kind {
        io::ErrorKind::InvalidData => "an argument is not UTF-8",
        _ => "out of memory",
    }
}

/// Does what the matches of a command line ask, and returns the program's status.
fn run_matches(rt: &HostRuntime, matches: &ArgMatches<'_>) -> anyhow::Result<ExitCode> {
    let options = Options::from_matches(rt.alloc(), matches)?;
    let mut text = Vec::new(rt.alloc());
    if let Err(error) = rt.stdin().read_to_end(&mut text) {
        eprintln!(rt; "example_csv: {error}")?;
        return Ok(ExitCode::from(2));
    }
    match run(rt, &options, text.as_slice()) {
        Ok(()) => Ok(ExitCode::SUCCESS),
        Err(error) => {
            match error.byte() {
                Some(byte) => {
                    let line = line_of(text.as_slice(), byte);
                    eprintln!(rt; "example_csv: line {line}: {error}")?
                }
                None => eprintln!(rt; "example_csv: {error}")?,
            }
            Ok(ExitCode::from(2))
        }
    }
}

fn main(rt: HostRuntime) -> anyhow::Result<ExitCode> {
    let words: Vec<String> = match env::args(&rt) {
        Ok(words) => words.collect(rt.alloc())?,
        Err(error) => {
            eprintln!(rt; "example_csv: {}", argument_fault(error.kind()))?;
            return Ok(ExitCode::from(2));
        }
    };
    match command(rt.alloc())?.try_get_matches_from(words.as_slice()) {
        Ok(matches) => run_matches(&rt, &matches),
        Err(error) => {
            error.print(&rt)?;
            Ok(ExitCode::from(error.exit_code() as u8))
        }
    }
}
