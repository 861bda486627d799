//! A session: the input is read, every line is tested, the commands are run, and then the replies are written.
ghost use Rattle.std.specs.Prelude.{[], ◌≡◌, IfErr, IfOk, IfSome, IsFalse, MatchOption, OnOk, ◌⊎◌, string_bytes};
ghost use Rattle.arrow_interpreter.specs.Replies.{at_first};
ghost use Rattle.arrow_session.specs.Counted.{Faulted, found_end, inside};
ghost use Rattle.arrow_syntax.specs.Lines.{bad_line, commands_of};
ghost use Rattle.arrow_session.specs.Session.{AreCommands, EndsKnown, IsAnswer, IsStop};

use crate::counted::Counted;
use crate::device::{DeviceFault, Fault, read_all, send};
use crate::outcome::Outcome;
use arrow_interpreter::interpreter::Interpreter;
use arrow_interpreter::run::{is_line, run_line};
use arrow_syntax::lines::{all_printable, split_line};
use std::alloc::{AllocError, Global};
use std::io::{Read, Write};

/// Returns the number of the first line that is not a command, counted from 1, or `None` if every line is one or is
/// passed over. Nothing is run or allocated.
fn first_bad_line(input: &[u8]) -> Option<usize>
    ensures { MatchOption result (AreCommands input.now) (λ number. commands_of input.now ≡ bad_line number) }
{
    let printable = all_printable(input);
    let mut number = 1;
    let mut rest = Some(input);
    while let Some(lines) = rest {
        let (line, after) = split_line(lines);
        if !is_line(line, printable) {
            return Some(number);
        }
        number += 1;
        rest = after;
    }
    None
}

/// Runs the lines of an input of commands, in order.
fn run_lines(interpreter: &mut Interpreter, input: &[u8]) -> Result<(), AllocError>
    requires commands { AreCommands input.now }
    requires tables { interpreter.old.tables ≡ at_first }
    requires text { string_bytes interpreter.old.text ≡ [] }
    ensures { OnOk result (IsAnswer input.now (string_bytes interpreter.new.text)) }
{
    let mut rest = Some(input);
    while let Some(lines) = rest {
        let (line, after) = split_line(lines);
        run_line(interpreter, line)?;
        rest = after;
    }
    Ok(())
}

/// Runs an input of commands on tables of empty entries, and returns the text of the replies.
fn text_of(alloc: Global, input: &[u8]) -> Result<String, AllocError>
    requires { AreCommands input.now }
    ensures { IfOk result (λ text. IsAnswer input.now (string_bytes text)) }
{
    let mut interpreter = Interpreter::new(alloc)?;
    let run = run_lines(&mut interpreter, input);
    let text = interpreter.into_text();
    run?;
    Ok(text)
}

/// Returns the text of the replies of an input. Every line is tested before the first is run.
///
/// # Errors
/// Returns `Outcome::BadLine` if a line is not a command; then nothing was run. Returns `Outcome::Memory` if every line
/// is a command and an allocation fails.
pub fn replies_of(alloc: Global, input: &[u8]) -> Result<String, Outcome>
    ensures ok { IfOk result (λ text. IsAnswer input.now (string_bytes text)) }
    ensures err { IfErr result (IsStop input.now) }
{
    if let Some(number) = first_bad_line(input) {
        return Err(Outcome::BadLine(number));
    }
    match text_of(alloc, input) {
        Ok(text) => Ok(text),
        Err(_) => Err(Outcome::Memory),
    }
}

/// Reads the whole input, runs every command on 16 empty entries of each width, and writes a reply for each. If a line
/// is not a command, nothing is run or written.
pub fn session<R: Read, W: Write>(
    alloc: Global,
    input: &mut Counted<R>,
    output: &mut Counted<W>,
) -> Outcome
    // Where the bytes of the reader and the writer are known.
    ensures known { EndsKnown R.remaining W.contents input.old input.new output.old output.new result }
    ensures device { result ≡ Outcome.Device → Faulted input.old input.new ⊎ Faulted output.old output.new }
    // Only a refusal before this session found the end of the input hides a line that is not a command.
    ensures memory { result ≡ Outcome.Memory →
        IsFalse (found_end input.new) ⊎ IfSome (R.remaining (inside input.old)) AreCommands }
{
    let bytes = match read_all(alloc, input) {
        Ok(bytes) => bytes,
        Err(Fault::Device) => return Outcome::Device,
        Err(Fault::Memory) => return Outcome::Memory,
    };
    let text = match replies_of(alloc, &bytes) {
        Ok(text) => text,
        Err(outcome) => return outcome,
    };
    match send(output, text.as_bytes()) {
        Ok(()) => Outcome::Done,
        Err(DeviceFault) => Outcome::Device,
    }
}
