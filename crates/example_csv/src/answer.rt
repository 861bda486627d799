//! The answer of the program: `answer`, whose contract says what is written of any input whose bytes are known. All
//! other files serve it.
ghost use Rattle.std.specs.Prelude.{◌⊎◌, IfErr, IfOk, IfSome};
ghost use Rattle.std.specs.Io.KnownBytes.{Appends};
ghost use Rattle.example_csv.specs.Answering.{CannotAsk, CannotPrint, IsAsked, Prints, table_text};

use crate::error::Error;
use crate::options::Options;
use crate::read::read_table;
use crate::select::select;
use crate::summary::summary;
use crate::write_aligned::write_aligned;
use crate::write_csv::write_csv;
use example_record_batch::batch::RecordBatch;
use std::alloc::Global;
use std::hash::RandomState;
use std::io::{Read, Write};

/// Reads a table, selects rows and columns, and writes these, or a summary of them. Nothing is written before
/// all is read and selected. Groups are found by hashes with the keys of `keys`, which nobody who writes the table should
/// know.
///
/// # Errors
/// Those of [`read_table`], [`select`], [`summary`], [`write_csv`] and [`write_aligned`].
pub fn answer<R: Read + Drop, W: Write + Drop>(
    alloc: Global,
    keys: RandomState,
    options: &Options,
    input: R,
    output: W,
) -> Result<W, Error>
    ensures ok { IfOk result (λ to. IfSome (R.remaining input)
        (Prints options.now (Appends (W.contents output) (W.contents to)))) }
    ensures err { IfErr result (λ e. IfSome (R.remaining input) (λ text.
        CannotAsk options.now text e ⊎ CannotPrint options.now e)) }
{
    let asked = asked_table(alloc, keys, options, input)?;
    print(alloc, options, &asked, output)
}

/// Returns the rows and columns of a CSV text that the options select, or a summary of them.
fn asked_table<R: Read + Drop>(
    alloc: Global,
    keys: RandomState,
    options: &Options,
    input: R,
) -> Result<RecordBatch, Error>
    ensures ok { IfOk result (λ asked. IfSome (R.remaining input) (λ text. IsAsked options.now text asked)) }
    ensures err { IfErr result (λ e. IfSome (R.remaining input) (λ text. CannotAsk options.now text e)) }
{
    let table = read_table(alloc, input)?;
    let kept = select(alloc, keys, table, options)?;
    if options.summary {
        return summary(alloc, &kept);
    }
    Ok(kept)
}

/// Writes a table as CSV or as aligned columns.
fn print<W: Write + Drop>(
    alloc: Global,
    options: &Options,
    table: &RecordBatch,
    output: W,
) -> Result<W, Error>
    ensures ok { IfOk result (λ to.
        Appends (W.contents output) (W.contents to) (table_text options.now table.now)) }
    ensures err { IfErr result (CannotPrint options.now) }
{
    if options.table {
        write_aligned(alloc, table, output)
    } else {
        write_csv(alloc, table, output)
    }
}
