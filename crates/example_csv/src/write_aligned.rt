//! Tables as aligned columns: `write_aligned` appends the text that `aligned_text` defines to what is written.
ghost use Rattle.std.specs.Prelude.{◌≡◌, ◌<◌, ◌++◌, codes, encode_utf8, replicate, string_bytes, IfOk, IfErr, OnOk};
ghost use Rattle.std.specs.Io.KnownBytes.{Appends};
ghost use Rattle.std.specs.Str.{trim_end};
ghost use Rattle.example_record_batch.specs.AnyArrays.{slot_count};
ghost use Rattle.example_record_batch.specs.Batches.{named};
ghost use Rattle.example_csv.specs.Aligned.{CannotWrite, aligned_text, column_width, column_widths, dashes_line};
ghost use Rattle.example_csv.specs.Aligned.{is_number, names_line, padded, row_line, shown, shown_char, shown_width};

use crate::error::Error;
use crate::text::cell_text;
use example_record_batch::any::AnyArray;
use example_record_batch::batch::{Field, RecordBatch};
use std::alloc::{AllocError, Global};
use std::io::Write;
use unicode_width::UnicodeWidthStr;

/// Memory for a line and for a cell, used again for each.
#[derive(Drop)]
struct Line {
    text: String,
    cell: String,
}

/// Returns the character as it is shown: a space for a control character.
fn shown_char(c: char) -> char
    ensures { result ≡ shown_char c }
{
    if c.is_control() { ' ' } else { c }
}

/// Fills `cell` with a text as it is shown and returns its width.
fn show(text: &str, cell: &mut String) -> Result<usize, AllocError>
    ensures cell { OnOk result (string_bytes cell.new ≡ shown text.now) }
    ensures width { IfOk result (λ width. width ≡ shown_width text.now) }
{
    cell.clear();
    for c in text.chars() {
        cell.push(shown_char(c))?;
    }
    Ok(cell.as_str().width())
}

/// Appends `n` spaces or dashes.
fn push_times(line: &mut String, c: char, n: usize) -> Result<(), AllocError>
    requires { c < 128 }
    ensures { OnOk result (string_bytes line.new ≡ string_bytes line.old ++ replicate n c) }
{
    for _ in 0..n {
        line.push(c)?;
    }
    Ok(())
}

/// Appends a cell that is padded to `width`, and two spaces.
fn push_cell(line: &mut Line, text: &str, width: usize, on_left: bool) -> Result<(), AllocError>
    ensures { OnOk result (string_bytes line.new.text
        ≡ string_bytes line.old.text ++ (padded on_left width text.now ++ codes "  ")) }
{
    let spaces = width.saturating_sub(show(text, &mut line.cell)?);
    if on_left {
        push_times(&mut line.text, ' ', spaces)?;
        line.text.push_str(line.cell.as_str())?;
    } else {
        line.text.push_str(line.cell.as_str())?;
        push_times(&mut line.text, ' ', spaces)?;
    }
    line.text.push_str("  ")
}

/// Writes the line without the white space at its end.
fn write_line<W: Write>(line: &mut Line, to: &mut W) -> Result<(), Error>
    ensures ok { OnOk result (Appends (W.contents to.old) (W.contents to.new)
        (trim_end (string_bytes line.old.text) ++ codes "\n")) }
    ensures err { IfErr result (λ e. CannotWrite e) }
{
    line.cell.clear();
    line.cell.push_str(line.text.as_str().trim_end())?;
    line.cell.push_str("\n")?;
    to.write_all(line.cell.as_bytes())?;
    Ok(())
}

/// Returns whether the array holds numbers, which are aligned to the right.
fn is_number(array: &AnyArray) -> bool
    ensures { result ≡ is_number array.now }
{
    matches!(array, AnyArray::Int64(_))
}

/// Returns the width of the widest of a column's name and cells.
fn column_width(
    field: &Field,
    rows: usize,
    scratch: &mut String,
    cell: &mut String,
) -> Result<usize, AllocError>
    requires { slot_count field.now.array ≡ rows }
    ensures { IfOk result (λ width. width ≡ column_width rows (named field.now)) }
{
    let mut width = show(field.name.as_str(), cell)?;
    for row in 0..rows {
        let text = cell_text(&field.array, row, scratch)?;
        let shown = show(text, cell)?;
        width = width.max(shown);
    }
    Ok(width)
}

/// Returns the width of each column.
fn column_widths(
    alloc: Global,
    table: &RecordBatch,
    scratch: &mut String,
    cell: &mut String,
) -> Result<Vec<usize>, AllocError>
    ensures { IfOk result (λ widths. widths.items ≡ column_widths table.now) }
{
    let mut widths = Vec::new(alloc);
    for field in table.fields() {
        widths.push(column_width(field, table.num_rows(), scratch, cell)?)?;
    }
    Ok(widths)
}

/// Writes the names of the columns.
fn write_names<W: Write>(
    table: &RecordBatch,
    widths: &[usize],
    line: &mut Line,
    to: &mut W,
) -> Result<(), Error>
    requires { widths.now ≡ column_widths table.now }
    ensures ok { OnOk result (Appends (W.contents to.old) (W.contents to.new) (names_line table.now)) }
    ensures err { IfErr result (λ e. CannotWrite e) }
{
    line.text.clear();
    for (i, field) in table.fields().iter().enumerate() {
        push_cell(
            line,
            field.name.as_str(),
            widths[i],
            is_number(&field.array),
        )?;
    }
    write_line(line, to)
}

/// Writes dashes under the names of the columns.
fn write_dashes<W: Write>(widths: &[usize], line: &mut Line, to: &mut W) -> Result<(), Error>
    ensures ok { OnOk result (Appends (W.contents to.old) (W.contents to.new) (dashes_line widths.now)) }
    ensures err { IfErr result (λ e. CannotWrite e) }
{
    line.text.clear();
    for width in widths {
        push_times(&mut line.text, '-', *width)?;
        line.text.push_str("  ")?;
    }
    write_line(line, to)
}

/// Writes the cells of a row.
fn write_row<W: Write>(
    table: &RecordBatch,
    row: usize,
    widths: &[usize],
    scratch: &mut String,
    line: &mut Line,
    to: &mut W,
) -> Result<(), Error>
    requires widths { widths.now ≡ column_widths table.now }
    requires row { row < table.now.rows }
    ensures ok { OnOk result (Appends (W.contents to.old) (W.contents to.new) (row_line table.now row)) }
    ensures err { IfErr result (λ e. CannotWrite e) }
{
    line.text.clear();
    for (i, field) in table.fields().iter().enumerate() {
        let text = cell_text(&field.array, row, scratch)?;
        push_cell(line, text, widths[i], is_number(&field.array))?;
    }
    write_line(line, to)
}

/// Writes the names of the columns, a line of dashes and the rows. `scratch` and `line` are reused for each cell and line.
fn write_lines<W: Write>(
    alloc: Global,
    table: &RecordBatch,
    scratch: &mut String,
    line: &mut Line,
    to: &mut W,
) -> Result<(), Error>
    ensures ok { OnOk result (Appends (W.contents to.old) (W.contents to.new) (aligned_text table.now)) }
    ensures err { IfErr result (λ e. CannotWrite e) }
{
    let widths = column_widths(alloc, table, scratch, &mut line.cell)?;
    write_names(table, widths.as_slice(), line, to)?;
    write_dashes(widths.as_slice(), line, to)?;
    for row in 0..table.num_rows() {
        write_row(table, row, widths.as_slice(), scratch, line, to)?;
    }
    Ok(())
}

/// Writes a table as aligned columns: numbers to the right and anything else to the left, under
/// the names and a line of dashes. Returns the writer.
///
/// # Errors
/// `Io` if writing fails, `OutOfMemory` if an allocation fails.
pub fn write_aligned<W: Write + Drop>(
    alloc: Global,
    table: &RecordBatch,
    mut to: W,
) -> Result<W, Error>
    ensures ok { IfOk result (λ w. Appends (W.contents to) (W.contents w) (aligned_text table.now)) }
    ensures err { IfErr result (λ e. CannotWrite e) }
{
    let mut scratch = String::new(alloc);
    let mut line = Line {
        text: String::new(alloc),
        cell: String::new(alloc),
    };
    write_lines(alloc, table, &mut scratch, &mut line, &mut to)?;
    Ok(to)
}
