//! Tables as CSV: `write_csv` appends the text that `csv_text` defines to what is written.
ghost use Rattle.std.specs.Prelude.{◌≡◌, ◌<◌, IfOk, IfErr, OnOk, false};
ghost use Rattle.std.specs.Io.KnownBytes.{Appends};
ghost use Rattle.csv.specs.Records.{fields_of};
ghost use Rattle.csv.specs.Writing.{default_writer, fields_written, has_written, text_written, writer_setup};
ghost use Rattle.example_csv.specs.Text.{CannotWriteCsv, csv_text, names_of, record_at};

use crate::error::Error;
use crate::text::cell_text;
use csv::{ByteRecord, Writer};
use example_record_batch::batch::RecordBatch;
use std::alloc::{AllocError, Global};
use std::io::Write;

/// Fills `out` with the names of the columns.
fn fill_names(table: &RecordBatch, out: &mut ByteRecord) -> Result<(), AllocError>
    ensures { OnOk result (fields_of out.new ≡ names_of table.now) }
{
    out.clear();
    for field in table.fields() {
        out.push_field(field.name.as_bytes())?;
    }
    Ok(())
}

/// Fills `out` with the texts of a row.
fn fill_row(
    table: &RecordBatch,
    row: usize,
    scratch: &mut String,
    out: &mut ByteRecord,
) -> Result<(), AllocError>
    requires { row < table.now.rows }
    ensures { OnOk result (fields_of out.new ≡ record_at table.now row) }
{
    out.clear();
    for field in table.fields() {
        let text = cell_text(&field.array, row, scratch)?;
        out.push_field(text.as_bytes())?;
    }
    Ok(())
}

/// Writes a record of the names, and then a record for each row. `record` and `scratch` are reused for each record and
/// cell.
fn write_records<W: Write + Drop>(
    table: &RecordBatch,
    record: &mut ByteRecord,
    scratch: &mut String,
    writer: &mut Writer<W>,
) -> Result<(), Error>
    requires setup { writer_setup writer.old ≡ default_writer }
    requires ended { fields_written writer.old ≡ 0 }
    requires clean { has_written writer.old ≡ false }
    ensures ok { OnOk result (Appends (text_written W.contents writer.old) (text_written W.contents writer.new)
        (csv_text table.now)) }
    ensures err { IfErr result (λ e. CannotWriteCsv e) }
{
    fill_names(table, record)?;
    writer.write_byte_record(record)?;
    for row in 0..table.num_rows() {
        fill_row(table, row, scratch, record)?;
        writer.write_byte_record(record)?;
    }
    Ok(())
}

/// Writes a table as CSV: a record of the names, and then a record for each row. Returns the
/// writer.
///
/// # Errors
/// `Csv` if writing fails, `OutOfMemory` if an allocation fails.
pub fn write_csv<W: Write + Drop>(alloc: Global, table: &RecordBatch, to: W) -> Result<W, Error>
    ensures ok { IfOk result (λ w. Appends (W.contents to) (W.contents w) (csv_text table.now)) }
    ensures err { IfErr result (λ e. CannotWriteCsv e) }
{
    let mut writer = Writer::from_writer(to);
    let mut record = ByteRecord::new(alloc);
    let mut scratch = String::new(alloc);
    write_records(table, &mut record, &mut scratch, &mut writer)?;
    match writer.into_inner() {
        Ok(to) => Ok(to),
        Err(refused) => Err(Error::Csv(refused.into_error())),
    }
}
