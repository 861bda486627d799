//! Reads a table of CSV in one pass. The contract of `read_table` says which table a text is, and for which reasons one
//! is refused.
ghost use Rattle.std.specs.Prelude.{◌≡◌, ℕ, List, [], IfErr, IfOk, IfSome, OnOk, Some};
ghost use Rattle.csv.specs.Reading.{source_of, strip_bom};
ghost use Rattle.csv.specs.Records.{fields_of};
ghost use Rattle.example_record_batch.specs.Batches.{named};
ghost use Rattle.example_csv.specs.Builders.{IsOutOfMemory};
ghost use Rattle.example_csv.specs.Reading.{AreBuiltOf, CannotPushRow, IsBuiltOf, IsColumnOf, IsRefused, IsTableOfText};
ghost use Rattle.example_csv.specs.Reading.{AppendsRow, ForBuilt};
ghost use Rattle.example_csv.specs.Reading.{HasReadNothing, IsTableOf};

use crate::builder::Builder;
use crate::error::Error;
use crate::field::split_header;
use csv::{Reader, ReaderBuilder, StringRecord};
use example_record_batch::batch::{Field, RecordBatch};
use std::alloc::Global;
use std::io::Read;

/// A growing column and its name.
#[derive(Drop)]
pub struct NamedBuilder {
    pub name: String,
    pub builder: Builder,
}

/// Reads a table: the first record names the columns, and may declare their types.
///
/// # Errors
/// `Csv` if the text cannot be read or is not CSV, or a record differs in length from the first; `NoHeader` if
/// there is no record; `Field` if a field is not of the type that its column declares; `Overflow` if the text of a
/// column is longer than offsets of `i32` can count; `OutOfMemory` if an allocation fails.
pub fn read_table<R: Read + Drop>(alloc: Global, input: R) -> Result<RecordBatch, Error>
    ensures ok { IfOk result (λ table. IfSome (R.remaining input) (λ text. IsTableOfText text table)) }
    ensures err { IfErr result (λ e. IfSome (R.remaining input) (λ text. IsRefused text e)) }
{
    let mut reader = ReaderBuilder::new()
        .has_headers(false)
        .from_reader(alloc, input);
    let mut record = StringRecord::new(alloc);
    read_records(alloc, &mut reader, &mut record)
}

/// Reads the records of a table. `record` is memory that is used again for each.
fn read_records<R: Read + Drop>(
    alloc: Global,
    reader: &mut Reader<R>,
    record: &mut StringRecord,
) -> Result<RecordBatch, Error>
    requires { HasReadNothing reader.old }
    ensures ok { IfOk result (λ table. (text : _) → source_of R.remaining reader.old ≡ Some (strip_bom text)
        → IsTableOfText text table) }
    ensures err { IfErr result (λ e. (text : List ℕ) → source_of R.remaining reader.old ≡ Some (strip_bom text)
        → IsRefused text e) }
{
    if !reader.read_record(record)? {
        return Err(Error::NoHeader);
    }
    let mut columns = builders_of(alloc, record)?;
    for height in 0..usize::MAX {
        if !reader.read_record(record)? {
            return freeze(alloc, columns, height);
        }
        push_record(&mut columns, record)?;
    }
    Err(Error::OutOfMemory)
}

/// Creates a growing column for each header field.
fn builders_of(alloc: Global, headers: &StringRecord) -> Result<Vec<NamedBuilder>, Error>
    ensures ok { IfOk result (λ columns. AreBuiltOf (fields_of headers.now) [] columns.items) }
    ensures err { IfErr result IsOutOfMemory }
{
    let mut columns = Vec::new(alloc);
    for header in headers {
        columns.push(builder_of(alloc, header)?)?;
    }
    Ok(columns)
}

/// Creates the growing column of a header field.
fn builder_of(alloc: Global, header: &str) -> Result<NamedBuilder, Error>
    ensures ok { IfOk result (λ column. IsBuiltOf header.now [] column) }
    ensures err { IfErr result IsOutOfMemory }
{
    let (name, declared) = split_header(header);
    let name = String::from_str(alloc, name)?;
    let builder = Builder::new(alloc, declared)?;
    Ok(NamedBuilder { name, builder })
}

/// Appends a row, each field to its column.
fn push_record(columns: &mut Vec<NamedBuilder>, row: &StringRecord) -> Result<(), Error>
    ensures ok { OnOk result (AppendsRow columns.old.items (fields_of row.now) columns.new.items) }
    ensures err { IfErr result (CannotPushRow columns.old.items (fields_of row.now)) }
{
    let byte = match row.position() {
        Some(position) => position.byte(),
        None => 0,
    };
    for (i, column) in columns.iter_mut().enumerate() {
        column.builder.push(row.get(i).unwrap_or(""), byte, i + 1)?;
    }
    Ok(())
}

/// Converts a growing column into one of a table.
fn freeze_column(alloc: Global, column: NamedBuilder) -> Result<Field, Error>
    ensures ok { (header : _) (fields : _) → IsBuiltOf header fields column
        → IfOk result (λ it. IsColumnOf header fields (named it)) }
    ensures err { IfErr result IsOutOfMemory }
{
    let NamedBuilder { name, builder } = column;
    let array = builder.freeze(alloc)?;
    Ok(Field { name, array })
}

/// Creates the table of columns of `height` rows.
fn freeze(alloc: Global, columns: Vec<NamedBuilder>, height: usize) -> Result<RecordBatch, Error>
    ensures ok { ForBuilt columns.items height (λ headers rows. IfOk result (IsTableOf headers rows)) }
    ensures err { ForBuilt columns.items height (λ headers rows. IfErr result IsOutOfMemory) }
{
    let mut fields = Vec::new(alloc);
    for column in columns {
        fields.push(freeze_column(alloc, column)?)?;
    }
    Ok(RecordBatch::try_new(fields, height)?)
}
