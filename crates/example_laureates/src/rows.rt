//! Slices of a record batch, and their concatenation.
use crate::cells::{number_at, text_at};
use dethrugn::error::Error;
use example_record_batch::batch::{Field, RecordBatch};
use std::alloc::Global;
use std::io;

/// Prints the rows, a line for each.
pub fn print_rows(rt: &impl Print, table: &RecordBatch) -> io::Result<()> {
    for i in 0..table.num_rows() {
        let year = number_at(table, "year", i).unwrap_or(0);
        let laureate = text_at(table, "laureate", i).unwrap_or("no one");
        let work = text_at(table, "work", i).unwrap_or("no work");
        println!(rt; "  {year} {laureate}: {work}")?;
    }
    Ok(())
}

/// Returns a batch that shares the memory of the columns.
pub fn clone_batch(alloc: Global, table: &RecordBatch) -> Result<RecordBatch, Error> {
    let mut fields = Vec::new(alloc);
    for field in table.fields() {
        let name = field.name.clone()?;
        let array = field.array.clone()?;
        fields.push(Field { name, array })?;
    }
    RecordBatch::try_new(fields, table.num_rows())
}

/// Returns the first `n` rows, or all if there are fewer.
fn first_rows(alloc: Global, table: &RecordBatch, n: usize) -> Result<RecordBatch, Error> {
    let mut rows = clone_batch(alloc, table)?;
    let n = n.min(rows.num_rows());
    rows.slice(0, n);
    Ok(rows)
}

/// Returns the last `n` rows, or all if there are fewer.
fn last_rows(alloc: Global, table: &RecordBatch, n: usize) -> Result<RecordBatch, Error> {
    let mut rows = clone_batch(alloc, table)?;
    let n = n.min(rows.num_rows());
    rows.slice(rows.num_rows() - n, n);
    Ok(rows)
}

/// Returns the first two rows and the last three.
fn ends(alloc: Global, table: &RecordBatch) -> Result<RecordBatch, Error> {
    let mut parts = Vec::new(alloc);
    parts.push(first_rows(alloc, table, 2)?)?;
    parts.push(last_rows(alloc, table, 3)?)?;
    RecordBatch::concat(alloc, parts.as_slice())
}

/// Prints some rows.
pub fn show(rt: &impl Print, alloc: Global, table: &RecordBatch) -> anyhow::Result<()> {
    println!(rt; "the first two rows and the last three:")?;
    print_rows(rt, &ends(alloc, table)?)?;
    Ok(())
}
