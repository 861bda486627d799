//! Rows and columns of a table: `select` does what the options ask, in the order that README.md gives.
ghost use Rattle.std.specs.Prelude.{◌≡◌, Some, None, Ok, IfOk, IfErr, OnOk, length, map, option_map, string_bytes};
ghost use Rattle.std.specs.List.{filter_map};
ghost use Rattle.example_record_batch.specs.Batches.{HaveRows, column_of, named};
ghost use Rattle.example_csv.specs.Selecting.{Explains, column_named, first_rows, in_columns, rows_where};
ghost use Rattle.example_csv.specs.Selecting.{strings_bytes, truth_column, unknown_name};
ghost use Rattle.example_csv.specs.Steps.{CannotSelect, IsSelected};

use crate::error::Error;
use crate::group::group_rows;
use crate::options::Options;
use crate::sort::sort_rows;
use dethrugn::array::BooleanArray;
use example_record_batch::any::AnyArray;
use example_record_batch::batch::{Field, RecordBatch};
use std::alloc::Global;
use std::hash::RandomState;

/// Returns the column of booleans of a name.
fn truth_column<'a>(
    alloc: Global,
    table: &'a RecordBatch,
    name: &str,
) -> Result<&'a BooleanArray, Error>
    ensures ok { IfOk result (λ found. truth_column name.now (column_of table.now name.now) ≡ Ok found.now) }
    ensures rows { IfOk result (λ found. length found.now.rows ≡ table.now.rows) }
    ensures err { IfErr result (λ e. Explains (truth_column name.now (column_of table.now name.now)) e) }
{
    match table.column(name) {
        Some(AnyArray::Boolean(column)) => Ok(column),
        Some(_) => Err(Error::NotTruth(String::from_str(alloc, name)?)),
        None => Err(Error::UnknownColumn(String::from_str(alloc, name)?)),
    }
}

/// Returns the rows where the column of a name is valid and true, or all if there is no name.
fn filter_rows(
    alloc: Global,
    table: RecordBatch,
    filter: &Option<String>,
) -> Result<RecordBatch, Error>
    ensures ok { IfOk result (λ kept. rows_where (option_map string_bytes filter.now) table ≡ Ok kept) }
    ensures err { IfErr result (λ e. Explains (rows_where (option_map string_bytes filter.now) table) e) }
{
    match filter {
        Some(name) => {
            let column = truth_column(alloc, &table, name.as_str())?;
            Ok(table.filter(alloc, column)?)
        }
        None => Ok(table),
    }
}

/// Returns the columns of these names, which share their memory with those of `table`.
fn named_columns(alloc: Global, table: &RecordBatch, names: &[String]) -> Result<Vec<Field>, Error>
    ensures known { OnOk result (unknown_name table.now (map string_bytes names.now) ≡ None) }
    ensures columns { IfOk result (λ fields. map named fields.items
        ≡ filter_map (column_named table.now) (map string_bytes names.now)) }
    ensures rows { IfOk result (λ fields. HaveRows fields.items table.now.rows) }
    ensures err { IfErr result (λ e. Explains (in_columns (Some (map string_bytes names.now)) table.now) e) }
{
    let mut fields = Vec::new(alloc);
    for name in names {
        match table.column(name.as_str()) {
            Some(array) => {
                let array = array.clone()?;
                let name = name.clone()?;
                fields.push(Field { name, array })?;
            }
            None => return Err(Error::UnknownColumn(name.clone()?)),
        }
    }
    Ok(fields)
}

/// Returns a table of the columns of these names, or of all columns if there are no names.
fn select_columns(
    alloc: Global,
    table: RecordBatch,
    columns: &Option<Vec<String>>,
) -> Result<RecordBatch, Error>
    ensures ok { IfOk result (λ kept. in_columns (option_map strings_bytes columns.now) table ≡ Ok kept) }
    ensures err { IfErr result (λ e. Explains (in_columns (option_map strings_bytes columns.now) table) e) }
{
    match columns {
        Some(names) => {
            let fields = named_columns(alloc, &table, names.as_slice())?;
            Ok(RecordBatch::try_new(fields, table.num_rows())?)
        }
        None => Ok(table),
    }
}

/// Returns at most the first `head` rows, or all if there is no number.
fn first_rows(mut table: RecordBatch, head: Option<usize>) -> RecordBatch
    ensures { result ≡ first_rows head table }
{
    if let Some(n) = head {
        let len = table.num_rows().min(n);
        table.slice(0, len);
    }
    table
}

/// Returns the rows and columns of a table that `options` select: the filter keeps rows, these are grouped and sorted,
/// the columns are chosen, and then the first rows. So the filter and the sort may be by a column that is not kept.
///
/// # Errors
/// `UnknownColumn` with the first name that no column has, in the order of these steps, `NotTruth` if the filter does
/// not hold booleans, the errors of [`group_rows`], `OutOfMemory` if an allocation fails.
#[tactic(auto, unfolding(crate::specs::Steps::CannotSelect))]
pub fn select(
    alloc: Global,
    keys: RandomState,
    table: RecordBatch,
    options: &Options,
) -> Result<RecordBatch, Error>
    ensures ok { IfOk result (IsSelected options.now table) }
    ensures err { IfErr result (CannotSelect options.now table) }
{
    let rows = filter_rows(alloc, table, &options.filter)?;
    let groups = group_rows(alloc, keys, rows, &options.group)?;
    let sorted = sort_rows(alloc, groups, &options.sort)?;
    let columns = select_columns(alloc, sorted, &options.columns)?;
    Ok(first_rows(columns, options.head))
}
