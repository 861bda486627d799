//! Rows in the order of a column: those of a take by the indexes that sort it.
ghost use Rattle.std.specs.Prelude.{◌≡◌, Ok, IfOk, IfErr, string_bytes};
ghost use Rattle.example_record_batch.specs.AnyArrays.{slot_count};
ghost use Rattle.example_record_batch.specs.Batches.{column_of};
ghost use Rattle.example_csv.specs.Selecting.{Explains, named_array};
ghost use Rattle.example_csv.specs.Sorting.{CannotSort, IsSortedBy, sort_key};

use crate::error::Error;
use dethrugn::compute::sort::SortOptions;
use example_record_batch::any::AnyArray;
use example_record_batch::batch::RecordBatch;
use std::alloc::{AllocError, Global};

/// A column whose values order the rows.
#[derive(Debug, Drop)]
pub struct SortKey {
    /// The column.
    pub column: String,
    /// Whether the greatest value comes first.
    pub descending: bool,
}

impl SortKey {
    /// Creates the key of a column's name that `:asc` or `:desc` may follow.
    ///
    /// # Errors
    /// `AllocError` if an allocation fails.
    pub fn from_str(alloc: Global, text: &str) -> Result<Self, AllocError>
        ensures column { IfOk result (λ key. string_bytes key.column ≡ (sort_key text.now).0) }
        ensures descending { IfOk result (λ key. key.descending ≡ (sort_key text.now).1) }
    {
        let (column, descending) = split_key(text);
        let column = String::from_str(alloc, column)?;
        Ok(SortKey { column, descending })
    }
}

/// Splits the text of a key into the column's name and whether the greatest value comes first.
fn split_key(text: &str) -> (&str, bool)
    ensures column { result.0.now ≡ (sort_key text.now).0 }
    ensures descending { result.1 ≡ (sort_key text.now).1 }
{
    if let Some(column) = text.strip_suffix(":desc") {
        (column, true)
    } else if let Some(column) = text.strip_suffix(":asc") {
        (column, false)
    } else {
        (text, false)
    }
}

/// Returns the column of a name.
///
/// # Errors
/// `UnknownColumn` if no column has the name, `OutOfMemory` if an allocation fails.
pub fn named_array<'a>(
    alloc: Global,
    table: &'a RecordBatch,
    name: &str,
) -> Result<&'a AnyArray, Error>
    ensures ok { IfOk result (λ array. named_array table.now name.now ≡ Ok array.now) }
    ensures rows { IfOk result (λ array. slot_count array.now ≡ table.now.rows) }
    ensures err { IfErr result (Explains (named_array table.now name.now)) }
{
    match table.column(name) {
        Some(array) => Ok(array),
        None => Err(Error::UnknownColumn(String::from_str(alloc, name)?)),
    }
}

/// Returns the rows sorted by a column, or unchanged if `key` is `None`. Nulls come first, and the sort is stable.
///
/// # Errors
/// `UnknownColumn` if no column has the name of the key, `OutOfMemory` if an allocation fails.
pub fn sort_rows(
    alloc: Global,
    table: RecordBatch,
    key: &Option<SortKey>,
) -> Result<RecordBatch, Error>
    ensures ok { IfOk result (IsSortedBy key.now table) }
    ensures err { IfErr result (CannotSort key.now table) }
{
    let Some(key) = key else {
        return Ok(table);
    };
    let array = named_array(alloc, &table, key.column.as_str())?;
    let options = SortOptions {
        descending: key.descending,
        nulls_first: true,
    };
    let indexes = array.sort_to_indices(alloc, options)?;
    Ok(table.take(alloc, indexes.values().as_slice())?)
}
