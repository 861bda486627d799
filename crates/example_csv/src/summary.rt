//! A summary of a table: a row for each column, by `IsSummary`.
ghost use Rattle.std.specs.Prelude.{◌≡◌, ◌∷◌, ◌++◌, [], Some, ℕ, length, map, option_map};
ghost use Rattle.std.specs.Prelude.{IfOk, IfErr, OnOk};
ghost use Rattle.example_record_batch.specs.AnyArrays.{cells_of, nulls_of, slot_count, text};
ghost use Rattle.example_record_batch.specs.Batches.{HaveRows, batch_of, named};
ghost use Rattle.example_csv.specs.Summary.{CannotSummarize, IsGreatestOf, IsLeastOf, IsSummary, count_cells, HasLeast};
ghost use Rattle.example_csv.specs.Summary.{HasGreatest, new_column};
ghost use Rattle.example_csv.specs.Summary.{count_number, type_name};

use crate::error::Error;
use crate::text::{number_text, truth_text};
use dethrugn::array::{MutablePrimitiveArray, MutableUtf8Array};
use dethrugn::buffer::Buffer;
use dethrugn::compute::aggregate::{
    max_boolean, max_primitive, max_string, min_boolean, min_primitive, min_string,
};
use dethrugn::laws::BytesAround;
use dethrugn::laws::column::appended_slots;
use example_record_batch::any::AnyArray;
use example_record_batch::batch::{Field, RecordBatch};
use std::alloc::{AllocError, Global};

/// Returns the name of a column's type.
fn type_name(array: &AnyArray) -> &'static str
    ensures { result.now ≡ type_name array.now }
{
    match array {
        AnyArray::Int64(_) => "i64",
        AnyArray::Boolean(_) => "bool",
        AnyArray::Binary(_) => "bytes",
        AnyArray::Utf8(_) => "text",
    }
}

/// Returns a count as an `i64`, or the greatest `i64` if it is greater.
fn count_number(count: usize) -> i64
    ensures { result ≡ count_number count }
{
    i64::try_from(count).unwrap_or(i64::MAX)
}

/// Returns the text of the least value of a column, or `None` if no slot is valid. A number is
/// written into `scratch`. Bytes are not compared.
fn least_text<'a>(
    array: &'a AnyArray,
    scratch: &'a mut String,
) -> Result<Option<&'a str>, AllocError>
    ensures { IfOk result (λ least. IsLeastOf array.now (option_map (λ s. s.now) least)) }
{
    Ok(match array {
        AnyArray::Int64(array) => match min_primitive(array) {
            Some(least) => Some(number_text(least, scratch)?),
            None => None,
        },
        AnyArray::Boolean(array) => match min_boolean(array) {
            Some(least) => Some(truth_text(least)),
            None => None,
        },
        AnyArray::Utf8(array) => min_string(array),
        AnyArray::Binary(_) => None,
    })
}

/// Returns the text of the greatest value of a column, or `None` if no slot is valid. A number is
/// written into `scratch`. Bytes are not compared.
fn greatest_text<'a>(
    array: &'a AnyArray,
    scratch: &'a mut String,
) -> Result<Option<&'a str>, AllocError>
    ensures { IfOk result (λ greatest. IsGreatestOf array.now (option_map (λ s. s.now) greatest)) }
{
    Ok(match array {
        AnyArray::Int64(array) => match max_primitive(array) {
            Some(greatest) => Some(number_text(greatest, scratch)?),
            None => None,
        },
        AnyArray::Boolean(array) => match max_boolean(array) {
            Some(greatest) => Some(truth_text(greatest)),
            None => None,
        },
        AnyArray::Utf8(array) => max_string(array),
        AnyArray::Binary(_) => None,
    })
}

/// Returns the names of the columns.
fn names(alloc: Global, table: &RecordBatch) -> Result<AnyArray, Error>
    ensures ok { IfOk result (λ array. cells_of array ≡ map (λ column. text (Some column.name)) table.now.columns) }
    ensures err { IfErr result (λ e. CannotSummarize e) }
{
    appended_slots::<BytesAround, Buffer<u8>>();
    let mut names = MutableUtf8Array::new(alloc)?;
    for field in table.fields() {
        names.push(Some(field.name.as_str()))?;
    }
    Ok(AnyArray::Utf8(names.freeze()?))
}

/// Returns the name of the type of each column.
fn types(alloc: Global, table: &RecordBatch) -> Result<AnyArray, Error>
    ensures ok { IfOk result (λ array. cells_of array
        ≡ map (λ column. text (Some (type_name column.array))) table.now.columns) }
    ensures err { IfErr result (λ e. CannotSummarize e) }
{
    appended_slots::<BytesAround, Buffer<u8>>();
    let mut types = MutableUtf8Array::new(alloc)?;
    for field in table.fields() {
        types.push(Some(type_name(&field.array)))?;
    }
    Ok(AnyArray::Utf8(types.freeze()?))
}

/// Returns the number of rows of each column.
fn row_counts(alloc: Global, table: &RecordBatch) -> Result<AnyArray, Error>
    ensures ok { IfOk result (λ array. cells_of array ≡ count_cells slot_count table.now.columns) }
    ensures err { IfErr result (λ e. CannotSummarize e) }
{
    appended_slots::<(), i64>();
    let mut counts = MutablePrimitiveArray::<i64>::new(alloc);
    for field in table.fields() {
        counts.push(Some(count_number(field.array.len())))?;
    }
    Ok(AnyArray::Int64(counts.freeze()?))
}

/// Returns the number of nulls of each column.
fn null_counts(alloc: Global, table: &RecordBatch) -> Result<AnyArray, Error>
    ensures ok { IfOk result (λ array. cells_of array ≡ count_cells nulls_of table.now.columns) }
    ensures err { IfErr result (λ e. CannotSummarize e) }
{
    appended_slots::<(), i64>();
    let mut counts = MutablePrimitiveArray::<i64>::new(alloc);
    for field in table.fields() {
        counts.push(Some(count_number(field.array.null_count())))?;
    }
    Ok(AnyArray::Int64(counts.freeze()?))
}

/// Returns the text of the least value of each column.
fn least_texts(alloc: Global, table: &RecordBatch) -> Result<AnyArray, Error>
    ensures ok { IfOk result (λ array. HasLeast table.now.columns array) }
    ensures err { IfErr result (λ e. CannotSummarize e) }
{
    appended_slots::<BytesAround, Buffer<u8>>();
    let mut scratch = String::new(alloc);
    let mut texts = MutableUtf8Array::new(alloc)?;
    for field in table.fields() {
        texts.push(least_text(&field.array, &mut scratch)?)?;
    }
    Ok(AnyArray::Utf8(texts.freeze()?))
}

/// Returns the text of the greatest value of each column.
fn greatest_texts(alloc: Global, table: &RecordBatch) -> Result<AnyArray, Error>
    ensures ok { IfOk result (λ array. HasGreatest table.now.columns array) }
    ensures err { IfErr result (λ e. CannotSummarize e) }
{
    appended_slots::<BytesAround, Buffer<u8>>();
    let mut scratch = String::new(alloc);
    let mut texts = MutableUtf8Array::new(alloc)?;
    for field in table.fields() {
        texts.push(greatest_text(&field.array, &mut scratch)?)?;
    }
    Ok(AnyArray::Utf8(texts.freeze()?))
}

/// Returns the number of columns.
fn column_count(table: &RecordBatch) -> usize
    ensures { result ≡ length table.now.columns }
{
    let fields = table.fields();
    fields.len()
}

/// Appends a column.
fn push_column(
    alloc: Global,
    columns: &mut Vec<Field>,
    name: &str,
    array: AnyArray,
) -> Result<(), Error>
    ensures ok { OnOk result (map named columns.new.items ≡ map named columns.old.items
        ++ new_column name.now array ∷ []) }
    ensures rows { (n : ℕ) → HaveRows columns.old.items n → slot_count array ≡ n
        → OnOk result (HaveRows columns.new.items n) }
    ensures err { IfErr result (λ e. CannotSummarize e) }
{
    let name = String::from_str(alloc, name)?;
    columns.push(Field { name, array })?;
    Ok(())
}

/// Appends the columns of a summary of a table.
fn push_columns(alloc: Global, table: &RecordBatch, columns: &mut Vec<Field>) -> Result<(), Error>
    requires { columns.old.items ≡ [] }
    ensures ok { OnOk result (IsSummary table.now (batch_of columns.new.items (length table.now.columns))) }
    ensures rows { OnOk result (HaveRows columns.new.items (length table.now.columns)) }
    ensures err { IfErr result (λ e. CannotSummarize e) }
{
    push_column(alloc, columns, "column", names(alloc, table)?)?;
    push_column(alloc, columns, "type", types(alloc, table)?)?;
    push_column(alloc, columns, "rows", row_counts(alloc, table)?)?;
    push_column(alloc, columns, "nulls", null_counts(alloc, table)?)?;
    push_column(alloc, columns, "least", least_texts(alloc, table)?)?;
    push_column(alloc, columns, "greatest", greatest_texts(alloc, table)?)?;
    Ok(())
}

/// Returns a summary of a table: a row for each column, with its name, the name of its type, how
/// many rows and nulls it has, and the text of its least and greatest value.
///
/// # Errors
/// `OutOfMemory` if an allocation fails, `Overflow` if the names or values of a column of the
/// summary have more bytes than its offsets can count.
pub fn summary(alloc: Global, table: &RecordBatch) -> Result<RecordBatch, Error>
    ensures ok { IfOk result (λ summary. IsSummary table.now summary) }
    ensures err { IfErr result (λ e. CannotSummarize e) }
{
    let mut columns = Vec::new(alloc);
    push_columns(alloc, table, &mut columns)?;
    Ok(RecordBatch::try_new(columns, column_count(table))?)
}
