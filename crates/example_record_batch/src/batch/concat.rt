//! Concatenation of batches of one schema.
ghost use Rattle.std.specs.Prelude.{◌≡◌, ◌<◌, ◌↔◌, All, IfErr, IfOk, IsTrue, OnOk, length, map, sum_by};
ghost use Rattle.dethrugn.specs.Validation.{Passes};
ghost use Rattle.dethrugn.specs.Failures.{OnlyOutOfMemory};
ghost use Rattle.dethrugn.specs.Types.{refusal};
ghost use Rattle.example_record_batch.specs.AnyArrays.{array_kind};
ghost use Rattle.example_record_batch.specs.Batches.{IsBatch, named};
ghost use Rattle.example_record_batch.specs.Schemas.{fields_schema, named_type, schema_of};
ghost use Rattle.example_record_batch.specs.Concatenation.{AreConcats, ColumnsFail, ConcatFails, IsConcat};
ghost use Rattle.example_record_batch.specs.Concatenation.{TooManyRows, arrays_at, concat_tests, fields_kinds};
ghost use Rattle.example_record_batch.specs.Concatenation.{kinds_of};

use super::{Field, RecordBatch};
use crate::any::AnyArray;
use dethrugn::error::Error;
use std::alloc::Global;

/// Returns whether two columns have the same name and data type.
fn is_same_type(field: &Field, other: &Field) -> bool
    ensures same { IsTrue result ↔ (named_type (named field.now) ≡ named_type (named other.now)) }
    ensures kind { IsTrue result → array_kind field.now.array ≡ array_kind other.now.array }
{
    field.name == other.name && field.array.data_type() == other.array.data_type()
}

/// Returns whether the columns have the same names and data types.
fn is_same_schema(fields: &[Field], others: &[Field]) -> bool
    ensures same { IsTrue result ↔ (fields_schema fields.now ≡ fields_schema others.now) }
    ensures kinds { IsTrue result → fields_kinds fields.now ≡ fields_kinds others.now }
{
    if fields.len() != others.len() {
        return false;
    }
    for (i, field) in fields.iter().enumerate() {
        if !is_same_type(field, &others[i]) {
            return false;
        }
    }
    true
}

/// Returns whether the columns of each batch have the names and data types of `fields`.
fn have_schema(batches: &[RecordBatch], fields: &[Field]) -> bool
    ensures same { IsTrue result ↔ All (λ batch. schema_of batch ≡ fields_schema fields.now) batches.now }
    ensures kinds { IsTrue result → All (λ batch. kinds_of batch ≡ fields_kinds fields.now) batches.now }
{
    for batch in batches {
        if !is_same_schema(batch.fields(), fields) {
            return false;
        }
    }
    true
}

/// Returns the number of rows of the batches together.
fn total_rows(batches: &[RecordBatch]) -> Result<usize, Error>
    ensures ok { IfOk result (λ rows. rows ≡ sum_by (λ batch. batch.rows) batches.now) }
    ensures err { IfErr result (λ e. (e ≡ Error.Overflow) × TooManyRows batches.now) }
    ensures each { OnOk result (All IsBatch batches.now) }
{
    let mut rows: usize = 0;
    for batch in batches {
        match rows.checked_add(batch.num_rows()) {
            Some(more) => rows = more,
            None => return Err(Error::Overflow),
        }
    }
    Ok(rows)
}

/// Returns clones of the columns at index `k`.
fn clone_at(alloc: Global, batches: &[RecordBatch], k: usize) -> Result<Vec<AnyArray>, Error>
    requires { All (λ batch. k < length batch.columns) batches.now }
    ensures ok { IfOk result (λ arrays. arrays.items ≡ arrays_at batches.now k) }
    ensures err { OnlyOutOfMemory result }
{
    let mut arrays = Vec::new(alloc);
    for batch in batches {
        arrays.push(batch.fields()[k].array.clone()?)?;
    }
    Ok(arrays)
}

/// Returns the columns of the concatenation of batches that have the schema of `fields`.
fn concat_fields(
    alloc: Global,
    batches: &[RecordBatch],
    fields: &[Field],
) -> Result<Vec<Field>, Error>
    requires some { 0 < length batches.now }
    requires schema { All (λ batch. schema_of batch ≡ fields_schema fields.now) batches.now }
    requires kinds { All (λ batch. kinds_of batch ≡ fields_kinds fields.now) batches.now }
    ensures ok { IfOk result (λ made. AreConcats batches.now fields.now made.items) }
    ensures err { IfErr result (λ e. ColumnsFail batches.now (refusal e)) }
{
    let mut made = Vec::new(alloc);
    for (k, field) in fields.iter().enumerate() {
        let arrays = clone_at(alloc, batches, k)?;
        let array = AnyArray::concat(alloc, arrays.as_slice())?;
        let name = field.name.clone()?;
        made.push(Field { name, array })?;
    }
    Ok(made)
}

impl RecordBatch {
    /// Returns the rows of the batches, one batch after the other.
    ///
    /// # Errors
    /// - `OutOfSpec` if there is no batch.
    /// - `OutOfSpec` if a batch has another schema than the first: another number of columns, another name or another
    ///   data type.
    /// - `Overflow` if there are more than `usize::MAX` rows, or if the items of a column of bytes or text together
    ///   have more than `i32::MAX` bytes.
    /// - `OutOfMemory` if an allocation fails.
    pub fn concat(alloc: Global, batches: &[RecordBatch]) -> Result<Self, Error>
        ensures ok { IfOk result (λ made. Passes (concat_tests batches.now) × IsConcat batches.now made) }
        ensures err { IfErr result (λ e. ConcatFails batches.now (refusal e)) }
        ensures each { OnOk result (All IsBatch batches.now) }
    {
        let Some(first) = batches.first() else {
            return Err(Error::OutOfSpec("concat requires at least one batch"));
        };
        let columns = first.fields();
        if !have_schema(batches, columns) {
            return Err(Error::OutOfSpec("all batches must have the same schema"));
        }
        let len = total_rows(batches)?;
        let fields = concat_fields(alloc, batches, columns)?;
        Ok(RecordBatch { fields, len })
    }
}
