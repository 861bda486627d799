//! Callers of the library: what each promises follows from a law and from the contracts of the calls that it makes.
ghost use Rattle.std.specs.Prelude.{◌≡◌, ◌≤◌, IfOk, flat_map, length, take};
ghost use Rattle.dethrugn.specs.Failures.{OnlyOutOfMemory};
ghost use Rattle.dethrugn.specs.Selection.{asked, where_set};
ghost use Rattle.example_record_batch.specs.Batches.{batch_rows};

use crate::any::AnyArray;
use crate::batch::{Field, RecordBatch};
use crate::laws::{rows_of_concat, rows_of_cut, rows_of_filter};
use dethrugn::array::{BooleanArray, PrimitiveArray, Utf8Array};
use dethrugn::error::Error;
use std::alloc::Global;

/// Creates a batch of two columns, which must have the same length. Only an allocation can fail.
fn people(
    alloc: Global,
    names: Utf8Array<i32>,
    ages: PrimitiveArray<i64>,
) -> Result<RecordBatch, Error>
    requires { length names.rows ≡ length ages.rows }
    ensures ok { IfOk result (λ batch. batch.rows ≡ length names.rows) }
    ensures err { OnlyOutOfMemory result }
{
    let len = names.len();
    let name = String::from_str(alloc, "name")?;
    let age = String::from_str(alloc, "age")?;
    let mut fields = Vec::new(alloc);
    fields.push(Field {
        name,
        array: AnyArray::Utf8(names),
    })?;
    fields.push(Field {
        name: age,
        array: AnyArray::Int64(ages),
    })?;
    RecordBatch::try_new(fields, len)
}

/// Keeps the first `n` rows.
fn keep_first(batch: &mut RecordBatch, n: usize)
    requires { n ≤ batch.old.rows }
    ensures { batch_rows batch.new ≡ take n (batch_rows batch.old) }
{
    rows_of_cut();
    batch.slice(0, n);
}

/// Returns the rows where `filter` is valid and true. `filter` must have a slot for each row.
fn filter_rows(
    alloc: Global,
    batch: &RecordBatch,
    filter: &BooleanArray,
) -> Result<RecordBatch, Error>
    requires { length filter.now.rows ≡ batch.now.rows }
    ensures { IfOk result (λ kept. batch_rows kept ≡ where_set (asked filter.now) (batch_rows batch.now)) }
{
    rows_of_filter();
    batch.filter(alloc, filter)
}

/// Returns the rows of the batches, one batch after the other.
fn join_rows(alloc: Global, batches: &[RecordBatch]) -> Result<RecordBatch, Error>
    ensures { IfOk result (λ made. batch_rows made ≡ flat_map batch_rows batches.now) }
{
    rows_of_concat();
    RecordBatch::concat(alloc, batches)
}
