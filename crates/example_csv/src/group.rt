//! Rows by group, and aggregates of each group. `group_rows` makes a row for each distinct value of a column, by
//! `IsGroupedBy`.
ghost use Rattle.std.specs.Prelude.{◌≡◌, ◌<◌, IfErr, IfOk, IsSome, Ok, Some, length, map, option_map};
ghost use Rattle.std.specs.Prelude.{string_bytes};
ghost use Rattle.example_record_batch.specs.AnyArrays.{slot_count};
ghost use Rattle.example_record_batch.specs.Batches.{HaveRows, named};
ghost use Rattle.example_record_batch.specs.Grouping.{overflowing_group};
ghost use Rattle.example_csv.specs.Builders.{IsOutOfMemory};
ghost use Rattle.example_csv.specs.Grouping.{CannotAggregate, CannotAggregateAll, CannotGroup, HasAggregates};
ghost use Rattle.example_csv.specs.Grouping.{AggregatesKeys, IsGroupedBy, NamesOverflow, aggregate_name, aggregate_word};
ghost use Rattle.example_csv.specs.Grouping.{aggregated_array, key_text};
ghost use Rattle.example_csv.specs.Selecting.{Explains};

use crate::error::{Error, SumOverflow};
use crate::sort::named_array;
use crate::text::cell_text;
use dethrugn::compute::group::Groups;
use dethrugn::error::Error as ArrowError;
use example_record_batch::any::AnyArray;
use example_record_batch::any::group::Aggregate;
use example_record_batch::batch::{Field, RecordBatch};
use std::alloc::{AllocError, Global};
use std::hash::RandomState;

/// An aggregate of a column.
#[derive(Debug, Drop)]
pub struct Aggregation {
    /// What is computed of each group.
    pub aggregate: Aggregate,
    /// The column.
    pub column: String,
}

/// How rows are grouped.
#[derive(Debug, Drop)]
pub struct GroupBy {
    /// The column whose equal slots make a group.
    pub column: String,
    /// The aggregates of each group, in this order.
    pub aggregations: Vec<Aggregation>,
}

/// Returns the name of an aggregate.
fn aggregate_word(aggregate: Aggregate) -> &'static str
    ensures { result.now ≡ aggregate_word aggregate }
{
    match aggregate {
        Aggregate::Sum => "sum",
        Aggregate::Min => "min",
        Aggregate::Max => "max",
    }
}

/// Returns the name of the column of an aggregate, as `sum(price)`.
fn aggregate_name(alloc: Global, aggregation: &Aggregation) -> Result<String, AllocError>
    ensures { IfOk result (λ name. string_bytes name ≡ aggregate_name aggregation.now) }
{
    let mut name = String::from_str(alloc, aggregate_word(aggregation.aggregate))?;
    name.push('(')?;
    name.push_str(aggregation.column.as_str())?;
    name.push(')')?;
    Ok(name)
}

/// Returns the column that an aggregate is of.
fn aggregated_array<'a>(
    alloc: Global,
    table: &'a RecordBatch,
    aggregation: &Aggregation,
) -> Result<&'a AnyArray, Error>
    ensures ok { IfOk result (λ array. aggregated_array table.now aggregation.now ≡ Ok array.now) }
    ensures rows { IfOk result (λ array. slot_count array.now ≡ table.now.rows) }
    ensures err { IfErr result (Explains (aggregated_array table.now aggregation.now)) }
{
    let array = named_array(alloc, table, aggregation.column.as_str())?;
    if aggregation.aggregate.applies_to(array) {
        Ok(array)
    } else {
        Err(Error::NotNumbers(aggregation.column.clone()?))
    }
}

/// Returns the text of the key of a group, `None` for a null.
fn key_text(alloc: Global, keys: &AnyArray, group: usize) -> Result<Option<String>, AllocError>
    requires { group < slot_count keys.now }
    ensures { IfOk result (λ text. option_map string_bytes text ≡ key_text keys.now group) }
{
    if keys.is_null(group) {
        return Ok(None);
    }
    let mut scratch = String::new(alloc);
    let text = cell_text(keys, group, &mut scratch)?;
    Ok(Some(String::from_str(alloc, text)?))
}

/// Returns the names of a column and of the first group whose sum does not fit in an `i64`. There must be such a group.
fn sum_overflow(
    alloc: Global,
    array: &AnyArray,
    groups: &Groups,
    keys: &Field,
    column: &str,
) -> Result<SumOverflow, Error>
    requires rows { length groups.now.indices ≡ slot_count array.now }
    requires keys { length groups.now.first ≡ slot_count keys.now.array }
    requires some { IsSome
        (overflowing_group array.now groups.now.indices (slot_count keys.now.array)) }
    ensures ok { IfOk result
        (NamesOverflow array.now groups.now.indices (named keys.now) column.now) }
    ensures err { IfErr result (λ e. IsOutOfMemory e) }
{
    match array.overflowing_group(alloc, groups)? {
        Some(group) => {
            let key = key_text(alloc, &keys.array, group)?;
            let column = String::from_str(alloc, column)?;
            let by = keys.name.clone()?;
            Ok(SumOverflow { column, by, key })
        }
        None => unreachable!(),
    }
}

/// Returns the column of an aggregate, with a slot for each key.
fn aggregate_column(
    alloc: Global,
    table: &RecordBatch,
    groups: &Groups,
    keys: &Field,
    aggregation: &Aggregation,
) -> Result<Field, Error>
    requires rows { length groups.now.indices ≡ table.now.rows }
    requires keys { length groups.now.first ≡ slot_count keys.now.array }
    ensures ok { IfOk result (λ field.
        AggregatesKeys table.now groups.now.indices (named keys.now) aggregation.now (named field)) }
    ensures count { IfOk result (λ field. slot_count field.array ≡ slot_count keys.now.array) }
    ensures err { IfErr result
        (CannotAggregate table.now groups.now.indices (named keys.now) aggregation.now) }
{
    let array = aggregated_array(alloc, table, aggregation)?;
    let made = match array.group_aggregate(alloc, aggregation.aggregate, groups) {
        Ok(made) => made,
        Err(ArrowError::Overflow) => {
            let column = aggregation.column.as_str();
            let overflow = sum_overflow(alloc, array, groups, keys, column)?;
            return Err(Error::SumOverflow(overflow));
        }
        Err(error) => return Err(Error::Arrow(error)),
    };
    let name = aggregate_name(alloc, aggregation)?;
    Ok(Field { name, array: made })
}

/// Returns the column of the keys, and then that of each aggregate.
fn grouped_columns(
    alloc: Global,
    table: &RecordBatch,
    groups: &Groups,
    keys: Field,
    asked: &[Aggregation],
) -> Result<Vec<Field>, Error>
    requires rows { length groups.now.indices ≡ table.now.rows }
    requires keys { length groups.now.first ≡ slot_count keys.array }
    ensures ok { IfOk result (λ fields. HasAggregates table.now
        groups.now.indices (named keys) asked.now (map named fields.items)) }
    ensures rows { IfOk result (λ fields. HaveRows fields.items (slot_count keys.array)) }
    ensures err { IfErr result
        (CannotAggregateAll table.now groups.now.indices (named keys) asked.now) }
{
    let mut columns = Vec::new(alloc);
    for aggregation in asked {
        columns.push(aggregate_column(alloc, table, groups, &keys, aggregation)?)?;
    }
    columns.insert(0, keys)?;
    Ok(columns)
}

/// Returns a row for each group.
fn grouped(
    alloc: Global,
    hashers: RandomState,
    table: &RecordBatch,
    by: &GroupBy,
) -> Result<RecordBatch, Error>
    ensures ok { IfOk result (IsGroupedBy (Some by.now) table.now) }
    ensures err { IfErr result (CannotGroup (Some by.now) table.now) }
{
    let array = named_array(alloc, table, by.column.as_str())?;
    let groups = array.group(alloc, hashers)?;
    let name = by.column.clone()?;
    let array = array.group_keys(alloc, groups.first())?;
    let count = array.len();
    let asked = by.aggregations.as_slice();
    let columns = grouped_columns(alloc, table, &groups, Field { name, array }, asked)?;
    Ok(RecordBatch::try_new(columns, count)?)
}

/// Returns a row for each group of equal slots of a column, in the order of their first rows, with the aggregates of
/// the group, or the rows as they are if they are not grouped. Nulls are one group. The slots are hashed by `hashers`,
/// whose keys are random, so a table that is written to have many slots of one hash takes no longer than another.
///
/// # Errors
/// `UnknownColumn` if a named column does not exist, `NotNumbers` if the column of a sum has no numbers, `SumOverflow`
/// if the sum of a group does not fit in an `i64`, `OutOfMemory` if an allocation fails.
pub fn group_rows(
    alloc: Global,
    hashers: RandomState,
    table: RecordBatch,
    by: &Option<GroupBy>,
) -> Result<RecordBatch, Error>
    ensures ok { IfOk result (IsGroupedBy by.now table) }
    ensures err { IfErr result (CannotGroup by.now table) }
{
    match by {
        Some(by) => grouped(alloc, hashers, &table, by),
        None => Ok(table),
    }
}
