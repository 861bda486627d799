//! The rows where two conditions hold.
use crate::cells::numbers;
use crate::rows::print_rows;
use anyhow::anyhow;
use dethrugn::array::{BooleanArray, PrimitiveArray};
use dethrugn::compute::boolean::is_null;
use dethrugn::compute::boolean_kleene::and;
use dethrugn::compute::comparison::gt_eq_scalar;
use example_record_batch::batch::RecordBatch;
use std::alloc::Global;

/// Returns the rows where a filter is valid and true.
fn filter_rows(
    alloc: Global,
    table: &RecordBatch,
    filter: &BooleanArray,
) -> anyhow::Result<RecordBatch> {
    if filter.len() != table.num_rows() {
        return Err(anyhow!("a filter must have a slot for each row"));
    }
    Ok(table.filter(alloc, filter)?)
}

/// Returns which people were born in `year` or later and have no year of death. A slot is null if
/// the year of birth is null and there is none of death.
fn are_living(
    alloc: Global,
    born: &PrimitiveArray<i64>,
    died: &PrimitiveArray<i64>,
    year: i64,
) -> anyhow::Result<BooleanArray> {
    let late = gt_eq_scalar(alloc, born, year)?;
    let alive = is_null(alloc, died)?;
    if late.len() != alive.len() {
        return Err(anyhow!("both columns must have the same length"));
    }
    Ok(and(alloc, &late, &alive)?)
}

/// Returns the rows of people who were born in `year` or later and have no year of death.
fn living(alloc: Global, table: &RecordBatch, year: i64) -> anyhow::Result<RecordBatch> {
    let (Some(born), Some(died)) = (numbers(table, "born"), numbers(table, "died")) else {
        return Err(anyhow!("a column is missing"));
    };
    filter_rows(alloc, table, &are_living(alloc, born, died, year)?)
}

/// Prints the laureates who were born in 1950 or later and have no year of death.
pub fn show(rt: &impl Print, alloc: Global, table: &RecordBatch) -> anyhow::Result<()> {
    let rows = living(alloc, table, 1950)?;
    println!(rt;
        "born in 1950 or later, with no year of death: {}",
        rows.num_rows()
    )?;
    print_rows(rt, &rows)?;
    Ok(())
}
