//! The laureates of each decade, as a list array.
use crate::cells::{number_at, texts};
use anyhow::anyhow;
use dethrugn::array::Utf8Array;
use dethrugn::error::Error;
use dethrugn::offset::{Offsets, OffsetsBuffer};
use example_nested::list::ListArray;
use example_nested::slots::ListSlots;
use example_record_batch::batch::RecordBatch;
use std::alloc::Global;

/// Returns the offsets of the decades: where the rows of each begin, and where those of the last
/// end. A decade ends at the first year past it, or at a null.
fn decade_offsets(
    alloc: Global,
    table: &RecordBatch,
    first: i64,
) -> Result<OffsetsBuffer<i32>, Error> {
    let mut offsets = Offsets::new(alloc)?;
    let mut rows = 0usize;
    let mut end = first.saturating_add(10);
    for i in 0..table.num_rows() {
        let year = number_at(table, "year", i).unwrap_or(i64::MAX);
        if year >= end {
            offsets.try_push_usize(rows)?;
            rows = 0;
            end = end.saturating_add(10);
        }
        rows = rows.saturating_add(1);
    }
    offsets.try_push_usize(rows)?;
    offsets.freeze()
}

/// Returns a list of the laureates of each decade.
fn laureates_by_decade(
    alloc: Global,
    table: &RecordBatch,
) -> anyhow::Result<ListArray<i32, Utf8Array<i32>>> {
    let Some(laureates) = texts(table, "laureate") else {
        return Err(anyhow!("a column is missing"));
    };
    let offsets = decade_offsets(alloc, table, 1900)?;
    Ok(ListArray::try_new(offsets, laureates.clone()?, None)?)
}

/// Returns the first name of a list.
fn first_name<'a>(names: &ListSlots<'a, Utf8Array<i32>>) -> &'a str {
    if names.is_empty() {
        return "no one";
    }
    names.get(0).unwrap_or("no one")
}

/// Prints the number of laureates of each decade, and the first.
pub fn show(rt: &impl Print, alloc: Global, table: &RecordBatch) -> anyhow::Result<()> {
    let decades = laureates_by_decade(alloc, table)?;
    let mut decade = 1900u32;
    println!(rt; "{} decades:", decades.len())?;
    for i in 0..decades.len() {
        let names = decades.value(i);
        println!(rt;
            "  {decade}: {} rows, from {}",
            names.len(),
            first_name(&names)
        )?;
        decade = decade.saturating_add(10);
    }
    Ok(())
}
