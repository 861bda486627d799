//! Sums, least and greatest values.
use crate::cells::{number_at, texts};
use anyhow::anyhow;
use dethrugn::array::{BooleanArray, MutablePrimitiveArray, PrimitiveArray, Utf8Array};
use dethrugn::compute::aggregate::{
    max_boolean, max_primitive, max_string, min_boolean, min_primitive, min_string, sum_primitive,
};
use dethrugn::error::Error;
use example_record_batch::any::AnyArray;
use example_record_batch::batch::RecordBatch;
use std::alloc::Global;
use std::io;

/// Returns the age at the prize in row `i`, or `None` if one of the years is null.
fn age_at(table: &RecordBatch, i: usize) -> Option<i64> {
    let year = number_at(table, "year", i)?;
    let born = number_at(table, "born", i)?;
    year.checked_sub(born)
}

/// Returns the age at the prize in each row.
fn ages(alloc: Global, table: &RecordBatch) -> Result<PrimitiveArray<i64>, Error> {
    let mut ages = MutablePrimitiveArray::new(alloc);
    for i in 0..table.num_rows() {
        ages.push(age_at(table, i))?;
    }
    ages.freeze()
}

/// Prints the sum, the least and the greatest of numbers.
fn show_numbers(rt: &impl Print, numbers: &PrimitiveArray<i64>) -> anyhow::Result<()> {
    let valid = numbers.len() - numbers.null_count();
    if let Some(sum) = sum_primitive(numbers)? {
        println!(rt; "the ages of {valid} laureates: {sum} years together")?;
    }
    if let (Some(least), Some(greatest)) = (min_primitive(numbers), max_primitive(numbers)) {
        println!(rt; "the youngest was {least}, the oldest {greatest}")?;
    }
    Ok(())
}

/// Prints the least and the greatest of texts.
fn show_texts(rt: &impl Print, texts: &Utf8Array<i32>) -> io::Result<()> {
    if let (Some(least), Some(greatest)) = (min_string(texts), max_string(texts)) {
        println!(rt; "by their bytes, '{least}' is the first and '{greatest}' the last")?;
    }
    Ok(())
}

/// Prints whether all and whether some of booleans are true.
fn show_truths(rt: &impl Print, truths: &BooleanArray) -> io::Result<()> {
    if let (Some(all), Some(some)) = (min_boolean(truths), max_boolean(truths)) {
        println!(rt; "all prizes were shared: {all}, and some: {some}")?;
    }
    Ok(())
}

/// Prints what is known of ages, of works and of shared prizes.
pub fn show(rt: &impl Print, alloc: Global, table: &RecordBatch) -> anyhow::Result<()> {
    show_numbers(rt, &ages(alloc, table)?)?;
    let Some(works) = texts(table, "work") else {
        return Err(anyhow!("a column is missing"));
    };
    show_texts(rt, works)?;
    if let Some(AnyArray::Boolean(shared)) = table.column("shared") {
        show_truths(rt, shared)?;
    }
    Ok(())
}
