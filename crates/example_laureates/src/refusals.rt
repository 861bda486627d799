//! Parts that do not fit, and how they are refused.
use dethrugn::array::{MutablePrimitiveArray, PrimitiveArray};
use dethrugn::bitmap::Bitmap;
use dethrugn::error::Error;
use dethrugn::offset::{Offsets, OffsetsBuffer};
use example_nested::dictionary::DictionaryArray;
use example_nested::list::ListArray;
use example_record_batch::any::AnyArray;
use example_record_batch::batch::{Field, RecordBatch};
use std::alloc::Global;
use std::io;

/// Returns an array of `n` numbers, from 0 on.
fn numbers(alloc: Global, n: u8) -> Result<PrimitiveArray<i64>, Error> {
    let mut numbers = MutablePrimitiveArray::new(alloc);
    for i in 0..n {
        numbers.push(Some(i64::from(i)))?;
    }
    numbers.freeze()
}

/// Returns the offsets of one list.
fn one_list(alloc: Global, len: usize) -> Result<OffsetsBuffer<i32>, Error> {
    let mut offsets = Offsets::new(alloc)?;
    offsets.try_push_usize(len)?;
    offsets.freeze()
}

/// Returns a column of `n` numbers.
fn column(alloc: Global, name: &str, n: u8) -> Result<Field, Error> {
    let array = AnyArray::Int64(numbers(alloc, n)?);
    let name = String::from_str(alloc, name)?;
    Ok(Field { name, array })
}

/// Fails: one column has two rows, the other three.
fn unequal_columns(alloc: Global) -> Result<(), Error> {
    let mut fields = Vec::new(alloc);
    fields.push(column(alloc, "two", 2)?)?;
    fields.push(column(alloc, "three", 3)?)?;
    RecordBatch::try_new(fields, 2)?;
    Ok(())
}

/// Fails: the keys are 0, 1 and 2, and there are two values.
fn key_out_of_bounds(alloc: Global) -> Result<(), Error> {
    DictionaryArray::try_new(numbers(alloc, 3)?, numbers(alloc, 2)?)?;
    Ok(())
}

/// Fails: the list ends at 5, and there are three values.
fn offsets_past_values(alloc: Global) -> Result<(), Error> {
    ListArray::try_new(one_list(alloc, 5)?, numbers(alloc, 3)?, None)?;
    Ok(())
}

/// Fails: there is one list, and two marks.
fn mask_of_another_length(alloc: Global) -> Result<(), Error> {
    let mask = Bitmap::new_zeroed(alloc, 2)?;
    ListArray::try_new(one_list(alloc, 3)?, numbers(alloc, 3)?, Some(mask))?;
    Ok(())
}

/// Prints why a call failed.
fn print_refusal(rt: &impl Print, what: &str, outcome: Result<(), Error>) -> io::Result<()> {
    match outcome {
        Ok(()) => println!(rt; "  {what}: accepted"),
        Err(error) => println!(rt; "  {what}: {error}"),
    }
}

/// Prints how parts that do not fit are refused.
pub fn show(rt: &impl Print, alloc: Global) -> anyhow::Result<()> {
    println!(rt; "refused:")?;
    print_refusal(rt, "columns of two and three rows", unequal_columns(alloc))?;
    print_refusal(rt, "a key without a value", key_out_of_bounds(alloc))?;
    print_refusal(
        rt,
        "a list that ends past the values",
        offsets_past_values(alloc),
    )?;
    print_refusal(rt, "two marks for one list", mask_of_another_length(alloc))?;
    Ok(())
}
