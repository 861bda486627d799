//! Arrays of text, from the first push to a filter: each function may be copied by itself. What is printed stands in
//! `stdout`, beside `src`.
#![tactic(auto)]

mod wide;

use crate::wide::widen;
use dethrugn::array::{BooleanArray, MutableUtf8Array, Utf8Array};
use dethrugn::buffer::Buffer;
use dethrugn::compute::filter::filter_utf8;
use dethrugn::compute::take::take_utf8;
use dethrugn::datatypes::DataType;
use dethrugn::either::{Left, Right};
use dethrugn::error::Error;
use dethrugn::offset::{Offsets, OffsetsBuffer};
use std::alloc::Global;
use std::io;

/// Builds an array: slots are pushed to a builder, which is then frozen. A push fails if memory is refused or if the
/// offsets, of `i32` here, overflow.
fn build(alloc: Global) -> Result<Utf8Array<i32>, Error> {
    let mut names = MutableUtf8Array::new(alloc)?;
    names.push(Some("Ada"))?;
    names.push(None)?;
    names.push(Some("Édouard"))?;
    names.freeze()
}

/// Reads each slot by its index, which must be below the length: if that isn't known the proof fails, not the program.
fn read(rt: &impl Print, title: &str, names: &Utf8Array<i32>) -> io::Result<()> {
    println!(rt; "{title}:")?;
    for place in 0..names.len() {
        match names.get(place) {
            Some(name) => println!(rt; "  {place} is '{name}'")?,
            None => println!(rt; "  {place} is null")?,
        }
    }
    Ok(())
}

/// Reads from both ends what the slots store, also of null slots. A `for` over this iterator needs a measure in a proof
/// file.
fn read_ends(rt: &impl Print, names: &Utf8Array<i32>) -> io::Result<()> {
    let mut stored = names.values_iter();
    if let Some(first) = stored.next() {
        println!(rt; "the first slot stores '{first}'")?;
    }
    if let Some(last) = stored.next_back() {
        println!(rt; "the last slot stores '{last}'")?;
    }
    Ok(())
}

/// An array is thawed without a copy if its memory is not shared, and returned unchanged otherwise.
fn append(names: Utf8Array<i32>, name: &str) -> Result<Utf8Array<i32>, Error> {
    match names.into_mut() {
        Right(mut builder) => {
            builder.push(Some(name))?;
            builder.freeze()
        }
        Left(shared) => Ok(shared),
    }
}

/// Slices a clone and removes its mask, so nulls show their stored values.
fn read_part(rt: &impl Print, copy: Utf8Array<i32>) -> io::Result<()> {
    let mut copy = copy;
    copy.set_validity(None);
    if 2 <= copy.len() {
        copy.slice(0, 2);
    }
    read(rt, "copy, sliced and without nulls", &copy)
}

/// A clone has the same memory as the original, and keeps it when it is sliced. What is done to one is never seen in
/// the other.
fn share(rt: &impl Print, names: &Utf8Array<i32>) -> anyhow::Result<()> {
    read_part(rt, names.clone()?)?;
    read(rt, "original", names)?;
    Ok(())
}

/// Offsets of two slots of one byte each, made of numbers.
fn cut(alloc: Global) -> Result<OffsetsBuffer<i32>, Error> {
    Offsets::try_from_vec([0, 1, 2].to_vec(alloc)?)?.freeze()
}

/// Text from elsewhere comes as parts, which are refused if a slot is not UTF-8 by itself. These bytes are UTF-8, but the
/// offsets cut their one character.
fn accept(alloc: Global) -> Result<Utf8Array<i32>, Error> {
    let bytes = Buffer::from_vec("é".as_bytes().to_vec(alloc)?)?;
    Utf8Array::try_new(DataType::Utf8, cut(alloc)?, bytes, None)
}

/// Shows why parts are refused.
fn refuse(rt: &impl Print, alloc: Global) -> io::Result<()> {
    match accept(alloc) {
        Ok(_) => Ok(()),
        Err(error) => println!(rt; "refused: {error}"),
    }
}

/// A filter has as many slots as the array, and keeps the slots at which it is true. The length is tested here, since this
/// function takes any filter.
fn keep(
    alloc: Global,
    names: &Utf8Array<i32>,
    filter: &BooleanArray,
) -> Result<Utf8Array<i32>, Error> {
    if filter.len() != names.len() {
        return Err(Error::OutOfSpec("a filter must have as many slots as the array"));
    }
    filter_utf8(alloc, names, filter)
}

/// Filters by booleans; a null keeps no slot.
fn filter(rt: &impl Print, alloc: Global, names: &Utf8Array<i32>) -> anyhow::Result<()> {
    let filter = BooleanArray::from(alloc, &[Some(true), Some(true), None, Some(true)])?;
    read(rt, "kept", &keep(alloc, names, &filter)?)?;
    Ok(())
}

/// Takes by keys, in their order.
fn take(rt: &impl Print, alloc: Global, names: &Utf8Array<i32>) -> anyhow::Result<()> {
    read(rt, "taken", &take_utf8(alloc, names, &[3, 0])?)?;
    Ok(())
}

/// Prints how many slots there are over wider offsets.
fn count_wide(rt: &impl Print, alloc: Global, names: &Utf8Array<i32>) -> anyhow::Result<()> {
    let count = widen(alloc, names)?.len();
    println!(rt; "{count} slots over offsets of 64 bits")?;
    Ok(())
}

/// All that is done with an array.
fn show(rt: &impl Print, alloc: Global, names: &Utf8Array<i32>) -> anyhow::Result<()> {
    read_ends(rt, names)?;
    share(rt, names)?;
    refuse(rt, alloc)?;
    filter(rt, alloc, names)?;
    take(rt, alloc, names)?;
    count_wide(rt, alloc, names)
}

fn main(rt: HostRuntime) -> anyhow::Result<()> {
    let alloc = rt.alloc();
    let names = append(build(alloc)?, "Bo")?;
    show(&rt, alloc, &names)
}
