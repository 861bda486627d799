//! The countries, as a dictionary, and how many laureates each has.
use crate::cells::texts;
use anyhow::anyhow;
use dethrugn::array::{MutablePrimitiveArray, Utf8Array};
use dethrugn::buffer::Buffer;
use dethrugn::compute::aggregate::group_count;
use dethrugn::compute::group::{Groups, group_utf8};
use dethrugn::compute::take::take_utf8;
use dethrugn::error::Error;
use dethrugn::laws::BytesAround;
use dethrugn::laws::group::grouped_slots;
use example_nested::dictionary::DictionaryArray;
use example_record_batch::batch::RecordBatch;
use std::alloc::Global;

/// Texts, each of which is stored once.
type Dictionary = DictionaryArray<u8, Utf8Array<i32>>;

/// Returns the dictionary of an array of texts, whose values are the first slots of the groups of equal
/// ones. If there are nulls, one of the values is null.
fn encode(alloc: Global, texts: &Utf8Array<i32>, groups: &Groups) -> Result<Dictionary, Error> {
    let values = take_utf8(alloc, texts, groups.first())?;
    let mut keys = MutablePrimitiveArray::new(alloc);
    for number in groups.indices() {
        match u8::try_from(*number) {
            Ok(key) => keys.push(Some(key))?,
            Err(_) => return Err(Error::Overflow),
        }
    }
    DictionaryArray::try_new(keys.freeze()?, values)
}

/// Prints the countries of at least five laureates.
pub fn show(rt: &impl Print, alloc: Global, table: &RecordBatch) -> anyhow::Result<()> {
    let Some(countries) = texts(table, "country") else {
        return Err(anyhow!("a column is missing"));
    };
    let groups = group_utf8(alloc, countries)?;
    // The groups are of as many slots as there are countries, which `group_count` requires.
    grouped_slots::<BytesAround, Buffer<u8>>();
    let counts = group_count(alloc, countries, &groups)?;
    let dictionary = encode(alloc, countries, &groups)?;
    let values = dictionary.values();
    let named = values.len() - values.null_count();
    println!(rt; "{named} countries, of at least five laureates:")?;
    for (country, laureates) in values.iter().zip(counts.iter()) {
        if let (Some(country), Some(laureates)) = (country, laureates)
            && *laureates >= 5
        {
            println!(rt; "  {country}: {laureates}")?;
        }
    }
    Ok(())
}
