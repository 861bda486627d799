//! The table as a record batch.
use anyhow::anyhow;
use csv::{Reader, StringRecord};
use dethrugn::array::{MutableBooleanArray, MutablePrimitiveArray, MutableUtf8Array};
use dethrugn::error::Error;
use example_record_batch::any::AnyArray;
use example_record_batch::batch::{Field, RecordBatch};
use std::alloc::Global;
use std::io::Read;

/// A column that grows.
#[derive(Drop)]
enum Builder {
    Numbers(MutablePrimitiveArray<i64>),
    Truths(MutableBooleanArray),
    Texts(MutableUtf8Array<i32>),
}

impl Builder {
    /// Creates an empty column of numbers, of booleans, or of texts.
    fn new(alloc: Global, kind: &str) -> Result<Self, Error> {
        Ok(match kind {
            "number" => Builder::Numbers(MutablePrimitiveArray::new(alloc)),
            "truth" => Builder::Truths(MutableBooleanArray::new(alloc)),
            _ => Builder::Texts(MutableUtf8Array::new(alloc)?),
        })
    }

    /// Appends a field. An empty field is a null.
    ///
    /// # Errors
    /// `OutOfSpec` if the field is not a number or a boolean, as the column asks; `Overflow` if the texts are too
    /// long; `OutOfMemory` if an allocation fails.
    fn push(&mut self, field: &str) -> Result<(), Error> {
        match self {
            Builder::Numbers(builder) if field.is_empty() => builder.push(None),
            Builder::Numbers(builder) => match field.parse() {
                Ok(number) => builder.push(Some(number)),
                Err(_) => Err(Error::OutOfSpec("a field of a column of numbers must be a number")),
            },
            Builder::Truths(builder) if field.is_empty() => builder.push(None),
            Builder::Truths(builder) => match field.parse() {
                Ok(truth) => builder.push(Some(truth)),
                Err(_) => Err(Error::OutOfSpec(
                    "a field of a column of booleans must be true or false",
                )),
            },
            Builder::Texts(builder) if field.is_empty() => builder.push(None),
            Builder::Texts(builder) => builder.push(Some(field)),
        }
    }

    /// Returns the column.
    fn freeze(self) -> Result<AnyArray, Error> {
        match self {
            Builder::Numbers(builder) => Ok(AnyArray::Int64(builder.freeze()?)),
            Builder::Truths(builder) => Ok(AnyArray::Boolean(builder.freeze()?)),
            Builder::Texts(builder) => Ok(AnyArray::Utf8(builder.freeze()?)),
        }
    }
}

/// The names of the columns, and what they are columns of.
const COLUMNS: [(&str, &str); 7] = [
    ("year", "number"),
    ("laureate", "text"),
    ("country", "text"),
    ("born", "number"),
    ("died", "number"),
    ("work", "text"),
    ("shared", "truth"),
];

/// Creates an empty builder for each column.
fn new_builders(alloc: Global) -> Result<Vec<Builder>, Error> {
    let mut builders = Vec::new(alloc);
    for (_, kind) in COLUMNS {
        builders.push(Builder::new(alloc, kind)?)?;
    }
    Ok(builders)
}

/// Appends the fields of a record.
fn push_record(builders: &mut Vec<Builder>, record: &StringRecord) -> Result<(), Error> {
    for (builder, field) in builders.iter_mut().zip(record.iter()) {
        builder.push(field)?;
    }
    Ok(())
}

/// Returns the record batch of the columns.
fn freeze(alloc: Global, builders: Vec<Builder>, rows: usize) -> Result<RecordBatch, Error> {
    let mut fields = Vec::new(alloc);
    for (builder, (name, _)) in builders.into_iter().zip(COLUMNS) {
        let array = builder.freeze()?;
        let name = String::from_str(alloc, name)?;
        fields.push(Field { name, array })?;
    }
    RecordBatch::try_new(fields, rows)
}

/// Reads a table of laureates, whose first record names the columns.
///
/// # Errors
/// The error of `csv` if the text is not a table; `OutOfSpec` if a record has another number of fields than there are
/// columns, or a field is not of its column's type; `Overflow` if a column of texts is too long; `OutOfMemory`.
pub fn read_table<R: Read + Drop>(alloc: Global, from: R) -> anyhow::Result<RecordBatch> {
    let mut builders = new_builders(alloc)?;
    let mut rows = 0usize;
    let mut reader = Reader::from_reader(alloc, from);
    for record in reader.records() {
        match record {
            Ok(record) => push_record(&mut builders, &record)?,
            Err(error) => return Err(anyhow!("{error}")),
        }
        rows = rows.saturating_add(1);
    }
    Ok(freeze(alloc, builders, rows)?)
}
