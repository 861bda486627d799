//! Columns that grow by fields, for `read_table`. A column without a declared type grows as text, and is converted at
//! the end of the input, when all of its fields are known.
ghost use Rattle.std.specs.Prelude.{◌≡◌, ℕ, List, [], IfErr, IfOk, OnOk, map};
ghost use Rattle.dethrugn.specs.Column.{slots_of};
ghost use Rattle.example_csv.specs.Builders.{CannotPush, GrowsBy, IsArrayOf, IsOutOfMemory, built_cells, HoldsFields};
ghost use Rattle.example_csv.specs.Builders.{column_kind, declared_of, text_length};
ghost use Rattle.example_csv.specs.Fields.{found_kind, parsed_number, field_text, truth_of, FindsSlots};

use crate::error::Error;
use crate::field::{number_slot, text, truth_slot};
use crate::kind::Kind;
use dethrugn::array::{MutableBooleanArray, MutablePrimitiveArray, MutableUtf8Array, Utf8Array};
use example_record_batch::any::AnyArray;
use std::alloc::Global;

/// A growing column. An empty field is a null.
#[derive(Drop)]
pub enum Builder {
    /// Numbers.
    Int64(MutablePrimitiveArray<i64>),
    /// Booleans.
    Boolean(MutableBooleanArray),
    /// Text.
    Utf8(MutableUtf8Array<i32>),
    /// Text whose type is found once all of it is read.
    Undeclared(MutableUtf8Array<i32>),
}

impl Builder {
    /// Creates a builder of no slots of the type that is declared, if one is.
    ///
    /// # Errors
    /// `OutOfMemory` if an allocation fails.
    pub fn new(alloc: Global, declared: Option<Kind>) -> Result<Self, Error>
        ensures declared { IfOk result (λ builder. declared_of builder ≡ declared) }
        ensures empty { IfOk result (λ builder. (built_cells builder ≡ []) × (text_length builder ≡ 0)) }
        ensures err { IfErr result IsOutOfMemory }
    {
        Ok(match declared {
            Some(Kind::Int64) => Builder::Int64(MutablePrimitiveArray::new(alloc)),
            Some(Kind::Boolean) => Builder::Boolean(MutableBooleanArray::new(alloc)),
            Some(Kind::Utf8) => Builder::Utf8(MutableUtf8Array::new(alloc)?),
            None => Builder::Undeclared(MutableUtf8Array::new(alloc)?),
        })
    }

    /// Appends a field. `byte` and `column` are where it stands, for the error.
    ///
    /// # Errors
    /// `Field` if the field is not of the declared type; `Overflow` if the text of a column is longer than offsets
    /// of `i32` can count; `OutOfMemory` if an allocation fails.
    pub fn push(&mut self, field: &str, byte: u64, column: usize) -> Result<(), Error>
        ensures ok { OnOk result (GrowsBy self.old self.new field.now) }
        ensures err { IfErr result (CannotPush self.old field.now column) }
    {
        match self {
            Builder::Int64(builder) => match number_slot(text(field)) {
                Some(slot) => Ok(builder.push(slot)?),
                None => Err(not_of(Kind::Int64, byte, column)),
            },
            Builder::Boolean(builder) => match truth_slot(text(field)) {
                Some(slot) => Ok(builder.push(slot)?),
                None => Err(not_of(Kind::Boolean, byte, column)),
            },
            Builder::Utf8(builder) => Ok(builder.push(text(field))?),
            Builder::Undeclared(builder) => Ok(builder.push(text(field))?),
        }
    }

    /// Converts the builder into an array of the same slots, of the type that is declared or found.
    ///
    /// # Errors
    /// `OutOfMemory` if an allocation fails.
    pub fn freeze(self, alloc: Global) -> Result<AnyArray, Error>
        ensures ok { (fields : _) → HoldsFields self fields
            → IfOk result (IsArrayOf (column_kind (declared_of self) fields) fields) }
        ensures err { IfErr result IsOutOfMemory }
    {
        match self {
            Builder::Int64(builder) => Ok(AnyArray::Int64(builder.freeze()?)),
            Builder::Boolean(builder) => Ok(AnyArray::Boolean(builder.freeze()?)),
            Builder::Utf8(builder) => Ok(AnyArray::Utf8(builder.freeze()?)),
            Builder::Undeclared(builder) => convert(alloc, builder.freeze()?),
        }
    }
}

/// Returns the error of a field that is not of the type of its column.
fn not_of(wanted: Kind, byte: u64, column: usize) -> Error
    ensures { result ≡ Error.Field byte column wanted }
{
    Error::Field {
        byte,
        column,
        wanted,
    }
}

/// Returns the slots of a column of text under the type that is found: numbers if all valid slots are, or else truth
/// values if all are, or else text. Without a valid slot it is text.
fn convert(alloc: Global, column: Utf8Array<i32>) -> Result<AnyArray, Error>
    ensures ok { (fields : List (List ℕ)) → slots_of column ≡ map field_text fields
        → IfOk result (IsArrayOf (found_kind fields) fields) }
    ensures err { IfErr result IsOutOfMemory }
{
    if column.null_count() == column.len() {
        return Ok(AnyArray::Utf8(column));
    }
    if let Some(numbers) = numbers_of(alloc, &column)? {
        return Ok(AnyArray::Int64(numbers.freeze()?));
    }
    if let Some(truths) = truths_of(alloc, &column)? {
        return Ok(AnyArray::Boolean(truths.freeze()?));
    }
    Ok(AnyArray::Utf8(column))
}

/// Returns the numbers of a column of text, or `None` if a valid slot is not the text of a number.
fn numbers_of(
    alloc: Global,
    column: &Utf8Array<i32>,
) -> Result<Option<MutablePrimitiveArray<i64>>, Error>
    ensures ok { IfOk result (λ found. FindsSlots parsed_number slots_of (slots_of column.now) found) }
    ensures err { IfErr result IsOutOfMemory }
{
    let mut numbers = MutablePrimitiveArray::new(alloc);
    for i in 0..column.len() {
        match number_slot(column.get(i)) {
            Some(slot) => numbers.push(slot)?,
            None => return Ok(None),
        }
    }
    Ok(Some(numbers))
}

/// Returns the booleans of a column of text, or `None` if a valid slot is not the text of one.
fn truths_of(alloc: Global, column: &Utf8Array<i32>) -> Result<Option<MutableBooleanArray>, Error>
    ensures ok { IfOk result (λ found. FindsSlots truth_of slots_of (slots_of column.now) found) }
    ensures err { IfErr result IsOutOfMemory }
{
    let mut truths = MutableBooleanArray::new(alloc);
    for i in 0..column.len() {
        match truth_slot(column.get(i)) {
            Some(slot) => truths.push(slot)?,
            None => return Ok(None),
        }
    }
    Ok(Some(truths))
}
