//! Named columns of equal length. That they have it is the invariant of `RecordBatch`, so no function tests it again.
ghost use Rattle.std.specs.Prelude.{◌≡◌, ◌≤◌, ◌-◌, All, IfErr, IfOk, IfSome, find, length, map, string_bytes};
ghost use Rattle.std.specs.Str.{bytes_eq};
ghost use Rattle.std.specs.Option.{option_copied};
ghost use Rattle.dethrugn.specs.Failures.{OnlyOutOfMemory};
ghost use Rattle.dethrugn.specs.Types.{refusal};
ghost use Rattle.example_record_batch.specs.AnyArrays.{FitsAnyCut, any_cut, slot_count};
ghost use Rattle.example_record_batch.specs.Batches.{HaveRows, IsBatch, batch_cut, batch_filtered, batch_of};
ghost use Rattle.example_record_batch.specs.declared.batch.Field.{Field};
ghost use Rattle.example_record_batch.specs.Batches.{column_of, named, named_filtered, unequal_columns};
ghost use Rattle.dethrugn.specs.Sort.{PickOnce};
ghost use Rattle.example_record_batch.specs.Schemas.{schema_of};
ghost use Rattle.example_record_batch.specs.Taking.{batch_taken, named_taken};

use crate::any::AnyArray;
use crate::schema::Schema;
use dethrugn::array::BooleanArray;
use dethrugn::compute::filter::true_count;
use dethrugn::error::Error;
use std::alloc::Global;
use std::marker::Model;

/// A column and its name.
#[derive(Drop)]
pub struct Field {
    /// The name.
    pub name: String,
    /// The column.
    pub array: AnyArray,
}

/// Named columns of equal length (a record batch of Arrow).
#[derive(Drop)]
pub struct RecordBatch {
    fields: Vec<Field>,
    len: usize,
}

// Contracts see the columns with their names, and the number of rows.
impl Model for RecordBatch {
    ghost use Rattle.example_record_batch.specs.Batches.{Batch, HaveRows, batch_of};

    ghost Value = { Batch };

    ghost view = { λ batch. batch_of batch.fields.items batch.len };

    ghost invariant = { λ batch. HaveRows batch.fields.items batch.len };
}

/// Keeps only the `len` slots that begin at `offset` of each column.
fn slice_all(fields: &mut Vec<Field>, offset: usize, len: usize)
    requires { All (λ field. FitsAnyCut field.array offset len) fields.old.items }
    ensures { fields.new.items ≡ map {A = Field}
        (λ f. record f { array = any_cut f.array offset len }) fields.old.items }
{
    for field in fields.iter_mut() {
        field.array.slice(offset, len);
    }
}

/// Returns the slots of a column where `filter` is valid and true, under the same name.
fn filter_field(alloc: Global, field: &Field, filter: &BooleanArray) -> Result<Field, Error>
    requires { length filter.now.rows ≡ slot_count field.now.array }
    ensures ok { IfOk result (λ kept. named kept ≡ named_filtered filter.now (named field.now)) }
    ensures err { OnlyOutOfMemory result }
{
    let array = field.array.filter(alloc, filter)?;
    let name = field.name.clone()?;
    Ok(Field { name, array })
}

/// Returns the slots of each column where `filter` is valid and true, under the same names.
fn filter_all(alloc: Global, fields: &[Field], filter: &BooleanArray) -> Result<Vec<Field>, Error>
    requires { HaveRows fields.now (length filter.now.rows) }
    ensures ok { IfOk result (λ kept. map named kept.items
        ≡ map (named_filtered filter.now) (map named fields.now)) }
    ensures err { OnlyOutOfMemory result }
{
    let mut kept = Vec::new(alloc);
    for field in fields {
        kept.push(filter_field(alloc, field, filter)?)?;
    }
    Ok(kept)
}

/// Returns the slots of a column at `indexes`, under the same name.
fn take_field(alloc: Global, field: &Field, indexes: &[u64]) -> Result<Field, Error>
    requires { PickOnce (slot_count field.now.array) indexes.now }
    ensures ok { IfOk result (λ made. named made ≡ named_taken indexes.now (named field.now)) }
    ensures err { OnlyOutOfMemory result }
{
    let array = field.array.take(alloc, indexes)?;
    let name = field.name.clone()?;
    Ok(Field { name, array })
}

/// Returns the slots of each column of `len` slots at `indexes`, under the same names.
fn take_all(
    alloc: Global,
    fields: &[Field],
    len: usize,
    indexes: &[u64],
) -> Result<Vec<Field>, Error>
    requires rows { HaveRows fields.now len }
    requires once { PickOnce len indexes.now }
    ensures ok { IfOk result (λ made. map named made.items
        ≡ map (named_taken indexes.now) (map named fields.now)) }
    ensures err { OnlyOutOfMemory result }
{
    let mut made = Vec::with_capacity(alloc, fields.len())?;
    for field in fields {
        made.push(take_field(alloc, field, indexes)?)?;
    }
    Ok(made)
}

/// Returns the first field with this name.
fn find_field<'a>(fields: &'a [Field], name: &str) -> Option<&'a Field>
    ensures { option_copied result ≡ find (λ field. bytes_eq (string_bytes field.name) name.now) fields.now }
{
    fields.iter().find(|field| field.name.as_str() == name)
}

impl RecordBatch {
    /// Creates a batch of columns of `len` slots each.
    ///
    /// # Errors
    /// `OutOfSpec` if a column does not have `len` slots.
    pub fn try_new(fields: Vec<Field>, len: usize) -> Result<Self, Error>
        ensures ok { IfOk result (λ batch. HaveRows fields.items len × (batch ≡ batch_of fields.items len)) }
        ensures err { IfErr result (λ e. (HaveRows fields.items len → ⊥) × (refusal e ≡ unequal_columns)) }
    {
        for field in &fields {
            if field.array.len() != len {
                return Err(Error::OutOfSpec("all columns of a batch must have the same length"));
            }
        }
        Ok(RecordBatch { fields, len })
    }

    /// Returns the number of rows.
    pub fn num_rows(&self) -> usize
        ensures rows { result ≡ self.now.rows }
        ensures each { IsBatch self.now }
    {
        self.len
    }

    /// Returns the columns.
    pub fn fields(&self) -> &[Field]
        ensures columns { batch_of result.now self.now.rows ≡ self.now }
        ensures each { HaveRows result.now self.now.rows }
    {
        self.fields.as_slice()
    }

    /// Returns the number of columns.
    pub fn num_columns(&self) -> usize
        ensures { result ≡ length self.now.columns }
    {
        self.fields.len()
    }

    /// Returns the names and the data types of the columns.
    pub fn schema(&self) -> Schema<'_>
        ensures { result ≡ schema_of self.now }
    {
        Schema {
            fields: self.fields.as_slice(),
        }
    }

    /// Returns the first column with this name, or `None` if there is none.
    pub fn column(&self, name: &str) -> Option<&AnyArray>
        ensures value { option_copied result ≡ column_of self.now name.now }
        ensures rows { IfSome result (λ array. slot_count array.now ≡ self.now.rows) }
    {
        match find_field(self.fields.as_slice(), name) {
            Some(field) => Some(&field.array),
            None => None,
        }
    }

    /// Keeps only the `len` rows that begin at `offset`, without copying any.
    pub fn slice(&mut self, offset: usize, len: usize)
        requires { (offset ≤ self.old.rows) × (len ≤ self.old.rows - offset) }
        ensures { self.new ≡ batch_cut self.old offset len }
    {
        slice_all(&mut self.fields, offset, len);
        self.len = len;
    }

    /// Returns the rows where `filter` is valid and true. `filter` must have a slot for each row.
    ///
    /// # Errors
    /// `OutOfMemory` if an allocation fails.
    pub fn filter(&self, alloc: Global, filter: &BooleanArray) -> Result<Self, Error>
        requires { length filter.now.rows ≡ self.now.rows }
        ensures ok { IfOk result (λ kept. kept ≡ batch_filtered self.now filter.now) }
        ensures err { OnlyOutOfMemory result }
        ensures each { IsBatch self.now }
    {
        let fields = filter_all(alloc, self.fields.as_slice(), filter)?;
        Ok(RecordBatch {
            fields,
            len: true_count(filter),
        })
    }

    /// Returns the rows at `indexes`, each of which is the index of a row and there at most once.
    ///
    /// # Errors
    /// `OutOfMemory` if an allocation fails.
    pub fn take(&self, alloc: Global, indexes: &[u64]) -> Result<Self, Error>
        requires { PickOnce self.now.rows indexes.now }
        ensures ok { IfOk result (λ made. made ≡ batch_taken self.now indexes.now) }
        ensures err { OnlyOutOfMemory result }
    {
        let fields = take_all(alloc, self.fields.as_slice(), self.len, indexes)?;
        Ok(RecordBatch {
            fields,
            len: indexes.len(),
        })
    }
}

mod concat;
