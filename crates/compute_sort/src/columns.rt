//! The columns by which rows are sorted, and the order of the rows.
ghost use Rattle.std.specs.Prelude.{◌≡◌, ◌≤◌, ◌==◌, IfOk, count_by, length, not};
ghost use Rattle.arrow_column.specs.Column.{marks_of};
ghost use Rattle.arrow_types.specs.Failures.{OnlyOutOfMemory};
ghost use Rattle.compute_sort.specs.Columns.{columns_order, order_at, slots_at, values_count};
ghost use Rattle.compute_sort.specs.Columns.{values_order};
ghost use Rattle.compute_sort.specs.IndexedValues.{SortsStably};
ghost use Rattle.compute_sort.specs.Partition.{AreChanges, NotesChanges};
ghost use Rattle.compute_sort.specs.Sort.{PickOnce};

use crate::compare::compare_slots;
use crate::indexed_values::sort_indexes;
use crate::{SortOptions, SortableArray};
use arrow_binary::BinaryArray;
use arrow_boolean::BooleanArray;
use arrow_primitive::PrimitiveArray;
use arrow_types::error::Error;
use arrow_utf8::Utf8Array;
use compute_slots::{OrderSlots, ReadValues};
use std::alloc::{AllocError, Global};
use std::cmp::Ordering;

/// An array of one of the kinds by which rows are sorted.
#[derive(Clone, Copy)]
pub enum SortValues<'a> {
    /// Numbers of 8 bits.
    Int8(&'a PrimitiveArray<i8>),
    /// Numbers of 16 bits.
    Int16(&'a PrimitiveArray<i16>),
    /// Numbers of 32 bits.
    Int32(&'a PrimitiveArray<i32>),
    /// Numbers of 64 bits.
    Int64(&'a PrimitiveArray<i64>),
    /// Numbers of 128 bits.
    Int128(&'a PrimitiveArray<i128>),
    /// Unsigned numbers of 8 bits.
    UInt8(&'a PrimitiveArray<u8>),
    /// Unsigned numbers of 16 bits.
    UInt16(&'a PrimitiveArray<u16>),
    /// Unsigned numbers of 32 bits.
    UInt32(&'a PrimitiveArray<u32>),
    /// Unsigned numbers of 64 bits.
    UInt64(&'a PrimitiveArray<u64>),
    /// Booleans.
    Boolean(&'a BooleanArray),
    /// Bytes.
    Binary(&'a BinaryArray<i32>),
    /// Bytes with large offsets.
    LargeBinary(&'a BinaryArray<i64>),
    /// Text.
    Utf8(&'a Utf8Array<i32>),
    /// Text with large offsets.
    LargeUtf8(&'a Utf8Array<i64>),
}

/// A sorted array of one of the kinds of [`SortValues`].
#[derive(Drop)]
pub enum SortedValues {
    /// Numbers of 8 bits.
    Int8(PrimitiveArray<i8>),
    /// Numbers of 16 bits.
    Int16(PrimitiveArray<i16>),
    /// Numbers of 32 bits.
    Int32(PrimitiveArray<i32>),
    /// Numbers of 64 bits.
    Int64(PrimitiveArray<i64>),
    /// Numbers of 128 bits.
    Int128(PrimitiveArray<i128>),
    /// Unsigned numbers of 8 bits.
    UInt8(PrimitiveArray<u8>),
    /// Unsigned numbers of 16 bits.
    UInt16(PrimitiveArray<u16>),
    /// Unsigned numbers of 32 bits.
    UInt32(PrimitiveArray<u32>),
    /// Unsigned numbers of 64 bits.
    UInt64(PrimitiveArray<u64>),
    /// Booleans.
    Boolean(BooleanArray),
    /// Bytes.
    Binary(BinaryArray<i32>),
    /// Bytes with large offsets.
    LargeBinary(BinaryArray<i64>),
    /// Text.
    Utf8(Utf8Array<i32>),
    /// Text with large offsets.
    LargeUtf8(Utf8Array<i64>),
}

/// A column by which rows are sorted, and how; without options ascending, nulls first.
#[derive(Clone, Copy)]
pub struct SortColumn<'a> {
    /// The slots.
    pub values: SortValues<'a>,
    /// How they are ordered.
    pub options: Option<SortOptions>,
}

/// Returns the order of the slots of an array at two indexes.
fn compare_values(values: &SortValues<'_>, options: SortOptions, i: usize, j: usize) -> Ordering
    ensures { result ≡ values_order values.now options i j }
{
    match *values {
        SortValues::Int8(array) => compare_slots(array, options, i, j),
        SortValues::Int16(array) => compare_slots(array, options, i, j),
        SortValues::Int32(array) => compare_slots(array, options, i, j),
        SortValues::Int64(array) => compare_slots(array, options, i, j),
        SortValues::Int128(array) => compare_slots(array, options, i, j),
        SortValues::UInt8(array) => compare_slots(array, options, i, j),
        SortValues::UInt16(array) => compare_slots(array, options, i, j),
        SortValues::UInt32(array) => compare_slots(array, options, i, j),
        SortValues::UInt64(array) => compare_slots(array, options, i, j),
        SortValues::Boolean(array) => compare_slots(array, options, i, j),
        SortValues::Binary(array) => compare_slots(array, options, i, j),
        SortValues::LargeBinary(array) => compare_slots(array, options, i, j),
        SortValues::Utf8(array) => compare_slots(array, options, i, j),
        SortValues::LargeUtf8(array) => compare_slots(array, options, i, j),
    }
}

/// Notes which slots of an array without nulls differ from the one before, beside those that are noted.
fn note_values<'a, A: OrderSlots<'a> + ReadValues<'a>>(
    array: &'a A,
    options: SortOptions,
    differs: &mut [bool],
)
    requires valid { count_by not (marks_of (A.column array.now)) ≡ 0 }
    requires long { length differs.old ≤ length (A.column array.now).rows }
    ensures { NotesChanges (order_at A.order (A.column array.entry.now) options) differs.old differs.new }
{
    let values = array.stored_values();
    for i in 1..differs.len() {
        let before = A::stored_value(values, i - 1);
        let value = A::stored_value(values, i);
        let differ = array.compare(before, value).is_ne();
        differs[i] = differs[i] | differ;
    }
}

/// Notes which slots of an array differ from the one before, beside those that are noted.
fn note_slots<'a, A: OrderSlots<'a> + ReadValues<'a>>(
    array: &'a A,
    options: SortOptions,
    differs: &mut [bool],
)
    ensures { NotesChanges (order_at A.order (A.column array.entry.now) options) differs.old differs.new }
{
    if array.null_count() == 0 && differs.len() <= array.len() {
        return note_values(array, options, differs);
    }
    for i in 1..differs.len() {
        let differ = compare_slots(array, options, i - 1, i).is_ne();
        differs[i] = differs[i] | differ;
    }
}

/// Notes which slots of an array of any kind differ from the one before, beside those that are noted.
fn note_column(values: &SortValues<'_>, options: SortOptions, differs: &mut [bool])
    ensures { NotesChanges (values_order values.now options) differs.old differs.new }
{
    match *values {
        SortValues::Int8(array) => note_slots(array, options, differs),
        SortValues::Int16(array) => note_slots(array, options, differs),
        SortValues::Int32(array) => note_slots(array, options, differs),
        SortValues::Int64(array) => note_slots(array, options, differs),
        SortValues::Int128(array) => note_slots(array, options, differs),
        SortValues::UInt8(array) => note_slots(array, options, differs),
        SortValues::UInt16(array) => note_slots(array, options, differs),
        SortValues::UInt32(array) => note_slots(array, options, differs),
        SortValues::UInt64(array) => note_slots(array, options, differs),
        SortValues::Boolean(array) => note_slots(array, options, differs),
        SortValues::Binary(array) => note_slots(array, options, differs),
        SortValues::LargeBinary(array) => note_slots(array, options, differs),
        SortValues::Utf8(array) => note_slots(array, options, differs),
        SortValues::LargeUtf8(array) => note_slots(array, options, differs),
    }
}

impl<'a> SortValues<'a> {
    /// Returns the number of slots.
    pub fn len(&self) -> usize
        ensures { result ≡ values_count self.now }
    {
        match *self {
            SortValues::Int8(array) => array.len(),
            SortValues::Int16(array) => array.len(),
            SortValues::Int32(array) => array.len(),
            SortValues::Int64(array) => array.len(),
            SortValues::Int128(array) => array.len(),
            SortValues::UInt8(array) => array.len(),
            SortValues::UInt16(array) => array.len(),
            SortValues::UInt32(array) => array.len(),
            SortValues::UInt64(array) => array.len(),
            SortValues::Boolean(array) => array.len(),
            SortValues::Binary(array) => array.len(),
            SortValues::LargeBinary(array) => array.len(),
            SortValues::Utf8(array) => array.len(),
            SortValues::LargeUtf8(array) => array.len(),
        }
    }

    /// Returns whether there is no slot.
    pub fn is_empty(&self) -> bool
        ensures { result ≡ (values_count self.now == 0) }
    {
        self.len() == 0
    }

    /// Returns the array of the slots at indexes, each of which is there at most once.
    ///
    /// # Errors
    /// `OutOfMemory` if an allocation fails.
    pub(crate) fn take(&self, alloc: Global, indexes: &[u64]) -> Result<SortedValues, Error>
        requires { PickOnce (values_count self.now) indexes.now }
        ensures ok { IfOk result (λ made. made ≡ slots_at self.now indexes.now) }
        ensures err { OnlyOutOfMemory result }
    {
        Ok(match *self {
            SortValues::Int8(array) => SortedValues::Int8(array.take_indexes(alloc, indexes)?),
            SortValues::Int16(array) => SortedValues::Int16(array.take_indexes(alloc, indexes)?),
            SortValues::Int32(array) => SortedValues::Int32(array.take_indexes(alloc, indexes)?),
            SortValues::Int64(array) => SortedValues::Int64(array.take_indexes(alloc, indexes)?),
            SortValues::Int128(array) => SortedValues::Int128(array.take_indexes(alloc, indexes)?),
            SortValues::UInt8(array) => SortedValues::UInt8(array.take_indexes(alloc, indexes)?),
            SortValues::UInt16(array) => SortedValues::UInt16(array.take_indexes(alloc, indexes)?),
            SortValues::UInt32(array) => SortedValues::UInt32(array.take_indexes(alloc, indexes)?),
            SortValues::UInt64(array) => SortedValues::UInt64(array.take_indexes(alloc, indexes)?),
            SortValues::Boolean(array) => SortedValues::Boolean(array.take_indexes(
                alloc, indexes,
            )?),
            SortValues::Binary(array) => SortedValues::Binary(array.take_indexes(alloc, indexes)?),
            SortValues::LargeBinary(array) => SortedValues::LargeBinary(array.take_indexes(
                alloc, indexes,
            )?),
            SortValues::Utf8(array) => SortedValues::Utf8(array.take_indexes(alloc, indexes)?),
            SortValues::LargeUtf8(array) => SortedValues::LargeUtf8(array.take_indexes(
                alloc, indexes,
            )?),
        })
    }
}

/// Returns indexes sorted by the slots of an array of any kind there. Those of equal slots stay in their order.
pub(crate) fn sort_by_column(
    alloc: Global,
    values: &SortValues<'_>,
    options: SortOptions,
    indexes: &[u64],
) -> Result<Vec<u64>, AllocError>
    ensures { IfOk result (λ sorted.
        SortsStably (values_order values.now options) indexes.now sorted.items) }
{
    match *values {
        SortValues::Int8(array) => sort_indexes(alloc, array, options, indexes),
        SortValues::Int16(array) => sort_indexes(alloc, array, options, indexes),
        SortValues::Int32(array) => sort_indexes(alloc, array, options, indexes),
        SortValues::Int64(array) => sort_indexes(alloc, array, options, indexes),
        SortValues::Int128(array) => sort_indexes(alloc, array, options, indexes),
        SortValues::UInt8(array) => sort_indexes(alloc, array, options, indexes),
        SortValues::UInt16(array) => sort_indexes(alloc, array, options, indexes),
        SortValues::UInt32(array) => sort_indexes(alloc, array, options, indexes),
        SortValues::UInt64(array) => sort_indexes(alloc, array, options, indexes),
        SortValues::Boolean(array) => sort_indexes(alloc, array, options, indexes),
        SortValues::Binary(array) => sort_indexes(alloc, array, options, indexes),
        SortValues::LargeBinary(array) => sort_indexes(alloc, array, options, indexes),
        SortValues::Utf8(array) => sort_indexes(alloc, array, options, indexes),
        SortValues::LargeUtf8(array) => sort_indexes(alloc, array, options, indexes),
    }
}

/// Returns for each of `count` rows but the first whether it differs from the one before it. The kind of a column is
/// asked once.
pub(crate) fn changed_rows(
    alloc: Global,
    columns: &[SortColumn<'_>],
    count: usize,
) -> Result<Vec<bool>, AllocError>
    ensures { IfOk result (λ differs. AreChanges (columns_order columns.now) count differs.items) }
{
    let mut differs = Vec::new(alloc);
    differs.resize(count, false)?;
    for column in columns {
        let options = column.options.unwrap_or(SortOptions::default());
        note_column(&column.values, options, &mut differs);
    }
    Ok(differs)
}

/// Returns the order of two rows: the first column in which they differ decides.
pub(crate) fn compare_columns(columns: &[SortColumn<'_>], i: usize, j: usize) -> Ordering
    ensures { result ≡ columns_order columns.now i j }
{
    for column in columns {
        let options = column.options.unwrap_or(SortOptions::default());
        match compare_values(&column.values, options, i, j) {
            Ordering::Equal => {}
            order => return order,
        }
    }
    Ordering::Equal
}
