//! Columns by name, and their slots.
use dethrugn::array::{PrimitiveArray, Utf8Array};
use example_record_batch::any::AnyArray;
use example_record_batch::batch::RecordBatch;

/// Returns the column of numbers of a name, if there is one.
pub fn numbers<'a>(table: &'a RecordBatch, name: &str) -> Option<&'a PrimitiveArray<i64>> {
    match table.column(name) {
        Some(AnyArray::Int64(array)) => Some(array),
        _ => None,
    }
}

/// Returns the column of texts of a name, if there is one.
pub fn texts<'a>(table: &'a RecordBatch, name: &str) -> Option<&'a Utf8Array<i32>> {
    match table.column(name) {
        Some(AnyArray::Utf8(array)) => Some(array),
        _ => None,
    }
}

/// Returns the number in row `i` of a column, or `None` if it is null.
pub fn number_at(table: &RecordBatch, name: &str, i: usize) -> Option<i64> {
    let array = numbers(table, name)?;
    if i < array.len() { array.get(i) } else { None }
}

/// Returns the text in row `i` of a column, or `None` if it is null.
pub fn text_at<'a>(table: &'a RecordBatch, name: &str, i: usize) -> Option<&'a str> {
    let array = texts(table, name)?;
    if i < array.len() { array.get(i) } else { None }
}
