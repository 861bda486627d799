//! Cells as text, for both forms of output. Text is borrowed from its array; one scratch text serves all numbers.
ghost use Rattle.std.specs.Prelude.{◌≡◌, ◌<◌, IfOk};
ghost use Rattle.std.specs.Fmt.{signed_decimal};
ghost use Rattle.hex.specs.Hex.{encode_lower};
ghost use Rattle.example_record_batch.specs.AnyArrays.{cell_at, slot_count};
ghost use Rattle.example_csv.specs.Text.{cell_text, truth_text};

use example_record_batch::any::AnyArray;
use std::alloc::AllocError;
use std::fmt::Write;

/// Returns the text of a boolean.
pub fn truth_text(value: bool) -> &'static str
    ensures { result.now ≡ truth_text value }
{
    if value { "true" } else { "false" }
}

/// Writes a number into `scratch` and returns its text.
pub fn number_text(number: i64, scratch: &mut String) -> Result<&str, AllocError>
    ensures { IfOk result (λ text. text.now ≡ signed_decimal number) }
{
    scratch.clear();
    write!(scratch, "{number}")?;
    Ok(scratch.as_str())
}

/// Writes bytes into `scratch` as hexadecimal digits and returns these.
fn bytes_text<'a>(bytes: &[u8], scratch: &'a mut String) -> Result<&'a str, AllocError>
    ensures { IfOk result (λ text. text.now ≡ encode_lower bytes.now) }
{
    *scratch = hex::encode(*scratch.allocator(), bytes)?;
    Ok(scratch.as_str())
}

/// Returns the text of the slot at `row`, empty for a null. A number or bytes are written into `scratch`; text is
/// borrowed from the array.
///
/// # Errors
/// `AllocError` if an allocation fails.
pub fn cell_text<'a>(
    array: &'a AnyArray,
    row: usize,
    scratch: &'a mut String,
) -> Result<&'a str, AllocError>
    requires { row < slot_count array.now }
    ensures { IfOk result (λ text. text.now ≡ cell_text (cell_at array.now row)) }
{
    match array {
        AnyArray::Int64(array) => match array.get(row) {
            Some(number) => number_text(number, scratch),
            None => Ok(""),
        },
        AnyArray::Boolean(array) => match array.get(row) {
            Some(value) => Ok(truth_text(value)),
            None => Ok(""),
        },
        AnyArray::Binary(array) => match array.get(row) {
            Some(bytes) => bytes_text(bytes, scratch),
            None => Ok(""),
        },
        AnyArray::Utf8(array) => Ok(array.get(row).unwrap_or("")),
    }
}
