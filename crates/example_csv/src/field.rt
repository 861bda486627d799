//! What header fields and fields mean. A number is the text that it prints as, so that nothing is lost between reading
//! and printing.
ghost use Rattle.std.specs.Prelude.{◌≡◌, option_map};
ghost use Rattle.example_csv.specs.Fields.{header_of, parsed_number, slot_as, field_text, truth_of};

use crate::kind::Kind;
use itoa::Buffer;

/// Returns the number that prints as `field`, or `None` if none does: `007` and `+7` are not the text of a number.
pub fn number(field: &str) -> Option<i64>
    ensures { result ≡ parsed_number field.now }
{
    let value = field.parse::<i64>().ok()?;
    if Buffer::new().format(value) == field {
        Some(value)
    } else {
        None
    }
}

/// Returns the boolean that prints as `field`, or `None` if none does.
pub fn truth(field: &str) -> Option<bool>
    ensures { result ≡ truth_of field.now }
{
    field.parse::<bool>().ok()
}

/// Returns the text of a field: an empty field is a null.
pub fn text(field: &str) -> Option<&str>
    ensures { option_map (λ s. s.now) result ≡ field_text field.now }
{
    if field.is_empty() { None } else { Some(field) }
}

/// Returns the slot of numbers for a slot of text: a number or a null, or `None` if the text is not a number.
pub fn number_slot(text: Option<&str>) -> Option<Option<i64>>
    ensures { result ≡ slot_as parsed_number (option_map (λ s. s.now) text.entry) }
{
    match text {
        Some(text) => Some(Some(number(text)?)),
        None => Some(None),
    }
}

/// Returns the slot of booleans for a slot of text: a boolean or a null, or `None` if the text is not a boolean.
pub fn truth_slot(text: Option<&str>) -> Option<Option<bool>>
    ensures { result ≡ slot_as truth_of (option_map (λ s. s.now) text.entry) }
{
    match text {
        Some(text) => Some(Some(truth(text)?)),
        None => Some(None),
    }
}

/// Splits a header field into the column's name and the type that it declares, if it declares one.
pub fn split_header(header: &str) -> (&str, Option<Kind>)
    ensures name { result.0.now ≡ (header_of header.now).0 }
    ensures declared { result.1 ≡ (header_of header.now).1 }
{
    if let Some(name) = header.strip_suffix(":i64") {
        (name, Some(Kind::Int64))
    } else if let Some(name) = header.strip_suffix(":bool") {
        (name, Some(Kind::Boolean))
    } else if let Some(name) = header.strip_suffix(":text") {
        (name, Some(Kind::Utf8))
    } else {
        (header, None)
    }
}
