//! The text of replies, appended to one text, which a session writes at its end.
ghost use Rattle.std.specs.Prelude.{◌≡◌, ◌∷◌, ◌++◌, ◌<◌, if◌then◌else◌, ℕ, List, codes, decimal, map, flat_map};
ghost use Rattle.std.specs.Prelude.{slice_index, OnOk};
ghost use Rattle.std.specs.Fmt.{signed_decimal};
ghost use Rattle.std.specs.List.{join_with_byte};
ghost use Rattle.hex.specs.Hex.{encode_lower, lower_digits};
ghost use Rattle.arrow_types.specs.Types.{logical_type};
ghost use Rattle.arrow_model.specs.Answer.{answer_of};
ghost use Rattle.arrow_model.specs.Item.{stored_item, stored_slot};
ghost use Rattle.arrow_syntax.specs.Words.{space};
ghost use Rattle.arrow_syntax.specs.Text.{AppendsText, answer_text, bracketed, item_text, slot_text, answers_text, type_word};

use arrow_model::{Item, Reply};
use arrow_types::data_type::DataType;
use itoa::{Buffer, Integer};
use std::alloc::AllocError;
use std::fmt::Write;

/// Appends the digits of a number.
fn push_number<I: Integer>(text: &mut String, number: I) -> Result<(), AllocError>
    ensures { OnOk result (AppendsText text.old text.new (I.text number)) }
{
    let mut digits = Buffer::new();
    text.push_str(digits.format(number))
}

/// Appends a native value: `v` and its digits.
pub fn push_value(text: &mut String, number: i64) -> Result<(), AllocError>
    ensures { OnOk result (AppendsText text.old text.new (codes "v" ++ signed_decimal number)) }
{
    text.push_str("v")?;
    push_number(text, number)
}

/// Returns the hexadecimal digit of a value.
fn digit(worth: u8) -> char
    requires { worth < 16 }
    ensures value { result ≡ slice_index lower_digits worth }
    ensures ascii { result < 128 }
{
    let digits = b"0123456789abcdef";
    char::from(digits[usize::from(worth)])
}

/// Appends the hexadecimal digits of bytes.
fn push_hex(text: &mut String, bytes: &[u8]) -> Result<(), AllocError>
    ensures { OnOk result (AppendsText text.old text.new (encode_lower bytes.now)) }
{
    for byte in bytes {
        text.push(digit(*byte / 16))?;
        text.push(digit(*byte % 16))?;
    }
    Ok(())
}

/// Appends a letter and the hexadecimal digits of bytes.
pub fn push_bytes(text: &mut String, letter: char, bytes: &[u8]) -> Result<(), AllocError>
    requires { letter < 128 }
    ensures { OnOk result (AppendsText text.old text.new (letter ∷ encode_lower bytes.now)) }
{
    text.push(letter)?;
    push_hex(text, bytes)
}

/// Appends the text of a boolean.
pub fn push_bit(text: &mut String, bit: bool) -> Result<(), AllocError>
    ensures { OnOk result (AppendsText text.old text.new (if bit then codes "b1" else codes "b0")) }
{
    text.push_str(if bit { "b1" } else { "b0" })
}

fn push_item(text: &mut String, item: &Item<i64>) -> Result<(), AllocError>
    ensures { OnOk result (AppendsText text.old text.new (item_text (stored_item item.now))) }
{
    match item {
        Item::Value(number) => push_value(text, *number),
        Item::Bit(bit) => push_bit(text, *bit),
        Item::Bytes(bytes) => push_bytes(text, 'x', bytes),
        Item::Text(word) => push_bytes(text, 't', word.as_bytes()),
    }
}

fn push_slot(text: &mut String, slot: &Option<Item<i64>>) -> Result<(), AllocError>
    ensures { OnOk result (AppendsText text.old text.new (slot_text (stored_slot slot.now))) }
{
    match slot {
        Some(item) => push_item(text, item),
        None => text.push_str("_"),
    }
}

/// A part of a list in brackets.
trait Part {
    /// The text of the part.
    ghost part_text: { Self → List ℕ };

    /// Appends the text of the part.
    fn push_to(&self, text: &mut String) -> Result<(), AllocError>
        ensures { OnOk result (AppendsText text.old text.new (part_text self.now)) };
}

impl Part for Option<Item<i64>> {
    ghost part_text = { λ slot. slot_text (stored_slot slot) };

    fn push_to(&self, text: &mut String) -> Result<(), AllocError> {
        push_slot(text, self)
    }
}

impl Part for usize {
    ghost part_text = { decimal };

    fn push_to(&self, text: &mut String) -> Result<(), AllocError> {
        push_number(text, *self)
    }
}

/// Appends parts with a space before each.
fn push_others<P: Part>(text: &mut String, parts: &[P]) -> Result<(), AllocError>
    ensures { OnOk result (AppendsText text.old text.new (flat_map (λ x. space ∷ P.part_text x) parts.now)) }
{
    for each in parts {
        text.push_str(" ")?;
        each.push_to(text)?;
    }
    Ok(())
}

/// Appends parts with a space between each two.
fn push_joined<P: Part>(text: &mut String, parts: &[P]) -> Result<(), AllocError>
    ensures { OnOk result (AppendsText text.old text.new (join_with_byte space (map P.part_text parts.now))) }
{
    let Some((first, others)) = parts.split_first() else {
        return Ok(());
    };
    first.push_to(text)?;
    push_others(text, others)
}

fn push_list<P: Part>(text: &mut String, parts: &[P]) -> Result<(), AllocError>
    ensures { OnOk result (AppendsText text.old text.new (bracketed (map P.part_text parts.now))) }
{
    text.push_str("[")?;
    push_joined(text, parts)?;
    text.push_str("]")
}

/// Returns the word of a type, or `other` if it has none.
fn type_word(data_type: &DataType) -> &'static str
    ensures { result.now ≡ type_word (logical_type data_type.now) }
{
    match data_type {
        DataType::Boolean => "Boolean",
        DataType::Int8 => "Int8",
        DataType::Int16 => "Int16",
        DataType::Int32 => "Int32",
        DataType::Int64 => "Int64",
        DataType::UInt8 => "UInt8",
        DataType::UInt16 => "UInt16",
        DataType::UInt32 => "UInt32",
        DataType::UInt64 => "UInt64",
        DataType::Date32 => "Date32",
        DataType::Date64 => "Date64",
        DataType::Binary => "Binary",
        DataType::LargeBinary => "LargeBinary",
        DataType::Utf8 => "Utf8",
        DataType::LargeUtf8 => "LargeUtf8",
        _ => "other",
    }
}

fn push_reply(text: &mut String, reply: &Reply<i64>) -> Result<(), AllocError>
    ensures { OnOk result (AppendsText text.old text.new (answer_text (answer_of reply.now))) }
{
    match reply {
        Reply::Done => text.push_str("ok"),
        Reply::NotMet => text.push_str("not met"),
        Reply::NotGiven => text.push_str("not given"),
        Reply::Number(number) => push_number(text, *number),
        Reply::Flag(false) => text.push_str("false"),
        Reply::Flag(true) => text.push_str("true"),
        Reply::Slot(slot) => push_slot(text, slot),
        Reply::Slots(slots) => push_list(text, slots),
        Reply::Numbers(numbers) => push_list(text, numbers),
        Reply::Typed(data_type) => text.push_str(type_word(data_type)),
        Reply::Left => text.push_str("left"),
        Reply::Right => text.push_str("right"),
        Reply::Refused(error) => write!(text, "refused: {error}"),
    }
}

/// Appends a line for each reply, in order.
pub fn push_replies(text: &mut String, replies: &[Reply<i64>]) -> Result<(), AllocError>
    ensures { OnOk result (AppendsText text.old text.new (answers_text (map answer_of replies.now))) }
{
    for reply in replies {
        push_reply(text, reply)?;
        text.push_str("\n")?;
    }
    Ok(())
}
