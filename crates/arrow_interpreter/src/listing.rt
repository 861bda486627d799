//! The text of all slots of an entry, which are read where they lie, so that none of them is copied.
ghost use Rattle.std.specs.Prelude.{◌<◌, ◌∷◌, [], OnOk, length, option_copied};
ghost use Rattle.std.specs.List.{join_with_byte};
ghost use Rattle.arrow_entry.specs.Entry.{value_of};
ghost use Rattle.arrow_entry.specs.Slot.{stored_ref};
ghost use Rattle.arrow_syntax.specs.Text.{AppendsText, answers_text, bracketed, item_text};
ghost use Rattle.arrow_syntax.specs.Words.{space};
ghost use Rattle.arrow_interpreter.specs.Listing.{AppendsSlotText, gap, slot_texts};
ghost use Rattle.arrow_table.specs.Listed.{listed};

use arrow_entry::{Entry, SlotRef};
use arrow_syntax::print::{push_bit, push_bytes, push_value};
use arrow_types::offset::Offset;
use std::alloc::AllocError;

/// Appends the text of what a slot stores.
#[inline(always)]
fn push_slot_ref(text: &mut String, item: SlotRef<'_, i64>) -> Result<(), AllocError>
    ensures { OnOk result (AppendsText text.old text.new (item_text (stored_ref item.entry))) }
{
    match item {
        SlotRef::Value(number) => push_value(text, number),
        SlotRef::Bit(bit) => push_bit(text, bit),
        SlotRef::Bytes(bytes) => push_bytes(text, 'x', bytes),
        SlotRef::Text(word) => push_bytes(text, 't', word.as_bytes()),
    }
}

/// Appends the text of the slot at a place.
#[tactic(auto, using(arrow_entry::proofs::CallerLemmas::slot_reads))]
#[inline(always)]
fn push_slot_at<O: Offset>(
    text: &mut String,
    entry: &Entry<i64, O>,
    i: usize,
) -> Result<(), AllocError>
    requires { i < length (value_of entry.now).column.rows }
    ensures { OnOk result (AppendsSlotText (value_of entry.now) i text.old text.new) }
{
    if entry.is_null(i) {
        return text.push_str("_");
    }
    push_slot_ref(text, entry.slot_ref(i))
}

/// Appends the space before a slot; the first slot has none.
#[inline(always)]
fn push_gap(text: &mut String, i: usize) -> Result<(), AllocError>
    ensures { OnOk result (AppendsText text.old text.new (gap i)) }
{
    if i == 0 {
        return Ok(());
    }
    text.push_str(" ")
}

/// Appends the text of all slots, with a space between each two.
fn push_joined<O: Offset>(text: &mut String, entry: &Entry<i64, O>) -> Result<(), AllocError>
    ensures { OnOk result (AppendsText text.old text.new (join_with_byte space (slot_texts (value_of entry.now)))) }
{
    for i in 0..entry.len() {
        push_gap(text, i)?;
        push_slot_at(text, entry, i)?;
    }
    Ok(())
}

/// Appends the text of all slots of what an entry holds, in brackets.
fn push_slots<O: Offset>(text: &mut String, entry: &Entry<i64, O>) -> Result<(), AllocError>
    ensures { OnOk result (AppendsText text.old text.new (bracketed (slot_texts (value_of entry.now)))) }
{
    text.push_str("[")?;
    push_joined(text, entry)?;
    text.push_str("]")
}

/// Appends the line of all slots of what an entry holds, or `not met` if it holds nothing.
pub(crate) fn push_listed<O: Offset>(
    text: &mut String,
    found: Option<&Entry<i64, O>>,
) -> Result<(), AllocError>
    ensures { OnOk result
        (AppendsText text.old text.new (answers_text (listed (option_copied found.entry) ∷ []))) }
{
    match found {
        Some(entry) => push_slots(text, entry)?,
        None => text.push_str("not met")?,
    }
    text.push_str("\n")
}
