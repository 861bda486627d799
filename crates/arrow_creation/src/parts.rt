//! An array or a builder from raw parts, which are moved or borrowed; borrowed ones are tested before they are copied.
ghost use Rattle.std.specs.Prelude.{[], ◌∷◌, IsTrue};
ghost use Rattle.arrow_creation.specs.Outcome.{BuiltBy, MakesParts, PartsStep, PutsParts, built_answer, parts_fit};
ghost use Rattle.arrow_entry.specs.Entry.{value_of};
ghost use Rattle.arrow_model.specs.Answer.{outcome};
ghost use Rattle.arrow_model.specs.Request.{parts_request};
ghost use Rattle.arrow_model.specs.Run.{CostsAtMost};
ghost use Rattle.arrow_model.specs.Step.{StepCosts};

mod boolean;
mod bytes;
mod lent;
mod native;
mod raw;

use arrow_check::cost::TextCost;
use arrow_entry::{Entry, replace};
use arrow_model::{Parts, Raw, Reply};
use arrow_types::error::Error;
use arrow_types::native_type::NativeType;
use arrow_types::offset::Offset;
use boolean::bits_from_parts;
use bytes::bytes_from_parts;
use lent::{fits_kind, parts_copied};
use native::natives_from_parts;

/// Creates what raw parts make, which fit their kind. What the test of text costs is added to the counts.
///
/// # Errors
/// `OutOfSpec` for the first test that the parts fail, or `OutOfMemory` if an allocation fails.
fn entry_from_parts<T: NativeType, O: Offset>(
    given: Parts<T, O>,
    cost: &mut TextCost,
) -> Result<Entry<T, O>, Error>
    requires { IsTrue (parts_fit O.number given) }
    ensures transition { BuiltBy value_of result (MakesParts T.NativeType O.Offset given) }
    ensures exact { StepCosts (parts_request O.number 0 given) (built_answer result) cost.old cost.new }
    ensures most { CostsAtMost (parts_request O.number 0 given ∷ []) cost.old cost.new }
{
    let Parts {
        kind,
        data_type,
        raw,
        mask,
    } = given;
    match raw {
        Raw::Values(values) => natives_from_parts(kind, data_type, values, mask),
        Raw::Bits(bits) => bits_from_parts(kind, data_type, bits, mask),
        Raw::Pieces(offsets, bytes) => {
            bytes_from_parts(kind, data_type, offsets, bytes, mask, cost)
        }
    }
}

/// Puts what raw parts make into an empty entry. What the test of text costs is added to the counts.
///
/// # Errors
/// The refusal that the command is answered with; the entry is then as before.
fn put_parts<T: NativeType, O: Offset>(
    entry: &mut Option<Entry<T, O>>,
    given: Parts<T, O>,
    cost: &mut TextCost,
) -> Result<Reply<T>, Error>
    ensures transition { PutsParts T.NativeType O.Offset given entry.old (outcome result) entry.new }
    ensures exact { StepCosts (parts_request O.number 0 given) (outcome result) cost.old cost.new }
    ensures most { CostsAtMost (parts_request O.number 0 given ∷ []) cost.old cost.new }
{
    if entry.is_some() {
        return Ok(Reply::NotMet);
    }
    if !fits_kind(&given) {
        return Ok(Reply::NotMet);
    }
    let made = entry_from_parts(given, cost)?;
    replace(entry, Some(made));
    Ok(Reply::Done)
}

/// Puts what raw parts make into the entry at an index; the command's condition fails if that is not empty or
/// past the table. What the test of text costs is added to the counts.
///
/// # Errors
/// The refusal that the command is answered with; the entries are then as before.
#[inline(always)]
pub fn parts_at<T: NativeType, O: Offset>(
    entries: &mut Vec<Option<Entry<T, O>>>,
    e: usize,
    given: Parts<T, O>,
    cost: &mut TextCost,
) -> Result<Reply<T>, Error>
    ensures step { PartsStep T.NativeType O.Offset e given entries.old.items (outcome result) entries.new.items }
    ensures exact { StepCosts (parts_request O.number e given) (outcome result) cost.old cost.new }
    ensures most { CostsAtMost (parts_request O.number e given ∷ []) cost.old cost.new }
{
    if e >= entries.len() {
        return Ok(Reply::NotMet);
    }
    let entry = &mut entries[e];
    put_parts(entry, given, cost)
}

/// Does the same as [`parts_at`] with borrowed parts, which are copied if the entry is empty and they fit their kind.
///
/// # Errors
/// The refusal that the command is answered with; the entries are then as before.
pub fn lent_parts_at<T: NativeType, O: Offset>(
    entries: &mut Vec<Option<Entry<T, O>>>,
    e: usize,
    given: &Parts<T, O>,
    cost: &mut TextCost,
) -> Result<Reply<T>, Error>
    ensures step { PartsStep T.NativeType O.Offset e given.now entries.old.items (outcome result) entries.new.items }
    ensures exact { StepCosts (parts_request O.number e given.now) (outcome result) cost.old cost.new }
    ensures most { CostsAtMost (parts_request O.number e given.now ∷ []) cost.old cost.new }
{
    if e >= entries.len() {
        return Ok(Reply::NotMet);
    }
    if entries[e].is_some() {
        return Ok(Reply::NotMet);
    }
    if !fits_kind(given) {
        return Ok(Reply::NotMet);
    }
    let copy = parts_copied(given)?;
    parts_at(entries, e, copy, cost)
}
