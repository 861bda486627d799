//! The command `ExtendFromSelf`: the rows of another builder, appended.
ghost use Rattle.std.specs.Prelude.{option_copied};
ghost use Rattle.arrow_entry.specs.Entry.{EntriesStep};
ghost use Rattle.arrow_model.specs.Answer.{outcome};
ghost use Rattle.arrow_model.specs.Request.{extend_from};
ghost use Rattle.arrow_table.specs.Listed.{ExtendsEntry};

use arrow_entry::{Entry, entry_at, replace};
use arrow_model::Reply;
use arrow_types::error::Error;
use arrow_types::native_type::NativeType;
use arrow_types::offset::Offset;

/// Appends to the builder in an entry the rows of another of the same kind.
///
/// # Errors
/// `Overflow` if offsets can't express the ends of its items, or else `OutOfMemory`; the builder is then as before.
#[tactic(auto, using(arrow_entry::proofs::CallerLemmas::seen_reads, arrow_entry::proofs::CallerLemmas::seen_grows, arrow_entry::proofs::CallerLemmas::seen_bytes))]
fn join<T: NativeType, O: Offset>(
    entry: &mut Option<Entry<T, O>>,
    other: Option<&Entry<T, O>>,
) -> Result<Reply<T>, Error>
    ensures { ExtendsEntry T.NativeType O.Offset entry.old (option_copied other.entry) (outcome result) entry.new }
{
    let joined = match (entry, other) {
        (Some(Entry::MutablePrimitive(builder)), Some(Entry::MutablePrimitive(other))) => {
            builder.try_extend_from_self(other)
        }
        (Some(Entry::MutableBoolean(builder)), Some(Entry::MutableBoolean(other))) => {
            builder.try_extend_from_self(other)
        }
        (Some(Entry::MutableBinary(builder)), Some(Entry::MutableBinary(other))) => {
            builder.try_extend_from_self(other)
        }
        (Some(Entry::MutableUtf8(builder)), Some(Entry::MutableUtf8(other))) => {
            builder.try_extend_from_self(other)
        }
        (Some(Entry::BinaryValues(builder)), Some(Entry::BinaryValues(other))) => {
            builder.try_extend_from_self(other)
        }
        (Some(Entry::Utf8Values(builder)), Some(Entry::Utf8Values(other))) => {
            builder.try_extend_from_self(other)
        }
        _ => return Ok(Reply::NotMet),
    };
    joined?;
    Ok(Reply::Done)
}

/// Appends the rows of the builder in entry `f` to the builder in entry `e`; the condition fails past the table.
pub(crate) fn extend_at<T: NativeType, O: Offset>(
    entries: &mut Vec<Option<Entry<T, O>>>,
    e: usize,
    f: usize,
) -> Result<Reply<T>, Error>
    ensures { EntriesStep T.NativeType O.Offset (extend_from e f) entries.old.items (outcome result)
        entries.new.items }
{
    if e >= entries.len() {
        return Ok(Reply::NotMet);
    }
    let mut entry = entries[e].take();
    let result = join(&mut entry, entry_at(entries, f));
    replace(&mut entries[e], entry);
    result
}
