//! The command `Equal`: whether two builders with nulls have the same slots.
ghost use Rattle.std.specs.Prelude.{◌↔◌, IsTrue, option_copied};
ghost use Rattle.arrow_entry.specs.Entry.{EntriesStep, boolean_value, bytes_value, native_value, value_in};
ghost use Rattle.arrow_model.specs.Answer.{answer_of};
ghost use Rattle.arrow_model.specs.Kind.{with_nulls};
ghost use Rattle.arrow_model.specs.Request.{equal};
ghost use Rattle.arrow_model.specs.Step.{ComparesWith};
ghost use Rattle.arrow_table.specs.Listed.{SameSlots};

use arrow_boolean::MutableBooleanArray;
use arrow_byte_array::MutableByteArray;
use arrow_bytes::{Binary, ByteKind, Utf8};
use arrow_entry::{Entry, entry_at};
use arrow_model::Reply;
use arrow_primitive::MutablePrimitiveArray;
use arrow_types::native_type::NativeType;
use arrow_types::offset::Offset;

/// Returns whether two builders of native values have the same slots.
#[tactic(auto, using(arrow_entry::proofs::CallerLemmas::seen_slots))]
fn same_values<T: NativeType>(
    first: &MutablePrimitiveArray<T>,
    second: &MutablePrimitiveArray<T>,
) -> bool
    ensures { IsTrue result ↔ SameSlots (native_value with_nulls) first.now second.now }
{
    *first == *second
}

/// Returns whether two boolean builders have the same slots.
fn same_bits<T: NativeType>(first: &MutableBooleanArray, second: &MutableBooleanArray) -> bool
    ensures { IsTrue result ↔ SameSlots (boolean_value {T = T} with_nulls) first.now second.now }
{
    *first == *second
}

/// Returns whether two builders of bytes, or of texts, have the same slots.
#[tactic(auto, using(arrow_entry::proofs::CallerLemmas::seen_slots))]
fn same_items<T: NativeType, K: ByteKind, O: Offset>(
    first: &MutableByteArray<K, O>,
    second: &MutableByteArray<K, O>,
) -> bool
    ensures { IsTrue result ↔ SameSlots (bytes_value {T = T} with_nulls K.is_text) first.now second.now }
{
    *first == *second
}

/// Compares the slots of two builders with nulls of one kind.
fn compare<T: NativeType, O: Offset>(
    first: &Option<Entry<T, O>>,
    second: Option<&Entry<T, O>>,
) -> Reply<T>
    ensures { ComparesWith (value_in first.now) (value_in (option_copied second.entry)) (answer_of result)
        (value_in first.now) }
{
    match (first, second) {
        (Some(Entry::MutablePrimitive(first)), Some(Entry::MutablePrimitive(second))) => {
            Reply::Flag(same_values(first, second))
        }
        (Some(Entry::MutableBoolean(first)), Some(Entry::MutableBoolean(second))) => {
            Reply::Flag(same_bits::<T>(first, second))
        }
        (Some(Entry::MutableBinary(first)), Some(Entry::MutableBinary(second))) => {
            Reply::Flag(same_items::<T, Binary, O>(first, second))
        }
        (Some(Entry::MutableUtf8(first)), Some(Entry::MutableUtf8(second))) => {
            Reply::Flag(same_items::<T, Utf8, O>(first, second))
        }
        _ => Reply::NotMet,
    }
}

/// Compares the builders in the entries of two numbers; the condition fails past the table.
pub(crate) fn equal_at<T: NativeType, O: Offset>(
    entries: &Vec<Option<Entry<T, O>>>,
    e: usize,
    f: usize,
) -> Reply<T>
    ensures { EntriesStep T.NativeType O.Offset (equal e f) entries.now.items (answer_of result) entries.now.items }
{
    if e >= entries.len() {
        return Reply::NotMet;
    }
    compare(&entries[e], entry_at(entries, f))
}
