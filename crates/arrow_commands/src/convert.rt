//! Commands that cut an array, empty an entry, or convert what it holds.
ghost use Rattle.std.specs.Prelude.{◌-◌, ◌≡◌, ◌≤◌, IsTrue, length};
ghost use Rattle.arrow_types.specs.Types.{IsRightType, logical_type};
ghost use Rattle.arrow_types.specs.declared.physical_type.PhysicalType.TheVariants as PhysicalType;
ghost use Rattle.arrow_entry.specs.Entry.{EntryStep, value_of};
ghost use Rattle.arrow_model.specs.Answer.{answer_of, outcome};
ghost use Rattle.arrow_model.specs.Change.{cut_value};
ghost use Rattle.arrow_model.specs.Kind.{is_frozen};
ghost use Rattle.arrow_model.specs.Request as ask;

use crate::command::{ChangesEntry, UpdatesEntry};
use arrow_entry::{Entry, frozen, replace};
use arrow_model::Reply;
use arrow_types::data_type::DataType;
use arrow_types::error::Error;
use arrow_types::native_type::NativeType;
use arrow_types::offset::Offset;
use arrow_types::physical_type::PhysicalType;
use either::{Left, Right};
use std::alloc::Global;

/// Keeps `len` slots of an array, from `offset` on.
#[tactic(auto, using(arrow_entry::proofs::CallerLemmas::seen_reads, arrow_entry::proofs::CallerLemmas::seen_cuts))]
fn slice_array<T: NativeType, O: Offset>(entry: &mut Entry<T, O>, offset: usize, len: usize)
    requires array { IsTrue (is_frozen (value_of entry.old).shape) }
    requires from { offset ≤ length (value_of entry.old).column.rows }
    requires room { len ≤ length (value_of entry.old).column.rows - offset }
    ensures { value_of entry.new ≡ cut_value (value_of entry.old) offset len }
{
    match entry {
        Entry::Primitive(array) => array.slice(offset, len),
        Entry::Boolean(array) => array.slice(offset, len),
        Entry::Binary(array) => array.slice(offset, len),
        Entry::Utf8(array) => array.slice(offset, len),
        _ => unreachable!(),
    }
}

/// Keeps some slots of an array: the first number is where they begin, the second how many they are.
#[derive(Drop)]
pub struct Slice(pub usize, pub usize);

impl<T: NativeType, O: Offset> UpdatesEntry<T, O> for Slice {
    ghost use Rattle.arrow_model.specs.Request.{slice};

    ghost asks = { λ command. slice command.0 command.1 };

    fn update(&self, _alloc: Global, entry: &mut Entry<T, O>) -> Result<Reply<T>, Error> {
        if !entry.is_array() {
            return Ok(Reply::NotMet);
        }
        let count = entry.len();
        // Compared with what is left, since a sum could pass `usize::MAX`.
        if self.0 > count {
            return Ok(Reply::NotMet);
        }
        if self.1 > count - self.0 {
            return Ok(Reply::NotMet);
        }
        slice_array(entry, self.0, self.1);
        Ok(Reply::Done)
    }
}

/// Empties an entry.
#[derive(Drop)]
pub struct DropEntry;

impl<T: NativeType, O: Offset> ChangesEntry<T, O> for DropEntry {
    ghost use Rattle.arrow_model.specs.Request.{empty};

    ghost asks = { λ command. empty };

    fn run(&self, _alloc: Global, entry: &mut Option<Entry<T, O>>) -> Result<Reply<T>, Error> {
        if entry.is_none() {
            return Ok(Reply::NotMet);
        }
        replace(entry, None);
        Ok(Reply::Done)
    }
}

/// Freezes what was in an entry, and returns what the entry then holds, and the answer.
fn freeze_taken<T: NativeType, O: Offset>(
    taken: Option<Entry<T, O>>,
) -> (Option<Entry<T, O>>, Result<Reply<T>, Error>)
    ensures { EntryStep T.NativeType O.Offset ask.freeze taken (outcome result.1) result.0 }
{
    match taken {
        Some(entry) => {
            if entry.is_array() {
                return (Some(entry), Ok(Reply::NotMet));
            }
            match frozen(entry) {
                Ok(array) => (Some(array), Ok(Reply::Done)),
                Err(refused) => (None, Err(refused)),
            }
        }
        none => (none, Ok(Reply::NotMet)),
    }
}

/// Makes a builder an array. If memory is refused the entry is empty.
#[derive(Drop)]
pub struct Freeze;

impl<T: NativeType, O: Offset> ChangesEntry<T, O> for Freeze {
    ghost use Rattle.arrow_model.specs.Request.{freeze};

    ghost asks = { λ command. freeze };

    fn run(&self, _alloc: Global, entry: &mut Option<Entry<T, O>>) -> Result<Reply<T>, Error> {
        let (after, result) = freeze_taken(entry.take());
        replace(entry, after);
        result
    }
}

/// Thaws what was in an entry, and returns what the entry then holds, and the answer.
#[tactic(auto, using(arrow_entry::proofs::CallerLemmas::seen_reads, arrow_entry::proofs::CallerLemmas::seen_thaws))]
fn thawed<T: NativeType, O: Offset>(taken: Option<Entry<T, O>>) -> (Option<Entry<T, O>>, Reply<T>)
    ensures { EntryStep T.NativeType O.Offset ask.thaw taken (answer_of result.1) result.0 }
{
    match taken {
        Some(Entry::Primitive(array)) => match array.into_mut() {
            Left(array) => (Some(Entry::Primitive(array)), Reply::Left),
            Right(builder) => (Some(Entry::MutablePrimitive(builder)), Reply::Right),
        },
        Some(Entry::Boolean(array)) => match array.into_mut() {
            Left(array) => (Some(Entry::Boolean(array)), Reply::Left),
            Right(builder) => (Some(Entry::MutableBoolean(builder)), Reply::Right),
        },
        Some(Entry::Binary(array)) => match array.into_mut() {
            Left(array) => (Some(Entry::Binary(array)), Reply::Left),
            Right(builder) => (Some(Entry::MutableBinary(builder)), Reply::Right),
        },
        Some(Entry::Utf8(array)) => match array.into_mut() {
            Left(array) => (Some(Entry::Utf8(array)), Reply::Left),
            Right(builder) => (Some(Entry::MutableUtf8(builder)), Reply::Right),
        },
        other => (other, Reply::NotMet),
    }
}

/// Converts an array into a builder if its `into_mut` can do so without a copy; otherwise the array stays.
#[derive(Drop)]
pub struct Thaw;

impl<T: NativeType, O: Offset> ChangesEntry<T, O> for Thaw {
    ghost use Rattle.arrow_model.specs.Request.{thaw};

    ghost asks = { λ command. thaw };

    fn run(&self, _alloc: Global, entry: &mut Option<Entry<T, O>>) -> Result<Reply<T>, Error> {
        let (after, reply) = thawed(entry.take());
        replace(entry, after);
        Ok(reply)
    }
}

/// Converts what was in an entry into a builder with nulls, and returns what the entry then holds, and the answer.
fn with_nulls<T: NativeType, O: Offset>(
    taken: Option<Entry<T, O>>,
) -> (Option<Entry<T, O>>, Reply<T>)
    ensures { EntryStep T.NativeType O.Offset ask.nullable taken (answer_of result.1) result.0 }
{
    match taken {
        Some(Entry::BinaryValues(values)) => {
            (Some(Entry::MutableBinary(values.into())), Reply::Done)
        }
        Some(Entry::Utf8Values(values)) => (Some(Entry::MutableUtf8(values.into())), Reply::Done),
        other => (other, Reply::NotMet),
    }
}

/// Makes a builder of values alone one with nulls, which holds no mask.
#[derive(Drop)]
pub struct Nullable;

impl<T: NativeType, O: Offset> ChangesEntry<T, O> for Nullable {
    ghost use Rattle.arrow_model.specs.Request.{nullable};

    ghost asks = { λ command. nullable };

    fn run(&self, _alloc: Global, entry: &mut Option<Entry<T, O>>) -> Result<Reply<T>, Error> {
        let (after, reply) = with_nulls(entry.take());
        replace(entry, after);
        Ok(reply)
    }
}

/// Gives what was in an entry a data type, which must be right for native values, and returns what the entry then
/// holds, and the answer.
#[tactic(auto, using(arrow_entry::proofs::CallerLemmas::seen_changes))]
fn retyped<T: NativeType, O: Offset>(
    taken: Option<Entry<T, O>>,
    data_type: DataType,
) -> (Option<Entry<T, O>>, Reply<T>)
    requires { IsRightType (PhysicalType.Primitive T.PRIMITIVE) (logical_type data_type) }
    ensures { EntryStep T.NativeType O.Offset (ask.to (logical_type data_type)) taken (answer_of result.1) result.0 }
{
    match taken {
        Some(Entry::Primitive(array)) => (Some(Entry::Primitive(array.to(data_type))), Reply::Done),
        Some(Entry::MutablePrimitive(builder)) => (
            Some(Entry::MutablePrimitive(builder.to(data_type))),
            Reply::Done,
        ),
        other => (other, Reply::NotMet),
    }
}

/// Replaces the data type of native values.
#[derive(Drop)]
pub struct To<'a>(pub &'a DataType);

impl<'a, T: NativeType, O: Offset> ChangesEntry<T, O> for To<'a> {
    ghost use Rattle.arrow_types.specs.Types.{logical_type};
    ghost use Rattle.arrow_model.specs.Request.{to};

    ghost asks = { λ command. to (logical_type command.0.now) };

    fn run(&self, _alloc: Global, entry: &mut Option<Entry<T, O>>) -> Result<Reply<T>, Error> {
        match entry {
            Some(Entry::Primitive(_)) | Some(Entry::MutablePrimitive(_)) => {}
            _ => return Ok(Reply::NotMet),
        }
        if !self.0.is_right_for(PhysicalType::Primitive(T::PRIMITIVE)) {
            return Ok(Reply::NotMet);
        }
        let data_type = self.0.clone()?;
        let (after, reply) = retyped(entry.take(), data_type);
        replace(entry, after);
        Ok(reply)
    }
}
