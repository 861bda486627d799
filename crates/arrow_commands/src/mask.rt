//! Commands that replace or change a mask. The code of each is proved against its case in `Step.antt`, which says for
//! which kinds it is.
ghost use Rattle.std.specs.Prelude.{◌≡◌, IfOk, IfSome, IsTrue, OnOk, Some, length, replicate, reverse, true};
ghost use Rattle.arrow_types.specs.Failures.{OnlyOutOfMemory, OutOfMemoryKeeps};
ghost use Rattle.arrow_column.specs.Column.{mask_of};
ghost use Rattle.arrow_entry.specs.Entry.{value_of};
ghost use Rattle.arrow_model.specs.Change.{with_value_mask};
ghost use Rattle.arrow_model.specs.Kind.{applies_mask, sets_mask};

use crate::command::UpdatesEntry;
use arrow_boolean::BooleanArray;
use arrow_byte_array::{ByteArray, MutableByteArray};
use arrow_bytes::{Binary, ByteKind, Utf8};
use arrow_entry::Entry;
use arrow_memory::bitmap::{Bitmap, BitmapIter, MutableBitmap};
use arrow_model::{Change, Item, Reply};
use arrow_primitive::PrimitiveArray;
use arrow_types::error::Error;
use arrow_types::native_type::NativeType;
use arrow_types::offset::Offset;
use std::alloc::Global;

/// Returns whether the command is for the kind of an entry: arrays, and builders with nulls except of booleans.
fn sets_mask<T: NativeType, O: Offset>(entry: &Entry<T, O>) -> bool
    ensures { result ≡ sets_mask (value_of entry.now).shape }
{
    !matches!(
        entry,
        Entry::MutableBoolean(_) | Entry::BinaryValues(_) | Entry::Utf8Values(_)
    )
}

/// Freezes a mask.
///
/// # Errors
/// `OutOfMemory` if an allocation fails.
fn frozen_mask(mask: Option<MutableBitmap>) -> Result<Option<Bitmap>, Error>
    ensures ok { IfOk result (λ frozen. frozen ≡ mask) }
    ensures err { OnlyOutOfMemory result }
{
    match mask {
        Some(marks) => Ok(Some(marks.freeze()?)),
        None => Ok(None),
    }
}

/// Replaces a mask by one with a mark for each slot, or by none.
///
/// # Errors
/// `OutOfMemory` if an allocation fails; the entry is then as before.
#[tactic(auto, using(arrow_entry::proofs::CallerLemmas::seen_reads, arrow_entry::proofs::CallerLemmas::seen_masks))]
fn replace_mask<T: NativeType, O: Offset>(
    entry: &mut Entry<T, O>,
    mask: Option<MutableBitmap>,
) -> Result<(), Error>
    requires kind { IsTrue (sets_mask (value_of entry.old).shape) }
    requires fits { IfSome mask (λ marks. length marks ≡ length (value_of entry.old).column.rows) }
    ensures ok { OnOk result (value_of entry.new ≡ with_value_mask (value_of entry.old) mask) }
    ensures err { OutOfMemoryKeeps result (value_of entry.old) (value_of entry.new) }
{
    if entry.is_array() {
        let mask = frozen_mask(mask)?;
        match entry {
            Entry::Primitive(array) => array.set_validity(mask),
            Entry::Boolean(array) => array.set_validity(mask),
            Entry::Binary(array) => array.set_validity(mask),
            Entry::Utf8(array) => array.set_validity(mask),
            _ => unreachable!(),
        }
    } else {
        match entry {
            Entry::MutablePrimitive(builder) => builder.set_validity(mask),
            Entry::MutableBinary(builder) => builder.set_validity(mask),
            Entry::MutableUtf8(builder) => builder.set_validity(mask),
            _ => unreachable!(),
        }
    }
    Ok(())
}

/// Replaces the mask.
#[derive(Drop)]
pub struct SetMask<'a>(pub &'a Option<Vec<bool>>);

impl<'a, T: NativeType, O: Offset> UpdatesEntry<T, O> for SetMask<'a> {
    ghost use Rattle.std.specs.Prelude.{option_map};
    ghost use Rattle.arrow_model.specs.Request.{set_mask};

    ghost asks = { λ command. set_mask (option_map (λ marks. marks.items) command.0.now) };

    fn update(&self, alloc: Global, entry: &mut Entry<T, O>) -> Result<Reply<T>, Error> {
        if !sets_mask(entry) {
            return Ok(Reply::NotMet);
        }
        let mask = match self.0 {
            Some(marks) => {
                if marks.len() != entry.len() {
                    return Ok(Reply::NotMet);
                }
                Some(MutableBitmap::from_slice(alloc, marks.as_slice())?)
            }
            None => None,
        };
        replace_mask(entry, mask)?;
        Ok(Reply::Done)
    }
}

/// Returns whether the command is for the kind of an entry: arrays, and builders with nulls of bytes or text.
fn applies_mask<T: NativeType, O: Offset>(entry: &Entry<T, O>) -> bool
    ensures { result ≡ applies_mask (value_of entry.now).shape }
{
    matches!(
        entry,
        Entry::Primitive(_)
            | Entry::Boolean(_)
            | Entry::Binary(_)
            | Entry::Utf8(_)
            | Entry::MutableBinary(_)
            | Entry::MutableUtf8(_)
    )
}

/// Returns a bitmap of equal marks.
///
/// # Errors
/// `OutOfMemory` if an allocation fails.
fn filled(alloc: Global, count: usize, mark: bool) -> Result<MutableBitmap, Error>
    ensures ok { IfOk result (λ marks. marks ≡ replicate count mark) }
    ensures err { OnlyOutOfMemory result }
{
    let mut filled = MutableBitmap::new(alloc);
    filled.extend_constant(count, mark)?;
    Ok(filled)
}

/// Returns a bitmap of the same marks in reverse order.
///
/// # Errors
/// `OutOfMemory` if an allocation fails.
fn reversed(alloc: Global, marks: BitmapIter<'_>) -> Result<MutableBitmap, Error>
    ensures ok { IfOk result (λ reversed. reversed ≡ reverse marks.entry) }
    ensures err { OnlyOutOfMemory result }
{
    let mut reversed = MutableBitmap::with_capacity(alloc, marks.len())?;
    let mut rest = marks;
    while let Some(mark) = rest.next_back() {
        reversed.push(mark)?;
    }
    Ok(reversed)
}

/// Returns the marks, if a mask is held.
#[tactic(auto, using(arrow_entry::proofs::CallerLemmas::seen_reads, arrow_entry::proofs::CallerLemmas::seen_masks))]
fn marks_of<T: NativeType, O: Offset>(entry: &Entry<T, O>) -> Option<BitmapIter<'_>>
    requires { IsTrue (applies_mask (value_of entry.now).shape) }
    ensures { result ≡ mask_of (value_of entry.now).column }
{
    if entry.is_array() {
        let mask = match entry {
            Entry::Primitive(array) => array.validity(),
            Entry::Boolean(array) => array.validity(),
            Entry::Binary(array) => array.validity(),
            Entry::Utf8(array) => array.validity(),
            _ => unreachable!(),
        };
        Some(mask?.iter())
    } else {
        let mask = match entry {
            Entry::MutableBinary(builder) => builder.validity(),
            Entry::MutableUtf8(builder) => builder.validity(),
            _ => unreachable!(),
        };
        Some(mask?.iter())
    }
}

/// An array or a builder whose mask is changed by a closure.
trait ApplyMarks<T: NativeType> {
    ghost use Rattle.arrow_model.specs.Value.{Value};

    /// The value that this is.
    ghost value: { Self → Value T };

    /// Changes the mask that is held to as many other marks.
    ///
    /// # Errors
    /// `OutOfMemory` if an allocation fails; nothing is changed then.
    fn apply_marks(&mut self, marks: MutableBitmap) -> Result<(), Error>
        requires held { (value self.old).column.held ≡ true }
        requires fits { length marks ≡ length (value self.old).column.rows }
        ensures ok { OnOk result (value self.new ≡ with_value_mask (value self.old) (Some marks)) }
        ensures err { OutOfMemoryKeeps result (value self.old) (value self.new) };
}

#[tactic(auto, using(arrow_entry::proofs::CallerLemmas::seen_reads, arrow_entry::proofs::CallerLemmas::seen_masks))]
impl<T: NativeType> ApplyMarks<T> for PrimitiveArray<T> {
    ghost use Rattle.arrow_entry.specs.Entry.{native_value};
    ghost use Rattle.arrow_model.specs.Kind.{frozen};

    ghost value = { native_value frozen };

    fn apply_marks(&mut self, marks: MutableBitmap) -> Result<(), Error> {
        let mask = marks.freeze()?;
        self.apply_validity(
            |_|
                ensures { result ≡ mask }
            { mask },
        );
        Ok(())
    }
}

#[tactic(auto, using(arrow_entry::proofs::CallerLemmas::seen_reads, arrow_entry::proofs::CallerLemmas::seen_masks))]
impl<T: NativeType> ApplyMarks<T> for BooleanArray {
    ghost use Rattle.arrow_entry.specs.Entry.{boolean_value};
    ghost use Rattle.arrow_model.specs.Kind.{frozen};

    ghost value = { boolean_value frozen };

    fn apply_marks(&mut self, marks: MutableBitmap) -> Result<(), Error> {
        let mask = marks.freeze()?;
        self.apply_validity(
            |_|
                ensures { result ≡ mask }
            { mask },
        );
        Ok(())
    }
}

#[tactic(auto, using(arrow_entry::proofs::CallerLemmas::seen_reads, arrow_entry::proofs::CallerLemmas::seen_masks))]
impl<T: NativeType, K: ByteKind, O: Offset> ApplyMarks<T> for ByteArray<K, O> {
    ghost use Rattle.arrow_entry.specs.Entry.{bytes_value};
    ghost use Rattle.arrow_model.specs.Kind.{frozen};

    ghost value = { bytes_value frozen K.is_text };

    fn apply_marks(&mut self, marks: MutableBitmap) -> Result<(), Error> {
        let mask = marks.freeze()?;
        self.apply_validity(
            |_|
                ensures { result ≡ mask }
            { mask },
        );
        Ok(())
    }
}

#[tactic(auto, using(arrow_entry::proofs::CallerLemmas::seen_reads, arrow_entry::proofs::CallerLemmas::seen_masks))]
impl<T: NativeType, K: ByteKind, O: Offset> ApplyMarks<T> for MutableByteArray<K, O> {
    ghost use Rattle.arrow_entry.specs.Entry.{bytes_value};
    ghost use Rattle.arrow_model.specs.Kind.{with_nulls};

    ghost value = { bytes_value with_nulls K.is_text };

    fn apply_marks(&mut self, marks: MutableBitmap) -> Result<(), Error> {
        self.apply_validity(
            |_|
                ensures { result ≡ marks }
            { marks },
        );
        Ok(())
    }
}

/// Changes a mask that is held to as many other marks.
///
/// # Errors
/// `OutOfMemory` if an allocation fails; the entry is then as before.
fn change_mask<T: NativeType, O: Offset>(
    entry: &mut Entry<T, O>,
    marks: MutableBitmap,
) -> Result<(), Error>
    requires kind { IsTrue (applies_mask (value_of entry.old).shape) }
    requires held { (value_of entry.old).column.held ≡ true }
    requires fits { length marks ≡ length (value_of entry.old).column.rows }
    ensures ok { OnOk result (value_of entry.new ≡ with_value_mask (value_of entry.old) (Some marks)) }
    ensures err { OutOfMemoryKeeps result (value_of entry.old) (value_of entry.new) }
{
    match entry {
        Entry::Primitive(array) => <PrimitiveArray<T> as ApplyMarks<T>>::apply_marks(array, marks),
        Entry::Boolean(array) => <BooleanArray as ApplyMarks<T>>::apply_marks(array, marks),
        Entry::Binary(array) => <ByteArray<Binary, O> as ApplyMarks<T>>::apply_marks(array, marks),
        Entry::Utf8(array) => <ByteArray<Utf8, O> as ApplyMarks<T>>::apply_marks(array, marks),
        Entry::MutableBinary(builder) => {
            <MutableByteArray<Binary, O> as ApplyMarks<T>>::apply_marks(builder, marks)
        }
        Entry::MutableUtf8(builder) => {
            <MutableByteArray<Utf8, O> as ApplyMarks<T>>::apply_marks(builder, marks)
        }
        _ => unreachable!(),
    }
}

/// Changes a mask that is held: all its marks become equal, or are reversed.
#[derive(Drop)]
pub struct ApplyMask<'a, T>(pub &'a Change<T>);

impl<'a, T: NativeType, O: Offset> UpdatesEntry<T, O> for ApplyMask<'a, T> {
    ghost use Rattle.arrow_model.specs.Item.{change_of};
    ghost use Rattle.arrow_model.specs.Request.{apply_mask};

    ghost asks = { λ command. apply_mask (change_of command.0.now) };

    fn update(&self, alloc: Global, entry: &mut Entry<T, O>) -> Result<Reply<T>, Error> {
        if !applies_mask(entry) {
            return Ok(Reply::NotMet);
        }
        let marks = match self.0 {
            Change::Fill(Item::Bit(mark)) => {
                if !entry.is_masked() {
                    return Ok(Reply::Done);
                }
                filled(alloc, entry.len(), *mark)?
            }
            Change::Reverse => {
                let Some(marks) = marks_of(entry) else {
                    return Ok(Reply::Done);
                };
                reversed(alloc, marks)?
            }
            _ => return Ok(Reply::NotMet),
        };
        change_mask(entry, marks)?;
        Ok(Reply::Done)
    }
}
