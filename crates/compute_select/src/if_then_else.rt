//! Slots of one of two arrays, by a predicate. The result holds a mask exactly if one of its slots
//! is null.
ghost use Rattle.std.specs.Prelude.{◌≡◌, ◌+◌, ◌++◌, ◌≤◌, if◌then◌else◌, length, IfErr, IfOk};
ghost use Rattle.std.specs.Vec.{vec_capacity};
ghost use Rattle.arrow_memory.specs.Marks.{bits_of};
ghost use Rattle.arrow_types.specs.Failures.{OnlyOutOfMemory};
ghost use Rattle.arrow_column.specs.Combined.{MakesSlots};
ghost use Rattle.compute_select.specs.Selects.{MakesItems, RefusesItems, chosen_values, mask_shown};
ghost use Rattle.compute_select.specs.Selects.{slots_chosen};

use crate::items::{ItemSource, collect_items, shown_item};
use crate::masks::{choose_bits, collect_mask};
use arrow_binary::BinaryArray;
use arrow_boolean::BooleanArray;
use arrow_byte_array::ByteArray;
use arrow_bytes::ByteKind;
use arrow_column::Array;
use arrow_memory::bitmap::Bitmap;
use arrow_memory::buffer::Buffer;
use arrow_primitive::PrimitiveArray;
use arrow_types::error::Error;
use arrow_types::native_type::NativeType;
use arrow_types::offset::Offset;
use arrow_utf8::Utf8Array;
use compute_base::bits::is_set;
use compute_base::words::{MarkWords, collect_marks, marks_word, word_of};
use std::alloc::Global;

/// The marks of the slots that a predicate chooses.
#[derive(Drop)]
struct ChosenMarks<'a, A> {
    predicate: &'a BooleanArray,
    lhs: &'a A,
    rhs: &'a A,
}

impl<'a, A: Array> MarkWords for ChosenMarks<'a, A> {
    ghost use Rattle.std.specs.Prelude.{is_some, map};
    ghost use Rattle.compute_select.specs.Selects.{slots_chosen};

    ghost marks = { λ chosen. map is_some
        (slots_chosen chosen.predicate.now (A.column chosen.lhs.now) (A.column chosen.rhs.now)) };

    #[inline(always)]
    fn len(&self) -> usize {
        self.predicate.len().min(self.lhs.len().min(self.rhs.len()))
    }

    #[inline(always)]
    fn word(&self, place: usize, count: usize) -> u64 {
        let predicate = word_of(self.predicate.values(), place, count);
        let (left, right) = (
            marks_word(self.lhs, place, count),
            marks_word(self.rhs, place, count),
        );
        marks_word(self.predicate, place, count) & choose_bits(predicate, left, right)
    }
}

/// Returns the mask of the slots that a predicate chooses. None is made if no array holds one.
fn chosen_mask<A: Array>(
    alloc: Global,
    predicate: &BooleanArray,
    lhs: &A,
    rhs: &A,
) -> Result<Option<Bitmap>, Error>
    ensures ok { IfOk result (λ mask. mask
        ≡ mask_shown (slots_chosen predicate.now (A.column lhs.now) (A.column rhs.now))) }
    ensures err { OnlyOutOfMemory result }
{
    match (predicate.validity(), lhs.validity(), rhs.validity()) {
        (None, None, None) => Ok(None),
        _ => collect_mask(
            alloc,
            &ChosenMarks {
                predicate,
                lhs,
                rhs,
            },
        ),
    }
}

/// Returns the first value where the predicate is true, else the second.
#[inline(always)]
fn choose<T: NativeType>(predicate: bool, lhs: T, rhs: T) -> T
    ensures { result ≡ (if predicate then lhs else rhs) }
{
    if predicate { lhs } else { rhs }
}

/// Appends the values of one of two slices of at most 64, by the bits of a word.
#[inline(always)]
fn choose_word<T: NativeType>(values: &mut Vec<T>, predicate: u64, lhs: &[T], rhs: &[T])
    requires same { length lhs.now ≡ length rhs.now }
    requires within { length lhs.now ≤ 64 }
    requires room { length values.old.items + length lhs.now ≤ vec_capacity values.old }
    ensures values { values.new.items ≡ values.old.items
        ++ chosen_values (bits_of predicate (length lhs.now)) lhs.now rhs.now }
    ensures room { vec_capacity values.new ≡ vec_capacity values.old }
{
    for i in 0..lhs.len() {
        values.push_reserved(choose(is_set(predicate, i), lhs[i], rhs[i]));
    }
}

/// Returns the values of one of two slices, by the marks of a predicate. Takes 64 at a time.
fn choose_values<T: NativeType>(
    alloc: Global,
    predicate: &Bitmap,
    lhs: &[T],
    rhs: &[T],
) -> Result<Vec<T>, Error>
    requires left { length lhs.now ≡ length predicate.now }
    requires right { length rhs.now ≡ length predicate.now }
    ensures ok { IfOk result (λ values. values.items ≡ chosen_values predicate.now lhs.now rhs.now) }
    ensures err { OnlyOutOfMemory result }
{
    let words = lhs.len() / 64;
    let mut values = Vec::with_capacity(alloc, lhs.len())?;
    for i in 0..words {
        let place = 64 * i;
        let (left, right) = (&lhs[place..place + 64], &rhs[place..place + 64]);
        choose_word(&mut values, predicate.word(place), left, right);
    }
    let place = 64 * words;
    let rest = word_of(predicate, place, lhs.len() - place);
    choose_word(&mut values, rest, &lhs[place..], &rhs[place..]);
    Ok(values)
}

/// The marks of one of two bitmaps, by those of a predicate.
#[derive(Drop)]
struct ChosenBits<'a> {
    predicate: &'a Bitmap,
    lhs: &'a Bitmap,
    rhs: &'a Bitmap,
}

impl<'a> MarkWords for ChosenBits<'a> {
    ghost use Rattle.compute_select.specs.Selects.{chosen_values};

    ghost marks = { λ chosen. chosen_values chosen.predicate.now chosen.lhs.now chosen.rhs.now };

    #[inline(always)]
    fn len(&self) -> usize {
        self.predicate.len().min(self.lhs.len().min(self.rhs.len()))
    }

    #[inline(always)]
    fn word(&self, place: usize, count: usize) -> u64 {
        choose_bits(
            word_of(self.predicate, place, count),
            word_of(self.lhs, place, count),
            word_of(self.rhs, place, count),
        )
    }
}

/// Returns the slot of `lhs` where the predicate is true, that of `rhs` where it is false, and a
/// null where it is null, with the data type of `lhs`. All must have equally many slots.
///
/// # Errors
/// `OutOfMemory` if an allocation fails.
pub fn if_then_else_primitive<T: NativeType>(
    alloc: Global,
    predicate: &BooleanArray,
    lhs: &PrimitiveArray<T>,
    rhs: &PrimitiveArray<T>,
) -> Result<PrimitiveArray<T>, Error>
    requires left { length lhs.now.rows ≡ length predicate.now.rows }
    requires right { length rhs.now.rows ≡ length predicate.now.rows }
    ensures ok { IfOk result (MakesSlots lhs.now.data_type
        (slots_chosen predicate.now lhs.now rhs.now)) }
    ensures err { OnlyOutOfMemory result }
{
    let (left, right) = (lhs.values().as_slice(), rhs.values().as_slice());
    let values = choose_values(alloc, predicate.values(), left, right)?;
    let mask = chosen_mask(alloc, predicate, lhs, rhs)?;
    let data_type = lhs.data_type().clone()?;
    Ok(PrimitiveArray::new(data_type, Buffer::from_vec(values)?, mask))
}

/// Returns the slot of `lhs` where the predicate is true, that of `rhs` where it is false, and a
/// null where it is null, with the data type of `lhs`. All must have equally many slots.
///
/// # Errors
/// `OutOfMemory` if an allocation fails.
pub fn if_then_else_boolean(
    alloc: Global,
    predicate: &BooleanArray,
    lhs: &BooleanArray,
    rhs: &BooleanArray,
) -> Result<BooleanArray, Error>
    requires left { length lhs.now.rows ≡ length predicate.now.rows }
    requires right { length rhs.now.rows ≡ length predicate.now.rows }
    ensures ok { IfOk result (MakesSlots lhs.now.data_type
        (slots_chosen predicate.now lhs.now rhs.now)) }
    ensures err { OnlyOutOfMemory result }
{
    let bits = ChosenBits {
        predicate: predicate.values(),
        lhs: lhs.values(),
        rhs: rhs.values(),
    };
    let values = collect_marks(alloc, &bits)?.freeze()?;
    let mask = chosen_mask(alloc, predicate, lhs, rhs)?;
    let data_type = lhs.data_type().clone()?;
    Ok(BooleanArray::new(data_type, values, mask))
}

/// The items of one of two arrays, by a predicate.
#[derive(Drop)]
struct ChosenItems<'a, K: ByteKind, O: Offset> {
    predicate: &'a BooleanArray,
    lhs: &'a ByteArray<K, O>,
    rhs: &'a ByteArray<K, O>,
}

impl<'a, K: ByteKind, O: Offset> ItemSource<K> for ChosenItems<'a, K, O> {
    ghost use Rattle.compute_select.specs.Selects.{items_shown, slots_chosen};

    ghost items = { λ chosen. items_shown (slots_chosen chosen.predicate.now chosen.lhs.now chosen.rhs.now) };

    #[inline(always)]
    fn len(&self) -> usize {
        self.predicate.len().min(self.lhs.len().min(self.rhs.len()))
    }

    #[inline(always)]
    fn item(&self, i: usize) -> &[u8] {
        match self.predicate.get(i) {
            Some(true) => shown_item(self.lhs, i),
            Some(false) => shown_item(self.rhs, i),
            None => &[],
        }
    }
}

/// Returns the slot of `lhs` where the predicate is true, that of `rhs` where it is false, and a
/// null where it is null, with the data type of `lhs`. All must have equally many slots.
///
/// # Errors
/// - `Overflow` if the bytes of a slot would end past the greatest offset.
/// - `OutOfMemory` if an allocation fails.
pub fn if_then_else_items<K: ByteKind, O: Offset>(
    alloc: Global,
    predicate: &BooleanArray,
    lhs: &ByteArray<K, O>,
    rhs: &ByteArray<K, O>,
) -> Result<ByteArray<K, O>, Error>
    requires left { length lhs.now.rows ≡ length predicate.now.rows }
    requires right { length rhs.now.rows ≡ length predicate.now.rows }
    ensures ok { IfOk result (MakesItems O.most lhs.now.data_type
        (slots_chosen predicate.now lhs.now rhs.now)) }
    ensures err { IfErr result (RefusesItems O.most
        (slots_chosen predicate.now lhs.now rhs.now)) }
{
    let source = ChosenItems {
        predicate,
        lhs,
        rhs,
    };
    let values = collect_items::<K, O, _>(alloc, &source)?;
    let mask = chosen_mask(alloc, predicate, lhs, rhs)?;
    let data_type = lhs.data_type().clone()?;
    Ok(ByteArray::from_byte_values(data_type, values, mask))
}

/// Returns the slot of `lhs` where the predicate is true, that of `rhs` where it is false, and a
/// null where it is null, as [`if_then_else_items`].
///
/// # Errors
/// As [`if_then_else_items`].
pub fn if_then_else_binary<O: Offset>(
    alloc: Global,
    predicate: &BooleanArray,
    lhs: &BinaryArray<O>,
    rhs: &BinaryArray<O>,
) -> Result<BinaryArray<O>, Error>
    requires left { length lhs.now.rows ≡ length predicate.now.rows }
    requires right { length rhs.now.rows ≡ length predicate.now.rows }
    ensures ok { IfOk result (MakesItems O.most lhs.now.data_type
        (slots_chosen predicate.now lhs.now rhs.now)) }
    ensures err { IfErr result (RefusesItems O.most
        (slots_chosen predicate.now lhs.now rhs.now)) }
{
    if_then_else_items(alloc, predicate, lhs, rhs)
}

/// Returns the slot of `lhs` where the predicate is true, that of `rhs` where it is false, and a
/// null where it is null, as [`if_then_else_items`].
///
/// # Errors
/// As [`if_then_else_items`].
pub fn if_then_else_utf8<O: Offset>(
    alloc: Global,
    predicate: &BooleanArray,
    lhs: &Utf8Array<O>,
    rhs: &Utf8Array<O>,
) -> Result<Utf8Array<O>, Error>
    requires left { length lhs.now.rows ≡ length predicate.now.rows }
    requires right { length rhs.now.rows ≡ length predicate.now.rows }
    ensures ok { IfOk result (MakesItems O.most lhs.now.data_type
        (slots_chosen predicate.now lhs.now rhs.now)) }
    ensures err { IfErr result (RefusesItems O.most
        (slots_chosen predicate.now lhs.now rhs.now)) }
{
    if_then_else_items(alloc, predicate, lhs, rhs)
}
