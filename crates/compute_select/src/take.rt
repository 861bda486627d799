//! Takes by keys of which some are null: the slot at each key, and a null where the key is null. The
//! result holds a mask exactly if one of its slots is null.
ghost use Rattle.std.specs.Prelude.{◌≡◌, ◌^◌, ◌-◌, ⊤, None, length, unwrap_or, IfErr, IfOk, MatchOption};
ghost use Rattle.arrow_types.specs.Failures.{OnlyOutOfMemory};
ghost use Rattle.arrow_types.specs.IndexKey.{index_of};
ghost use Rattle.arrow_check.specs.Indexes.{AllInBounds, FailsAt};
ghost use Rattle.arrow_bytes.specs.Selection.{at_key};
ghost use Rattle.arrow_column.specs.Combined.{MakesSlots};
ghost use Rattle.compute_select.specs.Selects.{ItemsNotTaken, MakesItems, first_bad_shown, keys_shown};
ghost use Rattle.compute_select.specs.Selects.{mask_shown, slots_taken, values_at_keys};

use crate::items::{ItemSource, collect_items, shown_item};
use crate::masks::collect_mask;
use arrow_binary::BinaryArray;
use arrow_boolean::BooleanArray;
use arrow_byte_array::ByteArray;
use arrow_bytes::ByteKind;
use arrow_check::indexes::check_slots;
use arrow_column::Array;
use arrow_memory::bitmap::Bitmap;
use arrow_memory::buffer::Buffer;
use arrow_primitive::PrimitiveArray;
use arrow_types::error::Error;
use arrow_types::index_key::IndexKey;
use arrow_types::native_type::NativeType;
use arrow_types::offset::Offset;
use arrow_utf8::Utf8Array;
use compute_base::masks::{clone_mask, needed_mask};
use compute_base::words::{MarkSource, MarkWords, PackedMarks, collect_marks, marks_word};
use std::alloc::Global;

/// Returns a key as an index, without a branch: `usize::MAX`, which is out of bounds of every array, if the key is
/// negative or does not fit in a `usize`.
#[inline(always)]
fn index_of_key<K: IndexKey>(key: &K) -> usize
    ensures { result ≡ unwrap_or (index_of (K.number key.now)) (2 ^ 64 - 1) }
{
    key.to_index().unwrap_or(usize::MAX)
}

/// Returns the value at a key, or the default if the key is out of bounds.
#[inline(always)]
fn value_at_key<T: NativeType, K: IndexKey>(values: &[T], key: &K) -> T
    ensures { result ≡ unwrap_or (at_key values.now (K.number key.now)) T.zero }
{
    values
        .get(index_of_key(key))
        .copied()
        .unwrap_or(T::default())
}

/// Returns the values at keys, and the default where a key is out of bounds. Room is reserved once.
fn take_values<T: NativeType, K: IndexKey>(
    alloc: Global,
    values: &[T],
    keys: &[K],
) -> Result<Vec<T>, Error>
    ensures ok { IfOk result (λ taken. taken.items ≡ values_at_keys K.number T.zero values.now keys.now) }
    ensures err { OnlyOutOfMemory result }
{
    let mut taken = Vec::with_capacity(alloc, keys.len())?;
    for key in keys {
        taken.push_reserved(value_at_key(values, key));
    }
    Ok(taken)
}

/// The marks at keys; clear where a key is out of bounds.
#[derive(Drop)]
struct MarksAtKeys<'a, K> {
    marks: &'a Bitmap,
    keys: &'a [K],
}

impl<'a, K: IndexKey> MarkSource for MarksAtKeys<'a, K> {
    ghost use Rattle.std.specs.Prelude.{false};
    ghost use Rattle.compute_select.specs.Selects.{values_at_keys};

    ghost marks = { λ taken. values_at_keys K.number false taken.marks.now taken.keys.now };

    #[inline(always)]
    fn len(&self) -> usize {
        self.keys.len()
    }

    #[inline(always)]
    fn mark(&self, i: usize) -> bool {
        let index = index_of_key(&self.keys[i]);
        index < self.marks.len() && self.marks.get_bit(index)
    }
}

/// The marks at the keys of valid slots; clear where a key is null or out of bounds.
#[derive(Drop)]
struct TakenMarks<'a, K: NativeType> {
    marks: &'a Bitmap,
    keys: &'a PrimitiveArray<K>,
}

impl<'a, K: NativeType + IndexKey> MarkWords for TakenMarks<'a, K> {
    ghost use Rattle.compute_select.specs.Selects.{marks_at_keys};

    ghost marks = { λ taken. marks_at_keys K.number taken.marks.now taken.keys.now };

    #[inline(always)]
    fn len(&self) -> usize {
        self.keys.len()
    }

    #[inline(always)]
    fn word(&self, place: usize, count: usize) -> u64 {
        let source = MarksAtKeys {
            marks: self.marks,
            keys: self.keys.values().as_slice(),
        };
        marks_word(self.keys, place, count) & PackedMarks { source }.word(place, count)
    }
}

/// Returns the mask of the slots at keys. The valid keys must be in bounds.
fn taken_mask<A: Array, K: NativeType + IndexKey>(
    alloc: Global,
    array: &A,
    keys: &PrimitiveArray<K>,
) -> Result<Option<Bitmap>, Error>
    requires { AllInBounds K.number (length (A.column array.now).rows) (keys_shown keys.now) }
    ensures ok { IfOk result (λ mask. mask
        ≡ mask_shown (slots_taken K.number (A.column array.now) keys.now)) }
    ensures err { OnlyOutOfMemory result }
{
    match array.validity() {
        Some(marks) => collect_mask(alloc, &TakenMarks { marks, keys }),
        None => match clone_mask(keys.validity())? {
            Some(marks) => Ok(needed_mask(marks)),
            None => Ok(None),
        },
    }
}

/// Returns the slots of `array` at the keys, and a null where a key is null. Keys of null slots are
/// not tested.
///
/// # Errors
/// - `OutOfSpec` for the first valid key that is out of bounds: it is negative or does not fit in a
///   `usize`, or else it is not below the number of slots.
/// - `OutOfMemory` if an allocation fails.
pub fn take_primitive<T: NativeType, K: NativeType + IndexKey>(
    alloc: Global,
    array: &PrimitiveArray<T>,
    keys: &PrimitiveArray<K>,
) -> Result<PrimitiveArray<T>, Error>
    ensures out_of_bounds { MatchOption (first_bad_shown K.number array.now keys.now) ⊤
        (FailsAt K.number result) }
    ensures ok { IfOk result (MakesSlots array.now.data_type
        (slots_taken K.number array.now keys.now)) }
    ensures err { IfErr result (λ e. first_bad_shown K.number array.now keys.now ≡ None
        → e ≡ Error.OutOfMemory) }
{
    let places = keys.values().as_slice();
    check_slots(places, keys.validity(), array.len())?;
    let values = take_values(alloc, array.values().as_slice(), places)?;
    let mask = taken_mask(alloc, array, keys)?;
    let data_type = array.data_type().clone()?;
    Ok(PrimitiveArray::new(data_type, Buffer::from_vec(values)?, mask))
}

/// Returns the slots of `array` at the keys, as [`take_primitive`].
///
/// # Errors
/// As [`take_primitive`].
pub fn take_boolean<K: NativeType + IndexKey>(
    alloc: Global,
    array: &BooleanArray,
    keys: &PrimitiveArray<K>,
) -> Result<BooleanArray, Error>
    ensures out_of_bounds { MatchOption (first_bad_shown K.number array.now keys.now) ⊤
        (FailsAt K.number result) }
    ensures ok { IfOk result (MakesSlots array.now.data_type
        (slots_taken K.number array.now keys.now)) }
    ensures err { IfErr result (λ e. first_bad_shown K.number array.now keys.now ≡ None
        → e ≡ Error.OutOfMemory) }
{
    let places = keys.values().as_slice();
    check_slots(places, keys.validity(), array.len())?;
    let values = PackedMarks {
        source: MarksAtKeys {
            marks: array.values(),
            keys: places,
        },
    };
    let values = collect_marks(alloc, &values)?.freeze()?;
    let mask = taken_mask(alloc, array, keys)?;
    let data_type = array.data_type().clone()?;
    Ok(BooleanArray::new(data_type, values, mask))
}

/// The items at the keys of valid slots.
#[derive(Drop)]
struct TakenItems<'a, K: ByteKind, O: Offset, I: NativeType> {
    array: &'a ByteArray<K, O>,
    keys: &'a PrimitiveArray<I>,
}

impl<'a, K: ByteKind, O: Offset, I: NativeType + IndexKey> ItemSource<K>
    for TakenItems<'a, K, O, I> {
    ghost use Rattle.compute_select.specs.Selects.{items_shown, slots_taken};

    ghost items = { λ taken. items_shown (slots_taken I.number taken.array.now taken.keys.now) };

    #[inline(always)]
    fn len(&self) -> usize {
        self.keys.len()
    }

    #[inline(always)]
    fn item(&self, i: usize) -> &[u8] {
        match self.keys.get(i) {
            None => &[],
            Some(key) => {
                let index = index_of_key(&key);
                if index < self.array.len() {
                    shown_item(self.array, index)
                } else {
                    &[]
                }
            }
        }
    }
}

/// Returns the slots of `array` at the keys, and a null where a key is null. Keys of null slots are
/// not tested.
///
/// # Errors
/// - `OutOfSpec` as [`take_primitive`]; this is checked first.
/// - `Overflow` if the bytes of a slot would end past the greatest offset.
/// - `OutOfMemory` if an allocation fails.
pub fn take_items<K: ByteKind, O: Offset, I: NativeType + IndexKey>(
    alloc: Global,
    array: &ByteArray<K, O>,
    keys: &PrimitiveArray<I>,
) -> Result<ByteArray<K, O>, Error>
    ensures out_of_bounds { MatchOption (first_bad_shown I.number array.now keys.now) ⊤
        (FailsAt I.number result) }
    ensures ok { IfOk result (MakesItems O.most array.now.data_type
        (slots_taken I.number array.now keys.now)) }
    ensures err { IfErr result (ItemsNotTaken O.most I.number array.now keys.now) }
{
    check_slots(keys.values().as_slice(), keys.validity(), array.len())?;
    let values = collect_items::<K, O, _>(alloc, &TakenItems { array, keys })?;
    let mask = taken_mask(alloc, array, keys)?;
    let data_type = array.data_type().clone()?;
    Ok(ByteArray::from_byte_values(data_type, values, mask))
}

/// Returns the slots of `array` at the keys, as [`take_items`].
///
/// # Errors
/// As [`take_items`].
pub fn take_binary<O: Offset, K: NativeType + IndexKey>(
    alloc: Global,
    array: &BinaryArray<O>,
    keys: &PrimitiveArray<K>,
) -> Result<BinaryArray<O>, Error>
    ensures out_of_bounds { MatchOption (first_bad_shown K.number array.now keys.now) ⊤
        (FailsAt K.number result) }
    ensures ok { IfOk result (MakesItems O.most array.now.data_type
        (slots_taken K.number array.now keys.now)) }
    ensures err { IfErr result (ItemsNotTaken O.most K.number array.now keys.now) }
{
    take_items(alloc, array, keys)
}

/// Returns the slots of `array` at the keys, as [`take_items`].
///
/// # Errors
/// As [`take_items`].
pub fn take_utf8<O: Offset, K: NativeType + IndexKey>(
    alloc: Global,
    array: &Utf8Array<O>,
    keys: &PrimitiveArray<K>,
) -> Result<Utf8Array<O>, Error>
    ensures out_of_bounds { MatchOption (first_bad_shown K.number array.now keys.now) ⊤
        (FailsAt K.number result) }
    ensures ok { IfOk result (MakesItems O.most array.now.data_type
        (slots_taken K.number array.now keys.now)) }
    ensures err { IfErr result (ItemsNotTaken O.most K.number array.now keys.now) }
{
    take_items(alloc, array, keys)
}
