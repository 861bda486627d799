//! The stored values, marks and items at keys, for `take`, which has found them in bounds.
ghost use Rattle.std.specs.Prelude.{◌≡◌, ◌<◌, ◌≤◌, length, option_map, Some, IfOk, IfErr};
ghost use Rattle.std.specs.Prelude.{IfSome, IsSomeAnd, OnErr, OnOk};
ghost use Rattle.std.specs.List.{concat};
ghost use Rattle.std.specs.Option.{option_copied};
ghost use Rattle.arrow_types.specs.Failures.{OnlyOutOfMemory};
ghost use Rattle.arrow_types.specs.IndexKey.{index_of};
ghost use Rattle.arrow_column.specs.Masks.{mask_with_nulls};
ghost use Rattle.arrow_memory.specs.Marks.{bits_of};
ghost use Rattle.arrow_bytes.specs.Pieces.{bare_items};
ghost use Rattle.arrow_bytes.specs.Selection.{at_keys};
ghost use Rattle.arrow_check.specs.Indexes.{AllInBounds};

use arrow_bytes::{ByteKind, ByteValues, ItemSlice, MutableByteValues};
use arrow_memory::bitmap::{Bitmap, MutableBitmap};
use arrow_types::error::Error;
use arrow_types::index_key::IndexKey;
use arrow_types::native_type::NativeType;
use arrow_types::offset::Offset;
use compute_base::masks::needed_mask;
use std::alloc::Global;

/// Returns a key that is in bounds as an index.
#[inline(always)]
fn place_of<K: IndexKey>(key: &K, len: usize) -> usize
    requires { IsSomeAnd (index_of (K.number key.now)) (λ index. index < len) }
    ensures place { index_of (K.number key.now) ≡ Some result }
    ensures within { result < len }
{
    match key.to_index() {
        Some(index) => index,
        None => unreachable!(),
    }
}

/// Returns the values at the keys. Room is reserved once.
pub(crate) fn take_values<T: NativeType, K: IndexKey>(
    alloc: Global,
    values: &[T],
    keys: &[K],
) -> Result<Vec<T>, Error>
    requires { AllInBounds K.number (length values.now) keys.now }
    ensures ok { IfOk result (λ picked. picked.items ≡ at_keys K.number keys.now values.now) }
    ensures err { OnlyOutOfMemory result }
{
    let mut picked = Vec::with_capacity(alloc, keys.len())?;
    for key in keys {
        picked.push_reserved(values[place_of(key, values.len())]);
    }
    Ok(picked)
}

/// Returns the marks at at most 64 keys as the bits of a word.
#[inline(always)]
fn taken_word<K: IndexKey>(marks: &Bitmap, keys: &[K]) -> u64
    requires few { length keys.now ≤ 64 }
    requires keys { AllInBounds K.number (length marks.now) keys.now }
    ensures { bits_of result (length keys.now) ≡ at_keys K.number keys.now marks.now }
{
    let mut word = 0;
    let mut count = 0_usize;
    for key in keys {
        let mark = marks.get_bit(place_of(key, marks.len()));
        word += u64::from(mark) << count;
        count += 1;
    }
    word
}

/// Returns the marks at the keys, 64 at a time. Room is reserved once, with a word more than the marks need, since they
/// are written as whole words.
pub(crate) fn take_marks<K: IndexKey>(
    alloc: Global,
    marks: &Bitmap,
    keys: &[K],
) -> Result<Bitmap, Error>
    requires { AllInBounds K.number (length marks.now) keys.now }
    ensures ok { IfOk result (λ picked. picked ≡ at_keys K.number keys.now marks.now) }
    ensures err { OnlyOutOfMemory result }
{
    let mut picked = MutableBitmap::with_capacity(alloc, keys.len().saturating_add(64))?;
    let words = keys.len() / 64;
    for at in 0..words {
        let some = &keys[64 * at..64 * at + 64];
        picked.extend_from_word(taken_word(marks, some), 64)?;
    }
    let last = &keys[64 * words..];
    picked.extend_from_word(taken_word(marks, last), last.len())?;
    picked.freeze()
}

/// Returns the mask of the rows at the keys, which is held exactly if one of them is null. Allocates nothing if no row
/// of the array is null.
pub(crate) fn take_validity<K: IndexKey>(
    alloc: Global,
    validity: Option<&Bitmap>,
    keys: &[K],
) -> Result<Option<Bitmap>, Error>
    requires { IfSome (option_copied validity) (λ marks. AllInBounds K.number (length marks) keys.now) }
    ensures ok { IfOk result (λ mask.
        mask ≡ mask_with_nulls (option_map (at_keys K.number keys.now) (option_copied validity.entry))) }
    ensures err { OnlyOutOfMemory result }
{
    match validity {
        None => Ok(None),
        Some(marks) => {
            if marks.unset_bits() == 0 {
                return Ok(None);
            }
            Ok(needed_mask(take_marks(alloc, marks, keys)?))
        }
    }
}

/// Returns the number of bytes of the items at keys, all of which are in bounds.
///
/// # Errors
/// `Overflow` if the number is above the greatest offset.
pub(crate) fn items_length<K: ByteKind, O: Offset, I: IndexKey>(
    items: ItemSlice<'_, K, O>,
    keys: &[I],
) -> Result<usize, Error>
    requires { AllInBounds I.number (length items) keys.now }
    ensures ok { OnOk result (length (concat (at_keys I.number keys.now items.entry)) ≤ O.most) }
    ensures err { IfErr result (λ e. e ≡ Error.Overflow) }
    ensures over { OnErr result (O.most < length (concat (at_keys I.number keys.now items.entry))) }
{
    let most = O::max().to_usize();
    let mut total = 0;
    for key in keys {
        let item = items.value(place_of(key, items.count()));
        if item.len() > most - total {
            return Err(Error::Overflow);
        }
        total += item.len();
    }
    Ok(total)
}

/// Returns the items at keys, all of which are in bounds, with nothing around them. Together they
/// end at most at the greatest offset; room for their bytes is reserved once.
pub(crate) fn take_items_at<K: ByteKind, O: Offset, I: IndexKey>(
    alloc: Global,
    items: ItemSlice<'_, K, O>,
    keys: &[I],
    room: usize,
) -> Result<ByteValues<K, O>, Error>
    requires keys { AllInBounds I.number (length items) keys.now }
    requires within { length (concat (at_keys I.number keys.now items)) ≤ O.most }
    ensures ok { IfOk result (λ picked. picked ≡ bare_items (at_keys I.number keys.now items.entry)) }
    ensures err { OnlyOutOfMemory result }
{
    let mut picked = MutableByteValues::with_capacities(alloc, keys.len(), room)?;
    for key in keys {
        picked.push_fitting_item(items.value(place_of(key, items.count())))?;
    }
    picked.freeze()
}
