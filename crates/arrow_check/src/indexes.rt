//! Checks that keys are indexes of items. All keys are read before the first fault is looked for.
ghost use Rattle.std.specs.Prelude.{◌≡◌, IfNone, OnOk};
ghost use Rattle.std.specs.Prelude.{length, true, None, Some};
ghost use Rattle.std.specs.Option.{option_copied};
ghost use Rattle.arrow_types.specs.Types.{refusal};
ghost use Rattle.arrow_memory.specs.Rows.{FitsMask};
ghost use Rattle.arrow_check.specs.Indexes.{in_bounds, key_refusal, valid_keys, first_bad_key, AllInBounds, ChecksKeys};

use arrow_memory::bitmap::Bitmap;
use arrow_types::error::Error;
use arrow_types::index_key::IndexKey;

/// Returns whether a key is an index below `len`.
#[inline(always)]
fn points_at_item<K: IndexKey>(key: &K, len: usize) -> bool
    ensures { result ≡ in_bounds len (K.number key.now) }
{
    // `usize::MAX` is below no length, so it stands for no index, without a branch.
    key.to_index().unwrap_or(usize::MAX) < len
}

/// Returns the error for a key that is not an index below the length.
#[cold]
#[inline(never)]
fn key_fault<K: IndexKey>(key: &K) -> Error
    ensures { refusal result ≡ key_refusal (K.number key.now) }
{
    match key.to_index() {
        Some(_) => {
            Error::OutOfSpec("a dictionary key must be below the length of the dictionary values")
        }
        None => Error::OutOfSpec("the dictionary key must fit in a usize"),
    }
}

/// Returns whether all keys are indexes below `len`. It reads them all, with no branch, so that the
/// compiler tests several at once.
fn all_point_at_items<K: IndexKey>(keys: &[K], len: usize) -> bool
    ensures { result ≡ true → first_bad_key K.number len keys.now ≡ None }
{
    let mut all = true;
    for index in 0..keys.len() {
        all &= points_at_item(&keys[index], len);
    }
    all
}

/// Returns the first key that is not an index below `len`.
fn first_out_of_bounds<K: IndexKey>(keys: &[K], len: usize) -> Option<&K>
    ensures first { option_copied result ≡ first_bad_key K.number len keys.now }
    ensures none { IfNone result (AllInBounds K.number len keys.now) }
{
    keys.iter().find(|key| !points_at_item(*key, len))
}

/// Checks that every key is an index below `len`, as those of a dictionary must be (Arrow columnar
/// format, "Dictionary-encoded Layout"). All keys are read at first, and once more up to the first
/// fault if any of them is out of bounds.
///
/// # Errors
/// `OutOfSpec` for the first key that is out of bounds: it is negative or does not fit in a `usize`, or else it is not
/// below `len`.
pub fn check_indexes<K: IndexKey>(keys: &[K], len: usize) -> Result<(), Error>
    ensures first { ChecksKeys K.number len keys.now result }
    ensures ok { OnOk result (AllInBounds K.number len keys.now) }
{
    if all_point_at_items(keys, len) {
        return Ok(());
    }
    match first_out_of_bounds(keys, len) {
        Some(key) => Err(key_fault(key)),
        None => Ok(()),
    }
}

/// Checks that every key with a set mark is an index below `len`. All keys are read first, and a mark only if its key is
/// out of bounds.
fn check_marked<K: IndexKey>(keys: &[K], marks: &Bitmap, len: usize) -> Result<(), Error>
    requires { length marks.now ≡ length keys.now }
    ensures first { ChecksKeys K.number len (valid_keys keys.now (Some marks.now)) result }
    ensures ok { OnOk result (AllInBounds K.number len (valid_keys keys.now (Some marks.now))) }
{
    if all_point_at_items(keys, len) {
        return Ok(());
    }
    for index in 0..keys.len() {
        let key = &keys[index];
        if !points_at_item(key, len) && marks.get_bit(index) {
            return Err(key_fault(key));
        }
    }
    Ok(())
}

/// Checks that the key of every valid slot is an index below `len`. The keys of null slots may be anything. Without a
/// validity bitmap every slot is valid, and this is [`check_indexes`]. Keys are read as by that.
///
/// # Errors
/// `OutOfSpec` for the first key of a valid slot that is out of bounds.
pub fn check_slots<K: IndexKey>(
    keys: &[K],
    validity: Option<&Bitmap>,
    len: usize,
) -> Result<(), Error>
    requires { FitsMask keys.now (option_copied validity) }
    ensures first { ChecksKeys K.number len (valid_keys keys.now (option_copied validity.entry)) result }
    ensures ok { OnOk result (AllInBounds K.number len (valid_keys keys.now (option_copied validity.entry))) }
{
    match validity {
        None => check_indexes(keys, len),
        Some(marks) => check_marked(keys, marks, len),
    }
}
