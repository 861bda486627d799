//! Items that kernels select, whose lengths are added before room for them is reserved.
ghost use Rattle.std.specs.Prelude.{⊤, ◌≡◌, ◌<◌, ◌≤◌, Some, length, slice_get, IfErr, IfOk, OnOk};
ghost use Rattle.std.specs.List.{concat};
ghost use Rattle.arrow_types.specs.Failures.{OnlyOutOfMemory};
ghost use Rattle.arrow_memory.specs.Offsets.{MatchGrowth};
ghost use Rattle.arrow_bytes.specs.Kinds.{IsItem};
ghost use Rattle.arrow_bytes.specs.Pieces.{bare_items};
ghost use Rattle.arrow_column.specs.Column.{slots_of};
ghost use Rattle.compute_select.specs.Selects.{items_shown};

use arrow_byte_array::ByteArray;
use arrow_bytes::{ByteKind, ByteValues, MutableByteValues};
use arrow_types::error::Error;
use arrow_types::offset::Offset;
use std::alloc::Global;

/// Items that can be looked up at each index. That of a null has no byte.
pub(crate) trait ItemSource<K: ByteKind> {
    ghost use Rattle.std.specs.Prelude.{List, ℕ};

    /// The items in order.
    ghost items: { Self → List (List ℕ) };

    /// Returns the number of items.
    fn len(&self) -> usize
        ensures { result ≡ length (items self.now) };

    /// Returns the item at `i`.
    fn item(&self, i: usize) -> &[u8]
        requires { i < length (items self.now) }
        ensures value { slice_get (items self.now) i ≡ Some result.now }
        ensures item { IsItem K.is_text result.now };
}

/// Returns the item of the slot at `i`; that of a null has no byte.
#[inline(always)]
pub(crate) fn shown_item<K: ByteKind, O: Offset>(array: &ByteArray<K, O>, i: usize) -> &[u8]
    requires { i < length array.now.rows }
    ensures value { slice_get (items_shown (slots_of array.now)) i ≡ Some result.now }
    ensures item { IsItem K.is_text result.now }
{
    if array.is_null(i) { &[] } else { array.item(i) }
}

/// Returns the number of bytes of all items.
///
/// # Errors
/// `Overflow` if the number is above the greatest offset.
fn items_length<K: ByteKind, O: Offset, S: ItemSource<K>>(source: &S) -> Result<usize, Error>
    ensures ok { IfOk result (λ total. (total ≤ O.most) × (total ≡ length (concat (S.items source.now)))) }
    ensures err { IfErr result (λ e. (e ≡ Error.Overflow) × (O.most < length (concat (S.items source.now)))) }
{
    let most = O::max().to_usize();
    let mut total = 0;
    for i in 0..source.len() {
        let added = source.item(i).len();
        if added > most - total {
            return Err(Error::Overflow);
        }
        total += added;
    }
    Ok(total)
}

/// Returns all items, with nothing around them. Together they end at most at the greatest offset;
/// room is reserved once.
fn push_items<K: ByteKind, O: Offset, S: ItemSource<K>>(
    alloc: Global,
    source: &S,
    room: usize,
) -> Result<MutableByteValues<K, O>, Error>
    requires { length (concat (S.items source.now)) ≤ O.most }
    ensures ok { IfOk result (λ made. made ≡ bare_items (S.items source.now)) }
    ensures err { OnlyOutOfMemory result }
{
    let mut made = MutableByteValues::with_capacities(alloc, source.len(), room)?;
    for i in 0..source.len() {
        made.push_fitting_item(source.item(i))?;
    }
    Ok(made)
}

/// Returns all items, with nothing around them.
///
/// # Errors
/// - `Overflow` if the items together have more bytes than the greatest offset; this is checked
///   before memory is allocated.
/// - `OutOfMemory` if an allocation fails.
pub(crate) fn collect_items<K: ByteKind, O: Offset, S: ItemSource<K>>(
    alloc: Global,
    source: &S,
) -> Result<ByteValues<K, O>, Error>
    ensures ok { IfOk result (λ made. made ≡ bare_items (S.items source.now)) }
    ensures fits { OnOk result (length (concat (S.items source.now)) ≤ O.most) }
    ensures err { IfErr result (λ e. MatchGrowth e (O.most < length (concat (S.items source.now))) ⊤) }
{
    let room = items_length::<K, O, S>(source)?;
    push_items::<K, O, S>(alloc, source, room)?.freeze()
}
