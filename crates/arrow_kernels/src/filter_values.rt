//! The stored values and items that a filter selects. Only speed depends on `LONG_RUN`, from which mean length on runs
//! are copied whole.
ghost use Rattle.std.specs.Prelude.{◌≡◌, ◌+◌, ◌≤◌, length, IfOk};
ghost use Rattle.arrow_types.specs.Failures.{OnlyOutOfMemory};
ghost use Rattle.arrow_bytes.specs.Pieces.{bare_items};
ghost use Rattle.arrow_bytes.specs.Selection.{where_set};

use crate::filter_mask::FilterMask;
use crate::filter_rows::{FilterRows, keep_rows};
use arrow_bytes::{ByteKind, ByteValues, ItemSlice, MutableByteValues};
use arrow_memory::buffer::Buffer;
use arrow_types::error::Error;
use arrow_types::native_type::NativeType;
use arrow_types::offset::Offset;
use std::alloc::{AllocError, Global};

/// Stored values of which a filter selects some.
#[derive(Drop)]
struct FilteredValues<'a, T: NativeType> {
    values: &'a [T],
    selected: &'a FilterMask,
}

impl<'a, T: NativeType> FilterRows for FilteredValues<'a, T> {
    ghost use Rattle.std.specs.Vec.{vec_capacity};
    ghost use Rattle.arrow_kernels.specs.Filtering.{KeepsValues, values_pass_over};

    type Kept = Vec<T>;

    const LONG_RUN: u32 = 8;

    ghost selected = { λ rows. rows.selected.now };

    ghost keeps_before = { λ rows kept n.
        KeepsValues rows.values.now rows.selected.now kept.items (vec_capacity kept) n };

    #[inline(always)]
    fn mask(&self) -> &FilterMask {
        self.selected
    }

    #[inline(always)]
    fn push_run(&self, kept: &mut Vec<T>, first: usize, end: usize) -> Result<(), AllocError> {
        kept.extend_from_slice(&self.values[first..end])?;
        Ok(())
    }

    #[inline(always)]
    fn push_row(&self, kept: &mut Vec<T>, i: usize) -> Result<(), AllocError> {
        let values = self.values;
        kept.push_reserved(values[i]);
        Ok(())
    }

    ghost passes_over = { λ rows kept. values_pass_over rows.values.now rows.selected.now kept.items
        (vec_capacity kept) };
}

/// Returns the selected values. Room is reserved once.
fn filter_some_values<T: NativeType>(
    alloc: Global,
    values: &[T],
    selected: &FilterMask,
) -> Result<Vec<T>, Error>
    requires { length selected.now ≡ length values.now }
    ensures ok { IfOk result (λ kept. kept.items ≡ where_set selected.now values.now) }
    ensures err { OnlyOutOfMemory result }
{
    let mut kept = Vec::with_capacity(alloc, selected.len() - selected.unset_bits())?;
    keep_rows(&FilteredValues { values, selected }, &mut kept)?;
    Ok(kept)
}

/// Returns the selected values. If all are selected, they are shared.
pub(crate) fn filter_values<T: NativeType>(
    alloc: Global,
    values: &Buffer<T>,
    selected: &FilterMask,
) -> Result<Buffer<T>, Error>
    requires { length selected.now ≡ length values.now }
    ensures ok { IfOk result (λ kept. kept ≡ where_set selected.now values.now) }
    ensures err { OnlyOutOfMemory result }
{
    if selected.unset_bits() == 0 {
        return values.clone();
    }
    if selected.unset_bits() == selected.len() {
        return Buffer::new(alloc);
    }
    Buffer::from_vec(filter_some_values(alloc, values.as_slice(), selected)?)
}

/// Items of which a filter selects some.
#[derive(Drop)]
struct FilteredItems<'a, K: ByteKind, O: Offset> {
    items: ItemSlice<'a, K, O>,
    selected: &'a FilterMask,
}

impl<'a, K: ByteKind, O: Offset> FilterRows for FilteredItems<'a, K, O> {
    ghost use Rattle.arrow_kernels.specs.Filtering.{KeepsItems, items_pass_over};

    type Kept = MutableByteValues<K, O>;

    const LONG_RUN: u32 = 6;

    ghost selected = { λ rows. rows.selected.now };

    ghost keeps_before = { λ rows. KeepsItems O.most rows.items rows.selected.now };

    #[inline(always)]
    fn mask(&self) -> &FilterMask {
        self.selected
    }

    // A call, so that the loop over words stays small enough for the compiler to follow.
    #[inline(never)]
    fn push_run(
        &self,
        kept: &mut MutableByteValues<K, O>,
        first: usize,
        end: usize,
    ) -> Result<(), AllocError> {
        kept.push_fitting_items(&self.items, first, end - first)
    }

    #[inline(always)]
    fn push_row(&self, kept: &mut MutableByteValues<K, O>, i: usize) -> Result<(), AllocError> {
        kept.push_fitting_item(self.items.value(i))
    }

    ghost passes_over = { λ rows. items_pass_over O.most rows.items rows.selected.now };
}

/// Returns the number of bytes to reserve for `count` of `slots` items, which have `all` bytes: that of as many items
/// of average length, and 16 more.
fn room_for(all: usize, slots: usize, count: usize) -> usize
    ensures { result ≤ all + 16 }
{
    if slots == 0 {
        return 0;
    }
    let some = (all / slots).saturating_add(1).saturating_mul(count);
    some.min(all).saturating_add(16)
}

/// Returns the selected items, with nothing around them.
fn filter_some_items<'a, K: ByteKind, O: Offset>(
    alloc: Global,
    items: ItemSlice<'a, K, O>,
    selected: &'a FilterMask,
) -> Result<MutableByteValues<K, O>, Error>
    requires { length selected.now ≡ length items }
    ensures ok { IfOk result (λ kept. kept ≡ bare_items (where_set selected.now items.entry)) }
    ensures err { OnlyOutOfMemory result }
{
    let count = selected.len() - selected.unset_bits();
    let room = room_for(items.byte_count(), items.count(), count);
    let mut kept = MutableByteValues::with_capacities(alloc, count, room)?;
    keep_rows(&FilteredItems { items, selected }, &mut kept)?;
    Ok(kept)
}

/// Returns the selected items, with nothing around them. If all are selected and no byte lies around them, they are
/// shared.
pub(crate) fn filter_byte_values<K: ByteKind, O: Offset>(
    alloc: Global,
    values: &ByteValues<K, O>,
    selected: &FilterMask,
) -> Result<ByteValues<K, O>, Error>
    requires { length selected.now ≡ length values.now.items }
    ensures ok { IfOk result (λ kept. kept ≡ bare_items (where_set selected.now values.now.items)) }
    ensures err { OnlyOutOfMemory result }
{
    let items = values.as_slice();
    if selected.unset_bits() == 0 {
        // No byte lies around the items if they have all bytes.
        if items.byte_count() == values.bytes().len() {
            return values.clone();
        }
    }
    filter_some_items(alloc, items, selected)?.freeze()
}
