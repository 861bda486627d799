//! Masks that are replaced, changed and dropped.
ghost use Rattle.std.specs.Prelude.{◌≡◌, length};

use super::*;
use arrow_memory::bitmap::{Bitmap, MutableBitmap};

/// Returns marks unchanged.
fn same(marks: Bitmap) -> Bitmap
    ensures { length result ≡ length marks }
{
    marks
}

/// Returns marks with the first inverted.
fn inverted(mut marks: MutableBitmap) -> MutableBitmap
    ensures { length result ≡ length marks }
{
    if marks.len() > 0 {
        let first = marks.get(0);
        marks.set(0, !first);
    }
    marks
}

/// Replaces and drops the mask of arrays.
fn check_masks_of_arrays<K: ByteKind, O: Offset>(rt: &(impl Abort + AllocGlobal)) {
    let mut array: ByteArray<K, O> = array_of(rt, AROUND);
    let marks = Bitmap::from_slice(rt.alloc(), &[false, true, true]).expect(rt, "memory");
    assert!(rt; array.len() == marks.len());
    array.set_validity(Some(marks));
    array.apply_validity(same);
    let other: Parts = (AROUND.0, AROUND.1, "011");
    check_array(rt, "set_validity", array.clone(), other);
    let copy = array.clone().expect(rt, "memory");
    check_array(rt, "with_validity", Ok(copy.with_validity(None)), BARE);
    array.set_validity(None);
    array.apply_validity(same);
    check_array(rt, "set_validity of none", Ok(array), BARE);
}

/// Changes, replaces and drops the mask of builders.
fn check_masks_of_builders<K: ByteKind, O: Offset>(rt: &(impl Abort + AllocGlobal)) {
    let mut builder: MutableByteArray<K, O> = builder_of(rt, SLOTS);
    builder.apply_validity(inverted);
    check_builder(
        rt,
        "apply_validity",
        builder.clone(),
        (SLOTS.0, SLOTS.1, "001"),
    );
    builder.set_validity(None);
    builder.apply_validity(inverted);
    check_builder(
        rt,
        "apply_validity, no mask",
        builder.clone(),
        (SLOTS.0, SLOTS.1, "none"),
    );
    let marks = MutableBitmap::from_slice(rt.alloc(), &[false, true, true]).expect(rt, "memory");
    assert!(rt; builder.len() == marks.len());
    builder.set_validity(Some(marks));
    builder.apply_validity(inverted);
    check_builder(
        rt,
        "set_validity, apply_validity",
        builder.clone(),
        (SLOTS.0, SLOTS.1, "111"),
    );
    check_builder(
        rt,
        "with_validity",
        Ok(builder.with_validity(None)),
        (SLOTS.0, SLOTS.1, "none"),
    );
}

#[test]
fn masks_of_arrays_and_builders_are_replaced_changed_and_dropped(rt: HostRuntime) {
    for_all_kinds!(check_masks_of_arrays, &rt);
    for_all_kinds!(check_masks_of_builders, &rt);
}
