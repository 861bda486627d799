//! Values under marks.
use arrow_memory::bitmap::{BitmapIter, MutableBitmap};
use arrow_memory::zip_validity::ZipValidity;
use tests_support::assert_text;

#[test]
fn all_slots_are_valid_without_marks(rt: HostRuntime) {
    let slots = ZipValidity::<_, BitmapIter<'_>>::new([3, -1].iter(), None);
    assert_text::slots(slots, "[3 -1]").expect(&rt, "no marks");
}

#[test]
fn values_under_clear_marks_are_null_and_come_from_both_ends(rt: HostRuntime) {
    let marks = MutableBitmap::from_slice(rt.alloc(), &[true, false, true]).expect(&rt, "memory");
    assert!(rt; marks.len() == 3);
    let slots = ZipValidity::new([1, 2, 4].iter(), Some(marks.iter()));
    assert_text::slots(slots, "[1 _ 4]").expect(&rt, "101");
    drop(marks);
    let marks = MutableBitmap::from_slice(rt.alloc(), &[false, true, false]).expect(&rt, "memory");
    assert!(rt; marks.len() == 3);
    let mut slots = ZipValidity::new([1, 2, 4].iter(), Some(marks.iter()));
    let ends = [slots.next_back(), slots.next()];
    assert_text::value(ends, [Some(None), Some(None)]).expect(&rt, "both ends of 010");
    assert_text::slots(slots, "[2]").expect(&rt, "between the ends");
    drop(marks);
}
