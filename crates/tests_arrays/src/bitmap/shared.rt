//! Bitmaps of given bytes, clones, and thawing.
ghost use Rattle.std.specs.Prelude.{◌≡◌, length};

use crate::bitmap::{check, cut, frozen};
use arrow_bitmap::{Bitmap, MutableBitmap};
use tests_support::assert_text;

#[test]
fn marks_thaw_once_no_clone_shares_them_and_without_those_cut_off(rt: HostRuntime) {
    let first = frozen(&rt, "1011000111");
    let second = first.clone().expect(&rt, "memory");
    let first = first.into_mut().left();
    drop(first.expect(&rt, "shared marks stay frozen"));
    let marks = second.into_mut().right().expect(&rt, "marks alone thaw");
    drop(marks);
    let bytes = [0xff, 0x01].to_vec(rt.alloc()).expect(&rt, "memory");
    let mut mask = Bitmap::try_new(bytes, 9).expect(&rt, "bits for all marks");
    cut(&rt, &mut mask, 0, 8);
    let mut marks = mask.into_mut().right().expect(&rt, "marks alone thaw");
    marks.push(false).expect(&rt, "memory");
    check(
        &rt,
        "marks that were cut off do not come back",
        marks.iter(),
        "111111110",
    );
    drop(marks);
}

#[test]
fn zeroed_marks_are_clear_and_thaw(rt: HostRuntime) {
    let zeroed = Bitmap::new_zeroed(rt.alloc(), 70).expect(&rt, "memory");
    let came = (zeroed.len(), zeroed.unset_bits(), zeroed.is_empty());
    let thawed = zeroed.into_mut().right().expect(&rt, "marks alone thaw");
    let is_empty = thawed.is_empty();
    drop(thawed);
    assert_text::value((came, is_empty), ((70, 70, false), false)).expect(&rt, "new_zeroed");
    let none = Bitmap::new(rt.alloc()).expect(&rt, "memory");
    let came = (none.len(), none.unset_bits(), none.is_empty());
    let thawed = none.into_mut().right().expect(&rt, "no mark thaws");
    let is_empty = thawed.is_empty();
    drop(thawed);
    assert_text::value((came, is_empty), ((0, 0, true), true)).expect(&rt, "new");
}

/// Sets the second of some marks.
fn set_second(marks: MutableBitmap) -> MutableBitmap
    ensures { length result ≡ length marks }
{
    let mut marks = marks;
    if marks.len() > 1 {
        marks.set(1, true);
    }
    marks
}

#[test]
fn changes_of_a_sliced_clone_leave_the_first(rt: HostRuntime) {
    let first = frozen(&rt, "1011000111");
    let mut second = first.clone().expect(&rt, "memory");
    cut(&rt, &mut second, 3, 6);
    second.apply_mut(set_second).expect(&rt, "memory");
    check(&rt, "the clone", second.iter(), "110011");
    assert_text::value(second.unset_bits(), 2).expect(&rt, "clear marks of the clone");
    drop(second);
    check(&rt, "the first", first.iter(), "1011000111");
    drop(first);
}

#[test]
fn owned_marks_come_from_both_ends_and_parts_are_given_back(rt: HostRuntime) {
    let mut bitmap = frozen(&rt, "00110");
    cut(&rt, &mut bitmap, 1, 3);
    let mut marks = bitmap.into_iter();
    let came = [
        marks.next_back(),
        marks.next(),
        marks.next_back(),
        marks.next(),
    ];
    drop(marks);
    assert_text::value(came, [Some(true), Some(false), Some(true), None]).expect(&rt, "011");
    let mut bitmap = frozen(&rt, "1011000111");
    cut(&rt, &mut bitmap, 3, 6);
    let (bytes, offset, length, unset) = bitmap.into_parts();
    assert_text::value([offset, length, unset], [3, 6, 3]).expect(&rt, "into_parts");
    let bitmap = Bitmap::from_parts(bytes, offset, length, unset);
    check(&rt, "from_parts", bitmap.iter(), "100011");
    drop(bitmap);
}
