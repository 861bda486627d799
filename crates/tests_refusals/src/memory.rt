//! Bitmaps and buffers.
ghost use Rattle.std.specs.Prelude.{◌≡◌, length};

use crate::refusal::{changes, check_refusal, end, is_refused, results};
use crate::slot_text::marks;
use arrow_memory::bitmap::{Bitmap, BitmapIter, MutableBitmap, and, not, or};
use arrow_memory::buffer::Buffer;
use arrow_types::error::Error;
use std::alloc::Global;
use std::cell::Cell;
use std::process::Abort;
use std::test::Fail;
use tests_support::{Text, assert_text};

/// Writes the marks of a growing bitmap, and how many are clear.
fn growing_text(bitmap: &MutableBitmap) -> Text {
    let marks = marks(bitmap.iter());
    Text::of(format_args!("{}, {} clear", marks.as_str(), bitmap.unset_bits()))
}

/// Writes the marks of a bitmap, and how many are clear.
fn bitmap_text(bitmap: &Bitmap) -> Text {
    let marks = marks(bitmap.iter());
    Text::of(format_args!("{}, {} clear", marks.as_str(), bitmap.unset_bits()))
}

/// Writes the values of a buffer.
fn buffer_text(buffer: &Buffer<i64>) -> Text {
    Text::of(format_args!("{:?}", buffer.as_slice()))
}

/// Compares marks with as many, of which every third is set, the first one too.
fn check_thirds(rt: &impl Abort, case: &str, mut marks: BitmapIter<'_>, count: usize) {
    for index in 0..count {
        assert_text::value(marks.next(), Some(index % 3 == 0)).expect(rt, case);
    }
    assert_text::value(marks.next(), None).expect(rt, case);
}

#[test]
fn a_refused_push_leaves_the_marks(rt: HostRuntime) -> Result<(), Fail> {
    let mut marks = MutableBitmap::new(rt.alloc());
    let mut is_refused = false;
    for index in 0..600 {
        let answer = marks.push(index % 3 == 0);
        if answer.is_err() {
            is_refused = true;
            check_refusal(&rt, "push", answer);
            check_thirds(&rt, "push, refused", marks.iter(), index);
            marks.push(index % 3 == 0).expect(&rt, "push again");
        }
    }
    check_thirds(&rt, "600 pushes", marks.iter(), 600);
    drop(marks);
    end(is_refused)
}

#[test]
fn a_refused_extension_leaves_the_marks(rt: HostRuntime) -> Result<(), Fail> {
    let mut marks = MutableBitmap::new(rt.alloc());
    let mut is_refused = false;
    for (length, count) in [(0, 5), (5, 100), (105, 1000)] {
        let answer = marks.extend_constant(count, true);
        if answer.is_err() {
            is_refused = true;
            check_refusal(&rt, "extend_constant", answer);
            let left = (marks.len(), marks.unset_bits());
            assert_text::value(left, (length, 0)).expect(&rt, "extend_constant, refused");
            marks
                .extend_constant(count, true)
                .expect(&rt, "extend_constant again");
        }
    }
    let came = (marks.len(), marks.unset_bits());
    assert_text::value(came, (1105, 0)).expect(&rt, "three extensions");
    drop(marks);
    end(is_refused)
}

/// A set mark and a hundred clear ones, which a text writes with the number of clear marks.
const HUNDRED_AND_ONE: &str = concat!(
    "10000000000000000000000000000000000000000000000000",
    "000000000000000000000000000000000000000000000000000, 100 clear"
);

/// Appends ten of the marks of a bitmap, from the fifth on.
fn extend_from_fifth(marks: &mut MutableBitmap, other: &Bitmap) -> Result<(), Error> {
    if other.len() < 15 {
        return Ok(());
    }
    marks.extend_from_range(other, 5, 10)
}

#[test]
fn marks_grow_or_are_left(rt: HostRuntime) -> Result<(), Fail> {
    let alloc = rt.alloc();
    let growing = MutableBitmap::from_slice(alloc, [false; 100].as_slice()).expect(&rt, "refused");
    let frozen = Bitmap::new_zeroed(alloc, 100).expect(&rt, "refused");
    let is_refused =
        changes! { &rt, marks: MutableBitmap::from_slice(alloc, &[true]), growing_text, "1, 0 clear";
        marks.extend_from_bitmap(&growing) => HUNDRED_AND_ONE;
        extend_from_fifth(marks, &frozen) => "10000000000, 10 clear";
        marks.extend_from_word(0b101, 3) => "1101, 1 clear";
        marks.reserve(1000) => "1, 0 clear";
        marks.shrink_to_fit() => "1, 0 clear";
    };
    drop(frozen);
    drop(growing);
    end(is_refused)
}

/// Writes marks with a space before each.
fn spaced_text(bitmap: &MutableBitmap) -> Text {
    let mut written = Text::new();
    for mark in bitmap.iter() {
        written = written.and(if mark { " 1" } else { " 0" }, 2);
    }
    written
}

#[test]
fn a_refused_extension_by_an_iterator_leaves_a_beginning(rt: HostRuntime) -> Result<(), Fail> {
    let alloc = rt.alloc();
    end(
        changes! { &rt, marks: MutableBitmap::from_slice(alloc, &[true]), spaced_text, " 1";
            marks.extend([true; 10].iter().copied()) => " 1 1 1 1 1 1 1 1 1 1 1", Extension;
        },
    )
}

#[test]
fn more_marks_than_memory_holds_are_refused(rt: HostRuntime) {
    let mut marks = MutableBitmap::from_slice(rt.alloc(), &[true]).expect(&rt, "refused");
    for count in [usize::MAX, usize::MAX - 8] {
        let case = Text::of(format_args!("{count} clear marks"));
        check_refusal(&rt, case.as_str(), marks.extend_constant(count, false));
    }
    assert_text::text(growing_text(&marks), "1, 0 clear").expect(&rt, "clear marks, refused");
    drop(marks);
}

/// Clears the first mark, and notes that it ran.
pub(crate) fn clear_first(mut marks: MutableBitmap, ran: &Cell<bool>) -> MutableBitmap
    ensures { length result ≡ length marks }
{
    ran.set(true);
    if marks.len() > 0 {
        marks.set(0, false);
    }
    marks
}

/// Three marks, the first of which is set.
const THREE: &[bool] = &[true, false, false];

#[test]
fn a_refused_apply_mut_does_not_run(rt: HostRuntime) -> Result<(), Fail> {
    let first = Bitmap::from_slice(rt.alloc(), [true].as_slice()).expect(&rt, "refused");
    let mut second = first.clone().expect(&rt, "refused");
    let ran = Cell::new(false);
    let answer = second.apply_mut(|marks| clear_first(marks, &ran));
    let is_any_refused = is_refused(&rt, "apply_mut", answer);
    assert_text::value(ran.get(), !is_any_refused).expect(&rt, "whether the change ran");
    if is_any_refused {
        assert_text::marks(second.iter(), "1").expect(&rt, "apply_mut, refused");
        let answer = second.apply_mut(|marks| clear_first(marks, &ran));
        answer.expect(&rt, "apply_mut again");
    }
    assert_text::marks(second.iter(), "0").expect(&rt, "the clone");
    drop(second);
    assert_text::marks(first.iter(), "1").expect(&rt, "the bitmap");
    drop(first);
    end(is_any_refused)
}

/// Creates a bitmap of the first three bits of a byte.
fn packed(alloc: Global, byte: u8) -> Result<Bitmap, Error> {
    Bitmap::try_new([byte].to_vec(alloc)?, 3)
}

/// Creates three marks and freezes them.
fn frozen(alloc: Global) -> Result<Bitmap, Error> {
    MutableBitmap::from_slice(alloc, THREE)?.freeze()
}

/// Creates three marks and freezes them with their number of clear ones.
fn frozen_counted(alloc: Global) -> Result<Bitmap, Error> {
    let marks = MutableBitmap::from_slice(alloc, THREE)?;
    let clear = marks.unset_bits();
    marks.freeze_counted(clear)
}

#[test]
fn bitmaps_are_created(rt: HostRuntime) -> Result<(), Fail> {
    let alloc = rt.alloc();
    end(results! { &rt;
        growing_text: MutableBitmap::with_capacity(alloc, 100) => ", 0 clear";
        growing_text: MutableBitmap::from_slice(alloc, THREE) => "100, 2 clear";
        growing_text: MutableBitmap::from_iter(alloc, THREE.iter().copied()) => "100, 2 clear";
        bitmap_text: Bitmap::new(alloc) => ", 0 clear";
        bitmap_text: packed(alloc, 0b11111001) => "100, 2 clear";
        bitmap_text: Bitmap::from_slice(alloc, THREE) => "100, 2 clear";
        bitmap_text: Bitmap::from_iter(alloc, THREE.iter().copied()) => "100, 2 clear";
        bitmap_text: Bitmap::new_zeroed(alloc, 3) => "000, 3 clear";
        bitmap_text: frozen(alloc) => "100, 2 clear";
        bitmap_text: frozen_counted(alloc) => "100, 2 clear";
    })
}

#[test]
fn bitmaps_are_created_from_others(rt: HostRuntime) -> Result<(), Fail> {
    let alloc = rt.alloc();
    let growing = MutableBitmap::from_slice(alloc, THREE).expect(&rt, "refused");
    let first = Bitmap::from_slice(alloc, THREE).expect(&rt, "refused");
    let second = Bitmap::from_slice(alloc, [true, false, true].as_slice()).expect(&rt, "refused");
    assert!(&rt; first.len() == second.len());
    let is_refused = results! { &rt;
        growing_text: growing.clone() => "100, 2 clear";
        bitmap_text: first.clone() => "100, 2 clear";
        bitmap_text: and(alloc, &first, &second) => "100, 2 clear";
        bitmap_text: or(alloc, &first, &second) => "101, 1 clear";
        bitmap_text: not(alloc, &first) => "011, 1 clear";
    };
    drop(growing);
    drop(first);
    drop(second);
    end(is_refused)
}

/// The bytes of two values, the least significant first.
const PAIR_BYTES: &[u8] = &[7, 0, 0, 0, 0, 0, 0, 0, 8, 0, 0, 0, 0, 0, 0, 0];

/// Creates a buffer of two values.
fn pair(alloc: Global) -> Result<Buffer<i64>, Error> {
    Buffer::from_vec([7, 8].to_vec(alloc)?)
}

#[test]
fn buffers_are_created(rt: HostRuntime) -> Result<(), Fail> {
    let alloc = rt.alloc();
    let buffer = pair(alloc).expect(&rt, "refused");
    let is_refused = results! { &rt;
        buffer_text: Buffer::new(alloc) => "[]";
        buffer_text: pair(alloc) => "[7, 8]";
        buffer_text: Buffer::from_le_bytes(alloc, PAIR_BYTES) => "[7, 8]";
        buffer_text: buffer.clone() => "[7, 8]";
    };
    drop(buffer);
    end(is_refused)
}
