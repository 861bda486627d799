//! Marks that are appended, counted and inverted from any bit on, compared with what is done mark by mark.
use arrow_bitmap::{Bitmap, BitmapIter, MutableBitmap, not};
use std::process::Abort;
use tests_support::assert_text;

/// Creates a bitmap of 1,100 marks that repeat in no short period.
fn source(rt: &(impl Abort + AllocGlobal)) -> Bitmap {
    let mut marks = MutableBitmap::new(rt.alloc());
    for i in 0..1100usize {
        marks.push((i * i + i / 3) % 5 < 2).expect(rt, "memory");
    }
    marks.freeze().expect(rt, "memory")
}

fn count_clear(marks: BitmapIter<'_>) -> usize {
    let mut clear = 0usize;
    for mark in marks {
        clear = clear.saturating_add(usize::from(!mark));
    }
    clear
}

/// Appends `len` marks from `start` on to others, and compares all marks with those that are expected.
fn check_append(
    rt: &impl Abort,
    source: &Bitmap,
    first: &MutableBitmap,
    (start, len): (usize, usize),
    expected: &MutableBitmap,
) {
    assert!(rt; start <= source.len() && len <= source.len() - start);
    let mut marks = first.clone().expect(rt, "memory");
    marks
        .extend_from_range(source, start, len)
        .expect(rt, "memory");
    let is_same = marks.has_marks_of(expected);
    drop(marks);
    // Texts are made of a failure alone, since there are many ranges.
    if !is_same {
        let range = (first.len(), start, len);
        let case = "marks after others, from a bit on, of a length";
        assert_text::value((range, is_same), (range, true)).expect(rt, case);
    }
}

/// Appends ranges of marks from `start` on to the first `head` marks. Those that are expected grow mark by mark.
fn check_appends(rt: &(impl Abort + AllocGlobal), source: &Bitmap, head: usize, start: usize) {
    assert!(rt; head <= source.len() && start <= source.len() && 1060 <= source.len() - start);
    let first = MutableBitmap::from_iter(rt.alloc(), source.iter_range(0, head));
    let first = first.expect(rt, "memory");
    let mut expected = first.clone().expect(rt, "memory");
    let mut marks = source.iter_range(start, 1060);
    for len in 0..1060 {
        // The longer ones have more than the 64 bytes that are copied at a time.
        if len < 200 || 500 <= len && len < 550 || 1020 <= len {
            check_append(rt, source, &first, (start, len), &expected);
        }
        let mark = marks.next().expect(rt, "a mark for each length");
        expected.push(mark).expect(rt, "memory");
    }
    drop(expected);
    drop(first);
}

#[test]
fn marks_are_appended_at_any_bit_from_any_bit(rt: HostRuntime) {
    let source = source(&rt);
    for head in 0..8 {
        for start in 0..8 {
            check_appends(&rt, &source, head, start);
        }
    }
    drop(source);
}

/// Cuts a bitmap, and inverts what is left.
fn check_cut(rt: &(impl Abort + AllocGlobal), source: &Bitmap, start: usize, len: usize) {
    assert!(rt; start <= source.len() && len <= source.len() - start);
    let clear = count_clear(source.iter_range(start, len));
    let mut part = source.clone().expect(rt, "memory");
    part.slice(start, len);
    let opposites = not(rt.alloc(), &part).expect(rt, "memory");
    let counts = (
        part.unset_bits(),
        opposites.unset_bits(),
        count_clear(opposites.iter()),
    );
    drop(opposites);
    drop(part);
    let set = len.saturating_sub(clear);
    assert_text::value((start, len, counts), (start, len, (clear, set, set))).expect(
        rt,
        "clear marks from a bit on, of a length",
    );
}

#[test]
fn clear_marks_are_counted_from_any_bit(rt: HostRuntime) {
    let source = source(&rt);
    for start in 0..16 {
        for len in 0..200 {
            check_cut(&rt, &source, start, len);
        }
        // more than half of the marks, so that those are counted which go
        for len in 1020..1060 {
            check_cut(&rt, &source, start, len);
        }
    }
    drop(source);
}
