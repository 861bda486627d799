//! Shared buffers of values.
use arrow_memory::buffer::Buffer;
use std::process::Abort;
use tests_support::{assert_text, buffer_of, row};

/// Creates a buffer of three values.
fn three(rt: &(impl Abort + AllocGlobal)) -> Buffer<i64> {
    buffer_of(rt.alloc(), &[7, 8, 9]).expect(rt, "memory")
}

/// A name, the slice of what the row before left, and its values.
const CUTS: &[(&str, usize, usize, &[i64])] = &[
    ("all", 0, 3, &[7, 8, 9]),
    ("two", 1, 2, &[8, 9]),
    ("the last", 1, 1, &[9]),
    ("none", 1, 0, &[]),
];

#[test]
fn slices_of_slices_add_their_offsets(rt: HostRuntime) {
    let mut buffer = three(&rt);
    for (index, (case, offset, len, expected)) in CUTS.iter().enumerate() {
        assert!(rt; *offset <= buffer.len() && *len <= buffer.len() - *offset);
        buffer.slice(*offset, *len);
        let came = (buffer.as_slice(), buffer.is_empty());
        let expected = (*expected, expected.is_empty());
        assert_text::value(came, expected).expect(&rt, row(*case, index).as_str());
    }
    drop(buffer);
}

#[test]
fn new_buffers_are_empty(rt: HostRuntime) {
    let wide = Buffer::<i64>::new(rt.alloc()).expect(&rt, "memory");
    let len = wide.len();
    drop(wide);
    let narrow = Buffer::<u8>::new(rt.alloc()).expect(&rt, "memory");
    let is_empty = narrow.is_empty();
    drop(narrow);
    assert_text::value((len, is_empty), (0, true)).expect(&rt, "len and is_empty");
}

/// Writes at the first index, if there is one.
fn write_first(values: &mut [i64]) {
    if let Some(first) = values.first_mut() {
        *first = 5;
    }
}

/// A slice does not show the whole vector.
#[test]
fn values_are_lent_and_thaw_once_they_are_neither_shared_nor_sliced(rt: HostRuntime) {
    let mut first = three(&rt);
    let second = first.clone().expect(&rt, "memory");
    let is_lent = first.get_mut_slice(write_first);
    let first = first.into_mut().left();
    drop(first.expect(&rt, "shared values stay frozen"));
    let mut second = second;
    let is_lent_alone = second.get_mut_slice(write_first);
    let values = second.into_mut().right().expect(&rt, "values alone thaw");
    drop(values);
    assert_text::value([is_lent, is_lent_alone], [false, true]).expect(
        &rt,
        "beside a clone, and alone",
    );
    let mut buffer = three(&rt);
    assert!(rt; buffer.len() == 3);
    buffer.slice(0, 2);
    let buffer = buffer.into_mut().left().expect(&rt, "slices stay frozen");
    assert_text::value(buffer.as_slice(), &[7, 8]).expect(&rt, "the slice");
    drop(buffer);
}

#[test]
fn owned_values_come_from_both_ends(rt: HostRuntime) {
    let mut values = three(&rt).into_iter();
    let came = [
        values.next_back(),
        values.next(),
        values.next_back(),
        values.next(),
    ];
    drop(values);
    assert_text::value(came, [Some(9), Some(7), Some(8), None]).expect(&rt, "7, 8, 9");
}
