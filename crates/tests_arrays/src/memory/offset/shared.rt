//! Frozen offsets.
use arrow_memory::offset::OffsetsBuffer;
use arrow_types::error::Error;
use std::process::Abort;
use tests_support::{Text, assert_text, buffer_of, frozen_offsets, row, row_of};

/// Slices offsets, and compares those that are left, their ends, and the number of slots, with these.
fn check_slice(
    rt: &impl Abort,
    case: &str,
    offsets: &mut OffsetsBuffer<i32>,
    offset: usize,
    len: usize,
    expected: &[i32],
) {
    let slots = offsets.len_proxy();
    assert!(rt; 1 <= len && offset <= slots && len - 1 <= slots - offset);
    offsets.slice(offset, len);
    let ends = (Some(offsets.first()), Some(offsets.last()));
    let size = (offsets.len_proxy(), offsets.is_empty());
    let came = (offsets.buffer().as_slice(), ends, size);
    let ends = (expected.first(), expected.last());
    assert_text::value(came, (expected, ends, (len - 1, len == 1))).expect(rt, case);
}

#[test]
fn slices_count_offsets(rt: HostRuntime) {
    let mut offsets = OffsetsBuffer::<i32>::new(rt.alloc()).expect(&rt, "memory");
    check_slice(&rt, "new offsets are one zero", &mut offsets, 0, 1, &[0]);
    drop(offsets);
    let offsets = frozen_offsets::<i32>(rt.alloc(), &[2, 3, 3, 5]);
    let mut offsets = offsets.expect(&rt, "offsets");
    check_slice(&rt, "the last two slots", &mut offsets, 1, 3, &[3, 3, 5]);
    check_slice(&rt, "no slot of a slice", &mut offsets, 2, 1, &[5]);
    drop(offsets);
}

/// A slice does not show the whole vector.
#[test]
fn offsets_thaw_once_they_are_neither_shared_nor_sliced(rt: HostRuntime) {
    let first = frozen_offsets::<i32>(rt.alloc(), &[0, 2, 7]).expect(&rt, "offsets");
    let second = first.clone().expect(&rt, "memory");
    let first = first.into_mut().left();
    drop(first.expect(&rt, "shared offsets stay frozen"));
    let offsets = second.into_mut().right().expect(&rt, "offsets alone thaw");
    let mut offsets = offsets.freeze().expect(&rt, "memory");
    check_slice(&rt, "the first slot", &mut offsets, 0, 2, &[0, 2]);
    let offsets = offsets.into_mut().left().expect(&rt, "slices stay frozen");
    drop(offsets);
}

/// A case, the integers of a buffer, the offsets that they are or the error, and the same of a file.
#[rattlefmt::skip]
const BUFFERS: &[(&str, &[i32], &str, &str)] = &[
    ("two slots", &[0, 2, 7], "[0, 2, 7]", "[0, 2, 7]"),
    ("one offset", &[5], "[5]", "[5]"),
    ("no offset", &[], "offsets must have at least one element", "[0]"),
    ("a negative offset", &[-1, 2], "the first offset must not be negative", "the first offset must not be negative"),
    ("offsets fall", &[0, 2, 1], "offsets must never fall", "offsets must never fall"),
];

/// Returns the text of the offsets or of the error.
fn text_of(made: Result<OffsetsBuffer<i32>, Error>) -> Text {
    match made {
        Ok(offsets) => {
            let text = Text::of(format_args!("{:?}", offsets.buffer().as_slice()));
            drop(offsets);
            text
        }
        Err(error) => Text::of(format_args!("{error}")),
    }
}

#[test]
fn buffers_become_offsets_if_they_never_fall(rt: HostRuntime) {
    for (index, (case, values, expected, of_file)) in BUFFERS.iter().enumerate() {
        let buffer = buffer_of(rt.alloc(), *values).expect(&rt, "memory");
        let came = text_of(OffsetsBuffer::try_from_buffer(buffer));
        assert_text::text(came, *expected).expect(&rt, row(*case, index).as_str());
        let buffer = buffer_of(rt.alloc(), *values).expect(&rt, "memory");
        let came = text_of(OffsetsBuffer::try_from_file_buffer(rt.alloc(), buffer));
        assert_text::text(came, *of_file).expect(&rt, row_of(*case, "a file", index).as_str());
    }
}
