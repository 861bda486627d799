//! Offsets.
use crate::refusal::{changes, check_refusal, end, results};
use arrow_memory::buffer::Buffer;
use arrow_memory::offset::{Offsets, OffsetsBuffer};
use arrow_types::error::Error;
use arrow_types::offset::Offset;
use std::alloc::Global;
use std::test::Fail;
use tests_support::{Text, assert_text};

/// Creates offsets of 32 bits.
fn offsets_of(alloc: Global, list: &[i32]) -> Result<Offsets<i32>, Error> {
    Offsets::try_from_vec(list.to_vec(alloc)?)
}

/// Writes offsets, and whether they have room for 101 slots.
fn offsets_text(offsets: &Offsets<i32>) -> Text {
    let room = if offsets.capacity() < 101 {
        ""
    } else {
        " with room"
    };
    Text::of(format_args!("{:?}{room}", offsets.as_slice()))
}

/// Writes frozen offsets.
fn frozen_text(offsets: &OffsetsBuffer<i32>) -> Text {
    Text::of(format_args!("{:?}", offsets.buffer().as_slice()))
}

/// Writes offsets and the bytes between them.
fn items_text(items: &(Offsets<i32>, Vec<u8>)) -> Text {
    crate::slot_text::items(items.0.as_slice(), &items.1, Text::of("none"))
}

#[test]
fn offsets_grow_or_are_left(rt: HostRuntime) -> Result<(), Fail> {
    let alloc = rt.alloc();
    let other = offsets_of(alloc, &[3, 4, 7]).expect(&rt, "refused");
    let is_refused = changes! { &rt, offsets: offsets_of(alloc, &[0, 2]), offsets_text, "[0, 2]";
        offsets.try_push_usize(1) => "[0, 2, 3]";
        offsets.push_empty() => "[0, 2, 2]";
        offsets.try_extend_from_self(&other) => "[0, 2, 3, 6]";
        offsets.reserve(100) => "[0, 2] with room";
        offsets.shrink_to_fit() => "[0, 2]";
    };
    drop(other);
    end(is_refused)
}

/// Creates two bytes and the offsets of the item that they are.
fn item(alloc: Global) -> Result<(Offsets<i32>, Vec<u8>), Error> {
    let offsets = offsets_of(alloc, &[0, 2])?;
    Ok((offsets, b"ab".to_vec(alloc)?))
}

/// Appends two items of another's bytes.
fn extend_items(items: &mut (Offsets<i32>, Vec<u8>), other: &Offsets<i32>) -> Result<(), Error> {
    if other.last().try_to_usize() != Some(7) {
        return Ok(());
    }
    items.0.try_extend_items(&mut items.1, other, b"...defg")
}

#[test]
fn offsets_and_bytes_grow_together_or_are_left(rt: HostRuntime) -> Result<(), Fail> {
    let alloc = rt.alloc();
    let other = offsets_of(alloc, &[3, 4, 7]).expect(&rt, "refused");
    let is_refused = changes! { &rt, items: item(alloc), items_text, "<ab>";
        items.0.try_push_item(&mut items.1, b"c") => "<ab> <c>";
        extend_items(items, &other) => "<ab> <d> <efg>";
    };
    drop(other);
    end(is_refused)
}

#[test]
fn more_offsets_than_memory_holds_are_refused(rt: HostRuntime) {
    let alloc = rt.alloc();
    let zeroed = Offsets::<i32>::new_zeroed(alloc, usize::MAX);
    check_refusal(&rt, "new_zeroed", zeroed);
    let room = Offsets::<i64>::with_capacity(alloc, usize::MAX - 1);
    check_refusal(&rt, "with_capacity", room);
    let mut offsets = offsets_of(alloc, &[0, 2]).expect(&rt, "refused");
    check_refusal(&rt, "reserve", offsets.reserve(usize::MAX));
    assert_text::text(offsets_text(&offsets), "[0, 2]").expect(&rt, "reserve, refused");
    drop(offsets);
}

/// Creates offsets and freezes them.
fn frozen(alloc: Global) -> Result<OffsetsBuffer<i32>, Error> {
    offsets_of(alloc, &[0, 2])?.freeze()
}

/// Creates offsets of the buffer of a file without slots.
fn of_empty_file(alloc: Global) -> Result<OffsetsBuffer<i32>, Error> {
    OffsetsBuffer::try_from_file_buffer(alloc, Buffer::new(alloc)?)
}

/// Creates offsets of a buffer.
fn of_buffer(alloc: Global) -> Result<OffsetsBuffer<i32>, Error> {
    OffsetsBuffer::try_from_buffer(Buffer::from_vec([0, 2].to_vec(alloc)?)?)
}

/// Creates offsets of 64 bits and narrows them.
fn narrowed(alloc: Global) -> Result<OffsetsBuffer<i32>, Error> {
    OffsetsBuffer::<i64>::new(alloc)?.narrow()
}

/// Creates offsets, widens them, and narrows them again.
fn widened_and_narrowed(alloc: Global) -> Result<OffsetsBuffer<i32>, Error> {
    frozen(alloc)?.widen()?.narrow()
}

#[test]
fn offsets_are_created(rt: HostRuntime) -> Result<(), Fail> {
    let alloc = rt.alloc();
    let offsets = offsets_of(alloc, &[0, 2]).expect(&rt, "refused");
    let buffer = frozen(alloc).expect(&rt, "refused");
    let is_refused = results! { &rt;
        offsets_text: Offsets::new(alloc) => "[0]";
        offsets_text: Offsets::new_zeroed(alloc, 2) => "[0, 0, 0]";
        offsets_text: Offsets::with_capacity(alloc, 101) => "[0] with room";
        offsets_text: offsets.clone() => "[0, 2]";
        frozen_text: OffsetsBuffer::new(alloc) => "[0]";
        frozen_text: frozen(alloc) => "[0, 2]";
        frozen_text: buffer.clone() => "[0, 2]";
        frozen_text: widened_and_narrowed(alloc) => "[0, 2]";
        frozen_text: narrowed(alloc) => "[0]";
        frozen_text: of_empty_file(alloc) => "[0]";
        frozen_text: of_buffer(alloc) => "[0, 2]";
    };
    drop(buffer);
    drop(offsets);
    end(is_refused)
}
