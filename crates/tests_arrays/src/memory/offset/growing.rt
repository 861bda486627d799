//! Growing offsets, of each type.
use arrow_memory::offset::Offsets;
use arrow_types::offset::Offset;
use std::process::Abort;
use tests_support::{Tiny, assert_text, offset_name, offsets_of};

#[test]
fn room_is_reserved_and_given_back(rt: HostRuntime) {
    let mut offsets = Offsets::<i32>::with_capacity(rt.alloc(), 40).expect(&rt, "memory");
    assert_text::value(offsets.capacity().min(40), 40).expect(&rt, "at least 40 by with_capacity");
    offsets.reserve(100).expect(&rt, "memory");
    assert_text::value(offsets.capacity().min(100), 100).expect(&rt, "at least 100 by reserve");
    offsets.shrink_to_fit().expect(&rt, "memory");
    assert_text::value(offsets.capacity().max(39), 39).expect(&rt, "at most 39 by shrink_to_fit");
    drop(offsets);
}

#[test]
fn offsets_of_no_slot_are_empty(rt: HostRuntime) {
    let mut offsets = Offsets::<i32>::new(rt.alloc()).expect(&rt, "memory");
    let is_empty = offsets.is_empty();
    offsets.try_push_usize(0).expect(&rt, "room");
    let is_still_empty = offsets.is_empty();
    drop(offsets);
    assert_text::value([is_empty, is_still_empty], [true, false]).expect(
        &rt,
        "no slot, one of no byte",
    );
}

/// Creates offsets of two empty slots and one of 20 bytes.
fn three<O: Offset>(rt: &(impl Abort + AllocGlobal)) -> Offsets<O> {
    let mut offsets = Offsets::new_zeroed(rt.alloc(), 2).expect(rt, "memory");
    offsets.try_push_usize(20).expect(rt, "room for 20");
    offsets
}

/// Appends the slots of offsets of a type to themselves, and drops those after the second.
fn check_growth<O: Offset>(rt: &(impl Abort + AllocGlobal)) {
    let mut offsets = three::<O>(rt);
    let copy = offsets.clone().expect(rt, "memory");
    let answer = offsets.try_extend_from_self(&copy);
    drop(copy);
    answer.expect(rt, "room for 40");
    let end = (offset_name::<O>(), offsets.last().to_usize());
    assert_text::value(end, (end.0, 40)).expect(rt, "try_extend_from_self");
    assert!(rt; offsets.len_proxy() == 6);
    offsets.truncate(2);
    let ends = [offsets.first().to_usize(), offsets.last().to_usize()];
    let came = (end.0, ends, offsets.len_proxy());
    drop(offsets);
    assert_text::value(came, (end.0, [0, 0], 2)).expect(rt, "truncate");
}

/// Appends the last two slots of frozen offsets and their bytes to offsets of a type.
fn check_slots<O: Offset>(rt: &(impl Abort + AllocGlobal)) {
    let name = offset_name::<O>();
    let offsets = offsets_of::<O>(rt.alloc(), &[0, 0, 0, 20, 20, 20, 40]);
    let mut offsets = offsets.expect(rt, "offsets");
    let other = three::<O>(rt).freeze().expect(rt, "memory");
    let copy = other.clone().expect(rt, "memory");
    drop(other);
    assert_text::value((name, copy.len_proxy()), (name, 3)).expect(rt, "a clone of frozen offsets");
    assert!(rt; copy.len_proxy() == 3 && copy.last().to_usize() <= 20);
    let mut values = Vec::new(rt.alloc());
    let answer = offsets.try_extend_slots(&mut values, &copy, b"a slot of 20 letters", 1..3);
    drop(copy);
    answer.expect(rt, "room for 60");
    let ends = [offsets.last().to_usize(), offsets.len_proxy(), values.len()];
    drop(values);
    drop(offsets);
    assert_text::value((name, ends), (name, [60, 8, 20])).expect(rt, "try_extend_slots");
}

#[test]
fn each_type_of_offset_grows(rt: HostRuntime) {
    check_growth::<i32>(&rt);
    check_growth::<i64>(&rt);
    check_growth::<Tiny>(&rt);
    check_slots::<i32>(&rt);
    check_slots::<i64>(&rt);
    check_slots::<Tiny>(&rt);
}
