//! Boolean arrays and their builders.
use crate::memory::clear_first;
use crate::refusal::{changes, check_refusal, end, is_refused, pushes, results};
use crate::slot_text;
use arrow_boolean::{BooleanArray, MutableBooleanArray};
use arrow_memory::bitmap::Bitmap;
use arrow_types::data_type::DataType;
use arrow_types::error::Error;
use std::alloc::Global;
use std::cell::Cell;
use std::test::Fail;
use tests_support::{Text, assert_text};

/// Writes what an array stores.
pub(crate) fn array_text(array: &BooleanArray) -> Text {
    slot_text::values(array.values_iter(), slot_text::mask(array.validity()))
}

/// Writes what a builder stores.
fn builder_text(builder: &MutableBooleanArray) -> Text {
    slot_text::values(
        builder.values_iter(),
        slot_text::growing_mask(builder.validity()),
    )
}

/// A true slot and a null.
const PAIR: [Option<bool>; 2] = [Some(true), None];

/// Appends the last slot of an array.
fn extend_from_last(builder: &mut MutableBooleanArray, array: &BooleanArray) -> Result<(), Error> {
    if array.len() == 0 {
        return Ok(());
    }
    builder.extend_from_array(array, array.len() - 1, 1)
}

/// Replaces the first slot by a null.
fn set_null(builder: &mut MutableBooleanArray) -> Result<(), Error> {
    if builder.len() == 0 {
        return Ok(());
    }
    builder.set(0, None)
}

/// The slots that extend a builder.
const SLOTS: [Option<bool>; 3] = [Some(true), None, Some(true)];

#[test]
fn builders_grow_or_are_left(rt: HostRuntime) -> Result<(), Fail> {
    let alloc = rt.alloc();
    let other = MutableBooleanArray::from(alloc, PAIR.as_slice()).expect(&rt, "refused");
    let array = BooleanArray::from(alloc, PAIR.as_slice()).expect(&rt, "refused");
    let is_refused =
        changes! { &rt, bits: MutableBooleanArray::from_slice(alloc, &[false]), builder_text, "false";
        bits.push(Some(true)) => "false true";
        bits.push(None) => "false (false)";
        bits.try_push(None) => "false (false)";
        bits.push_null() => "false (false)";
        bits.try_extend_from_self(&other) => "false true (false)";
        extend_from_last(bits, &array) => "false (false)";
        set_null(bits) => "(false)";
        bits.reserve(1000) => "false";
        bits.shrink_to_fit() => "false";
        bits.extend(SLOTS.into_iter()) => "false true (false) true", Extension;
        bits.try_extend(SLOTS.into_iter()) => "false true (false) true", Extension;
        bits.extend_values([true, false, true].into_iter()) => "false true false true", Extension;
    };
    drop(array);
    drop(other);
    end(is_refused)
}

#[test]
fn a_refused_apply_values_mut_does_not_run(rt: HostRuntime) -> Result<(), Fail> {
    let array = BooleanArray::from(rt.alloc(), PAIR.as_slice()).expect(&rt, "refused");
    let mut clone = array.clone().expect(&rt, "refused");
    let ran = Cell::new(false);
    let answer = clone.apply_values_mut(|values| clear_first(values, &ran));
    let is_any_refused = is_refused(&rt, "apply_values_mut", answer);
    assert_text::value(ran.get(), !is_any_refused).expect(&rt, "whether the change ran");
    if is_any_refused {
        let left = array_text(&clone);
        assert_text::text(left, "true (false)").expect(&rt, "apply_values_mut, refused");
        let answer = clone.apply_values_mut(|values| clear_first(values, &ran));
        answer.expect(&rt, "apply_values_mut again");
    }
    assert_text::text(array_text(&clone), "false (false)").expect(&rt, "the clone");
    drop(clone);
    assert_text::text(array_text(&array), "true (false)").expect(&rt, "the array");
    drop(array);
    end(is_any_refused)
}

/// Creates an array of a false slot and a null, and gives it other values.
fn with_values(alloc: Global) -> Result<BooleanArray, Error> {
    let values = Bitmap::from_slice(alloc, [true, false].as_slice())?;
    let array = BooleanArray::from(alloc, [Some(false), None].as_slice())?;
    if array.len() != values.len() {
        return Ok(array);
    }
    array.with_values(values)
}

/// Creates a builder and freezes it.
fn frozen(alloc: Global) -> Result<BooleanArray, Error> {
    MutableBooleanArray::from(alloc, PAIR.as_slice())?.freeze()
}

#[test]
fn arrays_and_builders_are_created(rt: HostRuntime) -> Result<(), Fail> {
    let alloc = rt.alloc();
    let builder = MutableBooleanArray::from(alloc, PAIR.as_slice()).expect(&rt, "refused");
    let array = BooleanArray::from(alloc, PAIR.as_slice()).expect(&rt, "refused");
    let is_refused = results! { &rt;
        array_text: BooleanArray::from_slice(alloc, [true, false].as_slice()) => "true false";
        array_text: BooleanArray::from(alloc, PAIR.as_slice()) => "true (false)";
        array_text: BooleanArray::from_iter(alloc, PAIR.into_iter()) => "true (false)";
        array_text: BooleanArray::new_empty(alloc, DataType::Boolean) => "";
        array_text: BooleanArray::new_null(alloc, DataType::Boolean, 2) => "(false) (false)";
        array_text: with_values(alloc) => "true (false)";
        array_text: frozen(alloc) => "true (false)";
        array_text: array.clone() => "true (false)";
        builder_text: MutableBooleanArray::with_capacity(alloc, 100) => "";
        builder_text: MutableBooleanArray::from_slice(alloc, [true, false].as_slice()) => "true false";
        builder_text: MutableBooleanArray::from(alloc, PAIR.as_slice()) => "true (false)";
        builder_text: MutableBooleanArray::from_iter(alloc, PAIR.into_iter()) => "true (false)";
        builder_text: builder.clone() => "true (false)";
    };
    drop(array);
    drop(builder);
    end(is_refused)
}

#[test]
fn more_slots_than_memory_holds_are_refused(rt: HostRuntime) {
    let nulls = BooleanArray::new_null(rt.alloc(), DataType::Boolean, usize::MAX);
    check_refusal(&rt, "new_null", nulls);
    let room = MutableBooleanArray::with_capacity(rt.alloc(), usize::MAX);
    check_refusal(&rt, "with_capacity", room);
}

#[test]
fn pushes_into_room_need_no_memory(rt: HostRuntime) {
    pushes! { &rt, bits: MutableBooleanArray::with_capacity(rt.alloc(), 100);
        bits.reserve(0) => 100 of bits.push(Some(true));
        bits.push(None) => 0 of bits.push(None);
        bits.reserve(200) => 200 of bits.push(None);
    }
}
