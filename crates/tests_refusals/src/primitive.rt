//! Primitive arrays and their builders.
use crate::refusal::{changes, check_refusal, end, pushes, results};
use crate::slot_text;
use arrow_primitive::{MutablePrimitiveArray, PrimitiveArray};
use arrow_types::data_type::DataType;
use arrow_types::error::Error;
use std::alloc::Global;
use std::test::Fail;
use tests_support::{Text, assert_text};

/// Writes what an array stores.
pub(crate) fn array_text(array: &PrimitiveArray<i64>) -> Text {
    let mask = slot_text::mask(array.validity());
    slot_text::values(array.values().as_slice().iter(), mask)
}

/// Writes what a builder stores, and whether it has room for 101 slots.
fn builder_text(builder: &MutablePrimitiveArray<i64>) -> Text {
    let written = slot_text::values(
        builder.values().iter(),
        slot_text::growing_mask(builder.validity()),
    );
    if builder.capacity() < 101 {
        return written;
    }
    written.and(" with room", 10)
}

/// Creates a builder of one value.
fn seven(alloc: Global) -> Result<MutablePrimitiveArray<i64>, Error> {
    MutablePrimitiveArray::from_slice(alloc, [7].as_slice())
}

/// A value and a null.
const PAIR: [Option<i64>; 2] = [Some(7), None];

/// Appends the last slot of an array.
fn extend_from_last(
    builder: &mut MutablePrimitiveArray<i64>,
    array: &PrimitiveArray<i64>,
) -> Result<(), Error> {
    if array.len() == 0 {
        return Ok(());
    }
    builder.extend_from_array(array, array.len() - 1, 1)
}

/// Replaces the first slot by a null.
fn set_null(builder: &mut MutablePrimitiveArray<i64>) -> Result<(), Error> {
    if builder.len() == 0 {
        return Ok(());
    }
    builder.set(0, None)
}

/// The slots that extend a builder.
const SLOTS: [Option<i64>; 5] = [Some(1), None, Some(3), Some(4), Some(5)];

#[test]
fn builders_grow_or_are_left(rt: HostRuntime) -> Result<(), Fail> {
    let alloc = rt.alloc();
    let other = MutablePrimitiveArray::from(alloc, PAIR.as_slice()).expect(&rt, "refused");
    let array = PrimitiveArray::from(alloc, PAIR.as_slice()).expect(&rt, "refused");
    let is_refused = changes! { &rt, numbers: seven(alloc), builder_text, "7";
        numbers.push(Some(8)) => "7 8";
        numbers.push(None) => "7 (0)";
        numbers.try_push(None) => "7 (0)";
        numbers.push_null() => "7 (0)";
        numbers.extend_constant(2, Some(8)) => "7 8 8";
        numbers.extend_constant(2, None) => "7 (0) (0)";
        numbers.extend_from_slice([8, 9].as_slice()) => "7 8 9";
        numbers.try_extend_from_self(&other) => "7 7 (0)";
        extend_from_last(numbers, &array) => "7 (0)";
        set_null(numbers) => "(0)";
        numbers.reserve(100) => "7 with room";
        numbers.shrink_to_fit() => "7";
        numbers.extend(SLOTS.into_iter()) => "7 1 (0) 3 4 5", Extension;
        numbers.try_extend(SLOTS.into_iter()) => "7 1 (0) 3 4 5", Extension;
        numbers.extend_values([1, 0, 3, 4, 5].into_iter()) => "7 1 0 3 4 5", Extension;
    };
    drop(array);
    drop(other);
    end(is_refused)
}

#[test]
fn more_slots_than_memory_holds_are_refused(rt: HostRuntime) {
    let mut numbers = seven(rt.alloc()).expect(&rt, "refused");
    for count in [usize::MAX, usize::MAX - 8] {
        let case = Text::of(format_args!("{count} nulls"));
        check_refusal(&rt, case.as_str(), numbers.extend_constant(count, None));
        let case = Text::of(format_args!("{count} values"));
        check_refusal(&rt, case.as_str(), numbers.extend_constant(count, Some(1)));
        let case = Text::of(format_args!("reserve {count}"));
        check_refusal(&rt, case.as_str(), numbers.reserve(count));
    }
    assert_text::text(builder_text(&numbers), "7").expect(&rt, "too many slots, refused");
    drop(numbers);
}

/// Creates an array of a vector of two values.
fn from_vec(alloc: Global) -> Result<PrimitiveArray<i64>, Error> {
    PrimitiveArray::from_vec([7, 0].to_vec(alloc)?)
}

/// Creates a builder and freezes it.
fn frozen(alloc: Global) -> Result<PrimitiveArray<i64>, Error> {
    MutablePrimitiveArray::from(alloc, PAIR.as_slice())?.freeze()
}

#[test]
fn arrays_and_builders_are_created(rt: HostRuntime) -> Result<(), Fail> {
    let alloc = rt.alloc();
    let builder = MutablePrimitiveArray::from(alloc, PAIR.as_slice()).expect(&rt, "refused");
    let array = PrimitiveArray::from(alloc, PAIR.as_slice()).expect(&rt, "refused");
    let is_refused = results! { &rt;
        array_text: from_vec(alloc) => "7 0";
        array_text: PrimitiveArray::from_slice(alloc, [7, 0].as_slice()) => "7 0";
        array_text: PrimitiveArray::from(alloc, PAIR.as_slice()) => "7 (0)";
        array_text: PrimitiveArray::from_iter(alloc, PAIR.into_iter()) => "7 (0)";
        array_text: PrimitiveArray::from_values(alloc, [7, 0].into_iter()) => "7 0";
        array_text: PrimitiveArray::new_empty(alloc, DataType::Int64) => "";
        array_text: PrimitiveArray::new_null(alloc, DataType::Int64, 2) => "(0) (0)";
        array_text: PrimitiveArray::default(alloc) => "";
        array_text: frozen(alloc) => "7 (0)";
        array_text: array.clone() => "7 (0)";
        builder_text: MutablePrimitiveArray::from_slice(alloc, [7, 0].as_slice()) => "7 0";
        builder_text: MutablePrimitiveArray::from(alloc, PAIR.as_slice()) => "7 (0)";
        builder_text: MutablePrimitiveArray::from_iter(alloc, PAIR.into_iter()) => "7 (0)";
        builder_text: builder.clone() => "7 (0)";
        builder_text: MutablePrimitiveArray::with_capacity(alloc, 101) => " with room";
        builder_text: MutablePrimitiveArray::with_capacity_from(alloc, 101, DataType::Date64) => " with room";
    };
    drop(array);
    drop(builder);
    end(is_refused)
}

#[test]
fn pushes_into_room_need_no_memory(rt: HostRuntime) {
    pushes! { &rt, numbers: MutablePrimitiveArray::<i64>::with_capacity(rt.alloc(), 3);
        numbers.reserve(0) => 3 of numbers.push(Some(1));
        numbers.reserve(3) => 3 of numbers.push(Some(1));
        numbers.push_null() => 0 of numbers.push_null();
        numbers.reserve(100) => 100 of numbers.push_null();
    }
}
