//! Arrays and builders of booleans. Slots are written as texts of `t`, `f`, and `_` for a null; stored values and
//! marks as texts of `1` and `0`.
mod equality;
mod extend_from_array;
mod ranges;
mod slots;
mod true_count;

ghost use Rattle.std.specs.Prelude.{◌≡◌, length};

use arrow_boolean::{BooleanArray, MutableBooleanArray};
use arrow_memory::bitmap::{Bitmap, MutableBitmap};
use arrow_types::data_type::DataType;
use std::process::Abort;
use tests_support::{assert_text, frozen_mask, growing_mask, row};

/// Compares the slots, stored values and mask of an array with these texts.
fn check(rt: &impl Abort, case: &str, array: &BooleanArray, slots: &str, values: &str, mask: &str) {
    assert_text::bools(array.iter(), slots).expect(rt, case);
    assert_text::bools(array.into_iter(), slots).expect(rt, case);
    assert_text::marks(array.values_iter(), values).expect(rt, case);
    assert_text::mask(array.validity(), mask).expect(rt, case);
    assert_text::value(array.is_empty(), slots.is_empty()).expect(rt, case);
}

/// Compares the slots, stored values and mask of a builder with these texts.
fn check_builder(
    rt: &impl Abort,
    case: &str,
    builder: &MutableBooleanArray,
    slots: &str,
    values: &str,
    mask: &str,
) {
    assert_text::bools(builder.iter(), slots).expect(rt, case);
    assert_text::bools(builder.into_iter(), slots).expect(rt, case);
    assert_text::marks(builder.values_iter(), values).expect(rt, case);
    assert_text::growing_mask(builder.validity(), mask).expect(rt, case);
}

/// True, null, false.
const THREE: [Option<bool>; 3] = [Some(true), None, Some(false)];

#[test]
fn arrays_have_a_mask_only_for_nulls(rt: HostRuntime) {
    let valid = &[Some(true), Some(false)];
    let array = BooleanArray::from(rt.alloc(), valid).expect(&rt, "memory");
    check(&rt, "from, no null", &array, "tf", "10", "none");
    drop(array);
    let array = BooleanArray::from_slice(rt.alloc(), &[true, false]).expect(&rt, "memory");
    check(&rt, "from_slice", &array, "tf", "10", "none");
    drop(array);
    let array = BooleanArray::new_empty(rt.alloc(), DataType::Boolean).expect(&rt, "memory");
    check(&rt, "new_empty", &array, "", "", "none");
    drop(array);
    let array = BooleanArray::new_null(rt.alloc(), DataType::Boolean, 3).expect(&rt, "memory");
    check(&rt, "new_null", &array, "___", "000", "000");
    drop(array);
}

/// Creates the bitmap of a text.
fn bits(rt: &(impl Abort + AllocGlobal), text: &str) -> Bitmap {
    let marks = frozen_mask(rt.alloc(), text).expect(rt, "memory");
    marks.expect(rt, "marks")
}

/// Stored values and marks as texts; `none` for no mask.
type Stored = (&'static str, &'static str);

/// Creates an array of these parts.
fn array_of(rt: &(impl Abort + AllocGlobal), (values, mask): Stored) -> BooleanArray {
    let mask = frozen_mask(rt.alloc(), mask).expect(rt, "memory");
    let array = BooleanArray::try_new(DataType::Boolean, bits(rt, values), mask);
    array.expect(rt, "parts that fit")
}

/// Returns a mask.
fn same(mask: Bitmap) -> Bitmap
    ensures { length result ≡ length mask }
{
    mask
}

#[test]
fn masks_and_values_are_replaced(rt: HostRuntime) {
    let mut array = BooleanArray::new(DataType::Boolean, bits(&rt, "101"), None);
    let mask = bits(&rt, "011");
    assert!(rt; array.len() == mask.len());
    array.set_validity(Some(mask));
    check(&rt, "set_validity", &array, "_ft", "101", "011");
    array.apply_validity(same);
    check(&rt, "apply_validity", &array, "_ft", "101", "011");
    let array = array.with_validity(None);
    check(&rt, "with_validity", &array, "tft", "101", "none");
    drop(array);
    let array = BooleanArray::from(rt.alloc(), THREE.as_slice()).expect(&rt, "memory");
    let values = bits(&rt, "011");
    assert!(rt; array.len() == values.len());
    let mut replaced = array.with_values(values).expect(&rt, "memory");
    check(&rt, "with_values", &replaced, "f_t", "011", "101");
    check(&rt, "the first", &array, "t_f", "100", "101");
    drop(array);
    let values = bits(&rt, "110");
    assert!(rt; replaced.len() == values.len());
    replaced.set_values(values);
    check(&rt, "set_values", &replaced, "t_f", "110", "101");
    drop(replaced);
}

/// Reverses three marks; leaves others as they are.
fn reversed(marks: MutableBitmap) -> MutableBitmap
    ensures { length result ≡ length marks }
{
    let mut marks = marks;
    if marks.len() == 3 {
        let (first, last) = (marks.get(0), marks.get(2));
        marks.set(0, last);
        marks.set(2, first);
    }
    marks
}

/// A clone without a mask shares the values.
#[test]
fn changes_of_a_clone_leave_the_first_which_thaws_alone(rt: HostRuntime) {
    let first = BooleanArray::from(rt.alloc(), THREE.as_slice()).expect(&rt, "memory");
    let mut second = first.clone().expect(&rt, "memory");
    second.apply_values_mut(reversed).expect(&rt, "memory");
    check(&rt, "the clone", &second, "f_t", "001", "101");
    drop(second);
    check(&rt, "the first", &first, "t_f", "100", "101");
    let second = first.clone().expect(&rt, "memory").into_mut().left();
    drop(second.expect(&rt, "a shared array stays frozen"));
    let builder = first.into_mut().right().expect(&rt, "an array alone thaws");
    drop(builder);
    let first = BooleanArray::from_slice(rt.alloc(), &[true, false]).expect(&rt, "memory");
    let second = first.clone().expect(&rt, "memory").into_mut().left();
    let second = second.expect(&rt, "shared values without a mask stay frozen");
    check(&rt, "the clone without a mask", &second, "tf", "10", "none");
    drop(second);
    drop(first);
}

#[test]
fn builders_grow_slot_by_slot(rt: HostRuntime) {
    let mut builder = MutableBooleanArray::with_capacity(rt.alloc(), 1).expect(&rt, "memory");
    builder.reserve(100).expect(&rt, "memory");
    builder.try_push(Some(true)).expect(&rt, "memory");
    builder.push_null().expect(&rt, "memory");
    builder.shrink_to_fit().expect(&rt, "memory");
    check_builder(&rt, "pushed", &builder, "t_", "10", "10");
    let popped = [builder.pop(), builder.pop()];
    drop(builder);
    assert_text::value(popped, [None, Some(true)]).expect(&rt, "pop");
    let mut builder = MutableBooleanArray::new(rt.alloc());
    builder.push(None).expect(&rt, "memory");
    assert!(rt; builder.len() == 1);
    builder.set(0, Some(true)).expect(&rt, "memory");
    let array = builder.freeze().expect(&rt, "memory");
    check(
        &rt,
        "a null that is overwritten leaves its mask",
        &array,
        "t",
        "1",
        "1",
    );
    drop(array);
}

#[test]
fn builders_grow_by_iterators(rt: HostRuntime) {
    let builder = MutableBooleanArray::from_slice(rt.alloc(), &[false, true]);
    let mut builder = builder.expect(&rt, "memory");
    check_builder(&rt, "from_slice", &builder, "ft", "01", "none");
    let (values, slots, more) = ([true, false], [None], [Some(true)]);
    builder
        .extend_values(values.into_iter())
        .expect(&rt, "memory");
    builder.try_extend(slots.into_iter()).expect(&rt, "memory");
    builder.extend(more.into_iter()).expect(&rt, "memory");
    let copy = builder.clone().expect(&rt, "memory");
    drop(builder);
    check_builder(&rt, "the clone", &copy, "fttf_t", "011001", "111101");
    drop(copy);
    let none = MutableBooleanArray::default(rt.alloc());
    check_builder(&rt, "default", &none, "", "", "none");
    drop(none);
    let none = MutableBooleanArray::from_slice(rt.alloc(), &[]).expect(&rt, "memory");
    check_builder(&rt, "from_slice of none", &none, "", "", "none");
    drop(none);
}

/// A name, the slots of two builders, and those of the first after it took the second's.
#[rattlefmt::skip]
const JOINED: &[(&str, [Option<bool>; 2], [Option<bool>; 2], &str)] = &[
    ("a null in the second", [Some(true), Some(false)], [None, Some(true)], "tf_t"),
    ("a null in the first", [None, Some(true)], [Some(true), Some(false)], "_ttf"),
];

#[test]
fn builders_grow_by_builders(rt: HostRuntime) {
    for (index, (case, first, second, joined)) in JOINED.iter().enumerate() {
        let builder = MutableBooleanArray::from(rt.alloc(), first.as_slice());
        let mut builder = builder.expect(&rt, "memory");
        let other = MutableBooleanArray::from(rt.alloc(), second.as_slice()).expect(&rt, "memory");
        builder.try_extend_from_self(&other).expect(&rt, "memory");
        drop(other);
        assert_text::bools(builder.iter(), *joined).expect(&rt, row(*case, index).as_str());
        drop(builder);
    }
}

#[test]
fn owned_slots_of_a_slice_come_from_both_ends(rt: HostRuntime) {
    let array = BooleanArray::from_iter(rt.alloc(), THREE.into_iter()).expect(&rt, "memory");
    assert!(rt; array.len() == 3);
    let mut slots = array.sliced(1, 2).into_iter();
    let ends = [
        slots.next_back(),
        slots.next(),
        slots.next(),
        slots.next_back(),
    ];
    drop(slots);
    let expected = [Some(Some(false)), Some(None), None, None];
    assert_text::value(ends, expected).expect(&rt, "from both ends");
}
