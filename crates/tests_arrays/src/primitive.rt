//! Arrays and builders of numbers, of which those of `i256` have two parts. What they hold was worked out by hand.
mod arrays;
mod builders;
mod column_laws;
mod equality;
mod extend_from_array;
mod named;
mod parts;
mod ranges;

use arrow_memory::buffer::Buffer;
use arrow_primitive::{MutablePrimitiveArray, PrimitiveArray};
use arrow_types::data_type::DataType;
use arrow_types::error::Error;
use arrow_types::native_type::{NativeType, i256};
use std::fmt::Debug;
use std::process::Abort;
use tests_support::{Text, assert_text, buffer_of, row};

/// Names a case and the type with which it is tried.
fn case_of<T: NativeType>(case: &str) -> Text {
    Text::of(format_args!("{case} ({:?})", T::PRIMITIVE))
}

/// Compares all reads of an array with the default type, stored values and marks, and drops it.
fn check<T: NativeType + Debug>(
    rt: &impl Abort,
    case: &str,
    answer: Result<PrimitiveArray<T>, Error>,
    values: &[T],
    mask: &str,
) {
    let name = case_of::<T>(case);
    let case = name.as_str();
    let array = answer.expect(rt, case);
    let data_type = T::PRIMITIVE.default_data_type();
    assert_text::value(array.data_type(), &data_type).expect(rt, case);
    drop(data_type);
    assert_text::value(array.values().as_slice(), values).expect(rt, case);
    assert_text::mask(array.validity(), mask).expect(rt, case);
    let marks = mask.as_bytes();
    let nulls = marks.iter().filter(|mark| **mark == b'0').count();
    let came = (array.len(), array.is_empty(), array.null_count());
    assert_text::value(came, (values.len(), values.is_empty(), nulls)).expect(rt, case);
    let (mut slots, mut stored) = (array.iter(), array.values_iter());
    assert!(rt; array.len() == values.len());
    for i in 0..values.len() {
        let is_valid = marks.get(i) != Some(&b'0');
        let slot = if is_valid { Some(values[i]) } else { None };
        let came = (
            array.is_valid(i),
            array.is_null(i),
            array.get(i),
            array.value(i),
        );
        let expected = (is_valid, !is_valid, slot, values[i]);
        assert_text::value((i, came), (i, expected)).expect(rt, case);
        let expected = (i, Some(slot.as_ref()), Some(&values[i]));
        assert_text::value((i, slots.next(), stored.next()), expected).expect(rt, case);
    }
    assert_text::value((slots.next(), stored.next()), (None, None)).expect(rt, case);
    drop(array);
}

/// Compares all reads of a builder with the default type, stored values and marks, and drops it.
fn check_builder<T: NativeType + Debug>(
    rt: &impl Abort,
    case: &str,
    answer: Result<MutablePrimitiveArray<T>, Error>,
    values: &[T],
    mask: &str,
) {
    let name = case_of::<T>(case);
    let case = name.as_str();
    let builder = answer.expect(rt, case);
    let data_type = T::PRIMITIVE.default_data_type();
    assert_text::value(builder.data_type(), &data_type).expect(rt, case);
    drop(data_type);
    assert_text::value(builder.values().as_slice(), values).expect(rt, case);
    assert_text::growing_mask(builder.validity(), mask).expect(rt, case);
    let marks = mask.as_bytes();
    let nulls = marks.iter().filter(|mark| **mark == b'0').count();
    let came = (builder.len(), builder.is_empty(), builder.null_count());
    assert_text::value(came, (values.len(), values.is_empty(), nulls)).expect(rt, case);
    let (mut slots, mut stored) = (builder.iter(), builder.values_iter());
    assert!(rt; builder.len() == values.len());
    for i in 0..values.len() {
        let is_valid = marks.get(i) != Some(&b'0');
        let slot = if is_valid { Some(values[i]) } else { None };
        let came = (i, builder.get(i), builder.is_null(i));
        assert_text::value(came, (i, slot, !is_valid)).expect(rt, case);
        let expected = (i, Some(slot.as_ref()), Some(&values[i]));
        assert_text::value((i, slots.next(), stored.next()), expected).expect(rt, case);
    }
    assert_text::value((slots.next(), stored.next()), (None, None)).expect(rt, case);
    drop(builder);
}

/// Creates a builder of these values, without a mask.
fn growing<T: NativeType>(
    rt: &(impl Abort + AllocGlobal),
    values: &[T],
) -> MutablePrimitiveArray<T> {
    MutablePrimitiveArray::from_slice(rt.alloc(), values).expect(rt, "memory")
}

/// Creates a buffer of these values.
fn buffer<T: NativeType>(rt: &(impl Abort + AllocGlobal), values: &[T]) -> Buffer<T> {
    buffer_of(rt.alloc(), values).expect(rt, "memory")
}

/// Stored values and marks; `none` means that no mask is held.
type Stored = (&'static [i64], &'static str);
