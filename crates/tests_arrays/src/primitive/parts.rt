//! Parts of arrays and builders: taken out, put together again, and replaced.
ghost use Rattle.std.specs.Prelude.{◌≡◌, length};

use super::*;
use arrow_memory::bitmap::{Bitmap, MutableBitmap};

/// Numbers of two parts.
const WIDE: &[i256] = &[i256(0, 1), i256(1, 2), i256(1, 0)];

const OTHER_WIDE: &[i256] = &[i256(2, 0), i256(0, 5), i256(6, 6)];

/// Returns the mask as it is.
fn same_mask(mask: Bitmap) -> Bitmap
    ensures { length result ≡ length mask }
{
    mask
}

/// Writes nothing.
fn unwritten<T: NativeType>(_values: &mut [T]) {}

/// Compares an array that is made of its parts, and of other ones.
fn check_parts<T: NativeType + Debug>(rt: &(impl Abort + AllocGlobal), values: &[T], others: &[T]) {
    let array = PrimitiveArray::<T>::from_slice(rt.alloc(), values);
    let (data_type, stored, mask) = array.expect(rt, "memory").into_inner();
    let array = PrimitiveArray::<T>::try_new(data_type, stored, mask).expect(rt, "parts that fit");
    let (data_type, stored, mask) = array.into_inner();
    let array = PrimitiveArray::<T>::from_inner(data_type, stored, mask);
    let array = array.expect(rt, "parts that fit");
    check(rt, "try_new, from_inner", array.clone(), values, "none");
    let stored = buffer(rt, others);
    let mask = Bitmap::new_zeroed(rt.alloc(), 3).expect(rt, "memory");
    assert!(rt; array.len() == 3 && stored.len() == 3 && mask.len() == 3);
    let array = array.with_values(stored);
    assert!(rt; array.len() == mask.len());
    let array = array.with_validity(Some(mask));
    check(rt, "with_values", array.clone(), others, "000");
    let name = case_of::<T>("into_iter");
    assert_text::slots(array.into_iter(), "[_ _ _]").expect(rt, name.as_str());
}

/// Compares an array whose parts are replaced and changed in place, and slices of it.
fn check_replaced<T: NativeType + Debug>(
    rt: &(impl Abort + AllocGlobal),
    values: &[T],
    others: &[T],
) {
    let array = PrimitiveArray::<T>::from_slice(rt.alloc(), values);
    let mut array = array.expect(rt, "memory");
    let mask = Bitmap::from_slice(rt.alloc(), [false, true, true].as_slice());
    let (stored, mask) = (buffer(rt, others), mask.expect(rt, "memory"));
    assert!(rt; array.len() == 3 && stored.len() == 3 && mask.len() == 3);
    array.set_values(stored);
    assert!(rt; array.len() == mask.len());
    array.set_validity(Some(mask));
    array.apply_validity(same_mask);
    let is_lent = array.get_mut_values(unwritten::<T>);
    let name = case_of::<T>("get_mut_values of an array alone");
    assert_text::value(is_lent, true).expect(rt, name.as_str());
    check(rt, "set_values, set_validity", array.clone(), others, "011");
    assert!(rt; array.len() == 3);
    array.slice(0, 2);
    assert!(rt; array.len() == 2 && others.len() == 3);
    array.slice(1, 1);
    check(rt, "a slice of a slice", Ok(array), &others[1..2], "1");
}

#[test]
fn arrays_are_made_of_parts(rt: HostRuntime) {
    check_parts::<i32>(&rt, &[1, 2, 3], &[4, 5, 6]);
    check_parts::<i64>(&rt, &[1, 2, 3], &[4, 5, 6]);
    check_parts(&rt, WIDE, OTHER_WIDE);
    check_replaced::<i32>(&rt, &[1, 2, 3], &[4, 5, 6]);
    check_replaced::<i64>(&rt, &[1, 2, 3], &[4, 5, 6]);
    check_replaced(&rt, WIDE, OTHER_WIDE);
}

/// Compares the slots that are popped from builders that are made of parts, and with other ones.
fn check_built<T: NativeType + Debug>(rt: &(impl Abort + AllocGlobal), values: &[T], others: &[T]) {
    assert!(rt; values.len() == 3 && others.len() == 3);
    let rest = &others[..1];
    let builder = MutablePrimitiveArray::<T>::with_capacity(rt.alloc(), 2);
    let mut builder = builder.expect(rt, "memory");
    builder.try_push(Some(values[0])).expect(rt, "memory");
    builder.push_null().expect(rt, "memory");
    let (data_type, vec, mask) = builder.into_inner();
    let builder = MutablePrimitiveArray::<T>::try_new(data_type, vec, mask);
    let mut builder = builder.expect(rt, "parts that fit");
    let popped = (builder.pop(), builder.pop());
    drop(builder);
    let name = case_of::<T>("try_new");
    assert_text::value(popped, (None, Some(values[0]))).expect(rt, name.as_str());
    let vec = values.to_vec(rt.alloc()).expect(rt, "memory");
    let mut builder = MutablePrimitiveArray::<T>::from_vec(vec);
    let vec = others.to_vec(rt.alloc()).expect(rt, "memory");
    assert!(rt; builder.len() == vec.len());
    builder.set_values(vec);
    let mask = MutableBitmap::from_slice(rt.alloc(), [true, true, false].as_slice());
    let mask = mask.expect(rt, "memory");
    assert!(rt; builder.len() == mask.len());
    builder.set_validity(Some(mask));
    let popped = (builder.pop(), builder.pop());
    let name = case_of::<T>("set_values, set_validity");
    assert_text::value(popped, (None, Some(others[1]))).expect(rt, name.as_str());
    check_builder(rt, "the rest", Ok(builder), rest, "1");
}

#[test]
fn builders_are_made_of_parts(rt: HostRuntime) {
    check_built::<i32>(&rt, &[1, 2, 3], &[4, 5, 6]);
    check_built::<i64>(&rt, &[1, 2, 3], &[4, 5, 6]);
    check_built(&rt, WIDE, OTHER_WIDE);
}

/// Compares a builder of these values and a null with the array that it froze to, thawed.
fn check_thawed<T: NativeType + Debug>(rt: &(impl Abort + AllocGlobal), values: &[T], all: &[T]) {
    let mut builder = growing(rt, values);
    builder.push_null().expect(rt, "memory");
    let copy = builder.clone().expect(rt, "memory");
    let array = copy.freeze().expect(rt, "memory");
    let thawed = array.into_mut().right().expect(rt, "an array alone thaws");
    let are_equal = thawed == builder;
    drop(builder);
    let name = case_of::<T>("a builder and its thawed array");
    assert_text::value(are_equal, true).expect(rt, name.as_str());
    check_builder(rt, "thawed", Ok(thawed), all, "1110");
}

#[test]
fn an_array_alone_thaws(rt: HostRuntime) {
    check_thawed::<i32>(&rt, &[1, 2, 3], &[1, 2, 3, 0]);
    check_thawed::<i64>(&rt, &[1, 2, 3], &[1, 2, 3, 0]);
    check_thawed(&rt, WIDE, &[i256(0, 1), i256(1, 2), i256(1, 0), i256(0, 0)]);
}
