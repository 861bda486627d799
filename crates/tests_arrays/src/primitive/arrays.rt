//! Arrays: when they hold a mask, what slices count, and when their values may be written.
use super::*;

/// Compares what each constructor makes of a value and a null, which stores zero.
fn check_constructors<T: NativeType + Debug>(
    rt: &(impl Abort + AllocGlobal),
    slots: &[Option<T>],
    stored: &[T],
    zeros: &[T],
) {
    let alloc = rt.alloc();
    assert!(rt; slots.len() == 2 && stored.len() == 2);
    let (slot, value) = (&slots[..1], &stored[..1]);
    let array = PrimitiveArray::<T>::default(alloc);
    check(rt, "default", array, &[], "none");
    let array = PrimitiveArray::<T>::new_empty(alloc, T::PRIMITIVE.default_data_type());
    check(rt, "new_empty", array, &[], "none");
    let array = PrimitiveArray::<T>::new_null(alloc, T::PRIMITIVE.default_data_type(), 3);
    check(rt, "new_null", array, zeros, "000");
    let array = PrimitiveArray::<T>::from_iter(alloc, slots.iter().copied());
    check(rt, "from_iter", array, stored, "10");
    let array = PrimitiveArray::<T>::from(alloc, slots);
    check(rt, "from", array, stored, "10");
    let array = PrimitiveArray::<T>::from(alloc, slot);
    check(rt, "from, no null", array, value, "none");
    let array = PrimitiveArray::<T>::from_slice(alloc, value);
    check(rt, "from_slice", array, value, "none");
    let array = PrimitiveArray::<T>::from_vec(value.to_vec(alloc).expect(rt, "memory"));
    check(rt, "from_vec", array, value, "none");
    let array = PrimitiveArray::<T>::from_values(alloc, value.iter().copied());
    let array = array.expect(rt, "memory");
    let copy = array.clone();
    drop(array);
    check(rt, "from_values, cloned", copy, value, "none");
}

#[test]
fn arrays_have_a_mask_only_for_nulls(rt: HostRuntime) {
    check_constructors::<i32>(&rt, &[Some(1), None], &[1, 0], &[0, 0, 0]);
    check_constructors::<i64>(&rt, &[Some(1), None], &[1, 0], &[0, 0, 0]);
    let (value, zero) = (i256(0, 1), i256(0, 0));
    check_constructors(
        &rt,
        &[Some(value), None],
        &[value, zero],
        &[zero, zero, zero],
    );
}

#[test]
fn slices_count_their_own_nulls(rt: HostRuntime) {
    let slots = [None, Some(6), None, Some(8), None].as_slice();
    let array = PrimitiveArray::<i64>::from(rt.alloc(), slots);
    let mut array = array.expect(&rt, "memory");
    assert!(rt; array.len() == 5);
    array.slice(1, 3);
    check(&rt, "one null", array.clone(), &[6, 0, 8], "101");
    check(&rt, "no null", Ok(array.sliced(2, 1)), &[8], "1");
}

/// Writes at the first index, if there is one.
fn write_first(values: &mut [i64]) {
    if let Some(first) = values.first_mut() {
        *first = 7;
    }
}

#[test]
fn values_are_lent_once_no_clone_shares_them(rt: HostRuntime) {
    let mut first = growing::<i64>(&rt, &[1, 2, 3])
        .freeze()
        .expect(&rt, "memory");
    let second = first.clone();
    let is_lent = first.get_mut_values(write_first);
    assert_text::value(is_lent, false).expect(&rt, "beside a clone");
    check(&rt, "the clone", second, &[1, 2, 3], "none");
    assert_text::slots(first.iter(), "[1 2 3]").expect(&rt, "beside a clone");
    let is_lent = first.get_mut_values(write_first);
    assert_text::value(is_lent, true).expect(&rt, "alone");
    check(&rt, "alone", Ok(first), &[7, 2, 3], "none");
}
