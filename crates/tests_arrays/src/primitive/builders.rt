//! Builders: how they are made, grow and shrink, when they hold a mask, and what they freeze.
ghost use Rattle.std.specs.Prelude.{◌≡◌, vec_len};

use super::*;
use arrow_column::LendValues;
use tests_support::growing_mask;

/// Calls each, which has to succeed.
macro_rules! append {
    ($builder:ident, $rt:expr; $($call:ident($($argument:expr),*);)*) => {
        $($builder.$call($($argument),*).expect($rt, stringify!($call));)*
    };
}

/// Compares what each constructor makes, of a valid slot or of nothing.
fn check_constructors<T: NativeType + Debug>(
    rt: &(impl Abort + AllocGlobal),
    slot: &[Option<T>],
    value: &[T],
) {
    let alloc = rt.alloc();
    let builder = MutablePrimitiveArray::<T>::default(alloc);
    check_builder(rt, "default", Ok(builder), &[], "none");
    let data_type = T::PRIMITIVE.default_data_type();
    let builder = MutablePrimitiveArray::<T>::from_data_type(alloc, data_type);
    let builder = builder.to(T::PRIMITIVE.default_data_type());
    check_builder(rt, "from_data_type, to", Ok(builder), &[], "none");
    let data_type = T::PRIMITIVE.default_data_type();
    let builder = MutablePrimitiveArray::<T>::with_capacity_from(alloc, 1, data_type);
    check_builder(rt, "with_capacity_from", builder, &[], "none");
    let builder = MutablePrimitiveArray::<T>::from_iter(alloc, slot.iter().copied());
    check_builder(rt, "from_iter", builder, value, "1");
    let builder = MutablePrimitiveArray::<T>::from(alloc, slot);
    check_builder(rt, "from", builder, value, "1");
    check_builder(rt, "from_slice", Ok(growing(rt, value)), value, "none");
    check_builder(rt, "no value", Ok(growing::<T>(rt, &[])), &[], "none");
}

#[test]
fn builders_of_slots_have_a_mask(rt: HostRuntime) {
    check_constructors::<i32>(&rt, &[Some(1)], &[1]);
    check_constructors::<i64>(&rt, &[Some(1)], &[1]);
    check_constructors(&rt, &[Some(i256(0, 1))], &[i256(0, 1)]);
}

/// Returns the values as they are.
fn same_values<T: NativeType>(values: Vec<T>) -> Vec<T>
    ensures { vec_len result ≡ vec_len values }
{
    values
}

/// Compares a builder to which slots are appended by each call, and one of which is popped, once frozen.
fn check_growth<T: NativeType + Debug>(
    rt: &(impl Abort + AllocGlobal),
    first: &[Option<T>],
    null: &[Option<T>],
    value: &[T],
    expected: &[T],
) {
    let builder = MutablePrimitiveArray::<T>::from(rt.alloc(), first);
    let mut builder = builder.expect(rt, "memory");
    append! { builder, rt;
        push(value.first().copied());
        try_push(None);
        push_null();
        extend(null.iter().copied());
        try_extend(null.iter().copied());
        extend_values(value.iter().copied());
        extend_from_slice(value);
        extend_constant(2, value.first().copied());
    }
    let popped = builder.pop();
    let name = case_of::<T>("pop");
    assert_text::value(popped, value.first().copied()).expect(rt, name.as_str());
    builder.apply_values(same_values::<T>);
    check(rt, "frozen", builder.freeze(), expected, "110000111");
}

#[test]
fn builders_with_a_mask_grow_and_freeze(rt: HostRuntime) {
    check_growth::<i32>(&rt, &[Some(2)], &[None], &[1], &[2, 1, 0, 0, 0, 0, 1, 1, 1]);
    let (first, value, zero) = (i256(1, 2), i256(0, 1), i256(0, 0));
    let expected = [first, value, zero, zero, zero, zero, value, value, value];
    check_growth(&rt, &[Some(first)], &[None], &[value], expected.as_slice());
}

#[test]
fn the_first_null_makes_a_mask(rt: HostRuntime) {
    let mut builder = MutablePrimitiveArray::<i64>::default(rt.alloc());
    append! { builder, &rt;
        extend_values([1].into_iter());
        extend_from_slice([2].as_slice());
        extend_constant(1, Some(3));
        extend([Some(4), None].into_iter());
        try_extend([Some(6)].into_iter());
        extend_constant(2, None);
        extend_from_slice([9].as_slice());
    }
    let expected = &[1, 2, 3, 4, 0, 6, 0, 0, 9];
    check_builder(&rt, "by extending", Ok(builder), expected, "111101001");
    let mut builder = MutablePrimitiveArray::<i64>::new(rt.alloc());
    for slot in [Some(1), None, Some(2)] {
        builder.push(slot).expect(&rt, "memory");
    }
    check_builder(&rt, "by push", builder.clone(), &[1, 0, 2], "101");
    check(&rt, "by push, frozen", builder.freeze(), &[1, 0, 2], "101");
}

#[test]
fn set_makes_a_mask_for_a_null_which_freeze_drops_without_one(rt: HostRuntime) {
    let mut builder = growing::<i64>(&rt, &[1, 2, 3]);
    assert!(rt; builder.len() == 3);
    builder.set(1, None).expect(&rt, "memory");
    check_builder(&rt, "a null", builder.clone(), &[1, 0, 3], "101");
    assert!(rt; builder.len() == 3);
    builder.set(1, Some(7)).expect(&rt, "memory");
    check_builder(&rt, "overwritten", Ok(builder), &[1, 7, 3], "111");
    let mut builder = growing::<i64>(&rt, &[1]);
    builder.extend_constant(0, None).expect(&rt, "memory");
    check_builder(&rt, "no null appended", builder.clone(), &[1], "1");
    check(&rt, "no null appended", builder.freeze(), &[1], "none");
    let mut builder = MutablePrimitiveArray::<i64>::new(rt.alloc());
    builder.push(None).expect(&rt, "memory");
    assert!(rt; builder.len() == 1);
    builder.set(0, Some(7)).expect(&rt, "memory");
    check_builder(&rt, "the null overwritten", builder.clone(), &[7], "1");
    check(
        &rt,
        "a mask without a null is dropped",
        builder.freeze(),
        &[7],
        "none",
    );
}

/// Compares the copy of a builder of a value that replaced a null, and of another builder's value.
fn check_copy<T: NativeType + Debug>(
    rt: &(impl Abort + AllocGlobal),
    null: &[Option<T>],
    values: &[T],
) {
    assert!(rt; values.len() == 2);
    let builder = MutablePrimitiveArray::<T>::from_iter(rt.alloc(), null.iter().copied());
    let mut builder = builder.expect(rt, "memory");
    assert!(rt; builder.len() == 1);
    builder.set(0, Some(values[0])).expect(rt, "memory");
    builder.reserve(9).expect(rt, "memory");
    builder.shrink_to_fit().expect(rt, "memory");
    let second = growing(rt, &values[1..]);
    builder.try_extend_from_self(&second).expect(rt, "memory");
    drop(second);
    let copy = builder.clone().expect(rt, "memory");
    drop(builder);
    let name = case_of::<T>("a capacity of at least 2");
    assert_text::value(copy.capacity().min(2), 2).expect(rt, name.as_str());
    check_builder(rt, "the clone", Ok(copy), values, "11");
}

#[test]
fn clones_have_the_slots_of_both_builders(rt: HostRuntime) {
    check_copy::<i32>(&rt, &[None], &[2, 1]);
    check_copy(&rt, &[None], &[i256(1, 2), i256(0, 1)]);
}

#[test]
fn pops_come_from_the_last_to_the_first(rt: HostRuntime) {
    let slots = [None, Some(7), None];
    let builder = MutablePrimitiveArray::<i64>::from(rt.alloc(), slots.as_slice());
    let mut builder = builder.expect(&rt, "memory");
    let popped = [builder.pop(), builder.pop(), builder.pop(), builder.pop()];
    check_builder(&rt, "after the pops", Ok(builder), &[], "");
    assert_text::value(popped, [None, Some(7), None, None]).expect(&rt, "of [_ 7 _]");
}

/// Reverses the values.
fn reversed(mut values: Vec<i64>) -> Vec<i64>
    ensures { vec_len result ≡ vec_len values }
{
    values.reverse();
    values
}

#[test]
fn values_are_changed_in_place(rt: HostRuntime) {
    let values = [1, 2, 3].to_vec(rt.alloc()).expect(&rt, "memory");
    let mut builder = MutablePrimitiveArray::<i64>::from_vec(values);
    builder.apply_values(reversed);
    assert_text::slots(builder.iter(), "[3 2 1]").expect(&rt, "apply_values");
    assert!(rt; builder.len() == 3);
    builder.values_mut_slice()[0] = 7;
    check_builder(&rt, "values_mut_slice", Ok(builder), &[7, 2, 1], "none");
}

#[test]
fn capacity_is_reserved_and_given_back(rt: HostRuntime) {
    let builder = MutablePrimitiveArray::<i64>::with_capacity(rt.alloc(), 1000);
    let mut builder = builder.expect(&rt, "memory");
    assert_text::value(builder.capacity().min(1000), 1000).expect(&rt, "with_capacity");
    builder.shrink_to_fit().expect(&rt, "memory");
    assert_text::value(builder.capacity().max(999), 999).expect(&rt, "shrink_to_fit");
    builder.reserve(1000).expect(&rt, "memory");
    assert_text::value(builder.capacity().min(1000), 1000).expect(&rt, "reserve");
    drop(builder);
}

/// A name, a slot after 1, and whether the two equal those of 1 and of a null that stores 9.
const SECONDS: &[(&str, Option<i64>, bool)] = &[
    ("a null that stores 0", None, true),
    ("9", Some(9), false),
];

#[test]
fn stored_values_of_nulls_are_not_compared(rt: HostRuntime) {
    for (index, (case, second, expected)) in SECONDS.iter().enumerate() {
        let slots = [Some(1), *second];
        let left = MutablePrimitiveArray::<i64>::from(rt.alloc(), slots.as_slice());
        let left = left.expect(&rt, "memory");
        let mask = growing_mask(rt.alloc(), "10").expect(&rt, "memory");
        let values = [1, 9].to_vec(rt.alloc()).expect(&rt, "memory");
        let right = MutablePrimitiveArray::<i64>::try_new(DataType::Int64, values, mask);
        let right = right.expect(&rt, "parts that fit");
        let are_equal = left == right;
        drop(right);
        drop(left);
        assert_text::value(are_equal, *expected).expect(&rt, row(*case, index).as_str());
    }
}
