//! Arrays of other integers, and arrays that are longer than a word of marks.
use crate::arrays::{check_numbers, check_value, stored_numbers};
use arrow_primitive::PrimitiveArray;
use arrow_types::data_type::DataType;
use compute_arithmetics::basic::{
    add_scalar, checked_add, checked_sub_scalar, saturating_sub_scalar,
};

#[test]
fn long_arrays_are_checked_by_words(rt: HostRuntime) {
    let alloc = rt.alloc();
    let mut numbers = Vec::new(alloc);
    for i in 0..130u64 {
        numbers.push(i).expect(&rt, "memory");
    }
    let array = PrimitiveArray::from_vec(numbers).expect(&rt, "memory");
    let less = checked_sub_scalar(alloc, &array, 65).expect(&rt, "memory");
    check_value(
        &rt,
        "the first are negative",
        (less.len(), less.null_count()),
        (130, 65),
    );
    assert!(rt; less.len() == array.len(), "as many differences as numbers");
    let twice = checked_add(alloc, &less, &array).expect(&rt, "memory");
    drop(array);
    check_value(
        &rt,
        "nulls stay",
        (twice.len(), twice.null_count()),
        (130, 65),
    );
    assert!(rt;
        less.len() == 130 && twice.len() == 130,
        "130 slots of each"
    );
    for i in 0..130 {
        let expected = if i < 65 {
            (None, None)
        } else {
            (Some(i as u64 - 65), Some(2 * i as u64 - 65))
        };
        check_value(
            &rt,
            "a slot",
            (i, (less.get(i), twice.get(i))),
            (i, expected),
        );
    }
    drop(less);
    drop(twice);
}

#[test]
fn ends_of_wide_types_are_met(rt: HostRuntime) {
    let decimals = DataType::Decimal(38, 0);
    let array = stored_numbers(
        &rt,
        DataType::Decimal(38, 0),
        &[i128::MAX, i128::MIN],
        "none",
    );
    let next = add_scalar(rt.alloc(), &array, 1);
    drop(array);
    check_numbers(
        &rt,
        "wrapped",
        next,
        Ok((
            "[-170141183460469231731687303715884105728 -170141183460469231731687303715884105727]",
            "none",
        )),
        &decimals,
    );
    drop(decimals);
    let array = stored_numbers(&rt, DataType::UInt64, &[0u64, u64::MAX], "none");
    let less = saturating_sub_scalar(rt.alloc(), &array, 1);
    drop(array);
    check_numbers(
        &rt,
        "not below zero",
        less,
        Ok(("[0 18446744073709551614]", "none")),
        &DataType::UInt64,
    );
}
