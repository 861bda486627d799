//! Arithmetic of an array and a value, and of an array alone.
use crate::arrays::{check_numbers, stored_numbers};
use arrow_types::data_type::DataType;
use compute_arithmetics::basic::{
    add_scalar, checked_add_scalar, checked_div_scalar, checked_mul_scalar, checked_negate,
    checked_rem_scalar, checked_sub_scalar, div_scalar, mul_scalar, negate, rem_scalar,
    saturating_add_scalar, saturating_mul_scalar, saturating_sub_scalar, sub_scalar,
    wrapping_add_scalar, wrapping_mul_scalar, wrapping_negate, wrapping_sub_scalar,
};

const MASK: &str = "11011";

#[test]
fn slots_are_combined_with_a_value(rt: HostRuntime) {
    let alloc = rt.alloc();
    // The third slot is null.
    let lhs = stored_numbers::<i8>(&rt, DataType::Int8, &[100, -100, 7, -7, -128], MASK);
    macro_rules! compare_answer {
        ($kernel:ident($($value:expr)?), $slots:expr, $mask:expr) => {
            check_numbers(
                &rt,
                concat!(
                    "slots are combined with a value, checked slots are null where nothing fits: ",
                    stringify!($kernel)
                    $(, " by ", stringify!($value))?
                ),
                $kernel(alloc, &lhs $(, $value)?),
                Ok(($slots, $mask)),
                &DataType::Int8,
            );
        };
    }
    compare_answer!(add_scalar(100), "[-56 0 _ 93 -28]", MASK);
    compare_answer!(sub_scalar(100), "[0 56 _ -107 28]", MASK);
    compare_answer!(mul_scalar(-2), "[56 -56 _ 14 0]", MASK);
    compare_answer!(wrapping_add_scalar(100), "[-56 0 _ 93 -28]", MASK);
    compare_answer!(wrapping_sub_scalar(100), "[0 56 _ -107 28]", MASK);
    compare_answer!(wrapping_mul_scalar(-2), "[56 -56 _ 14 0]", MASK);
    compare_answer!(div_scalar(-1), "[-100 100 _ 7 -128]", MASK);
    compare_answer!(rem_scalar(3), "[1 -1 _ -1 -2]", MASK);
    compare_answer!(saturating_add_scalar(100), "[127 0 _ 93 -28]", MASK);
    compare_answer!(saturating_sub_scalar(100), "[0 -128 _ -107 -128]", MASK);
    compare_answer!(saturating_mul_scalar(-2), "[-128 127 _ 14 127]", MASK);
    // Checked slots are null where nothing fits, and by zero.
    compare_answer!(checked_add_scalar(100), "[_ 0 _ 93 -28]", "01011");
    compare_answer!(checked_sub_scalar(100), "[0 _ _ -107 _]", "10010");
    compare_answer!(checked_mul_scalar(-1), "[-100 100 _ 7 _]", "11010");
    compare_answer!(checked_div_scalar(-1), "[-100 100 _ 7 _]", "11010");
    compare_answer!(checked_div_scalar(0), "[_ _ _ _ _]", "00000");
    compare_answer!(checked_rem_scalar(100), "[0 0 _ -7 -28]", MASK);
    compare_answer!(checked_negate(), "[-100 100 _ 7 _]", "11010");
    compare_answer!(negate(), "[-100 100 _ 7 -128]", MASK);
    compare_answer!(wrapping_negate(), "[-100 100 _ 7 -128]", MASK);
    drop(lhs);
}
