//! Kernels of integers.
ghost use Rattle.std.specs.Prelude.{◌≡◌, length};

use crate::case::Case;
use crate::ordered::run_ordered;
use dethrugn::array::PrimitiveArray;
use dethrugn::compute::aggregate::{group_sum_primitive, group_sum_wide, sum_primitive, sum_wide};
use dethrugn::compute::arithmetics::basic;
use dethrugn::compute::cast::{
    WrapNumber, primitive_as_primitive, primitive_to_binary, primitive_to_boolean,
    primitive_to_primitive, primitive_to_utf8,
};
use dethrugn::compute::group::Groups;
use dethrugn::types::PrimitiveType;
use std::fmt::Debug;
use std::hash::Hash;
use std::io;

/// An integer.
pub trait Integer: WrapNumber + Hash + Debug + Drop {}

impl Integer for i8 {}

impl Integer for i16 {}

impl Integer for i32 {}

impl Integer for i64 {}

impl Integer for i128 {}

impl Integer for u8 {}

impl Integer for u16 {}

impl Integer for u32 {}

impl Integer for u64 {}

/// Converts the first operand: `to_..` to a null where a number does not fit, `as_..` wraps.
fn cast<I: Integer, O: Integer>(case: &Case<'_, PrimitiveArray<I>>) -> io::Result<()> {
    let (alloc, lhs) = (case.rt.alloc(), &case.lhs);
    let data_type = O::PRIMITIVE.default_data_type();
    if case.kernel.starts_with("as_") {
        return case.show(primitive_as_primitive::<I, O>(alloc, lhs, data_type));
    }
    case.show(primitive_to_primitive::<I, O>(alloc, lhs, data_type))
}

/// Runs a kernel that converts integers.
fn run_casts<T: Integer>(case: &Case<'_, PrimitiveArray<T>>, scalar: T) -> io::Result<()> {
    let (alloc, lhs) = (case.rt.alloc(), &case.lhs);
    match case.kernel {
        "to_i8" | "as_i8" => cast::<T, i8>(case),
        "to_i16" | "as_i16" => cast::<T, i16>(case),
        "to_i32" | "as_i32" => cast::<T, i32>(case),
        "to_i64" | "as_i64" => cast::<T, i64>(case),
        "to_i128" | "as_i128" => cast::<T, i128>(case),
        "to_u8" | "as_u8" => cast::<T, u8>(case),
        "to_u16" | "as_u16" => cast::<T, u16>(case),
        "to_u32" | "as_u32" => cast::<T, u32>(case),
        "to_u64" | "as_u64" => cast::<T, u64>(case),
        "to_boolean" => case.show(primitive_to_boolean(alloc, lhs)),
        "to_utf8" => case.show(primitive_to_utf8::<T, i32>(alloc, lhs)),
        "to_binary" => case.show(primitive_to_binary::<T, i64>(alloc, lhs)),
        _ => run_ordered(case, scalar),
    }
}

/// Sums groups of slots.
pub fn run_group_sum<T: Integer>(
    case: &Case<'_, PrimitiveArray<T>>,
    groups: &Groups,
) -> io::Result<()>
    requires { length groups.now.indices ≡ length case.now.rhs.rows }
{
    let alloc = case.rt.alloc();
    match case.kernel {
        "group_sum" => case.show(group_sum_primitive(alloc, &case.rhs, groups)),
        "group_sum_wide" => {
            let data_type = PrimitiveType::Int128.default_data_type();
            case.show(group_sum_wide(alloc, &case.rhs, groups, data_type))
        }
        _ => case.refuse(),
    }
}

/// Divides, if no valid slot is divided by zero.
fn run_division<T: Integer>(case: &Case<'_, PrimitiveArray<T>>, scalar: T) -> io::Result<()> {
    let (alloc, lhs, rhs) = (case.rt.alloc(), &case.lhs, &case.rhs);
    if rhs.len() != lhs.len() {
        return case.refuse();
    }
    let divides = !basic::has_zero_divisor(lhs, rhs);
    match case.kernel {
        "div" if divides => case.show(basic::div(alloc, lhs, rhs)),
        "rem" if divides => case.show(basic::rem(alloc, lhs, rhs)),
        "div_scalar" if scalar.to_i128() != 0 => case.show(basic::div_scalar(alloc, lhs, scalar)),
        "rem_scalar" if scalar.to_i128() != 0 => case.show(basic::rem_scalar(alloc, lhs, scalar)),
        _ => case.refuse(),
    }
}

/// Runs a kernel of integers and one integer.
fn run_with_scalar<T: Integer>(case: &Case<'_, PrimitiveArray<T>>, scalar: T) -> io::Result<()> {
    let (alloc, lhs) = (case.rt.alloc(), &case.lhs);
    match case.kernel {
        "add_scalar" => case.show(basic::add_scalar(alloc, lhs, scalar)),
        "sub_scalar" => case.show(basic::sub_scalar(alloc, lhs, scalar)),
        "mul_scalar" => case.show(basic::mul_scalar(alloc, lhs, scalar)),
        "wrapping_add_scalar" => case.show(basic::wrapping_add_scalar(alloc, lhs, scalar)),
        "wrapping_sub_scalar" => case.show(basic::wrapping_sub_scalar(alloc, lhs, scalar)),
        "wrapping_mul_scalar" => case.show(basic::wrapping_mul_scalar(alloc, lhs, scalar)),
        "checked_add_scalar" => case.show(basic::checked_add_scalar(alloc, lhs, scalar)),
        "checked_sub_scalar" => case.show(basic::checked_sub_scalar(alloc, lhs, scalar)),
        "checked_mul_scalar" => case.show(basic::checked_mul_scalar(alloc, lhs, scalar)),
        "checked_div_scalar" => case.show(basic::checked_div_scalar(alloc, lhs, scalar)),
        "checked_rem_scalar" => case.show(basic::checked_rem_scalar(alloc, lhs, scalar)),
        "saturating_add_scalar" => case.show(basic::saturating_add_scalar(alloc, lhs, scalar)),
        "saturating_sub_scalar" => case.show(basic::saturating_sub_scalar(alloc, lhs, scalar)),
        "saturating_mul_scalar" => case.show(basic::saturating_mul_scalar(alloc, lhs, scalar)),
        _ => run_casts(case, scalar),
    }
}

/// Runs a kernel of integers.
pub fn run_integers<T: Integer>(case: &Case<'_, PrimitiveArray<T>>, scalar: T) -> io::Result<()> {
    let (alloc, lhs, rhs) = (case.rt.alloc(), &case.lhs, &case.rhs);
    if rhs.len() != lhs.len() {
        return case.refuse();
    }
    match case.kernel {
        "add" => case.show(basic::add(alloc, lhs, rhs)),
        "sub" => case.show(basic::sub(alloc, lhs, rhs)),
        "mul" => case.show(basic::mul(alloc, lhs, rhs)),
        "wrapping_add" => case.show(basic::wrapping_add(alloc, lhs, rhs)),
        "wrapping_sub" => case.show(basic::wrapping_sub(alloc, lhs, rhs)),
        "wrapping_mul" => case.show(basic::wrapping_mul(alloc, lhs, rhs)),
        "div" | "rem" | "div_scalar" | "rem_scalar" => run_division(case, scalar),
        "checked_add" => case.show(basic::checked_add(alloc, lhs, rhs)),
        "checked_sub" => case.show(basic::checked_sub(alloc, lhs, rhs)),
        "checked_mul" => case.show(basic::checked_mul(alloc, lhs, rhs)),
        "checked_div" => case.show(basic::checked_div(alloc, lhs, rhs)),
        "checked_rem" => case.show(basic::checked_rem(alloc, lhs, rhs)),
        "saturating_add" => case.show(basic::saturating_add(alloc, lhs, rhs)),
        "saturating_sub" => case.show(basic::saturating_sub(alloc, lhs, rhs)),
        "saturating_mul" => case.show(basic::saturating_mul(alloc, lhs, rhs)),
        "negate" => case.show(basic::negate(alloc, lhs)),
        "checked_negate" => case.show(basic::checked_negate(alloc, lhs)),
        "sum" => case.show(sum_primitive(lhs)),
        "sum_wide" => case.show(sum_wide(lhs)),
        _ => run_with_scalar(case, scalar),
    }
}
