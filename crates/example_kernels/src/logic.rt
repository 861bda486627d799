//! Kernels of booleans.
use crate::case::Case;
use crate::ordered::run_ordered;
use dethrugn::array::BooleanArray;
use dethrugn::compute::cast::{boolean_to_binary, boolean_to_primitive, boolean_to_utf8};
use dethrugn::compute::{boolean, boolean_kleene as kleene};
use dethrugn::datatypes::DataType;
use std::io;

/// Runs a kernel of booleans.
pub fn run_logic(case: &Case<'_, BooleanArray>) -> io::Result<()> {
    let (alloc, lhs, rhs) = (case.rt.alloc(), &case.lhs, &case.rhs);
    if rhs.len() != lhs.len() {
        return case.refuse();
    }
    let slot = if rhs.is_empty() { None } else { rhs.get(0) };
    match case.kernel {
        "and" => case.show(boolean::and(alloc, lhs, rhs)),
        "or" => case.show(boolean::or(alloc, lhs, rhs)),
        "not" => case.show(boolean::not(alloc, lhs)),
        "and_scalar" => case.show(boolean::and_scalar(alloc, lhs, slot)),
        "or_scalar" => case.show(boolean::or_scalar(alloc, lhs, slot)),
        "any" => case.show(Ok(boolean::any(lhs))),
        "all" => case.show(Ok(boolean::all(lhs))),
        "kleene_and" => case.show(kleene::and(alloc, lhs, rhs)),
        "kleene_or" => case.show(kleene::or(alloc, lhs, rhs)),
        "kleene_and_scalar" => case.show(kleene::and_scalar(alloc, lhs, slot)),
        "kleene_or_scalar" => case.show(kleene::or_scalar(alloc, lhs, slot)),
        "kleene_any" => case.show(Ok(kleene::any(lhs))),
        "kleene_all" => case.show(Ok(kleene::all(lhs))),
        "to_i8" => case.show(boolean_to_primitive::<i8>(alloc, lhs, DataType::Int8)),
        "to_u64" => case.show(boolean_to_primitive::<u64>(alloc, lhs, DataType::UInt64)),
        "to_utf8" => case.show(boolean_to_utf8::<i64>(alloc, lhs)),
        "to_binary" => case.show(boolean_to_binary::<i32>(alloc, lhs)),
        _ => run_ordered(case, slot.unwrap_or(false)),
    }
}
