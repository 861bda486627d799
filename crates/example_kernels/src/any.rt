//! Kernels of arrays of every kind and type.
use crate::case::Case;
use crate::select::SelectKind;
use dethrugn::compute::aggregate::count_valid;
use dethrugn::compute::boolean::{is_not_null, is_null};
use dethrugn::compute::comparison::equal::EqualScalar;
use dethrugn::compute::comparison::{
    eq, eq_and_validity, eq_scalar, eq_scalar_and_validity, neq, neq_and_validity, neq_scalar,
    neq_scalar_and_validity,
};
use std::io;

/// Runs a kernel of arrays of every kind and type.
pub fn run_any<A: SelectKind, S: EqualScalar<A>>(case: &Case<'_, A>, scalar: S) -> io::Result<()> {
    let (alloc, lhs, rhs) = (case.rt.alloc(), &case.lhs, &case.rhs);
    if rhs.len() != lhs.len() {
        return case.refuse();
    }
    match case.kernel {
        "eq" => case.show(eq(alloc, lhs, rhs)),
        "neq" => case.show(neq(alloc, lhs, rhs)),
        "eq_and_validity" => case.show(eq_and_validity(alloc, lhs, rhs)),
        "neq_and_validity" => case.show(neq_and_validity(alloc, lhs, rhs)),
        "eq_scalar" => case.show(eq_scalar(alloc, lhs, scalar)),
        "neq_scalar" => case.show(neq_scalar(alloc, lhs, scalar)),
        "eq_scalar_and_validity" => case.show(eq_scalar_and_validity(alloc, lhs, scalar)),
        "neq_scalar_and_validity" => case.show(neq_scalar_and_validity(alloc, lhs, scalar)),
        "is_null" => case.show(is_null(alloc, lhs)),
        "is_not_null" => case.show(is_not_null(alloc, lhs)),
        "count_valid" => case.show(Ok(count_valid(lhs))),
        _ => A::select(case),
    }
}
