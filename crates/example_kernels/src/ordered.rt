//! Kernels of arrays whose values have an order.
use crate::any::run_any;
use crate::case::Case;
use crate::extremes::OrderedKind;
use dethrugn::array::{PrimitiveArray, UInt64Array};
use dethrugn::compute::aggregate::{group_count, group_rows};
use dethrugn::compute::comparison::ordered::Scalar;
use dethrugn::compute::comparison::{
    eq, gt, gt_eq, gt_eq_scalar, gt_scalar, lt, lt_eq, lt_eq_scalar, lt_scalar,
};
use dethrugn::compute::group::Groups;
use dethrugn::compute::sort::{SortOptions, SortableArray, sort, sort_to_indices};
use dethrugn::error::Error;
use std::io;

/// Returns the limit of a sort: the first key, if it is valid and not negative.
fn limit(keys: &PrimitiveArray<i64>) -> Option<usize> {
    let key = if keys.is_empty() { None } else { keys.get(0) };
    usize::try_from(key?).ok()
}

/// Sorts the first operand, in the order that the name of the kernel says.
fn run_sort<A: OrderedKind + SortableArray>(case: &Case<'_, A>) -> io::Result<()> {
    let options = SortOptions {
        descending: case.kernel.contains("desc"),
        nulls_first: !case.kernel.contains("nulls_last"),
    };
    let (alloc, limit) = (case.rt.alloc(), limit(&case.keys));
    if case.kernel.starts_with("sort_to_indices") {
        case.show(sort_to_indices(alloc, &case.lhs, options, limit))
    } else {
        case.show(sort(alloc, &case.lhs, options, limit))
    }
}

/// Prints which slots of both operands have equal hashes.
fn run_hashes<A: OrderedKind>(case: &Case<'_, A>) -> io::Result<()> {
    let alloc = case.rt.alloc();
    let Ok(lhs) = case.lhs.hash(alloc) else {
        return case.refuse();
    };
    let Ok(rhs) = case.rhs.hash(alloc) else {
        return case.refuse();
    };
    if rhs.len() != lhs.len() {
        return case.refuse();
    }
    case.show(eq(alloc, &lhs, &rhs))
}

/// Prints the groups of rows that are equal in both operands.
fn run_refine<A: OrderedKind>(case: &Case<'_, A>, groups: &Groups) -> io::Result<()> {
    match case.rhs.group(case.rt.alloc()) {
        Ok(other) if other.indices().len() == groups.indices().len() => {
            case.show(groups.refine(case.rt.alloc(), &other))
        }
        _ => case.refuse(),
    }
}

/// Runs a kernel on the groups of the first operand and the slots of the second.
fn run_groups<A: OrderedKind>(case: &Case<'_, A>) -> io::Result<()> {
    let alloc = case.rt.alloc();
    let groups = match case.lhs.group(alloc) {
        Ok(groups) => groups,
        Err(error) => return case.show(Err::<Groups, Error>(error)),
    };
    if groups.indices().len() != case.rhs.len() {
        return case.refuse();
    }
    match case.kernel {
        "group" => case.show(Ok(groups)),
        "group_refine" => run_refine(case, &groups),
        "group_rows" => case.show(group_rows(alloc, &groups)),
        "group_count" => case.show(group_count(alloc, &case.rhs, &groups)),
        _ => A::extremes(case, &groups),
    }
}

/// Runs a kernel of arrays whose values have an order.
pub fn run_ordered<A: OrderedKind + SortableArray, S: Scalar<A>>(
    case: &Case<'_, A>,
    scalar: S,
) -> io::Result<()> {
    let (alloc, lhs, rhs) = (case.rt.alloc(), &case.lhs, &case.rhs);
    if rhs.len() != lhs.len() {
        return case.refuse();
    }
    match case.kernel {
        "lt" => case.show(lt(alloc, lhs, rhs)),
        "lt_eq" => case.show(lt_eq(alloc, lhs, rhs)),
        "gt" => case.show(gt(alloc, lhs, rhs)),
        "gt_eq" => case.show(gt_eq(alloc, lhs, rhs)),
        "lt_scalar" => case.show(lt_scalar(alloc, lhs, scalar)),
        "lt_eq_scalar" => case.show(lt_eq_scalar(alloc, lhs, scalar)),
        "gt_scalar" => case.show(gt_scalar(alloc, lhs, scalar)),
        "gt_eq_scalar" => case.show(gt_eq_scalar(alloc, lhs, scalar)),
        "equal_hashes" => run_hashes(case),
        kernel if kernel.starts_with("sort") => run_sort(case),
        kernel if kernel.starts_with("group") => run_groups(case),
        "min" | "max" => run_groups(case),
        _ => run_any(case, scalar),
    }
}
