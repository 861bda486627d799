//! Kernels of groups, hashes and extremes, which have a function for each kind of array whose values have an order.
ghost use Rattle.std.specs.Prelude.{◌≡◌, length};

use crate::case::Case;
use crate::integers::{Integer, run_group_sum};
use crate::items::Width;
use crate::select::SelectKind;
use dethrugn::array::{BinaryArray, BooleanArray, PrimitiveArray, UInt64Array, Utf8Array};
use dethrugn::compute::aggregate::{
    group_max_binary, group_max_boolean, group_max_primitive, group_max_utf8, group_min_binary,
    group_min_boolean, group_min_primitive, group_min_utf8, max_binary, max_boolean, max_primitive,
    max_string, min_binary, min_boolean, min_primitive, min_string,
};
use dethrugn::compute::comparison::ordered::OrderedArray;
use dethrugn::compute::group::{Groups, group_binary, group_boolean, group_primitive, group_utf8};
use dethrugn::compute::hash::{hash_binary, hash_boolean, hash_primitive, hash_utf8};
use dethrugn::error::Error;
use std::alloc::Global;
use std::io;

/// An array whose values have an order and a hash.
pub trait OrderedKind: SelectKind + OrderedArray {
    /// Returns the groups of equal slots.
    fn group(&self, alloc: Global) -> Result<Groups, Error>;

    /// Returns the hashes of slots.
    fn hash(&self, alloc: Global) -> Result<UInt64Array, Error>;

    /// Runs a kernel on the slots of the first operand, or on groups of those of the second.
    fn extremes(case: &Case<'_, Self>, groups: &Groups) -> io::Result<()>
        requires { length groups.now.indices ≡ length (Self.column case.now.rhs).rows };
}

impl<T: Integer> OrderedKind for PrimitiveArray<T> {
    fn group(&self, alloc: Global) -> Result<Groups, Error> {
        group_primitive(alloc, self)
    }

    fn hash(&self, alloc: Global) -> Result<UInt64Array, Error> {
        hash_primitive(alloc, self)
    }

    fn extremes(case: &Case<'_, Self>, groups: &Groups) -> io::Result<()> {
        match case.kernel {
            "min" => case.show(Ok(min_primitive(&case.lhs))),
            "max" => case.show(Ok(max_primitive(&case.lhs))),
            "group_min" => case.show(group_min_primitive(case.rt.alloc(), &case.rhs, groups)),
            "group_max" => case.show(group_max_primitive(case.rt.alloc(), &case.rhs, groups)),
            _ => run_group_sum(case, groups),
        }
    }
}

impl OrderedKind for BooleanArray {
    fn group(&self, alloc: Global) -> Result<Groups, Error> {
        group_boolean(alloc, self)
    }

    fn hash(&self, alloc: Global) -> Result<UInt64Array, Error> {
        hash_boolean(alloc, self)
    }

    fn extremes(case: &Case<'_, Self>, groups: &Groups) -> io::Result<()> {
        match case.kernel {
            "min" => case.show(Ok(min_boolean(&case.lhs))),
            "max" => case.show(Ok(max_boolean(&case.lhs))),
            "group_min" => case.show(group_min_boolean(case.rt.alloc(), &case.rhs, groups)),
            "group_max" => case.show(group_max_boolean(case.rt.alloc(), &case.rhs, groups)),
            _ => case.refuse(),
        }
    }
}

impl<O: Width> OrderedKind for BinaryArray<O> {
    fn group(&self, alloc: Global) -> Result<Groups, Error> {
        group_binary(alloc, self)
    }

    fn hash(&self, alloc: Global) -> Result<UInt64Array, Error> {
        hash_binary(alloc, self)
    }

    fn extremes(case: &Case<'_, Self>, groups: &Groups) -> io::Result<()> {
        match case.kernel {
            "min" => case.show(Ok(min_binary(&case.lhs))),
            "max" => case.show(Ok(max_binary(&case.lhs))),
            "group_min" => case.show(group_min_binary(case.rt.alloc(), &case.rhs, groups)),
            "group_max" => case.show(group_max_binary(case.rt.alloc(), &case.rhs, groups)),
            _ => case.refuse(),
        }
    }
}

impl<O: Width> OrderedKind for Utf8Array<O> {
    fn group(&self, alloc: Global) -> Result<Groups, Error> {
        group_utf8(alloc, self)
    }

    fn hash(&self, alloc: Global) -> Result<UInt64Array, Error> {
        hash_utf8(alloc, self)
    }

    fn extremes(case: &Case<'_, Self>, groups: &Groups) -> io::Result<()> {
        match case.kernel {
            "min" => case.show(Ok(min_string(&case.lhs))),
            "max" => case.show(Ok(max_string(&case.lhs))),
            "group_min" => case.show(group_min_utf8(case.rt.alloc(), &case.rhs, groups)),
            "group_max" => case.show(group_max_utf8(case.rt.alloc(), &case.rhs, groups)),
            _ => case.refuse(),
        }
    }
}
