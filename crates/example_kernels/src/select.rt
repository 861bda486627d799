//! Kernels that select slots, which have a function for each kind of array.
use crate::case::Case;
use crate::items::{Width, from_bytes, from_texts};
use crate::kind::Kind;
use crate::read::Value;
use dethrugn::array::{BinaryArray, BooleanArray, PrimitiveArray, Utf8Array};
use dethrugn::compute::{concatenate, filter, if_then_else, nullif, take};
use std::io;

/// An array that kernels take which have a function for each kind.
pub trait SelectKind: Kind {
    /// Runs such a kernel.
    fn select(case: &Case<'_, Self>) -> io::Result<()>;
}

impl<T: Value> SelectKind for PrimitiveArray<T> {
    fn select(case: &Case<'_, Self>) -> io::Result<()> {
        let (alloc, lhs, rhs) = (case.rt.alloc(), &case.lhs, &case.rhs);
        if rhs.len() != lhs.len() {
            return case.refuse();
        }
        match case.kernel {
            "filter" if case.mask.len() == lhs.len() => case.show(filter::filter_primitive(
                alloc, lhs, &case.mask,
            )),
            "take" => case.show(take::primitive::take(alloc, lhs, &case.keys)),
            "take_keys" => case.show(take::take_primitive(
                alloc,
                lhs,
                case.keys.values().as_slice(),
            )),
            "concatenate" => case.show(concatenate::concatenate_primitive(alloc, &[lhs, rhs, lhs])),
            "if_then_else" if case.mask.len() == lhs.len() => {
                case.show(if_then_else::if_then_else_primitive(alloc, &case.mask, lhs, rhs))
            }
            "nullif" => case.show(nullif::nullif_primitive(alloc, lhs, rhs)),
            _ => case.refuse(),
        }
    }
}

impl SelectKind for BooleanArray {
    fn select(case: &Case<'_, Self>) -> io::Result<()> {
        let (alloc, lhs, rhs) = (case.rt.alloc(), &case.lhs, &case.rhs);
        if rhs.len() != lhs.len() {
            return case.refuse();
        }
        match case.kernel {
            "filter" if case.mask.len() == lhs.len() => case.show(filter::filter_boolean(
                alloc, lhs, &case.mask,
            )),
            "take" => case.show(take::boolean::take(alloc, lhs, &case.keys)),
            "take_keys" => case.show(take::take_boolean(alloc, lhs, case.keys.values().as_slice())),
            "concatenate" => case.show(concatenate::concatenate_boolean(alloc, &[lhs, rhs, lhs])),
            "if_then_else" if case.mask.len() == lhs.len() => {
                case.show(if_then_else::if_then_else_boolean(alloc, &case.mask, lhs, rhs))
            }
            "nullif" => case.show(nullif::nullif_boolean(alloc, lhs, rhs)),
            _ => case.refuse(),
        }
    }
}

impl<O: Width> SelectKind for BinaryArray<O> {
    fn select(case: &Case<'_, Self>) -> io::Result<()> {
        let (alloc, lhs, rhs) = (case.rt.alloc(), &case.lhs, &case.rhs);
        if rhs.len() != lhs.len() {
            return case.refuse();
        }
        match case.kernel {
            "filter" if case.mask.len() == lhs.len() => case.show(filter::filter_binary(
                alloc, lhs, &case.mask,
            )),
            "take" => case.show(take::binary::take(alloc, lhs, &case.keys)),
            "take_keys" => case.show(take::take_binary(alloc, lhs, case.keys.values().as_slice())),
            "concatenate" => case.show(concatenate::concatenate_items(alloc, &[lhs, rhs, lhs])),
            "if_then_else" if case.mask.len() == lhs.len() => {
                case.show(if_then_else::if_then_else_binary(alloc, &case.mask, lhs, rhs))
            }
            "nullif" => case.show(nullif::nullif_binary(alloc, lhs, rhs)),
            _ => from_bytes(case),
        }
    }
}

impl<O: Width> SelectKind for Utf8Array<O> {
    fn select(case: &Case<'_, Self>) -> io::Result<()> {
        let (alloc, lhs, rhs) = (case.rt.alloc(), &case.lhs, &case.rhs);
        if rhs.len() != lhs.len() {
            return case.refuse();
        }
        match case.kernel {
            "filter" if case.mask.len() == lhs.len() => case.show(filter::filter_utf8(
                alloc, lhs, &case.mask,
            )),
            "take" => case.show(take::utf8::take(alloc, lhs, &case.keys)),
            "take_keys" => case.show(take::take_utf8(alloc, lhs, case.keys.values().as_slice())),
            "concatenate" => case.show(concatenate::concatenate_items(alloc, &[lhs, rhs, lhs])),
            "if_then_else" if case.mask.len() == lhs.len() => {
                case.show(if_then_else::if_then_else_utf8(alloc, &case.mask, lhs, rhs))
            }
            "nullif" => case.show(nullif::nullif_utf8(alloc, lhs, rhs)),
            _ => from_texts(case),
        }
    }
}
