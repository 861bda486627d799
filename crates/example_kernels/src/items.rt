//! Kernels of bytes and of text.
use crate::case::Case;
use crate::ordered::run_ordered;
use dethrugn::array::{BinaryArray, Utf8Array};
use dethrugn::compute::cast::{
    binary_to_primitive, binary_to_utf8, utf8_to_binary, utf8_to_primitive,
};
use dethrugn::compute::length::length;
use dethrugn::datatypes::DataType;
use dethrugn::offset::Offset;
use dethrugn::types::NativeType;
use std::fmt::Debug;
use std::io;

/// A width of offsets.
pub trait Width: Offset + NativeType + Debug + Drop {}

impl Width for i32 {}

impl Width for i64 {}

/// Runs a kernel of bytes.
pub fn run_bytes<O: Width>(case: &Case<'_, BinaryArray<O>>) -> io::Result<()> {
    let rhs = &case.rhs;
    let first = if rhs.is_empty() { None } else { rhs.get(0) };
    run_ordered(case, first.unwrap_or(&[]))
}

/// Runs a kernel of text.
pub fn run_texts<O: Width>(case: &Case<'_, Utf8Array<O>>) -> io::Result<()> {
    let rhs = &case.rhs;
    let first = if rhs.is_empty() { None } else { rhs.get(0) };
    run_ordered(case, first.unwrap_or(""))
}

/// Runs a kernel that makes other values of bytes.
pub fn from_bytes<O: Width>(case: &Case<'_, BinaryArray<O>>) -> io::Result<()> {
    let (alloc, lhs) = (case.rt.alloc(), &case.lhs);
    match case.kernel {
        "length" => case.show(length(alloc, lhs)),
        "to_i16" => case.show(binary_to_primitive::<O, i16>(alloc, lhs, DataType::Int16)),
        "to_u64" => case.show(binary_to_primitive::<O, u64>(alloc, lhs, DataType::UInt64)),
        "to_utf8" if O::IS_LARGE => case.show(binary_to_utf8(lhs, DataType::LargeUtf8)),
        "to_utf8" => case.show(binary_to_utf8(lhs, DataType::Utf8)),
        _ => case.refuse(),
    }
}

/// Runs a kernel that makes other values of text.
pub fn from_texts<O: Width>(case: &Case<'_, Utf8Array<O>>) -> io::Result<()> {
    let (alloc, lhs) = (case.rt.alloc(), &case.lhs);
    match case.kernel {
        "length" => case.show(length(alloc, lhs)),
        "to_i8" => case.show(utf8_to_primitive::<O, i8>(alloc, lhs, DataType::Int8)),
        "to_i64" => case.show(utf8_to_primitive::<O, i64>(alloc, lhs, DataType::Int64)),
        "to_binary" if O::IS_LARGE => case.show(utf8_to_binary(lhs, DataType::LargeBinary)),
        "to_binary" => case.show(utf8_to_binary(lhs, DataType::Binary)),
        _ => case.refuse(),
    }
}
