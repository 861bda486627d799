//! Concatenation of arrays of one kind.
ghost use Rattle.std.specs.Prelude.{◌≡◌, ◌<◌, length, map, IfOk, IfErr};
ghost use Rattle.dethrugn.specs.Failures.{OnlyOutOfMemory};
ghost use Rattle.dethrugn.specs.Types.{refusal};
ghost use Rattle.dethrugn.specs.PhysicalType.TheVariants as physical;
ghost use Rattle.dethrugn.specs.PrimitiveType.TheVariants as primitive;
ghost use Rattle.example_record_batch.specs.declared.any.AnyArray.TheVariants.{Binary, Boolean, Int64, Utf8};
ghost use Rattle.example_record_batch.specs.Concatenation.{ArraysFail, HaveKind, HaveOneKind, IsConcatArray};

use crate::any::AnyArray;
use dethrugn::array::{BinaryArray, BooleanArray, PrimitiveArray, Utf8Array};
use dethrugn::compute::concatenate::{
    concat_binary, concat_boolean, concat_primitive, concat_utf8,
};
use dethrugn::error::Error;
use std::alloc::Global;

/// Returns clones of arrays of numbers.
fn clone_int64(alloc: Global, arrays: &[AnyArray]) -> Result<Vec<PrimitiveArray<i64>>, Error>
    requires { HaveKind arrays.now (physical.Primitive primitive.Int64) }
    ensures ok { IfOk result (λ columns. map Int64 columns.items ≡ arrays.now) }
    ensures err { OnlyOutOfMemory result }
{
    let mut columns = Vec::new(alloc);
    for array in arrays {
        match array {
            AnyArray::Int64(column) => columns.push(column.clone()?)?,
            _ => unreachable!(),
        }
    }
    Ok(columns)
}

/// Returns clones of arrays of booleans.
fn clone_boolean(alloc: Global, arrays: &[AnyArray]) -> Result<Vec<BooleanArray>, Error>
    requires { HaveKind arrays.now physical.Boolean }
    ensures ok { IfOk result (λ columns. map Boolean columns.items ≡ arrays.now) }
    ensures err { OnlyOutOfMemory result }
{
    let mut columns = Vec::new(alloc);
    for array in arrays {
        match array {
            AnyArray::Boolean(column) => columns.push(column.clone()?)?,
            _ => unreachable!(),
        }
    }
    Ok(columns)
}

/// Returns clones of arrays of bytes.
fn clone_binary(alloc: Global, arrays: &[AnyArray]) -> Result<Vec<BinaryArray<i32>>, Error>
    requires { HaveKind arrays.now physical.Binary }
    ensures ok { IfOk result (λ columns. map Binary columns.items ≡ arrays.now) }
    ensures err { OnlyOutOfMemory result }
{
    let mut columns = Vec::new(alloc);
    for array in arrays {
        match array {
            AnyArray::Binary(column) => columns.push(column.clone()?)?,
            _ => unreachable!(),
        }
    }
    Ok(columns)
}

/// Returns clones of arrays of text.
fn clone_utf8(alloc: Global, arrays: &[AnyArray]) -> Result<Vec<Utf8Array<i32>>, Error>
    requires { HaveKind arrays.now physical.Utf8 }
    ensures ok { IfOk result (λ columns. map Utf8 columns.items ≡ arrays.now) }
    ensures err { OnlyOutOfMemory result }
{
    let mut columns = Vec::new(alloc);
    for array in arrays {
        match array {
            AnyArray::Utf8(column) => columns.push(column.clone()?)?,
            _ => unreachable!(),
        }
    }
    Ok(columns)
}

impl AnyArray {
    /// Returns the slots of the arrays, one array after the other, with the data type of the first. There must be at
    /// least one array, and all must be of one kind.
    ///
    /// # Errors
    /// - `Overflow` if the bytes or the texts together have more than `i32::MAX` bytes.
    /// - `OutOfMemory` if an allocation fails.
    pub fn concat(alloc: Global, arrays: &[AnyArray]) -> Result<Self, Error>
        requires some { 0 < length arrays.now }
        requires kind { HaveOneKind arrays.now }
        ensures ok { IfOk result (λ made. IsConcatArray arrays.now made) }
        ensures err { IfErr result (λ e. ArraysFail arrays.now (refusal e)) }
    {
        match &arrays[0] {
            AnyArray::Int64(_) => {
                let columns = clone_int64(alloc, arrays)?;
                Ok(AnyArray::Int64(concat_primitive(alloc, columns.as_slice())?))
            }
            AnyArray::Boolean(_) => {
                let columns = clone_boolean(alloc, arrays)?;
                Ok(AnyArray::Boolean(concat_boolean(alloc, columns.as_slice())?))
            }
            AnyArray::Binary(_) => {
                let columns = clone_binary(alloc, arrays)?;
                Ok(AnyArray::Binary(concat_binary(alloc, columns.as_slice())?))
            }
            AnyArray::Utf8(_) => {
                let columns = clone_utf8(alloc, arrays)?;
                Ok(AnyArray::Utf8(concat_utf8(alloc, columns.as_slice())?))
            }
        }
    }
}
