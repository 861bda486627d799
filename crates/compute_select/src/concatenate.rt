//! Concatenations of references to arrays: the rows of at least one array, in order, with the data
//! type of the first. The result holds a mask exactly if one of its slots is null.
ghost use Rattle.std.specs.Prelude.{◌≡◌, ◌<◌, length, IfErr, IfOk};
ghost use Rattle.arrow_types.specs.Failures.{OnlyOutOfMemory};
ghost use Rattle.arrow_bytes.specs.Selection.{Concatenates};
ghost use Rattle.compute_select.specs.Selects.{ConcatenatesItems, ItemsNotConcatenated, values_behind};

use arrow_boolean::BooleanArray;
use arrow_byte_array::ByteArray;
use arrow_bytes::ByteKind;
use arrow_kernels::{concat_boolean, concat_items, concat_primitive};
use arrow_primitive::PrimitiveArray;
use arrow_types::error::Error;
use arrow_types::native_type::NativeType;
use arrow_types::offset::Offset;
use std::alloc::Global;

/// Arrays whose clones share their buffers.
trait ShareArray: Sized {
    /// Returns a clone that shares the buffers.
    fn share(&self) -> Result<Self, Error>
        ensures ok { IfOk result (λ copy. copy ≡ self.now) }
        ensures err { OnlyOutOfMemory result };
}

impl<T: NativeType> ShareArray for PrimitiveArray<T> {
    fn share(&self) -> Result<PrimitiveArray<T>, Error> {
        self.clone()
    }
}

impl ShareArray for BooleanArray {
    fn share(&self) -> Result<BooleanArray, Error> {
        self.clone()
    }
}

impl<K: ByteKind, O: Offset> ShareArray for ByteArray<K, O> {
    fn share(&self) -> Result<ByteArray<K, O>, Error> {
        self.clone()
    }
}

/// Returns clones of arrays, which share their buffers.
fn share_all<'a, A: ShareArray + Drop>(alloc: Global, arrays: &'a [&'a A]) -> Result<Vec<A>, Error>
    ensures ok { IfOk result (λ copies. copies.items ≡ values_behind arrays.entry.now) }
    ensures err { OnlyOutOfMemory result }
{
    let mut copies = Vec::with_capacity(alloc, arrays.len())?;
    for array in arrays {
        copies.push(array.share()?)?;
    }
    Ok(copies)
}

/// Returns the slots of the arrays, one array after the other, with the data type of the first.
///
/// # Errors
/// `OutOfMemory` if an allocation fails.
pub fn concatenate_primitive<'a, T: NativeType>(
    alloc: Global,
    arrays: &'a [&'a PrimitiveArray<T>],
) -> Result<PrimitiveArray<T>, Error>
    requires { 0 < length arrays.now }
    ensures ok { IfOk result (λ made. Concatenates tt (values_behind arrays.entry.now) made) }
    ensures err { OnlyOutOfMemory result }
{
    let copies = share_all(alloc, arrays)?;
    concat_primitive(alloc, copies.as_slice())
}

/// Returns the slots of the arrays, one array after the other, with the data type of the first.
///
/// # Errors
/// `OutOfMemory` if an allocation fails.
pub fn concatenate_boolean<'a>(
    alloc: Global,
    arrays: &'a [&'a BooleanArray],
) -> Result<BooleanArray, Error>
    requires { 0 < length arrays.now }
    ensures ok { IfOk result (λ made. Concatenates tt (values_behind arrays.entry.now) made) }
    ensures err { OnlyOutOfMemory result }
{
    let copies = share_all(alloc, arrays)?;
    concat_boolean(alloc, copies.as_slice())
}

/// Returns the slots of the arrays, bytes or text, one array after the other, with the data type of
/// the first.
///
/// # Errors
/// - `Overflow` if the items together have more bytes than the greatest offset.
/// - `OutOfMemory` if an allocation fails.
pub fn concatenate_items<'a, K: ByteKind, O: Offset>(
    alloc: Global,
    arrays: &'a [&'a ByteArray<K, O>],
) -> Result<ByteArray<K, O>, Error>
    requires { 0 < length arrays.now }
    ensures ok { IfOk result (ConcatenatesItems O.most (values_behind arrays.entry.now)) }
    ensures err { IfErr result (ItemsNotConcatenated O.most (values_behind arrays.entry.now)) }
{
    let copies = share_all(alloc, arrays)?;
    concat_items(alloc, copies.as_slice())
}
