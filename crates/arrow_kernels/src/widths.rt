//! Conversions of arrays of bytes and text between offsets of 32 and of 64 bits. Rows, bytes and the numbers of the
//! offsets stay, and the data type becomes the default one of the other width. Bytes and masks are shared, and text is
//! not validated again.
ghost use Rattle.std.specs.Prelude.{◌≡◌, false, true, IfOk, IfErr};
ghost use Rattle.arrow_types.specs.Failures.{OnlyOutOfMemory};
ghost use Rattle.arrow_column.specs.Column.{refused_growth, with_type};
ghost use Rattle.arrow_bytes.specs.Column.{offsets_held};
ghost use Rattle.arrow_bytes.specs.Kinds.{binary_type, text_type};
ghost use Rattle.arrow_bytes.specs.Selection.{narrowing_overflows};

use arrow_binary::BinaryArray;
use arrow_byte_array::ByteArray;
use arrow_bytes::ByteKind;
use arrow_memory::offset::OffsetsBuffer;
use arrow_types::error::Error;
use arrow_types::offset::Offset;
use arrow_utf8::Utf8Array;
use std::alloc::Global;

/// Returns the same slots over `offsets`, which have the same numbers as the offsets of `array`.
///
/// # Errors
/// `OutOfMemory` if an allocation fails.
fn over_offsets<K: ByteKind, O: Offset, P: Offset>(
    array: &ByteArray<K, O>,
    offsets: OffsetsBuffer<P>,
) -> Result<ByteArray<K, P>, Error>
    requires { offsets ≡ offsets_held array.now }
    ensures ok { IfOk result (λ made. made ≡ with_type array.now (K.default_type P.IS_LARGE)) }
    ensures err { OnlyOutOfMemory result }
{
    let (_, _, values, validity) = array.clone()?.into_inner();
    Ok(ByteArray::new(K::default_type(P::IS_LARGE), offsets, values, validity))
}

/// Returns the same slots over offsets of 64 bits. `_alloc` is a parameter as in every kernel, but the offsets are
/// allocated by the allocator of the array.
///
/// # Errors
/// `OutOfMemory` if an allocation fails.
pub fn widen_items<K: ByteKind>(
    _alloc: Global,
    array: &ByteArray<K, i32>,
) -> Result<ByteArray<K, i64>, Error>
    ensures ok { IfOk result (λ wide. wide ≡ with_type array.now (K.default_type true)) }
    ensures err { OnlyOutOfMemory result }
{
    over_offsets(array, array.offsets().widen()?)
}

/// Returns the same slots over offsets of 32 bits. `_alloc` is a parameter as in every kernel, but the offsets are
/// allocated by the allocator of the array.
///
/// # Errors
/// - `Overflow` if the last offset is above 2147483647; this is checked before memory is allocated.
/// - `OutOfMemory` if an allocation fails.
pub fn narrow_items<K: ByteKind>(
    _alloc: Global,
    array: &ByteArray<K, i64>,
) -> Result<ByteArray<K, i32>, Error>
    ensures ok { IfOk result (λ narrow. (narrowing_overflows array.now ≡ false)
        × (narrow ≡ with_type array.now (K.default_type false))) }
    ensures err { IfErr result (λ e. e ≡ refused_growth (narrowing_overflows array.now)) }
{
    over_offsets(array, array.offsets().narrow()?)
}

/// Returns the same slots over offsets of 64 bits.
///
/// # Errors
/// `OutOfMemory` if an allocation fails.
pub fn widen_binary(alloc: Global, array: &BinaryArray<i32>) -> Result<BinaryArray<i64>, Error>
    ensures ok { IfOk result (λ wide. wide ≡ with_type array.now (binary_type true)) }
    ensures err { OnlyOutOfMemory result }
{
    widen_items(alloc, array)
}

/// Returns the same slots over offsets of 64 bits.
///
/// # Errors
/// `OutOfMemory` if an allocation fails.
pub fn widen_utf8(alloc: Global, array: &Utf8Array<i32>) -> Result<Utf8Array<i64>, Error>
    ensures ok { IfOk result (λ wide. wide ≡ with_type array.now (text_type true)) }
    ensures err { OnlyOutOfMemory result }
{
    widen_items(alloc, array)
}

/// Returns the same slots over offsets of 32 bits.
///
/// # Errors
/// As [`narrow_items`].
pub fn narrow_binary(alloc: Global, array: &BinaryArray<i64>) -> Result<BinaryArray<i32>, Error>
    ensures ok { IfOk result (λ narrow. (narrowing_overflows array.now ≡ false)
        × (narrow ≡ with_type array.now (binary_type false))) }
    ensures err { IfErr result (λ e. e ≡ refused_growth (narrowing_overflows array.now)) }
{
    narrow_items(alloc, array)
}

/// Returns the same slots over offsets of 32 bits.
///
/// # Errors
/// As [`narrow_items`].
pub fn narrow_utf8(alloc: Global, array: &Utf8Array<i64>) -> Result<Utf8Array<i32>, Error>
    ensures ok { IfOk result (λ narrow. (narrowing_overflows array.now ≡ false)
        × (narrow ≡ with_type array.now (text_type false))) }
    ensures err { IfErr result (λ e. e ≡ refused_growth (narrowing_overflows array.now)) }
{
    narrow_items(alloc, array)
}
