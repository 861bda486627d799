//! Thawing the parts of an array together: all of them, or none.
ghost use Rattle.std.specs.Prelude.{◌≡◌, ◌≤◌, length, IsTrue, IfSome, IfNone};
ghost use Rattle.either.specs.Either.{MatchEither};
ghost use Rattle.arrow_memory.specs.Offsets.{last_of};
ghost use Rattle.arrow_memory.specs.Thaw.{AreParts, AreThreeParts, AreValueParts, AreSlotParts, AreMaskedSlotParts};

use crate::buffer::Buffer;
use crate::offset::{Offsets, OffsetsBuffer};
use arrow_bitmap::{Bitmap, MutableBitmap};
use arrow_types::offset::Offset;
use either::{Either, Left, Right};
use std::mem;
use std::rc::Rc;

/// Takes two vectors out of their shared owners if `asked` and neither is shared. Both are
/// borrowed for writing before either is taken, and empty vectors, which need no memory, are left.
fn take_two<S, T>(
    asked: bool,
    first: &mut Rc<Vec<S>>,
    second: &mut Rc<Vec<T>>,
) -> Option<(Vec<S>, Vec<T>)>
    ensures none { IfNone result ((first.new.value ≡ first.old.value) × (second.new.value ≡ second.old.value)) }
    ensures some { IfSome result (λ taken. IsTrue asked × AreParts first.old.value second.old.value taken) }
{
    if !asked {
        return None;
    }
    let Some(first) = Rc::get_mut(first) else {
        return None;
    };
    let Some(second) = Rc::get_mut(second) else {
        return None;
    };
    let first_empty = Vec::new(*first.allocator());
    let second_empty = Vec::new(*second.allocator());
    Some((
        mem::replace(first, first_empty),
        mem::replace(second, second_empty),
    ))
}

/// Takes three vectors out, as [`take_two`].
fn take_three<S, T, U>(
    asked: bool,
    first: &mut Rc<Vec<S>>,
    second: &mut Rc<Vec<T>>,
    third: &mut Rc<Vec<U>>,
) -> Option<(Vec<S>, Vec<T>, Vec<U>)>
    ensures none { IfNone result ((first.new.value ≡ first.old.value) × (second.new.value ≡ second.old.value)) }
    ensures third { IfNone result (third.new.value ≡ third.old.value) }
    ensures some { IfSome result (λ taken. IsTrue asked × AreThreeParts first.old.value second.old.value third.old.value
        taken) }
{
    if !asked {
        return None;
    }
    let Some(first) = Rc::get_mut(first) else {
        return None;
    };
    let Some(second) = Rc::get_mut(second) else {
        return None;
    };
    let Some(third) = Rc::get_mut(third) else {
        return None;
    };
    let first_empty = Vec::new(*first.allocator());
    let second_empty = Vec::new(*second.allocator());
    let third_empty = Vec::new(*third.allocator());
    Some((
        mem::replace(first, first_empty),
        mem::replace(second, second_empty),
        mem::replace(third, third_empty),
    ))
}

/// Thaws values and their mask.
fn thaw_values<T: Drop>(
    values: Buffer<T>,
    mask: Bitmap,
) -> Either<(Buffer<T>, Bitmap), (Vec<T>, MutableBitmap)>
    ensures { MatchEither result (AreParts values mask) (AreValueParts values mask) }
{
    let (mut items, offset, length) = values.into_parts();
    let (mut bytes, first, marks, unset) = mask.into_parts();
    let is_whole = (offset == 0) & (length == items.len()) & (first == 0);
    match take_two(is_whole, &mut items, &mut bytes) {
        Some((items, bytes)) => Right((items, MutableBitmap::from_bytes(bytes, marks))),
        None => Left((
            Buffer::from_parts(items, offset, length),
            Bitmap::from_parts(bytes, first, marks, unset),
        )),
    }
}

/// Converts values and their mask into a vector and a growing bitmap, without copying them, if
/// neither is shared, the values show all of their vector, and the mask begins at its first bit.
/// Otherwise returns both unchanged.
pub fn into_mut_values<T: Drop>(
    values: Buffer<T>,
    validity: Option<Bitmap>,
) -> Either<(Buffer<T>, Option<Bitmap>), (Vec<T>, Option<MutableBitmap>)>
    ensures { MatchEither result (AreParts values validity) (AreValueParts values validity) }
{
    match validity {
        None => match values.into_mut() {
            Left(values) => Left((values, None)),
            Right(values) => Right((values, None)),
        },
        Some(mask) => match thaw_values(values, mask) {
            Left((values, mask)) => Left((values, Some(mask))),
            Right((values, mask)) => Right((values, Some(mask))),
        },
    }
}

/// Thaws booleans and their mask.
fn thaw_bits(
    values: Bitmap,
    mask: Bitmap,
) -> Either<(Bitmap, Bitmap), (MutableBitmap, MutableBitmap)>
    ensures { MatchEither result (AreParts values mask) (AreParts values mask) }
{
    let (mut bits, offset, length, clear) = values.into_parts();
    let (mut bytes, first, marks, unset) = mask.into_parts();
    match take_two((offset == 0) & (first == 0), &mut bits, &mut bytes) {
        Some((bits, bytes)) => Right((
            MutableBitmap::from_bytes(bits, length),
            MutableBitmap::from_bytes(bytes, marks),
        )),
        None => Left((
            Bitmap::from_parts(bits, offset, length, clear),
            Bitmap::from_parts(bytes, first, marks, unset),
        )),
    }
}

/// Converts two bitmaps, values and mask, into growing ones, without copying them, if neither is
/// shared and both begin at their first bit. Otherwise returns both unchanged.
pub fn into_mut_bits(
    values: Bitmap,
    validity: Option<Bitmap>,
) -> Either<(Bitmap, Option<Bitmap>), (MutableBitmap, Option<MutableBitmap>)>
    ensures { MatchEither result (AreParts values validity) (AreParts values validity) }
{
    match validity {
        None => match values.into_mut() {
            Left(values) => Left((values, None)),
            Right(values) => Right((values, None)),
        },
        Some(mask) => match thaw_bits(values, mask) {
            Left((values, mask)) => Left((values, Some(mask))),
            Right((values, mask)) => Right((values, Some(mask))),
        },
    }
}

/// Thaws offsets and the bytes of their slots.
fn thaw_slots<O: Offset>(
    offsets: OffsetsBuffer<O>,
    values: Buffer<u8>,
) -> Either<(OffsetsBuffer<O>, Buffer<u8>), (Offsets<O>, Vec<u8>)>
    requires { last_of offsets ≤ length values }
    ensures { MatchEither result (AreParts offsets values) (AreSlotParts offsets values) }
{
    let end = offsets.last().to_usize();
    let OffsetsBuffer { offsets } = offsets;
    let (mut ends, offset, count) = offsets.into_parts();
    let (mut bytes, start, length) = values.into_parts();
    let ends_whole = (offset == 0) & (count == ends.len());
    let bytes_whole = (start == 0) & (length == bytes.len());
    match take_two(ends_whole & bytes_whole, &mut ends, &mut bytes) {
        Some((offsets, mut bytes)) => {
            bytes.truncate(end);
            Right((Offsets { offsets }, bytes))
        }
        None => {
            let offsets = Buffer::from_parts(ends, offset, count);
            Left((
                OffsetsBuffer { offsets },
                Buffer::from_parts(bytes, start, length),
            ))
        }
    }
}

/// Thaws offsets, the bytes of their slots and a mask.
fn thaw_slots_with_mask<O: Offset>(
    offsets: OffsetsBuffer<O>,
    values: Buffer<u8>,
    mask: Bitmap,
) -> Either<(OffsetsBuffer<O>, Buffer<u8>, Bitmap), (Offsets<O>, Vec<u8>, MutableBitmap)>
    requires { last_of offsets ≤ length values }
    ensures { MatchEither result (AreThreeParts offsets values mask) (AreMaskedSlotParts offsets values mask) }
{
    let end = offsets.last().to_usize();
    let OffsetsBuffer { offsets } = offsets;
    let (mut ends, offset, count) = offsets.into_parts();
    let (mut bytes, start, length) = values.into_parts();
    let (mut bits, first, marks, unset) = mask.into_parts();
    let ends_whole = (offset == 0) & (count == ends.len());
    let bytes_whole = (start == 0) & (length == bytes.len());
    let is_whole = ends_whole & bytes_whole & (first == 0);
    match take_three(is_whole, &mut ends, &mut bytes, &mut bits) {
        Some((offsets, mut bytes, bits)) => {
            bytes.truncate(end);
            let mask = MutableBitmap::from_bytes(bits, marks);
            Right((Offsets { offsets }, bytes, mask))
        }
        None => {
            let offsets = Buffer::from_parts(ends, offset, count);
            Left((
                OffsetsBuffer { offsets },
                Buffer::from_parts(bytes, start, length),
                Bitmap::from_parts(bits, first, marks, unset),
            ))
        }
    }
}

/// Converts offsets, bytes and a mask into growing ones, without copying them, if none is shared,
/// offsets and bytes show all of their vectors, and the mask begins at its first bit. Bytes after
/// the last offset are cut off. Otherwise returns all unchanged.
pub fn into_mut_bytes<O: Offset>(
    offsets: OffsetsBuffer<O>,
    values: Buffer<u8>,
    validity: Option<Bitmap>,
) -> Either<
    (OffsetsBuffer<O>, Buffer<u8>, Option<Bitmap>),
    (Offsets<O>, Vec<u8>, Option<MutableBitmap>),
>
    requires { last_of offsets ≤ length values }
    ensures { MatchEither result (AreThreeParts offsets values validity) (AreMaskedSlotParts offsets values validity) }
{
    match validity {
        None => match thaw_slots(offsets, values) {
            Left((offsets, values)) => Left((offsets, values, None)),
            Right((offsets, values)) => Right((offsets, values, None)),
        },
        Some(mask) => match thaw_slots_with_mask(offsets, values, mask) {
            Left((offsets, values, mask)) => Left((offsets, values, Some(mask))),
            Right((offsets, values, mask)) => Right((offsets, values, Some(mask))),
        },
    }
}
