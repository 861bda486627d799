//! Bitmaps, masks and offsets from raw vectors, each refused as the library refuses it.
ghost use Rattle.std.specs.Prelude.{◌≡◌, IfErr, IfOk, IfSome, None, Some, map, option_map};
ghost use Rattle.arrow_creation.specs.Outcome.{RejectedBits, RejectedOffsets, RejectedParts};
ghost use Rattle.arrow_memory.specs.Offsets.{first_fault, numbers_of};
ghost use Rattle.arrow_model.specs.Parts.{BitsFit, marks_in};
ghost use Rattle.arrow_model.specs.Request.{packed_bits};

use arrow_memory::bitmap::{Bitmap, MutableBitmap};
use arrow_memory::buffer::Buffer;
use arrow_memory::offset::{Offsets, OffsetsBuffer};
use arrow_model::Bits;
use arrow_types::error::Error;
use arrow_types::offset::Offset;

/// Creates a bitmap from packed bits.
///
/// # Errors
/// `OutOfSpec` if the bits are past their bytes, or `OutOfMemory` if an allocation fails.
pub fn bitmap_from_parts(bits: Bits) -> Result<Bitmap, Error>
    ensures ok { IfOk result (λ bitmap. BitsFit (packed_bits bits) × (bitmap ≡ marks_in (packed_bits bits))) }
    ensures err { IfErr result (RejectedBits (Some (packed_bits bits))) }
{
    Bitmap::try_new(bits.bytes, bits.length)
}

/// Creates a growable bitmap from packed bits.
///
/// # Errors
/// `OutOfSpec` if the bits are past their bytes, or `OutOfMemory` if an allocation fails.
pub fn mutable_bitmap_from_parts(bits: Bits) -> Result<MutableBitmap, Error>
    ensures ok { IfOk result (λ bitmap. BitsFit (packed_bits bits) × (bitmap ≡ marks_in (packed_bits bits))) }
    ensures err { IfErr result (RejectedBits (Some (packed_bits bits))) }
{
    MutableBitmap::try_new(bits.bytes, bits.length)
}

/// Creates the mask of an array.
///
/// # Errors
/// `OutOfSpec` if its bits are past their bytes, or `OutOfMemory` if an allocation fails.
pub fn mask_from_parts(mask: Option<Bits>) -> Result<Option<Bitmap>, Error>
    ensures fit { IfOk result (λ made. IfSome (option_map packed_bits mask) BitsFit) }
    ensures mask { IfOk result (λ made. made ≡ option_map marks_in (option_map packed_bits mask)) }
    ensures err { IfErr result (RejectedBits (option_map packed_bits mask)) }
{
    match mask {
        None => Ok(None),
        Some(bits) => Ok(Some(bitmap_from_parts(bits)?)),
    }
}

/// Creates the mask of a builder.
///
/// # Errors
/// `OutOfSpec` if its bits are past their bytes, or `OutOfMemory` if an allocation fails.
pub fn mutable_mask_from_parts(mask: Option<Bits>) -> Result<Option<MutableBitmap>, Error>
    ensures fit { IfOk result (λ made. IfSome (option_map packed_bits mask) BitsFit) }
    ensures mask { IfOk result (λ made. made ≡ option_map marks_in (option_map packed_bits mask)) }
    ensures err { IfErr result (RejectedBits (option_map packed_bits mask)) }
{
    match mask {
        None => Ok(None),
        Some(bits) => Ok(Some(mutable_bitmap_from_parts(bits)?)),
    }
}

/// Creates shared offsets.
///
/// # Errors
/// `OutOfSpec` if they are not legal, or `OutOfMemory` if an allocation fails.
fn offsets_from_parts<O: Offset>(offsets: Vec<O>) -> Result<OffsetsBuffer<O>, Error>
    ensures ok { IfOk result (λ made. (first_fault (map O.number offsets.items) ≡ None)
        × (made ≡ numbers_of O.number offsets.items)) }
    ensures err { IfErr result (RejectedOffsets (map O.number offsets.items)) }
{
    Ok(Offsets::try_from_vec(offsets)?.freeze()?)
}

/// Creates the offsets, bytes and mask of an array.
///
/// # Errors
/// `OutOfSpec` if the offsets are not legal, or else if the mask's bits are past their bytes; or `OutOfMemory` if an
/// allocation fails.
pub fn pieces_from_parts<O: Offset>(
    offsets: Vec<O>,
    bytes: Vec<u8>,
    mask: Option<Bits>,
) -> Result<(OffsetsBuffer<O>, Buffer<u8>, Option<Bitmap>), Error>
    ensures fit { IfOk result (λ made. IfSome (option_map packed_bits mask) BitsFit) }
    ensures mask { IfOk result (λ made. made.2 ≡ option_map marks_in (option_map packed_bits mask)) }
    ensures legal { IfOk result (λ made. first_fault (map O.number offsets.items) ≡ None) }
    ensures offsets { IfOk result (λ made. made.0 ≡ numbers_of O.number offsets.items) }
    ensures bytes { IfOk result (λ made. made.1 ≡ bytes.items) }
    ensures err { IfErr result (RejectedParts (option_map packed_bits mask) (map O.number offsets.items)) }
{
    let values = Buffer::from_vec(bytes)?;
    let shared = offsets_from_parts(offsets)?;
    let validity = mask_from_parts(mask)?;
    Ok((shared, values, validity))
}

/// Creates the offsets and mask of a builder.
///
/// # Errors
/// `OutOfSpec` if the offsets are not legal, or else if the mask's bits are past their bytes; or `OutOfMemory` if an
/// allocation fails.
pub fn mutable_pieces_from_parts<O: Offset>(
    offsets: Vec<O>,
    mask: Option<Bits>,
) -> Result<(Offsets<O>, Option<MutableBitmap>), Error>
    ensures fit { IfOk result (λ made. IfSome (option_map packed_bits mask) BitsFit) }
    ensures mask { IfOk result (λ made. made.1 ≡ option_map marks_in (option_map packed_bits mask)) }
    ensures legal { IfOk result (λ made. first_fault (map O.number offsets.items) ≡ None) }
    ensures offsets { IfOk result (λ made. made.0 ≡ numbers_of O.number offsets.items) }
    ensures err { IfErr result (RejectedParts (option_map packed_bits mask) (map O.number offsets.items)) }
{
    let starts = Offsets::try_from_vec(offsets)?;
    let validity = mutable_mask_from_parts(mask)?;
    Ok((starts, validity))
}
