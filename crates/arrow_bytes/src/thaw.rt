//! Thawing of stored byte strings together with their mask: all of their vectors, or none.
ghost use Rattle.either.specs.Either.{MatchEither};
ghost use Rattle.arrow_bytes.specs.Pieces.{lead_only};
ghost use Rattle.arrow_memory.specs.Thaw.{AreParts};

use crate::{ByteKind, ByteValues, MutableByteValues};
use arrow_memory::bitmap::{Bitmap, MutableBitmap};
use arrow_memory::thaw::into_mut_bytes;
use arrow_types::offset::Offset;
use either::{Either, Left, Right};
use std::marker::PhantomData;

/// Converts items and a mask into growing ones without copying them, if none of their buffers is
/// shared and all begin at the first place. Bytes after the last item are cut off. Otherwise
/// returns the parts unchanged.
#[tactic(auto, using(crate::proofs::PieceLemmas::piece_reads, crate::proofs::PieceLemmas::piece_thaws))]
pub fn into_mut_values<K: ByteKind, O: Offset>(
    values: ByteValues<K, O>,
    validity: Option<Bitmap>,
) -> Either<(ByteValues<K, O>, Option<Bitmap>), (MutableByteValues<K, O>, Option<MutableBitmap>)>
    ensures { MatchEither result (AreParts values validity)
        (AreParts (record values { around = lead_only values.around }) validity) }
{
    let ByteValues { offsets, bytes, .. } = values;
    match into_mut_bytes(offsets, bytes, validity) {
        Left((offsets, bytes, validity)) => Left((
            ByteValues {
                offsets,
                bytes,
                kind: PhantomData,
            },
            validity,
        )),
        Right((offsets, bytes, validity)) => Right((
            MutableByteValues {
                offsets,
                bytes,
                kind: PhantomData,
            },
            validity,
        )),
    }
}
