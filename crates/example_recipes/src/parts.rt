//! Parts that come from elsewhere.
ghost use Rattle.std.specs.Prelude.{◌≡◌, IfErr, IfOk, None, Some, false, map, true};
ghost use Rattle.dethrugn.specs.Validation.{IsFirstFailure};
ghost use Rattle.dethrugn.specs.Column.{slots_of};
ghost use Rattle.dethrugn.specs.Pieces.{items_of};
ghost use Rattle.dethrugn.specs.Types.{refusal};
ghost use Rattle.example_recipes.specs.Rows.{text_tests};

use dethrugn::array::Utf8Array;
use dethrugn::buffer::Buffer;
use dethrugn::error::Error;
use dethrugn::laws::BytesAround;
use dethrugn::laws::column::slots_of_parts;
use dethrugn::offset::OffsetsBuffer;

/// Creates an array of text from offsets and bytes that were received.
///
/// # Errors
/// `OutOfSpec` if the last offset is past the bytes, or a text between two offsets is not UTF-8.
pub fn receive(offsets: OffsetsBuffer<i32>, bytes: Buffer<u8>) -> Result<Utf8Array<i32>, Error>
    ensures ok { IfOk result (λ array. slots_of array ≡ map Some (items_of offsets bytes)) }
    ensures err { IfErr result (λ e. IsFirstFailure (text_tests offsets bytes) (refusal e)) }
{
    slots_of_parts::<BytesAround, Buffer<u8>>();
    Utf8Array::try_new(Utf8Array::<i32>::default_data_type(), offsets, bytes, None)
}
