//! Places at which parts of arrays are wrong, to tell a person, beside the refusals of the checks. A call that refuses
//! parts drops them, so a caller who wants the place of the fault asks before handing them in.
ghost use Rattle.std.specs.Prelude.{◌≡◌, ◌↔◌, ◌≤◌, IfSome, IsTrue, map, None, slice_range};
ghost use Rattle.arrow_check.specs.Pieces.{items_of};
ghost use Rattle.arrow_check.specs.Places.{first_fall, IsFirstUnfit};
ghost use Rattle.arrow_check.specs.Texts.{AreTexts};
ghost use Rattle.arrow_check.specs.Utf8.{IsWellFormed};

use arrow_memory::buffer::Buffer;
use arrow_memory::offset::OffsetsBuffer;
use arrow_types::offset::Offset;

/// Returns the index of the first offset that is below the one before it, or below 0 if it is the
/// first, and `None` if there is no such offset. [`OffsetsBuffer::try_from_buffer`] drops the offsets
/// that it refuses, so call this before it.
pub fn first_falling_offset<O: Offset>(offsets: &[O]) -> Option<usize>
    ensures { result ≡ first_fall (map O.number offsets.now) }
{
    let mut before = 0;
    for i in 0..offsets.len() {
        let Some(number) = offsets[i].try_to_usize() else {
            return Some(i);
        };
        if number < before {
            return Some(i);
        }
        before = number;
    }
    None
}

/// Returns whether the bytes from `start` up to `end`, as far as there are some, are text.
fn is_text_between(bytes: &[u8], start: usize, end: usize) -> bool
    requires { start ≤ end }
    ensures { IsTrue result ↔ IsWellFormed (slice_range bytes.now start end) }
{
    let count = bytes.len();
    simdutf8::is_utf8(&bytes[start.min(count)..end.min(count)])
}

/// Returns the index of the first slot whose bytes are not UTF-8 by themselves, and `None` if all
/// are. Of a slot that ends past the values, only the bytes within them count; [`check_bounds`] finds
/// such slots. `try_new` of an array or a builder drops the parts that it refuses, so call this before
/// it.
///
/// [`check_bounds`]: crate::bounds::check_bounds
pub fn first_unfit_text<O: Offset>(offsets: &OffsetsBuffer<O>, values: &Buffer<u8>) -> Option<usize>
    ensures none { (result ≡ None) ↔ AreTexts (items_of offsets.now values.now) }
    ensures some { IfSome result (IsFirstUnfit (items_of offsets.now values.now)) }
{
    let bytes = values.as_slice();
    for i in 0..offsets.len_proxy() {
        let (start, end) = offsets.start_end(i);
        if !is_text_between(bytes, start, end) {
            return Some(i);
        }
    }
    None
}
