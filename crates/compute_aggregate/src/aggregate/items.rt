//! Least and greatest values of arrays of bytes and of text.
ghost use Rattle.std.specs.Prelude.{◌≡◌, [], MatchOption};
ghost use Rattle.compute_aggregate.specs.Aggregates.{IsGreatest, IsLeast, text_cmp, valid_values};

use crate::aggregate::extreme::{Extreme, extreme_value};
use arrow_binary::BinaryArray;
use arrow_types::offset::Offset;
use arrow_utf8::Utf8Array;

/// Returns the least text of the valid slots by the order of its bytes, or `None` if no slot is
/// valid.
pub fn min_string<O: Offset>(array: &Utf8Array<O>) -> Option<&str>
    ensures { MatchOption result (valid_values array.now ≡ []) (λ text.
        IsLeast text_cmp (valid_values array.now) text.now) }
{
    extreme_value(array, Extreme::Least)
}

/// Returns the greatest text of the valid slots by the order of its bytes, or `None` if no slot is
/// valid.
pub fn max_string<O: Offset>(array: &Utf8Array<O>) -> Option<&str>
    ensures { MatchOption result (valid_values array.now ≡ []) (λ text.
        IsGreatest text_cmp (valid_values array.now) text.now) }
{
    extreme_value(array, Extreme::Greatest)
}

/// Returns the least byte string of the valid slots, by the order of unsigned bytes, or `None` if no
/// slot is valid.
pub fn min_binary<O: Offset>(array: &BinaryArray<O>) -> Option<&[u8]>
    ensures { MatchOption result (valid_values array.now ≡ []) (λ bytes.
        IsLeast text_cmp (valid_values array.now) bytes.now) }
{
    extreme_value(array, Extreme::Least)
}

/// Returns the greatest byte string of the valid slots, by the order of unsigned bytes, or `None` if
/// no slot is valid.
pub fn max_binary<O: Offset>(array: &BinaryArray<O>) -> Option<&[u8]>
    ensures { MatchOption result (valid_values array.now ≡ []) (λ bytes.
        IsGreatest text_cmp (valid_values array.now) bytes.now) }
{
    extreme_value(array, Extreme::Greatest)
}
