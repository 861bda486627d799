//! Checks that offsets fit the values that they point into: of arrays the last is at most their number, of builders it
//! is.
ghost use Rattle.std.specs.Prelude.{◌≡◌, ◌≢◌, ◌<◌, ◌≤◌, length, slice_index, OnOk, IfErr};
ghost use Rattle.arrow_types.specs.Types.{refusal};
ghost use Rattle.arrow_memory.specs.Offsets.{last_of, numbers_of};
ghost use Rattle.arrow_check.specs.Bounds.{AreLegal, past_values, not_at_end};

use arrow_types::error::Error;
use arrow_types::offset::Offset;

/// Returns the number of the offset at `index`.
#[inline(always)]
pub(crate) fn number_at<O: Offset>(offsets: &[O], index: usize) -> usize
    requires legal { AreLegal O.number offsets.now }
    requires within { index < length offsets.now }
    ensures { result ≡ slice_index (numbers_of O.number offsets.now) index }
{
    offsets[index].to_usize()
}

/// Returns the number of the last offset, where the last slot ends.
#[inline(always)]
pub(crate) fn last_number<O: Offset>(offsets: &[O]) -> usize
    requires { AreLegal O.number offsets.now }
    ensures { result ≡ last_of (numbers_of O.number offsets.now) }
{
    number_at(offsets, offsets.len() - 1)
}

/// Checks that legal offsets lie within `values_len` values. Offsets never fall, so it is enough
/// that the last one does (Arrow columnar format, "Variable-size Binary Layout").
///
/// # Errors
/// `OutOfSpec` if the last offset is above `values_len`.
pub fn check_bounds<O: Offset>(offsets: &[O], values_len: usize) -> Result<(), Error>
    requires { AreLegal O.number offsets.now }
    ensures ok { OnOk result (last_of (numbers_of O.number offsets.now) ≤ values_len) }
    ensures err { IfErr result (λ e. (values_len < last_of (numbers_of O.number offsets.now))
        × (refusal e ≡ past_values)) }
{
    if last_number(offsets) > values_len {
        return Err(Error::OutOfSpec("offsets must not exceed the values length"));
    }
    Ok(())
}

/// Checks that the last of legal offsets is `values_len`.
///
/// # Errors
/// `OutOfSpec` if it is not.
pub fn check_last<O: Offset>(offsets: &[O], values_len: usize) -> Result<(), Error>
    requires { AreLegal O.number offsets.now }
    ensures ok { OnOk result (last_of (numbers_of O.number offsets.now) ≡ values_len) }
    ensures err { IfErr result (λ e. (last_of (numbers_of O.number offsets.now) ≢ values_len)
        × (refusal e ≡ not_at_end)) }
{
    if last_number(offsets) != values_len {
        return Err(Error::OutOfSpec("the last offset must equal the values length"));
    }
    Ok(())
}
