//! The command `CheckIndexes`, which names no entry: keys that are checked.
ghost use Rattle.std.specs.Prelude.{◌≡◌};
ghost use Rattle.arrow_model.specs.Answer.{outcome};
ghost use Rattle.arrow_model.specs.Step.{keys_answer};

use arrow_check::indexes;
use arrow_model::Reply;
use arrow_types::error::Error;
use arrow_types::native_type::NativeType;

/// Checks that keys are indexes below a length.
///
/// # Errors
/// `OutOfSpec` for the first key that isn't.
pub(crate) fn check_indexes<T: NativeType>(
    keys: &Vec<i64>,
    length: usize,
) -> Result<Reply<T>, Error>
    ensures { outcome result ≡ keys_answer keys.now.items length }
{
    indexes::check_indexes(keys, length)?;
    Ok(Reply::Done)
}
