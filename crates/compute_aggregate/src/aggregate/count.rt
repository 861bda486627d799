//! The number of valid slots of any array, which the array knows.
ghost use Rattle.std.specs.Prelude.{◌≡◌, length};
ghost use Rattle.compute_aggregate.specs.Aggregates.{valid_values};

use arrow_column::Array;

/// Returns the number of valid slots of an array of any kind, in constant time.
pub fn count_valid<A: Array>(array: &A) -> usize
    ensures { result ≡ length (valid_values (A.column array.now)) }
{
    array.len() - array.null_count()
}
