//! Least and greatest values of arrays of booleans.
ghost use Rattle.std.specs.Prelude.{◌≡◌, [], MatchOption};
ghost use Rattle.std.specs.Ordering.{bool_cmp};
ghost use Rattle.compute_aggregate.specs.Aggregates.{IsGreatest, IsLeast, valid_values};

use arrow_boolean::BooleanArray;

/// Returns whether all valid slots are true, the least of their values, or `None` if no slot is
/// valid.
pub fn min_boolean(array: &BooleanArray) -> Option<bool>
    ensures { MatchOption result (valid_values array.now ≡ []) (IsLeast bool_cmp (valid_values array.now)) }
{
    let valid = array.len() - array.null_count();
    if valid == 0 {
        return None;
    }
    Some(array.true_count() == valid)
}

/// Returns whether a valid slot is true, the greatest of their values, or `None` if no slot is
/// valid.
pub fn max_boolean(array: &BooleanArray) -> Option<bool>
    ensures { MatchOption result (valid_values array.now ≡ []) (IsGreatest bool_cmp (valid_values array.now)) }
{
    if array.null_count() == array.len() {
        return None;
    }
    Some(array.true_count() > 0)
}
