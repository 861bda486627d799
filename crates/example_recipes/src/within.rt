//! A caller of kernels: what it promises follows from the contracts of the calls that it makes, and from a law.
ghost use Rattle.std.specs.Prelude.{◌≡◌, IfOk, map};
ghost use Rattle.dethrugn.specs.Column.{slots_of};
ghost use Rattle.dethrugn.specs.Failures.{OnlyOutOfMemory};
ghost use Rattle.example_recipes.specs.Within.{within_slot};

use dethrugn::array::{BooleanArray, PrimitiveArray};
use dethrugn::compute::boolean_kleene::and;
use dethrugn::compute::comparison::{gt_eq_scalar, lt_scalar};
use dethrugn::error::Error;
use dethrugn::laws::compute::combined_slots;
use dethrugn::types::NativeType;
use std::alloc::Global;

/// Returns whether each value is at least `low` and less than `high`; null where the slot is null.
pub fn within<T: NativeType + Ord>(
    alloc: Global,
    array: &PrimitiveArray<T>,
    low: T,
    high: T,
) -> Result<BooleanArray, Error>
    ensures ok { IfOk result (λ made. slots_of made ≡ map (within_slot T.cmp low high) (slots_of array.now)) }
    ensures err { OnlyOutOfMemory result }
{
    combined_slots::<T, bool, bool, bool>();
    let reaches = gt_eq_scalar(alloc, array, low)?;
    let stays_below = lt_scalar(alloc, array, high)?;
    and(alloc, &reaches, &stays_below)
}
