//! A builder that is filled in a loop.
ghost use Rattle.std.specs.Prelude.{◌≡◌, IfErr, IfOk, map};
ghost use Rattle.dethrugn.specs.Column.{slots_of};
ghost use Rattle.example_recipes.specs.Prices.{price_of};

use dethrugn::array::{MutablePrimitiveArray, PrimitiveArray};
use dethrugn::error::Error;
use dethrugn::laws::column::appended_slots;
use std::alloc::Global;

/// Creates an array of prices. A negative number stands for an unknown price, and becomes a null.
///
/// # Errors
/// `OutOfMemory` if an allocation fails.
pub fn prices(alloc: Global, numbers: &[i64]) -> Result<PrimitiveArray<i64>, Error>
    ensures ok { IfOk result (λ array. slots_of array ≡ map price_of numbers.now) }
    ensures err { IfErr result (λ e. e ≡ Error.OutOfMemory) }
{
    appended_slots::<(), i64>();
    let mut builder = MutablePrimitiveArray::new(alloc);
    for number in numbers {
        builder.push(if *number < 0 { None } else { Some(*number) })?;
    }
    builder.freeze()
}
