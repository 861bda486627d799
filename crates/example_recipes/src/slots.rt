//! A loop over the slots of an array.
ghost use Rattle.std.specs.Prelude.{◌≡◌, IfErr, IfOk, map};
ghost use Rattle.dethrugn.specs.Column.{slots_of};
ghost use Rattle.example_recipes.specs.Slots.{zero_for_null};

use dethrugn::array::{MutablePrimitiveArray, PrimitiveArray};
use dethrugn::error::Error;
use dethrugn::laws::column::{appended_slots, slots_in_order};
use std::alloc::Global;

/// Returns the slot, or a slot of 0 for a null.
fn zero_for_null(slot: Option<i64>) -> Option<i64>
    ensures { result ≡ zero_for_null slot }
{
    match slot {
        Some(value) => Some(value),
        None => Some(0),
    }
}

/// Creates an array of the same slots, where a null becomes 0.
///
/// # Errors
/// `OutOfMemory` if an allocation fails.
pub fn without_nulls(
    alloc: Global,
    array: &PrimitiveArray<i64>,
) -> Result<PrimitiveArray<i64>, Error>
    ensures ok { IfOk result (λ made. slots_of made ≡ map zero_for_null (slots_of array.now)) }
    ensures err { IfErr result (λ e. e ≡ Error.OutOfMemory) }
{
    appended_slots::<(), i64>();
    slots_in_order::<(), i64>();
    let mut builder = MutablePrimitiveArray::new(alloc);
    for i in 0..array.len() {
        builder.push(zero_for_null(array.get(i)))?;
    }
    builder.freeze()
}
