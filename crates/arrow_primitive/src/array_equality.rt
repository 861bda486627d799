//! Equality of arrays, which compares data types and slots, and not what null slots store.
ghost use Rattle.std.specs.Prelude.{◌≡◌, ◌↔◌, IsTrue};
ghost use Rattle.arrow_column.specs.Column.{slots_of};
ghost use Rattle.arrow_column.specs.ArrayEquality.{same_typed_slots};

use crate::PrimitiveArray;
use arrow_types::native_type::NativeType;

impl<T: NativeType> PartialEq for PrimitiveArray<T> {
    ghost use Rattle.std.specs.Cmp.{decided, on_per, partial_equiv_from_equiv};
    ghost use Rattle.arrow_column.specs.ArrayEquality.{same_typed, same_typed-Decides, same_typed_slots, typed_slots};

    ghost eq = { same_typed_slots T.eq };

    ghost laws = { on_per typed_slots
        (partial_equiv_from_equiv (decided (same_typed T.eq) (same_typed-Decides T.eq T.same))) };

    /// Returns whether both have the same data type and the same slots. Held masks and values under
    /// nulls are not compared.
    fn eq(&self, other: &Self) -> bool
        ensures value { result ≡ same_typed_slots T.eq self.now other.now }
        ensures decides { IsTrue result ↔ ((self.now.data_type ≡ other.now.data_type)
            × (slots_of self.now ≡ slots_of other.now)) }
    {
        self.column.has_typed_slots_of(&other.column)
    }
}

impl<T: NativeType> Eq for PrimitiveArray<T> {
    ghost use Rattle.std.specs.Cmp.{decided, on_equiv};
    ghost use Rattle.arrow_column.specs.ArrayEquality.{same_typed, same_typed-Decides, typed_slots};

    ghost laws = { on_equiv typed_slots (decided (same_typed T.eq) (same_typed-Decides T.eq T.same)) };
}
