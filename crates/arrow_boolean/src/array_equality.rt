//! Equality of arrays, which compares data types and slots, and not what null slots store.
ghost use Rattle.std.specs.Prelude.{◌≡◌, ◌↔◌, IsTrue};
ghost use Rattle.std.specs.Bool.{beq};
ghost use Rattle.arrow_column.specs.Column.{slots_of};
ghost use Rattle.arrow_column.specs.ArrayEquality.{same_typed_slots};

use crate::BooleanArray;

impl PartialEq for BooleanArray {
    ghost use Rattle.std.specs.Bool.{beq};
    ghost use Rattle.std.specs.Cmp.{booleans_Decides, decided, on_per, partial_equiv_from_equiv};
    ghost use Rattle.arrow_column.specs.ArrayEquality.{same_typed, same_typed-Decides, same_typed_slots, typed_slots};

    ghost eq = { same_typed_slots beq };

    ghost laws = { on_per typed_slots
        (partial_equiv_from_equiv (decided (same_typed beq) (same_typed-Decides beq booleans_Decides))) };

    /// Returns whether both have the same data type and the same slots. Held masks and values under
    /// nulls are not compared.
    fn eq(&self, other: &Self) -> bool
        ensures value { result ≡ same_typed_slots beq self.now other.now }
        ensures decides { IsTrue result ↔ ((self.now.data_type ≡ other.now.data_type)
            × (slots_of self.now ≡ slots_of other.now)) }
    {
        self.column.has_typed_slots_of(&other.column)
    }
}

impl Eq for BooleanArray {
    ghost use Rattle.std.specs.Bool.{beq};
    ghost use Rattle.std.specs.Cmp.{booleans_Decides, decided, on_equiv};
    ghost use Rattle.arrow_column.specs.ArrayEquality.{same_typed, same_typed-Decides, typed_slots};

    ghost laws = { on_equiv typed_slots (decided (same_typed beq) (same_typed-Decides beq booleans_Decides)) };
}
