//! Equality of builders, which compares slots alone, and not data types.
ghost use Rattle.std.specs.Prelude.{◌≡◌, ◌↔◌, IsTrue};
ghost use Rattle.std.specs.Bool.{beq};
ghost use Rattle.arrow_column.specs.Column.{slots_of};
ghost use Rattle.arrow_column.specs.SlotEquality.{same_slots};

use crate::MutableBooleanArray;

impl PartialEq for MutableBooleanArray {
    ghost use Rattle.std.specs.Bool.{beq};
    ghost use Rattle.std.specs.Cmp.{booleans_Decides, decided, on_per, partial_equiv_from_equiv};
    ghost use Rattle.arrow_column.specs.Column.{slots_of};
    ghost use Rattle.arrow_column.specs.SlotEquality.{same_slots, same_slots-Decides};

    ghost eq = { λ first second. same_slots beq (slots_of first) (slots_of second) };

    ghost laws = { on_per slots_of
        (partial_equiv_from_equiv (decided (same_slots beq) (same_slots-Decides beq booleans_Decides))) };

    /// Returns whether both have the same slots. Data types, held masks and values under nulls are
    /// not compared.
    fn eq(&self, other: &Self) -> bool
        ensures value { result ≡ same_slots beq (slots_of self.now) (slots_of other.now) }
        ensures decides { IsTrue result ↔ slots_of self.now ≡ slots_of other.now }
    {
        self.column.has_slots_of(&other.column)
    }
}

impl Eq for MutableBooleanArray {
    ghost use Rattle.std.specs.Bool.{beq};
    ghost use Rattle.std.specs.Cmp.{booleans_Decides, decided, on_equiv};
    ghost use Rattle.arrow_column.specs.Column.{slots_of};
    ghost use Rattle.arrow_column.specs.SlotEquality.{same_slots, same_slots-Decides};

    ghost laws = { on_equiv slots_of (decided (same_slots beq) (same_slots-Decides beq booleans_Decides)) };
}
