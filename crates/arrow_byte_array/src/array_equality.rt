//! Equality of arrays, which compares data types and slots, and not what null slots store.
ghost use Rattle.std.specs.Prelude.{◌≡◌, ◌↔◌, IsTrue};
ghost use Rattle.arrow_column.specs.Column.{slots_of};
ghost use Rattle.arrow_column.specs.ArrayEquality.{same_typed_slots};
ghost use Rattle.arrow_memory.specs.NumberEquality.{same_numbers};

use crate::ByteArray;
use arrow_bytes::ByteKind;
use arrow_types::offset::Offset;

impl<K: ByteKind, O: Offset> PartialEq for ByteArray<K, O> {
    ghost use Rattle.std.specs.Cmp.{decided, on_per, partial_equiv_from_equiv};
    ghost use Rattle.arrow_column.specs.ArrayEquality.{same_typed, same_typed_slots, typed_slots};
    ghost use Rattle.arrow_memory.specs.NumberEquality.{same_numbers};
    ghost use Rattle.arrow_bytes.specs.Equality.{typed_bytes-Decides};

    ghost eq = { same_typed_slots same_numbers };

    ghost laws = { on_per typed_slots
        (partial_equiv_from_equiv (decided (same_typed same_numbers) typed_bytes-Decides)) };

    /// Returns whether both have the same data type and the same slots. Held masks and values under
    /// nulls are not compared.
    fn eq(&self, other: &Self) -> bool
        ensures value { result ≡ same_typed_slots same_numbers self.now other.now }
        ensures decides { IsTrue result ↔ ((self.now.data_type ≡ other.now.data_type)
            × (slots_of self.now ≡ slots_of other.now)) }
    {
        self.column.has_typed_slots_of(&other.column)
    }
}

impl<K: ByteKind, O: Offset> Eq for ByteArray<K, O> {
    ghost use Rattle.std.specs.Cmp.{decided, on_equiv};
    ghost use Rattle.arrow_column.specs.ArrayEquality.{same_typed, typed_slots};
    ghost use Rattle.arrow_memory.specs.NumberEquality.{same_numbers};
    ghost use Rattle.arrow_bytes.specs.Equality.{typed_bytes-Decides};

    ghost laws = { on_equiv typed_slots (decided (same_typed same_numbers) typed_bytes-Decides) };
}
