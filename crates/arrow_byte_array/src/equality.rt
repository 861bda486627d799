//! Equality of builders, which compares slots alone, and not data types.
ghost use Rattle.std.specs.Prelude.{◌≡◌, ◌↔◌, IsTrue};
ghost use Rattle.arrow_column.specs.Column.{slots_of};
ghost use Rattle.arrow_column.specs.SlotEquality.{same_slots};
ghost use Rattle.arrow_memory.specs.NumberEquality.{same_numbers};

use crate::{MutableByteArray, MutableByteValuesArray};
use arrow_bytes::ByteKind;
use arrow_types::offset::Offset;

impl<K: ByteKind, O: Offset> PartialEq for MutableByteArray<K, O> {
    ghost use Rattle.std.specs.Cmp.{decided, on_per, partial_equiv_from_equiv};
    ghost use Rattle.arrow_column.specs.Column.{slots_of};
    ghost use Rattle.arrow_column.specs.SlotEquality.{same_slots};
    ghost use Rattle.arrow_memory.specs.NumberEquality.{same_numbers};
    ghost use Rattle.arrow_bytes.specs.Equality.{same_byte_slots-Decides};

    ghost eq = { λ first second. same_slots same_numbers (slots_of first) (slots_of second) };

    ghost laws = { on_per slots_of (partial_equiv_from_equiv (decided _ same_byte_slots-Decides)) };

    /// Returns whether both have the same slots. Data types, held masks and values under nulls are not compared.
    fn eq(&self, other: &Self) -> bool
        ensures value { result ≡ same_slots same_numbers (slots_of self.now) (slots_of other.now) }
        ensures decides { IsTrue result ↔ slots_of self.now ≡ slots_of other.now }
    {
        self.column.has_slots_of(&other.column)
    }
}

impl<K: ByteKind, O: Offset> Eq for MutableByteArray<K, O> {
    ghost use Rattle.std.specs.Cmp.{decided, on_equiv};
    ghost use Rattle.arrow_column.specs.Column.{slots_of};
    ghost use Rattle.arrow_bytes.specs.Equality.{same_byte_slots-Decides};

    ghost laws = { on_equiv slots_of (decided _ same_byte_slots-Decides) };
}

impl<K: ByteKind, O: Offset> PartialEq for MutableByteValuesArray<K, O> {
    ghost use Rattle.std.specs.Cmp.{decided, on_per, partial_equiv_from_equiv};
    ghost use Rattle.arrow_column.specs.Column.{slots_of};
    ghost use Rattle.arrow_column.specs.SlotEquality.{same_slots};
    ghost use Rattle.arrow_memory.specs.NumberEquality.{same_numbers};
    ghost use Rattle.arrow_bytes.specs.Equality.{same_byte_slots-Decides};

    ghost eq = { λ first second. same_slots same_numbers (slots_of first) (slots_of second) };

    ghost laws = { on_per slots_of (partial_equiv_from_equiv (decided _ same_byte_slots-Decides)) };

    /// Returns whether both have the same items. Data types and bytes before the first item are not compared.
    fn eq(&self, other: &Self) -> bool
        ensures value { result ≡ same_slots same_numbers (slots_of self.now) (slots_of other.now) }
        ensures decides { IsTrue result ↔ slots_of self.now ≡ slots_of other.now }
    {
        self.column.has_slots_of(&other.column)
    }
}

impl<K: ByteKind, O: Offset> Eq for MutableByteValuesArray<K, O> {
    ghost use Rattle.std.specs.Cmp.{decided, on_equiv};
    ghost use Rattle.arrow_column.specs.Column.{slots_of};
    ghost use Rattle.arrow_bytes.specs.Equality.{same_byte_slots-Decides};

    ghost laws = { on_equiv slots_of (decided _ same_byte_slots-Decides) };
}
