//! Equality of buffers and of offsets, which are compared as lists.
ghost use Rattle.std.specs.Prelude.{◌≡◌, ◌↔◌, IsTrue};
ghost use Rattle.std.specs.Cmp.Lexicographic.{pointwise};
ghost use Rattle.arrow_memory.specs.Offsets.{KeepsOffsets, numbers_of};
ghost use Rattle.arrow_memory.specs.NumberEquality.{same_numbers};

use crate::buffer::Buffer;
use crate::offset::{Offsets, OffsetsBuffer, number_at};
use arrow_types::offset::Offset;

impl<T: PartialEq + Drop> PartialEq for Buffer<T> {
    ghost use Rattle.std.specs.Cmp.Lexicographic.{lists_per, pointwise};

    ghost eq = { pointwise T.eq };

    ghost laws = { lists_per T.PartialEq.laws };

    /// Returns whether both have as many values, each equal to the other's.
    fn eq(&self, other: &Self) -> bool
        ensures { result ≡ pointwise T.eq self.now other.now }
    {
        self.as_slice() == other.as_slice()
    }
}

impl<T: Eq + Drop> Eq for Buffer<T> {
    ghost use Rattle.std.specs.Cmp.Lexicographic.{lists_equiv};

    ghost laws = { lists_equiv T.Eq.laws };
}

/// Returns whether two lists of offsets have the same numbers.
fn same_offsets<O: Offset>(first: &[O], second: &[O]) -> bool
    requires first { KeepsOffsets O.number O.most first.now }
    requires second { KeepsOffsets O.number O.most second.now }
    ensures { IsTrue result ↔ numbers_of O.number first.now ≡ numbers_of O.number second.now }
{
    if first.len() != second.len() {
        return false;
    }
    for i in 0..first.len() {
        if number_at(first, i) != number_at(second, i) {
            return false;
        }
    }
    true
}

impl<O: Offset> PartialEq for OffsetsBuffer<O> {
    ghost use Rattle.std.specs.Cmp.{decided, partial_equiv_from_equiv};
    ghost use Rattle.arrow_memory.specs.NumberEquality.{same_numbers, same_numbers-Decides};

    ghost eq = { same_numbers };

    ghost laws = { partial_equiv_from_equiv (decided same_numbers same_numbers-Decides) };

    /// Returns whether both have the same numbers.
    fn eq(&self, other: &Self) -> bool
        ensures value { result ≡ same_numbers self.now other.now }
        ensures decides { IsTrue result ↔ self.now ≡ other.now }
    {
        same_offsets(self.offsets.as_slice(), other.offsets.as_slice())
    }
}

impl<O: Offset> Eq for OffsetsBuffer<O> {
    ghost use Rattle.std.specs.Cmp.{decided};
    ghost use Rattle.arrow_memory.specs.NumberEquality.{same_numbers, same_numbers-Decides};

    ghost laws = { decided same_numbers same_numbers-Decides };
}

impl<O: Offset> PartialEq for Offsets<O> {
    ghost use Rattle.std.specs.Cmp.{decided, partial_equiv_from_equiv};
    ghost use Rattle.arrow_memory.specs.NumberEquality.{same_numbers, same_numbers-Decides};

    ghost eq = { same_numbers };

    ghost laws = { partial_equiv_from_equiv (decided same_numbers same_numbers-Decides) };

    /// Returns whether both have the same numbers.
    fn eq(&self, other: &Self) -> bool
        ensures value { result ≡ same_numbers self.now other.now }
        ensures decides { IsTrue result ↔ self.now ≡ other.now }
    {
        same_offsets(self.offsets.as_slice(), other.offsets.as_slice())
    }
}

impl<O: Offset> Eq for Offsets<O> {
    ghost use Rattle.std.specs.Cmp.{decided};
    ghost use Rattle.arrow_memory.specs.NumberEquality.{same_numbers, same_numbers-Decides};

    ghost laws = { decided same_numbers same_numbers-Decides };
}
