//! Extension of columns by the items of an iterator. If a growth fails, the slots before it stay.
ghost use Rattle.std.specs.Prelude.{◌≡◌, Option, Some, map, OnOk, IfErr};
ghost use Rattle.std.specs.Iterator.{IsFinite};
ghost use Rattle.arrow_column.specs.Appends.{AppendsSlots, ExtendsByItems, ExtendsBySlots};
ghost use Rattle.arrow_column.specs.Appends.{StopsAmongSlots, StopsInItems, StopsInSlots};

use crate::GrowingColumn;
use crate::values::{MutableValues, PushValue};
use arrow_types::error::Error;

#[tactic(auto, using(crate::proofs::RowLemmas::row_steps))]
impl<V: MutableValues> GrowingColumn<V> {
    /// Appends the slots of an iterator. `size_hint` is only used to reserve room; a reservation
    /// that fails is ignored.
    ///
    /// # Errors
    /// - `Overflow` at the first slot that would overflow the values' type.
    /// - `OutOfMemory` if an allocation fails.
    ///
    /// The slots before the failure stay appended.
    pub fn extend<X, I: Iterator<Item = Option<X>>>(&mut self, slots: I) -> Result<(), Error>
    where
        V: PushValue<X>,
        requires can { I.can_next slots }
        requires ends { IsFinite (I.remaining slots) }
        ensures data_type { self.new.data_type ≡ self.old.data_type }
        ensures ok { OnOk result (ExtendsBySlots V.overflows V.shown V.default I.next_gives slots self.old self.new) }
        ensures err { IfErr result (λ e. StopsInSlots V.overflows V.shown V.default I.next_gives slots self.old
            self.new e) }
    {
        let (least, _) = slots.size_hint();
        // Where as much is refused at once, each slot asks for its own room.
        let _ = self.reserve(least);
        for slot in slots {
            self.push(slot)?;
        }
        Ok(())
    }

    /// Appends valid slots with the values of an iterator. `size_hint` is only used to reserve
    /// room; a reservation that fails is ignored.
    ///
    /// # Errors
    /// - `Overflow` at the first value that would overflow the values' type.
    /// - `OutOfMemory` if an allocation fails.
    ///
    /// The values before the failure stay appended.
    pub fn extend_values<X, I: Iterator<Item = X>>(&mut self, values: I) -> Result<(), Error>
    where
        V: PushValue<X>,
        requires can { I.can_next values }
        requires ends { IsFinite (I.remaining values) }
        ensures data_type { self.new.data_type ≡ self.old.data_type }
        ensures ok { OnOk result (ExtendsByItems V.overflows V.shown V.default I.next_gives values self.old self.new) }
        ensures err { IfErr result (λ e. StopsInItems V.overflows V.shown V.default I.next_gives values self.old
            self.new e) }
    {
        let (least, _) = values.size_hint();
        // Where as much is refused at once, each value asks for its own room.
        let _ = self.reserve(least);
        for value in values {
            self.push_valid(value)?;
        }
        Ok(())
    }

    /// Appends valid slots with the values of a slice.
    ///
    /// # Errors
    /// - `Overflow` at the first value that would overflow the values' type.
    /// - `OutOfMemory` if an allocation fails.
    ///
    /// The values before the failure stay appended.
    pub fn extend_from_values<X: Copy>(&mut self, values: &[X]) -> Result<(), Error>
    where
        V: PushValue<X>,
        ensures data_type { self.new.data_type ≡ self.old.data_type }
        ensures ok { OnOk result (AppendsSlots V.overflows V.shown V.default self.old (map Some values.now) self.new) }
        ensures err { IfErr result (StopsAmongSlots V.overflows V.shown V.default (map Some values.now) self.old self.new) }
    {
        for value in values {
            match self.push_valid(*value) {
                Ok(()) => (),
                Err(refused) => return Err(refused),
            }
        }
        Ok(())
    }

    /// Appends the slots of a slice.
    ///
    /// # Errors
    /// - `Overflow` at the first slot that would overflow the values' type.
    /// - `OutOfMemory` if an allocation fails.
    ///
    /// The slots before the failure stay appended.
    pub fn extend_from_slots<X: Copy>(&mut self, slots: &[Option<X>]) -> Result<(), Error>
    where
        V: PushValue<X>,
        ensures data_type { self.new.data_type ≡ self.old.data_type }
        ensures ok { OnOk result (AppendsSlots V.overflows V.shown V.default self.old slots.now self.new) }
        ensures err { IfErr result (λ e. StopsAmongSlots V.overflows V.shown V.default slots.now self.old self.new e) }
    {
        for slot in slots {
            match self.push(*slot) {
                Ok(()) => (),
                Err(refused) => return Err(refused),
            }
        }
        Ok(())
    }
}
