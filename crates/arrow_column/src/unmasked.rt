//! Columns that hold no mask, and grow without looking for one, as the results of kernels do.
ghost use Rattle.std.specs.Prelude.{◌≡◌, false, Some, OnOk, IfErr};
ghost use Rattle.std.specs.Iterator.{IsFinite};
ghost use Rattle.arrow_types.specs.Failures.{OutOfMemoryKeeps};
ghost use Rattle.arrow_column.specs.Appends.{ExtendsByItems, StopsInItems};
ghost use Rattle.arrow_column.specs.Column.{append_slot, push_item, column_overflows};
ghost use Rattle.arrow_column.specs.Growth.{Grows, GrowthKeeps};

use crate::GrowingColumn;
use crate::values::{MutableValues, PushValue};
use arrow_types::error::Error;

#[tactic(auto, using(crate::proofs::RowLemmas::row_steps))]
impl<V: MutableValues> GrowingColumn<V> {
    /// Appends a valid slot to a column that holds no mask.
    ///
    /// # Errors
    /// As `push_valid`.
    #[inline(always)]
    pub fn push_unmasked<X>(&mut self, value: X) -> Result<(), Error>
    where
        V: PushValue<X>,
        requires { self.old.held ≡ false }
        ensures data_type { self.new.data_type ≡ self.old.data_type }
        ensures held { self.new.held ≡ false }
        ensures ok { Grows result (column_overflows V.overflows self.old value) self.new
            (push_item V.shown V.default self.old value) }
        ensures err { GrowthKeeps result (column_overflows V.overflows self.old value) self.old self.new }
    {
        self.values.push_value(value)
    }

    /// Appends a valid slot that stores the default to a column that holds no mask.
    ///
    /// # Errors
    /// `OutOfMemory` if an allocation fails; the column is then unchanged.
    #[inline(always)]
    pub fn push_unmasked_default(&mut self) -> Result<(), Error>
        requires { self.old.held ≡ false }
        ensures data_type { self.new.data_type ≡ self.old.data_type }
        ensures held { self.new.held ≡ false }
        ensures ok { OnOk result (self.new ≡ append_slot V.default self.old (Some V.default)) }
        ensures err { OutOfMemoryKeeps result self.old self.new }
    {
        self.values.push_default()
    }

    /// Appends valid slots with the values of an iterator to a column that holds no mask.
    /// `size_hint` is only used to reserve room; a reservation that fails is ignored.
    ///
    /// # Errors
    /// - `Overflow` at the first value that would overflow the values' type.
    /// - `OutOfMemory` if an allocation fails.
    ///
    /// The values before the failure stay appended.
    pub fn extend_unmasked<X, I: Iterator<Item = X>>(&mut self, values: I) -> Result<(), Error>
    where
        V: PushValue<X>,
        requires bare { self.old.held ≡ false }
        requires can { I.can_next values }
        requires ends { IsFinite (I.remaining values) }
        ensures held { self.new.held ≡ false }
        ensures data_type { self.new.data_type ≡ self.old.data_type }
        ensures ok { OnOk result (ExtendsByItems V.overflows V.shown V.default I.next_gives values self.old self.new) }
        ensures err { IfErr result (λ e. StopsInItems V.overflows V.shown V.default I.next_gives values self.old
            self.new e) }
    {
        let (least, _) = values.size_hint();
        // Where as much is refused at once, each value asks for its own room.
        let _ = self.reserve(least);
        for value in values {
            self.push_unmasked(value)?;
        }
        Ok(())
    }
}
