//! Changes of columns in place: of one slot, or of all stored values.
ghost use Rattle.std.specs.Prelude.{◌≡◌, ◌<◌, length, OnOk, IfErr, option_map};
ghost use Rattle.arrow_types.specs.Failures.{OutOfMemoryKeeps};
ghost use Rattle.arrow_column.specs.Column.{with_slot, with_stored};

use crate::mask::{set_null_mark, set_valid_mark};
use crate::values::{MutableValues, SetValue, Values};
use crate::{FrozenColumn, GrowingColumn};
use arrow_types::error::Error;

#[tactic(auto, using(crate::proofs::RowLemmas::row_steps))]
impl<V: MutableValues> GrowingColumn<V> {
    /// Replaces the slot at `i`. A null stores the default, and the column holds a mask from then
    /// on.
    ///
    /// # Errors
    /// `OutOfMemory` if an allocation for the mask fails; the column is then unchanged.
    #[inline(always)]
    pub fn set<X>(&mut self, i: usize, slot: Option<X>) -> Result<(), Error>
    where
        V: SetValue<X>,
        requires { i < length self.old.rows }
        ensures ok { OnOk result (self.new ≡ with_slot V.default self.old i (option_map V.shown slot)) }
        ensures err { OutOfMemoryKeeps result self.old self.new }
    {
        match slot {
            Some(value) => {
                self.values.set_value(i, value);
                set_valid_mark(&mut self.validity, i);
                Ok(())
            }
            None => {
                let alloc = self.values.allocated_by();
                set_null_mark(alloc, &mut self.validity, self.values.count(), i)?;
                self.values.set_default(i);
                Ok(())
            }
        }
    }

    /// Replaces the stored values by equally many others. The marks stay.
    #[inline(always)]
    pub fn set_values(&mut self, values: V)
        requires around { V.around values ≡ self.old.around }
        requires count { length (V.stored values) ≡ length self.old.rows }
        ensures { self.new ≡ with_stored self.old (V.stored values) }
    {
        self.values = values;
    }
}

#[tactic(auto, using(crate::proofs::RowLemmas::row_steps))]
impl<V: Values> FrozenColumn<V> {
    /// Replaces the stored values by equally many others. The marks stay.
    #[inline(always)]
    pub fn set_values(&mut self, values: V)
        requires around { V.around values ≡ self.old.around }
        requires count { length (V.stored values) ≡ length self.old.rows }
        ensures { self.new ≡ with_stored self.old (V.stored values) }
    {
        self.values = values;
    }
}
