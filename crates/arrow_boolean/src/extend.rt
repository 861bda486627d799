//! Growth of builders by many slots. From an iterator those before a failure stay; from a builder or an array all come,
//! or none.
ghost use Rattle.std.specs.Prelude.{◌≡◌, false, OnOk, IfErr};
ghost use Rattle.std.specs.Iterator.{IsFinite};
ghost use Rattle.arrow_types.specs.Failures.{OutOfMemoryKeeps};
ghost use Rattle.arrow_column.specs.Column.{cut, FitsCut, joined};
ghost use Rattle.arrow_column.specs.Appends.{ExtendsAll, ExtendsUntil, ExtendsAllValues, ExtendsValuesUntil};

use crate::{BooleanArray, MutableBooleanArray};
use arrow_types::error::Error;

impl MutableBooleanArray {
    /// Appends the slots of an iterator. `size_hint` is only used to reserve room; a reservation
    /// that fails is ignored.
    ///
    /// # Errors
    /// `OutOfMemory` if an allocation fails; the slots before the failure stay appended.
    pub fn extend<I: Iterator<Item = Option<bool>>>(&mut self, iter: I) -> Result<(), Error>
        requires can { I.can_next iter }
        requires ends { IsFinite (I.remaining iter) }
        ensures ok { OnOk result (ExtendsAll false I.next_gives iter self.old self.new) }
        ensures err { IfErr result (ExtendsUntil false I.next_gives iter self.old self.new) }
    {
        self.column.extend(iter)
    }

    /// Appends the slots of an iterator, as [`MutableBooleanArray::extend`].
    ///
    /// # Errors
    /// As `extend`.
    pub fn try_extend<I: Iterator<Item = Option<bool>>>(&mut self, iter: I) -> Result<(), Error>
        requires can { I.can_next iter }
        requires ends { IsFinite (I.remaining iter) }
        ensures ok { OnOk result (ExtendsAll false I.next_gives iter self.old self.new) }
        ensures err { IfErr result (ExtendsUntil false I.next_gives iter self.old self.new) }
    {
        self.extend(iter)
    }

    /// Appends valid slots with the values of an iterator. `size_hint` is only used to reserve
    /// room; a reservation that fails is ignored.
    ///
    /// # Errors
    /// `OutOfMemory` if an allocation fails; the values before the failure stay appended.
    pub fn extend_values<I: Iterator<Item = bool>>(&mut self, iter: I) -> Result<(), Error>
        requires can { I.can_next iter }
        requires ends { IsFinite (I.remaining iter) }
        ensures ok { OnOk result (ExtendsAllValues false I.next_gives iter self.old self.new) }
        ensures err { IfErr result (ExtendsValuesUntil false I.next_gives iter self.old self.new) }
    {
        self.column.extend_values(iter)
    }

    /// Appends the rows of another builder. The data type stays; a mask is held if either builder
    /// held one.
    ///
    /// # Errors
    /// `OutOfMemory` if an allocation fails; the builder is then unchanged.
    pub fn try_extend_from_self(&mut self, other: &Self) -> Result<(), Error>
        ensures ok { OnOk result (self.new ≡ joined self.old other.now) }
        ensures err { OutOfMemoryKeeps result self.old self.new }
    {
        self.column.try_extend_from_self(&other.column)
    }

    /// Appends the rows of the `len` slots of an array from `offset` on. The data type stays; a
    /// mask is held if the builder or the array held one.
    ///
    /// # Errors
    /// `OutOfMemory` if an allocation fails; the builder is then unchanged.
    pub fn extend_from_array(
        &mut self,
        array: &BooleanArray,
        offset: usize,
        len: usize,
    ) -> Result<(), Error>
        requires { FitsCut array.now offset len }
        ensures ok { OnOk result (self.new ≡ joined self.old (cut array.now offset len)) }
        ensures err { OutOfMemoryKeeps result self.old self.new }
    {
        self.column.extend_from_frozen(&array.column, offset, len)
    }
}
