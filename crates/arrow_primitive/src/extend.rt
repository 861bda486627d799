//! Growth of builders by many slots. From an iterator those before a failure stay; from a slice, a builder or an array
//! all come, or none.
ghost use Rattle.std.specs.Prelude.{◌≡◌, replicate, IfSome, IfNone, OnOk, IfErr};
ghost use Rattle.std.specs.Iterator.{IsFinite};
ghost use Rattle.arrow_types.specs.Failures.{OutOfMemoryKeeps};
ghost use Rattle.arrow_column.specs.Column.{append_nulls, append_values, cut, FitsCut, joined};
ghost use Rattle.arrow_column.specs.Appends.{ExtendsAll, ExtendsUntil, ExtendsAllValues, ExtendsValuesUntil};

use crate::{MutablePrimitiveArray, PrimitiveArray};
use arrow_column::Repeated;
use arrow_types::error::Error;
use arrow_types::native_type::NativeType;

#[tactic(auto, using(crate::proofs::SlotLemmas::slot_steps))]
impl<T: NativeType> MutablePrimitiveArray<T> {
    /// Appends the slots of an iterator. `size_hint` is only used to reserve room; a reservation
    /// that fails is ignored.
    ///
    /// # Errors
    /// `OutOfMemory` if an allocation fails; the slots before the failure stay appended.
    pub fn extend<I: Iterator<Item = Option<T>>>(&mut self, iter: I) -> Result<(), Error>
        requires can { I.can_next iter }
        requires ends { IsFinite (I.remaining iter) }
        ensures ok { OnOk result (ExtendsAll T.zero I.next_gives iter self.old self.new) }
        ensures err { IfErr result (ExtendsUntil T.zero I.next_gives iter self.old self.new) }
    {
        self.column.extend(iter)
    }

    /// Appends the slots of an iterator, as [`MutablePrimitiveArray::extend`].
    ///
    /// # Errors
    /// As `extend`.
    pub fn try_extend<I: Iterator<Item = Option<T>>>(&mut self, iter: I) -> Result<(), Error>
        requires can { I.can_next iter }
        requires ends { IsFinite (I.remaining iter) }
        ensures ok { OnOk result (ExtendsAll T.zero I.next_gives iter self.old self.new) }
        ensures err { IfErr result (ExtendsUntil T.zero I.next_gives iter self.old self.new) }
    {
        self.extend(iter)
    }

    /// Appends valid slots with the values of an iterator. `size_hint` is only used to reserve
    /// room; a reservation that fails is ignored.
    ///
    /// # Errors
    /// `OutOfMemory` if an allocation fails; the values before the failure stay appended.
    pub fn extend_values<I: Iterator<Item = T>>(&mut self, iter: I) -> Result<(), Error>
        requires can { I.can_next iter }
        requires ends { IsFinite (I.remaining iter) }
        ensures ok { OnOk result (ExtendsAllValues T.zero I.next_gives iter self.old self.new) }
        ensures err { IfErr result (ExtendsValuesUntil T.zero I.next_gives iter self.old self.new) }
    {
        self.column.extend_values(iter)
    }

    /// Appends valid slots with the values of a slice.
    ///
    /// # Errors
    /// `OutOfMemory` if an allocation fails; the builder is then unchanged.
    #[inline(always)]
    pub fn extend_from_slice(&mut self, items: &[T]) -> Result<(), Error>
        ensures ok { OnOk result (self.new ≡ append_values self.old items.now) }
        ensures err { OutOfMemoryKeeps result self.old self.new }
    {
        self.column.grow_valid(items)
    }

    /// Appends `additional` equal slots. A null stores the default value, and the builder holds a
    /// mask from then on, also if no slot is appended.
    ///
    /// # Errors
    /// `OutOfMemory` if an allocation fails or the length would pass `usize::MAX`; the builder is
    /// then unchanged.
    pub fn extend_constant(&mut self, additional: usize, value: Option<T>) -> Result<(), Error>
        ensures valid { IfSome value (λ x. OnOk result (self.new ≡ append_values self.old (replicate additional x))) }
        ensures null { IfNone value (OnOk result (self.new ≡ append_nulls self.old (replicate additional T.zero))) }
        ensures err { OutOfMemoryKeeps result self.old self.new }
    {
        match value {
            Some(value) => self.column.grow_valid(Repeated {
                value,
                count: additional,
            }),
            None => self.column.grow_null(Repeated {
                value: T::default(),
                count: additional,
            }),
        }
    }

    /// Appends the rows of another builder. The data type stays; a mask is held if either builder
    /// held one.
    ///
    /// # Errors
    /// `OutOfMemory` if an allocation fails; the builder is then unchanged.
    pub fn try_extend_from_self(&mut self, other: &Self) -> Result<(), Error>
        ensures ok { OnOk result (self.new ≡ joined self.old other.now) }
        ensures err { OutOfMemoryKeeps result self.old self.new }
    {
        self.column.try_extend_from_self(&other.column)
    }

    /// Appends the rows of the `len` slots of an array from `offset` on. The data type stays; a
    /// mask is held if the builder or the array held one.
    ///
    /// # Errors
    /// `OutOfMemory` if an allocation fails; the builder is then unchanged.
    pub fn extend_from_array(
        &mut self,
        array: &PrimitiveArray<T>,
        offset: usize,
        len: usize,
    ) -> Result<(), Error>
        requires { FitsCut array.now offset len }
        ensures ok { OnOk result (self.new ≡ joined self.old (cut array.now offset len)) }
        ensures err { OutOfMemoryKeeps result self.old self.new }
    {
        self.column.extend_from_frozen(&array.column, offset, len)
    }
}
