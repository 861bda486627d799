//! Growth of builders by many slots. From an iterator those before a failure stay; from a builder or an array all come,
//! or none.
ghost use Rattle.std.specs.Prelude.{OnOk, IfErr};
ghost use Rattle.std.specs.Iterator.{IsFinite};
ghost use Rattle.arrow_column.specs.Column.{cut_with, FitsCut, joined};
ghost use Rattle.arrow_column.specs.Growth.{Grows, GrowthKeeps};
ghost use Rattle.arrow_bytes.specs.Column.{joins_overflow};
ghost use Rattle.arrow_bytes.specs.Pieces.{around_cut};
ghost use Rattle.arrow_bytes.specs.Appends.{JoinsBytes, JoinKeepsBytes, BytesBySlots, BytesByItems, BytesStopInSlots};
ghost use Rattle.arrow_bytes.specs.Appends.{BytesStopInItems};

use crate::{ByteArray, MutableByteArray, MutableByteValuesArray};
use arrow_bytes::{ByteItem, ByteKind, ItemError};
use arrow_types::error::Error;
use arrow_types::offset::Offset;

impl<K: ByteKind, O: Offset> MutableByteArray<K, O> {
    /// Appends the slots of an iterator. `size_hint` is only used to reserve room; a reservation
    /// that fails is ignored.
    ///
    /// # Errors
    /// - `Overflow` at the first slot whose bytes would end past the greatest offset.
    /// - `OutOfMemory` if an allocation fails.
    ///
    /// The slots before the failure stay appended.
    pub fn extend<X: ByteItem<K> + ItemError, I: Iterator<Item = Option<X>>>(
        &mut self,
        iter: I,
    ) -> Result<(), X::Error>
        requires can { I.can_next iter }
        requires ends { IsFinite (I.remaining iter) }
        ensures ok { OnOk result (BytesBySlots X.bytes O.most I.next_gives iter self.old self.new) }
        ensures err { IfErr result (λ e. BytesStopInSlots X.bytes O.most I.next_gives iter self.old self.new
            (X.error e)) }
    {
        match self.column.extend(iter) {
            Ok(()) => Ok(()),
            Err(refused) => Err(X::from_error(refused)),
        }
    }

    /// Appends the slots of an iterator, as `extend`.
    ///
    /// # Errors
    /// As `extend`.
    pub fn try_extend<X: ByteItem<K> + ItemError, I: Iterator<Item = Option<X>>>(
        &mut self,
        iter: I,
    ) -> Result<(), X::Error>
        requires can { I.can_next iter }
        requires ends { IsFinite (I.remaining iter) }
        ensures ok { OnOk result (BytesBySlots X.bytes O.most I.next_gives iter self.old self.new) }
        ensures err { IfErr result (λ e. BytesStopInSlots X.bytes O.most I.next_gives iter self.old self.new
            (X.error e)) }
    {
        self.extend(iter)
    }

    /// Appends valid slots with the items of an iterator. `size_hint` is only used to reserve room;
    /// a reservation that fails is ignored.
    ///
    /// # Errors
    /// - `Overflow` at the first item that would end past the greatest offset.
    /// - `OutOfMemory` if an allocation fails.
    ///
    /// The items before the failure stay appended.
    pub fn extend_values<X: ByteItem<K> + ItemError, I: Iterator<Item = X>>(
        &mut self,
        iter: I,
    ) -> Result<(), X::Error>
        requires can { I.can_next iter }
        requires ends { IsFinite (I.remaining iter) }
        ensures ok { OnOk result (BytesByItems X.bytes O.most I.next_gives iter self.old self.new) }
        ensures err { IfErr result (λ e. BytesStopInItems X.bytes O.most I.next_gives iter self.old self.new
            (X.error e)) }
    {
        match self.column.extend_values(iter) {
            Ok(()) => Ok(()),
            Err(refused) => Err(X::from_error(refused)),
        }
    }

    /// Appends the rows of another builder. The data type stays; a mask is held if either builder
    /// held one.
    ///
    /// # Errors
    /// - `Overflow` if the bytes would end past the greatest offset; this is checked first.
    /// - `OutOfMemory` if an allocation fails.
    ///
    /// The builder is unchanged on an error.
    pub fn try_extend_from_self(&mut self, other: &Self) -> Result<(), Error>
        ensures ok { Grows result (joins_overflow O.most self.old other.now)
            self.new (joined self.old other.now) }
        ensures err { GrowthKeeps result (joins_overflow O.most self.old other.now) self.old self.new }
    {
        self.column.try_extend_from_self(&other.column)
    }

    /// Appends the rows of the `len` slots of an array from `offset` on. The data type stays; a
    /// mask is held if the builder or the array held one.
    ///
    /// # Errors
    /// - `Overflow` if the bytes would end past the greatest offset; this is checked first.
    /// - `OutOfMemory` if an allocation fails.
    ///
    /// The builder is unchanged on an error.
    pub fn extend_from_array(
        &mut self,
        array: &ByteArray<K, O>,
        offset: usize,
        len: usize,
    ) -> Result<(), Error>
        requires { FitsCut array.now offset len }
        ensures ok { JoinsBytes result O.most self.old (cut_with around_cut array.now offset len) self.new }
        ensures err { JoinKeepsBytes result O.most self.old (cut_with around_cut array.now offset len) self.new }
    {
        self.column.extend_from_frozen(&array.column, offset, len)
    }
}

impl<K: ByteKind, O: Offset> MutableByteValuesArray<K, O> {
    /// Appends the items of an iterator. `size_hint` is only used to reserve room; a reservation
    /// that fails is ignored.
    ///
    /// # Errors
    /// - `Overflow` at the first item that would end past the greatest offset.
    /// - `OutOfMemory` if an allocation fails.
    ///
    /// The items before the failure stay appended.
    pub fn extend<X: ByteItem<K> + ItemError, I: Iterator<Item = X>>(
        &mut self,
        iter: I,
    ) -> Result<(), X::Error>
        requires can { I.can_next iter }
        requires ends { IsFinite (I.remaining iter) }
        ensures ok { OnOk result (BytesByItems X.bytes O.most I.next_gives iter self.old self.new) }
        ensures err { IfErr result (λ e. BytesStopInItems X.bytes O.most I.next_gives iter self.old self.new
            (X.error e)) }
    {
        match self.column.extend_unmasked(iter) {
            Ok(()) => Ok(()),
            Err(refused) => Err(X::from_error(refused)),
        }
    }

    /// Appends the items of an iterator, as `extend`.
    ///
    /// # Errors
    /// As `extend`.
    pub fn try_extend<X: ByteItem<K> + ItemError, I: Iterator<Item = X>>(
        &mut self,
        iter: I,
    ) -> Result<(), X::Error>
        requires can { I.can_next iter }
        requires ends { IsFinite (I.remaining iter) }
        ensures ok { OnOk result (BytesByItems X.bytes O.most I.next_gives iter self.old self.new) }
        ensures err { IfErr result (λ e. BytesStopInItems X.bytes O.most I.next_gives iter self.old self.new
            (X.error e)) }
    {
        self.extend(iter)
    }

    /// Appends the items of another builder. The data type stays.
    ///
    /// # Errors
    /// - `Overflow` if the bytes would end past the greatest offset; this is checked first.
    /// - `OutOfMemory` if an allocation fails.
    ///
    /// The builder is unchanged on an error.
    pub fn try_extend_from_self(&mut self, other: &Self) -> Result<(), Error>
        ensures ok { Grows result (joins_overflow O.most self.old other.now)
            self.new (joined self.old other.now) }
        ensures err { GrowthKeeps result (joins_overflow O.most self.old other.now) self.old self.new }
    {
        self.column.try_extend_from_self(&other.column)
    }
}
