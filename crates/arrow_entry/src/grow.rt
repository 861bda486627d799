//! Slots that are appended to an entry, one by one, if the entry can take them.
ghost use Rattle.std.specs.Prelude.{◌≡◌, IsTrue, OnOk, Some};
ghost use Rattle.arrow_types.specs.Failures.{OutOfMemoryKeeps};
ghost use Rattle.arrow_entry.specs.Entry.{Pushes, RefusedPushKeeps, value_of};
ghost use Rattle.arrow_model.specs.Change.{null_pushed};
ghost use Rattle.arrow_model.specs.Item.{can_push, fits, stored_item, stored_slot};
ghost use Rattle.arrow_model.specs.Kind.{is_builder};
ghost use Rattle.arrow_model.specs.Value.{types_of};

use crate::{Entry, Item};
use arrow_types::error::Error;
use arrow_types::native_type::NativeType;
use arrow_types::offset::Offset;

#[tactic(auto, using(crate::proofs::Seen::seen_reads, crate::proofs::Seen::seen_pushes, crate::proofs::Seen::seen_bytes))]
impl<T: NativeType, O: Offset> Entry<T, O> {
    /// Returns whether a slot can be pushed: the entry is a builder, the slot's item fits its kind, and the slot is
    /// null only if the builder has nulls.
    #[inline(always)]
    pub fn can_push(&self, slot: &Option<Item<T>>) -> bool
        ensures { result ≡ can_push (value_of self.now).shape (stored_slot slot.now) }
    {
        match slot {
            None => matches!(
                self,
                Entry::MutablePrimitive(_)
                    | Entry::MutableBoolean(_)
                    | Entry::MutableBinary(_)
                    | Entry::MutableUtf8(_)
            ),
            Some(Item::Value(_)) => matches!(self, Entry::MutablePrimitive(_)),
            Some(Item::Bit(_)) => matches!(self, Entry::MutableBoolean(_)),
            Some(Item::Bytes(_)) => matches!(
                self,
                Entry::MutableBinary(_) | Entry::BinaryValues(_)
            ),
            Some(Item::Text(_)) => matches!(self, Entry::MutableUtf8(_) | Entry::Utf8Values(_)),
        }
    }

    /// Appends a null to a builder, or an empty item to one without nulls.
    ///
    /// # Errors
    /// `OutOfMemory` if an allocation fails; the builder is then as before.
    #[inline(always)]
    pub fn push_null(&mut self) -> Result<(), Error>
        requires { IsTrue (is_builder (value_of self.old).shape) }
        ensures ok { OnOk result (value_of self.new ≡ null_pushed (types_of T.NativeType O.Offset) (value_of self.old)) }
        ensures err { OutOfMemoryKeeps result (value_of self.old) (value_of self.new) }
    {
        match self {
            Entry::MutablePrimitive(builder) => builder.push_null(),
            Entry::MutableBoolean(builder) => builder.push_null(),
            Entry::MutableBinary(builder) => builder.push_null(),
            Entry::MutableUtf8(builder) => builder.push_null(),
            Entry::BinaryValues(builder) => builder.push_null(),
            Entry::Utf8Values(builder) => builder.push_null(),
            _ => unreachable!(),
        }
    }

    /// Appends an item that fits the builder's kind.
    ///
    /// # Errors
    /// `Overflow` if offsets can't express its end, or else `OutOfMemory`; the builder is then as before.
    #[inline(always)]
    pub fn push_item(&mut self, item: &Item<T>) -> Result<(), Error>
        requires builder { IsTrue (is_builder (value_of self.old).shape) }
        requires fits { IsTrue (fits (value_of self.old).shape.value_kind (stored_item item.now)) }
        ensures ok { Pushes T.NativeType O.Offset result self.old (Some (stored_item item.now)) self.new }
        ensures err { RefusedPushKeeps T.NativeType O.Offset result self.old (Some (stored_item item.now)) self.new }
    {
        match item {
            Item::Value(x) => match self {
                Entry::MutablePrimitive(builder) => builder.push(Some(*x)),
                _ => unreachable!(),
            },
            Item::Bit(x) => match self {
                Entry::MutableBoolean(builder) => builder.push(Some(*x)),
                _ => unreachable!(),
            },
            Item::Bytes(x) => match self {
                Entry::MutableBinary(builder) => builder.push(Some(x.as_slice())),
                Entry::BinaryValues(builder) => builder.push(x.as_slice()),
                _ => unreachable!(),
            },
            Item::Text(x) => match self {
                Entry::MutableUtf8(builder) => builder.push(Some(x.as_str())),
                Entry::Utf8Values(builder) => builder.push(x.as_str()),
                _ => unreachable!(),
            },
        }
    }

    /// Appends a slot that the builder takes.
    ///
    /// # Errors
    /// `Overflow` if offsets can't express its end, or else `OutOfMemory`; the builder is then as before.
    #[inline(always)]
    pub fn push_slot(&mut self, slot: &Option<Item<T>>) -> Result<(), Error>
        requires { IsTrue (can_push (value_of self.old).shape (stored_slot slot.now)) }
        ensures ok { Pushes T.NativeType O.Offset result self.old (stored_slot slot.now) self.new }
        ensures err { RefusedPushKeeps T.NativeType O.Offset result self.old (stored_slot slot.now) self.new }
    {
        match slot {
            None => self.push_null(),
            Some(item) => self.push_item(item),
        }
    }
}
