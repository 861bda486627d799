//! What every kind of array and builder says of its slots, as its value does (`value_of`).
ghost use Rattle.std.specs.Prelude.{◌≡◌, ◌<◌, IfErr, IfOk, IsTrue, Some, length, not, slice_get};
ghost use Rattle.arrow_types.specs.Types.{logical_type};
ghost use Rattle.arrow_column.specs.Column.{marks_of, slots_of, stored_values};
ghost use Rattle.arrow_entry.specs.Entry.{value_of};
ghost use Rattle.arrow_entry.specs.Slot.{stored_ref};
ghost use Rattle.arrow_model.specs.Item.{has_bytes, stored_item, stored_slot};
ghost use Rattle.arrow_model.specs.Kind.{is_var_binary};

use crate::{Entry, Item, SlotRef};
use arrow_primitive::MutablePrimitiveArray;
use arrow_types::data_type::DataType;
use arrow_types::native_type::NativeType;
use arrow_types::offset::Offset;
use std::alloc::{AllocError, Global};

/// Returns what a builder stores at `i`.
#[inline(always)]
fn native_at<T: NativeType>(builder: &MutablePrimitiveArray<T>, i: usize) -> T
    requires { i < length builder.now.rows }
    ensures { slice_get (stored_values builder.now) i ≡ Some result }
{
    builder.values()[i]
}

#[tactic(auto, using(crate::proofs::Seen::seen_reads))]
impl<T: NativeType, O: Offset> Entry<T, O> {
    /// Returns the number of slots.
    #[inline(always)]
    pub fn len(&self) -> usize
        ensures { result ≡ length (value_of self.now).column.rows }
    {
        match self {
            Entry::Primitive(array) => array.len(),
            Entry::Boolean(array) => array.len(),
            Entry::Binary(array) => array.len(),
            Entry::Utf8(array) => array.len(),
            Entry::MutablePrimitive(builder) => builder.len(),
            Entry::MutableBoolean(builder) => builder.len(),
            Entry::MutableBinary(builder) => builder.len(),
            Entry::MutableUtf8(builder) => builder.len(),
            Entry::BinaryValues(builder) => builder.len(),
            Entry::Utf8Values(builder) => builder.len(),
        }
    }

    /// Returns whether a mask is held.
    pub fn is_masked(&self) -> bool
        ensures { result ≡ (value_of self.now).column.held }
    {
        match self {
            Entry::Primitive(array) => array.validity().is_some(),
            Entry::Boolean(array) => array.validity().is_some(),
            Entry::Binary(array) => array.validity().is_some(),
            Entry::Utf8(array) => array.validity().is_some(),
            Entry::MutablePrimitive(builder) => builder.validity().is_some(),
            Entry::MutableBoolean(builder) => builder.validity().is_some(),
            Entry::MutableBinary(builder) => builder.validity().is_some(),
            Entry::MutableUtf8(builder) => builder.validity().is_some(),
            // Called for its contract: a builder without nulls holds no mask.
            Entry::BinaryValues(builder) => {
                builder.data_type();
                false
            }
            Entry::Utf8Values(builder) => {
                builder.data_type();
                false
            }
        }
    }

    /// Returns the data type.
    pub fn data_type(&self) -> &DataType
        ensures { logical_type result.now ≡ (value_of self.now).column.data_type }
    {
        match self {
            Entry::Primitive(array) => array.data_type(),
            Entry::Boolean(array) => array.data_type(),
            Entry::Binary(array) => array.data_type(),
            Entry::Utf8(array) => array.data_type(),
            Entry::MutablePrimitive(builder) => builder.data_type(),
            Entry::MutableBoolean(builder) => builder.data_type(),
            Entry::MutableBinary(builder) => builder.data_type(),
            Entry::MutableUtf8(builder) => builder.data_type(),
            Entry::BinaryValues(builder) => builder.data_type(),
            Entry::Utf8Values(builder) => builder.data_type(),
        }
    }

    /// Returns whether the slot at `i` is null.
    #[tactic(auto, using(crate::proofs::Seen::seen_counts, crate::proofs::Seen::seen_reads, crate::proofs::Seen::seen_places, crate::proofs::SlotLemmas::slot_marks))]
    #[inline(always)]
    pub fn is_null(&self, i: usize) -> bool
        requires { i < length (value_of self.now).column.rows }
        ensures { slice_get (marks_of (value_of self.now).column) i ≡ Some (not result) }
    {
        match self {
            Entry::Primitive(array) => array.is_null(i),
            Entry::Boolean(array) => array.is_null(i),
            Entry::Binary(array) => array.is_null(i),
            Entry::Utf8(array) => array.is_null(i),
            Entry::MutablePrimitive(builder) => match builder.validity() {
                None => false,
                Some(mask) => !mask.get(i),
            },
            Entry::MutableBoolean(builder) => match builder.validity() {
                None => false,
                Some(mask) => !mask.get(i),
            },
            Entry::MutableBinary(builder) => match builder.validity() {
                None => false,
                Some(mask) => !mask.get(i),
            },
            Entry::MutableUtf8(builder) => match builder.validity() {
                None => false,
                Some(mask) => !mask.get(i),
            },
            // Called for its contract: a builder without nulls has no null slot.
            Entry::BinaryValues(builder) => {
                builder.data_type();
                false
            }
            Entry::Utf8Values(builder) => {
                builder.data_type();
                false
            }
        }
    }

    /// Returns what the slot at `i` stores, also if it is null.
    #[tactic(auto, using(crate::proofs::Seen::seen_counts, crate::proofs::Seen::seen_reads, crate::proofs::Seen::seen_places, crate::proofs::SlotLemmas::slot_marks))]
    #[inline(always)]
    pub fn slot_ref(&self, i: usize) -> SlotRef<'_, T>
        requires { i < length (value_of self.now).column.rows }
        ensures stored { slice_get (stored_values (value_of self.now).column) i ≡ Some (stored_ref result) }
        ensures bytes { has_bytes (stored_ref result) ≡ is_var_binary (value_of self.now).shape }
    {
        match self {
            Entry::Primitive(array) => SlotRef::Value(array.value(i)),
            Entry::Boolean(array) => SlotRef::Bit(array.value(i)),
            Entry::Binary(array) => SlotRef::Bytes(array.value(i)),
            Entry::Utf8(array) => SlotRef::Text(array.value(i)),
            Entry::MutablePrimitive(builder) => SlotRef::Value(native_at(builder, i)),
            Entry::MutableBoolean(builder) => SlotRef::Bit(builder.values().get(i)),
            Entry::MutableBinary(builder) => SlotRef::Bytes(builder.value(i)),
            Entry::MutableUtf8(builder) => SlotRef::Text(builder.value(i)),
            Entry::BinaryValues(builder) => SlotRef::Bytes(builder.value(i)),
            Entry::Utf8Values(builder) => SlotRef::Text(builder.value(i)),
        }
    }

    /// Returns what the slot at `i` stores, also if it is null; bytes and texts are copied.
    ///
    /// # Errors
    /// `AllocError` if the copy of bytes or of a text fails.
    pub fn item(&self, alloc: Global, i: usize) -> Result<Item<T>, AllocError>
        requires { i < length (value_of self.now).column.rows }
        ensures ok { IfOk result (λ item. slice_get (stored_values (value_of self.now).column) i
            ≡ Some (stored_item item)) }
        ensures err { IfErr result (λ _. IsTrue (is_var_binary (value_of self.now).shape)) }
    {
        self.slot_ref(i).to_item(alloc)
    }

    /// Returns the slot at `i`; bytes and texts are copied.
    ///
    /// # Errors
    /// `AllocError` if the copy of bytes or of a text fails.
    #[tactic(auto, using(crate::proofs::SlotLemmas::slot_reads))]
    pub fn get(&self, alloc: Global, i: usize) -> Result<Option<Item<T>>, AllocError>
        requires { i < length (value_of self.now).column.rows }
        ensures ok { IfOk result (λ slot. slice_get (slots_of (value_of self.now).column) i ≡ Some (stored_slot slot)) }
        ensures err { IfErr result (λ _. IsTrue (is_var_binary (value_of self.now).shape)) }
    {
        if self.is_null(i) {
            return Ok(None);
        }
        Ok(Some(self.item(alloc, i)?))
    }
}
