//! Iterators over what slots store, asked from both ends and with skips, for the command `Turns`.
ghost use Rattle.std.specs.Prelude.{◌≡◌, IfOk, List, map, option_map, ⊤};
ghost use Rattle.std.specs.Iterator.{YieldsFirstBy, YieldsLastBy};
ghost use Rattle.arrow_column.specs.Column.{stored_values};
ghost use Rattle.arrow_entry.specs.Entry.{value_of};
ghost use Rattle.arrow_entry.specs.Slot.{AreTurnsOf, StoresAs, stored_ref};
ghost use Rattle.arrow_memory.specs.Items.{SkipsThenFirstBy};
ghost use Rattle.arrow_model.specs.Change.{TurnGives, turns_of};
ghost use Rattle.arrow_model.specs.Item.{Stored, stored_item, stored_slot};

use crate::{Entry, Item, SlotRef, Turn};
use arrow_check::accessor::ArrayAccessor;
use arrow_check::values_iter::ArrayValuesIter;
use arrow_memory::bitmap::BitmapIter;
use arrow_types::native_type::NativeType;
use arrow_types::offset::Offset;
use std::alloc::{AllocError, Global};
use std::slice::Iter;

/// An iterator from both ends that can skip items.
trait TurnsIterator: Drop {
    /// The type of the items.
    type Item;

    /// What contracts see of an item.
    ghost Seen: { Type 0 };

    /// What contracts see of this item.
    ghost seen: { Self.Item → Seen };

    /// The items that are left, in order.
    ghost left: { Self → List Seen };

    /// What holds of an iterator that may be asked; it stays so.
    ghost can_turn: { Self → Type 0 } = { λ _. ⊤ };

    /// Returns the next item from the front.
    fn first(&mut self) -> Option<Self::Item>
        requires { can_turn self.old }
        ensures keeps { can_turn self.new }
        ensures gives { YieldsFirstBy seen left self.old result self.new };

    /// Returns the next item from the back.
    fn last(&mut self) -> Option<Self::Item>
        requires { can_turn self.old }
        ensures keeps { can_turn self.new }
        ensures gives { YieldsLastBy seen left self.old result self.new };

    /// Skips `n` items from the front and returns the next.
    fn skip_to(&mut self, n: usize) -> Option<Self::Item>
        requires { can_turn self.old }
        ensures keeps { can_turn self.new }
        ensures gives { SkipsThenFirstBy seen left n self.old result self.new };
}

impl<'a, T> TurnsIterator for Iter<'a, T> {
    ghost use Rattle.std.specs.Slice.Iter.{iter_rest};

    type Item = &'a T;

    ghost Seen = { T };

    ghost seen = { λ item. item.now };

    ghost left = { iter_rest };

    fn first(&mut self) -> Option<&'a T> {
        self.next()
    }

    fn last(&mut self) -> Option<&'a T> {
        self.next_back()
    }

    fn skip_to(&mut self, n: usize) -> Option<&'a T> {
        self.nth(n)
    }
}

impl<'a> TurnsIterator for BitmapIter<'a> {
    ghost use Rattle.std.specs.Prelude.{Bool};

    type Item = bool;

    ghost Seen = { Bool };

    ghost seen = { λ mark. mark };

    ghost left = { λ marks. marks };

    fn first(&mut self) -> Option<bool> {
        self.next()
    }

    fn last(&mut self) -> Option<bool> {
        self.next_back()
    }

    fn skip_to(&mut self, n: usize) -> Option<bool> {
        self.nth(n)
    }
}

impl<'a, A: ArrayAccessor<'a>> TurnsIterator for ArrayValuesIter<'a, A> {
    ghost use Rattle.arrow_check.specs.Items.{IsWithin, rest_of};

    type Item = A::Item;

    ghost Seen = { A.Seen };

    ghost seen = { A.seen };

    ghost left = { rest_of A.items };

    ghost can_turn = { IsWithin A.items };

    fn first(&mut self) -> Option<A::Item> {
        self.next()
    }

    fn last(&mut self) -> Option<A::Item> {
        self.next_back()
    }

    fn skip_to(&mut self, n: usize) -> Option<A::Item> {
        self.nth(n)
    }
}

/// Asks an iterator for one turn.
fn turn_of<I: TurnsIterator>(items: &mut I, turn: Turn) -> Option<I::Item>
    requires { I.can_turn items.old }
    ensures keeps { I.can_turn items.new }
    ensures gives { TurnGives turn (I.left items.old) (option_map I.seen result) (I.left items.new) }
{
    match turn {
        Turn::Front => items.first(),
        Turn::Back => items.last(),
        Turn::Skip(n) => items.skip_to(n),
    }
}

/// What an iterator lends of a slot.
trait SlotItem<T>: Copy {
    /// What the slot stores.
    ghost stored: { Self → Stored T };

    /// Returns the item, whose bytes are a copy.
    ///
    /// # Errors
    /// `AllocError` if the copy of bytes or of a text fails.
    fn to_item(&self, alloc: Global) -> Result<Item<T>, AllocError>
        ensures { IfOk result (λ item. stored_item item ≡ stored self.now) };
}

impl<'a, T: NativeType> SlotItem<T> for &'a T {
    ghost use Rattle.arrow_model.specs.Item.{value};

    ghost stored = { λ item. value item.now };

    fn to_item(&self, alloc: Global) -> Result<Item<T>, AllocError> {
        SlotRef::Value(**self).to_item(alloc)
    }
}

impl<T> SlotItem<T> for bool {
    ghost use Rattle.arrow_model.specs.Item.{bit};

    ghost stored = { bit };

    fn to_item(&self, alloc: Global) -> Result<Item<T>, AllocError> {
        SlotRef::Bit(*self).to_item(alloc)
    }
}

impl<'a, T> SlotItem<T> for &'a [u8] {
    ghost use Rattle.std.specs.Prelude.{false};
    ghost use Rattle.arrow_model.specs.Item.{bytes_item};

    ghost stored = { λ item. bytes_item false item.now };

    fn to_item(&self, alloc: Global) -> Result<Item<T>, AllocError> {
        SlotRef::Bytes(*self).to_item(alloc)
    }
}

impl<'a, T> SlotItem<T> for &'a str {
    ghost use Rattle.std.specs.Prelude.{true};
    ghost use Rattle.arrow_model.specs.Item.{bytes_item};

    ghost stored = { λ item. bytes_item true item.now };

    fn to_item(&self, alloc: Global) -> Result<Item<T>, AllocError> {
        SlotRef::Text(*self).to_item(alloc)
    }
}

/// Asks an iterator for all turns, in order; bytes and texts are copied.
///
/// # Errors
/// `AllocError` if an allocation fails.
fn all_turns<T: NativeType, I: TurnsIterator>(
    alloc: Global,
    mut items: I,
    turns: &[Turn],
) -> Result<Vec<Option<Item<T>>>, AllocError>
where
    I::Item: SlotItem<T>,
    requires { I.can_turn items }
    ensures { StoresAs I.Item.stored I.seen
        (λ stored. IfOk result (λ slots. AreTurnsOf turns.now stored (I.left items) slots.items)) }
{
    let mut slots = Vec::new(alloc);
    for i in 0..turns.len() {
        let slot = match turn_of(&mut items, turns[i]) {
            Some(item) => Some(item.to_item(alloc)?),
            None => None,
        };
        slots.push(slot)?;
    }
    Ok(slots)
}

impl<T: NativeType, O: Offset> Entry<T, O> {
    /// Returns what the turns of one fresh iterator over the stored items give, in order; bytes and texts are copied.
    ///
    /// # Errors
    /// `AllocError` if an allocation fails.
    #[tactic(auto, using(crate::proofs::Seen::seen_reads, crate::proofs::Seen::seen_places, crate::proofs::SlotLemmas::slot_marks))]
    pub fn turns(&self, alloc: Global, turns: &[Turn]) -> Result<Vec<Option<Item<T>>>, AllocError>
        ensures { IfOk result (λ slots.
            map stored_slot slots.items ≡ turns_of turns.now (stored_values (value_of self.now).column)) }
    {
        match self {
            Entry::Primitive(array) => all_turns(alloc, array.values_iter(), turns),
            Entry::Boolean(array) => all_turns(alloc, array.values_iter(), turns),
            Entry::Binary(array) => all_turns(alloc, array.values_iter(), turns),
            Entry::Utf8(array) => all_turns(alloc, array.values_iter(), turns),
            Entry::MutablePrimitive(builder) => all_turns(alloc, builder.values_iter(), turns),
            Entry::MutableBoolean(builder) => all_turns(alloc, builder.values_iter(), turns),
            Entry::MutableBinary(builder) => all_turns(alloc, builder.values_iter(), turns),
            Entry::MutableUtf8(builder) => all_turns(alloc, builder.values_iter(), turns),
            Entry::BinaryValues(builder) => all_turns(alloc, builder.iter(), turns),
            Entry::Utf8Values(builder) => all_turns(alloc, builder.iter(), turns),
        }
    }
}
