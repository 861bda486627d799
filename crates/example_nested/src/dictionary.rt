//! Dictionary arrays: each slot is a key, the index of a value (Arrow columnar format, "Dictionary-encoded Layout").
//! All keys are tested once, so that no read of a slot can fail.
ghost use Rattle.std.specs.Prelude.{◌≡◌, ◌==◌, ◌<◌, Some, is_none, length, map, option_map, slice_get};
ghost use Rattle.std.specs.Prelude.{IfOk, IfSome, IsOk, MatchOption};
ghost use Rattle.dethrugn.specs.Column.{slots_of};
ghost use Rattle.example_nested.specs.Dictionaries.{FailsWith, decoded, dictionary_of, indexes_of, key_fault};

use crate::inner::{BorrowSlots, InnerArray};
use crate::slots::SlotIter;
use dethrugn::array::PrimitiveArray;
use dethrugn::array::specification::check_indexes;
use dethrugn::error::Error;
use dethrugn::types::{IndexKey, NativeType};
use std::marker::Model;

/// An array of keys, which are indexes of values. A slot is null if its key is null or the value is.
#[derive(Drop)]
pub struct DictionaryArray<K: IndexKey + NativeType, A: InnerArray> {
    keys: PrimitiveArray<K>,
    values: A,
}

// Contracts see the index of each slot, and the values.
impl<K: IndexKey + NativeType, A: InnerArray> Model for DictionaryArray<K, A> {
    ghost use Rattle.std.specs.Prelude.{length};
    ghost use Rattle.dethrugn.specs.Column.{slots_of};
    ghost use Rattle.example_nested.specs.Dictionaries.{Dictionary, PointWithin, dictionary_of};

    ghost Value = { Dictionary A.Seen };

    ghost view = { λ array. dictionary_of K.number (slots_of array.keys) (A.slots array.values) };

    ghost invariant = { λ array. PointWithin K.number (slots_of array.keys) (length (A.slots array.values)) };
}

impl<K: IndexKey + NativeType, A: InnerArray> DictionaryArray<K, A> {
    /// Creates an array of keys and values. Unless all keys are null, those of null slots are checked
    /// too.
    ///
    /// # Errors
    /// `OutOfSpec` with the fault of the first checked key that is no index of a value: it is negative or
    /// does not fit in a `usize`, or else it is not below the number of values.
    pub fn try_new(keys: PrimitiveArray<K>, values: A) -> Result<Self, Error>
        ensures first { MatchOption (key_fault K.number keys (length (A.slots values))) (IsOk result)
            (λ fault. FailsWith result fault) }
        ensures ok { IfOk result (λ array. array ≡ dictionary_of K.number (slots_of keys) (A.slots values)) }
    {
        if keys.null_count() != keys.len() {
            check_indexes(keys.values().as_slice(), values.len())?;
        }
        Ok(DictionaryArray { keys, values })
    }

    /// Returns the number of slots.
    pub fn len(&self) -> usize
        ensures { result ≡ length self.now.keys }
    {
        self.keys.len()
    }

    /// Returns whether there is no slot.
    pub fn is_empty(&self) -> bool
        ensures { result ≡ (length self.now.keys == 0) }
    {
        self.len() == 0
    }

    /// Returns the key at `i` as an index of a value, or `None` if it is null.
    pub fn key(&self, i: usize) -> Option<usize>
        requires { i < length self.now.keys }
        ensures value { slice_get self.now.keys i ≡ Some result }
        ensures within { IfSome result (λ index. index < length self.now.values) }
    {
        match self.keys.get(i) {
            Some(key) => key.to_index(),
            None => None,
        }
    }

    /// Returns whether the key at `i` is null. `get` also returns `None` where the value is null.
    pub fn is_null(&self, i: usize) -> bool
        requires { i < length self.now.keys }
        ensures { slice_get (map is_none self.now.keys) i ≡ Some result }
    {
        self.key(i).is_none()
    }

    /// Returns the keys.
    pub fn keys(&self) -> &PrimitiveArray<K>
        ensures { indexes_of K.number (slots_of result.now) ≡ self.now.keys }
    {
        &self.keys
    }

    /// Returns the array of values.
    pub fn values(&self) -> &A
        ensures { A.slots result.now ≡ self.now.values }
    {
        &self.values
    }
}

impl<'a, K: IndexKey + NativeType, A: BorrowSlots<'a>> DictionaryArray<K, A> {
    /// Returns the value at `i`, or `None` if the slot is null.
    pub fn get(&'a self, i: usize) -> Option<A::Item>
        requires { i < length self.now.keys }
        ensures { slice_get (decoded self.now) i ≡ Some (option_map A.seen result) }
    {
        let index = self.key(i)?;
        self.values.slot(index)
    }

    /// Returns an iterator over the slots.
    pub fn iter(&'a self) -> SlotIter<'a, DictionaryArray<K, A>>
        ensures { result ≡ decoded self.now }
    {
        SlotIter::new(self)
    }
}

impl<K: IndexKey + NativeType, A: InnerArray> InnerArray for DictionaryArray<K, A> {
    ghost use Rattle.example_nested.specs.Dictionaries.{decoded};

    type Seen = A::Seen;

    ghost slots = { decoded };

    fn len(&self) -> usize {
        self.len()
    }
}

impl<'a, K: IndexKey + NativeType, A: BorrowSlots<'a>> BorrowSlots<'a> for DictionaryArray<K, A> {
    type Item = A::Item;

    ghost seen = { A.seen };

    fn slot(&'a self, i: usize) -> Option<A::Item> {
        self.get(i)
    }
}
