//! Callers of lists and dictionaries: what each promises follows from the contracts of its calls.
ghost use Rattle.std.specs.Prelude.{◌≡◌, ◌-◌, ◌<◌, [], ◌∷◌, ⊤, Some, is_none, length, map, option_map};
ghost use Rattle.std.specs.Prelude.{slice_get, IfOk, IfErr};
ghost use Rattle.std.specs.List.{list_any};
ghost use Rattle.std.specs.Option.{option_flatten};
ghost use Rattle.dethrugn.specs.Offsets.{MatchGrowth};
ghost use Rattle.dethrugn.specs.Rows.{slot};
ghost use Rattle.example_nested.specs.Dictionaries.{decoded};
ghost use Rattle.example_nested.specs.Lists.{slot_in_list};

use crate::dictionary::DictionaryArray;
use crate::inner::{BorrowSlots, InnerArray};
use crate::list::ListArray;
use crate::slots::ListSlots;
use dethrugn::error::Error;
use dethrugn::offset::{Offset, Offsets};
use dethrugn::types::{IndexKey, NativeType};
use std::alloc::Global;

/// Creates an array of one list, which has all slots of `values`.
///
/// # Errors
/// - `Overflow` if the number of slots is above the greatest offset.
/// - `OutOfMemory` if an allocation fails.
pub fn one_list<O: Offset, A: InnerArray>(
    alloc: Global,
    values: A,
) -> Result<ListArray<O, A>, Error>
    ensures ok { IfOk result (λ lists. map slot lists ≡ Some (A.slots values) ∷ []) }
    ensures err { IfErr result (λ e. MatchGrowth e (O.most < length (A.slots values)) ⊤) }
{
    let mut offsets = Offsets::new(alloc)?;
    offsets.try_push_usize(values.len())?;
    ListArray::try_new(offsets.freeze()?, values, None)
}

/// Returns slot `k` of the list at `i`, or `None` if the list is null, is shorter, or the slot is null.
pub fn slot_in_list<'a, O: Offset, A: BorrowSlots<'a>>(
    lists: &'a ListArray<O, A>,
    i: usize,
    k: usize,
) -> Option<A::Item>
    requires { i < length lists.now }
    ensures { option_map A.seen result ≡ slot_in_list (map slot lists.now) i k }
{
    let list = lists.get(i)?;
    if k < list.len() { list.get(k) } else { None }
}

/// Returns whether a slot of a list is null.
pub fn has_null<'a, A: BorrowSlots<'a>>(list: &ListSlots<'a, A>) -> bool
    ensures { result ≡ list_any is_none list.now }
{
    for slot in list.iter() {
        if slot.is_none() {
            return true;
        }
    }
    false
}

/// Returns the value at the last slot, or `None` if there is no slot or it is null.
pub fn last_value<'a, K: IndexKey + NativeType, A: BorrowSlots<'a>>(
    array: &'a DictionaryArray<K, A>,
) -> Option<A::Item>
    ensures { option_map A.seen result
        ≡ option_flatten (slice_get (decoded array.now) (length array.now.keys - 1)) }
{
    if array.is_empty() {
        return None;
    }
    array.get(array.len() - 1)
}
