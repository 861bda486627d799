//! Groups of equal slots of an array, and aggregates of the slots of each group.
ghost use Rattle.std.specs.Prelude.{◌≡◌, IfErr, IfOk, length, true};
ghost use Rattle.dethrugn.specs.Failures.{OnlyOutOfMemory};
ghost use Rattle.dethrugn.specs.Sort.{PickOnce};
ghost use Rattle.example_record_batch.specs.AnyArrays.{slot_count};
ghost use Rattle.example_record_batch.specs.Grouping.{AggregatesAny, AnyGrouping, FailsAny, NumbersRows};
ghost use Rattle.example_record_batch.specs.Grouping.{has_aggregate};
ghost use Rattle.example_record_batch.specs.Taking.{any_taken};
ghost use Rattle.example_record_batch.specs.declared.any.group.Aggregate.TheVariants.{Max, Min, Sum};

use crate::any::AnyArray;
use dethrugn::compute::aggregate::{
    group_max_binary, group_max_boolean, group_max_primitive, group_max_utf8, group_min_binary,
    group_min_boolean, group_min_primitive, group_min_utf8, group_sum_primitive,
};
use dethrugn::compute::group::{
    Groups, group_binary_with, group_boolean_with, group_primitive_with, group_utf8_with,
};
use dethrugn::error::Error;
use std::alloc::Global;
use std::hash::BuildHasher;

/// What is computed of the valid slots of a group.
#[derive(Clone, Copy, Debug)]
pub enum Aggregate {
    /// The sum, which only numbers have.
    Sum,
    /// The least value.
    Min,
    /// The greatest value.
    Max,
}

impl Aggregate {
    /// Returns whether an array has the aggregate: only numbers have a sum.
    pub fn applies_to(self, array: &AnyArray) -> bool
        ensures { result ≡ has_aggregate self array.now }
    {
        match self {
            Aggregate::Sum => matches!(array, AnyArray::Int64(_)),
            Aggregate::Min | Aggregate::Max => true,
        }
    }
}

impl AnyArray {
    /// Returns the groups of equal slots, in the order of their first slots. The null slots are one group. The slots are
    /// hashed by `hashers`, which should have random keys, as a `RandomState` does, if others choose the slots.
    ///
    /// # Errors
    /// `OutOfMemory` if an allocation fails.
    pub fn group<S: BuildHasher + Copy>(&self, alloc: Global, hashers: S) -> Result<Groups, Error>
        ensures ok { IfOk result (λ groups. AnyGrouping self.now groups.first groups.indices) }
        ensures rows { IfOk result (λ groups.
            NumbersRows (slot_count self.now) groups.first groups.indices) }
        ensures err { OnlyOutOfMemory result }
    {
        match self {
            AnyArray::Int64(array) => group_primitive_with(alloc, hashers, array),
            AnyArray::Boolean(array) => group_boolean_with(alloc, hashers, array),
            AnyArray::Binary(array) => group_binary_with(alloc, hashers, array),
            AnyArray::Utf8(array) => group_utf8_with(alloc, hashers, array),
        }
    }

    /// Returns the keys of groups: the slots at which they begin.
    ///
    /// # Errors
    /// `OutOfMemory` if an allocation fails.
    pub fn group_keys(&self, alloc: Global, first: &[usize]) -> Result<Self, Error>
        requires { PickOnce (slot_count self.now) first.now }
        ensures ok { IfOk result (λ keys. keys ≡ any_taken self.now first.now) }
        ensures count { IfOk result (λ keys. slot_count keys ≡ length first.now) }
        ensures err { OnlyOutOfMemory result }
    {
        // The number of slots is below 2 ^ 64, so each of the indexes is that of a slot.
        let _slots = self.len();
        let indexes: Vec<u64> = first.iter().map(|place| *place as u64).collect(alloc)?;
        self.take(alloc, indexes.as_slice())
    }

    /// Returns the aggregate of the valid slots of each group, null for a group that has none. The groups must be of as
    /// many slots as the array has, and the array must have the aggregate ([`Aggregate::applies_to`]).
    ///
    /// # Errors
    /// `Overflow` if the sum of a group does not fit in an `i64`, and `OutOfMemory` if an allocation fails.
    pub fn group_aggregate(
        &self,
        alloc: Global,
        aggregate: Aggregate,
        groups: &Groups,
    ) -> Result<Self, Error>
        requires has { has_aggregate aggregate self.now ≡ true }
        requires rows { length groups.now.indices ≡ slot_count self.now }
        ensures ok { IfOk result (AggregatesAny aggregate self.now groups.now) }
        ensures count { IfOk result (λ made. slot_count made ≡ length groups.now.first) }
        ensures err { IfErr result (FailsAny aggregate self.now groups.now) }
    {
        match aggregate {
            Aggregate::Sum => self.group_sum(alloc, groups),
            Aggregate::Min => self.group_min(alloc, groups),
            Aggregate::Max => self.group_max(alloc, groups),
        }
    }

    /// Returns the sum of each group.
    fn group_sum(&self, alloc: Global, groups: &Groups) -> Result<Self, Error>
        requires has { has_aggregate Sum self.now ≡ true }
        requires rows { length groups.now.indices ≡ slot_count self.now }
        ensures ok { IfOk result (AggregatesAny Sum self.now groups.now) }
        ensures count { IfOk result (λ made. slot_count made ≡ length groups.now.first) }
        ensures err { IfErr result (FailsAny Sum self.now groups.now) }
    {
        match self {
            AnyArray::Int64(array) => Ok(AnyArray::Int64(group_sum_primitive(
                alloc, array, groups,
            )?)),
            _ => unreachable!(),
        }
    }

    /// Returns the least value of each group.
    fn group_min(&self, alloc: Global, groups: &Groups) -> Result<Self, Error>
        requires { length groups.now.indices ≡ slot_count self.now }
        ensures ok { IfOk result (AggregatesAny Min self.now groups.now) }
        ensures count { IfOk result (λ made. slot_count made ≡ length groups.now.first) }
        ensures err { OnlyOutOfMemory result }
    {
        Ok(match self {
            AnyArray::Int64(array) => AnyArray::Int64(group_min_primitive(alloc, array, groups)?),
            AnyArray::Boolean(array) => AnyArray::Boolean(group_min_boolean(alloc, array, groups)?),
            AnyArray::Binary(array) => AnyArray::Binary(group_min_binary(alloc, array, groups)?),
            AnyArray::Utf8(array) => AnyArray::Utf8(group_min_utf8(alloc, array, groups)?),
        })
    }

    /// Returns the greatest value of each group.
    fn group_max(&self, alloc: Global, groups: &Groups) -> Result<Self, Error>
        requires { length groups.now.indices ≡ slot_count self.now }
        ensures ok { IfOk result (AggregatesAny Max self.now groups.now) }
        ensures count { IfOk result (λ made. slot_count made ≡ length groups.now.first) }
        ensures err { OnlyOutOfMemory result }
    {
        Ok(match self {
            AnyArray::Int64(array) => AnyArray::Int64(group_max_primitive(alloc, array, groups)?),
            AnyArray::Boolean(array) => AnyArray::Boolean(group_max_boolean(alloc, array, groups)?),
            AnyArray::Binary(array) => AnyArray::Binary(group_max_binary(alloc, array, groups)?),
            AnyArray::Utf8(array) => AnyArray::Utf8(group_max_utf8(alloc, array, groups)?),
        })
    }
}
