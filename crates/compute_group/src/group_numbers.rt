//! Groups of slots: what a grouping returns. Its invariant, that each number is that of a group, names no array, so
//! that aggregates of any array of as many slots rest on it.
ghost use Rattle.std.specs.Prelude.{◌≡◌, ◌==◌, ◌<◌, ◌++◌, ◌∷◌, [], All, IfOk, OnOk, if◌then◌else◌, length};
ghost use Rattle.arrow_types.specs.Failures.{OnlyOutOfMemory};
ghost use Rattle.compute_group.specs.GroupEquality.{same_groups};
ghost use Rattle.compute_group.specs.Grouping.{AreGroups, IsGrouping, rows_of_group};

use arrow_types::error::Error;
use std::alloc::{AllocError, Global};
use std::marker::Model;

/// The groups of equal slots of an array, numbered from zero in the order of their first slots.
///
/// Whatever the slots were, each slot has the number of a group, and each group a first slot, which has its number. So
/// aggregates by group have no condition on the numbers.
#[derive(Debug, Drop)]
pub struct Groups {
    first: Vec<usize>,
    indices: Vec<usize>,
}

// Contracts see both lists. They are the groups of equal numbers among the numbers themselves.
impl Model for Groups {
    ghost use Rattle.compute_group.specs.Grouping.{AreGroups, GroupLists};

    ghost Value = { GroupLists };

    ghost view = { λ groups. record { first = groups.first.items; indices = groups.indices.items } };

    ghost invariant = { λ groups. AreGroups groups.first.items groups.indices.items };
}

impl Groups {
    /// Creates groups of the index of the first slot of each, and the number of the group of each slot.
    pub(crate) fn from_lists(first: Vec<usize>, indices: Vec<usize>) -> Self
        requires { AreGroups first.items indices.items }
        ensures first { result.first ≡ first.items }
        ensures indices { result.indices ≡ indices.items }
    {
        Groups { first, indices }
    }

    /// Returns the number of groups.
    #[inline(always)]
    pub fn len(&self) -> usize
        ensures { result ≡ length self.now.first }
    {
        self.first.len()
    }

    /// Returns `true` if there are no groups, which is so exactly if there are no slots.
    #[inline(always)]
    pub fn is_empty(&self) -> bool
        ensures { result ≡ (length self.now.first == 0) }
    {
        self.len() == 0
    }

    /// Returns the index of the first slot of each group, by the number of the group. A take of the slots at these
    /// indexes has each distinct slot once.
    #[inline(always)]
    pub fn first(&self) -> &[usize]
        ensures value { result.now ≡ self.now.first }
        ensures within { All (λ place. place < length self.now.indices) result.now }
    {
        self.first.as_slice()
    }

    /// Returns the number of the group of each slot, by the index of the slot.
    #[inline(always)]
    pub fn indices(&self) -> &[usize]
        ensures value { result.now ≡ self.now.indices }
        ensures within { All (λ number. number < length self.now.first) result.now }
        ensures groups { IsGrouping result.now self.now.first result.now }
    {
        self.indices.as_slice()
    }

    /// Returns the indexes of the slots of the group with a number, in order. There are none if no group has the
    /// number. It goes over the numbers of all slots.
    ///
    /// # Errors
    /// `OutOfMemory` if an allocation fails.
    pub fn rows(&self, alloc: Global, group: usize) -> Result<Vec<usize>, Error>
        ensures ok { IfOk result (λ rows. rows.items ≡ rows_of_group self.now.indices group) }
        ensures err { OnlyOutOfMemory result }
    {
        Ok(rows_with(alloc, self.indices(), group)?)
    }

    /// Returns a copy.
    ///
    /// # Errors
    /// `OutOfMemory` if an allocation fails.
    pub fn clone(&self) -> Result<Self, Error>
        ensures first { IfOk result (λ copy. copy.first ≡ self.now.first) }
        ensures indices { IfOk result (λ copy. copy.indices ≡ self.now.indices) }
        ensures err { OnlyOutOfMemory result }
    {
        Ok(Groups {
            first: Vec::from_slice(*self.first.allocator(), &self.first)?,
            indices: Vec::from_slice(*self.indices.allocator(), &self.indices)?,
        })
    }
}

/// Appends the index of a slot if its group has this number.
fn push_row(
    rows: &mut Vec<usize>,
    number: usize,
    group: usize,
    row: usize,
) -> Result<(), AllocError>
    ensures { OnOk result (rows.new.items
        ≡ (if number == group then rows.old.items ++ row ∷ [] else rows.old.items)) }
{
    if number == group {
        rows.push(row)?;
    }
    Ok(())
}

/// Returns the indexes of the slots whose group has this number, in order.
fn rows_with(alloc: Global, indices: &[usize], group: usize) -> Result<Vec<usize>, AllocError>
    ensures { IfOk result (λ rows. rows.items ≡ rows_of_group indices.now group) }
{
    let mut rows = Vec::new(alloc);
    for i in 0..indices.len() {
        push_row(&mut rows, indices[i], group, i)?;
    }
    Ok(rows)
}

impl PartialEq for Groups {
    ghost use Rattle.std.specs.Cmp.{decided, partial_equiv_from_equiv};
    ghost use Rattle.compute_group.specs.GroupEquality.{same_groups, same_groups-Decides};

    ghost eq = { same_groups };

    ghost laws = { partial_equiv_from_equiv (decided same_groups same_groups-Decides) };

    /// Returns whether both have the same first slots and the same number for each slot.
    fn eq(&self, other: &Self) -> bool
        ensures { result ≡ same_groups self.now other.now }
    {
        if self.first() == other.first() {
            return self.indices() == other.indices();
        }
        false
    }
}

impl Eq for Groups {
    ghost use Rattle.std.specs.Cmp.{decided};
    ghost use Rattle.compute_group.specs.GroupEquality.{same_groups, same_groups-Decides};

    ghost laws = { decided same_groups same_groups-Decides };
}
