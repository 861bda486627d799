//! Groups of rows of several columns: those of pairs of numbers of groups, a column at a time.
ghost use Rattle.std.specs.Prelude.{◌≡◌, IfOk, length};
ghost use Rattle.arrow_types.specs.Failures.{OnlyOutOfMemory};
ghost use Rattle.compute_group.specs.Grouping.{GroupsPairs};

use crate::group_numbers::Groups;
use crate::grouper::group_slots;
use crate::keys::Keys;
use arrow_types::error::Error;
use std::alloc::Global;
use std::hash::{BuildHasher, BuildHasherDefault, FoldHasher};

/// The numbers of two groups for each row.
#[derive(Clone, Copy)]
struct Pairs<'a> {
    left: &'a [usize],
    right: &'a [usize],
    ghost same: { length left.now ≡ length right.now },
}

impl<'a> Keys for Pairs<'a> {
    ghost use Rattle.std.specs.Prelude.{Some, map, ℕ};
    ghost use Rattle.std.specs.List.{zip};
    ghost use Rattle.compute_group.specs.Pairs.{pairs_decide};

    type Key = (usize, usize);

    ghost Seen = { ℕ × ℕ };

    ghost seen = { λ pair. pair };

    ghost slots = { λ pairs. map Some (zip pairs.left.now pairs.right.now) };

    #[inline(always)]
    fn count(&self) -> usize {
        self.left.len()
    }

    #[inline(always)]
    fn row(&self, i: usize) -> ((usize, usize), bool) {
        ((self.left[i], self.right[i]), true)
    }

    ghost decides = { pairs_decide };
}

impl Groups {
    /// Groups the rows that are equal in two columns, given the groups of each column, which must have equally many
    /// slots. A table of more columns is grouped by refining the groups of the first by those of each other column.
    ///
    /// Pairs of group numbers are hashed with fixed, public keys: whoever chooses the rows can make many of these pairs
    /// have the same hash. For rows from outside use [`Groups::refine_with`].
    ///
    /// # Errors
    /// `OutOfMemory` if an allocation fails.
    pub fn refine(&self, alloc: Global, other: &Groups) -> Result<Groups, Error>
        requires { length self.now.indices ≡ length other.now.indices }
        ensures ok { IfOk result (GroupsPairs self.now other.now) }
        ensures err { OnlyOutOfMemory result }
    {
        self.refine_with(alloc, BuildHasherDefault::<FoldHasher>::new(), other)
    }

    /// Groups the rows that are equal in two columns as [`Groups::refine`] does, but hashes the pairs of group numbers
    /// by `hashers`, which changes only how long it takes. This is for rows from outside, with the random keys of
    /// `RandomState::new(&rt)?`.
    ///
    /// # Errors
    /// `OutOfMemory` if an allocation fails.
    pub fn refine_with<S: BuildHasher + Copy>(
        &self,
        alloc: Global,
        hashers: S,
        other: &Groups,
    ) -> Result<Groups, Error>
        requires { length self.now.indices ≡ length other.now.indices }
        ensures ok { IfOk result (GroupsPairs self.now other.now) }
        ensures err { OnlyOutOfMemory result }
    {
        let left = self.indices();
        let right = other.indices();
        Ok(group_slots(alloc, hashers, &Pairs { left, right })?)
    }
}
