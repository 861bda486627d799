//! Laws of groups, stated over the definitions for all values. Each is the contract of a function
//! with an empty body.
ghost use Rattle.std.specs.Prelude.{◌≡◌, ◌<◌, All, length};
ghost use Rattle.arrow_column.specs.Column.{slots_of};
ghost use Rattle.compute_group.specs.Grouping.{AreEqualInGroups, EqualsShareGroups, ForGroupings};

/// States that groups meet the conditions of takes and aggregates: each slot has the number of a group, each number is
/// less than the number of groups, and the index of each group's first slot is in bounds.
pub fn grouped_slots<A, S>()
    ensures count { ForGroupings A S (λ column first numbers. length numbers ≡ length column.rows) }
    ensures numbers { ForGroupings A S (λ column first numbers. All (λ g. g < length first) numbers) }
    ensures first { ForGroupings A S (λ column first numbers. All (λ f. f < length column.rows) first) }
{}

/// States that two slots are equal exactly if the numbers of their groups are.
pub fn grouped_values<A, S>()
    ensures slots { ForGroupings A S (λ column first numbers. AreEqualInGroups (slots_of column) numbers) }
    ensures numbers { ForGroupings A S (λ column first numbers. EqualsShareGroups (slots_of column) numbers) }
{}
