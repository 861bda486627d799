//! Laws of sums, stated over the definitions for all values. Each is the contract of a function with an empty body.
ghost use Rattle.std.specs.Prelude.{◌≡◌, ◌++◌, ◌+ℤ◌, ℤ, List, Some, [], None};
ghost use Rattle.arrow_column.specs.Column.{ColumnWith};
ghost use Rattle.compute_aggregate.specs.Aggregates.{JoinsSlots, sum_all, sum_of, valid_values};

/// States that the sum of two lists in a row is that of their sums, that the values of two arrays in a row are those of
/// both, and that there is a sum exactly if there is a value.
pub fn summed_slots<A, S>()
    ensures joined { (xs ys : List ℤ) → sum_all (xs ++ ys) ≡ sum_all xs +ℤ sum_all ys }
    ensures values { (c d e : ColumnWith A S) → JoinsSlots c d e → valid_values c ≡ valid_values d ++ valid_values e }
    ensures none { (xs : List ℤ) → sum_of xs ≡ None → xs ≡ [] }
    ensures some { (xs : List ℤ) (sum : ℤ) → sum_of xs ≡ Some sum → sum ≡ sum_all xs }
{}
