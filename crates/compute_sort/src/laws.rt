//! Laws of sorts and of ranges of equal rows, stated over the definitions for all values. Each is the contract of a
//! function with an empty body. In their clauses `o` are options, `cmp` is the order of values, `xs` are slots, `l` is
//! a limit, `ks` are indexes that sort, and `ys` the sorted slots.
ghost use Rattle.std.specs.Prelude.{◌≡◌, None, false, length, true};
ghost use Rattle.std.specs.Cmp.{IsTotalOrder};
ghost use Rattle.std.specs.List.{range_with_len};
ghost use Rattle.std.specs.List.Sorted.{IsPermutation};
ghost use Rattle.compute_sort.specs.Partition.{AreEqualWithin, DifferAtStarts, FollowEachOther, ForPartitions};
ghost use Rattle.compute_sort.specs.Sort.{Ascend, ForSortedIndexes, ForSorts, KeepOrder, NullsComeFirst, NullsComeLast};
ghost use Rattle.compute_sort.specs.Sort.{up_to};

/// States that the indexes that sort slots are as many as the limit allows, without a limit each index once, and that
/// equal slots keep their order.
pub fn sorted_indexes<X>()
    ensures count { ForSortedIndexes X (λ o cmp xs l ks. length ks ≡ length (up_to l xs)) }
    ensures permutation { ForSortedIndexes X (λ o cmp xs l ks. l ≡ None
        → IsPermutation (range_with_len 0 (length xs)) ks) }
    ensures stable { ForSortedIndexes X (λ o cmp xs l ks. IsTotalOrder cmp → KeepOrder o cmp xs ks) }
{}

/// States that the slots of a sorted array are as many as the limit allows, without a limit a permutation of the
/// array's slots, that they ascend, and that nulls come first or last as the options say.
pub fn sorted_slots<X>()
    ensures count { ForSorts X (λ o cmp xs l ys. length ys ≡ length (up_to l xs)) }
    ensures permutation { ForSorts X (λ o cmp xs l ys. l ≡ None → IsPermutation xs ys) }
    ensures ascend { ForSorts X (λ o cmp xs l ys. IsTotalOrder cmp → Ascend o cmp ys) }
    ensures nulls_first { ForSorts X (λ o cmp xs l ys. IsTotalOrder cmp → o.nulls_first ≡ true → NullsComeFirst ys) }
    ensures nulls_last { ForSorts X (λ o cmp xs l ys. IsTotalOrder cmp → o.nulls_first ≡ false → NullsComeLast ys) }
{}

/// States that the rows of one range are equal to each other, one after the other, that ranges follow each other, and
/// that the first row of a range differs from the one before it.
pub fn partitioned_rows()
    ensures equal { ForPartitions (λ order n ranges. AreEqualWithin order ranges) }
    ensures differ { ForPartitions (λ order n ranges. DifferAtStarts order ranges) }
    ensures follow { ForPartitions (λ order n ranges. FollowEachOther ranges) }
{}
