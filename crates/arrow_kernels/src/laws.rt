//! Laws of filters, takes, concatenations and changes of width, stated over the definitions for all values. Each is the
//! contract of a function with an empty body. In their clauses `c` is a column, `xs` and `ys` are lists, `m` and `n`
//! marks, `ks` keys, and `r` is the bytes around the stored values.
ghost use Rattle.std.specs.Prelude.{◌≡◌, ◌++◌, ◌∷◌, ℕ, Bool, List, Some, flat_map, length};
ghost use Rattle.std.specs.Prelude.{map, slice_get, slice_index_or, sum_by};
ghost use Rattle.std.specs.List.Sorted.{IsPermutation};
ghost use Rattle.arrow_types.specs.Types.{LogicalType};
ghost use Rattle.arrow_column.specs.Column.{Column, ColumnWith, slots_of, stored_values, with_type};
ghost use Rattle.arrow_column.specs.Slots.{nth_slot};
ghost use Rattle.arrow_bytes.specs.Selection.{asked, at_key, at_keys, count_set, where_set};
ghost use Rattle.arrow_bytes.specs.Selection.{Concatenates, ForFilters, ForFitTakes, ForTakes};
ghost use Rattle.arrow_bytes.specs.KeyedItems.{AreIndexesOf, PermuteIndexes, at_indexes};

/// States what selecting items of a list by marks gives: as many items as marks are set; the same whether a function is
/// applied to each item before or after; and the same whether two lists are appended before or after.
pub fn marked_items<X, Y>()
    ensures count { (m : List Bool) (xs : List X) → length m ≡ length xs
        → length (where_set m xs) ≡ count_set m }
    ensures each { (f : X → Y) (m : List Bool) (xs : List X)
        → where_set m (map f xs) ≡ map f (where_set m xs) }
    ensures joined { (m n : _) (xs ys : List X) → length m ≡ length xs
        → where_set (m ++ n) (xs ++ ys) ≡ where_set m xs ++ where_set n ys }
{}

/// States that a filter with as many slots as the column selects the slots where it is valid and true, in order. `left`
/// is the filtered column, and `f` the filter.
pub fn filtered_slots<A, S>()
    ensures marks { (f : Column Bool) → length (asked f) ≡ length f.rows }
    ensures count { ForFilters A S (λ c f left. length f.rows ≡ length c.rows
        → length left.rows ≡ count_set (asked f)) }
    ensures slots { ForFilters A S (λ c f left. slots_of left ≡ where_set (asked f) (slots_of c)) }
    ensures values { ForFilters A S (λ c f left.
        stored_values left ≡ where_set (asked f) (stored_values c)) }
{}

/// States that a take has the slots at the keys, in the order of the keys: one for each key if all are in bounds. `n`
/// maps a key to its number, and `d` is the column that is taken of `c` at the keys `ks`.
pub fn taken_slots<A, S, K>()
    ensures slots { ForTakes A S K (λ n c ks d. slots_of d ≡ at_keys n ks (slots_of c)) }
    ensures values { ForTakes A S K (λ n c ks d. stored_values d ≡ at_keys n ks (stored_values c)) }
    ensures count { ForFitTakes A S K (λ n c ks d. length d.rows ≡ length ks) }
    ensures slot { ForFitTakes A S K (λ n c ks d. (i : ℕ) (k : K) → slice_get ks i ≡ Some k
        → nth_slot d i ≡ at_key (slots_of c) (n k)) }
{}

/// States that keys that are all in bounds take one item each, in the order of the keys, and that keys that are a
/// permutation of all indexes are in bounds and take a permutation of the list.
pub fn keyed_items<X>()
    ensures indexes { (xs : List X) (ks : List ℕ) → PermuteIndexes xs ks → AreIndexesOf xs ks }
    ensures each { (xs : List X) (d : X) (ks : List ℕ) → AreIndexesOf xs ks
        → at_indexes ks xs ≡ map (λ k. slice_index_or xs k d) ks }
    ensures permuted { (xs : List X) (d : X) (ks : List ℕ) → PermuteIndexes xs ks
        → IsPermutation xs (at_indexes ks xs) }
{}

/// States that a concatenation has the slots of all columns, in order, and the data type of the first.
pub fn concatenated_slots<A, S>()
    ensures slots { (r : A) (cs : List (ColumnWith A S)) (c : _) → Concatenates r cs c
        → slots_of c ≡ flat_map slots_of cs }
    ensures values { (r : A) (cs : List (ColumnWith A S)) (c : _) → Concatenates r cs c
        → stored_values c ≡ flat_map stored_values cs }
    ensures count { (r : A) (cs : List (ColumnWith A S)) (c : _) → Concatenates r cs c
        → length c.rows ≡ sum_by (λ it. length it.rows) cs }
    ensures data_type { (r : A) (first : ColumnWith A S) (cs : _) (c : _)
        → Concatenates r (first ∷ cs) c → c.data_type ≡ first.data_type }
{}

/// States that a change of the data type, as by a change of the width of offsets, keeps the slots.
pub fn retyped_slots<A, S>()
    ensures { (c : ColumnWith A S) (t : LogicalType) → slots_of (with_type c t) ≡ slots_of c }
{}
