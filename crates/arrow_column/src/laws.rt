//! Laws of columns, stated over the definitions for all values. Each is the contract of a function
//! with an empty body. In their clauses `c` is a column, `t` a data type, `r` what lies around stored
//! values, `xs` are values, `m` is a mask, `d` what a null stores, and `f` says what lies around a cut.
ghost use Rattle.std.specs.Prelude.{true, false, not, replicate, ◌<◌, ◌||◌, is_some, ◌≡◌, ℕ, ◌+◌, ◌≤◌, Bool, []};
ghost use Rattle.std.specs.Prelude.{List, Option, Some, None, length, map, option_map, slice_get};
ghost use Rattle.std.specs.Prelude.{take, drop};
ghost use Rattle.std.specs.Prelude.{◌↔◌, ◌++◌, ◌∷◌, IsTrue, IsNone};
ghost use Rattle.std.specs.List.{zip};
ghost use Rattle.arrow_types.specs.Types.{LogicalType};
ghost use Rattle.arrow_memory.specs.Rows.{FitsMask, IsValidAt, rows_of, slot};
ghost use Rattle.arrow_column.specs.Column.{Column, ColumnWith, cut, append_nulls, append_slots, append_values};
ghost use Rattle.arrow_column.specs.Column.{column_with, unmasked, push_items, push_nulls, masked};
ghost use Rattle.arrow_column.specs.Column.{cut_with, joined, with_mask, with_slot, with_stored, with_type};
ghost use Rattle.arrow_column.specs.Column.{FitsCut, mask_of, marks_of, slots_of, stored_values, all_valid};
ghost use Rattle.arrow_column.specs.Column.{IsColumn, append_slot, last_slot, without_last, without_needless_mask};
ghost use Rattle.arrow_column.specs.Slots.{ShowsAt, StoresAt, nth_mark, nth_slot, nth_value};
ghost use Rattle.arrow_column.specs.SlotOrder.{first_slots};

use crate::Values;

/// A cut of `m` rows from row `b` of a cut that begins at row `a` is one cut, which begins at row
/// `a + b`: of the rows and of what lies around them, for stored values of every kind.
pub fn cut_of_cut<V: Values>()
    ensures { let f = cut_with V.cut_around in (c : _) (a n b m : ℕ) → b + m ≤ n
        → f (f c a n) b m ≡ f c (a + b) m }
{}

/// An empty cut fits at every place up to the length, and has no row.
pub fn empty_cut<A, S>()
    ensures fits { (c : ColumnWith A S) (i : ℕ) → i ≤ length c.rows → FitsCut c i 0 }
    ensures rows { (f : _) (c : ColumnWith A S) (i : ℕ) → (cut_with f c i 0).rows ≡ [] }
{}

/// A mask that is held has the marks in order, which are those of the rows.
pub fn mask_bits<A, S>()
    ensures whole { (c : ColumnWith A S) (m : List Bool) → mask_of c ≡ Some m → m ≡ marks_of c }
    ensures at_place { (c : ColumnWith A S) (m : List Bool) (i : ℕ) → mask_of c ≡ Some m
        → slice_get m i ≡ nth_mark c i }
    ensures row { (c : ColumnWith A S) (i : ℕ)
        → nth_mark c i ≡ option_map (λ row. row.1) (slice_get c.rows i) }
{}

/// If no mask is held, every mark is set and no slot is null.
pub fn no_mask<A, S>()
    ensures marks { (c : ColumnWith A S) → IsColumn c → mask_of c ≡ None → IsTrue (all_valid c) }
    ensures slots { (c : ColumnWith A S) → IsColumn c → mask_of c ≡ None
        → slots_of c ≡ map Some (stored_values c) }
{}

/// The rows are the stored values and the mask put together.
pub fn rows_by_parts<A, S>()
    ensures { (c : ColumnWith A S) → IsColumn c → rows_of (stored_values c) (mask_of c) ≡ c.rows }
{}

/// The parts of a column make it again: its mask, if held, has a mark for each stored value, and
/// the column of its type, of what lies around its stored values, of these and of its mask is the
/// same column.
pub fn parts_again<A, S>()
    ensures fits { (c : ColumnWith A S) → FitsMask (stored_values c) (mask_of c) }
    ensures same { (c : ColumnWith A S) → IsColumn c
        → column_with c.data_type c.around (stored_values c) (mask_of c) ≡ c }
{}

/// When a mask is held: as given with the parts or set; after a null is appended or written; in a
/// column of joined rows if either held one; in a frozen column exactly if a slot is null. Other
/// changes leave it as it was.
pub fn held_masks<A, S>()
    ensures parts { (t : _) (r : A) (xs : List S) (m : _)
        → (column_with t r xs m).held ≡ is_some m }
    ensures set { (c : ColumnWith A S) (m : _) → (with_mask c m).held ≡ is_some m }
    ensures null { (d : S) (c : ColumnWith A S) → (append_slot d c None).held ≡ true }
    ensures nulls { (c : ColumnWith A S) (xs : List S) → (append_nulls c xs).held ≡ true }
    ensures null_in_place { (d : S) (c : ColumnWith A S) (i : ℕ)
        → (with_slot d c i None).held ≡ true }
    ensures either { (c e : ColumnWith A S) → (joined c e).held ≡ (c.held || e.held) }
    ensures needed { (c : ColumnWith A S) → (without_needless_mask c).held ≡ not (all_valid c) }
    ensures value { (d : S) (c : ColumnWith A S) (x : S)
        → (append_slot d c (Some x)).held ≡ c.held }
    ensures values { (c : ColumnWith A S) (xs : List S) → (append_values c xs).held ≡ c.held }
    ensures value_in_place { (d : S) (c : ColumnWith A S) (i : ℕ) (x : S)
        → (with_slot d c i (Some x)).held ≡ c.held }
    ensures stored { (c : ColumnWith A S) (xs : List S) → (with_stored c xs).held ≡ c.held }
    ensures renamed { (c : ColumnWith A S) (t : LogicalType) → (with_type c t).held ≡ c.held }
    ensures shorter { (c : ColumnWith A S) → (without_last c).held ≡ c.held }
    ensures piece { (f : _) (c : ColumnWith A S) (i n : ℕ) → (cut_with f c i n).held ≡ c.held }
{}

/// A slot is its stored value where its mark is set or no mask is held, and null otherwise.
pub fn slot_by_value<A, S>()
    ensures masked { (c : ColumnWith A S) (m : _) → mask_of c ≡ Some m
        → slots_of c ≡ map slot (zip (stored_values c) m) }
    ensures valid { (c : ColumnWith A S) (i : ℕ) (x : S) → IsColumn c → IsValidAt (mask_of c) i
        → StoresAt c i x → ShowsAt c i (Some x) }
    ensures null { (c : ColumnWith A S) (i : ℕ) → i < length c.rows → ¬ IsValidAt (mask_of c) i
        → ShowsAt c i None }
{}

/// A frozen column has no mask exactly if no slot is null.
pub fn freeze_drops_mask<A, S>()
    ensures { (c : ColumnWith A S)
        → IsNone (mask_of (without_needless_mask c)) ↔ IsTrue (all_valid c) }
{}

/// Slots appended at once are the slots appended one by one: valid slots of values, or of what is
/// stored of items, and nulls, which store the default. Appending nulls at once holds a mask even
/// if there are none.
pub fn one_by_one<A, S, X>()
    ensures values { (d : S) (c : ColumnWith A S) (xs : List S)
        → append_slots d c (map Some xs) ≡ append_values c xs }
    ensures items { (f : X → S) (d : S) (c : ColumnWith A S) (xs : List X)
        → push_items f d c xs ≡ append_values c (map f xs) }
    ensures nulls { (d : S) (c : ColumnWith A S) (n : ℕ) → 0 < n
        → push_nulls d c n ≡ append_nulls c (replicate n d) }
    ensures masked { (d : S) (c : ColumnWith A S) (n : ℕ)
        → push_nulls d (masked c) n ≡ append_nulls c (replicate n d) }
{}

/// A column of values without a mask is an empty column to which they are appended, and it holds no
/// needless mask.
pub fn bare_column<A, S>()
    ensures appended { (t : _) (r : A) (xs : List S)
        → append_values (unmasked t r []) xs ≡ unmasked t r xs }
    ensures needless { (c : ColumnWith A S) → IsColumn c → c.held ≡ false
        → without_needless_mask c ≡ c }
    ensures bare { (t : _) (r : A) (xs : List S) → IsColumn (column_with t r xs None) }
{}

/// A push followed by a pop leaves the rows as they were and returns the slot that was pushed.
pub fn push_then_pop<A, S>()
    ensures slot { (d : S) (c : ColumnWith A S) (x : Option S) → last_slot (append_slot d c x) ≡ x }
    ensures rows { (d : S) (c : ColumnWith A S) (x : Option S)
        → (without_last (append_slot d c x)).rows ≡ c.rows }
{}

/// The column of parts that fit: its stored values are the values, it has as many rows, and its
/// marks are those of the mask, or all set if there is none.
pub fn rows_of_parts<A, S>()
    ensures is_column { (t : _) (r : A) (xs : List S) (m : _) → IsColumn (column_with t r xs m) }
    ensures values { (t : _) (r : A) (xs : List S) (m : _) → FitsMask xs m
        → stored_values (column_with t r xs m) ≡ xs }
    ensures count { (t : _) (r : A) (xs : List S) (m : _) → FitsMask xs m
        → length (column_with t r xs m).rows ≡ length xs }
    ensures mask { (t : _) (r : A) (xs : List S) (m : _) → FitsMask xs m
        → mask_of (column_with t r xs m) ≡ m }
    ensures marks { (t : _) (r : A) (xs : List S) (m : _) → FitsMask xs (Some m)
        → marks_of (column_with t r xs (Some m)) ≡ m }
    ensures all_set { (t : _) (r : A) (xs : List S)
        → marks_of (column_with t r xs None) ≡ replicate (length xs) true }
{}

/// The slots of the column of parts: each value where its mark is set and a null elsewhere, and all
/// values if there is no mask.
pub fn slots_of_parts<A, S>()
    ensures masked { (t : _) (r : A) (xs : List S) (m : _)
        → slots_of (column_with t r xs (Some m)) ≡ map slot (zip xs m) }
    ensures bare { (t : _) (r : A) (xs : List S)
        → slots_of (column_with t r xs None) ≡ map Some xs }
{}

/// There is a slot for each row; a slot that shows a value stores it, and shows what it stores if its
/// mark is set, else it is null.
pub fn slots_by_rows<A, S>()
    ensures count { (c : ColumnWith A S) → length (slots_of c) ≡ length c.rows }
    ensures stored { (c : ColumnWith A S) (i : ℕ) (x : S) → ShowsAt c i (Some x) → StoresAt c i x }
    ensures valid { (c : ColumnWith A S) (i : ℕ) (x : S) → nth_mark c i ≡ Some true
        → StoresAt c i x → ShowsAt c i (Some x) }
    ensures null { (c : ColumnWith A S) (i : ℕ) → nth_mark c i ≡ Some false → ShowsAt c i None }
{}

/// A loop over all slots: none at first, those up to slot `i` and this one, and, once `i` has reached
/// the number of rows, all of them.
pub fn slots_in_order<A, S>()
    ensures none { (c : ColumnWith A S) → first_slots c 0 ≡ [] }
    ensures count { (c : ColumnWith A S) (i : ℕ) → i ≤ length c.rows
        → length (first_slots c i) ≡ i }
    ensures next { (c : ColumnWith A S) (i : ℕ) (x : _) → ShowsAt c i x
        → first_slots c (i + 1) ≡ first_slots c i ++ x ∷ [] }
    ensures all { (c : ColumnWith A S) (i : ℕ) → length c.rows ≤ i → first_slots c i ≡ slots_of c }
{}

/// A builder shows what was appended to it, behind what it showed before, and a frozen column shows
/// what the builder did.
pub fn appended_slots<A, S>()
    ensures one { (d : S) (c : ColumnWith A S) (x : Option S)
        → slots_of (append_slot d c x) ≡ slots_of c ++ x ∷ [] }
    ensures many { (d : S) (c : ColumnWith A S) (xs : _)
        → slots_of (append_slots d c xs) ≡ slots_of c ++ xs }
    ensures values { (c : ColumnWith A S) (xs : List S)
        → slots_of (append_values c xs) ≡ slots_of c ++ map Some xs }
    ensures nulls { (c : ColumnWith A S) (xs : List S)
        → slots_of (append_nulls c xs) ≡ slots_of c ++ replicate (length xs) None }
    ensures frozen { (c : ColumnWith A S) → slots_of (without_needless_mask c) ≡ slots_of c }
{}

/// A column of joined rows shows the slots of both.
pub fn joined_slots<A, B, S>()
    ensures { (c : ColumnWith A S) (e : ColumnWith B S)
        → slots_of (joined c e) ≡ slots_of c ++ slots_of e }
{}

/// A cut that fits has as many rows as were asked for, and its slot `i` is slot `a + i` of the
/// column, whatever lies around its stored values.
pub fn cut_slots<A, S>()
    ensures count { (f : _) (c : ColumnWith A S) (a n : ℕ) → FitsCut c a n
        → length (cut_with f c a n).rows ≡ n }
    ensures slot { (f : _) (c : ColumnWith A S) (a n i : ℕ) → i < n
        → nth_slot (cut_with f c a n) i ≡ nth_slot c (a + i) }
    ensures value { (f : _) (c : ColumnWith A S) (a n i : ℕ) → i < n
        → nth_value (cut_with f c a n) i ≡ nth_value c (a + i) }
    ensures all { (f : _) (c : ColumnWith A S) (a n : ℕ)
        → slots_of (cut_with f c a n) ≡ take n (drop a (slots_of c)) }
{}

/// The same of a column with nothing around its stored values.
pub fn plain_cut_slots<S>()
    ensures count { (c : Column S) (a n : ℕ) → FitsCut c a n → length (cut c a n).rows ≡ n }
    ensures slot { (c : Column S) (a n i : ℕ) → i < n
        → nth_slot (cut c a n) i ≡ nth_slot c (a + i) }
    ensures all { (c : Column S) (a n : ℕ) → slots_of (cut c a n) ≡ take n (drop a (slots_of c)) }
{}
