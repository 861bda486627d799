//! Laws of arrays and batches, stated over the definitions for all values. Each is the contract of a function with an
//! empty body.
ghost use Rattle.std.specs.Prelude.{◌≡◌, ℕ, ◌+◌, ◌<◌, ◌≤◌, All, Bool, List, drop, flat_map, length, take};
ghost use Rattle.dethrugn.specs.Column.{Column};
ghost use Rattle.dethrugn.specs.Selection.{asked, where_set};
ghost use Rattle.example_record_batch.specs.declared.any.AnyArray.{AnyArray};
ghost use Rattle.example_record_batch.specs.AnyArrays.{any_cut, any_filtered, cells_of, slot_count};
ghost use Rattle.example_record_batch.specs.Batches.{Batch, IsBatch, LeavesAsked, batch_cut, batch_rows, row_at};
ghost use Rattle.example_record_batch.specs.Concatenation.{IsConcat, IsConcatArray};

/// An array has a cell for each slot.
pub fn cell_count()
    ensures { (x : AnyArray) → length (cells_of x) ≡ slot_count x }
{}

/// A slice of an array has its cells from index `a` to index `a + n`.
pub fn cells_of_cut()
    ensures { (x : AnyArray) (a n : ℕ) → cells_of (any_cut x a n) ≡ take n (drop a (cells_of x)) }
{}

/// A filtered array has the cells where the filter is valid and true.
pub fn cells_of_filter()
    ensures { (x : AnyArray) (filter : _)
        → cells_of (any_filtered x filter) ≡ where_set (asked filter) (cells_of x) }
{}

/// A concatenation of arrays has the cells of each array, one array after the other.
pub fn cells_of_concat()
    ensures { (xs : List AnyArray) (made : AnyArray) → IsConcatArray xs made
        → cells_of made ≡ flat_map cells_of xs }
{}

/// Row `i` of a slice that begins at row `a` is row `a + i` of the batch.
pub fn row_of_cut()
    ensures { (b : Batch) (a n i : ℕ) → i < n → row_at (batch_cut b a n) i ≡ row_at b (a + i) }
{}

/// A slice of a batch has its rows from index `a` to index `a + n`.
pub fn rows_of_cut()
    ensures { (b : Batch) (a n : ℕ) → a + n ≤ b.rows
        → batch_rows (batch_cut b a n) ≡ take n (drop a (batch_rows b)) }
{}

/// A filtered batch has the rows where the filter is valid and true.
pub fn rows_of_filter()
    ensures { (b : Batch) (filter : Column Bool) → IsBatch b → length filter.rows ≡ b.rows
        → LeavesAsked b filter }
{}

/// A concatenation of batches has the rows of each batch, one batch after the other.
pub fn rows_of_concat()
    ensures { (bs : _) (made : _) → All IsBatch bs → IsConcat bs made
        → batch_rows made ≡ flat_map batch_rows bs }
{}
