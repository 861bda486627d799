//! Laws of lists and dictionaries, stated over the definitions for all values. Each is the contract
//! of a function with an empty body.
ghost use Rattle.std.specs.Prelude.{◌≡◌, ℕ, Bool, List, Option, Some, slice_get};
ghost use Rattle.example_nested.specs.Dictionaries.{Dictionary, decoded, value_at};
ghost use Rattle.example_nested.specs.Lists.{ListLiesBetween};

/// List `i` has the slots from offset `i` up to the next, also if it is null.
pub fn list_by_offsets<S>()
    ensures { (offsets : List ℕ) (slots : List (Option S)) (mask : Option (List Bool)) (i : ℕ)
        → ListLiesBetween offsets slots mask i }
{}

/// A slot of a dictionary shows the value at its index, which may be null.
pub fn slot_by_index<S>()
    ensures { (d : Dictionary S) (i k : ℕ) → slice_get d.keys i ≡ Some (Some k)
        → slice_get (decoded d) i ≡ Some (value_at d k) }
{}
