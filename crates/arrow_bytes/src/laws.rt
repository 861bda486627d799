//! Laws of offsets and the items between them, stated over the definitions for all values. Each is
//! the contract of a function with an empty body. `os` are offsets, and `xs` is what they cut.
ghost use Rattle.std.specs.Prelude.{◌≡◌, ◌+◌, ◌++◌, ◌<◌, ◌≤◌, ℕ, List, Some, drop, length, map, slice_get};
ghost use Rattle.std.specs.Prelude.{slice_range};
ghost use Rattle.std.specs.List.{concat, zip};
ghost use Rattle.arrow_memory.specs.Changes.{cut_of};
ghost use Rattle.arrow_memory.specs.Offsets.{IsOffsets, first_of, last_of, slots_from};
ghost use Rattle.arrow_check.specs.Pieces.{bytes_of, item_from, items_of, lead_of, offsets_of, tail_of};

/// Bytes are what lies before the first item, the items joined, and what lies after the last. The
/// first piece is as long as the first offset, and the offsets are its length followed by the
/// running sums of the items' lengths.
pub fn pieces_of_bytes()
    ensures bytes { (os xs : List ℕ) → IsOffsets os
        → lead_of os xs ++ (concat (items_of os xs) ++ tail_of os xs) ≡ xs }
    ensures lead { (os xs : List ℕ) → IsOffsets os → last_of os ≤ length xs
        → length (lead_of os xs) ≡ first_of os }
    ensures offsets { (os xs : List ℕ) → IsOffsets os → last_of os ≤ length xs
        → offsets_of (length (lead_of os xs)) (items_of os xs) ≡ os }
{}

/// The way back, for items `xs` between the bytes `a` and `b`: their offsets are legal, end where the
/// items do, lie within the bytes, and cut the same three pieces out of these.
pub fn bytes_of_pieces()
    ensures legal { (n : ℕ) (xs : List (List ℕ)) → IsOffsets (offsets_of n xs) }
    ensures last { (n : ℕ) (xs : List (List ℕ))
        → last_of (offsets_of n xs) ≡ n + length (concat xs) }
    ensures within { (a : List ℕ) (xs : _) (b : _)
        → last_of (offsets_of (length a) xs) ≤ length (bytes_of a xs b) }
    ensures lead { (a : List ℕ) (xs : _) (b : _)
        → lead_of (offsets_of (length a) xs) (bytes_of a xs b) ≡ a }
    ensures items { (a : List ℕ) (xs : _) (b : _)
        → items_of (offsets_of (length a) xs) (bytes_of a xs b) ≡ xs }
    ensures tail { (a : List ℕ) (xs : _) (b : _)
        → tail_of (offsets_of (length a) xs) (bytes_of a xs b) ≡ b }
{}

/// Offsets cut any list, bytes or the rows of an array: one item fewer than offsets, each from its
/// offset up to the next, and a cut of the offsets cuts out the same items.
pub fn items_by_offsets<X>()
    ensures count { (os : List ℕ) (xs : List X) → 0 < length os
        → length (items_of os xs) + 1 ≡ length os }
    ensures all { (os : List ℕ) (xs : List X)
        → items_of os xs ≡ map (λ it. slice_range xs it.0 it.1) (zip os (drop 1 os)) }
    ensures item { (os : List ℕ) (xs : List X) (i : ℕ) → i + 1 < length os
        → slice_get (items_of os xs) i ≡ Some (item_from os xs i) }
    ensures cut { (os : List ℕ) (xs : List X) (a n : ℕ)
        → items_of (slots_from a n os) xs ≡ cut_of a n (items_of os xs) }
{}
