//! Laws of arrays that kernels make slot by slot, stated over the definitions for all values. Each is the contract of a
//! function with an empty body. In their clauses `xs` and `ys` are slots, `f`, `g` and `h` make slots of slots, and
//! `op` makes a slot of two. How many slots there are, `MapsSlots` and `CombinesSlots` say.
ghost use Rattle.std.specs.Prelude.{◌≡◌, ℕ, Option, map, option_map, slice_get};
ghost use Rattle.compute_base.specs.Slots.{ForMaps, ForMapPairs, ForPairs, ForTwoMaps, made_at, pairwise};

/// States that slot `i` of what is made of slots is made of slot `i`, and what two such calls in a row make.
pub fn mapped_slots<X, Y, Z>()
    ensures slot { ForMaps X Y (λ f xs. (i : ℕ) → slice_get (map f xs) i ≡ option_map f (slice_get xs i)) }
    ensures twice { ForMaps X Y (λ f xs. (g : Option Y → Option Z) → map g (map f xs) ≡ map (λ x. g (f x)) xs) }
{}

/// States that slot `i` of what is made of two lists of slots is made of the slots `i`; what is made of two lists that
/// are both made of one; and what is made of that in turn.
pub fn combined_slots<W, X, Y, Z>()
    ensures slot { ForPairs X Y Z (λ op xs ys. (i : ℕ) → slice_get (pairwise op xs ys) i ≡ made_at op xs ys i) }
    ensures of_one { ForTwoMaps W X Y Z (λ op f g ws.
        pairwise op (map f ws) (map g ws) ≡ map (λ w. op (f w) (g w)) ws) }
    ensures twice { ForMapPairs W X Y Z (λ h op xs ys.
        map h (pairwise op xs ys) ≡ pairwise (λ x y. h (op x y)) xs ys) }
{}
