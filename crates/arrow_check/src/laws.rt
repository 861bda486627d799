//! Laws of text and of offsets, stated over the definitions for all values. Each is the contract of
//! a function with an empty body.
ghost use Rattle.std.specs.Prelude.{◌≡◌, ℕ, ℤ, ◌≤ℤ◌, ◌↔◌, ◌++◌, ◌∷◌, All, List, None, drop, length, pos, take};
ghost use Rattle.std.specs.List.{zip};
ghost use Rattle.std.specs.Str.{IsUtf8};
ghost use Rattle.arrow_memory.specs.Offsets.{IsOffsets, first_fault, window_of};
ghost use Rattle.arrow_check.specs.Places.{first_fall};
ghost use Rattle.arrow_check.specs.Texts.{CutTexts};
ghost use Rattle.arrow_check.specs.Utf8.{IsWellFormed};
ghost use Rattle.arrow_check.specs.Windows.{CutsBetween, InnerCutBetween, PassesWhole};

/// Bytes are text by Unicode's table exactly if they are by Rattle's library, which encodes scalar
/// values.
#[inline(always)]
pub fn well_formed_is_utf8()
    ensures { (bytes : List ℕ) → IsWellFormed bytes ↔ IsUtf8 bytes }
{}

/// Two texts, one after the other, are text.
#[inline(always)]
pub fn texts_join()
    ensures { (xs ys : List ℕ) → IsWellFormed xs → IsWellFormed ys → IsWellFormed (xs ++ ys) }
{}

/// Both parts of a text are text if it is cut at its end or at a byte that is not a continuation byte.
#[inline(always)]
pub fn text_is_cut()
    ensures before { (xs : List ℕ) (i : ℕ) → IsWellFormed xs
        → CutsBetween (length xs) xs i → IsWellFormed (take i xs) }
    ensures after { (xs : List ℕ) (i : ℕ) → IsWellFormed xs
        → CutsBetween (length xs) xs i → IsWellFormed (drop i xs) }
{}

/// Legal offsets lie within bytes and cut texts out of them exactly if they lie within, the window from the first to the
/// last offset is text, and each inner offset is the window's end or points at a byte that is not a continuation byte.
#[inline(always)]
pub fn texts_by_window()
    ensures window { (os xs : List ℕ) → IsOffsets os → CutTexts os xs
        → IsWellFormed (window_of os xs) }
    ensures inner { (os xs : List ℕ) → IsOffsets os → CutTexts os xs → InnerCutBetween os xs }
    ensures texts { (os xs : List ℕ) → IsOffsets os → PassesWhole IsWellFormed os xs
        → CutTexts os xs }
{}

/// No offset is below the one before it, or below 0 if it is the first, exactly if each is at least
/// the one before it and the first at least 0; of at least one offset, exactly if they break no rule
/// of legal offsets.
#[inline(always)]
pub fn offsets_never_fall()
    ensures order { (zs : List ℤ) → (first_fall zs ≡ None)
        ↔ All (λ step. step.0 ≤ℤ step.1) (zip (pos 0 ∷ zs) zs) }
    ensures rules { (z : ℤ) (zs : List ℤ)
        → (first_fall (z ∷ zs) ≡ None) ↔ (first_fault (z ∷ zs) ≡ None) }
{}
