//! Laws of comparisons and of logic of their results, stated over the definitions for all values. Each is the contract
//! of a function with an empty body. In their clauses `cmp` is the order of two values, and `eq` is whether they are
//! equal.
ghost use Rattle.std.specs.Prelude.{Bool};
ghost use Rattle.std.specs.Ordering.{is_ge, is_gt, is_le, is_lt};
ghost use Rattle.std.specs.declared.cmp.Ordering.{Ordering};
ghost use Rattle.compute_base.specs.Slots.{combine_valid};
ghost use Rattle.compute_comparison.specs.Comparison.{AreMirrored, AreOpposed, AreOpposites, ForTotalOrders};
ghost use Rattle.compute_comparison.specs.Comparison.{compare_slot, compare_slots, unequal};

/// States what `not` makes of the result of a comparison: that of the opposite comparison; and that the operands of `<`
/// and of `<=` can be exchanged.
pub fn compared_slots<X>()
    ensures not_less { (cmp : X → X → Ordering) → AreOpposites (compare_slots is_lt cmp) (compare_slots is_ge cmp) }
    ensures not_greater { (cmp : X → X → Ordering) → AreOpposites (compare_slots is_gt cmp) (compare_slots is_le cmp) }
    ensures not_equal { (eq : X → X → Bool) → AreOpposites (combine_valid eq) (combine_valid (unequal eq)) }
    ensures less { ForTotalOrders X (λ cmp. AreMirrored (compare_slots is_lt cmp) (compare_slots is_gt cmp)) }
    ensures less_or_equal { ForTotalOrders X (λ cmp. AreMirrored (compare_slots is_le cmp) (compare_slots is_ge cmp)) }
    ensures not_less_scalar { (cmp : X → X → Ordering) (x : X)
        → AreOpposed (compare_slot is_lt cmp x) (compare_slot is_ge cmp x) }
    ensures not_greater_scalar { (cmp : X → X → Ordering) (x : X)
        → AreOpposed (compare_slot is_gt cmp x) (compare_slot is_le cmp x) }
{}
