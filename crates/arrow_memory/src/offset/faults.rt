//! The rules that offsets from outside may break, in the order in which they are tested: an error is that of the first.
ghost use Rattle.std.specs.Prelude.{◌≡◌, ◌≤◌, pos, map, Some, None, int_lt, false};
ghost use Rattle.std.specs.Option.{option_map};
ghost use Rattle.arrow_memory.specs.Offsets.{first_fault, last_of, numbers_of};

use arrow_types::offset::Offset;

/// Returns the first rule that the offsets break, or `None` if they are legal.
pub(super) fn first_broken_rule<O: Offset>(offsets: &[O]) -> Option<&'static str>
    ensures text { option_map (λ text. text.now) result ≡ first_fault (map O.number offsets.now) }
    ensures within { result ≡ None → last_of (numbers_of O.number offsets.now) ≤ O.most }
{
    let Some(first) = offsets.first() else {
        return Some("offsets must have at least one element");
    };
    let Some(start) = first.try_to_usize() else {
        return Some("the first offset must not be negative");
    };
    let mut before = start;
    let mut falls = false;
    // Without a way out of the loop it runs over several offsets at once.
    for offset in offsets {
        let (number, negative) = number_of(offset);
        falls = falls | negative | (number < before);
        before = number;
    }
    if falls {
        return Some("offsets must never fall");
    }
    None
}

/// Returns the number of an offset and whether it is negative; the number is then 0.
#[inline(always)]
fn number_of<O: Offset>(offset: &O) -> (usize, bool)
    ensures negative { result.1 ≡ int_lt (O.number offset.now) (pos 0) }
    ensures number { result.1 ≡ false → O.number offset.now ≡ pos result.0 }
    ensures within { result.0 ≤ O.most }
{
    match offset.try_to_usize() {
        Some(number) => (number, false),
        None => (0, true),
    }
}
