//! A narrow offset.
ghost use Rattle.std.specs.Prelude.{◌≡◌, pos, ◌<ℤ◌, ◌≤ℤ◌, MatchOption};

use arrow_types::offset::Offset;

/// An offset whose greatest number is 100.
#[derive(Clone, Copy)]
pub struct Tiny {
    kept: i8,
    ghost within: { kept ≤ℤ pos 100 },
}

impl Tiny {
    /// The offset of a number, a negative one too; `None` exactly where the number is above 100.
    pub fn new(value: i8) -> Option<Tiny>
        ensures { MatchOption result (pos 100 <ℤ value) (λ offset. (value ≤ℤ pos 100) × (offset.kept ≡ value)) }
    {
        if value <= 100 {
            Some(Tiny { kept: value })
        } else {
            None
        }
    }
}

impl Offset for Tiny {
    ghost use Rattle.std.specs.Prelude.{false};
    ghost use Rattle.std.proofs.Common.{lit<};

    ghost number = { λ x. x.kept };

    ghost most = { 100 };

    ghost IS_LARGE = { false };

    const IS_LARGE: bool = false;

    ghost fits = { lit< tt };

    fn max() -> Tiny {
        Tiny { kept: 100 }
    }

    fn from_usize(value: usize) -> Option<Tiny> {
        if value <= 100 {
            Some(Tiny { kept: value as i8 })
        } else {
            None
        }
    }

    fn try_to_usize(&self) -> Option<usize> {
        if self.kept < 0 {
            None
        } else {
            Some(self.kept as usize)
        }
    }

    fn to_usize(&self) -> usize {
        self.kept as usize
    }
}
