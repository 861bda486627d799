//! Integers that are used as indexes: the keys of takes. Another type of keys is an `impl` here.
ghost use Rattle.std.specs.Prelude.{◌≡◌, ℤ};
ghost use Rattle.arrow_types.specs.IndexKey.{index_of};

/// An integer that is used as an index, as the keys of a dictionary are (Arrow columnar format,
/// "Dictionary-encoded Layout").
pub trait IndexKey {
    /// The number of a value.
    ghost number: { Self → ℤ };

    /// Returns the index, or `None` if the number is negative or does not fit in a `usize`.
    fn to_index(&self) -> Option<usize>
        ensures { result ≡ index_of (number self.now) };
}

/// Returns the index of a signed number.
#[inline(always)]
fn index_of_signed(key: i64) -> Option<usize>
    ensures { result ≡ index_of key }
{
    if key < 0 { None } else { Some(key as usize) }
}

impl IndexKey for i8 {
    ghost number = { λ x. x };

    #[inline(always)]
    fn to_index(&self) -> Option<usize> {
        index_of_signed(i64::from(*self))
    }
}

impl IndexKey for i16 {
    ghost number = { λ x. x };

    #[inline(always)]
    fn to_index(&self) -> Option<usize> {
        index_of_signed(i64::from(*self))
    }
}

impl IndexKey for i32 {
    ghost number = { λ x. x };

    #[inline(always)]
    fn to_index(&self) -> Option<usize> {
        index_of_signed(i64::from(*self))
    }
}

impl IndexKey for i64 {
    ghost number = { λ x. x };

    #[inline(always)]
    fn to_index(&self) -> Option<usize> {
        index_of_signed(*self)
    }
}

impl IndexKey for u8 {
    ghost use Rattle.std.specs.Prelude.{pos};

    ghost number = { λ x. pos x };

    #[inline(always)]
    fn to_index(&self) -> Option<usize> {
        Some(*self as usize)
    }
}

impl IndexKey for u16 {
    ghost use Rattle.std.specs.Prelude.{pos};

    ghost number = { λ x. pos x };

    #[inline(always)]
    fn to_index(&self) -> Option<usize> {
        Some(*self as usize)
    }
}

impl IndexKey for u32 {
    ghost use Rattle.std.specs.Prelude.{pos};

    ghost number = { λ x. pos x };

    #[inline(always)]
    fn to_index(&self) -> Option<usize> {
        Some(*self as usize)
    }
}

impl IndexKey for u64 {
    ghost use Rattle.std.specs.Prelude.{pos};

    ghost number = { λ x. pos x };

    #[inline(always)]
    fn to_index(&self) -> Option<usize> {
        Some(*self as usize)
    }
}

impl IndexKey for usize {
    ghost use Rattle.std.specs.Prelude.{pos};

    ghost number = { λ x. pos x };

    #[inline(always)]
    fn to_index(&self) -> Option<usize> {
        Some(*self)
    }
}
