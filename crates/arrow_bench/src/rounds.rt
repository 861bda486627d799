//! The rounds of a timed line, and their checksum: `u64::MAX` if an allocation fails. That is the only failure here, so
//! the functions of this crate return an `Option`, and no text of an error is carried through the loops.

/// Makes a value in each round, and sums up what `probe` reads from it.
#[inline(always)]
pub(crate) fn make_rounds<A: Drop, M: FnMut() -> Option<A>, P: FnMut(&A, usize) -> u64>(
    rounds: usize,
    mut make: M,
    mut probe: P,
) -> u64
    requires make { M.IsAlwaysCallable make }
    requires probe { P.IsAlwaysCallable probe }
{
    let mut sum = 0u64;
    for round in 0..rounds {
        match make() {
            Some(value) => sum = sum.wrapping_add(probe(&value, round)),
            None => return u64::MAX,
        }
    }
    sum
}

/// Makes a value of what was made once in each round, and sums up what `probe` reads from it.
#[inline(always)]
pub(crate) fn make_rounds_of<
    S: Drop,
    A: Drop,
    M: FnMut(&S) -> Option<A>,
    P: FnMut(&A, usize) -> u64,
>(source: Option<S>, rounds: usize, mut make: M, mut probe: P) -> u64
    requires make { M.IsAlwaysCallable make }
    requires probe { P.IsAlwaysCallable probe }
{
    match source {
        Some(source) => {
            let mut sum = 0u64;
            for round in 0..rounds {
                match make(&source) {
                    Some(value) => sum = sum.wrapping_add(probe(&value, round)),
                    None => return u64::MAX,
                }
            }
            sum
        }
        None => u64::MAX,
    }
}

/// Reads a value in each round. `read` is passed the sum so far and returns it with what it read: the sum is another in
/// each round, so that no compiler does one round's work for all.
#[inline(always)]
pub(crate) fn read_rounds<A: Drop, R: FnMut(&A, u64) -> u64>(
    value: Option<A>,
    rounds: usize,
    mut read: R,
) -> u64
    requires { R.IsAlwaysCallable read }
{
    match value {
        Some(value) => {
            let mut sum = 0u64;
            for _ in 0..rounds {
                sum = read(&value, sum);
            }
            sum
        }
        None => u64::MAX,
    }
}

/// Converts a value in each round into the one of the next, and sums up what `convert` returns beside it.
#[inline(always)]
pub(crate) fn convert_rounds<A: Drop, C: FnMut(A, usize) -> Option<(u64, A)>>(
    value: Option<A>,
    rounds: usize,
    mut convert: C,
) -> u64
    requires { C.IsAlwaysCallable convert }
{
    let Some(mut value) = value else {
        return u64::MAX;
    };
    let mut sum = 0u64;
    for round in 0..rounds {
        match convert(value, round) {
            Some((probed, next)) => {
                sum = sum.wrapping_add(probed);
                value = next;
            }
            None => return u64::MAX,
        }
    }
    sum
}

/// Returns a builder that was filled; `None` if it was not.
#[inline(always)]
pub(crate) fn filled_builder<B: Drop>(builder: B, filled: Option<()>) -> Option<B> {
    match filled {
        Some(()) => Some(builder),
        None => None,
    }
}

/// Extends a builder twice, and returns it.
#[inline(always)]
pub(crate) fn extend_twice<B: Drop, E: FnMut(&mut B) -> Option<()>>(
    mut builder: B,
    mut extend: E,
) -> Option<B>
    requires { E.IsAlwaysCallable extend }
{
    extend(&mut builder)?;
    extend(&mut builder)?;
    Some(builder)
}

/// Returns the place that is looked at after a round.
pub(crate) fn place(round: usize, rows: usize) -> usize {
    if rows == 0 {
        return 0;
    }
    round.wrapping_mul(7919) % rows
}
