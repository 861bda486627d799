//! Worked examples and hostile input, as tables of cases, with ample memory. `docs/TESTING.md` lists where to look.
#![tactic(auto)]

/// The narrow offset with which overflows are reached.
pub use tests_support::Tiny;

#[cfg(test)]
mod tests;
