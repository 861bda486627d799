//! Short callers of the library, each with a contract and its proof, to be copied: docs/USING.md quotes them.
#![tactic(auto)]

pub mod from_arrow2;
pub mod parts;
pub mod push;
pub mod rows;
pub mod slots;
#[cfg(test)]
mod tests;
pub mod within;
