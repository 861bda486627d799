//! Flat arrays of Apache Arrow, their builders and kernels, under the module paths of `arrow2`. A crate that uses them
//! lists this one alone: it passes on the code, the laws, the definitions (`specs/`) and the lemmas for callers
//! (`proofs/CallerLemmas`) of the crates below. Nothing is defined here. A name may be added; one that is taken away or
//! moved breaks users, as does a contract below that says less.
#![tactic(auto)]

pub mod array;
pub mod bitmap;
pub mod buffer;
pub mod compute;
pub mod datatypes;
pub mod laws;
pub mod offset;
pub mod types;

pub use arrow_types::error;
pub use either;
