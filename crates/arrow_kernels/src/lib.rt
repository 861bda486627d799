//! Kernels: filters, takes, concatenations, and changes of the width of offsets. They use only public calls of arrays
//! and builders, and their proofs rest on the contracts of these calls.
#![tactic(auto)]

mod concat;
mod concat_parts;
mod filter;
mod filter_marks;
mod filter_mask;
mod filter_rows;
mod filter_values;
pub mod laws;
mod marks;
mod runs;
mod take;
mod take_parts;
mod widths;

pub use concat::{concat_binary, concat_boolean, concat_items, concat_primitive, concat_utf8};
pub use filter::{filter_binary, filter_boolean, filter_items, filter_primitive, filter_utf8};
pub use filter_mask::true_count;
pub use take::{take_binary, take_boolean, take_items, take_primitive, take_utf8};
pub use widths::{narrow_binary, narrow_items, narrow_utf8, widen_binary, widen_items, widen_utf8};
