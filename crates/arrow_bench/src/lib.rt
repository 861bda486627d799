//! What the benchmark driver calls: each function makes its arrays from slices, repeats an operation
//! and returns a checksum (rattle_flat.h says which).
#![tactic(auto)]

mod aggregates;
mod arithmetics;
mod bits;
mod boolean;
mod bytes;
mod casts;
mod compute;
mod groups;
mod kernels;
mod operation;
mod primitive;
mod ranges;
mod read;
mod rounds;
mod select;
mod show;
mod sorts;
mod text;
mod whole;
