//! Tests of the crates of arrays by their public calls: data types, bitmaps, buffers and offsets, checks, and arrays and
//! builders of numbers, booleans, bytes and text. Expected answers were worked out by hand.
#![tactic(auto)]

#[cfg(test)]
mod bitmap;
#[cfg(test)]
mod boolean;
#[cfg(test)]
mod bytes;
#[cfg(test)]
mod check;
#[cfg(test)]
mod memory;
#[cfg(test)]
mod primitive;
#[cfg(test)]
mod types;
