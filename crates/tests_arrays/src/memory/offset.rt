//! Offsets: lists of numbers that never fall, growing, frozen, and of the other width.
mod growing;
mod shared;
mod widths;
