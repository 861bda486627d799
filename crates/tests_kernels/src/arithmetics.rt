//! Arithmetic on arrays of integers. What each call makes was worked out by hand.
mod numbers;
mod pairs;
mod scalars;
