//! Kernels that select slots. What each makes was worked out by hand.
mod choices;
mod lengths;
mod shared;
mod takes;
mod words;
