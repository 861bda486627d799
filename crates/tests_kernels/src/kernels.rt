//! Filters, takes, concatenations and changes of width. What each makes was worked out by hand.
mod any_array;
mod booleans;
mod items;
mod numbers;
mod runs;
mod shared;
mod widths;
