//! Kernels that work slot by slot. Expected slots were worked out by hand. Slots of booleans are texts of `t`, `f` and `_`
//! for a null.
mod comparisons;
mod logic;
mod long;
