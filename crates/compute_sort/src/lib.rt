//! Sorts of arrays under arrow2's module and function names: the indexes that sort the slots of one
//! array or of several, and sorted arrays.
#![tactic(auto)]

mod columns;
mod compare;
mod first_rows;
mod in_order;
mod indexed_values;
pub mod laws;
pub mod lexsort;
mod options;
pub mod partition;
mod rows;
mod select;
pub mod sort;
mod sortable;

pub use options::SortOptions;
pub use sortable::SortableArray;
