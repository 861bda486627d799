//! Sums, least and greatest values and counts of the valid slots of an array, and of each group of slots.
mod booleans;
mod count;
mod extreme;
mod fold;
mod group_sums;
mod groups;
mod items;
mod made;
mod numbers;
mod sum;
mod whole_sums;

pub use booleans::{max_boolean, min_boolean};
pub use count::count_valid;
pub use group_sums::{group_sum_primitive, group_sum_wide};
pub use groups::{
    group_count, group_max_binary, group_max_boolean, group_max_primitive, group_max_utf8,
    group_min_binary, group_min_boolean, group_min_primitive, group_min_utf8, group_rows,
};
pub use items::{max_binary, max_string, min_binary, min_string};
pub use numbers::{max_primitive, min_primitive};
pub use sum::{sum_primitive, sum_wide};
