//! How slots are ordered.

/// How slots are ordered: values ascending or descending, and nulls before or after all values,
/// whichever way the values are ordered. The default is that of arrow2: ascending, nulls first.
#[derive(Clone, Copy, Debug)]
pub struct SortOptions {
    /// Whether the greatest value comes first.
    pub descending: bool,
    /// Whether nulls come before all values; otherwise they come after them.
    pub nulls_first: bool,
}

impl Default for SortOptions {
    ghost use Rattle.std.specs.Prelude.{◌≡◌};
    ghost use Rattle.compute_sort.specs.Sort.{default_options};

    ghost is_default = { λ options. options ≡ default_options };

    /// Returns the order of arrow2: ascending, nulls first.
    fn default() -> Self {
        SortOptions {
            descending: false,
            nulls_first: true,
        }
    }
}
