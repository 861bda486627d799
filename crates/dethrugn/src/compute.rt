//! Kernels, under arrow2's module names.
pub use compute_aggregate::aggregate;
pub use compute_comparison::{boolean, boolean_kleene, comparison};
pub use compute_select::{if_then_else, length, nullif};

/// Arithmetic of arrays of integers.
pub mod arithmetics {
    pub use arrow_integers::NativeArithmetics;
    pub use compute_arithmetics::basic;
}

/// Values of another type, and offsets of the other width.
pub mod cast {
    pub use arrow_kernels::{
        narrow_binary, narrow_items, narrow_utf8, widen_binary, widen_items, widen_utf8,
    };
    pub use compute_cast::{
        CastOptions, WrapNumber, binary_to_primitive, binary_to_utf8, boolean_to_binary,
        boolean_to_primitive, boolean_to_utf8, cast_primitive, primitive_as_primitive,
        primitive_to_binary, primitive_to_boolean, primitive_to_primitive,
        primitive_to_same_primitive, primitive_to_utf8, utf8_to_binary, utf8_to_primitive,
    };
}

/// Concatenation of a slice of arrays, or of references to arrays.
pub mod concatenate {
    pub use arrow_kernels::{
        concat_binary, concat_boolean, concat_items, concat_primitive, concat_utf8,
    };
    pub use compute_select::concatenate::{
        concatenate_boolean, concatenate_items, concatenate_primitive,
    };
}

/// Filters, and the number of slots that a filter keeps.
pub mod filter {
    pub use arrow_kernels::{
        filter_binary, filter_boolean, filter_items, filter_primitive, filter_utf8, true_count,
    };
}

/// Groups of equal slots. The calls whose names end in `with` hash by the caller's keys, the others by public ones.
pub mod group {
    pub use compute_group::{
        Groups, group_binary, group_binary_with, group_boolean, group_boolean_with,
        group_primitive, group_primitive_with, group_utf8, group_utf8_with,
    };
}

/// Hashes of slots, which depend on the slot alone.
pub mod hash {
    pub use compute_group::{hash_binary, hash_boolean, hash_primitive, hash_utf8};
}

/// Ranges of equal rows of sorted columns.
pub mod partition {
    pub use compute_sort::partition::lexicographical_partition_ranges;
}

/// Sorts of one array and over several columns.
pub mod sort {
    pub use compute_sort::lexsort::{
        SortColumn, SortValues, SortedValues, lexsort, lexsort_to_indices,
    };
    pub use compute_sort::sort::{sort, sort_to_indices};
    pub use compute_sort::{SortOptions, SortableArray};
}

/// Takes by a slice of keys. The modules `primitive` and so on have takes by an array of keys, some of which may be null.
pub mod take {
    pub use arrow_kernels::{take_binary, take_boolean, take_items, take_primitive, take_utf8};

    /// Slots of numbers at the keys of an array.
    pub mod primitive {
        pub use compute_select::take::take_primitive as take;
    }

    /// Slots of booleans at the keys of an array.
    pub mod boolean {
        pub use compute_select::take::take_boolean as take;
    }

    /// Slots of bytes at the keys of an array.
    pub mod binary {
        pub use compute_select::take::take_binary as take;
    }

    /// Slots of bytes or of text at the keys of an array.
    pub mod items {
        pub use compute_select::take::take_items as take;
    }

    /// Slots of text at the keys of an array.
    pub mod utf8 {
        pub use compute_select::take::take_utf8 as take;
    }
}
