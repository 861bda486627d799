//! Laws of the definitions in `specs/`, for all values, by the crate that states them. Each is a function with an empty
//! body: a caller calls it where its proof needs the fact. A law of columns takes two types: `BytesAround` and
//! `Buffer<u8>` for bytes and text, and `()` and `T` for native values, `T` being `bool` for booleans.
pub use arrow_boolean::laws as boolean;
pub use arrow_byte_array::laws as byte_array;
pub use arrow_bytes::{BytesAround, laws as bytes};
pub use arrow_check::laws as check;
pub use arrow_column::laws as column;
pub use arrow_integers::laws as integers;
pub use arrow_kernels::laws as kernels;
pub use arrow_memory::bitmap::laws as bitmap;
pub use arrow_primitive::laws as primitive;
pub use arrow_types::laws as types;
pub use compute_group::laws as group;

/// Laws of the kernels that compute: how many slots a result has, what slot `i` is, and what two calls in a row make.
/// In their clauses `xs` and `ys` are slots, `f`, `g` and `h` make slots of slots, `op` makes a slot of two, `cmp` is
/// the order of two values, `eq` whether they are equal, `o` are the options of a sort, `l` its limit, `ks` its
/// indexes.
pub mod compute {
    pub use compute_aggregate::laws::summed_slots as summed;
    pub use compute_base::laws::{combined_slots, mapped_slots};
    pub use compute_comparison::laws::compared_slots;
    pub use compute_group::laws::{grouped_slots as grouped, grouped_values};
    pub use compute_sort::laws::{partitioned_rows, sorted_indexes, sorted_slots as sorted};
}
