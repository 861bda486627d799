//! Data types, native types, offsets, keys and errors. Expected answers come from Arrow's table of logical types.
mod data_types;
mod equality;
mod errors;
mod index_keys;
mod made;
mod native_types;
mod offsets;
mod quoted;
