//! The types of Arrow arrays: data types, native types, offset types, keys and errors.
#![tactic(auto)]

pub mod data_type;
pub mod error;
pub mod index_key;
pub mod laws;
pub mod le_bytes;
pub mod list_text;
mod native_text;
pub mod native_type;
pub mod offset;
pub mod physical_type;
pub mod primitive_type;
pub mod quoted;
pub mod units;
