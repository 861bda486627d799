//! Native types, and types of keys.
pub use arrow_types::index_key::IndexKey;
pub use arrow_types::le_bytes::FromLeBytes;
pub use arrow_types::native_type::{NativeType, days_ms, i256, months_days_ns};
pub use arrow_types::primitive_type::PrimitiveType;
