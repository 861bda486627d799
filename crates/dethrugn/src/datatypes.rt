//! Data types, and how each lies in memory.
pub use arrow_types::data_type::DataType;
pub use arrow_types::physical_type::PhysicalType;
pub use arrow_types::units::{IntervalUnit, TimeUnit};
