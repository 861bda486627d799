//! Data types that hold memory.
use arrow_types::data_type::DataType;
use arrow_types::units::{IntervalUnit, TimeUnit};
use std::process::Abort;

/// Copies a text, which may be none.
fn text_of(rt: &(impl Abort + AllocGlobal), text: Option<&str>) -> Option<String> {
    match text {
        Some(text) => Some(String::from_str(rt.alloc(), text).expect(rt, "memory")),
        None => None,
    }
}

/// Creates a time with this zone.
pub(crate) fn timestamp(
    rt: &(impl Abort + AllocGlobal),
    unit: TimeUnit,
    zone: Option<&str>,
) -> DataType {
    DataType::Timestamp(unit, text_of(rt, zone))
}

/// Creates an extension of a type, with this metadata.
pub(crate) fn extension(
    rt: &(impl Abort + AllocGlobal),
    name: &str,
    inner: DataType,
    metadata: Option<&str>,
) -> DataType {
    let name = String::from_str(rt.alloc(), name).expect(rt, "memory");
    let inner = Box::new(rt.alloc(), inner).expect(rt, "memory");
    DataType::Extension(name, inner, text_of(rt, metadata))
}

/// Creates an extension of an extension of months.
pub(crate) fn two_extensions(rt: &(impl Abort + AllocGlobal)) -> DataType {
    let months = DataType::Interval(IntervalUnit::YearMonth);
    extension(
        rt,
        "ages",
        extension(rt, "months", months, None),
        Some("whole"),
    )
}
