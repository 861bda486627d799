//! Data types that hold memory.
use crate::refusal::{end, results};
use arrow_types::data_type::DataType;
use arrow_types::error::Error;
use arrow_types::units::TimeUnit;
use std::alloc::Global;
use std::test::Fail;
use tests_support::Text;

/// Creates an extension of a type.
fn extension(alloc: Global, inner: DataType, metadata: Option<String>) -> Result<DataType, Error> {
    let inner = Box::new(alloc, inner)?;
    Ok(DataType::Extension(String::from_str(alloc, "ages")?, inner, metadata))
}

/// Creates an extension of an extension, the inner one with metadata.
fn nested_extension(alloc: Global) -> Result<DataType, Error> {
    let metadata = String::from_str(alloc, "whole")?;
    extension(
        alloc,
        extension(alloc, DataType::Int32, Some(metadata))?,
        None,
    )
}

/// Creates a type with a time zone.
fn timestamp(alloc: Global) -> Result<DataType, Error> {
    Ok(DataType::Timestamp(TimeUnit::Second, Some(String::from_str(alloc, "UTC")?)))
}

/// Clones a type.
fn clone(data_type: &DataType) -> Result<DataType, Error> {
    let answer: Result<_, _> = data_type.clone();
    Ok(answer?)
}

/// Writes a type.
fn type_text(data_type: &DataType) -> Text {
    Text::of(format_args!("{data_type:?}"))
}

#[test]
fn types_are_cloned(rt: HostRuntime) -> Result<(), Fail> {
    let alloc = rt.alloc();
    let timestamp = timestamp(alloc).expect(&rt, "refused");
    let extension = nested_extension(alloc).expect(&rt, "refused");
    let is_refused = results! { &rt;
        type_text: clone(&timestamp) => "Timestamp(Second, Some(\"UTC\"))";
        type_text: clone(&extension) => "Extension(\"ages\", Extension(\"ages\", Int32, Some(\"whole\")), None)";
    };
    drop(timestamp);
    drop(extension);
    end(is_refused)
}
