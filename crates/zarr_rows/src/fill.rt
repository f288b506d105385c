//! Rows of fill values: which kinds a text is of.

use std::alloc::{AllocError, Global};
use zarrs_metadata::{EmptyConfiguration, FillValueMetadataV3, MetadataError};

fn of_value(
    alloc: Global,
    fill: &FillValueMetadataV3,
) -> Result<FillValueMetadataV3, MetadataError> {
    let value = fill.to_value(alloc)?;
    FillValueMetadataV3::from_value(alloc, &value)
}

// The fill value that a text is, copied, and made a value and read.
fn read_again(alloc: Global, text: &str) -> Result<FillValueMetadataV3, MetadataError> {
    let fill = FillValueMetadataV3::try_from_text(alloc, text)?;
    let copy = fill.try_clone(alloc)?;
    of_value(alloc, &copy)
}

// The null, boolean, text or number that it is.
fn small(alloc: Global, fill: &FillValueMetadataV3) -> Result<String, AllocError> {
    let (null, boolean, text) = (fill.as_null(), fill.as_bool(), fill.as_str());
    let (unsigned, signed) = (fill.as_u64(), fill.as_i64());
    format!(in alloc; "{null:?} {boolean:?} {text:?} {unsigned:?} {signed:?}")
}

// The lengths of the list and of the object that it is.
fn lengths(alloc: Global, fill: &FillValueMetadataV3) -> Result<String, AllocError> {
    let items = fill.as_array().map(|items| items.len());
    let members = fill.as_object().map(|fields| fields.len());
    format!(in alloc; "{items:?} {members:?}")
}

// The bytes that it lists, and whether it is the empty configuration.
fn large(alloc: Global, fill: &FillValueMetadataV3) -> Result<String, AllocError> {
    let bytes = fill.as_bytes(alloc)?;
    let empty: Option<EmptyConfiguration> = fill.as_custom(alloc)?;
    format!(in alloc; "{bytes:?} {}", empty.is_some())
}

fn written(alloc: Global, fill: &FillValueMetadataV3) -> Result<String, AllocError> {
    let value = fill.to_value(alloc)?;
    value.to_string(alloc)
}

fn told(alloc: Global, fill: &FillValueMetadataV3) -> Result<String, AllocError> {
    let (small, lengths) = (small(alloc, fill)?, lengths(alloc, fill)?);
    let (large, text) = (large(alloc, fill)?, written(alloc, fill)?);
    format!(in alloc; "{small}; {lengths}; {large}; {text}")
}

/// What a text is as a fill value: null, a boolean, a text, a `u64` and an `i64`; a list and an object of so many;
/// bytes, and the empty configuration; and how it is written. Or the name of the refusal.
pub fn line_of(alloc: Global, text: &str) -> Result<String, AllocError> {
    match read_again(alloc, text) {
        Ok(fill) => told(alloc, &fill),
        Err(error) => format!(in alloc; "{error:?}"),
    }
}
