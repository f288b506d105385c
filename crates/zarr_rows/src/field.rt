//! Rows of additional fields: what a text says as one.

use std::alloc::{AllocError, Global};
use zarrs_metadata::{AdditionalFieldV3, MetadataError};

fn of_value(alloc: Global, field: &AdditionalFieldV3) -> Result<AdditionalFieldV3, MetadataError> {
    let value = field.to_value(alloc)?;
    AdditionalFieldV3::from_value(alloc, &value)
}

// The field that a text says, copied, and made a value and read.
fn read_again(alloc: Global, text: &str) -> Result<AdditionalFieldV3, MetadataError> {
    let field = AdditionalFieldV3::try_from_text(alloc, text)?;
    let copy = field.try_clone(alloc)?;
    of_value(alloc, &copy)
}

fn told(alloc: Global, field: &AdditionalFieldV3) -> Result<String, AllocError> {
    let value = field.as_value().to_string(alloc)?;
    let whole = field.to_value(alloc)?.to_string(alloc)?;
    let understood = field.must_understand();
    format!(in alloc; "{value}; {understood}; {whole}")
}

/// The value of the field that a text says, whether it must be understood, and how it is written; or the name of the
/// refusal.
pub fn line_of(alloc: Global, text: &str) -> Result<String, AllocError> {
    match read_again(alloc, text) {
        Ok(field) => told(alloc, &field),
        Err(error) => format!(in alloc; "{error:?}"),
    }
}
