//! Rows of named extensions: what a text says.

use std::alloc::{AllocError, Global};
use zarrs_metadata::laws::read_again;
use zarrs_metadata::{EmptyConfiguration, MetadataError, MetadataV3, ToConfigurationFault};

// How an extension is written.
fn written(alloc: Global, extension: &MetadataV3) -> Result<String, AllocError> {
    let value = extension.to_value(alloc)?;
    value.to_string(alloc)
}

// How a copy of an extension is written once it was written and read again.
fn written_again(alloc: Global, extension: &MetadataV3) -> Result<String, MetadataError> {
    let copy = extension.try_clone(alloc)?;
    let again = read_again(alloc, &copy)?;
    Ok(written(alloc, &again)?)
}

// That its configuration is the empty one, or a copy of the error that it is not.
fn emptied(alloc: Global, extension: &MetadataV3) -> Result<String, AllocError> {
    let empty: Result<EmptyConfiguration, ToConfigurationFault> = extension.to_configuration(alloc);
    match empty {
        Ok(empty) => format!(in alloc; "{empty:?}"),
        Err(ToConfigurationFault::Mismatch(error)) => {
            let copy = error.try_clone(alloc)?;
            format!(in alloc; "{copy}")
        }
        Err(ToConfigurationFault::OutOfMemory) => Err(AllocError),
    }
}

fn told(alloc: Global, extension: &MetadataV3, again: &str) -> Result<String, AllocError> {
    let (shown, empty) = (extension.to_display(alloc)?, emptied(alloc, extension)?);
    let text = written(alloc, extension)?;
    let understood = extension.must_understand();
    format!(in alloc; "{shown}; {empty}; {understood}; {text}; {again}")
}

fn of_text(alloc: Global, text: &str) -> Result<String, MetadataError> {
    let extension = MetadataV3::try_from_text(alloc, text)?;
    let again = written_again(alloc, &extension)?;
    Ok(told(alloc, &extension, again.as_str())?)
}

/// What is shown of the extension that a text says, whether its configuration is the empty one, whether it must be
/// understood, how it is written, and how once it was written and read again; or the name of the refusal.
pub fn line_of(alloc: Global, text: &str) -> Result<String, AllocError> {
    match of_text(alloc, text) {
        Ok(line) => Ok(line),
        Err(error) => format!(in alloc; "{error:?}"),
    }
}
