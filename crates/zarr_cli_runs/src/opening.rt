//! A first line opened as an array.

ghost use Rattle.zarr_cli_runs.specs.array.parts.Opening.{open_builtin};
ghost use Rattle.zarr_cli_runs.specs.Opening.{OpensLine};

use crate::status::Status;
use crate::{OpenArray, OpenError, builtin_registries};
use std::alloc::Global;

/// The array of a first line, by the built-in names.
///
/// # Errors
/// `Document` with the first reason why the line is not opened; or `OutOfMemory`.
pub fn open_line(alloc: Global, line: &str) -> Result<OpenArray, Status>
    ensures { OpensLine result (open_builtin line.now) }
{
    let Ok(registries) = builtin_registries(alloc) else {
        return Err(Status::OutOfMemory);
    };
    match OpenArray::open(alloc, line, &registries) {
        Ok(array) => Ok(array),
        Err(OpenError::OutOfMemory) => Err(Status::OutOfMemory),
        Err(error) => Err(Status::Document(error)),
    }
}
