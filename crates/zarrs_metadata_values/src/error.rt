//! Why a document or a configuration could not be read.

ghost use Rattle.std.specs.Prelude.{◌≡◌};
ghost use Rattle.zarrs_metadata_values.specs.declared.error.FromConfigurationError.TheVariants as Typing;
ghost use Rattle.zarrs_metadata_values.specs.declared.error.MetadataError.TheVariants as Reading;

use std::alloc::{AllocError, AllocFailed};
use thiserror::Error;

/// Why a document could not be read.
#[derive(Clone, Copy, Debug, PartialEq, Eq, Error)]
pub enum MetadataError {
    /// The text is not JSON.
    #[error("the text is not JSON")]
    InvalidJson,
    /// The value holds a number that is neither a `u64` nor an `i64`.
    #[error("the metadata holds a number that is no integer of 64 bits")]
    FloatNumber,
    /// The value is not of the document's form.
    #[error("the metadata is not of its form")]
    InvalidMetadata,
    /// Memory ran out.
    #[error("out of memory")]
    OutOfMemory,
}

impl From<AllocError> for MetadataError {
    ghost from_gives = { λ _ e. e ≡ Reading.OutOfMemory };

    fn from(_error: AllocError) -> MetadataError {
        MetadataError::OutOfMemory
    }
}

impl<T: Drop> From<AllocFailed<T>> for MetadataError {
    ghost from_gives = { λ _ e. e ≡ Reading.OutOfMemory };

    fn from(_error: AllocFailed<T>) -> MetadataError {
        MetadataError::OutOfMemory
    }
}

/// Why a configuration could not be read as a type.
#[derive(Clone, Copy, Debug, PartialEq, Eq, Error)]
pub enum FromConfigurationError {
    /// The type has no such configuration.
    #[error("the configuration is not one of the type")]
    Mismatch,
    /// Memory ran out.
    #[error("out of memory")]
    OutOfMemory,
}

impl From<AllocError> for FromConfigurationError {
    ghost from_gives = { λ _ e. e ≡ Typing.OutOfMemory };

    fn from(_error: AllocError) -> FromConfigurationError {
        FromConfigurationError::OutOfMemory
    }
}

impl<T: Drop> From<AllocFailed<T>> for FromConfigurationError {
    ghost from_gives = { λ _ e. e ≡ Typing.OutOfMemory };

    fn from(_error: AllocFailed<T>) -> FromConfigurationError {
        FromConfigurationError::OutOfMemory
    }
}
