//! Why a version 2 array document is not translated.

ghost use Rattle.std.specs.Prelude.{◌≡◌};

use std::alloc::{AllocError, AllocFailed};
use thiserror::Error;

/// Why a version 2 array document is not opened, the first reason in this order.
#[derive(Clone, Copy, Debug, PartialEq, Eq, Error)]
pub enum V2Error {
    /// The text is not JSON.
    #[error("the text is not JSON")]
    InvalidJson,
    /// The document holds a float.
    #[error("the document holds a float")]
    FloatNumber,
    /// The document is no version 2 array.
    #[error("the document is no version 2 array")]
    InvalidMetadata,
    /// The shape and the chunks have different numbers of dimensions.
    #[error("the shape and the chunks have different numbers of dimensions")]
    RankMismatch,
    /// The data type is none that can be translated.
    #[error("the data type is not supported")]
    UnsupportedDataType,
    /// The fill value is none of the data type.
    #[error("the fill value is not supported")]
    UnsupportedFillValue,
    /// There is a compressor or a filter.
    #[error("compressors and filters are not supported")]
    UnsupportedCodec,
    /// Memory ran out.
    #[error("out of memory")]
    OutOfMemory,
}

impl From<AllocError> for V2Error {
    ghost use Rattle.zarr_v2.specs.declared.translation_error.V2Error.TheVariants.{OutOfMemory};

    ghost from_gives = { λ _ e. e ≡ OutOfMemory };

    fn from(_: AllocError) -> Self {
        V2Error::OutOfMemory
    }
}

impl<T: Drop> From<AllocFailed<T>> for V2Error {
    ghost use Rattle.zarr_v2.specs.declared.translation_error.V2Error.TheVariants.{OutOfMemory};

    ghost from_gives = { λ _ e. e ≡ OutOfMemory };

    fn from(_: AllocFailed<T>) -> Self {
        V2Error::OutOfMemory
    }
}
