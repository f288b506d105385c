//! Why a version 2 array document is not opened.

use crate::V2Error;
use thiserror::Error;
use zarr_array::OpenError;

/// Why a text is not opened as a version 2 array.
#[derive(Clone, Copy, Debug, PartialEq, Eq, Error)]
pub enum V2OpenError {
    /// The text is no version 2 array document, or one that is not translated; never by want of memory.
    #[error("{0}")]
    Refused(V2Error),
    /// The document that it is translated to is not opened; never by want of memory.
    #[error("{0}")]
    Open(OpenError),
    /// Memory ran out.
    #[error("out of memory")]
    OutOfMemory,
}
