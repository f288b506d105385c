//! Why an array is not moved.

ghost use Rattle.std.specs.Prelude.{◌≡◌, None};
ghost use Rattle.zarr_rechunk.specs.Errors.{IsOfCommand, source_kind, target_kind};

use thiserror::Error;
use zarr_array::SessionErrorKind;
use zarrs_codec_error::CodecError;
use zarrs_storage::StoreKey;

/// Why an array is not moved.
#[derive(Debug, Drop, Error)]
pub enum RechunkErrorKind {
    /// The shapes of the arrays differ.
    #[error("the shapes differ")]
    ShapeMismatch,
    /// The shapes are the same, and the data types differ.
    #[error("the data types differ")]
    DataTypeMismatch,
    /// The shapes and data types are the same, and a band has as many elements as the greatest number, or more, or more
    /// bytes than it.
    #[error("a band is too large")]
    BandTooLarge,
    /// The value of a chunk of the source that the band meets does not decode.
    #[error("the value of a chunk of the source does not decode: {error}")]
    SourceChunk {
        /// The key of the chunk.
        key: StoreKey,
        /// The error of the first codec, in the order of decoding, that gives nothing.
        error: CodecError,
    },
    /// The store of the source failed.
    #[error("the store of the source failed")]
    SourceStore,
    /// The old value of a chunk of the target that the band meets does not decode. It stands.
    #[error("the value of a chunk of the target does not decode: {error}")]
    TargetChunk {
        /// The key of the chunk.
        key: StoreKey,
        /// The error of the first codec, in the order of decoding, that gives nothing.
        error: CodecError,
    },
    /// The store of the target failed.
    #[error("the store of the target failed")]
    TargetStore,
    /// Memory ran out.
    #[error("out of memory")]
    OutOfMemory,
}

/// An error of moving an array.
#[derive(Debug, Drop, Error)]
#[error("{kind} (the band: {at:?})")]
pub struct RechunkError {
    /// The number of the band that failed, from 0. Those before it are moved. None where no band had begun.
    pub at: Option<u64>,
    /// Why it failed.
    pub kind: RechunkErrorKind,
}

impl RechunkError {
    // An error before the first band.
    pub(crate) fn before_bands(kind: RechunkErrorKind) -> RechunkError
        ensures { result ≡ record { at = None; kind = kind } }
    {
        RechunkError { at: None, kind }
    }
}

/// The error of a read of the source.
pub(crate) fn source_kind(kind: SessionErrorKind) -> RechunkErrorKind
    requires { IsOfCommand kind }
    ensures { result ≡ source_kind kind }
{
    match kind {
        SessionErrorKind::NotOpened(_) => unreachable!(),
        SessionErrorKind::ChunkDecode { key, error } => {
            RechunkErrorKind::SourceChunk { key, error }
        }
        SessionErrorKind::Store => RechunkErrorKind::SourceStore,
        SessionErrorKind::OutOfMemory => RechunkErrorKind::OutOfMemory,
    }
}

/// The error of a write of the target.
pub(crate) fn target_kind(kind: SessionErrorKind) -> RechunkErrorKind
    requires { IsOfCommand kind }
    ensures { result ≡ target_kind kind }
{
    match kind {
        SessionErrorKind::NotOpened(_) => unreachable!(),
        SessionErrorKind::ChunkDecode { key, error } => {
            RechunkErrorKind::TargetChunk { key, error }
        }
        SessionErrorKind::Store => RechunkErrorKind::TargetStore,
        SessionErrorKind::OutOfMemory => RechunkErrorKind::OutOfMemory,
    }
}
