//! Why one command fails, and so a session.

ghost use Rattle.std.specs.Prelude.{◌≡◌};
ghost use Rattle.zarr_array.specs.Chunk.{storage_kind, chunk_kind};

use std::alloc::AllocError;
use thiserror::Error;
use zarr_array_open::OpenError;
use zarrs_codec_error::CodecError;
use zarrs_storage::{StorageError, StoreKey};

/// Why a session ends with an error.
#[derive(Debug, Drop, Error)]
pub enum SessionErrorKind {
    /// The document is not opened. Never for want of memory.
    #[error("the document is not opened: {0}")]
    NotOpened(OpenError),
    /// A chunk's value does not decode.
    #[error("the value of a chunk does not decode: {error}")]
    ChunkDecode {
        /// The key of the chunk.
        key: StoreKey,
        /// The error of the first codec, in the order of decoding, that gives nothing; of a part under `bytes` that of
        /// its first range past the bytes.
        error: CodecError,
    },
    /// The store failed.
    #[error("the store failed")]
    Store,
    /// Memory ran out.
    #[error("out of memory")]
    OutOfMemory,
}

// A session's error where the store told one.
fn storage_error(error: StorageError) -> SessionErrorKind
    ensures { result ≡ storage_kind error }
{
    match error {
        StorageError::Failed | StorageError::InvalidByteRange(_) => SessionErrorKind::Store,
        StorageError::OutOfMemory => SessionErrorKind::OutOfMemory,
    }
}

// A session's error where the chunk of a key is not fetched or not stored.
fn chunk_error(key: StoreKey, error: CodecError) -> SessionErrorKind
    ensures { result ≡ chunk_kind key error }
{
    match error {
        CodecError::StorageError(error) => storage_error(error),
        CodecError::OutOfMemory => SessionErrorKind::OutOfMemory,
        error => SessionErrorKind::ChunkDecode { key, error },
    }
}

/// Why one command failed, and how many of its chunks were finished before.
#[derive(Debug, Drop)]
pub struct CommandError {
    /// How many of its chunks were finished.
    pub chunks_done: u64,
    /// Why it failed.
    pub kind: SessionErrorKind,
}

impl CommandError {
    ghost use Rattle.zarr_array.specs.CommandError.{starved_after, stopped_at};

    // Memory ran out after so many chunks.
    pub(crate) fn out_of_memory(chunks_done: u64) -> CommandError
        ensures { result ≡ starved_after chunks_done }
    {
        CommandError {
            chunks_done,
            kind: SessionErrorKind::OutOfMemory,
        }
    }

    // The chunk of a key was not fetched or not stored after so many chunks.
    pub(crate) fn at_chunk(chunks_done: u64, key: StoreKey, error: CodecError) -> CommandError
        ensures { result ≡ stopped_at chunks_done key error }
    {
        CommandError {
            chunks_done,
            kind: chunk_error(key, error),
        }
    }
}

impl From<AllocError> for CommandError {
    ghost use Rattle.zarr_array.specs.CommandError.{before_chunks};

    ghost from_gives = { λ _ e. e ≡ before_chunks };

    fn from(_error: AllocError) -> CommandError {
        CommandError::out_of_memory(0)
    }
}
