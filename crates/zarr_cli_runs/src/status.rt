//! How the program ends.

ghost use Rattle.std.specs.Prelude.{◌≡◌};
ghost use Rattle.zarr_cli_runs.specs.Ending.{ending_code};
ghost use Rattle.zarr_cli_runs.specs.Status.{ending_of};

use crate::OpenError;
use std::alloc::AllocError;
use zarrs_storage::StoreKey;

/// How the program ends.
#[derive(Debug, Drop)]
pub enum Status {
    /// The replies are written.
    Done,
    /// A word is not one of the known ones.
    BadWords,
    /// The input is not UTF-8, or a line of it is not of a known form.
    BadInput {
        /// The number of the line of the first byte that is not UTF-8, or of the first line out of form, from 1.
        line: u64,
    },
    /// The first line is not opened as an array document.
    Document(OpenError),
    /// The value of a chunk that a read or a write met does not decode.
    Chunk {
        /// The key of the chunk.
        key: StoreKey,
    },
    /// The store failed.
    Store,
    /// The source failed.
    Read,
    /// The sink failed while replies were written.
    Write,
    /// The source gave more bytes than an input may have.
    TooLong,
    /// Memory ran out.
    OutOfMemory,
}

impl From<AllocError> for Status {
    ghost use Rattle.zarr_cli_runs.specs.declared.status.Status.TheVariants.{OutOfMemory};

    ghost from_gives = { λ _ status. status ≡ OutOfMemory };

    fn from(_error: AllocError) -> Status {
        Status::OutOfMemory
    }
}

impl Status {
    /// The status code that the program ends with.
    pub fn code(&self) -> u8
        ensures { result ≡ ending_code (ending_of self.now) }
    {
        match self {
            Status::Done => 0,
            Status::BadWords => 2,
            Status::BadInput { line: _ } => 3,
            Status::Document(OpenError::OutOfMemory) => 10,
            Status::Document(_) => 4,
            Status::Chunk { key: _ } => 5,
            Status::Store => 6,
            Status::Read => 7,
            Status::Write => 8,
            Status::TooLong => 9,
            Status::OutOfMemory => 10,
        }
    }
}
