//! Why a session of reads ends with an error.

use thiserror::Error;
use zarr_array::SessionError;

/// An error of a session of reads.
#[derive(Debug, Drop, Error)]
pub enum RefSessionError {
    /// A command writes or erases, the first such one.
    #[error("command {command} does not read")]
    ReadOnly {
        /// The number of the command, from 0.
        command: usize,
    },
    /// The session ended with this error.
    #[error("{0}")]
    Session(SessionError),
}
