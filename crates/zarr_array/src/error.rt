//! Why a session ends with an error, and where.

ghost use Rattle.std.specs.Prelude.{◌≡◌, None};

use crate::CommandError;
pub use crate::SessionErrorKind;
use thiserror::Error;

/// An error of a session.
#[derive(Debug, Drop, Error)]
#[error("{kind} (the command, and how many of its chunks were finished: {at:?})")]
pub struct SessionError {
    /// The number of the command that failed, from 0, and how many of its chunks were finished, in row-major order.
    /// None where no command had begun.
    pub at: Option<(usize, u64)>,
    /// Why it failed.
    pub kind: SessionErrorKind,
}

impl SessionError {
    // An error before the first command.
    pub(crate) fn before_commands(kind: SessionErrorKind) -> SessionError
        ensures { result ≡ record { at = None; kind = kind } }
    {
        SessionError { at: None, kind }
    }
}

// The error of a command that stands alone, which is number 0.
impl From<CommandError> for SessionError {
    ghost use Rattle.zarr_array.specs.Ended.{ended_alone};

    ghost from_gives = { λ step error. error ≡ ended_alone step };

    fn from(step: CommandError) -> SessionError {
        SessionError {
            at: Some((0, step.chunks_done)),
            kind: step.kind,
        }
    }
}
