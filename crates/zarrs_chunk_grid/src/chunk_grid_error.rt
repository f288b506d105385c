//! Why a chunk grid refuses a call.

ghost use Rattle.std.specs.Prelude.{◌≡◌, ◌≢◌, IfOk, IfErr};
ghost use Rattle.zarrs_chunk_grid.specs.ChunkGridErrors.{IsRankRefusal};
ghost use Rattle.zarrs_chunk_grid.specs.declared.chunk_grid_error.ChunkGridError.TheVariants.{OutOfMemory};

use std::alloc::{AllocError, AllocFailed};
use thiserror::Error;
use zarrs_array_subset::IncompatibleDimensionalityError;

/// Why a chunk grid refuses a call.
#[derive(Debug, Drop, Error)]
pub enum ChunkGridError {
    /// The indices or the region have another number of dimensions than the grid.
    #[error(transparent)]
    IncompatibleDimensionality(IncompatibleDimensionalityError),
    /// Memory ran out.
    #[error("out of memory")]
    OutOfMemory,
}

impl ChunkGridError {
    /// Asks that indices or a region have a grid's number of dimensions.
    ///
    /// # Errors
    /// Returns [`ChunkGridError::IncompatibleDimensionality`] if `got` is not `expected`.
    pub fn expect_rank(got: usize, expected: usize) -> Result<(), Self>
        ensures same { IfOk result (λ _. got ≡ expected) }
        ensures other { IfErr result (λ _. got ≢ expected) }
        ensures told { IfErr result (IsRankRefusal got expected) }
    {
        if got == expected {
            return Ok(());
        }
        Err(ChunkGridError::IncompatibleDimensionality(IncompatibleDimensionalityError::new(
            got, expected,
        )))
    }
}

impl From<AllocError> for ChunkGridError {
    ghost from_gives = { λ _ e. e ≡ OutOfMemory };

    fn from(_error: AllocError) -> ChunkGridError {
        ChunkGridError::OutOfMemory
    }
}

impl<T: Drop> From<AllocFailed<T>> for ChunkGridError {
    ghost from_gives = { λ _ e. e ≡ OutOfMemory };

    fn from(_error: AllocFailed<T>) -> ChunkGridError {
        ChunkGridError::OutOfMemory
    }
}
