//! The errors of array subsets and indexers.

ghost use Rattle.std.specs.Prelude.{◌≡◌};

use std::alloc::{AllocError, AllocFailed};
use thiserror::Error;
use zarr_model::ArrayShape;

/// The index of an element, a number for each dimension.
pub type ArrayIndices = Vec<u64>;

/// Two things that were used together have another number of dimensions.
#[derive(PartialEq, Eq, Clone, Copy, Debug, Error)]
#[error("got dimensionality {got}, expected {expected}")]
pub struct IncompatibleDimensionalityError {
    got: usize,
    expected: usize,
}

impl IncompatibleDimensionalityError {
    /// The error of a dimensionality that was `got` where another one was `expected`.
    pub fn new(got: usize, expected: usize) -> Self
        ensures got { result.got ≡ got }
        ensures expected { result.expected ≡ expected }
    {
        IncompatibleDimensionalityError { got, expected }
    }
}

/// Why there is no such array subset.
#[derive(Debug, Drop, Error)]
pub enum ArraySubsetError {
    /// Another number of dimensions.
    #[error("got dimensionality {got}, expected {expected}")]
    IncompatibleDimensionality {
        got: usize,
        expected: usize,
    },
    /// A start and a shape of different dimensionality, or an end that does not fit `u64`.
    #[error("start {start:?} does not go with shape {shape:?}")]
    IncompatibleStartShape {
        start: ArrayIndices,
        shape: ArrayShape,
    },
    /// A start and an end of different dimensionality, an end below its start, or an inclusive end
    /// that has no exclusive one.
    #[error("start {start:?} does not go with end {end:?} (inclusive: {inclusive})")]
    IncompatibleStartEnd {
        start: ArrayIndices,
        end: ArrayIndices,
        inclusive: bool,
    },
    /// An offset of another dimensionality, or one that leads out of `u64`.
    #[error("start {start:?} does not go with offset {offset:?}")]
    IncompatibleOffset {
        start: Vec<u64>,
        offset: Vec<u64>,
    },
    /// There was not enough memory.
    #[error("out of memory")]
    OutOfMemory,
}

impl ArraySubsetError {
    ghost use Rattle.zarrs_array_subset.specs.Errors.{out_of_memory};

    /// Want of memory, where nothing else refuses the call.
    pub fn only_memory(self) -> AllocError
        requires { self ≡ out_of_memory }
    {
        match self {
            ArraySubsetError::OutOfMemory => AllocError,
            _ => unreachable!(),
        }
    }
}

impl From<AllocError> for ArraySubsetError {
    ghost use Rattle.zarrs_array_subset.specs.Errors.{out_of_memory};

    ghost from_gives = { λ _ e. e ≡ out_of_memory };

    fn from(_error: AllocError) -> ArraySubsetError {
        ArraySubsetError::OutOfMemory
    }
}

impl<T: Drop> From<AllocFailed<T>> for ArraySubsetError {
    ghost use Rattle.zarrs_array_subset.specs.Errors.{out_of_memory};

    ghost from_gives = { λ _ e. e ≡ out_of_memory };

    fn from(_failed: AllocFailed<T>) -> ArraySubsetError {
        ArraySubsetError::OutOfMemory
    }
}

/// Why an indexer does not go with an array shape.
#[derive(Debug, Drop, Error)]
pub enum IndexerError {
    /// Another number of dimensions than the array's.
    #[error(transparent)]
    IncompatibleDimensionality(IncompatibleDimensionalityError),
    /// Indices that lead out of an array of this shape.
    #[error("indices {0:?} are out of bounds of array shape {1:?}")]
    OutOfBounds(ArrayIndices, ArrayShape),
    /// A number of elements where another one was expected.
    #[error("got length {0}, expected {1}")]
    IncompatibleLength(u64, u64),
    /// There was not enough memory.
    #[error("out of memory")]
    OutOfMemory,
}

impl IndexerError {
    ghost use Rattle.zarrs_array_subset.specs.Errors.{no_memory, other_dimensionality};

    /// Dimensionality `got` where `expected` is the array's.
    pub fn new_incompatible_dimensionality(got: usize, expected: usize) -> Self
        ensures { result ≡ other_dimensionality got expected }
    {
        IndexerError::IncompatibleDimensionality(IncompatibleDimensionalityError::new(
            got, expected,
        ))
    }

    /// Indices out of the bounds of a shape.
    pub fn new_oob(indices: ArrayIndices, shape: ArrayShape) -> Self
        ensures { result ≡ IndexerError.OutOfBounds indices shape }
    {
        IndexerError::OutOfBounds(indices, shape)
    }

    /// A length of `got` where `expected` was asked for.
    pub fn new_incompatible_length(got: u64, expected: u64) -> Self
        ensures { result ≡ IndexerError.IncompatibleLength got expected }
    {
        IndexerError::IncompatibleLength(got, expected)
    }

    /// Want of memory, where nothing else refuses the call.
    pub fn only_memory(self) -> AllocError
        requires { self ≡ no_memory }
    {
        match self {
            IndexerError::OutOfMemory => AllocError,
            _ => unreachable!(),
        }
    }
}

impl From<AllocError> for IndexerError {
    ghost use Rattle.zarrs_array_subset.specs.Errors.{no_memory};

    ghost from_gives = { λ _ e. e ≡ no_memory };

    fn from(_error: AllocError) -> IndexerError {
        IndexerError::OutOfMemory
    }
}

impl<T: Drop> From<AllocFailed<T>> for IndexerError {
    ghost use Rattle.zarrs_array_subset.specs.Errors.{no_memory};

    ghost from_gives = { λ _ e. e ≡ no_memory };

    fn from(_failed: AllocFailed<T>) -> IndexerError {
        IndexerError::OutOfMemory
    }
}
