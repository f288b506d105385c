//! What is wrong with array bytes, and with what selects of them.

ghost use Rattle.std.specs.Prelude.{◌≡◌};

use std::alloc::{AllocError, AllocFailed};
use thiserror::Error;
use zarr_model::ArrayShape;
use zarrs_array_subset::ArraySubset;

/// Bytes have another length than they must.
#[derive(Clone, Copy, Debug, Error)]
#[error("{len} bytes, where {expected_len} are expected")]
pub struct InvalidBytesLengthError {
    /// How many bytes there are.
    pub len: usize,
    /// How many there must be.
    pub expected_len: usize,
}

impl InvalidBytesLengthError {
    /// The error of `len` bytes where `expected_len` are expected.
    pub fn new(len: usize, expected_len: usize) -> Self
        ensures len { result.len ≡ len }
        ensures expected_len { result.expected_len ≡ expected_len }
    {
        InvalidBytesLengthError { len, expected_len }
    }
}

/// A shape has another number of elements than it must.
#[derive(Debug, Drop, Error)]
#[error("the shape {shape:?} does not have {expected_num_elements} elements")]
pub struct InvalidArrayShapeError {
    /// The shape.
    pub shape: ArrayShape,
    /// How many elements it must have.
    pub expected_num_elements: usize,
}

impl InvalidArrayShapeError {
    /// The error of a shape that must have `expected_num_elements` elements.
    pub fn new(shape: ArrayShape, expected_num_elements: usize) -> Self
        ensures shape { result.shape ≡ shape }
        ensures expected { result.expected_num_elements ≡ expected_num_elements }
    {
        InvalidArrayShapeError {
            shape,
            expected_num_elements,
        }
    }
}

/// There are more or fewer elements than there must be.
#[derive(Clone, Copy, Debug, Error)]
#[error("{num} elements, where {expected} are expected")]
pub struct InvalidNumberOfElementsError {
    /// How many elements there are.
    pub num: u64,
    /// How many there must be.
    pub expected: u64,
}

impl InvalidNumberOfElementsError {
    /// The error of `num` elements where `expected` are expected.
    pub fn new(num: u64, expected: u64) -> Self
        ensures num { result.num ≡ num }
        ensures expected { result.expected ≡ expected }
    {
        InvalidNumberOfElementsError { num, expected }
    }
}

/// An array subset leads out of another one.
#[derive(Debug, Drop, Error)]
#[error("the subset {subset} does not lie within {must_be_within}")]
pub struct SubsetOutOfBoundsError {
    /// The subset.
    pub subset: ArraySubset,
    /// What it must lie within.
    pub must_be_within: ArraySubset,
}

impl SubsetOutOfBoundsError {
    /// The error of `subset`, which does not lie within `must_be_within`.
    pub fn new(subset: ArraySubset, must_be_within: ArraySubset) -> Self
        ensures subset { result.subset ≡ subset }
        ensures must_be_within { result.must_be_within ≡ must_be_within }
    {
        SubsetOutOfBoundsError {
            subset,
            must_be_within,
        }
    }
}

/// The bytes are no elements of one length.
#[derive(Clone, Copy, Debug, Error)]
#[error("elements of one length are expected")]
pub struct ExpectedFixedLengthBytesError;

/// The bytes are no elements of different lengths.
#[derive(Clone, Copy, Debug, Error)]
#[error("elements of variable length are expected")]
pub struct ExpectedVariableLengthBytesError;

/// The bytes have no mask.
#[derive(Clone, Copy, Debug, Error)]
#[error("optional elements are expected")]
pub struct ExpectedOptionalBytesError;

/// A method for elements of one length was used on others. No call answers this: each names the kind that it
/// expects.
#[derive(Clone, Copy, Debug, Error)]
pub enum ArrayBytesError {
    /// The elements have different lengths.
    #[error("used a method for elements of one length on elements of variable length")]
    UsedFixedLengthMethodOnVariableLengthArray,
}

/// Numbers that are no offsets of variable-length elements.
#[derive(Clone, Copy, Debug, Error)]
pub enum ArrayBytesRawOffsetsCreateError {
    /// There is no offset at all.
    #[error("there are no offsets, where one is expected at least")]
    ZeroLength,
    /// An offset is less than the one before it.
    #[error("an offset is less than the one before it")]
    NotMonotonicallyIncreasing,
}

/// The last offset leads past the bytes.
#[derive(Clone, Copy, Debug, Error)]
#[error("the offset {offset} leads past {len} bytes")]
pub struct ArrayBytesRawOffsetsOutOfBoundsError {
    /// The offset.
    pub offset: usize,
    /// How many bytes there are.
    pub len: usize,
}

impl ArrayBytesRawOffsetsOutOfBoundsError {
    /// The error of an offset that leads past `len` bytes.
    pub fn new(offset: usize, len: usize) -> Self
        ensures offset { result.offset ≡ offset }
        ensures len { result.len ≡ len }
    {
        ArrayBytesRawOffsetsOutOfBoundsError { offset, len }
    }
}

/// Why there is no such view of the bytes of an array.
#[derive(Debug, Drop, Error)]
pub enum ArrayBytesFixedDisjointViewCreateError {
    /// The subset has another rank, or leads out of the array or of the view.
    #[error(transparent)]
    SubsetOutOfBounds(SubsetOutOfBoundsError),
    /// The bytes have another length than the array's.
    #[error(transparent)]
    InvalidBytesLength(InvalidBytesLengthError),
    /// Memory ran out.
    #[error("out of memory")]
    OutOfMemory,
}

impl From<AllocError> for ArrayBytesFixedDisjointViewCreateError {
    ghost use Rattle.zarrs_codec_error.specs.declared.array_bytes_error.ArrayBytesFixedDisjointViewCreateError.TheVariants.{OutOfMemory};

    ghost from_gives = { λ _ e. e ≡ OutOfMemory };

    fn from(_error: AllocError) -> Self {
        ArrayBytesFixedDisjointViewCreateError::OutOfMemory
    }
}

impl<T: Drop> From<AllocFailed<T>> for ArrayBytesFixedDisjointViewCreateError {
    ghost use Rattle.zarrs_codec_error.specs.declared.array_bytes_error.ArrayBytesFixedDisjointViewCreateError.TheVariants.{OutOfMemory};

    ghost from_gives = { λ _ e. e ≡ OutOfMemory };

    fn from(_error: AllocFailed<T>) -> Self {
        ArrayBytesFixedDisjointViewCreateError::OutOfMemory
    }
}
