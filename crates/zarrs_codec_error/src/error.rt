//! Why a codec, or a handle of what it decodes, refuses a call.

use crate::array_bytes_error::{
    ArrayBytesRawOffsetsCreateError, ArrayBytesRawOffsetsOutOfBoundsError,
    ExpectedFixedLengthBytesError, ExpectedOptionalBytesError, ExpectedVariableLengthBytesError,
    InvalidBytesLengthError, InvalidNumberOfElementsError, SubsetOutOfBoundsError,
};
use thiserror::Error;
use zarrs_array_subset::{ArraySubsetError, IncompatibleDimensionalityError, IndexerError};
use zarrs_data_type_bytes::{DataTypeCodecError, DataTypeFillValueError};
use zarrs_storage::{InvalidByteRangeError, StorageError};

/// Why a codec, or a handle of what it decodes, refuses a call.
#[derive(Debug, Drop, Error)]
pub enum CodecError {
    /// Two things that were used together have another number of dimensions.
    #[error(transparent)]
    IncompatibleDimensionalityError(IncompatibleDimensionalityError),
    /// A byte range is not valid for the value or interval.
    #[error(transparent)]
    InvalidByteRangeError(InvalidByteRangeError),
    /// The indexer's rank or an index does not fit the shape.
    #[error(transparent)]
    IncompatibleIndexer(IndexerError),
    /// Fixed-length bytes, a mask view or an encoded value have another length than they must.
    #[error("a chunk has another size than it must: {0}")]
    UnexpectedChunkDecodedSize(InvalidBytesLengthError),
    /// A digest is not that of the bytes before it.
    #[error("the checksum is not that of the bytes")]
    InvalidChecksum,
    /// The store failed.
    #[error(transparent)]
    StorageError(StorageError),
    /// The codec does not serve the data type, the shape or the fill value.
    #[error(transparent)]
    UnsupportedDataTypeCodec(DataTypeCodecError),
    /// Components have several bytes, and no byte order is given.
    #[error("components of several bytes need a byte order")]
    EndiannessMissing,
    /// Offsets, or a value of variable-length elements, are not of their form.
    #[error("the offsets of variable-length elements are not of their form")]
    InvalidVariableSizedArrayOffsets,
    /// A mask has another length than it must, or a byte that is neither 0 nor 1.
    #[error("the mask of optional elements is not of its form")]
    InvalidMask,
    /// The bytes are no elements of one length.
    #[error(transparent)]
    ExpectedFixedLengthBytes(ExpectedFixedLengthBytesError),
    /// The bytes are no elements of different lengths.
    #[error(transparent)]
    ExpectedVariableLengthBytes(ExpectedVariableLengthBytesError),
    /// The bytes have no mask.
    #[error(transparent)]
    ExpectedOptionalBytes(ExpectedOptionalBytesError),
    /// An indexer or a shape has another number of elements than the target.
    #[error(transparent)]
    InvalidNumberOfElements(InvalidNumberOfElementsError),
    /// An array subset leads out of another one.
    #[error(transparent)]
    SubsetOutOfBounds(SubsetOutOfBoundsError),
    /// Numbers are no offsets of variable-length elements.
    #[error(transparent)]
    RawBytesOffsetsCreate(ArrayBytesRawOffsetsCreateError),
    /// The last offset leads past the bytes.
    #[error(transparent)]
    RawBytesOffsetsOutOfBounds(ArrayBytesRawOffsetsOutOfBoundsError),
    /// A fill value has another size than the data type's elements.
    #[error(transparent)]
    DataTypeFillValueError(DataTypeFillValueError),
    /// There is no such array subset.
    #[error(transparent)]
    ArraySubsetError(ArraySubsetError),
    /// Memory ran out.
    #[error("out of memory")]
    OutOfMemory,
}
