//! How the errors of lower calls are told as one of a codec: each as the variant that holds it, and any want of
//! memory as the codec's own.

ghost use Rattle.std.specs.Prelude.{◌≡◌};
ghost use Rattle.zarrs_codec_error.specs.declared.error.CodecError.TheVariants as codec;

use crate::array_bytes_error::{
    ArrayBytesFixedDisjointViewCreateError, ArrayBytesRawOffsetsCreateError,
    ArrayBytesRawOffsetsOutOfBoundsError, ExpectedFixedLengthBytesError,
    ExpectedOptionalBytesError, ExpectedVariableLengthBytesError, InvalidBytesLengthError,
    InvalidNumberOfElementsError, SubsetOutOfBoundsError,
};
use crate::error::CodecError;
use std::alloc::{AllocError, AllocFailed};
use zarrs_array_subset::{ArraySubsetError, IncompatibleDimensionalityError, IndexerError};
use zarrs_data_type_bytes::{
    BytesCodecEndiannessMissingError, DataTypeCodecError, DataTypeFillValueError,
};
use zarrs_storage::{ByteRangeFault, InvalidByteRangeError, StorageError};

impl CodecError {
    /// Want of memory, where nothing else refuses the call.
    pub fn only_memory(self) -> AllocError
        requires { self ≡ codec.OutOfMemory }
    {
        match self {
            CodecError::OutOfMemory => AllocError,
            _ => unreachable!(),
        }
    }
}

impl From<AllocError> for CodecError {
    ghost from_gives = { λ _ e. e ≡ codec.OutOfMemory };

    fn from(_error: AllocError) -> Self {
        CodecError::OutOfMemory
    }
}

impl<T: Drop> From<AllocFailed<T>> for CodecError {
    ghost from_gives = { λ _ e. e ≡ codec.OutOfMemory };

    fn from(_error: AllocFailed<T>) -> Self {
        CodecError::OutOfMemory
    }
}

impl From<IncompatibleDimensionalityError> for CodecError {
    ghost from_gives = { λ error e. e ≡ codec.IncompatibleDimensionalityError error };

    fn from(error: IncompatibleDimensionalityError) -> Self {
        CodecError::IncompatibleDimensionalityError(error)
    }
}

impl From<InvalidByteRangeError> for CodecError {
    ghost from_gives = { λ error e. e ≡ codec.InvalidByteRangeError error };

    fn from(error: InvalidByteRangeError) -> Self {
        CodecError::InvalidByteRangeError(error)
    }
}

impl From<ByteRangeFault> for CodecError {
    ghost use Rattle.zarrs_codec_error.specs.CodecError.{codec_of_range};

    ghost from_gives = { λ error e. e ≡ codec_of_range error };

    fn from(error: ByteRangeFault) -> Self {
        match error {
            ByteRangeFault::Invalid(error) => CodecError::InvalidByteRangeError(error),
            ByteRangeFault::OutOfMemory => CodecError::OutOfMemory,
        }
    }
}

impl From<IndexerError> for CodecError {
    ghost use Rattle.zarrs_codec_error.specs.CodecError.{codec_of_indexer};

    ghost from_gives = { λ error e. e ≡ codec_of_indexer error };

    fn from(error: IndexerError) -> Self {
        match error {
            IndexerError::OutOfMemory => CodecError::OutOfMemory,
            error => CodecError::IncompatibleIndexer(error),
        }
    }
}

impl From<InvalidBytesLengthError> for CodecError {
    ghost from_gives = { λ error e. e ≡ codec.UnexpectedChunkDecodedSize error };

    fn from(error: InvalidBytesLengthError) -> Self {
        CodecError::UnexpectedChunkDecodedSize(error)
    }
}

impl From<StorageError> for CodecError {
    ghost use Rattle.zarrs_codec_error.specs.CodecError.{codec_of_storage};

    ghost from_gives = { λ error e. e ≡ codec_of_storage error };

    fn from(error: StorageError) -> Self {
        match error {
            StorageError::Failed => CodecError::StorageError(StorageError::Failed),
            StorageError::InvalidByteRange(error) => CodecError::InvalidByteRangeError(error),
            StorageError::OutOfMemory => CodecError::OutOfMemory,
        }
    }
}

impl From<DataTypeCodecError> for CodecError {
    ghost from_gives = { λ error e. e ≡ codec.UnsupportedDataTypeCodec error };

    fn from(error: DataTypeCodecError) -> Self {
        CodecError::UnsupportedDataTypeCodec(error)
    }
}

impl From<BytesCodecEndiannessMissingError> for CodecError {
    ghost from_gives = { λ _ e. e ≡ codec.EndiannessMissing };

    fn from(_error: BytesCodecEndiannessMissingError) -> Self {
        CodecError::EndiannessMissing
    }
}

impl From<ExpectedFixedLengthBytesError> for CodecError {
    ghost from_gives = { λ error e. e ≡ codec.ExpectedFixedLengthBytes error };

    fn from(error: ExpectedFixedLengthBytesError) -> Self {
        CodecError::ExpectedFixedLengthBytes(error)
    }
}

impl From<ExpectedVariableLengthBytesError> for CodecError {
    ghost from_gives = { λ error e. e ≡ codec.ExpectedVariableLengthBytes error };

    fn from(error: ExpectedVariableLengthBytesError) -> Self {
        CodecError::ExpectedVariableLengthBytes(error)
    }
}

impl From<ExpectedOptionalBytesError> for CodecError {
    ghost from_gives = { λ error e. e ≡ codec.ExpectedOptionalBytes error };

    fn from(error: ExpectedOptionalBytesError) -> Self {
        CodecError::ExpectedOptionalBytes(error)
    }
}

impl From<InvalidNumberOfElementsError> for CodecError {
    ghost from_gives = { λ error e. e ≡ codec.InvalidNumberOfElements error };

    fn from(error: InvalidNumberOfElementsError) -> Self {
        CodecError::InvalidNumberOfElements(error)
    }
}

impl From<SubsetOutOfBoundsError> for CodecError {
    ghost from_gives = { λ error e. e ≡ codec.SubsetOutOfBounds error };

    fn from(error: SubsetOutOfBoundsError) -> Self {
        CodecError::SubsetOutOfBounds(error)
    }
}

impl From<ArrayBytesRawOffsetsCreateError> for CodecError {
    ghost from_gives = { λ error e. e ≡ codec.RawBytesOffsetsCreate error };

    fn from(error: ArrayBytesRawOffsetsCreateError) -> Self {
        CodecError::RawBytesOffsetsCreate(error)
    }
}

impl From<ArrayBytesRawOffsetsOutOfBoundsError> for CodecError {
    ghost from_gives = { λ error e. e ≡ codec.RawBytesOffsetsOutOfBounds error };

    fn from(error: ArrayBytesRawOffsetsOutOfBoundsError) -> Self {
        CodecError::RawBytesOffsetsOutOfBounds(error)
    }
}

impl From<DataTypeFillValueError> for CodecError {
    ghost from_gives = { λ error e. e ≡ codec.DataTypeFillValueError error };

    fn from(error: DataTypeFillValueError) -> Self {
        CodecError::DataTypeFillValueError(error)
    }
}

impl From<ArraySubsetError> for CodecError {
    ghost use Rattle.zarrs_codec_error.specs.CodecError.{codec_of_subset};

    ghost from_gives = { λ error e. e ≡ codec_of_subset error };

    fn from(error: ArraySubsetError) -> Self {
        match error {
            ArraySubsetError::OutOfMemory => CodecError::OutOfMemory,
            error => CodecError::ArraySubsetError(error),
        }
    }
}

impl From<ArrayBytesFixedDisjointViewCreateError> for CodecError {
    ghost use Rattle.zarrs_codec_error.specs.CodecError.{codec_of_view};

    ghost from_gives = { λ error e. e ≡ codec_of_view error };

    fn from(error: ArrayBytesFixedDisjointViewCreateError) -> Self {
        match error {
            ArrayBytesFixedDisjointViewCreateError::SubsetOutOfBounds(error) =>
                CodecError::SubsetOutOfBounds(error),
            ArrayBytesFixedDisjointViewCreateError::InvalidBytesLength(error) =>
                CodecError::UnexpectedChunkDecodedSize(error),
            ArrayBytesFixedDisjointViewCreateError::OutOfMemory => CodecError::OutOfMemory,
        }
    }
}
