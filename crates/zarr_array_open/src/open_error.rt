//! Why a document is not opened.

ghost use Rattle.std.specs.Prelude.{◌≡◌};

use std::alloc::{AllocError, AllocFailed};
use thiserror::Error;
use zarrs_codec_error::CodecError;
use zarrs_metadata::MetadataError;
use zarrs_plugin::PluginCreateError;

/// Why a document is not opened, in the order in which it is tested: the first that applies. Names and configurations
/// are tested extension by extension: the data type, the chunk grid, the chunk key encoding, and each codec.
#[derive(Clone, Copy, Debug, PartialEq, Eq, Error)]
pub enum OpenError {
    /// The text is not JSON.
    #[error("the document is not JSON")]
    InvalidJson,
    /// The document holds a number that is no integer of 64 bits.
    #[error("the document holds a float")]
    FloatNumber,
    /// The value is an array document of neither version.
    #[error("the document is not an array document")]
    InvalidMetadata,
    /// The value is a version 2 array document.
    #[error("the document is of version 2")]
    UnsupportedVersion,
    /// An additional field must be understood, or there are storage transformers.
    #[error("the document has a field that is not supported")]
    UnsupportedField,
    /// No entry of a registry goes by the name of an extension.
    #[error("an extension is not supported")]
    PluginUnsupportedError,
    /// The configuration of an extension is not of its form, or the name of a raw type is not; a codec inside another
    /// is no array-to-bytes one; an array-to-array codec does not serve the array's rank; or the data type need not be
    /// understood.
    #[error("an extension has a configuration that is not supported")]
    PluginCreateError,
    /// The fill value is no element of the data type.
    #[error("the fill value is no element of the data type")]
    DataTypeFillValueMetadataError,
    /// The codecs are not one array-to-bytes codec between array-to-array and bytes-to-bytes ones.
    #[error("the codecs are not a chain")]
    ChainOrder,
    /// A codec does not serve the data type.
    #[error("a codec does not support the data type")]
    UnsupportedDataTypeCodec,
    /// The codec `bytes` has no byte order, and the data type needs one.
    #[error("the codec bytes has no byte order")]
    EndiannessMissing,
    /// Some chunk ends past 64 bits, or has more elements or more bytes than can be addressed, of elements one more; or
    /// the codec stores lengths in 4 bytes, and the number of elements of a chunk, or how many bytes the fill value has
    /// below all optional types, does not fit in them.
    #[error("a chunk is too large")]
    ChunkTooLarge,
    /// Memory ran out.
    #[error("out of memory")]
    OutOfMemory,
}

impl OpenError {
    ghost use Rattle.zarr_array_open.specs.OpenError.{open_error_name};

    /// The name of the error.
    pub fn name(&self) -> &'static str
        ensures { result.now ≡ open_error_name self.now }
    {
        match self {
            OpenError::InvalidJson => "InvalidJson",
            OpenError::FloatNumber => "FloatNumber",
            OpenError::InvalidMetadata => "InvalidMetadata",
            OpenError::UnsupportedVersion => "UnsupportedVersion",
            OpenError::UnsupportedField => "UnsupportedField",
            OpenError::PluginUnsupportedError => "PluginUnsupportedError",
            OpenError::PluginCreateError => "PluginCreateError",
            OpenError::DataTypeFillValueMetadataError => "DataTypeFillValueMetadataError",
            OpenError::ChainOrder => "ChainOrder",
            OpenError::UnsupportedDataTypeCodec => "UnsupportedDataTypeCodec",
            OpenError::EndiannessMissing => "EndiannessMissing",
            OpenError::ChunkTooLarge => "ChunkTooLarge",
            OpenError::OutOfMemory => "OutOfMemory",
        }
    }
}

impl From<AllocError> for OpenError {
    ghost use Rattle.zarr_array_open.specs.declared.open_error.OpenError.TheVariants.{OutOfMemory};

    ghost from_gives = { λ _ e. e ≡ OutOfMemory };

    fn from(_error: AllocError) -> OpenError {
        OpenError::OutOfMemory
    }
}

impl<T: Drop> From<AllocFailed<T>> for OpenError {
    ghost use Rattle.zarr_array_open.specs.declared.open_error.OpenError.TheVariants.{OutOfMemory};

    ghost from_gives = { λ _ e. e ≡ OutOfMemory };

    fn from(_error: AllocFailed<T>) -> OpenError {
        OpenError::OutOfMemory
    }
}

impl From<MetadataError> for OpenError {
    ghost use Rattle.zarr_array_open.specs.OpenError.{unread_as};

    ghost from_gives = { λ e opened. opened ≡ unread_as e };

    fn from(error: MetadataError) -> OpenError {
        match error {
            MetadataError::InvalidJson => OpenError::InvalidJson,
            MetadataError::FloatNumber => OpenError::FloatNumber,
            MetadataError::InvalidMetadata => OpenError::InvalidMetadata,
            MetadataError::OutOfMemory => OpenError::OutOfMemory,
        }
    }
}

impl From<PluginCreateError> for OpenError {
    ghost use Rattle.zarr_array_open.specs.OpenError.{open_unmade_as};

    ghost from_gives = { λ e opened. opened ≡ open_unmade_as e };

    fn from(error: PluginCreateError) -> OpenError {
        match error {
            PluginCreateError::Unsupported(_) => OpenError::PluginUnsupportedError,
            PluginCreateError::Config => OpenError::PluginCreateError,
            PluginCreateError::Other => OpenError::PluginCreateError,
            PluginCreateError::OutOfMemory => OpenError::OutOfMemory,
        }
    }
}

impl From<CodecError> for OpenError {
    ghost use Rattle.zarr_array_open.specs.OpenError.{unserved_as};

    ghost from_gives = { λ e opened. opened ≡ unserved_as e };

    fn from(error: CodecError) -> OpenError {
        match error {
            CodecError::OutOfMemory => OpenError::OutOfMemory,
            CodecError::EndiannessMissing => OpenError::EndiannessMissing,
            _ => OpenError::UnsupportedDataTypeCodec,
        }
    }
}
