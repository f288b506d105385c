//! The names of codecs, and the error of a data type that a codec does not serve.

use thiserror::Error;

/// A codec, as errors name it.
#[derive(Clone, Copy, Debug, PartialEq, Eq)]
pub enum CodecName {
    /// The elements one after another, as bytes in an order.
    Bytes,
    /// Numbers rounded to some leading binary digits.
    Bitround,
    /// Numbers less an offset and times a scale.
    FixedScaleOffset,
    /// Elements packed into as few bits as they need.
    PackBits,
    /// Numbers compressed by pcodec.
    Pcodec,
    /// Numbers compressed by zfp.
    Zfp,
    /// Texts, each behind its length.
    VlenUtf8,
    /// Byte strings, each behind its length.
    VlenBytes,
    /// A mask of what is null, and the elements of the inner type.
    Optional,
    /// Numbers less an offset.
    Offset,
    /// Dimensions in another order.
    Transpose,
    /// Chunks within chunks.
    Sharding,
    /// A codec of a user's own.
    Other,
}

/// Why a data type is of no use to a codec.
#[derive(Clone, Copy, Debug, PartialEq, Eq, Error)]
pub enum DataTypeCodecError {
    /// The codec does not serve the data type.
    #[error("the data type is not supported by the codec {codec_name:?}")]
    UnsupportedDataType {
        /// The codec.
        codec_name: CodecName,
    },
}
