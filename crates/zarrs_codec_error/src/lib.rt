//! The errors of codecs, of array bytes and of what reads and writes them; and what codecs are told and tell of
//! themselves: options, recommended concurrency, the size of what they encode, and which parts of it they serve.
#![tactic(auto)]

mod array_bytes_error;
mod bytes_representation;
mod capability;
mod codec_specific_options;
mod error;
mod from;
mod options;
mod recommended_concurrency;

pub use array_bytes_error::{
    ArrayBytesError, ArrayBytesFixedDisjointViewCreateError, ArrayBytesRawOffsetsCreateError,
    ArrayBytesRawOffsetsOutOfBoundsError, ExpectedFixedLengthBytesError,
    ExpectedOptionalBytesError, ExpectedVariableLengthBytesError, InvalidArrayShapeError,
    InvalidBytesLengthError, InvalidNumberOfElementsError, SubsetOutOfBoundsError,
};
pub use bytes_representation::BytesRepresentation;
pub use capability::{PartialDecoderCapability, PartialEncoderCapability};
pub use codec_specific_options::CodecSpecificOptions;
pub use error::CodecError;
pub use options::{CodecMetadataOptions, CodecOptions};
pub use recommended_concurrency::RecommendedConcurrency;
pub use zarrs_data_type_bytes::DataTypeFillValueError;
