//! Handles on values: the traits of partial decoders and encoders, and those on bytes, in memory, over a store, of an
//! interval, and through a bytes-to-bytes codec.
//!
//! Array bytes, views and targets, options of codecs and their errors, and the traits of codecs come from the crates
//! `zarrs_codec_slices`, `zarrs_codec_error`, `zarrs_codec_array_bytes`, `zarrs_codec_array_bytes_parts` and
//! `zarrs_codec_traits`, and are passed on here.
#![tactic(auto)]

mod array_partial_decoder;
mod array_partial_encoder;
mod byte_interval_partial_decoder;
mod bytes_partial_decoder;
mod bytes_partial_encoder;
mod bytes_to_bytes_codec_partial_default;
mod in_memory;
mod into_target;
mod memory_handle;
mod storage_partial_decoder;
mod storage_partial_encoder;

pub use array_partial_decoder::ArrayPartialDecoderTraits;
pub use array_partial_encoder::ArrayPartialEncoderTraits;
pub use byte_interval_partial_decoder::ByteIntervalPartialDecoder;
pub use bytes_partial_decoder::BytesPartialDecoderTraits;
pub use bytes_partial_encoder::BytesPartialEncoderTraits;
pub use bytes_to_bytes_codec_partial_default::BytesToBytesCodecPartialDefault;
pub use memory_handle::MemoryHandle;
pub use storage_partial_decoder::StoragePartialDecoder;
pub use storage_partial_encoder::StoragePartialEncoder;
pub use zarrs_codec_array_bytes::{
    ArrayBytes, ArrayBytesOffsets, ArrayBytesOptional, ArrayBytesRaw, ArrayBytesVariableLength,
};
pub use zarrs_codec_array_bytes_parts::laws::{
    target_holds_what_is_put, view_holds_what_is_written, views_side_by_side,
};
pub use zarrs_codec_array_bytes_parts::{
    ArrayBytesDecodeIntoTarget, ArrayBytesFixedDisjointView, copy_fill_value_into,
    decode_into_array_bytes_target, update_array_bytes,
};
pub use zarrs_codec_error::{
    ArrayBytesError, ArrayBytesFixedDisjointViewCreateError, ArrayBytesRawOffsetsCreateError,
    ArrayBytesRawOffsetsOutOfBoundsError, BytesRepresentation, CodecError, CodecMetadataOptions,
    CodecOptions, CodecSpecificOptions, ExpectedFixedLengthBytesError, ExpectedOptionalBytesError,
    ExpectedVariableLengthBytesError, InvalidArrayShapeError, InvalidBytesLengthError,
    InvalidNumberOfElementsError, PartialDecoderCapability, PartialEncoderCapability,
    RecommendedConcurrency, SubsetOutOfBoundsError,
};
pub use zarrs_codec_slices::laws::{
    equality_is_equivalence, equality_of_valid, extract_after_update, test_is_equality,
};
pub use zarrs_codec_traits::{
    ArrayCodecTraits, ArrayToArrayCodecTraits, ArrayToBytesCodecTraits, BytesToBytesCodecTraits,
    Codec, CodecMaker, CodecMetadata, CodecTraits, CodecTraitsV2, CodecTraitsV3,
};
