//! Handles on values and on the elements that they decode to.
//!
//! Handles on elements over handles on the elements of the level below stand here. Those over handles on bytes come
//! from the crate `zarrs_codec_partial_elements`, handles on bytes from `zarrs_codec`, and the traits of all of them
//! from `zarrs_codec`; all are passed on here.
#![tactic(auto)]

mod array_to_array_codec_partial_default;
mod level;
mod read;
mod write;

pub use array_to_array_codec_partial_default::ArrayToArrayCodecPartialDefault;
pub use level::ArrayLevel;
pub use zarrs_codec::{
    ArrayPartialDecoderTraits, ArrayPartialEncoderTraits, ByteIntervalPartialDecoder,
    BytesPartialDecoderTraits, BytesPartialEncoderTraits, BytesToBytesCodecPartialDefault,
    MemoryHandle, StoragePartialDecoder, StoragePartialEncoder,
};
pub use zarrs_codec_partial_elements::ArrayToBytesCodecPartialDefault;
