//! Handles on elements, over handles on bytes.
#![tactic(auto)]

mod array_to_bytes_codec_partial_default;
mod boxes;
pub mod calls;
pub mod decoding;
pub mod encoding;
pub mod fill;
mod level;
mod read;
pub mod write;

pub use array_to_bytes_codec_partial_default::ArrayToBytesCodecPartialDefault;
pub use level::BottomLevel;
