//! Codecs: the three traits, what each call of a codec answers, the laws that every codec keeps, and what makes codecs
//! of metadata; and what a handle on a value holds and shows.
//!
//! See <https://zarr-specs.readthedocs.io/en/latest/v3/core/index.html#codecs>. An array-to-array codec turns elements
//! into elements of the level below, an array-to-bytes codec turns those into bytes, and a bytes-to-bytes codec turns
//! bytes into bytes.
#![tactic(auto)]

mod array_to_array;
mod array_to_bytes;
mod bytes_to_bytes;
mod codec;
mod codec_metadata;
mod codec_traits;
mod decoding;
mod fill;
mod making;
mod memory_parts;
mod parts;
mod put;
mod shape;

pub use array_to_array::ArrayToArrayCodecTraits;
pub use array_to_bytes::ArrayToBytesCodecTraits;
pub use bytes_to_bytes::BytesToBytesCodecTraits;
pub use codec::{Codec, CodecMaker};
pub use codec_metadata::CodecMetadata;
pub use codec_traits::{ArrayCodecTraits, CodecTraits, CodecTraitsV2, CodecTraitsV3};
pub use fill::same_fill;
pub use making::{expect_none, unsupported_codec};
pub use memory_parts::parts_in_memory;
pub use parts::{extracted, only_part};
pub use put::{expect_number, put_fixed, put_optional};
pub use shape::{fixed_value, num_elements, same_shape, whole_box};
