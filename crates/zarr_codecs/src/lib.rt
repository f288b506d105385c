//! The codecs of this project as one type for each of the three kinds, with the codec of optional elements, and what
//! makes them of metadata.
//!
//! See <https://zarr-specs.readthedocs.io/en/latest/v3/core/index.html#codecs>.
#![tactic(auto)]

mod basic;
mod bytes_to_bytes;
mod codec_kind;
mod codecs;
mod decoding;
mod encoding;
mod inner;
pub mod laws;
mod mask;
mod naming;
mod optional;
mod serving;

pub use bytes_to_bytes::BasicBytesToBytes;
pub use codec_kind::{BasicCodec, CodecKind};
pub use codecs::{BasicArrayToBytes, OptionalCodec};
pub use inner::inner_metadata;
pub use zarr_codecs_array_to_array::{BasicArrayToArray, OffsetCodec, TransposeCodec};
pub use zarr_codecs_to_bytes::{BytesCodec, Sha256Codec, VlenCodec};
