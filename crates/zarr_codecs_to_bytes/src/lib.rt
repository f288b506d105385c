//! The codecs of this project that give bytes: `bytes`, `vlen-utf8` and `vlen-bytes` of elements, and
//! `zarr_basics.sha256` and `crc32c` of bytes.
//!
//! See <https://zarr-specs.readthedocs.io/en/latest/v3/core/index.html#codecs>.
#![tactic(auto)]

mod bytes_codec;
mod checksum;
pub mod configuration;
pub mod crc32c_codec;
mod crc32c_tables;
mod elements;
mod joining;
mod laws;
mod numbers;
mod ranges;
mod sha256_codec;
mod values;
mod vlen_codec;

pub use bytes_codec::BytesCodec;
pub use crc32c_codec::Crc32cCodec;
pub use laws::values_have_one_form;
pub use sha256_codec::Sha256Codec;
pub use values::{decode_values, encode_values};
pub use vlen_codec::VlenCodec;
