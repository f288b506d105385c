//! Array bytes: the elements of an array in memory, with what they mean, when they are valid, and how elements
//! are taken out of them.
//!
//! The module [`array_bytes`] is public so that `zarrs_codec_array_bytes_parts` uses its checks.
//!
//! See <https://zarr-specs.readthedocs.io/en/latest/v3/core/index.html#data-types>.
#![tactic(auto)]

pub mod array_bytes;

pub use array_bytes::{
    ArrayBytes, ArrayBytesOffsets, ArrayBytesOptional, ArrayBytesRaw, ArrayBytesVariableLength,
};
