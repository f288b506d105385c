//! The array-to-array codecs of this project, `zarr_basics.offset` and `transpose`, and both as one type.
//!
//! See <https://zarr-specs.readthedocs.io/en/latest/v3/core/index.html#codecs>.
#![tactic(auto)]

mod array_to_array;
mod fill;
mod offset_codec;
mod offset_configuration;
mod shift;
mod transpose_codec;
mod transpose_configuration;

pub use array_to_array::BasicArrayToArray;
pub use offset_codec::OffsetCodec;
pub use transpose_codec::TransposeCodec;
