//! What the names in an array document denote here: the chunk grids `regular` and `zarr_basics.boundaries`, the chunk
//! key encodings `default` and `v2`, the codecs `bytes`, `vlen-utf8`, `vlen-bytes`, `zarr_basics.optional`,
//! `zarr_basics.offset`, `transpose` and `zarr_basics.sha256`, and the registries that find them.
//!
//! See <https://zarr-specs.readthedocs.io/en/latest/v3/core/index.html#extension-points>.
#![tactic(auto)]

mod axis;
mod basic_grid;
mod boundary_configuration;
mod boundary_grid;
mod boundary_laws;
mod boundary_making;
mod boundary_numbers;
mod chunk_key_encoding;
mod configuration;
mod grid_configuration;
mod grid_kind;
mod grid_laws;
mod laws;
pub mod limits;
mod making;
pub mod refusal;
mod registries;
mod regular_grid;

pub use axis::BoundaryAxis;
pub use basic_grid::BasicGrid;
pub use boundary_grid::BoundaryGrid;
pub use boundary_laws::{
    boundaries_are_written, boundaries_read_back, chunks_are_small, largest_lengths_decide,
};
pub use boundary_making::boundaries_by;
pub use chunk_key_encoding::ChunkKeyEncoding;
pub use grid_kind::GridKind;
pub use grid_laws::{lengths_are_written, lengths_read_back};
pub use laws::keys_differ;
pub use registries::{ChunkKeyKind, Registries, builtin_registries};
pub use regular_grid::RegularGrid;
pub use zarr_codecs::{
    BasicArrayToArray, BasicArrayToBytes, BasicBytesToBytes, BasicCodec, BytesCodec, CodecKind,
    OffsetCodec, OptionalCodec, Sha256Codec, TransposeCodec, VlenCodec,
};
pub use zarrs_data_type::DataTypeKind;
