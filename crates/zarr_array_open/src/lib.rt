//! Documents opened: the parts of the array that a document describes, those of one with the codec `sharding_indexed`
//! too, and why a document is refused.
//!
//! See <https://zarr-specs.readthedocs.io/en/latest/v3/core/index.html#array-metadata>.
#![tactic(auto)]

mod chunk;
mod codecs;
mod configuration;
mod document;
mod element;
mod extensions;
mod grid;
mod index_codecs;
mod inner;
mod inner_codecs;
mod inner_shape;
mod levels;
mod limits;
mod open_error;
pub mod parts;
mod served;
pub mod shard;
mod shard_codecs;
mod shard_limits;
pub mod shard_parts;
pub mod steps;

pub use codecs::BasicChain;
pub use open_error::OpenError;
pub use parts::ArrayParts;
pub use shard::Shard;
pub use shard_parts::ShardParts;
pub use zarr_basics::{
    BasicArrayToArray, BasicBytesToBytes, BasicGrid, ChunkKeyKind, CodecKind, DataTypeKind,
    GridKind, Registries, builtin_registries,
};
