//! Arrays over a store: a document is opened, and commands on regions run over the chunks in a store.
#![tactic(auto)]

mod access;
mod calls;
mod chunk_place;
mod command_error;
pub mod commands;
mod error;
mod handle;
mod open;
mod place;
mod plain;
mod read;
mod refusal;
mod region_chunks;
mod session;
mod shared;
mod write;

pub use access::ChunkAccess;
pub use chunk_place::ChunkPlace;
pub use command_error::{CommandError, SessionErrorKind};
pub use error::SessionError;
pub use handle::ChainHandle;
pub use open::OpenArray;
pub use read::read_elements;
pub use session::run_session;
pub use write::write_elements;
pub use zarr_array_boxes::{Command, Refusal, Reply};
pub use zarr_array_open::{
    ArrayParts, BasicArrayToArray, BasicBytesToBytes, BasicChain, BasicGrid, ChunkKeyKind,
    CodecKind, DataTypeKind, GridKind, OpenError, Registries, builtin_registries,
};
pub use zarr_codec_chain::ChunkLevels;
pub use zarrs_array_subset::{ArraySubset, ChunkShape};
pub use zarrs_chunk_grid::{ChunkGridError, ChunkGridTraits};
pub use zarrs_codec_array_bytes::{ArrayBytes, ArrayBytesOffsets};
pub use zarrs_codec_error::{CodecError, CodecOptions};
pub use zarrs_data_type::{DataType, FillValue};
pub use zarrs_metadata::ArrayMetadataV3;
pub use zarrs_plugin::NamePattern;
pub use zarrs_storage::{MemoryStore, Store, StoreKey};
