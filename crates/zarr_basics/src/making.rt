//! Key encodings by their metadata.

ghost use Rattle.zarrs_metadata_parts.specs.MetadataV3.{extension_seen};
ghost use Rattle.zarr_basics.specs.Keys.{keys_of};
ghost use Rattle.zarr_basics.specs.Making.{MakesKeys, keys_form};

use crate::chunk_key_encoding::ChunkKeyEncoding;
use crate::configuration::read_separator;
use crate::registries::ChunkKeyKind;
use std::alloc::Global;
use zarrs_metadata_parts::making::unmade;
use zarrs_metadata_parts::{ChunkKeySeparator, MetadataV3};
use zarrs_plugin::PluginCreateError;

impl ChunkKeyKind {
    /// The chunk key encoding of this kind that metadata denotes, whatever its name is.
    ///
    /// # Errors
    /// `Config` exactly where the configuration is not of the kind's form.
    #[tactic(auto, using(zarrs_metadata_parts::proofs::MakingLaws::of_configurations))]
    pub fn make(
        &self,
        _alloc: Global,
        metadata: &MetadataV3,
    ) -> Result<ChunkKeyEncoding, PluginCreateError>
        ensures { MakesKeys keys_of result
            (keys_form self.now (extension_seen metadata.now).configuration) }
    {
        match self {
            ChunkKeyKind::Default => match read_separator(metadata, ChunkKeySeparator::Slash) {
                Ok(separator) => Ok(ChunkKeyEncoding::Default(separator)),
                Err(error) => Err(unmade(error)),
            },
            ChunkKeyKind::V2 => match read_separator(metadata, ChunkKeySeparator::Dot) {
                Ok(separator) => Ok(ChunkKeyEncoding::V2(separator)),
                Err(error) => Err(unmade(error)),
            },
        }
    }
}
