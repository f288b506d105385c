//! How the chunks of one shape keep inner chunks, by the metadata of their codec.

ghost use Rattle.std.specs.Prelude.{◌≡◌, true};
ghost use Rattle.zarrs_codec_traits.specs.Prelude.{default_keys, registry_of, extension_seen};
ghost use Rattle.zarrs_codec_traits.specs.Prelude.{fill_bytes, type_of};
ghost use Rattle.zarr_basics.specs.Lengths.{nonzeros};
ghost use Rattle.zarr_array_open.specs.Parts.{Opens};
ghost use Rattle.zarr_array_open.specs.ShardOpening.{is_element, shard_with, shard_of_chunk};

use crate::element::expect_element;
use crate::inner_codecs::InnerCodecs;
use crate::shard::Shard;
use crate::shard_codecs::{document_codec, sharding_in};
use crate::{OpenError, Registries};
use std::alloc::Global;
use std::num::NonZeroU64;
use zarr_basics::ChunkKeyEncoding;
use zarrs_array_subset::shape_numbers;
use zarrs_data_type::DataType;
use zarrs_data_type_bytes::FillValue;
use zarrs_metadata_parts::{ChunkKeySeparator, MetadataV3};

impl Shard {
    ghost use Rattle.zarr_array_open.specs.Views.{codecs_seen, shard_form};

    // How chunks keep inner chunks with these codecs, with copies of the data type and of the fill value.
    fn with_copies(
        alloc: Global,
        data_type: &DataType,
        fill: &FillValue,
        shard: &InnerCodecs,
    ) -> Result<Shard, OpenError>
        requires { is_element (type_of data_type.now) (fill_bytes fill.now) ≡ true }
        ensures { Opens shard_form result (shard_with (default_keys 47) (type_of data_type.now)
            (fill_bytes fill.now) (codecs_seen shard.now)) }
    {
        let data_type = data_type.try_clone(alloc)?;
        let fill = fill.try_clone(alloc)?;
        let keys = ChunkKeyEncoding::Default(ChunkKeySeparator::Slash);
        Shard::with_codecs(alloc, data_type, fill, keys, shard)
    }

    /// How chunks of this shape, of elements of a data type, keep inner chunks, by the metadata of their only codec and
    /// the names of some registries.
    ///
    /// # Errors
    /// The first of [`OpenError`] that applies, from `PluginUnsupportedError` on: to the metadata, then to the fill
    /// value, then to the codecs of an inner chunk; or `OutOfMemory`.
    #[tactic(auto, unfolding(crate::specs::ShardOpening::shard_of_chunk), using(crate::proofs::OpeningLaws::fails_after))]
    pub fn for_chunk(
        alloc: Global,
        metadata: &MetadataV3,
        shape: &[NonZeroU64],
        data_type: &DataType,
        fill_value: &FillValue,
        registries: &Registries,
    ) -> Result<Shard, OpenError>
        ensures { Opens shard_form result (shard_of_chunk (registry_of registries.now.codecs)
            (nonzeros shape.now) (type_of data_type.now) (fill_bytes fill_value.now)
            (extension_seen metadata.now)) }
    {
        let chunk_shape = shape_numbers(alloc, shape)?;
        let codec = document_codec(alloc, &chunk_shape, metadata, &registries.codecs)?;
        expect_element(data_type, fill_value)?;
        let shard = sharding_in(&codec)?;
        Self::with_copies(alloc, data_type, fill_value, shard)
    }
}
