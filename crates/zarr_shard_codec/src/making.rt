//! Making the codec of shards: of how chunks keep inner chunks, or of metadata.

ghost use Rattle.std.specs.Prelude.{◌≡◌, ◌<◌, true, Some, None, IfOk, option_map};
ghost use Rattle.zarrs_codec_traits.specs.Prelude.{count_of, kind_of, fill_element, registry_of};
ghost use Rattle.zarrs_codec_traits.specs.Prelude.{extension_seen, fill_bytes, type_of};
ghost use Rattle.zarrs_codec_traits.specs.Prelude.{unserved_at, level_of};
ghost use Rattle.zarrs_metadata_values.specs.Configuration.{configuration_seen};
ghost use Rattle.zarr_basics.specs.BasicGrid.{basic_form};
ghost use Rattle.zarr_basics.specs.Lengths.{nonzeros};
ghost use Rattle.zarr_array_open.specs.Parts.{Opens};
ghost use Rattle.zarr_array_open.specs.ShardDocument.{is_regular_grid, grid_lengths_of, shard_shape};
ghost use Rattle.zarr_array_open.specs.ShardOpening.{shard_of_chunk};
ghost use Rattle.zarr_array_open.specs.Views.{shard_form};
ghost use Rattle.zarr_shard_codec.specs.Serving.{shard_unserved};
ghost use Rattle.zarr_shard_codec.specs.ShardCodec.{codec_shard_form};

use crate::shard_codec::ShardCodec;
use std::alloc::{AllocError, Global};
use std::num::NonZeroU64;
use zarr_array_open::{OpenError, Registries, Shard};
use zarr_basics::BasicGrid;
use zarrs_array_subset::ChunkShape;
use zarrs_codec_traits::same_shape;
use zarrs_data_type::DataType;
use zarrs_data_type_bytes::FillValue;
use zarrs_metadata_parts::{Configuration, MetadataV3};

// The lengths of the chunks of a grid `regular`.
fn chunk_shape(alloc: Global, grid: &BasicGrid) -> Result<ChunkShape, AllocError>
    requires { is_regular_grid (basic_form grid.now) ≡ true }
    ensures { IfOk result (λ v. grid_lengths_of (basic_form grid.now) ≡ nonzeros v.items) }
{
    match grid {
        BasicGrid::Regular(grid) => same_shape(alloc, &grid.chunk_shape),
        BasicGrid::Boundary(_) => unreachable!(),
    }
}

// A copy of the configuration of metadata, if it has one.
fn configuration_of(
    alloc: Global,
    metadata: &MetadataV3,
) -> Result<Option<Configuration>, AllocError>
    ensures { IfOk result (λ copy. option_map configuration_seen copy
        ≡ (extension_seen metadata.now).configuration) }
{
    match metadata.configuration() {
        Some(configuration) => {
            let copy = configuration.try_clone(alloc)?;
            Ok(Some(copy))
        }
        None => Ok(None),
    }
}

impl ShardCodec {
    // The codec of chunks that keep inner chunks so, with these bytes of their fill value.
    #[tactic(auto, using(crate::proofs::MakingLaws::denotes_fill))]
    fn with_fill(
        alloc: Global,
        shard: Shard,
        fill_value: FillValue,
        configuration: Option<Configuration>,
    ) -> Result<ShardCodec, AllocError>
        requires filled { fill_element (kind_of (shard_form shard).inner.data_type)
            (fill_bytes fill_value) ≡ Some (shard_form shard).inner.fill }
        requires some { 0 < count_of (shard_shape (shard_form shard)) }
        ensures shard { IfOk result (λ codec. codec.shard ≡ shard) }
        ensures fill { IfOk result (λ codec. codec.fill_value ≡ fill_value) }
        ensures configuration { IfOk result (λ codec. codec.configuration ≡ configuration) }
    {
        let inner_shape = chunk_shape(alloc, shard.inner.grid())?;
        Ok(ShardCodec {
            configuration,
            shard,
            inner_shape,
            fill_value,
        })
    }

    /// The codec of chunks that keep inner chunks so, which tells no configuration. A chunk has an element.
    ///
    /// # Errors
    /// [`AllocError`] where memory runs out.
    pub fn new(alloc: Global, shard: Shard) -> Result<ShardCodec, AllocError>
        requires { 0 < count_of (shard_shape (shard_form shard)) }
        ensures shard { IfOk result (λ codec. codec.shard ≡ shard) }
        ensures configuration { IfOk result (λ codec. codec.configuration ≡ None) }
    {
        let fill_value = shard.inner.fill_value().try_clone(alloc)?;
        Self::with_fill(alloc, shard, fill_value, None)
    }

    /// The codec of chunks of this shape, of elements of a data type, with a fill value, by its metadata and the names
    /// of some registries. It serves these chunks.
    ///
    /// # Errors
    /// The first of [`OpenError`] that applies, from `PluginUnsupportedError` on: to the metadata, then to the fill
    /// value, then to the codecs of an inner chunk; or `OutOfMemory`.
    pub fn for_chunk(
        alloc: Global,
        metadata: &MetadataV3,
        shape: &[NonZeroU64],
        data_type: &DataType,
        fill_value: &FillValue,
        registries: &Registries,
    ) -> Result<ShardCodec, OpenError>
        ensures made { Opens codec_shard_form result (shard_of_chunk
            (registry_of registries.now.codecs)
            (nonzeros shape.now) (type_of data_type.now) (fill_bytes fill_value.now)
            (extension_seen metadata.now)) }
        ensures served { IfOk result (λ codec. unserved_at (shard_unserved codec)
            (level_of shape.now data_type.now fill_value.now) (fill_bytes fill_value.now)
            ≡ None) }
        ensures configuration { IfOk result (λ codec.
            option_map configuration_seen codec.configuration
            ≡ (extension_seen metadata.now).configuration) }
    {
        let shard = Shard::for_chunk(alloc, metadata, shape, data_type, fill_value, registries)?;
        let fill_value = fill_value.try_clone(alloc)?;
        let configuration = configuration_of(alloc, metadata)?;
        let codec = Self::with_fill(alloc, shard, fill_value, configuration)?;
        Ok(codec)
    }
}
