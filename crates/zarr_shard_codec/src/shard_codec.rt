//! The codec `sharding_indexed` of chunks of one shape.

ghost use Rattle.std.specs.Prelude.{◌≡◌, ◌<◌, true, IfOk};
ghost use Rattle.zarrs_codec_traits.specs.Prelude.{count_of, kind_of, fill_element, fill_bytes};
ghost use Rattle.zarr_basics.specs.Lengths.{nonzeros};
ghost use Rattle.zarr_array_open.specs.Parts.{documented_parts};
ghost use Rattle.zarr_array_open.specs.ShardDocument.{grid_lengths_of};
ghost use Rattle.zarr_shard_codec.specs.Fill.{denotes};

use std::alloc::{AllocError, Global};
use zarr_array_open::{ArrayParts, Shard};
use zarr_codec_chain::ChunkLevels;
use zarrs_array_subset::{ChunkShape, shape_product, unravel_index};
use zarrs_chunk_grid::ChunkGridTraits;
use zarrs_data_type_bytes::FillValue;
use zarrs_metadata_parts::Configuration;

/// The codec `sharding_indexed` of chunks of one shape, data type and fill value: a value holds inner chunks, one after
/// another, and behind them an index of where each lies.
///
/// See <https://zarr-specs.readthedocs.io/en/latest/v3/codecs/sharding-indexed/index.html>.
#[derive(Drop)]
pub struct ShardCodec {
    // The configuration in the metadata that the codec was made of, if it was made of metadata.
    pub(crate) configuration: Option<Configuration>,
    // How a chunk keeps inner chunks.
    pub(crate) shard: Shard,
    // The shape of an inner chunk.
    pub(crate) inner_shape: ChunkShape,
    // The fill value of a chunk, and so of its inner chunks.
    pub(crate) fill_value: FillValue,
    ghost dims: { grid_lengths_of (documented_parts shard.inner).grid
        ≡ nonzeros inner_shape.items },
    ghost filled: { denotes
        (fill_element (kind_of (documented_parts shard.inner).data_type) (fill_bytes fill_value))
        (documented_parts shard.inner).fill ≡ true },
    ghost some: { 0 < count_of (documented_parts shard.inner).shape },
}

impl ShardCodec {
    ghost use Rattle.zarr_array_open.specs.ChunkLevels.{ServesShape};
    ghost use Rattle.zarr_shard_codec.specs.ShardCodec.{inner_of, inner_dims};

    /// The shape of a chunk.
    pub fn shape(&self) -> &[u64]
        ensures { result.now ≡ (inner_of self.now).shape }
    {
        self.shard.inner.shape()
    }

    /// The inner chunks of a chunk, as those of an array with the chunk's shape.
    pub fn inner(&self) -> &ArrayParts
        ensures { result.now ≡ self.now.shard.inner }
    {
        &self.shard.inner
    }

    /// How many elements a chunk has.
    #[tactic(auto, using(crate::proofs::CodecFacts::own_fits))]
    pub(crate) fn num_elements(&self) -> u64
        ensures { result ≡ count_of (inner_of self.now).shape }
    {
        match shape_product(self.shard.inner.shape()) {
            Some(count) => count,
            None => unreachable!(),
        }
    }

    /// How many inner chunks there are.
    #[tactic(auto, using(crate::proofs::CodecFacts::inner_fits))]
    pub(crate) fn num_inner(&self) -> u64
        ensures { result ≡ count_of (inner_of self.now).grid.grid_shape }
    {
        match shape_product(self.shard.inner.grid().grid_shape()) {
            Some(count) => count,
            None => unreachable!(),
        }
    }

    /// The levels of the inner chain for an inner chunk.
    ///
    /// # Errors
    /// [`AllocError`] where memory runs out.
    #[tactic(auto, using(crate::proofs::CodecFacts::inner_fits, crate::proofs::CodecFacts::has_inner))]
    pub(crate) fn levels(&self, alloc: Global) -> Result<ChunkLevels, AllocError>
        ensures { IfOk result
            (ServesShape self.now.shard.inner (inner_dims self.now) self.now.shard.inner.chain) }
    {
        let inner = &self.shard.inner;
        let Some(first) = unravel_index(alloc, 0, inner.grid().grid_shape())? else {
            unreachable!();
        };
        let levels = inner.levels(alloc, inner.chain(), first.as_slice())?;
        Ok(levels)
    }
}
