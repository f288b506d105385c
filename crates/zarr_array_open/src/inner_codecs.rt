//! The codecs of a document once they are made.

ghost use Rattle.std.specs.Prelude.{◌≡◌, true, length, map};
ghost use Rattle.zarr_basics.specs.Lengths.{nonzeros};
ghost use Rattle.zarr_codecs.specs.CodecForm.{form_of};
ghost use Rattle.zarr_array_open.specs.Chain.{leading, all_ranked};
ghost use Rattle.zarr_array_open.specs.Sharding.{are_inner_lengths};

use zarr_basics::BasicCodec;
use zarrs_array_subset::ChunkShape;

/// Chunks of a shape with inner chunks in them, whose codecs are made.
#[derive(Drop)]
pub(crate) struct InnerCodecs {
    /// The lengths of a chunk.
    pub(crate) chunk_shape: Vec<u64>,
    /// The lengths of an inner chunk.
    pub(crate) inner_shape: ChunkShape,
    /// The codecs of an inner chunk.
    pub(crate) codecs: Vec<BasicCodec>,
    /// Whether the index has a CRC-32C behind it.
    pub(crate) checked: bool,
    ghost cut: { are_inner_lengths chunk_shape.items (nonzeros inner_shape.items) ≡ true },
    ghost ranked: { all_ranked (length chunk_shape.items) (leading (map form_of codecs.items))
        ≡ true },
}

/// A codec of a document.
#[derive(Drop)]
pub(crate) enum MadeCodec {
    /// That of shards.
    Sharding(InnerCodecs),
    /// One of a registry.
    Other(BasicCodec),
}
