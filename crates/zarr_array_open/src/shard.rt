//! How a chunk keeps inner chunks.

ghost use Rattle.std.specs.Prelude.{◌≡◌, true, false, is_some, IfOk};
ghost use Rattle.zarrs_codec_traits.specs.Prelude.{fill_element, kind_of, fill_bytes, type_of};
ghost use Rattle.zarrs_codec_traits.specs.Prelude.{is_type};
ghost use Rattle.zarr_basics.specs.Keys.{keys_of};
ghost use Rattle.zarr_array_open.specs.Parts.{documented_parts, Opens};
ghost use Rattle.zarr_array_open.specs.ShardDocument.{grid_lengths_of, is_regular_grid, shard_shape};
ghost use Rattle.zarr_array_open.specs.ShardOpening.{is_large_shard, shard_with};
ghost use Rattle.zarr_array_open.specs.Sharding.{are_inner_lengths};

use crate::inner::inner_parts;
use crate::inner_codecs::InnerCodecs;
use crate::shard_limits::is_large_shard;
use crate::{ArrayParts, OpenError};
use std::alloc::Global;
use zarr_basics::ChunkKeyEncoding;
use zarrs_data_type::DataType;
use zarrs_data_type_bytes::FillValue;

/// How a chunk keeps inner chunks: as an array of the chunk's shape, which a regular grid cuts into them without a
/// rest. The chunk and its index can be addressed.
#[derive(Drop)]
pub struct Shard {
    /// The inner chunks as those of an array with the chunk's shape.
    pub inner: ArrayParts,
    /// Whether the index has a CRC-32C behind it.
    pub checked: bool,
    ghost regular: { is_regular_grid (documented_parts inner).grid ≡ true },
    ghost cut: { are_inner_lengths (documented_parts inner).shape
        (grid_lengths_of (documented_parts inner).grid)
        ≡ true },
    ghost small: { is_large_shard (documented_parts inner) checked ≡ false },
}

impl Shard {
    ghost use Rattle.zarr_array_open.specs.Views.{codecs_seen, shard_form};

    // How chunks keep inner chunks with these codecs, if they are a chain that serves them.
    #[tactic(auto, using(crate::proofs::OpeningLaws::fails_after))]
    pub(crate) fn with_codecs(
        alloc: Global,
        data_type: DataType,
        fill: FillValue,
        keys: ChunkKeyEncoding,
        shard: &InnerCodecs,
    ) -> Result<Shard, OpenError>
        requires proper { is_type (type_of data_type) ≡ true }
        requires filled { is_some (fill_element (kind_of (type_of data_type)) (fill_bytes fill))
            ≡ true }
        ensures made { Opens shard_form result (shard_with (keys_of keys) (type_of data_type)
            (fill_bytes fill) (codecs_seen shard.now)) }
        ensures shape { IfOk result
            (λ made. shard_shape (shard_form made) ≡ (codecs_seen shard.now).chunk_shape) }
    {
        let inner = inner_parts(alloc, data_type, fill, keys, shard)?;
        let checked = shard.checked;
        if is_large_shard(alloc, &inner, checked)? {
            return Err(OpenError::ChunkTooLarge);
        }
        Ok(Shard { inner, checked })
    }
}
