//! The inner chunks of a chunk as those of an array.

ghost use Rattle.std.specs.Prelude.{◌≡◌, true, is_some, IfOk};
ghost use Rattle.zarrs_codec_traits.specs.Prelude.{fill_element, kind_of, fill_bytes, type_of};
ghost use Rattle.zarrs_codec_traits.specs.Prelude.{is_type};
ghost use Rattle.zarr_basics.specs.Lengths.{nonzeros};
ghost use Rattle.zarr_basics.specs.BasicGrid.{basic_shape, basic_form};
ghost use Rattle.zarr_basics.specs.GridForms.{regular};
ghost use Rattle.zarr_basics.specs.Keys.{keys_of};
ghost use Rattle.zarr_array_open.specs.Parts.{documented_parts, Opens};
ghost use Rattle.zarr_array_open.specs.ShardOpening.{inner_with};
ghost use Rattle.zarr_array_open.specs.Sharding.{are_inner_lengths};
ghost use Rattle.zarr_array_open.specs.Views.{codecs_seen};

use crate::inner_codecs::InnerCodecs;
use crate::steps::chain_of;
use crate::{ArrayParts, OpenError};
use std::alloc::{AllocError, Global};
use std::num::NonZeroU64;
use zarr_basics::{BasicGrid, ChunkKeyEncoding, RegularGrid};
use zarrs_data_type::DataType;
use zarrs_data_type_bytes::FillValue;

// The grid of inner chunks.
#[tactic(auto, using(crate::proofs::LengthLaws::inner_rank))]
fn inner_grid(
    alloc: Global,
    chunk_shape: &[u64],
    inner_shape: &[NonZeroU64],
) -> Result<BasicGrid, AllocError>
    requires { are_inner_lengths chunk_shape.now (nonzeros inner_shape.now) ≡ true }
    ensures shape { IfOk result (λ grid. basic_shape grid ≡ chunk_shape.now) }
    ensures form { IfOk result (λ grid. basic_form grid ≡ regular (nonzeros inner_shape.now)) }
{
    let chunk_shape = chunk_shape.to_vec(alloc)?;
    let inner_shape = inner_shape.to_vec(alloc)?;
    let grid = RegularGrid::new(alloc, chunk_shape, inner_shape)?;
    Ok(BasicGrid::Regular(grid))
}

/// The inner chunks as those of an array, if their codecs are a chain that serves them.
///
/// # Errors
/// The first that applies of `ChainOrder`, `UnsupportedDataTypeCodec`, `EndiannessMissing` and `ChunkTooLarge`, or
/// `OutOfMemory`.
#[tactic(auto, using(crate::proofs::OpeningLaws::fails_after))]
pub(crate) fn inner_parts(
    alloc: Global,
    data_type: DataType,
    fill: FillValue,
    keys: ChunkKeyEncoding,
    shard: &InnerCodecs,
) -> Result<ArrayParts, OpenError>
    requires proper { is_type (type_of data_type) ≡ true }
    requires filled { is_some (fill_element (kind_of (type_of data_type)) (fill_bytes fill))
        ≡ true }
    ensures { Opens documented_parts result (inner_with (keys_of keys) (type_of data_type)
        (fill_bytes fill) (codecs_seen shard.now)) }
{
    let grid = inner_grid(alloc, &shard.chunk_shape, &shard.inner_shape)?;
    let chain = chain_of(alloc, &shard.codecs)?;
    ArrayParts::with_parts(alloc, data_type, fill, grid, keys, chain)
}
