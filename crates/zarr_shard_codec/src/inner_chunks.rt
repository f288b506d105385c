//! The inner chunks of a chunk.

ghost use Rattle.std.specs.Prelude.{◌≡◌, ◌<◌, false, Some, IsSome, IfOk, IfErr, OnOk};
ghost use Rattle.zarrs_codec_traits.specs.Prelude.{count_of, whole, has_long_element};
ghost use Rattle.zarrs_codec_traits.specs.Prelude.{region, raw_of, list_at, IsBlank, IsFit, Copied};
ghost use Rattle.zarrs_codec_error.specs.declared.error.CodecError.TheVariants as errors;
ghost use Rattle.zarr_codec_chain.specs.Chain.{first_level, HasFill};
ghost use Rattle.zarr_array_boxes.specs.BoxElements.{kind_held, box_held, list_held};
ghost use Rattle.zarr_array_boxes.specs.Elements.{list_in};
ghost use Rattle.zarr_shard_codec.specs.Whole.{HoldsOver};
ghost use Rattle.zarr_shard_codec.specs.Placing.{box_at};
ghost use Rattle.zarr_shard_codec.specs.ShardCodec.{inner_of, inner_grid, inner_level};

use crate::shard_codec::ShardCodec;
use std::alloc::{AllocError, Global};
use zarr_array_boxes::BoxElements;
use zarr_codec_chain::ChunkLevels;
use zarrs_array_subset::{ArraySubset, unravel_index};
use zarrs_chunk_grid::ChunkGridTraits;
use zarrs_codec_array_bytes::ArrayBytes;
use zarrs_codec_error::CodecError;
use zarrs_codec_traits::num_elements;

/// The inner chunks of a codec, for one call.
#[derive(Drop)]
pub(crate) struct InnerChunks<'a> {
    pub(crate) codec: &'a ShardCodec,
    // The levels of the inner chain for an inner chunk.
    pub(crate) levels: ChunkLevels,
    // An inner chunk that has the fill value everywhere.
    pub(crate) blank: ArrayBytes<'static>,
}

// A chunk with these levels that has the fill value everywhere.
fn blank(levels: &ChunkLevels, alloc: Global) -> Result<ArrayBytes<'static>, CodecError>
    requires fits { IsFit (first_level levels.now).shape (first_level levels.now).data_type }
    requires fill { HasFill levels.now }
    ensures value { IfOk result (IsBlank (first_level levels.now)) }
    ensures short { IfOk result (λ v. has_long_element (raw_of v) ≡ false) }
    ensures memory { IfErr result (λ e. e ≡ errors.OutOfMemory) }
{
    let number = num_elements(levels.shape());
    match ArrayBytes::new_fill_value(alloc, levels.data_type(), number, levels.fill_value()) {
        Ok(bytes) => Ok(bytes),
        Err(error) => Err(error),
    }
}

impl<'a> InnerChunks<'a> {
    ghost use Rattle.zarr_shard_codec.specs.Inner.{AreInner};

    /// The inner chunks of a codec.
    ///
    /// # Errors
    /// [`CodecError::OutOfMemory`].
    pub(crate) fn of(codec: &'a ShardCodec, alloc: Global) -> Result<InnerChunks<'a>, CodecError>
        ensures inner { IfOk result AreInner }
        ensures codec { IfOk result (λ inner. inner.codec.now ≡ codec.now) }
        ensures memory { IfErr result (λ e. e ≡ errors.OutOfMemory) }
    {
        let levels = codec.levels(alloc)?;
        let blank = blank(&levels, alloc)?;
        Ok(InnerChunks {
            codec,
            levels,
            blank,
        })
    }
}

/// Where the inner chunk of a number lies.
///
/// # Errors
/// [`AllocError`] where memory runs out.
#[tactic(auto, using(crate::proofs::CodecFacts::inner_fits))]
pub(crate) fn place_of(
    codec: &ShardCodec,
    alloc: Global,
    number: u64,
) -> Result<ArraySubset, AllocError>
    requires below { number < count_of (inner_grid codec.now).grid_shape }
    ensures { IfOk result (λ subset. region subset ≡ box_at codec.now number) }
{
    let grid = codec.shard.inner.grid();
    let Some(indices) = unravel_index(alloc, number, grid.grid_shape())? else {
        unreachable!();
    };
    let subset = grid.chunk_box(alloc, indices.as_slice())?;
    Ok(subset)
}

/// Puts the elements of the inner chunk of a number where it lies.
///
/// # Errors
/// [`AllocError`] where memory runs out.
pub(crate) fn put_at(
    codec: &ShardCodec,
    alloc: Global,
    number: u64,
    bytes: &ArrayBytes<'_>,
    elements: &mut BoxElements<'_>,
) -> Result<(), AllocError>
    requires below { number < count_of (inner_grid codec.now).grid_shape }
    requires holds { HoldsOver codec.now (whole (inner_of codec.now).shape) elements.old }
    requires means { IsSome (list_at (inner_level codec.now) (raw_of bytes.now)) }
    requires short { has_long_element (raw_of bytes.now) ≡ false }
    ensures holds { HoldsOver codec.now (whole (inner_of codec.now).shape) elements.new }
    ensures copied { OnOk result (Copied (box_held elements.old) (box_at codec.now number)
        (list_in (kind_held elements.old) (box_at codec.now number) (raw_of bytes.now))
        (list_held elements.old) (list_held elements.new)) }
{
    let subset = place_of(codec, alloc, number)?;
    elements.put(alloc, bytes, &subset)
}
