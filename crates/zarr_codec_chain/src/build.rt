//! The levels of a chunk, made for its shape.

ghost use Rattle.std.specs.Prelude.{◌≡◌, ℕ, List, length, Option, IsSome, None, IfOk, MatchResult};
ghost use Rattle.zarrs_codec_traits.specs.Prelude.{Level, fill_element, kind_of, fill_bytes};
ghost use Rattle.zarrs_codec_traits.specs.Prelude.{type_of, lengths, level_of, IsFit, Unserved};
ghost use Rattle.zarrs_codec_traits.specs.Prelude.{unserved_at};
ghost use Rattle.zarr_codec_chain.specs.Building.{IsReady, levels_unserved, chain_unserved, FailsToBuild};
ghost use Rattle.zarr_codec_chain.specs.Levels.{level_at, fill_at, steps_of, first_of, first_fill_of, AreFit, AreLinked};
ghost use Rattle.zarr_codec_chain.specs.Chain.{IsServedChain, first_level, first_fill};

use crate::chain::CodecChain;
use crate::levels::ChunkLevels;
use crate::representation::ChunkRepresentation;
use std::alloc::{AllocError, Global};
use std::num::NonZeroU64;
use zarrs_codec_error::CodecError;
use zarrs_codec_traits::{
    ArrayToArrayCodecTraits, ArrayToBytesCodecTraits, BytesToBytesCodecTraits,
};
use zarrs_data_type::DataType;
use zarrs_data_type_bytes::FillValue;

/// What is below a codec.
///
/// # Errors
/// [`CodecError`] exactly where the codec does not serve the level, or where memory runs out.
fn level_below<A: ArrayToArrayCodecTraits>(
    alloc: Global,
    codec: &A,
    at: &ChunkRepresentation,
) -> Result<ChunkRepresentation, CodecError>
    requires ready { IsReady (level_at at.now) (fill_at at.now) }
    ensures level { IfOk result
        (λ r. level_at r ≡ (A.meaning codec.now).level_below (level_at at.now)) }
    ensures fill { IfOk result
        (λ r. fill_at r ≡ A.fill_below codec.now (level_at at.now).data_type (fill_at at.now)) }
    ensures ready { IfOk result (λ r. IsReady (level_at r) (fill_at r)) }
    ensures exact { let reason = unserved_at (A.unserved codec.now) (level_at at.now)
        (fill_at at.now) in MatchResult result (λ _. reason ≡ None) (FailsToBuild reason) }
{
    let (shape, data_type, fill_value) = codec.encoded_representation(
        alloc,
        &at.shape,
        &at.data_type,
        &at.fill_value,
    )?;
    Ok(ChunkRepresentation {
        shape,
        data_type,
        fill_value,
    })
}

/// The levels above codecs from this one down, the first one first, and what is below them.
///
/// # Errors
/// [`CodecError`] exactly where a codec does not serve its level, with the first reason, or where memory runs out.
fn levels_down<A: ArrayToArrayCodecTraits>(
    alloc: Global,
    codecs: &[A],
    first: ChunkRepresentation,
) -> Result<(Vec<ChunkRepresentation>, ChunkRepresentation), CodecError>
    requires ready { IsReady (level_at first) (fill_at first) }
    ensures count { IfOk result (λ r. length codecs.now ≡ length r.0.items) }
    ensures first { IfOk result (λ r. (first_of r.0.items (level_at r.1) ≡ level_at first)
        × (first_fill_of r.0.items (fill_at r.1) ≡ fill_at first)) }
    ensures first_fits { IfOk result (λ r. let level = first_of r.0.items (level_at r.1) in
        IsFit level.shape level.data_type) }
    ensures fit { IfOk result (λ r. AreFit (steps_of codecs.now r.0.items)) }
    ensures linked { IfOk result (λ r.
        AreLinked A.meaning A.unserved (steps_of codecs.now r.0.items) (level_at r.1)) }
    ensures ready { IfOk result (λ r. IsReady (level_at r.1) (fill_at r.1)) }
    ensures exact { (last : Level → List ℕ → Option Unserved)
        → let reason = levels_unserved A.meaning A.unserved A.fill_below last codecs.now
        (level_at first) (fill_at first) in
        MatchResult result (λ r. reason ≡ last (level_at r.1) (fill_at r.1))
        (FailsToBuild reason) }
{
    let mut levels = Vec::new(alloc);
    let mut at = first;
    for codec in codecs {
        let below = level_below(alloc, codec, &at)?;
        levels.push(at).map_err(AllocError::from)?;
        at = below;
    }
    Ok((levels, at))
}

/// Tells whether the array-to-bytes codec serves the level above it.
///
/// # Errors
/// [`CodecError`] exactly where it does not, or where memory runs out.
fn serve_bottom<B: ArrayToBytesCodecTraits>(
    codec: &B,
    at: &ChunkRepresentation,
) -> Result<(), CodecError>
    requires fits { IsFit (level_at at.now).shape (level_at at.now).data_type }
    ensures { let reason = unserved_at (B.unserved codec.now) (level_at at.now) (fill_at at.now) in
        MatchResult result (λ _. reason ≡ None) (FailsToBuild reason) }
{
    codec.encoded_representation(&at.shape, &at.data_type, &at.fill_value)?;
    Ok(())
}

impl ChunkLevels {
    /// The levels of a chunk of this shape, data type and fill value under a chain of codecs. The fill value denotes an
    /// element.
    ///
    /// # Errors
    /// [`CodecError`] exactly where a codec does not serve its level, with the first reason in the order of encoding;
    /// or where memory runs out.
    pub fn of<A: ArrayToArrayCodecTraits, B: ArrayToBytesCodecTraits, C: BytesToBytesCodecTraits>(
        alloc: Global,
        chain: &CodecChain<A, B, C>,
        shape: &[NonZeroU64],
        data_type: &DataType,
        fill_value: &FillValue,
    ) -> Result<ChunkLevels, CodecError>
        requires fits { IsFit (lengths shape.now) (type_of data_type.now) }
        requires denotes { IsSome (fill_element (kind_of (type_of data_type.now))
            (fill_bytes fill_value.now)) }
        ensures served { IfOk result
            (λ levels. IsServedChain A.meaning A.unserved B.unserved chain.now levels) }
        ensures first { IfOk result
            (λ levels. first_level levels ≡ level_of shape.now data_type.now fill_value.now) }
        ensures fill { IfOk result (λ levels. first_fill levels ≡ fill_bytes fill_value.now) }
        ensures exact { let reason = chain_unserved A.meaning A.unserved A.fill_below B.unserved
            chain.now.array_codecs.items chain.now.to_bytes
            (level_of shape.now data_type.now fill_value.now) (fill_bytes fill_value.now) in
            MatchResult result (λ _. reason ≡ None) (FailsToBuild reason) }
    {
        let first = ChunkRepresentation::copied(alloc, shape, data_type, fill_value)?;
        let (above, bottom) = levels_down(alloc, &chain.array_codecs, first)?;
        serve_bottom(&chain.to_bytes, &bottom)?;
        Ok(ChunkLevels { above, bottom })
    }
}
