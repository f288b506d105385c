//! The inner chunks of a value under a key that a region meets.

ghost use Rattle.std.specs.Prelude.{◌≡◌, ◌<◌, ◌^◌, true, false, IsSome, IfOk, OnOk, MatchResult};
ghost use Rattle.zarrs_codec.specs.Prelude.{count, count_of, whole, contains, tuples};
ghost use Rattle.zarrs_codec.specs.Prelude.{place, IsChunk, ends_within, chunks_meeting};
ghost use Rattle.zarrs_codec.specs.Prelude.{has_long_element, region as region_of, Copied, raw_of};
ghost use Rattle.zarrs_codec.specs.Prelude.{options_of, list_at};
ghost use Rattle.zarr_array_boxes.specs.BoxElements.{kind_held, box_held, list_held};
ghost use Rattle.zarr_array_boxes.specs.Elements.{list_in};
ghost use Rattle.zarr_shard_codec.specs.Placing.{inner_number as number_in};
ghost use Rattle.zarr_shard_codec.specs.ReadRegion.{HasRegion, NotRead};
ghost use Rattle.zarr_shard_codec.specs.ShardCodec.{inner_of, inner_grid, inner_level};
ghost use Rattle.zarr_shard_codec.specs.Whole.{HoldsOver};

use crate::inner_chunks::InnerChunks;
use crate::pair::pair_at;
use crate::shard_codec::ShardCodec;
use std::alloc::{AllocError, Global};
use zarr_array_boxes::{BoxElements, indices_at};
use zarrs_array_subset::{ArraySubset, ravel_indices};
use zarrs_chunk_grid::ChunkGridTraits;
use zarrs_codec_array_bytes::ArrayBytes;
use zarrs_codec_error::{CodecError, CodecOptions};
use zarrs_storage::{Store, StoreKey};

/// The inner chunks that a region of a chunk meets, by their numbers in row-major order.
#[derive(Drop)]
pub(crate) struct MetInner<'a> {
    pub(crate) inner: InnerChunks<'a>,
    // The key of the chunk's value, and the bytes of the pairs in it.
    pub(crate) key: &'a StoreKey,
    pub(crate) index: &'a [u8],
    // The region.
    pub(crate) subset: &'a ArraySubset,
    // The indices of its inner chunks, as a box of the grid's.
    pub(crate) chunks: ArraySubset,
}

/// The inner chunks that a region inside a chunk meets, as a box of their indices.
///
/// # Errors
/// [`AllocError`] where memory runs out.
pub(crate) fn chunks_of(
    codec: &ShardCodec,
    alloc: Global,
    subset: &ArraySubset,
) -> Result<ArraySubset, AllocError>
    requires inside { ends_within (region_of subset.now) (inner_of codec.now).shape ≡ true }
    requires few { count (region_of subset.now) < 2 ^ 64 }
    ensures listed { IfOk result (λ chunks. tuples (region_of chunks)
        ≡ chunks_meeting (inner_grid codec.now) (region_of subset.now)) }
    ensures few { IfOk result (λ chunks. count (region_of chunks) < 2 ^ 64) }
{
    let chunks = codec.shard.inner.grid().chunks_meeting(alloc, subset)?;
    Ok(chunks)
}

// The place of indices inside a shape.
#[tactic(auto, using(crate::proofs::MetLaws::raveled_inside, crate::proofs::MetLaws::front_counted))]
fn place_in(shape: &[u64], indices: &[u64]) -> u64
    requires inside { contains (whole shape.now) indices.now ≡ true }
    requires few { count_of shape.now < 2 ^ 64 }
    ensures { result ≡ place (whole shape.now) indices.now }
{
    match ravel_indices(indices, shape) {
        Some(place) => place,
        None => unreachable!(),
    }
}

// The number of an inner chunk in the index.
#[tactic(auto, using(crate::proofs::CodecFacts::inner_fits))]
fn number_of(codec: &ShardCodec, indices: &[u64]) -> u64
    requires { IsChunk (inner_grid codec.now) indices.now }
    ensures { result ≡ number_in codec.now indices.now }
{
    place_in(codec.shard.inner.grid().grid_shape(), indices)
}

// Where an inner chunk lies.
fn box_of(codec: &ShardCodec, alloc: Global, indices: &[u64]) -> Result<ArraySubset, AllocError>
    requires { IsChunk (inner_grid codec.now) indices.now }
    ensures { IfOk result (λ subset. region_of subset
        ≡ (inner_grid codec.now).chunk_box indices.now) }
{
    let subset = codec.shard.inner.grid().chunk_box(alloc, indices)?;
    Ok(subset)
}

impl MetInner<'_> {
    ghost use Rattle.zarr_shard_codec.specs.MetInner.{met_codec, region_met, AreMetInner, ReadsInner, HasReadMet, met_content, met_calls, met_size, MetSays};

    // Puts elements of an inner chunk where it lies.
    fn put(
        &self,
        alloc: Global,
        indices: &[u64],
        bytes: &ArrayBytes<'_>,
        elements: &mut BoxElements<'_>,
    ) -> Result<(), AllocError>
        requires met { AreMetInner self.now }
        requires chunk { IsChunk (inner_grid (met_codec self.now)) indices.now }
        requires holds { HoldsOver (met_codec self.now) (region_met self.now) elements.old }
        requires means { IsSome (list_at (inner_level (met_codec self.now)) (raw_of bytes.now)) }
        requires short { has_long_element (raw_of bytes.now) ≡ false }
        ensures holds { HoldsOver (met_codec self.now) (region_met self.now) elements.new }
        ensures copied { let box = (inner_grid (met_codec self.now)).chunk_box indices.now in
            OnOk result (Copied (box_held elements.old) box
            (list_in (kind_held elements.old) box (raw_of bytes.now)) (list_held elements.old)
            (list_held elements.new)) }
    {
        let subset = box_of(self.inner.codec, alloc, indices)?;
        elements.put(alloc, bytes, &subset)
    }

    // Reads what the inner chunk of a number shares with the region into the region's elements.
    fn read_inner<S: Store>(
        &self,
        alloc: Global,
        number: u64,
        elements: &mut BoxElements<'_>,
        store: &mut S,
        options: &CodecOptions,
    ) -> Result<(), CodecError>
        requires met { AreMetInner self.now }
        requires below { number < count (region_of self.now.chunks) }
        requires there { IsSome ((S.shown store.old).content self.now.key.now) }
        requires holds { HoldsOver (met_codec self.now) (region_met self.now) elements.old }
        ensures read { ReadsInner self.now (options_of options.now) number elements.old
            elements.new (S.shown store.old) (S.shown store.new) result }
        ensures holds { HoldsOver (met_codec self.now) (region_met self.now) elements.new }
        ensures kept { S.kept store.old store.new }
    {
        let tuple = indices_at(alloc, &self.chunks, number)?;
        let indices = tuple.as_slice();
        let place = number_of(self.inner.codec, indices);
        let pair = pair_at(self.index, place as usize);
        match self
            .inner
            .fetch_inner(alloc, self.key, pair, store, options)
        {
            Ok(Some(bytes)) => {
                self.put(alloc, indices, &bytes, elements)?;
                Ok(())
            }
            Ok(None) => {
                self.put(alloc, indices, &self.inner.blank, elements)?;
                Ok(())
            }
            Err(error) => Err(error),
        }
    }

    // Reads each inner chunk, once, into the region's elements.
    fn read_each<S: Store>(
        &self,
        alloc: Global,
        elements: &mut BoxElements<'_>,
        store: &mut S,
        options: &CodecOptions,
    ) -> Result<(), CodecError>
        requires met { AreMetInner self.now }
        requires there { IsSome ((S.shown store.old).content self.now.key.now) }
        requires holds { HoldsOver (met_codec self.now) (region_met self.now) elements.old }
        ensures read { MatchResult result
            (λ _. HasReadMet self.now (options_of options.now) (S.shown store.old)
            (S.shown store.new) elements.new)
            (NotRead (met_content self.now (options_of options.now) (S.shown store.old))
            (MetSays self.now (options_of options.now) (S.shown store.old))
            (S.shown store.old) (S.shown store.new)) }
        ensures holds { HoldsOver (met_codec self.now) (region_met self.now) elements.new }
        ensures kept { S.kept store.old store.new }
    {
        for number in 0..self.chunks.num_elements() {
            if let Err(error) = self.read_inner(alloc, number, elements, store, options) {
                return Err(error);
            }
        }
        Ok(())
    }

    /// The elements of the region: each inner chunk that is there is read by one call.
    ///
    /// # Errors
    /// That of the first inner chunk that has no elements; a fault of the store, or want of memory.
    pub(crate) fn read_all<S: Store>(
        &self,
        alloc: Global,
        store: &mut S,
        options: &CodecOptions,
    ) -> Result<ArrayBytes<'static>, CodecError>
        requires met { AreMetInner self.now }
        requires there { IsSome ((S.shown store.old).content self.now.key.now) }
        ensures read { MatchResult result
            (λ v. HasRegion (met_codec self.now) (region_met self.now)
            (met_content self.now (options_of options.now) (S.shown store.old))
            (met_calls self.now) (met_size self.now) (S.shown store.old) (S.shown store.new)
            (raw_of v))
            (NotRead (met_content self.now (options_of options.now) (S.shown store.old))
            (MetSays self.now (options_of options.now) (S.shown store.old))
            (S.shown store.old) (S.shown store.new)) }
        ensures kept { S.kept store.old store.new }
    {
        let mut elements = self.inner.codec.filled(alloc, self.subset)?;
        match self.read_each(alloc, &mut elements, store, options) {
            Ok(()) => {
                let bytes = elements.into_bytes(alloc)?;
                Ok(bytes)
            }
            Err(error) => Err(error),
        }
    }
}
