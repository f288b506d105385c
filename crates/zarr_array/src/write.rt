//! Writing to a region, chunk by chunk.

ghost use Rattle.std.specs.Prelude.{◌≡◌, ◌<◌, true, MatchResult, IfErr, IfSome};
ghost use Rattle.zarrs_codec_traits.specs.Prelude.{count, ends_within, region, raw_of, options_of};
ghost use Rattle.zarr_array.specs.Access.{described, IsInHand};
ghost use Rattle.zarr_array.specs.Chunk.{chunk_kind};
ghost use Rattle.zarr_array.specs.RegionChunks.{met_chunk_at, AreMetChunks, IsMet};
ghost use Rattle.zarr_array.specs.Write.{region_change, IsWritable, HasWrittenChunk, NotWrittenChunk};
ghost use Rattle.zarr_array.specs.PartWay.{HasWrittenRegion, NotWrittenRegion};

use crate::access::ChunkAccess;
use crate::chunk_place::ChunkPlace;
use crate::command_error::CommandError;
use crate::region_chunks::RegionChunks;
use std::alloc::Global;
use zarr_array_boxes::put_overlap;
use zarrs_array_subset::ArraySubset;
use zarrs_codec_array_bytes::ArrayBytes;
use zarrs_codec_error::{CodecError, CodecOptions};
use zarrs_storage::Store;

impl<C: ChunkAccess> RegionChunks<'_, C> {
    // Puts the elements that the region shares with the chunk at a place into the chunk, and stores it anew: the old
    // value is fetched and decoded first, also where the region covers all of it.
    fn write_at<S: Store>(
        &self,
        alloc: Global,
        levels: &C::Levels,
        place: &ChunkPlace,
        bytes: &ArrayBytes<'_>,
        store: &mut S,
        options: &CodecOptions,
    ) -> Result<(), CodecError>
        requires levels { C.serves self.now.array.now place.now.indices.items levels.now }
        requires place { IsMet (described (C.seen self.now.array.now)) (region self.now.subset.now)
            place.now }
        requires writable { IsWritable (C.seen self.now.array.now) (region self.now.subset.now)
            (raw_of bytes.now) }
        ensures { let array = C.seen self.now.array.now in
            let change = region_change array (region self.now.subset.now) (raw_of bytes.now) in
            MatchResult result
            (λ _. HasWrittenChunk array (options_of options.now) change
            place.now.indices.items (S.shown store.old) (S.shown store.new))
            (λ error. NotWrittenChunk array (options_of options.now) change
            place.now.indices.items (S.shown store.old) (S.shown store.new)
            (chunk_kind place.now.key error)) }
    {
        let array = self.array;
        let elements = array.fetch_elements(alloc, place, levels, store, options)?;
        let data_type = array.data_type();
        let replaced = put_overlap(
            alloc,
            data_type,
            elements,
            &place.subset,
            bytes,
            self.subset,
        )?;
        match array.store_elements(alloc, place, levels, replaced, store, options) {
            Ok(()) => Ok(()),
            Err(error) => Err(CodecError::StorageError(error)),
        }
    }

    // Writes to the chunk of a number. The levels in hand serve where they are of its shape; those that served are in
    // hand then.
    fn write_chunk<S: Store>(
        &self,
        alloc: Global,
        number: u64,
        hand: &mut Option<C::Levels>,
        bytes: &ArrayBytes<'_>,
        store: &mut S,
        options: &CodecOptions,
    ) -> Result<(), CommandError>
        requires met { AreMetChunks (C.seen self.now.array.now) self.now }
        requires below { number < count (region self.now.chunks) }
        requires hand { IfSome hand.old (IsInHand (C.serves self.now.array.now)) }
        requires writable { IsWritable (C.seen self.now.array.now) (region self.now.subset.now)
            (raw_of bytes.now) }
        ensures written { let array = C.seen self.now.array.now in
            let change = region_change array (region self.now.subset.now) (raw_of bytes.now) in
            MatchResult result
            (λ _. HasWrittenChunk array (options_of options.now) change
            (met_chunk_at self.now number) (S.shown store.old) (S.shown store.new))
            (λ error. NotWrittenChunk array (options_of options.now) change
            (met_chunk_at self.now number) (S.shown store.old) (S.shown store.new) error.kind) }
        ensures at { IfErr result (λ error. error.chunks_done ≡ number) }
        ensures hand { IfSome hand.new (IsInHand (C.serves self.now.array.now)) }
    {
        let Ok(place) = self.place(alloc, number) else {
            return Err(CommandError::out_of_memory(number));
        };
        let Ok(levels) = self.array.levels_at(alloc, hand.take(), &place) else {
            return Err(CommandError::out_of_memory(number));
        };
        match self.write_at(alloc, &levels, &place, bytes, store, options) {
            Ok(()) => {
                *hand = Some(levels);
                Ok(())
            }
            Err(error) => Err(CommandError::at_chunk(number, place.key, error)),
        }
    }

    // Writes to each chunk, in row-major order.
    fn write_chunks<S: Store>(
        &self,
        alloc: Global,
        hand: &mut Option<C::Levels>,
        bytes: &ArrayBytes<'_>,
        store: &mut S,
        options: &CodecOptions,
    ) -> Result<(), CommandError>
        requires met { AreMetChunks (C.seen self.now.array.now) self.now }
        requires hand { IfSome hand.old (IsInHand (C.serves self.now.array.now)) }
        requires writable { IsWritable (C.seen self.now.array.now) (region self.now.subset.now)
            (raw_of bytes.now) }
        ensures written { MatchResult result
            (λ _. HasWrittenRegion (C.seen self.now.array.now) (options_of options.now)
            (region self.now.subset.now) (raw_of bytes.now) (S.shown store.old)
            (S.shown store.new))
            (NotWrittenRegion (C.seen self.now.array.now) (options_of options.now)
            (region self.now.subset.now) (raw_of bytes.now) (S.shown store.old)
            (S.shown store.new)) }
        ensures hand { IfSome hand.new (IsInHand (C.serves self.now.array.now)) }
    {
        for number in 0..self.num_chunks() {
            self.write_chunk(alloc, number, hand, bytes, store, options)?;
        }
        Ok(())
    }
}

/// Writes array bytes that mean the elements of a region inside an array, in row-major order, to it. Each chunk that
/// the region meets is fetched once, in row-major order, and then stored or erased by one call. `hand` has levels from
/// command to command.
///
/// # Errors
/// What a chunk's value or the store told, or want of memory, and how many chunks were finished.
pub fn write_elements<C: ChunkAccess, S: Store>(
    array: &C,
    alloc: Global,
    subset: &ArraySubset,
    bytes: &ArrayBytes<'_>,
    hand: &mut Option<C::Levels>,
    store: &mut S,
    options: &CodecOptions,
) -> Result<(), CommandError>
    requires hand { IfSome hand.old (IsInHand (C.serves array.now)) }
    requires inside { ends_within (region subset.now) (described (C.seen array.now)).shape ≡ true }
    requires writable { IsWritable (C.seen array.now) (region subset.now) (raw_of bytes.now) }
    ensures written { MatchResult result
        (λ _. HasWrittenRegion (C.seen array.now) (options_of options.now) (region subset.now)
        (raw_of bytes.now) (S.shown store.old) (S.shown store.new))
        (NotWrittenRegion (C.seen array.now) (options_of options.now) (region subset.now)
        (raw_of bytes.now) (S.shown store.old) (S.shown store.new)) }
    ensures hand { IfSome hand.new (IsInHand (C.serves array.now)) }
{
    let Some(met) = RegionChunks::meeting(array, alloc, subset)? else {
        return Ok(());
    };
    met.write_chunks(alloc, hand, bytes, store, options)
}
