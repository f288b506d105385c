//! Reading a region, chunk by chunk.

ghost use Rattle.std.specs.Prelude.{◌≡◌, ◌+◌, ◌<◌, ◌*◌, ◌^◌, true, length, MatchResult, IfErr, IfSome};
ghost use Rattle.zarrs_codec_traits.specs.Prelude.{count, ends_within, kind, fixed_size, region};
ghost use Rattle.zarrs_codec_traits.specs.Prelude.{size_in, raw_of, options_of};
ghost use Rattle.zarr_array_boxes.specs.BoxElements.{list_held};
ghost use Rattle.zarr_array.specs.Access.{described, IsInHand};
ghost use Rattle.zarr_array.specs.Chunk.{chunk_kind};
ghost use Rattle.zarr_array.specs.RegionChunks.{met_chunk_at, AreMetChunks, IsMet};
ghost use Rattle.zarr_array.specs.Read.{HoldsRegion, ReadsChunk, HasReadList, HasReadRegion, NotReadRegion};

use crate::access::ChunkAccess;
use crate::chunk_place::ChunkPlace;
use crate::command_error::CommandError;
use crate::region_chunks::RegionChunks;
use std::alloc::Global;
use zarr_array_boxes::BoxElements;
use zarrs_array_subset::ArraySubset;
use zarrs_codec_array_bytes::ArrayBytes;
use zarrs_codec_error::{CodecError, CodecOptions};
use zarrs_storage::Store;

impl<C: ChunkAccess> RegionChunks<'_, C> {
    // Takes the elements that the chunk at a place shares with the region.
    fn read_shared<S: Store>(
        &self,
        alloc: Global,
        levels: &C::Levels,
        place: &ChunkPlace,
        elements: &mut BoxElements<'_>,
        store: &mut S,
        options: &CodecOptions,
    ) -> Result<(), CodecError>
        requires levels { C.serves self.now.array.now place.now.indices.items levels.now }
        requires place { IsMet (described (C.seen self.now.array.now)) (region self.now.subset.now)
            place.now }
        requires holds { HoldsRegion (C.seen self.now.array.now) (region self.now.subset.now)
            elements.old }
        ensures read { ReadsChunk (C.seen self.now.array.now) (options_of options.now)
            (region self.now.subset.now) place.now.indices.items elements.old elements.new
            (S.shown store.old) (S.shown store.new) (chunk_kind place.now.key) result }
        ensures holds { HoldsRegion (C.seen self.now.array.now) (region self.now.subset.now)
            elements.new }
        ensures kept { S.kept store.old store.new }
    {
        let fetched = self.fetch_shared(alloc, levels, place, store, options)?;
        self.put_shared(alloc, place, &fetched, elements)?;
        Ok(())
    }

    // Takes the elements that the chunk of a number shares with the region. The levels in hand serve where they are of
    // its shape; those that served are in hand then.
    fn read_chunk<S: Store>(
        &self,
        alloc: Global,
        number: u64,
        hand: &mut Option<C::Levels>,
        elements: &mut BoxElements<'_>,
        store: &mut S,
        options: &CodecOptions,
    ) -> Result<(), CommandError>
        requires met { AreMetChunks (C.seen self.now.array.now) self.now }
        requires below { number < count (region self.now.chunks) }
        requires hand { IfSome hand.old (IsInHand (C.serves self.now.array.now)) }
        requires holds { HoldsRegion (C.seen self.now.array.now) (region self.now.subset.now)
            elements.old }
        ensures read { ReadsChunk (C.seen self.now.array.now) (options_of options.now)
            (region self.now.subset.now) (met_chunk_at self.now number) elements.old elements.new
            (S.shown store.old) (S.shown store.new) (λ error. error.kind) result }
        ensures at { IfErr result (λ error. error.chunks_done ≡ number) }
        ensures holds { HoldsRegion (C.seen self.now.array.now) (region self.now.subset.now)
            elements.new }
        ensures hand { IfSome hand.new (IsInHand (C.serves self.now.array.now)) }
        ensures kept { S.kept store.old store.new }
    {
        let Ok(place) = self.place(alloc, number) else {
            return Err(CommandError::out_of_memory(number));
        };
        let Ok(levels) = self.array.levels_at(alloc, hand.take(), &place) else {
            return Err(CommandError::out_of_memory(number));
        };
        match self.read_shared(alloc, &levels, &place, elements, store, options) {
            Ok(()) => {
                *hand = Some(levels);
                Ok(())
            }
            Err(error) => Err(CommandError::at_chunk(number, place.key, error)),
        }
    }

    // Reads each chunk, once, into the region's elements.
    fn read_chunks<S: Store>(
        &self,
        alloc: Global,
        hand: &mut Option<C::Levels>,
        elements: &mut BoxElements<'_>,
        store: &mut S,
        options: &CodecOptions,
    ) -> Result<(), CommandError>
        requires met { AreMetChunks (C.seen self.now.array.now) self.now }
        requires hand { IfSome hand.old (IsInHand (C.serves self.now.array.now)) }
        requires holds { HoldsRegion (C.seen self.now.array.now) (region self.now.subset.now)
            elements.old }
        requires as_long { length (list_held elements.old) ≡ count (region self.now.subset.now) }
        ensures read { MatchResult result
            (λ _. HasReadList (C.seen self.now.array.now) (options_of options.now)
            (region self.now.subset.now) (S.shown store.old) (S.shown store.new)
            (list_held elements.new))
            (NotReadRegion (C.seen self.now.array.now) (options_of options.now)
            (region self.now.subset.now) (S.shown store.old) (S.shown store.new)) }
        ensures holds { HoldsRegion (C.seen self.now.array.now) (region self.now.subset.now)
            elements.new }
        ensures hand { IfSome hand.new (IsInHand (C.serves self.now.array.now)) }
        ensures kept { S.kept store.old store.new }
    {
        for number in 0..self.num_chunks() {
            self.read_chunk(alloc, number, hand, elements, store, options)?;
        }
        Ok(())
    }

    // The elements of the region, once all its chunks are read.
    fn read_all<S: Store>(
        &self,
        alloc: Global,
        hand: &mut Option<C::Levels>,
        elements: BoxElements<'_>,
        store: &mut S,
        options: &CodecOptions,
    ) -> Result<ArrayBytes<'static>, CommandError>
        requires met { AreMetChunks (C.seen self.now.array.now) self.now }
        requires hand { IfSome hand.old (IsInHand (C.serves self.now.array.now)) }
        requires holds { HoldsRegion (C.seen self.now.array.now) (region self.now.subset.now)
            elements }
        requires as_long { length (list_held elements) ≡ count (region self.now.subset.now) }
        ensures read { MatchResult result
            (λ v. HasReadRegion (C.seen self.now.array.now) (options_of options.now)
            (region self.now.subset.now) (S.shown store.old) (S.shown store.new) (raw_of v))
            (NotReadRegion (C.seen self.now.array.now) (options_of options.now)
            (region self.now.subset.now) (S.shown store.old) (S.shown store.new)) }
        ensures hand { IfSome hand.new (IsInHand (C.serves self.now.array.now)) }
        ensures kept { S.kept store.old store.new }
    {
        let mut elements = elements;
        match self.read_chunks(alloc, hand, &mut elements, store, options) {
            Ok(()) => match elements.into_bytes(alloc) {
                Ok(bytes) => Ok(bytes),
                Err(_) => Err(CommandError::out_of_memory(self.num_chunks())),
            },
            Err(error) => Err(error),
        }
    }
}

/// The elements of a region inside an array, in row-major order, which have room. Each chunk that the region meets is
/// fetched once, in row-major order; the room for all elements is taken before the first where they are of one size.
/// `hand` has levels from command to command, so that the next one need not make them anew; at first it has none.
///
/// # Errors
/// What a chunk's value or the store told, or want of memory, and how many chunks were finished.
pub fn read_elements<C: ChunkAccess, S: Store>(
    array: &C,
    alloc: Global,
    subset: &ArraySubset,
    hand: &mut Option<C::Levels>,
    store: &mut S,
    options: &CodecOptions,
) -> Result<ArrayBytes<'static>, CommandError>
    requires hand { IfSome hand.old (IsInHand (C.serves array.now)) }
    requires inside { ends_within (region subset.now) (described (C.seen array.now)).shape ≡ true }
    requires few { count (region subset.now) + 1 < 2 ^ 64 }
    requires room { count (region subset.now)
        * size_in (fixed_size (kind (described (C.seen array.now)))) < 2 ^ 64 }
    ensures read { MatchResult result
        (λ v. HasReadRegion (C.seen array.now) (options_of options.now) (region subset.now)
        (S.shown store.old) (S.shown store.new) (raw_of v))
        (NotReadRegion (C.seen array.now) (options_of options.now) (region subset.now)
        (S.shown store.old) (S.shown store.new)) }
    ensures hand { IfSome hand.new (IsInHand (C.serves array.now)) }
    ensures kept { S.kept store.old store.new }
{
    let elements = BoxElements::filled(alloc, array.data_type(), array.fill_value(), subset)?;
    match RegionChunks::meeting(array, alloc, subset)? {
        Some(met) => met.read_all(alloc, hand, elements, store, options),
        None => {
            let bytes = elements.into_bytes(alloc)?;
            Ok(bytes)
        }
    }
}
