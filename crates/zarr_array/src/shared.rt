//! The elements of the chunks that a region meets, fetched for what the region shares with them.

ghost use Rattle.std.specs.Prelude.{◌≡◌, true, List, OnOk};
ghost use Rattle.zarrs_codec_traits.specs.Prelude.{Element, region, Copied, options_of};
ghost use Rattle.zarrs_array_subset.specs.Boxes.{is_within, overlap_of};
ghost use Rattle.zarr_chunks.specs.declared.fetched.Fetched.TheVariants as fetched;
ghost use Rattle.zarr_array_boxes.specs.BoxElements.{list_held};
ghost use Rattle.zarr_array.specs.Access.{described};
ghost use Rattle.zarr_array.specs.Chunk.{chunk_kind};
ghost use Rattle.zarr_array.specs.RegionChunks.{IsMet};
ghost use Rattle.zarr_array.specs.Read.{HoldsRegion, FetchesShared};
ghost use Rattle.zarr_array.specs.Pays.{PaysShared};

use crate::access::ChunkAccess;
use crate::chunk_place::ChunkPlace;
use crate::region_chunks::RegionChunks;
use std::alloc::{AllocError, Global};
use zarr_array_boxes::BoxElements;
use zarr_chunks::Fetched;
use zarrs_array_subset::ArraySubset;
use zarrs_codec_array_bytes::ArrayBytes;
use zarrs_codec_error::{CodecError, CodecOptions};
use zarrs_storage::Store;

impl<C: ChunkAccess> RegionChunks<'_, C> {
    ghost use Rattle.zarr_array.specs.Shared.{HoldsShared};

    // All elements of the chunk at a place that lies within the region.
    fn fetch_covered<S: Store>(
        &self,
        alloc: Global,
        levels: &C::Levels,
        place: &ChunkPlace,
        store: &mut S,
        options: &CodecOptions,
    ) -> Result<Fetched, CodecError>
        requires levels { C.serves self.now.array.now place.now.indices.items levels.now }
        requires place { IsMet (described (C.seen self.now.array.now)) (region self.now.subset.now)
            place.now }
        requires covered { is_within (region place.now.subset) (region self.now.subset.now) ≡ true }
        ensures fetched { FetchesShared (C.seen self.now.array.now) (options_of options.now)
            (region self.now.subset.now) place.now.indices.items (S.shown store.old)
            (S.shown store.new) (chunk_kind place.now.key) result }
        ensures paid { let array = C.seen self.now.array.now in
            OnOk result (PaysShared array.costs (described array) (options_of options.now)
            (region self.now.subset.now) place.now.indices.items (S.shown store.old)
            (S.shown store.new)) }
        ensures kept { S.kept store.old store.new }
    {
        let bytes = self
            .array
            .fetch_elements(alloc, place, levels, store, options)?;
        Ok(Fetched::Chunk(bytes))
    }

    /// The elements of the chunk at a place for what it shares with the region.
    pub(crate) fn fetch_shared<S: Store>(
        &self,
        alloc: Global,
        levels: &C::Levels,
        place: &ChunkPlace,
        store: &mut S,
        options: &CodecOptions,
    ) -> Result<Fetched, CodecError>
        requires levels { C.serves self.now.array.now place.now.indices.items levels.now }
        requires place { IsMet (described (C.seen self.now.array.now)) (region self.now.subset.now)
            place.now }
        ensures fetched { FetchesShared (C.seen self.now.array.now) (options_of options.now)
            (region self.now.subset.now) place.now.indices.items (S.shown store.old)
            (S.shown store.new) (chunk_kind place.now.key) result }
        ensures paid { let array = C.seen self.now.array.now in
            OnOk result (PaysShared array.costs (described array) (options_of options.now)
            (region self.now.subset.now) place.now.indices.items (S.shown store.old)
            (S.shown store.new)) }
        ensures kept { S.kept store.old store.new }
    {
        if place.subset.inbounds(self.subset) {
            return self.fetch_covered(alloc, levels, place, store, options);
        }
        let within = self.subset.part_of_box(alloc, &place.subset)?;
        let fetched = self
            .array
            .fetch_part(alloc, place, levels, &within, store, options)?;
        Ok(fetched)
    }

    // Puts the elements of the part of the array that the chunk at a place shares with the region into the region's.
    fn put_part(
        &self,
        alloc: Global,
        place: &ChunkPlace,
        part: &ArraySubset,
        bytes: &ArrayBytes<'_>,
        elements: &mut BoxElements<'_>,
    ) -> Result<(), AllocError>
        requires place { IsMet (described (C.seen self.now.array.now)) (region self.now.subset.now)
            place.now }
        requires part { region part.now
            ≡ overlap_of (region self.now.subset.now) (region place.now.subset) }
        requires held { (list : List Element) × HoldsShared (C.seen self.now.array.now)
            (region self.now.subset.now) place.now.indices.items list (fetched.Region bytes.now) }
        requires holds { HoldsRegion (C.seen self.now.array.now) (region self.now.subset.now)
            elements.old }
        ensures copied { let box = (described (C.seen self.now.array.now)).grid.chunk_box
            place.now.indices.items in (list : List Element)
            → HoldsShared (C.seen self.now.array.now) (region self.now.subset.now)
            place.now.indices.items list (fetched.Region bytes.now)
            → OnOk result (Copied (region self.now.subset.now) box list (list_held elements.old)
            (list_held elements.new)) }
        ensures holds { HoldsRegion (C.seen self.now.array.now) (region self.now.subset.now)
            elements.new }
    {
        elements.put(alloc, bytes, part)
    }

    /// Puts a chunk's elements that the region shares with it into the region's.
    pub(crate) fn put_shared(
        &self,
        alloc: Global,
        place: &ChunkPlace,
        fetched: &Fetched,
        elements: &mut BoxElements<'_>,
    ) -> Result<(), AllocError>
        requires place { IsMet (described (C.seen self.now.array.now)) (region self.now.subset.now)
            place.now }
        requires held { (list : List Element) × HoldsShared (C.seen self.now.array.now)
            (region self.now.subset.now) place.now.indices.items list fetched.now }
        requires holds { HoldsRegion (C.seen self.now.array.now) (region self.now.subset.now)
            elements.old }
        ensures copied { let box = (described (C.seen self.now.array.now)).grid.chunk_box
            place.now.indices.items in (list : List Element)
            → HoldsShared (C.seen self.now.array.now) (region self.now.subset.now)
            place.now.indices.items list fetched.now
            → OnOk result (Copied (region self.now.subset.now) box list (list_held elements.old)
            (list_held elements.new)) }
        ensures holds { HoldsRegion (C.seen self.now.array.now) (region self.now.subset.now)
            elements.new }
    {
        match fetched {
            Fetched::Chunk(bytes) => elements.put(alloc, bytes, &place.subset),
            Fetched::Region(bytes) => {
                if self.subset.inbounds(&place.subset) {
                    return self.put_part(alloc, place, self.subset, bytes, elements);
                }
                let part = self.subset.shared_part(alloc, &place.subset)?;
                self.put_part(alloc, place, &part, bytes, elements)
            }
        }
    }
}
