//! Where the chunks of an array lie, and which keys they have.

ghost use Rattle.std.specs.Prelude.{◌≡◌, ◌<◌, IfOk};
ghost use Rattle.zarrs_codec_traits.specs.Prelude.{count, IsChunk, region};
ghost use Rattle.zarr_array.specs.Access.{described};
ghost use Rattle.zarr_array.specs.RegionChunks.{IsChunkPlace, IsMet, met_chunk_at, AreMetChunks};

use crate::access::ChunkAccess;
use crate::chunk_place::ChunkPlace;
use crate::region_chunks::RegionChunks;
use std::alloc::{AllocError, Global};
use zarr_array_boxes::indices_at;
use zarrs_array_subset::ArrayIndicesTinyVec;
use zarrs_chunk_grid::ChunkGridTraits;

// The place of the chunk of these indices.
fn place_of<C: ChunkAccess>(
    array: &C,
    alloc: Global,
    indices: ArrayIndicesTinyVec,
) -> Result<ChunkPlace, AllocError>
    requires { IsChunk (described (C.seen array.now)).grid indices.items }
    ensures { IfOk result (λ place. (place.indices.items ≡ indices.items)
        × IsChunkPlace (described (C.seen array.now)) place) }
{
    let subset = array.grid().chunk_box(alloc, indices.as_slice())?;
    let key = array.chunk_key(alloc, indices.as_slice())?;
    Ok(ChunkPlace {
        indices,
        subset,
        key,
    })
}

impl<C: ChunkAccess> RegionChunks<'_, C> {
    /// The place of the chunk of a number.
    pub(crate) fn place(&self, alloc: Global, number: u64) -> Result<ChunkPlace, AllocError>
        requires met { AreMetChunks (C.seen self.now.array.now) self.now }
        requires below { number < count (region self.now.chunks) }
        ensures { IfOk result (λ place. (place.indices.items ≡ met_chunk_at self.now number)
            × IsMet (described (C.seen self.now.array.now)) (region self.now.subset.now) place) }
    {
        let indices = indices_at(alloc, &self.chunks, number)?;
        place_of(self.array, alloc, indices)
    }
}
