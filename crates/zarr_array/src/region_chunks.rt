//! The chunks that a region of an array meets.

ghost use Rattle.std.specs.Prelude.{◌≡◌, ◌<◌, ◌^◌, true, IfOk};
ghost use Rattle.zarrs_codec.specs.Prelude.{count, tuples, ends_within, chunks_meeting, region};
ghost use Rattle.zarr_array.specs.Access.{described};

use crate::access::ChunkAccess;
use std::alloc::{AllocError, Global};
use zarrs_array_subset::ArraySubset;
use zarrs_chunk_grid::ChunkGridTraits;

/// The chunks that a region of an array meets, by their numbers in row-major order.
#[derive(Drop)]
pub(crate) struct RegionChunks<'a, C> {
    pub(crate) array: &'a C,
    // The region.
    pub(crate) subset: &'a ArraySubset,
    // The indices of its chunks, as a box of the grid's.
    pub(crate) chunks: ArraySubset,
}

// The chunks that a region inside an array meets, as a box of chunk indices.
fn chunks_of<C: ChunkAccess>(
    array: &C,
    alloc: Global,
    subset: &ArraySubset,
) -> Result<ArraySubset, AllocError>
    requires inside { ends_within (region subset.now) (described (C.seen array.now)).shape ≡ true }
    requires few { count (region subset.now) < 2 ^ 64 }
    ensures listed { IfOk result (λ chunks. tuples (region chunks)
        ≡ chunks_meeting (described (C.seen array.now)).grid (region subset.now)) }
    ensures few { IfOk result (λ chunks. count (region chunks) < 2 ^ 64) }
{
    let chunks = array.grid().chunks_meeting(alloc, subset)?;
    Ok(chunks)
}

impl<'a, C: ChunkAccess> RegionChunks<'a, C> {
    ghost use Rattle.zarr_array.specs.RegionChunks.{Meets};

    /// The chunks that a region inside an array meets, if it meets one.
    pub(crate) fn meeting(
        array: &'a C,
        alloc: Global,
        subset: &'a ArraySubset,
    ) -> Result<Option<RegionChunks<'a, C>>, AllocError>
        requires inside { ends_within (region subset.now) (described (C.seen array.now)).shape
            ≡ true }
        requires few { count (region subset.now) < 2 ^ 64 }
        ensures { IfOk result (Meets C.seen array.now subset.now) }
    {
        let chunks = chunks_of(array, alloc, subset)?;
        if chunks.num_elements() == 0 {
            return Ok(None);
        }
        Ok(Some(RegionChunks {
            array,
            subset,
            chunks,
        }))
    }

    /// How many there are.
    pub(crate) fn num_chunks(&self) -> u64
        requires few { count (region self.now.chunks) < 2 ^ 64 }
        ensures { result ≡ count (region self.now.chunks) }
    {
        self.chunks.num_elements()
    }
}
