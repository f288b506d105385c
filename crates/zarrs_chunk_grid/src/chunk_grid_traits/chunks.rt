//! What is said of the chunks of every grid, by what each grid has to say.

ghost use Rattle.std.specs.Prelude.{◌≡◌, ◌<◌, true, length, IfOk, IfErr, IfSome, is_some};
ghost use Rattle.zarr_model.specs.Region.{contains, count, ends_within, sizes, starts, whole};
ghost use Rattle.zarr_model.specs.Grid.{IsChunk};
ghost use Rattle.zarrs_array_subset.specs.ArraySubset.{region};
ghost use Rattle.zarrs_array_subset.specs.Boxes.{last_indices};
ghost use Rattle.zarrs_chunk_grid.specs.ChunkGrid.{BoxFits, HasElement, IsPlaceInChunk, LastFits, between_chunks, in_chunk, region_of_chunks};
ghost use Rattle.zarrs_chunk_grid.specs.ChunkGridErrors.{AnswersGrid, IsRankRefusal, MeetsChunks};

use super::ChunkGridTraits;
use crate::chunk_grid_error::ChunkGridError;
use std::alloc::{AllocError, Global};
use zarrs_array_subset::{ArrayIndices, ArrayShape, ArraySubset, differences, ranges_between};

// Where a chunk of the grid begins.
fn origin_of<G: ChunkGridTraits>(
    grid: &G,
    alloc: Global,
    chunk: &[u64],
) -> Result<ArrayIndices, AllocError>
    requires { IsChunk (G.grid grid.now) chunk.now }
    ensures { IfOk result (λ v. v.items ≡ starts ((G.grid grid.now).chunk_box chunk.now)) }
{
    match grid.chunk_origin(alloc, chunk) {
        Ok(Some(origin)) => Ok(origin),
        Ok(None) => unreachable!(),
        Err(ChunkGridError::OutOfMemory) => Err(AllocError),
        Err(ChunkGridError::IncompatibleDimensionality(_)) => unreachable!(),
    }
}

// How long a chunk of the grid is in each dimension.
fn lengths_of<G: ChunkGridTraits>(
    grid: &G,
    alloc: Global,
    chunk: &[u64],
) -> Result<ArrayShape, AllocError>
    requires { IsChunk (G.grid grid.now) chunk.now }
    ensures { IfOk result (λ v. v.items ≡ sizes ((G.grid grid.now).chunk_box chunk.now)) }
{
    match grid.chunk_shape_u64(alloc, chunk) {
        Ok(Some(lengths)) => Ok(lengths),
        Ok(None) => unreachable!(),
        Err(ChunkGridError::OutOfMemory) => Err(AllocError),
        Err(ChunkGridError::IncompatibleDimensionality(_)) => unreachable!(),
    }
}

// The box of a chunk of the grid.
pub(crate) fn box_of<G: ChunkGridTraits>(
    grid: &G,
    alloc: Global,
    chunk: &[u64],
) -> Result<ArraySubset, AllocError>
    requires chunk { IsChunk (G.grid grid.now) chunk.now }
    requires fits { BoxFits (G.grid grid.now) chunk.now }
    ensures { IfOk result (λ s. region s ≡ (G.grid grid.now).chunk_box chunk.now) }
{
    let start = origin_of(grid, alloc, chunk)?;
    let shape = lengths_of(grid, alloc, chunk)?;
    match ArraySubset::new_with_start_shape(start, shape) {
        Ok(subset) => Ok(subset),
        Err(_) => unreachable!(),
    }
}

// The box of a chunk, if the indices are one's.
pub(crate) fn subset_of<G: ChunkGridTraits>(
    grid: &G,
    alloc: Global,
    chunk: &[u64],
) -> Result<Option<ArraySubset>, ChunkGridError>
    requires { BoxFits (G.grid grid.now) chunk.now }
    ensures { AnswersGrid region result (length chunk.now) (length (G.shape grid.now))
        (in_chunk (λ box. box) (G.grid grid.now) chunk.now) }
{
    ChunkGridError::expect_rank(chunk.len(), grid.dimensionality())?;
    if !grid.has_chunk(chunk) {
        return Ok(None);
    }
    let subset = box_of(grid, alloc, chunk)?;
    Ok(Some(subset))
}

// Where an element is in the chunk that has it.
fn place_in_chunk<G: ChunkGridTraits>(
    grid: &G,
    alloc: Global,
    element: &[u64],
    chunk: &[u64],
) -> Result<ArrayIndices, AllocError>
    requires { HasElement (G.grid grid.now) element.now chunk.now }
    ensures { IfOk result (λ v. IsPlaceInChunk (G.grid grid.now) element.now v.items) }
{
    let origin = origin_of(grid, alloc, chunk)?;
    let place = differences(alloc, element, &origin)?;
    Ok(place)
}

// Where an element is in its chunk, if the indices are one's.
pub(crate) fn element_indices_of<G: ChunkGridTraits>(
    grid: &G,
    alloc: Global,
    element: &[u64],
) -> Result<Option<ArrayIndices>, ChunkGridError>
    ensures refused { IfErr result
        (IsRankRefusal (length element.now) (length (G.shape grid.now))) }
    ensures rank { IfOk result (λ _. length element.now ≡ length (G.shape grid.now)) }
    ensures place { IfOk result (λ o.
        IfSome o (λ v. IsPlaceInChunk (G.grid grid.now) element.now v.items)) }
    ensures inside { IfOk result (λ o.
        is_some o ≡ contains (whole (G.shape grid.now)) element.now) }
{
    match grid.chunk_indices(alloc, element) {
        Ok(Some(chunk)) => {
            let place = place_in_chunk(grid, alloc, element, &chunk)?;
            Ok(Some(place))
        }
        Ok(None) => Ok(None),
        Err(error) => Err(error),
    }
}

// The indices of the last of some chunks.
fn last_of(alloc: Global, chunks: &ArraySubset) -> Result<ArrayIndices, AllocError>
    requires { 0 < count (region chunks.now) }
    ensures { IfOk result (λ v. v.items ≡ last_indices (region chunks.now)) }
{
    match chunks.end_inc(alloc)? {
        Some(last) => Ok(last),
        None => unreachable!(),
    }
}

// The region from the start of the first of some chunks to the end of the last one.
#[tactic(auto, using(crate::proofs::GridIndices::of_chunks))]
fn between_chunks<G: ChunkGridTraits>(
    grid: &G,
    alloc: Global,
    chunks: &ArraySubset,
) -> Result<ArraySubset, AllocError>
    requires some { 0 < count (region chunks.now) }
    requires inside { ends_within (region chunks.now) (G.grid grid.now).grid_shape ≡ true }
    requires fits { LastFits (G.grid grid.now) (region chunks.now) }
    ensures { IfOk result (λ s. region s ≡ between_chunks (G.grid grid.now) (region chunks.now)) }
{
    let start = origin_of(grid, alloc, chunks.start())?;
    let last = last_of(alloc, chunks)?;
    let end = box_of(grid, alloc, &last)?.end_exc(alloc)?;
    let ranges = ranges_between(alloc, &start, &end)?;
    let subset = ArraySubset::new_with_ranges(alloc, &ranges)?;
    Ok(subset)
}

// The region of some chunks.
pub(crate) fn chunks_subset_of<G: ChunkGridTraits>(
    grid: &G,
    alloc: Global,
    chunks: &ArraySubset,
) -> Result<Option<ArraySubset>, ChunkGridError>
    requires { LastFits (G.grid grid.now) (region chunks.now) }
    ensures { AnswersGrid region result (length (region chunks.now)) (length (G.shape grid.now))
        (region_of_chunks (G.grid grid.now) (region chunks.now)) }
{
    let rank = grid.dimensionality();
    ChunkGridError::expect_rank(chunks.dimensionality(), rank)?;
    if chunks.is_empty() {
        let empty = ArraySubset::new_empty(alloc, rank)?;
        return Ok(Some(empty));
    }
    if !chunks.inbounds_shape(grid.grid_shape()) {
        return Ok(None);
    }
    let subset = between_chunks(grid, alloc, chunks)?;
    Ok(Some(subset))
}

// The chunks that share an element with a region.
pub(crate) fn chunks_in_array_subset_of<G: ChunkGridTraits>(
    grid: &G,
    alloc: Global,
    array_subset: &ArraySubset,
) -> Result<Option<ArraySubset>, ChunkGridError>
    ensures { MeetsChunks (G.grid grid.now) (G.shape grid.now) (region array_subset.now) result }
{
    let rank = grid.dimensionality();
    if array_subset.is_empty() {
        let empty = ArraySubset::new_empty(alloc, rank)?;
        return Ok(Some(empty));
    }
    ChunkGridError::expect_rank(array_subset.dimensionality(), rank)?;
    if !array_subset.inbounds_shape(grid.array_shape()) {
        return Ok(None);
    }
    let chunks = grid.chunks_meeting(alloc, array_subset)?;
    Ok(Some(chunks))
}
