//! Callers of every chunk grid, from the trait's members alone, and of the grids of documents.

ghost use Rattle.std.specs.Prelude.{◌≡◌, false, Some, IfOk, IfSome, IsTrue};
ghost use Rattle.zarr_basics.specs.BasicGrid.{basic_grid};
ghost use Rattle.zarr_basics.specs.Limits.{has_large_chunk};
ghost use Rattle.zarrs_codec_traits.specs.Prelude.{region, contains};
ghost use Rattle.zarrs_chunk_grid.specs.ChunkGrid.{AllFit};

use std::alloc::Global;
use zarr_basics::{BasicGrid, GridKind};
use zarrs_chunk_grid::{ArraySubset, ChunkGridError, ChunkGridTraits, GridMaker};
use zarrs_metadata_parts::MetadataV3;

/// The box of the chunk that has the element at these indices.
pub fn box_of_element<G: ChunkGridTraits>(
    grid: &G,
    alloc: Global,
    element: &[u64],
) -> Result<Option<ArraySubset>, ChunkGridError>
    requires { AllFit (G.grid grid.now) }
    ensures { IfOk result (λ o. IfSome o (λ s. IsTrue (contains (region s) element.now))) }
{
    match grid.chunk_indices(alloc, element) {
        Ok(Some(chunk)) => {
            let subset = grid.chunk_box(alloc, &chunk)?;
            Ok(Some(subset))
        }
        Ok(None) => Ok(None),
        Err(error) => Err(error),
    }
}

/// The grid of a kind that metadata denotes over an array's shape, if none of its chunks is too large for elements of
/// 8 bytes.
pub fn small_grid(
    alloc: Global,
    kind: GridKind,
    metadata: &MetadataV3,
    shape: &[u64],
) -> Option<BasicGrid>
    ensures { IfSome result (λ g. has_large_chunk (basic_grid g) (Some 8) ≡ false) }
{
    let grid = kind.make(alloc, metadata, shape).ok()?;
    if grid.has_large_chunk(Some(8)) {
        return None;
    }
    Some(grid)
}
