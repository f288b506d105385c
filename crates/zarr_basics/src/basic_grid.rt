//! The chunk grids of this library as one type.

ghost use Rattle.std.specs.Prelude.{◌≡◌, IfOk, Some};
ghost use Rattle.zarrs_chunk_grid.specs.Making.{MakesGrid};
ghost use Rattle.zarrs_metadata_parts.specs.MetadataV3.{extension_seen};
ghost use Rattle.zarr_basics.specs.BoundaryMaking.{boundary_created};
ghost use Rattle.zarr_basics.specs.BasicGrid.{basic_shape, basic_grid, basic_configured, basic_name};
ghost use Rattle.zarr_basics.specs.GridMaking.{regular_created};

use crate::BoundaryGrid;
use crate::regular_grid::RegularGrid;
use std::alloc::{AllocError, Global};
use std::num::NonZeroU64;
use zarrs_array_subset::{ArrayIndices, ArrayShape, ArraySubset, ChunkShape};
use zarrs_chunk_grid::{ChunkGridError, ChunkGridTraits};
use zarrs_metadata_parts::{Configuration, MetadataV3};
use zarrs_plugin::{ExtensionName, PluginCreateError, ZarrVersion};

/// A chunk grid of this library.
#[derive(Drop)]
pub enum BasicGrid {
    /// Chunks of one shape.
    Regular(RegularGrid),
    /// Chunks of lengths of their own, one after another in each dimension.
    Boundary(BoundaryGrid),
}

impl BasicGrid {
    ghost use Rattle.zarr_basics.specs.Largest.{AreLargest};
    ghost use Rattle.zarr_basics.specs.Lengths.{nonzeros};
    ghost use Rattle.zarr_basics.specs.Limits.{has_large_chunk};

    /// The lengths of a largest chunk: no chunk has more elements, and where there is a chunk, one has these lengths.
    pub fn largest_lengths(&self) -> &[NonZeroU64]
        ensures { AreLargest (basic_grid self.now) (nonzeros result.now) }
    {
        match self {
            BasicGrid::Regular(grid) => grid.largest_lengths(),
            BasicGrid::Boundary(grid) => grid.largest_lengths(),
        }
    }

    /// Whether some chunk is too large for elements of a size: its box ends past `u64`, or the number of its elements
    /// plus one, or their number times the size, passes `usize`.
    pub fn has_large_chunk(&self, size: Option<usize>) -> bool
        ensures { result ≡ has_large_chunk (basic_grid self.now) size }
    {
        match self {
            BasicGrid::Regular(grid) => grid.has_large_chunk(size),
            BasicGrid::Boundary(grid) => grid.has_large_chunk(size),
        }
    }
}

// The grid `regular` that metadata denotes.
fn regular_of(
    alloc: Global,
    metadata: &MetadataV3,
    array_shape: &[u64],
) -> Result<BasicGrid, PluginCreateError>
    ensures made { MakesGrid basic_configured result
        (regular_created (extension_seen metadata.now) array_shape.now) }
    ensures named { IfOk result (λ g.
        Some (basic_name g) ≡ Some (extension_seen metadata.now).name) }
    ensures over { IfOk result (λ g. basic_shape g ≡ array_shape.now) }
{
    match RegularGrid::create(alloc, metadata, array_shape) {
        Ok(grid) => Ok(BasicGrid::Regular(grid)),
        Err(error) => Err(error),
    }
}

// The grid of boundaries that metadata denotes.
fn boundaries_of(
    alloc: Global,
    metadata: &MetadataV3,
    array_shape: &[u64],
) -> Result<BasicGrid, PluginCreateError>
    ensures made { MakesGrid basic_configured result
        (boundary_created (extension_seen metadata.now) array_shape.now) }
    ensures named { IfOk result (λ g.
        Some (basic_name g) ≡ Some (extension_seen metadata.now).name) }
    ensures over { IfOk result (λ g. basic_shape g ≡ array_shape.now) }
{
    match BoundaryGrid::create(alloc, metadata, array_shape) {
        Ok(grid) => Ok(BasicGrid::Boundary(grid)),
        Err(error) => Err(error),
    }
}

impl ExtensionName for BasicGrid {
    ghost name_in = { λ g _. Some (basic_name g) };

    fn name(&self, alloc: Global, version: ZarrVersion) -> Result<Option<String>, AllocError> {
        match self {
            BasicGrid::Regular(grid) => grid.name(alloc, version),
            BasicGrid::Boundary(grid) => grid.name(alloc, version),
        }
    }
}

impl ChunkGridTraits for BasicGrid {
    ghost use Rattle.zarr_basics.specs.BasicGrid.{basic_members, basic_covers, knows_basic};
    ghost use Rattle.zarr_basics.specs.GridMaking.{is_basic, basic_created, refuses_unnamed};

    ghost shape = { basic_shape };

    ghost grid = { basic_grid };

    ghost configured = { basic_members };

    ghost is_known = { is_basic };

    ghost created = { basic_created };

    ghost covers = { basic_covers };

    ghost knows_own = { knows_basic };

    ghost refuses = { refuses_unnamed };

    fn create(
        alloc: Global,
        metadata: &MetadataV3,
        array_shape: &[u64],
    ) -> Result<Self, PluginCreateError> {
        if metadata.name() == "zarr_basics.boundaries" {
            boundaries_of(alloc, metadata, array_shape)
        } else {
            regular_of(alloc, metadata, array_shape)
        }
    }

    fn configuration(&self, alloc: Global) -> Result<Configuration, AllocError> {
        match self {
            BasicGrid::Regular(grid) => grid.configuration(alloc),
            BasicGrid::Boundary(grid) => grid.configuration(alloc),
        }
    }

    fn array_shape(&self) -> &[u64] {
        match self {
            BasicGrid::Regular(grid) => grid.array_shape(),
            BasicGrid::Boundary(grid) => grid.array_shape(),
        }
    }

    fn grid_shape(&self) -> &[u64] {
        match self {
            BasicGrid::Regular(grid) => grid.grid_shape(),
            BasicGrid::Boundary(grid) => grid.grid_shape(),
        }
    }

    fn chunk_shape(
        &self,
        alloc: Global,
        chunk_indices: &[u64],
    ) -> Result<Option<ChunkShape>, ChunkGridError> {
        match self {
            BasicGrid::Regular(grid) => grid.chunk_shape(alloc, chunk_indices),
            BasicGrid::Boundary(grid) => grid.chunk_shape(alloc, chunk_indices),
        }
    }

    fn chunk_shape_u64(
        &self,
        alloc: Global,
        chunk_indices: &[u64],
    ) -> Result<Option<ArrayShape>, ChunkGridError> {
        match self {
            BasicGrid::Regular(grid) => grid.chunk_shape_u64(alloc, chunk_indices),
            BasicGrid::Boundary(grid) => grid.chunk_shape_u64(alloc, chunk_indices),
        }
    }

    fn chunk_origin(
        &self,
        alloc: Global,
        chunk_indices: &[u64],
    ) -> Result<Option<ArrayIndices>, ChunkGridError> {
        match self {
            BasicGrid::Regular(grid) => grid.chunk_origin(alloc, chunk_indices),
            BasicGrid::Boundary(grid) => grid.chunk_origin(alloc, chunk_indices),
        }
    }

    fn chunk_indices(
        &self,
        alloc: Global,
        array_indices: &[u64],
    ) -> Result<Option<ArrayIndices>, ChunkGridError> {
        match self {
            BasicGrid::Regular(grid) => grid.chunk_indices(alloc, array_indices),
            BasicGrid::Boundary(grid) => grid.chunk_indices(alloc, array_indices),
        }
    }

    fn chunks_meeting(
        &self,
        alloc: Global,
        array_subset: &ArraySubset,
    ) -> Result<ArraySubset, AllocError> {
        match self {
            BasicGrid::Regular(grid) => grid.chunks_meeting(alloc, array_subset),
            BasicGrid::Boundary(grid) => grid.chunks_meeting(alloc, array_subset),
        }
    }
}
