//! The chunk grid `zarr_basics.boundaries`: chunks of lengths of their own, one after another in each dimension.

ghost use Rattle.std.specs.Prelude.{◌≡◌, ◌<◌, true, length, IfOk};
ghost use Rattle.zarr_model.specs.Prelude.{are_cut, boundary_grid, count};
ghost use Rattle.zarrs_array_subset.specs.ArraySubset.{region};
ghost use Rattle.zarr_basics.specs.Axes.{lengths_of, largest_of, boundary_chunk_region};
ghost use Rattle.zarr_basics.specs.Lengths.{nonzeros};

use crate::axis::BoundaryAxis;
use crate::boundary_making::{boundaries_by, lengths_configuration};
use crate::boundary_numbers::{
    chunks_at, counts_of, ends_fit, largest_of, last_chunks, lengths_at, numbers_at, starts_at,
};
use crate::limits::{are_some, is_too_large};
use crate::refusal::unsupported_grid;
use std::alloc::{AllocError, Global};
use std::num::NonZeroU64;
use zarrs_array_subset::{ArrayIndices, ArrayShape, ArraySubset, ChunkShape};
use zarrs_chunk_grid::{ChunkGridError, ChunkGridTraits, are_below};
use zarrs_metadata_parts::{Configuration, MetadataV3};
use zarrs_plugin::{ExtensionName, PluginCreateError, ZarrVersion};

/// The grid of an array's shape and the lengths of its chunks in each dimension.
#[derive(Drop)]
pub struct BoundaryGrid {
    /// The length of each dimension of the array.
    pub array_shape: Vec<u64>,
    /// The chunks of each dimension.
    pub axes: Vec<BoundaryAxis>,
    /// How many chunks there are in each dimension.
    pub grid_shape: Vec<u64>,
    /// The largest length of each dimension, or 1 where it has no chunk.
    pub largest: ChunkShape,
    ghost cut: { are_cut array_shape.items (lengths_of axes.items) ≡ true },
    ghost counts: { grid_shape.items ≡ (boundary_grid (lengths_of axes.items)).grid_shape },
    ghost most: { nonzeros largest.items ≡ largest_of axes.items },
}

impl BoundaryGrid {
    ghost use Rattle.zarr_basics.specs.BoundaryGrid.{grid_of_boundary};
    ghost use Rattle.zarr_basics.specs.Largest.{AreLargest};
    ghost use Rattle.zarr_basics.specs.Limits.{has_large_chunk};

    /// The grid of an array's shape and chunks that cut it in each dimension.
    ///
    /// # Errors
    /// [`AllocError`] where memory runs out.
    pub fn new(
        alloc: Global,
        array_shape: Vec<u64>,
        axes: Vec<BoundaryAxis>,
    ) -> Result<Self, AllocError>
        requires { are_cut array_shape.items (lengths_of axes.items) ≡ true }
        ensures array { IfOk result (λ grid. grid.array_shape.items ≡ array_shape.items) }
        ensures axes { IfOk result (λ grid. grid.axes.items ≡ axes.items) }
    {
        let grid_shape = counts_of(alloc, &axes)?;
        let largest = largest_of(alloc, &axes)?;
        Ok(BoundaryGrid {
            array_shape,
            axes,
            grid_shape,
            largest,
        })
    }

    /// The lengths of a largest chunk: no chunk has more elements, and where there is a chunk, one has these lengths.
    pub fn largest_lengths(&self) -> &[NonZeroU64]
        ensures { AreLargest (grid_of_boundary self.now) (nonzeros result.now) }
    {
        self.largest.as_slice()
    }

    /// Whether some chunk is too large for elements of a size: its box ends past `u64`, or the number of its elements
    /// plus one, or their number times the size, passes `usize`.
    pub fn has_large_chunk(&self, size: Option<usize>) -> bool
        ensures { result ≡ has_large_chunk (grid_of_boundary self.now) size }
    {
        if !are_some(&self.grid_shape) {
            return false;
        }
        if !ends_fit(&self.axes) {
            return true;
        }
        is_too_large(&self.largest, size)
    }
}

// The chunks that a subset with elements meets.
fn chunks_of(
    alloc: Global,
    array_subset: &ArraySubset,
    axes: &[BoundaryAxis],
) -> Result<ArraySubset, AllocError>
    requires rank { length (region array_subset.now) ≡ length axes.now }
    requires some { 0 < count (region array_subset.now) }
    ensures { IfOk result (λ s. region s ≡ boundary_chunk_region axes.now
        (region array_subset.now)) }
{
    let first = chunks_at(alloc, axes, array_subset.start())?;
    let last = last_chunks(alloc, axes, array_subset.start(), array_subset.shape())?;
    match ArraySubset::new_with_start_end_inc(first, last) {
        Ok(chunks) => Ok(chunks),
        Err(_) => unreachable!(),
    }
}

impl ExtensionName for BoundaryGrid {
    ghost use Rattle.std.specs.Prelude.{Some, codes};

    ghost name_in = { λ _ _. Some (codes "zarr_basics.boundaries") };

    fn name(&self, alloc: Global, _version: ZarrVersion) -> Result<Option<String>, AllocError> {
        let name = String::from_str(alloc, "zarr_basics.boundaries")?;
        Ok(Some(name))
    }
}

impl ChunkGridTraits for BoundaryGrid {
    ghost use Rattle.std.specs.Prelude.{refl};
    ghost use Rattle.zarr_basics.specs.BoundaryGrid.{shape_of_boundary, grid_of_boundary, covers_boundary};
    ghost use Rattle.zarr_basics.specs.BoundaryConfigurations.{lengths_members};
    ghost use Rattle.zarr_basics.specs.BoundaryMaking.{is_boundaries, boundary_created, boundaries_refuse_others};

    ghost shape = { shape_of_boundary };

    ghost grid = { grid_of_boundary };

    ghost configured = { λ g. lengths_members (lengths_of g.axes.items) };

    ghost is_known = { is_boundaries };

    ghost created = { boundary_created };

    ghost covers = { covers_boundary };

    ghost knows_own = { λ _. refl };

    ghost refuses = { boundaries_refuse_others };

    #[tactic(auto, using(crate::proofs::MakingLaws::made_over))]
    fn create(
        alloc: Global,
        metadata: &MetadataV3,
        array_shape: &[u64],
    ) -> Result<Self, PluginCreateError> {
        if metadata.name() == "zarr_basics.boundaries" {
            boundaries_by(alloc, metadata, array_shape)
        } else {
            Err(unsupported_grid(alloc, metadata.name()))
        }
    }

    fn configuration(&self, alloc: Global) -> Result<Configuration, AllocError> {
        lengths_configuration(alloc, &self.axes)
    }

    fn array_shape(&self) -> &[u64] {
        self.array_shape.as_slice()
    }

    fn grid_shape(&self) -> &[u64] {
        self.grid_shape.as_slice()
    }

    #[tactic(auto, using(crate::proofs::AxisFacts::of_boxes))]
    fn chunk_shape(
        &self,
        alloc: Global,
        chunk_indices: &[u64],
    ) -> Result<Option<ChunkShape>, ChunkGridError> {
        ChunkGridError::expect_rank(chunk_indices.len(), self.array_shape.len())?;
        if !are_below(&self.grid_shape, chunk_indices) {
            return Ok(None);
        }
        let lengths = lengths_at(alloc, &self.axes, chunk_indices)?;
        Ok(Some(lengths))
    }

    #[tactic(auto, using(crate::proofs::AxisFacts::of_boxes))]
    fn chunk_shape_u64(
        &self,
        alloc: Global,
        chunk_indices: &[u64],
    ) -> Result<Option<ArrayShape>, ChunkGridError> {
        ChunkGridError::expect_rank(chunk_indices.len(), self.array_shape.len())?;
        if !are_below(&self.grid_shape, chunk_indices) {
            return Ok(None);
        }
        let lengths = numbers_at(alloc, &self.axes, chunk_indices)?;
        Ok(Some(lengths))
    }

    #[tactic(auto, using(crate::proofs::AxisFacts::of_boxes))]
    fn chunk_origin(
        &self,
        alloc: Global,
        chunk_indices: &[u64],
    ) -> Result<Option<ArrayIndices>, ChunkGridError> {
        ChunkGridError::expect_rank(chunk_indices.len(), self.array_shape.len())?;
        if !are_below(&self.grid_shape, chunk_indices) {
            return Ok(None);
        }
        let origin = starts_at(alloc, &self.axes, chunk_indices)?;
        Ok(Some(origin))
    }

    #[tactic(auto, using(crate::proofs::AxisFacts::of_indices))]
    fn chunk_indices(
        &self,
        alloc: Global,
        array_indices: &[u64],
    ) -> Result<Option<ArrayIndices>, ChunkGridError> {
        ChunkGridError::expect_rank(array_indices.len(), self.array_shape.len())?;
        if !are_below(&self.array_shape, array_indices) {
            return Ok(None);
        }
        let chunk = chunks_at(alloc, &self.axes, array_indices)?;
        Ok(Some(chunk))
    }

    #[tactic(auto, using(crate::proofs::RegionFacts::of_meeting))]
    fn chunks_meeting(
        &self,
        alloc: Global,
        array_subset: &ArraySubset,
    ) -> Result<ArraySubset, AllocError> {
        if array_subset.is_empty() {
            return array_subset.try_clone(alloc);
        }
        let chunks = chunks_of(alloc, array_subset, &self.axes)?;
        Ok(chunks)
    }
}
