//! The chunks of a regular grid.

ghost use Rattle.std.specs.Prelude.{◌≡◌, ◌<◌, length, IfOk};
ghost use Rattle.zarr_model.specs.Prelude.{count};
ghost use Rattle.zarrs_array_subset.specs.ArraySubset.{region};
ghost use Rattle.zarr_basics.specs.RegularGrid.{chunk_region};

use super::RegularGrid;
use super::numbers::{lasts, products, quotients};
use crate::grid_kind::{chunk_shape_configuration, regular_by};
use crate::refusal::unsupported_grid;
use std::alloc::{AllocError, Global};
use std::num::NonZeroU64;
use zarrs_array_subset::{ArrayIndices, ArrayShape, ArraySubset, ChunkShape, shape_numbers};
use zarrs_chunk_grid::{ChunkGridError, ChunkGridTraits, are_below};
use zarrs_metadata_parts::{Configuration, MetadataV3};
use zarrs_plugin::{ExtensionName, PluginCreateError, ZarrVersion};

// The chunks that a subset with elements meets.
fn chunks_of(
    alloc: Global,
    array_subset: &ArraySubset,
    lengths: &[NonZeroU64],
) -> Result<ArraySubset, AllocError>
    requires rank { length (region array_subset.now) ≡ length lengths.now }
    requires some { 0 < count (region array_subset.now) }
    ensures { IfOk result (λ s. region s ≡ chunk_region lengths.now (region array_subset.now)) }
{
    let first = quotients(alloc, array_subset.start(), lengths)?;
    let last = lasts(alloc, array_subset.start(), array_subset.shape(), lengths)?;
    match ArraySubset::new_with_start_end_inc(first, last) {
        Ok(chunks) => Ok(chunks),
        Err(_) => unreachable!(),
    }
}

impl ExtensionName for RegularGrid {
    ghost use Rattle.std.specs.Prelude.{Some, codes};

    ghost name_in = { λ _ _. Some (codes "regular") };

    fn name(&self, alloc: Global, _version: ZarrVersion) -> Result<Option<String>, AllocError> {
        let name = String::from_str(alloc, "regular")?;
        Ok(Some(name))
    }
}

impl ChunkGridTraits for RegularGrid {
    ghost use Rattle.std.specs.Prelude.{refl};
    ghost use Rattle.zarr_basics.specs.Lengths.{nonzeros};
    ghost use Rattle.zarr_basics.specs.GridConfigurations.{chunk_shape_members};
    ghost use Rattle.zarr_basics.specs.GridOf.{shape_of_regular, grid_of_regular, covers_regular};
    ghost use Rattle.zarr_basics.specs.GridMaking.{is_regular, regular_created, refuses_others};

    ghost shape = { shape_of_regular };

    ghost grid = { grid_of_regular };

    ghost configured = { λ g. chunk_shape_members (nonzeros g.chunk_shape.items) };

    ghost is_known = { is_regular };

    ghost created = { regular_created };

    ghost covers = { covers_regular };

    ghost knows_own = { λ _. refl };

    ghost refuses = { refuses_others };

    #[tactic(auto, using(crate::proofs::MakingLaws::made_over))]
    fn create(
        alloc: Global,
        metadata: &MetadataV3,
        array_shape: &[u64],
    ) -> Result<Self, PluginCreateError> {
        if metadata.name() == "regular" {
            regular_by(alloc, metadata, array_shape)
        } else {
            Err(unsupported_grid(alloc, metadata.name()))
        }
    }

    fn configuration(&self, alloc: Global) -> Result<Configuration, AllocError> {
        chunk_shape_configuration(alloc, &self.chunk_shape)
    }

    fn array_shape(&self) -> &[u64] {
        self.array_shape.as_slice()
    }

    fn grid_shape(&self) -> &[u64] {
        self.grid_shape.as_slice()
    }

    #[tactic(auto, using(crate::proofs::RegularFacts::of_boxes))]
    fn chunk_shape(
        &self,
        alloc: Global,
        chunk_indices: &[u64],
    ) -> Result<Option<ChunkShape>, ChunkGridError> {
        ChunkGridError::expect_rank(chunk_indices.len(), self.array_shape.len())?;
        if !are_below(&self.grid_shape, chunk_indices) {
            return Ok(None);
        }
        let lengths = self.chunk_shape.as_slice().to_vec(alloc)?;
        Ok(Some(lengths))
    }

    #[tactic(auto, using(crate::proofs::RegularFacts::of_boxes))]
    fn chunk_shape_u64(
        &self,
        alloc: Global,
        chunk_indices: &[u64],
    ) -> Result<Option<ArrayShape>, ChunkGridError> {
        ChunkGridError::expect_rank(chunk_indices.len(), self.array_shape.len())?;
        if !are_below(&self.grid_shape, chunk_indices) {
            return Ok(None);
        }
        let lengths = shape_numbers(alloc, &self.chunk_shape)?;
        Ok(Some(lengths))
    }

    #[tactic(auto, using(crate::proofs::RegularFacts::of_boxes))]
    fn chunk_origin(
        &self,
        alloc: Global,
        chunk_indices: &[u64],
    ) -> Result<Option<ArrayIndices>, ChunkGridError> {
        let shape = self.array_shape.as_slice();
        ChunkGridError::expect_rank(chunk_indices.len(), shape.len())?;
        if !are_below(&self.grid_shape, chunk_indices) {
            return Ok(None);
        }
        let origin = products(alloc, chunk_indices, &self.chunk_shape)?;
        Ok(Some(origin))
    }

    #[tactic(auto, using(crate::proofs::RegularFacts::of_indices))]
    fn chunk_indices(
        &self,
        alloc: Global,
        array_indices: &[u64],
    ) -> Result<Option<ArrayIndices>, ChunkGridError> {
        ChunkGridError::expect_rank(array_indices.len(), self.array_shape.len())?;
        if !are_below(&self.array_shape, array_indices) {
            return Ok(None);
        }
        let chunk = quotients(alloc, array_indices, &self.chunk_shape)?;
        Ok(Some(chunk))
    }

    #[tactic(auto, using(crate::proofs::RegularLaws::of_meeting))]
    fn chunks_meeting(
        &self,
        alloc: Global,
        array_subset: &ArraySubset,
    ) -> Result<ArraySubset, AllocError> {
        if array_subset.is_empty() {
            return array_subset.try_clone(alloc);
        }
        let chunks = chunks_of(alloc, array_subset, &self.chunk_shape)?;
        Ok(chunks)
    }
}
